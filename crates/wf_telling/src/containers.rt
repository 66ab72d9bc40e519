//! Lines of events of containers.
ghost use Rattle.std.specs.Prelude.{◌≡◌, IfOk, option_map};
ghost use Rattle.wf_asks.specs.Known.{open_tree};
ghost use Rattle.wf_def.specs.ActionSeen.{kind_tree};
ghost use Rattle.wf_trace.specs.DecisionSeen.{decision_tree, verdict_tree};
ghost use Rattle.wf_doing.specs.ViewsSeen.{row_content};
ghost use Rattle.wf_telling.specs.Lines.{begin_by, close_by, open_by, test_by, verdict_by};

use std::alloc::{AllocError, Global};
use wf_asks::OpenAt;
use wf_def::Kind;
use wf_record::Row;
use wf_trace::{Decision, Verdict, begin_line, close_line, open_line, test_line};
use wf_val::{Indexes, Name};

/// A container of this kind has opened.
pub(crate) fn open(
    alloc: Global,
    name: &Name,
    at: &Indexes,
    kind: &Kind,
    container: Option<&OpenAt<Decision, Verdict>>,
) -> Result<Vec<u8>, AllocError>
    ensures { IfOk result (λ line. line.items ≡ open_by (kind_tree kind.now) name.now at.now
        (option_map (λ o. open_tree decision_tree verdict_tree o.now) container.entry)) }
{
    match container {
        Some(container) => open_line(alloc, name, at, kind, &container.decision),
        None => Ok(Vec::new(alloc)),
    }
}

/// An iteration of a loop has begun, the last so far.
pub(crate) fn begin(
    alloc: Global,
    name: &Name,
    at: &Indexes,
    container: Option<&OpenAt<Decision, Verdict>>,
) -> Result<Vec<u8>, AllocError>
    ensures { IfOk result (λ line. line.items ≡ begin_by name.now at.now
        (option_map (λ o. open_tree decision_tree verdict_tree o.now) container.entry)) }
{
    match container {
        Some(container) => begin_line(alloc, name, at, container.next.saturating_sub(1)),
        None => Ok(Vec::new(alloc)),
    }
}

fn verdict_line(
    alloc: Global,
    name: &Name,
    at: &Indexes,
    index: u64,
    test: Option<&Verdict>,
) -> Result<Vec<u8>, AllocError>
    ensures { IfOk result (λ line. line.items
        ≡ verdict_by name.now at.now index (option_map (λ v. verdict_tree v.now) test.entry)) }
{
    match test {
        Some(verdict) => test_line(alloc, name, at, index, verdict),
        None => Ok(Vec::new(alloc)),
    }
}

/// An Until was tested behind the last of its iterations.
pub(crate) fn test(
    alloc: Global,
    name: &Name,
    at: &Indexes,
    container: Option<&OpenAt<Decision, Verdict>>,
) -> Result<Vec<u8>, AllocError>
    ensures { IfOk result (λ line. line.items ≡ test_by name.now at.now
        (option_map (λ o. open_tree decision_tree verdict_tree o.now) container.entry)) }
{
    match container {
        Some(container) => verdict_line(
            alloc,
            name,
            at,
            container.next.saturating_sub(1),
            container.test.as_ref(),
        ),
        None => Ok(Vec::new(alloc)),
    }
}

/// A container has closed.
pub(crate) fn close(
    alloc: Global,
    name: &Name,
    at: &Indexes,
    row: Option<&Row>,
) -> Result<Vec<u8>, AllocError>
    ensures { IfOk result (λ line. line.items ≡ close_by name.now at.now (option_map (λ r. row_content r.now) row.entry)) }
{
    match row {
        Some(row) => close_line(alloc, name, at, row),
        None => Ok(Vec::new(alloc)),
    }
}
