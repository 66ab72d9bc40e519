//! A whole page.
ghost use Rattle.std.specs.Prelude.{◌≡◌, IfOk, codes, option_map};
ghost use Rattle.wf_def.specs.ActionSeen.{graph_tree};
ghost use Rattle.wf_drawn.specs.Page.{beside, given, header, page, run_look};
ghost use Rattle.wf_html.specs.Html.{written};
ghost use Rattle.wf_record.specs.Seen.{record_tree};
ghost use Rattle.wf_shown.specs.Facts.{fact};
ghost use Rattle.wf_val.specs.Seen.{tree};

use crate::graph::in_graph;
use crate::levels::levels_of;
use crate::view::View;
use std::alloc::{AllocError, Global};
use wf_def::Graph;
use wf_html::{Look, Tag, close, open, say, say_in};
use wf_record::{Record, RunStatus};
use wf_shown::{fact, fact_of_members};
use wf_val::Val;

fn run_look(status: RunStatus) -> Look
    ensures { result ≡ run_look status }
{
    match status {
        RunStatus::Succeeded => Look::Succeeded,
        RunStatus::Failed => Look::Failed,
        RunStatus::Cancelled => Look::Cancelled,
    }
}

// What an earlier record is named by.
fn beside(bytes: Vec<u8>, earlier: Option<&Record>) -> Result<Vec<u8>, AllocError>
    ensures { IfOk result (λ b. b.items ≡ written bytes.items (beside (option_map (λ r. record_tree r.now) earlier.entry))) }
{
    match earlier {
        None => Ok(bytes),
        Some(old) => {
            let bytes = open(bytes, Tag::Line)?;
            let bytes = say(bytes, "beside ")?;
            let bytes = say(bytes, old.run.as_str())?;
            close(bytes, Tag::Line)
        }
    }
}

// What the trigger gave, where it gave something.
fn given(alloc: Global, bytes: Vec<u8>, trigger: &Val) -> Result<Vec<u8>, AllocError>
    ensures { IfOk result (λ b. b.items ≡ written bytes.items (fact (codes "trigger") (given (tree trigger.now)))) }
{
    match trigger.member("outputs") {
        Some(outputs) => fact(alloc, bytes, "trigger", outputs),
        None => Ok(bytes),
    }
}

// What is said of the run as a whole.
#[tactic(auto, using(wf_html::proofs::PieceLemmas::written_append))]
fn header(
    alloc: Global,
    bytes: Vec<u8>,
    log: &Record,
    earlier: Option<&Record>,
) -> Result<Vec<u8>, AllocError>
    ensures { IfOk result (λ b. b.items
        ≡ written bytes.items (header (record_tree log.now) (option_map (λ r. record_tree r.now) earlier.entry))) }
{
    let bytes = open(bytes, Tag::Header)?;
    let bytes = say_in(bytes, Tag::Heading, log.run.as_str())?;
    let bytes = open(bytes, Tag::Line)?;
    let bytes = say_in(bytes, Tag::Mark(run_look(log.status)), log.status.name())?;
    let bytes = close(bytes, Tag::Line)?;
    let bytes = beside(bytes, earlier)?;
    let bytes = open(bytes, Tag::Facts)?;
    let bytes = fact(alloc, bytes, "error", &log.error)?;
    let bytes = fact(alloc, bytes, "response", &log.response)?;
    let bytes = fact_of_members(alloc, bytes, "outputs", &log.outputs)?;
    let bytes = given(alloc, bytes, &log.trigger)?;
    let bytes = close(bytes, Tag::Facts)?;
    close(bytes, Tag::Header)
}

/// The page of a definition's graph and a record. Where there is an earlier record, each row is marked by what became of the one of its
/// address there.
#[tactic(auto, using(wf_html::proofs::PieceLemmas::written_append), unfolding(crate::specs::Page::page))]
pub fn draw(
    alloc: Global,
    graph: &Graph,
    log: &Record,
    earlier: Option<&Record>,
) -> Result<Vec<u8>, AllocError>
    ensures { IfOk result (λ b. b.items
        ≡ page (graph_tree graph.now) (record_tree log.now) (option_map (λ r. record_tree r.now) earlier.entry)) }
{
    let levels = levels_of(alloc, graph)?;
    let view = View {
        log,
        earlier,
        levels: &levels,
    };
    let bytes = open(Vec::new(alloc), Tag::Page)?;
    let bytes = say_in(bytes, Tag::Title, log.run.as_str())?;
    let bytes = open(bytes, Tag::Body)?;
    let bytes = header(alloc, bytes, log, earlier)?;
    let bytes = in_graph(alloc, bytes, &view, graph)?;
    let bytes = close(bytes, Tag::Body)?;
    close(bytes, Tag::Page)
}
