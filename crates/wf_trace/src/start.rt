//! What is told of a Start.
ghost use Rattle.std.specs.Prelude.{◌≡◌, ◌∷◌, ◌++◌, codes, IfOk, OnOk};
ghost use Rattle.wf_val.specs.Seen.{tree};
ghost use Rattle.wf_done.specs.DoneSeen.{begun_tree, done_tree};
ghost use Rattle.wf_done.specs.Leaf.{acted};
ghost use Rattle.wf_trace.specs.Texts.{is_faulted, start_text, text_of};
ghost use Rattle.wf_trace.specs.Told.{line_at};

use crate::line::{add, front};
use std::alloc::{AllocError, Global};
use wf_done::{Begun, Done};
use wf_json::write_to;
use wf_val::{Indexes, Name, Val};

// Whether an action found no value for what it asked.
fn is_faulted(done: &Done) -> bool
    ensures { result ≡ is_faulted (done_tree done.now) }
{
    done.code.as_str() == "InvalidTemplate"
}

// Adds a text as it is; of other values nothing.
fn add_text(line: &mut Vec<u8>, value: &Val) -> Result<(), AllocError>
    ensures { OnOk result (line.new.items ≡ line.old.items ++ text_of (tree value.now)) }
{
    match value {
        Val::Text(text) => add(line, text.as_str()),
        _ => add(line, ""),
    }
}

// Adds an exclamation mark, and why an action failed.
#[tactic(auto, using(std::proofs::Common::append_assoc))]
fn add_error(line: &mut Vec<u8>, done: &Done) -> Result<(), AllocError>
    ensures { OnOk result (line.new.items ≡ line.old.items ++ (codes "!" ++ text_of (tree done.now.error))) }
{
    line.push(b'!')?;
    add_text(line, &done.error)
}

// Adds the inputs of an action, or why they have no value.
fn add_done(line: &mut Vec<u8>, done: &Done) -> Result<(), AllocError>
    ensures { OnOk result (line.new.items ≡ line.old.items
        ++ start_text (acted (done_tree done.now))) }
{
    if is_faulted(done) {
        add_error(line, done)
    } else {
        write_to(line, &done.inputs)
    }
}

fn add_begun(line: &mut Vec<u8>, begun: &Begun) -> Result<(), AllocError>
    ensures { OnOk result (line.new.items ≡ line.old.items ++ start_text (begun_tree begun.now)) }
{
    match begun {
        Begun::Calling { inputs, policy: _ } => write_to(line, inputs),
        Begun::Acted(done) => add_done(line, done),
    }
}

/// A leaf has started, and this is what it has from there on.
#[tactic(auto, using(crate::proofs::LineLemmas::spaced_line))]
pub fn start_line(
    alloc: Global,
    name: &Name,
    at: &Indexes,
    begun: &Begun,
) -> Result<Vec<u8>, AllocError>
    ensures { IfOk result (λ line. line.items ≡ line_at (codes "Start") name.now at.now (32 ∷ start_text (begun_tree begun.now))) }
{
    let mut line = front(alloc, "Start", name, at)?;
    line.push(b' ')?;
    add_begun(&mut line, begun)?;
    Ok(line)
}
