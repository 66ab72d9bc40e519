// The command that lists a history.
ghost use Rattle.std.specs.Prelude.{◌≡◌, IfOk, IfErr, map};
ghost use Rattle.wf_history.specs.Seen.{listed_tree};
ghost use Rattle.wf_top.specs.Commands.{list, listed_line, listing_text};
ghost use Rattle.wf_top.specs.Plan.{Says};
ghost use Rattle.wf_top.specs.Served.{Follows};

use crate::HISTORY_LIMIT;
use crate::load::{Stop, load};
use crate::said::{Said, Verdict, say_fault};
use std::alloc::{AllocError, Global};
use wf_files::listing_form;
use wf_history::{Listed, Listing};
use wf_outside::Files;
use wf_val::Text;

// What is written of a record.
fn listed_line(alloc: Global, listed: &Listed) -> Result<Vec<u8>, AllocError>
    ensures { IfOk result (λ line. line.items ≡ listed_line (listed_tree listed.now)) }
{
    let run = listed.run.as_str();
    let status = listed.status.name();
    let rows = listed.rows;
    Ok(format!(in alloc; "run {run} {status} rows {rows}\n")?.into_bytes())
}

// A line for each record.
#[tactic(auto, unfolding(crate::specs::Commands::listing_text))]
fn listing_text(alloc: Global, listing: &Listing) -> Result<Vec<u8>, AllocError>
    ensures { IfOk result (λ text. text.items ≡ listing_text (map listed_tree listing.now)) }
{
    let mut text = Vec::new(alloc);
    for listed in listing.as_slice() {
        text.extend_from_slice(&listed_line(alloc, listed)?)?;
    }
    Ok(text)
}

// Says what the records of a history are.
fn say_listing(alloc: Global, listing: &Listing) -> Result<Said, Stop>
    ensures said { IfOk result (λ said. Says Verdict.Done (listing_text (map listed_tree listing.now))
        ≡ Says said.verdict said.text.items) }
    ensures stopped { IfErr result (λ stop. stop ≡ Stop.Memory) }
{
    Ok(Said {
        verdict: Verdict::Done,
        text: listing_text(alloc, listing)?,
    })
}

/// Lists the records of the history that a file holds.
pub fn list<F: Files>(alloc: Global, files: &mut F, history: &Text) -> Result<Said, Stop>
    ensures follows { Follows (F.held files.old) (list history.now) (F.failed files.old) (F.failed files.new) result }
    ensures same { F.held files.new ≡ F.held files.old }
{
    let file = load(alloc, files, history, HISTORY_LIMIT)?;
    match listing_form(alloc, file) {
        Err(fault) => say_fault(alloc, Verdict::History, b"history ", fault),
        Ok(listing) => say_listing(alloc, &listing),
    }
}
