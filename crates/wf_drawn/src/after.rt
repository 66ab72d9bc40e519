//! What an action waits for, in words.
ghost use Rattle.std.specs.Prelude.{◌≡◌, IfOk};
ghost use Rattle.wf_drawn.specs.After.{after_pieces, afters, all_wanted, none_listed, only_succeeded, statuses, wanted};
ghost use Rattle.wf_html.specs.Html.{written};

use std::alloc::AllocError;
use wf_def::{After, Afters, Statuses};
use wf_html::{Tag, close, open, say, say_in};

fn only_succeeded(statuses: Statuses) -> bool
    ensures { result ≡ only_succeeded statuses }
{
    statuses.succeeded && !(statuses.failed || statuses.skipped || statuses.timed_out)
}

fn none_listed(statuses: Statuses) -> bool
    ensures { result ≡ none_listed statuses }
{
    !(statuses.succeeded || statuses.failed || statuses.skipped || statuses.timed_out)
}

fn wanted(bytes: Vec<u8>, is_listed: bool, word: &str) -> Result<Vec<u8>, AllocError>
    ensures { IfOk result (λ b. b.items ≡ written bytes.items (wanted is_listed word.now)) }
{
    if is_listed {
        let bytes = say(bytes, " ")?;
        say_in(bytes, Tag::Wanted, word)
    } else {
        Ok(bytes)
    }
}

#[tactic(auto, using(wf_html::proofs::PieceLemmas::written_append))]
fn all_wanted(bytes: Vec<u8>, statuses: Statuses) -> Result<Vec<u8>, AllocError>
    ensures { IfOk result (λ b. b.items ≡ written bytes.items (all_wanted statuses)) }
{
    let bytes = wanted(bytes, statuses.succeeded, "Succeeded")?;
    let bytes = wanted(bytes, statuses.failed, "Failed")?;
    let bytes = wanted(bytes, statuses.skipped, "Skipped")?;
    let bytes = wanted(bytes, statuses.timed_out, "TimedOut")?;
    wanted(bytes, none_listed(statuses), "never")
}

// The statuses that are waited for, where these aren't Succeeded alone.
fn listed(bytes: Vec<u8>, given: Statuses) -> Result<Vec<u8>, AllocError>
    ensures { IfOk result (λ b. b.items ≡ written bytes.items (statuses given)) }
{
    if only_succeeded(given) {
        Ok(bytes)
    } else {
        all_wanted(bytes, given)
    }
}

#[tactic(auto, using(wf_html::proofs::PieceLemmas::written_append))]
fn after(bytes: Vec<u8>, entry: &After) -> Result<Vec<u8>, AllocError>
    ensures { IfOk result (λ b. b.items ≡ written bytes.items (after_pieces entry.now)) }
{
    let bytes = open(bytes, Tag::After)?;
    let bytes = say(bytes, "after ")?;
    let bytes = say(bytes, entry.name.as_str())?;
    let bytes = listed(bytes, entry.statuses)?;
    close(bytes, Tag::After)
}

/// The entries of a `runAfter`.
#[tactic(auto, using(wf_html::proofs::PieceLemmas::written_append))]
pub fn afters(bytes: Vec<u8>, entries: &Afters) -> Result<Vec<u8>, AllocError>
    ensures { IfOk result (λ b. b.items ≡ written bytes.items (afters entries.now)) }
{
    let mut bytes = bytes;
    for entry in entries.as_slice() {
        bytes = after(bytes, entry)?;
    }
    Ok(bytes)
}
