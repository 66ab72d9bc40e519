//! What is said of all records.
ghost use Rattle.std.specs.Prelude.{◌≡◌, ◌≢◌, Err, IfErr, IfOk, Ok, OnOk, Option, map};
ghost use Rattle.wf_history.specs.History.{bad, list_of, listed, on_line, scan_of};
ghost use Rattle.wf_history.specs.Seen.{IsJudged, listed_tree, listed_with, on_value};
ghost use Rattle.wf_history.specs.declared.fault.HistoryFault.{HistoryFault};
ghost use Rattle.wf_record_form.specs.Reading.{record_of};
ghost use Rattle.wf_val.specs.Seen.{tree};

use crate::fault::HistoryFault;
use crate::line::value_on;
use std::alloc::{AllocError, Global};
use wf_lines::{split_line, without_return};
use wf_lists::Series;
use wf_record::RunStatus;
use wf_record_form::{row_count_in, run_in, status_in};
use wf_val::{Name, Text, Val};

/// What is said of a record in a line.
#[derive(Drop)]
pub struct Listed {
    pub run: Name,
    pub status: RunStatus,
    /// How many rows it has.
    pub rows: u64,
}

/// What is said of records, in their order.
pub type Listing = Series<Listed>;

/// Of each record on the lines of a file what is said of it.
#[tactic(auto, using(crate::proofs::ListLemmas::listed_all, crate::proofs::ListLemmas::list_step, crate::proofs::ListLemmas::list_bad, crate::proofs::ListLemmas::list_end))]
pub fn list(alloc: Global, bytes: &[u8]) -> Result<Listing, HistoryFault>
    ensures listing { IfOk result (λ ls. list_of bytes.now ≡ Ok (map listed_tree ls)) }
    ensures fault { IfErr result (λ f. f ≢ HistoryFault.Memory → list_of bytes.now ≡ Err f) }
{
    let mut listing = Listing::new(alloc);
    let mut rest = bytes;
    let mut line: u64 = 1;
    while !rest.is_empty() {
        let (first, more) = split_line(rest);
        let value = value_on(alloc, line, without_return(first))?;
        listing = with_listed(alloc, listing, value)?;
        rest = more;
        line += 1;
    }
    Ok(listing)
}

// With what is said of a further line, whose record has this value.
fn with_listed(alloc: Global, listing: Listing, value: Option<Val>) -> Result<Listing, AllocError>
    ensures { IfOk result (λ ls. map listed_tree ls ≡ listed_with (map listed_tree listing) value) }
{
    let mut listing = listing;
    if let Some(value) = value {
        listing.push(said_of(alloc, &value)?)?;
    }
    Ok(listing)
}

fn said_of(alloc: Global, value: &Val) -> Result<Listed, AllocError>
    ensures { IfOk result (λ l. listed_tree l ≡ listed (0, record_of (tree value.now))) }
{
    Ok(Listed {
        run: Text::of(alloc, run_in(value))?,
        status: status_in(value),
        rows: row_count_in(value),
    })
}

/// Whether each line of a file that says something is a record.
#[tactic(auto, using(crate::proofs::ListLemmas::scan_step, crate::proofs::ListLemmas::scan_bad, crate::proofs::ListLemmas::scan_end))]
pub fn scan(alloc: Global, bytes: &[u8]) -> Result<(), HistoryFault>
    ensures records { OnOk result (scan_of bytes.now ≡ Ok tt) }
    ensures fault { IfErr result (λ f. f ≢ HistoryFault.Memory → scan_of bytes.now ≡ Err f) }
{
    let mut rest = bytes;
    let mut line: u64 = 1;
    while !rest.is_empty() {
        let (first, more) = split_line(rest);
        judge_line(alloc, line, without_return(first))?;
        rest = more;
        line += 1;
    }
    Ok(())
}

// Whether a line of this number is a record, where it says something. The value on it isn't kept.
fn judge_line(alloc: Global, number: u64, line: &[u8]) -> Result<(), HistoryFault>
    ensures value { OnOk result ((o : Option Val) × (on_line line.now ≡ on_value o)) }
    ensures fault { IfErr result (λ f. f ≢ HistoryFault.Memory → (on_line line.now ≡ bad) × (f ≡ HistoryFault.Line number)) }
{
    let _value = value_on(alloc, number, line)?;
    Ok(())
}
