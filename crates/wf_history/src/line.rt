//! What is on a line.
ghost use Rattle.std.specs.Prelude.{◌≡◌, ◌≢◌, IfErr, IfOk, Ok};
ghost use Rattle.wf_history.specs.History.{bad, is_silent, on_line};
ghost use Rattle.wf_history.specs.Seen.{IsJudged, on_value};
ghost use Rattle.wf_history.specs.declared.fault.HistoryFault.{HistoryFault};

use crate::fault::HistoryFault;
use std::alloc::Global;
use wf_json::JsonFault;
use wf_record_form::{RecordFault, judge};
use wf_val::Val;

// Whether a line says nothing.
fn is_silent(line: &[u8]) -> bool
    ensures { result ≡ is_silent line.now }
{
    match line.first() {
        None => true,
        Some(byte) => *byte == b'#',
    }
}

/// The value of the record on a line of this number; none where the line says nothing.
pub(crate) fn value_on(alloc: Global, number: u64, line: &[u8]) -> Result<Option<Val>, HistoryFault>
    ensures value { IfOk result (λ o. on_line line.now ≡ on_value o) }
    ensures judged { IfOk result (λ o. IsJudged o) }
    ensures fault { IfErr result (λ f. f ≢ HistoryFault.Memory → (on_line line.now ≡ bad) × (f ≡ HistoryFault.Line number)) }
{
    if is_silent(line) {
        return Ok(None);
    }
    let value = match wf_json::read(alloc, line) {
        Ok(value) => value,
        Err(JsonFault::Memory) => return Err(HistoryFault::Memory),
        Err(_) => return Err(HistoryFault::Line { number }),
    };
    match judge(alloc, &value) {
        Ok(()) => Ok(Some(value)),
        Err(RecordFault::Memory) => Err(HistoryFault::Memory),
        Err(_) => Err(HistoryFault::Line { number }),
    }
}
