//! The run of a record.
ghost use Rattle.std.specs.Prelude.{◌≡◌, IfOk, option_map};
ghost use Rattle.wf_json.specs.Read.{read_value};
ghost use Rattle.wf_judged.specs.Lines.{run_in, run_named, text_or_empty};
ghost use Rattle.wf_val.specs.Seen.{tree};

use crate::lines::{lines_of, record_lines};
use std::alloc::{AllocError, Global};
use wf_json::JsonFault;
use wf_val::{Text, Val};

/// The name of the run whose record is the first in a text; empty where there is none.
pub fn first_run(alloc: Global, text: &[u8]) -> Result<Text, AllocError>
    ensures { IfOk result (λ run. run ≡ run_named text.now) }
{
    let lines = lines_of(alloc, text)?;
    let records = record_lines(alloc, &lines)?;
    match records.first() {
        Some(line) => run_in(alloc, line),
        None => Text::of(alloc, ""),
    }
}

// The run of the record on a line.
fn run_in(alloc: Global, line: &[u8]) -> Result<Text, AllocError>
    ensures { IfOk result (λ run. run ≡ run_in (read_value line.now)) }
{
    match wf_json::read(alloc, line) {
        Ok(record) => Text::of(alloc, text_or_empty(record.member("run"))),
        Err(JsonFault::Memory) => Err(AllocError),
        Err(_) => Text::of(alloc, ""),
    }
}

fn text_or_empty<'a>(member: Option<&'a Val>) -> &'a str
    ensures { result.now ≡ text_or_empty (option_map (λ v. tree v.now) member.entry) }
{
    match member {
        Some(Val::Text(text)) => text.as_str(),
        _ => "",
    }
}
