//! What the value of a record says of it at once, without the record being made. Of a value that is none they say nothing of use.
ghost use Rattle.std.specs.Prelude.{◌≡◌, length};
ghost use Rattle.wf_record_form.specs.Reading.{record_of};
ghost use Rattle.wf_val.specs.Seen.{tree};

use crate::members::{items_or_none, run_status_of_word, text_or_empty};
use wf_record::RunStatus;
use wf_val::Val;

/// The name of its run.
pub fn run_in(value: &Val) -> &str
    ensures { result.now ≡ (record_of (tree value.now)).run }
{
    text_or_empty(value.member("run"))
}

/// How its run ended.
pub fn status_in(value: &Val) -> RunStatus
    ensures { result ≡ (record_of (tree value.now)).status }
{
    run_status_of_word(text_or_empty(value.member("status")))
}

/// How many rows it has.
pub fn row_count_in(value: &Val) -> u64
    ensures { result ≡ length (record_of (tree value.now)).rows }
{
    items_or_none(value.member("rows")).len() as u64
}
