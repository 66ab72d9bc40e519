//! Records, read from their values.
ghost use Rattle.std.specs.Prelude.{◌≡◌, ◌≢◌, Err, IfErr, IfOk, Ok, OnOk, map, option_map};
ghost use Rattle.wf_lists.specs.KeyOrder.{IsInKeyOrder};
ghost use Rattle.wf_record_form.specs.OfVal.{of_val, other_form, version_in};
ghost use Rattle.wf_record_form.specs.Reading.{address_said, record_of, row_of, rows_in};
ghost use Rattle.wf_record.specs.Record.{address_of};
ghost use Rattle.wf_record.specs.Seen.{record_tree, row_tree};
ghost use Rattle.wf_record_form.specs.declared.fault.RecordFault.TheVariants.{Memory};
ghost use Rattle.wf_val.specs.Address.{address_cmp};
ghost use Rattle.wf_val.specs.Seen.{tree};

use crate::fault::RecordFault;
use crate::members::{
    attempts_in, digest_in, indexes_in, items_or_none, members_or_none, run_status_of_word,
    status_of_word, text_or_empty, value_or_null,
};
use crate::part::{Part, Version};
use std::alloc::{AllocError, Global};
use wf_places::least_place;
use wf_record::{Record, Row, Rows};
use wf_val::{Address, Text, Val};

/// The record that a value is, or why it is none.
pub fn of_val(alloc: Global, value: &Val) -> Result<Record, RecordFault>
    ensures record { IfOk result (λ r. of_val (tree value.now) ≡ Ok (record_tree r)) }
    ensures fault { IfErr result (λ f. f ≢ Memory → of_val (tree value.now) ≡ Err f) }
{
    judge(alloc, value)?;
    Ok(record_of(alloc, value)?)
}

/// Whether a value is a record, or why it is none. It takes no room for the record, only for the pointers that it compares.
pub fn judge(alloc: Global, value: &Val) -> Result<(), RecordFault>
    ensures record { OnOk result (of_val (tree value.now) ≡ Ok (record_of (tree value.now))) }
    ensures fault { IfErr result (λ f. f ≢ Memory → of_val (tree value.now) ≡ Err f) }
{
    let form = value.member("form");
    if let Some(number) = other_form(form) {
        return Err(RecordFault::Version { number });
    }
    match least_place(alloc, Part::Record(version_in(form)), value)? {
        Some(pointer) => Err(RecordFault::Form {
            pointer: Text::from_string(pointer),
        }),
        None => Ok(()),
    }
}

// A whole number that is the number of no form.
fn other_form(form: Option<&Val>) -> Option<i64>
    ensures { result ≡ other_form (option_map (λ v. tree v.now) form.entry) }
{
    match form {
        Some(Val::Int(number)) if *number != 1 && *number != 2 => Some(*number),
        _ => None,
    }
}

fn version_in(form: Option<&Val>) -> Version
    ensures { result ≡ version_in (option_map (λ v. tree v.now) form.entry) }
{
    match form {
        Some(Val::Int(1)) => Version::One,
        _ => Version::Two,
    }
}

// The record that a value of the form means.
fn record_of(alloc: Global, value: &Val) -> Result<Record, AllocError>
    requires { IsInKeyOrder address_cmp address_of (map row_of (rows_in (tree value.now))) }
    ensures { IfOk result (λ r. record_tree r ≡ record_of (tree value.now)) }
{
    Ok(Record {
        run: Text::of(alloc, text_or_empty(value.member("run")))?,
        digest: digest_in(value.member("definition")),
        trigger: value_or_null(alloc, value.member("trigger"))?,
        parameters: members_or_none(alloc, value.member("parameters"))?,
        status: run_status_of_word(text_or_empty(value.member("status"))),
        error: value_or_null(alloc, value.member("error"))?,
        response: value_or_null(alloc, value.member("response"))?,
        outputs: value_or_null(alloc, value.member("outputs"))?,
        rows: rows_of(alloc, items_or_none(value.member("rows")))?,
    })
}

// Rows that stand in order.
fn rows_of(alloc: Global, values: &[Val]) -> Result<Rows, AllocError>
    requires { IsInKeyOrder address_cmp address_of (map row_of (map tree values.now)) }
    ensures { IfOk result (λ rows. map row_tree rows ≡ map row_of (map tree values.now)) }
{
    let mut rows = Rows::new(alloc);
    for value in values {
        rows.append(row_of(alloc, value)?)?;
    }
    Ok(rows)
}

fn row_of(alloc: Global, value: &Val) -> Result<Row, AllocError>
    ensures { IfOk result (λ r. row_tree r ≡ row_of (tree value.now)) }
{
    Ok(Row {
        address: address_said(alloc, value)?,
        status: status_of_word(text_or_empty(value.member("status"))),
        code: Text::of(alloc, text_or_empty(value.member("code")))?,
        inputs: value_or_null(alloc, value.member("inputs"))?,
        outputs: value_or_null(alloc, value.member("outputs"))?,
        error: value_or_null(alloc, value.member("error"))?,
        tracked: value_or_null(alloc, value.member("tracked"))?,
        attempts: attempts_in(alloc, value.member("attempts"))?,
    })
}

fn address_said(alloc: Global, value: &Val) -> Result<Address, AllocError>
    ensures { IfOk result (λ a. a ≡ address_said (tree value.now)) }
{
    Ok(Address {
        name: Text::of(alloc, text_or_empty(value.member("name")))?,
        at: indexes_in(alloc, items_or_none(value.member("at")))?,
    })
}
