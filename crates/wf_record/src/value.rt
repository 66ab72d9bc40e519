//! A record as a value.
ghost use Rattle.std.specs.Prelude.{◌≡◌, map, IfOk};
ghost use Rattle.wf_val.specs.Get.{name_of};
ghost use Rattle.wf_val.specs.NameOrder.{put_named};
ghost use Rattle.wf_val.specs.Seen.{tree};
ghost use Rattle.wf_record.specs.Record.{at_value, attempts_value, index_value, record_value, row_value, try_value};
ghost use Rattle.wf_record.specs.Seen.{record_tree, row_tree};

use crate::attempt::{Tries, Try};
use crate::record::Record;
use crate::row::Row;
use std::alloc::{AllocError, Global};
use wf_val::{Fields, Indexes, Text, Val, Vals};

// An index as a number, which is at most the greatest that a value holds.
fn index_value(index: u64) -> Val
    ensures { tree result ≡ index_value index }
{
    Val::Int(index.min(i64::MAX as u64) as i64)
}

/// The numbers of an address as a list.
pub fn at_value(alloc: Global, at: &Indexes) -> Result<Val, AllocError>
    ensures { IfOk result (λ v. tree v ≡ at_value at.now) }
{
    let mut values = Vals::new(alloc);
    for index in at.as_slice() {
        values.push(index_value(*index))?;
    }
    Ok(Val::List(values))
}

// What an attempt came to as a number, or as a word where it has no code.
fn try_value(alloc: Global, attempt: Try) -> Result<Val, AllocError>
    ensures { IfOk result (λ v. tree v ≡ try_value attempt) }
{
    let word = match attempt {
        Try::Code(code) => return Ok(Val::Int(code as i64)),
        Try::NoConnection => "noConnection",
        Try::TimedOut => "timedOut",
        Try::NoAnswer => "noAnswer",
        Try::Unknown => "unknown",
    };
    Ok(Val::Text(Text::of(alloc, word)?))
}

/// Attempts as a list.
pub fn attempts_value(alloc: Global, attempts: &Tries) -> Result<Val, AllocError>
    ensures { IfOk result (λ v. tree v ≡ attempts_value attempts.now) }
{
    let mut values = Vals::new(alloc);
    for attempt in attempts.as_slice() {
        values.push(try_value(alloc, *attempt)?)?;
    }
    Ok(Val::List(values))
}

// Fields with one more member, which replaces the one of its name.
fn with(alloc: Global, fields: Fields, name: &str, value: Val) -> Result<Fields, AllocError>
    ensures { IfOk result (λ new. new ≡ put_named name_of (name.now, tree value) fields) }
{
    let mut more = fields;
    more.put(Text::of(alloc, name)?, value)?;
    Ok(more)
}

fn row_value(alloc: Global, row: &Row) -> Result<Val, AllocError>
    ensures { IfOk result (λ value. tree value ≡ row_value (row_tree row.now)) }
{
    let fields = Fields::new(alloc);
    let fields = with(alloc, fields, "at", at_value(alloc, &row.address.at)?)?;
    let attempts = attempts_value(alloc, &row.attempts)?;
    let fields = with(alloc, fields, "attempts", attempts)?;
    let fields = with(alloc, fields, "code", Val::Text(row.code.copy(alloc)?))?;
    let fields = with(alloc, fields, "error", row.error.copy(alloc)?)?;
    let fields = with(alloc, fields, "inputs", row.inputs.copy(alloc)?)?;
    let name = row.address.name.copy(alloc)?;
    let fields = with(alloc, fields, "name", Val::Text(name))?;
    let fields = with(alloc, fields, "outputs", row.outputs.copy(alloc)?)?;
    let status = Text::of(alloc, row.status.name())?;
    let fields = with(alloc, fields, "status", Val::Text(status))?;
    let fields = with(alloc, fields, "tracked", row.tracked.copy(alloc)?)?;
    Ok(Val::Obj(fields))
}

fn row_values(alloc: Global, rows: &[Row]) -> Result<Vals, AllocError>
    ensures { IfOk result (λ values. values ≡ map row_value (map row_tree rows.now)) }
{
    let mut values = Vals::new(alloc);
    for row in rows {
        values.push(row_value(alloc, row)?)?;
    }
    Ok(values)
}

impl Record {
    /// The record as a value, which holds a copy of all that is in it.
    pub fn to_val(&self, alloc: Global) -> Result<Val, AllocError>
        ensures { IfOk result (λ value. tree value ≡ record_value (record_tree self.now)) }
    {
        let fields = Fields::new(alloc);
        let digest = Text::from_string(hex::encode(alloc, self.digest.bytes)?);
        let fields = with(alloc, fields, "definition", Val::Text(digest))?;
        let fields = with(alloc, fields, "error", self.error.copy(alloc)?)?;
        let fields = with(alloc, fields, "form", Val::Int(2))?;
        let fields = with(alloc, fields, "outputs", self.outputs.copy(alloc)?)?;
        let parameters = self.parameters.copy(alloc)?;
        let fields = with(alloc, fields, "parameters", Val::Obj(parameters))?;
        let fields = with(alloc, fields, "response", self.response.copy(alloc)?)?;
        let rows = row_values(alloc, self.rows.as_slice())?;
        let fields = with(alloc, fields, "rows", Val::List(rows))?;
        let fields = with(alloc, fields, "run", Val::Text(self.run.copy(alloc)?))?;
        let status = Text::of(alloc, self.status.name())?;
        let fields = with(alloc, fields, "status", Val::Text(status))?;
        let fields = with(alloc, fields, "trigger", self.trigger.copy(alloc)?)?;
        Ok(Val::Obj(fields))
    }
}
