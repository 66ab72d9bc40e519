//! Rows of actions.
ghost use Rattle.std.specs.Prelude.{◌≡◌, [], IfOk};
ghost use Rattle.wf_closing.specs.DoneSeen.{done_tree};
ghost use Rattle.wf_closing.specs.Rows.{row_of, skipped};
ghost use Rattle.wf_closing.specs.Source.{unknown};
ghost use Rattle.wf_record.specs.Seen.{row_tree};
ghost use Rattle.wf_val.specs.Seen.{tree};
ghost use Rattle.wf_val.specs.ValueTree.{no_members, object};
ghost use Rattle.wf_doing.specs.Places.{named};

use std::alloc::{AllocError, Global};
use wf_closing::Done;
use wf_json::fault_text;
use wf_lists::TryCopy;
use wf_record::{Row, Status, Tries};
use wf_val::{Address, EvalFault, Fields, Indexes, Name, Text, Val};

// The row of an action that came to this, with its tracked properties and its attempts, for an instance that is known where it stands: it
// has no address, which the rows of a record get as they are listed.
pub(crate) fn without_address(alloc: Global, done: Done, tracked: Val, attempts: Tries) -> Row
    ensures { (row_tree result).row ≡ row_of (done_tree done) (tree tracked) attempts }
{
    Row {
        address: Address {
            name: Text::from_string(String::new(alloc)),
            at: Indexes::new(alloc),
        },
        status: done.status,
        code: done.code,
        inputs: done.inputs,
        outputs: done.outputs,
        error: done.error,
        tracked,
        attempts,
    }
}

// The same, at an address.
fn row(
    alloc: Global,
    name: &Name,
    at: &Indexes,
    done: Done,
    tracked: Val,
    attempts: Tries,
) -> Result<Row, AllocError>
    ensures { IfOk result (λ r. row_tree r
        ≡ record { address = named name.now at.now; row = row_of (done_tree done) (tree tracked) attempts }) }
{
    let address = Address {
        name: name.copy(alloc)?,
        at: at.copy(alloc)?,
    };
    Ok(Row {
        address,
        status: done.status,
        code: done.code,
        inputs: done.inputs,
        outputs: done.outputs,
        error: done.error,
        tracked,
        attempts,
    })
}

// What a number comes to that no action has.
pub(crate) fn unknown(alloc: Global) -> Result<Done, AllocError>
    ensures { IfOk result (λ d. done_tree d ≡ unknown) }
{
    let fault = EvalFault::NoValue {
        name: Text::from_string(String::new(alloc)),
    };
    Ok(Done {
        status: Status::Failed,
        code: Text::of(alloc, "InvalidTemplate")?,
        inputs: Val::Null,
        outputs: Val::Null,
        error: Val::Text(fault_text(alloc, &fault)?),
    })
}

// And its row.
pub(crate) fn unknown_row(alloc: Global) -> Result<Row, AllocError>
    ensures { IfOk result (λ r. (row_tree r).row ≡ row_of unknown (object no_members) []) }
{
    let done = unknown(alloc)?;
    let tracked = Val::Obj(Fields::new(alloc));
    Ok(without_address(alloc, done, tracked, Tries::new(alloc)))
}

/// The row of an action that doesn't run.
pub fn skipped(alloc: Global, name: &Name, at: &Indexes) -> Result<Row, AllocError>
    ensures { IfOk result (λ r. row_tree r ≡ record { address = named name.now at.now; row = skipped }) }
{
    let done = wf_closing::skipped(alloc)?;
    row(
        alloc,
        name,
        at,
        done,
        Val::Obj(Fields::new(alloc)),
        Tries::new(alloc),
    )
}
