//! What an action does that holds no others: as it starts, and, where it calls, as it ends.
ghost use Rattle.std.specs.Prelude.{◌≡◌, IfOk, Ok, codes, option_map};
ghost use Rattle.wf_val.specs.Seen.{tree};
ghost use Rattle.wf_def.specs.ActionSeen.{kind_tree};
ghost use Rattle.wf_connect.specs.AttemptsSeen.{tried_tree};
ghost use Rattle.wf_variables.specs.Made.{Comes};
ghost use Rattle.wf_variables.specs.MadeSeen.{made_seen, made_tree};
ghost use Rattle.wf_schema.specs.Fails.{fails};
ghost use Rattle.wf_schema.specs.Reading.{schema_tree};
ghost use Rattle.wf_val.specs.Get.{get};
ghost use Rattle.wf_schema.specs.Pointer.{least};
ghost use Rattle.wf_variables.specs.Looked.{or_null};
ghost use Rattle.wf_template.specs.DataSeen.{data_tree};
ghost use Rattle.wf_variables.specs.TreeValue.{tree_value};
ghost use Rattle.wf_done.specs.DoneSeen.{begun_tree, done_tree};
ghost use Rattle.wf_done.specs.Leaf.{begun_from, called_with, done_by, done_of, judged, made_by};

use crate::done::{Done, faulted, mismatched, skipped, succeeded};
use std::alloc::{AllocError, Global};
use wf_connect::Tried;
use wf_def::Kind;
use wf_retry::Policy;
use wf_schema::{Schema, mismatch};
use wf_template::Tree;
use wf_val::{EvalFault, Text, Val};
use wf_variables::{
    Look, Made, append_array, append_string, compose, decrement, eval_tree, increment, initialize,
    join, parse_json, query, response, select, set, terminate, wait,
};

/// What an action has from its start on: what it came to, or the inputs with which a connector calls, and how it repeats its attempts.
#[derive(Drop)]
pub enum Begun {
    Acted(Done),
    Calling { inputs: Val, policy: Policy },
}

// What it takes in and gives out, where it calls nothing. A container makes nothing of its own: none comes here, and one that did would
// have no value.
fn made_by<L: Look>(alloc: Global, kind: &Kind, look: &mut L) -> Result<Made, EvalFault>
    ensures made { Comes (made_seen result) (made_by (L.told look.old) (kind_tree kind.now) (L.drawn look.old)) (L.drawn look.new) }
    ensures same { L.told look.new ≡ L.told look.old }
    ensures held { L.held look.new ≡ L.held look.old }
{
    match kind {
        Kind::Compose { inputs } => compose(alloc, inputs, look),
        Kind::Wait { inputs } => wait(alloc, inputs, look),
        Kind::Response { inputs } => response(alloc, inputs, look),
        Kind::Terminate { inputs } => terminate(alloc, inputs, look),
        Kind::Select { from, select: item } => select(alloc, from, item, look),
        Kind::Query { from, filter } => query(alloc, from, filter, look),
        Kind::Join { from, with } => join(alloc, from, with, look),
        Kind::ParseJson { content, .. } => parse_json(alloc, content, look),
        Kind::Initialize { variables } => initialize(alloc, variables.as_slice(), look),
        Kind::Set { name, value } => set(alloc, name, value, look),
        Kind::Increment { name, value } => increment(alloc, name, value, look),
        Kind::Decrement { name, value } => decrement(alloc, name, value, look),
        Kind::AppendArray { name, value } => append_array(alloc, name, value, look),
        Kind::AppendString { name, value } => append_string(alloc, name, value, look),
        _ => Err(EvalFault::NoValue {
            name: Text::from_string(String::new(alloc)),
        }),
    }
}

// A ParseJson asks its schema last; the other kinds have none.
fn done_of(alloc: Global, kind: &Kind, made: Made) -> Result<Done, AllocError>
    ensures { IfOk result (λ d. done_tree d ≡ done_of (kind_tree kind.now) (Ok (made_tree made))) }
{
    match kind {
        Kind::ParseJson { schema, .. } => judged(alloc, schema, made),
        _ => succeeded(alloc, made),
    }
}

// The same, made to be copied and measured at each use.
fn shared(alloc: Global, made: Made) -> Result<Made, AllocError>
    ensures { IfOk result (λ m. made_tree m ≡ made_tree made) }
{
    Ok(Made {
        inputs: made.inputs.shared(alloc)?,
        outputs: made.outputs.shared(alloc)?,
    })
}

// What it comes to, where it calls nothing.
fn acted<L: Look>(alloc: Global, kind: &Kind, look: &mut L) -> Result<Done, AllocError>
    ensures done { IfOk result (λ d. done_tree d
        ≡ done_of (kind_tree kind.now) (made_by (L.told look.old) (kind_tree kind.now) (L.drawn look.old)).0) }
    ensures same { L.told look.new ≡ L.told look.old }
    ensures held { L.held look.new ≡ L.held look.old }
{
    match made_by(alloc, kind, look) {
        Ok(made) => done_of(alloc, kind, shared(alloc, made)?),
        Err(EvalFault::Memory) => Err(AllocError),
        Err(fault) => faulted(alloc, &fault),
    }
}

// A connector whose inputs have no value makes no attempt.
fn called_with<L: Look>(
    alloc: Global,
    inputs: &Tree,
    policy: Policy,
    look: &mut L,
) -> Result<Begun, AllocError>
    ensures begun { IfOk result (λ b. begun_tree b
        ≡ called_with policy (tree_value (L.told look.old) (data_tree inputs.now) (L.drawn look.old)).0) }
    ensures same { L.told look.new ≡ L.told look.old }
    ensures held { L.held look.new ≡ L.held look.old }
{
    match eval_tree(alloc, inputs, look) {
        Ok(inputs) => {
            let inputs = inputs.shared(alloc)?;
            Ok(Begun::Calling { inputs, policy })
        }
        Err(EvalFault::Memory) => Err(AllocError),
        Err(fault) => Ok(Begun::Acted(faulted(alloc, &fault)?)),
    }
}

/// What an action does as it starts, by what its look tells.
pub fn begin<L: Look>(alloc: Global, kind: &Kind, look: &mut L) -> Result<Begun, AllocError>
    ensures begun { IfOk result (λ b. begun_tree b ≡ begun_from (L.told look.old) (kind_tree kind.now) (L.drawn look.old)) }
    ensures same { L.told look.new ≡ L.told look.old }
    ensures held { L.held look.new ≡ L.held look.old }
{
    match kind {
        Kind::Connector { inputs, policy } => called_with(alloc, inputs, *policy, look),
        _ => Ok(Begun::Acted(acted(alloc, kind, look)?)),
    }
}

/// What a connector comes to that called with these inputs, by what came of its last attempt. After one that another attempt follows it
/// hasn't ended, and what is given then is of no use.
pub fn ended_by(alloc: Global, inputs: Val, tried: Tried) -> Result<Done, AllocError>
    ensures { IfOk result (λ d. done_tree d ≡ done_by (tree inputs) (tried_tree tried)) }
{
    match tried {
        Tried::Final {
            status,
            code,
            outputs,
        } => Ok(Done {
            status,
            code,
            inputs,
            outputs: outputs.shared(alloc)?,
            error: Val::Null,
        }),
        Tried::Again => skipped(alloc),
    }
}

// The least place at which the value that was read isn't as the schema asks.
fn mismatch_in(alloc: Global, schema: &Schema, outputs: &Val) -> Result<Option<Text>, AllocError>
    ensures { IfOk result (λ p. p ≡ least (fails (schema_tree schema.now) (or_null (get (codes "body") (tree outputs.now))))) }
{
    match outputs.member("body") {
        Some(value) => mismatch(alloc, schema, value),
        None => mismatch(alloc, schema, &Val::Null),
    }
}

/// What a ParseJson comes to that made this, by its schema, where it has one.
pub fn judged(alloc: Global, schema: &Option<Schema>, made: Made) -> Result<Done, AllocError>
    ensures { IfOk result (λ d. done_tree d ≡ judged (option_map schema_tree schema.now) (made_tree made)) }
{
    match schema {
        None => succeeded(alloc, made),
        Some(schema) => match mismatch_in(alloc, schema, &made.outputs)? {
            None => succeeded(alloc, made),
            Some(pointer) => mismatched(alloc, made.inputs, &pointer),
        },
    }
}
