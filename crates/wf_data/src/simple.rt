//! Compose, Wait, Response and Terminate: their inputs are kept as they are.
ghost use Rattle.std.specs.Prelude.{◌≡◌};
ghost use Rattle.wf_val.specs.Seen.{tree};
ghost use Rattle.wf_template.specs.DataSeen.{data_tree};
ghost use Rattle.wf_data.specs.Made.{Comes};
ghost use Rattle.wf_data.specs.MadeSeen.{made_seen};
ghost use Rattle.wf_data.specs.Simple.{made_compose, made_response, made_terminate, made_wait, run_status_named, run_status_of, terminated};

use crate::made::{Made, fitting};
use std::alloc::Global;
use wf_eval::{Look, eval_tree};
use wf_record::RunStatus;
use wf_template::Tree;
use wf_val::{EvalFault, Fun, Val, wrong_type};

/// Compose gives out what it takes in.
pub fn compose<L: Look>(alloc: Global, inputs: &Tree, look: &mut L) -> Result<Made, EvalFault>
    ensures made { Comes (made_seen result) (made_compose (L.told look.old) (data_tree inputs.now) (L.drawn look.old)) (L.drawn look.new) }
    ensures same { L.told look.new ≡ L.told look.old }
    ensures held { L.held look.new ≡ L.held look.old }
{
    let inputs = eval_tree(alloc, inputs, look)?.shared(alloc)?;
    let outputs = inputs.copy(alloc)?;
    fitting(inputs, outputs)
}

/// Response gives out what it takes in: that is what answers the caller.
pub fn response<L: Look>(alloc: Global, inputs: &Tree, look: &mut L) -> Result<Made, EvalFault>
    ensures made { Comes (made_seen result) (made_response (L.told look.old) (data_tree inputs.now) (L.drawn look.old)) (L.drawn look.new) }
    ensures same { L.told look.new ≡ L.told look.old }
    ensures held { L.held look.new ≡ L.held look.old }
{
    compose(alloc, inputs, look)
}

/// Wait gives out nothing, and no time passes.
pub fn wait<L: Look>(alloc: Global, inputs: &Tree, look: &mut L) -> Result<Made, EvalFault>
    ensures made { Comes (made_seen result) (made_wait (L.told look.old) (data_tree inputs.now) (L.drawn look.old)) (L.drawn look.new) }
    ensures same { L.told look.new ≡ L.told look.old }
    ensures held { L.held look.new ≡ L.held look.old }
{
    let inputs = eval_tree(alloc, inputs, look)?;
    fitting(inputs, Val::Null)
}

// The run status of a name, whatever the case of its letters.
fn run_status_named(name: &str) -> Option<RunStatus>
    ensures { result ≡ run_status_named name.now }
{
    if name.eq_ignore_ascii_case("Succeeded") {
        Some(RunStatus::Succeeded)
    } else if name.eq_ignore_ascii_case("Failed") {
        Some(RunStatus::Failed)
    } else if name.eq_ignore_ascii_case("Cancelled") {
        Some(RunStatus::Cancelled)
    } else {
        None
    }
}

/// The status that the inputs of a Terminate give its run; the case of ASCII letters doesn't count.
pub fn run_status(inputs: &Val) -> Option<RunStatus>
    ensures { result ≡ run_status_of (tree inputs.now) }
{
    match inputs.member("runStatus") {
        Some(Val::Text(name)) => run_status_named(name.as_str()),
        _ => None,
    }
}

// What a Terminate keeps, where its inputs have a run status.
fn terminated(inputs: Val) -> Result<Made, EvalFault>
    ensures { made_seen result ≡ terminated (tree inputs) (run_status_of (tree inputs)) }
{
    match run_status(&inputs) {
        Some(_) => fitting(inputs, Val::Null),
        None => Err(wrong_type(Fun::Terminate, 0)),
    }
}

/// Terminate gives out nothing; its inputs have to say how the run ends.
pub fn terminate<L: Look>(alloc: Global, inputs: &Tree, look: &mut L) -> Result<Made, EvalFault>
    ensures made { Comes (made_seen result)
        (made_terminate (L.told look.old) (data_tree inputs.now) (L.drawn look.old)) (L.drawn look.new) }
    ensures same { L.told look.new ≡ L.told look.old }
    ensures held { L.held look.new ≡ L.held look.old }
{
    let inputs = eval_tree(alloc, inputs, look)?;
    terminated(inputs)
}
