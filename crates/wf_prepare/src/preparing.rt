//! What is asked of a record before its run is resubmitted.
ghost use Rattle.std.specs.Prelude.{◌≡◌, ◌≢◌, IfErr, IfOk, None, OnOk, Some};
ghost use Rattle.wf_shaped.specs.ReadSeen.{def_tree};
ghost use Rattle.wf_record.specs.Seen.{record_tree};
ghost use Rattle.wf_resubmit.specs.Refused.{numbers_of};
ghost use Rattle.wf_resubmit.specs.declared.fault.ResubmitFault.{ResubmitFault};
ghost use Rattle.wf_shaped.specs.Failing.{IsLeastFailing};
ghost use Rattle.wf_prepare.specs.Prepared.{IsMisshapen, IsRefused, MayBeResubmitted, names_refused};

use std::alloc::Global;
use wf_meant_laws::Checked;
use wf_record::Record;
use wf_resubmit::{ResubmitFault, chosen};
use wf_shaped::{Def, least_failing};
use wf_val::{Name, Schedule};

fn names_accepted(
    alloc: Global,
    checked: &Checked,
    log: &Record,
    names: &[Name],
) -> Result<Schedule, ResubmitFault>
    ensures fine { OnOk result (names_refused (def_tree checked.now.def) (record_tree log.now) names.now ≡ None) }
    ensures numbers { IfOk result (λ ns. ns ≡ numbers_of (def_tree checked.now.def).top names.now) }
    ensures fault { IfErr result (λ f. f ≢ ResubmitFault.Memory
        → names_refused (def_tree checked.now.def) (record_tree log.now) names.now ≡ Some f) }
{
    checked.always_checked();
    let def = &checked.def;
    chosen(alloc, &def.top, &checked.order, def.digest, log, names)
}

#[tactic(auto, using(crate::proofs::RefusedLemmas::fails_there))]
fn has_the_right_shape(alloc: Global, def: &Def, log: &Record) -> Result<(), ResubmitFault>
    ensures fine { OnOk result (IsLeastFailing (def_tree def.now) (record_tree log.now).rows None) }
    ensures fault { IfErr result (λ f. f ≢ ResubmitFault.Memory → IsMisshapen (def_tree def.now) (record_tree log.now).rows f) }
{
    match least_failing(alloc, def, log)? {
        None => Ok(()),
        Some(address) => Err(ResubmitFault::Shape { address }),
    }
}

/// The numbers of the actions from which a run is resubmitted, in the order of their names, where a name that stands twice gives its number
/// twice; or why it can't be.
#[tactic(auto, using(crate::proofs::RefusedLemmas::by_names, crate::proofs::RefusedLemmas::by_shape))]
pub fn prepare(
    alloc: Global,
    checked: &Checked,
    log: &Record,
    names: &[Name],
) -> Result<Schedule, ResubmitFault>
    ensures may { OnOk result (MayBeResubmitted (def_tree checked.now.def) (record_tree log.now) names.now) }
    ensures numbers { IfOk result (λ ns. ns ≡ numbers_of (def_tree checked.now.def).top names.now) }
    ensures fault { IfErr result (λ f. f ≢ ResubmitFault.Memory
        → IsRefused (def_tree checked.now.def) (record_tree log.now) names.now f) }
{
    let numbers = names_accepted(alloc, checked, log, names)?;
    has_the_right_shape(alloc, &checked.def, log)?;
    Ok(numbers)
}
