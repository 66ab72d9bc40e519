//! The actions of a run.
ghost use Rattle.std.specs.Prelude.{◌≡◌, map};
ghost use Rattle.wf_answers.specs.InputsSeen.{inputs_tree};
ghost use Rattle.wf_asks.specs.Instances.{address_of};
ghost use Rattle.wf_def.specs.AllActions.{all_actions};
ghost use Rattle.wf_paying.specs.Halting.{terminates_in};
ghost use Rattle.wf_catalog.specs.Environment.{fresh};
ghost use Rattle.wf_sight_laws.specs.Answered.{IsAnswered};
ghost use Rattle.wf_catalog.specs.ReadSeen.{def_tree};
ghost use Rattle.wf_catalog.specs.StartsSeen.{start_tree};
ghost use Rattle.wf_val.specs.Cut.{cut_u64};
ghost use Rattle.wf_paying.specs.Paying.{first_cost};
ghost use Rattle.wf_actions.specs.Origin.{source_by};

use wf_answers::Inputs;
use wf_asks::Instance;
use wf_catalog::{Places, Start};
use wf_record::Record;
use wf_sight_laws::Checked;
use wf_val::Schedule;

/// A definition that breaks no rule, made ready for its runs.
#[derive(Drop)]
pub struct Ready<'a> {
    pub checked: &'a Checked,
    pub places: Places<'a>,
    pub(crate) terminates: Vec<Instance>,
    ghost placed: { places ≡ checked.now.def },
    ghost halting: { map address_of terminates.items ≡ terminates_in (all_actions (def_tree checked.now.def).top) },
}

/// The record of an older run, and the numbers of the actions from which it is resubmitted.
#[derive(Clone, Copy)]
pub struct Old<'a> {
    pub log: &'a Record,
    pub from: &'a Schedule,
}

/// What the actions of a definition do in a run that begins so: in one of its own, or in one that is made from an older one.
#[derive(Drop)]
pub struct Actions<'a> {
    pub ready: &'a Ready<'a>,
    pub start: &'a Start,
    pub inputs: &'a Inputs,
    pub(crate) old: Option<Old<'a>>,
    // What its run costs before the first event. It is asked for at each event, and to weigh a large trigger takes long.
    pub(crate) fee: u64,
    ghost answered: { ∥ IsAnswered (def_tree ready.now.checked.now.def) (fresh (start_tree start.now) (inputs_tree inputs.now))
        (source_by (def_tree ready.now.checked.now.def) (start_tree start.now) (inputs_tree inputs.now) old) ∥₁ },
    ghost weighed: { fee ≡ cut_u64 (first_cost (start_tree start.now)) },
}
