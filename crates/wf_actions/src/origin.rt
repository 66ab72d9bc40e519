//! What a run is made from.
ghost use Rattle.wf_actions.specs.Acting.{ActAgain, ActForItself, AnswersAgain};

use crate::actions::{Actions, Old, Ready};
use crate::pays::first_cost;
use wf_answers::Inputs;
use wf_catalog::Start;
use wf_record::Record;
use wf_val::Schedule;

impl<'a> Actions<'a> {
    /// Of a run that isn't made from another.
    pub fn of(ready: &'a Ready<'a>, start: &'a Start, inputs: &'a Inputs) -> Actions<'a>
        ensures { ActForItself ready.now start.now inputs.now result }
    {
        ready.checked.def.always_read();
        ready.checked.always_checked();
        wf_sight_laws::a_definition_is_an_instance();
        wf_sight_laws::a_definition_is_answered();
        Actions {
            ready,
            start,
            inputs,
            old: None,
            fee: first_cost(start),
        }
    }

    /// Of a run that is made from an older one, whose record is `log`: what is redone with the actions of these numbers has these inputs.
    pub fn resumed(
        ready: &'a Ready<'a>,
        start: &'a Start,
        inputs: &'a Inputs,
        log: &'a Record,
        from: &'a Schedule,
    ) -> Actions<'a>
        requires { AnswersAgain ready.now start.now inputs.now log.now from.now }
        ensures { ActAgain ready.now start.now inputs.now log.now from.now result }
    {
        Actions {
            ready,
            start,
            inputs,
            old: Some(Old { log, from }),
            fee: first_cost(start),
        }
    }
}
