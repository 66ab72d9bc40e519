//! What the expressions of a trigger see.
ghost use Rattle.std.specs.Prelude.{◌≡◌, IfOk, IfErr, Ok, Err, false};
ghost use Rattle.wf_template.specs.TemplateSeen.{template_tree};
ghost use Rattle.wf_trigger.specs.LookSeen.{value_seen};
ghost use Rattle.wf_val.specs.Arguments.{is_memory};
ghost use Rattle.wf_val.specs.Seen.{tree};

use crate::outside::{NoViews, Outside};
use std::alloc::Global;
use wf_answers::Ticks;
use wf_eval::eval;
use wf_template::Template;
use wf_val::{EvalFault, Fields, Text, Val};

/// What `splitOn` and the conditions of a trigger see: the trigger with all that it put out, the parameters, the
/// moment and the inputs' run name.
#[derive(Drop)]
pub(crate) struct TriggerLook<'a> {
    pub(crate) trigger: &'a Val,
    pub(crate) parameters: &'a Fields,
    pub(crate) moment: Ticks,
    pub(crate) run: &'a Text,
    pub(crate) seed: &'a Text,
}

impl<'a> TriggerLook<'a> {
    /// The value of one of a trigger's templates, or its first fault. No words were drawn before.
    pub(crate) fn value(&self, alloc: Global, template: &Template) -> Result<Val, EvalFault>
        ensures value { IfOk result (λ v. value_seen self.now (template_tree template.now) ≡ Ok (tree v)) }
        ensures fault { IfErr result (λ f. is_memory f ≡ false → value_seen self.now (template_tree template.now) ≡ Err f) }
    {
        let mut look = Outside {
            parameters: self.parameters,
            trigger: self.trigger,
            views: NoViews,
            moment: self.moment,
            run: self.run,
            seed: self.seed,
            place: self.run,
            drawn: 0,
        };
        eval(alloc, template, &mut look)
    }
}
