//! That the actions of a run answer.
ghost use Rattle.wf_sight_laws.specs.Answered.{IsAnswered};
ghost use Rattle.wf_actions.specs.Meant.{definition_of, environment_of, source};

use crate::actions::Actions;

/// Tells a caller that the rows of the run come from the answers of its actions, and does nothing.
pub(crate) fn are_answered(actions: &Actions<'_>)
    ensures { IsAnswered (definition_of actions.now) (environment_of actions.now) (source actions.now) }
{
    let _ = &actions.ready;
}
