//! What is known of a state of a run, whatever has happened in it.
//!
//! A call of the machine is generic, and at each call a check ties all that it may ask of the actions to them. So those that tell something
//! of a state stand here, once each, and the rest of this crate calls these.
ghost use Rattle.std.specs.Prelude.{ℕ};
ghost use Rattle.wf_asks.specs.Known.{store_in, writer};
ghost use Rattle.wf_kept.specs.Reached.{IsReached};
ghost use Rattle.wf_layers.specs.Variables.{IsLastWritten};
ghost use Rattle.wf_planned.specs.Kept.{AreEnabled};
ghost use Rattle.wf_runnable.specs.Meant.{definition_of, depth, source};
ghost use Rattle.wf_runnable.specs.Writes.{writes};
ghost use Rattle.wf_session.specs.Begun.{AreListed, going, graph, moment};

use wf_room::Roomy;
use wf_runnable::{Actions, Making};
use wf_tables::EventAt;

/// Tells a caller that events lead to the state, that what it keeps is listed once, and which its last writers are; and does nothing.
pub(crate) fn is_known(making: &Making<'_, Actions<'_>>)
    ensures reached { IsReached (graph (going making.now.0)) (depth making.now.0) (source making.now.0) (moment making.now.1) }
    ensures listed { AreListed making.now.1 }
    ensures last { (v : ℕ) → IsLastWritten (graph (going making.now.0)) (source making.now.0)
        (writer (writes (definition_of making.now.0)) v) (moment making.now.1).rows (store_in making.now.1.1.1.1 v) }
{
    making.is_known();
}

/// The events that may happen.
pub(crate) fn ready<'m>(making: &'m Making<'_, Actions<'_>>) -> &'m Roomy<EventAt>
    ensures { AreEnabled (graph (going making.now.0)) (source making.now.0) (moment making.now.1) result.now.0 }
{
    making.ready()
}
