//! Runs in which nothing may happen any more.
ghost use Rattle.wf_runnable.specs.Over.{AreLeft, IsAtLast};

use wf_actions::{Actions, Making, Spare};
use wf_asks::{Rows, Store};
use wf_done::Begun;
use wf_opening::{Decision, Verdict};
use wf_record::Row;

/// The lists that one run leaves for the next (`Spare`).
pub type Lists = Spare<Row, Begun, Decision, Verdict>;

/// The rows and the last writers of a run in which nothing may happen any more. It leaves its other lists.
pub fn given_up(making: Making<'_, Actions<'_>>, lists: &mut Lists) -> (Rows<Row>, Store)
    requires { IsAtLast making.0 making.1 }
    ensures { AreLeft making.entry.0 result.0.0 result.1.0 }
{
    making.is_known();
    making.is_whole();
    making.into_parts(lists)
}
