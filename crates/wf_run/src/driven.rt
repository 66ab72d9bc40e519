//! A run that is driven to its end.
ghost use Rattle.std.specs.Prelude.{◌≢◌, ◌≤◌, IfErr, IfOk};
ghost use Rattle.wf_drive.specs.declared.fault.DriveFault.{DriveFault};
ghost use Rattle.wf_run.specs.Made.{AreFew, IsAtFirst, IsMade, IsTooMuch, price};
ghost use Rattle.wf_runnable.specs.Over.{AreLeft, moment};

use crate::made::Made;
use std::alloc::Global;
use wf_drive::{DriveFault, Driven, drive};
use wf_runnable::{Actions, Lists, Making, given_up};
use wf_val::Schedule;

/// Makes a run's events from its first state on, until nothing may happen any more, where other runs have cost `spent`. Its rows are then
/// those that its actions mean, whatever the schedule. It leaves its other lists.
pub(crate) fn driven(
    alloc: Global,
    mut making: Making<'_, Actions<'_>>,
    schedule: &Schedule,
    spent: u64,
    traced: bool,
    lists: &mut Lists,
) -> Result<Made, DriveFault>
    requires first { IsAtFirst making.0 making.1 }
    requires spent { spent ≤ 67108864 }
    ensures made { IfOk result (λ m. IsMade making.entry.0 (moment making.entry.1) schedule.now traced m.steps m.peak m.trace.items) }
    ensures left { IfOk result (λ m. AreLeft making.entry.0 m.rows.0 m.store.0) }
    ensures few { IfOk result (λ m. AreFew m.steps (price making.entry.0)) }
    ensures large { IfErr result (λ f. f ≢ DriveFault.Memory → IsTooMuch spent (price making.entry.0)) }
{
    let Driven { steps, peak, trace } = drive(alloc, &mut making, schedule, spent, traced)?;
    let (rows, store) = given_up(making, lists);
    Ok(Made {
        rows,
        store,
        steps,
        peak,
        trace,
    })
}
