//! A run that goes on until it needs an answer that isn't there.
ghost use Rattle.std.specs.Prelude.{◌≡◌, ◌≢◌, ◌<◌, ◌≤◌, IfErr, IfOk, IfSome, List, None, OnOk, false, length, true};
ghost use Rattle.wf_answers.specs.AnswerTree.{Key};
ghost use Rattle.wf_quiet.specs.Quiet.{IsQuiet};
ghost use Rattle.wf_planned.specs.Kept.{AreEnabled};
ghost use Rattle.wf_tables.specs.Tables.{event_tree};
ghost use Rattle.wf_runnable.specs.Meant.{source};
ghost use Rattle.wf_session.specs.Begun.{AreListed, Comes, IsDear, IsStill, answered_in, going, graph, has_answer, moment, price};
ghost use Rattle.wf_waits.specs.Kept.{AreNew};
ghost use Rattle.wf_session.specs.Settled.{AreHeld, HasLooked, IsHeld, WillHappen};
ghost use Rattle.wf_session.specs.Waiting.{AreAllKept, AreWaiting};

use crate::known::{is_known, ready};
use crate::missing::missing;
use std::alloc::{AllocError, Global};
use wf_drive::Machine;
use wf_room::Roomy;
use wf_runnable::{Actions, Making};
use wf_tables::EventAt;
use wf_talk::StandFault;
use wf_waits::Waits;

// Looks at the event at a place: it is the one that is to happen; or else an attempt that waits, which is kept.
fn look(
    alloc: Global,
    making: &Making<'_, Actions<'_>>,
    ready: &Roomy<EventAt>,
    waits: &mut Waits,
    place: u64,
) -> Result<Option<EventAt>, AllocError>
    requires ready { AreEnabled (graph (going making.now.0)) (source making.now.0) (moment making.now.1) ready.now.0 }
    requires place { place < length ready.now.0 }
    requires waiting { AreWaiting (going making.now.0) (moment making.now.1) waits.old.0 }
    ensures looked { OnOk result (HasLooked (going making.now.0) (moment making.now.1) waits.old waits.new) }
    ensures happens { IfOk result (λ found. IfSome found (λ e. WillHappen (going making.now.0) (moment making.now.1) (event_tree e))) }
    ensures held { IfOk result (λ found. found ≡ None → IsHeld (going making.now.0) (moment making.now.1) ready.now.0 waits.new.0 place) }
{
    is_known(making);
    let event = ready.at(place);
    match missing(alloc, making, event)? {
        Some(want) => {
            waits.is_in_order();
            waits.keep(alloc, want, &event.instance)?;
            Ok(None)
        }
        None => {
            let instance = event.instance.copy(alloc)?;
            Ok(Some(EventAt {
                instance,
                kind: event.kind,
            }))
        }
    }
}

// The first event that isn't an attempt without an answer. Those before it are kept, and what is kept already is passed by without a look.
fn first_that_happens(
    alloc: Global,
    making: &Making<'_, Actions<'_>>,
    ready: &Roomy<EventAt>,
    waits: &mut Waits,
) -> Result<Option<EventAt>, AllocError>
    requires ready { AreEnabled (graph (going making.now.0)) (source making.now.0) (moment making.now.1) ready.now.0 }
    requires waiting { AreWaiting (going making.now.0) (moment making.now.1) waits.old.0 }
    ensures looked { OnOk result (HasLooked (going making.now.0) (moment making.now.1) waits.old waits.new) }
    ensures happens { IfOk result (λ found. IfSome found (λ e. WillHappen (going making.now.0) (moment making.now.1) (event_tree e))) }
    ensures held { IfOk result (λ found. found ≡ None
        → AreHeld (going making.now.0) (moment making.now.1) ready.now.0 waits.new.0 (length ready.now.0)) }
{
    is_known(making);
    let mut place = waits.past(ready, 0);
    while place < ready.len() {
        if let Some(event) = look(alloc, making, ready, waits, place)? {
            return Ok(Some(event));
        }
        place = waits.past(ready, place + 1);
    }
    Ok(None)
}

// What happens next, if anything but attempts without an answer may. All of these are kept then.
fn next(
    alloc: Global,
    making: &Making<'_, Actions<'_>>,
    waits: &mut Waits,
) -> Result<Option<EventAt>, AllocError>
    requires waiting { AreWaiting (going making.now.0) (moment making.now.1) waits.old.0 }
    ensures looked { OnOk result (HasLooked (going making.now.0) (moment making.now.1) waits.old waits.new) }
    ensures happens { IfOk result (λ found. IfSome found (λ e. WillHappen (going making.now.0) (moment making.now.1) (event_tree e))) }
    ensures quiet { IfOk result (λ found. found ≡ None → IsQuiet (answered_in (going making.now.0)) (graph (going making.now.0)) (source making.now.0)
        (moment making.now.1)) }
    ensures all { IfOk result (λ found. found ≡ None → AreAllKept (going making.now.0) (moment making.now.1) waits.new.0) }
{
    is_known(making);
    let found = first_that_happens(alloc, making, ready(making), waits)?;
    Ok(found)
}

// Whether it has cost too much so far.
fn is_too_dear(making: &Making<'_, Actions<'_>>) -> bool
    ensures dear { result ≡ true → 67108864 < price (going making.now.0) making.now.1 }
    ensures within { result ≡ false → price (going making.now.0) making.now.1 ≤ 67108864 }
{
    making.cost() > 67108864
}

/// Goes on until nothing may happen but attempts that have no answer. These are kept, and which of them are new.
pub(crate) fn settle(
    alloc: Global,
    making: &mut Making<'_, Actions<'_>>,
    waits: &mut Waits,
) -> Result<(), StandFault>
    requires comes { Comes (going making.old.0) making.old.1 }
    requires waiting { AreWaiting (going making.old.0) (moment making.old.1) waits.old.0 }
    ensures same { making.new.0 ≡ making.old.0 }
    ensures listed { OnOk result (AreListed making.new.1) }
    ensures still { OnOk result (IsStill (going making.old.0) making.new.1) }
    ensures waiting { OnOk result (AreWaiting (going making.old.0) (moment making.new.1) waits.new.0) }
    ensures all { OnOk result (AreAllKept (going making.old.0) (moment making.new.1) waits.new.0) }
    ensures marked { OnOk result ((earlier : List Key) → AreNew (has_answer (going making.old.0)) earlier waits.old
        → AreNew (has_answer (going making.old.0)) earlier waits.new) }
    ensures within { OnOk result (price (going making.old.0) making.new.1 ≤ 67108864) }
    ensures dear { IfErr result (λ f. f ≢ StandFault.Memory → IsDear (going making.old.0)) }
{
    loop {
        let Some(event) = next(alloc, making, waits)? else {
            break;
        };
        is_known(making);
        if is_too_dear(making) {
            return Err(StandFault::TooLarge);
        }
        making.step(alloc, &event)?;
    }
    is_known(making);
    if is_too_dear(making) {
        Err(StandFault::TooLarge)
    } else {
        Ok(())
    }
}
