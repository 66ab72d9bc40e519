//! Which attempt an event is, where it has no answer.
ghost use Rattle.std.specs.Prelude.{◌≡◌, IfOk, IfSome, None};
ghost use Rattle.wf_asks.specs.Instances.{address_of};
ghost use Rattle.wf_layers.specs.Machine as machine;
ghost use Rattle.wf_planned.specs.Look.{instance, name_of};
ghost use Rattle.wf_quiet.specs.Quiet.{HasAnswer};
ghost use Rattle.wf_reading.specs.ReadSeen.{def_tree};
ghost use Rattle.wf_planned.specs.Kept.{IsEnabled};
ghost use Rattle.wf_tables.specs.Tables.{event_tree};
ghost use Rattle.wf_runnable.specs.Meant.{source};
ghost use Rattle.wf_session.specs.Begun.{answered_in, going, graph, moment};
ghost use Rattle.wf_session.specs.Waiting.{IsMissing};

use std::alloc::{AllocError, Global};
use wf_asks::{Acts, Instance};
use wf_lists::TryCopy;
use wf_runnable::{Actions, Making, Places};
use wf_stands::answer_at;
use wf_tables::{EventAt, EventKind};
use wf_talk::Want;
use wf_val::{Address, Name, Text};

// The name of the action of a number.
fn name_at(alloc: Global, places: &Places<'_>, number: u32) -> Result<Name, AllocError>
    ensures { IfOk result (λ n. n ≡ name_of (def_tree places.now) number) }
{
    match places.action(number) {
        Some(action) => wf_runnable::name_of(action).copy(alloc),
        None => Text::of(alloc, ""),
    }
}

fn address_at(alloc: Global, places: &Places<'_>, place: &Instance) -> Result<Address, AllocError>
    ensures { IfOk result (λ x. x ≡ instance (def_tree places.now) (address_of place.now)) }
{
    let name = name_at(alloc, places, place.action)?;
    let at = place.at.copy(alloc)?;
    Ok(Address { name, at })
}

// The next attempt of a running leaf, where it has no answer.
fn next_missing(
    alloc: Global,
    making: &Making<'_, Actions<'_>>,
    place: &Instance,
) -> Result<Option<Want>, AllocError>
    requires { IsEnabled (graph (going making.now.0)) (source making.now.0) (moment making.now.1) (machine.Try place.now.action place.now.at) }
    ensures missing { IfOk result (λ found. IfSome found (λ want. IsMissing (going making.now.0) (moment making.now.1) (address_of place.now) want)) }
    ensures none { IfOk result (λ found. found ≡ None → HasAnswer (answered_in (going making.now.0)) (moment making.now.1)
        (machine.Try place.now.action place.now.at)) }
{
    let kept = making.state();
    let actions = kept.acts();
    actions.is_instance();
    match kept.leaf(place) {
        Some(leaf) => {
            let attempt = leaf.tries + 1;
            let address = address_at(alloc, &actions.ready.places, place)?;
            match answer_at(&actions.inputs.answers, &address.name, &address.at, attempt) {
                Some(_) => Ok(None),
                None => Ok(Some(Want { address, attempt })),
            }
        }
        None => Ok(None),
    }
}

/// The attempt that an event is which may happen, where it has no answer.
pub(crate) fn missing(
    alloc: Global,
    making: &Making<'_, Actions<'_>>,
    event: &EventAt,
) -> Result<Option<Want>, AllocError>
    requires { IsEnabled (graph (going making.now.0)) (source making.now.0) (moment making.now.1) (event_tree event.now) }
    ensures missing { IfOk result (λ found. IfSome found (λ want. IsMissing (going making.now.0) (moment making.now.1)
        (address_of event.now.instance) want)) }
    ensures none { IfOk result (λ found. found ≡ None → HasAnswer (answered_in (going making.now.0)) (moment making.now.1)
        (event_tree event.now)) }
{
    match event.kind {
        EventKind::Try => next_missing(alloc, making, &event.instance),
        _ => Ok(None),
    }
}
