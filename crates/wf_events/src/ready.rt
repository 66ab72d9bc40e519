//! The ready set, edited at one instance.
ghost use Rattle.std.specs.Prelude.{◌≡◌, ◌<◌, ◌≤◌, ◌+◌, None, Some, cond, option_map};
ghost use Rattle.wf_layers.specs.Address.{Address, is_own};
ghost use Rattle.wf_tables.specs.Tables.{event_at, event_tree, events_in};

use wf_room::Roomy;
use wf_tables::{EventAt, EventKind, Instance};

fn put_event(ready: &mut Roomy<EventAt>, event: EventAt)
    requires { 0 < ready.old.1 }
    ensures events { (x : Address) → events_in ready.new.0 x
        ≡ cond (is_own event.instance.action event.instance.at x) (Some (event_tree event)) (events_in ready.old.0 x) }
    ensures room { ready.old.1 ≤ ready.new.1 + 1 }
{
    ready.put(event);
}

/// Nothing may happen next at an instance. No memory is taken.
pub fn take_event(ready: &mut Roomy<EventAt>, place: &Instance)
    ensures events { (x : Address) → events_in ready.new.0 x
        ≡ cond (is_own place.now.action place.now.at x) None (events_in ready.old.0 x) }
    ensures room { ready.old.1 ≤ ready.new.1 }
{
    let _gone = ready.take(place);
}

/// What may happen next at an instance is this, or nothing. No memory is taken.
pub fn set_event(ready: &mut Roomy<EventAt>, place: Instance, kind: Option<EventKind>)
    requires { 0 < ready.old.1 }
    ensures events { (x : Address) → events_in ready.new.0 x
        ≡ cond (is_own place.action place.at x) (option_map (λ k. event_at k place.action place.at) kind) (events_in ready.old.0 x) }
    ensures room { ready.old.1 ≤ ready.new.1 + 1 }
{
    match kind {
        Some(kind) => put_event(
            ready,
            EventAt {
                instance: place,
                kind,
            },
        ),
        None => take_event(ready, &place),
    }
}
