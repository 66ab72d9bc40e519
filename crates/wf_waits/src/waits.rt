//! The attempts of a run that wait.
ghost use Rattle.std.specs.Prelude.{◌≡◌, ◌<◌, ◌≤◌, ◌^◌, [], IfOk, OnErr, OnOk, length, map, true};
ghost use Rattle.wf_lists.specs.KeyOrder.{IsInKeyOrder};
ghost use Rattle.wf_asks.specs.Instances.{instance_cmp};
ghost use Rattle.wf_talk.specs.Keys.{is_among};
ghost use Rattle.wf_talk.specs.Seen.{want_cmp, want_key};
ghost use Rattle.wf_waits.specs.Kept.{fresh_key, kept_with, kept_without, keys_of};
ghost use Rattle.wf_waits.specs.Places.{AreTheirsFrom, MayHappen};

use crate::waiting::{Fresh, Waiting};
use std::alloc::{AllocError, Global};
use std::marker::Model;
use wf_asks::Instance;
use wf_lists::Sorted;
use wf_room::Roomy;
use wf_tables::{EventAt, EventKind};
use wf_talk::Want;
use wf_val::Address;

/// Attempts that wait, in the order of their keys, and those of them that are new.
pub struct Waits {
    by_key: Sorted<Waiting>,
    by_place: Roomy<EventAt>,
    fresh: Roomy<Fresh>,
}

// By hand, so that to let them go is one call for a check above.
impl Drop for Waits {
    fn drop(self) {
        let Waits {
            by_key: _,
            by_place: _,
            fresh: _,
        } = self;
    }
}

impl Model for Waits {
    ghost use Rattle.wf_waits.specs.Kept.{Kept};
    ghost use Rattle.wf_waits.specs.Places.{AreTheirs};

    ghost Value = { Kept };

    ghost view = { λ w. (w.by_key, w.fresh.0) };

    ghost invariant = { λ w. AreTheirs w.by_key w.by_place.0 };
}

fn copy_of(alloc: Global, want: &Want) -> Result<Want, AllocError>
    ensures { IfOk result (λ w. w ≡ want.now) }
{
    Ok(Want {
        address: want.address.copy(alloc)?,
        attempt: want.attempt,
    })
}

// Whether an attempt is among those in order, by a binary search.
fn is_found(waits: &[Waiting], address: &Address, attempt: u64) -> bool
    requires { IsInKeyOrder want_cmp (λ w. w.want) waits.now }
    ensures { result ≡ is_among (address.now, attempt) (keys_of waits.now) }
{
    match waits.binary_search_by(|waiting| waiting.want.order(address, attempt)) {
        Ok(_) => true,
        Err(_) => false,
    }
}

// The attempts, by their keys.
fn wants_of(alloc: Global, waits: &[Waiting]) -> Result<Vec<Want>, AllocError>
    ensures { IfOk result (λ wants. map want_key wants.items ≡ keys_of waits.now) }
{
    let mut wants = Vec::with_capacity(alloc, waits.len())?;
    for waiting in waits {
        wants.push(copy_of(alloc, &waiting.want)?)?;
    }
    Ok(wants)
}

// Those that are new, by their keys.
fn fresh_of(alloc: Global, fresh: &Roomy<Fresh>) -> Result<Vec<Want>, AllocError>
    ensures { IfOk result (λ wants. map want_key wants.items ≡ map fresh_key fresh.now.0) }
{
    let mut wants = Vec::with_capacity(alloc, fresh.len() as usize)?;
    for place in 0..fresh.len() {
        wants.push(copy_of(alloc, &fresh.at(place).want)?)?;
    }
    Ok(wants)
}

impl Waits {
    /// None.
    pub fn new(alloc: Global) -> Waits
        ensures { result ≡ ([], []) }
    {
        Waits {
            by_key: Sorted::new(alloc),
            by_place: Roomy::new(alloc),
            fresh: Roomy::new(alloc),
        }
    }

    /// How many wait.
    pub fn len(&self) -> u64
        ensures { result ≡ length self.now.0 }
    {
        self.by_key.len()
    }

    /// Tells a caller that they stand in the order of their keys, and does nothing.
    pub fn is_in_order(&self)
        ensures { IsInKeyOrder want_cmp (λ w. w.want) self.now.0 }
    {
        let _items = self.by_key.as_slice();
    }

    /// Whether an attempt is one of them.
    pub fn is_wanted(&self, address: &Address, attempt: u64) -> bool
        ensures { result ≡ is_among (address.now, attempt) (keys_of self.now.0) }
    {
        is_found(self.by_key.as_slice(), address, attempt)
    }

    /// All of them, by their keys.
    pub fn wants(&self, alloc: Global) -> Result<Vec<Want>, AllocError>
        ensures { IfOk result (λ wants. map want_key wants.items ≡ keys_of self.now.0) }
    {
        wants_of(alloc, self.by_key.as_slice())
    }

    /// Those that are new, by their keys.
    pub fn fresh(&self, alloc: Global) -> Result<Vec<Want>, AllocError>
        ensures { IfOk result (λ wants. map want_key wants.items ≡ map fresh_key self.now.1) }
    {
        fresh_of(alloc, &self.fresh)
    }

    /// An attempt begins to wait, at an instance.
    pub fn keep(&mut self, alloc: Global, want: Want, place: &Instance) -> Result<(), AllocError>
        ensures kept { OnOk result (self.new ≡ kept_with (record { want = want; instance = place.now }) self.old) }
        ensures err { OnErr result (self.new ≡ self.old) }
    {
        if self.by_key.get(&want).is_some() {
            return Ok(());
        }
        let new = copy_of(alloc, &want)?;
        let instance = place.copy(alloc)?;
        let beside = place.copy(alloc)?;
        self.by_place.make_room(1)?;
        self.fresh.make_room(1)?;
        self.by_key.put(Waiting { want, instance })?;
        self.by_place.put(EventAt {
            instance: beside,
            kind: EventKind::Try,
        });
        self.fresh.put(Fresh { want: new });
        Ok(())
    }

    /// The answer of one has come.
    pub fn take(&mut self, alloc: Global, want: &Want)
        ensures { self.new ≡ kept_without (want_key want.now) self.old }
    {
        self.fresh = Roomy::new(alloc);
        let Some(waiting) = self.by_key.take(want) else {
            return;
        };
        let _ = self.by_place.take(&waiting.instance);
    }

    /// Of the events that may happen, in their order, the first place from one on that isn't one of theirs. It takes as many comparisons as
    /// the number of those that wait has binary digits.
    pub fn past(&self, ready: &Roomy<EventAt>, from: u64) -> u64
        requires { MayHappen ready.now.0 self.now.0 }
        ensures from { from ≤ result }
        ensures passed { AreTheirsFrom ready.now.0 self.now.0 from result }
    {
        let mut low = from;
        let mut high = self.by_place.len().min(ready.len());
        while low < high {
            let middle = low + (high - low) / 2;
            if self.by_place.at(middle).instance == ready.at(middle).instance {
                low = middle + 1;
            } else {
                high = middle;
            }
        }
        low
    }
}
