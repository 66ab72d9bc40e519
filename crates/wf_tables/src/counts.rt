//! Counts of what is waited for, as an action gets its row.
ghost use Rattle.std.specs.Prelude.{◌≡◌, ◌<◌, ◌≤◌, ◌+◌, ◌&&◌, cond, length};
ghost use Rattle.wf_plan.specs.Address.{Address, is_own, same_at};
ghost use Rattle.wf_kept.specs.Counted.{less, nonzero};
ghost use Rattle.wf_plan.specs.Instances.{address_of};
ghost use Rattle.wf_plan.specs.Known.{is_among};
ghost use Rattle.wf_plan.specs.Once.{AreDistinct};
ghost use Rattle.wf_tables.specs.Counts.{or_zero, set_all};
ghost use Rattle.wf_tables.specs.Tables.{count_in};

use crate::entries::CountAt;
use wf_plan::Instance;
use wf_room::Roomy;

// The count of an instance; 0 isn't kept.
fn count_at(counts: &Roomy<CountAt>, place: &Instance) -> u64
    ensures { result ≡ or_zero (count_in counts.now.0 (address_of place.now)) }
{
    match counts.get(place) {
        Some(found) => found.count,
        None => 0,
    }
}

// A count of more than one falls by one, in its place. The instance is given back.
fn lower_in_place(counts: &mut Roomy<CountAt>, place: Instance, count: u64) -> Instance
    requires kept { count ≡ or_zero (count_in counts.old.0 (address_of place)) }
    requires more { 1 < count }
    ensures counts { (x : Address) → count_in counts.new.0 x
        ≡ cond (is_own place.action place.at x) (less 1 (count_in counts.old.0 x)) (count_in counts.old.0 x) }
    ensures room { counts.old.1 ≤ counts.new.1 }
    ensures place { result ≡ place }
{
    match counts.replace(CountAt {
        instance: place,
        count: count - 1,
    }) {
        Ok(before) => before.instance,
        Err(item) => item.instance,
    }
}

// One that comes to 0 isn't kept any more.
fn remove(counts: &mut Roomy<CountAt>, place: &Instance)
    requires { or_zero (count_in counts.old.0 (address_of place.now)) ≤ 1 }
    ensures counts { (x : Address) → count_in counts.new.0 x
        ≡ cond (is_own place.now.action place.now.at x) (less 1 (count_in counts.old.0 x)) (count_in counts.old.0 x) }
    ensures room { counts.old.1 ≤ counts.new.1 }
{
    let _removed = counts.take(place);
}

/// What is waited for at an instance is one less, as what a graph lacks is where one of its actions gets its row. The instance is given
/// back. No memory is taken.
pub fn lower_one(counts: &mut Roomy<CountAt>, place: Instance) -> Instance
    ensures counts { (x : Address) → count_in counts.new.0 x
        ≡ cond (is_own place.action place.at x) (less 1 (count_in counts.old.0 x)) (count_in counts.old.0 x) }
    ensures room { counts.old.1 ≤ counts.new.1 }
    ensures place { result ≡ place }
{
    let count = count_at(counts, &place);
    if count > 1 {
        lower_in_place(counts, place, count)
    } else {
        remove(counts, &place);
        place
    }
}

/// Each of these actions waits for one less at the indexes of an instance, which is given back as that of the last of them. No memory is
/// taken.
pub fn lower(counts: &mut Roomy<CountAt>, followers: &[u32], place: Instance) -> Instance
    requires { AreDistinct followers.now }
    ensures counts { (x : Address) → count_in counts.new.0 x
        ≡ cond (is_among x.name followers.now && same_at place.at x.at) (less 1 (count_in counts.old.0 x))
        (count_in counts.old.0 x) }
    ensures room { counts.old.1 ≤ counts.new.1 }
    ensures place { result.at ≡ place.at }
{
    let mut next = place;
    for action in followers {
        next.action = *action;
        next = lower_one(counts, next);
    }
    next
}

// A count that isn't 0.
fn put_count(counts: &mut Roomy<CountAt>, item: CountAt)
    requires some { 0 < item.count }
    requires room { 0 < counts.old.1 }
    ensures counts { (x : Address) → count_in counts.new.0 x
        ≡ cond (is_own item.instance.action item.instance.at x) (nonzero item.count) (count_in counts.old.0 x) }
    ensures room { counts.old.1 ≤ counts.new.1 + 1 }
{
    counts.put(item);
}

fn remove_count(counts: &mut Roomy<CountAt>, item: CountAt)
    requires { item.count ≡ 0 }
    ensures counts { (x : Address) → count_in counts.new.0 x
        ≡ cond (is_own item.instance.action item.instance.at x) (nonzero item.count) (count_in counts.old.0 x) }
    ensures room { counts.old.1 ≤ counts.new.1 }
{
    let _removed = counts.take(&item.instance);
}

/// Puts a count, in the place of one that is there; 0 isn't kept. No memory is taken.
pub fn set_count(counts: &mut Roomy<CountAt>, item: CountAt)
    requires { 0 < counts.old.1 }
    ensures counts { (x : Address) → count_in counts.new.0 x
        ≡ cond (is_own item.instance.action item.instance.at x) (nonzero item.count) (count_in counts.old.0 x) }
    ensures room { counts.old.1 ≤ counts.new.1 + 1 }
{
    if item.count > 0 {
        put_count(counts, item);
    } else {
        remove_count(counts, item);
    }
}

/// Puts several counts, one after the other. No memory is taken.
pub fn set_counts(counts: &mut Roomy<CountAt>, items: Vec<CountAt>)
    requires { length items.items ≤ counts.old.1 }
    ensures { (x : Address) → count_in counts.new.0 x ≡ set_all items.items (count_in counts.old.0) x }
{
    for item in items {
        set_count(counts, item);
    }
}
