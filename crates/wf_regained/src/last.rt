//! Who wrote each variable last.
ghost use Rattle.std.specs.Prelude.{◌≡◌, ℕ, IfOk, OnOk, None, cond, nat_eq};
ghost use Rattle.wf_asks.specs.Instances.{address_of};
ghost use Rattle.wf_asks.specs.Known.{is_among, store_in};
ghost use Rattle.wf_turns.specs.ReadSeen.{def_tree};
ghost use Rattle.wf_sight_laws.specs.Writes.{writes};
ghost use Rattle.wf_sight_laws.specs.Seen.{row_content};
ghost use Rattle.wf_regained.specs.Last.{last_from, last_of, stays, with_row};

use crate::later::comes_after;
use std::alloc::{AllocError, Global};
use wf_asks::{Instance, RowAt, Rows, Store, WriterAt};
use wf_record::{Row, Status};
use wf_sight_laws::{Checked, Places};

// The variables to which a row gives values.
fn written<'p>(places: &'p Places<'_>, place: &Instance, row: &Row) -> &'p [u32]
    ensures { (v : ℕ) → is_among v result.now ≡ writes (def_tree places.now) v (address_of place.now) (row_content row.now) }
{
    if place.at.len() != places.loops(place.action).len() as u64 {
        return &[];
    }
    match row.status {
        Status::Succeeded => places.written(place.action),
        _ => &[],
    }
}

// Whether the last writer of a variable so far stays it, where an instance writes it, too.
fn stays(
    checked: &Checked,
    places: &Places<'_>,
    store: &Store,
    variable: u32,
    place: &Instance,
) -> bool
    requires { places.now ≡ checked.now.def }
    ensures { result ≡ stays (def_tree checked.now.def) (store_in store.now.0 variable) (address_of place.now) }
{
    match store.get(&variable) {
        Some(last) => !comes_after(checked, places, &last.instance, place),
        None => false,
    }
}

// An instance that writes a variable is its last writer, but where the one so far is later.
fn overwrite(
    alloc: Global,
    checked: &Checked,
    places: &Places<'_>,
    store: &mut Store,
    variable: u32,
    place: &Instance,
) -> Result<(), AllocError>
    requires { places.now ≡ checked.now.def }
    ensures { OnOk result ((v : ℕ) → store_in store.new.0 v ≡ cond (nat_eq variable v)
        (last_of (def_tree checked.now.def) (store_in store.old.0 v) (address_of place.now)) (store_in store.old.0 v)) }
{
    if stays(checked, places, store, variable, place) {
        return Ok(());
    }
    let instance = place.copy(alloc)?;
    store.make_room(1)?;
    store.put(WriterAt { variable, instance });
    Ok(())
}

// The same for several variables.
fn overwrite_each(
    alloc: Global,
    checked: &Checked,
    places: &Places<'_>,
    store: &mut Store,
    variables: &[u32],
    place: &Instance,
) -> Result<(), AllocError>
    requires { places.now ≡ checked.now.def }
    ensures { OnOk result ((v : ℕ) → store_in store.new.0 v ≡ cond (is_among v variables.now)
        (last_of (def_tree checked.now.def) (store_in store.old.0 v) (address_of place.now)) (store_in store.old.0 v)) }
{
    for variable in variables {
        overwrite(alloc, checked, places, store, *variable, place)?;
    }
    Ok(())
}

// The last writers of all variables, with one row more.
fn add_row(
    alloc: Global,
    checked: &Checked,
    places: &Places<'_>,
    store: &mut Store,
    found: &RowAt<Row>,
) -> Result<(), AllocError>
    requires { places.now ≡ checked.now.def }
    ensures { OnOk result ((v : ℕ) → store_in store.new.0 v
        ≡ with_row (def_tree checked.now.def) v (store_in store.old.0 v) found.now) }
{
    let variables = written(places, &found.instance, &found.row);
    overwrite_each(alloc, checked, places, store, variables, &found.instance)?;
    Ok(())
}

/// Of each variable the last of the rows that give it a value, where of each two one is later.
pub(crate) fn last_writers(
    alloc: Global,
    checked: &Checked,
    places: &Places<'_>,
    rows: &Rows<Row>,
) -> Result<Store, AllocError>
    requires { places.now ≡ checked.now.def }
    ensures { IfOk result (λ store. (v : ℕ) → store_in store.0 v ≡ last_from (def_tree checked.now.def) v None rows.now.0) }
{
    let mut store = Store::new(alloc);
    for place in 0..rows.len() {
        add_row(alloc, checked, places, &mut store, rows.at(place))?;
    }
    Ok(store)
}
