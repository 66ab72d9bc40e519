//! What is seen at a point of a run.
ghost use Rattle.std.specs.Prelude.{◌≡◌, [], IfOk, option_map};
ghost use Rattle.wf_views.specs.Instances.{address_of};
ghost use Rattle.wf_views.specs.Known.{store_in};
ghost use Rattle.wf_layers.specs.Address.{address};
ghost use Rattle.wf_views.specs.Look.{instance};
ghost use Rattle.wf_val.specs.Address.{address_text};
ghost use Rattle.wf_val.specs.Seen.{tree};
ghost use Rattle.wf_views.specs.ReadSeen.{def_tree};
ghost use Rattle.wf_views.specs.MeantVariables.{given_by};
ghost use Rattle.wf_views.specs.Seen.{row_content, rows_seen};
ghost use Rattle.wf_sight.specs.Seen.{known_tree};
ghost use Rattle.wf_sight.specs.Sight.{seen_at, seen_by_outputs, seen_from, seen_in_test};
ghost use Rattle.wf_sight.specs.SightSeen.{place_tree, run_tree, sight_drawn, sight_told};
ghost use Rattle.wf_sight.specs.Variables.{variable_in};

use crate::items::{Held, index_of, item_of, items_of, nearest};
use std::alloc::{AllocError, Global};
use wf_fn_time::Ticks;
use wf_lists::TryCopy;
use wf_record::{Row, Status};
use wf_val::{Indexes, Name, Text, Val, address_text};
use wf_views::{
    Decision, Instance, Known, Look, Places, Rows, Start, Store, Verdict, indexes_then, name_of,
    result_from, row_of, value_given, view_from, word_of,
};

/// What a run goes by: how it was started, and what the action is told of the run itself. Where a part of a run is done anew, its actions
/// are told of the run that did them last.
#[derive(Drop)]
pub struct Run<'a> {
    pub start: &'a Start,
    pub name: &'a Text,
    pub seed: &'a Text,
    pub moment: Ticks,
}

// The text of an instance: outside of loops it is the action's name, which isn't copied.
#[derive(Drop)]
enum PlaceText<'a> {
    Name(&'a Name),
    Made(Text),
}

/// What is seen at a point.
#[derive(Drop)]
pub struct Sight<'a> {
    places: &'a Places<'a>,
    start: &'a Start,
    name: &'a Text,
    seed: &'a Text,
    moment: Ticks,
    rows: &'a Rows<Row>,
    store: &'a Store,
    // the loops round the point, outermost first, and the index of its iteration in each
    loops: Vec<u32>,
    at: Indexes,
    // their items
    items: Vec<Held<'a>>,
    // of which words are made
    place: PlaceText<'a>,
    drawn: u64,
}

fn place_text<'a>(
    alloc: Global,
    places: &'a Places<'a>,
    action: u32,
    at: &[u64],
) -> Result<PlaceText<'a>, AllocError>
    ensures { IfOk result (λ t. place_tree t ≡ address_text (instance (def_tree places.now) (address action at.now))) }
{
    match places.action(action) {
        Some(action) => named_text(alloc, name_of(action), at),
        None => Ok(PlaceText::Made(address_text(alloc, "", at)?)),
    }
}

#[tactic(auto, using(crate::proofs::PlaceLemmas::outside_of_loops))]
fn named_text<'a>(alloc: Global, name: &'a Name, at: &[u64]) -> Result<PlaceText<'a>, AllocError>
    ensures { IfOk result (λ t. place_tree t ≡ address_text (record { name = name.now; at = at.now })) }
{
    if at.is_empty() {
        Ok(PlaceText::Name(name))
    } else {
        Ok(PlaceText::Made(address_text(alloc, name.as_str(), at)?))
    }
}

fn text_in<'p>(place: &'p PlaceText<'_>) -> &'p Text
    ensures { result.now ≡ place_tree place.now }
{
    match place {
        PlaceText::Name(name) => name,
        PlaceText::Made(text) => text,
    }
}

// The value that a row gives a variable.
fn given_by<'a>(name: &Text, row: &'a Row) -> Option<&'a Val>
    ensures { option_map (λ v. tree v.now) result ≡ given_by name.now (row_content row.now) }
{
    match row.status {
        Status::Succeeded => value_given(name, &row.outputs),
        _ => None,
    }
}

// The value of a variable, by the row of its last writer.
fn variable_in<'a>(
    places: &Places<'_>,
    rows: &'a Rows<Row>,
    store: &Store,
    name: &Text,
) -> Option<&'a Val>
    ensures { option_map (λ v. tree v.now) result
        ≡ variable_in (def_tree places.now) (rows_seen rows.now.0) (store_in store.now.0) name.now }
{
    match places.variable(name) {
        Some(number) => match store.get(&number) {
            Some(writer) => match row_of(rows, &writer.instance) {
                Some(row) => given_by(name, row),
                None => None,
            },
            None => None,
        },
        None => None,
    }
}

impl<'a> Sight<'a> {
    // From inside these loops at these indexes.
    fn from(
        alloc: Global,
        places: &'a Places<'a>,
        run: &Run<'a>,
        place: PlaceText<'a>,
        loops: Vec<u32>,
        at: Indexes,
        known: Known<'a, Row, Decision, Verdict>,
    ) -> Result<Sight<'a>, AllocError>
        ensures told { IfOk result (λ s. sight_told s ≡ seen_from (def_tree places.now) (run_tree run.now) (place_tree place.entry)
            loops.items at (known_tree known.entry.rows.now.0 known.entry.opens.now.0 known.entry.store.now.0)) }
        ensures drawn { IfOk result (λ s. sight_drawn s ≡ 0) }
    {
        let items = items_of(alloc, places, known.opens, &loops, at.as_slice())?;
        Ok(Sight {
            places,
            start: run.start,
            name: run.name,
            seed: run.seed,
            moment: run.moment,
            rows: known.rows,
            store: known.store,
            loops,
            at,
            items,
            place,
            drawn: 0,
        })
    }

    /// What an action sees as it starts or ends, and a container as it opens or closes.
    pub fn at(
        alloc: Global,
        places: &'a Places<'a>,
        run: &Run<'a>,
        place: &Instance,
        known: Known<'a, Row, Decision, Verdict>,
    ) -> Result<Sight<'a>, AllocError>
        ensures told { IfOk result (λ s. sight_told s ≡ seen_at (def_tree places.now) (run_tree run.now) (address_of place.now)
            (known_tree known.entry.rows.now.0 known.entry.opens.now.0 known.entry.store.now.0)) }
        ensures drawn { IfOk result (λ s. sight_drawn s ≡ 0) }
    {
        let text = place_text(alloc, places, place.action, place.at.as_slice())?;
        let loops = places.loops(place.action).to_vec(alloc)?;
        let at = place.at.copy(alloc)?;
        Sight::from(alloc, places, run, text, loops, at, known)
    }

    /// What the test of an Until sees after the iteration of an index.
    pub fn in_test(
        alloc: Global,
        places: &'a Places<'a>,
        run: &Run<'a>,
        place: &Instance,
        index: u64,
        known: Known<'a, Row, Decision, Verdict>,
    ) -> Result<Sight<'a>, AllocError>
        ensures told { IfOk result (λ s. sight_told s ≡ seen_in_test (def_tree places.now) (run_tree run.now) (address_of place.now) index
            (known_tree known.entry.rows.now.0 known.entry.opens.now.0 known.entry.store.now.0)) }
        ensures drawn { IfOk result (λ s. sight_drawn s ≡ 0) }
    {
        let at = indexes_then(alloc, place.at.as_slice(), index)?;
        let text = place_text(alloc, places, place.action, at.as_slice())?;
        let mut loops = places.loops(place.action).to_vec(alloc)?;
        loops.push(place.action)?;
        Sight::from(alloc, places, run, text, loops, at, known)
    }

    /// What the section `outputs` sees, once all actions have rows.
    pub fn by_outputs(
        alloc: Global,
        places: &'a Places<'a>,
        run: &Run<'a>,
        known: Known<'a, Row, Decision, Verdict>,
    ) -> Result<Sight<'a>, AllocError>
        ensures told { IfOk result (λ s. sight_told s ≡ seen_by_outputs (def_tree places.now) (run_tree run.now)
            (known_tree known.entry.rows.now.0 known.entry.opens.now.0 known.entry.store.now.0)) }
        ensures drawn { IfOk result (λ s. sight_drawn s ≡ 0) }
    {
        let text = PlaceText::Made(Text::of(alloc, "@outputs")?);
        Sight::from(
            alloc,
            places,
            run,
            text,
            Vec::new(alloc),
            Indexes::new(alloc),
            known,
        )
    }
}

impl<'a> Look for Sight<'a> {
    ghost told = { λ s. sight_told s };

    ghost drawn = { λ s. sight_drawn s };

    ghost held = { λ s. [] };

    fn parameter(&self, name: &Text) -> Option<&Val> {
        self.start.parameters.get(name)
    }

    fn variable(&self, name: &Text) -> Option<&Val> {
        variable_in(self.places, self.rows, self.store, name)
    }

    fn trigger(&self) -> &Val {
        &self.start.trigger
    }

    fn view(&self, alloc: Global, name: &Name) -> Result<Option<Val>, AllocError> {
        view_from(
            alloc,
            self.places,
            self.rows,
            &self.loops,
            self.at.as_slice(),
            name,
        )
    }

    fn result(&self, alloc: Global, name: &Name) -> Result<Option<Val>, AllocError> {
        result_from(
            alloc,
            self.places,
            self.rows,
            &self.loops,
            self.at.as_slice(),
            name,
        )
    }

    fn item(&self) -> Option<&Val> {
        nearest(&self.items)
    }

    fn item_of(&self, name: &Name) -> Option<&Val> {
        item_of(&self.items, name)
    }

    fn index_of(&self, name: &Name) -> Option<u64> {
        index_of(self.places, &self.loops, self.at.as_slice(), name)
    }

    fn own(&self) -> Option<&Val> {
        None
    }

    fn moment(&self) -> i64 {
        self.moment.get() as i64
    }

    fn run_name(&self) -> &Text {
        self.name
    }

    fn word(&mut self) -> [u8; 32] {
        let word = word_of(self.seed, text_in(&self.place), self.drawn);
        self.drawn = self.drawn.saturating_add(1);
        word
    }
}
