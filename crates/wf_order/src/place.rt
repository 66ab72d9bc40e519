//! Where one action stands, and the table of all places.
ghost use Rattle.std.specs.Prelude.{◌≡◌, ◌∷◌, ◌++◌, [], IfOk, None, map, option_map, replicate, slice_get};
ghost use Rattle.wf_order.specs.OrderSeen.{place_tree, places_seen};
ghost use Rattle.wf_order.specs.Walk.{is_free, put};

use std::alloc::{AllocError, Global};
use wf_def::Afters;

/// An action among the others.
#[derive(Drop)]
pub struct Place {
    /// The containers round it, outermost first, and then the action itself.
    pub up: Vec<usize>,
    /// The If or Switch in a branch of which it stands directly, and the number of the branch, counted from 1.
    pub stand: Option<(usize, usize)>,
    /// The actions that it waits for.
    pub after: Vec<usize>,
}

// The containers, and one inside them.
pub fn with(alloc: Global, containers: &[usize], number: usize) -> Result<Vec<usize>, AllocError>
    ensures { IfOk result (λ up. up.items ≡ containers.now ++ number ∷ []) }
{
    let mut up = containers.to_vec(alloc)?;
    up.push(number)?;
    Ok(up)
}

pub fn numbers_of(alloc: Global, after: &Afters) -> Result<Vec<usize>, AllocError>
    ensures { IfOk result (λ numbers. numbers.items ≡ map (λ entry. entry.number) after.now) }
{
    let mut numbers = Vec::new(alloc);
    for entry in after.as_slice() {
        numbers.push(entry.number as usize)?;
    }
    Ok(numbers)
}

// A table with no place yet.
#[tactic(auto, using(crate::proofs::FillLemmas::seen_free))]
pub fn free_places(alloc: Global, count: usize) -> Result<Vec<Option<Place>>, AllocError>
    ensures { IfOk result (λ places. places_seen places.items ≡ replicate count None) }
{
    let mut places = Vec::with_capacity(alloc, count)?;
    for _ in 0..count {
        places.push(None)?;
    }
    Ok(places)
}

fn is_free(places: &[Option<Place>], number: usize) -> bool
    ensures { result ≡ is_free (slice_get (places_seen places.now) number) }
{
    match places.get(number) {
        Some(None) => true,
        _ => false,
    }
}

// A place at its number, where that is free.
#[tactic(auto, using(crate::proofs::FillLemmas::free_within, crate::proofs::FillLemmas::seen_put))]
pub fn put(mut places: Vec<Option<Place>>, number: usize, place: Place) -> Vec<Option<Place>>
    ensures { places_seen result.items ≡ put (places_seen places.items) number (place_tree place) }
{
    if !is_free(&places, number) {
        return places;
    }
    places[number] = Some(place);
    places
}
