//! Questions on two actions by their numbers.
ghost use Rattle.std.specs.Prelude.{◌≡◌, IfOk, length, map, nat_eq, option_map};
ghost use Rattle.std.specs.List.{list_any};
ghost use Rattle.wf_def.specs.ActionSeen.{graph_tree};
ghost use Rattle.wf_def.specs.Layered.{layered};
ghost use Rattle.wf_def.specs.Names.{graph_names};
ghost use Rattle.wf_order.specs.OrderSeen.{order_tree, place_tree, places_seen};
ghost use Rattle.wf_order.specs.Table.{after_at, apart_any, are_apart, before, but_last, contains, exclusive, leads_any, order_of, redo, stand_at, up_at};
ghost use Rattle.wf_paths.specs.Table.{at};

use crate::place::{Place, free_places};
use crate::walk::in_graph;
use std::alloc::{AllocError, Global};
use wf_def::Graph;
use wf_paths::paths_of;

/// The order of the actions of a definition. Actions go by their numbers; of a number that no action has every answer is no.
#[derive(Drop)]
pub struct Order {
    paths: Vec<Vec<bool>>,
    places: Vec<Option<Place>>,
}

// Whether the node p leads to the node a.
fn leads(paths: &[Vec<bool>], a: usize, p: usize) -> bool
    ensures { result ≡ at (map (λ r. r.items) paths.now) a p }
{
    match paths.get(a) {
        Some(row) => match row.get(p) {
            Some(leads) => *leads,
            None => false,
        },
        None => false,
    }
}

fn leads_to_any(paths: &[Vec<bool>], c: usize, ys: &[usize]) -> bool
    ensures { result ≡ list_any (λ d. at (map (λ r. r.items) paths.now) d c) ys.now }
{
    for d in ys {
        if leads(paths, *d, c) {
            return true;
        }
    }
    false
}

fn leads_any(paths: &[Vec<bool>], xs: &[usize], ys: &[usize]) -> bool
    ensures { result ≡ leads_any (map (λ r. r.items) paths.now) xs.now ys.now }
{
    for c in xs {
        if leads_to_any(paths, *c, ys) {
            return true;
        }
    }
    false
}

fn up_at(places: &[Option<Place>], number: usize) -> &[usize]
    ensures { result.now ≡ up_at (places_seen places.now) number }
{
    match places.get(number) {
        Some(Some(place)) => &place.up,
        _ => &[],
    }
}

fn stand_at(places: &[Option<Place>], number: usize) -> Option<(usize, usize)>
    ensures { result ≡ stand_at (places_seen places.now) number }
{
    match places.get(number) {
        Some(Some(place)) => place.stand,
        _ => None,
    }
}

fn are_apart(one: Option<(usize, usize)>, other: Option<(usize, usize)>) -> bool
    ensures { result ≡ are_apart one other }
{
    match one {
        Some(p) => match other {
            Some(q) => p.0 == q.0 && p.1 != q.1,
            None => false,
        },
        None => false,
    }
}

fn apart_from_any(places: &[Option<Place>], stand: Option<(usize, usize)>, ys: &[usize]) -> bool
    ensures { result ≡ list_any (λ d. are_apart stand (stand_at (places_seen places.now) d)) ys.now }
{
    for d in ys {
        if are_apart(stand, stand_at(places, *d)) {
            return true;
        }
    }
    false
}

fn apart_any(places: &[Option<Place>], xs: &[usize], ys: &[usize]) -> bool
    ensures { result ≡ apart_any (places_seen places.now) xs.now ys.now }
{
    for c in xs {
        if apart_from_any(places, stand_at(places, *c), ys) {
            return true;
        }
    }
    false
}

fn is_among(number: usize, xs: &[usize]) -> bool
    ensures { result ≡ list_any (nat_eq number) xs.now }
{
    for x in xs {
        if number == *x {
            return true;
        }
    }
    false
}

fn but_last(xs: &[usize]) -> &[usize]
    ensures { result.now ≡ but_last xs.now }
{
    match xs.split_last() {
        Some((_, rest)) => rest,
        None => xs,
    }
}

// What each number waits for.
fn nodes(alloc: Global, places: &[Option<Place>]) -> Result<Vec<Vec<usize>>, AllocError>
    ensures { IfOk result (λ nodes. map (λ node. node.items) nodes.items ≡ map after_at (places_seen places.now)) }
{
    let mut nodes = Vec::with_capacity(alloc, places.len())?;
    for place in places {
        nodes.push(after(alloc, place)?)?;
    }
    Ok(nodes)
}

fn after(alloc: Global, place: &Option<Place>) -> Result<Vec<usize>, AllocError>
    ensures { IfOk result (λ after. after.items ≡ after_at (option_map place_tree place.now)) }
{
    match place {
        Some(place) => Ok(place.after.to_vec(alloc)?),
        None => Ok(Vec::new(alloc)),
    }
}

impl Order {
    /// The order of a definition with this graph. It walks the graph once, and takes a byte for each two actions.
    pub fn make(alloc: Global, graph: &Graph) -> Result<Order, AllocError>
        ensures { IfOk result (λ order. order_tree order
            ≡ order_of (length (graph_names (graph_tree graph.now))) (layered (graph_tree graph.now))) }
    {
        let count = graph.names(alloc)?.len();
        let free = free_places(alloc, count)?;
        let places = in_graph(alloc, free, &[], None, graph)?;
        let nodes = nodes(alloc, &places)?;
        let paths = paths_of(alloc, &nodes)?;
        Ok(Order { paths, places })
    }

    /// Whether x is before y: whenever both run, outside loops that are round both, x has ended as y begins.
    pub fn before(&self, x: u32, y: u32) -> bool
        ensures { result ≡ before (order_tree self.now) x y }
    {
        leads_any(
            &self.paths,
            up_at(&self.places, x as usize),
            up_at(&self.places, y as usize),
        )
    }

    /// Whether x is a container round y, at any depth.
    pub fn contains(&self, x: u32, y: u32) -> bool
        ensures { result ≡ contains (order_tree self.now) x y }
    {
        is_among(x as usize, but_last(up_at(&self.places, y as usize)))
    }

    /// Whether x and y stand in different branches of one If or Switch.
    pub fn exclusive(&self, x: u32, y: u32) -> bool
        ensures { result ≡ exclusive (order_tree self.now) x y }
    {
        apart_any(
            &self.places,
            up_at(&self.places, x as usize),
            up_at(&self.places, y as usize),
        )
    }

    /// Whether y is redone where x is resubmitted.
    pub fn redo(&self, x: u32, y: u32) -> bool
        ensures { result ≡ redo (order_tree self.now) x y }
    {
        x == y || self.contains(x, y) || self.before(x, y)
    }
}
