//! The first in the order of those that have Succeeded.
ghost use Rattle.std.specs.Prelude.{◌≡◌, None, map, option_map};
ghost use Rattle.wf_asks.specs.Instances.{address_of};
ghost use Rattle.wf_catalog.specs.Containers.{has_succeeded};
ghost use Rattle.wf_order.specs.OrderSeen.{order_tree};
ghost use Rattle.wf_sight_laws.specs.Seen.{row_content, rows_seen};
ghost use Rattle.wf_ended.specs.First.{better_of, first_among, row_of_place, sooner_of};

use wf_asks::{Instance, Rows};
use wf_order::Order;
use wf_record::{Row, Status};

fn row_at<'r>(rows: &'r Rows<Row>, place: &Instance) -> Option<&'r Row>
    ensures { option_map (λ r. row_content r.now) result ≡ rows_seen rows.now.0 (address_of place.now) }
{
    match rows.get(place) {
        Some(found) => Some(&found.row),
        None => None,
    }
}

fn has_succeeded(rows: &Rows<Row>, place: &Instance) -> bool
    ensures { result ≡ has_succeeded (rows_seen rows.now.0 (address_of place.now)) }
{
    match row_at(rows, place) {
        Some(row) => matches!(row.status, Status::Succeeded),
        None => false,
    }
}

fn sooner<'p>(order: &Order, best: Option<&'p Instance>, place: &'p Instance) -> &'p Instance
    ensures { address_of result.now
        ≡ sooner_of (order_tree order.now) (option_map (λ p. address_of p.now) best.entry) (address_of place.now) }
{
    match best {
        Some(best) if !order.before(place.action, best.action) => best,
        _ => place,
    }
}

fn better<'p>(
    order: &Order,
    rows: &Rows<Row>,
    best: Option<&'p Instance>,
    place: &'p Instance,
) -> Option<&'p Instance>
    ensures { option_map (λ p. address_of p.now) result ≡ better_of (order_tree order.now) (rows_seen rows.now.0)
        (option_map (λ p. address_of p.now) best.entry) (address_of place.now) }
{
    if has_succeeded(rows, place) {
        Some(sooner(order, best, place))
    } else {
        best
    }
}

fn first_among<'p>(
    order: &Order,
    rows: &Rows<Row>,
    best: Option<&'p Instance>,
    places: &'p [Instance],
) -> Option<&'p Instance>
    ensures { option_map (λ p. address_of p.now) result ≡ first_among (order_tree order.now) (rows_seen rows.now.0)
        (option_map (λ p. address_of p.now) best.entry) (map address_of places.now) }
{
    match places.split_first() {
        None => best,
        Some((place, others)) => first_among(order, rows, better(order, rows, best, place), others),
    }
}

/// The row of the first.
pub(crate) fn first_succeeded<'r>(
    order: &Order,
    rows: &'r Rows<Row>,
    places: &[Instance],
) -> Option<&'r Row>
    ensures { option_map (λ r. row_content r.now) result ≡ row_of_place (rows_seen rows.now.0)
        (first_among (order_tree order.now) (rows_seen rows.now.0) None (map address_of places.now)) }
{
    match first_among(order, rows, None, places) {
        Some(place) => row_at(rows, place),
        None => None,
    }
}
