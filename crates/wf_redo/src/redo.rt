//! Questions on a set of actions and one action, by their numbers.
ghost use Rattle.std.specs.Prelude.{◌≡◌};
ghost use Rattle.std.specs.List.{list_any};
ghost use Rattle.wf_order.specs.OrderSeen.{order_tree};
ghost use Rattle.wf_order.specs.Table.{contains};
ghost use Rattle.wf_redo.specs.Sets.{again_any, redo_any};

use wf_order::Order;

/// Whether y is redone where the actions of a set are resubmitted. It takes a look at each of them.
pub fn redo_any(order: &Order, from: &[u32], y: u32) -> bool
    ensures { result ≡ redo_any (order_tree order.now) from.now y }
{
    for x in from {
        if order.redo(*x, y) {
            return true;
        }
    }
    false
}

fn contains_any(order: &Order, y: u32, from: &[u32]) -> bool
    ensures { result ≡ list_any (λ x. contains (order_tree order.now) y x) from.now }
{
    for x in from {
        if order.contains(y, *x) {
            return true;
        }
    }
    false
}

/// Whether y is closed again where the actions of a set are resubmitted.
pub fn again_any(order: &Order, from: &[u32], y: u32) -> bool
    ensures { result ≡ again_any (order_tree order.now) from.now y }
{
    !redo_any(order, from, y) && contains_any(order, y, from)
}
