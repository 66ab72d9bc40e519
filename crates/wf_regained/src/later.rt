//! Which of two instances is later.
ghost use Rattle.std.specs.Prelude.{◌≡◌};
ghost use Rattle.wf_asks.specs.Instances.{address_of};
ghost use Rattle.wf_turns.specs.ReadSeen.{def_tree};
ghost use Rattle.wf_regained.specs.Last.{comes_after, is_later};

use wf_asks::Instance;
use wf_sight_laws::{Checked, Places};

// By the loops round each and their indexes; `before` says it where they are in one iteration of each loop round both.
fn is_later(loops: &[u32], others: &[u32], at: &[u64], other: &[u64], before: bool) -> bool
    ensures { result ≡ is_later loops.now others.now at.now other.now before }
{
    match loops {
        [] => before,
        [l, ls @ ..] => match others {
            [] => before,
            [m, ms @ ..] => match at {
                [] => before,
                [i, is @ ..] => match other {
                    [] => before,
                    [j, js @ ..] => {
                        if *l != *m {
                            before
                        } else if *i == *j {
                            is_later(ls, ms, is, js, before)
                        } else {
                            *i < *j
                        }
                    }
                },
            },
        },
    }
}

/// Whether an instance y is later than another: of two writers of a variable the later one.
pub(crate) fn comes_after(
    checked: &Checked,
    places: &Places<'_>,
    x: &Instance,
    y: &Instance,
) -> bool
    requires { places.now ≡ checked.now.def }
    ensures { result ≡ comes_after (def_tree checked.now.def) (address_of x.now) (address_of y.now) }
{
    checked.always_checked();
    is_later(
        places.loops(x.action),
        places.loops(y.action),
        x.at.as_slice(),
        y.at.as_slice(),
        checked.order.before(x.action, y.action),
    )
}
