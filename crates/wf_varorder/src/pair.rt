//! Two actions of which one offends what the other claims.
ghost use Rattle.std.specs.Prelude.{◌≡◌, option_map};
ghost use Rattle.wf_standing.specs.Seen.{standing_tree};
ghost use Rattle.wf_varorder.specs.Least.{lesser, numbers_of, pair_cmp};
ghost use Rattle.wf_varorder.specs.Pairs.{by_pointer, pair_of};
ghost use Rattle.wf_varorder.specs.Seen.{claim_tree, pair_tree};

use crate::claim::Claim;
use std::cmp::Ordering;
use wf_standing::Standing;

/// Two actions that break a rule, the one first at which it is told.
#[derive(Clone, Copy)]
pub struct Pair<'b, 'a> {
    pub first: &'b Standing<'a>,
    pub second: &'b Standing<'a>,
}

fn by_pointer<'b, 'a>(one: &'b Standing<'a>, other: &'b Standing<'a>) -> Pair<'b, 'a>
    ensures { pair_tree result ≡ by_pointer (standing_tree one.now) (standing_tree other.now) }
{
    match one.action.pointer.order(&other.action.pointer) {
        Ordering::Greater => Pair {
            first: other,
            second: one,
        },
        _ => Pair {
            first: one,
            second: other,
        },
    }
}

impl Claim<'_> {
    /// The pair of an action and another that offends what it claims.
    pub(crate) fn pair_of<'b, 'a>(
        self,
        claimant: &'b Standing<'a>,
        other: &'b Standing<'a>,
    ) -> Pair<'b, 'a>
        ensures { pair_tree result ≡ pair_of (claim_tree self.entry) (standing_tree claimant.now) (standing_tree other.now) }
    {
        match self {
            Claim::Ends => Pair {
                first: claimant,
                second: other,
            },
            _ => by_pointer(claimant, other),
        }
    }
}

impl Pair<'_, '_> {
    fn order(&self, other: &Self) -> Ordering
        ensures { result ≡ pair_cmp (pair_tree self.now) (pair_tree other.now) }
    {
        match self.first.action.pointer.order(&other.first.action.pointer) {
            Ordering::Equal => self
                .second
                .action
                .pointer
                .order(&other.second.action.pointer),
            unlike => unlike,
        }
    }

    /// The numbers of its actions.
    pub(crate) fn numbers(&self) -> (u32, u32)
        ensures { result ≡ numbers_of (pair_tree self.now) }
    {
        (self.first.action.number, self.second.action.number)
    }
}

/// The lesser of the best pair so far, if there is one, and another.
pub(crate) fn lesser<'b, 'a>(best: Option<Pair<'b, 'a>>, pair: Pair<'b, 'a>) -> Pair<'b, 'a>
    ensures { pair_tree result ≡ lesser (option_map pair_tree best.entry) (pair_tree pair.entry) }
{
    match best {
        None => pair,
        Some(best) => match best.order(&pair) {
            Ordering::Greater => pair,
            _ => best,
        },
    }
}
