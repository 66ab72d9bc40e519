//! The pair that breaks each of the rules, by the numbers of its actions.
ghost use Rattle.std.specs.Prelude.{◌≡◌, map};
ghost use Rattle.wf_standing.specs.KnownSeen.{whole_seen};
ghost use Rattle.wf_standing.specs.Seen.{standing_tree};
ghost use Rattle.wf_varorder.specs.Least.{fault_among};
ghost use Rattle.wf_varorder.specs.declared.rule.PairRule.{PairRule as RuleOf};

use crate::least::least_pair;
use crate::rule::PairRule;
use wf_standing::{Known, Standing};

fn fault_among(known: &Known<'_, '_>, all: &[Standing<'_>], rule: PairRule) -> Option<(u32, u32)>
    ensures { result ≡ fault_among (whole_seen known.now) (map standing_tree all.now) rule }
{
    match least_pair(known, all, rule) {
        Some(pair) => Some(pair.numbers()),
        None => None,
    }
}

/// The least pair of accesses of one variable, with a writer among them, that are in no order and don't exclude each other; a writer in
/// a Foreach whose iterations go side by side is such a pair with itself.
pub fn variable_fault(known: &Known<'_, '_>, all: &[Standing<'_>]) -> Option<(u32, u32)>
    ensures { result ≡ fault_among (whole_seen known.now) (map standing_tree all.now) RuleOf.Variables }
{
    fault_among(known, all, PairRule::Variables)
}

/// The least pair of a Terminate and another action, which is neither before nor after it, doesn't exclude it and isn't round it.
pub fn terminate_fault(known: &Known<'_, '_>, all: &[Standing<'_>]) -> Option<(u32, u32)>
    ensures { result ≡ fault_among (whole_seen known.now) (map standing_tree all.now) RuleOf.Terminates }
{
    fault_among(known, all, PairRule::Terminates)
}

/// The least pair of Responses that are in no order and don't exclude each other.
pub fn response_fault(known: &Known<'_, '_>, all: &[Standing<'_>]) -> Option<(u32, u32)>
    ensures { result ≡ fault_among (whole_seen known.now) (map standing_tree all.now) RuleOf.Responses }
{
    fault_among(known, all, PairRule::Responses)
}
