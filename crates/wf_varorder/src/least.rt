//! The least pair of actions that breaks a rule.
ghost use Rattle.std.specs.List.{list_any};
ghost use Rattle.std.specs.Prelude.{◌≡◌, None, map, option_map};
ghost use Rattle.wf_def.specs.ActionSeen.{action_tree};
ghost use Rattle.wf_def.specs.ActionTree.{action_kind};
ghost use Rattle.wf_standing.specs.Kinds.{is_concurrent};
ghost use Rattle.wf_standing.specs.KnownSeen.{whole_seen};
ghost use Rattle.wf_standing.specs.Seen.{standing_tree};
ghost use Rattle.wf_varorder.specs.Least.{least_from};
ghost use Rattle.wf_varorder.specs.Pairs.{pairs_among, pairs_by, pairs_over, pairs_with};
ghost use Rattle.wf_varorder.specs.Seen.{claim_tree, pair_tree};
ghost use Rattle.wf_varorder.specs.declared.rule.PairRule.{PairRule as RuleOf};

use crate::claim::Claim;
use crate::pair::{Pair, lesser};
use crate::rule::PairRule;
use wf_def::Action;
use wf_standing::{Known, Site, Standing, is_concurrent, is_response, is_terminate};
use wf_val::Text;

// The lesser of the best pair so far and the least of those of an action with the others that offend what it claims.
fn with_claim<'b, 'a>(
    known: &Known<'_, '_>,
    all: &'b [Standing<'a>],
    so_far: Option<Pair<'b, 'a>>,
    claim: Claim<'_>,
    claimant: &'b Standing<'a>,
) -> Option<Pair<'b, 'a>>
    ensures { option_map pair_tree result ≡ least_from (option_map pair_tree so_far.entry)
        (pairs_with (whole_seen known.now) (claim_tree claim.entry) (standing_tree claimant.now) (map standing_tree all.now)) }
{
    let mut best = so_far;
    for other in all {
        if claim.clashes(known, claimant, other) {
            best = Some(lesser(best, claim.pair_of(claimant, other)));
        }
    }
    best
}

// And of those of a writer of these variables with who reads or writes one of them.
fn over_variables<'b, 'a>(
    known: &Known<'_, '_>,
    all: &'b [Standing<'a>],
    so_far: Option<Pair<'b, 'a>>,
    writer: &'b Standing<'a>,
    names: &[&Text],
) -> Option<Pair<'b, 'a>>
    ensures { option_map pair_tree result ≡ least_from (option_map pair_tree so_far.entry)
        (pairs_over (whole_seen known.now) (standing_tree writer.now) (map standing_tree all.now) (map (λ n. n.now) names.now)) }
{
    let mut best = so_far;
    for name in names {
        best = with_claim(known, all, best, Claim::Writes(name), writer);
    }
    best
}

fn any_concurrent(actions: &[&Action]) -> bool
    ensures { result ≡ list_any (λ c. is_concurrent (action_kind c)) (map (λ a. action_tree a.now) actions.now) }
{
    for action in actions {
        if is_concurrent(&action.kind) {
            return true;
        }
    }
    false
}

// The lesser of the best pair so far and the least of those of an action as a writer.
fn of_writer<'b, 'a>(
    known: &Known<'_, '_>,
    all: &'b [Standing<'a>],
    best: Option<Pair<'b, 'a>>,
    writer: &'b Standing<'a>,
) -> Option<Pair<'b, 'a>>
    ensures { option_map pair_tree result ≡ least_from (option_map pair_tree best.entry)
        (pairs_by (whole_seen known.now) RuleOf.Variables (map standing_tree all.now) (standing_tree writer.now)) }
{
    match known.uses(Site::Inputs(writer.action.number)) {
        None => best,
        Some(uses) => {
            if uses.writes.len() > 0 && any_concurrent(&writer.round) {
                let own = Pair {
                    first: writer,
                    second: writer,
                };
                over_variables(
                    known,
                    all,
                    Some(lesser(best, own)),
                    writer,
                    uses.writes.as_slice(),
                )
            } else {
                over_variables(known, all, best, writer, uses.writes.as_slice())
            }
        }
    }
}

impl PairRule {
    // The lesser of the best pair so far and the least of those of an action.
    fn of_action<'b, 'a>(
        self,
        known: &Known<'_, '_>,
        all: &'b [Standing<'a>],
        best: Option<Pair<'b, 'a>>,
        action: &'b Standing<'a>,
    ) -> Option<Pair<'b, 'a>>
        ensures { option_map pair_tree result ≡ least_from (option_map pair_tree best.entry)
            (pairs_by (whole_seen known.now) self (map standing_tree all.now) (standing_tree action.now)) }
    {
        match self {
            PairRule::Variables => of_writer(known, all, best, action),
            PairRule::Terminates => {
                if is_terminate(&action.action.kind) {
                    with_claim(known, all, best, Claim::Ends, action)
                } else {
                    best
                }
            }
            PairRule::Responses => {
                if is_response(&action.action.kind) {
                    with_claim(known, all, best, Claim::Answers, action)
                } else {
                    best
                }
            }
        }
    }
}

/// The least pair of actions that breaks the rule, by the pointers of the first and then of the other, where these are the definition's
/// actions and what is known of it. It takes no memory.
pub fn least_pair<'b, 'a>(
    known: &Known<'_, '_>,
    all: &'b [Standing<'a>],
    rule: PairRule,
) -> Option<Pair<'b, 'a>>
    ensures { option_map pair_tree result
        ≡ least_from None (pairs_among (whole_seen known.now) rule (map standing_tree all.now) (map standing_tree all.now)) }
{
    let mut best = None;
    for action in all {
        best = rule.of_action(known, all, best, action);
    }
    best
}
