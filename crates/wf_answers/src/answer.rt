//! Answers of connectors.
ghost use Rattle.std.proofs.Common.{refl, rules};
ghost use Rattle.std.proofs.lemmas.Cmp.{eq_by_cmp_equiv};
ghost use Rattle.std.specs.Cmp.Rules.{comparing};
ghost use Rattle.std.specs.Cmp.{partial_equiv_from_equiv, partial_order_from_agreeing_total};
ghost use Rattle.std.specs.Prelude.{◌≡◌, Some, map, option_map};
ghost use Rattle.wf_answers.specs.AnswerSeen.{answer_eq, answer_order, answer_total, answer_tree};
ghost use Rattle.wf_answers.specs.AnswerTree.{find_answer, key_cmp, key_of};
ghost use Rattle.wf_lists.specs.KeyOrder.{IsInKeyOrder};

use std::cmp::Ordering;
use wf_lists::{Keyed, Sorted};
use wf_retry::Outcome;
use wf_val::{Address, Val};

/// What an attempt of an action came to. Attempts are counted from 1.
///
/// Answers are compared by what they are for, their address and their attempt, and by nothing else.
#[derive(Drop)]
pub struct Answer {
    pub address: Address,
    pub attempt: u32,
    pub outcome: Outcome,
    pub headers: Val,
    pub body: Val,
}

/// Answers in the order of their addresses and attempts, no two of them for one attempt.
pub type Answers = Sorted<Answer>;

impl Answer {
    /// How its attempt stands to another: by address, and then by number.
    pub fn order(&self, address: &Address, attempt: u32) -> Ordering
        ensures { result ≡ key_cmp (key_of (answer_tree self.now)) (address.now, attempt) }
    {
        self.address.order(address).then(self.attempt.cmp(&attempt))
    }
}

// The answer for an attempt, by a binary search.
pub(crate) fn find<'a>(answers: &'a [Answer], address: &Address, attempt: u32) -> Option<&'a Answer>
    requires { IsInKeyOrder answer_order (λ a. a) answers.now }
    ensures { option_map (λ a. answer_tree a.now) result ≡ find_answer (address.now, attempt) (map answer_tree answers.now) }
{
    match answers.binary_search_by(|answer| answer.order(address, attempt)) {
        Ok(place) => Some(&answers[place]),
        Err(_) => None,
    }
}

impl Keyed for Answer {
    type Key = Answer;

    ghost key_of = { λ a. a };

    fn key(&self) -> &Answer {
        self
    }
}

impl PartialEq for Answer {
    ghost eq = { answer_eq };

    ghost laws = { partial_equiv_from_equiv (eq_by_cmp_equiv answer_total) };

    fn eq(&self, other: &Answer) -> bool {
        self.order(&other.address, other.attempt).is_eq()
    }
}

impl Eq for Answer {
    ghost laws = { eq_by_cmp_equiv answer_total };
}

impl PartialOrd for Answer {
    ghost partial_cmp = { λ a b. Some (answer_order a b) };

    ghost laws = { partial_order_from_agreeing_total answer_order answer_total (λ a b. refl) (λ a b. refl) };

    fn partial_cmp(&self, other: &Answer) -> Option<Ordering> {
        Some(self.order(&other.address, other.attempt))
    }
}

impl Ord for Answer {
    ghost cmp = { answer_order };

    ghost total = { answer_total };

    ghost matches_partial_cmp = { λ a b. refl };

    ghost matches_eq = { Prim.search (comparing, rules) };

    fn cmp(&self, other: &Answer) -> Ordering {
        self.order(&other.address, other.attempt)
    }
}
