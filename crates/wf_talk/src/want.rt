//! Attempts that wait for their answers.
ghost use Rattle.std.proofs.Common.{refl, rules};
ghost use Rattle.std.proofs.lemmas.Cmp.{eq_by_cmp_equiv};
ghost use Rattle.std.specs.Cmp.Rules.{comparing};
ghost use Rattle.std.specs.Cmp.{partial_equiv_from_equiv, partial_order_from_agreeing_total};
ghost use Rattle.std.specs.Prelude.{◌≡◌, Some};
ghost use Rattle.wf_answers.specs.AnswerTree.{key_cmp};
ghost use Rattle.wf_talk.specs.Seen.{want_cmp, want_eq, want_key, want_total};

use std::cmp::Ordering;
use wf_val::Address;

/// An attempt that waits for its answer. Attempts are compared by their addresses, and then by their numbers.
#[derive(Drop)]
pub struct Want {
    pub address: Address,
    /// Its number, counted from 1.
    pub attempt: u64,
}

impl Want {
    /// How it stands to an attempt.
    pub fn order(&self, address: &Address, attempt: u64) -> Ordering
        ensures { result ≡ key_cmp (want_key self.now) (address.now, attempt) }
    {
        self.address.order(address).then(self.attempt.cmp(&attempt))
    }
}

impl PartialEq for Want {
    ghost eq = { want_eq };

    ghost laws = { partial_equiv_from_equiv (eq_by_cmp_equiv want_total) };

    fn eq(&self, other: &Want) -> bool {
        self.order(&other.address, other.attempt).is_eq()
    }
}

impl Eq for Want {
    ghost laws = { eq_by_cmp_equiv want_total };
}

impl PartialOrd for Want {
    ghost partial_cmp = { λ a b. Some (want_cmp a b) };

    ghost laws = { partial_order_from_agreeing_total want_cmp want_total (λ a b. refl) (λ a b. refl) };

    fn partial_cmp(&self, other: &Want) -> Option<Ordering> {
        Some(self.order(&other.address, other.attempt))
    }
}

impl Ord for Want {
    ghost cmp = { want_cmp };

    ghost total = { want_total };

    ghost matches_partial_cmp = { λ a b. refl };

    ghost matches_eq = { Prim.search (comparing, rules) };

    fn cmp(&self, other: &Want) -> Ordering {
        self.order(&other.address, other.attempt)
    }
}
