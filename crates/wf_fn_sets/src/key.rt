//! What items are compared by.
ghost use Rattle.std.proofs.Common.{refl, rules};
ghost use Rattle.std.proofs.lemmas.Cmp.{eq_by_cmp_equiv};
ghost use Rattle.std.specs.Cmp.Rules.{comparing};
ghost use Rattle.std.specs.Cmp.{partial_equiv_from_equiv, partial_order_from_agreeing_total};
ghost use Rattle.std.specs.Prelude.{◌≡◌, IfOk, Some};
ghost use Rattle.wf_val.specs.Seen.{tree};
ghost use Rattle.wf_fn_sets.specs.Keys.{key_tree, key_cmp, key_eq, key_total};

use std::alloc::{AllocError, Global};
use std::cmp::Ordering;
use wf_val::Val;

/// A value to compare by. A number stands in the key itself, so that two of them are compared without a look at where
/// their values are.
#[derive(Clone, Copy)]
pub(crate) enum Key<'a> {
    Number(i64),
    Other(&'a Val),
}

impl<'a> Key<'a> {
    pub(crate) fn of(value: &'a Val) -> Key<'a>
        ensures { key_tree result ≡ tree value.now }
    {
        match value {
            Val::Int(number) => Key::Number(*number),
            _ => Key::Other(value),
        }
    }

    /// A copy of the value.
    pub(crate) fn copy(&self, alloc: Global) -> Result<Val, AllocError>
        ensures { IfOk result (λ v. tree v ≡ key_tree self.now) }
    {
        match self {
            Key::Number(number) => Ok(Val::Int(*number)),
            Key::Other(value) => value.copy(alloc),
        }
    }

    // As the values are ordered.
    fn order(&self, other: &Key<'_>) -> Ordering
        ensures { result ≡ key_cmp self.now other.now }
    {
        match (self, other) {
            (Key::Number(one), Key::Number(two)) => one.cmp(two),
            (Key::Number(one), Key::Other(two)) => Val::Int(*one).order(two),
            (Key::Other(one), Key::Number(two)) => one.order(&Val::Int(*two)),
            (Key::Other(one), Key::Other(two)) => one.order(two),
        }
    }
}

impl PartialEq for Key<'_> {
    ghost eq = { key_eq };

    ghost laws = { partial_equiv_from_equiv (eq_by_cmp_equiv key_total) };

    fn eq(&self, other: &Self) -> bool {
        self.order(other).is_eq()
    }
}

impl Eq for Key<'_> {
    ghost laws = { eq_by_cmp_equiv key_total };
}

impl PartialOrd for Key<'_> {
    ghost partial_cmp = { λ j k. Some (key_cmp j k) };

    ghost laws = { partial_order_from_agreeing_total key_cmp key_total (λ j k. refl) (λ j k. refl) };

    fn partial_cmp(&self, other: &Self) -> Option<Ordering> {
        Some(self.order(other))
    }
}

impl Ord for Key<'_> {
    ghost cmp = { key_cmp };

    ghost total = { key_total };

    ghost matches_partial_cmp = { λ j k. refl };

    ghost matches_eq = { Prim.search (comparing, rules) };

    fn cmp(&self, other: &Self) -> Ordering {
        self.order(other)
    }
}
