//! Values as keys of a set or a map.
ghost use Rattle.std.proofs.Common.{refl, rules};
ghost use Rattle.std.specs.Cmp.Rules.{comparing};
ghost use Rattle.std.specs.Cmp.{partial_equiv_from_equiv, partial_order_from_agreeing_total};
ghost use Rattle.std.proofs.lemmas.Cmp.{eq_by_cmp_equiv};
ghost use Rattle.std.specs.Prelude.{Some};
ghost use Rattle.wf_val.specs.ValueKeys.{val_cmp, val_eq, val_total};

use crate::val::Val;
use std::cmp::Ordering;

impl PartialEq for Val {
    ghost eq = { val_eq };

    ghost laws = { partial_equiv_from_equiv (eq_by_cmp_equiv val_total) };

    fn eq(&self, other: &Val) -> bool {
        self.order(other).is_eq()
    }
}

impl Eq for Val {
    ghost laws = { eq_by_cmp_equiv val_total };
}

impl PartialOrd for Val {
    ghost partial_cmp = { λ v w. Some (val_cmp v w) };

    ghost laws = { partial_order_from_agreeing_total val_cmp val_total (λ v w. refl) (λ v w. refl) };

    fn partial_cmp(&self, other: &Val) -> Option<Ordering> {
        Some(self.order(other))
    }
}

impl Ord for Val {
    ghost cmp = { val_cmp };

    ghost total = { val_total };

    ghost matches_partial_cmp = { λ v w. refl };

    ghost matches_eq = { Prim.search (comparing, rules) };

    fn cmp(&self, other: &Val) -> Ordering {
        self.order(other)
    }
}
