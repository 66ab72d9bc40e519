//! Where an action runs: its number, and the iterations of the loops round it.
ghost use Rattle.std.proofs.Common.{refl, rules};
ghost use Rattle.std.proofs.lemmas.Cmp.{eq_by_cmp_equiv};
ghost use Rattle.std.specs.Cmp.Rules.{comparing};
ghost use Rattle.std.specs.Cmp.{partial_equiv_from_equiv, partial_order_from_agreeing_total};
ghost use Rattle.std.specs.Prelude.{◌≡◌, IfOk, Some};
ghost use Rattle.wf_asks.specs.Instances.{instance_cmp, instance_eq, instance_total};

use std::alloc::{AllocError, Global};
use std::cmp::Ordering;
use wf_lists::TryCopy;
use wf_val::Indexes;

/// An action in one iteration of each loop round it. Numbers of actions follow the byte order of their names, so instances go as the
/// addresses do that have the names.
#[derive(Drop)]
pub struct Instance {
    pub action: u32,
    pub at: Indexes,
}

impl Instance {
    /// By the number of the action, and then by those of iterations: by the first that differ, and a front of a list is below it.
    pub fn order(&self, other: &Instance) -> Ordering
        ensures { result ≡ instance_cmp self.now other.now }
    {
        self.action
            .cmp(&other.action)
            .then(self.at.as_slice().cmp(other.at.as_slice()))
    }

    /// A copy; most actions stand in no loop, and then it takes no memory and no call.
    #[inline(always)]
    pub fn copy(&self, alloc: Global) -> Result<Instance, AllocError>
        ensures { IfOk result (λ a. a ≡ self.now) }
    {
        if self.at.as_slice().is_empty() {
            return Ok(Instance {
                action: self.action,
                at: Indexes::new(alloc),
            });
        }
        self.copy_in_loop(alloc)
    }

    // A copy of one that has indexes.
    fn copy_in_loop(&self, alloc: Global) -> Result<Instance, AllocError>
        ensures { IfOk result (λ a. a ≡ self.now) }
    {
        Ok(Instance {
            action: self.action,
            at: self.at.copy(alloc)?,
        })
    }
}

impl PartialEq for Instance {
    ghost eq = { instance_eq };

    ghost laws = { partial_equiv_from_equiv (eq_by_cmp_equiv instance_total) };

    fn eq(&self, other: &Instance) -> bool {
        self.order(other).is_eq()
    }
}

impl Eq for Instance {
    ghost laws = { eq_by_cmp_equiv instance_total };
}

impl PartialOrd for Instance {
    ghost partial_cmp = { λ a b. Some (instance_cmp a b) };

    ghost laws = { partial_order_from_agreeing_total instance_cmp instance_total (λ a b. refl) (λ a b. refl) };

    fn partial_cmp(&self, other: &Instance) -> Option<Ordering> {
        Some(self.order(other))
    }
}

impl Ord for Instance {
    ghost cmp = { instance_cmp };

    ghost total = { instance_total };

    ghost matches_partial_cmp = { λ a b. refl };

    ghost matches_eq = { Prim.search (comparing, rules) };

    fn cmp(&self, other: &Instance) -> Ordering {
        self.order(other)
    }
}
