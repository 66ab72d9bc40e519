//! The condition of an `If` or an `Until`.
ghost use Rattle.std.specs.Prelude.{◌≡◌, ◌<◌, ◌^◌, [], ◌∷◌, ◌++◌, length, map, IfOk, OnOk, OnErr, option_map, slice_get};
ghost use Rattle.wf_template.specs.CondSeen.{cond_tree, conds_seen};

use crate::template::Template;
use crate::tree::Tree;
use std::alloc::{AllocError, Global};
use wf_val::Fun;

/// A condition (Workflow Definition Language, "Conditions"): a template, or `and`, `or`, `not` of conditions, or the
/// comparison of two values by a function such as `equals`.
#[cycle(cond)]
#[derive(Drop)]
pub enum Cond {
    Text(Template),
    And(Conds),
    Or(Conds),
    Not(Box<Cond>),
    Compare { fun: Fun, left: Tree, right: Tree },
}

/// Conditions, seen as the list of their trees.
#[cycle(cond)]
#[derive(Drop)]
pub struct Conds {
    items: Vec<Cond>,
}

impl Conds {
    /// No conditions.
    pub fn new(alloc: Global) -> Self
        ensures { conds_seen result ≡ [] }
    {
        Conds {
            items: Vec::new(alloc),
        }
    }

    /// How many conditions there are.
    pub fn len(&self) -> u64
        ensures count { result ≡ length (conds_seen self.now) }
        ensures in_range { result < 2 ^ 63 }
    {
        self.items.len() as u64
    }

    /// The condition at a place, counted from 0.
    pub fn at(&self, place: u64) -> Option<&Cond>
        ensures { option_map (λ c. cond_tree c.now) result ≡ slice_get (conds_seen self.now) place }
    {
        self.items.get(place as usize)
    }

    /// The conditions, for a loop.
    pub fn as_slice(&self) -> &[Cond]
        ensures { map cond_tree result.now ≡ conds_seen self.now }
    {
        &self.items
    }

    /// Adds a condition behind the others.
    pub fn push(&mut self, item: Cond) -> Result<(), AllocError>
        ensures ok { OnOk result (conds_seen self.new ≡ conds_seen self.old ++ cond_tree item ∷ []) }
        ensures err { OnErr result (conds_seen self.new ≡ conds_seen self.old) }
    {
        self.items.push(item)?;
        Ok(())
    }

    #[cycle(copy_cond)]
    pub fn copy(&self, alloc: Global) -> Result<Conds, AllocError>
        ensures { IfOk result (λ cs. conds_seen cs ≡ conds_seen self.now) }
    {
        let mut copies = Vec::with_capacity(alloc, self.items.len())?;
        for item in &self.items {
            copies.push(item.copy(alloc)?)?;
        }
        Ok(Conds { items: copies })
    }
}

impl Cond {
    #[cycle(copy_cond)]
    pub fn copy(&self, alloc: Global) -> Result<Cond, AllocError>
        ensures { IfOk result (λ c. cond_tree c ≡ cond_tree self.now) }
    {
        match self {
            Cond::Text(template) => Ok(Cond::Text(template.copy(alloc)?)),
            Cond::And(conditions) => Ok(Cond::And(conditions.copy(alloc)?)),
            Cond::Or(conditions) => Ok(Cond::Or(conditions.copy(alloc)?)),
            Cond::Not(condition) => {
                let condition = condition.copy(alloc)?;
                Ok(Cond::Not(Box::new(alloc, condition)?))
            }
            Cond::Compare { fun, left, right } => {
                let left = left.copy(alloc)?;
                let right = right.copy(alloc)?;
                Ok(Cond::Compare {
                    fun: *fun,
                    left,
                    right,
                })
            }
        }
    }
}
