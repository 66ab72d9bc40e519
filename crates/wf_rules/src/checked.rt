//! A definition that breaks none of the rules.
ghost use Rattle.std.specs.Prelude.{◌≡◌, None};
ghost use Rattle.wf_varorder.specs.OrderSeen.{order_tree};
ghost use Rattle.wf_varorder.specs.ReadSeen.{def_tree};
ghost use Rattle.wf_rules.specs.Broken.{broken_of};
ghost use Rattle.wf_varorder.specs.Whole.{order_in};

use wf_varorder::{Def, Order};

/// A definition that was read and breaks none of the rules that `check` tries, with the order of its actions.
#[derive(Drop)]
pub struct Checked {
    pub def: Def,
    pub order: Order,
    ghost ordered: { order_tree order ≡ order_in (def_tree def) },
    ghost holds: { broken_of (def_tree def) ≡ None },
}
