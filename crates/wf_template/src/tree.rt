//! A value whose texts are templates.
ghost use Rattle.std.specs.Prelude.{◌≡◌, ◌<◌, ◌^◌, [], ◌∷◌, ◌++◌, length, map, IfOk, OnOk, OnErr, option_map, slice_get};
ghost use Rattle.wf_template.specs.DataSeen.{data_tree};

use crate::template::Template;
use crate::tree_fields::TreeFields;
use std::alloc::{AllocError, Global};
use std::marker::Model;

/// What an action's inputs hold: a value of JSON (RFC 8259, section 3) with a template for each text. A number is
/// whole.
#[cycle(tree)]
#[derive(Drop)]
pub enum Tree {
    Null,
    Bool(bool),
    Int(i64),
    Text(Template),
    List(Trees),
    Obj(TreeFields),
}

/// The items of a list; seen as the list of their trees.
#[cycle(tree)]
#[derive(Drop)]
pub struct Trees {
    items: Vec<Tree>,
}

impl Model for Trees {
    ghost use Rattle.std.specs.Prelude.{List, map};
    ghost use Rattle.std.specs.Coded.{coded_list};
    ghost use Rattle.wf_template.specs.DataTree.{DataTree};
    ghost use Rattle.wf_template.specs.DataCode.{coded_data};

    ghost Value = { List DataTree };

    ghost coded = { coded_list coded_data };

    ghost use Rattle.wf_template.specs.DataSeen.{data_tree};
    ghost use Rattle.wf_template.specs.DataCounts.{count_of_list};

    ghost view = { λ a. map data_tree a.items.items };

    ghost size = { count_of_list };

    ghost use Rattle.std.proofs.Common.{arith};
    ghost use Rattle.wf_template.specs.DataCountFalls.{most_le-count_of_list};

    ghost size_decreases = { λ a h. Prim.omega (arith, most_le-count_of_list a.items.items) };
}

impl Trees {
    /// No items.
    pub fn new(alloc: Global) -> Self
        ensures { result ≡ [] }
    {
        Trees {
            items: Vec::new(alloc),
        }
    }

    /// How many items there are.
    pub fn len(&self) -> u64
        ensures count { result ≡ length self.now }
        ensures in_range { result < 2 ^ 63 }
    {
        self.items.len() as u64
    }

    /// The item at a place, counted from 0.
    pub fn at(&self, place: u64) -> Option<&Tree>
        ensures { option_map (λ t. data_tree t.now) result ≡ slice_get self.now place }
    {
        self.items.get(place as usize)
    }

    /// The items, for a loop.
    pub fn as_slice(&self) -> &[Tree]
        ensures { map data_tree result.now ≡ self.now }
    {
        &self.items
    }

    /// Adds an item behind the others.
    pub fn push(&mut self, item: Tree) -> Result<(), AllocError>
        ensures ok { OnOk result (self.new ≡ self.old ++ data_tree item ∷ []) }
        ensures err { OnErr result (self.new ≡ self.old) }
    {
        self.items.push(item)?;
        Ok(())
    }

    #[cycle(copy_tree)]
    pub fn copy(&self, alloc: Global) -> Result<Trees, AllocError>
        ensures { IfOk result (λ ts. ts ≡ self.now) }
    {
        let mut copies = Vec::with_capacity(alloc, self.items.len())?;
        for item in &self.items {
            copies.push(item.copy(alloc)?)?;
        }
        Ok(Trees { items: copies })
    }
}

impl Tree {
    #[cycle(copy_tree)]
    pub fn copy(&self, alloc: Global) -> Result<Tree, AllocError>
        ensures { IfOk result (λ t. data_tree t ≡ data_tree self.now) }
    {
        match self {
            Tree::Null => Ok(Tree::Null),
            Tree::Bool(truth) => Ok(Tree::Bool(*truth)),
            Tree::Int(number) => Ok(Tree::Int(*number)),
            Tree::Text(template) => Ok(Tree::Text(template.copy(alloc)?)),
            Tree::List(items) => Ok(Tree::List(items.copy(alloc)?)),
            Tree::Obj(fields) => Ok(Tree::Obj(fields.copy(alloc)?)),
        }
    }
}
