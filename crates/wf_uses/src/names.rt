//! Names in order.
ghost use Rattle.std.specs.Prelude.{◌≡◌, ◌<◌, ◌^◌, IfOk, bytes_eq, length, map};
ghost use Rattle.std.specs.List.{list_any};
ghost use Rattle.wf_val.specs.NameOrder.{IsInNameOrder};
ghost use Rattle.wf_uses.specs.UsesTree.{ordered};

use std::alloc::{AllocError, Global};
use std::collections::BTreeSet;
use std::marker::Model;
use wf_val::Text;

/// Names in byte order, each once; seen as their list. They are borrowed from the definition that has them.
#[derive(Drop)]
pub struct Names<'a> {
    items: Vec<&'a Text>,
}

impl<'a> Model for Names<'a> {
    ghost use Rattle.std.specs.Prelude.{ℕ, List, map};

    ghost Value = { List (List ℕ) };

    ghost view = { λ a. map (λ n. n.now) a.items.items };

    ghost use Rattle.wf_val.specs.NameOrder.{IsInNameOrder};

    ghost invariant = { λ a. IsInNameOrder (λ n. n) (map (λ n. n.now) a.items.items) };
}

// The names as a set. Any order of theirs takes about as long.
fn set_of<'a>(alloc: Global, names: Vec<&'a Text>) -> Result<BTreeSet<&'a Text>, AllocError>
    ensures { IfOk result (λ set. map (λ n. n.now) set.keys ≡ ordered (map (λ n. n.now) names.entry.items)) }
{
    let mut set = BTreeSet::new(alloc);
    let mut left = names;
    while let Some(name) = left.pop() {
        let _is_new = set.insert(name)?;
    }
    Ok(set)
}

// The names of a set, which has them in order.
fn listed<'a>(alloc: Global, set: BTreeSet<&'a Text>) -> Result<Vec<&'a Text>, AllocError>
    ensures { IfOk result (λ items. items.items ≡ set.entry.keys) }
{
    let mut items = Vec::with_capacity(alloc, set.len())?;
    for name in set {
        items.push(name)?;
    }
    Ok(items)
}

impl<'a> Names<'a> {
    // Names in any order, some of them more than once.
    pub(crate) fn of(alloc: Global, names: Vec<&'a Text>) -> Result<Names<'a>, AllocError>
        ensures { IfOk result (λ own. own ≡ ordered (map (λ n. n.now) names.entry.items)) }
    {
        let set = set_of(alloc, names)?;
        Ok(Names {
            items: listed(alloc, set)?,
        })
    }

    /// How many names there are.
    pub fn len(&self) -> u64
        ensures count { result ≡ length self.now }
        ensures in_range { result < 2 ^ 63 }
    {
        self.items.len() as u64
    }

    /// The names, for a loop.
    pub fn as_slice(&self) -> &[&'a Text]
        ensures { map (λ n. n.now) result.now ≡ self.now }
    {
        &self.items
    }

    /// Whether the name is among them, by a binary search.
    pub fn contains(&self, name: &Text) -> bool
        ensures { result ≡ list_any (bytes_eq name.now) self.now }
    {
        has_name(&self.items, name)
    }
}

fn has_name<'a>(items: &[&'a Text], name: &Text) -> bool
    requires { IsInNameOrder (λ n. n) (map (λ n. n.now) items.now) }
    ensures { result ≡ list_any (bytes_eq name.now) (map (λ n. n.now) items.now) }
{
    match items.binary_search_by(|item| item.order(name)) {
        Ok(_) => true,
        Err(_) => false,
    }
}
