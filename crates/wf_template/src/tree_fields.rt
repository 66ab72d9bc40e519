//! The members of an object whose texts are templates.
ghost use Rattle.std.specs.Prelude.{◌≡◌, ◌<◌, ◌^◌, [], ◌∷◌, ◌++◌, length, map, IfOk, IfErr, OnOk, OnErr, option_map, slice_get};
ghost use Rattle.std.specs.List.Sorted.{IsSearchInRange};
ghost use Rattle.wf_val.specs.NameOrder.{bytes_cmp, IsInNameOrder, IsAboveAll, put_named, IsPlace, IsGap};
ghost use Rattle.wf_template.specs.DataTree.{name_of_data};
ghost use Rattle.wf_template.specs.DataSeen.{data_tree, data_member};

use crate::tree::Tree;
use std::alloc::{AllocError, Global};
use std::marker::Model;
use wf_val::Text;

/// The members of an object (RFC 8259, section 4), with distinct names in byte order; a name is no template. Seen as
/// the list of their names and trees.
#[cycle(tree)]
#[derive(Drop)]
pub struct TreeFields {
    members: Vec<(Text, Tree)>,
}

impl Model for TreeFields {
    ghost use Rattle.std.specs.Prelude.{List, map};
    ghost use Rattle.std.specs.Coded.{coded_list};
    ghost use Rattle.wf_template.specs.DataTree.{DataMember};
    ghost use Rattle.wf_template.specs.DataCode.{coded_data_member};

    ghost Value = { List DataMember };

    ghost coded = { coded_list coded_data_member };

    ghost use Rattle.wf_template.specs.DataSeen.{data_member};
    ghost use Rattle.wf_template.specs.DataCounts.{count_of_members};

    ghost view = { λ a. map data_member a.members.items };

    ghost use Rattle.wf_val.specs.NameOrder.{IsInNameOrder};
    ghost use Rattle.wf_template.specs.DataTree.{name_of_data};

    ghost invariant = { λ a. IsInNameOrder name_of_data (map data_member a.members.items) };

    ghost size = { count_of_members };

    ghost use Rattle.std.proofs.Common.{arith};
    ghost use Rattle.wf_template.specs.DataCountFalls.{most_le-count_of_members};

    ghost size_decreases = { λ a h. Prim.omega (arith, most_le-count_of_members a.members.items) };
}

impl TreeFields {
    /// No members.
    pub fn new(alloc: Global) -> Self
        ensures { result ≡ [] }
    {
        TreeFields {
            members: Vec::new(alloc),
        }
    }

    /// How many members there are.
    pub fn len(&self) -> u64
        ensures count { result ≡ length self.now }
        ensures in_range { result < 2 ^ 63 }
    {
        self.members.len() as u64
    }

    /// The member at a place in the order of names, counted from 0.
    pub fn at(&self, place: u64) -> Option<&(Text, Tree)>
        ensures { option_map (λ m. data_member m.now) result ≡ slice_get self.now place }
    {
        self.members.get(place as usize)
    }

    /// The members in the order of their names, for a loop.
    pub fn as_slice(&self) -> &[(Text, Tree)]
        ensures members { map data_member result.now ≡ self.now }
        ensures in_order { IsInNameOrder name_of_data self.now }
    {
        &self.members
    }

    /// Adds a member in its place, or replaces the one that has the name. It moves every member behind that place, so
    /// members that come in the order of their names are better added by `append`.
    pub fn put(&mut self, name: Text, value: Tree) -> Result<(), AllocError>
        ensures ok { OnOk result (self.new ≡ put_named name_of_data (name, data_tree value) self.old) }
        ensures err { OnErr result (self.new ≡ self.old) }
    {
        match place_of(&self.members, name.as_str()) {
            Ok(place) => {
                self.members[place] = (name, value);
                Ok(())
            }
            Err(place) => {
                self.members.insert(place, (name, value))?;
                Ok(())
            }
        }
    }

    /// Adds a member behind the others, for a reader that gets members in the order of their names.
    pub fn append(&mut self, name: Text, value: Tree) -> Result<(), AllocError>
        requires { IsAboveAll name_of_data name self.old }
        ensures ok { OnOk result (self.new ≡ self.old ++ (name, data_tree value) ∷ []) }
        ensures err { OnErr result (self.new ≡ self.old) }
    {
        self.members.push((name, value))?;
        Ok(())
    }

    #[cycle(copy_tree)]
    pub fn copy(&self, alloc: Global) -> Result<TreeFields, AllocError>
        ensures { IfOk result (λ f. f ≡ self.now) }
    {
        let mut copies = Vec::with_capacity(alloc, self.members.len())?;
        for (name, value) in &self.members {
            copies.push((name.copy(alloc)?, value.copy(alloc)?))?;
        }
        Ok(TreeFields { members: copies })
    }
}

// The place of the name among the members, or where it would go.
fn place_of(members: &[(Text, Tree)], name: &str) -> Result<usize, usize>
    requires { IsInNameOrder name_of_data (map data_member members.now) }
    ensures in_range { IsSearchInRange result (length members.now) }
    ensures place { IfOk result (IsPlace name_of_data name.now (map data_member members.now)) }
    ensures gap { IfErr result (IsGap name_of_data name.now (map data_member members.now)) }
{
    members.binary_search_by(|member| member.0.as_str().cmp(name))
}
