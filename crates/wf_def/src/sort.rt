//! The types of parameters and variables.
ghost use Rattle.std.specs.Prelude.{◌≡◌};
ghost use Rattle.wf_def.specs.Sorts.{has_sort};
ghost use Rattle.wf_val.specs.Seen.{tree};

use wf_lists::Series;
use wf_template::Tree;
use wf_val::{Text, Val};

/// The type of a parameter or a variable.
#[derive(Clone, Copy, PartialEq, Eq, Debug)]
pub enum Sort {
    /// `Bool` of a parameter, `boolean` of a variable.
    Bool,
    /// `Int`, `integer`.
    Int,
    /// `String`, `SecureString`; `string`.
    Text,
    /// `Array`, `array`.
    List,
    /// `Object`, `SecureObject`; `object`.
    Obj,
}

impl Sort {
    /// Whether a value is of the type.
    pub fn has(self, value: &Val) -> bool
        ensures { result ≡ has_sort self (tree value.now) }
    {
        match (self, value) {
            (Sort::Bool, Val::Bool(_)) => true,
            (Sort::Int, Val::Int(_)) => true,
            (Sort::Text, Val::Text(_)) => true,
            (Sort::List, Val::List(_)) => true,
            (Sort::Obj, Val::Obj(_)) => true,
            _ => false,
        }
    }
}

/// A variable that an action initialises. Without a value it begins as false, 0, or empty.
#[derive(Drop)]
pub struct Initial {
    pub name: Text,
    pub sort: Sort,
    pub value: Option<Tree>,
}

/// The variables that one action initialises, in the order of the list in its inputs.
pub type Initials = Series<Initial>;
