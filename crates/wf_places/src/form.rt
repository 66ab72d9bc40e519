//! What is asked of a value and of what is in it.
ghost use Rattle.std.specs.Prelude.{◌≡◌, IfOk, map, option_map, string_bytes};
ghost use Rattle.wf_json.specs.Pointer.{least};
ghost use Rattle.wf_places.specs.Form.{Form as Table};
ghost use Rattle.wf_val.specs.Seen.{tree};

use std::alloc::{AllocError, Global};
use wf_val::Val;

/// A role in a form: what a value stands for.
pub trait Form: Copy {
    ghost use Rattle.wf_places.specs.Form.{Form as Table};

    // The form that the role belongs to.
    ghost table: { Table Self };

    /// Whether a value may stand in the role, as far as it is judged as a whole.
    fn is_right(self, value: &Val) -> bool
        ensures { result ≡ table.is_right self (tree value.now) };

    /// The members that an object in the role must have.
    fn needed(self) -> &'static [&'static str]
        ensures { map (λ name. name.now) result.now ≡ table.needed self };

    /// Whether an object in the role may have no members but those that have a role.
    fn is_closed(self) -> bool
        ensures { result ≡ table.is_closed self };

    /// The role of the member of a name; none where nothing is asked of it.
    fn member(self, name: &str) -> Option<Self>
        ensures { result ≡ table.member self name.now };

    /// The role of each item of a list; none where nothing is asked of them.
    fn item(self) -> Option<Self>
        ensures { result ≡ table.item self };

    /// The least pointer, from the value on, of what else is amiss.
    fn beside(self, alloc: Global, value: &Val) -> Result<Option<String>, AllocError>
        ensures { IfOk result (λ p. option_map string_bytes p ≡ least (table.beside self (tree value.now))) };
}
