//! V4: names.
ghost use Rattle.std.specs.Prelude.{◌≡◌, IfOk, option_map, string_bytes};
ghost use Rattle.std.specs.List.{list_all};
ghost use Rattle.wf_after.specs.Pointer.{least};
ghost use Rattle.wf_form.specs.KnownSeen.{whole_seen};
ghost use Rattle.wf_form.specs.Naming.{is_bad_name, is_name, is_printable, naming};

use crate::known::Known;
use crate::role::Role;
use std::alloc::Global;
use wf_after::pointer::here;
use wf_val::char_count;

const LONGEST: u64 = 80;

fn is_printable(byte: u8) -> bool
    ensures { result ≡ is_printable byte }
{
    byte >= b' ' && byte != 0x7f
}

fn is_all_printable(text: &str) -> bool
    ensures { result ≡ list_all is_printable text.now }
{
    for byte in text.as_bytes() {
        if !is_printable(*byte) {
            return false;
        }
    }
    true
}

fn is_name(text: &str) -> bool
    ensures { result ≡ is_name text.now }
{
    let count = char_count(text);
    1 <= count && count <= LONGEST && is_all_printable(text)
}

fn is_bad_name(known: &Known, role: Role, name: &str) -> bool
    ensures { result ≡ is_bad_name (whole_seen known.now) role name.now }
{
    match role {
        Role::Action(_) => !is_name(name) || known.repeats(name),
        Role::Parameter | Role::Trigger | Role::Output | Role::Case(_) => !is_name(name),
        _ => false,
    }
}

#[tactic(auto, unfolding(crate::specs::Naming::naming))]
pub(crate) fn naming(alloc: Global, known: &Known, role: Role, name: &str) -> Option<String>
    ensures { option_map string_bytes result ≡ least (naming (whole_seen known.now) role name.now) }
{
    here(alloc, is_bad_name(known, role, name))
}
