//! Which rule a definition breaks first, and where.
ghost use Rattle.std.specs.Prelude.{◌≡◌, ℕ, List, Some, None, IfOk, option_map, string_bytes};
ghost use Rattle.wf_first.specs.First.{Hold, IsFirstBroken};
ghost use Rattle.wf_after.specs.Pointer.{least};
ghost use Rattle.wf_val.specs.Seen.{tree};
ghost use Rattle.wf_val.specs.ValueTree.{ValueTree};
ghost use Rattle.wf_form.specs.Fault.{fault_of, first_fault, inner_of, offences, rules_in_order};
ghost use Rattle.wf_form.specs.KnownSeen.{whole_seen};
ghost use Rattle.wf_form.specs.Whole.{whole_of};
ghost use Rattle.wf_form.specs.declared.rule.Rule.{Rule as RuleOf};

use crate::known::Known;
use crate::role::Role;
use crate::rule::Rule;
use crate::walk::least_in;
use std::alloc::{AllocError, Global};
use wf_val::{Text, Val};

const RULES: [Rule; 8] = [
    Rule::Form,
    Rule::Schema,
    Rule::Limits,
    Rule::Names,
    Rule::Types,
    Rule::Members,
    Rule::Expressions,
    Rule::RunAfter,
];

// The least pointer of what breaks the rule.
fn least_offence(
    alloc: Global,
    rule: Rule,
    known: &Known,
    definition: &Val,
) -> Result<Option<String>, AllocError>
    requires { whole_seen known.now ≡ whole_of (tree definition.now) }
    ensures { IfOk result (λ p. option_map string_bytes p ≡ least (offences (tree definition.now) rule)) }
{
    least_in(alloc, rule, known, Role::Definition, "", definition)
}

/// The first rule that a definition breaks, with the least pointer, by bytes, of what breaks it; none where it breaks none. A pointer
/// (RFC 6901) goes from the definition on.
pub fn first_fault(alloc: Global, definition: &Val) -> Result<Option<(Rule, Text)>, AllocError>
    ensures { IfOk result (λ fault. fault ≡ first_fault (tree definition.now)) }
{
    let known = Known::of(alloc, definition)?;
    for rule in RULES {
        if let Some(pointer) = least_offence(alloc, rule, &known, definition)? {
            return Ok(Some((rule, Text::from_string(pointer))));
        }
    }
    Ok(None)
}

/// The definition in a file: in a wrapper, which is an object with a member `definition`, that member; or the file itself.
pub fn inner(file: &Val) -> &Val
    ensures { tree result.now ≡ inner_of (tree file.now) }
{
    match file.member("definition") {
        Some(definition) => definition,
        None => file,
    }
}

/// The number of the first rule that the definition in a file breaks, and the least pointer, from the definition on, of what breaks
/// it; none where it breaks none.
pub fn fault_of(alloc: Global, file: &Val) -> Result<Option<(u8, Text)>, AllocError>
    ensures { IfOk result (λ fault. fault ≡ fault_of (tree file.now)) }
{
    match first_fault(alloc, inner(file))? {
        Some((rule, pointer)) => Ok(Some((rule.number(), pointer))),
        None => Ok(None),
    }
}

/// What the first fault is, in words of its own: every rule of a smaller number holds, and the pointer is one of those that break the
/// rule, and none of them is less; and where there is no fault, all rules hold.
pub fn the_first_fault()
    ensures some { (definition : ValueTree) (rule : RuleOf) (pointer : List ℕ)
        → first_fault definition ≡ Some (rule, pointer) → IsFirstBroken (offences definition) rules_in_order rule pointer }
    ensures none { (definition : ValueTree) → first_fault definition ≡ None → Hold (offences definition) rules_in_order }
{}
