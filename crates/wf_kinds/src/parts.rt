//! What a member may hold.
ghost use Rattle.std.specs.Prelude.{◌≡◌, Some, option_map};
ghost use Rattle.wf_val.specs.Seen.{tree};
ghost use Rattle.wf_kinds.specs.Parts.{absent_or, input, is_list, is_object, is_text};

use wf_val::Val;

pub(crate) fn is_text(value: Option<&Val>) -> bool
    ensures { result ≡ is_text (option_map (λ v. tree v.now) value.entry) }
{
    matches!(value, Some(Val::Text(_)))
}

pub(crate) fn is_list(value: Option<&Val>) -> bool
    ensures { result ≡ is_list (option_map (λ v. tree v.now) value.entry) }
{
    matches!(value, Some(Val::List(_)))
}

pub(crate) fn is_object(value: Option<&Val>) -> bool
    ensures { result ≡ is_object (option_map (λ v. tree v.now) value.entry) }
{
    matches!(value, Some(Val::Obj(_)))
}

pub(crate) fn is_absent_or_text(value: Option<&Val>) -> bool
    ensures { result ≡ absent_or (λ t. is_text (Some t)) (option_map (λ v. tree v.now) value.entry) }
{
    match value {
        None => true,
        Some(value) => is_text(Some(value)),
    }
}

/// A member of an action's `inputs`; none where that is no object.
pub fn input<'a>(action: &'a Val, name: &str) -> Option<&'a Val>
    ensures { option_map (λ v. tree v.now) result ≡ input name.now (tree action.now) }
{
    action.member("inputs")?.member(name)
}
