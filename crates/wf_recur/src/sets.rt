//! Sets of small numbers: of each number whether it is in the set.
ghost use Rattle.std.specs.Prelude.{◌≡◌};
ghost use Rattle.wf_recur.specs.Sets.{has_any, or_own};

/// Whether a number is in the set.
pub(crate) fn has_any(set: &[bool]) -> bool
    ensures { result ≡ has_any set.now }
{
    for is_in in set {
        if *is_in {
            return true;
        }
    }
    false
}

/// Puts a number into an empty set.
pub(crate) fn or_own(set: &mut [bool], own: usize)
    ensures { set.new ≡ or_own own set.old }
{
    if !has_any(set) && own < set.len() {
        set[own] = true;
    }
}
