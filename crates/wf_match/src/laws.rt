//! What holds of differences.
ghost use Rattle.std.specs.Prelude.{◌≡◌, [], Some, map, pos, codes, Contains, ℕ, List};
ghost use Rattle.wf_match.specs.Differences.{differences};
ghost use Rattle.wf_match.specs.Holds.{IsOne};
ghost use Rattle.wf_match.specs.OfRecord.{record_differences};
ghost use Rattle.wf_match.specs.OfRecordHolds.{IsOneOf};
ghost use Rattle.wf_match.specs.Rows.{address_of};
ghost use Rattle.wf_match.specs.Told.{Told};
ghost use Rattle.wf_val.specs.Address.{address_text};
ghost use Rattle.wf_val.specs.Get.{get};
ghost use Rattle.wf_val.specs.ValueTree.{ValueTree, MemberTrees, list, number, object, pairs, text, trees};
ghost use Rattle.wf_val.specs.WellFormed.{IsWellFormed};
ghost use Rattle.wf_val.specs.declared.address.Address.{Address};

/// Each difference is one: the names of its pointer lead to what it tells, in the expectation and in the value, and the one
/// doesn't meet the other. Every `Val` is well formed.
pub fn each_difference_is_one()
    ensures of_value { (e t : ValueTree) → (d : Told) → IsWellFormed e → Contains (differences [] e (Some t)) d → IsOne [] e (Some t) d }
    ensures of_record { (es : MemberTrees) → (r : ValueTree) → (d : Told) → IsWellFormed (object es)
        → Contains (record_differences (object es) r) d → IsOneOf (pairs es) r d }
{}

/// A value differs from itself nowhere.
pub fn a_value_is_as_itself()
    ensures { (t : ValueTree) → IsWellFormed t → differences [] t (Some t) ≡ [] }
{}

/// The address of a row is that of its name and its numbers, as messages write it.
pub fn addresses_are_written_as_in_messages()
    ensures { (row : ValueTree) → (a : Address) → get (codes "name") row ≡ Some (text a.name)
        → get (codes "at") row ≡ Some (list (trees (map (λ n. number (pos n)) a.at))) → address_of row ≡ address_text a }
{}
