//! What the rows mean, said in another way. Each call tells a caller so, and does nothing.
ghost use Rattle.std.specs.List.{IsDistinct, count_by, list_all, list_any};
ghost use Rattle.std.specs.List.Sorted.{IsSortedByKey, IsStableByKey};
ghost use Rattle.std.specs.Option.{option_or};
ghost use Rattle.std.specs.Ordering.{is_eq};
ghost use Rattle.std.specs.Prelude.{◌≡◌, ℕ, Bool, List, [], ◌∷◌, ◌++◌, None, if◌then◌else◌};
ghost use Rattle.wf_val.specs.Get.{name_of, value_of};
ghost use Rattle.wf_val.specs.NameOrder.{IsInNameOrder};
ghost use Rattle.wf_val.specs.ValueOrder.{order};
ghost use Rattle.wf_val.specs.ValueTree.{Member, ValueTree};
ghost use Rattle.wf_fn_list.specs.Membership.{is_among};
ghost use Rattle.wf_fn_sets.specs.Sets.{all_have, common_items, common_members, distinct, union_items, union_members};
ghost use Rattle.wf_fn_sets.specs.Sorting.{sorted};

/// The distinct items of a list are its items, and no two of them are equal. A further item goes to their end exactly
/// where it is new, so they stand in order of first occurrence.
pub fn distinct_items_are_the_items()
    ensures items { (xs : List ValueTree) (x : ValueTree) → is_among (distinct xs) x ≡ is_among xs x }
    ensures once { (xs : List ValueTree) → IsDistinct (λ x y. is_eq (order x y)) (distinct xs) }
    ensures further { (xs : List ValueTree) (x : ValueTree) → distinct (xs ++ x ∷ [])
        ≡ (if is_among xs x then distinct xs else distinct xs ++ x ∷ []) }
{}

/// A value is in the union of lists where one of them has it, and in their intersection where all have it.
pub fn lists_are_taken_together_as_sets()
    ensures any { (lists : List (List ValueTree)) (x : ValueTree) → is_among (union_items lists) x ≡ list_any (λ ys. is_among ys x) lists }
    ensures all { (xs : List ValueTree) (others : List (List ValueTree)) (x : ValueTree) → is_among (common_items (xs ∷ others)) x
        ≡ list_all (λ ys. is_among ys x) (xs ∷ others) }
{}

/// Under a name the union of objects has what the last of them has there, or else what the union of the others has; their
/// intersection has what the last has there, where all have something.
pub fn the_last_object_stands()
    ensures union { (objects : List (List Member)) (last : List Member) (name : List ℕ) → IsInNameOrder name_of last
        → value_of name (union_members (objects ++ last ∷ [])) ≡ option_or (value_of name last) (value_of name (union_members objects)) }
    ensures intersection { (objects : List (List Member)) (last : List Member) (name : List ℕ)
        → value_of name (common_members (objects ++ last ∷ []))
        ≡ (if all_have (objects ++ last ∷ []) name then value_of name last else None) }
{}

/// Sorted items ascend by what they are sorted by; each stands there as often as before; and those that tie stand as they
/// stood.
pub fn sorted_items_are_in_order()
    ensures ascending { (key : ValueTree → ValueTree) (xs : List ValueTree) → IsSortedByKey key order (sorted key xs) }
    ensures as_often { (key : ValueTree → ValueTree) (xs : List ValueTree) (test : ValueTree → Bool) → count_by test (sorted key xs)
        ≡ count_by test xs }
    ensures stable { (key : ValueTree → ValueTree) (xs : List ValueTree) → IsStableByKey key order xs (sorted key xs) }
{}
