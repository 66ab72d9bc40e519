//! What the rows mean, said in another way. Each call tells a caller so, and does nothing.
ghost use Rattle.std.specs.List.{Contains, flat_map};
ghost use Rattle.std.specs.Prelude.{◌≡◌, ◌↔◌, ◌<◌, ◌≤◌, ◌+◌, ◌^◌, ℕ, ℤ, pos, ◌+ℤ◌, List, ◌∷◌, Some, Err, IsTrue};
ghost use Rattle.std.specs.Prelude.{length, take, drop, reverse, slice_get};
ghost use Rattle.std.specs.Str.Iter.{HasSubslice};
ghost use Rattle.wf_val.specs.Arguments.{bounded};
ghost use Rattle.wf_val.specs.Cut.{cut_u64};
ghost use Rattle.wf_val.specs.ValueTree.{ValueTree, number};
ghost use Rattle.wf_val.specs.declared.fault.EvalFault.{EvalFault};
ghost use Rattle.wf_fn_list.specs.Chunks.{chunks};
ghost use Rattle.wf_fn_list.specs.Membership.{is_among, stands_in};
ghost use Rattle.wf_fn_list.specs.Parts.{listed};
ghost use Rattle.wf_fn_list.specs.Ranges.{numbers_from};

/// A value is among others exactly where one of them is the value; a text stands in another exactly where the other is cut
/// into what is before it, the text, and what is behind it.
pub fn what_contains_means()
    ensures value { (xs : List ValueTree) (x : ValueTree) → IsTrue (is_among xs x) ↔ Contains xs x }
    ensures part { (part text : List ℕ) → IsTrue (stands_in part text) ↔ HasSubslice text part }
{}

/// The pieces of `chunk`, joined, are the list, or the characters of the text; the first has so many items, or all where
/// there are fewer, and the others are the pieces of what is behind it.
pub fn chunks_make_the_list()
    ensures items { (size : ℕ) (xs : List ValueTree) → flat_map (λ piece. piece) (chunks size xs) ≡ xs }
    ensures characters { (size : ℕ) (cs : List ℕ) → flat_map (λ piece. piece) (chunks size cs) ≡ cs }
    ensures first_items { (size : ℕ) (xs : List ValueTree) → 0 < size → 0 < length xs → chunks size xs
        ≡ take size xs ∷ chunks size (drop size xs) }
    ensures first_characters { (size : ℕ) (cs : List ℕ) → 0 < size → 0 < length cs → chunks size cs
        ≡ take size cs ∷ chunks size (drop size cs) }
{}

/// A list from its end, from its end again, is the list.
pub fn reversed_twice_is_the_list()
    ensures { (xs : List ValueTree) → reverse (reverse xs) ≡ xs }
{}

/// `range` gives so many numbers, each as far above the first as its place says; past 2^20 - 1 of them they are too big.
pub fn numbers_stand_in_a_row()
    ensures count { (first : ℤ) (count : ℕ) → length (numbers_from first count) ≡ count }
    ensures at { (first : ℤ) (count place : ℕ) → place < count → slice_get (numbers_from first count) place
        ≡ Some (number (first +ℤ pos place)) }
    ensures too_big { (first : ℤ) (count : ℕ) → 2 ^ 20 ≤ count → bounded (listed (numbers_from first count))
        ≡ Err (EvalFault.TooBig 1 (cut_u64 (1 + count))) }
{}
