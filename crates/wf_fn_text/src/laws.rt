//! What pieces and places are, said in another way. Each call tells a caller so, and does nothing.
ghost use Rattle.std.specs.Prelude.{◌≡◌, ◌<◌, ℕ, List, length};
ghost use Rattle.std.specs.List.{join_by};
ghost use Rattle.wf_fn_text.specs.Laws.{IsFirst, IsLast};
ghost use Rattle.wf_fn_text.specs.Pieces.{pieces, replaced};
ghost use Rattle.wf_fn_text.specs.Places.{first_place, last_place};

/// The pieces of a text, with the separator between each two, are the text.
pub fn pieces_make_the_text_again()
    ensures { (separator s : List ℕ) → 0 < length separator → join_by (λ piece. piece) separator (pieces separator s) ≡ s }
{}

/// A text in which another is replaced by itself stays as it is.
pub fn replacing_by_itself_changes_nothing()
    ensures { (old s : List ℕ) → 0 < length old → replaced old old s ≡ s }
{}

/// The place that `indexOf` gives is one where the second text stands, and it stands at none before; where there is no
/// place it stands nowhere. So for `lastIndexOf`, and none behind.
pub fn places_are_where_the_text_stands()
    ensures first { (part cs : List ℕ) → IsFirst part cs (first_place part cs) }
    ensures last { (part cs : List ℕ) → IsLast part cs (last_place part cs) }
{}
