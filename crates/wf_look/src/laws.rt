//! What holds of the words of looks.
ghost use Rattle.std.specs.Prelude.{◌≡◌, ℕ};
ghost use Rattle.wf_look.specs.Told.{Told, words};

/// Two looks of one seed and place give the same words in a row, whatever else they tell and whatever was drawn
/// elsewhere. Tells a caller so, and does nothing.
pub fn words_are_by_place()
    ensures { (l m : Told) (n k : ℕ) → l.seed ≡ m.seed → l.place ≡ m.place → words l n k ≡ words m n k }
{}
