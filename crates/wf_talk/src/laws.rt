//! What the definitions of a talk say, in other words. The call tells a caller so, and does nothing.
ghost use Rattle.std.specs.Prelude.{◌≡◌, ◌++◌, ℕ, List};
ghost use Rattle.wf_lines.specs.Lines.{lines_of};
ghost use Rattle.wf_talk.specs.Whole.{rest_of, unended, whole_lines};

/// The lines of a file are those that a line feed ends, and the bytes behind the last one, where there are any.
#[tactic(auto, using(crate::proofs::WholeLemmas::lines_split))]
pub fn lines_are_ended_or_last()
    ensures { (bytes : List ℕ) → lines_of bytes ≡ whole_lines bytes ++ unended (rest_of bytes) }
{}
