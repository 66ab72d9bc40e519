//! What a duration is, said in another way. The call tells a caller so, and does nothing.
ghost use Rattle.std.specs.Prelude.{◌≡◌, ◌↔◌, ℕ, List, true};
ghost use Rattle.wf_retry.specs.Duration.{is_duration};
ghost use Rattle.wf_retry.specs.Grammar.{IsDuration};

/// The test for durations accepts exactly the texts of the grammar, in which nothing says how a text is read.
pub fn durations_are_spelled()
    ensures { (s : List ℕ) → (is_duration s ≡ true) ↔ IsDuration s }
{}
