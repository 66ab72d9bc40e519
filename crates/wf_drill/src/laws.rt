//! What is known of drills. Each call tells a caller so, and does nothing.
ghost use Rattle.std.specs.Prelude.{◌≡◌, ◌≤◌, ◌+◌, ◌/◌, ℕ, length};
ghost use Rattle.wf_drill.specs.Calls.{answers};
ghost use Rattle.wf_drill.specs.Drill.{actions, drill_definition, numbers};
ghost use Rattle.wf_val.specs.WellFormed.{IsWellFormed};

/// The definition of a drill is a value in form: its names stand in their order, each once, and its texts are UTF-8.
pub fn a_drill_is_in_form()
    ensures { (n : ℕ) → n ≤ 400 → IsWellFormed (drill_definition n) }
{}

/// A drill of size n has n + 3 actions at the top, and an answer for each call and one more for each third.
pub fn a_drill_is_of_its_size()
    ensures actions { (n : ℕ) → length (actions n) ≡ n + 3 }
    ensures answers { (n : ℕ) → length (answers n) ≡ n + (n + 2) / 3 }
{}

/// A schedule of a drill has so many numbers.
pub fn a_schedule_has_so_many_numbers()
    ensures { (first step count : ℕ) → length (numbers first step count) ≡ count }
{}
