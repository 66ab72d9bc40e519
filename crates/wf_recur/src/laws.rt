//! What the next moments of a recurrence are, said in another way. Each call tells a caller so, and does nothing.
ghost use Rattle.std.specs.Prelude.{◌≡◌, ℕ, List, Ok};
ghost use Rattle.wf_recur.specs.Moments.{moments_due};
ghost use Rattle.wf_recur.specs.Next.{AreNext};
ghost use Rattle.wf_recur.specs.Reading.{recurrence_of};
ghost use Rattle.wf_recur.specs.declared.recurrence.Recurrence.{Recurrence};
ghost use Rattle.wf_val.specs.ValueTree.{ValueTree};

/// There is one list only of the next moments, so many at most, of a recurrence.
pub fn the_next_moments_are_one()
    ensures { (r : Recurrence) → (from n : ℕ) → (ms ns : List ℕ) → AreNext r from n ms → AreNext r from n ns → ms ≡ ns }
{}

/// Of a recurrence that was read, the first of the due moments of the years 1 to 9999 are its next ones.
pub fn the_first_due_moments_are_next()
    ensures { (trigger : ValueTree) → (r : Recurrence) → (from n : ℕ) → recurrence_of trigger ≡ Ok r
        → AreNext r from n (moments_due r from n) }
{}
