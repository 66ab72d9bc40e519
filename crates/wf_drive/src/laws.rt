//! What the definitions of this crate say, in other words. A call tells a caller so, and does nothing.
ghost use Rattle.std.specs.Prelude.{◌≡◌, ◌∷◌, ◌++◌, ℕ, [], List, length, suc};
ghost use Rattle.wf_layers.specs.Machine.{Event};
ghost use Rattle.wf_scheduled.specs.Counts.{number_of};
ghost use Rattle.wf_drive.specs.Lines.{event_line, trace_of};

/// One event more has one line more.
pub fn traces_grow()
    ensures { (told : Event → ℕ → List ℕ) (es : List Event) (e : Event) → trace_of told (es ++ e ∷ [])
        ≡ trace_of told es ++ event_line (suc (length es)) (told e (number_of es e)) }
{}
