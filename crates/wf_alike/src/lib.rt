//! Old records that are read alike give a resubmission the same new rows.
//!
//! A record may differ from the one that a run gave in what nothing looks at: as a line of an older form does, which doesn't tell what the
//! attempts of a connector came to. `specs/Alike` says what it means that no answer tells two tables apart, and the law that all which a
//! resubmission makes anew is then the same. That the kept rows are the old ones is a law of `wf_layers` (`kept_rows_are_old`).
//!
//! It has no code: the public function has an empty body, and its contract is the law.
#![tactic(auto)]

ghost use Rattle.std.specs.Prelude.{Bool, ℕ};
ghost use Rattle.wf_alike.specs.Alike.{OldTablesReadAlike, ReadsAlike};
ghost use Rattle.wf_layers.specs.Address.{Address, SeenIn};
ghost use Rattle.wf_layers.specs.Definition.{Graph, IsDepth};
ghost use Rattle.wf_layers.specs.Resubmission.{IsSplit};
ghost use Rattle.wf_layers.specs.Source.{Sound, Source};

/// Where old tables differ in what nothing looks at, a resubmission of either makes the same rows of all that it doesn't keep.
pub fn old_tables_are_read_alike<Row, Begun, Decision, Verdict>()
    ensures { (d : Graph) (depth : ℕ → ℕ) (a b : Source Row Begun Decision Verdict) (redo again : ℕ → Bool) (recall : Address → Decision)
        (plain : Row → Row)
        → IsDepth d depth → Sound b (SeenIn d) d 0 → IsSplit d redo again → ReadsAlike a b plain
        → OldTablesReadAlike d depth a b redo again recall plain }
{}
