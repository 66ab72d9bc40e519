//! What a run costs.
ghost use Rattle.std.specs.Prelude.{◌≡◌, ◌≤◌, ℕ};
ghost use Rattle.wf_val.specs.Cut.{cut_u64};
ghost use Rattle.wf_making.specs.Priced.{IsPriced};

use wf_asks::Acts;

/// Actions whose runs cost what the definition means, whatever the schedule.
pub trait Pays: Acts {
    // What a run costs before its first event, and beside that all the rows that the definition means.
    ghost fee: { Self → ℕ };

    ghost rows_meant: { Self → ℕ };

    /// What a run costs before its first event; cut to the greatest u64.
    fn first_cost(&self) -> u64
        ensures { result ≡ cut_u64 (fee self.now) };

    /// No state costs more than the rows that the definition means, and one that is over costs as much; beside what a run costs before its
    /// first event.
    fn is_paid(&self)
        ensures least { 64 ≤ fee self.now }
        ensures priced { IsPriced Self.row_tree Self.begun_tree Self.decision_tree Self.verdict_tree (Self.graph self.now)
            (Self.depth self.now) (Self.source self.now) (Self.cost_of_row self.now) (Self.weight_of_begun self.now)
            (Self.weight_of_decision self.now) (rows_meant self.now) };
}
