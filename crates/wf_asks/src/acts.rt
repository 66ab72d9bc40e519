//! The questions.
ghost use Rattle.std.specs.Prelude.{◌≡◌, ◌<◌, ◌≤◌, ◌*◌, ◌^◌, ℕ, Bool, IfOk, false, nat_lt, option_map, suc};
ghost use Rattle.wf_val.specs.Cut.{cut_u64};
ghost use Rattle.wf_layers.specs.Address.{Address};
ghost use Rattle.wf_layers.specs.Bound.{TellsTurns};
ghost use Rattle.wf_layers.specs.Definition.{Graph, Kind, Leaf, Turns, Until, kind_of};
ghost use Rattle.wf_layers.specs.Machine.{IsContainer};
ghost use Rattle.wf_layers.specs.Meaning.{meaning};
ghost use Rattle.wf_layers.specs.Source.{Source};
ghost use Rattle.wf_layers.specs.Variables.{OneOrder};
ghost use Rattle.wf_asks.specs.Instances.{address_of, rows_in};
ghost use Rattle.wf_asks.specs.Known.{HoldsLast, HoldsLastAtTest, IsInformed, IsInformedAtTest, is_among, opens_in, store_in, writer};
ghost use Rattle.wf_asks.specs.Statuses.{status_tree};

use crate::instance::Instance;
use crate::known::Known;
use std::alloc::{AllocError, Global};
use wf_record::Status;

/// What the actions of a definition do in an environment, as the machine asks for it.
pub trait Acts {
    /// What is recorded of an action that has ended.
    type Row: Drop;
    /// What a leaf has from its start on.
    type Begun: Drop;
    /// What a container found as it opened.
    type Decision: Drop;
    /// What the test of an Until gave.
    type Verdict: Drop;

    // The same as the laws see them.
    ghost RowTree: { Type 0 };

    ghost BegunTree: { Type 0 };

    ghost DecisionTree: { Type 0 };

    ghost VerdictTree: { Type 0 };

    ghost row_tree: { Self.Row → RowTree };

    ghost begun_tree: { Self.Begun → BegunTree };

    ghost decision_tree: { Self.Decision → DecisionTree };

    ghost verdict_tree: { Self.Verdict → VerdictTree };

    // The definition as a graph of numbers, where its answers come from, and depths that fall along its entries of `runAfter`.
    ghost graph: { Self → Graph };

    ghost source: { Self → Source RowTree BegunTree DecisionTree VerdictTree };

    ghost depth: { Self → ℕ → ℕ };

    // Whether the row of an instance gives a variable a value; variables go by numbers.
    ghost writes: { Self → ℕ → Address → RowTree → Bool };

    // What rows, running leaves and open containers add to the cost of a run; and how many attempts and iterations a row tells.
    ghost cost_of_row: { Self → RowTree → ℕ };

    ghost weight_of_begun: { Self → BegunTree → ℕ };

    ghost weight_of_decision: { Self → DecisionTree → ℕ };

    ghost turns: { Self → RowTree → ℕ };

    /// Its loops can go, and no leaf makes more attempts than a number can count. The writers of each variable are in one order. What a row
    /// costs grows with the attempts and iterations that it tells.
    fn is_instance(&self)
        ensures going { Turns (graph self.now) }
        ensures counted { (x : Address) → (b : BegunTree) → (source self.now).tries x b < 2 ^ 64 }
        ensures ordered { (v : ℕ) → OneOrder (graph self.now) (source self.now) (writer (writes self.now) v)
            (meaning (source self.now) (depth self.now) (graph self.now)) }
        ensures told { TellsTurns (graph self.now) (source self.now) (meaning (source self.now) (depth self.now) (graph self.now))
            (turns self.now) }
        ensures priced { (r : RowTree) → 64 * suc (turns self.now r) ≤ cost_of_row self.now r };

    /// What a leaf has from its start on.
    fn start(
        &self,
        alloc: Global,
        place: &Instance,
        known: Known<'_, Self::Row, Self::Decision, Self::Verdict>,
    ) -> Result<Self::Begun, AllocError>
        requires informed { IsInformed (graph self.now) (depth self.now) (source self.now) (rows_in row_tree known.rows.now.0)
            (opens_in decision_tree verdict_tree known.opens.now.0) place.now.action place.now.at Leaf }
        requires last { HoldsLast (graph self.now) (depth self.now) (source self.now) (writes self.now) (rows_in row_tree known.rows.now.0)
            (store_in known.store.now.0) place.now.action Leaf place.now.at }
        ensures { IfOk result (λ b. begun_tree b
            ≡ (source self.now).start (address_of place.now) (rows_in row_tree known.entry.rows.now.0)) };

    /// Whether a running leaf that made so many attempts makes another.
    fn has_try(&self, place: &Instance, begun: &Self::Begun, made: u64) -> bool
        ensures { result ≡ nat_lt made ((source self.now).tries (address_of place.now) (begun_tree begun.now)) };

    /// The row with which a leaf ends.
    fn finish(
        &self,
        alloc: Global,
        place: &Instance,
        begun: &Self::Begun,
        known: Known<'_, Self::Row, Self::Decision, Self::Verdict>,
    ) -> Result<Self::Row, AllocError>
        requires informed { IsInformed (graph self.now) (depth self.now) (source self.now) (rows_in row_tree known.rows.now.0)
            (opens_in decision_tree verdict_tree known.opens.now.0) place.now.action place.now.at Leaf }
        ensures { IfOk result (λ r. row_tree r
            ≡ (source self.now).finish (address_of place.now) (begun_tree begun.now) (rows_in row_tree known.entry.rows.now.0)) };

    /// The row of an action that doesn't run.
    fn skipped(&self, alloc: Global, place: &Instance) -> Result<Self::Row, AllocError>
        ensures { IfOk result (λ r. row_tree r ≡ (source self.now).skipped) };

    /// What a container finds as it opens: one that isn't closed again with the decision that it had.
    fn decide(
        &self,
        alloc: Global,
        place: &Instance,
        known: Known<'_, Self::Row, Self::Decision, Self::Verdict>,
    ) -> Result<Self::Decision, AllocError>
        requires informed { (kind : Kind) → kind_of (graph self.now) place.now.action ≡ Some kind → IsContainer kind
            × IsInformed (graph self.now) (depth self.now) (source self.now) (rows_in row_tree known.rows.now.0)
            (opens_in decision_tree verdict_tree known.opens.now.0) place.now.action place.now.at kind
            × HoldsLast (graph self.now) (depth self.now) (source self.now) (writes self.now) (rows_in row_tree known.rows.now.0)
            (store_in known.store.now.0) place.now.action kind place.now.at }
        requires anew { (source self.now).reclosed place.now.action ≡ false }
        ensures { IfOk result (λ d. decision_tree d
            ≡ (source self.now).decide (address_of place.now) (rows_in row_tree known.entry.rows.now.0)) };

    /// The number of the branch that a decision means, counted from 1; another number means none.
    fn taken(&self, decision: &Self::Decision) -> u64
        ensures { result ≡ (source self.now).taken (decision_tree decision.now) };

    /// How many iterations of a Foreach a decision means.
    fn items(&self, decision: &Self::Decision) -> u64
        ensures { result ≡ (source self.now).items (decision_tree decision.now) };

    /// What the test of an Until gives after the iteration of an index.
    fn test(
        &self,
        alloc: Global,
        place: &Instance,
        index: u64,
        known: Known<'_, Self::Row, Self::Decision, Self::Verdict>,
    ) -> Result<Self::Verdict, AllocError>
        requires informed { (most : ℕ) → (g : Graph) → kind_of (graph self.now) place.now.action ≡ Some (Until most g)
            → IsInformedAtTest (graph self.now) (depth self.now) (source self.now) (rows_in row_tree known.rows.now.0)
            (opens_in decision_tree verdict_tree known.opens.now.0) place.now.action place.now.at most g index
            × HoldsLastAtTest (graph self.now) (depth self.now) (source self.now) (writes self.now) (rows_in row_tree known.rows.now.0)
            (store_in known.store.now.0) place.now.action most g place.now.at index }
        ensures { IfOk result (λ v. verdict_tree v
            ≡ (source self.now).test (address_of place.now) index (rows_in row_tree known.entry.rows.now.0)) };

    /// Whether a test ends its loop.
    fn ends(&self, verdict: &Self::Verdict) -> bool
        ensures { result ≡ (source self.now).ends (verdict_tree verdict.now) };

    /// The row with which a container closes: by what it found, how many iterations an Until had, and its last test. The number of
    /// iterations stands in the row, so it has to be one that a value may have.
    fn close(
        &self,
        alloc: Global,
        place: &Instance,
        decision: &Self::Decision,
        count: u64,
        test: Option<&Self::Verdict>,
        known: Known<'_, Self::Row, Self::Decision, Self::Verdict>,
    ) -> Result<Self::Row, AllocError>
        requires informed { (kind : Kind) → kind_of (graph self.now) place.now.action ≡ Some kind → IsContainer kind
            × IsInformed (graph self.now) (depth self.now) (source self.now) (rows_in row_tree known.rows.now.0)
            (opens_in decision_tree verdict_tree known.opens.now.0) place.now.action place.now.at kind }
        requires count { count < 2 ^ 63 }
        ensures { IfOk result (λ r. row_tree r ≡ (source self.now).close (address_of place.now) (decision_tree decision.now) count
            (option_map (λ v. verdict_tree v.now) test.entry) (rows_in row_tree known.entry.rows.now.0)) };

    /// Whether something beside its `runAfter` keeps an action from running.
    fn halts(
        &self,
        place: &Instance,
        known: Known<'_, Self::Row, Self::Decision, Self::Verdict>,
    ) -> bool
        ensures { result ≡ (source self.now).halts (address_of place.now) (rows_in row_tree known.entry.rows.now.0) };

    /// How an action ended whose row this is.
    fn status(&self, row: &Self::Row) -> Status
        ensures { status_tree result ≡ (source self.now).status (row_tree row.now) };

    /// The variables to which a row gives values.
    fn written(&self, place: &Instance, row: &Self::Row) -> &[u32]
        ensures { (v : ℕ) → is_among v result.now ≡ writes self.now v (address_of place.now) (row_tree row.now) };

    /// What a row adds to the cost of its run; at most the greatest u64.
    fn row_cost(&self, row: &Self::Row) -> u64
        ensures { result ≡ cut_u64 (cost_of_row self.now (row_tree row.now)) };

    /// What a running leaf keeps of its inputs, by weight.
    fn begun_weight(&self, begun: &Self::Begun) -> u64
        ensures { result ≡ cut_u64 (weight_of_begun self.now (begun_tree begun.now)) };

    /// What an open container keeps of what it decided by, by weight.
    fn decision_weight(&self, decision: &Self::Decision) -> u64
        ensures { result ≡ cut_u64 (weight_of_decision self.now (decision_tree decision.now)) };
}
