//! The actions of a run as the machine asks them.
use crate::acting;
use crate::actions::Actions;
use crate::laws::keep_order;
use std::alloc::{AllocError, Global};
use wf_asks::{Acts, Instance, Known};
use wf_catalog::Begun;
use wf_opening::{Decision, Verdict};
use wf_record::{Row, Status};

impl<'a> Acts for Actions<'a> {
    ghost use Rattle.std.specs.Prelude.{◌≡◌, ◌<◌, ◌^◌, ℕ, IfOk, Some, false, option_map};
    ghost use Rattle.wf_asks.specs.Instances.{address_of, rows_in};
    ghost use Rattle.wf_asks.specs.Known.{HoldsLast, HoldsLastAtTest, IsInformed, IsInformedAtTest, opens_in, store_in};
    ghost use Rattle.wf_layers.specs.Definition.{Kind, Leaf, Until, kind_of};
    ghost use Rattle.wf_layers.specs.Definition as layers;
    ghost use Rattle.wf_layers.specs.Machine.{IsContainer};
    ghost use Rattle.wf_catalog.specs.DoneSeen.{begun_tree};
    ghost use Rattle.wf_catalog.specs.Leaf.{BegunTree};
    ghost use Rattle.wf_paying.specs.Weights as weights;
    ghost use Rattle.wf_opening.specs.DecisionSeen.{decision_tree, verdict_tree};
    ghost use Rattle.wf_opening.specs.Decisions.{DecisionTree};
    ghost use Rattle.wf_opening.specs.Verdicts.{VerdictTree};
    ghost use Rattle.wf_paying.specs.Paying as paying;
    ghost use Rattle.wf_record.specs.Record as recorded;
    ghost use Rattle.wf_sight_laws.specs.Seen.{row_content};
    ghost use Rattle.wf_paying.specs.Turns as told;
    ghost use Rattle.wf_actions.specs.Meant as meant;

    type Row = Row;

    type Begun = Begun;

    type Decision = Decision;

    type Verdict = Verdict;

    ghost RowTree = { recorded.Row };

    ghost BegunTree = { BegunTree };

    ghost DecisionTree = { DecisionTree };

    ghost VerdictTree = { VerdictTree };

    ghost row_tree = { row_content };

    ghost begun_tree = { begun_tree };

    ghost decision_tree = { decision_tree };

    ghost verdict_tree = { verdict_tree };

    ghost graph = { meant.graph };

    ghost source = { meant.source };

    ghost depth = { meant.depth };

    ghost writes = { meant.writes };

    ghost cost_of_row = { λ a. paying.cost_of_row };

    ghost weight_of_begun = { λ a. weights.begun_weight };

    ghost weight_of_decision = { λ a. weights.decision_weight };

    ghost turns = { λ a. told.turns };

    fn is_instance(&self) {
        keep_order(self);
    }

    fn start(
        &self,
        alloc: Global,
        place: &Instance,
        known: Known<'_, Row, Decision, Verdict>,
    ) -> Result<Begun, AllocError>
        requires informed { IsInformed (meant.graph self.now) (meant.depth self.now) (meant.source self.now)
            (rows_in row_content known.rows.now.0)
            (opens_in decision_tree verdict_tree known.opens.now.0) place.now.action place.now.at Leaf }
        requires last { HoldsLast (meant.graph self.now) (meant.depth self.now) (meant.source self.now) (meant.writes self.now)
            (rows_in row_content known.rows.now.0) (store_in known.store.now.0) place.now.action Leaf place.now.at }
        ensures { IfOk result (λ b. begun_tree b
            ≡ (meant.source self.now).start (address_of place.now) (rows_in row_content known.entry.rows.now.0)) }
    {
        acting::start(alloc, self, place, known)
    }

    fn has_try(&self, place: &Instance, begun: &Begun, made: u64) -> bool {
        acting::has_try(self, place, begun, made)
    }

    fn finish(
        &self,
        alloc: Global,
        place: &Instance,
        begun: &Begun,
        known: Known<'_, Row, Decision, Verdict>,
    ) -> Result<Row, AllocError>
        requires informed { IsInformed (meant.graph self.now) (meant.depth self.now) (meant.source self.now)
            (rows_in row_content known.rows.now.0)
            (opens_in decision_tree verdict_tree known.opens.now.0) place.now.action place.now.at Leaf }
        ensures { IfOk result (λ r. row_content r
            ≡ (meant.source self.now).finish (address_of place.now) (begun_tree begun.now)
            (rows_in row_content known.entry.rows.now.0)) }
    {
        acting::finish(alloc, self, place, begun, known)
    }

    fn skipped(&self, alloc: Global, place: &Instance) -> Result<Row, AllocError> {
        acting::skipped(alloc, self, place)
    }

    fn decide(
        &self,
        alloc: Global,
        place: &Instance,
        known: Known<'_, Row, Decision, Verdict>,
    ) -> Result<Decision, AllocError>
        requires informed { (kind : Kind) → kind_of (meant.graph self.now) place.now.action ≡ Some kind → IsContainer kind
            × IsInformed (meant.graph self.now) (meant.depth self.now) (meant.source self.now)
            (rows_in row_content known.rows.now.0)
            (opens_in decision_tree verdict_tree known.opens.now.0) place.now.action place.now.at kind
            × HoldsLast (meant.graph self.now) (meant.depth self.now) (meant.source self.now) (meant.writes self.now)
            (rows_in row_content known.rows.now.0) (store_in known.store.now.0) place.now.action kind place.now.at }
        requires anew { (meant.source self.now).reclosed place.now.action ≡ false }
        ensures { IfOk result (λ d. decision_tree d
            ≡ (meant.source self.now).decide (address_of place.now) (rows_in row_content known.entry.rows.now.0)) }
    {
        acting::decide(alloc, self, place, known)
    }

    fn taken(&self, decision: &Decision) -> u64 {
        acting::taken(self, decision)
    }

    fn items(&self, decision: &Decision) -> u64 {
        acting::items(self, decision)
    }

    fn test(
        &self,
        alloc: Global,
        place: &Instance,
        index: u64,
        known: Known<'_, Row, Decision, Verdict>,
    ) -> Result<Verdict, AllocError>
        requires informed { (most : ℕ) → (g : layers.Graph) → kind_of (meant.graph self.now) place.now.action ≡ Some (Until most g)
            → IsInformedAtTest (meant.graph self.now) (meant.depth self.now) (meant.source self.now)
            (rows_in row_content known.rows.now.0)
            (opens_in decision_tree verdict_tree known.opens.now.0) place.now.action place.now.at most g index
            × HoldsLastAtTest (meant.graph self.now) (meant.depth self.now) (meant.source self.now) (meant.writes self.now)
            (rows_in row_content known.rows.now.0) (store_in known.store.now.0) place.now.action most g place.now.at index }
        ensures { IfOk result (λ v. verdict_tree v
            ≡ (meant.source self.now).test (address_of place.now) index (rows_in row_content known.entry.rows.now.0)) }
    {
        acting::test(alloc, self, place, index, known)
    }

    fn ends(&self, verdict: &Verdict) -> bool {
        acting::ends(self, verdict)
    }

    fn close(
        &self,
        alloc: Global,
        place: &Instance,
        decision: &Decision,
        count: u64,
        test: Option<&Verdict>,
        known: Known<'_, Row, Decision, Verdict>,
    ) -> Result<Row, AllocError>
        requires informed { (kind : Kind) → kind_of (meant.graph self.now) place.now.action ≡ Some kind → IsContainer kind
            × IsInformed (meant.graph self.now) (meant.depth self.now) (meant.source self.now)
            (rows_in row_content known.rows.now.0)
            (opens_in decision_tree verdict_tree known.opens.now.0) place.now.action place.now.at kind }
        requires count { count < 2 ^ 63 }
        ensures { IfOk result (λ r. row_content r ≡ (meant.source self.now).close (address_of place.now)
            (decision_tree decision.now) count
            (option_map (λ v. verdict_tree v.now) test.entry) (rows_in row_content known.entry.rows.now.0)) }
    {
        acting::close(alloc, self, place, decision, count, test, known)
    }

    fn halts(&self, place: &Instance, known: Known<'_, Row, Decision, Verdict>) -> bool
        ensures { result ≡ (meant.source self.now).halts (address_of place.now) (rows_in row_content known.entry.rows.now.0) }
    {
        acting::halts(self, place, known)
    }

    fn status(&self, row: &Row) -> Status {
        acting::status(self, row)
    }

    fn written(&self, place: &Instance, row: &Row) -> &[u32] {
        acting::written(self, place, row)
    }

    fn row_cost(&self, row: &Row) -> u64 {
        acting::row_cost(row)
    }

    fn begun_weight(&self, begun: &Begun) -> u64 {
        wf_paying::begun_weight(begun)
    }

    fn decision_weight(&self, decision: &Decision) -> u64 {
        wf_paying::decision_weight(decision)
    }
}
