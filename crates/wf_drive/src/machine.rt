//! What is asked of what makes a run.
ghost use Rattle.std.specs.Prelude.{◌≡◌, ◌+◌, ◌*◌, ◌≤◌, ℕ, Bool, List, IfOk, OnOk, length, true, false};
ghost use Rattle.wf_val.specs.Cut.{cut_u64};
ghost use Rattle.wf_layers.specs.Address.{Address};
ghost use Rattle.wf_layers.specs.Definition.{Graph};
ghost use Rattle.wf_layers.specs.Machine as machine;
ghost use Rattle.wf_layers.specs.Machine.{IsOver, Run, State, Step};
ghost use Rattle.wf_layers.specs.Source.{Source};
ghost use Rattle.wf_kept.specs.Reached.{IsReached};
ghost use Rattle.wf_kept.specs.Taken.{HasTaken};
ghost use Rattle.wf_scheduled.specs.Counts.{AreRunning, HasNotBegun, number_of};
ghost use Rattle.wf_scheduled.specs.Turns.{IsEnabled, IsPicked};

use std::alloc::{AllocError, Global};

/// A run that is made event after event.
pub trait Machine {
    /// What may happen, and has happened.
    type Event: Drop;

    // What the machine of the laws has of a run.
    ghost Row: { Type 0 };

    ghost Begun: { Type 0 };

    ghost Decision: { Type 0 };

    ghost Verdict: { Type 0 };

    // What the run goes by, which no event changes: the definition as a graph of numbers, depths that fall along its entries of `runAfter`,
    // where answers come from, what a trace tells of an event of a number, and what the rows cost that the definition means.
    ghost Origin: { Type 0 };

    ghost graph: { Origin → Graph };

    ghost depth: { Origin → ℕ → ℕ };

    ghost source: { Origin → Source Row Begun Decision Verdict };

    ghost told: { Origin → machine.Event → ℕ → List ℕ };

    ghost meant_cost: { Origin → ℕ };

    ghost event_tree: { Self.Event → machine.Event };

    ghost origin: { Self → Origin };

    ghost state: { Self → State Row Begun Decision Verdict };

    ghost cost: { Self → ℕ };

    /// Whether nothing may happen any more.
    fn is_over(&self) -> bool
        ensures over { result ≡ true → IsOver (graph (origin self.now)) (source (origin self.now)) (state self.now) }
        ensures going { result ≡ false → IsOver (graph (origin self.now)) (source (origin self.now)) (state self.now) → ⊥ };

    /// The event at a place among those that may happen, counted around where there are fewer.
    fn pick(&self, alloc: Global, place: u64) -> Result<Self::Event, AllocError>
        requires { IsOver (graph (origin self.now)) (source (origin self.now)) (state self.now) → ⊥ }
        ensures picked { IfOk result (λ e. IsPicked (graph (origin self.now)) (source (origin self.now)) (state self.now) place
            (event_tree e)) }
        ensures enabled { IfOk result (λ e. IsEnabled (graph (origin self.now)) (source (origin self.now)) (state self.now)
            (event_tree e)) };

    /// It happens.
    fn step(&mut self, alloc: Global, event: &Self::Event) -> Result<(), AllocError>
        requires { IsEnabled (graph (origin self.old)) (source (origin self.old)) (state self.old) (event_tree event.now) }
        ensures goes { OnOk result (Step (graph (origin self.old)) (source (origin self.old)) (state self.old) (event_tree event.now)
            (state self.new)) }
        ensures same { origin self.new ≡ origin self.old };

    /// What a trace tells of the event that has just happened, in a run that led there.
    fn tell(&self, alloc: Global, event: &Self::Event) -> Result<Vec<u8>, AllocError>
        ensures { IfOk result (λ line. (first before : State Row Begun Decision Verdict) (es : List machine.Event) → HasNotBegun first
            → Run (graph (origin self.now)) (source (origin self.now)) first es before
            → IsReached (graph (origin self.now)) (depth (origin self.now)) (source (origin self.now)) before
            → Step (graph (origin self.now)) (source (origin self.now)) before (event_tree event.now) (state self.now)
            → line.items ≡ told (origin self.now) (event_tree event.now) (number_of es (event_tree event.now))) };

    /// How many leaves are running.
    fn running(&self) -> u64
        ensures { (places : List Address) × AreRunning (state self.now) places × (result ≡ length places) };

    /// What the run has cost so far, with what its running leaves and its open containers took in; cut to the greatest u64.
    fn cost(&self) -> u64
        ensures { result ≡ cut_u64 (cost self.now) };

    /// A run leads to the state.
    fn is_reached(&self)
        ensures { IsReached (graph (origin self.now)) (depth (origin self.now)) (source (origin self.now)) (state self.now) };

    /// At no moment a run costs more than the rows that its definition means, and as much where it is over. Each event costs at least 32.
    fn is_priced(&self)
        ensures within { cost self.now ≤ meant_cost (origin self.now) }
        ensures whole { IsOver (graph (origin self.now)) (source (origin self.now)) (state self.now)
            → cost self.now ≡ meant_cost (origin self.now) }
        ensures few { (k : ℕ) → HasTaken (graph (origin self.now)) (depth (origin self.now)) (source (origin self.now)) (state self.now) k
            → 64 + 32 * k ≤ cost self.now };
}
