//! What a state as it is kept has is what a driver is promised.
//!
//! A driver (`wf_drive`) speaks of the events that may happen and of the leaves that are running as the laws of order do, by addresses. A
//! state (`wf_steps`) keeps lists by instances. The laws here say that the event which a state picks at a place is the one there, and that
//! the leaves in its list are those that are running, each once.
//!
//! It has no code. Each public function has an empty body, and its contract is a law.
#![tactic(auto)]

ghost use Rattle.std.specs.Prelude.{List, length, ℕ, ◌≡◌};
ghost use Rattle.wf_lists.specs.KeyOrder.{IsInKeyOrder};
ghost use Rattle.wf_layers.specs.Address.{Address};
ghost use Rattle.wf_layers.specs.Definition.{Graph};
ghost use Rattle.wf_layers.specs.Machine.{State};
ghost use Rattle.wf_layers.specs.Source.{Source};
ghost use Rattle.wf_kept.specs.Reached.{IsReached};
ghost use Rattle.wf_scheduled.specs.Counts.{AreRunning};
ghost use Rattle.wf_scheduled.specs.Turns.{IsPicked};
ghost use Rattle.wf_asks.specs.Instances.{instance_cmp};
ghost use Rattle.wf_steps.specs.Tables.{event_tree, running_in};
ghost use Rattle.wf_steps.specs.EventAt.{EventAt};
ghost use Rattle.wf_steps.specs.LeafAt.{LeafAt};
ghost use Rattle.wf_steps.specs.Kept.{Picked};

/// The event that a state has at a place is the one at that place among those that may happen.
pub fn picked_events_are_picked<Row, Begun, Decision, Verdict>()
    ensures { (d : Graph) (depth : ℕ → ℕ) (m : Source Row Begun Decision Verdict) (s : State Row Begun Decision Verdict)
        → IsReached d depth m s → (place : ℕ) (event : EventAt) → Picked d m s place event → IsPicked d m s place (event_tree event) }
{}

/// Leaves that are listed in the order of their instances are those that are running, and as many.
pub fn listed_leaves_run<Row, Begun, Decision, Verdict, Started>()
    ensures { (see : (Begun → Started)) (leaves : List (LeafAt Begun)) (s : State Row Started Decision Verdict)
        → s.running ≡ running_in see leaves → IsInKeyOrder instance_cmp (λ l. l.instance) leaves
        → (places : List Address) × AreRunning s places × (length leaves ≡ length places) }
{}
