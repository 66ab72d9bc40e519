//! What a run goes by, and how it ends.
//!
//! A run goes by an environment (`specs/Environment`): how it was started, its inputs, and a layer of further inputs for each time that a
//! part of it was done anew. An action goes by the last layer that has it, else by the run that came first. `specs/Ending` says how a run
//! ends whose graph ended so, and what its section `outputs` gives out. `specs/Statuses` has the statuses of records as the laws of order
//! (`wf_layers`) know them.
//!
//! It has no code: its public function does nothing, and its contract is a law. What actions come to is said above (`wf_meant`).
#![tactic(auto)]

ghost use Rattle.std.specs.Prelude.{◌≡◌, ◌∷◌, ◌++◌, [], false, true, List, ℕ};
ghost use Rattle.std.specs.List.{list_any};
ghost use Rattle.wf_environment.specs.Environment.{Environment, Layer, facts_of, first_facts, last_facts, layer_facts};

pub use wf_trigger::{Start, TriggerFault};

/// An action goes by the last layer that has it, else by the run that came first; the section `outputs` and the record by the last layer.
pub fn the_last_layer_counts()
    ensures none { (e : Environment) (name : List ℕ) → list_any (λ (layer : Layer). layer.redone name) e.layers ≡ false
        → facts_of e name ≡ first_facts e }
    ensures one { (e : Environment) (name : List ℕ) (earlier later : List Layer) (layer : Layer) → e.layers ≡ earlier ++ layer ∷ later
        → layer.redone name ≡ true → list_any (λ (other : Layer). other.redone name) later ≡ false
        → facts_of e name ≡ layer_facts layer.inputs }
    ensures last { (e : Environment) (earlier : List Layer) (layer : Layer) → e.layers ≡ earlier ++ layer ∷ []
        → last_facts e ≡ layer_facts layer.inputs }
{}
