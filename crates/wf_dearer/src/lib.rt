//! A state costs no more than what it comes to.
//!
//! As a run goes on, a row stays; a leaf that runs makes attempts, or gets its row; a container that is open begins iterations, or closes
//! and gets its row. Where rows cost at least what their actions cost before they had them (`wf_priced`), none of it makes a state cheaper.
//! So a run that costs too much at some moment costs too much ever after, whatever else happens in it.
//!
//! It has no code. Each public function has an empty body, and its contract is a law.
#![tactic(auto)]

ghost use Rattle.std.specs.Prelude.{◌≡◌, ◌≤◌, List, ℕ};
ghost use Rattle.wf_layers.specs.Address.{Address};
ghost use Rattle.wf_layers.specs.Definition.{Graph};
ghost use Rattle.wf_layers.specs.Listed.{sum_of};
ghost use Rattle.wf_layers.specs.Machine.{Event, Run, State};
ghost use Rattle.wf_layers.specs.Meaning.{meaning};
ghost use Rattle.wf_layers.specs.Source.{Source};
ghost use Rattle.wf_kept.specs.Reached.{IsReached};
ghost use Rattle.wf_priced.specs.Priced.{PaysItsParts, TellsRows};
ghost use Rattle.wf_dearer.specs.StateCosts.{StateCosts};

/// A reached state costs at most what a state costs to which a run leads from it.
pub fn a_state_costs_no_more_than_what_it_comes_to<Row, Begun, Decision, Verdict>()
    ensures { (d : Graph) (depth : (ℕ → ℕ)) (m : Source Row Begun Decision Verdict) (s : State Row Begun Decision Verdict)
        → IsReached d depth m s → (es : List Event) (q : State Row Begun Decision Verdict) → Run d m s es q
        → (cost : (Row → ℕ)) (begun_weight : (Begun → ℕ)) (weight : (Decision → ℕ))
        → PaysItsParts m d (meaning m depth d) cost begun_weight weight
        → (before after : ℕ) → StateCosts d m.items cost begun_weight weight s before
        → StateCosts d m.items cost begun_weight weight q after → before ≤ after }
{}

/// It costs at most what the rows of the meaning cost, in whatever list they are told.
pub fn a_state_costs_no_more_than_its_meaning<Row, Begun, Decision, Verdict, Entry>()
    ensures { (d : Graph) (depth : (ℕ → ℕ)) (m : Source Row Begun Decision Verdict) (s : State Row Begun Decision Verdict)
        → IsReached d depth m s → (cost : (Row → ℕ)) (begun_weight : (Begun → ℕ)) (weight : (Decision → ℕ))
        → PaysItsParts m d (meaning m depth d) cost begun_weight weight
        → (total : ℕ) → StateCosts d m.items cost begun_weight weight s total
        → (at : (Entry → Address)) (row : (Entry → Row)) (entries : List Entry) → TellsRows at row (meaning m depth d) entries
        → total ≤ sum_of (λ e. cost (row e)) entries }
{}

/// States with the same tables cost the same: so what a state costs is one number.
pub fn states_with_the_same_tables_cost_the_same<Row, Begun, Decision, Verdict>()
    ensures { (d : Graph) (s q : State Row Begun Decision Verdict)
        → ((x : Address) → (s.rows x ≡ q.rows x) × (s.running x ≡ q.running x) × (s.opens x ≡ q.opens x))
        → (items : (Decision → ℕ)) (cost : (Row → ℕ)) (begun_weight : (Begun → ℕ)) (weight : (Decision → ℕ))
        → (one other : ℕ) → StateCosts d items cost begun_weight weight s one
        → StateCosts d items cost begun_weight weight q other → one ≡ other }
{}
