//! What a run has cost so far, told without a walk over what it has.
//!
//! A state of the event machine costs what its rows cost, and for each running leaf and each open container a part of its own
//! (`specs/Cost`). An engine that summed all of it in each turn would take a time that grows with the square of a run; so it keeps sums.
//! The laws here say how the sums move as an event is taken: only by what stands at the event's own action and, of rows, at those inside it
//! that stand in no loop there (`specs/Parts`), before the event and after it. What an open container keeps of what it decided by may be a
//! list as long as the loop has iterations; so it has a sum of its own, which only moves where a container opens or closes. And the laws
//! say that sums of parts that are each cut to the greatest u64 give the whole, cut so.
//!
//! A law is a public function with an empty body, whose contract it is. The other calls tell what stands at an action, and what lists come
//! to that a run goes on from; when they are asked, and where the sums are kept, is the engine's part.
#![tactic(auto)]

mod parts;
mod totals;

ghost use Rattle.std.specs.Prelude.{◌*◌, ◌+◌, ◌-◌, ◌^◌, ◌≡◌, ◌≤◌, List, false, length, option_map, suc, ℕ};
ghost use Rattle.wf_val.specs.Cut.{cut_u64};
ghost use Rattle.wf_lists.specs.KeyOrder.{IsInKeyOrder};
ghost use Rattle.wf_layers.specs.Address.{Address};
ghost use Rattle.wf_layers.specs.Bound.{TellsTurns};
ghost use Rattle.wf_layers.specs.Definition.{Graph};
ghost use Rattle.wf_layers.specs.Listed.{sum_of};
ghost use Rattle.wf_layers.specs.Machine.{Event, Opening, Running, State, Step, place_of};
ghost use Rattle.wf_layers.specs.Meaning.{meaning};
ghost use Rattle.wf_layers.specs.Source.{Source};
ghost use Rattle.wf_kept.specs.Reached.{IsReached};
ghost use Rattle.wf_kept.specs.Taken.{HasTaken};
ghost use Rattle.wf_tables.specs.Instances.{address_of, instance_cmp, rows_in};
ghost use Rattle.wf_tables.specs.Known.{open_tree, opens_in};
ghost use Rattle.wf_tables.specs.OpenAt.{OpenAt};
ghost use Rattle.wf_tables.specs.RowAt.{RowAt};
ghost use Rattle.wf_tables.specs.Plan.{PlanTree};
ghost use Rattle.wf_tables.specs.PlanOf.{IsPlanOf};
ghost use Rattle.wf_tables.specs.Tables.{leaf_tree, running_in, state_of};
ghost use Rattle.wf_tables.specs.declared.entries.LeafAt.{LeafAt};
ghost use Rattle.wf_meter.specs.Cost.{opens_cost, rows_cost, running_cost};
ghost use Rattle.wf_meter.specs.Parts.{block_of, block_worth, decides, turns_cost, worth};

pub use parts::{
    block, block_part, decides, decision_part, gives_rows, leaf_part, moves_containers,
    moves_leaves, total, turns_part,
};
pub use totals::{decisions_total, rows_total, turns_total};
pub use wf_tables::{EventAt, EventKind, LeafAt, Plan};

/// As an event is taken, the sum over the rows of a state moves by what its own action, and those inside it that stand in no loop there,
/// had before and have now, whatever a row is worth.
pub fn sums_of_rows_move<Row, Begun, Decision, Verdict, Kept, Started, Decided, Told>()
    ensures { (see : (Row → Kept)) (started : (Begun → Started)) (decided : (Decision → Decided)) (told : (Verdict → Told)) (d : Graph)
        (depth : (ℕ → ℕ)) (m : Source Kept Started Decided Told) → (p : PlanTree) → IsPlanOf d p
        → (rows rows' : List (RowAt Row)) (running running' : List (LeafAt Begun)) (opens opens' : List (OpenAt Decision Verdict))
        → IsReached d depth m (state_of see started decided told rows running opens) → (e : Event)
        → Step d m (state_of see started decided told rows running opens) e (state_of see started decided told rows' running' opens')
        → IsInKeyOrder instance_cmp (λ r. r.instance) rows → IsInKeyOrder instance_cmp (λ r. r.instance) rows'
        → (w : (Address → Kept → ℕ))
        → sum_of (λ r. w (address_of r.instance) (see r.row)) rows'
        + block_worth w (rows_in see rows) (place_of e).at (block_of p (place_of e).name)
        ≡ sum_of (λ r. w (address_of r.instance) (see r.row)) rows
        + block_worth w (rows_in see rows') (place_of e).at (block_of p (place_of e).name) }
{}

/// That over running leaves by what runs at the action itself, before and now.
pub fn sums_of_leaves_move<Row, Begun, Decision, Verdict, Kept, Started, Decided, Told>()
    ensures { (see : (Row → Kept)) (started : (Begun → Started)) (decided : (Decision → Decided)) (told : (Verdict → Told)) (d : Graph)
        (depth : (ℕ → ℕ)) (m : Source Kept Started Decided Told) → (p : PlanTree) → IsPlanOf d p
        → (rows rows' : List (RowAt Row)) (running running' : List (LeafAt Begun)) (opens opens' : List (OpenAt Decision Verdict))
        → IsReached d depth m (state_of see started decided told rows running opens) → (e : Event)
        → Step d m (state_of see started decided told rows running opens) e (state_of see started decided told rows' running' opens')
        → IsInKeyOrder instance_cmp (λ l. l.instance) running → IsInKeyOrder instance_cmp (λ l. l.instance) running'
        → (w : (Address → Running Started → ℕ))
        → sum_of (λ l. w (address_of l.instance) (leaf_tree started l)) running'
        + worth w (place_of e) (running_in started running (place_of e))
        ≡ sum_of (λ l. w (address_of l.instance) (leaf_tree started l)) running
        + worth w (place_of e) (running_in started running' (place_of e)) }
{}

/// And that over open containers by what is open there.
pub fn sums_of_containers_move<Row, Begun, Decision, Verdict, Kept, Started, Decided, Told>()
    ensures { (see : (Row → Kept)) (started : (Begun → Started)) (decided : (Decision → Decided)) (told : (Verdict → Told)) (d : Graph)
        (depth : (ℕ → ℕ)) (m : Source Kept Started Decided Told) → (p : PlanTree) → IsPlanOf d p
        → (rows rows' : List (RowAt Row)) (running running' : List (LeafAt Begun)) (opens opens' : List (OpenAt Decision Verdict))
        → IsReached d depth m (state_of see started decided told rows running opens) → (e : Event)
        → Step d m (state_of see started decided told rows running opens) e (state_of see started decided told rows' running' opens')
        → IsInKeyOrder instance_cmp (λ o. o.instance) opens → IsInKeyOrder instance_cmp (λ o. o.instance) opens'
        → (w : (Address → Opening Decided Told → ℕ))
        → sum_of (λ o. w (address_of o.instance) (open_tree decided told o)) opens'
        + worth w (place_of e) (opens_in decided told opens (place_of e))
        ≡ sum_of (λ o. w (address_of o.instance) (open_tree decided told o)) opens
        + worth w (place_of e) (opens_in decided told opens' (place_of e)) }
{}

/// What open containers decided by stays as an event is taken that neither opens nor closes one.
pub fn decisions_stay<Row, Begun, Decision, Verdict>()
    ensures { (d : Graph) (m : Source Row Begun Decision Verdict) (s : State Row Begun Decision Verdict) (e : Event)
        (s' : State Row Begun Decision Verdict) → Step d m s e s' → decides e ≡ false → (x : Address)
        → option_map (λ w. w.decision) (s'.opens x) ≡ option_map (λ w. w.decision) (s.opens x) }
{}

/// A plan tells what the open containers of a state cost, for themselves and for their iterations; beside it stands what they keep of what
/// they decided by.
pub fn plans_price_containers<Row, Begun, Decision, Verdict, Kept, Started, Decided, Told>()
    ensures { (see : (Row → Kept)) (started : (Begun → Started)) (decided : (Decision → Decided)) (told : (Verdict → Told)) (d : Graph)
        (depth : (ℕ → ℕ)) (m : Source Kept Started Decided Told) → (p : PlanTree) → IsPlanOf d p
        → (rows : List (RowAt Row)) (running : List (LeafAt Begun)) (opens : List (OpenAt Decision Verdict))
        → IsReached d depth m (state_of see started decided told rows running opens) → IsInKeyOrder instance_cmp (λ o. o.instance) opens
        → (items weight : (Decided → ℕ))
        → sum_of (λ o. turns_cost p items (address_of o.instance) (open_tree decided told o)) opens
        + sum_of (λ o. weight (decided o.decision)) opens
        ≡ opens_cost decided told d items weight opens }
{}

/// 32 times the number of events that a state has taken is at most what it costs, whatever running leaves and open containers keep, where
/// a row costs enough by the attempts and iterations that it tells.
pub fn events_taken_are_paid<Row, Begun, Decision, Verdict, Kept, Started, Decided, Told>()
    ensures { (see : (Row → Kept)) (started : (Begun → Started)) (decided : (Decision → Decided)) (told : (Verdict → Told)) (d : Graph)
        (depth : (ℕ → ℕ)) (m : Source Kept Started Decided Told)
        → (rows : List (RowAt Row)) (running : List (LeafAt Begun)) (opens : List (OpenAt Decision Verdict))
        → IsReached d depth m (state_of see started decided told rows running opens) → IsInKeyOrder instance_cmp (λ r. r.instance) rows
        → IsInKeyOrder instance_cmp (λ l. l.instance) running → IsInKeyOrder instance_cmp (λ o. o.instance) opens
        → (turns : (Kept → ℕ)) → TellsTurns d m (meaning m depth d) turns
        → (cost : (Kept → ℕ)) → ((r : Kept) → 64 * suc (turns r) ≤ cost r) → (begun_weight : (Started → ℕ)) (weight : (Decided → ℕ))
        → (k : ℕ) → HasTaken d depth m (state_of see started decided told rows running opens) k
        → 32 * k ≤ rows_cost see cost rows + running_cost started begun_weight running + opens_cost decided told d m.items weight opens }
{}

/// Where each part of a sum is cut to the greatest u64, the sum, cut so, is the whole, cut so; and it is no greater than so many of them.
pub fn sums_may_be_cut<Entry>()
    ensures whole { (h : (Entry → ℕ)) (xs : List Entry) → cut_u64 (sum_of (λ x. cut_u64 (h x)) xs) ≡ cut_u64 (sum_of h xs) }
    ensures bound { (h : (Entry → ℕ)) (xs : List Entry) → sum_of (λ x. cut_u64 (h x)) xs ≤ (2 ^ 64 - 1) * length xs }
{}
