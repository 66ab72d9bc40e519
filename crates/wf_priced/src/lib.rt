//! No state of a run costs more than the rows that its definition means.
//!
//! A state of the event machine costs what its rows, its running leaves and its open containers cost (`wf_meter`). Each leaf that runs and
//! each container that is open comes to a row of the meaning, whatever else happens. So where such a row costs at least what the leaf or
//! the container cost before (`specs/Priced`), the rows of the meaning are a bound of what any state of a run costs, and a run that is over
//! has come to exactly that. Who bounds what a definition costs so bounds each moment of its runs, and none has to be cut off halfway.
//!
//! It has no code. Each public function has an empty body, and its contract is a law. What rows cost, and that they cost enough, is what an
//! instance shows.
#![tactic(auto)]

ghost use Rattle.std.specs.Prelude.{◌+◌, ◌≡◌, ◌≤◌, List, ℕ};
ghost use Rattle.wf_lists.specs.KeyOrder.{IsInKeyOrder};
ghost use Rattle.wf_layers.specs.Address.{Address, Table};
ghost use Rattle.wf_layers.specs.Definition.{Graph, Turns};
ghost use Rattle.wf_layers.specs.Listed.{sum_of};
ghost use Rattle.wf_layers.specs.Machine.{IsOver};
ghost use Rattle.wf_layers.specs.Meaning.{meaning};
ghost use Rattle.wf_layers.specs.Record.{HasRecord};
ghost use Rattle.wf_layers.specs.Source.{Source};
ghost use Rattle.wf_kept.specs.Reached.{IsReached};
ghost use Rattle.wf_asks.specs.Instances.{address_of, instance_cmp};
ghost use Rattle.wf_asks.specs.declared.known.OpenAt.{OpenAt};
ghost use Rattle.wf_asks.specs.declared.known.RowAt.{RowAt};
ghost use Rattle.wf_meter.specs.Tables.{state_of};
ghost use Rattle.wf_meter.specs.LeafAt.{LeafAt};
ghost use Rattle.wf_meter.specs.Cost.{opens_cost, rows_cost, running_cost};
ghost use Rattle.wf_priced.specs.Priced.{PaysItsParts, TellsRows};

/// A state that is reached, of a run that begins or of one that goes on from an old record, costs at most what the rows of the meaning
/// cost, in whatever list they are told; and as much where nothing may happen any more.
pub fn states_cost_no_more_than_they_mean<
    Row,
    Begun,
    Decision,
    Verdict,
    Kept,
    Started,
    Decided,
    Told,
    Entry,
>()
    ensures within { (see : (Row → Kept)) (started : (Begun → Started)) (decided : (Decision → Decided)) (told : (Verdict → Told))
        (d : Graph) (depth : (ℕ → ℕ)) (m : Source Kept Started Decided Told)
        → (rows : List (RowAt Row)) (running : List (LeafAt Begun)) (opens : List (OpenAt Decision Verdict))
        → IsReached d depth m (state_of see started decided told rows running opens) → IsInKeyOrder instance_cmp (λ r. r.instance) rows
        → IsInKeyOrder instance_cmp (λ l. l.instance) running → IsInKeyOrder instance_cmp (λ o. o.instance) opens
        → (cost : (Kept → ℕ)) (begun_weight : (Started → ℕ)) (weight : (Decided → ℕ))
        → PaysItsParts m d (meaning m depth d) cost begun_weight weight
        → (at : (Entry → Address)) (row : (Entry → Kept)) (entries : List Entry) → TellsRows at row (meaning m depth d) entries
        → rows_cost see cost rows + running_cost started begun_weight running + opens_cost decided told d m.items weight opens
        ≤ sum_of (λ e. cost (row e)) entries }
    ensures whole { (see : (Row → Kept)) (started : (Begun → Started)) (decided : (Decision → Decided)) (told : (Verdict → Told))
        (d : Graph) (depth : (ℕ → ℕ)) (m : Source Kept Started Decided Told) → Turns d
        → (rows : List (RowAt Row)) (running : List (LeafAt Begun)) (opens : List (OpenAt Decision Verdict))
        → IsReached d depth m (state_of see started decided told rows running opens) → IsInKeyOrder instance_cmp (λ r. r.instance) rows
        → IsInKeyOrder instance_cmp (λ l. l.instance) running → IsInKeyOrder instance_cmp (λ o. o.instance) opens
        → IsOver d m (state_of see started decided told rows running opens)
        → (cost : (Kept → ℕ)) (begun_weight : (Started → ℕ)) (weight : (Decided → ℕ))
        → PaysItsParts m d (meaning m depth d) cost begun_weight weight
        → (at : (Entry → Address)) (row : (Entry → Kept)) (entries : List Entry) → TellsRows at row (meaning m depth d) entries
        → rows_cost see cost rows + running_cost started begun_weight running + opens_cost decided told d m.items weight opens
        ≡ sum_of (λ e. cost (row e)) entries }
{}

/// The rows of a reached state in which nothing may happen any more are those of the meaning, each once: so they tell what it costs.
pub fn rows_of_states_that_are_over_tell_the_meaning<
    Row,
    Begun,
    Decision,
    Verdict,
    Kept,
    Started,
    Decided,
    Told,
>()
    ensures { (see : (Row → Kept)) (started : (Begun → Started)) (decided : (Decision → Decided)) (told : (Verdict → Told)) (d : Graph)
        (depth : (ℕ → ℕ)) (m : Source Kept Started Decided Told) → Turns d
        → (rows : List (RowAt Row)) (running : List (LeafAt Begun)) (opens : List (OpenAt Decision Verdict))
        → IsReached d depth m (state_of see started decided told rows running opens) → IsInKeyOrder instance_cmp (λ r. r.instance) rows
        → IsOver d m (state_of see started decided told rows running opens)
        → TellsRows (λ r. address_of r.instance) (λ r. see r.row) (meaning m depth d) rows }
{}

/// Lists that tell the same rows cost the same: so what a meaning costs is one number.
pub fn rows_of_one_table_cost_the_same<Row, Entry, Other>()
    ensures { (f : Table Row) (cost : (Row → ℕ)) (at : (Entry → Address)) (row : (Entry → Row)) (entries : List Entry)
        → TellsRows at row f entries → (other_at : (Other → Address)) (other_row : (Other → Row)) (others : List Other)
        → TellsRows other_at other_row f others → sum_of (λ e. cost (row e)) entries ≡ sum_of (λ o. cost (other_row o)) others }
{}

/// A table that has a record is told by a list; so is each meaning (`wf_layers`), and that of each resubmission of an old record.
pub fn a_record_tells_its_table<Row>()
    ensures { (f : Table Row) → HasRecord f
        → (rows : List (Address × Row)) × TellsRows (λ (e : Address × Row). e.0) (λ (e : Address × Row). e.1) f rows }
{}
