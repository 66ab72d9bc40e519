//! On which way an action is reached, and how an address of it stands to a table of rows along that way.
//!
//! `wf_shape` says how an address stands by a walk down the whole definition. Only the containers round its action count there, outermost
//! first: the *way* to the action (`specs/Way`). Along it an address is judged by as many rows as there are containers (`specs/Along`). And
//! an address is called for exactly where it is one of the definition's own graph, or where the row of the container that holds it is
//! called for, fits, and says an iteration of its index (`specs/CalledBy`): so whoever goes over the rows that are called for meets all
//! addresses at which a row is missing (`specs/FailsBy`).
//!
//! It has no code: each public function has an empty body, and its contract is a law.
#![tactic(auto)]

ghost use Rattle.std.specs.Prelude.{Bool, ℕ};
ghost use Rattle.wf_layers.specs.Address.{Table};
ghost use Rattle.wf_layers.specs.Definition.{Graph};
ghost use Rattle.wf_layers.specs.Shape.{Reading};
ghost use Rattle.wf_ways.specs.CalledBy.{CalledByARow, IsBehind, StandsAlong};
ghost use Rattle.wf_ways.specs.FailsBy.{FailsByARow};

/// An address stands as it does along the way to its action; of what is no action, no row is called for.
pub fn an_address_stands_along_its_way<Row>()
    ensures { (read : Reading Row) (is_skipped : Row → Bool) (fits : ℕ → Bool → Row → Bool) (r : Table Row) (d : Graph)
        → StandsAlong read is_skipped fits r d }
{}

/// The way to what stands in a container is the way to the container, and into it.
pub fn what_is_held_is_behind_its_container()
    ensures { (d : Graph) → IsBehind d }
{}

/// A row is called for at the actions of the definition's own graph, and at what stands in a container whose row is called for and fits, in
/// each iteration that it says; and nowhere else.
pub fn an_address_is_called_by_a_row<Row>()
    ensures { (read : Reading Row) (is_skipped : Row → Bool) (fits : ℕ → Bool → Row → Bool) (r : Table Row) (d : Graph)
        → CalledByARow read is_skipped fits r d }
{}

/// An address fails where its row isn't such as is called for there, where it has a row and none is called for, and where it has none and
/// the definition or a row calls for one; and nowhere else.
pub fn an_address_fails_by_a_row<Row>()
    ensures { (read : Reading Row) (is_skipped : Row → Bool) (fits : ℕ → Bool → Row → Bool) (r : Table Row) (d : Graph)
        → FailsByARow read is_skipped fits r d }
{}
