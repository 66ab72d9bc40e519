//! The right shape of a record, address by address: its rows stand at exactly the addresses that its own decisions call for.
//!
//! The laws of resubmission ask it of an old table as a whole (`wf_layers`, `specs/Shape`). A program that reads a record has to say where
//! it isn't so. `specs/Standing` says of each address how it stands to the table, by the rows of the containers round it alone: a row is
//! called for there, or none is, or nothing is said, since the row of a container is missing or wrong. An address fails where a row is
//! missing, is wrong, or is one too many; and the laws say that a table in which none fails has the right shape, and the other way round.
//!
//! It has no code: each public function has an empty body, and its contract is a law. Which rows fit an action is left to whom asks.
#![tactic(auto)]

ghost use Rattle.std.specs.Prelude.{Bool, ℕ};
ghost use Rattle.wf_layers.specs.Address.{Table};
ghost use Rattle.wf_layers.specs.Definition.{Graph};
ghost use Rattle.wf_layers.specs.Shape.{Reading};
ghost use Rattle.wf_layers.specs.Source.{Source};
ghost use Rattle.wf_shape.specs.Law.{NoneFails, RightShape};

/// A table in which no row is missing, fails or is one too many has the right shape for a resubmission.
pub fn right_shape<Row, Begun, Decision, Verdict>()
    ensures { (d : Graph) (m : Source Row Begun Decision Verdict) (read : Reading Row) (fits : ℕ → Bool → Row → Bool) (r : Table Row)
        → RightShape d m read fits r }
{}

/// And a table of the right shape whose rows fit has no address that fails.
pub fn no_address_fails<Row, Begun, Decision, Verdict>()
    ensures { (d : Graph) (m : Source Row Begun Decision Verdict) (read : Reading Row) (fits : ℕ → Bool → Row → Bool) (r : Table Row)
        → NoneFails d m read fits r }
{}
