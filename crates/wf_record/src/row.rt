//! Rows: what is recorded of each action.
ghost use Rattle.std.specs.Prelude.{◌≡◌};

use crate::attempt::Tries;
use crate::status::Status;
use wf_lists::{Keyed, Sorted};
use wf_val::{Address, Text, Val};

/// What is recorded of an action that has ended.
#[derive(Drop)]
pub struct Row {
    pub address: Address,
    pub status: Status,
    /// What happened in one word or number, such as `OK`, `ActionSkipped` or `404`.
    pub code: Text,
    /// What the action took in, or null.
    pub inputs: Val,
    /// What it gave out, or null.
    pub outputs: Val,
    /// The text of a fault, or null.
    pub error: Val,
    /// Its tracked properties as an object, or null where one of them has no value.
    pub tracked: Val,
    /// What each call of a connector came to, in order; none for an action that is none.
    pub attempts: Tries,
}

impl Keyed for Row {
    type Key = Address;

    ghost key_of = { λ r. r.address };

    fn key(&self) -> &Address {
        &self.address
    }
}

/// Rows in strictly ascending order of their addresses.
pub type Rows = Sorted<Row>;
