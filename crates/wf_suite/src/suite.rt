//! A file of tests.
ghost use Rattle.std.specs.Prelude.{◌≡◌};
ghost use Rattle.wf_suite.specs.Suite.{makes_record};

use wf_lists::Series;
use wf_val::{Fields, Name, Text, Vals};

/// Names of actions, in the order in which they are written.
pub type Names = Series<Name>;

/// Tests, in the order in which they are run.
pub type Tests = Series<Test>;

/// What a run is handed.
#[derive(Drop)]
pub enum Given {
    /// The file of this name, beside the file of tests.
    File(Text),
    /// The inputs themselves.
    Itself(Fields),
}

/// What a test does.
#[derive(Drop)]
pub enum Kind {
    /// It checks the definition.
    Check,
    /// It runs it.
    Run {
        inputs: Given,
        /// The file of the schedule; where none is named it is the empty one.
        schedule: Option<Text>,
        /// Under how many further schedules, 0 to 100.
        further: u64,
        /// What they are made from.
        seed: u64,
    },
    /// It resubmits the first run of an earlier test.
    Again {
        /// The place of that test among the tests, counted from 0.
        of: u64,
        /// The actions from which it is resubmitted, 1 to 500.
        from: Names,
        inputs: Given,
        schedule: Option<Text>,
    },
}

/// What is expected of a test.
#[derive(Drop)]
pub enum Wanted {
    /// That the definition is accepted, and has so many actions.
    Accepts(u64),
    /// That this line is written, and no record.
    Refused(Text),
    /// A record for each of these values, which has what the value names.
    Records(Vals),
}

#[derive(Drop)]
pub struct Test {
    pub name: Text,
    pub kind: Kind,
    pub wanted: Wanted,
    /// The greatest peak that is allowed, where one is named.
    pub most: Option<u64>,
}

impl Test {
    /// Whether the test is expected to make a record, which another may resubmit.
    pub fn makes_record(&self) -> bool
        ensures { result ≡ makes_record self.now }
    {
        match &self.wanted {
            Wanted::Records(_) => true,
            _ => false,
        }
    }
}

/// A file of tests.
#[derive(Drop)]
pub struct Suite {
    /// The file of the definition, beside the file of tests.
    pub definition: Text,
    pub tests: Tests,
}
