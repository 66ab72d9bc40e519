//! Reports.

use wf_lists::Series;
use wf_match::Difference;
use wf_val::Text;

/// Why a test failed.
#[derive(Drop)]
pub enum Failure {
    /// What is there isn't what is expected.
    Differs(Difference),
    /// Plain words, on one line.
    Says(Text),
}

/// What a test came to.
#[derive(Drop)]
pub struct Outcome {
    pub name: Text,
    /// Why it failed; none where it passed.
    pub failures: Series<Failure>,
}

/// The outcomes of the tests of a file.
#[derive(Drop)]
pub struct Results {
    pub file: Text,
    pub outcomes: Series<Outcome>,
}
