//! What is read before any test runs.
ghost use Rattle.wf_tests.specs.Whole.{IsWhole};

use crate::sources::Sources;
use wf_suite::Suite;
use wf_val::Text;

/// A file of tests, and the files that it names, which are all there.
#[derive(Drop)]
pub(crate) struct Loaded {
    pub(crate) file: Text,
    pub(crate) suite: Suite,
    pub(crate) sources: Sources,
    ghost whole: { IsWhole suite sources },
}
