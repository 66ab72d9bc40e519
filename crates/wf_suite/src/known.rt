//! Tests that were read, found by their names.
ghost use Rattle.std.specs.Prelude.{◌≡◌, ◌∷◌, ◌++◌, [], None, IfOk};
ghost use Rattle.wf_suite.specs.Places.{ArePlaces};

use crate::suite::{Test, Tests};
use std::alloc::{AllocError, Global};
use std::collections::BTreeMap;
use wf_val::Text;

/// The tests so far, and the place of each by its name.
#[derive(Drop)]
pub(crate) struct Known {
    tests: Tests,
    places: BTreeMap<Text, u64>,
    ghost placed: { ArePlaces places.entries tests },
}

impl Known {
    ghost use Rattle.wf_suite.specs.Known.{tests_known};
    ghost use Rattle.wf_suite.specs.Suite.{place_of, record_of};

    /// No tests.
    pub(crate) fn new(alloc: Global) -> Known
        ensures { tests_known result ≡ [] }
    {
        Known {
            tests: Tests::new(alloc),
            places: BTreeMap::new(alloc),
        }
    }

    /// The place of the test of a name.
    pub(crate) fn place_of(&self, name: &Text) -> Option<u64>
        ensures { result ≡ place_of name.now (tests_known self.now) }
    {
        self.places.get(name).copied()
    }

    /// The place of the test of a name, where it is expected to make a record.
    pub(crate) fn record_of(&self, name: &Text) -> Option<u64>
        ensures { result ≡ record_of name.now (tests_known self.now) }
    {
        let place = self.place_of(name)?;
        match self.tests.at(place) {
            Some(test) if test.makes_record() => Some(place),
            _ => None,
        }
    }

    /// With one test more, whose name none of the others has.
    #[tactic(auto, using(crate::proofs::PlaceLemmas::placed_more))]
    pub(crate) fn with(self, alloc: Global, test: Test) -> Result<Known, AllocError>
        requires { place_of test.name (tests_known self) ≡ None }
        ensures { IfOk result (λ known. tests_known known ≡ tests_known self ++ test ∷ []) }
    {
        let Known {
            mut tests,
            mut places,
        } = self;
        let _none = places.insert(test.name.copy(alloc)?, tests.len())?;
        tests.push(test)?;
        Ok(Known { tests, places })
    }

    /// The tests.
    pub(crate) fn into_tests(self) -> Tests
        ensures { result ≡ tests_known self }
    {
        self.tests
    }
}
