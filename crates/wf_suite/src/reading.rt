//! A file of tests, read from its value.
ghost use Rattle.std.specs.Prelude.{◌≡◌, ◌≢◌, [], Err, IfErr, IfOk, Ok, map};
ghost use Rattle.wf_suite.specs.Suite.{suite_of, tests_after};
ghost use Rattle.wf_suite.specs.declared.fault.SuiteFault.TheVariants.{Memory};
ghost use Rattle.wf_val.specs.Seen.{tree};

use crate::fault::SuiteFault;
use crate::known::Known;
use crate::members::{items_or_none, text_or_empty};
use crate::part::Part;
use crate::suite::{Suite, Tests};
use crate::test::test_of;
use std::alloc::Global;
use wf_places::least_place;
use wf_val::{Text, Val};

impl Suite {
    /// The file of tests that a value is, or why it is none. A name is looked up in as many comparisons as the number of tests has binary
    /// digits.
    pub fn read(alloc: Global, value: &Val) -> Result<Suite, SuiteFault>
        ensures suite { IfOk result (λ s. suite_of (tree value.now) ≡ Ok s) }
        ensures fault { IfErr result (λ f. f ≢ Memory → suite_of (tree value.now) ≡ Err f) }
    {
        if let Some(pointer) = least_place(alloc, Part::Suite, value)? {
            return Err(SuiteFault::Form {
                pointer: Text::from_string(pointer),
            });
        }
        let tests = tests_of(alloc, items_or_none(value.member("tests")))?;
        Ok(Suite {
            definition: Text::of(alloc, text_or_empty(value.member("definition")))?,
            tests,
        })
    }
}

fn tests_of(alloc: Global, values: &[Val]) -> Result<Tests, SuiteFault>
    ensures tests { IfOk result (λ tests. tests_after [] (map tree values.now) ≡ Ok tests) }
    ensures fault { IfErr result (λ f. f ≢ Memory → tests_after [] (map tree values.now) ≡ Err f) }
{
    let mut done = Known::new(alloc);
    for value in values {
        let test = test_of(alloc, &done, value)?;
        done = done.with(alloc, test)?;
    }
    Ok(done.into_tests())
}
