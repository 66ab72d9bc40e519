//! The form of a file of tests.
ghost use Rattle.std.specs.Prelude.{◌≡◌};
ghost use Rattle.wf_suite.specs.SuiteForm.{again_member, are_actions, is_inputs, record_member, row_member, suite_form, suite_member};
ghost use Rattle.wf_suite.specs.SuiteForm.{test_member};
ghost use Rattle.wf_val.specs.Seen.{tree};

use crate::asked::misplaced;
use crate::part::Part;
use std::alloc::{AllocError, Global};
use wf_asked::{is_index, is_list, is_name, is_object, is_text, is_within};
use wf_places::Form;
use wf_val::Val;

impl Form for Part {
    ghost table = { suite_form };

    fn is_right(self, value: &Val) -> bool {
        match self {
            Part::FileName => is_name(1024, value),
            Part::Tests => is_list(value),
            Part::Name => is_name(200, value),
            Part::Inputs => is_inputs(value),
            Part::Further => is_within(1, 100, value),
            Part::Number => is_index(value),
            Part::Actions => are_actions(value),
            Part::Text => is_text(value),
            Part::Wanted => is_object(value) || is_list(value),
            Part::Any => true,
            _ => is_object(value),
        }
    }

    fn needed(self) -> &'static [&'static str] {
        match self {
            Part::Suite => &["definition", "tests"],
            Part::Test => &["name"],
            Part::Again => &["from", "inputs", "of"],
            Part::Peak => &["most"],
            _ => &[],
        }
    }

    fn is_closed(self) -> bool {
        match self {
            Part::Suite | Part::Test | Part::Again | Part::Peak => true,
            Part::Wanted | Part::Record | Part::Row => true,
            _ => false,
        }
    }

    fn member(self, name: &str) -> Option<Part> {
        match self {
            Part::Suite => suite_member(name),
            Part::Test => test_member(name),
            Part::Again => again_member(name),
            Part::Peak if name == "most" => Some(Part::Number),
            Part::Wanted | Part::Record => record_member(name),
            Part::Rows => Some(Part::Row),
            Part::Row => row_member(name),
            _ => None,
        }
    }

    fn item(self) -> Option<Part> {
        match self {
            Part::Tests => Some(Part::Test),
            Part::Actions => Some(Part::Text),
            Part::Wanted => Some(Part::Record),
            _ => None,
        }
    }

    fn beside(self, alloc: Global, value: &Val) -> Result<Option<String>, AllocError> {
        match self {
            Part::Test => misplaced(alloc, value),
            _ => Ok(None),
        }
    }
}

fn is_inputs(value: &Val) -> bool
    ensures { result ≡ is_inputs (tree value.now) }
{
    is_object(value) || is_name(1024, value)
}

#[tactic(auto, using(wf_val::proofs::ValueTreeLemmas::listed))]
fn are_actions(value: &Val) -> bool
    ensures { result ≡ are_actions (tree value.now) }
{
    match value {
        Val::List(items) => 1 <= items.len() && items.len() <= 500,
        _ => false,
    }
}

fn suite_member(name: &str) -> Option<Part>
    ensures { result ≡ suite_member name.now }
{
    match name {
        "definition" => Some(Part::FileName),
        "tests" => Some(Part::Tests),
        _ => None,
    }
}

fn test_member(name: &str) -> Option<Part>
    ensures { result ≡ test_member name.now }
{
    match name {
        "accepts" => Some(Part::Number),
        "expect" => Some(Part::Wanted),
        "inputs" => Some(Part::Inputs),
        "name" => Some(Part::Name),
        "peak" => Some(Part::Peak),
        "refused" => Some(Part::Text),
        "resubmit" => Some(Part::Again),
        "schedule" => Some(Part::FileName),
        "schedules" => Some(Part::Further),
        "seed" => Some(Part::Number),
        _ => None,
    }
}

fn again_member(name: &str) -> Option<Part>
    ensures { result ≡ again_member name.now }
{
    match name {
        "from" => Some(Part::Actions),
        "inputs" => Some(Part::Inputs),
        "of" => Some(Part::Text),
        "schedule" => Some(Part::FileName),
        _ => None,
    }
}

fn record_member(name: &str) -> Option<Part>
    ensures { result ≡ record_member name.now }
{
    match name {
        "actions" => Some(Part::Rows),
        "error" => Some(Part::Any),
        "outputs" => Some(Part::Any),
        "parameters" => Some(Part::Any),
        "response" => Some(Part::Any),
        "run" => Some(Part::Any),
        "status" => Some(Part::Any),
        "trigger" => Some(Part::Any),
        _ => None,
    }
}

fn row_member(name: &str) -> Option<Part>
    ensures { result ≡ row_member name.now }
{
    match name {
        "at" => Some(Part::Any),
        "attempts" => Some(Part::Any),
        "code" => Some(Part::Any),
        "error" => Some(Part::Any),
        "inputs" => Some(Part::Any),
        "name" => Some(Part::Any),
        "outputs" => Some(Part::Any),
        "status" => Some(Part::Any),
        "tracked" => Some(Part::Any),
        _ => None,
    }
}
