//! The form of inputs.
ghost use Rattle.std.specs.Prelude.{◌≡◌};
ghost use Rattle.wf_answers.specs.InputsForm.{answer_member, inputs_form, whole_member};

use crate::asked::{
    is_fitting_object, is_index, is_list, is_name, is_object, is_status, is_text, is_within,
};
use std::alloc::{AllocError, Global};
use wf_places::Form;
use wf_val::Val;

/// What a value in inputs stands for.
#[derive(Clone, Copy, PartialEq, Eq)]
pub(crate) enum Part {
    /// The inputs.
    Whole,
    /// The run's name.
    Run,
    Text,
    /// Any value that fits.
    Fitting,
    Parameters,
    Answers,
    Answer,
    /// The iteration numbers of an answer's address.
    At,
    Index,
    Attempt,
    Status,
    Headers,
}

impl Form for Part {
    ghost table = { inputs_form };

    fn is_right(self, value: &Val) -> bool {
        match self {
            Part::Whole | Part::Parameters | Part::Answer => is_object(value),
            Part::Run => is_name(64, value),
            Part::Text => is_text(value),
            Part::Fitting => value.fits(),
            Part::Answers | Part::At => is_list(value),
            Part::Index => is_index(value),
            Part::Attempt => is_within(1, 91, value),
            Part::Status => is_status(value),
            Part::Headers => is_fitting_object(value),
        }
    }

    fn needed(self) -> &'static [&'static str] {
        match self {
            Part::Whole => &["moment", "run"],
            Part::Answer => &["action", "status"],
            _ => &[],
        }
    }

    fn is_closed(self) -> bool {
        false
    }

    fn member(self, name: &str) -> Option<Part> {
        match self {
            Part::Whole => whole_member(name),
            Part::Parameters => Some(Part::Fitting),
            Part::Answer => answer_member(name),
            _ => None,
        }
    }

    fn item(self) -> Option<Part> {
        match self {
            Part::Answers => Some(Part::Answer),
            Part::At => Some(Part::Index),
            _ => None,
        }
    }

    fn beside(self, _alloc: Global, _value: &Val) -> Result<Option<String>, AllocError> {
        Ok(None)
    }
}

fn whole_member(name: &str) -> Option<Part>
    ensures { result ≡ whole_member name.now }
{
    match name {
        "answers" => Some(Part::Answers),
        "moment" => Some(Part::Text),
        "outputs" => Some(Part::Fitting),
        "parameters" => Some(Part::Parameters),
        "run" => Some(Part::Run),
        "seed" => Some(Part::Text),
        "trigger" => Some(Part::Text),
        _ => None,
    }
}

fn answer_member(name: &str) -> Option<Part>
    ensures { result ≡ answer_member name.now }
{
    match name {
        "action" => Some(Part::Text),
        "at" => Some(Part::At),
        "attempt" => Some(Part::Attempt),
        "body" => Some(Part::Fitting),
        "headers" => Some(Part::Headers),
        "status" => Some(Part::Status),
        _ => None,
    }
}
