//! The form of records.
ghost use Rattle.std.specs.List.{list_all};
ghost use Rattle.std.specs.Prelude.{◌≡◌};
ghost use Rattle.wf_record_form.specs.RecordForm.{are_attempts, is_digest, is_digit, is_one_of, is_word_of, record_form, record_member};
ghost use Rattle.wf_record_form.specs.RecordForm.{row_member, run_statuses, statuses, trigger_member, try_words};
ghost use Rattle.wf_val.specs.Seen.{tree};

use crate::neighbours::unordered;
use crate::part::{Part, Version};
use std::alloc::{AllocError, Global};
use wf_asked::{is_index, is_list, is_name, is_null, is_number, is_object, is_text, is_within};
use wf_places::Form;
use wf_val::Val;

impl Form for Part {
    ghost table = { record_form };

    fn is_right(self, value: &Val) -> bool {
        match self {
            Part::Record(_) | Part::Parameters | Part::Row(_) | Part::Trigger => is_object(value),
            Part::Digest => is_digest(value),
            Part::Any => true,
            Part::Number => is_number(value),
            Part::Measured => is_object(value) || value.fits(),
            Part::Fitting => value.fits(),
            Part::Rows(_) | Part::At => is_list(value),
            Part::Index => is_index(value),
            Part::Attempts(version) => are_attempts(version, value),
            Part::Attempt => is_within(100, 599, value) || is_try_word(value),
            Part::Text => is_text(value),
            Part::TextOrNull => is_text(value) || is_null(value),
            Part::Name => is_name(80, value),
            Part::Status => is_status(value),
            Part::RunStatus => is_run_status(value),
            Part::Tracked => is_object(value) || is_null(value),
        }
    }

    fn needed(self) -> &'static [&'static str] {
        match self {
            Part::Record(_) => &[
                "definition",
                "error",
                "form",
                "outputs",
                "parameters",
                "response",
                "rows",
                "run",
                "status",
                "trigger",
            ],
            Part::Row(_) => &[
                "at", "attempts", "code", "error", "inputs", "name", "outputs", "status", "tracked",
            ],
            Part::Trigger => &["name", "outputs"],
            _ => &[],
        }
    }

    fn is_closed(self) -> bool {
        match self {
            Part::Record(_) | Part::Row(_) | Part::Trigger => true,
            _ => false,
        }
    }

    fn member(self, name: &str) -> Option<Part> {
        match self {
            Part::Record(version) => record_member(version, name),
            Part::Row(version) => row_member(version, name),
            Part::Trigger => trigger_member(name),
            Part::Measured | Part::Tracked | Part::Parameters => Some(Part::Fitting),
            _ => None,
        }
    }

    fn item(self) -> Option<Part> {
        match self {
            Part::Rows(version) => Some(Part::Row(version)),
            Part::At => Some(Part::Index),
            Part::Attempts(Version::Two) => Some(Part::Attempt),
            _ => None,
        }
    }

    #[tactic(auto, using(wf_val::proofs::ValueTreeLemmas::listed))]
    fn beside(self, alloc: Global, value: &Val) -> Result<Option<String>, AllocError> {
        match (self, value) {
            (Part::Rows(_), Val::List(items)) => {
                let least = unordered(alloc, items.as_slice())?;
                Ok(least)
            }
            _ => Ok(None),
        }
    }
}

fn record_member(version: Version, name: &str) -> Option<Part>
    ensures { result ≡ record_member version name.now }
{
    match name {
        "definition" => Some(Part::Digest),
        "error" => Some(Part::Any),
        "form" => Some(Part::Number),
        "outputs" => Some(Part::Measured),
        "parameters" => Some(Part::Parameters),
        "response" => Some(Part::Measured),
        "rows" => Some(Part::Rows(version)),
        "run" => Some(Part::Name),
        "status" => Some(Part::RunStatus),
        "trigger" => Some(Part::Trigger),
        _ => None,
    }
}

fn row_member(version: Version, name: &str) -> Option<Part>
    ensures { result ≡ row_member version name.now }
{
    match name {
        "at" => Some(Part::At),
        "attempts" => Some(Part::Attempts(version)),
        "code" => Some(Part::Text),
        "error" => Some(Part::TextOrNull),
        "inputs" => Some(Part::Fitting),
        "name" => Some(Part::Name),
        "outputs" => Some(Part::Measured),
        "status" => Some(Part::Status),
        "tracked" => Some(Part::Tracked),
        _ => None,
    }
}

fn trigger_member(name: &str) -> Option<Part>
    ensures { result ≡ trigger_member name.now }
{
    match name {
        "name" => Some(Part::TextOrNull),
        "outputs" => Some(Part::Measured),
        _ => None,
    }
}

// Whether it is 64 lower-case hexadecimal digits.
fn is_digest(value: &Val) -> bool
    ensures { result ≡ is_digest (tree value.now) }
{
    match value {
        Val::Text(text) => text.as_str().len() == 64 && are_digits(text.as_str()),
        _ => false,
    }
}

fn are_digits(text: &str) -> bool
    ensures { result ≡ list_all is_digit text.now }
{
    for byte in text.as_bytes() {
        if !is_digit(*byte) {
            return false;
        }
    }
    true
}

fn is_digit(byte: u8) -> bool
    ensures { result ≡ is_digit byte }
{
    matches!(byte, b'0'..=b'9' | b'a'..=b'f')
}

// Whether it is a number of attempts, or a list of no more than there may be.
#[tactic(auto, using(wf_val::proofs::ValueTreeLemmas::listed))]
fn are_attempts(version: Version, value: &Val) -> bool
    ensures { result ≡ are_attempts version (tree value.now) }
{
    match (version, value) {
        (Version::One, value) => is_within(0, 91, value),
        (Version::Two, Val::List(items)) => items.len() <= 91,
        _ => false,
    }
}

fn is_try_word(value: &Val) -> bool
    ensures { result ≡ is_word_of try_words (tree value.now) }
{
    match value {
        Val::Text(text) => is_try(text.as_str()),
        _ => false,
    }
}

fn is_try(text: &str) -> bool
    ensures { result ≡ is_one_of try_words text.now }
{
    text == "noConnection" || text == "timedOut" || text == "noAnswer" || text == "unknown"
}

fn is_status(value: &Val) -> bool
    ensures { result ≡ is_word_of statuses (tree value.now) }
{
    match value {
        Val::Text(text) => is_status_name(text.as_str()),
        _ => false,
    }
}

fn is_status_name(text: &str) -> bool
    ensures { result ≡ is_one_of statuses text.now }
{
    is_run_status_name(text) || text == "Skipped" || text == "TimedOut"
}

fn is_run_status(value: &Val) -> bool
    ensures { result ≡ is_word_of run_statuses (tree value.now) }
{
    match value {
        Val::Text(text) => is_run_status_name(text.as_str()),
        _ => false,
    }
}

fn is_run_status_name(text: &str) -> bool
    ensures { result ≡ is_one_of run_statuses text.now }
{
    text == "Succeeded" || text == "Failed" || text == "Cancelled"
}
