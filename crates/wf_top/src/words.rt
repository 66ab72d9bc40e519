// The words of a command.
ghost use Rattle.std.specs.Prelude.{◌≡◌, ◌<◌, length, option_copied};
ghost use Rattle.wf_top.specs.Seen.{asked_tree};
ghost use Rattle.wf_top.specs.Words.{command_of, count_of, digits_from, drill_of, fires_of, one_asked, schedule_word, set_asked};
ghost use Rattle.wf_top.specs.Words.{size_of, within_count, within_size, word};

use std::slice::from_ref;
use wf_fn_time::read_time;
use wf_val::Text;

/// A command of the program.
#[derive(Clone, Copy, Debug, PartialEq, Eq)]
pub enum Command {
    /// `check DEF`: says whether a definition is accepted.
    Check,
    /// `run DEF INPUTS [SCHEDULE]`: runs a definition and prints the record of each run.
    Run,
    /// `trace DEF INPUTS SCHEDULE`: does the same, and prints the events of each run above its record.
    Trace,
    /// `list HISTORY`: says in a line what each record of a history is.
    List,
    /// `resubmit DEF HISTORY RUN ACTION INPUTS [SCHEDULE]`: does an action of a run anew and all that depends on it, and prints the
    /// record of the new run.
    Resubmit,
    /// `resubmit-set DEF HISTORY RUN INPUTS SCHEDULE ACTION...`: does the same from 1 to 500 actions.
    ResubmitSet,
    /// `fires DEF TRIGGER FROM N`: lists the next moments, N at most, at which a trigger that recurs is due from a moment on,
    /// which is in ticks.
    Fires { from: u64, count: u32 },
    /// `drill N`: makes a run of a size, from 1 to 400, under three schedules, and says how it went.
    Drill { size: u32 },
    /// `session DEF INPUTS`: talks of the run that inputs start, and takes answers of connectors from outside while it goes on.
    Session,
}

/// The command that the words after the program's name are, or `None` where they are no command. It takes no memory.
pub fn parse_words(words: &[Text]) -> Option<Command>
    ensures { result ≡ command_of words.now }
{
    let (name, rest) = words.split_first()?;
    match (name.as_str(), rest.len()) {
        ("check", 1) => Some(Command::Check),
        ("run", 2 | 3) => Some(Command::Run),
        ("trace", 3) => Some(Command::Trace),
        ("list", 1) => Some(Command::List),
        ("resubmit", 5 | 6) => Some(Command::Resubmit),
        ("resubmit-set", 6..=505) => Some(Command::ResubmitSet),
        ("fires", 4) => fires_of(words[3].as_str(), words[4].as_str()),
        ("drill", 1) => drill_of(words[1].as_str()),
        ("session", 2) => Some(Command::Session),
        _ => None,
    }
}

// The command `fires` with these words FROM and N: a timestamp, and a number from 1 to 1000 without a zero in front.
fn fires_of(from: &str, count: &str) -> Option<Command>
    ensures { result ≡ fires_of from.now count.now }
{
    let from = read_time(from)?.get();
    let count = count_of(count.as_bytes())?;
    Some(Command::Fires { from, count })
}

fn count_of(text: &[u8]) -> Option<u32>
    ensures { result ≡ count_of text.now }
{
    match text {
        [first, ..] if *first != b'0' => within_count(digits_from(text)),
        _ => None,
    }
}

fn within_count(number: Option<u32>) -> Option<u32>
    ensures { result ≡ within_count number }
{
    match number {
        Some(n) if 1 <= n && n <= 1000 => Some(n),
        _ => None,
    }
}

// The command `drill` with this word N: a number from 1 to 400 without a zero in front.
fn drill_of(size: &str) -> Option<Command>
    ensures { result ≡ drill_of size.now }
{
    let size = size_of(size.as_bytes())?;
    Some(Command::Drill { size })
}

fn size_of(text: &[u8]) -> Option<u32>
    ensures { result ≡ size_of text.now }
{
    match text {
        [first, ..] if *first != b'0' => within_size(digits_from(text)),
        _ => None,
    }
}

fn within_size(number: Option<u32>) -> Option<u32>
    ensures { result ≡ within_size number }
{
    match number {
        Some(n) if 1 <= n && n <= 400 => Some(n),
        _ => None,
    }
}

// What decimal digits come to, of which none stands behind more than a thousand.
fn digits_from(text: &[u8]) -> Option<u32>
    ensures { result ≡ digits_from 0 text.now }
{
    let mut number = 0;
    for digit in text {
        if !digit.is_ascii_digit() || number > 1000 {
            return None;
        }
        number = number * 10 + u32::from(*digit - b'0');
    }
    Some(number)
}

/// The word SCHEDULE, or `None` where the words have none.
pub fn schedule_word<'a>(words: &'a [Text]) -> Option<&'a Text>
    ensures { option_copied result ≡ schedule_word words.now }
{
    words.get(3)
}

/// What a resubmission goes by beside DEF.
#[derive(Clone, Copy)]
pub struct Asked<'a> {
    /// The name of the file of the history.
    pub history: &'a Text,
    /// The run that is resubmitted.
    pub run: &'a Text,
    /// The name of the file of the new inputs.
    pub inputs: &'a Text,
    /// The name of the file of the schedule, where one is named.
    pub schedule: Option<&'a Text>,
    /// The actions from which the run is resubmitted.
    pub names: &'a [Text],
}

// The word at a place.
fn word_at(words: &[Text], place: usize) -> &Text
    requires { place < length words.now }
    ensures { result.now ≡ word words.now place }
{
    &words[place]
}

/// What the words of `resubmit` name.
pub fn one_asked(words: &[Text]) -> Asked<'_>
    requires { 5 < length words.now }
    ensures { asked_tree result ≡ one_asked words.now }
{
    Asked {
        history: word_at(words, 2),
        run: word_at(words, 3),
        inputs: word_at(words, 5),
        schedule: words.get(6),
        names: from_ref(word_at(words, 4)),
    }
}

/// What the words of `resubmit-set` name.
pub fn set_asked(words: &[Text]) -> Asked<'_>
    requires { 6 < length words.now }
    ensures { asked_tree result ≡ set_asked words.now }
{
    Asked {
        history: word_at(words, 2),
        run: word_at(words, 3),
        inputs: word_at(words, 4),
        schedule: Some(word_at(words, 5)),
        names: &words[6..],
    }
}
