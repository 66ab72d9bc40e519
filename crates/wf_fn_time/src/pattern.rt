//! Patterns by which moments are printed.
ghost use Rattle.std.specs.Prelude.{◌≡◌, ◌≤◌, false, IfOk, IfSome, length, option_map};
ghost use Rattle.std.specs.Str.{chars};
ghost use Rattle.wf_fn_time.specs.Pattern.{fields_of, field_of, is_plain, repeats, part_of, parts_past, standard, in_full, parts_of};

use std::alloc::{AllocError, Global};
use std::marker::Model;
use wf_val::char_count;

/// A part of a moment, as a run of a letter prints it.
#[derive(Clone, Copy, Debug)]
pub enum Field {
    Year,
    YearOfCentury,
    MonthName,
    MonthAbbreviation,
    PaddedMonth,
    Month,
    WeekdayName,
    WeekdayAbbreviation,
    PaddedDay,
    DayOfMonth,
    PaddedHour,
    Hour,
    PaddedHalfDayHour,
    HalfDayHour,
    PaddedMinute,
    Minute,
    PaddedSecond,
    Second,
    Fraction1,
    Fraction2,
    Fraction3,
    Fraction4,
    Fraction5,
    Fraction6,
    Fraction7,
    HalfDay,
}

/// A part of a pattern: a run of one letter, which stands for a field, or a character that stands for itself.
#[derive(Clone, Copy, Debug)]
pub enum Part {
    Run(Field),
    Itself(char),
}

/// What a pattern writes, part by part.
#[derive(Debug, Drop)]
pub struct Pattern {
    parts: Vec<Part>,
}

impl Model for Pattern {
    ghost use Rattle.std.specs.Prelude.{List};
    ghost use Rattle.wf_fn_time.specs.declared.pattern.Part.{Part};

    ghost Value = { List Part };

    ghost view = { λ a. a.parts.items };
}

impl Pattern {
    /// The pattern that a text writes; none where it is refused.
    pub fn of(alloc: Global, pattern: &str) -> Result<Option<Pattern>, AllocError>
        ensures { IfOk result (λ o. o ≡ parts_of pattern.now) }
    {
        match in_full(pattern) {
            None => Ok(None),
            Some(pattern) => {
                let characters = characters_of(alloc, pattern)?;
                scanned(alloc, characters.as_slice())
            }
        }
    }

    /// Its parts in order.
    pub fn parts(&self) -> &[Part]
        ensures { result.now ≡ self.now }
    {
        self.parts.as_slice()
    }
}

/// The pattern of round trips, by which a moment is printed where none is given.
pub const DEFAULT_PATTERN: &str = "yyyy-MM-ddTHH:mm:ss.fffffffZ";

fn characters_of(alloc: Global, text: &str) -> Result<Vec<char>, AllocError>
    ensures { IfOk result (λ v. v.items ≡ chars text.now) }
{
    text.chars().collect(alloc)
}

// A pattern in full.
fn in_full(pattern: &str) -> Option<&str>
    ensures { option_map (λ s. s.now) result ≡ in_full pattern.now }
{
    let bytes = pattern.as_bytes();
    if bytes.len() == 1 {
        return standard(bytes[0]);
    }
    if char_count(pattern) < 2 {
        return None;
    }
    Some(pattern)
}

// What the patterns of one character are short for.
fn standard(letter: u8) -> Option<&'static str>
    ensures { option_map (λ s. s.now) result ≡ standard letter }
{
    match letter {
        b'o' | b'O' => Some(DEFAULT_PATTERN),
        b'D' => Some("dddd, MMMM d, yyyy"),
        b's' => Some("yyyy-MM-ddTHH:mm:ss"),
        b'u' => Some("yyyy-MM-dd HH:mm:ssZ"),
        b'r' | b'R' => Some("ddd, dd MMM yyyy HH:mm:ss 'GMT'"),
        _ => None,
    }
}

// The parts of the characters of a pattern in full.
fn scanned(alloc: Global, characters: &[char]) -> Result<Option<Pattern>, AllocError>
    ensures { IfOk result (λ o. o ≡ parts_past 0 false characters.now) }
{
    let mut parts = Vec::new(alloc);
    let mut rest = characters;
    let mut quoted = false;
    while let Some((first, behind)) = rest.split_first() {
        if *first == '\'' {
            quoted = !quoted;
            rest = behind;
            continue;
        }
        match part_of(quoted, *first, behind) {
            None => return Ok(None),
            Some((part, more)) => {
                parts.push(part)?;
                rest = &behind[more..];
            }
        }
    }
    if quoted {
        Ok(None)
    } else {
        Ok(Some(Pattern { parts }))
    }
}

// The part that a character begins, and how many characters more it takes.
fn part_of(quoted: bool, first: char, behind: &[char]) -> Option<(Part, usize)>
    ensures value { result ≡ part_of quoted first behind.now }
    ensures there { IfSome result (λ r. r.1 ≤ length behind.now) }
{
    if quoted || is_plain(first) {
        return Some((Part::Itself(first), 0));
    }
    let more = repeats(first, behind);
    let field = field_of(first, more)?;
    Some((Part::Run(field), more))
}

// Whether a character outside quotes stands for itself.
fn is_plain(character: char) -> bool
    ensures { result ≡ is_plain character }
{
    match character {
        'T' | 'Z' => true,
        '"' | '\\' | '%' => false,
        _ => !character.is_ascii_alphabetic(),
    }
}

// How many more of a character stand in front.
fn repeats(character: char, behind: &[char]) -> usize
    ensures value { result ≡ repeats character behind.now }
    ensures there { result ≤ length behind.now }
{
    let mut count = 0;
    for other in behind {
        if *other != character {
            return count;
        }
        count += 1;
    }
    count
}

// What a run of so many more of a letter stands for.
fn field_of(letter: char, more: usize) -> Option<Field>
    ensures { result ≡ field_of letter more }
{
    match fields_of(letter).get(more) {
        Some(field) => *field,
        None => None,
    }
}

// What the runs of a letter stand for: of one letter, of two, and so on.
fn fields_of(letter: char) -> &'static [Option<Field>]
    ensures { result.now ≡ fields_of letter }
{
    match letter {
        'y' => &[None, Some(Field::YearOfCentury), None, Some(Field::Year)],
        'M' => &[
            Some(Field::Month),
            Some(Field::PaddedMonth),
            Some(Field::MonthAbbreviation),
            Some(Field::MonthName),
        ],
        'd' => &[
            Some(Field::DayOfMonth),
            Some(Field::PaddedDay),
            Some(Field::WeekdayAbbreviation),
            Some(Field::WeekdayName),
        ],
        'H' => &[Some(Field::Hour), Some(Field::PaddedHour)],
        'h' => &[Some(Field::HalfDayHour), Some(Field::PaddedHalfDayHour)],
        'm' => &[Some(Field::Minute), Some(Field::PaddedMinute)],
        's' => &[Some(Field::Second), Some(Field::PaddedSecond)],
        'f' => &[
            Some(Field::Fraction1),
            Some(Field::Fraction2),
            Some(Field::Fraction3),
            Some(Field::Fraction4),
            Some(Field::Fraction5),
            Some(Field::Fraction6),
            Some(Field::Fraction7),
        ],
        't' => &[None, Some(Field::HalfDay)],
        _ => &[],
    }
}
