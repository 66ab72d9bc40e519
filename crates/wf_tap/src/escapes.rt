//! Texts as they stand in a report.
ghost use Rattle.std.specs.Prelude.{◌≡◌, ◌++◌, IfOk, OnOk, option_map, string_bytes};
ghost use Rattle.wf_tap.specs.Escapes.{escaped, in_line, in_name, in_xml, is_control, is_forbidden, not_forbidden, replaced, shown};

use std::alloc::{AllocError, Global};

/// Where a text stands in a report.
#[derive(Clone, Copy)]
pub(crate) enum Place {
    // the description of an outcome
    Name,
    // a line of plain words
    Line,
    // an attribute or the content of an element
    Xml,
}

/// A text as it stands there.
pub(crate) fn escaped(alloc: Global, place: Place, text: &str) -> Result<String, AllocError>
    ensures { IfOk result (λ s. string_bytes s ≡ escaped place text.now) }
{
    let mut shown = String::new(alloc);
    for c in text.chars() {
        push_shown(&mut shown, place, c)?;
    }
    Ok(shown)
}

// Adds a character as it stands there.
fn push_shown(out: &mut String, place: Place, c: char) -> Result<(), AllocError>
    ensures { OnOk result (string_bytes out.new ≡ string_bytes out.old ++ shown place c) }
{
    match place.replaced(c) {
        Some(word) => out.push_str(word)?,
        None => out.push(c)?,
    }
    Ok(())
}

impl Place {
    // What stands for a character there; none where it stands for itself.
    fn replaced(self, c: char) -> Option<&'static str>
        ensures { option_map (λ s. s.now) result ≡ replaced self c }
    {
        match self {
            Place::Name => in_name(c),
            Place::Line => in_line(c),
            Place::Xml => in_xml(c),
        }
    }
}

fn in_name(c: char) -> Option<&'static str>
    ensures { option_map (λ s. s.now) result ≡ in_name c }
{
    match c {
        '#' => Some("\\#"),
        '\\' => Some("\\\\"),
        _ => in_line(c),
    }
}

fn in_line(c: char) -> Option<&'static str>
    ensures { option_map (λ s. s.now) result ≡ in_line c }
{
    if is_control(c) { Some(" ") } else { None }
}

fn is_control(c: char) -> bool
    ensures { result ≡ is_control c }
{
    c < ' ' || c == '\u{7f}'
}

fn in_xml(c: char) -> Option<&'static str>
    ensures { option_map (λ s. s.now) result ≡ in_xml c }
{
    match c {
        '<' => Some("&lt;"),
        '>' => Some("&gt;"),
        '&' => Some("&amp;"),
        '"' => Some("&quot;"),
        '\t' => Some("&#9;"),
        '\n' => Some("&#10;"),
        '\r' => Some("&#13;"),
        _ => not_forbidden(c),
    }
}

// The replacement character for one that XML can't write.
fn not_forbidden(c: char) -> Option<&'static str>
    ensures { option_map (λ s. s.now) result ≡ not_forbidden c }
{
    if is_forbidden(c) {
        Some("\u{fffd}")
    } else {
        None
    }
}

fn is_forbidden(c: char) -> bool
    ensures { result ≡ is_forbidden c }
{
    c < ' ' || c == '\u{fffe}' || c == '\u{ffff}'
}
