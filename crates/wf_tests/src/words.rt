//! The words of the command.
ghost use Rattle.std.specs.Prelude.{◌≡◌, option_map};
ghost use Rattle.wf_tests.specs.Words.{Wish, wish_of, wish_tree};

use wf_val::Text;

/// What the words ask for.
#[derive(Clone, Copy)]
pub(crate) struct Asked<'a> {
    /// Whether the report is wanted in the form that is named after JUnit.
    pub(crate) junit: bool,
    /// The files of tests, one at least.
    pub(crate) files: &'a [Text],
}

/// What the words `[--junit] FILE..` ask for; none where they are no such words.
pub(crate) fn asked_of<'a>(words: &'a [Text]) -> Option<Asked<'a>>
    ensures { option_map wish_tree result ≡ wish_of words.now }
{
    let (first, rest) = words.split_first()?;
    if first.as_str() != "--junit" {
        return Some(Asked {
            junit: false,
            files: words,
        });
    }
    if rest.is_empty() {
        return None;
    }
    Some(Asked {
        junit: true,
        files: rest,
    })
}
