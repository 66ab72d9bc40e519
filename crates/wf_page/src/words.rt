// The words of a call.
ghost use Rattle.std.specs.Prelude.{◌≡◌, option_map};
ghost use Rattle.wf_page.specs.Seen.{asked_tree};
ghost use Rattle.wf_page.specs.Words.{asked_of};

use wf_val::Text;

/// The names of the files.
#[derive(Clone, Copy)]
pub struct Asked<'a> {
    pub definition: &'a Text,
    pub log: &'a Text,
    pub earlier: Option<&'a Text>,
}

/// What the words after the program's name ask for; nothing where they are another number.
pub fn parse_words(words: &[Text]) -> Option<Asked<'_>>
    ensures { option_map asked_tree result ≡ asked_of words.now }
{
    match words {
        [definition, log] => Some(Asked {
            definition,
            log,
            earlier: None,
        }),
        [definition, earlier, log] => Some(Asked {
            definition,
            log,
            earlier: Some(earlier),
        }),
        _ => None,
    }
}
