//! The words of expressions: `true`, `false` and `null`, without letter case.
ghost use Rattle.std.specs.Prelude.{◌≡◌, option_map};
ghost use Rattle.wf_val.specs.Seen.{tree};
ghost use Rattle.wf_template.specs.ExprTree.{literal};
ghost use Rattle.wf_expr.specs.Words.{lower};
ghost use Rattle.wf_expr.specs.WordTests.{word_of, word_front, is_front};

use wf_val::Val;

/// The value of a word.
#[tactic(auto, unfolding(crate::specs::WordTests::word_of))]
pub(crate) fn word_value(name: &str) -> Option<Val>
    ensures { option_map (λ v. literal (tree v)) result ≡ word_of name.now }
{
    if name.eq_ignore_ascii_case("true") {
        Some(Val::Bool(true))
    } else if name.eq_ignore_ascii_case("false") {
        Some(Val::Bool(false))
    } else if name.eq_ignore_ascii_case("null") {
        Some(Val::Null)
    } else {
        None
    }
}

/// Whether a word begins with the name.
#[tactic(auto, unfolding(crate::specs::WordTests::word_front))]
pub(crate) fn begins_word(name: &str) -> bool
    ensures { result ≡ word_front name.now }
{
    let name = name.as_bytes();
    begins(name, b"true") || begins(name, b"false") || begins(name, b"null")
}

fn begins(name: &[u8], word: &[u8]) -> bool
    ensures { result ≡ is_front (lower name.now) word.now }
{
    match name.split_first() {
        None => true,
        Some((letter, others)) => match word.split_first() {
            None => false,
            Some((first, rest)) => { letter.to_ascii_lowercase() == *first && begins(others, rest) }
        },
    }
}
