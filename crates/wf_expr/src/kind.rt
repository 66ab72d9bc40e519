//! What a character is to the grammar.
ghost use Rattle.std.specs.Prelude.{◌≡◌, false};
ghost use Rattle.wf_expr.specs.Kinds.{kind, is_letter};

/// The kinds of characters that the grammar tells apart. White space is space, tab, carriage return and line feed;
/// letters and digits are those of ASCII.
#[derive(Clone, Copy)]
pub(crate) enum Kind {
    Blank,
    Digit,
    Letter,
    Quote,
    Open,
    Close,
    Bracket,
    Unbracket,
    Comma,
    Dot,
    Soft,
    Under,
    Dollar,
    Minus,
    At,
    Brace,
    Unbrace,
    Other,
}

#[tactic(auto, unfolding(crate::specs::Kinds::kind))]
pub(crate) fn kind_of(c: char) -> Kind
    ensures { result ≡ kind c }
{
    // Most characters of an expression are letters, so they are told first.
    match c {
        'a'..='z' | 'A'..='Z' => Kind::Letter,
        _ => kind_unless_letter(c),
    }
}

#[tactic(auto, unfolding(crate::specs::Kinds::kind))]
fn kind_unless_letter(c: char) -> Kind
    ensures { is_letter c ≡ false → result ≡ kind c }
{
    match c {
        ' ' | '\t' | '\r' | '\n' => Kind::Blank,
        '0'..='9' => Kind::Digit,
        '\'' => Kind::Quote,
        '(' => Kind::Open,
        ')' => Kind::Close,
        '[' => Kind::Bracket,
        ']' => Kind::Unbracket,
        ',' => Kind::Comma,
        '.' => Kind::Dot,
        '?' => Kind::Soft,
        '_' => Kind::Under,
        '$' => Kind::Dollar,
        '-' => Kind::Minus,
        '@' => Kind::At,
        '{' => Kind::Brace,
        '}' => Kind::Unbrace,
        _ => Kind::Other,
    }
}
