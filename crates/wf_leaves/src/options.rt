//! The options of an action.
ghost use Rattle.std.specs.Prelude.{◌≡◌, take, drop};
ghost use Rattle.wf_leaves.specs.Options.{begins_with_option, behind_blanks, first_piece, has_later_option, is_blank, is_word_and_blanks, lists_option};

// Up to the first comma.
fn first_piece<'a>(bytes: &'a [u8]) -> &'a [u8]
    ensures { result.now ≡ first_piece bytes.now }
{
    for place in 0..bytes.len() {
        if bytes[place] == b',' {
            return &bytes[..place];
        }
    }
    bytes
}

// Without the blanks at the front.
fn behind_blanks<'a>(bytes: &'a [u8]) -> &'a [u8]
    ensures { result.now ≡ behind_blanks bytes.now }
{
    for place in 0..bytes.len() {
        if bytes[place] != b' ' {
            return &bytes[place..];
        }
    }
    &[]
}

fn is_blank(bytes: &[u8]) -> bool
    ensures { result ≡ is_blank bytes.now }
{
    for byte in bytes {
        if *byte != b' ' {
            return false;
        }
    }
    true
}

// So many bytes at the front, or all.
fn front<'a>(bytes: &'a [u8], count: usize) -> &'a [u8]
    ensures { result.now ≡ take count bytes.now }
{
    if count < bytes.len() {
        &bytes[..count]
    } else {
        bytes
    }
}

fn behind<'a>(bytes: &'a [u8], count: usize) -> &'a [u8]
    ensures { result.now ≡ drop count bytes.now }
{
    if count < bytes.len() {
        &bytes[count..]
    } else {
        &[]
    }
}

fn is_word_and_blanks(word: &[u8], bytes: &[u8]) -> bool
    ensures { result ≡ is_word_and_blanks word.now bytes.now }
{
    front(bytes, word.len()).eq_ignore_ascii_case(word) && is_blank(behind(bytes, word.len()))
}

fn begins_with_option(word: &[u8], bytes: &[u8]) -> bool
    ensures { result ≡ begins_with_option word.now bytes.now }
{
    is_word_and_blanks(word, behind_blanks(first_piece(bytes)))
}

// Behind some comma.
fn has_later_option(word: &[u8], bytes: &[u8]) -> bool
    ensures { result ≡ has_later_option word.now bytes.now }
{
    for place in 0..bytes.len() {
        if bytes[place] == b',' && begins_with_option(word, &bytes[place + 1..]) {
            return true;
        }
    }
    false
}

/// Whether the text of `operationOptions` lists the word.
pub fn lists_option(word: &str, text: &str) -> bool
    ensures { result ≡ lists_option word.now text.now }
{
    begins_with_option(word.as_bytes(), text.as_bytes())
        || has_later_option(word.as_bytes(), text.as_bytes())
}
