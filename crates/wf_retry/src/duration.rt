//! Durations (ISO 8601), of days, hours, minutes and seconds.
ghost use Rattle.std.specs.Prelude.{◌≡◌, option_map};
ghost use Rattle.wf_retry.specs.Duration.{behind, ends_duration, is_digit, is_duration, is_letter, is_time, is_time_of_day, leading, skipped};

fn is_digit(byte: u8) -> bool
    ensures { result ≡ is_digit byte }
{
    48 <= byte && byte <= 57
}

// How many digits stand at the front.
fn leading(bytes: &[u8]) -> usize
    ensures { result ≡ leading bytes.now }
{
    let mut count = 0;
    for byte in bytes {
        if !is_digit(*byte) {
            return count;
        }
        count += 1;
    }
    count
}

fn is_letter(letter: u8, byte: Option<&u8>) -> bool
    ensures { result ≡ is_letter letter (option_map (λ b. b.now) byte.entry) }
{
    match byte {
        Some(byte) => *byte == letter,
        None => false,
    }
}

// What comes behind a number and its letter.
fn behind<'a>(letter: u8, bytes: &'a [u8]) -> Option<&'a [u8]>
    ensures { option_map (λ b. b.now) result ≡ behind letter bytes.now }
{
    let count = leading(bytes);
    if 1 <= count && count <= 9 && is_letter(letter, bytes.get(count)) {
        bytes.get(count + 1..)
    } else {
        None
    }
}

// The same where the part may be left out.
fn skipped<'a>(letter: u8, bytes: &'a [u8]) -> &'a [u8]
    ensures { result.now ≡ skipped letter bytes.now }
{
    behind(letter, bytes).unwrap_or(bytes)
}

fn is_time_of_day(bytes: &[u8]) -> bool
    ensures { result ≡ is_time_of_day bytes.now }
{
    !bytes.is_empty() && skipped(b'S', skipped(b'M', skipped(b'H', bytes))).is_empty()
}

fn is_time(bytes: &[u8]) -> bool
    ensures { result ≡ is_time bytes.now }
{
    match bytes.split_first() {
        Some((byte, rest)) => *byte == b'T' && is_time_of_day(rest),
        None => false,
    }
}

fn ends_duration(bytes: &[u8]) -> bool
    ensures { result ≡ ends_duration bytes.now }
{
    match behind(b'D', bytes) {
        Some(rest) => rest.is_empty() || is_time(rest),
        None => is_time(bytes),
    }
}

/// Whether a text is a duration: `P`, then days (`nD`), or `T` and hours, minutes and seconds (`nH`, `nM`, `nS`, in this order,
/// at least one), or both; each n has one to nine digits. Letters are upper case. Weeks, months, years, signs and fractions,
/// which ISO 8601 also has, are refused.
pub fn is_duration(text: &str) -> bool
    ensures { result ≡ is_duration text.now }
{
    match text.as_bytes().split_first() {
        Some((byte, rest)) => *byte == b'P' && ends_duration(rest),
        None => false,
    }
}
