//! Numbers in their one spelling.

ghost use Rattle.std.specs.Prelude.{◌≡◌, IsTrue, Some, None, if◌then◌else◌};
ghost use Rattle.sample_core.specs.Number.{digits_part, is_number, is_number_word as number_word, is_in_64, number_of};
ghost use Rattle.std.specs.Str.{all_ascii_digits};

/// Whether the bytes are digits.
fn are_digits(bytes: &[u8]) -> bool
    ensures { result ≡ all_ascii_digits bytes.now }
{
    for byte in bytes {
        if !byte.is_ascii_digit() {
            return false;
        }
    }
    true
}

/// The word without a `-` in front.
fn without_minus(word: &[u8]) -> &[u8]
    ensures { result.now ≡ digits_part word.now }
{
    match word {
        [b'-', digits @ ..] => digits,
        _ => word,
    }
}

/// Whether the word is an optional `-` and digits, at least one: a number, maybe badly spelt.
pub fn is_number_word(word: &[u8]) -> bool
    ensures { result ≡ number_word word.now }
{
    let digits = without_minus(word);
    !digits.is_empty() && are_digits(digits)
}

/// Whether the word is a number in its one spelling, of whatever size: `0`, or an optional `-`, a
/// digit 1 to 9 and further digits.
pub fn is_number_spelling(word: &[u8]) -> bool
    ensures { result ≡ is_number word.now }
{
    let digits = without_minus(word);
    match digits {
        [] => false,
        [first, ..] => are_digits(digits) && (word.len() == 1 || *first != b'0'),
    }
}

/// The number that the word spells; `None` if it is outside 64 bits. The word must be a number in
/// its one spelling.
pub fn number(word: &[u8]) -> Option<i64>
    requires { IsTrue (is_number word.now) }
    ensures { result ≡ (if is_in_64 word.now then Some (number_of word.now) else None) }
{
    str::from_utf8(word).ok()?.parse().ok()
}
