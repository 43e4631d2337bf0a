// Words: longest runs of letters, digits and '-'.

ghost use Rattle.std.specs.Prelude.{◌≡◌, ◌+◌, ◌≤◌, ◌<◌, false, true, length, bytes_eq, IfSome, MatchOption};
ghost use Rattle.sample_core.specs.Words.{is_value_byte as is_byte_of_value, goes_on as is_longer, word_of, after_word, form_word, after_form};

/// Whether the byte is a letter, a digit or `-`.
pub(crate) fn is_value_byte(byte: u8) -> bool
    ensures { result ≡ is_byte_of_value byte }
{
    byte.is_ascii_alphanumeric() || byte == b'-'
}

/// Whether a word goes on there.
#[inline(always)]
pub(crate) fn goes_on(text: &[u8]) -> bool
    ensures { result ≡ is_longer text.now }
{
    match text {
        [] | [b' ' | b')', ..] => false,
        [byte, ..] => is_value_byte(*byte),
    }
}

/// What is behind the name, where the word at the front is that name; the name is one word.
#[inline(always)]
pub(crate) fn behind_word<'t>(text: &'t [u8], name: &str) -> Option<&'t [u8]>
    requires { word_of name.now ≡ name.now }
    ensures found { MatchOption result (bytes_eq (word_of text.now) name.now ≡ false)
        (λ rest. (bytes_eq (word_of text.now) name.now ≡ true)
        × (after_word text.now ≡ rest.now)) }
    ensures shorter { IfSome result (λ rest. length rest.now ≤ length text.now) }
{
    match text.strip_prefix(name.as_bytes()) {
        Some(rest) => { if goes_on(rest) { None } else { Some(rest) } }
        None => None,
    }
}

/// What is behind a `(` and the name, where the word directly behind a `(` at the front is that
/// name; the name is one word.
#[inline(always)]
pub(crate) fn behind_form<'t>(text: &'t [u8], name: &str) -> Option<&'t [u8]>
    requires word { word_of name.now ≡ name.now }
    requires some { 0 < length name.now }
    ensures found { MatchOption result (bytes_eq (form_word text.now) name.now ≡ false)
        (λ rest. (bytes_eq (form_word text.now) name.now ≡ true)
        × (after_form text.now ≡ rest.now)) }
    ensures shorter { IfSome result (λ rest. length rest.now ≤ length text.now) }
{
    match text {
        [b'(', inside @ ..] => behind_word(inside, name),
        _ => None,
    }
}

/// The longest run of word bytes at the front, and what is behind it.
pub(crate) fn split_word(text: &[u8]) -> (&[u8], &[u8])
    ensures word { result.0.now ≡ word_of text.now }
    ensures after { result.1.now ≡ after_word text.now }
    ensures parts { length result.0.now + length result.1.now ≡ length text.now }
{
    for (len, byte) in text.iter().enumerate() {
        if !is_value_byte(*byte) {
            return text.split_at(len);
        }
    }
    text.split_at(text.len())
}

/// The word directly behind a `(` at the front, and what is behind that word; an empty word where
/// there is no `(`.
pub(crate) fn split_form(text: &[u8]) -> (&[u8], &[u8])
    ensures word { result.0.now ≡ form_word text.now }
    ensures after { result.1.now ≡ after_form text.now }
    ensures shorter { length result.1.now ≤ length text.now }
{
    match text {
        [b'(', inside @ ..] => split_word(inside),
        _ => text.split_at(0),
    }
}

/// Whether the word is that name.
pub fn word_is(word: &[u8], name: &str) -> bool
    ensures { result ≡ bytes_eq word.now name.now }
{
    word == name.as_bytes()
}
