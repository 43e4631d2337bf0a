// The tokens of a text: parentheses, and words between white space and comments.

ghost use Rattle.std.specs.Prelude.{◌≡◌, ◌<◌, ◌≤◌, true, length, slice_index, slice_range, MatchOption, IfSome, [], ◌∷◌};
ghost use Rattle.leaf_expr.specs.{Sexpr.is_word, Lexeme.IsLexeme};
ghost use Rattle.leaf_expr.specs.Token.{word, tokens_from, token_of, begins_token, is_word_byte as is_byte_of_word};

/// Whether the byte stands in words: all do but white space, parentheses and `;`.
fn is_word_byte(b: u8) -> bool
    ensures { result ≡ is_byte_of_word b }
{
    !(b == b' ' || b == b'\t' || b == b'\n' || b == b'\r' || b == b'(' || b == b')' || b == b';')
}

/// Whether the byte begins a token where no comment is.
fn begins_token(b: u8) -> bool
    ensures { result ≡ begins_token b }
{
    is_word_byte(b) || b == b'(' || b == b')'
}

/// Where the first token at or after `at` begins; the text's length if there is none.
fn token_start(text: &[u8], at: usize) -> usize
    requires { at ≤ length text.now }
    ensures within { (at ≤ result) × (result ≤ length text.now) }
    ensures same { tokens_from result text.now ≡ tokens_from at text.now }
    ensures found { result < length text.now → begins_token (slice_index text.now result) ≡ true }
{
    let mut in_comment = false;
    for i in at..text.len() {
        if in_comment {
            in_comment = text[i] != b'\n';
        } else if begins_token(text[i]) {
            return i;
        } else {
            in_comment = text[i] == b';';
        }
    }
    text.len()
}

/// Where the word ends that begins at `start`.
fn word_end(text: &[u8], start: usize) -> usize
    requires inside { start < length text.now }
    requires begun { is_byte_of_word (slice_index text.now start) ≡ true }
    ensures within { (start < result) × (result ≤ length text.now) }
    ensures spelt { is_word (slice_range text.now start result) ≡ true }
    ensures word { tokens_from start text.now ≡ (start, word (slice_range text.now start result))
        ∷ tokens_from result text.now }
{
    for i in start + 1..text.len() {
        if !is_word_byte(text[i]) {
            return i;
        }
    }
    text.len()
}

/// The first token of a text from some byte on, or its end. Bytes are counted from 0.
#[derive(Clone, Copy)]
pub enum Lexeme {
    /// No token follows.
    End,
    /// A `(` at that byte.
    Open(usize),
    /// A `)` at that byte.
    Close(usize),
    /// A word, from the first byte up to and without the second.
    Word(usize, usize),
}

/// The first token at or after byte `at`, as the text stands from that byte on. `End` also where
/// the text has no such byte.
#[tactic(auto, using(crate::proofs::TokenSteps::open_stands, crate::proofs::TokenSteps::close_stands))]
pub fn lexeme_at(text: &[u8], at: usize) -> Lexeme
    ensures { IsLexeme text.now at result }
{
    if at >= text.len() {
        return Lexeme::End;
    }
    let start = token_start(text, at);
    if start == text.len() {
        Lexeme::End
    } else if text[start] == b'(' {
        Lexeme::Open(start)
    } else if text[start] == b')' {
        Lexeme::Close(start)
    } else {
        Lexeme::Word(start, word_end(text, start))
    }
}

/// The first byte of the first token at or after byte `at`, and the byte behind it, as the text
/// stands from `at` on; a token is a parenthesis, or a longest run of bytes of a word. `None` if no
/// token follows.
pub fn token_at(text: &[u8], at: usize) -> Option<(usize, usize)>
    ensures token { MatchOption result (tokens_from at text.now ≡ [])
        (λ p. tokens_from at text.now ≡ (p.0, token_of (slice_range text.now p.0 p.1))
        ∷ tokens_from p.1 text.now) }
    ensures within { IfSome result (λ p. (at ≤ p.0) × (p.0 < p.1) × (p.1 ≤ length text.now)) }
{
    match lexeme_at(text, at) {
        Lexeme::End => None,
        Lexeme::Open(start) => Some((start, start + 1)),
        Lexeme::Close(start) => Some((start, start + 1)),
        Lexeme::Word(start, end) => Some((start, end)),
    }
}
