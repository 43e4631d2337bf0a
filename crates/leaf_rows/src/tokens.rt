// Tokens, the heads and ends of forms, and number words.

use crate::found::{Probe, all_are_found};
use leaf_expr::{Lexeme, form_end, form_head, lexeme_at, token_at};
use row_texts::texts::{numbered, parted, say, say_at, say_signed};
use sample_core::number::{is_number_spelling, is_number_word, number};

/// Says the token, the lexeme, or the head or end of a form that stands from a byte on.
pub fn token_told(given: &str, out: &mut String) {
    let (place, text) = parted(given);
    let (kind, at) = numbered(place);
    match kind {
        "token" => word_told(token_at(text.as_bytes(), at), out),
        "lexeme" => lexeme_told(lexeme_at(text.as_bytes(), at), out),
        "head" => word_told(form_head(text.as_bytes(), at, 1).ok(), out),
        _ => end_told(form_end(text.as_bytes(), at, 1).ok(), out),
    }
}

fn word_told(word: Option<(usize, usize)>, out: &mut String) {
    match word {
        Some((begin, end)) => {
            say_at(out, "from", begin);
            say_at(out, " to", end)
        }
        None => say(out, "none"),
    }
}

fn lexeme_told(lexeme: Lexeme, out: &mut String) {
    match lexeme {
        Lexeme::End => say(out, "end"),
        Lexeme::Open(at) => say_at(out, "open", at),
        Lexeme::Close(at) => say_at(out, "close", at),
        Lexeme::Word(begin, end) => word_told(Some((begin, end)), out),
    }
}

fn end_told(end: Option<usize>, out: &mut String) {
    match end {
        Some(end) => say_at(out, "end", end),
        None => say(out, "none"),
    }
}

/// Says the number that the word spells, or in what it is wrong.
pub fn number_told(given: &str, out: &mut String) {
    let word = given.as_bytes();
    if !is_number_word(word) {
        return say(out, "no number word");
    }
    if !is_number_spelling(word) {
        return say(out, "badly spelt");
    }
    match number(word) {
        Some(n) => say_signed(out, "number", n),
        None => say(out, "out of range"),
    }
}

/// A kind of thing, the byte from which it is sought, a text, and what is found.
static TOKENS: &str = "
§ Tokens.
token 0 |  (ab;c)␤)␍-5 => from 1 to 2
token 2 |  (ab;c)␤)␍-5 => from 2 to 4
token 3 |  (ab;c)␤)␍-5 => from 3 to 4
token 4 |  (ab;c)␤)␍-5 => from 8 to 9
token 5 |  (ab;c)␤)␍-5 => from 5 to 6
token 8 |  (ab;c)␤)␍-5 => from 8 to 9
token 9 |  (ab;c)␤)␍-5 => from 10 to 12
token 12 |  (ab;c)␤)␍-5 => none
token 100 |  (ab;c)␤)␍-5 => none
lexeme 0 |  (ab)  => open 1
lexeme 2 |  (ab)  => from 2 to 4
lexeme 4 |  (ab)  => close 4
lexeme 5 |  (ab)  => end
head 1 | ( add x) => from 2 to 5
head 1 | ((add x)) => none
head 1 | () => none
end 4 | (p 0 )) => end 6
end 4 | (p 0 1) => none
end 4 | (p 0 => none
";

/// Words, and what numbers they spell.
static NUMBERS: &str = "
§ Number words.
0 => number 0
-7 => number -7
9223372036854775807 => number 9223372036854775807
-9223372036854775808 => number -9223372036854775808
9223372036854775808 => out of range
007 => badly spelt
-0 => badly spelt
- => no number word
 => no number word
+1 => no number word
5x => no number word
";

#[test]
fn tokens_and_numbers_are_found(rt: HostRuntime) {
    all_are_found(&rt, rt.alloc(), Probe::Token, TOKENS);
    all_are_found(&rt, rt.alloc(), Probe::Number, NUMBERS);
}
