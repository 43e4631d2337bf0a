// Texts in short forms, what is said of what is found, and what is read of texts.

use crate::named::network_named;
use leaf_expr::{Expr, read_expr, read_type_at};
use sample_core::{Memory, Sample, Ty, push_value, read_value};
use std::alloc::Global;
use std::fmt::Display;

/// Adds these words to the text. Where the allocation is refused, the text lacks them, and isn't
/// the one that is wanted.
pub fn say(out: &mut String, words: &str) {
    drop(out.push_str(words));
}

/// Adds how a value is shown, as a fault by its words, for which the same holds.
pub fn say_shown(out: &mut String, shown: &impl Display) {
    drop(write!(out, "{shown}"));
}

/// Adds these words and a number, for which the same holds.
pub fn say_at(out: &mut String, words: &str, at: usize) {
    drop(write!(out, "{words} {at}"));
}

/// Adds these words and a number with a sign.
pub fn say_signed(out: &mut String, words: &str, number: i64) {
    drop(write!(out, "{words} {number}"));
}

/// Adds the text that its short form stands for: `‹increment›` for the file of the network of that
/// name; `{3*ab}` for `ababab`, and inside such a part `[3*ab]`; in either `#` for the number of the
/// repetition, from 0; `␤` for a line feed, and likewise `␍`, `␉`, `␋`, `␌` and `␀` for what they
/// show.
pub fn write_short(alloc: Global, short: &str, out: &mut String) {
    let mut named = String::new(alloc);
    let mut outer = String::new(alloc);
    let mut inner = String::new(alloc);
    push_named(&mut named, short);
    push_controls(&mut outer, named.as_str());
    push_repeated(&mut inner, outer.as_str(), '{', '}');
    push_repeated(out, inner.as_str(), '[', ']');
}

/// The text that the short form stands for.
pub fn written(alloc: Global, short: &str) -> String {
    let mut text = String::new(alloc);
    write_short(alloc, short, &mut text);
    text
}

/// Adds the text with the files of networks in place of their names.
fn push_named(out: &mut String, short: &str) {
    for piece in short.split('‹') {
        let (name, behind) = piece.split_once('›').unwrap_or(("", piece));
        say(out, network_named(name));
        say(out, behind);
    }
}

fn push_controls(out: &mut String, short: &str) {
    for character in short.chars() {
        let meant = match character {
            '␤' => '\n',
            '␍' => '\r',
            '␉' => '\t',
            '␋' => '\u{b}',
            '␌' => '\u{c}',
            '␀' => '\0',
            other => other,
        };
        drop(out.push(meant));
    }
}

/// Adds the text with its parts between `open` and `close` written out.
fn push_repeated(out: &mut String, short: &str, open: char, close: char) {
    for piece in short.split(open) {
        let (part, behind) = piece.split_once(close).unwrap_or(("", piece));
        push_times(out, part);
        say(out, behind);
    }
}

/// Adds the part `3*ab` as `ababab`.
fn push_times(out: &mut String, part: &str) {
    let (times, repeated) = part.split_once('*').unwrap_or(("", ""));
    for number in 0..number_in(times) {
        push_counted(out, repeated, number);
    }
}

/// Adds the part with the number in place of each `#`.
fn push_counted(out: &mut String, part: &str, number: usize) {
    for character in part.chars() {
        match character {
            '#' => drop(write!(out, "{number}")),
            other => drop(out.push(other)),
        }
    }
}

/// The bytes of the text, with 255 in place of each `~`: a byte that stands in no text.
pub fn bytes_in(alloc: Global, text: &str) -> Vec<u8> {
    let mut bytes = Vec::new(alloc);
    for byte in text.as_bytes() {
        drop(bytes.push(if *byte == b'~' { 255 } else { *byte }));
    }
    bytes
}

/// The number that the digits spell; 0 where they spell none.
pub fn number_in(digits: &str) -> usize {
    digits.parse::<usize>().unwrap_or(0)
}

/// What stands before and behind the first ` | `.
pub fn parted(given: &str) -> (&str, &str) {
    given.split_once(" | ").unwrap_or((given, ""))
}

/// What stands before the first space, and the number behind it.
pub fn numbered(given: &str) -> (&str, usize) {
    let (word, digits) = given.split_once(" ").unwrap_or((given, ""));
    (word, number_in(digits))
}

/// Says the value that was answered.
pub fn answer_told(answer: Result<Sample, Memory>, out: &mut String) {
    match answer {
        Ok(value) => {
            drop(push_value(out, &value));
            drop(value);
        }
        Err(memory) => say_shown(out, &memory),
    }
}

/// Says what was printed.
pub fn printed_told(printed: Result<String, Memory>, out: &mut String) {
    match printed {
        Ok(text) => say(out, text.as_str()),
        Err(memory) => say_shown(out, &memory),
    }
}

// What is read is boxed: a function that lets a tree go is then proved in a second.

/// The type that the text spells.
pub fn type_in(alloc: Global, text: &str) -> Option<Box<Ty>> {
    match read_type_at(alloc, text.as_bytes(), 0, 0) {
        Ok((ty, _end)) => Box::new(alloc, ty).ok(),
        Err(_fault) => None,
    }
}

/// The value of the type that the text spells.
pub fn value_in(alloc: Global, ty: &Ty, text: &str) -> Option<Box<Sample>> {
    match read_value(alloc, text.as_bytes(), ty) {
        Ok((sample, _length)) => Box::new(alloc, sample).ok(),
        Err(_fault) => None,
    }
}

/// The expression that the text spells.
pub fn expr_in(alloc: Global, text: &str) -> Option<Box<Expr>> {
    match read_expr(alloc, text.as_bytes()) {
        Ok(expr) => Box::new(alloc, expr).ok(),
        Err(_fault) => None,
    }
}
