// What the words of options tell: a number of steps, a position, what names begin with, and how many
// elements lists have.

ghost use Rattle.std.specs.Prelude.{◌≡◌, ◌↔◌, IfErr, IfOk, IsTrue, true, map, option_map, string_bytes};
ghost use Rattle.net_tree.specs.LawStep.{step_of};
ghost use Rattle.net_tree.specs.Position.{position_spelling};
ghost use Rattle.net_text.specs.CertificatePrinting.{ChildrenFit};
ghost use Rattle.yampa_run.specs.Laws.{IsNowhere};
ghost use Rattle.yampa_run.specs.Apply.{IsNoNumber};
ghost use Rattle.yampa_run.specs.Compile.{IsNoMost, IsNoName};
ghost use Rattle.yampa_run.specs.Words.{IsPlaceIn, IsPlaceOfStep, TellsFirst, TellsMost, TellsName, TellsPlace, begins_name, is_digits_word, is_most, is_name, is_name_byte, most_in, number_in, parts_from, placed_file};

use crate::preparation::{Refusal, refusal_with};
use leaf_expr::MOST_INDEX;
use net_text::read_cert;
use net_tree::{LawStep, Position, push_position};
use sample_core::{Memory, push_word};
use std::alloc::Global;

/// The most bytes that the word of a position may have.
const MOST_PLACE: usize = 1_000_000;

/// The most bytes that the word of a name may have.
const MOST_NAME: usize = 32;

/// The most elements that a line of a stream can hold.
const MOST_ELEMENTS: usize = 32_765;

/// How many steps are to be taken, by that word; `None`, for all, where there is no word. Refused
/// with status 2 where the word is no number.
pub(crate) fn first_of(alloc: Global, word: Option<&str>) -> Result<Option<usize>, Refusal>
    ensures first { IfOk result (TellsFirst (option_map (λ w. w.now) word.entry)) }
    ensures refused { IfErr result (IsNoNumber (option_map (λ w. w.now) word.entry)) }
{
    let Some(word) = word else {
        return Ok(None);
    };
    match number_in(word) {
        Some(number) => Ok(Some(number)),
        None => Err(refusal_with(alloc, 2, "--first: no number")),
    }
}

/// What all names begin with, by that word; `yampa`, where there is no word. Refused with status 2
/// where no name may begin so.
pub(crate) fn name_of<'a>(alloc: Global, word: Option<&'a str>) -> Result<&'a str, Refusal>
    ensures name { IfOk result (λ name. TellsName (option_map (λ w. w.now) word.entry) name.now) }
    ensures refused { IfErr result (IsNoName (option_map (λ w. w.now) word.entry)) }
{
    let Some(word) = word else {
        return Ok("yampa");
    };
    if is_name(word) {
        Ok(word)
    } else {
        Err(refusal_with(alloc, 2, "--name: no name"))
    }
}

/// Whether names may begin with the word: at most 32 letters and digits, of which the first is a letter, in
/// parts between which one `_` stands.
fn is_name(word: &str) -> bool
    ensures { result ≡ is_name word.now }
{
    word.len() <= MOST_NAME && begins_name(word.as_bytes()) && has_parts(word.as_bytes())
}

/// Whether there is a first byte, and it is no digit.
fn begins_name(bytes: &[u8]) -> bool
    ensures { result ≡ begins_name bytes.now }
{
    match bytes.first() {
        Some(first) => !first.is_ascii_digit(),
        None => false,
    }
}

/// Whether all are letters and digits, in parts between which one `_` stands.
fn has_parts(bytes: &[u8]) -> bool
    ensures { result ≡ parts_from true bytes.now }
{
    let mut begins = true;
    for byte in bytes {
        if !is_name_byte(*byte, begins) {
            return false;
        }
        begins = *byte == b'_';
    }
    !begins
}

/// Whether it is a letter or a digit, or a `_` where no part begins.
fn is_name_byte(byte: u8, begins: bool) -> bool
    ensures { result ≡ is_name_byte byte begins }
{
    byte.is_ascii_alphanumeric() || (byte == b'_' && !begins)
}

/// How many elements a list of the input may have, by that word; as many as a line can hold, where
/// there is no word. Refused with status 2 where the word is no number from 1 to that.
pub(crate) fn most_of(alloc: Global, word: Option<&str>) -> Result<usize, Refusal>
    ensures most { IfOk result (TellsMost (option_map (λ w. w.now) word.entry)) }
    ensures refused { IfErr result (IsNoMost (option_map (λ w. w.now) word.entry)) }
{
    let Some(word) = word else {
        return Ok(MOST_ELEMENTS);
    };
    match most_in(word) {
        Some(most) => Ok(most),
        None => Err(refusal_with(alloc, 2, "--most: no number")),
    }
}

/// The number of elements that the word is, if it is one.
fn most_in(word: &str) -> Option<usize>
    ensures { result ≡ most_in word.now }
{
    let number = number_in(word)?;
    if is_most(number) { Some(number) } else { None }
}

/// Whether a list may have so many elements at most.
fn is_most(number: usize) -> bool
    ensures { result ≡ is_most number }
{
    1 <= number && number <= MOST_ELEMENTS
}

/// The number that a word of digits is, or the largest that there is, where it is larger. `None` if
/// the word is no number.
fn number_in(word: &str) -> Option<usize>
    ensures { result ≡ number_in word.now }
{
    if !is_number(word) {
        return None;
    }
    match word.parse::<usize>() {
        Ok(number) => Some(number),
        Err(_) => Some(usize::MAX),
    }
}

/// Whether the word is digits, and at least one.
fn is_number(word: &str) -> bool
    ensures { result ≡ is_digits_word word.now }
{
    for byte in word.as_bytes() {
        if !byte.is_ascii_digit() {
            return false;
        }
    }
    !word.is_empty()
}

/// The position that the word is, as positions are printed; the root, where there is no word.
/// Refused with status 2 where the word is no position.
pub(crate) fn place_of(alloc: Global, word: Option<&str>) -> Result<Position, Refusal>
    ensures place { IfOk result (TellsPlace (option_map (λ w. w.now) word.entry)) }
    ensures refused { IfErr result (IsNowhere (option_map (λ w. w.now) word.entry)) }
{
    let Some(word) = word else {
        return Ok(Position::new(Vec::new(alloc)));
    };
    match place_in(alloc, word)? {
        Some(place) => Ok(place),
        None => Err(refusal_with(alloc, 2, "--at: no position")),
    }
}

/// The position that the word is, if it is one: it is read as that of a step of a certificate.
fn place_in(alloc: Global, word: &str) -> Result<Option<Position>, Memory>
    ensures { IfOk result (IsPlaceIn word.now) }
{
    if word.len() > MOST_PLACE {
        return Ok(None);
    }
    let text = placed_file(alloc, word)?;
    match read_cert(alloc, text.as_bytes()) {
        Ok(steps) => {
            let place = place_of_first(alloc, word, &steps);
            drop(steps);
            place
        }
        Err(fault) => {
            fault.unless_memory()?;
            Ok(None)
        }
    }
}

/// The certificate of a step at the place of a word.
fn placed_file(alloc: Global, word: &str) -> Result<String, Memory>
    ensures { IfOk result (λ text. string_bytes text ≡ placed_file word.now) }
{
    let mut text = String::from_str(alloc, "laws 1\n(step L1 forward ")?;
    push_word(&mut text, word)?;
    push_word(&mut text, ")\n")?;
    Ok(text)
}

/// The position of the first step, if it is the word.
fn place_of_first(alloc: Global, word: &str, steps: &[LawStep]) -> Result<Option<Position>, Memory>
    ensures { IfOk result (IsPlaceOfStep word.now (map step_of steps.now)) }
{
    let Some(step) = steps.first() else {
        return Ok(None);
    };
    if is_place(alloc, word, &step.position)? {
        Ok(Some(step.position.try_copy(alloc)?))
    } else {
        Ok(None)
    }
}

/// Whether the word is the position as it is printed, with child numbers that files may have.
fn is_place(alloc: Global, word: &str, position: &Position) -> Result<bool, Memory>
    ensures { IfOk result (λ is. IsTrue is
        ↔ (ChildrenFit position.now × (word.now ≡ position_spelling position.now))) }
{
    let mut spelling = String::new(alloc);
    push_position(&mut spelling, position)?;
    Ok(fit(position.path()) && word == spelling.as_str())
}

/// Whether files may have the child numbers.
fn fit(children: &[u32]) -> bool
    ensures { IsTrue result ↔ ChildrenFit children.now }
{
    for &child in children {
        if u64::from(child) > MOST_INDEX {
            return false;
        }
    }
    true
}
