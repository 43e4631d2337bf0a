// Reading one value off the front of a text.

ghost use Rattle.std.specs.Prelude.{◌≡◌, ◌-◌, ◌≤◌, ◌<◌, ◌∷◌, [], false, MatchOption, length, drop, map, IfOk, IfErr};
ghost use Rattle.sample_core.specs.Reading.{Gives, begins_value, begins_with, wrong, behind_byte, behind_head, unit_at, truth_at, number_at, elements_at, part_at, pair_behind, event_behind, list_behind, value_at, reading};
ghost use Rattle.sample_core.specs.Faults.{FaultOf};
ghost use Rattle.sample_core.specs.Datum.{int, pair, event, list, list_of};
ghost use Rattle.sample_core.specs.{ValueView.datum_of, TypeView.type_of};
ghost use Rattle.sample_core.specs.TypeTree.{int_ty, pair_ty, event_ty, list_ty};
ghost use Rattle.sample_core.specs.{SpellsValue.SpellsValue, Spelling.spelling, Words.word_of};

use crate::fault::ValueFault;
use crate::front_number::front_number;
use crate::number::{is_number_spelling, number};
use crate::sample::{Sample, SampleChild, SamplePair, Samples};
use crate::ty::{Ty, TyChild};
use crate::words::{behind_form, behind_word, split_form, split_word, word_is};
use std::alloc::Global;
use std::rc::Rc;

/// Reads one value of the type at the front of the text. Answers the value and how many bytes it
/// takes. Bytes may follow it, but none that goes on its last word: no letter, digit or `-`.
///
/// A refusal is the leftmost fault, and its place is a byte of the text, counted from 0.
/// `NotAValue`: where a value must stand none of any type begins, or inside a value a space or a
/// `)` is missing. `OtherType`: a value of another type begins. `NumberRange`: a number is wanted,
/// and the one that stands there is outside 64 bits. `Memory`: allocation failed.
pub fn read_value(alloc: Global, text: &[u8], ty: &Ty) -> Result<(Sample, usize), ValueFault>
    // What is read is spelled in front.
    ensures found { IfOk result (λ x. (x.1 ≡ length (spelling (datum_of x.0)))
        × SpellsValue (datum_of x.0) (type_of ty.now) text.now (drop x.1 text.now)) }
    // A fault is where the text stops being the beginning of a value of the type.
    ensures refused { IfErr result (λ f. FaultOf f (type_of ty.now) text.now) }
    // Which of them it is, the text alone says.
    ensures exact { Gives (λ x. (datum_of x.0, x.1)) result (reading (type_of ty.now) text.now) }
    ensures within { IfOk result (λ x. x.1 ≤ length text.now) }
{
    let mut sample = Sample::Unit;
    match read_value_over(alloc, text, ty, &mut sample) {
        Ok(taken) => Ok((sample, taken)),
        Err(fault) => {
            drop(sample);
            Err(fault)
        }
    }
}

/// Reads the value in place of another. What is read stands where parts of that other stood, as far
/// as no one else holds them: so a value of the same form takes no memory. After a refusal some
/// value stands there.
pub fn read_value_over(
    alloc: Global,
    text: &[u8],
    ty: &Ty,
    place: &mut Sample,
) -> Result<usize, ValueFault>
    ensures found { IfOk result (λ n. (n ≡ length (spelling (datum_of place.new)))
        × SpellsValue (datum_of place.new) (type_of ty.now) text.now (drop n text.now)) }
    ensures refused { IfErr result (λ f. FaultOf f (type_of ty.now) text.now) }
    ensures exact { Gives (λ n. (datum_of place.new, n)) result
        (reading (type_of ty.now) text.now) }
    ensures within { IfOk result (λ n. n ≤ length text.now) }
{
    front(alloc, text, ty, place)
}

/// What `read_value_over` answers. It stands apart, since the other clauses of that contract follow
/// from its exact one.
#[tactic(auto, unfolding(crate::specs::Reading::reading))]
fn front(alloc: Global, text: &[u8], ty: &Ty, place: &mut Sample) -> Result<usize, ValueFault>
    ensures exact { Gives (λ n. (datum_of place.new, n)) result
        (reading (type_of ty.now) text.now) }
    ensures within { IfOk result (λ n. n ≤ length text.now) }
{
    let rest = value(alloc, text.len(), text, ty, place)?;
    Ok(text.len() - rest.len())
}

/// The place of the rest of a text of that size.
fn place(size: usize, rest: &[u8]) -> usize
    ensures { result ≡ size - length rest.now }
{
    size.saturating_sub(rest.len())
}

/// Whether a value of some type begins.
fn begins_some_value(text: &[u8]) -> bool
    ensures { result ≡ begins_value text.now }
{
    let (word, _) = split_word(text);
    let (head, _) = split_form(text);
    word_is(word, "unit")
        || word_is(word, "true")
        || word_is(word, "false")
        || word_is(word, "none")
        || is_number_spelling(word)
        || word_is(head, "pair")
        || word_is(head, "event")
        || word_is(head, "list")
}

/// The fault where no value of the wanted type begins.
#[cold]
#[inline(never)]
#[tactic(auto, unfolding(crate::specs::Reading::wrong))]
fn wrong_value(size: usize, text: &[u8]) -> ValueFault
    ensures { result ≡ wrong size text.now }
{
    let at = place(size, text);
    if begins_some_value(text) {
        ValueFault::OtherType { at }
    } else {
        ValueFault::NotAValue { at }
    }
}

/// What is behind the byte.
#[tactic(auto, unfolding(crate::specs::Reading::behind_byte))]
fn after_byte<'t>(size: usize, text: &'t [u8], byte: u8) -> Result<&'t [u8], ValueFault>
    ensures exact { Gives (λ rest. rest.now) result (behind_byte size byte text.now) }
    ensures shorter { IfOk result (λ rest. length rest.now ≤ length text.now) }
{
    match text {
        [first, rest @ ..] if *first == byte => Ok(rest),
        _ => Err(ValueFault::NotAValue {
            at: place(size, text),
        }),
    }
}

/// What is behind a space.
fn after_space(text: &[u8]) -> Option<&[u8]>
    ensures { MatchOption result (begins_with 32 text.now ≡ false)
        (λ rest. text.now ≡ 32 ∷ rest.now) }
{
    match text {
        [b' ', rest @ ..] => Some(rest),
        _ => None,
    }
}

/// What is behind a `(` and the name, which is one word.
#[inline(always)]
#[tactic(auto, unfolding(crate::specs::Reading::behind_head))]
fn after_head<'t>(size: usize, text: &'t [u8], name: &str) -> Result<&'t [u8], ValueFault>
    requires word { word_of name.now ≡ name.now }
    requires some { 0 < length name.now }
    ensures exact { Gives (λ rest. rest.now) result (behind_head size name.now text.now) }
    ensures shorter { IfOk result (λ rest. length rest.now ≤ length text.now) }
{
    match behind_form(text, name) {
        Some(rest) => Ok(rest),
        None => Err(wrong_value(size, text)),
    }
}

/// Reads `unit`. Answers what is behind it.
#[tactic(auto, unfolding(crate::specs::Reading::unit_at))]
fn unit<'t>(size: usize, text: &'t [u8], place: &mut Sample) -> Result<&'t [u8], ValueFault>
    ensures exact { Gives (λ rest. (datum_of place.new, rest.now)) result (unit_at size text.now) }
    ensures shorter { IfOk result (λ rest. length rest.now ≤ length text.now) }
{
    match behind_word(text, "unit") {
        Some(rest) => {
            place.put(Sample::Unit);
            Ok(rest)
        }
        None => Err(wrong_value(size, text)),
    }
}

/// Reads `true` or `false`.
#[tactic(auto, unfolding(crate::specs::Reading::truth_at))]
fn truth<'t>(size: usize, text: &'t [u8], place: &mut Sample) -> Result<&'t [u8], ValueFault>
    ensures exact { Gives (λ rest. (datum_of place.new, rest.now)) result (truth_at size text.now) }
    ensures shorter { IfOk result (λ rest. length rest.now ≤ length text.now) }
{
    if let Some(rest) = behind_word(text, "true") {
        place.put_bool(true);
        return Ok(rest);
    }
    match behind_word(text, "false") {
        Some(rest) => {
            place.put_bool(false);
            Ok(rest)
        }
        None => Err(wrong_value(size, text)),
    }
}

/// A number, and what is behind it.
#[inline(always)]
#[tactic(auto, unfolding(crate::specs::Reading::value_at))]
fn integer(size: usize, text: &[u8]) -> Result<(i64, &[u8]), ValueFault>
    ensures exact { Gives (λ x. (int x.0, x.1.now)) result (value_at size int_ty text.now) }
    ensures shorter { IfOk result (λ x. length x.1.now ≤ length text.now) }
{
    match front_number(text) {
        Some(found) => Ok(found),
        None => {
            let (n, rest) = long_integer(size, text)?;
            Ok((n, rest))
        }
    }
}

/// A number of whatever length, by its word.
#[cold]
#[inline(never)]
#[tactic(auto, unfolding(crate::specs::Reading::number_at))]
fn long_integer(size: usize, text: &[u8]) -> Result<(i64, &[u8]), ValueFault>
    ensures exact { Gives (λ x. (int x.0, x.1.now)) result (number_at size text.now) }
    ensures shorter { IfOk result (λ x. length x.1.now ≤ length text.now) }
{
    let (word, rest) = split_word(text);
    if !is_number_spelling(word) {
        return Err(wrong_value(size, text));
    }
    match number(word) {
        Some(n) => Ok((n, rest)),
        None => Err(ValueFault::NumberRange {
            at: place(size, text),
        }),
    }
}

/// Reads a number as a value.
#[inline(always)]
fn number_sample<'t>(
    size: usize,
    text: &'t [u8],
    place: &mut Sample,
) -> Result<&'t [u8], ValueFault>
    ensures exact { Gives (λ rest. (datum_of place.new, rest.now)) result
        (value_at size int_ty text.now) }
    ensures shorter { IfOk result (λ rest. length rest.now ≤ length text.now) }
{
    let (n, rest) = integer(size, text)?;
    place.put_int(n);
    Ok(rest)
}

/// Adds numbers, each behind a space, as long as a space stands there. Answers what is behind them.
fn numbers<'t>(size: usize, text: &'t [u8], all: &mut Vec<Sample>) -> Result<&'t [u8], ValueFault>
    requires { all.old.items ≡ [] }
    ensures exact { Gives (λ rest. (map datum_of all.new.items, rest.now)) result
        (elements_at (value_at size int_ty) (length text.now) text.now) }
    ensures shorter { IfOk result (λ rest. length rest.now ≤ length text.now) }
{
    let mut rest = text;
    while let Some(element) = after_space(rest) {
        let (n, after) = integer(size, element)?;
        all.push(Sample::Int(n))?;
        rest = after;
    }
    Ok(rest)
}

/// Reads a value of the type into the place of another. Answers what is behind it.
#[cycle(value)]
#[tactic(auto, unfolding(crate::specs::Reading::value_at))]
fn value<'t>(
    alloc: Global,
    size: usize,
    text: &'t [u8],
    ty: &Ty,
    place: &mut Sample,
) -> Result<&'t [u8], ValueFault>
    ensures exact { Gives (λ rest. (datum_of place.new, rest.now)) result
        (value_at size (type_of ty.now) text.now) }
    ensures shorter { IfOk result (λ rest. length rest.now ≤ length text.now) }
{
    match ty {
        Ty::Unit => unit(size, text, place),
        Ty::Bool => truth(size, text, place),
        Ty::Int => number_sample(size, text, place),
        Ty::Pair(a, b) => pair(alloc, size, text, a, b, place),
        Ty::Event(a) => event(alloc, size, text, a, place),
        Ty::List(a) => list(alloc, size, text, a, place),
    }
}

/// Reads a pair of values of the types.
#[cycle(value)]
#[tactic(auto, unfolding(crate::specs::Reading::value_at))]
fn pair<'t>(
    alloc: Global,
    size: usize,
    text: &'t [u8],
    a: &TyChild,
    b: &TyChild,
    place: &mut Sample,
) -> Result<&'t [u8], ValueFault>
    ensures exact { Gives (λ rest. (datum_of place.new, rest.now)) result
        (value_at size (pair_ty a.now b.now) text.now) }
    ensures shorter { IfOk result (λ rest. length rest.now ≤ length text.now) }
{
    let rest = after_head(size, text, "pair")?;
    if let Sample::Pair(there) = place {
        if let Some(parts) = Rc::get_mut(&mut there.parts) {
            return both(alloc, size, rest, a, b, parts);
        }
    }
    new_pair(alloc, size, rest, a, b, place)
}

/// Reads a pair behind its word, into a place of its own.
#[cycle(value)]
#[inline(never)]
fn new_pair<'t>(
    alloc: Global,
    size: usize,
    text: &'t [u8],
    a: &TyChild,
    b: &TyChild,
    place: &mut Sample,
) -> Result<&'t [u8], ValueFault>
    ensures exact { Gives (λ rest. (datum_of place.new, rest.now)) result
        (pair_behind size a.now b.now text.now) }
    ensures shorter { IfOk result (λ rest. length rest.now ≤ length text.now) }
{
    let mut parts = (Sample::Unit, Sample::Unit);
    match both(alloc, size, text, a, b, &mut parts) {
        Ok(rest) => {
            let (first, second) = parts;
            let parts = SamplePair::new(alloc, first, second)?;
            place.put(Sample::Pair(parts));
            Ok(rest)
        }
        Err(fault) => {
            drop(parts);
            Err(fault)
        }
    }
}

/// Reads both parts of a pair, and the `)` that ends it.
#[cycle(value)]
#[inline(always)]
fn both<'t>(
    alloc: Global,
    size: usize,
    text: &'t [u8],
    a: &TyChild,
    b: &TyChild,
    parts: &mut (Sample, Sample),
) -> Result<&'t [u8], ValueFault>
    ensures exact { Gives (λ rest. (pair (datum_of parts.new.0) (datum_of parts.new.1), rest.now))
        result (pair_behind size a.now b.now text.now) }
    ensures shorter { IfOk result (λ rest. length rest.now ≤ length text.now) }
{
    let rest = part(alloc, size, text, a, &mut parts.0)?;
    let rest = part(alloc, size, rest, b, &mut parts.1)?;
    after_byte(size, rest, b')')
}

/// Reads an event of the type, or none.
#[cycle(value)]
#[tactic(auto, unfolding(crate::specs::Reading::value_at))]
fn event<'t>(
    alloc: Global,
    size: usize,
    text: &'t [u8],
    ty: &TyChild,
    place: &mut Sample,
) -> Result<&'t [u8], ValueFault>
    ensures exact { Gives (λ rest. (datum_of place.new, rest.now)) result
        (value_at size (event_ty ty.now) text.now) }
    ensures shorter { IfOk result (λ rest. length rest.now ≤ length text.now) }
{
    if let Some(rest) = behind_word(text, "none") {
        place.put(Sample::NoEvent);
        return Ok(rest);
    }
    let rest = after_head(size, text, "event")?;
    if let Sample::Event(there) = place {
        if let Some(inner) = there.get_mut() {
            return carried(alloc, size, rest, ty, inner);
        }
    }
    new_event(alloc, size, rest, ty, place)
}

/// Reads an event behind its word, where what it carries takes a place of its own.
#[cycle(value)]
#[inline(never)]
fn new_event<'t>(
    alloc: Global,
    size: usize,
    text: &'t [u8],
    ty: &TyChild,
    place: &mut Sample,
) -> Result<&'t [u8], ValueFault>
    ensures exact { Gives (λ rest. (datum_of place.new, rest.now)) result
        (event_behind size ty.now text.now) }
    ensures shorter { IfOk result (λ rest. length rest.now ≤ length text.now) }
{
    let mut inner = Sample::Unit;
    match carried(alloc, size, text, ty, &mut inner) {
        Ok(rest) => {
            let inner = SampleChild::new(alloc, inner)?;
            place.put(Sample::Event(inner));
            Ok(rest)
        }
        Err(fault) => {
            drop(inner);
            Err(fault)
        }
    }
}

/// Reads what an event carries, and the `)` that ends it.
#[cycle(value)]
#[inline(always)]
fn carried<'t>(
    alloc: Global,
    size: usize,
    text: &'t [u8],
    ty: &TyChild,
    inner: &mut Sample,
) -> Result<&'t [u8], ValueFault>
    ensures exact { Gives (λ rest. (event (datum_of inner.new), rest.now)) result
        (event_behind size ty.now text.now) }
    ensures shorter { IfOk result (λ rest. length rest.now ≤ length text.now) }
{
    let rest = part(alloc, size, text, ty, inner)?;
    after_byte(size, rest, b')')
}

/// Reads a list of values of the type.
#[cycle(value)]
#[tactic(auto, unfolding(crate::specs::Reading::value_at))]
fn list<'t>(
    alloc: Global,
    size: usize,
    text: &'t [u8],
    ty: &TyChild,
    place: &mut Sample,
) -> Result<&'t [u8], ValueFault>
    ensures exact { Gives (λ rest. (datum_of place.new, rest.now)) result
        (value_at size (list_ty ty.now) text.now) }
    ensures shorter { IfOk result (λ rest. length rest.now ≤ length text.now) }
{
    let rest = after_head(size, text, "list")?;
    if let Sample::List(there) = place {
        if let Some(all) = Rc::get_mut(&mut there.all) {
            all.clear();
            return items(alloc, size, rest, ty, all);
        }
    }
    new_list(alloc, size, rest, ty, place)
}

/// Reads a list behind its word, where the elements take a place of their own.
#[cycle(value)]
#[inline(never)]
fn new_list<'t>(
    alloc: Global,
    size: usize,
    text: &'t [u8],
    ty: &TyChild,
    place: &mut Sample,
) -> Result<&'t [u8], ValueFault>
    ensures exact { Gives (λ rest. (datum_of place.new, rest.now)) result
        (list_behind size ty.now text.now) }
    ensures shorter { IfOk result (λ rest. length rest.now ≤ length text.now) }
{
    let mut all = Vec::new(alloc);
    match items(alloc, size, text, ty, &mut all) {
        Ok(rest) => {
            let all = Samples::new(alloc, all)?;
            place.put(Sample::List(all));
            Ok(rest)
        }
        Err(fault) => {
            drop(all);
            Err(fault)
        }
    }
}

/// Adds the elements of a list to none, and reads the `)` that ends it.
#[cycle(value)]
fn items<'t>(
    alloc: Global,
    size: usize,
    text: &'t [u8],
    ty: &TyChild,
    all: &mut Vec<Sample>,
) -> Result<&'t [u8], ValueFault>
    requires { all.old.items ≡ [] }
    ensures exact { Gives (λ rest. (list (list_of (map datum_of all.new.items)), rest.now)) result
        (list_behind size ty.now text.now) }
    ensures shorter { IfOk result (λ rest. length rest.now ≤ length text.now) }
{
    let rest = match ty.get() {
        Ty::Int => numbers(size, text, all)?,
        ty => elements(alloc, size, text, ty, all)?,
    };
    after_byte(size, rest, b')')
}

/// Reads a space and a value of the type: a number is read at once.
#[cycle(value)]
#[inline(always)]
#[tactic(auto, unfolding(crate::specs::Reading::value_at))]
fn part<'t>(
    alloc: Global,
    size: usize,
    text: &'t [u8],
    ty: &TyChild,
    place: &mut Sample,
) -> Result<&'t [u8], ValueFault>
    ensures exact { Gives (λ rest. (datum_of place.new, rest.now)) result
        (part_at size ty.now text.now) }
    ensures shorter { IfOk result (λ rest. length rest.now ≤ length text.now) }
{
    let rest = after_byte(size, text, b' ')?;
    match ty.get() {
        Ty::Int => number_sample(size, rest, place),
        ty => value(alloc, size, rest, ty, place),
    }
}

/// Adds elements of the type, each behind a space, as long as a space stands there. Answers what is
/// behind them.
#[cycle(value)]
fn elements<'t>(
    alloc: Global,
    size: usize,
    text: &'t [u8],
    ty: &Ty,
    all: &mut Vec<Sample>,
) -> Result<&'t [u8], ValueFault>
    requires { all.old.items ≡ [] }
    ensures exact { Gives (λ rest. (map datum_of all.new.items, rest.now)) result
        (elements_at (value_at size (type_of ty.now)) (length text.now) text.now) }
    ensures shorter { IfOk result (λ rest. length rest.now ≤ length text.now) }
{
    let mut rest = text;
    while let Some(element) = after_space(rest) {
        let mut sample = Sample::Unit;
        match value(alloc, size, element, ty, &mut sample) {
            Ok(after) => {
                all.push(sample)?;
                rest = after;
            }
            Err(fault) => {
                drop(sample);
                return Err(fault);
            }
        }
    }
    Ok(rest)
}
