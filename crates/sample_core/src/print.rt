// The one spelling of values and of types.

ghost use Rattle.std.specs.Prelude.{◌≡◌, ◌++◌, [], ◌∷◌, ◌<◌, ◌+◌, ◌/◌, ◌%◌, IfOk, codes, string_bytes};
ghost use Rattle.std.specs.Fmt.{decimal, signed_decimal};
ghost use Rattle.sample_core.specs.{Adding.Adds, Datum.list, Datum.list_of, ValueView.datum_of, TypeView.type_of};
ghost use Rattle.sample_core.specs.Spelling.{spelling, type_spelling};

use crate::memory::Memory;
use crate::sample::{Sample, Samples};
use crate::ty::{Ty, TyChild};
use itoa::Buffer;
use std::alloc::Global;

/// The value's one spelling, as a new text. `Memory` if allocation fails.
pub fn print_value(alloc: Global, sample: &Sample) -> Result<String, Memory>
    ensures { IfOk result (λ text. string_bytes text ≡ spelling (datum_of sample.now)) }
{
    let mut text = String::new(alloc);
    push_value(&mut text, sample)?;
    Ok(text)
}

/// The type's one spelling, as a new text. `Memory` if allocation fails.
pub fn print_type(alloc: Global, ty: &Ty) -> Result<String, Memory>
    ensures { IfOk result (λ text. string_bytes text ≡ type_spelling (type_of ty.now)) }
{
    let mut text = String::new(alloc);
    push_type(&mut text, ty)?;
    Ok(text)
}

/// Adds the value's one spelling to the end of the text. `Memory` if allocation fails; the text may
/// then end with a part of it.
#[cycle(push_value)]
pub fn push_value(text: &mut String, sample: &Sample) -> Result<(), Memory>
    ensures { Adds result (string_bytes text.old) (string_bytes text.new)
        (spelling (datum_of sample.now)) }
{
    match sample {
        Sample::Unit => push_word(text, "unit"),
        Sample::Bool(true) => push_word(text, "true"),
        Sample::Bool(false) => push_word(text, "false"),
        Sample::Int(n) => push_number(text, *n),
        Sample::Pair(parts) => {
            push_word(text, "(pair ")?;
            push_part(text, parts.first())?;
            push_last(text, " ", parts.second())
        }
        Sample::NoEvent => push_word(text, "none"),
        Sample::Event(v) => push_last(text, "(event ", v.get()),
        Sample::List(all) => push_list(text, all),
    }
}

/// Adds a word to the end of the text. `Memory` if allocation fails.
#[inline(always)]
pub fn push_word(text: &mut String, word: &str) -> Result<(), Memory>
    ensures { Adds result (string_bytes text.old) (string_bytes text.new) word.now }
{
    text.push_str(word)?;
    Ok(())
}

/// Adds a sign of ASCII to the end of the text.
#[inline(never)]
fn push_sign(text: &mut String, sign: u8) -> Result<(), Memory>
    requires { sign < 128 }
    ensures { Adds result (string_bytes text.old) (string_bytes text.new) (sign ∷ []) }
{
    text.push(char::from(sign))?;
    Ok(())
}

/// Adds a number to the end of the text: one below 100, as most are, without a call for its digits.
#[inline(always)]
fn push_number(text: &mut String, n: i64) -> Result<(), Memory>
    ensures { Adds result (string_bytes text.old) (string_bytes text.new) (signed_decimal n) }
{
    if 0 <= n && n < 100 {
        push_short_number(text, n as u64)
    } else {
        push_longer_number(text, n)
    }
}

/// Adds any number to the end of the text: one of three or four digits, two by two.
#[inline(never)]
#[tactic(auto, using(std::proofs::lemmas::Grind::common_steps, crate::proofs::ShortNumbers::decimal_pair))]
fn push_longer_number(text: &mut String, n: i64) -> Result<(), Memory>
    ensures { Adds result (string_bytes text.old) (string_bytes text.new) (signed_decimal n) }
{
    if 100 <= n && n < 10_000 {
        push_short_number(text, n as u64 / 100)?;
        push_digits(text, n as u64 % 100)
    } else {
        push_long_number(text, n)
    }
}

/// Adds a number below 100 to the end of the text.
#[inline(never)]
#[tactic(auto, using(std::proofs::lemmas::Grind::common_steps, std::proofs::lemmas::Fmt::decimal_digit, crate::proofs::ShortNumbers::decimal_two))]
fn push_short_number(text: &mut String, n: u64) -> Result<(), Memory>
    requires { n < 100 }
    ensures { Adds result (string_bytes text.old) (string_bytes text.new) (decimal n) }
{
    if n < 10 {
        push_digit(text, n)
    } else {
        push_digits(text, n)
    }
}

/// Adds the two digits of a number below 100 to the end of the text.
#[inline(always)]
fn push_digits(text: &mut String, n: u64) -> Result<(), Memory>
    requires { n < 100 }
    ensures { Adds result (string_bytes text.old) (string_bytes text.new)
        ((48 + n / 10) ∷ (48 + n % 10) ∷ []) }
{
    push_digit(text, n / 10)?;
    push_digit(text, n % 10)
}

/// Adds a digit to the end of the text.
#[inline(always)]
fn push_digit(text: &mut String, n: u64) -> Result<(), Memory>
    requires { n < 10 }
    ensures { Adds result (string_bytes text.old) (string_bytes text.new) ((48 + n) ∷ []) }
{
    text.push(char::from(b'0' + n as u8))?;
    Ok(())
}

/// Adds any number to the end of the text. Its digits have room in this frame alone.
#[inline(never)]
fn push_long_number(text: &mut String, n: i64) -> Result<(), Memory>
    ensures { Adds result (string_bytes text.old) (string_bytes text.new) (signed_decimal n) }
{
    push_word(text, Buffer::new().format(n))
}

/// A value inside another: a number is added at once.
#[cycle(push_value)]
#[inline(always)]
fn push_part(text: &mut String, v: &Sample) -> Result<(), Memory>
    ensures { Adds result (string_bytes text.old) (string_bytes text.new)
        (spelling (datum_of v.now)) }
{
    match v {
        Sample::Int(n) => push_number(text, *n),
        _ => push_value(text, v),
    }
}

/// The last part of a value, behind a word.
#[cycle(push_value)]
#[inline(always)]
fn push_last(text: &mut String, word: &str, v: &Sample) -> Result<(), Memory>
    ensures { Adds result (string_bytes text.old) (string_bytes text.new)
        (word.now ++ (spelling (datum_of v.now) ++ codes ")")) }
{
    push_word(text, word)?;
    push_part(text, v)?;
    push_sign(text, b')')
}

/// A list.
#[cycle(push_value)]
fn push_list(text: &mut String, all: &Samples) -> Result<(), Memory>
    ensures { Adds result (string_bytes text.old) (string_bytes text.new)
        (spelling (list (list_of all.now))) }
{
    push_word(text, "(list")?;
    for v in all.as_slice() {
        push_next(text, v)?;
    }
    push_sign(text, b')')
}

/// A value behind a space.
#[cycle(push_value)]
#[inline(always)]
fn push_next(text: &mut String, v: &Sample) -> Result<(), Memory>
    ensures { Adds result (string_bytes text.old) (string_bytes text.new)
        (codes " " ++ spelling (datum_of v.now)) }
{
    push_sign(text, b' ')?;
    push_part(text, v)
}

/// Adds the type's one spelling to the end of the text. `Memory` if allocation fails; the text may
/// then end with a part of it.
#[cycle(push_type)]
pub fn push_type(text: &mut String, ty: &Ty) -> Result<(), Memory>
    ensures { Adds result (string_bytes text.old) (string_bytes text.new)
        (type_spelling (type_of ty.now)) }
{
    match ty {
        Ty::Unit => push_word(text, "Unit"),
        Ty::Bool => push_word(text, "Bool"),
        Ty::Int => push_word(text, "Int"),
        Ty::Pair(a, b) => {
            push_word(text, "(Pair ")?;
            push_type(text, a.get())?;
            push_last_type(text, " ", b)
        }
        Ty::Event(a) => push_last_type(text, "(Event ", a),
        Ty::List(a) => push_last_type(text, "(List ", a),
    }
}

/// The last part of a type, behind a word.
#[cycle(push_type)]
fn push_last_type(text: &mut String, word: &str, a: &TyChild) -> Result<(), Memory>
    ensures { Adds result (string_bytes text.old) (string_bytes text.new)
        (word.now ++ (type_spelling a.now ++ codes ")")) }
{
    push_word(text, word)?;
    push_type(text, a.get())?;
    push_word(text, ")")
}
