// Prints types and literals.

ghost use Rattle.std.specs.Prelude.{◌≡◌, ◌++◌, [], codes, IfOk, string_bytes};
ghost use Rattle.c_text.specs.declared.name.Name.TheVariants as N;
ghost use Rattle.c_text.specs.NameText.{name_text};
ghost use Rattle.c_text.specs.TypeText.{all_empty, base_of, base_text, count_text, declared_text, empties, is_empty, literal_text, of_base, scalar_text, signed_text, truth_text, type_text, zero_text, zeroed_base, zeroed_text};

use crate::name::{Name, push_name};
use crate::tree::{Base, CType, Literal, Scalar, Struct};
use std::alloc::{AllocError, Global};

/// The name of a type of numbers.
pub(crate) fn scalar_word(scalar: Scalar) -> &'static str
    ensures { result.now ≡ scalar_text scalar }
{
    match scalar {
        Scalar::Uint8 => "uint8_t",
        Scalar::Int64 => "int64_t",
        Scalar::Uint64 => "uint64_t",
        Scalar::Uint32 => "uint32_t",
    }
}

/// The number 0 of a type.
fn zero_word(scalar: Scalar) -> &'static str
    ensures { result.now ≡ zero_text scalar }
{
    match scalar {
        Scalar::Uint8 => "UINT8_C(0)",
        Scalar::Int64 => "INT64_C(0)",
        Scalar::Uint64 => "UINT64_C(0)",
        Scalar::Uint32 => "UINT32_C(0)",
    }
}

/// A truth.
fn truth_word(truth: bool) -> &'static str
    ensures { result.now ≡ truth_text truth }
{
    if truth { "true" } else { "false" }
}

/// Of arrays, the type of their elements.
pub(crate) fn base_of(ty: CType) -> Base
    ensures { result ≡ base_of ty }
{
    match ty {
        CType::One(base) => base,
        CType::Array(_, base) | CType::Grid(_, _, base) => base,
    }
}

/// Adds a type that is no array.
fn push_base(text: &mut String, prefix: &str, base: Base) -> Result<(), AllocError>
    ensures { IfOk result (λ _. string_bytes text.new
        ≡ string_bytes text.old ++ base_text prefix.now base) }
{
    match base {
        Base::Bool => text.push_str("bool")?,
        Base::Number(scalar) => text.push_str(scalar_word(scalar))?,
        Base::Struct(k) => {
            text.push_str("struct ")?;
            push_name(text, prefix, Name::Struct(k))?;
        }
    }
    Ok(())
}

/// Adds a type, of arrays that of their elements.
pub(crate) fn push_type(text: &mut String, prefix: &str, ty: CType) -> Result<(), AllocError>
    ensures { IfOk result (λ _. string_bytes text.new
        ≡ string_bytes text.old ++ type_text prefix.now ty) }
{
    push_base(text, prefix, base_of(ty))
}

/// Adds how many there are.
fn push_count(text: &mut String, ty: CType) -> Result<(), AllocError>
    ensures { IfOk result (λ _. string_bytes text.new ≡ string_bytes text.old ++ count_text ty) }
{
    match ty {
        CType::One(_) => {}
        CType::Array(n, _) => write!(text, "[{n}]")?,
        CType::Grid(m, n, _) => write!(text, "[{m}][{n}]")?,
    }
    Ok(())
}

/// Adds what is declared: its type and its name.
pub(crate) fn push_declared(
    text: &mut String,
    prefix: &str,
    ty: CType,
    name: Name,
) -> Result<(), AllocError>
    ensures { IfOk result (λ _. string_bytes text.new
        ≡ string_bytes text.old ++ declared_text prefix.now ty name) }
{
    push_type(text, prefix, ty)?;
    text.push_str(" ")?;
    push_name(text, prefix, name)?;
    push_count(text, ty)
}

/// Adds an `int64_t`.
fn push_signed(text: &mut String, n: i64) -> Result<(), AllocError>
    ensures { IfOk result (λ _. string_bytes text.new ≡ string_bytes text.old ++ signed_text n) }
{
    if n == i64::MIN {
        text.push_str("INT64_MIN")?;
    } else {
        write!(text, "INT64_C({n})")?;
    }
    Ok(())
}

/// Adds a literal.
pub(crate) fn push_literal(text: &mut String, literal: Literal) -> Result<(), AllocError>
    ensures { IfOk result (λ _. string_bytes text.new
        ≡ string_bytes text.old ++ literal_text literal) }
{
    match literal {
        Literal::Bool(b) => text.push_str(truth_word(b))?,
        Literal::Uint8(n) => write!(text, "UINT8_C({n})")?,
        Literal::Int64(n) => push_signed(text, n)?,
        Literal::Uint64(n) => write!(text, "UINT64_C({n})")?,
        Literal::Uint32(n) => write!(text, "UINT32_C({n})")?,
    }
    Ok(())
}

/// Adds what stands before braces that are no initialiser: their type.
pub(crate) fn push_of(text: &mut String, prefix: &str, base: Base) -> Result<(), AllocError>
    ensures { IfOk result (λ _. string_bytes text.new
        ≡ string_bytes text.old ++ of_base prefix.now base) }
{
    match base {
        Base::Bool => text.push_str("(bool)")?,
        Base::Number(scalar) => {
            let word = scalar_word(scalar);
            write!(text, "({word})")?;
        }
        Base::Struct(k) => push_macro(text, prefix, Name::Of, k)?,
    }
    Ok(())
}

/// Adds a macro of struct k.
fn push_macro(text: &mut String, prefix: &str, name: Name, k: usize) -> Result<(), AllocError>
    ensures { IfOk result (λ _. string_bytes text.new ≡ string_bytes text.old
        ++ (name_text prefix.now name
        ++ (codes "(" ++ (name_text prefix.now (N.Struct k) ++ codes ")")))) }
{
    push_name(text, prefix, name)?;
    text.push_str("(")?;
    push_name(text, prefix, Name::Struct(k))?;
    text.push_str(")")?;
    Ok(())
}

/// Adds the zeros of a type that is no array.
fn push_zeroed_base(text: &mut String, prefix: &str, base: Base) -> Result<(), AllocError>
    ensures { IfOk result (λ _. string_bytes text.new
        ≡ string_bytes text.old ++ zeroed_base prefix.now base) }
{
    match base {
        Base::Bool => text.push_str("false")?,
        Base::Number(scalar) => text.push_str(zero_word(scalar))?,
        Base::Struct(k) => push_macro(text, prefix, Name::Zeros, k)?,
    }
    Ok(())
}

/// Adds the zeros of a type.
pub(crate) fn push_zeroed(text: &mut String, prefix: &str, ty: CType) -> Result<(), AllocError>
    ensures { IfOk result (λ _. string_bytes text.new
        ≡ string_bytes text.old ++ zeroed_text prefix.now ty) }
{
    match ty {
        CType::One(base) => push_zeroed_base(text, prefix, base)?,
        CType::Array(_, base) => {
            text.push_str("{")?;
            push_zeroed_base(text, prefix, base)?;
            text.push_str("}")?;
        }
        CType::Grid(_, _, base) => {
            text.push_str("{{")?;
            push_zeroed_base(text, prefix, base)?;
            text.push_str("}}")?;
        }
    }
    Ok(())
}

/// Whether a type has no member at all; `empty` says which structs have none.
pub(crate) fn is_empty(empty: &[bool], ty: CType) -> bool
    ensures { result ≡ is_empty empty.now ty }
{
    match base_of(ty) {
        Base::Struct(k) => match empty.get(k) {
            Some(b) => *b,
            None => false,
        },
        Base::Bool | Base::Number(_) => false,
    }
}

/// Whether none of these has a member.
fn all_empty(empty: &[bool], types: &[CType]) -> bool
    ensures { result ≡ all_empty empty.now types.now }
{
    for ty in types {
        if !is_empty(empty, *ty) {
            return false;
        }
    }
    true
}

/// Which structs have no member.
pub fn empties(alloc: Global, structs: &[Struct]) -> Result<Vec<bool>, AllocError>
    ensures { IfOk result (λ empty. empty.items ≡ empties structs.now) }
{
    let mut empty = Vec::with_capacity(alloc, structs.len())?;
    for each in structs {
        let is_empty = all_empty(empty.as_slice(), each.members.as_slice());
        empty.push(is_empty)?;
    }
    Ok(empty)
}
