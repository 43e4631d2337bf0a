// Prints expressions.

ghost use Rattle.std.specs.Prelude.{◌≡◌, ◌++◌, codes, IfOk, string_bytes};
ghost use Rattle.c_text.specs.TermText.{address_text, braces_text, comma_text, elements_text, has_none, has_operator, is_pointer, local_text, operand_text, operator_text, owner_text, pointed_text, term_text, valued_text};

use crate::name::{Name, push_name};
use crate::place::{kind_of, place_type};
use crate::tree::{CType, Local, Operator, Struct, Term};
use crate::types::{base_of, push_literal, push_of, push_zeroed, scalar_word};
use std::alloc::AllocError;

/// What an expression stands under: the prefix of names, the structs, and the locals.
#[derive(Clone, Copy)]
pub(crate) struct Scope<'a> {
    pub prefix: &'a str,
    pub structs: &'a [Struct],
    pub locals: &'a [Local],
}

/// An operator, between its operands.
fn operator_word(operator: Operator) -> &'static str
    ensures { result.now ≡ operator_text operator }
{
    match operator {
        Operator::Plus => " + ",
        Operator::Minus => " - ",
        Operator::Times => " * ",
        Operator::Remainder => " % ",
        Operator::Less => " < ",
        Operator::AtMost => " <= ",
        Operator::Equals => " == ",
    }
}

/// Whether the expression has an operator, outside brackets.
fn has_operator(term: &Term) -> bool
    ensures { result ≡ has_operator term.now }
{
    match term {
        Term::Binary(..)
        | Term::Inverse(..)
        | Term::Both(..)
        | Term::Either(..)
        | Term::Choice(..)
        | Term::Cast(..) => true,
        Term::Local(..)
        | Term::Dot(..)
        | Term::At(..)
        | Term::Literal(..)
        | Term::Zeroed(..)
        | Term::Braced(..)
        | Term::Signed(..) => false,
    }
}

/// Whether a local is a pointer.
fn is_pointer(locals: &[Local], k: usize) -> bool
    ensures { result ≡ is_pointer locals.now k }
{
    match locals.get(k) {
        Some(local) => local.pointer,
        None => false,
    }
}

/// Adds a local, of a pointer what it leads to.
fn push_local(text: &mut String, scope: Scope<'_>, k: usize) -> Result<(), AllocError>
    ensures { IfOk result (λ _. string_bytes text.new
        ≡ string_bytes text.old
        ++ local_text scope.entry.prefix.now scope.entry.structs.now scope.entry.locals.now k) }
{
    if is_pointer(scope.locals, k) {
        text.push_str("(*")?;
        push_name(text, scope.prefix, Name::Local(k))?;
        text.push_str(")")?;
    } else {
        push_name(text, scope.prefix, Name::Local(k))?;
    }
    Ok(())
}

/// Adds a local before the name of its member.
fn push_pointed(text: &mut String, scope: Scope<'_>, k: usize) -> Result<(), AllocError>
    ensures { IfOk result (λ _. string_bytes text.new
        ≡ string_bytes text.old
        ++ pointed_text scope.entry.prefix.now scope.entry.structs.now scope.entry.locals.now k) }
{
    push_name(text, scope.prefix, Name::Local(k))?;
    if is_pointer(scope.locals, k) {
        text.push_str("->")?;
    } else {
        text.push_str(".")?;
    }
    Ok(())
}

/// Adds an expression.
#[cycle(push_term)]
pub(crate) fn push_term(text: &mut String, scope: Scope<'_>, term: &Term) -> Result<(), AllocError>
    ensures { IfOk result (λ _. string_bytes text.new
        ≡ string_bytes text.old
        ++ term_text scope.entry.prefix.now scope.entry.structs.now scope.entry.locals.now term.now) }
{
    match term {
        Term::Local(k) => push_local(text, scope, *k)?,
        Term::Dot(e, k) => {
            let kind = kind_of(scope.structs, place_type(scope.structs, scope.locals, e));
            push_owner(text, scope, e)?;
            push_name(text, scope.prefix, Name::Member(kind, *k))?;
        }
        Term::At(e, i) => {
            push_operand(text, scope, e)?;
            text.push_str("[")?;
            push_term(text, scope, i)?;
            text.push_str("]")?;
        }
        Term::Literal(literal) => push_literal(text, *literal)?,
        Term::Zeroed(ty) => push_zeroed(text, scope.prefix, *ty)?,
        Term::Braced(all, tail) => push_braced(text, scope, all.as_slice(), *tail)?,
        Term::Binary(operator, _, a, b) => {
            push_operand(text, scope, a)?;
            text.push_str(operator_word(*operator))?;
            push_operand(text, scope, b)?;
        }
        Term::Inverse(a) => {
            text.push_str("!")?;
            push_operand(text, scope, a)?;
        }
        Term::Both(a, b) => {
            push_operand(text, scope, a)?;
            text.push_str(" && ")?;
            push_operand(text, scope, b)?;
        }
        Term::Either(a, b) => {
            push_operand(text, scope, a)?;
            text.push_str(" || ")?;
            push_operand(text, scope, b)?;
        }
        Term::Choice(c, a, b) => {
            push_operand(text, scope, c)?;
            text.push_str(" ? ")?;
            push_operand(text, scope, a)?;
            text.push_str(" : ")?;
            push_operand(text, scope, b)?;
        }
        Term::Cast(scalar, a) => {
            let word = scalar_word(*scalar);
            write!(text, "({word})")?;
            push_operand(text, scope, a)?;
        }
        Term::Signed(a) => {
            push_name(text, scope.prefix, Name::Signed)?;
            text.push_str("(")?;
            push_term(text, scope, a)?;
            text.push_str(")")?;
        }
    }
    Ok(())
}

/// Adds an expression as an operand: in parentheses, where it has an operator.
#[cycle(push_term)]
pub(crate) fn push_operand(
    text: &mut String,
    scope: Scope<'_>,
    term: &Term,
) -> Result<(), AllocError>
    ensures { IfOk result (λ _. string_bytes text.new ≡ string_bytes text.old
        ++ operand_text term.now
        (term_text scope.entry.prefix.now scope.entry.structs.now
        scope.entry.locals.now term.now)) }
{
    if has_operator(term) {
        text.push_str("(")?;
        push_term(text, scope, term)?;
        text.push_str(")")?;
    } else {
        push_term(text, scope, term)?;
    }
    Ok(())
}

/// Adds an expression before the name of its member.
#[cycle(push_term)]
fn push_owner(text: &mut String, scope: Scope<'_>, term: &Term) -> Result<(), AllocError>
    ensures { IfOk result (λ _. string_bytes text.new ≡ string_bytes text.old
        ++ owner_text scope.entry.prefix.now scope.entry.structs.now scope.entry.locals.now term.now
        (term_text scope.entry.prefix.now scope.entry.structs.now
        scope.entry.locals.now term.now)) }
{
    match term {
        Term::Local(k) => push_pointed(text, scope, *k)?,
        _ => {
            push_operand(text, scope, term)?;
            text.push_str(".")?;
        }
    }
    Ok(())
}

/// Whether there are no elements.
fn has_none(all: &[Term]) -> bool
    ensures { result ≡ has_none all.now }
{
    match all.first() {
        Some(_) => false,
        None => true,
    }
}

/// Adds elements in braces, behind which are zeros of a type, or nothing.
#[cycle(push_term)]
fn push_braced(
    text: &mut String,
    scope: Scope<'_>,
    all: &[Term],
    tail: Option<CType>,
) -> Result<(), AllocError>
    ensures { IfOk result (λ _. string_bytes text.new ≡ string_bytes text.old
        ++ braces_text scope.entry.prefix.now (has_none all.now) tail
        (elements_text scope.entry.prefix.now scope.entry.structs.now
        scope.entry.locals.now 0 all.now)) }
{
    if has_none(all) {
        if let Some(ty) = tail {
            return push_zeroed(text, scope.prefix, ty);
        }
    }
    text.push_str("{")?;
    push_elements(text, scope, all)?;
    text.push_str("}")?;
    Ok(())
}

/// Adds elements, with commas between.
#[cycle(push_term)]
fn push_elements(text: &mut String, scope: Scope<'_>, all: &[Term]) -> Result<(), AllocError>
    ensures { IfOk result (λ _. string_bytes text.new ≡ string_bytes text.old
        ++ elements_text scope.entry.prefix.now scope.entry.structs.now
        scope.entry.locals.now 0 all.now) }
{
    for (i, term) in all.iter().enumerate() {
        push_comma(text, i)?;
        push_term(text, scope, term)?;
    }
    Ok(())
}

/// Adds what stands before element i.
fn push_comma(text: &mut String, i: usize) -> Result<(), AllocError>
    ensures { IfOk result (λ _. string_bytes text.new ≡ string_bytes text.old ++ comma_text i) }
{
    if i > 0 {
        text.push_str(", ")?;
    }
    Ok(())
}

/// Adds an expression as what is assigned or returned, of this type.
pub(crate) fn push_valued(
    text: &mut String,
    scope: Scope<'_>,
    ty: CType,
    term: &Term,
) -> Result<(), AllocError>
    ensures { IfOk result (λ _. string_bytes text.new ≡ string_bytes text.old
        ++ valued_text scope.entry.prefix.now ty term.now
        (term_text scope.entry.prefix.now scope.entry.structs.now
        scope.entry.locals.now term.now)) }
{
    match term {
        Term::Braced(..) => {
            push_of(text, scope.prefix, base_of(ty))?;
            push_term(text, scope, term)?;
        }
        _ => push_term(text, scope, term)?,
    }
    Ok(())
}

/// Adds an expression's address.
pub(crate) fn push_address(
    text: &mut String,
    scope: Scope<'_>,
    term: &Term,
) -> Result<(), AllocError>
    ensures { IfOk result (λ _. string_bytes text.new ≡ string_bytes text.old
        ++ address_text scope.entry.prefix.now scope.entry.structs.now
        scope.entry.locals.now term.now) }
{
    match term {
        Term::Local(k) => {
            if !is_pointer(scope.locals, *k) {
                text.push_str("&")?;
            }
            push_name(text, scope.prefix, Name::Local(*k))?;
        }
        _ => {
            text.push_str("&")?;
            push_operand(text, scope, term)?;
        }
    }
    Ok(())
}
