// Reading types.
#![tactic(auto, using(crate::proofs::Reading::reading))]

ghost use Rattle.std.specs.Prelude.{◌<◌, ◌≤◌, length};
ghost use Rattle.leaf_expr.specs.{Form.type_production, Grammar.type_sort};
ghost use Rattle.leaf_expr.specs.ReadText.{GivesTree, tree_at, word_tree, form_at, production_parts, last_at, type_left};
ghost use Rattle.leaf_expr.specs.Token.{tokens_from};

use crate::form::{TypeForm, type_form_named};
use crate::text_fault::ExprTextFault;
use crate::tree_front::{Read, TreeFront, form_end, form_head, front_at};
use crate::word::type_word;
use sample_core::{Ty, TyChild};
use std::alloc::Global;

/// The most parentheses that may be open at once.
pub const MOST_OPEN: usize = 600;

/// The type at or after byte `at`, with room for so many more parentheses, and the byte behind it.
#[cycle(read_type)]
pub(crate) fn read_type(alloc: Global, text: &[u8], at: usize, room: usize) -> Read<Ty>
    ensures { GivesTree (type_left text.now) result (tree_at type_sort text.now room at) }
{
    match front_at(text, at, room)? {
        TreeFront::Form(start) => type_form(alloc, text, start + 1, room - 1),
        TreeFront::Word(start, end) => type_named(text, start, end),
    }
}

/// The type that the word is from the first byte up to and without the second, and the latter.
fn type_named(text: &[u8], start: usize, end: usize) -> Read<Ty>
    requires { (start < end) × (end ≤ length text.now) }
    ensures { GivesTree (type_left text.now) result (word_tree type_sort text.now start end) }
{
    match type_word(&text[start..end]) {
        Some(ty) => Ok((ty, end)),
        None => Err(ExprTextFault::Syntax { at: start }),
    }
}

/// What stands behind the parenthesis of a form of types.
#[cycle(read_type)]
fn type_form(alloc: Global, text: &[u8], at: usize, room: usize) -> Read<Ty>
    ensures { GivesTree (type_left text.now) result (form_at type_sort text.now room at) }
{
    let (start, end) = form_head(text, at, room)?;
    match type_form_named(&text[start..end]) {
        Some(form) => type_parts(alloc, text, end, room, form),
        None => Err(ExprTextFault::Syntax { at: start }),
    }
}

/// The types of a form, and its end.
#[cycle(read_type)]
fn type_parts(alloc: Global, text: &[u8], at: usize, room: usize, form: TypeForm) -> Read<Ty>
    ensures { GivesTree (type_left text.now) result
        (production_parts (type_production form) text.now room at) }
{
    match form {
        TypeForm::Pair => pair_type(alloc, text, at, room),
        TypeForm::Event => {
            let (a, end) = last_type(alloc, text, at, room)?;
            Ok((Ty::Event(a), end))
        }
        TypeForm::List => {
            let (a, end) = last_type(alloc, text, at, room)?;
            Ok((Ty::List(a), end))
        }
    }
}

/// Two types, and the end of the form.
#[cycle(read_type)]
fn pair_type(alloc: Global, text: &[u8], at: usize, room: usize) -> Read<Ty>
    ensures { GivesTree (type_left text.now) result
        (production_parts (type_production TypeForm.Pair) text.now room at) }
{
    let (a, at) = type_part(alloc, text, at, room)?;
    let (b, end) = last_type(alloc, text, at, room)?;
    Ok((Ty::Pair(a, b), end))
}

/// A type inside a type.
#[cycle(read_type)]
fn type_part(alloc: Global, text: &[u8], at: usize, room: usize) -> Read<TyChild>
    ensures { GivesTree (λ x. (x.0, x.1, tokens_from x.1 text.now)) result
        (tree_at type_sort text.now room at) }
{
    let (ty, at) = read_type(alloc, text, at, room)?;
    Ok((TyChild::new(alloc, ty)?, at))
}

/// The last type inside a type, and the end of the form.
#[cycle(read_type)]
fn last_type(alloc: Global, text: &[u8], at: usize, room: usize) -> Read<TyChild>
    ensures { GivesTree (λ x. (x.0, x.1, tokens_from x.1 text.now)) result
        (last_at type_sort text.now room at) }
{
    let (ty, at) = type_part(alloc, text, at, room)?;
    let end = form_end(text, at, room)?;
    Ok((ty, end))
}
