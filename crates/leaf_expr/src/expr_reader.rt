// Reading expressions.
#![tactic(auto, using(crate::proofs::Reading::reading))]

ghost use Rattle.std.specs.Prelude.{◌≡◌, ℕ, ◌-◌, ◌<◌, ◌≤◌, List, Err, IfOk, IfErr, length};
ghost use Rattle.sample_core.specs.{TypeView.type_of, TypeTree.TypeTree};
ghost use Rattle.leaf_core.specs.Expression.{Expression};
ghost use Rattle.leaf_expr.specs.Form.{form_production, unary_production, binary_production, ternary_production, typed_production};
ghost use Rattle.leaf_expr.specs.{Grammar.leaf, Grammar.expression_sort, Grammar.type_sort, Language.Begins};
ghost use Rattle.leaf_expr.specs.ReadText.{GivesTree, tree_at, word_tree, form_at, production_parts, last_two_at, expression_left, type_left, items_at, items_left, IsFault};
ghost use Rattle.leaf_core.specs.ExpressionView.{expression_of};
ghost use Rattle.leaf_expr.specs.Text.{read_text, whole, IsText, IsTextFault};
ghost use Rattle.leaf_expr.specs.Token.{PlacedToken, tokens_from};
ghost use Rattle.leaf_expr.specs.declared.text_fault.ExprTextFault.TheVariants as Fault;

use crate::form::{Binary, ExprForm, Ternary, Typed, Unary, form_named};
use crate::number_reader::read_index;
use crate::text_fault::ExprTextFault;
use crate::token::token_at;
use crate::tree_front::{Read, TreeFront, closing_at, form_end, form_head, front_at};
use crate::type_reader::{MOST_OPEN, read_type};
use crate::word::{WordFault, expr_word};
use leaf_core::{Expr, ExprChild, Exprs};
use sample_core::Ty;
use std::alloc::Global;

/// The most bytes that a text may have.
pub const MOST_LENGTH: usize = 1_048_576;

/// The expression at or after byte `at`, with room for so many more parentheses, and the byte
/// behind it.
#[cycle(read_expression)]
fn read_expression(alloc: Global, text: &[u8], at: usize, room: usize) -> Read<Expr>
    ensures { GivesTree (expression_left text.now) result (tree_at expression_sort text.now room at) }
{
    match front_at(text, at, room)? {
        TreeFront::Form(start) => form(alloc, text, start + 1, room - 1),
        TreeFront::Word(start, end) => word_expr(text, start, end),
    }
}

/// The expression that the word is from the first byte up to and without the second, and the
/// latter.
fn word_expr(text: &[u8], start: usize, end: usize) -> Read<Expr>
    requires { (start < end) × (end ≤ length text.now) }
    ensures { GivesTree (expression_left text.now) result
        (word_tree expression_sort text.now start end) }
{
    match expr_word(&text[start..end]) {
        Ok(expr) => Ok((expr, end)),
        Err(WordFault::Misspelt) => Err(ExprTextFault::Number { at: start }),
        Err(WordFault::Unfit) => Err(ExprTextFault::Syntax { at: start }),
    }
}

/// What stands behind the parenthesis of a form.
#[cycle(read_expression)]
fn form(alloc: Global, text: &[u8], at: usize, room: usize) -> Read<Expr>
    ensures { GivesTree (expression_left text.now) result (form_at expression_sort text.now room at) }
{
    let (start, end) = form_head(text, at, room)?;
    match form_named(&text[start..end]) {
        Some(form) => parts(alloc, text, end, room, form),
        None => Err(ExprTextFault::Syntax { at: start }),
    }
}

/// The parts of a form, and its end.
#[cycle(read_expression)]
fn parts(alloc: Global, text: &[u8], at: usize, room: usize, form: ExprForm) -> Read<Expr>
    ensures { GivesTree (expression_left text.now) result
        (production_parts (form_production form) text.now room at) }
{
    match form {
        ExprForm::Param => param(text, at, room),
        ExprForm::NoEvent => no_event(alloc, text, at, room),
        ExprForm::List => list(alloc, text, at, room),
        ExprForm::Unary(form) => unary(alloc, text, at, room, form),
        ExprForm::Binary(form) => binary(alloc, text, at, room, form),
        ExprForm::Ternary(form) => ternary(alloc, text, at, room, form),
        ExprForm::Typed(form) => typed(alloc, text, at, room, form),
    }
}

/// The number of a parameter, and the end of the form.
fn param(text: &[u8], at: usize, room: usize) -> Read<Expr>
    ensures { GivesTree (expression_left text.now) result
        (production_parts (form_production ExprForm.Param) text.now room at) }
{
    let (k, at) = read_index(text, at, room)?;
    let end = form_end(text, at, room)?;
    Ok((Expr::Param(k), end))
}

/// The type of no event, and the end of the form.
fn no_event(alloc: Global, text: &[u8], at: usize, room: usize) -> Read<Expr>
    ensures { GivesTree (expression_left text.now) result
        (production_parts (form_production ExprForm.NoEvent) text.now room at) }
{
    let (ty, at) = read_type(alloc, text, at, room)?;
    match form_end(text, at, room) {
        Ok(end) => Ok((Expr::NoEvent(ty), end)),
        Err(fault) => {
            drop(ty);
            Err(fault)
        }
    }
}

/// An expression inside an expression.
#[cycle(read_expression)]
fn part(alloc: Global, text: &[u8], at: usize, room: usize) -> Read<ExprChild>
    ensures { GivesTree (λ x. (x.0, x.1, tokens_from x.1 text.now)) result
        (tree_at expression_sort text.now room at) }
{
    let (expr, at) = read_expression(alloc, text, at, room)?;
    Ok((ExprChild::new(alloc, expr)?, at))
}

/// The last two expressions inside an expression, and the end of the form.
#[cycle(read_expression)]
fn last_two(alloc: Global, text: &[u8], at: usize, room: usize) -> Read<(ExprChild, ExprChild)>
    ensures { GivesTree (λ x. (x.0, x.1, tokens_from x.1 text.now)) result
        (last_two_at text.now room at) }
{
    let (a, at) = part(alloc, text, at, room)?;
    let (b, at) = part(alloc, text, at, room)?;
    let end = form_end(text, at, room)?;
    Ok(((a, b), end))
}

/// One expression, and the end of the form.
#[cycle(read_expression)]
fn unary(alloc: Global, text: &[u8], at: usize, room: usize, form: Unary) -> Read<Expr>
    ensures { GivesTree (expression_left text.now) result
        (production_parts (unary_production form) text.now room at) }
{
    let (a, at) = part(alloc, text, at, room)?;
    let end = form_end(text, at, room)?;
    Ok((form.of(a), end))
}

/// Two expressions, and the end of the form.
#[cycle(read_expression)]
fn binary(alloc: Global, text: &[u8], at: usize, room: usize, form: Binary) -> Read<Expr>
    ensures { GivesTree (expression_left text.now) result
        (production_parts (binary_production form) text.now room at) }
{
    let ((a, b), end) = last_two(alloc, text, at, room)?;
    Ok((form.of(alloc, a, b)?, end))
}

/// Three expressions, and the end of the form.
#[cycle(read_expression)]
fn ternary(alloc: Global, text: &[u8], at: usize, room: usize, form: Ternary) -> Read<Expr>
    ensures { GivesTree (expression_left text.now) result
        (production_parts (ternary_production form) text.now room at) }
{
    let (a, at) = part(alloc, text, at, room)?;
    let ((b, c), end) = last_two(alloc, text, at, room)?;
    Ok((form.of(a, b, c), end))
}

/// A type and two expressions, and the end of the form.
#[cycle(read_expression)]
fn typed(alloc: Global, text: &[u8], at: usize, room: usize, form: Typed) -> Read<Expr>
    ensures { GivesTree (expression_left text.now) result
        (production_parts (typed_production form) text.now room at) }
{
    let (ty, at) = read_type(alloc, text, at, room)?;
    let none = ExprChild::new(alloc, Expr::NoEvent(ty))?;
    let ((a, b), end) = last_two(alloc, text, at, room)?;
    Ok((form.of(alloc, none, a, b)?, end))
}

/// The type of a list and its elements, and the end of the form.
#[cycle(read_expression)]
fn list(alloc: Global, text: &[u8], at: usize, room: usize) -> Read<Expr>
    ensures { GivesTree (expression_left text.now) result
        (production_parts (form_production ExprForm.List) text.now room at) }
{
    let (ty, at) = read_type(alloc, text, at, room)?;
    match elements(alloc, text, at, room) {
        Ok((all, end)) => Ok((Expr::List(ty, all), end)),
        Err(fault) => {
            drop(ty);
            Err(fault)
        }
    }
}

/// The elements of a list as its parts, and the end of the form.
#[cycle(read_expression)]
fn elements(alloc: Global, text: &[u8], at: usize, room: usize) -> Read<Exprs>
    ensures { GivesTree (λ x. (x.0, x.1, tokens_from x.1 text.now)) result (items_at text.now room at) }
{
    let (all, end) = items(alloc, text, at, room)?;
    Ok((Exprs::new(alloc, all)?, end))
}

/// The elements of a list, and the end of the form.
#[cycle(read_expression)]
fn items(alloc: Global, text: &[u8], at: usize, room: usize) -> Read<Vec<Expr>>
    ensures { GivesTree (λ x. items_left text.now (x.0.items, x.1)) result (items_at text.now room at) }
{
    let mut all = Vec::new(alloc);
    let mut next = at;
    loop {
        if let Some(end) = closing_at(text, next) {
            return Ok((all, end));
        }
        let (expr, behind) = read_expression(alloc, text, next, room)?;
        all.push(expr)?;
        next = behind;
    }
}

/// What `read_type_at` answers. It stands apart, since the clauses of that contract follow from its
/// own.
fn type_at(alloc: Global, text: &[u8], at: usize, depth: usize) -> Read<Ty>
    ensures { GivesTree (type_left text.now) result (tree_at type_sort text.now (MOST_OPEN - depth) at) }
{
    read_type(alloc, text, at, MOST_OPEN.saturating_sub(depth))
}

/// What `read_expr_at` answers. It stands apart, since the clauses of that contract follow from its
/// own.
fn expr_at(alloc: Global, text: &[u8], at: usize, depth: usize) -> Read<Expr>
    ensures { GivesTree (expression_left text.now) result
        (tree_at expression_sort text.now (MOST_OPEN - depth) at) }
{
    read_expression(alloc, text, at, MOST_OPEN.saturating_sub(depth))
}

/// One expression and nothing else, in a text of whatever length.
fn only_expr(alloc: Global, text: &[u8]) -> Result<Expr, ExprTextFault>
    ensures { GivesTree expression_of result (whole (tree_at expression_sort text.now MOST_OPEN 0)) }
{
    let (expr, end) = read_expression(alloc, text, 0, MOST_OPEN)?;
    match token_at(text, end) {
        None => Ok(expr),
        Some((start, _)) => {
            drop(expr);
            Err(ExprTextFault::Syntax { at: start })
        }
    }
}

/// What `read_expr` answers. It stands apart, since the clauses of that contract follow from its
/// own.
fn whole_expr(alloc: Global, text: &[u8]) -> Result<Expr, ExprTextFault>
    ensures long { MOST_LENGTH < length text.now → result ≡ Err Fault.TooLong }
    ensures exact { GivesTree expression_of result (read_text expression_sort text.now) }
{
    if text.len() > MOST_LENGTH {
        return Err(ExprTextFault::TooLong);
    }
    only_expr(alloc, text)
}

/// Reads the one type that begins with the first token at or after byte `at`, counted from 0, of
/// the text as it stands from that byte on. `depth` parentheses are open before it; more than 600
/// count as 600. Answers the type and the byte behind it. Anything may follow.
///
/// A refusal is the first token that doesn't fit, by its first byte. `TooDeep`: a parenthesis that
/// would be the 601st open at once, also where none fits. `Syntax`: any other, or the text's length
/// where it ends too early. `Memory`: allocation failed. `Number` and `TooLong` don't come.
pub fn read_type_at(alloc: Global, text: &[u8], at: usize, depth: usize) -> Read<Ty>
    // What is read is in the grammar.
    ensures found { IfOk result
        (λ x. Begins leaf (MOST_OPEN - depth) type_sort (type_of x.0) (tokens_from at text.now) x.1
        (tokens_from x.1 text.now)) }
    // What is in the grammar is read, unless memory runs out.
    ensures only { (t : TypeTree) (n : ℕ) (rest : List PlacedToken)
        → Begins leaf (MOST_OPEN - depth) type_sort t (tokens_from at text.now) n rest
        → GivesTree (type_left text.now) result (Ok (t, n, rest)) }
    // What is refused is so at the first token that doesn't fit.
    ensures refused { IfErr result (IsFault type_sort text.now (MOST_OPEN - depth) at) }
{
    type_at(alloc, text, at, depth)
}

/// Reads the one expression that begins with the first token at or after byte `at`, counted from
/// 0, of the text as it stands from that byte on. `depth` parentheses are open before it; more
/// than 600 count as 600. Answers the expression, with sugar expanded, and the byte behind it.
/// Anything may follow.
///
/// A refusal is the first token that doesn't fit, by its first byte. `TooDeep`: a parenthesis that
/// would be the 601st open at once, also where none fits. `Number`: where a number may stand, a
/// number word that is badly spelt or out of range: 64 bits for a literal, 0 to 65,535 for the
/// number of a parameter. `Syntax`: any other, or the text's length where it ends too early.
/// `Memory`: allocation failed. `TooLong` doesn't come.
pub fn read_expr_at(alloc: Global, text: &[u8], at: usize, depth: usize) -> Read<Expr>
    // What is read is in the grammar.
    ensures found { IfOk result
        (λ x. Begins leaf (MOST_OPEN - depth) expression_sort (expression_of x.0)
        (tokens_from at text.now) x.1 (tokens_from x.1 text.now)) }
    // What is in the grammar is read, unless memory runs out.
    ensures only { (t : Expression) (n : ℕ) (rest : List PlacedToken)
        → Begins leaf (MOST_OPEN - depth) expression_sort t (tokens_from at text.now) n rest
        → GivesTree (expression_left text.now) result (Ok (t, n, rest)) }
    // What is refused is so at the first token that doesn't fit.
    ensures refused { IfErr result (IsFault expression_sort text.now (MOST_OPEN - depth) at) }
{
    expr_at(alloc, text, at, depth)
}

/// Reads a text that is one expression and nothing else. Answers the expression, with sugar
/// expanded.
///
/// `TooLong`: the text has more than 1,048,576 bytes, whatever they are. Else a refusal is the
/// first token that doesn't fit, by its first byte, counted from 0. `TooDeep`: a parenthesis that
/// would be the 601st open at once, also where none fits. `Number`: where a number may stand, a
/// number word that is badly spelt or out of range: 64 bits for a literal, 0 to 65,535 for the
/// number of a parameter. `Syntax`: any other, among them one behind the expression, or the text's
/// length where it ends too early. `Memory`: allocation failed.
pub fn read_expr(alloc: Global, text: &[u8]) -> Result<Expr, ExprTextFault>
    // What is read is what the text says.
    ensures found { IfOk result (λ e. IsText expression_sort text.now (expression_of e)) }
    // A text of an expression is read, unless memory runs out.
    ensures only { (e : Expression) → IsText expression_sort text.now e
        → GivesTree expression_of result (Ok e) }
    // A text that is too long is refused as such, whatever its bytes are.
    ensures long { MOST_LENGTH < length text.now → result ≡ Err Fault.TooLong }
    // What is refused is so at the first token that doesn't fit, or for its length.
    ensures refused { IfErr result (IsTextFault expression_sort text.now) }
{
    whole_expr(alloc, text)
}
