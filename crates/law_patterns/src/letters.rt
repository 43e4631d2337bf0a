// The trees that letters stand for.

ghost use Rattle.std.specs.Prelude.{◌≡◌, IfOk};
ghost use Rattle.leaf_core.specs.ExpressionView.{expression_of};
ghost use Rattle.sample_core.specs.TypeView.{type_of};
ghost use Rattle.law_patterns.specs.Matching.{nothing_found, found_of, found_at, found_with, held_expression, going, letter_bound, bound_type, completed, or_input};
ghost use Rattle.law_patterns.specs.Pattern.{letter_choice};

use crate::sym::Letter;
use leaf_core::{Expr, same_expr};
use sample_core::{Memory, Ty, same_type};
use std::alloc::Global;

/// The trees that the letters of a pattern of expressions have by now.
#[derive(Clone, Copy)]
pub(crate) struct Letters<'t> {
    pub f: Option<&'t Expr>,
    pub g: Option<&'t Expr>,
    pub h: Option<&'t Expr>,
    pub i: Option<&'t Expr>,
    pub j: Option<&'t Expr>,
    pub t: Option<&'t Ty>,
}

impl<'t> Letters<'t> {
    /// No letter has a tree.
    pub(crate) fn new() -> Letters<'t>
        ensures { found_of result ≡ nothing_found }
    {
        Letters {
            f: None,
            g: None,
            h: None,
            i: None,
            j: None,
            t: None,
        }
    }

    /// The expression of the letter, if it has one.
    pub(crate) fn get(&self, letter: Letter) -> Option<&'t Expr>
        ensures { held_expression result ≡ found_at (found_of self.now) letter }
    {
        match letter {
            Letter::F => self.f,
            Letter::G => self.g,
            Letter::H => self.h,
            Letter::I => self.i,
            Letter::J => self.j,
        }
    }

    /// Lets the letter stand for the expression.
    fn set(&mut self, letter: Letter, expr: &'t Expr)
        ensures { found_of self.new ≡ found_with (found_of self.old) letter (expression_of expr.now) }
    {
        match letter {
            Letter::F => self.f = Some(expr),
            Letter::G => self.g = Some(expr),
            Letter::H => self.h = Some(expr),
            Letter::I => self.i = Some(expr),
            Letter::J => self.j = Some(expr),
        }
    }

    /// Lets the letter stand for the expression, where it stands for no other: whether it does.
    pub(crate) fn bind(&mut self, letter: Letter, expr: &'t Expr) -> bool
        ensures { (es : _) → going result es (found_of self.new) ≡ letter_bound (found_at (found_of self.old) letter) letter (expression_of expr.now) es (found_of self.old) }
    {
        match self.get(letter) {
            Some(earlier) => same_expr(earlier, expr),
            None => {
                self.set(letter, expr);
                true
            }
        }
    }

    /// Lets the type letter stand for the type, where it stands for no other: whether it does.
    pub(crate) fn bind_type(&mut self, ty: &'t Ty) -> bool
        ensures { (es : _) → going result es (found_of self.new) ≡ bound_type ((found_of self.old).t) (type_of ty.now) es (found_of self.old) }
    {
        match self.t {
            Some(earlier) => same_type(earlier, ty),
            None => {
                self.t = Some(ty);
                true
            }
        }
    }

    /// A copy of what the letter stands for; `x` where it stands for nothing. `Memory` if a count
    /// of references is full.
    pub(crate) fn copy_of(&self, alloc: Global, letter: Letter) -> Result<Expr, Memory>
        ensures { IfOk result (λ e. expression_of e ≡ letter_choice (completed (found_of self.now)) letter) }
    {
        match letter {
            Letter::F => copy_or_input(alloc, self.f),
            Letter::G => copy_or_input(alloc, self.g),
            Letter::H => copy_or_input(alloc, self.h),
            Letter::I => copy_or_input(alloc, self.i),
            Letter::J => copy_or_input(alloc, self.j),
        }
    }

    /// A copy of what the type letter stands for; `Unit` where it stands for nothing. `Memory` if a
    /// count of references is full.
    pub(crate) fn copy_of_type(&self, alloc: Global) -> Result<Ty, Memory>
        ensures { IfOk result (λ t. type_of t ≡ (completed (found_of self.now)).t) }
    {
        match self.t {
            Some(ty) => ty.try_copy(alloc),
            None => Ok(Ty::Unit),
        }
    }
}

/// A copy of the expression; `x` if there is none.
fn copy_or_input(alloc: Global, expr: Option<&Expr>) -> Result<Expr, Memory>
    ensures { IfOk result (λ e. expression_of e ≡ or_input (held_expression expr.entry)) }
{
    match expr {
        Some(expr) => expr.try_copy(alloc),
        None => Ok(Expr::Input),
    }
}
