// Values that an expression only looks at.

ghost use Rattle.std.specs.Prelude.{◌≡◌, IfSome};
ghost use Rattle.sample_core.specs.ValueView.{datum_of};
ghost use Rattle.leaf_core.specs.{ExpressionView.expression_of, LookedView.looked_value, LookedView.IsValueAt};
ghost use Rattle.leaf_core.specs.ScopeView.{value_in};

use crate::expr::Expr;
use crate::operations::{param, part};
use crate::scope::Scope;
use sample_core::Sample;

/// A value that is looked at.
#[derive(Drop)]
pub enum Looked<'v> {
    /// One that stands elsewhere.
    There(&'v Sample),
    /// One that was made to be looked at.
    Made(Sample),
}

impl<'v> Looked<'v> {
    /// The value.
    pub fn get(&self) -> &Sample
        ensures { datum_of result.now ≡ looked_value self.now }
    {
        match self {
            Looked::There(value) => value,
            Looked::Made(value) => value,
        }
    }
}

/// Where the value of a path stands: of the input, of a parameter, or of a part of what stands on a
/// path. `None` for another expression, and where there is no such parameter. A path of at most
/// two steps off the input is followed with no call.
#[cycle(path)]
#[inline(always)]
pub fn path_at<'v>(scope: &Scope<'v>, expr: &Expr) -> Option<&'v Sample>
    ensures { IfSome result
        (λ v. datum_of v.now ≡ value_in (expression_of expr.now) scope.now) }
{
    match expr {
        Expr::Input => Some(scope.x),
        Expr::Param(k) => param(scope.params, *k),
        Expr::Fst(e) | Expr::Snd(e) => match short_path_at(scope.x, e.get()) {
            Some(value) => Some(part(expr, value)),
            None => match long_path_at(scope, e.get()) {
                Some(value) => Some(part(expr, value)),
                None => None,
            },
        },
        _ => None,
    }
}

/// Where the value of a path of any length stands, in a frame of its own.
#[cycle(path)]
#[inline(never)]
fn long_path_at<'v>(scope: &Scope<'v>, expr: &Expr) -> Option<&'v Sample>
    ensures { IfSome result
        (λ v. datum_of v.now ≡ value_in (expression_of expr.now) scope.now) }
{
    path_at(scope, expr)
}

/// Where the value of a path of no step or one off the input stands; `None` says nothing of
/// another.
#[inline(always)]
pub fn short_path_at<'v>(x: &'v Sample, expr: &Expr) -> Option<&'v Sample>
    ensures { IfSome result
        (λ v. IsValueAt (datum_of x.now) (expression_of expr.now) (datum_of v.now)) }
{
    match expr {
        Expr::Input => Some(x),
        Expr::Fst(e) | Expr::Snd(e) => match e.get() {
            Expr::Input => Some(part(expr, x)),
            _ => None,
        },
        _ => None,
    }
}
