// The type of an expression.

ghost use Rattle.std.specs.Prelude.{◌≡◌, IfOk, MatchResult, List, Ok, Err, map};
ghost use Rattle.sample_core.specs.Answer.{◌>>=◌ as on_ok, GivesUnless};
ghost use Rattle.sample_core.specs.TypeTree.{TypeTree, int_ty, pair_ty, event_ty, list_ty};
ghost use Rattle.sample_core.specs.TypeView.{type_of};
ghost use Rattle.leaf_core.specs.Expression.{expressions_of, pair_expr, then_expr, equal, if_expr, event_expr, on, list_expr, nth, len};
ghost use Rattle.leaf_core.specs.ExpressionView.{expression_of, literal_of};
ghost use Rattle.leaf_core.specs.ExpressionCheck.{carried_type, element_type, elements_walk, within_limits, expect_then, part_type, type_answer, type_of_param, type_walk, expect};
ghost use Rattle.leaf_core.specs.{ExpressionLimits.ExpressionTypedWithin, CheckAnswer.GivesType, CheckAnswer.Passes};
ghost use Rattle.leaf_core.specs.ScopeView.{type_in};
ghost use Rattle.leaf_core.specs.declared.typing.ExprFault.TheVariants as F;

use crate::expr::{Expr, ExprChild, Exprs};
use crate::limits::{expr_fits, type_fits};
use crate::literal::Literal;
use crate::scope::TypeScope;
use sample_core::{Memory, Ty, TyChild, same_type};
use std::alloc::Global;
use thiserror::Error;

/// Why an expression has no type.
#[derive(Debug, Drop, Error)]
pub enum ExprFault {
    /// A type is not as wanted.
    #[error("mismatch")]
    Mismatch,
    /// There is no parameter of that number.
    #[error("no parameter")]
    NoParam,
    /// The expression's height is over 256, or it has more than 100,000 nodes; or a type has a
    /// depth over 32, or more than 256 nodes.
    #[error("expression too deep")]
    TooDeep,
    /// Allocation failed.
    #[error("memory")]
    Memory,
}

/// The type of the expression, under the types of the parameters and of the input; parameter k has
/// the type `params[k]`. Else the first fault.
///
/// The height and the size of the expression are tested first: `TooDeep` over height 256 or 100,000
/// nodes. Then each part in written order, against what is wanted of it and against the parts
/// before it: `NoParam` where there is no parameter of a number, `Mismatch` where a type is not as
/// wanted, and `TooDeep` where a type that arises has a depth over 32 or more than 256 nodes.
/// `Memory` if allocation fails.
pub fn type_of_expr(alloc: Global, params: &[Ty], input: &Ty, expr: &Expr) -> Result<Ty, ExprFault>
    // A type that is answered is the expression's, within all limits.
    ensures typed { IfOk result
        (λ t. ExpressionTypedWithin (expression_of expr.now) (map type_of params.now)
        (type_of input.now) (type_of t)) }
    // The type that the expression has within all limits is answered, unless memory runs out.
    ensures only { (t : TypeTree)
        → ExpressionTypedWithin (expression_of expr.now) (map type_of params.now)
        (type_of input.now) t → GivesType result (Ok t) }
    // Which answer it is.
    ensures exact { GivesType result
        (type_answer (map type_of params.now) (type_of input.now) (expression_of expr.now)) }
{
    whole_type(alloc, params, input, expr)
}

/// What `type_of_expr` answers. It stands apart, since the other clauses of that contract follow
/// from its exact one.
fn whole_type(alloc: Global, params: &[Ty], input: &Ty, expr: &Expr) -> Result<Ty, ExprFault>
    ensures { GivesType result
        (type_answer (map type_of params.now) (type_of input.now) (expression_of expr.now)) }
{
    if !expr_fits(expr) {
        return Err(ExprFault::TooDeep);
    }
    let scope = TypeScope {
        alloc,
        params,
        input,
    };
    walk(&scope, expr)
}

/// The type of an expression, whose height and size are not tested.
#[cycle(walk)]
pub(crate) fn walk(scope: &TypeScope<'_>, expr: &Expr) -> Result<Ty, ExprFault>
    ensures { GivesType result (type_in (expression_of expr.now) scope.now) }
{
    match expr {
        Expr::Input => limited_copy(scope.alloc, scope.input),
        Expr::Param(k) => param_type(scope.alloc, scope.params, *k),
        Expr::Literal(literal) => limited(literal_type(*literal)),
        Expr::Pair(a, b) => walk_pair(scope, a, b),
        Expr::Fst(e) | Expr::Snd(e) => walk_part(scope, expr, e),
        Expr::Then(f, g) => walk_then(scope, f, g),
        Expr::Neg(a) => walk_one(scope, a, &Ty::Int, &Ty::Int),
        Expr::Add(a, b) | Expr::Sub(a, b) | Expr::Mul(a, b) => {
            walk_two(scope, a, b, &Ty::Int, &Ty::Int)
        }
        Expr::Less(a, b) => walk_two(scope, a, b, &Ty::Int, &Ty::Bool),
        Expr::Equal(a, b) => walk_equal(scope, a, b),
        Expr::Not(a) => walk_one(scope, a, &Ty::Bool, &Ty::Bool),
        Expr::And(a, b) | Expr::Or(a, b) => { walk_two(scope, a, b, &Ty::Bool, &Ty::Bool) }
        Expr::If(c, a, b) => walk_if(scope, c, a, b),
        Expr::NoEvent(carried) => no_event_type(scope.alloc, carried),
        Expr::Event(e) => walk_event(scope, e),
        Expr::On(e, d, b) => walk_on(scope, e, d, b),
        Expr::List(element, all) => walk_list(scope, element, all),
        Expr::Nth(e, i, d) => walk_nth(scope, e, i, d),
        Expr::Len(e) => walk_len(scope, e),
    }
}

/// The type of a pair.
#[cycle(walk)]
fn walk_pair(scope: &TypeScope<'_>, a: &ExprChild, b: &ExprChild) -> Result<Ty, ExprFault>
    ensures { GivesType result (type_in (pair_expr a.now b.now) scope.now) }
{
    let first = walk_child(scope, a)?;
    let second = walk_child(scope, b)?;
    limited(Ty::Pair(first, second))
}

/// The type of the first or the second part of a pair, as the form says.
#[cycle(walk)]
fn walk_part(scope: &TypeScope<'_>, form: &Expr, e: &ExprChild) -> Result<Ty, ExprFault>
    ensures { GivesType result
        (on_ok (type_in e.now scope.now)
        (λ P. on_ok (part_type (expression_of form.now) P) within_limits)) }
{
    let pair = walk(scope, e.get())?;
    let part = part_type(scope.alloc, form, &pair);
    drop(pair);
    part
}

/// The type of one expression behind another.
#[cycle(walk)]
fn walk_then(scope: &TypeScope<'_>, f: &ExprChild, g: &ExprChild) -> Result<Ty, ExprFault>
    ensures { GivesType result (type_in (then_expr f.now g.now) scope.now) }
{
    let between = walk(scope, f.get())?;
    let found = walk_at(scope, &between, g.get());
    drop(between);
    limited(found?)
}

/// The type that is answered where a part has the type that is wanted.
#[cycle(walk)]
fn walk_one(scope: &TypeScope<'_>, a: &ExprChild, wanted: &Ty, answer: &Ty) -> Result<Ty, ExprFault>
    ensures { GivesType result
        (expect_then (type_in a.now scope.now)
        (type_of wanted.now) (within_limits (type_of answer.now))) }
{
    walk_wanted(scope, a.get(), wanted)?;
    limited_copy(scope.alloc, answer)
}

/// The type that is answered where two parts have the type that is wanted.
#[cycle(walk)]
fn walk_two(
    scope: &TypeScope<'_>,
    a: &ExprChild,
    b: &ExprChild,
    wanted: &Ty,
    answer: &Ty,
) -> Result<Ty, ExprFault>
    ensures { GivesType result
        (expect_then (type_in a.now scope.now)
        (type_of wanted.now)
        (expect_then (type_in b.now scope.now)
        (type_of wanted.now) (within_limits (type_of answer.now)))) }
{
    walk_wanted(scope, a.get(), wanted)?;
    walk_one(scope, b, wanted, answer)
}

/// The type of a comparison.
#[cycle(walk)]
fn walk_equal(scope: &TypeScope<'_>, a: &ExprChild, b: &ExprChild) -> Result<Ty, ExprFault>
    ensures { GivesType result (type_in (equal a.now b.now) scope.now) }
{
    let first = walk(scope, a.get())?;
    let tested = walk_wanted(scope, b.get(), &first);
    drop(first);
    tested?;
    limited(Ty::Bool)
}

/// The type of a choice.
#[cycle(walk)]
fn walk_if(
    scope: &TypeScope<'_>,
    c: &ExprChild,
    a: &ExprChild,
    b: &ExprChild,
) -> Result<Ty, ExprFault>
    ensures { GivesType result (type_in (if_expr c.now a.now b.now) scope.now) }
{
    walk_wanted(scope, c.get(), &Ty::Bool)?;
    walk_branches(scope, a, b)
}

/// The one type of two branches.
#[cycle(walk)]
fn walk_branches(scope: &TypeScope<'_>, a: &ExprChild, b: &ExprChild) -> Result<Ty, ExprFault>
    ensures { GivesType result
        (on_ok (type_in a.now scope.now)
        (λ B. expect_then (type_in b.now scope.now) B
        (within_limits B))) }
{
    let first = walk(scope, a.get())?;
    let tested = walk_wanted(scope, b.get(), &first);
    passed(tested, first)
}

/// The type of an event.
#[cycle(walk)]
fn walk_event(scope: &TypeScope<'_>, e: &ExprChild) -> Result<Ty, ExprFault>
    ensures { GivesType result (type_in (event_expr e.now) scope.now) }
{
    let carried = walk_child(scope, e)?;
    limited(Ty::Event(carried))
}

/// The type of an expression on an event, or else another.
#[cycle(walk)]
fn walk_on(
    scope: &TypeScope<'_>,
    e: &ExprChild,
    d: &ExprChild,
    b: &ExprChild,
) -> Result<Ty, ExprFault>
    ensures { GivesType result (type_in (on e.now d.now b.now) scope.now) }
{
    let event = walk(scope, e.get())?;
    let found = walk_on_event(scope, &event, d, b);
    drop(event);
    found
}

/// The type of an `on` whose event is of the type.
#[cycle(walk)]
fn walk_on_event(
    scope: &TypeScope<'_>,
    event: &Ty,
    d: &ExprChild,
    b: &ExprChild,
) -> Result<Ty, ExprFault>
    ensures { GivesType result
        (on_ok (carried_type (type_of event.now))
        (λ V. on_ok (type_in d.now scope.now)
        (λ C. on_ok (within_limits (pair_ty (type_of scope.now.input.now) V))
        (λ I. expect_then (type_walk (map type_of scope.now.params.now) I b.now) C
        (within_limits C))))) }
{
    match event {
        Ty::Event(carried) => walk_default(scope, carried.get(), d, b),
        _ => Err(ExprFault::Mismatch),
    }
}

/// The type of an `on` whose event carries the type.
#[cycle(walk)]
fn walk_default(
    scope: &TypeScope<'_>,
    carried: &Ty,
    d: &ExprChild,
    b: &ExprChild,
) -> Result<Ty, ExprFault>
    ensures { GivesType result
        (on_ok (type_in d.now scope.now)
        (λ C. on_ok (within_limits (pair_ty (type_of scope.now.input.now) (type_of carried.now)))
        (λ I. expect_then (type_walk (map type_of scope.now.params.now) I b.now) C
        (within_limits C)))) }
{
    let default = walk(scope, d.get())?;
    let tested = walk_body(scope, carried, b, &default);
    passed(tested, default)
}

/// Tests that the expression on an event that carries the type is of the type that is wanted.
#[cycle(walk)]
fn walk_body(scope: &TypeScope<'_>, carried: &Ty, b: &ExprChild, ty: &Ty) -> Result<(), ExprFault>
    ensures { Passes result
        (on_ok (within_limits (pair_ty (type_of scope.now.input.now) (type_of carried.now)))
        (λ I. expect (type_walk (map type_of scope.now.params.now) I b.now) (type_of ty.now)))
        (type_of ty.now) }
{
    let inner = body_input(scope.alloc, scope.input, carried)?;
    let tested = wanted_at(scope, &inner, b.get(), ty);
    drop(inner);
    tested
}

/// The type of a list.
#[cycle(walk)]
fn walk_list(scope: &TypeScope<'_>, element: &Ty, all: &Exprs) -> Result<Ty, ExprFault>
    ensures { GivesType result
        (type_in (list_expr (type_of element.now) (expressions_of all.now)) scope.now) }
{
    if !type_fits(element) {
        return Err(ExprFault::TooDeep);
    }
    walk_elements(scope, element, all)
}

/// The type of an element of a list.
#[cycle(walk)]
fn walk_nth(
    scope: &TypeScope<'_>,
    e: &ExprChild,
    i: &ExprChild,
    d: &ExprChild,
) -> Result<Ty, ExprFault>
    ensures { GivesType result (type_in (nth e.now i.now d.now) scope.now) }
{
    let list = walk(scope, e.get())?;
    let found = walk_nth_of(scope, &list, i, d);
    drop(list);
    found
}

/// The type of an `nth` whose list is of the type.
#[cycle(walk)]
fn walk_nth_of(
    scope: &TypeScope<'_>,
    list: &Ty,
    i: &ExprChild,
    d: &ExprChild,
) -> Result<Ty, ExprFault>
    ensures { GivesType result
        (on_ok (element_type (type_of list.now))
        (λ T. expect_then (type_in i.now scope.now) int_ty
        (expect_then (type_in d.now scope.now) T
        (within_limits T)))) }
{
    match list {
        Ty::List(element) => walk_element(scope, element.get(), i, d),
        _ => Err(ExprFault::Mismatch),
    }
}

/// The type of an `nth` whose elements are of the type.
#[cycle(walk)]
fn walk_element(
    scope: &TypeScope<'_>,
    element: &Ty,
    i: &ExprChild,
    d: &ExprChild,
) -> Result<Ty, ExprFault>
    ensures { GivesType result
        (expect_then (type_in i.now scope.now) int_ty
        (expect_then (type_in d.now scope.now)
        (type_of element.now) (within_limits (type_of element.now)))) }
{
    walk_wanted(scope, i.get(), &Ty::Int)?;
    walk_one(scope, d, element, element)
}

/// The type of a length.
#[cycle(walk)]
fn walk_len(scope: &TypeScope<'_>, e: &ExprChild) -> Result<Ty, ExprFault>
    ensures { GivesType result (type_in (len e.now) scope.now) }
{
    let list = walk(scope, e.get())?;
    let found = length_type(&list);
    drop(list);
    found
}

/// The type of a part, as a part of another.
#[cycle(walk)]
fn walk_child(scope: &TypeScope<'_>, part: &ExprChild) -> Result<TyChild, ExprFault>
    ensures { GivesUnless F.Memory (λ t. t) result
        (type_in part.now scope.now) }
{
    let found = walk(scope, part.get())?;
    child_of(scope.alloc, found)
}

/// Tests that an expression has the type that is wanted.
#[cycle(walk)]
fn walk_wanted(scope: &TypeScope<'_>, expr: &Expr, ty: &Ty) -> Result<(), ExprFault>
    ensures { Passes result
        (expect (type_in (expression_of expr.now) scope.now)
        (type_of ty.now)) (type_of ty.now) }
{
    let found = walk(scope, expr)?;
    let tested = matching(&found, ty);
    drop(found);
    tested
}

/// The type of an expression at another type of its input.
#[cycle(walk)]
fn walk_at(scope: &TypeScope<'_>, input: &Ty, expr: &Expr) -> Result<Ty, ExprFault>
    ensures { GivesType result
        (type_walk (map type_of scope.now.params.now) (type_of input.now)
        (expression_of expr.now)) }
{
    let inner = TypeScope {
        alloc: scope.alloc,
        params: scope.params,
        input,
    };
    walk(&inner, expr)
}

/// Tests that an expression has the type that is wanted, at another type of its input.
#[cycle(walk)]
fn wanted_at(scope: &TypeScope<'_>, input: &Ty, expr: &Expr, ty: &Ty) -> Result<(), ExprFault>
    ensures { Passes result
        (expect (type_walk (map type_of scope.now.params.now) (type_of input.now)
        (expression_of expr.now)) (type_of ty.now)) (type_of ty.now) }
{
    let inner = TypeScope {
        alloc: scope.alloc,
        params: scope.params,
        input,
    };
    walk_wanted(&inner, expr, ty)
}

/// The type of a list of elements that are wanted to be of one type.
#[cycle(walk)]
#[tactic(auto, using(crate::proofs::Places::element_smaller))]
fn walk_elements(scope: &TypeScope<'_>, element: &Ty, all: &Exprs) -> Result<Ty, ExprFault>
    ensures { GivesType result
        (elements_walk (map type_of scope.now.params.now) (type_of scope.now.input.now)
        (type_of element.now)
        (expressions_of all.now)) }
{
    for part in all.as_slice() {
        walk_wanted(scope, part, element)?;
    }
    list_type(scope.alloc, element)
}

/// Tests that the type that was found is the one that is wanted.
fn matching(found: &Ty, ty: &Ty) -> Result<(), ExprFault>
    ensures { Passes result (expect (Ok (type_of found.now)) (type_of ty.now)) (type_of ty.now) }
{
    if same_type(found, ty) {
        Ok(())
    } else {
        Err(ExprFault::Mismatch)
    }
}

/// The type, where a test was passed and the type is within the limits.
fn passed(tested: Result<(), ExprFault>, ty: Ty) -> Result<Ty, ExprFault>
    ensures { MatchResult tested (λ _. GivesType result (within_limits (type_of ty)))
        (λ f. result ≡ Err f) }
{
    match tested {
        Ok(()) => limited(ty),
        Err(fault) => {
            drop(ty);
            Err(fault)
        }
    }
}

/// The type of no event that carries the type.
fn no_event_type(alloc: Global, carried: &Ty) -> Result<Ty, ExprFault>
    ensures { GivesType result
        (on_ok (within_limits (type_of carried.now)) (λ T. within_limits (event_ty T))) }
{
    if !type_fits(carried) {
        return Err(ExprFault::TooDeep);
    }
    let carried = copied_child(alloc, carried)?;
    limited(Ty::Event(carried))
}

/// The type of the input with what an event carries, where it is within the limits.
fn body_input(alloc: Global, input: &Ty, carried: &Ty) -> Result<Ty, ExprFault>
    ensures { GivesType result (within_limits (pair_ty (type_of input.now) (type_of carried.now))) }
{
    let input = copied_child(alloc, input)?;
    let carried = copied_child(alloc, carried)?;
    limited(Ty::Pair(input, carried))
}

/// The type of lists of the type, where it is within the limits.
fn list_type(alloc: Global, element: &Ty) -> Result<Ty, ExprFault>
    ensures { GivesType result (within_limits (list_ty (type_of element.now))) }
{
    let element = copied_child(alloc, element)?;
    limited(Ty::List(element))
}

/// A copy of the type, as a part of another.
fn copied_child(alloc: Global, ty: &Ty) -> Result<TyChild, ExprFault>
    ensures { GivesUnless F.Memory (λ t. t) result (Ok (type_of ty.now)) }
{
    let copy = copied(alloc, ty)?;
    child_of(alloc, copy)
}

/// The type as a part of another.
fn child_of(alloc: Global, ty: Ty) -> Result<TyChild, ExprFault>
    ensures { GivesUnless F.Memory (λ t. t) result (Ok (type_of ty)) }
{
    match TyChild::new(alloc, ty) {
        Ok(child) => Ok(child),
        Err(Memory) => Err(ExprFault::Memory),
    }
}

/// A copy of the type.
fn copied(alloc: Global, ty: &Ty) -> Result<Ty, ExprFault>
    ensures { GivesType result (Ok (type_of ty.now)) }
{
    match ty.try_copy(alloc) {
        Ok(copy) => Ok(copy),
        Err(Memory) => Err(ExprFault::Memory),
    }
}

/// The type, where it is within the limits.
fn limited(ty: Ty) -> Result<Ty, ExprFault>
    ensures { GivesType result (within_limits (type_of ty)) }
{
    if type_fits(&ty) {
        Ok(ty)
    } else {
        drop(ty);
        Err(ExprFault::TooDeep)
    }
}

/// A copy of the type, where it is within the limits.
fn limited_copy(alloc: Global, ty: &Ty) -> Result<Ty, ExprFault>
    ensures { GivesType result (within_limits (type_of ty.now)) }
{
    if !type_fits(ty) {
        return Err(ExprFault::TooDeep);
    }
    copied(alloc, ty)
}

/// The type of a literal.
pub fn literal_type(literal: Literal) -> Ty
    ensures { (Ps : List TypeTree) (A : TypeTree)
        → type_walk Ps A (literal_of literal) ≡ within_limits (type_of result) }
{
    match literal {
        Literal::Unit => Ty::Unit,
        Literal::Bool(_) => Ty::Bool,
        Literal::Int(_) => Ty::Int,
    }
}

/// The type of parameter k, where it is within the limits.
fn param_type(alloc: Global, params: &[Ty], k: u32) -> Result<Ty, ExprFault>
    ensures { GivesType result (on_ok (type_of_param (map type_of params.now) k) within_limits) }
{
    match params.get(k as usize) {
        Some(ty) => limited_copy(alloc, ty),
        None => Err(ExprFault::NoParam),
    }
}

/// The type of a pair's first or second part, as the form says, where it is within the limits.
fn part_type(alloc: Global, form: &Expr, pair: &Ty) -> Result<Ty, ExprFault>
    ensures { GivesType result
        (on_ok (part_type (expression_of form.now) (type_of pair.now)) within_limits) }
{
    let Ty::Pair(first, second) = pair else {
        return Err(ExprFault::Mismatch);
    };
    match form {
        Expr::Fst(_) => limited_copy(alloc, first.get()),
        _ => limited_copy(alloc, second.get()),
    }
}

/// The type of a list's length.
fn length_type(list: &Ty) -> Result<Ty, ExprFault>
    ensures { GivesType result (on_ok (element_type (type_of list.now)) (λ _. within_limits int_ty)) }
{
    match list {
        Ty::List(_) => limited(Ty::Int),
        _ => Err(ExprFault::Mismatch),
    }
}
