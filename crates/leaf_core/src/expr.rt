// Expressions as trees.

ghost use Rattle.std.specs.Prelude.{◌≡◌, IfOk, map};
ghost use Rattle.leaf_core.specs.Inside.{plain, with_one, with_two, with_three};
ghost use Rattle.leaf_core.specs.ExpressionView.{expression_of};
ghost use Rattle.leaf_core.specs.declared.expr.Expr.TheVariants as E;

use crate::contents::{Contents, inside};
use crate::literal::Literal;
use sample_core::{Memory, Ty};
use std::alloc::Global;
use std::marker::Model;
use std::rc::Rc;

/// An expression: a total function of an input and of parameters. Copies of it share its parts.
/// Numbers are taken modulo 2^64 and read as signed.
#[cycle(expr)]
#[derive(Drop)]
pub enum Expr {
    /// `x`, the input.
    Input,
    /// `(p k)`: parameter k, counted from 0.
    Param(u32),
    /// A literal.
    Literal(Literal),
    /// `(pair a b)`: the pair of the two.
    Pair(ExprChild, ExprChild),
    /// `(fst e)`: the first part of a pair.
    Fst(ExprChild),
    /// `(snd e)`: the second part of a pair.
    Snd(ExprChild),
    /// `(then f g)`: g at the value of f.
    Then(ExprChild, ExprChild),
    /// `(neg a)`: the negative of a.
    Neg(ExprChild),
    /// `(add a b)`: the sum.
    Add(ExprChild, ExprChild),
    /// `(sub a b)`: a minus b.
    Sub(ExprChild, ExprChild),
    /// `(mul a b)`: the product.
    Mul(ExprChild, ExprChild),
    /// `(less a b)`: whether the number a is below b.
    Less(ExprChild, ExprChild),
    /// `(equal a b)`: whether the two values are the same.
    Equal(ExprChild, ExprChild),
    /// `(not a)`: whether a isn't true.
    Not(ExprChild),
    /// `(and a b)`: whether both are true.
    And(ExprChild, ExprChild),
    /// `(or a b)`: whether one or both are true.
    Or(ExprChild, ExprChild),
    /// `(if c a b)`: a where c is true, else b.
    If(ExprChild, ExprChild, ExprChild),
    /// `(none T)`: no event, among events that carry a T.
    NoEvent(Ty),
    /// `(event e)`: an event that carries e.
    Event(ExprChild),
    /// `(on e d b)`: with an event v of e, b at the pair of the input and v; else d.
    On(ExprChild, ExprChild, ExprChild),
    /// `(list T e1 .. en)`: the list of these, each a T.
    List(Ty, Exprs),
    /// `(nth e i d)`: the element of the list e at i, counted from 0; d outside.
    Nth(ExprChild, ExprChild, ExprChild),
    /// `(len e)`: how many elements the list e has.
    Len(ExprChild),
}

/// An expression inside an expression. Contracts see it as the expression's tree; copies share it.
#[cycle(expr)]
#[derive(Drop)]
pub struct ExprChild {
    inner: Rc<Expr>,
}

/// The elements of a list expression. Contracts see them as a list of trees; copies share them.
#[cycle(expr)]
#[derive(Drop)]
pub struct Exprs {
    all: Rc<Vec<Expr>>,
}

impl Model for ExprChild {
    ghost use Rattle.leaf_core.specs.Expression.{Expression, nodes_in};
    ghost use Rattle.leaf_core.specs.ExpressionCode.{expression_code};

    ghost Value = { Expression };

    ghost coded = { expression_code };

    ghost use Rattle.leaf_core.specs.ExpressionView.{expression_of};

    ghost view = { λ a. expression_of a.inner.value };

    ghost size = { nodes_in };

    ghost use Rattle.leaf_core.specs.Depth.{depth_le};

    ghost size_decreases = { λ a h. depth_le a.inner.value };
}

impl Model for Exprs {
    ghost use Rattle.std.specs.Prelude.{List, map};
    ghost use Rattle.std.specs.Coded.{coded_list};
    ghost use Rattle.leaf_core.specs.Expression.{Expression, expressions_of, nodes_in_all};
    ghost use Rattle.leaf_core.specs.ExpressionCode.{expression_code};

    ghost Value = { List Expression };

    ghost coded = { coded_list expression_code };

    ghost use Rattle.leaf_core.specs.ExpressionView.{expression_of};

    ghost view = { λ a. map expression_of a.all.value.items };

    ghost size = { λ es. nodes_in_all (expressions_of es) };

    ghost use Rattle.leaf_core.specs.Depth.{depths_le};
    ghost use Rattle.std.proofs.Common.{arith};

    ghost size_decreases = { λ a h. Prim.omega (arith, depths_le a.all.value.items) };
}

impl Expr {
    /// A copy, whose parts are shared with it. It takes no memory; `Memory` only if a count of
    /// references is full.
    pub fn try_copy(&self, alloc: Global) -> Result<Expr, Memory>
        ensures { IfOk result (λ e. e ≡ self.now) }
    {
        match inside(self) {
            Contents::Nothing => Ok(plain(self)),
            Contents::Index(k) => Ok(Expr::Param(k)),
            Contents::Number(n) => Ok(Expr::Literal(Literal::Int(n))),
            Contents::One(a) => copy_of_one(self, a),
            Contents::Two(a, b) => copy_of_two(self, a, b),
            Contents::Three(a, b, c) => copy_of_three(self, a, b, c),
            Contents::Type(carried) => copy_no_event(alloc, carried),
            Contents::Elements(element, all) => copy_list(alloc, element, all),
        }
    }
}

/// The expression's form, which has nothing inside.
fn plain(form: &Expr) -> Expr
    ensures { result ≡ plain form.now }
{
    match form {
        Expr::Literal(literal) => Expr::Literal(*literal),
        _ => Expr::Input,
    }
}

/// The expression's form, with a copy of this part.
fn copy_of_one(form: &Expr, a: &ExprChild) -> Result<Expr, Memory>
    ensures { IfOk result (λ e. e ≡ with_one form.now a.now) }
{
    let a = a.try_copy()?;
    Ok(with_one_part(form, a))
}

/// The expression's form, with copies of these two parts.
fn copy_of_two(form: &Expr, a: &ExprChild, b: &ExprChild) -> Result<Expr, Memory>
    ensures { IfOk result (λ e. e ≡ with_two form.now a.now b.now) }
{
    let a = a.try_copy()?;
    let b = b.try_copy()?;
    Ok(with_two_parts(form, a, b))
}

/// The expression's form, with copies of these three parts.
fn copy_of_three(form: &Expr, a: &ExprChild, b: &ExprChild, c: &ExprChild) -> Result<Expr, Memory>
    ensures { IfOk result (λ e. e ≡ with_three form.now a.now b.now c.now) }
{
    let a = a.try_copy()?;
    let b = b.try_copy()?;
    let c = c.try_copy()?;
    Ok(with_three_parts(form, a, b, c))
}

/// The expression's form, which has one part, with this one in its place. Where it has another
/// number of parts, the length of this one.
pub fn with_one_part(form: &Expr, a: ExprChild) -> Expr
    ensures { result ≡ with_one form.now a }
{
    match form {
        Expr::Fst(_) => Expr::Fst(a),
        Expr::Snd(_) => Expr::Snd(a),
        Expr::Neg(_) => Expr::Neg(a),
        Expr::Not(_) => Expr::Not(a),
        Expr::Event(_) => Expr::Event(a),
        _ => Expr::Len(a),
    }
}

/// The expression's form, which has two parts, with these in their place. Where it has another
/// number of parts, whether one of these or both are true.
pub fn with_two_parts(form: &Expr, a: ExprChild, b: ExprChild) -> Expr
    ensures { result ≡ with_two form.now a b }
{
    match form {
        Expr::Pair(..) => Expr::Pair(a, b),
        Expr::Then(..) => Expr::Then(a, b),
        Expr::Add(..) => Expr::Add(a, b),
        Expr::Sub(..) => Expr::Sub(a, b),
        Expr::Mul(..) => Expr::Mul(a, b),
        Expr::Less(..) => Expr::Less(a, b),
        Expr::Equal(..) => Expr::Equal(a, b),
        Expr::And(..) => Expr::And(a, b),
        _ => Expr::Or(a, b),
    }
}

/// The expression's form, which has three parts, with these in their place. Where it has another
/// number of parts, the element of the first at the second, or else the third.
pub fn with_three_parts(form: &Expr, a: ExprChild, b: ExprChild, c: ExprChild) -> Expr
    ensures { result ≡ with_three form.now a b c }
{
    match form {
        Expr::If(..) => Expr::If(a, b, c),
        Expr::On(..) => Expr::On(a, b, c),
        _ => Expr::Nth(a, b, c),
    }
}

/// A copy of no event that carries the type.
fn copy_no_event(alloc: Global, carried: &Ty) -> Result<Expr, Memory>
    ensures { IfOk result (λ e. e ≡ E.NoEvent carried.now) }
{
    let carried = carried.try_copy(alloc)?;
    Ok(Expr::NoEvent(carried))
}

/// A copy of the list of these elements.
fn copy_list(alloc: Global, element: &Ty, all: &Exprs) -> Result<Expr, Memory>
    ensures { IfOk result (λ e. e ≡ E.List element.now all.now) }
{
    let all = all.try_copy()?;
    let element = element.try_copy(alloc)?;
    Ok(Expr::List(element, all))
}

impl ExprChild {
    /// The expression as a part of another. `Memory` if allocation fails.
    pub fn new(alloc: Global, expr: Expr) -> Result<ExprChild, Memory>
        ensures { IfOk result (λ p. p ≡ expression_of expr) }
    {
        let inner = Rc::new(alloc, expr)?;
        Ok(ExprChild { inner })
    }

    /// The expression itself.
    pub fn get(&self) -> &Expr
        ensures { expression_of result.now ≡ self.now }
    {
        &self.inner
    }

    /// This expression, shared. It takes no memory; `Memory` only if a count of references is full.
    pub fn try_copy(&self) -> Result<ExprChild, Memory>
        ensures { IfOk result (λ p. p ≡ self.now) }
    {
        let inner = self.inner.clone()?;
        Ok(ExprChild { inner })
    }
}

impl Exprs {
    /// The expressions as the elements of a list expression, in order. `Memory` if allocation
    /// fails.
    pub fn new(alloc: Global, all: Vec<Expr>) -> Result<Exprs, Memory>
        ensures { IfOk result (λ es. es ≡ map expression_of all.items) }
    {
        let all = Rc::new(alloc, all)?;
        Ok(Exprs { all })
    }

    /// The elements in order.
    pub fn as_slice(&self) -> &[Expr]
        ensures { map expression_of result.now ≡ self.now }
    {
        self.all.as_slice()
    }

    /// These elements, shared. It takes no memory; `Memory` only if a count of references is full.
    pub fn try_copy(&self) -> Result<Exprs, Memory>
        ensures { IfOk result (λ es. es ≡ self.now) }
    {
        let all = self.all.clone()?;
        Ok(Exprs { all })
    }
}
