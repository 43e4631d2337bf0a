// What the closures call: one function for each shape of expression. Each takes the values of the
// parameters and the input `x`; only the one for any expression looks at the parameters.

ghost use Rattle.std.specs.Prelude.{◌≡◌, IfOk, map};
ghost use Rattle.sample_core.specs.ValueView.{datum_of};
ghost use Rattle.leaf_core.specs.declared.shape.Shape.TheVariants as S;
ghost use Rattle.leaf_table.specs.Computes.{Computes, OfShape};

use crate::part::{child, copied, paired, product, sum};
use leaf_core::{Expr, LeafKey, Literal, eval, eval_over};
use sample_core::{Memory, Sample};
use std::alloc::{AllocError, Global};
use std::cell::Cell;

/// The input itself, for an expression of the shape `Identity`. `AllocError` only where a count of
/// references is full.
#[inline(always)]
pub fn run_identity(alloc: Global, _params: &[Sample], x: &Sample) -> Result<Sample, AllocError>
    ensures { IfOk result (λ v. OfShape S.Identity (datum_of x.now) (datum_of v)) }
{
    copied(alloc, x)
}

/// The literal `c`, for an expression of the shape `Constant`. It takes no memory and refuses
/// nothing.
#[inline(always)]
pub fn run_constant(
    _: Global,
    c: Literal,
    _params: &[Sample],
    x: &Sample,
) -> Result<Sample, AllocError>
    ensures { IfOk result (λ v. OfShape (S.Constant c) (datum_of x.now) (datum_of v)) }
{
    let _ = x;
    Ok(match c {
        Literal::Unit => Sample::Unit,
        Literal::Bool(b) => Sample::Bool(b),
        Literal::Int(n) => Sample::Int(n),
    })
}

/// The input times `a` and `b` more, modulo 2^64 and read as signed, for an expression of the
/// shape `Affine`. An input that is no number counts as 0. It takes no memory and refuses nothing.
#[inline(always)]
pub fn run_affine(
    _: Global,
    a: i64,
    b: i64,
    _params: &[Sample],
    x: &Sample,
) -> Result<Sample, AllocError>
    ensures { IfOk result (λ v. OfShape (S.Affine a b) (datum_of x.now) (datum_of v)) }
{
    Ok(Sample::Int(sum(product(a, x.number()), b)))
}

/// The input's parts the other way round, for an expression of the shape `Swap`. Each part of an
/// input that is no pair is the input itself. `AllocError` where allocation failed.
#[inline(always)]
pub fn run_swap(alloc: Global, _params: &[Sample], x: &Sample) -> Result<Sample, AllocError>
    ensures { IfOk result (λ v. OfShape S.Swap (datum_of x.now) (datum_of v)) }
{
    paired(alloc, x.right(), x.left())
}

/// The input's first part, for an expression of the shape `Left`; another input than a pair
/// itself. `AllocError` only where a count of references is full.
#[inline(always)]
pub fn run_left(alloc: Global, _params: &[Sample], x: &Sample) -> Result<Sample, AllocError>
    ensures { IfOk result (λ v. OfShape S.Left (datum_of x.now) (datum_of v)) }
{
    copied(alloc, x.left())
}

/// The input's second part, for an expression of the shape `Right`; another input than a pair
/// itself. `AllocError` only where a count of references is full.
#[inline(always)]
pub fn run_right(alloc: Global, _params: &[Sample], x: &Sample) -> Result<Sample, AllocError>
    ensures { IfOk result (λ v. OfShape S.Right (datum_of x.now) (datum_of v)) }
{
    copied(alloc, x.right())
}

/// Whether the input is less than `k`, for an expression of the shape `Below`. An input that is no
/// number counts as 0. It takes no memory and refuses nothing.
#[inline(always)]
pub fn run_below(_: Global, k: i64, _params: &[Sample], x: &Sample) -> Result<Sample, AllocError>
    ensures { IfOk result (λ v. OfShape (S.Below k) (datum_of x.now) (datum_of v)) }
{
    Ok(Sample::Bool(x.number() < k))
}

/// An event that carries the input, for an expression of the shape `Wrap`. `AllocError` where
/// allocation failed.
#[inline(always)]
pub fn run_wrap(alloc: Global, _params: &[Sample], x: &Sample) -> Result<Sample, AllocError>
    ensures { IfOk result (λ v. OfShape S.Wrap (datum_of x.now) (datum_of v)) }
{
    Ok(Sample::Event(child(alloc, x)?))
}

/// The value of the key's expression at the input, whatever its shape is, where `params[k]` is the
/// value of parameter k. `AllocError` where allocation failed.
#[inline(always)]
pub fn run_general(
    alloc: Global,
    key: &LeafKey,
    params: &[Sample],
    x: &Sample,
) -> Result<Sample, AllocError>
    ensures { IfOk result
        (λ v. Computes key.now (map datum_of params.now) (datum_of x.now) (datum_of v)) }
{
    match eval(alloc, &key.expr, params, x) {
        Ok(value) => Ok(value),
        Err(Memory) => Err(AllocError),
    }
}

/// The value of `run_general`, where `last` keeps the last answer from call to call, unless it is a
/// number: the next one takes no memory for parts that stand where parts of the last stood, as far
/// as no one else holds these any more. A sum, a difference or a product is a number, and doesn't
/// ask for it.
#[inline(always)]
pub fn run_again(
    alloc: Global,
    key: &LeafKey,
    last: &Cell<Sample>,
    params: &[Sample],
    x: &Sample,
) -> Result<Sample, AllocError>
    ensures { IfOk result
        (λ v. Computes key.now (map datum_of params.now) (datum_of x.now) (datum_of v)) }
{
    match &key.expr {
        Expr::Add(..) | Expr::Sub(..) | Expr::Mul(..) => run_general(alloc, key, params, x),
        _ => run_over(alloc, key, last, params, x),
    }
}

/// The value at the input, in place of the last answer, whatever the expression is.
#[inline(never)]
fn run_over(
    alloc: Global,
    key: &LeafKey,
    last: &Cell<Sample>,
    params: &[Sample],
    x: &Sample,
) -> Result<Sample, AllocError>
    ensures { IfOk result
        (λ v. Computes key.now (map datum_of params.now) (datum_of x.now) (datum_of v)) }
{
    let mut place = last.replace(Sample::Unit);
    match eval_over(alloc, &key.expr, params, x, &mut place) {
        Ok(()) => match place {
            Sample::Int(n) => Ok(Sample::Int(n)),
            value => kept(alloc, last, value),
        },
        Err(Memory) => {
            drop(place);
            Err(AllocError)
        }
    }
}

/// The value, of which `last` keeps a copy. `AllocError` only where a count of references is full.
#[inline(never)]
fn kept(alloc: Global, last: &Cell<Sample>, value: Sample) -> Result<Sample, AllocError>
    ensures { IfOk result (λ v. datum_of v ≡ datum_of value) }
{
    let answer = copied(alloc, &value);
    drop(last.replace(value));
    answer
}
