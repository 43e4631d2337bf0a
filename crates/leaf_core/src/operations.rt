// What the forms of expressions do with the values of their parts.

ghost use Rattle.std.specs.Prelude.{◌≡◌, IfOk, IsErr, MatchOption, OnErr, OnOk, pos, neg_ℤ, map, []};
ghost use Rattle.std.specs.Int.{int_wrap, w64};
ghost use Rattle.sample_core.specs.Datum.{Datum, bool, int, int_of, pair, unit};
ghost use Rattle.sample_core.specs.ValueView.{datum_of};
ghost use Rattle.leaf_core.specs.ExpressionView.{expression_of, literal_of};
ghost use Rattle.leaf_core.specs.ExpressionValue.{value_of, is_true, sum_by, part_of, element_at, count_of, param_at, same_datum};

use crate::expr::Expr;
use crate::literal::Literal;
use sample_core::{Memory, Sample, SamplePair, same};
use std::alloc::Global;

/// The value that a literal writes out.
pub fn literal_value(literal: Literal) -> Sample
    ensures { datum_of result ≡ value_of (literal_of literal) [] unit }
{
    match literal {
        Literal::Unit => Sample::Unit,
        Literal::Bool(b) => Sample::Bool(b),
        Literal::Int(n) => Sample::Int(n),
    }
}

/// The number's negative, modulo 2^64, read as signed.
pub fn negated(n: i64) -> i64
    ensures { result ≡ int_wrap w64 (neg_ℤ n) }
{
    n.wrapping_neg()
}

/// The sum, the difference or the product of two numbers, as the form says, modulo 2^64 and read as
/// signed; 0 under another form.
pub fn sum_of(form: &Expr, m: i64, n: i64) -> i64
    ensures { result ≡ sum_by (expression_of form.now) m n }
{
    match form {
        Expr::Add(..) => m.wrapping_add(n),
        Expr::Sub(..) => m.wrapping_sub(n),
        Expr::Mul(..) => m.wrapping_mul(n),
        _ => 0,
    }
}

/// Whether a value is `true`.
pub fn truth(value: &Sample) -> bool
    ensures { result ≡ is_true (datum_of value.now) }
{
    matches!(value, Sample::Bool(true))
}

/// The first or the second part of a pair, as the form says; another value itself.
pub fn part<'v>(form: &Expr, value: &'v Sample) -> &'v Sample
    ensures { datum_of result.now ≡ part_of (expression_of form.now) (datum_of value.now) }
{
    let Sample::Pair(parts) = value else {
        return value;
    };
    match form {
        Expr::Fst(_) => parts.first(),
        _ => parts.second(),
    }
}

/// Parameter k, from 0; `None` if there is none.
pub fn param(params: &[Sample], k: u32) -> Option<&Sample>
    ensures { MatchOption result (param_at (map datum_of params.now) k ≡ unit)
        (λ v. param_at (map datum_of params.now) k ≡ datum_of v.now) }
{
    match params.get(k as usize) {
        Some(value) => Some(value),
        None => None,
    }
}

/// The number of parameter k, from 0; 0 if there is none, or where it is no number.
pub fn param_number(params: &[Sample], k: u32) -> i64
    ensures { result ≡ int_of (param_at (map datum_of params.now) k) }
{
    match param(params, k) {
        Some(value) => value.number(),
        None => 0,
    }
}

/// Puts a copy of parameter k, from 0, in place of another value; `unit` if there is none.
pub fn put_param(alloc: Global, params: &[Sample], k: u32, place: &mut Sample) -> Result<(), Memory>
    ensures { OnOk result (datum_of place.new ≡ param_at (map datum_of params.now) k) }
{
    match param(params, k) {
        Some(value) => place.put_copy(alloc, value),
        None => {
            place.put(Sample::Unit);
            Ok(())
        }
    }
}

/// Puts the pair of two values in place of another value.
#[inline(always)]
pub fn put_pair(
    alloc: Global,
    first: Sample,
    second: Sample,
    place: &mut Sample,
) -> Result<(), Memory>
    ensures { OnOk result (datum_of place.new ≡ pair (datum_of first) (datum_of second)) }
{
    let parts = SamplePair::new(alloc, first, second)?;
    place.put(Sample::Pair(parts));
    Ok(())
}

/// Puts a number, if there is one, in place of a value.
#[inline(always)]
pub fn put_number(n: Result<i64, Memory>, place: &mut Sample) -> Result<(), Memory>
    ensures ok { IfOk n (λ n. datum_of place.new ≡ int n) }
    ensures err { OnErr n (IsErr result) }
{
    let n = n?;
    place.put_int(n);
    Ok(())
}

/// Puts a truth, if there is one, in place of a value.
#[inline(always)]
pub fn put_truth(t: Result<bool, Memory>, place: &mut Sample) -> Result<(), Memory>
    ensures ok { IfOk t (λ t. datum_of place.new ≡ bool t) }
    ensures err { OnErr t (IsErr result) }
{
    let t = t?;
    place.put_bool(t);
    Ok(())
}

/// The element of a list value at a place, from 0; `None` outside.
pub fn element(value: &Sample, at: i64) -> Option<&Sample>
    ensures { MatchOption result ((d : Datum) → element_at (datum_of value.now) at d ≡ d)
        (λ found. (d : Datum) → element_at (datum_of value.now) at d ≡ datum_of found.now) }
{
    let Sample::List(all) = value else {
        return None;
    };
    let Ok(at) = usize::try_from(at) else {
        return None;
    };
    match all.as_slice().get(at) {
        Some(found) => Some(found),
        None => None,
    }
}

/// The length of a list value, modulo 2^64 and read as signed; 0 of another.
pub fn count(value: &Sample) -> i64
    ensures { result ≡ int_wrap w64 (pos (count_of (datum_of value.now))) }
{
    match value {
        Sample::List(all) => all.as_slice().len() as i64,
        _ => 0,
    }
}

/// Whether two values are the same.
pub fn equal(a: &Sample, b: &Sample) -> bool
    ensures { result ≡ same_datum (datum_of a.now) (datum_of b.now) }
{
    same(a, b)
}
