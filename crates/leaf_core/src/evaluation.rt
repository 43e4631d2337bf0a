// The value of an expression.

ghost use Rattle.std.specs.Prelude.{◌≡◌, IfOk, OnOk, int_lt, map, neg_ℤ, not, pos};
ghost use Rattle.std.specs.Int.{int_wrap, w64};
ghost use Rattle.sample_core.specs.Datum.{event, int_of, list, list_of, pair};
ghost use Rattle.sample_core.specs.ValueView.{datum_of};
ghost use Rattle.leaf_core.specs.{Expression.expressions_of, Expression.on, ExpressionView.expression_of};
ghost use Rattle.leaf_core.specs.ExpressionValue.{value_of, is_true, choose, count_of, element_at, logic_by, on_event, part_of, same_datum, sum_by};
ghost use Rattle.leaf_core.specs.{LookedView.looked_value, ScopeView.value_in, ScopeView.values_in};

use crate::expr::{Expr, ExprChild, Exprs};
use crate::literal::Literal;
use crate::looked::{Looked, path_at, short_path_at};
use crate::operations::{
    count, element, equal, literal_value, negated, param_number, part, put_number, put_pair,
    put_param, put_truth, sum_of, truth,
};
use crate::scope::Scope;
use sample_core::{Memory, Sample, SampleChild, SamplePair, Samples};
use std::alloc::Global;

/// The value of the expression at the input `x`, where `params[k]` is the value of parameter k.
/// Sums, differences, products, negatives and lengths are taken modulo 2^64 and read as signed.
/// `Memory` if allocation fails.
///
/// Nothing is asked of the expression. Where it is ill typed, a default stands in place of what is
/// missing: 0 for a number and for a length, `false` for a truth, `unit` for a parameter, the value
/// itself for a part of a pair, and the `d` of `on` and `nth` for what an event or a list would
/// give.
#[inline(always)]
pub fn eval(alloc: Global, expr: &Expr, params: &[Sample], x: &Sample) -> Result<Sample, Memory>
    ensures { IfOk result
        (λ s. datum_of s ≡ value_of (expression_of expr.now) (map datum_of params.now)
        (datum_of x.now)) }
{
    let mut value = Sample::Unit;
    match eval_over(alloc, expr, params, x, &mut value) {
        Ok(()) => Ok(value),
        Err(Memory) => {
            drop(value);
            Err(Memory)
        }
    }
}

/// The value of `eval`, in place of another. Its parts stand where parts of that other stood, as
/// far as no one else holds them, and take no memory there. After a refusal some value stands
/// there.
#[inline(always)]
pub fn eval_over(
    alloc: Global,
    expr: &Expr,
    params: &[Sample],
    x: &Sample,
    place: &mut Sample,
) -> Result<(), Memory>
    ensures { OnOk result
        (datum_of place.new ≡ value_of (expression_of expr.now) (map datum_of params.now)
        (datum_of x.now)) }
{
    let scope = Scope { alloc, params, x };
    match expr {
        Expr::Add(a, b) | Expr::Sub(a, b) | Expr::Mul(a, b) => {
            put_number(eval_sum(&scope, expr, a, b), place)
        }
        _ => eval_into(&scope, expr, place),
    }
}

/// Puts the value of the expression over a scope in place of another value.
#[cycle(eval)]
fn eval_into(scope: &Scope<'_>, expr: &Expr, place: &mut Sample) -> Result<(), Memory>
    ensures { OnOk result
        (datum_of place.new ≡ value_in (expression_of expr.now) scope.now) }
{
    match expr {
        Expr::Input => place.put_copy(scope.alloc, scope.x),
        Expr::Param(k) => put_param(scope.alloc, scope.params, *k, place),
        Expr::Literal(literal) => {
            place.put(literal_value(*literal));
            Ok(())
        }
        Expr::Pair(a, b) => eval_pair(scope, a, b, place),
        Expr::Fst(e) | Expr::Snd(e) => eval_part(scope, expr, e, place),
        Expr::Then(f, g) => eval_then(scope, f, g, place),
        Expr::Neg(a) => put_number(eval_neg(scope, a), place),
        Expr::Add(a, b) | Expr::Sub(a, b) | Expr::Mul(a, b) => {
            put_number(eval_sum(scope, expr, a, b), place)
        }
        Expr::Less(a, b) => put_truth(eval_less(scope, a, b), place),
        Expr::Equal(a, b) => put_truth(eval_equal(scope, a, b), place),
        Expr::Not(a) => put_truth(eval_not(scope, a), place),
        Expr::And(a, b) | Expr::Or(a, b) => put_truth(eval_logic(scope, expr, a, b), place),
        Expr::If(c, a, b) => eval_if(scope, c, a, b, place),
        Expr::NoEvent(_) => {
            place.put(Sample::NoEvent);
            Ok(())
        }
        Expr::Event(e) => eval_event(scope, e, place),
        Expr::On(e, d, b) => eval_on(scope, e, d, b, place),
        Expr::List(_, elements) => eval_elements(scope, elements, place),
        Expr::Nth(e, i, d) => eval_nth(scope, e, i, d, place),
        Expr::Len(e) => put_number(eval_len(scope, e), place),
    }
}

/// The value of a pair.
#[cycle(eval)]
fn eval_pair(
    scope: &Scope<'_>,
    a: &ExprChild,
    b: &ExprChild,
    place: &mut Sample,
) -> Result<(), Memory>
    ensures { OnOk result
        (datum_of place.new ≡ pair (value_in a.now scope.now) (value_in b.now scope.now)) }
{
    if let Sample::Pair(there) = place {
        if let Some(first) = there.first_mut() {
            eval_into(scope, a.get(), first)?;
            if let Some(second) = there.second_mut() {
                return eval_into(scope, b.get(), second);
            }
        }
    }
    eval_new_pair(scope, a, b, place)
}

/// The value of a pair that takes a place of its own.
#[cycle(eval)]
fn eval_new_pair(
    scope: &Scope<'_>,
    a: &ExprChild,
    b: &ExprChild,
    place: &mut Sample,
) -> Result<(), Memory>
    ensures { OnOk result
        (datum_of place.new ≡ pair (value_in a.now scope.now) (value_in b.now scope.now)) }
{
    let mut first = Sample::Unit;
    let mut second = Sample::Unit;
    match eval_both(scope, a, b, &mut first, &mut second) {
        Ok(()) => put_pair(scope.alloc, first, second, place),
        Err(Memory) => {
            drop(first);
            drop(second);
            Err(Memory)
        }
    }
}

/// Puts the values of both expressions in the places of others.
#[cycle(eval)]
#[inline(always)]
fn eval_both(
    scope: &Scope<'_>,
    a: &ExprChild,
    b: &ExprChild,
    first: &mut Sample,
    second: &mut Sample,
) -> Result<(), Memory>
    ensures first { OnOk result (datum_of first.new ≡ value_in a.now scope.now) }
    ensures second { OnOk result (datum_of second.new ≡ value_in b.now scope.now) }
{
    eval_into(scope, a.get(), first)?;
    eval_into(scope, b.get(), second)
}

/// The first or the second part of a value, as the form says.
#[cycle(eval)]
fn eval_part(
    scope: &Scope<'_>,
    form: &Expr,
    e: &ExprChild,
    place: &mut Sample,
) -> Result<(), Memory>
    ensures { OnOk result
        (datum_of place.new ≡ part_of (expression_of form.now) (value_in e.now scope.now)) }
{
    match path_at(scope, e.get()) {
        Some(pair) => place.put_copy(scope.alloc, part(form, pair)),
        None => eval_part_off(scope, form, e, place),
    }
}

/// A part of a value that is on no path. No part of a part of it is looked for on a path again.
#[cycle(eval)]
#[inline(never)]
fn eval_part_off(
    scope: &Scope<'_>,
    form: &Expr,
    e: &ExprChild,
    place: &mut Sample,
) -> Result<(), Memory>
    ensures { OnOk result
        (datum_of place.new ≡ part_of (expression_of form.now) (value_in e.now scope.now)) }
{
    let mut pair = Sample::Unit;
    let found = match eval_off(scope, e, &mut pair) {
        Ok(()) => place.put_copy(scope.alloc, part(form, &pair)),
        Err(Memory) => Err(Memory),
    };
    drop(pair);
    found
}

/// The value of an expression that is on no path.
#[cycle(eval)]
fn eval_off(scope: &Scope<'_>, e: &ExprChild, place: &mut Sample) -> Result<(), Memory>
    ensures { OnOk result (datum_of place.new ≡ value_in e.now scope.now) }
{
    let form = e.get();
    match form {
        Expr::Fst(e) | Expr::Snd(e) => eval_part_off(scope, form, e, place),
        _ => eval_into(scope, form, place),
    }
}

/// What the value of an expression is read off: the value itself, where that stands on a path, else
/// a new one.
#[cycle(eval)]
fn look<'v>(scope: &Scope<'v>, expr: &ExprChild) -> Result<Looked<'v>, Memory>
    ensures { IfOk result (λ l. looked_value l ≡ value_in expr.now scope.now) }
{
    match path_at(scope, expr.get()) {
        Some(value) => Ok(Looked::There(value)),
        None => eval_made(scope, expr),
    }
}

/// A new value, to be looked at.
#[cycle(eval)]
#[inline(never)]
fn eval_made<'v>(scope: &Scope<'v>, expr: &ExprChild) -> Result<Looked<'v>, Memory>
    ensures { IfOk result (λ l. looked_value l ≡ value_in expr.now scope.now) }
{
    let mut value = Sample::Unit;
    match eval_into(scope, expr.get(), &mut value) {
        Ok(()) => Ok(Looked::Made(value)),
        Err(Memory) => {
            drop(value);
            Err(Memory)
        }
    }
}

/// The value of an expression at another input.
#[cycle(eval)]
fn eval_at(scope: &Scope<'_>, e: &ExprChild, x: &Sample, place: &mut Sample) -> Result<(), Memory>
    ensures { OnOk result
        (datum_of place.new ≡
        value_of e.now (map datum_of scope.now.params.now) (datum_of x.now)) }
{
    let inner = Scope {
        alloc: scope.alloc,
        params: scope.params,
        x,
    };
    eval_into(&inner, e.get(), place)
}

/// The value of one expression at that of another.
#[cycle(eval)]
fn eval_then(
    scope: &Scope<'_>,
    f: &ExprChild,
    g: &ExprChild,
    place: &mut Sample,
) -> Result<(), Memory>
    ensures { OnOk result
        (datum_of place.new ≡ value_of g.now (map datum_of scope.now.params.now)
        (value_in f.now scope.now)) }
{
    let between = look(scope, f)?;
    let found = eval_at(scope, g, between.get(), place);
    drop(between);
    found
}

/// The value of one of two expressions.
#[cycle(eval)]
fn eval_if(
    scope: &Scope<'_>,
    c: &ExprChild,
    a: &ExprChild,
    b: &ExprChild,
    place: &mut Sample,
) -> Result<(), Memory>
    ensures { OnOk result
        (datum_of place.new ≡ choose (is_true (value_in c.now scope.now))
        (value_in a.now scope.now) (value_in b.now scope.now)) }
{
    if eval_truth(scope, c)? {
        eval_into(scope, a.get(), place)
    } else {
        eval_into(scope, b.get(), place)
    }
}

/// The value of an event that carries a part.
#[cycle(eval)]
fn eval_event(scope: &Scope<'_>, e: &ExprChild, place: &mut Sample) -> Result<(), Memory>
    ensures { OnOk result (datum_of place.new ≡ event (value_in e.now scope.now)) }
{
    if let Sample::Event(there) = place {
        if let Some(carried) = there.get_mut() {
            return eval_into(scope, e.get(), carried);
        }
    }
    eval_new_event(scope, e, place)
}

/// The value of an event that carries a part, which takes a place of its own.
#[cycle(eval)]
fn eval_new_event(scope: &Scope<'_>, e: &ExprChild, place: &mut Sample) -> Result<(), Memory>
    ensures { OnOk result (datum_of place.new ≡ event (value_in e.now scope.now)) }
{
    let mut value = Sample::Unit;
    match eval_into(scope, e.get(), &mut value) {
        Ok(()) => {
            let carried = SampleChild::new(scope.alloc, value)?;
            place.put(Sample::Event(carried));
            Ok(())
        }
        Err(Memory) => {
            drop(value);
            Err(Memory)
        }
    }
}

/// The value on an event, or else another.
#[cycle(eval)]
fn eval_on(
    scope: &Scope<'_>,
    e: &ExprChild,
    d: &ExprChild,
    b: &ExprChild,
    place: &mut Sample,
) -> Result<(), Memory>
    ensures { OnOk result (datum_of place.new ≡ value_in (on e.now d.now b.now) scope.now) }
{
    let event = look(scope, e)?;
    let found = eval_on_event(scope, event.get(), d, b, place);
    drop(event);
    found
}

/// The value of an `on` whose event has this value.
#[cycle(eval)]
#[tactic(auto, using(std::proofs::lemmas::Grind::common_steps))]
fn eval_on_event(
    scope: &Scope<'_>,
    event: &Sample,
    d: &ExprChild,
    b: &ExprChild,
    place: &mut Sample,
) -> Result<(), Memory>
    ensures { OnOk result
        (datum_of place.new ≡ on_event (datum_of event.now) (value_in d.now scope.now)
        (λ v. value_of b.now (map datum_of scope.now.params.now)
        (pair (datum_of scope.now.x.now) v))) }
{
    match event {
        Sample::Event(carried) => eval_body(scope, b, carried, place),
        _ => eval_into(scope, d.get(), place),
    }
}

/// The value on an event that carries the value.
#[cycle(eval)]
fn eval_body(
    scope: &Scope<'_>,
    b: &ExprChild,
    carried: &SampleChild,
    place: &mut Sample,
) -> Result<(), Memory>
    ensures { OnOk result
        (datum_of place.new ≡ value_of b.now (map datum_of scope.now.params.now)
        (pair (datum_of scope.now.x.now) carried.now)) }
{
    let input = with_carried(scope, carried)?;
    let found = eval_at(scope, b, &input, place);
    drop(input);
    found
}

/// The pair of the input and what an event carries.
fn with_carried(scope: &Scope<'_>, carried: &SampleChild) -> Result<Sample, Memory>
    ensures { IfOk result (λ s. datum_of s ≡ pair (datum_of scope.now.x.now) carried.now) }
{
    let input = scope.x.try_copy(scope.alloc)?;
    match carried.get().try_copy(scope.alloc) {
        Ok(carried) => {
            let parts = SamplePair::new(scope.alloc, input, carried)?;
            Ok(Sample::Pair(parts))
        }
        Err(Memory) => {
            drop(input);
            Err(Memory)
        }
    }
}

/// The value of an element of a list.
#[cycle(eval)]
fn eval_nth(
    scope: &Scope<'_>,
    e: &ExprChild,
    i: &ExprChild,
    d: &ExprChild,
    place: &mut Sample,
) -> Result<(), Memory>
    ensures { OnOk result
        (datum_of place.new ≡ element_at (value_in e.now scope.now)
        (int_of (value_in i.now scope.now))
        (value_in d.now scope.now)) }
{
    let list = look(scope, e)?;
    let found = eval_element(scope, list.get(), i, d, place);
    drop(list);
    found
}

/// The value of an `nth` whose list has this value.
#[cycle(eval)]
fn eval_element(
    scope: &Scope<'_>,
    list: &Sample,
    i: &ExprChild,
    d: &ExprChild,
    place: &mut Sample,
) -> Result<(), Memory>
    ensures { OnOk result
        (datum_of place.new ≡ element_at (datum_of list.now) (int_of (value_in i.now scope.now))
        (value_in d.now scope.now)) }
{
    let at = eval_number(scope, i)?;
    match element(list, at) {
        Some(found) => place.put_copy(scope.alloc, found),
        None => eval_into(scope, d.get(), place),
    }
}

/// The value of a list of these elements.
#[cycle(eval)]
#[tactic(auto, using(std::proofs::lemmas::Grind::common_steps, crate::proofs::Places::element_smaller))]
fn eval_elements(scope: &Scope<'_>, elements: &Exprs, place: &mut Sample) -> Result<(), Memory>
    ensures { OnOk result
        (datum_of place.new ≡ list (list_of (values_in (expressions_of elements.now) scope.now))) }
{
    let mut values = Vec::new(scope.alloc);
    for element in elements.as_slice() {
        let mut value = Sample::Unit;
        match eval_into(scope, element, &mut value) {
            Ok(()) => values.push(value)?,
            Err(Memory) => {
                drop(value);
                drop(values);
                return Err(Memory);
            }
        }
    }
    let all = Samples::new(scope.alloc, values)?;
    place.put(Sample::List(all));
    Ok(())
}

/// The number that a part has as its value; 0 where that is no number.
#[cycle(eval)]
#[inline(always)]
fn eval_number(scope: &Scope<'_>, child: &ExprChild) -> Result<i64, Memory>
    ensures { IfOk result (λ n. n ≡ int_of (value_in child.now scope.now)) }
{
    let form = child.get();
    match form {
        Expr::Literal(Literal::Int(n)) => Ok(*n),
        Expr::Input => Ok(scope.x.number()),
        Expr::Param(k) => Ok(param_number(scope.params, *k)),
        Expr::Fst(e) | Expr::Snd(e) => match e.get() {
            Expr::Input => Ok(part(form, scope.x).number()),
            _ => far_number(scope, child),
        },
        _ => far_number(scope, child),
    }
}

/// The number of a part that is more than a word. A short path is followed here.
#[cycle(eval)]
fn far_number(scope: &Scope<'_>, child: &ExprChild) -> Result<i64, Memory>
    ensures { IfOk result (λ n. n ≡ int_of (value_in child.now scope.now)) }
{
    let form = child.get();
    match form {
        Expr::Neg(a) => eval_neg(scope, a),
        Expr::Add(a, b) | Expr::Sub(a, b) | Expr::Mul(a, b) => eval_sum(scope, form, a, b),
        Expr::Len(e) => eval_len(scope, e),
        Expr::Fst(e) | Expr::Snd(e) => match short_path_at(scope.x, e.get()) {
            Some(value) => Ok(part(form, value).number()),
            None => look_number(scope, child),
        },
        Expr::Nth(e, i, d) => nth_number(scope, e, i, d),
        _ => look_number(scope, child),
    }
}

/// The number that an element of a list is, which is only looked at.
#[cycle(eval)]
#[inline(never)]
fn nth_number(
    scope: &Scope<'_>,
    list: &ExprChild,
    i: &ExprChild,
    d: &ExprChild,
) -> Result<i64, Memory>
    ensures { IfOk result (λ n. n ≡ int_of (element_at (value_in list.now scope.now)
        (int_of (value_in i.now scope.now)) (value_in d.now scope.now))) }
{
    let at = eval_number(scope, i)?;
    let all = look(scope, list)?;
    let found = match element(all.get(), at) {
        Some(found) => Some(found.number()),
        None => None,
    };
    drop(all);
    match found {
        Some(n) => Ok(n),
        None => eval_number(scope, d),
    }
}

/// The number that a part of another form has as its value.
#[cycle(eval)]
#[inline(never)]
fn look_number(scope: &Scope<'_>, part: &ExprChild) -> Result<i64, Memory>
    ensures { IfOk result (λ n. n ≡ int_of (value_in part.now scope.now)) }
{
    let value = look(scope, part)?;
    let number = value.get().number();
    drop(value);
    Ok(number)
}

/// The negative of a number.
#[cycle(eval)]
#[inline(never)]
fn eval_neg(scope: &Scope<'_>, a: &ExprChild) -> Result<i64, Memory>
    ensures { IfOk result (λ n. n ≡ int_wrap w64 (neg_ℤ (int_of (value_in a.now scope.now)))) }
{
    let a = eval_number(scope, a)?;
    Ok(negated(a))
}

/// The number that a sum, a difference or a product is.
#[cycle(eval)]
#[inline(never)]
fn eval_sum(scope: &Scope<'_>, form: &Expr, a: &ExprChild, b: &ExprChild) -> Result<i64, Memory>
    ensures { IfOk result
        (λ n. n ≡ sum_by (expression_of form.now) (int_of (value_in a.now scope.now))
        (int_of (value_in b.now scope.now))) }
{
    let a = eval_number(scope, a)?;
    let b = eval_number(scope, b)?;
    Ok(sum_of(form, a, b))
}

/// The length of a list.
#[cycle(eval)]
#[inline(never)]
fn eval_len(scope: &Scope<'_>, e: &ExprChild) -> Result<i64, Memory>
    ensures { IfOk result (λ n. n ≡ int_wrap w64 (pos (count_of (value_in e.now scope.now)))) }
{
    let list = look(scope, e)?;
    let elements = count(list.get());
    drop(list);
    Ok(elements)
}

/// Whether a part has `true` as its value. A short path is followed here.
#[cycle(eval)]
fn eval_truth(scope: &Scope<'_>, child: &ExprChild) -> Result<bool, Memory>
    ensures { IfOk result (λ t. t ≡ is_true (value_in child.now scope.now)) }
{
    let form = child.get();
    match form {
        Expr::Literal(Literal::Bool(t)) => Ok(*t),
        Expr::Less(a, b) => eval_less(scope, a, b),
        Expr::Equal(a, b) => eval_equal(scope, a, b),
        Expr::Not(a) => eval_not(scope, a),
        Expr::And(a, b) | Expr::Or(a, b) => eval_logic(scope, form, a, b),
        Expr::Fst(e) | Expr::Snd(e) => match short_path_at(scope.x, e.get()) {
            Some(value) => Ok(truth(part(form, value))),
            None => look_truth(scope, child),
        },
        _ => look_truth(scope, child),
    }
}

/// Whether a part of another form has `true` as its value.
#[cycle(eval)]
#[inline(never)]
fn look_truth(scope: &Scope<'_>, part: &ExprChild) -> Result<bool, Memory>
    ensures { IfOk result (λ t. t ≡ is_true (value_in part.now scope.now)) }
{
    let value = look(scope, part)?;
    let truth = truth(value.get());
    drop(value);
    Ok(truth)
}

/// Whether one number is less than another.
#[cycle(eval)]
#[inline(always)]
fn eval_less(scope: &Scope<'_>, a: &ExprChild, b: &ExprChild) -> Result<bool, Memory>
    ensures { IfOk result
        (λ t. t ≡ int_lt (int_of (value_in a.now scope.now)) (int_of (value_in b.now scope.now))) }
{
    let a = eval_number(scope, a)?;
    let b = eval_number(scope, b)?;
    Ok(a < b)
}

/// Whether two values are the same.
#[cycle(eval)]
fn eval_equal(scope: &Scope<'_>, a: &ExprChild, b: &ExprChild) -> Result<bool, Memory>
    ensures { IfOk result
        (λ t. t ≡ same_datum (value_in a.now scope.now) (value_in b.now scope.now)) }
{
    let value = look(scope, a)?;
    let found = eval_equal_to(scope, value.get(), b);
    drop(value);
    found
}

/// Whether a part has that value.
#[cycle(eval)]
fn eval_equal_to(scope: &Scope<'_>, value: &Sample, part: &ExprChild) -> Result<bool, Memory>
    ensures { IfOk result
        (λ t. t ≡ same_datum (datum_of value.now) (value_in part.now scope.now)) }
{
    let other = look(scope, part)?;
    let found = equal(value, other.get());
    drop(other);
    Ok(found)
}

/// Whether a part does not have `true` as its value.
#[cycle(eval)]
#[inline(always)]
fn eval_not(scope: &Scope<'_>, a: &ExprChild) -> Result<bool, Memory>
    ensures { IfOk result (λ t. t ≡ not (is_true (value_in a.now scope.now))) }
{
    let a = eval_truth(scope, a)?;
    Ok(!a)
}

/// Whether both parts hold, or one or both of them, as the form says. Where the first decides, the
/// second is not looked at.
#[cycle(eval)]
fn eval_logic(scope: &Scope<'_>, form: &Expr, a: &ExprChild, b: &ExprChild) -> Result<bool, Memory>
    ensures { IfOk result
        (λ t. t ≡ logic_by (expression_of form.now) (is_true (value_in a.now scope.now))
        (is_true (value_in b.now scope.now))) }
{
    let first = eval_truth(scope, a)?;
    match (form, first) {
        (Expr::And(..), false) => Ok(false),
        (Expr::And(..), true) => eval_truth(scope, b),
        (_, true) => Ok(true),
        (_, false) => eval_truth(scope, b),
    }
}
