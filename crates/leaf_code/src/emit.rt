// Makes the code of an expression.

ghost use Rattle.std.specs.Prelude.{◌≡◌, IfOk, map, get_or};
ghost use Rattle.sample_core.specs.TypeView.{type_of};
ghost use Rattle.sample_core.specs.TypeTree.{unit_ty, pair_ty, event_ty, list_ty};
ghost use Rattle.leaf_core.specs.Expression.{
  expressions_of,
  fst,
  snd,
  then_expr,
  pair_expr,
  neg,
  not_expr,
  if_expr,
  event_expr,
  on,
  list_expr,
  nth,
  len,
};
ghost use Rattle.leaf_core.specs.ExpressionView.{expression_of};
ghost use Rattle.leaf_code.specs.CodeOf.{
  beside_carried,
  carried_type,
  computed,
  emit,
  emit_all,
  leaf_code,
  left_type,
  put,
  right_type,
  two_emitted,
  type_at,
};
ghost use Rattle.leaf_code.specs.Operation as O;
ghost use Rattle.leaf_code.specs.Keys.{key_of};
ghost use Rattle.leaf_code.specs.CodeView.{AddsElements, leaf_of, literal_in, literal_type, operation_of, put_binary, steps_in};

use crate::key::{is_computed, key_of};
use crate::operation::{LeafCode, Operation, Step};
use leaf_core::{Expr, ExprChild, Exprs, Literal};
use sample_core::{Memory, Ty, TyChild};
use std::alloc::Global;

/// So many steps are looked at for one that gives the same: more would take long.
const RECENT_STEPS: usize = 1_000;

/// The types under which an expression stands.
#[derive(Clone, Copy)]
struct Around<'a> {
    alloc: Global,
    params: &'a [Ty],
    input: &'a Ty,
}

/// An operation on two registers whose type does not depend on theirs.
#[derive(Clone, Copy)]
enum Binary {
    Add,
    Sub,
    Mul,
    Less,
    Equal,
    And,
    Or,
}

/// The code of an expression, under parameters of these types, at an input of this type. Of an
/// expression that isn't typed there the registers' types mean nothing. `Memory` if allocation
/// fails.
pub fn compile_expr(alloc: Global, params: &[Ty], input: &Ty, e: &Expr) -> Result<LeafCode, Memory>
    ensures { IfOk result (λ code. leaf_of code
        ≡ leaf_code (map type_of params.now) (type_of input.now) (expression_of e.now)) }
{
    let around = Around {
        alloc,
        params,
        input,
    };
    let mut steps = Vec::new(alloc);
    let answer = emit(around, e, 0, &mut steps)?;
    Ok(LeafCode { steps, answer })
}

/// Adds a step, unless one of the last gives the same; the register that has its value.
#[tactic(auto, unfolding(crate::specs::CodeOf::put))]
fn put(steps: &mut Vec<Step>, ty: Ty, operation: Operation) -> Result<usize, Memory>
    ensures { IfOk result (λ k. put (steps_in steps.old.items) (type_of ty) (operation_of operation)
        ≡ (steps_in steps.new.items, k)) }
{
    if let Some(k) = computed(steps.as_slice(), &ty, &operation) {
        return Ok(k);
    }
    steps.push(Step { ty, operation })?;
    Ok(steps.len())
}

/// The register that has what an operation gives, if one of the last steps sets one.
fn computed(steps: &[Step], ty: &Ty, operation: &Operation) -> Option<usize>
    ensures { result ≡ computed (type_of ty.now) (steps_in steps.now) (key_of (operation_of operation.now)) }
{
    let key = key_of(operation)?;
    let first = steps.len().saturating_sub(RECENT_STEPS);
    for k in first..steps.len() {
        if is_computed(k + 1, ty, key, &steps[k]) {
            return Some(k + 1);
        }
    }
    None
}

/// Adds an operation on two registers.
fn put_binary(
    operator: Binary,
    registers: (usize, usize),
    steps: &mut Vec<Step>,
) -> Result<usize, Memory>
    ensures { IfOk result (λ r. put_binary (steps_in steps.old.items) operator registers
        ≡ (steps_in steps.new.items, r)) }
{
    let (j, k) = registers;
    let (ty, operation) = match operator {
        Binary::Add => (Ty::Int, Operation::Add(j, k)),
        Binary::Sub => (Ty::Int, Operation::Sub(j, k)),
        Binary::Mul => (Ty::Int, Operation::Mul(j, k)),
        Binary::Less => (Ty::Bool, Operation::Less(j, k)),
        Binary::Equal => (Ty::Bool, Operation::Equal(j, k)),
        Binary::And => (Ty::Bool, Operation::And(j, k)),
        Binary::Or => (Ty::Bool, Operation::Or(j, k)),
    };
    put(steps, ty, operation)
}

/// The type of a register, `Unit` if it isn't there.
fn type_at(around: Around<'_>, steps: &[Step], k: usize) -> Result<Ty, Memory>
    ensures { IfOk result (λ t. type_of t
        ≡ type_at (type_of around.entry.input.now) (steps_in steps.now) k) }
{
    if k == 0 {
        return around.input.try_copy(around.alloc);
    }
    match steps.get(k - 1) {
        Some(step) => step.ty.try_copy(around.alloc),
        None => Ok(Ty::Unit),
    }
}

/// The type of a pair's left part; a type that is no pair's is its own part.
fn left_type(alloc: Global, ty: &Ty) -> Result<Ty, Memory>
    ensures { IfOk result (λ t. type_of t ≡ left_type (type_of ty.now)) }
{
    match ty {
        Ty::Pair(a, _) => a.get().try_copy(alloc),
        _ => ty.try_copy(alloc),
    }
}

/// The type of a pair's right part.
fn right_type(alloc: Global, ty: &Ty) -> Result<Ty, Memory>
    ensures { IfOk result (λ t. type_of t ≡ right_type (type_of ty.now)) }
{
    match ty {
        Ty::Pair(_, b) => b.get().try_copy(alloc),
        _ => ty.try_copy(alloc),
    }
}

/// The type of what an event carries.
fn carried_type(alloc: Global, ty: &Ty) -> Result<Ty, Memory>
    ensures { IfOk result (λ t. type_of t ≡ carried_type (type_of ty.now)) }
{
    match ty {
        Ty::Event(a) => a.get().try_copy(alloc),
        _ => ty.try_copy(alloc),
    }
}

/// The type of pairs of two registers' types.
fn pair_type(around: Around<'_>, steps: &[Step], j: usize, k: usize) -> Result<Ty, Memory>
    ensures { IfOk result (λ t. type_of t
        ≡ pair_ty (type_at (type_of around.entry.input.now) (steps_in steps.now) j)
        (type_at (type_of around.entry.input.now) (steps_in steps.now) k)) }
{
    let a = TyChild::new(around.alloc, type_at(around, steps, j)?)?;
    let b = TyChild::new(around.alloc, type_at(around, steps, k)?)?;
    Ok(Ty::Pair(a, b))
}

/// The type of events that carry a type.
fn event_type(alloc: Global, carried: Ty) -> Result<Ty, Memory>
    ensures { IfOk result (λ t. type_of t ≡ event_ty (type_of carried)) }
{
    Ok(Ty::Event(TyChild::new(alloc, carried)?))
}

/// The type of lists of a type.
fn list_type(alloc: Global, element: &Ty) -> Result<Ty, Memory>
    ensures { IfOk result (λ t. type_of t ≡ list_ty (type_of element.now)) }
{
    let element = element.try_copy(alloc)?;
    Ok(Ty::List(TyChild::new(alloc, element)?))
}

/// Adds the code of an expression whose input is register x; the register that has its value.
#[cycle(emit)]
fn emit(around: Around<'_>, e: &Expr, x: usize, steps: &mut Vec<Step>) -> Result<usize, Memory>
    ensures { IfOk result (λ k. emit (map type_of around.entry.params.now)
        (type_of around.entry.input.now) (expression_of e.now) x (steps_in steps.old.items)
        ≡ (steps_in steps.new.items, k)) }
{
    match e {
        Expr::Input => Ok(x),
        Expr::Param(k) => put_param(around, *k, steps),
        Expr::Literal(literal) => put_literal(*literal, steps),
        Expr::Pair(a, b) => emit_pair(around, a, b, x, steps),
        Expr::Fst(a) => emit_left(around, a, x, steps),
        Expr::Snd(a) => emit_right(around, a, x, steps),
        Expr::Then(f, g) => emit_then(around, f, g, x, steps),
        Expr::Neg(a) => emit_neg(around, a, x, steps),
        Expr::Add(a, b) => put_binary(Binary::Add, emit_two(around, a, b, x, steps)?, steps),
        Expr::Sub(a, b) => put_binary(Binary::Sub, emit_two(around, a, b, x, steps)?, steps),
        Expr::Mul(a, b) => put_binary(Binary::Mul, emit_two(around, a, b, x, steps)?, steps),
        Expr::Less(a, b) => put_binary(Binary::Less, emit_two(around, a, b, x, steps)?, steps),
        Expr::Equal(a, b) => put_binary(Binary::Equal, emit_two(around, a, b, x, steps)?, steps),
        Expr::Not(a) => emit_not(around, a, x, steps),
        Expr::And(a, b) => put_binary(Binary::And, emit_two(around, a, b, x, steps)?, steps),
        Expr::Or(a, b) => put_binary(Binary::Or, emit_two(around, a, b, x, steps)?, steps),
        Expr::If(c, a, b) => emit_choice(around, c, a, b, x, steps),
        Expr::NoEvent(carried) => put_no_event(around.alloc, carried, steps),
        Expr::Event(a) => emit_event(around, a, x, steps),
        Expr::On(a, d, b) => emit_on(around, a, d, b, x, steps),
        Expr::List(element, all) => emit_list(around, element, all, x, steps),
        Expr::Nth(a, i, d) => emit_nth(around, a, i, d, x, steps),
        Expr::Len(a) => emit_len(around, a, x, steps),
    }
}

/// Adds parameter k.
fn put_param(around: Around<'_>, k: u32, steps: &mut Vec<Step>) -> Result<usize, Memory>
    ensures { IfOk result (λ r. put (steps_in steps.old.items)
        (get_or (map type_of around.entry.params.now) k unit_ty) (O.param k)
        ≡ (steps_in steps.new.items, r)) }
{
    let ty = match around.params.get(k as usize) {
        Some(ty) => ty.try_copy(around.alloc)?,
        None => Ty::Unit,
    };
    put(steps, ty, Operation::Param(k))
}

/// Adds a literal.
fn put_literal(literal: Literal, steps: &mut Vec<Step>) -> Result<usize, Memory>
    ensures { IfOk result (λ r. put (steps_in steps.old.items) (literal_type literal)
        (literal_in literal) ≡ (steps_in steps.new.items, r)) }
{
    let ty = match literal {
        Literal::Unit => Ty::Unit,
        Literal::Bool(_) => Ty::Bool,
        Literal::Int(_) => Ty::Int,
    };
    put(steps, ty, Operation::Literal(literal))
}

/// Adds no event, among those that carry the type.
fn put_no_event(alloc: Global, carried: &Ty, steps: &mut Vec<Step>) -> Result<usize, Memory>
    ensures { IfOk result (λ r. put (steps_in steps.old.items) (event_ty (type_of carried.now))
        O.no_event ≡ (steps_in steps.new.items, r)) }
{
    let carried = carried.try_copy(alloc)?;
    put(steps, event_type(alloc, carried)?, Operation::NoEvent)
}

/// Adds the code of an expression inside another.
#[cycle(emit)]
fn emit_part(
    around: Around<'_>,
    a: &ExprChild,
    x: usize,
    steps: &mut Vec<Step>,
) -> Result<usize, Memory>
    ensures { IfOk result (λ k. emit (map type_of around.entry.params.now)
        (type_of around.entry.input.now) a.now x (steps_in steps.old.items)
        ≡ (steps_in steps.new.items, k)) }
{
    emit(around, a.get(), x, steps)
}

/// Adds the code of two; their registers.
#[cycle(emit)]
fn emit_two(
    around: Around<'_>,
    a: &ExprChild,
    b: &ExprChild,
    x: usize,
    steps: &mut Vec<Step>,
) -> Result<(usize, usize), Memory>
    ensures { IfOk result (λ r. two_emitted (map type_of around.entry.params.now)
        (type_of around.entry.input.now) a.now b.now x (steps_in steps.old.items)
        ≡ (steps_in steps.new.items, r)) }
{
    let j = emit_part(around, a, x, steps)?;
    let k = emit_part(around, b, x, steps)?;
    Ok((j, k))
}

/// Adds a pair.
#[cycle(emit)]
fn emit_pair(
    around: Around<'_>,
    a: &ExprChild,
    b: &ExprChild,
    x: usize,
    steps: &mut Vec<Step>,
) -> Result<usize, Memory>
    ensures { IfOk result (λ r. emit (map type_of around.entry.params.now)
        (type_of around.entry.input.now) (pair_expr a.now b.now) x (steps_in steps.old.items)
        ≡ (steps_in steps.new.items, r)) }
{
    let (j, k) = emit_two(around, a, b, x, steps)?;
    let ty = pair_type(around, steps, j, k)?;
    put(steps, ty, Operation::Pair(j, k))
}

/// Adds a pair's left part.
#[cycle(emit)]
fn emit_left(
    around: Around<'_>,
    a: &ExprChild,
    x: usize,
    steps: &mut Vec<Step>,
) -> Result<usize, Memory>
    ensures { IfOk result (λ r. emit (map type_of around.entry.params.now)
        (type_of around.entry.input.now) (fst a.now) x (steps_in steps.old.items)
        ≡ (steps_in steps.new.items, r)) }
{
    let j = emit_part(around, a, x, steps)?;
    let pair = type_at(around, steps, j)?;
    let ty = left_type(around.alloc, &pair);
    drop(pair);
    put(steps, ty?, Operation::Left(j))
}

/// Adds a pair's right part.
#[cycle(emit)]
fn emit_right(
    around: Around<'_>,
    a: &ExprChild,
    x: usize,
    steps: &mut Vec<Step>,
) -> Result<usize, Memory>
    ensures { IfOk result (λ r. emit (map type_of around.entry.params.now)
        (type_of around.entry.input.now) (snd a.now) x (steps_in steps.old.items)
        ≡ (steps_in steps.new.items, r)) }
{
    let j = emit_part(around, a, x, steps)?;
    let pair = type_at(around, steps, j)?;
    let ty = right_type(around.alloc, &pair);
    drop(pair);
    put(steps, ty?, Operation::Right(j))
}

/// Adds one expression behind another.
#[cycle(emit)]
fn emit_then(
    around: Around<'_>,
    f: &ExprChild,
    g: &ExprChild,
    x: usize,
    steps: &mut Vec<Step>,
) -> Result<usize, Memory>
    ensures { IfOk result (λ r. emit (map type_of around.entry.params.now)
        (type_of around.entry.input.now) (then_expr f.now g.now) x (steps_in steps.old.items)
        ≡ (steps_in steps.new.items, r)) }
{
    let y = emit_part(around, f, x, steps)?;
    emit_part(around, g, y, steps)
}

/// Adds a negative.
#[cycle(emit)]
fn emit_neg(
    around: Around<'_>,
    a: &ExprChild,
    x: usize,
    steps: &mut Vec<Step>,
) -> Result<usize, Memory>
    ensures { IfOk result (λ r. emit (map type_of around.entry.params.now)
        (type_of around.entry.input.now) (neg a.now) x (steps_in steps.old.items)
        ≡ (steps_in steps.new.items, r)) }
{
    let j = emit_part(around, a, x, steps)?;
    put(steps, Ty::Int, Operation::Neg(j))
}

/// Adds whether an expression isn't true.
#[cycle(emit)]
fn emit_not(
    around: Around<'_>,
    a: &ExprChild,
    x: usize,
    steps: &mut Vec<Step>,
) -> Result<usize, Memory>
    ensures { IfOk result (λ r. emit (map type_of around.entry.params.now)
        (type_of around.entry.input.now) (not_expr a.now) x (steps_in steps.old.items)
        ≡ (steps_in steps.new.items, r)) }
{
    let j = emit_part(around, a, x, steps)?;
    put(steps, Ty::Bool, Operation::Not(j))
}

/// Adds a choice.
#[cycle(emit)]
fn emit_choice(
    around: Around<'_>,
    c: &ExprChild,
    a: &ExprChild,
    b: &ExprChild,
    x: usize,
    steps: &mut Vec<Step>,
) -> Result<usize, Memory>
    ensures { IfOk result (λ r. emit (map type_of around.entry.params.now)
        (type_of around.entry.input.now) (if_expr c.now a.now b.now) x (steps_in steps.old.items)
        ≡ (steps_in steps.new.items, r)) }
{
    let h = emit_part(around, c, x, steps)?;
    let (j, k) = emit_two(around, a, b, x, steps)?;
    let ty = type_at(around, steps, j)?;
    put(steps, ty, Operation::Choose(h, j, k))
}

/// Adds an event.
#[cycle(emit)]
fn emit_event(
    around: Around<'_>,
    a: &ExprChild,
    x: usize,
    steps: &mut Vec<Step>,
) -> Result<usize, Memory>
    ensures { IfOk result (λ r. emit (map type_of around.entry.params.now)
        (type_of around.entry.input.now) (event_expr a.now) x (steps_in steps.old.items)
        ≡ (steps_in steps.new.items, r)) }
{
    let j = emit_part(around, a, x, steps)?;
    let carried = type_at(around, steps, j)?;
    put(
        steps,
        event_type(around.alloc, carried)?,
        Operation::Event(j),
    )
}

/// Adds an expression on an event, or else another.
#[cycle(emit)]
fn emit_on(
    around: Around<'_>,
    a: &ExprChild,
    d: &ExprChild,
    b: &ExprChild,
    x: usize,
    steps: &mut Vec<Step>,
) -> Result<usize, Memory>
    ensures { IfOk result (λ r. emit (map type_of around.entry.params.now)
        (type_of around.entry.input.now) (on a.now d.now b.now) x (steps_in steps.old.items)
        ≡ (steps_in steps.new.items, r)) }
{
    let (e, k) = emit_two(around, a, d, x, steps)?;
    let i = put_carried(around, e, x, steps)?;
    let j = emit_part(around, b, i, steps)?;
    let c = put(steps, Ty::Bool, Operation::IsEvent(e))?;
    let ty = type_at(around, steps, k)?;
    put(steps, ty, Operation::Choose(c, j, k))
}

/// Adds the pair of the input and of what the event in a register carries.
fn put_carried(
    around: Around<'_>,
    e: usize,
    x: usize,
    steps: &mut Vec<Step>,
) -> Result<usize, Memory>
    ensures { IfOk result (λ r. beside_carried (type_of around.entry.input.now) e x
        (steps_in steps.old.items) ≡ (steps_in steps.new.items, r)) }
{
    let event = type_at(around, steps, e)?;
    let carried = carried_type(around.alloc, &event);
    drop(event);
    let v = put(steps, carried?, Operation::Carried(e))?;
    let ty = pair_type(around, steps, x, v)?;
    put(steps, ty, Operation::Pair(x, v))
}

/// Adds a list.
#[cycle(emit)]
fn emit_list(
    around: Around<'_>,
    element: &Ty,
    all: &Exprs,
    x: usize,
    steps: &mut Vec<Step>,
) -> Result<usize, Memory>
    ensures { IfOk result (λ r. emit (map type_of around.entry.params.now)
        (type_of around.entry.input.now) (list_expr (type_of element.now) (expressions_of all.now)) x
        (steps_in steps.old.items) ≡ (steps_in steps.new.items, r)) }
{
    let mut registers = Vec::new(around.alloc);
    emit_elements(around, all.as_slice(), x, &mut registers, steps)?;
    let ty = list_type(around.alloc, element)?;
    put(steps, ty, Operation::List(registers))
}

/// Adds the code of elements, and their registers to others.
#[cycle(emit)]
#[tactic(auto, using(std::proofs::lemmas::Grind::common_steps, leaf_core::proofs::Places::element_smaller))]
fn emit_elements(
    around: Around<'_>,
    all: &[Expr],
    x: usize,
    registers: &mut Vec<usize>,
    steps: &mut Vec<Step>,
) -> Result<(), Memory>
    ensures { IfOk result (λ _. AddsElements
        (emit_all (map type_of around.entry.params.now) (type_of around.entry.input.now)
        (expressions_of (map expression_of all.now)) x (steps_in steps.old.items))
        (steps_in steps.new.items) registers.old.items registers.new.items) }
{
    for e in all {
        let k = emit(around, e, x, steps)?;
        registers.push(k)?;
    }
    Ok(())
}

/// Adds an element of a list.
#[cycle(emit)]
fn emit_nth(
    around: Around<'_>,
    a: &ExprChild,
    i: &ExprChild,
    d: &ExprChild,
    x: usize,
    steps: &mut Vec<Step>,
) -> Result<usize, Memory>
    ensures { IfOk result (λ r. emit (map type_of around.entry.params.now)
        (type_of around.entry.input.now) (nth a.now i.now d.now) x (steps_in steps.old.items)
        ≡ (steps_in steps.new.items, r)) }
{
    let (l, k) = emit_two(around, a, i, x, steps)?;
    let d = emit_part(around, d, x, steps)?;
    let ty = type_at(around, steps, d)?;
    put(steps, ty, Operation::Nth(l, k, d))
}

/// Adds the length of a list.
#[cycle(emit)]
fn emit_len(
    around: Around<'_>,
    a: &ExprChild,
    x: usize,
    steps: &mut Vec<Step>,
) -> Result<usize, Memory>
    ensures { IfOk result (λ r. emit (map type_of around.entry.params.now)
        (type_of around.entry.input.now) (len a.now) x (steps_in steps.old.items)
        ≡ (steps_in steps.new.items, r)) }
{
    let j = emit_part(around, a, x, steps)?;
    put(steps, Ty::Int, Operation::Len(j))
}
