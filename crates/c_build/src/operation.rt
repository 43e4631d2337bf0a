// The terms of an expression's steps.

ghost use Rattle.std.specs.Prelude.{◌≡◌, ℕ, ◌∷◌, IfOk};
ghost use Rattle.sample_core.specs.TypeTree.{TypeTree, list_ty, unit_ty};
ghost use Rattle.sample_core.specs.TypeView.{type_of};
ghost use Rattle.leaf_code.specs.Fitting.{Bounds};
ghost use Rattle.c_leaf.specs.LeafC.{operation_term};
ghost use Rattle.leaf_code.specs.CodeView.{literal_in, operation_of};
ghost use Rattle.leaf_code.specs.Operation as O;
ghost use Rattle.c_meaning.specs.Syntax.{local};
ghost use Rattle.c_meaning.specs.Wrapping.{modular, negated};
ghost use Rattle.c_text.specs.Meant.{literal_meant, operator_meant};
ghost use Rattle.c_build.specs.declared.sym.Sym.TheVariants as S;
ghost use Rattle.c_build.specs.Symbols.{and_term, run};
ghost use Rattle.c_build.specs.Scopes.{IsType, made, table};
ghost use Rattle.c_build.specs.Frames.{bounds_in};
ghost use Rattle.c_build.specs.Making.{and_terms};
ghost use Rattle.c_build.specs.LeafLines.{IsTyped, local_at, operation_at, register_at, registers_at};

use crate::frame::Frame;
use crate::leaves::register_type;
use crate::place::Place;
use crate::same::push_same_term;
use crate::scope::Scope;
use crate::sym::Sym;
use crate::unbuilt::Unbuilt;
use c_text::{CType, Literal, Operator, Scalar};
use leaf_code::{Operation, Step};
use sample_core::{Ty, TyChild};

/// What the lines of an expression's code stand under. Of the scope only the parameters are there, before
/// register 0, which has the input.
#[derive(Clone, Copy)]
pub(crate) struct Lines<'a> {
    pub(crate) frame: Frame<'a>,
    /// The types whose values functions compare.
    pub(crate) compared: &'a [Ty],
    pub(crate) input: &'a Ty,
    pub(crate) steps: &'a [Step],
}

impl<'a> Lines<'a> {
    /// The local that is register k. `Missing` if there is none.
    pub(crate) fn register(self, k: usize) -> Result<usize, Unbuilt>
        ensures { IfOk result (λ r. r ≡ local_at self.entry k) }
    {
        self.frame
            .scope
            .params
            .len()
            .checked_add(k)
            .ok_or(Unbuilt::Missing)
    }

    /// The type of register k. `Missing` if there is none.
    pub(crate) fn type_at(self, k: usize) -> Result<&'a Ty, Unbuilt>
        ensures { IfOk result (λ t. type_of t.now ≡ register_at self.entry k) }
    {
        register_type(self.input, self.steps, k).ok_or(Unbuilt::Missing)
    }

    /// Adds a register, and symbols.
    #[tactic(auto, using(crate::proofs::Runs::run_joined))]
    fn push_one(self, out: &mut Vec<Sym>, j: usize, then: &[Sym]) -> Result<(), Unbuilt>
        ensures { IfOk result (λ _. made self.entry.frame.scope out.new.items
            ≡ run (table self.entry.frame.scope) (made self.entry.frame.scope out.old.items)
            (S.Local (local_at self.entry j) ∷ then.now)) }
    {
        let j = self.register(j)?;
        self.frame.scope.add(out, &[Sym::Local(j)])?;
        self.frame.scope.add(out, then)
    }

    /// Adds two registers, and symbols.
    #[tactic(auto, using(crate::proofs::Runs::run_joined))]
    fn push_two(self, out: &mut Vec<Sym>, j: usize, k: usize, then: &[Sym]) -> Result<(), Unbuilt>
        ensures { IfOk result (λ _. made self.entry.frame.scope out.new.items
            ≡ run (table self.entry.frame.scope) (made self.entry.frame.scope out.old.items)
            (S.Local (local_at self.entry j) ∷ S.Local (local_at self.entry k) ∷ then.now)) }
    {
        let j = self.register(j)?;
        let k = self.register(k)?;
        self.frame.scope.add(out, &[Sym::Local(j), Sym::Local(k)])?;
        self.frame.scope.add(out, then)
    }
}

/// Adds an operator on two registers, modulo 2^64.
fn push_modular(
    lines: Lines<'_>,
    out: &mut Vec<Sym>,
    operator: Operator,
    j: usize,
    k: usize,
) -> Result<(), Unbuilt>
    ensures { IfOk result (λ _. made lines.entry.frame.scope out.new.items
        ≡ and_term (modular (operator_meant operator) (local (local_at lines.entry j))
        (local (local_at lines.entry k))) (made lines.entry.frame.scope out.old.items)) }
{
    let cast = Sym::Cast(Scalar::Uint64);
    let j = lines.register(j)?;
    let k = lines.register(k)?;
    lines.frame.scope.add(
        out,
        &[
            Sym::Local(j),
            cast,
            Sym::Local(k),
            cast,
            Sym::Binary(operator, Scalar::Uint64),
            Sym::Signed,
        ],
    )
}

/// Adds the negative of a register, modulo 2^64.
fn push_negated(lines: Lines<'_>, out: &mut Vec<Sym>, j: usize) -> Result<(), Unbuilt>
    ensures { IfOk result (λ _. made lines.entry.frame.scope out.new.items
        ≡ and_term (negated (local (local_at lines.entry j))) (made lines.entry.frame.scope out.old.items)) }
{
    let j = lines.register(j)?;
    lines.frame.scope.add(
        out,
        &[
            Sym::Literal(Literal::Uint64(0)),
            Sym::Local(j),
            Sym::Cast(Scalar::Uint64),
            Sym::Binary(Operator::Minus, Scalar::Uint64),
            Sym::Signed,
        ],
    )
}

/// A literal, as one of C.
fn literal_of(literal: leaf_core::Literal) -> Literal
    ensures { (n : Bounds) (h : TypeTree → ℕ) (m : ℕ) (t : ℕ → TypeTree) (T : TypeTree)
        → literal_meant result ≡ operation_term n h m t T (literal_in literal) }
{
    match literal {
        leaf_core::Literal::Unit => Literal::Uint8(0),
        leaf_core::Literal::Bool(b) => Literal::Bool(b),
        leaf_core::Literal::Int(n) => Literal::Int64(n),
    }
}

/// Adds what a register of a type is defined as.
pub(crate) fn push_operation(
    lines: Lines<'_>,
    out: &mut Vec<Sym>,
    ty: &Ty,
    c_type: CType,
    operation: &Operation,
) -> Result<(), Unbuilt>
    ensures { IfOk result (λ _. IsTyped lines.entry.frame
        → IsType lines.entry.frame.scope (bounds_in lines.entry.frame) c_type (type_of ty.now)
        → made lines.entry.frame.scope out.new.items
        ≡ and_term (operation_at lines.entry (type_of ty.now) (operation_of operation.now))
        (made lines.entry.frame.scope out.old.items)) }
{
    let pair = Sym::Braced(2, None);
    match operation {
        Operation::Param(k) => lines.frame.scope.add(out, &[Sym::Local(*k as usize)]),
        Operation::Literal(literal) => lines
            .frame
            .scope
            .add(out, &[Sym::Literal(literal_of(*literal))]),
        Operation::Pair(j, k) => lines.push_two(out, *j, *k, &[pair]),
        Operation::Left(j) | Operation::IsEvent(j) => lines.push_one(out, *j, &[Sym::Dot(0)]),
        Operation::Right(j) => lines.push_one(out, *j, &[Sym::Dot(1)]),
        Operation::Neg(j) => push_negated(lines, out, *j),
        Operation::Add(j, k) => push_modular(lines, out, Operator::Plus, *j, *k),
        Operation::Sub(j, k) => push_modular(lines, out, Operator::Minus, *j, *k),
        Operation::Mul(j, k) => push_modular(lines, out, Operator::Times, *j, *k),
        Operation::Less(j, k) => lines.push_two(
            out,
            *j,
            *k,
            &[Sym::Binary(Operator::Less, Scalar::Int64)],
        ),
        Operation::Not(j) => lines.push_one(out, *j, &[Sym::Inverse]),
        Operation::And(j, k) => lines.push_two(out, *j, *k, &[Sym::Both]),
        Operation::Or(j, k) => lines.push_two(out, *j, *k, &[Sym::Either]),
        Operation::NoEvent => lines.frame.scope.add(out, &[Sym::Zeroed(c_type)]),
        Operation::Len(j) => lines.push_one(out, *j, &[Sym::Dot(0), Sym::Cast(Scalar::Int64)]),
        Operation::List(registers) => push_list(lines, out, ty, registers.as_slice()),
        Operation::Equal(j, k) => push_equal(lines, out, *j, *k),
        _ => push_choice(lines, out, c_type, operation),
    }
}

/// Adds what chooses among registers, or is of an event.
fn push_choice(
    lines: Lines<'_>,
    out: &mut Vec<Sym>,
    c_type: CType,
    operation: &Operation,
) -> Result<(), Unbuilt>
    ensures { IfOk result (λ _. (T : TypeTree)
        → IsType lines.entry.frame.scope (bounds_in lines.entry.frame) c_type T
        → made lines.entry.frame.scope out.new.items
        ≡ and_term (operation_at lines.entry T (operation_of operation.now))
        (made lines.entry.frame.scope out.old.items)) }
{
    match operation {
        Operation::Choose(c, j, k) => {
            lines.push_one(out, *c, &[])?;
            lines.push_two(out, *j, *k, &[Sym::Choice])
        }
        Operation::Event(j) => {
            lines
                .frame
                .scope
                .add(out, &[Sym::Literal(Literal::Bool(true))])?;
            lines.push_one(out, *j, &[Sym::Braced(2, None)])
        }
        Operation::Carried(j) => {
            let e = Sym::Local(lines.register(*j)?);
            let or_zero = Sym::Zeroed(c_type);
            lines.frame.scope.add(out, &[e, Sym::Dot(0), e, Sym::Dot(1), or_zero, Sym::Choice])
        }
        Operation::Nth(j, k, d) => {
            push_nth(lines, out, *j, *k, *d)?;
            Ok(())
        }
        _ => Err(Unbuilt::Missing),
    }
}

/// Adds element k of list j; register d outside.
fn push_nth(
    lines: Lines<'_>,
    out: &mut Vec<Sym>,
    j: usize,
    k: usize,
    d: usize,
) -> Result<(), Unbuilt>
    ensures { IfOk result (λ _. made lines.entry.frame.scope out.new.items
        ≡ and_term (operation_at lines.entry unit_ty (O.nth j k d))
        (made lines.entry.frame.scope out.old.items)) }
{
    let list = Sym::Local(lines.register(j)?);
    let number = Sym::Local(lines.register(k)?);
    let outside = Sym::Local(lines.register(d)?);
    lines.frame.scope.add(
        out,
        &[
            Sym::Literal(Literal::Int64(0)),
            number,
            Sym::Binary(Operator::AtMost, Scalar::Int64),
            number,
            list,
            Sym::Dot(0),
            Sym::Cast(Scalar::Int64),
            Sym::Binary(Operator::Less, Scalar::Int64),
            Sym::Both,
            list,
            Sym::Dot(1),
            number,
            Sym::At,
            outside,
            Sym::Choice,
        ],
    )
}

/// Adds whether two registers of a type without lists are the same.
fn push_equal(lines: Lines<'_>, out: &mut Vec<Sym>, j: usize, k: usize) -> Result<(), Unbuilt>
    ensures { IfOk result (λ _. made lines.entry.frame.scope out.new.items
        ≡ and_term (operation_at lines.entry unit_ty (O.equal j k))
        (made lines.entry.frame.scope out.old.items)) }
{
    let ty = lines.type_at(j)?;
    let a = Place::Local(lines.register(j)?);
    let b = Place::Local(lines.register(k)?);
    push_same_term(lines.frame.scope, out, ty, &a, &b)
}

/// Adds the list of registers.
fn push_list(
    lines: Lines<'_>,
    out: &mut Vec<Sym>,
    ty: &Ty,
    registers: &[usize],
) -> Result<(), Unbuilt>
    ensures { IfOk result (λ _. IsTyped lines.entry.frame
        → made lines.entry.frame.scope out.new.items
        ≡ and_term (operation_at lines.entry (type_of ty.now) (O.list registers.now))
        (made lines.entry.frame.scope out.old.items)) }
{
    match ty {
        Ty::List(element) => push_elements(lines, out, element, registers),
        Ty::Unit | Ty::Bool | Ty::Int | Ty::Pair(..) | Ty::Event(_) => lines
            .frame
            .scope
            .add(out, &[Sym::Braced(0, None)]),
    }
}

/// Adds the list of registers, with zeros behind them.
fn push_elements(
    lines: Lines<'_>,
    out: &mut Vec<Sym>,
    element: &TyChild,
    registers: &[usize],
) -> Result<(), Unbuilt>
    ensures { IfOk result (λ _. IsTyped lines.entry.frame
        → made lines.entry.frame.scope out.new.items
        ≡ and_term (operation_at lines.entry (list_ty element.now) (O.list registers.now))
        (made lines.entry.frame.scope out.old.items)) }
{
    let most = lines.frame.most_of(element.get())?;
    let base = lines.frame.base_of(element.get())?;
    let rest = most.saturating_sub(registers.len());
    let Ok(count) = u32::try_from(registers.len()) else {
        return Err(Unbuilt::Missing);
    };
    let count = Sym::Literal(Literal::Uint32(count));
    let zeros = CType::Array(rest, base);
    let list = Sym::Braced(registers.len(), Some(zeros));
    lines.frame.scope.add(out, &[count])?;
    push_registers(lines, out, registers)?;
    lines.frame.scope.add(out, &[list, Sym::Braced(2, None)])?;
    Ok(())
}

/// Adds registers, one behind the other.
#[tactic(auto, using(crate::proofs::Runs::run_joined))]
fn push_registers(lines: Lines<'_>, out: &mut Vec<Sym>, registers: &[usize]) -> Result<(), Unbuilt>
    ensures { IfOk result (λ _. made lines.entry.frame.scope out.new.items
        ≡ and_terms (registers_at lines.entry registers.now) (made lines.entry.frame.scope out.old.items)) }
{
    for k in registers {
        lines.push_one(out, *k, &[])?;
    }
    Ok(())
}
