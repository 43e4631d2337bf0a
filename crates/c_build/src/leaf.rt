// The C functions of expressions' code, and those that compare values.

ghost use Rattle.std.specs.Prelude.{◌≡◌, pos, IfOk, map};
ghost use Rattle.sample_core.specs.TypeTree.{unit_ty};
ghost use Rattle.sample_core.specs.TypeView.{type_of};
ghost use Rattle.c_leaf.specs.LeafC.{is_struct};
ghost use Rattle.leaf_code.specs.CodeView.{step_of, steps_in};
ghost use Rattle.leaf_code.specs.Operation as O;
ghost use Rattle.leaf_code.specs.Running.{step};
ghost use Rattle.c_meaning.specs.Object.{number_type, u8};
ghost use Rattle.c_meaning.specs.Syntax.{define, literal, sequence};
ghost use Rattle.c_build.specs.Symbols.{and_command};
ghost use Rattle.c_build.specs.Scopes.{made};
ghost use Rattle.c_build.specs.Making.{and_commands};
ghost use Rattle.c_build.specs.LeafLines.{IsTyped, is_reference, leaf_at, plain_at, step_at, steps_at};

use crate::operation::{Lines, push_operation};
use crate::place::Place;
use crate::same::push_same;
use crate::sym::Sym;
use crate::table::BYTE;
use crate::unbuilt::Unbuilt;
use c_text::Literal;
use leaf_code::{Operation, Step};
use sample_core::Ty;

/// Adds the line of a step.
fn push_step(lines: Lines<'_>, out: &mut Vec<Sym>, step: &Step) -> Result<(), Unbuilt>
    ensures { IfOk result (λ _. IsTyped lines.entry.frame → made lines.entry.frame.scope out.new.items
        ≡ and_command (step_at lines.entry (step_of step.now)) (made lines.entry.frame.scope out.old.items)) }
{
    match &step.operation {
        Operation::Equal(j, k) => {
            push_equal_line(lines, out, *j, *k)?;
            Ok(())
        }
        _ => {
            push_plain_line(lines, out, step)?;
            Ok(())
        }
    }
}

/// Adds the line of a step that calls nothing.
#[tactic(auto, using(crate::proofs::Runs::run_joined))]
fn push_plain_line(lines: Lines<'_>, out: &mut Vec<Sym>, step: &Step) -> Result<(), Unbuilt>
    ensures { IfOk result (λ _. IsTyped lines.entry.frame → made lines.entry.frame.scope out.new.items
        ≡ and_command (plain_at lines.entry step.now) (made lines.entry.frame.scope out.old.items)) }
{
    let ty = lines.frame.type_of(&step.ty)?;
    push_operation(lines, out, &step.ty, ty, &step.operation)?;
    if is_reference(step) {
        lines.frame.scope.add(out, &[Sym::Refer(ty)])?;
        return Ok(());
    }
    lines.frame.scope.add(out, &[Sym::Define(ty)])?;
    Ok(())
}

/// Whether a step's local is a pointer to a part.
fn is_reference(step: &Step) -> bool
    ensures { result ≡ is_reference (type_of step.now.ty) step.now.operation }
{
    match &step.operation {
        Operation::Left(_) | Operation::Right(_) => is_struct(&step.ty),
        _ => false,
    }
}

/// Whether values of a type are structs.
fn is_struct(ty: &Ty) -> bool
    ensures { result ≡ is_struct (type_of ty.now) }
{
    match ty {
        Ty::Unit | Ty::Bool | Ty::Int => false,
        Ty::Pair(..) | Ty::Event(_) | Ty::List(_) => true,
    }
}

/// Adds whether two registers are the same, as the next local.
fn push_equal_line(lines: Lines<'_>, out: &mut Vec<Sym>, j: usize, k: usize) -> Result<(), Unbuilt>
    ensures { IfOk result (λ _. made lines.entry.frame.scope out.new.items
        ≡ and_command (step_at lines.entry (step unit_ty (O.equal j k)))
        (made lines.entry.frame.scope out.old.items)) }
{
    let ty = lines.type_at(j)?;
    let a = Place::Local(lines.register(j)?);
    let b = Place::Local(lines.register(k)?);
    push_same(lines.frame.scope, out, lines.compared, ty, &a, &b)
}

/// Adds the lines of the steps.
#[tactic(auto, using(crate::proofs::Runs::run_joined))]
fn push_steps(lines: Lines<'_>, out: &mut Vec<Sym>) -> Result<(), Unbuilt>
    ensures { IfOk result (λ _. IsTyped lines.entry.frame
        → made lines.entry.frame.scope out.new.items
        ≡ and_command (steps_at lines.entry (steps_in lines.entry.steps.now))
        (made lines.entry.frame.scope out.old.items)) }
{
    push_each(lines, out)?;
    let count = lines.steps.len() + 1;
    lines.frame.scope.add(out, &[Sym::Skip, Sym::Block(count)])?;
    Ok(())
}

/// Adds the line of each step, one behind the other.
fn push_each(lines: Lines<'_>, out: &mut Vec<Sym>) -> Result<(), Unbuilt>
    ensures { IfOk result (λ _. IsTyped lines.entry.frame
        → made lines.entry.frame.scope out.new.items
        ≡ and_commands (map (step_at lines.entry) (steps_in lines.entry.steps.now))
        (made lines.entry.frame.scope out.old.items)) }
{
    for step in lines.steps {
        push_step(lines, out, step)?;
    }
    Ok(())
}

/// Adds the body of an expression's function, which answers a register.
pub(crate) fn push_leaf(lines: Lines<'_>, out: &mut Vec<Sym>, answer: usize) -> Result<(), Unbuilt>
    ensures { IfOk result (λ _. IsTyped lines.entry.frame
        → made lines.entry.frame.scope out.new.items
        ≡ and_command (leaf_at lines.entry answer) (made lines.entry.frame.scope out.old.items)) }
{
    push_steps(lines, out)?;
    let answer = Sym::Local(lines.register(answer)?);
    lines
        .frame
        .scope
        .add(out, &[answer, Sym::Answer, Sym::Block(2)])
}

/// Adds the body of a constant's function, whose input is a unit.
pub(crate) fn push_constant(
    lines: Lines<'_>,
    out: &mut Vec<Sym>,
    answer: usize,
) -> Result<(), Unbuilt>
    ensures { IfOk result (λ _. IsTyped lines.entry.frame
        → made lines.entry.frame.scope out.new.items
        ≡ and_command (sequence (define (number_type u8) (literal u8 (pos 0)))
        (leaf_at lines.entry answer)) (made lines.entry.frame.scope out.old.items)) }
{
    lines
        .frame
        .scope
        .add(out, &[Sym::Literal(Literal::Uint8(0)), Sym::Define(BYTE)])?;
    push_leaf(lines, out, answer)?;
    lines.frame.scope.add(out, &[Sym::Block(2)])
}
