// Whether each list of an input is within its array.

ghost use Rattle.std.specs.Prelude.{◌≡◌, IfOk};
ghost use Rattle.sample_core.specs.TypeTree.{pair_ty, event_ty, list_ty};
ghost use Rattle.sample_core.specs.TypeView.{type_of};
ghost use Rattle.leaf_code.specs.Fitting.{Bounds};
ghost use Rattle.c_leaf.specs.Within.{within_command, within_body};
ghost use Rattle.c_file.specs.FunctionC.{Callee};
ghost use Rattle.c_file.specs.Guarded.{guarded_step};
ghost use Rattle.c_build.specs.Places.{HasMost, place_term};
ghost use Rattle.c_build.specs.Making.{Adds};
ghost use Rattle.c_build.specs.Testing.{tested_by};

use crate::place::{Place, push_place};
use crate::same::{has_no_list, number_among};
use crate::scope::Scope;
use crate::sym::Sym;
use crate::table::TRUTH;
use crate::unbuilt::Unbuilt;
use c_text::{Literal, Operator, Scalar};
use sample_core::{Ty, TyChild};

/// Types that functions test, and the number of the first of these functions.
#[derive(Clone, Copy)]
pub(crate) struct Tests<'a> {
    pub(crate) types: &'a [Ty],
    pub(crate) first: usize,
}

/// Adds whether a part is within its arrays, as the next local. `Missing` if a number is too large.
#[tactic(auto, using(crate::proofs::Runs::run_joined))]
fn push_within(
    scope: Scope<'_>,
    out: &mut Vec<Sym>,
    tests: Tests<'_>,
    ty: &Ty,
    part: &Place<'_>,
) -> Result<(), Unbuilt>
    ensures { IfOk result (λ _. Adds scope.entry out.old.items out.new.items
        (within_command (tested_by tests.entry) (type_of ty.now) (place_term part.now))) }
{
    if has_no_list(ty) {
        return scope.add(
            out,
            &[Sym::Literal(Literal::Bool(true)), Sym::Define(TRUTH)],
        );
    }
    let Some(k) = tests.first.checked_add(number_among(tests.types, ty)) else {
        return Err(Unbuilt::Missing);
    };
    scope.add(out, &[Sym::Open])?;
    push_place(scope, out, part)?;
    scope.add(out, &[Sym::Const, Sym::Call(TRUTH, k)])
}

/// Adds the body of the function that tests a type, of which lists have room for so many elements.
pub(crate) fn push_within_body(
    scope: Scope<'_>,
    out: &mut Vec<Sym>,
    tests: Tests<'_>,
    ty: &Ty,
    most: u32,
) -> Result<(), Unbuilt>
    ensures { IfOk result (λ _. (n : Bounds) → HasMost n (type_of ty.now) most
        → Adds scope.entry out.old.items out.new.items (within_body n (tested_by tests.entry) (type_of ty.now))) }
{
    match ty {
        Ty::Unit | Ty::Bool | Ty::Int => scope.add(
            out,
            &[Sym::Literal(Literal::Bool(true)), Sym::Answer],
        ),
        Ty::Pair(a, b) => {
            push_pair_within(scope, out, tests, a, b)?;
            Ok(())
        }
        Ty::Event(a) => {
            push_event_within(scope, out, tests, a)?;
            Ok(())
        }
        Ty::List(a) => {
            push_list_within(scope, out, tests, a, most)?;
            Ok(())
        }
    }
}

/// Adds the body of the function that tests pairs.
fn push_pair_within(
    scope: Scope<'_>,
    out: &mut Vec<Sym>,
    tests: Tests<'_>,
    a: &TyChild,
    b: &TyChild,
) -> Result<(), Unbuilt>
    ensures { IfOk result (λ _. (n : Bounds) → Adds scope.entry out.old.items out.new.items
        (within_body n (tested_by tests.entry) (pair_ty a.now b.now))) }
{
    let input = Place::Local(0);
    push_within(scope, out, tests, a.get(), &Place::Dot(&input, 0))?;
    push_within(scope, out, tests, b.get(), &Place::Dot(&input, 1))?;
    scope.add(
        out,
        &[
            Sym::Local(1),
            Sym::Local(2),
            Sym::Both,
            Sym::Answer,
            Sym::Block(3),
        ],
    )?;
    Ok(())
}

/// Adds the body of the function that tests events.
fn push_event_within(
    scope: Scope<'_>,
    out: &mut Vec<Sym>,
    tests: Tests<'_>,
    a: &TyChild,
) -> Result<(), Unbuilt>
    ensures { IfOk result (λ _. (n : Bounds) → Adds scope.entry out.old.items out.new.items
        (within_body n (tested_by tests.entry) (event_ty a.now))) }
{
    let input = Place::Local(0);
    push_within(scope, out, tests, a.get(), &Place::Dot(&input, 1))?;
    scope.add(
        out,
        &[
            Sym::Local(1),
            Sym::Answer,
            Sym::Block(2),
            Sym::Skip,
            Sym::Local(0),
            Sym::Dot(0),
            Sym::Branch,
            Sym::Literal(Literal::Bool(true)),
            Sym::Answer,
            Sym::Block(2),
        ],
    )?;
    Ok(())
}

/// Adds the body of the function that tests lists.
fn push_list_within(
    scope: Scope<'_>,
    out: &mut Vec<Sym>,
    tests: Tests<'_>,
    a: &TyChild,
    most: u32,
) -> Result<(), Unbuilt>
    ensures { IfOk result (λ _. (n : Bounds) → n a.now ≡ most → Adds scope.entry out.old.items out.new.items
        (within_body n (tested_by tests.entry) (list_ty a.now))) }
{
    scope.add(
        out,
        &[
            Sym::Local(0),
            Sym::Dot(0),
            Sym::Literal(Literal::Uint32(most)),
            Sym::Binary(Operator::AtMost, Scalar::Uint32),
            Sym::Skip,
            Sym::Literal(Literal::Bool(false)),
            Sym::Answer,
            Sym::Branch,
        ],
    )?;
    let input = Place::Local(0);
    let all = Place::Dot(&input, 1);
    push_within(scope, out, tests, a.get(), &Place::At(&all, 1))?;
    scope.add(
        out,
        &[
            Sym::Local(2),
            Sym::Skip,
            Sym::Literal(Literal::Bool(false)),
            Sym::Answer,
            Sym::Branch,
            Sym::Block(2),
            Sym::Local(1),
            Sym::Local(0),
            Sym::Dot(0),
            Sym::Binary(Operator::Less, Scalar::Uint32),
            Sym::Loop(most),
            Sym::Literal(Literal::Bool(true)),
            Sym::Answer,
            Sym::Block(3),
        ],
    )?;
    Ok(())
}

/// What a step does that also refuses an input with a list over its array: function t tests the input, and
/// function j does the step.
pub(crate) fn push_guarded(
    scope: Scope<'_>,
    out: &mut Vec<Sym>,
    t: usize,
    j: usize,
) -> Result<(), Unbuilt>
    ensures { IfOk result (λ _. (n : Bounds) (c : Callee) → Adds scope.entry out.old.items out.new.items
        (guarded_step n c t j).body) }
{
    scope.add(
        out,
        &[
            Sym::Open,
            Sym::Local(2),
            Sym::Const,
            Sym::Call(TRUTH, t),
            Sym::Local(4),
            Sym::Skip,
            Sym::Literal(Literal::Bool(false)),
            Sym::Answer,
            Sym::Branch,
            Sym::Open,
            Sym::Local(0),
            Sym::Pointer,
            Sym::Local(1),
            Sym::Value,
            Sym::Local(2),
            Sym::Const,
            Sym::Local(3),
            Sym::Pointer,
            Sym::Call(TRUTH, j),
            Sym::Local(5),
            Sym::Answer,
            Sym::Block(4),
        ],
    )?;
    Ok(())
}
