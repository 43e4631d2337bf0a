// The types whose values code compares by functions.

ghost use Rattle.std.specs.Prelude.{◌≡◌, [], ◌∷◌, IfOk, map};
ghost use Rattle.sample_core.specs.TypeView.{type_of};
ghost use Rattle.leaf_code.specs.CodeOf.{type_at};
ghost use Rattle.leaf_code.specs.CodeView.{operation_of, steps_in};
ghost use Rattle.code_fits.specs.Tables.{layout_of};
ghost use Rattle.c_file.specs.Compared.{and_type, leaves_of, with_functions, with_leaves, with_operation, with_steps, with_type};
ghost use Rattle.c_build.specs.Leaves.{leaf_in};

use crate::leaves::{Leaf, code_of_leaf, input_of, leaves_of, register_type, trees_at};
use crate::same::{has_no_list, is_among};
use code_fits::{Layout, Program, Types};
use leaf_code::{Operation, Step};
use net_code::Function;
use sample_core::{Memory, Ty};
use std::alloc::Global;

/// The types whose values a program compares by functions, parts first.
pub(crate) fn compared(alloc: Global, program: &Program) -> Result<Vec<Ty>, Memory>
    ensures { IfOk result (λ all. map type_of all.items
        ≡ with_functions program.now.functions.items
        (map (layout_of program.now.types) program.now.layouts.items) []) }
{
    let mut all = Vec::new(alloc);
    let layouts = program.layouts.as_slice();
    for (k, function) in program.functions.iter().enumerate() {
        let Some(layout) = layouts.get(k) else {
            return Ok(all);
        };
        add_function(alloc, &program.types, layout, function, &mut all)?;
    }
    Ok(all)
}

/// Adds what the expressions of a function compare.
fn add_function(
    alloc: Global,
    types: &Types,
    layout: &Layout,
    function: &Function,
    all: &mut Vec<Ty>,
) -> Result<(), Memory>
    ensures { IfOk result (λ _. map type_of all.new.items
        ≡ with_leaves (layout_of types.now layout.now).params
        (leaves_of (layout_of types.now layout.now) function.now) (map type_of all.old.items)) }
{
    let params = trees_at(alloc, types, layout.params.as_slice())?;
    let leaves = leaves_of(alloc, types, layout, function)?;
    add_leaves(alloc, params.as_slice(), leaves.as_slice(), all)
}

/// Adds what expressions compare.
fn add_leaves(
    alloc: Global,
    params: &[Ty],
    leaves: &[Leaf<'_>],
    all: &mut Vec<Ty>,
) -> Result<(), Memory>
    ensures { IfOk result (λ _. map type_of all.new.items
        ≡ with_leaves (map type_of params.now) (map leaf_in leaves.now) (map type_of all.old.items)) }
{
    for leaf in leaves {
        add_leaf(alloc, params, leaf, all)?;
    }
    Ok(())
}

/// Adds what an expression compares.
fn add_leaf(alloc: Global, params: &[Ty], leaf: &Leaf<'_>, all: &mut Vec<Ty>) -> Result<(), Memory>
    ensures { IfOk result (λ _. map type_of all.new.items
        ≡ with_leaves (map type_of params.now) (leaf_in leaf.now ∷ []) (map type_of all.old.items)) }
{
    let input = input_of(alloc, leaf)?;
    let code = code_of_leaf(alloc, params, leaf)?;
    add_steps(alloc, &input, code.steps.as_slice(), all)
}

/// Adds what steps compare.
fn add_steps(alloc: Global, input: &Ty, steps: &[Step], all: &mut Vec<Ty>) -> Result<(), Memory>
    ensures { IfOk result (λ _. map type_of all.new.items
        ≡ with_steps (type_at (type_of input.now) (steps_in steps.now)) (steps_in steps.now)
        (map type_of all.old.items)) }
{
    for step in steps {
        add_operation(alloc, input, steps, &step.operation, all)?;
    }
    Ok(())
}

/// Adds what an operation compares.
fn add_operation(
    alloc: Global,
    input: &Ty,
    steps: &[Step],
    operation: &Operation,
    all: &mut Vec<Ty>,
) -> Result<(), Memory>
    ensures { IfOk result (λ _. map type_of all.new.items
        ≡ with_operation (type_at (type_of input.now) (steps_in steps.now))
        (operation_of operation.now) (map type_of all.old.items)) }
{
    let Operation::Equal(j, _) = operation else {
        return Ok(());
    };
    match register_type(input, steps, *j) {
        Some(ty) => add_type(alloc, ty, all),
        None => Ok(()),
    }
}

/// Adds a type with lists behind its parts, each where it isn't there.
pub(crate) fn add_type(alloc: Global, ty: &Ty, all: &mut Vec<Ty>) -> Result<(), Memory>
    ensures { IfOk result (λ _. map type_of all.new.items
        ≡ with_type (type_of ty.now) (map type_of all.old.items)) }
{
    match ty {
        Ty::Unit | Ty::Bool | Ty::Int => return Ok(()),
        Ty::Pair(a, b) => {
            add_type(alloc, a.get(), all)?;
            add_type(alloc, b.get(), all)?;
        }
        Ty::Event(a) | Ty::List(a) => add_type(alloc, a.get(), all)?,
    }
    add_one(alloc, ty, all)
}

/// Adds a type if it has lists and isn't there.
fn add_one(alloc: Global, ty: &Ty, all: &mut Vec<Ty>) -> Result<(), Memory>
    ensures { IfOk result (λ _. map type_of all.new.items
        ≡ and_type (type_of ty.now) (map type_of all.old.items)) }
{
    if !has_no_list(ty) && !is_among(ty, all.as_slice()) {
        all.push(ty.try_copy(alloc)?)?;
    }
    Ok(())
}
