// How long lists may be, by their types.

use crate::layout::Layout;
use crate::leaves::{code_of, constant_of, leaf_input, leaf_of};
use crate::types::{TypeEntry, Types};
use leaf_code::{Operation, Step};
use leaf_core::Expr;
use net_code::Function;
use net_tree::MOST_MEMBERS;
use sample_core::{Memory, Ty, TyChild};
use std::alloc::Global;

/// Adds the types of a network's code to the table. Of each type the greatest length of its lists, at
/// least 1, where those of the input have at most so many elements; of a type of no lists 0.
pub(crate) fn bounds_of(
    alloc: Global,
    functions: &[Function],
    layouts: &[Layout],
    most: usize,
    types: &mut Types,
) -> Result<Vec<usize>, Memory> {
    let mut bounds = Vec::new(alloc);
    for (function, layout) in functions.iter().zip(layouts.iter()) {
        add_function(alloc, function, layout, types, &mut bounds)?;
    }
    if let Some(layout) = layouts.last() {
        add_input(alloc, layout.input, most, types, &mut bounds)?;
    }
    add_rest(types, &mut bounds)?;
    Ok(bounds)
}

/// Lists of a type have so many elements, or more.
fn raise(list: usize, most: usize, bounds: &mut Vec<usize>) -> Result<(), Memory> {
    for _ in bounds.len()..list.saturating_add(1) {
        bounds.push(0)?;
    }
    if let Some(known) = bounds.get_mut(list) {
        *known = (*known).max(most);
    }
    Ok(())
}

/// At least 1 for each type of lists.
fn add_rest(types: &Types, bounds: &mut Vec<usize>) -> Result<(), Memory> {
    for (k, entry) in types.entries.iter().enumerate() {
        match entry {
            TypeEntry::List(_) => raise(k, 1, bounds)?,
            _ => raise(k, 0, bounds)?,
        }
    }
    Ok(())
}

/// Lists of the input's type, and of its parts.
fn add_input(
    alloc: Global,
    input: usize,
    most: usize,
    types: &mut Types,
    bounds: &mut Vec<usize>,
) -> Result<(), Memory> {
    let tree = types.tree(alloc, input)?;
    let added = add_tree(alloc, &tree, most, types, bounds);
    drop(tree);
    added
}

/// Lists of a type, and of its parts.
#[cycle(add)]
fn add_tree(
    alloc: Global,
    ty: &Ty,
    most: usize,
    types: &mut Types,
    bounds: &mut Vec<usize>,
) -> Result<(), Memory> {
    match ty {
        Ty::Unit | Ty::Bool | Ty::Int => Ok(()),
        Ty::Pair(a, b) => add_pair(alloc, a, b, most, types, bounds),
        Ty::Event(a) => add_tree(alloc, a.get(), most, types, bounds),
        Ty::List(a) => {
            let list = types.number(alloc, ty)?;
            raise(list, most, bounds)?;
            add_tree(alloc, a.get(), most, types, bounds)
        }
    }
}

/// The parts of a type of pairs.
#[cycle(add)]
fn add_pair(
    alloc: Global,
    a: &TyChild,
    b: &TyChild,
    most: usize,
    types: &mut Types,
    bounds: &mut Vec<usize>,
) -> Result<(), Memory> {
    add_tree(alloc, a.get(), most, types, bounds)?;
    add_tree(alloc, b.get(), most, types, bounds)
}

/// The types of a function's leaves, and the lists that it makes.
fn add_function(
    alloc: Global,
    function: &Function,
    layout: &Layout,
    types: &mut Types,
    bounds: &mut Vec<usize>,
) -> Result<(), Memory> {
    match function {
        Function::Par(fs) => raise(layout.output, fs.len(), bounds)?,
        Function::PSwitch(_, fs, ..) => raise(layout.output, fs.len(), bounds)?,
        Function::Collection(..) => raise(layout.output, MOST_MEMBERS, bounds)?,
        _ => {}
    }
    if let Some(c) = constant_of(function) {
        let unit = types.entry_number(alloc, TypeEntry::Unit)?;
        add_leaf(alloc, layout, unit, c, types, bounds)?;
    }
    match leaf_of(function) {
        Some(e) => {
            let input = leaf_input(alloc, function, layout, types)?;
            add_leaf(alloc, layout, input, e, types, bounds)
        }
        None => Ok(()),
    }
}

/// The types of a leaf's registers, and the lists that it makes.
fn add_leaf(
    alloc: Global,
    layout: &Layout,
    input: usize,
    e: &Expr,
    types: &mut Types,
    bounds: &mut Vec<usize>,
) -> Result<(), Memory> {
    let code = code_of(alloc, layout, input, e, types)?;
    let added = add_steps(alloc, code.steps.as_slice(), types, bounds);
    drop(code);
    added
}

/// The same of steps.
fn add_steps(
    alloc: Global,
    steps: &[Step],
    types: &mut Types,
    bounds: &mut Vec<usize>,
) -> Result<(), Memory> {
    for step in steps {
        let ty = types.number(alloc, &step.ty)?;
        match &step.operation {
            Operation::List(all) => raise(ty, all.len(), bounds)?,
            _ => {}
        }
    }
    Ok(())
}
