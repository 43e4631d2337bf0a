// Whether the functions of a program fit their layouts.

ghost use Rattle.std.specs.Prelude.{◌≡◌, ◌^◌, IfOk, Some};
ghost use Rattle.sample_core.specs.TypeView.{type_of};
ghost use Rattle.net_code.specs.Running.{AllBelow};
ghost use Rattle.code_fits.specs.Programs.{HasWhole};
ghost use Rattle.code_fits.specs.Room.{HasRoom};
ghost use Rattle.code_fits.specs.Tables.{LayoutsFit, TableHolds, bound_of, entry_tree, tree_at};

use crate::around::{Around, equal, layout_at, may_have, type_at};
use crate::layout::Layout;
use crate::rules::function_fits;
use crate::types::{TypeEntry, Types};
use crate::walk::Unlaid;
use net_code::Function;
use net_syntax::TypedNet;
use sample_core::{Ty, same_type};
use std::alloc::Global;

/// What the greatest length of lists is below: it has 32 bits.
const BOUND: usize = 4_294_967_296;

/// How long lists may be, by their types.
#[derive(Clone, Copy)]
pub(crate) struct Lengths<'a> {
    pub(crate) types: &'a Types,
    pub(crate) bounds: &'a [usize],
    /// Those of the input.
    pub(crate) most: usize,
}

/// Tests that each entry of the table is the tree at its number, that functions fit their layouts by the
/// rules of `specs/Rules`, that the last goes from the network's input to its output with nothing in
/// scope, that the input's lists have room, and that the greatest lengths have 32 bits: `Untyped` where
/// they don't.
pub(crate) fn test_program(
    alloc: Global,
    net: &TypedNet,
    functions: &[Function],
    layouts: &[Layout],
    lengths: Lengths<'_>,
) -> Result<(), Unlaid>
    ensures table { IfOk result (λ _. TableHolds lengths.entry.types.now) }
    ensures layouts { IfOk result (λ _. LayoutsFit lengths.entry.types.now lengths.entry.bounds.now
        functions.now layouts.now) }
    ensures whole { IfOk result
        (λ _. HasWhole net.now lengths.entry.types.now functions.now layouts.now) }
    ensures room { IfOk result
        (λ _. HasRoom (bound_of lengths.entry.types.now lengths.entry.bounds.now)
        lengths.entry.most net.now.input) }
    ensures small { IfOk result (λ _. AllBelow (2 ^ 32) lengths.entry.bounds.now) }
{
    all_below(BOUND, lengths.bounds)?;
    test_table(lengths.types)?;
    test_layouts(alloc, functions, layouts, lengths.types, lengths.bounds)?;
    test_whole(net, functions, layouts, lengths.types)?;
    test_room(lengths, net.input())
}

/// Each list in a value of the type may have as many elements as the input's lists.
fn test_room(lengths: Lengths<'_>, ty: &Ty) -> Result<(), Unlaid>
    ensures { IfOk result
        (λ _. HasRoom (bound_of lengths.entry.types.now lengths.entry.bounds.now)
        lengths.entry.most (type_of ty.now)) }
{
    match ty {
        Ty::Unit | Ty::Bool | Ty::Int => Ok(()),
        Ty::Pair(a, b) => {
            test_room(lengths, a.get())?;
            test_room(lengths, b.get())
        }
        Ty::Event(a) => test_room(lengths, a.get()),
        Ty::List(a) => {
            let known = lengths.types.trees.as_slice();
            may_have(known, lengths.bounds, ty, lengths.most)?;
            test_room(lengths, a.get())
        }
    }
}

/// The last function has nothing in scope, and goes from the network's input to its output.
fn test_whole(
    net: &TypedNet,
    functions: &[Function],
    layouts: &[Layout],
    types: &Types,
) -> Result<(), Unlaid>
    ensures { IfOk result (λ _. HasWhole net.now types.now functions.now layouts.now) }
{
    let last = functions.len().saturating_sub(1);
    let layout = layout_at(layouts, last)?;
    equal(layout.params.as_slice(), &[])?;
    equal(layout.olds.as_slice(), &[])?;
    test_type(types, layout.input, net.input())?;
    test_type(types, layout.output, net.output())?;
    Ok(())
}

/// The type of a number is this one.
fn test_type(types: &Types, k: usize, ty: &Ty) -> Result<(), Unlaid>
    ensures { IfOk result (λ _. tree_at types.now k ≡ type_of ty.now) }
{
    let tree = type_at(types, k)?;
    if same_type(tree, ty) {
        Ok(())
    } else {
        Err(Unlaid::Untyped)
    }
}

/// Each entry is the tree at its number.
fn test_table(types: &Types) -> Result<(), Unlaid>
    ensures { IfOk result (λ _. TableHolds types.now) }
{
    for (k, entry) in types.entries.iter().enumerate() {
        match types.trees.get(k) {
            Some(tree) => test_entry(types, *entry, tree)?,
            None => return Err(Unlaid::Untyped),
        }
    }
    Ok(())
}

/// An entry is this type.
fn test_entry(types: &Types, entry: TypeEntry, tree: &Ty) -> Result<(), Unlaid>
    ensures { IfOk result (λ _. type_of tree.now ≡ entry_tree types.now entry) }
{
    match (entry, tree) {
        (TypeEntry::Unit, Ty::Unit) => Ok(()),
        (TypeEntry::Bool, Ty::Bool) => Ok(()),
        (TypeEntry::Int, Ty::Int) => Ok(()),
        (TypeEntry::Pair(i, j), Ty::Pair(a, b)) => {
            test_type(types, i, a.get())?;
            test_type(types, j, b.get())
        }
        (TypeEntry::Event(i), Ty::Event(a)) => test_type(types, i, a.get()),
        (TypeEntry::List(i), Ty::List(a)) => test_type(types, i, a.get()),
        _ => Err(Unlaid::Untyped),
    }
}

/// Each function fits its layout, and what is frozen there are earlier functions.
fn test_layouts(
    alloc: Global,
    functions: &[Function],
    layouts: &[Layout],
    types: &Types,
    bounds: &[usize],
) -> Result<(), Unlaid>
    ensures { IfOk result
        (λ _. TableHolds types.now → LayoutsFit types.now bounds.now functions.now layouts.now) }
{
    if functions.len() != layouts.len() {
        return Err(Unlaid::Untyped);
    }
    for (k, function) in functions.iter().enumerate() {
        let layout = layout_at(layouts, k)?;
        let around = Around {
            alloc,
            types,
            bounds,
            earlier: &layouts[..k],
            layout,
        };
        function_fits(around, function)?;
        all_below(k, layout.olds.as_slice())?;
    }
    Ok(())
}

/// Each number is below k.
fn all_below(k: usize, numbers: &[usize]) -> Result<(), Unlaid>
    ensures { IfOk result (λ _. AllBelow k numbers.now) }
{
    for number in numbers {
        if *number >= k {
            return Err(Unlaid::Untyped);
        }
    }
    Ok(())
}
