// The C functions of the functions of the code.

ghost use Rattle.std.specs.Prelude.{◌≡◌, ◌++◌, ◌∷◌, [], suc, List, IfOk, length, map};
ghost use Rattle.sample_core.specs.TypeView.{type_of};
ghost use Rattle.c_text.specs.Meant.{type_meant};
ghost use Rattle.c_leaf.specs.Representing.{c_type};
ghost use Rattle.c_forms.specs.Members.{par_function};
ghost use Rattle.c_forms.specs.Routing.{routed_function};
ghost use Rattle.c_file.specs.Compared.{leaves_of, number_among};
ghost use Rattle.c_file.specs.FunctionC.{Callee, callee_at, element_type, helpers_c, leaf_c, number_at, numbers_from, olds, routed_c, shape_at};
ghost use Rattle.c_file.specs.ProgramC.{Printed};
ghost use Rattle.c_build.specs.Frames.{Stands, bounds_in, layout_in};
ghost use Rattle.c_build.specs.Functions.{IsPushed, all_in, function_in, functions_in};
ghost use Rattle.c_build.specs.LeafLines.{IsTyped};
ghost use Rattle.c_build.specs.Leaves.{leaf_in};
ghost use Rattle.c_build.specs.Scopes.{table};

use crate::frame::{Called, Frame};
use crate::keeping::{kept_same, kept_type_of};
use crate::leaf_function::function_of_leaf;
use crate::leaves::{Leaf, leaves_of, trees_at};
use crate::routing::{Routed, push_routed};
use crate::steps::{members_step, step_of, stepping};
use crate::table::INTEGER;
use crate::unbuilt::Unbuilt;
use c_text::Function;
use net_code::Function as Coded;
use sample_core::Ty;
use std::alloc::Global;

/// Adds the C functions of a function of the code, and says what the file has of it then: its step is the last.
/// Values of some types are compared by functions.
pub(crate) fn push_called(
    frame: Frame<'_>,
    compared: &[Ty],
    functions: &mut Vec<Function>,
    f: &Coded,
) -> Result<Called, Unbuilt>
    ensures { IfOk result (λ r. (s : Printed) → Stands frame.entry s.callees
        → functions_in frame.entry functions.old.items ≡ s.file
        → IsPushed frame.entry compared.now s f.now functions.new.items r) }
{
    let kept = kept_type_of(frame, f)?;
    let input = frame.input()?;
    let output = frame.output()?;
    push_functions(frame, compared, functions, f)?;
    Ok(Called {
        number: functions.len().saturating_sub(1),
        kept,
        input,
        output,
    })
}

/// Adds the C functions of a function of the code: those of its expressions, what stands between, and its step.
/// Values of some types are compared by functions.
pub(crate) fn push_functions(
    frame: Frame<'_>,
    compared: &[Ty],
    functions: &mut Vec<Function>,
    f: &Coded,
) -> Result<(), Unbuilt>
    ensures { IfOk result (λ _. (cs : List Callee) → Stands frame.entry cs
        → functions_in frame.entry functions.new.items
        ≡ functions_in frame.entry functions.old.items
        ++ all_in frame.entry compared.now cs (length functions.old.items) f.now) }
{
    let first = functions.len();
    push_leaves(frame, compared, functions, f)?;
    push_helpers(frame, functions, first, f)?;
    let step = step_of(frame, first, f)?;
    functions.push(step)?;
    Ok(())
}

/// Adds the C functions of a function's expressions.
fn push_leaves(
    frame: Frame<'_>,
    compared: &[Ty],
    functions: &mut Vec<Function>,
    f: &Coded,
) -> Result<(), Unbuilt>
    ensures { IfOk result (λ _. (cs : List Callee) → Stands frame.entry cs
        → functions_in frame.entry functions.new.items
        ≡ functions_in frame.entry functions.old.items
        ++ map (leaf_c (bounds_in frame.entry) (number_among (map type_of compared.now)) (layout_in frame.entry).params)
        (leaves_of (layout_in frame.entry) f.now)) }
{
    let alloc = frame.scope.alloc;
    let params = trees_at(alloc, frame.types, frame.layout.params.as_slice())?;
    let leaves = leaves_of(alloc, frame.types, frame.layout, f)?;
    push_each_leaf(
        frame,
        compared,
        params.as_slice(),
        leaves.as_slice(),
        functions,
    )?;
    Ok(())
}

/// Adds the C functions of expressions, under parameters of these types.
fn push_each_leaf(
    frame: Frame<'_>,
    compared: &[Ty],
    params: &[Ty],
    leaves: &[Leaf<'_>],
    functions: &mut Vec<Function>,
) -> Result<(), Unbuilt>
    ensures { IfOk result (λ _. IsTyped frame.entry
        → map (type_meant (table frame.entry.scope)) frame.entry.scope.params.now
        ≡ map (c_type (bounds_in frame.entry)) (map type_of params.now)
        → functions_in frame.entry functions.new.items
        ≡ functions_in frame.entry functions.old.items
        ++ map (leaf_c (bounds_in frame.entry) (number_among (map type_of compared.now)) (map type_of params.now))
        (map leaf_in leaves.now)) }
{
    for leaf in leaves {
        let function = function_of_leaf(frame, compared, params, leaf)?;
        functions.push(function)?;
    }
    Ok(())
}

/// Adds what stands between a function's expressions, which are the C functions from this number on, and its
/// step.
fn push_helpers(
    frame: Frame<'_>,
    functions: &mut Vec<Function>,
    first: usize,
    f: &Coded,
) -> Result<(), Unbuilt>
    ensures { IfOk result (λ _. (cs : List Callee) → Stands frame.entry cs
        → functions_in frame.entry functions.new.items
        ≡ functions_in frame.entry functions.old.items
        ++ helpers_c cs (layout_in frame.entry) (bounds_in frame.entry) first f.now) }
{
    match f {
        Coded::PSwitch(_, fs, _, _) => {
            push_parallel(frame, functions, first, fs.as_slice())?;
            Ok(())
        }
        _ => Ok(()),
    }
}

/// Adds the members of a `pSwitch`, behind its route, which is function k, and all of them as one. `Missing`
/// if a number is too large.
fn push_parallel(
    frame: Frame<'_>,
    functions: &mut Vec<Function>,
    k: usize,
    fs: &[usize],
) -> Result<(), Unbuilt>
    ensures { IfOk result (λ _. (cs : List Callee) → Stands frame.entry cs
        → functions_in frame.entry functions.new.items
        ≡ functions_in frame.entry functions.old.items
        ++ (routed_c cs (layout_in frame.entry) (bounds_in frame.entry) k 0 fs.now
        ++ par_function (bounds_in frame.entry) (layout_in frame.entry).params (olds cs (layout_in frame.entry))
        (map (shape_at cs) fs.now) (layout_in frame.entry).input (element_type (layout_in frame.entry).output)
        (numbers_from (suc k) fs.now) ∷ [])) }
{
    let Some(first) = k.checked_add(1) else {
        return Err(Unbuilt::Missing);
    };
    push_each_routed(frame, functions, k, fs)?;
    let js = numbers_from(frame.scope.alloc, first, fs)?;
    let step = members_step(frame, fs, js.as_slice())?;
    functions.push(step)?;
    Ok(())
}

/// As many numbers as there are here, from one on. `Missing` if one is too large.
fn numbers_from(alloc: Global, first: usize, fs: &[usize]) -> Result<Vec<usize>, Unbuilt>
    ensures { IfOk result (λ js. js.items ≡ numbers_from first fs.now) }
{
    let mut all = Vec::with_capacity(alloc, fs.len())?;
    for i in 0..fs.len() {
        let Some(number) = first.checked_add(i) else {
            return Err(Unbuilt::Missing);
        };
        all.push(number)?;
    }
    Ok(all)
}

/// Adds members, each behind the route, which is function k.
fn push_each_routed(
    frame: Frame<'_>,
    functions: &mut Vec<Function>,
    k: usize,
    fs: &[usize],
) -> Result<(), Unbuilt>
    ensures { IfOk result (λ _. (cs : List Callee) → Stands frame.entry cs
        → functions_in frame.entry functions.new.items
        ≡ functions_in frame.entry functions.old.items
        ++ routed_c cs (layout_in frame.entry) (bounds_in frame.entry) k 0 fs.now) }
{
    for i in 0..fs.len() {
        let step = routed_step(frame, i, k, fs[i])?;
        functions.push(step)?;
    }
    Ok(())
}

/// Member i, of function f, behind the route, which is function k.
fn routed_step(frame: Frame<'_>, i: usize, k: usize, f: usize) -> Result<Function, Unbuilt>
    ensures { IfOk result (λ r. (cs : List Callee) → Stands frame.entry cs
        → function_in frame.entry r
        ≡ routed_function (bounds_in frame.entry) (layout_in frame.entry).params (olds cs (layout_in frame.entry))
        (shape_at cs f) (layout_in frame.entry).input (callee_at cs f).input
        (element_type (layout_in frame.entry).output) i k (number_at cs f)) }
{
    let kept = kept_same(frame, f)?;
    let part = frame.callee(f)?;
    let input = frame.input()?;
    let numbered = frame.pair(input, INTEGER)?;
    let answer = frame.element_answer()?;
    let types = Routed {
        numbered,
        given: part.input,
        answer,
    };
    let mut lines = Vec::new(frame.scope.alloc);
    push_routed(frame.scope, &mut lines, types, i, k, part.number)?;
    let step = stepping(frame, kept, input, answer, lines)?;
    Ok(step)
}
