// The functions of a file, in their order: those that compare values, and those of the code.

ghost use Rattle.std.specs.Prelude.{◌≡◌, ◌∷◌, ◌++◌, [], List, IfOk, map};
ghost use Rattle.code_fits.specs.Tables.{layout_of};
ghost use Rattle.c_text.specs.Meant.{function_meant};
ghost use Rattle.c_leaf.specs.LeafC.{same_function};
ghost use Rattle.c_file.specs.Compared.{number_among};
ghost use Rattle.c_file.specs.ProgramC.{Printed, and_function, and_functions};
ghost use Rattle.c_build.specs.LeafLines.{IsKnown};
ghost use Rattle.c_build.specs.Growing.{IsGrown, compared_by, limits_in, structs_in};

use crate::frame::{Called, Frame, kepts_of};
use crate::functions::push_called;
use crate::leaf_function::same_function;
use crate::scope::Scope;
use crate::types::Known;
use crate::unbuilt::Unbuilt;
use c_text::Function;
use code_fits::{Layout, Program};
use net_code::Function as Code;
use sample_core::Ty;
use std::alloc::Global;

/// What all functions of a file are built over: the program's types, and the types that functions compare.
#[derive(Clone, Copy)]
pub(crate) struct Setting<'a> {
    pub(crate) alloc: Global,
    pub(crate) known: Known<'a>,
    pub(crate) compared: &'a [Ty],
}

/// The functions that compare values.
pub(crate) fn comparing(setting: Setting<'_>) -> Result<Vec<Function>, Unbuilt>
    ensures { IfOk result (λ fs. IsKnown setting.entry.known
        → map (function_meant (structs_in setting.entry)) fs.items
        ≡ map (same_function (limits_in setting.entry) (number_among (compared_by setting.entry)))
        (compared_by setting.entry)) }
{
    let mut functions = Vec::new(setting.alloc);
    let compared = setting.compared;
    for ty in compared {
        let function = same_function(setting.alloc, setting.known, compared, ty)?;
        functions.push(function)?;
    }
    Ok(functions)
}

/// Adds those of the code: what is known of each.
pub(crate) fn push_code(
    setting: Setting<'_>,
    program: &Program,
    functions: &mut Vec<Function>,
) -> Result<Vec<Called>, Unbuilt>
    ensures { IfOk result (λ rs. (s : Printed) → IsKnown setting.entry.known
        → program.now.types ≡ setting.entry.known.types.now
        → IsGrown (structs_in setting.entry) (limits_in setting.entry) s functions.old.items []
        → IsGrown (structs_in setting.entry) (limits_in setting.entry)
        (and_functions (limits_in setting.entry) (number_among (compared_by setting.entry)) s
        program.now.functions.items (map (layout_of program.now.types) program.now.layouts.items))
        functions.new.items rs.items) }
{
    let mut callees = Vec::with_capacity(setting.alloc, program.functions.len())?;
    for (k, code) in program.functions.iter().enumerate() {
        let Some(layout) = program.layouts.get(k) else {
            return Err(Unbuilt::Missing);
        };
        let called = push_one(setting, callees.as_slice(), layout, code, functions)?;
        callees.push(called)?;
    }
    Ok(callees)
}

/// Adds a function of the code behind earlier ones: what is known of it.
fn push_one<'a>(
    setting: Setting<'a>,
    callees: &'a [Called],
    layout: &'a Layout,
    code: &Code,
    functions: &mut Vec<Function>,
) -> Result<Called, Unbuilt>
    ensures { IfOk result (λ r. (s : Printed) → IsKnown setting.entry.known
        → IsGrown (structs_in setting.entry) (limits_in setting.entry) s functions.old.items callees.now
        → IsGrown (structs_in setting.entry) (limits_in setting.entry)
        (and_function (limits_in setting.entry) (number_among (compared_by setting.entry)) s
        (layout_of setting.entry.known.types.now layout.now) code.now)
        functions.new.items (callees.now ++ r ∷ [])) }
{
    let known = setting.known;
    let params = known.tys(setting.alloc, layout.params.as_slice())?;
    let olds = kepts_of(setting.alloc, callees, layout.olds.as_slice())?;
    let scope = Scope::new(
        setting.alloc,
        known.table,
        params.as_slice(),
        olds.as_slice(),
    )?;
    let frame = Frame {
        scope,
        types: known.types,
        bounds: known.bounds,
        all: known.all,
        layout,
        callees,
    };
    let called = push_called(frame, setting.compared, functions, code)?;
    Ok(called)
}
