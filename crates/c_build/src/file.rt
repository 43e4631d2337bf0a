// The file of a program.

ghost use Rattle.std.specs.Prelude.{◌≡◌, ◌-◌, List, IfOk, length, map};
ghost use Rattle.leaf_code.specs.Fitting.{Bounds};
ghost use Rattle.code_fits.specs.Tables.{TableHolds, layout_of};
ghost use Rattle.c_text.specs.Meant.{structs_meant};
ghost use Rattle.c_file.specs.FunctionC.{Callee, callee_at};
ghost use Rattle.c_build.specs.Frames.{AreCallees};
ghost use Rattle.c_build.specs.Growing.{FromInputs, IsWhole, structs_in};
ghost use Rattle.c_build.specs.Types.{Typed};
ghost use Rattle.c_build.specs.Building.{HasParts, IsBuilt, IsSetting};

use crate::compared::compared;
use crate::ends::{Whole, push_ends};
use crate::frame::{Called, found};
use crate::growing::{Setting, comparing, push_code};
use crate::leaves::tree_at;
use crate::scope::Scope;
use crate::structs::structs_of;
use crate::table::{TRUTH, Table};
use crate::types::{Known, known_of};
use crate::unbuilt::Unbuilt;
use c_text::{CType, File, Function, Kind};
use code_fits::Program;
use std::alloc::Global;

/// The C of a program, and what whoever prints it asks of it.
#[derive(Drop)]
pub struct Built {
    /// The structs and the functions.
    pub file: File,
    /// The type of C of each type of the program.
    pub types: Vec<CType>,
    /// The struct of the state.
    pub state: CType,
    /// The number of the C function that does the step of each function of the code.
    pub steps: Vec<usize>,
    /// The number of `init`.
    pub init: usize,
    /// The number of `step`.
    pub step: usize,
}

/// The functions of a file, and what whoever prints it asks of them.
#[derive(Drop)]
struct Parts {
    functions: Vec<Function>,
    state: CType,
    steps: Vec<usize>,
    init: usize,
    step: usize,
}

/// Builds the C of a program, with a step that tests what it is given, or an unchecked one. `Missing`: never of
/// a network's program; `Memory` if allocation fails.
pub fn build(alloc: Global, program: &Program, unchecked: bool) -> Result<Built, Unbuilt>
    requires { TableHolds program.now.types }
    ensures { IfOk result (λ b. IsBuilt program.now unchecked b) }
{
    let structs = structs_of(alloc, program)?;
    let table = Table::new(structs.all.as_slice(), &structs.index)?;
    let types = known_of(alloc, table, &program.types, program.bounds.as_slice())?;
    let parts = parts_of(alloc, table, types.as_slice(), program, unchecked)?;
    Ok(Built {
        file: File {
            structs: structs.all,
            functions: parts.functions,
        },
        types,
        state: parts.state,
        steps: parts.steps,
        init: parts.init,
        step: parts.step,
    })
}

/// The functions of a file over structs, where the types of C of a program's types are known.
fn parts_of<'a>(
    alloc: Global,
    table: Table<'a>,
    types: &'a [CType],
    program: &'a Program,
    unchecked: bool,
) -> Result<Parts, Unbuilt>
    ensures { IfOk result (λ r.
        Typed (structs_meant table.entry.structs.now) program.now.types program.now.bounds.items types.now
        → HasParts (structs_meant table.entry.structs.now) program.now unchecked r) }
{
    let compared = compared(alloc, program)?;
    let known = Known {
        table,
        types: &program.types,
        bounds: program.bounds.as_slice(),
        all: types,
    };
    let setting = Setting {
        alloc,
        known,
        compared: compared.as_slice(),
    };
    let parts = parts_in(setting, program, unchecked)?;
    Ok(parts)
}

/// The same in a setting.
fn parts_in(setting: Setting<'_>, program: &Program, unchecked: bool) -> Result<Parts, Unbuilt>
    ensures { IfOk result (λ r. IsSetting program.now setting.entry
        → HasParts (structs_in setting.entry) program.now unchecked r) }
{
    let mut functions = comparing(setting)?;
    let callees = push_code(setting, program, &mut functions)?;
    let init = functions.len();
    let table = setting.known.table;
    let whole = whole_of(setting.alloc, table, program, callees.as_slice())?;
    let scope = Scope::new(setting.alloc, table, &[], &[])?;
    push_ends(scope, setting.known, &whole, unchecked, &mut functions)?;
    let step = functions.len().saturating_sub(1);
    let steps = numbers_of(setting.alloc, callees.as_slice())?;
    let state = whole.state;
    Ok(Parts {
        functions,
        state,
        steps,
        init,
        step,
    })
}

/// The last function of the code.
fn whole_of(
    alloc: Global,
    table: Table<'_>,
    program: &Program,
    callees: &[Called],
) -> Result<Whole, Unbuilt>
    ensures { IfOk result (λ w. (n : Bounds) (cs : List Callee)
        → AreCallees (structs_meant table.entry.structs.now) n cs callees.now
        → FromInputs cs (map (layout_of program.now.types) program.now.layouts.items)
        → IsWhole (structs_meant table.entry.structs.now) n (callee_at cs (length cs - 1)) w) }
{
    if callees.is_empty() {
        return Err(Unbuilt::Missing);
    }
    let last = callees.len().saturating_sub(1);
    let called = found(callees, last)?;
    let Some(layout) = program.layouts.get(last) else {
        return Err(Unbuilt::Missing);
    };
    let input = tree_at(alloc, &program.types, layout.input)?;
    let state = table.struct_of(Kind::Kept, &[TRUTH, called.kept])?;
    Ok(Whole {
        called,
        input,
        state,
    })
}

/// The numbers of the C functions of functions.
fn numbers_of(alloc: Global, callees: &[Called]) -> Result<Vec<usize>, Unbuilt>
    ensures { IfOk result (λ js. js.items ≡ map (λ r. r.number) callees.now) }
{
    let mut numbers = Vec::with_capacity(alloc, callees.len())?;
    for called in callees {
        numbers.push(called.number)?;
    }
    Ok(numbers)
}
