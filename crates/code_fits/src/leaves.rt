// The expressions of functions, and their code.

use crate::layout::Layout;
use crate::types::{TypeEntry, Types};
use crate::walk::trees;
use leaf_code::{LeafCode, compile_expr};
use leaf_core::Expr;
use net_code::Function;
use sample_core::Memory;
use std::alloc::Global;

/// The expressions of a function, in the order of its statements: those that look at no input, and at most
/// one that does.
pub(crate) fn constant_of(function: &Function) -> Option<&Expr> {
    match function {
        Function::Loop(c, _)
        | Function::Cell(_, c)
        | Function::InitialOut(c, _)
        | Function::InitialIn(c, _) => Some(c),
        Function::Accum(_, z) => Some(z),
        _ => None,
    }
}

/// The expression of a function that looks at an input.
pub(crate) fn leaf_of(function: &Function) -> Option<&Expr> {
    match function {
        Function::Arr(e) => Some(e),
        Function::Accum(g, _) => Some(g),
        Function::PSwitch(r, ..) => Some(r),
        Function::Collection(_, m, _) => Some(m),
        _ => None,
    }
}

/// The type of what that expression gets.
pub(crate) fn leaf_input(
    alloc: Global,
    function: &Function,
    layout: &Layout,
    types: &mut Types,
) -> Result<usize, Memory> {
    match function {
        Function::Accum(..) => {
            let value = match types.carried(layout.input) {
                Ok(value) => value,
                Err(_) => layout.input,
            };
            match layout.kept {
                Some(kept) => types.entry_number(alloc, TypeEntry::Pair(kept, value)),
                None => Ok(value),
            }
        }
        Function::PSwitch(..) => {
            let int = types.entry_number(alloc, TypeEntry::Int)?;
            types.entry_number(alloc, TypeEntry::Pair(layout.input, int))
        }
        Function::Collection(..) => Ok(event_value(layout.input, types)),
        _ => Ok(layout.input),
    }
}

/// The type of what the event beside an input carries.
fn event_value(input: usize, types: &Types) -> usize {
    let Ok((_, event)) = types.parts(input) else {
        return input;
    };
    match types.carried(event) {
        Ok(value) => value,
        Err(_) => input,
    }
}

/// The code of an expression of a function, at an input of the type.
pub(crate) fn code_of(
    alloc: Global,
    layout: &Layout,
    input: usize,
    e: &Expr,
    types: &Types,
) -> Result<LeafCode, Memory> {
    let params = trees(alloc, layout.params.as_slice(), types)?;
    let input = match types.tree(alloc, input) {
        Ok(input) => input,
        Err(Memory) => {
            drop(params);
            return Err(Memory);
        }
    };
    let code = compile_expr(alloc, params.as_slice(), &input, e);
    drop(input);
    drop(params);
    code
}
