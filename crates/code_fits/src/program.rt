// A network's code with all that printing it needs.

ghost use Rattle.std.specs.Prelude.{◌≡◌, ◌-◌, IfErr, IfOk, MatchOption, get_or, length, map};
ghost use Rattle.code_fits.specs.CodeOfNet.{IsCodeOf};
ghost use Rattle.code_fits.specs.Programs.{HasNoProgram, IsProgramOf, StandsAt, StateFits};
ghost use Rattle.code_fits.specs.Refusing.{IsNoState, RefusesAt, RefusesSizes};
ghost use Rattle.code_fits.specs.Sizes.{IsFirstOver, IsStateOf, NoneOver, kept_sizes};
ghost use Rattle.code_fits.specs.Tables.{TableHolds, bound_of, layout_of};

use crate::around::layout_at;
use crate::bounds::bounds_of;
use crate::bytes::kept_bytes;
use crate::fitting::{Lengths, test_program};
use crate::layout::{Layout, Program};
use crate::types::Types;
use crate::walk::{Layouts, Unlaid, lay_out};
use net_code::{Function, compile};
use net_syntax::TypedNet;
use net_tree::Position;
use sample_core::{Memory, OutOfMemory};
use std::alloc::Global;
use thiserror::Error;

/// How many bytes the state of a network has at most.
pub const MOST_STATE: u64 = 67_108_864;

/// Why there is no program.
#[derive(Debug, Drop, Error)]
pub enum Refused {
    /// What is kept at this position is over `MOST_STATE`.
    #[error("state too large at {0}")]
    State(Position),
    /// A part has not the type that it must have: of a typed network that was never seen.
    #[error("no layout")]
    Untyped,
    /// Allocation failed.
    #[error("memory")]
    Memory,
}

impl<E: OutOfMemory> From<E> for Refused {
    fn from(_: E) -> Refused {
        Refused::Memory
    }
}

/// The same without layouts.
fn refusal(unlaid: Unlaid) -> Refused
    ensures { IsNoState result }
{
    match unlaid {
        Unlaid::Untyped => Refused::Untyped,
        Unlaid::Memory => Refused::Memory,
    }
}

/// The program of a network, which has room for `most` elements in lists of the input. `State` at the
/// first function that keeps more than `MOST_STATE`.
pub fn program_of(alloc: Global, net: &TypedNet, most: usize) -> Result<Program, Refused>
    ensures program { IfOk result (IsProgramOf net.now most) }
    ensures state { IfOk result StateFits }
    ensures refused { IfErr result (HasNoProgram net.now most) }
{
    let layouts = match lay_out(alloc, net) {
        Ok(layouts) => layouts,
        Err(unlaid) => return Err(refusal(unlaid)),
    };
    match compile(alloc, net.net()) {
        Ok(functions) => tested(alloc, net, functions, layouts, most),
        Err(Memory) => {
            drop(layouts);
            Err(Refused::Memory)
        }
    }
}

/// The program of these functions, which are the network's code, where they fit their layouts.
fn tested(
    alloc: Global,
    net: &TypedNet,
    functions: Vec<Function>,
    layouts: Layouts,
    most: usize,
) -> Result<Program, Refused>
    requires { IsCodeOf net.now functions.items }
    ensures program { IfOk result (IsProgramOf net.now most) }
    ensures state { IfOk result StateFits }
    ensures refused { IfErr result (HasNoProgram net.now most) }
{
    let mut layouts = layouts;
    let bounds = match bounds_of(
        alloc,
        functions.as_slice(),
        layouts.all.as_slice(),
        most,
        &mut layouts.types,
    ) {
        Ok(bounds) => bounds,
        Err(Memory) => return Err(Refused::Memory),
    };
    let Layouts { types, all } = layouts;
    let lengths = Lengths {
        types: &types,
        bounds: bounds.as_slice(),
        most,
    };
    let fits = test_program(alloc, net, functions.as_slice(), all.as_slice(), lengths);
    if let Err(unlaid) = fits {
        return Err(refusal(unlaid));
    }
    let state_bytes = match state_bytes(
        alloc,
        functions.as_slice(),
        all.as_slice(),
        &types,
        bounds.as_slice(),
    ) {
        Ok(state_bytes) => state_bytes,
        Err(refused) => return Err(refused),
    };
    Ok(Program {
        functions,
        layouts: all,
        types,
        bounds,
        state_bytes,
    })
}

/// The bytes of the state; `State` at the first function that keeps too much.
fn state_bytes(
    alloc: Global,
    functions: &[Function],
    layouts: &[Layout],
    types: &Types,
    bounds: &[usize],
) -> Result<u64, Refused>
    requires { TableHolds types.now }
    ensures fits { IfOk result (IsStateOf (kept_sizes (bound_of types.now bounds.now)
        functions.now (map (layout_of types.now) layouts.now))) }
    ensures refused { IfErr result (RefusesSizes (kept_sizes (bound_of types.now bounds.now)
        functions.now (map (layout_of types.now) layouts.now)) layouts.now) }
{
    let kept = match kept_bytes(alloc, functions, layouts, types, bounds) {
        Ok(kept) => kept,
        Err(unlaid) => return Err(refusal(unlaid)),
    };
    match first_over(kept.as_slice()) {
        Some(k) => Err(too_large(alloc, layouts, k)),
        None => Ok(last_of(kept.as_slice()).saturating_add(8)),
    }
}

/// The first of some sizes that is over `MOST_STATE`.
fn first_over(sizes: &[u64]) -> Option<usize>
    ensures { MatchOption result (NoneOver sizes.now (length sizes.now))
        (IsFirstOver sizes.now) }
{
    for (k, bytes) in sizes.iter().enumerate() {
        if *bytes > MOST_STATE {
            return Some(k);
        }
    }
    None
}

/// The last size, 0 where there is none.
fn last_of(sizes: &[u64]) -> u64
    ensures { result ≡ get_or sizes.now (length sizes.now - 1) 0 }
{
    match sizes.last() {
        Some(bytes) => *bytes,
        None => 0,
    }
}

/// The refusal of function k, which keeps too much.
fn too_large(alloc: Global, layouts: &[Layout], k: usize) -> Refused
    ensures { RefusesAt layouts.now k result }
{
    match position_of(alloc, layouts, k) {
        Ok(position) => Refused::State(position),
        Err(unlaid) => refusal(unlaid),
    }
}

/// Where the node of function k stands.
fn position_of(alloc: Global, layouts: &[Layout], k: usize) -> Result<Position, Unlaid>
    ensures { IfOk result (StandsAt layouts.now k) }
{
    let layout = layout_at(layouts, k)?;
    Ok(Position::of_node(alloc, layout.position.as_slice())?)
}
