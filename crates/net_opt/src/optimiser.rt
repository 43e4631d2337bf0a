// The optimiser: steps are taken until none is left.

ghost use Rattle.std.specs.Prelude.{◌≡◌, [], IfOk, map};
ghost use Rattle.net_tree.specs.NetworkView.{tree_of};
ghost use Rattle.net_tree.specs.LawStep.{step_of};
ghost use Rattle.net_opt.specs.Optimising.{Exhausts, NoneLeft, Optimised};
ghost use Rattle.net_opt.specs.Search.{FirstWithin, FoundStep, Settled};

use crate::search::step_within;
use crate::walk::Walk;
use leaf_core::Expr;
use net_syntax::{Place, TypedNet};
use net_tree::{LawStep, Net, TreeRef};
use sample_core::Memory;
use std::alloc::Global;

/// The most steps that the optimiser takes.
pub(crate) const MOST_TAKEN: usize = 1_000;

/// What laws alone make of the source, meant to be faster, with the steps that lead there. Each is
/// forward and by one of the laws that the optimiser tries, and each is the first that would be
/// accepted. There are at most 1,000; where there are fewer, no such step, at any position of the
/// network, would be accepted. `Memory` if allocation fails.
///
/// Positions come in order from the root on, a node before its children, and these by number. At a
/// network the laws come in the order L1 L2 L20 L25 L3 L4 L10 L5 L8 L17 L18 L19 L21 L22 L23 L24 L31
/// L32 L35 L37 L38 L40, at an expression E1 E2 E3 E6 E7 E8 E9 E10 E11 E12 E13 E14 E15 E18.
pub fn optimise(alloc: Global, source: &TypedNet) -> Result<(Net<Expr>, Vec<LawStep>), Memory>
    ensures { IfOk result
        (λ answer. Optimised source.now (tree_of answer.0) (map step_of answer.1.items)) }
{
    let mut reached = source.try_copy(alloc)?;
    let steps = take_steps(alloc, &mut reached)?;
    let net = reached.net().try_copy(alloc)?;
    Ok((net, steps))
}

/// Takes steps until none is left, or 1,000 are taken. Each is the first of all positions, but the
/// walk that finds it passes over what is left of the step before: nothing matched there, and that
/// step left it as it was. Where a step was refused on the way to one, which may be accepted now,
/// the next walk passes over nothing.
fn take_steps(alloc: Global, reached: &mut TypedNet) -> Result<Vec<LawStep>, Memory>
    ensures { IfOk result (λ steps. Exhausts reached.old (map step_of steps.items) reached.new) }
{
    let mut steps = Vec::new(alloc);
    let mut settled = Vec::new(alloc);
    'steps: while steps.len() < MOST_TAKEN {
        let mut walk = Walk::at_root(alloc);
        let Some(step) = first_step(alloc, reached, &mut walk, settled.as_slice())? else {
            return Ok(steps);
        };
        settled = walk.settled();
        steps.push(step)?;
    }
    Ok(steps)
}

/// Takes the first step of the walk from the root, where one is left.
fn first_step(
    alloc: Global,
    reached: &mut TypedNet,
    walk: &mut Walk,
    settled: &[u32],
) -> Result<Option<LawStep>, Memory>
    requires root { walk.old.path.items ≡ [] }
    requires settled { Settled reached.old [] settled.now }
    ensures { IfOk result (FoundStep (NoneLeft reached.old)
        (λ s. (walk.new.path.items ≡ s.position) × FirstWithin walk.new.refused reached.old [] s)
        reached.old reached.new) }
{
    let whole = reached.net().try_copy(alloc)?;
    let root = Place {
        tree: TreeRef::Net(&whole),
        params: 0,
        olds: 0,
    };
    step_within(alloc, reached, walk, root, settled)
}
