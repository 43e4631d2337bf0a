// The walk over a network for the first step that may be taken.

ghost use Rattle.std.specs.Prelude.{◌≡◌, IfOk, get_or, true};
ghost use Rattle.net_syntax.specs.ChildParts.{seen_place};
ghost use Rattle.net_opt.specs.Order.{onward};
ghost use Rattle.net_opt.specs.Search.{FirstWithin, FoundStep, PassedWithin, Settled};
ghost use Rattle.net_opt.specs.Walk.{Reached};

use crate::step::step_at;
use crate::walk::Walk;
use net_syntax::{Place, TypedNet, place_below};
use net_tree::LawStep;
use sample_core::Memory;
use std::alloc::Global;

/// Takes the first step where the walk is, at this place, or inside what stands there: that comes
/// before what is inside, which comes in its order. Left of the settled path, from here on, nothing
/// matches; the walk passes that over.
pub(crate) fn step_within(
    alloc: Global,
    typed: &mut TypedNet,
    walk: &mut Walk,
    place: Place<'_>,
    settled: &[u32],
) -> Result<Option<LawStep>, Memory>
    requires reached { Reached typed.old walk.old.path.items (seen_place place) }
    requires settled { Settled typed.old walk.old.path.items settled.now }
    ensures more { walk.old.refused ≡ true → walk.new.refused ≡ true }
    ensures found { IfOk result (FoundStep
        ((walk.new.path.items ≡ walk.old.path.items)
        × PassedWithin walk.new.refused typed.old walk.old.path.items)
        (λ s. (walk.new.path.items ≡ s.position)
        × FirstWithin walk.new.refused typed.old walk.old.path.items s)
        typed.old typed.new) }
{
    if let Some(step) = step_at(alloc, typed, walk, place)? {
        return Ok(Some(step));
    }
    let mut k = first_number(settled);
    while let Some(inner) = place_below(place, &[k]) {
        walk.path.push(k)?;
        let rest = onward(settled, k);
        if let Some(step) = step_within(alloc, typed, walk, inner, rest)? {
            return Ok(Some(step));
        }
        walk.path.pop();
        k += 1;
    }
    Ok(None)
}

/// The path's first number, 0 where it has none.
fn first_number(path: &[u32]) -> u32
    ensures { result ≡ get_or path.now 0 0 }
{
    match path.first() {
        Some(k) => *k,
        None => 0,
    }
}

/// What is left of the path behind number k; nothing where it begins otherwise.
fn onward(path: &[u32], k: u32) -> &[u32]
    ensures { result.now ≡ onward path.now k }
{
    match path.split_first() {
        Some((j, rest)) if *j == k => rest,
        _ => &[],
    }
}
