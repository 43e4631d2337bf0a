// What takes over from a switch.

ghost use Rattle.std.specs.Prelude.{◌≡◌, IfOk, length};
ghost use Rattle.sample_core.specs.ValueView.{datum_of};
ghost use Rattle.net_tree.specs.{Network.map_networks, NetworkView.members_of};
ghost use Rattle.state_core.specs.RowsView.{rows_in, row_number};
ghost use Rattle.state_core.specs.State.{append_frozens, push_param as with_param, push_old as with_old, push_olds as with_olds};
ghost use Rattle.state_core.specs.StateView.{scope_of, frozen_of, frozens_in};
ghost use Rattle.step_core.specs.Flow.{all_placed, past_behind, past_in, placed};
ghost use Rattle.step_core.specs.Switching.{Fires};

use crate::on::On;
use crate::part::event_of;
use crate::rows::Rows;
use leaf_table::LeafId;
use net_tree::Net;
use sample_core::{Memory, Sample};
use state_core::{Env, Frozen, freeze, pause, push_old, push_olds, push_param};
use std::alloc::Global;

/// The scope of what takes over, with an event's value as a further parameter; nothing where what
/// was seen is no event.
#[inline(always)]
pub(crate) fn fire<'n>(
    alloc: Global,
    seen: &Sample,
    env: &Env<'n>,
) -> Result<Option<Env<'n>>, Memory>
    ensures { IfOk result (λ e. Fires (datum_of seen.now) (with_param (scope_of env.now)) e) }
{
    match event_of(seen) {
        Some(event) => {
            let inner = push_param(alloc, env, event)?;
            Ok(Some(inner))
        }
        None => Ok(None),
    }
}

/// The scope of what takes over, with the event's value and the part at the first place, frozen as
/// it was before the sample.
#[inline(always)]
pub(crate) fn fire_one<'n, R: Rows>(
    on: &On<'_, 'n, R>,
    seen: &Sample,
    f: &'n Net<LeafId>,
) -> Result<Option<Env<'n>>, Memory>
    ensures { IfOk result (λ e. Fires (datum_of seen.now)
        (λ u. with_old (with_param (scope_of on.now.env.now) u)
        (placed (rows_in f.entry.now) (scope_of on.now.env.now)
        (past_in on.now.before on.now.dt))) e) }
{
    match fire(on.alloc, seen, on.env)? {
        Some(fired) => {
            let inner = with_frozen(on, &fired, f);
            drop(fired);
            Ok(Some(inner?))
        }
        None => Ok(None),
    }
}

/// The scope of what takes over, with the event's value and all members, frozen as they were before
/// the sample.
#[inline(always)]
pub(crate) fn fire_all<'n, R: Rows>(
    on: &On<'_, 'n, R>,
    seen: &Sample,
    members: &'n [Net<LeafId>],
) -> Result<Option<Env<'n>>, Memory>
    ensures { IfOk result (λ e. Fires (datum_of seen.now)
        (λ u. with_olds (with_param (scope_of on.now.env.now) u)
        (all_placed (map_networks row_number (members_of members.entry.now))
        (scope_of on.now.env.now) (past_in on.now.before on.now.dt))) e) }
{
    match fire(on.alloc, seen, on.env)? {
        Some(fired) => {
            let inner = with_all_frozen(on, &fired, members);
            drop(fired);
            Ok(Some(inner?))
        }
        None => Ok(None),
    }
}

/// The scope with what ran at the first place frozen in it.
#[inline(never)]
fn with_frozen<'n, R: Rows>(
    on: &On<'_, 'n, R>,
    env: &Env<'n>,
    f: &'n Net<LeafId>,
) -> Result<Env<'n>, Memory>
    ensures { IfOk result (λ e. scope_of e ≡ with_old (scope_of env.now)
        (placed (rows_in f.entry.now) (scope_of on.now.env.now)
        (past_in on.now.before on.now.dt))) }
{
    let frozen = frozen_at(on, 0, f)?;
    let inner = push_old(on.alloc, env, &frozen);
    drop(frozen);
    inner
}

/// The scope with all members frozen in it.
#[inline(never)]
fn with_all_frozen<'n, R: Rows>(
    on: &On<'_, 'n, R>,
    env: &Env<'n>,
    members: &'n [Net<LeafId>],
) -> Result<Env<'n>, Memory>
    ensures { IfOk result (λ e. scope_of e ≡ with_olds (scope_of env.now)
        (all_placed (map_networks row_number (members_of members.entry.now))
        (scope_of on.now.env.now) (past_in on.now.before on.now.dt))) }
{
    let mut frozen = Vec::with_capacity(on.alloc, members.len())?;
    match freeze_from(on, members, &mut frozen) {
        Ok(()) => {
            let inner = push_olds(on.alloc, env, frozen.as_slice());
            drop(frozen);
            inner
        }
        Err(memory) => {
            drop(frozen);
            Err(memory)
        }
    }
}

/// Adds the members that ran at the places behind those of as many as were frozen, frozen too.
fn freeze_from<'n, R: Rows>(
    on: &On<'_, 'n, R>,
    members: &'n [Net<LeafId>],
    frozen: &mut Vec<Frozen<'n>>,
) -> Result<(), Memory>
    ensures { IfOk result (λ _. frozens_in frozen.new.items
        ≡ append_frozens (frozens_in frozen.old.items)
        (all_placed (map_networks row_number (members_of members.entry.now))
        (scope_of on.now.env.now)
        (past_behind (0, length frozen.old.items) (past_in on.now.before on.now.dt)))) }
{
    match members.split_first() {
        Some((f, rest)) => {
            let one = frozen_at(on, frozen.len(), f)?;
            frozen.push(one)?;
            freeze_from(on, rest, frozen)
        }
        None => Ok(()),
    }
}

/// What ran at place `at`, frozen as it was before the sample, with the sample's step; before the
/// first sample the network, in its scope.
fn frozen_at<'n, R: Rows>(
    on: &On<'_, 'n, R>,
    at: usize,
    net: &'n Net<LeafId>,
) -> Result<Frozen<'n>, Memory>
    ensures { IfOk result (λ f. frozen_of f ≡ placed (rows_in net.entry.now)
        (scope_of on.now.env.now) (past_behind (0, at) (past_in on.now.before on.now.dt))) }
{
    match on.before {
        Some(before) => match before.places.get(at) {
            Some(state) => pause(on.alloc, state, on.dt),
            None => Err(Memory),
        },
        None => freeze(on.alloc, net, on.env, None, on.dt),
    }
}
