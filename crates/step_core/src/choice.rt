// Which members of an `rpSwitchB` run on a sample.

ghost use Rattle.std.specs.Prelude.{◌≡◌, ◌++◌, ◌-◌, IfOk, length, map, take};
ghost use Rattle.sample_core.specs.ValueView.{datum_of};
ghost use Rattle.net_tree.specs.{Network.map_networks, NetworkView.members_of};
ghost use Rattle.net_tree.specs.declared.limits.TheConstants.{MOST_MEMBERS};
ghost use Rattle.state_core.specs.RowsView.{rows_in, row_number};
ghost use Rattle.state_core.specs.State.{chosen_frozen, each_started, first_frozen, paused};
ghost use Rattle.state_core.specs.StateView.{frozen_of, scope_of, state_of};
ghost use Rattle.step_core.specs.Flow.{members_before, past_in};
ghost use Rattle.step_core.specs.Switching.{IsChosen};

use crate::on::On;
use crate::rows::Rows;
use leaf_table::LeafId;
use net_tree::{MOST_MEMBERS, Net};
use sample_core::{Memory, Sample};
use state_core::{Frozen, State, freeze, pause, push_param, select};
use std::alloc::Global;

/// The row that chooses at an event, and what starts under each value that it gives.
#[derive(Clone, Copy)]
pub(crate) struct Choice<'n> {
    pub(crate) chooser: LeafId,
    pub(crate) starts: &'n Net<LeafId>,
}

/// The members that run from an event on: what the row makes of its value chooses among those
/// before.
pub(crate) fn chosen<'n, R: Rows>(
    on: &On<'_, 'n, R>,
    members: &'n [Net<LeafId>],
    choice: Choice<'n>,
    value: &Sample,
) -> Result<Vec<Frozen<'n>>, Memory>
    ensures { IfOk result (λ fs. IsChosen (R.keys on.now.rows.now) (row_number choice.entry.chooser)
        (rows_in choice.entry.starts.now) (scope_of on.now.env.now)
        (members_before (map_networks row_number (members_of members.entry.now))
        (scope_of on.now.env.now) (past_in on.now.before on.now.dt))
        (datum_of value.now) (map frozen_of fs.items)) }
{
    let all = frozen_members(on, members)?;
    let chosen = chosen_among(on, all.as_slice(), choice, value);
    drop(all);
    chosen
}

/// The members that the choice and the event's value choose among those before.
fn chosen_among<'n, R: Rows>(
    on: &On<'_, 'n, R>,
    all: &[Frozen<'n>],
    choice: Choice<'n>,
    value: &Sample,
) -> Result<Vec<Frozen<'n>>, Memory>
    ensures { IfOk result (λ fs. IsChosen (R.keys on.now.rows.now) (row_number choice.entry.chooser)
        (rows_in choice.entry.starts.now) (scope_of on.now.env.now) (map frozen_of all.now)
        (datum_of value.now) (map frozen_of fs.items)) }
{
    let which = on.rows.call(choice.chooser, on.params(), value)?;
    let chosen = chosen_by(on, all, choice.starts, &which);
    drop(which);
    chosen
}

/// Of those before the ones of the numbers on the left, and behind them what starts for each value
/// on the right; the first 64 of all.
fn chosen_by<'n, R: Rows>(
    on: &On<'_, 'n, R>,
    all: &[Frozen<'n>],
    starts: &'n Net<LeafId>,
    which: &Sample,
) -> Result<Vec<Frozen<'n>>, Memory>
    ensures { IfOk result (λ fs. map frozen_of fs.items
        ≡ chosen_frozen (rows_in starts.entry.now) (scope_of on.now.env.now) (map frozen_of all.now)
        (datum_of which.now)) }
{
    let mut chosen = select(on.alloc, all, which.left())?;
    match add_started(on, starts, which.right().elements(), &mut chosen) {
        Ok(()) => Ok(chosen),
        Err(memory) => {
            drop(chosen);
            Err(memory)
        }
    }
}

/// Adds a network that starts under each of the values, as far as there is room.
fn add_started<'n, R: Rows>(
    on: &On<'_, 'n, R>,
    net: &'n Net<LeafId>,
    values: &[Sample],
    chosen: &mut Vec<Frozen<'n>>,
) -> Result<(), Memory>
    ensures { IfOk result (λ _. map frozen_of chosen.new.items ≡ map frozen_of chosen.old.items
        ++ take (MOST_MEMBERS - length chosen.old.items) (each_started (rows_in net.entry.now)
        (scope_of on.now.env.now) (map datum_of values.now))) }
{
    let room = MOST_MEMBERS.saturating_sub(chosen.len()).min(values.len());
    let started = &values[..room];
    for value in started {
        let env = push_param(on.alloc, on.env, value)?;
        chosen.push(Frozen::Unstarted { net, env })?;
    }
    Ok(())
}

/// The members before a sample, frozen: those that begin, or those that ran, with the sample's step.
fn frozen_members<'n, R: Rows>(
    on: &On<'_, 'n, R>,
    members: &'n [Net<LeafId>],
) -> Result<Vec<Frozen<'n>>, Memory>
    ensures { IfOk result (λ fs. map frozen_of fs.items
        ≡ members_before (map_networks row_number (members_of members.entry.now))
        (scope_of on.now.env.now) (past_in on.now.before on.now.dt)) }
{
    match on.before {
        Some(before) => paused_members(on.alloc, before.places.as_slice(), on.dt),
        None => first_members(on, members),
    }
}

/// The members that ran, frozen with a step.
fn paused_members<'n>(
    alloc: Global,
    states: &[State<'n>],
    step: u64,
) -> Result<Vec<Frozen<'n>>, Memory>
    ensures { IfOk result (λ fs. map frozen_of fs.items
        ≡ map (λ a. paused (state_of a) step) states.now) }
{
    let mut all = Vec::with_capacity(alloc, states.len())?;
    for state in states {
        let one = pause(alloc, state, step)?;
        all.push(one)?;
    }
    Ok(all)
}

/// The members that begin: the first 64 that are written.
pub(crate) fn first_members<'n, R: Rows>(
    on: &On<'_, 'n, R>,
    members: &'n [Net<LeafId>],
) -> Result<Vec<Frozen<'n>>, Memory>
    ensures { IfOk result (λ fs. map frozen_of fs.items
        ≡ first_frozen (map_networks row_number (members_of members.entry.now))
        (scope_of on.now.env.now)) }
{
    let first = &members[..MOST_MEMBERS.min(members.len())];
    let mut all = Vec::with_capacity(on.alloc, first.len())?;
    for net in first {
        let one = freeze(on.alloc, net, on.env, None, on.dt)?;
        all.push(one)?;
    }
    Ok(all)
}
