// Freezing what runs, where no memory is left.

use crate::found::{Probe, all_are_found};
use cell_core::{Cell, Form};
use leaf_table::LeafId;
use net_tree::{Members, Net, NetChild};
use row_texts::ballast::take_all;
use row_texts::texts::{say, say_shown};
use sample_core::{Memory, Sample};
use state_core::{Env, Frozen, Places, Running, State, freeze};
use std::alloc::Global;

/// Says what is frozen of that name where no memory is left.
pub fn frozen_told(alloc: Global, name: &str, out: &mut String) {
    match name {
        "a delay" => delay_told(alloc, out),
        _ => members_told(alloc, out),
    }
}

/// Says what `freeze` answers on the state of `(delay 4096 0)` after 4,096 samples with step 1.
fn delay_told(alloc: Global, out: &mut String) {
    let net = Net::Delay(4_096, LeafId(0));
    match full_queue(alloc) {
        Ok(cell) => frozen_cell_told(alloc, &net, cell, out),
        Err(memory) => say_shown(out, &memory),
    }
    drop(net);
}

fn frozen_cell_told(alloc: Global, net: &Net<LeafId>, cell: Cell, out: &mut String) {
    match alone(alloc, net, cell) {
        Ok(state) => {
            freeze_told(alloc, net, &state, out);
            drop(state);
        }
        Err(memory) => say_shown(out, &memory),
    }
}

/// What the delay keeps: each of the samples.
fn full_queue(alloc: Global) -> Result<Cell, Memory> {
    let x = Sample::Int(1);
    let mut cell = started(Cell::start(alloc, Form::Delay(4_096), Sample::Int(0), &x));
    for _ in 1..4_096u32 {
        cell = match cell {
            Ok(now) => {
                let next = started(now.step(alloc, 1, &x));
                drop(now);
                next
            }
            Err(Memory) => return Err(Memory),
        };
    }
    cell
}

/// The cell of an answer.
fn started(answer: Result<(Cell, Sample), Memory>) -> Result<Cell, Memory> {
    match answer {
        Ok((cell, output)) => {
            drop(output);
            Ok(cell)
        }
        Err(Memory) => Err(Memory),
    }
}

/// The state of a network that keeps one cell.
fn alone<'n>(alloc: Global, net: &'n Net<LeafId>, cell: Cell) -> Result<State<'n>, Memory> {
    let env = Env::nothing();
    let running = Running::new(alloc, net, &env);
    drop(env);
    let mut running = running?;
    match running.kept.cells.push(cell) {
        Ok(()) => State::new(alloc, running),
        Err(memory) => {
            drop(running);
            Err(memory)
        }
    }
}

/// Says what `freeze` answers on the state of a `pSwitch` of 64 clocks, and one that watches it.
fn members_told(alloc: Global, out: &mut String) {
    match clocks(alloc) {
        Ok(net) => {
            frozen_clocks_told(alloc, &net, out);
            drop(net);
        }
        Err(memory) => say_shown(out, &memory),
    }
}

/// `(pSwitch r (col time ..) time time)` of 64 members.
fn clocks(alloc: Global) -> Result<Net<LeafId>, Memory> {
    let mut all = Vec::new(alloc);
    for _ in 0..64u32 {
        all.push(Net::Time)?;
    }
    let members = Members::new(alloc, all)?;
    match NetChild::new(alloc, Net::Time) {
        Ok(watcher) => watched(alloc, members, watcher),
        Err(Memory) => {
            drop(members);
            Err(Memory)
        }
    }
}

fn watched(
    alloc: Global,
    members: Members<LeafId>,
    watcher: NetChild<LeafId>,
) -> Result<Net<LeafId>, Memory> {
    match NetChild::new(alloc, Net::Time) {
        Ok(behind) => Ok(Net::PSwitch(LeafId(0), members, watcher, behind)),
        Err(Memory) => {
            drop(members);
            drop(watcher);
            Err(Memory)
        }
    }
}

fn frozen_clocks_told(alloc: Global, net: &Net<LeafId>, out: &mut String) {
    let clock = Net::Time;
    match ticking(alloc, net, &clock) {
        Ok(state) => {
            freeze_told(alloc, net, &state, out);
            drop(state);
        }
        Err(memory) => say_shown(out, &memory),
    }
    drop(clock);
}

/// A state of the network that keeps those of 65 clocks: its members, and the one that watches it.
fn ticking<'n>(
    alloc: Global,
    net: &'n Net<LeafId>,
    clock: &'n Net<LeafId>,
) -> Result<State<'n>, Memory> {
    let env = Env::nothing();
    let running = Running::new(alloc, net, &env);
    drop(env);
    let mut running = running?;
    match add_clocks(alloc, clock, &mut running.kept.places) {
        Ok(()) => State::new(alloc, running),
        Err(memory) => {
            drop(running);
            Err(memory)
        }
    }
}

fn add_clocks<'n>(
    alloc: Global,
    clock: &'n Net<LeafId>,
    places: &mut Places<'n>,
) -> Result<(), Memory> {
    for _ in 0..65u32 {
        places.push(alone(alloc, clock, Cell::Time(0))?)?;
    }
    Ok(())
}

/// Says whether there is room for anything, and what the state is frozen to.
fn freeze_told<'n>(alloc: Global, net: &'n Net<LeafId>, state: &State<'n>, out: &mut String) {
    let env = Env::nothing();
    let ballast = take_all(alloc, 0);
    let grown = Box::new(alloc, 0u64).is_ok();
    let frozen = freeze(alloc, net, &env, Some(state), 3);
    drop(ballast);
    say(out, if grown { "room, " } else { "no room, " });
    answer_told(&frozen, out);
    drop(frozen);
    drop(env);
}

fn answer_told(frozen: &Result<Frozen<'_>, Memory>, out: &mut String) {
    match frozen {
        Ok(Frozen::Paused { step, .. }) => drop(write!(out, "paused with step {step}")),
        Ok(Frozen::Unstarted { .. }) => say(out, "not started"),
        Err(memory) => say_shown(out, &memory),
    }
}

/// States by their names, and what they are frozen to.
static STATES: &str = "
§ States of a full delay and of 64 members, frozen without an allocation.
a delay => no room, paused with step 3
64 members => no room, paused with step 3
";

#[test]
fn states_are_frozen_without_memory(rt: HostRuntime) {
    all_are_found(&rt, rt.alloc(), Probe::Frozen, STATES);
}
