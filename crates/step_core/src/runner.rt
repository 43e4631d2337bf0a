// Running a bound network, sample by sample.

ghost use Rattle.std.specs.Prelude.{◌≡◌, ◌<◌, ◌≤◌, ◌+◌, ◌^◌, [], Some, IfOk, OnErr};
ghost use Rattle.sample_core.specs.{HasType.HasType, ValueView.datum_of};
ghost use Rattle.leaf_table.specs.Rows.{rows_of};
ghost use Rattle.state_core.specs.{RowsView.rows_in, StateView.frozen_from, StateView.scope_of, StateView.state_of};
ghost use Rattle.step_core.specs.{Binding.FitsTable, RunnerState.HasPast, Runs.RunsWhere, StateOption.state_in};

use crate::bound::Bound;
use crate::on::On;
use crate::rows::{Rows, Workspace};
use crate::run::{on_state, run_over};
use leaf_table::{LeafId, LeafTable};
use net_tree::Net;
use sample_core::{Memory, Sample};
use state_core::{Env, State};
use std::alloc::Global;
use std::cell::Cell;

/// A network that runs. It borrows the network and the table, and holds the network's state, once
/// it has started. What it holds stands for the samples that it got.
#[derive(Drop)]
pub struct Runner<'a> {
    alloc: Global,
    bound: &'a Bound,
    workspace: Workspace<'a>,
    state: Option<State<'a>>,
    samples: u64,
    visits: u32,
    // The state before the last: the next one comes into its place.
    place: State<'a>,
    // The last list that was answered: the next one comes into its place.
    answer: Sample,
    ghost past: { HasPast (record {
      input = bound.now.input;
      keys = rows_of workspace.table.now;
      rows = bound.now.rows;
      state = state_in state;
      samples = samples;
      visits = visits;
    }) },
}

impl<'a> Runner<'a> {
    ghost use Rattle.step_core.specs.RunnerState.{network_in, StandsFor, Pushes};
    ghost use Rattle.step_core.specs.RunnerView.{runner_state};
    ghost use Rattle.step_core.specs.RowTyping.{network_by};

    /// The network before its first sample, on the table that it was bound to, or on that table
    /// with more rows. It takes no memory.
    pub fn new(alloc: Global, bound: &'a Bound, table: &'a LeafTable) -> Runner<'a>
        requires { FitsTable (rows_of table.now) bound.now }
        ensures stands { StandsFor (runner_state result) [] }
        ensures input { (runner_state result).input ≡ bound.now.input }
        ensures network { network_in (runner_state result)
            ≡ network_by (rows_of table.now) bound.now.rows }
        ensures samples { (runner_state result).samples ≡ 0 }
    {
        Runner {
            alloc,
            bound,
            workspace: Workspace {
                table,
                spare: Cell::new(Sample::Unit),
            },
            state: None,
            samples: 0,
            visits: 0,
            place: State::Nothing,
            answer: Sample::Int(0),
        }
    }

    /// The network's answer to one sample more. The sample must be of the network's input type.
    /// `step` is the time since the sample before, from 1 to 2^63 - 1; a first sample's step is
    /// ignored. There must be fewer than 2^63 samples before.
    ///
    /// `Memory` if allocation fails; the runner is then as it was before the call.
    pub fn push(&mut self, step: u64, sample: &Sample) -> Result<Sample, Memory>
        requires typed { HasType (datum_of sample.now) (runner_state self.old).input }
        requires later { 0 < (runner_state self.old).samples → (1 ≤ step) × (step < 2 ^ 63) }
        requires room { (runner_state self.old).samples < 2 ^ 63 }
        ensures pushed { IfOk result
            (λ y. Pushes (runner_state self.old) (step, datum_of sample.now) (datum_of y)
            (runner_state self.new)) }
        ensures unchanged { OnErr result (runner_state self.new ≡ runner_state self.old) }
    {
        let env = Env::nothing();
        let on = On {
            alloc: self.alloc,
            rows: &self.workspace,
            env: &env,
            before: None,
            dt: step,
        };
        let (net, state) = (self.bound.net(), self.state.as_ref());
        let done = run_next(&on, net, state, sample, &mut self.place, &mut self.answer);
        drop(env);
        let (visits, answer) = done?;
        keep(&mut self.state, &mut self.place);
        self.samples += 1;
        self.visits = visits;
        Ok(answer)
    }

    /// How many samples the network has answered. One that was refused isn't counted.
    pub fn samples(&self) -> u64
        ensures { result ≡ (runner_state self.now).samples }
    {
        self.samples
    }

    /// How many nodes of the network the last sample visited, where a visit is one start or step of
    /// one node; 0 before the first.
    pub fn last_visits(&self) -> u32
        ensures { result ≡ (runner_state self.now).visits }
    {
        self.visits
    }
}

/// A start of the network, or a step of its state where it has one: its visits, and its answer. A
/// list that it answers stays in place of the last one, and a copy is answered.
#[inline(always)]
fn run_next<'n, R: Rows>(
    on: &On<'_, 'n, R>,
    net: &'n Net<LeafId>,
    state: Option<&State<'n>>,
    x: &Sample,
    place: &mut State<'n>,
    last: &mut Sample,
) -> Result<(u32, Sample), Memory>
    ensures { IfOk result (λ r. RunsWhere (R.keys on.now.rows.now)
        (frozen_from (rows_in net.entry.now) (scope_of on.now.env.now) state.entry on.now.dt)
        (datum_of x.now) (state_of place.new) (datum_of r.1) r.0) }
{
    let visits = run_from(on, net, state, x, place, last)?;
    let mut out = Sample::Int(0);
    match put_out(on.alloc, last, &mut out) {
        Ok(()) => Ok((visits, out)),
        Err(memory) => {
            drop(out);
            Err(memory)
        }
    }
}

/// A start of the network, or a step of its state, which puts the answer in place of the last one.
#[inline(always)]
fn run_from<'n, R: Rows>(
    on: &On<'_, 'n, R>,
    net: &'n Net<LeafId>,
    state: Option<&State<'n>>,
    x: &Sample,
    place: &mut State<'n>,
    last: &mut Sample,
) -> Result<u32, Memory>
    ensures { IfOk result (λ n. RunsWhere (R.keys on.now.rows.now)
        (frozen_from (rows_in net.entry.now) (scope_of on.now.env.now) state.entry on.now.dt)
        (datum_of x.now) (state_of place.new) (datum_of last.new) n) }
{
    match state {
        Some(state) => {
            let (going, net) = on_state(on, state, on.dt)?;
            run_over(&going, net, x, place, last)
        }
        None => run_over(&on.started(on.env), net, x, place, last),
    }
}

/// Puts out a copy of a list or of a number, or another value itself.
#[inline(always)]
fn put_out(alloc: Global, last: &mut Sample, out: &mut Sample) -> Result<(), Memory>
    ensures { IfOk result (λ _. datum_of out.new ≡ datum_of last.old) }
{
    match last {
        Sample::List(_) | Sample::Int(_) => out.put_copy(alloc, last)?,
        _ => std::mem::swap(last, out),
    }
    Ok(())
}

/// Keeps the state that stands in the place; the one that was kept, if any, is the place then.
#[inline(always)]
fn keep<'n>(state: &mut Option<State<'n>>, place: &mut State<'n>)
    ensures { state_in state.new ≡ Some (state_of place.old) }
{
    match state {
        Some(before) => std::mem::swap(before, place),
        None => *state = Some(std::mem::replace(place, State::Nothing)),
    }
}
