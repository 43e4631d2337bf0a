// One sample through what runs at a place of its own.

ghost use Rattle.std.specs.Prelude.{◌≡◌, ◌<◌, ◌^◌, [], IfOk, length, map, pos};
ghost use Rattle.sample_core.specs.{Datum.int, Datum.left, Datum.pair, ValueView.datum_of};
ghost use Rattle.net_tree.specs.Network.{map_networks, initial_out, initial_in, switch, k_switch, p_switch, old};
ghost use Rattle.net_tree.specs.NetworkView.{members_of};
ghost use Rattle.state_core.specs.RowsView.{rows_in, row_number};
ghost use Rattle.state_core.specs.State.{paused, push_param as with_param, unstarted};
ghost use Rattle.state_core.specs.StateView.{frozen_of, kept_of, running_of, scope_of, state_of};
ghost use Rattle.step_core.specs.Called.{Called};
ghost use Rattle.step_core.specs.Flow.{AllRun, Runs, past_behind, past_in, placed, standing};
ghost use Rattle.step_core.specs.Runs.{RunsWhere};
ghost use Rattle.net_meaning.specs.SignalFunction.{heard};
ghost use Rattle.step_core.specs.Switching.{BeginsAfter, ListRuns, timing_of};

use crate::choice::Choice;
use crate::collection::run_collection;
use crate::fire::{fire, fire_all, fire_one};
use crate::flow::{call_into, flow};
use crate::on::{On, both, node};
use crate::part::{answer_places, let_go, let_second_go, make_place, put_pair};
use crate::rows::Rows;
use leaf_table::LeafId;
use net_tree::Net;
use sample_core::{Memory, Sample};
use state_core::{Frozen, Kept, Running, State, push_param};
use std::alloc::Global;
use std::rc::Rc;

/// What runs at the next place: what ran there before goes on; at a start the network begins.
/// Answers how many nodes were visited. `Memory` if allocation fails.
#[cycle(run)]
#[inline(never)]
pub(crate) fn run_place<'n, R: Rows>(
    on: &On<'_, 'n, R>,
    net: &'n Net<LeafId>,
    x: &Sample,
    kept: &mut Kept<'n>,
    out: &mut Sample,
) -> Result<u32, Memory>
    ensures { IfOk result (λ n. Runs (R.keys on.now.rows.now)
        (placed (rows_in net.entry.now) (scope_of on.now.env.now)
        (past_behind (0, length (kept_of kept.old).1) (past_in on.now.before on.now.dt)))
        (datum_of x.now) (kept_of kept.old) (kept_of kept.new) (datum_of out.new) n) }
{
    let (going, net) = on_place(&*on, net, kept.places.len())?;
    run_at_next(&going, net, x, kept, out)
}

/// What ran at place `at` before goes on, in the memory of what stands in the place; at a start the
/// network begins.
#[cycle(run)]
#[inline(always)]
pub(crate) fn go_on<'n, R: Rows>(
    on: &On<'_, 'n, R>,
    net: &'n Net<LeafId>,
    at: usize,
    x: &Sample,
    place: &mut State<'n>,
    out: &mut Sample,
) -> Result<u32, Memory>
    ensures { IfOk result (λ n. RunsWhere (R.keys on.now.rows.now)
        (placed (rows_in net.entry.now) (scope_of on.now.env.now)
        (past_behind (0, at) (past_in on.now.before on.now.dt)))
        (datum_of x.now) (state_of place.new) (datum_of out.new) n) }
{
    let (going, net) = on_place(&*on, net, at)?;
    run_over(&going, net, x, place, out)
}

/// A network that starts or goes on, at the next place.
#[cycle(run)]
#[inline(always)]
pub(crate) fn run_at_next<'n, R: Rows>(
    on: &On<'_, 'n, R>,
    net: &'n Net<LeafId>,
    x: &Sample,
    kept: &mut Kept<'n>,
    out: &mut Sample,
) -> Result<u32, Memory>
    ensures { IfOk result (λ n. Runs (R.keys on.now.rows.now)
        (standing (rows_in net.entry.now) (scope_of on.now.env.now)
        (past_in on.now.before on.now.dt))
        (datum_of x.now) (kept_of kept.old) (kept_of kept.new) (datum_of out.new) n) }
{
    let mut place = kept.places.spare();
    match run_over(on, net, x, &mut place, out) {
        Ok(visits) => {
            kept.places.push(place)?;
            Ok(visits)
        }
        Err(memory) => {
            drop(place);
            Err(memory)
        }
    }
}

/// The network whose state this is, and what it runs on so much time after the sample before. No
/// network comes to keep a state that keeps nothing; `Memory` then.
#[inline(always)]
pub(crate) fn on_state<'b, 'n, R: Rows>(
    on: &'b On<'_, 'n, R>,
    state: &'b State<'n>,
    dt: u64,
) -> Result<(On<'b, 'n, R>, &'n Net<LeafId>), Memory>
    ensures rows { IfOk result (λ r. r.0.rows.now ≡ on.entry.now.rows.now) }
    ensures stands { IfOk result (λ r. standing (rows_in r.1.now) (scope_of r.0.env.now)
        (past_in r.0.before r.0.dt) ≡ paused (state_of state.entry.now) dt) }
{
    match state {
        State::Whole(whole) => {
            let running = whole.get();
            Ok((on.going(running, dt), running.net))
        }
        State::Nothing => Err(Memory),
    }
}

/// The network that was frozen, and what it goes on with, after the step that it was frozen with, or
/// starts with.
#[inline(always)]
pub(crate) fn on_frozen<'b, 'n, R: Rows>(
    on: &'b On<'_, 'n, R>,
    frozen: &'b Frozen<'n>,
) -> Result<(On<'b, 'n, R>, &'n Net<LeafId>), Memory>
    ensures rows { IfOk result (λ r. r.0.rows.now ≡ on.entry.now.rows.now) }
    ensures stands { IfOk result (λ r. standing (rows_in r.1.now) (scope_of r.0.env.now)
        (past_in r.0.before r.0.dt) ≡ frozen_of frozen.entry.now) }
{
    match frozen {
        Frozen::Unstarted { net, env } => Ok((on.started(env), *net)),
        Frozen::Paused { state, step } => on_state(on, state, *step),
    }
}

/// The network that ran at place `at` before, and what it goes on with; at a start this network.
#[inline(always)]
fn on_place<'b, 'n, R: Rows>(
    on: &'b On<'_, 'n, R>,
    net: &'n Net<LeafId>,
    at: usize,
) -> Result<(On<'b, 'n, R>, &'n Net<LeafId>), Memory>
    ensures rows { IfOk result (λ r. r.0.rows.now ≡ on.entry.now.rows.now) }
    ensures stands { IfOk result (λ r. standing (rows_in r.1.now) (scope_of r.0.env.now)
        (past_in r.0.before r.0.dt) ≡ placed (rows_in net.entry.now) (scope_of on.entry.now.env.now)
        (past_behind (0, at) (past_in on.entry.now.before on.entry.now.dt))) }
{
    match on.before {
        Some(before) => match before.places.get(at) {
            Some(state) => on_state(on, state, on.dt),
            None => Err(Memory),
        },
        None => Ok((on.started(on.env), net)),
    }
}

/// A network starts with a further parameter in scope, in the memory of what stands in the place.
#[cycle(run)]
pub(crate) fn start_under<'n, R: Rows>(
    on: &On<'_, 'n, R>,
    net: &'n Net<LeafId>,
    x: &Sample,
    value: &Sample,
    place: &mut State<'n>,
    out: &mut Sample,
) -> Result<u32, Memory>
    ensures { IfOk result (λ n. RunsWhere (R.keys on.now.rows.now)
        (unstarted (rows_in net.entry.now)
        (with_param (scope_of on.now.env.now) (datum_of value.now)))
        (datum_of x.now) (state_of place.new) (datum_of out.new) n) }
{
    let env = push_param(on.alloc, on.env, value)?;
    let visits = run_over(&(&*on).started(&env), net, x, place, out);
    drop(env);
    visits
}

/// A network that starts or goes on, in the memory of what stands in the place, as far as no one
/// else holds that.
#[cycle(run)]
#[inline(always)]
pub(crate) fn run_over<'n, R: Rows>(
    on: &On<'_, 'n, R>,
    net: &'n Net<LeafId>,
    x: &Sample,
    place: &mut State<'n>,
    out: &mut Sample,
) -> Result<u32, Memory>
    ensures { IfOk result (λ n. RunsWhere (R.keys on.now.rows.now)
        (standing (rows_in net.entry.now) (scope_of on.now.env.now)
        (past_in on.now.before on.now.dt))
        (datum_of x.now) (state_of place.new) (datum_of out.new) n) }
{
    if let State::Whole(whole) = place {
        if let Some(running) = Rc::get_mut(&mut whole.running) {
            return run_in(on, net, x, running, out);
        }
    }
    run_apart(on, net, x, place, out)
}

/// A network that starts or goes on, in memory of its own.
#[cycle(run)]
#[inline(never)]
fn run_apart<'n, R: Rows>(
    on: &On<'_, 'n, R>,
    net: &'n Net<LeafId>,
    x: &Sample,
    place: &mut State<'n>,
    out: &mut Sample,
) -> Result<u32, Memory>
    ensures { IfOk result (λ n. RunsWhere (R.keys on.now.rows.now)
        (standing (rows_in net.entry.now) (scope_of on.now.env.now)
        (past_in on.now.before on.now.dt))
        (datum_of x.now) (state_of place.new) (datum_of out.new) n) }
{
    let mut running = Running::new(on.alloc, net, on.env)?;
    match run_in(on, net, x, &mut running, out) {
        Ok(visits) => {
            let state = State::new(on.alloc, running)?;
            drop(std::mem::replace(place, state));
            Ok(visits)
        }
        Err(memory) => {
            drop(running);
            Err(memory)
        }
    }
}

/// A network that starts or goes on, in the memory of what ran before.
#[cycle(run)]
#[inline(always)]
fn run_in<'n, R: Rows>(
    on: &On<'_, 'n, R>,
    net: &'n Net<LeafId>,
    x: &Sample,
    running: &mut Running<'n>,
    out: &mut Sample,
) -> Result<u32, Memory>
    ensures { IfOk result (λ n. RunsWhere (R.keys on.now.rows.now)
        (standing (rows_in net.entry.now) (scope_of on.now.env.now)
        (past_in on.now.before on.now.dt))
        (datum_of x.now) (running_of running.new) (datum_of out.new) n) }
{
    match net {
        Net::Old(k) => return run_old(on, *k, x, running, out),
        Net::InitialOut(c, f) => return run_initial_out(on, f.get(), x, running, out, *c),
        Net::InitialIn(c, f) => return run_initial_in(on, f.get(), x, running, out, *c),
        _ => running.renew(net, on.env)?,
    }
    match net {
        Net::Switch(f, t) => {
            let over = Over {
                net: t.get(),
                delayed: false,
            };
            run_switch(on, f.get(), x, running, out, over)
        }
        Net::DSwitch(f, t) => {
            let over = Over {
                net: t.get(),
                delayed: true,
            };
            run_switch(on, f.get(), x, running, out, over)
        }
        Net::KSwitch(f, e, t) => {
            let rest = Rest {
                watch: e.get(),
                over: t.get(),
            };
            run_k_switch(on, f.get(), x, running, out, rest)
        }
        Net::PSwitch(r, fs, e, t) => {
            let members = Members {
                router: *r,
                nets: fs.as_slice(),
            };
            let rest = Rest {
                watch: e.get(),
                over: t.get(),
            };
            run_p_switch(on, members, x, running, out, rest)
        }
        Net::RpSwitch(fs, m, t) => {
            let choice = Choice {
                chooser: *m,
                starts: t.get(),
            };
            run_collection(on, fs.as_slice(), x, running, out, choice)
        }
        _ => {
            let visits = flow(on, net, x, &mut running.kept, out)?;
            running.kept.end();
            Ok(visits)
        }
    }
}

/// What takes over from a switch, and whether what ran before is still heard at the event.
#[derive(Clone, Copy)]
struct Over<'n> {
    net: &'n Net<LeafId>,
    delayed: bool,
}

/// What watches the parts of a switch, and what takes over from it.
#[derive(Clone, Copy)]
struct Rest<'n> {
    watch: &'n Net<LeafId>,
    over: &'n Net<LeafId>,
}

/// Members of a `pSwitch`, with the row that routes.
#[derive(Clone, Copy)]
struct Members<'n> {
    router: LeafId,
    nets: &'n [Net<LeafId>],
}

/// `switch` and `dSwitch`: at an event another network takes over, and what is heard is its answer
/// or still that of its part.
#[cycle(run)]
#[inline(never)]
fn run_switch<'n, R: Rows>(
    on: &On<'_, 'n, R>,
    f: &'n Net<LeafId>,
    x: &Sample,
    running: &mut Running<'n>,
    out: &mut Sample,
    over: Over<'n>,
) -> Result<u32, Memory>
    requires { BeginsAfter running.old (switch (timing_of over.delayed) (rows_in f.now)
        (rows_in over.net.now)) (scope_of on.now.env.now) }
    ensures { IfOk result (λ n. RunsWhere (R.keys on.now.rows.now)
        (standing (switch (timing_of over.entry.delayed) (rows_in f.entry.now)
        (rows_in over.entry.net.now)) (scope_of on.now.env.now)
        (past_in on.now.before on.now.dt))
        (datum_of x.now) (running_of running.new) (datum_of out.new) n) }
{
    let mut answer = Sample::Int(0);
    match run_place(on, f, x, &mut running.kept, &mut answer) {
        Ok(one) => match fire(on.alloc, answer.right(), on.env) {
            Ok(Some(env)) => {
                let two = run_in(&on.started(&env), over.net, x, running, out);
                let done = hear(on.alloc, over.delayed, &answer, out);
                drop(answer);
                drop(env);
                done?;
                Ok(node(one, two?))
            }
            Ok(None) => {
                let done = out.put_copy(on.alloc, answer.left());
                drop(answer);
                done?;
                running.kept.end();
                Ok(node(one, 0))
            }
            Err(memory) => {
                drop(answer);
                Err(memory)
            }
        },
        Err(memory) => {
            drop(answer);
            Err(memory)
        }
    }
}

/// What is heard of a switch at an event: what took over, which stands in its place, or what ran
/// before.
#[inline(always)]
fn hear(alloc: Global, delayed: bool, before: &Sample, out: &mut Sample) -> Result<(), Memory>
    ensures { IfOk result (λ _. datum_of out.new
        ≡ heard (timing_of delayed) (left (datum_of before.now)) (datum_of out.old)) }
{
    if delayed {
        out.put_copy(alloc, before.left())
    } else {
        Ok(())
    }
}

/// `kSwitch`: what takes over has its part frozen in scope.
#[cycle(run)]
#[inline(never)]
fn run_k_switch<'n, R: Rows>(
    on: &On<'_, 'n, R>,
    f: &'n Net<LeafId>,
    x: &Sample,
    running: &mut Running<'n>,
    out: &mut Sample,
    rest: Rest<'n>,
) -> Result<u32, Memory>
    requires { BeginsAfter running.old (k_switch (rows_in f.now) (rows_in rest.watch.now)
        (rows_in rest.over.now)) (scope_of on.now.env.now) }
    ensures { IfOk result (λ n. RunsWhere (R.keys on.now.rows.now)
        (standing (k_switch (rows_in f.entry.now) (rows_in rest.entry.watch.now)
        (rows_in rest.entry.over.now)) (scope_of on.now.env.now)
        (past_in on.now.before on.now.dt))
        (datum_of x.now) (running_of running.new) (datum_of out.new) n) }
{
    let one = run_place(on, f, x, &mut running.kept, out)?;
    let (two, event) = run_watch(on, rest.watch, x, &mut running.kept, out)?;
    let fired = fire_one(on, &event, f);
    drop(event);
    match fired? {
        Some(env) => {
            let three = run_in(&on.started(&env), rest.over, x, running, out);
            drop(env);
            Ok(both(node(one, two), three?))
        }
        None => {
            running.kept.end();
            Ok(node(one, two))
        }
    }
}

/// `pSwitch`: what takes over has all members frozen in scope.
#[cycle(run)]
#[inline(never)]
fn run_p_switch<'n, R: Rows>(
    on: &On<'_, 'n, R>,
    members: Members<'n>,
    x: &Sample,
    running: &mut Running<'n>,
    out: &mut Sample,
    rest: Rest<'n>,
) -> Result<u32, Memory>
    requires { BeginsAfter running.old (p_switch (row_number members.router)
        (map_networks row_number (members_of members.nets.now))
        (rows_in rest.watch.now) (rows_in rest.over.now)) (scope_of on.now.env.now) }
    ensures { IfOk result (λ n. RunsWhere (R.keys on.now.rows.now)
        (standing (p_switch (row_number members.entry.router)
        (map_networks row_number (members_of members.entry.nets.now))
        (rows_in rest.entry.watch.now) (rows_in rest.entry.over.now)) (scope_of on.now.env.now)
        (past_in on.now.before on.now.dt))
        (datum_of x.now) (running_of running.new) (datum_of out.new) n) }
{
    let one = run_members(on, members, x, &mut running.kept, out)?;
    let (two, event) = run_watch(on, rest.watch, x, &mut running.kept, out)?;
    let fired = fire_all(on, &event, members.nets);
    drop(event);
    match fired? {
        Some(env) => {
            let three = run_in(&on.started(&env), rest.over, x, running, out);
            drop(env);
            Ok(both(node(one, two), three?))
        }
        None => {
            running.kept.end();
            Ok(node(one, two))
        }
    }
}

/// What watches parts, at the next place, on the sample and their answer; with what it sees.
#[cycle(run)]
#[inline(always)]
fn run_watch<'n, R: Rows>(
    on: &On<'_, 'n, R>,
    e: &'n Net<LeafId>,
    x: &Sample,
    kept: &mut Kept<'n>,
    answer: &Sample,
) -> Result<(u32, Sample), Memory>
    ensures { IfOk result (λ r. Runs (R.keys on.now.rows.now)
        (placed (rows_in e.entry.now) (scope_of on.now.env.now)
        (past_behind (0, length (kept_of kept.old).1) (past_in on.now.before on.now.dt)))
        (pair (datum_of x.now) (datum_of answer.now)) (kept_of kept.old) (kept_of kept.new)
        (datum_of r.1) r.0) }
{
    let mut seen = on.rows.pair(on.alloc, x, answer)?;
    let mut event = Sample::Unit;
    let done = run_place(on, e, &seen, kept, &mut event);
    let_second_go(&mut seen);
    on.rows.give_back(seen);
    match done {
        Ok(visits) => Ok((visits, event)),
        Err(memory) => {
            drop(event);
            Err(memory)
        }
    }
}

/// The members of a `pSwitch`, at a place each; their answers become one list.
#[cycle(run)]
#[inline(never)]
fn run_members<'n, R: Rows>(
    on: &On<'_, 'n, R>,
    members: Members<'n>,
    x: &Sample,
    kept: &mut Kept<'n>,
    out: &mut Sample,
) -> Result<u32, Memory>
    ensures { IfOk result (λ n. ListRuns (R.keys on.now.rows.now) (row_number members.entry.router)
        (map_networks row_number (members_of members.entry.nets.now))
        (scope_of on.now.env.now) (past_in on.now.before on.now.dt) (datum_of x.now)
        (kept_of kept.old) (kept_of kept.new) (datum_of out.new) n) }
{
    let mut asked = on.rows.pair(on.alloc, x, &Sample::Int(0))?;
    match answer_places(on.alloc, members.nets.len(), out) {
        Ok(mut answers) => {
            let done = run_each(on, members, x, kept, &mut answers, &mut asked);
            on.rows.give_back(asked);
            match done {
                Ok(all) => {
                    out.put_list(on.alloc, answers)?;
                    Ok(all)
                }
                Err(memory) => {
                    drop(answers);
                    Err(memory)
                }
            }
        }
        Err(memory) => {
            drop(asked);
            Err(memory)
        }
    }
}

/// Puts what the members answer, in order, in the places of the answers. The router is asked with
/// a pair in the memory of `asked`.
#[cycle(run)]
#[inline(never)]
fn run_each<'n, R: Rows>(
    on: &On<'_, 'n, R>,
    members: Members<'n>,
    x: &Sample,
    kept: &mut Kept<'n>,
    answers: &mut Vec<Sample>,
    asked: &mut Sample,
) -> Result<u32, Memory>
    ensures { IfOk result (λ n. AllRun (R.keys on.now.rows.now) (row_number members.entry.router)
        (map_networks row_number (members_of members.entry.nets.now))
        (scope_of on.now.env.now) (past_in on.now.before on.now.dt) 0
        (datum_of x.now) (kept_of kept.old) (kept_of kept.new) [] (map datum_of answers.new.items)
        n) }
{
    let mut rest = members.nets;
    let mut before: usize = 0;
    let mut visits: u32 = 0;
    'members: while let Some((f, others)) = rest.split_first() {
        make_place(answers, before)?;
        let input = routed(on, members.router, x, before, asked)?;
        let one = run_place(on, f, &input, kept, &mut answers[before]);
        let_go(input);
        visits = both(visits, one?);
        rest = others;
        before += 1;
    }
    answers.truncate(before);
    Ok(visits)
}

/// What the row makes of the sample and member i's number, whose pair comes in that place.
#[inline(always)]
fn routed<R: Rows>(
    on: &On<'_, '_, R>,
    router: LeafId,
    x: &Sample,
    i: usize,
    asked: &mut Sample,
) -> Result<Sample, Memory>
    requires { i < 2 ^ 63 }
    ensures { IfOk result (λ y. Called (R.keys on.now.rows.now) (row_number router)
        on.now.env.now.params (pair (datum_of x.now) (int (pos i))) (datum_of y)) }
{
    put_pair(on.alloc, x, &Sample::Int(i as i64), asked)?;
    on.rows.call(router, on.params(), asked)
}

/// `-->`: its part starts, and the constant is put out. What runs at a place is never a `-->` that
/// has started; `Memory` else.
#[cycle(run)]
#[inline(never)]
fn run_initial_out<'n, R: Rows>(
    on: &On<'_, 'n, R>,
    f: &'n Net<LeafId>,
    x: &Sample,
    running: &mut Running<'n>,
    out: &mut Sample,
    c: LeafId,
) -> Result<u32, Memory>
    ensures { IfOk result (λ n. RunsWhere (R.keys on.now.rows.now)
        (standing (initial_out (row_number c) (rows_in f.entry.now)) (scope_of on.now.env.now)
        (past_in on.now.before on.now.dt))
        (datum_of x.now) (running_of running.new) (datum_of out.new) n) }
{
    match on.before {
        Some(_) => Err(Memory),
        None => {
            let visits = run_in(on, f, x, running, out)?;
            call_into(on, c, &Sample::Unit, out)?;
            Ok(node(visits, 0))
        }
    }
}

/// `>--`: its part starts on the constant. What runs at a place is never a `>--` that has started;
/// `Memory` else.
#[cycle(run)]
#[inline(never)]
fn run_initial_in<'n, R: Rows>(
    on: &On<'_, 'n, R>,
    f: &'n Net<LeafId>,
    x: &Sample,
    running: &mut Running<'n>,
    out: &mut Sample,
    c: LeafId,
) -> Result<u32, Memory>
    ensures { IfOk result (λ n. RunsWhere (R.keys on.now.rows.now)
        (standing (initial_in (row_number c) (rows_in f.entry.now)) (scope_of on.now.env.now)
        (past_in on.now.before on.now.dt))
        (datum_of x.now) (running_of running.new) (datum_of out.new) n) }
{
    match on.before {
        Some(_) => Err(Memory),
        None => {
            let input = on.rows.call(c, on.params(), &Sample::Unit)?;
            let visits = run_in(on, f, &input, running, out);
            drop(input);
            Ok(node(visits?, 0))
        }
    }
}

/// `(old k)`: what was frozen goes on with the step that it was frozen with, or starts. What runs at a
/// place is never an `(old k)` that has resumed, and a typed one finds what was frozen; `Memory` else.
#[cycle(run)]
#[inline(never)]
fn run_old<'n, R: Rows>(
    on: &On<'_, 'n, R>,
    k: u32,
    x: &Sample,
    running: &mut Running<'n>,
    out: &mut Sample,
) -> Result<u32, Memory>
    ensures { IfOk result (λ n. RunsWhere (R.keys on.now.rows.now)
        (standing (old k) (scope_of on.now.env.now) (past_in on.now.before on.now.dt))
        (datum_of x.now) (running_of running.new) (datum_of out.new) n) }
{
    match on.before {
        Some(_) => Err(Memory),
        None => match on.env.olds.get(k) {
            Some(frozen) => {
                let (going, net) = on_frozen(&*on, frozen)?;
                Ok(node(run_in(&going, net, x, running, out)?, 0))
            }
            None => Err(Memory),
        },
    }
}
