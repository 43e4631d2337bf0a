// One sample through a network, node by node.

ghost use Rattle.std.specs.Prelude.{◌≡◌, ◌≢◌, ◌<◌, ◌++◌, ◌∷◌, [], None, Some, IfOk, MatchOption, length, map, slice_get, slice_set};
ghost use Rattle.sample_core.specs.{Datum.Datum, Datum.left, Datum.pair, Datum.right, ValueView.datum_of};
ghost use Rattle.net_tree.specs.Network.{map_networks, seq, first, par, loop_pre, initial_out, initial_in, accum_by, at_once, delayed, r_switch};
ghost use Rattle.net_tree.specs.NetworkView.{members_of};
ghost use Rattle.cell_core.specs.Cell.{previous};
ghost use Rattle.state_core.specs.RowsView.{rows_in, row_number};
ghost use Rattle.state_core.specs.StateView.{kept_of, scope_of};
ghost use Rattle.state_core.specs.Tree.{passed as passed_on};
ghost use Rattle.step_core.specs.Called.{Called};
ghost use Rattle.step_core.specs.Flow.{Flows, AllFlow, IsCell, IsFedBack, IsOneCell, number_of, past_in};

use crate::cells::{start_accum, start_cell, step_accum};
use crate::on::{On, both, node};
use crate::part::{answer_places, let_go, make_place, put_pair, restart_of};
use crate::rows::Rows;
use crate::run::{go_on, run_place, start_under};
use cell_core::Form;
use leaf_table::LeafId;
use net_tree::Net;
use sample_core::{Memory, Sample};
use state_core::{Cells, Kept, push_param};
use std::alloc::Global;

/// Puts what the network answers in place of another value, and adds what it keeps to what is kept.
/// Answers how many nodes were visited. `Memory` if allocation fails.
#[cycle(run)]
#[inline(always)]
pub(crate) fn flow<'n, R: Rows>(
    on: &On<'_, 'n, R>,
    net: &'n Net<LeafId>,
    x: &Sample,
    kept: &mut Kept<'n>,
    out: &mut Sample,
) -> Result<u32, Memory>
    ensures { IfOk result (λ n. Flows (R.keys on.now.rows.now) (rows_in net.entry.now)
        (scope_of on.now.env.now) (past_in on.now.before on.now.dt) (datum_of x.now)
        (kept_of kept.old) (kept_of kept.new) (datum_of out.new) n) }
{
    match net {
        Net::Arr(e) => call_into(on, *e, x, out),
        Net::Seq(f, g) => flow_seq(on, f.get(), x, kept, out, g.get()),
        Net::First(f) => flow_first(on, f.get(), x, kept, out),
        Net::Par(fs) => flow_par(on, fs.as_slice(), x, kept, out),
        Net::LoopPre(c, f) => flow_loop(on, f.get(), x, kept, out, *c),
        Net::InitialOut(c, f) => flow_initial_out(on, f.get(), x, kept, out, *c),
        Net::InitialIn(c, f) => flow_initial_in(on, f.get(), x, kept, out, *c),
        Net::AccumBy(g, z) => flow_accum(on, *g, x, kept, out, *z),
        Net::IPre(_)
        | Net::Delay(..)
        | Net::Hold(_)
        | Net::After(..)
        | Net::Repeatedly(..)
        | Net::Time
        | Net::Integral => flow_cell(on, net, x, kept, out),
        Net::RSwitch(f, t) => flow_restart(on, f.get(), x, kept, out, t.get()),
        Net::DrSwitch(f, t) => flow_late_restart(on, f.get(), x, kept, out, t.get()),
        Net::Switch(..)
        | Net::DSwitch(..)
        | Net::KSwitch(..)
        | Net::PSwitch(..)
        | Net::RpSwitch(..)
        | Net::Old(_) => run_place(on, net, x, kept, out),
    }
}

/// What a row answers to the sample.
#[inline(always)]
pub(crate) fn call_into<R: Rows>(
    on: &On<'_, '_, R>,
    e: LeafId,
    x: &Sample,
    out: &mut Sample,
) -> Result<u32, Memory>
    ensures called { IfOk result (λ _. Called (R.keys on.now.rows.now) (row_number e)
        on.now.env.now.params (datum_of x.now) (datum_of out.new)) }
    ensures one { IfOk result (λ n. n ≡ 1) }
{
    match on.rows.call(e, on.params(), x) {
        Ok(Sample::Int(n)) => out.put_int(n),
        Ok(answer) => out.put(answer),
        Err(memory) => return Err(memory),
    }
    Ok(1)
}

/// `>>>`: what the first part answers goes to the second.
#[cycle(run)]
#[inline(never)]
fn flow_seq<'n, R: Rows>(
    on: &On<'_, 'n, R>,
    f: &'n Net<LeafId>,
    x: &Sample,
    kept: &mut Kept<'n>,
    out: &mut Sample,
    g: &'n Net<LeafId>,
) -> Result<u32, Memory>
    ensures { IfOk result (λ n. Flows (R.keys on.now.rows.now)
        (seq (rows_in f.entry.now) (rows_in g.entry.now))
        (scope_of on.now.env.now) (past_in on.now.before on.now.dt) (datum_of x.now)
        (kept_of kept.old) (kept_of kept.new) (datum_of out.new) n) }
{
    let mut between = Sample::Int(0);
    match flow(on, f, x, kept, &mut between) {
        Ok(one) => {
            let others = flow_rest(on, g, &mut between, kept, out);
            let_go(between);
            Ok(node(one, others?))
        }
        Err(memory) => {
            drop(between);
            Err(memory)
        }
    }
}

/// The rest of a chain of `>>>`: what goes along it stands in two places in turn.
#[cycle(run)]
#[inline(always)]
fn flow_rest<'n, R: Rows>(
    on: &On<'_, 'n, R>,
    net: &'n Net<LeafId>,
    between: &mut Sample,
    kept: &mut Kept<'n>,
    out: &mut Sample,
) -> Result<u32, Memory>
    ensures { IfOk result (λ n. Flows (R.keys on.now.rows.now) (rows_in net.entry.now)
        (scope_of on.now.env.now) (past_in on.now.before on.now.dt) (datum_of between.old)
        (kept_of kept.old) (kept_of kept.new) (datum_of out.new) n) }
{
    let mut place = Sample::Int(0);
    let mut rest = net;
    let mut visits: u32 = 0;
    'chain: while let Net::Seq(f, g) = rest {
        match flow(on, f.get(), between, kept, &mut place) {
            Ok(one) => visits = node(visits, one),
            Err(memory) => {
                drop(place);
                return Err(memory);
            }
        }
        std::mem::swap(between, &mut place);
        rest = g.get();
    }
    let last = flow(on, rest, between, kept, out);
    let_go(place);
    Ok(both(visits, last?))
}

/// `first`: the second component passes along.
#[cycle(run)]
#[inline(never)]
fn flow_first<'n, R: Rows>(
    on: &On<'_, 'n, R>,
    f: &'n Net<LeafId>,
    x: &Sample,
    kept: &mut Kept<'n>,
    out: &mut Sample,
) -> Result<u32, Memory>
    ensures { IfOk result (λ n. Flows (R.keys on.now.rows.now) (first (rows_in f.entry.now))
        (scope_of on.now.env.now) (past_in on.now.before on.now.dt) (datum_of x.now)
        (kept_of kept.old) (kept_of kept.new) (datum_of out.new) n) }
{
    let mut answer = Sample::Int(0);
    match flow(on, f, x.left(), kept, &mut answer) {
        Ok(one) => {
            let done = put_pair(on.alloc, &answer, x.right(), out);
            let_go(answer);
            done?;
            Ok(node(one, 0))
        }
        Err(memory) => {
            drop(answer);
            Err(memory)
        }
    }
}

/// `parB`: each member gets the sample, and their answers become one list.
#[cycle(run)]
#[inline(never)]
fn flow_par<'n, R: Rows>(
    on: &On<'_, 'n, R>,
    members: &'n [Net<LeafId>],
    x: &Sample,
    kept: &mut Kept<'n>,
    out: &mut Sample,
) -> Result<u32, Memory>
    ensures { IfOk result (λ n. Flows (R.keys on.now.rows.now)
        (par (map_networks row_number (members_of members.entry.now)))
        (scope_of on.now.env.now) (past_in on.now.before on.now.dt) (datum_of x.now)
        (kept_of kept.old) (kept_of kept.new) (datum_of out.new) n) }
{
    let mut answers = answer_places(on.alloc, members.len(), out)?;
    match flow_each(on, members, x, kept, &mut answers) {
        Ok(all) => {
            out.put_list(on.alloc, answers)?;
            Ok(node(all, 0))
        }
        Err(memory) => {
            drop(answers);
            Err(memory)
        }
    }
}

/// Puts what the members answer, in order, in the places of the answers.
#[cycle(run)]
#[inline(never)]
fn flow_each<'n, R: Rows>(
    on: &On<'_, 'n, R>,
    members: &'n [Net<LeafId>],
    x: &Sample,
    kept: &mut Kept<'n>,
    answers: &mut Vec<Sample>,
) -> Result<u32, Memory>
    ensures { IfOk result (λ n. AllFlow (R.keys on.now.rows.now)
        (map_networks row_number (members_of members.entry.now))
        (scope_of on.now.env.now) (past_in on.now.before on.now.dt) (datum_of x.now)
        (kept_of kept.old) (kept_of kept.new) [] (map datum_of answers.new.items) n) }
{
    let mut rest = members;
    let mut before: usize = 0;
    let mut visits: u32 = 0;
    'members: while let Some((f, others)) = rest.split_first() {
        make_place(answers, before)?;
        let one = flow(on, f, x, kept, &mut answers[before])?;
        visits = both(visits, one);
        rest = others;
        before += 1;
    }
    answers.truncate(before);
    Ok(visits)
}

/// `loopPre`: its part gets the sample and what is fed back. What is fed back next stands in the
/// cell before those of the part.
#[cycle(run)]
#[inline(never)]
fn flow_loop<'n, R: Rows>(
    on: &On<'_, 'n, R>,
    f: &'n Net<LeafId>,
    x: &Sample,
    kept: &mut Kept<'n>,
    out: &mut Sample,
    c: LeafId,
) -> Result<u32, Memory>
    ensures { IfOk result (λ n. Flows (R.keys on.now.rows.now)
        (loop_pre (row_number c) (rows_in f.entry.now))
        (scope_of on.now.env.now) (past_in on.now.before on.now.dt) (datum_of x.now)
        (kept_of kept.old) (kept_of kept.new) (datum_of out.new) n) }
{
    let at = kept.cells.len();
    let input = feed(on, c, x, &mut kept.cells)?;
    let mut answer = Sample::Int(0);
    let done = flow(on, f, &input, kept, &mut answer);
    on.rows.give_back(input);
    match done {
        Ok(one) => {
            keep_fed(on.alloc, answer, at, &mut kept.cells, out)?;
            Ok(node(one, 0))
        }
        Err(memory) => {
            drop(answer);
            Err(memory)
        }
    }
}

/// `-->`: at the start its part starts, and the constant is put out. From then on it is its part.
#[cycle(run)]
#[inline(never)]
fn flow_initial_out<'n, R: Rows>(
    on: &On<'_, 'n, R>,
    f: &'n Net<LeafId>,
    x: &Sample,
    kept: &mut Kept<'n>,
    out: &mut Sample,
    c: LeafId,
) -> Result<u32, Memory>
    ensures { IfOk result (λ n. Flows (R.keys on.now.rows.now)
        (initial_out (row_number c) (rows_in f.entry.now))
        (scope_of on.now.env.now) (past_in on.now.before on.now.dt) (datum_of x.now)
        (kept_of kept.old) (kept_of kept.new) (datum_of out.new) n) }
{
    match on.before {
        Some(_) => flow(on, passed(f), x, kept, out),
        None => {
            let visits = flow(on, f, x, kept, out)?;
            call_into(on, c, &Sample::Unit, out)?;
            Ok(node(visits, 0))
        }
    }
}

/// `>--`: at the start its part starts on the constant. From then on it is its part.
#[cycle(run)]
#[inline(never)]
fn flow_initial_in<'n, R: Rows>(
    on: &On<'_, 'n, R>,
    f: &'n Net<LeafId>,
    x: &Sample,
    kept: &mut Kept<'n>,
    out: &mut Sample,
    c: LeafId,
) -> Result<u32, Memory>
    ensures { IfOk result (λ n. Flows (R.keys on.now.rows.now)
        (initial_in (row_number c) (rows_in f.entry.now))
        (scope_of on.now.env.now) (past_in on.now.before on.now.dt) (datum_of x.now)
        (kept_of kept.old) (kept_of kept.new) (datum_of out.new) n) }
{
    match on.before {
        Some(_) => flow(on, passed(f), x, kept, out),
        None => {
            let input = on.rows.call(c, on.params(), &Sample::Unit)?;
            let visits = flow(on, f, &input, kept, out);
            drop(input);
            Ok(node(visits?, 0))
        }
    }
}

/// The network that goes on once a network has started: of a `-->` or a `>--`, its part.
fn passed(net: &Net<LeafId>) -> &Net<LeafId>
    ensures { rows_in result.now ≡ passed_on (rows_in net.now) }
{
    let mut rest = net;
    'openings: while let Net::InitialOut(_, f) | Net::InitialIn(_, f) = rest {
        rest = f.get();
    }
    rest
}

/// The pair of the sample and what is fed back, which goes into the next cell until the sample has
/// passed: what is kept, or at the first sample the constant.
#[inline(always)]
fn feed<R: Rows>(
    on: &On<'_, '_, R>,
    c: LeafId,
    x: &Sample,
    cells: &mut Cells,
) -> Result<Sample, Memory>
    ensures { IfOk result (λ y. IsFedBack (R.keys on.now.rows.now) (row_number c)
        on.now.env.now.params (past_in on.now.before on.now.dt) (datum_of x.now)
        cells.old cells.new (datum_of y)) }
{
    match on.before {
        Some(before) => match kept_at(&before.cells, cells.len()) {
            Some(value) => feed_value(on, x, value, cells),
            None => Err(Memory),
        },
        None => {
            let value = on.rows.call(c, on.params(), &Sample::Unit)?;
            let input = feed_value(on, x, &value, cells);
            drop(value);
            input
        }
    }
}

/// What cell i keeps, where it is an `iPre`.
#[inline(always)]
fn kept_at(before: &Cells, i: usize) -> Option<&Sample>
    ensures { MatchOption result
        ((v : Datum) → slice_get before.now i ≢ Some (previous v))
        (λ v. slice_get before.now i ≡ Some (previous (datum_of v.now))) }
{
    match before.get(i) {
        Some(cell) => cell.previous(),
        None => None,
    }
}

/// The pair of the sample and a value, which goes into the next cell.
#[inline(always)]
fn feed_value<R: Rows>(
    on: &On<'_, '_, R>,
    x: &Sample,
    value: &Sample,
    cells: &mut Cells,
) -> Result<Sample, Memory>
    ensures { IfOk result (λ y. (datum_of y ≡ pair (datum_of x.now) (datum_of value.now))
        × (cells.new ≡ cells.old ++ previous (datum_of value.now) ∷ [])) }
{
    cells.push_previous(on.alloc, value)?;
    on.rows.pair(on.alloc, x, value)
}

/// Puts out the first part of what a `loopPre`'s part answers; the second goes into its cell.
fn keep_fed(
    alloc: Global,
    answer: Sample,
    at: usize,
    cells: &mut Cells,
    out: &mut Sample,
) -> Result<(), Memory>
    requires { at < length cells.old }
    ensures { IfOk result (λ _. (datum_of out.new ≡ left (datum_of answer))
        × (cells.new ≡ slice_set cells.old at (previous (right (datum_of answer))))) }
{
    match cells.put_previous(alloc, at, answer.right()) {
        Ok(()) => {
            let done = out.put_copy(alloc, answer.left());
            drop(answer);
            done
        }
        Err(memory) => {
            drop(answer);
            Err(memory)
        }
    }
}

/// A cell: it starts, or steps.
#[inline(always)]
fn flow_cell<R: Rows>(
    on: &On<'_, '_, R>,
    net: &Net<LeafId>,
    x: &Sample,
    kept: &mut Kept<'_>,
    out: &mut Sample,
) -> Result<u32, Memory>
    requires { IsOneCell (rows_in net.now) }
    ensures { IfOk result (λ n. Flows (R.keys on.now.rows.now) (rows_in net.now)
        (scope_of on.now.env.now) (past_in on.now.before on.now.dt) (datum_of x.now)
        (kept_of kept.old) (kept_of kept.new) (datum_of out.new) n) }
{
    match on.before {
        Some(before) => match before.cells.get(kept.cells.len()) {
            Some(cell) => {
                kept.cells.push_step(on.alloc, cell, on.dt, x, out)?;
                Ok(1)
            }
            None => Err(Memory),
        },
        None => first_cell(on, net, x, kept, out),
    }
}

/// A cell's start.
#[inline(never)]
fn first_cell<R: Rows>(
    on: &On<'_, '_, R>,
    net: &Net<LeafId>,
    x: &Sample,
    kept: &mut Kept<'_>,
    out: &mut Sample,
) -> Result<u32, Memory>
    requires { IsOneCell (rows_in net.now) }
    ensures { IfOk result (λ n. Flows (R.keys on.now.rows.now) (rows_in net.now)
        (scope_of on.now.env.now) None (datum_of x.now) (kept_of kept.old) (kept_of kept.new)
        (datum_of out.new) n) }
{
    let (form, constant) = form_of(net);
    let (first, answer) = start_cell(on.alloc, on.rows, form, constant, on.params(), x)?;
    out.put(answer);
    kept.cells.push(first)?;
    Ok(1)
}

/// The form of a cell, and its constant, if it has one.
#[tactic(auto, using(crate::proofs::Flows::cell_forms))]
fn form_of(net: &Net<LeafId>) -> (Form, Option<LeafId>)
    requires { IsOneCell (rows_in net.now) }
    ensures { IsCell (rows_in net.now) result.0 (number_of result.1) }
{
    match net {
        Net::IPre(c) => (Form::IPre, Some(*c)),
        Net::Delay(q, c) => (Form::Delay(*q), Some(*c)),
        Net::Hold(c) => (Form::Hold, Some(*c)),
        Net::After(q, c) => (Form::After(*q), Some(*c)),
        Net::Repeatedly(q, c) => (Form::Repeatedly(*q), Some(*c)),
        Net::Time => (Form::Time, None),
        Net::Integral => (Form::Integral, None),
        _ => unreachable!(),
    }
}

/// `accumBy`: it starts, or steps.
#[inline(never)]
fn flow_accum<R: Rows>(
    on: &On<'_, '_, R>,
    g: LeafId,
    x: &Sample,
    kept: &mut Kept<'_>,
    out: &mut Sample,
    z: LeafId,
) -> Result<u32, Memory>
    ensures { IfOk result (λ n. Flows (R.keys on.now.rows.now)
        (accum_by (row_number g) (row_number z))
        (scope_of on.now.env.now) (past_in on.now.before on.now.dt) (datum_of x.now)
        (kept_of kept.old) (kept_of kept.new) (datum_of out.new) n) }
{
    match on.before {
        Some(before) => match before.cells.get(kept.cells.len()) {
            Some(cell) => {
                step_accum(on, g, cell, x, &mut kept.cells, out)?;
                Ok(1)
            }
            None => Err(Memory),
        },
        None => {
            let (first, answer) = start_accum(on, g, z, x)?;
            out.put(answer);
            kept.cells.push(first)?;
            Ok(1)
        }
    }
}

/// `rSwitch`: what runs goes on, or is started anew at an event, with what that carries in scope.
#[cycle(run)]
#[inline(never)]
fn flow_restart<'n, R: Rows>(
    on: &On<'_, 'n, R>,
    f: &'n Net<LeafId>,
    x: &Sample,
    kept: &mut Kept<'n>,
    out: &mut Sample,
    t: &'n Net<LeafId>,
) -> Result<u32, Memory>
    ensures { IfOk result (λ n. Flows (R.keys on.now.rows.now)
        (r_switch at_once (rows_in f.entry.now) (rows_in t.entry.now))
        (scope_of on.now.env.now) (past_in on.now.before on.now.dt) (datum_of x.now)
        (kept_of kept.old) (kept_of kept.new) (datum_of out.new) n) }
{
    match restart_of(x) {
        Some((sample, value)) => {
            let env = push_param(on.alloc, on.env, value)?;
            let one = run_place(&on.started(&env), t, sample, kept, out);
            drop(env);
            Ok(node(one?, 0))
        }
        None => Ok(node(run_place(on, f, x.left(), kept, out)?, 0)),
    }
}

/// `drSwitch`: what runs goes on, and answers. At an event what starts, with what that carries in
/// scope, takes its place, unheard.
#[cycle(run)]
#[inline(never)]
fn flow_late_restart<'n, R: Rows>(
    on: &On<'_, 'n, R>,
    f: &'n Net<LeafId>,
    x: &Sample,
    kept: &mut Kept<'n>,
    out: &mut Sample,
    t: &'n Net<LeafId>,
) -> Result<u32, Memory>
    ensures { IfOk result (λ n. Flows (R.keys on.now.rows.now)
        (r_switch delayed (rows_in f.entry.now) (rows_in t.entry.now))
        (scope_of on.now.env.now) (past_in on.now.before on.now.dt) (datum_of x.now)
        (kept_of kept.old) (kept_of kept.new) (datum_of out.new) n) }
{
    match restart_of(x) {
        Some((sample, value)) => {
            let at = kept.places.len();
            let mut place = kept.places.spare();
            match go_on(on, f, at, sample, &mut place, out) {
                Ok(one) => {
                    let mut unheard = Sample::Int(0);
                    let two = start_under(on, t, sample, value, &mut place, &mut unheard);
                    drop(unheard);
                    match two {
                        Ok(two) => {
                            kept.places.push(place)?;
                            Ok(node(one, two))
                        }
                        Err(memory) => {
                            drop(place);
                            Err(memory)
                        }
                    }
                }
                Err(memory) => {
                    drop(place);
                    Err(memory)
                }
            }
        }
        None => Ok(node(run_place(on, f, x.left(), kept, out)?, 0)),
    }
}
