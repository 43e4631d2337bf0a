// One sample through the members of an `rpSwitchB`.

ghost use Rattle.std.specs.Prelude.{[], IfOk, map};
ghost use Rattle.sample_core.specs.ValueView.{datum_of};
ghost use Rattle.net_tree.specs.Network.{map_networks, rp_switch};
ghost use Rattle.net_tree.specs.NetworkView.{members_of};
ghost use Rattle.state_core.specs.RowsView.{rows_in, row_number};
ghost use Rattle.state_core.specs.State.{paused};
ghost use Rattle.state_core.specs.StateView.{frozen_of, kept_of, running_of, scope_of, state_of};
ghost use Rattle.step_core.specs.Flow.{MembersRun, past_in, standing};
ghost use Rattle.step_core.specs.Runs.{RunsWhere};
ghost use Rattle.step_core.specs.Switching.{BeginsAfter, TurnedRun};

use crate::choice::{Choice, chosen, first_members};
use crate::on::{On, both, node};
use crate::part::{make_place, restart_of};
use crate::rows::Rows;
use crate::run::{on_frozen, on_state, run_at_next};
use leaf_table::LeafId;
use net_tree::Net;
use sample_core::{Memory, Sample};
use state_core::{Frozen, Kept, Running, State};

/// `rpSwitchB`: each of its members answers.
#[cycle(run)]
#[inline(never)]
pub(crate) fn run_collection<'n, R: Rows>(
    on: &On<'_, 'n, R>,
    members: &'n [Net<LeafId>],
    x: &Sample,
    running: &mut Running<'n>,
    out: &mut Sample,
    choice: Choice<'n>,
) -> Result<u32, Memory>
    requires { BeginsAfter running.old (rp_switch (map_networks row_number (members_of members.now))
        (row_number choice.chooser) (rows_in choice.starts.now)) (scope_of on.now.env.now) }
    ensures { IfOk result (λ n. RunsWhere (R.keys on.now.rows.now)
        (standing (rp_switch (map_networks row_number (members_of members.entry.now))
        (row_number choice.entry.chooser) (rows_in choice.entry.starts.now))
        (scope_of on.now.env.now) (past_in on.now.before on.now.dt))
        (datum_of x.now) (running_of running.new) (datum_of out.new) n) }
{
    let mut answers = out.take_list(on.alloc);
    match run_turned(on, members, x, &mut running.kept, &mut answers, choice) {
        Ok(all) => {
            out.put_list(on.alloc, answers)?;
            running.kept.end();
            Ok(node(all, 0))
        }
        Err(memory) => {
            drop(answers);
            Err(memory)
        }
    }
}

/// The members go on, or begin. At an event those run that it chooses.
#[cycle(run)]
#[inline(never)]
fn run_turned<'n, R: Rows>(
    on: &On<'_, 'n, R>,
    members: &'n [Net<LeafId>],
    x: &Sample,
    kept: &mut Kept<'n>,
    answers: &mut Vec<Sample>,
    choice: Choice<'n>,
) -> Result<u32, Memory>
    ensures { IfOk result (λ n. TurnedRun (R.keys on.now.rows.now)
        (map_networks row_number (members_of members.entry.now)) (row_number choice.entry.chooser)
        (rows_in choice.entry.starts.now) (scope_of on.now.env.now)
        (past_in on.now.before on.now.dt) (datum_of x.now)
        (kept_of kept.old) (kept_of kept.new) (map datum_of answers.new.items) n) }
{
    match restart_of(x) {
        Some((sample, value)) => {
            let all = chosen(on, members, choice, value)?;
            let visits = resume_each(on, all.as_slice(), sample, kept, answers);
            drop(all);
            visits
        }
        None => match on.before {
            Some(before) => step_each(on, before.places.as_slice(), x.left(), kept, answers),
            None => {
                let all = first_members(on, members)?;
                let visits = resume_each(on, all.as_slice(), x.left(), kept, answers);
                drop(all);
                visits
            }
        },
    }
}

/// Members that were frozen go on, or begin, a place each; puts what they answer, in order, in the
/// places of the answers.
#[cycle(run)]
#[inline(never)]
fn resume_each<'n, R: Rows>(
    on: &On<'_, 'n, R>,
    members: &[Frozen<'n>],
    x: &Sample,
    kept: &mut Kept<'n>,
    answers: &mut Vec<Sample>,
) -> Result<u32, Memory>
    ensures { IfOk result (λ n. MembersRun (R.keys on.now.rows.now) (map frozen_of members.now)
        (datum_of x.now) (kept_of kept.old) (kept_of kept.new) []
        (map datum_of answers.new.items) n) }
{
    let mut before: usize = 0;
    let mut visits: u32 = 0;
    for member in members {
        make_place(answers, before)?;
        let (going, net) = on_frozen(&*on, member)?;
        let one = run_at_next(&going, net, x, kept, &mut answers[before])?;
        visits = both(visits, one);
        before += 1;
    }
    answers.truncate(before);
    Ok(visits)
}

/// Members that ran go on, a place each; puts what they answer, in order, in the places of the
/// answers.
#[cycle(run)]
#[inline(never)]
fn step_each<'n, R: Rows>(
    on: &On<'_, 'n, R>,
    members: &[State<'n>],
    x: &Sample,
    kept: &mut Kept<'n>,
    answers: &mut Vec<Sample>,
) -> Result<u32, Memory>
    ensures { IfOk result (λ n. MembersRun (R.keys on.now.rows.now)
        (map (λ a. paused (state_of a) on.now.dt) members.now)
        (datum_of x.now) (kept_of kept.old) (kept_of kept.new) []
        (map datum_of answers.new.items) n) }
{
    let mut before: usize = 0;
    let mut visits: u32 = 0;
    for member in members {
        make_place(answers, before)?;
        let (going, net) = on_state(&*on, member, on.dt)?;
        let one = run_at_next(&going, net, x, kept, &mut answers[before])?;
        visits = both(visits, one);
        before += 1;
    }
    answers.truncate(before);
    Ok(visits)
}
