// Steps taken one after the other, with what each changes.

ghost use Rattle.std.specs.Prelude.{◌≡◌, ◌≤◌, length, map, option_map, IfOk};
ghost use Rattle.net_tree.specs.{LawStep.part_of, LawStep.step_of};
ghost use Rattle.cert_check.specs.Derives.{standing_tree};
ghost use Rattle.net_view.specs.Trace.{IsLedTo, IsRefusedSo, IsStepTrace, TraceAnswer, TracesSteps, first_steps};

use crate::positions::tree_at;
use cert_check::{CheckFault, MOST_STEPS, answer_at, place_in, take_step};
use net_syntax::{Place, TypedNet};
use net_tree::{Direction, LawStep, Tree};
use sample_core::Memory;
use std::alloc::Global;

/// What a step changed: the tree that stood at its position, and the one that stands there now.
#[derive(Drop)]
pub struct Change {
    /// What stood there.
    pub before: Tree,
    /// What stands there now.
    pub after: Tree,
}

/// A step that was refused.
#[derive(Drop)]
pub struct RefusedStep {
    /// Why, with the step's number; not for lack of memory.
    pub fault: CheckFault,
    /// What stands at the step's position, if that is there.
    pub there: Option<Tree>,
    /// What the step's law leads to, forward, from the tree that the step gives: where the position
    /// is there, a tree is given and the law leads from it somewhere.
    pub led: Option<Tree>,
}

/// What came of steps.
#[derive(Drop)]
pub struct Trace {
    /// What each step that was taken changed, in their order.
    pub changes: Vec<Change>,
    /// The step behind them, where it was refused.
    pub stop: Option<RefusedStep>,
}

/// What came of one step.
#[derive(Drop)]
pub(crate) enum StepTrace {
    /// It was taken.
    Taken(Change),
    /// It was refused.
    Refused(RefusedStep),
}

/// The first steps, so many; all, where there are fewer or no number is given.
pub fn first_steps(steps: &[LawStep], first: Option<usize>) -> &[LawStep]
    ensures { map step_of result.now ≡ first_steps first (map step_of steps.now) }
{
    match first {
        Some(count) => &steps[..count.min(steps.len())],
        None => steps,
    }
}

/// Takes the steps from the source, one after the other, and returns what each changes, up to the
/// first that a check would refuse; of that one, why, what stands at its position, and what its law
/// leads to from the tree that it gives. `TooManySteps` for more than 10,000 steps, without taking
/// memory; `Memory` if allocation fails; no other fault.
pub fn trace_steps(alloc: Global, source: &TypedNet, steps: &[LawStep]) -> Result<Trace, CheckFault>
    ensures { TraceAnswer source.now (map step_of steps.now) result }
{
    if steps.len() > MOST_STEPS {
        return Err(CheckFault::TooManySteps);
    }
    let mut reached = source.try_copy(alloc)?;
    let trace = trace_on(alloc, &mut reached, steps)?;
    Ok(trace)
}

/// Takes the steps on the network, which is left where they led, and returns what each changes.
fn trace_on(alloc: Global, net: &mut TypedNet, steps: &[LawStep]) -> Result<Trace, Memory>
    requires { length steps.now ≤ MOST_STEPS }
    ensures { IfOk result (TracesSteps net.old (map step_of steps.now)) }
{
    let mut changes = Vec::new(alloc);
    let mut number = 0;
    for step in steps {
        number += 1;
        match step_trace(alloc, net, step, number)? {
            StepTrace::Taken(change) => changes.push(change)?,
            StepTrace::Refused(stop) => {
                return Ok(Trace {
                    changes,
                    stop: Some(stop),
                });
            }
        }
    }
    Ok(Trace {
        changes,
        stop: None,
    })
}

/// Takes step `number`, and returns what it changes; or why it was refused.
fn step_trace(
    alloc: Global,
    net: &mut TypedNet,
    step: &LawStep,
    number: u32,
) -> Result<StepTrace, Memory>
    ensures { IfOk result (IsStepTrace net.old (step_of step.now) number net.new) }
{
    let before = tree_at(alloc, net, &step.position)?;
    match take_step(alloc, net, step, number) {
        Ok(()) => {
            let after = tree_at(alloc, net, &step.position)?;
            Ok(StepTrace::Taken(Change {
                before: before.unwrap(),
                after: after.unwrap(),
            }))
        }
        Err(fault) => refused(alloc, net, step, before, fault),
    }
}

/// The step that was refused for that fault, with what stands at its position.
fn refused(
    alloc: Global,
    net: &TypedNet,
    step: &LawStep,
    there: Option<Tree>,
    fault: CheckFault,
) -> Result<StepTrace, Memory>
    requires { option_map part_of there ≡ standing_tree net.now step.now.position }
    ensures { IfOk result (IsRefusedSo net.now (step_of step.now) fault) }
{
    match fault {
        CheckFault::Memory => {
            drop(there);
            Err(Memory)
        }
        fault => {
            let led = led_by(alloc, net, step)?;
            Ok(StepTrace::Refused(RefusedStep { fault, there, led }))
        }
    }
}

/// What the step's law leads to, forward, from the tree that the step gives.
fn led_by(alloc: Global, net: &TypedNet, step: &LawStep) -> Result<Option<Tree>, Memory>
    ensures { IfOk result (λ led. IsLedTo net.now (step_of step.now) (option_map part_of led)) }
{
    let Some(place) = place_in(net, &step.position) else {
        return Ok(None);
    };
    let Some(given) = &step.given else {
        return Ok(None);
    };
    let given = Place {
        tree: given.by_ref(),
        params: place.params,
        olds: place.olds,
    };
    answer_at(alloc, step.law, Direction::Forward, given, None)
}
