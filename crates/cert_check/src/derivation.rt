// The check of a certificate.

ghost use Rattle.std.specs.Prelude.{◌≡◌, ◌≤◌, [], length, map, OnOk};
ghost use Rattle.net_meaning.specs.AlikeEnvironments.{SameOutputs};
ghost use Rattle.net_tree.specs.LawStep.{step_of};
ghost use Rattle.cert_check.specs.CheckAnswer.{BeginsCheck, CheckAnswer};
ghost use Rattle.cert_check.specs.StepAnswers.{ApplyAnswer, StepsAnswer};

use crate::answer::{Accepted, CheckFault};
use crate::step::take_step;
use net_syntax::TypedNet;
use net_tree::{LawStep, same_net};
use sample_core::same_type;
use std::alloc::Global;

/// The most steps that a certificate may have.
pub const MOST_STEPS: usize = 10_000;

/// Whether the steps lead from the source to exactly the target's network.
///
/// `InputsDiffer` where the input types of source and target differ, then `TooManySteps` for more
/// than 10,000 steps; neither takes memory. Then the steps in their order, counted from 1:
/// `NoPosition` where a step's position isn't there, `NoMatch` where its law has no answer at it,
/// `IllTyped` where the network with that answer is refused by the typing or a limit, or the output
/// type at the position changes. `EndsElsewhere` where they lead to another network. `Memory` if
/// allocation fails.
///
/// A target that is accepted has its source's types, and outputs the same on every stream.
pub fn check(
    alloc: Global,
    source: &TypedNet,
    target: &TypedNet,
    steps: &[LawStep],
) -> Result<Accepted, CheckFault>
    ensures answer { CheckAnswer source.now target.now (map step_of steps.now) result }
    ensures same_types { OnOk result (source.now.output ≡ target.now.output) }
    ensures same { OnOk result (SameOutputs [] [] source.now.input source.now.net target.now.net) }
{
    if !same_type(source.input(), target.input()) {
        return Err(CheckFault::InputsDiffer);
    }
    if steps.len() > MOST_STEPS {
        return Err(CheckFault::TooManySteps);
    }
    let mut reached = source.try_copy(alloc)?;
    // Both networks have their types.
    let (_from, _to) = (source.net(), target.net());
    derive(alloc, &mut reached, target, steps)
}

/// The network that the steps lead to from the source, one after the other.
///
/// `TooManySteps` for more than 10,000 steps, without taking memory; then the first fault of a
/// step, as of `check`. `Memory` if allocation fails.
pub fn apply_steps(
    alloc: Global,
    source: &TypedNet,
    steps: &[LawStep],
) -> Result<TypedNet, CheckFault>
    ensures { ApplyAnswer source.now (map step_of steps.now) result }
{
    if steps.len() > MOST_STEPS {
        return Err(CheckFault::TooManySteps);
    }
    let mut reached = source.try_copy(alloc)?;
    take_steps(alloc, &mut reached, steps)?;
    Ok(reached)
}

/// Whether the steps lead from the network to the target's; the network is left where they led.
fn derive(
    alloc: Global,
    reached: &mut TypedNet,
    target: &TypedNet,
    steps: &[LawStep],
) -> Result<Accepted, CheckFault>
    requires { BeginsCheck reached.old target.now (map step_of steps.now) }
    ensures { CheckAnswer reached.old target.now (map step_of steps.now) result }
{
    let taken = take_steps(alloc, reached, steps)?;
    if !same_net(reached.net(), target.net()) {
        return Err(CheckFault::EndsElsewhere);
    }
    Ok(Accepted { steps: taken })
}

/// Takes the steps in their order, and answers how many there are; else the first fault.
fn take_steps(alloc: Global, net: &mut TypedNet, steps: &[LawStep]) -> Result<u32, CheckFault>
    requires { length steps.now ≤ MOST_STEPS }
    ensures { StepsAnswer net.old (map step_of steps.now) net.new result }
{
    let mut number = 0;
    for step in steps {
        number += 1;
        take_step(alloc, net, step, number)?;
    }
    Ok(number)
}
