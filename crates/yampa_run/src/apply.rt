// The command `apply`: where the steps of a certificate lead, and what each of them does.

ghost use Rattle.std.specs.Prelude.{IfErr, IfOk, false, map, true};
ghost use Rattle.command_line.specs.CommandLine.{leading_view};
ghost use Rattle.net_tree.specs.LawStep.{step_of};
ghost use Rattle.yampa_run.specs.Apply.{IsApplied, IsNotApplied, IsShown, RefusesSteps, TellsApplied};

use crate::check::{check_refusal, load_steps};
use crate::files::Files;
use crate::load::load;
use crate::preparation::{Job, Refusal};
use crate::refused::{Role, check_line};
use crate::words::first_of;
use command_line::Leading;
use net_syntax::TypedNet;
use net_tree::LawStep;
use net_view::{Trace, applied_text, first_steps, trace_steps, trace_text};
use sample_core::Memory;
use std::alloc::Global;

/// What the command `apply` prints on those files. They are read and refused in the order source,
/// certificate.
pub(crate) fn applied<F: Files>(
    alloc: Global,
    names: Leading<'_>,
    files: &F,
) -> Result<Job, Refusal>
    ensures applied { IfOk result (TellsApplied (F.told files.now) (leading_view names.entry)) }
    ensures refused { IfErr result (IsNotApplied (F.told files.now) (leading_view names.entry)) }
{
    let first = match first_of(alloc, names.first) {
        Ok(first) => first,
        Err(refusal) => return Err(refusal),
    };
    let source = match load(alloc, Role::Source, names.source, files) {
        Ok(source) => source,
        Err(refusal) => return Err(refusal),
    };
    let steps = match load_steps(alloc, names.certificate, files) {
        Ok(steps) => steps,
        Err(refusal) => return Err(refusal),
    };
    applied_steps(alloc, &source, first_steps(&steps, first), names.shows)
}

/// What is printed of steps: what they do, where they are shown, else the network that they lead to.
fn applied_steps(
    alloc: Global,
    source: &TypedNet,
    steps: &[LawStep],
    shows: bool,
) -> Result<Job, Refusal>
    ensures applied { IfOk result (IsApplied source.now (map step_of steps.now) shows) }
    ensures refused { IfErr result (RefusesSteps source.now (map step_of steps.now) shows) }
{
    if shows {
        shown(alloc, source, steps)
    } else {
        led(alloc, source, steps)
    }
}

/// The network that the steps lead to, as it is printed.
fn led(alloc: Global, source: &TypedNet, steps: &[LawStep]) -> Result<Job, Refusal>
    ensures applied { IfOk result (IsApplied source.now (map step_of steps.now) false) }
    ensures refused { IfErr result (RefusesSteps source.now (map step_of steps.now) false) }
{
    match applied_text(alloc, source, steps) {
        Ok(text) => Ok(Job::Print(text)),
        Err(fault) => Err(check_refusal(alloc, fault)?),
    }
}

/// What the steps do, as it is printed.
fn shown(alloc: Global, source: &TypedNet, steps: &[LawStep]) -> Result<Job, Refusal>
    ensures applied { IfOk result (IsApplied source.now (map step_of steps.now) true) }
    ensures refused { IfErr result (RefusesSteps source.now (map step_of steps.now) true) }
{
    match trace_steps(alloc, source, steps) {
        Ok(trace) => {
            let job = shown_job(alloc, steps, &trace);
            drop(trace);
            Ok(job?)
        }
        Err(fault) => Err(check_refusal(alloc, fault)?),
    }
}

/// What came of the steps, as it is printed, and the line on the one that was refused.
fn shown_job(alloc: Global, steps: &[LawStep], trace: &Trace) -> Result<Job, Memory>
    ensures { IfOk result (IsShown (map step_of steps.now) trace.now) }
{
    let text = trace_text(alloc, steps, trace)?;
    match &trace.stop {
        None => Ok(Job::Print(text)),
        Some(stop) => Ok(Job::PrintAndRefuse {
            text,
            line: check_line(alloc, &stop.fault)?,
        }),
    }
}
