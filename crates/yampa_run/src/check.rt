// The commands `check` and `run-checked`: certificates in files, and what they derive.

ghost use Rattle.std.specs.Prelude.{◌≡◌, Some, IfErr, IfOk, map, string_bytes};
ghost use Rattle.command_line.specs.CommandLine.{derivation_view};
ghost use Rattle.net_tree.specs.LawStep.{step_of};
ghost use Rattle.yampa_run.specs.Check.{AreStepsOf, HasNoDerivation, HasNoSteps, IsDerivedIn, RefusesCheck, TellsAccepted, accepted_line};

use crate::files::{Files, read_file};
use crate::load::{load, text_refusal};
use crate::preparation::Refusal;
use crate::printed::push_number;
use crate::refused::{Role, check_line};
use cert_check::{CheckFault, check};
use command_line::Derivation;
use net_syntax::TypedNet;
use net_text::read_cert;
use net_tree::LawStep;
use sample_core::{Memory, push_word};
use std::alloc::Global;

/// The line of the command `check` on those files.
pub(crate) fn accepted<F: Files>(
    alloc: Global,
    names: Derivation<'_>,
    files: &F,
) -> Result<String, Refusal>
    ensures line { IfOk result (λ text.
        TellsAccepted (F.told files.now) (derivation_view names.entry) (string_bytes text)) }
    ensures refused { IfErr result
        (HasNoDerivation (F.told files.now) (derivation_view names.entry)) }
{
    match derived(alloc, names, files) {
        Ok((target, steps)) => {
            let line = accepted_on(alloc, steps);
            drop(target);
            Ok(line?)
        }
        Err(refusal) => Err(refusal),
    }
}

/// The line on a certificate of so many steps that is accepted.
fn accepted_on(alloc: Global, steps: u32) -> Result<String, Memory>
    ensures { IfOk result (λ text. string_bytes text ≡ accepted_line steps) }
{
    let mut text = String::from_str(alloc, "accepted ")?;
    push_number(&mut text, u64::from(steps))?;
    push_word(&mut text, "\n")?;
    Ok(text)
}

/// The target of those files, which the certificate derives from the source, and how many steps it
/// has. The files are read and refused in the order source, target, certificate.
pub(crate) fn derived<F: Files>(
    alloc: Global,
    names: Derivation<'_>,
    files: &F,
) -> Result<(TypedNet, u32), Refusal>
    ensures derived { IfOk result
        (λ r. IsDerivedIn (F.told files.now) (derivation_view names.entry) r.0 r.1) }
    ensures refused { IfErr result
        (HasNoDerivation (F.told files.now) (derivation_view names.entry)) }
{
    let source = match load(alloc, Role::Source, names.source, files) {
        Ok(source) => source,
        Err(refusal) => return Err(refusal),
    };
    let target = match load(alloc, Role::Target, names.target, files) {
        Ok(target) => target,
        Err(refusal) => return Err(refusal),
    };
    let steps = match load_steps(alloc, names.certificate, files) {
        Ok(steps) => steps,
        Err(refusal) => return Err(refusal),
    };
    match check(alloc, &source, &target, &steps) {
        Ok(accepted) => Ok((target, accepted.steps)),
        Err(fault) => Err(check_refusal(alloc, fault)?),
    }
}

/// The steps of the certificate file of that name.
pub(crate) fn load_steps<F: Files>(
    alloc: Global,
    name: &str,
    files: &F,
) -> Result<Vec<LawStep>, Refusal>
    ensures steps { IfOk result
        (λ steps. AreStepsOf (F.told files.now name.now) (map step_of steps.items)) }
    ensures refused { IfErr result (HasNoSteps (F.told files.now name.now)) }
{
    match read_file(alloc, Role::Certificate, name, files) {
        Ok(bytes) => steps_of(alloc, &bytes),
        Err(refusal) => Err(refusal),
    }
}

/// The steps of a certificate file with those bytes.
fn steps_of(alloc: Global, bytes: &[u8]) -> Result<Vec<LawStep>, Refusal>
    ensures steps { IfOk result (λ steps. AreStepsOf (Some bytes.now) (map step_of steps.items)) }
    ensures refused { IfErr result (HasNoSteps (Some bytes.now)) }
{
    match read_cert(alloc, bytes) {
        Ok(steps) => Ok(steps),
        Err(fault) => Err(text_refusal(alloc, Role::Certificate, &fault)?),
    }
}

/// The refusal of a certificate that doesn't lead from its source to its target.
pub(crate) fn check_refusal(alloc: Global, fault: CheckFault) -> Result<Refusal, Memory>
    ensures { IfOk result (RefusesCheck fault) }
{
    match &fault {
        CheckFault::Memory => Ok(Refusal::Memory),
        fault => Ok(Refusal::Line {
            status: 1,
            line: check_line(alloc, fault)?,
        }),
    }
}
