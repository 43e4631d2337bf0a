// Certificates, and what their check answers.

use crate::certificates::steps_in;
use crate::found::{LawProbe, Probe, all_are_found};
use crate::typed::network;
use cert_check::{Accepted, CheckFault, check};
use net_syntax::TypedNet;
use net_text::print_net;
use net_tree::LawStep;
use row_texts::ballast::{ROOM, take_all};
use row_texts::scarce::MOST_TRIES;
use row_texts::texts::{parted, printed_told, say, say_at, say_shown};
use std::alloc::Global;

/// What is tried of a certificate.
#[derive(Clone, Copy)]
enum Asked {
    /// What its check answers.
    Check,
    /// What it answers where allocations fail in turn.
    ScantCheck,
}

/// A certificate with its source and its target.
#[derive(Clone, Copy)]
struct Derivation<'a> {
    source: &'a TypedNet,
    target: &'a TypedNet,
    steps: &'a [LawStep],
}

/// Says what the check of a certificate answers: `SOURCE | TARGET | CERTIFICATE`.
pub fn check_told(alloc: Global, given: &str, out: &mut String) {
    source_told(alloc, given, Asked::Check, out);
}

/// Says what the check answers where allocations fail in turn, and whether any was.
pub fn scant_check_told(alloc: Global, given: &str, out: &mut String) {
    source_told(alloc, given, Asked::ScantCheck, out);
}

fn source_told(alloc: Global, given: &str, asked: Asked, out: &mut String) {
    let (file, behind) = parted(given);
    match network(alloc, file) {
        Some(source) => target_told(alloc, &source, behind, asked, out),
        None => say(out, "no source"),
    }
}

fn target_told(alloc: Global, source: &TypedNet, given: &str, asked: Asked, out: &mut String) {
    let (file, certificate) = parted(given);
    match network(alloc, file) {
        Some(target) => steps_told(alloc, source, &target, certificate, asked, out),
        None => say(out, "no target"),
    }
}

fn steps_told(
    alloc: Global,
    source: &TypedNet,
    target: &TypedNet,
    certificate: &str,
    asked: Asked,
    out: &mut String,
) {
    match steps_in(alloc, certificate) {
        Ok(steps) => {
            let derivation = Derivation {
                source,
                target,
                steps: &steps,
            };
            asked_told(alloc, derivation, asked, out);
            drop(steps);
        }
        Err(fault) => say_shown(out, &fault),
    }
}

fn asked_told(alloc: Global, derivation: Derivation<'_>, asked: Asked, out: &mut String) {
    match asked {
        Asked::Check => answer_told(checked(alloc, derivation), out),
        Asked::ScantCheck => scantly_told(alloc, derivation, out),
    }
}

fn checked(alloc: Global, derivation: Derivation<'_>) -> Result<Accepted, CheckFault> {
    check(
        alloc,
        derivation.source,
        derivation.target,
        derivation.steps,
    )
}

/// Says what a check answered.
fn answer_told(answer: Result<Accepted, CheckFault>, out: &mut String) {
    match answer {
        Ok(accepted) => say_at(out, "accepted", accepted.steps as usize),
        Err(fault) => say_shown(out, &fault),
    }
}

/// Says what a check answers, whether checks were refused memory before it, each with a little more
/// left, and where the networks aren't as they were, that they aren't.
fn scantly_told(alloc: Global, derivation: Derivation<'_>, out: &mut String) {
    let mut before = String::new(alloc);
    let mut behind = String::new(alloc);
    both_told(alloc, derivation, &mut before);
    let room = take_all(alloc, ROOM);
    scant_tried(alloc, derivation, out);
    drop(room);
    both_told(alloc, derivation, &mut behind);
    if behind.as_str() != before.as_str() {
        say(out, ", changed");
    }
}

fn both_told(alloc: Global, derivation: Derivation<'_>, out: &mut String) {
    printed_told(
        print_net(alloc, derivation.source.input(), derivation.source.net()),
        out,
    );
    printed_told(
        print_net(alloc, derivation.target.input(), derivation.target.net()),
        out,
    );
}

fn scant_tried(alloc: Global, derivation: Derivation<'_>, out: &mut String) {
    for refused in 0..MOST_TRIES {
        let ballast = take_all(alloc, spare_behind(refused));
        let answer = checked(alloc, derivation);
        drop(ballast);
        match answer {
            Err(CheckFault::Memory) => (),
            answer => {
                answer_told(answer, out);
                return refused_told(refused, out);
            }
        }
    }
    say(out, "always refused");
}

/// The bytes that are left to a call behind so many tries that were refused memory: so few more at
/// each that no allocation is passed over.
pub fn spare_behind(refused: usize) -> usize {
    refused.saturating_mul(16)
}

/// Says of a call that answered in the end whether it failed to allocate before, so many times.
pub fn refused_told(refused: usize, out: &mut String) {
    match refused {
        0 => say(out, ", never refused"),
        _ => say(out, ", refused at first"),
    }
}

/// Sources, targets and certificates, and what is answered.
static CHECKS: &str = "
§ A step that is taken, steps at positions that aren't there, and no step.
‹sum doubled› | ‹sum doubled at once› | laws 1 (step L4 forward (at)) => accepted 1
‹sum doubled› | ‹sum doubled at once› | laws 1 (step L4 forward (at 5)) => no position at step 1
‹sum doubled› | ‹sum doubled at once› | laws 1 (step L4 forward (at 65535)) => no position at step 1
‹sum doubled› | ‹sum doubled at once› | laws 1 => ends elsewhere
‹sum doubled› | ‹sum doubled› | laws 1 => accepted 0
§ A law that doesn't answer: the left side isn't there, a tree too many or too few, a law of the other kind.
‹late switch› | ‹late switch› | laws 1 (step L27 forward (at)) => no match at step 1
‹sum doubled› | ‹sum doubled at once› | laws 1 (step L4 forward (at)) (step L4 forward (at)) => no match at step 2
‹sum doubled› | ‹sum doubled at once› | laws 1 (step L4 forward (at) time) => no match at step 1
‹sum doubled› | ‹sum doubled› | laws 1 (step L1 backward (at)) => no match at step 1
‹sum doubled› | ‹sum doubled› | laws 1 (step E1 backward (at) (then x 1)) => no match at step 1
‹sum doubled› | ‹sum doubled› | laws 1 (step L1 forward (at 0 0)) => no match at step 1
§ Steps in an expression.
‹same› | ‹same› | laws 1 (step E7 backward (at 0) (fst (pair x (p 0)))) => ill typed at step 1
‹same› | ‹same› | laws 1 (step E7 backward (at 0) (fst (pair x 1))) => ends elsewhere
‹same› | ‹same› | laws 1 (step E7 backward (at 0) (fst (pair x 1))) (step E7 forward (at 0)) => accepted 2
‹same› | ‹same› | laws 1 (step E7 backward (at 0) (fst (pair x 1))) (step E7 backward (at 0 0 1) (fst (pair 1 (p 0)))) => ill typed at step 2
§ Laws of version 2, and laws of version 1 in forms of version 2.
yampa 2 input Int (--> 1 (--> 2 time)) | yampa 2 input Int (--> 1 time) | laws 2 (step L43 forward (at)) => accepted 1
yampa 2 input Int (--> 1 (--> 2 time)) | yampa 2 input Int (--> 1 time) | laws 1 (step L43 forward (at)) => syntax at byte 13
yampa 2 input Int (--> 1 (--> 2 time)) | yampa 2 input Int (--> 2 time) | laws 2 (step L43 forward (at)) => ends elsewhere
yampa 2 input Int (--> 1 time) | yampa 2 input Int (--> 1 (--> 2 time)) | laws 2 (step L43 backward (at) (--> 1 (--> 2 time))) => accepted 1
yampa 2 input Int (--> 1 time) | yampa 2 input Int (--> 1 time) | laws 2 (step L43 backward (at) (--> 1 (--> true time))) => ill typed at step 1
yampa 2 input Int (>-- 3 (arr (add x 1))) | yampa 2 input Int (--> (then 3 (add x 1)) (arr (add x 1))) | laws 2 (step L44 forward (at)) => accepted 1
yampa 2 input Int (>-- true (arr (if x 1 2))) | yampa 2 input Int time | laws 2 (step L44 forward (at)) => no source
yampa 2 input Int (>>> (arr (pair x (none Int))) (rpSwitchB (col time integral) ‹none kept› time)) | yampa 1 input Int (>>> (arr x) (parB time integral)) | laws 2 (step L46 forward (at)) => accepted 1
yampa 1 input Int (>>> (arr x) (parB time)) | yampa 1 input Int time | laws 2 (step L46 backward (at) (>>> (arr (pair x (none Int))) (rpSwitchB (col time) ‹none kept› (arr true)))) => ill typed at step 1
‹with events› (rSwitch (arr x) (>>> (arr (pair x (event x))) (>>> ‹late restart› (arr (mul x (p 0)))))) | ‹with events› (rSwitch (arr x) (>>> (arr (pair x (event x))) (drSwitch (>>> (iPre 0) (arr (mul x (p 0)))) (>>> (iPre (p 0)) (arr (mul x (p 0))))))) | laws 2 (step L45 forward (at 1 1)) => accepted 1
yampa 2 input Int (--> 1 (>>> (arr x) time)) | yampa 2 input Int (--> 1 time) | laws 1 (step L1 forward (at 1)) => accepted 1
‹with events› (rpSwitchB (col (>>> (arr x) time)) (pair (list Int) (list Int (fst (pair x 1)))) (>>> time (arr x))) | ‹with events› (rpSwitchB (col time) (pair (list Int) (list Int x)) time) | laws 1 (step L1 forward (at 0)) (step E7 forward (at 1 1 0)) (step L2 forward (at 2)) => accepted 3
§ What is answered before the first step.
‹same› | ‹same› | laws 1{10000* (step E7 backward (at 0) (fst (pair x (p 0))))} => ill typed at step 1
‹same› | ‹same› | laws 1{10001* (step E7 backward (at 0) (fst (pair x (p 0))))} => too many steps
‹same› | yampa 1 input Bool (arr x) | laws 1{10001* (step L4 forward (at 5))} => inputs differ
§ Networks past the limits.
yampa 1 input Int (arr {255*(neg }x{255*)}) | yampa 1 input Int (arr {255*(neg }x{255*)}) | laws 1 (step E7 backward (at{256* 0}) (fst (pair x 1))) => ill typed at step 1
‹heaviest› | ‹heaviest› | laws 1 (step L1 backward (at 0) (>>> (arr x) (arr x))) => ill typed at step 1
‹heaviest› | ‹heaviest› | laws 1 => accepted 0
§ As many steps as a certificate may have.
‹successor› | ‹successor› | laws 1{10000* (step E16 forward (at 0))} => accepted 10000
‹successor› | ‹successor› | laws 1{9999* (step E16 forward (at 0))} => ends elsewhere
";

/// Sources, targets and certificates, and what is answered with little memory.
static SCANT_CHECKS: &str = "
§ Checks with little memory.
‹sum doubled› | ‹sum doubled at once› | laws 1 (step L4 forward (at)) => accepted 1, refused at first
‹sum doubled› | ‹sum doubled at once› | laws 1 (step L4 forward (at 5)) => no position at step 1, never refused
‹sum doubled› | ‹sum doubled at once› | laws 1 => ends elsewhere, never refused
‹same› | ‹same› | laws 1 (step E7 backward (at 0) (fst (pair x (p 0)))) => ill typed at step 1, refused at first
‹same› | ‹same› | laws 1 (step E7 backward (at 0) (fst (pair x 1))) (step E7 forward (at 0)) => accepted 2, refused at first
‹same› | ‹same› | laws 1{10001* (step E7 backward (at 0) (fst (pair x (p 0))))} => too many steps, never refused
‹same› | yampa 1 input Bool (arr x) | laws 1 => inputs differ, never refused
";

#[test]
fn certificates_are_checked(rt: HostRuntime) {
    all_are_found(&rt, rt.alloc(), Probe::Law(LawProbe::Check), CHECKS);
}

#[test]
fn checks_are_refused_memory(rt: HostRuntime) {
    all_are_found(
        &rt,
        rt.alloc(),
        Probe::Law(LawProbe::ScantCheck),
        SCANT_CHECKS,
    );
}
