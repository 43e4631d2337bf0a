// What the optimiser makes of networks, and the steps that lead there.

use crate::checks::{refused_told, spare_behind};
use crate::found::{LawProbe, Probe, all_are_found};
use crate::typed::network;
use leaf_expr::Expr;
use net_opt::optimise;
use net_syntax::TypedNet;
use net_text::{print_cert, print_net};
use net_tree::{LawStep, Net};
use row_texts::ballast::{ROOM, take_all};
use row_texts::scarce::MOST_TRIES;
use row_texts::texts::{printed_told, say};
use sample_core::Memory;
use std::alloc::Global;

fn answer_told(
    alloc: Global,
    source: &TypedNet,
    answer: (Net<Expr>, Vec<LawStep>),
    target: &mut String,
    certificate: &mut String,
) {
    let (net, steps) = answer;
    printed_told(print_net(alloc, source.input(), &net), target);
    printed_told(print_cert(alloc, &steps), certificate);
    drop(net);
    drop(steps);
}

/// Says how what the optimiser makes of the network of a file is printed, whether it failed to
/// allocate before, each time with a little more left, and where the network isn't as it was, that
/// it isn't.
pub fn scant_optimised_told(alloc: Global, file: &str, out: &mut String) {
    match network(alloc, file) {
        Some(source) => scantly_told(alloc, &source, out),
        None => say(out, "no network"),
    }
}

fn scantly_told(alloc: Global, source: &TypedNet, out: &mut String) {
    let mut before = String::new(alloc);
    let mut behind = String::new(alloc);
    printed_told(print_net(alloc, source.input(), source.net()), &mut before);
    let room = take_all(alloc, ROOM);
    scant_tried(alloc, source, out);
    drop(room);
    printed_told(print_net(alloc, source.input(), source.net()), &mut behind);
    if behind.as_str() != before.as_str() {
        say(out, ", changed");
    }
}

fn scant_tried(alloc: Global, source: &TypedNet, out: &mut String) {
    for refused in 0..MOST_TRIES {
        let ballast = take_all(alloc, spare_behind(refused));
        let answer = optimise(alloc, source);
        drop(ballast);
        match answer {
            Err(Memory) => (),
            Ok(answer) => {
                both_told(alloc, source, answer, out);
                return refused_told(refused, out);
            }
        }
    }
    say(out, "always refused");
}

/// Says how the network and the certificate of an answer are printed.
fn both_told(
    alloc: Global,
    source: &TypedNet,
    answer: (Net<Expr>, Vec<LawStep>),
    out: &mut String,
) {
    let mut certificate = String::new(alloc);
    answer_told(alloc, source, answer, out, &mut certificate);
    say(out, certificate.as_str());
}

/// Networks, and what is made of them with little memory.
static SCANT: &str = "
§ Networks on which steps are taken, and one on which none is.
yampa 1 input Int (kSwitch time ‹event at one› (old 0)) => ‹numbers in›time␤laws 1␤(step L38 forward (at))␤, refused at first
‹sum doubled› => ‹numbers in›(arr (then (add x 1) (mul x 2)))␤laws 1␤(step L4 forward (at))␤, refused at first
yampa 1 input Int (arr (if (not false) x 1)) => ‹numbers in›(arr x)␤laws 1␤(step E15 forward (at 0 0))␤(step E10 forward (at 0))␤, refused at first
‹late switch› => ‹numbers in›(>>> (iPre 0) (switch ‹event above nine› ‹plus event›))␤laws 1␤, refused at first
yampa 1 input Int (>>> (arr {255*(neg }x{255*)}) ‹negative›) => ‹numbers in›(>>> (arr {255*(neg }x{255*)}) ‹negative›)␤laws 1␤, refused at first
";

#[test]
fn the_optimiser_is_refused_memory(rt: HostRuntime) {
    all_are_found(&rt, rt.alloc(), Probe::Law(LawProbe::ScantOptimised), SCANT);
}
