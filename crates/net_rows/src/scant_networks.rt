// What calls on whole networks answer where allocations are refused.

use crate::found::{Probe, all_are_found};
use crate::needs::needs_told;
use crate::network_types::checked_told;
use crate::networks::reading_told;
use crate::typed::network;
use leaf_expr::Expr;
use net_syntax::{TypedNet, leaves};
use net_text::{print_net, read_net};
use net_tree::Net;
use net_types::check_types;
use row_texts::ballast::{Ballast, ROOM, Tally, take_all};
use row_texts::texts::{parted, printed_told, say};
use sample_core::{Memory, Ty};
use std::alloc::Global;

/// A network, whose input is a number, and the text of its file.
#[derive(Clone, Copy)]
struct Given<'a> {
    net: &'a TypedNet,
    text: &'a str,
}

/// Says what the call of that name answers where only so much memory is left to it.
fn told(alloc: Global, name: &str, given: Given<'_>, ballast: Option<Ballast>, out: &mut String) {
    match name {
        "reading a network" => net_read(alloc, given, ballast, out),
        "printing a network" => net_printed(alloc, given, ballast, out),
        "checking a network" => net_checked(alloc, given, ballast, out),
        _ => needs_found(alloc, given, ballast, out),
    }
}

fn net_read(alloc: Global, given: Given<'_>, ballast: Option<Ballast>, out: &mut String) {
    let read = read_net(alloc, given.text.as_bytes());
    drop(ballast);
    reading_told(alloc, read, out);
}

fn net_printed(alloc: Global, given: Given<'_>, ballast: Option<Ballast>, out: &mut String) {
    let printed = print_net(alloc, given.net.input(), given.net.net());
    drop(ballast);
    printed_told(printed, out);
}

fn net_checked(alloc: Global, given: Given<'_>, ballast: Option<Ballast>, out: &mut String) {
    match given.net.net().try_copy(alloc) {
        Ok(copy) => copy_checked(alloc, copy, ballast, out),
        Err(Memory) => {
            drop(ballast);
            say(out, "no copy")
        }
    }
}

fn copy_checked(alloc: Global, net: Net<Expr>, ballast: Option<Ballast>, out: &mut String) {
    let checked = check_types(alloc, Ty::Int, net);
    drop(ballast);
    checked_told(alloc, checked, out);
}

fn needs_found(alloc: Global, given: Given<'_>, ballast: Option<Ballast>, out: &mut String) {
    let needs = leaves(alloc, given.net);
    drop(ballast);
    needs_told(needs, out);
}

/// How many times a call is tried, so that allocations are refused one behind the other.
const ATTEMPTS: usize = 600;

/// The bytes that are left at an attempt, a few more at each; behind the last ample memory.
fn spare_at(attempt: usize) -> usize {
    if attempt < ATTEMPTS {
        attempt.saturating_mul(16)
    } else {
        1_000_000
    }
}

/// Says what the tries of the call of that name answer.
fn tally_told(alloc: Global, name: &str, given: Given<'_>, out: &mut String) {
    let mut ample = String::new(alloc);
    told(alloc, name, given, None, &mut ample);
    let mut tally = Tally::new();
    let room = take_all(alloc, ROOM);
    for attempt in 0..ATTEMPTS + 1 {
        let mut scant = String::new(alloc);
        if let Ok(ballast) = take_all(alloc, spare_at(attempt)) {
            told(alloc, name, given, Some(ballast), &mut scant);
        }
        tally = tally.with(scant.as_str(), ample.as_str(), "memory");
        drop(scant);
    }
    drop(room);
    tally.tell(out);
}

/// Says whether the call of that name on a file's network fails to allocate at first, and answers
/// in the end: `CALL | FILE`.
pub fn scant_network_told(alloc: Global, given: &str, out: &mut String) {
    let (name, text) = parted(given);
    match network(alloc, text) {
        Some(net) => tally_told(alloc, name, Given { net: &net, text }, out),
        None => say(out, "no network"),
    }
}

/// Calls by their names, and files.
static CALLS: &str = "
§ Calls on networks with little memory.
reading a network | yampa 1 input Int ‹forms› => refused at first
printing a network | yampa 1 input Int ‹forms› => refused at first
reading a network | yampa 2 input Int ‹new forms› => refused at first
printing a network | yampa 2 input Int ‹new forms› => refused at first
";

/// Checks by their names, and files.
static CHECKS: &str = "
§ Checks of networks with little memory.
checking a network | yampa 1 input Int ‹forms› => refused at first
finding the needs | yampa 1 input Int ‹forms› => refused at first
checking a network | yampa 2 input Int ‹new forms› => refused at first
finding the needs | yampa 2 input Int ‹new forms› => refused at first
";

#[test]
fn calls_on_networks_are_refused_memory(rt: HostRuntime) {
    all_are_found(&rt, rt.alloc(), Probe::ScantNetwork, CALLS);
}

#[test]
fn checks_of_networks_are_refused_memory(rt: HostRuntime) {
    all_are_found(&rt, rt.alloc(), Probe::ScantNetwork, CHECKS);
}
