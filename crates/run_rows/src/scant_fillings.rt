// Whether a table is filled where allocations are refused.

use crate::found::{Probe, all_are_found};
use crate::runs::{Trial, trial_told};
use net_rows::typed::network;
use net_syntax::TypedNet;
use row_texts::ballast::{TRIES, Tally, spare_at, take_all};
use row_texts::texts::say;
use std::alloc::Global;

/// Says of the filling of a table for a file's network whether it fails to allocate at first, and
/// succeeds in the end.
pub fn filling_told(alloc: Global, text: &str, out: &mut String) {
    match network(alloc, text) {
        Some(net) => fillings_told(alloc, &net, out),
        None => say(out, "no network"),
    }
}

fn fillings_told(alloc: Global, net: &TypedNet, out: &mut String) {
    let mut tally = Tally::new();
    for attempt in 0..TRIES {
        let mut told = String::new(alloc);
        filled(alloc, net, spare_at(attempt, 400), &mut told);
        tally = tally.with(
            told.as_str(),
            "a row for each, a row for each",
            "memory, a row for each",
        );
        drop(told);
    }
    tally.tell(out);
}

/// Says whether a table takes a closure for each expression of the network where so many bytes are
/// left, and then with ample memory.
fn filled(alloc: Global, net: &TypedNet, spare: usize, out: &mut String) {
    // Room for what is told, so that it isn't refused.
    say(out, "a row for each, a row for each");
    out.clear();
    if let Ok(ballast) = take_all(alloc, spare) {
        trial_told(alloc, net, Trial::Rows, out);
        drop(ballast);
    }
    say(out, ", ");
    trial_told(alloc, net, Trial::Rows, out);
}

/// Networks, and whether a table is filled.
static FILLINGS: &str = "
§ A table with little memory.
yampa 1 input Int (>>> (arr (neg x)) (>>> (arr (add x 1)) (iPre (mul 2 3)))) => refused at first
";

#[test]
fn filling_a_table_is_refused_memory(rt: HostRuntime) {
    all_are_found(&rt, rt.alloc(), Probe::ScantFilling, FILLINGS);
}
