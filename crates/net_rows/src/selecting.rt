// Frozen networks that the numbers of a list name.

use crate::found::{Probe, all_are_found};
use leaf_table::LeafId;
use net_tree::Net;
use row_texts::texts::{parted, say, say_at, say_shown, type_in, value_in};
use sample_core::{Memory, Sample, Ty};
use state_core::{Env, Frozen, select};
use std::alloc::Global;

/// Tells which of three frozen networks the value selects, each by its number: `TYPE | VALUE`.
pub fn selected_told(alloc: Global, given: &str, out: &mut String) {
    let (ty, text) = parted(given);
    match type_in(alloc, ty) {
        Some(ty) => value_told(alloc, &ty, text, out),
        None => say(out, "no type"),
    }
}

fn value_told(alloc: Global, ty: &Ty, text: &str, out: &mut String) {
    match value_in(alloc, ty, text) {
        Some(value) => among_told(alloc, &value, out),
        None => say(out, "no value"),
    }
}

fn among_told(alloc: Global, numbers: &Sample, out: &mut String) {
    let nets = [Net::Old(0), Net::Old(1), Net::Old(2)];
    match frozen_each(alloc, &nets) {
        Ok(all) => {
            chosen_told(select(alloc, &all, numbers), out);
            drop(all);
        }
        Err(memory) => say_shown(out, &memory),
    }
    drop(nets);
}

/// The networks, each frozen before its first sample.
fn frozen_each<'n>(alloc: Global, nets: &'n [Net<LeafId>]) -> Result<Vec<Frozen<'n>>, Memory> {
    let mut all = Vec::new(alloc);
    for net in nets {
        let env = Env::nothing();
        all.push(Frozen::Unstarted { net, env })?;
    }
    Ok(all)
}

/// Says the numbers of the frozen networks that were selected.
fn chosen_told(chosen: Result<Vec<Frozen<'_>>, Memory>, out: &mut String) {
    match &chosen {
        Ok(all) => {
            for frozen in all.iter() {
                one_told(frozen, out);
            }
        }
        Err(memory) => say_shown(out, &memory),
    }
    drop(chosen);
}

fn one_told(frozen: &Frozen<'_>, out: &mut String) {
    match frozen {
        Frozen::Unstarted {
            net: Net::Old(k),
            ..
        } => say_at(out, ",", *k as usize),
        _ => say(out, ", another"),
    }
}

/// Values, and which of three frozen networks they select.
static SELECTIONS: &str = "
§ Numbers in their order, none for one outside, and one again for one that is repeated.
(List Int) | (list 2 0 -1 3 2) => , 2, 0, 2
(List Int) | (list) =>
(List Int) | (list 0 1 2) => , 0, 1, 2
(List Int) | (list 1 1 1) => , 1, 1, 1
(List Int) | (list 4294967296 -9223372036854775808 9223372036854775807 1) => , 1
§ At most 64 of them.
(List Int) | (list{64* 1}) => {64*, 1}
(List Int) | (list{65* 1}) => {64*, 1}
(List Int) | (list{63* 1} 7 0 2) => {63*, 1}, 0
(List Int) | (list{30000* 7} 2) => , 2
§ Values that hold no numbers.
Int | 1 =>
(List Bool) | (list true false) =>
(List (Event Int)) | (list (event 1)) =>
";

#[test]
fn frozen_networks_are_selected(rt: HostRuntime) {
    all_are_found(&rt, rt.alloc(), Probe::Selected, SELECTIONS);
}
