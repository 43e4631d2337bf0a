// Values: what is read at a type, where reading stops, and what is printed and copied.

use crate::found::{Probe, all_are_found};
use row_texts::texts::{parted, say, say_at, say_shown, type_in, value_in};
use sample_core::{
    Memory, Sample, SampleChild, SamplePair, Samples, Ty, ValueFault, has_type, push_value,
    read_value, same,
};
use std::alloc::Global;

/// Says what is read at the type: how it is printed, and its length; or why nothing is read.
pub fn value_told(alloc: Global, given: &str, out: &mut String) {
    let (ty, text) = parted(given);
    match type_in(alloc, ty) {
        Some(ty) => reading_told(
            alloc,
            read_value(alloc, text.as_bytes(), &ty),
            &ty,
            text,
            out,
        ),
        None => say(out, "no type"),
    }
}

/// Says what was read of the text at the type, or why nothing was.
pub fn reading_told(
    alloc: Global,
    read: Result<(Sample, usize), ValueFault>,
    ty: &Ty,
    text: &str,
    out: &mut String,
) {
    match read {
        Ok((sample, length)) => {
            sample_told(alloc, &sample, ty, text, out);
            say_at(out, " to", length);
            drop(sample);
        }
        Err(fault) => say_shown(out, &fault),
    }
}

/// Says how the value is printed, and what is wrong with it.
fn sample_told(alloc: Global, sample: &Sample, ty: &Ty, text: &str, out: &mut String) {
    if !has_type(sample, ty) {
        say(out, "not of its type ");
    }
    if !is_read_again(alloc, sample, ty, text) {
        say(out, "not the same when it is read again ");
    }
    if !is_copied(alloc, sample) {
        say(out, "not the same as its copy ");
    }
    drop(push_value(out, sample));
}

fn is_read_again(alloc: Global, sample: &Sample, ty: &Ty, text: &str) -> bool {
    match value_in(alloc, ty, text) {
        Some(again) => same(&again, sample),
        None => false,
    }
}

/// Whether the value's copy is the value, and likewise of its parts.
fn is_copied(alloc: Global, sample: &Sample) -> bool {
    match sample.try_copy(alloc) {
        Ok(copy) => {
            let right = same(&copy, sample) && parts_are_copied(sample);
            drop(copy);
            right
        }
        Err(Memory) => false,
    }
}

fn parts_are_copied(sample: &Sample) -> bool {
    match sample {
        Sample::Pair(parts) => pair_is_copied(parts),
        Sample::Event(a) => child_is_copied(a),
        Sample::List(all) => elements_are_copied(all),
        _ => true,
    }
}

fn pair_is_copied(parts: &SamplePair) -> bool {
    match parts.try_copy() {
        Ok(copy) => same(copy.first(), parts.first()) && same(copy.second(), parts.second()),
        Err(Memory) => false,
    }
}

fn child_is_copied(child: &SampleChild) -> bool {
    match child.try_copy() {
        Ok(copy) => same(copy.get(), child.get()),
        Err(Memory) => false,
    }
}

/// Whether the copy of a list's elements has as many.
fn elements_are_copied(all: &Samples) -> bool {
    match all.try_copy() {
        Ok(copy) => copy.as_slice().len() == all.as_slice().len(),
        Err(Memory) => false,
    }
}

/// Values of each form, where reading stops, and faults, which are told from the left.
static VALUES: &str = "
§ Numbers, and where reading them stops.
Int | 0 => 0 to 1
Int | -1 => -1 to 2
Int | -9 => -9 to 2
Int | -9223372036854775808 => -9223372036854775808 to 20
Int | 9223372036854775807 => 9223372036854775807 to 19
Int | 12 => 12 to 2
Int | 12 6 => 12 to 2
Int | 12(x => 12 to 2
Int | 12) => 12 to 2
Int |  => no value at 0
Int |  5 => no value at 0
Int | 007 => no value at 0
Int | -0 => no value at 0
Int | - => no value at 0
Int | +1 => no value at 0
Int | 5x => no value at 0
Int | (pairs 1 2) => no value at 0
Int | ( pair 1 2) => no value at 0
Int | True => no value at 0
Int | ) => no value at 0
Int | true => other type at 0
Int | none => other type at 0
Int | unit => other type at 0
Int | (pair) => other type at 0
Int | (list => other type at 0
Int | (event 5) => other type at 0
Int | 9223372036854775808 => number range at 0
Int | -9223372036854775809 => number range at 0
Int | {65000*9} => number range at 0
§ Values of each form of types, and faults in them. Faults are told from the left.
Unit | unit => unit to 4
Bool | false => false to 5
Bool | 9223372036854775808 => other type at 0
Int | 99999999999999999999 => number range at 0
(Event Int) | none => none to 4
(Event (Pair Int Int)) | (event (pair 1 2)) => (event (pair 1 2)) to 18
(List Int) | (list) => (list) to 6
(List Int) | (list 1 2) => (list 1 2) to 10
(List (Event Bool)) | (list none (event true)) => (list none (event true)) to 24
(Pair Int (List Int)) | (pair 1 (list 2 3)) => (pair 1 (list 2 3)) to 19
(Pair (List (Event Bool)) Unit) | (pair (list) unit) => (pair (list) unit) to 18
(Pair (List (Event Bool)) Unit) | (pair (list (event true) none (event false)) unit) => (pair (list (event true) none (event false)) unit) to 50
(List Int) | (list{13000* 1234}) => (list{13000* 1234}) to 65006
(List Int) | (list ) => no value at 6
(List Int) | (list(1) => no value at 5
(List Int) | (list 1 2,3) => no value at 9
(List Int) | (list 1 2 => no value at 9
(List Int) | (list 1 true) => other type at 8
(Pair Int (Event Int)) | (pair => no value at 5
(Pair Int (Event Int)) | (pair 5) => no value at 7
(Pair Int (Event Int)) | (pair 5 no => no value at 8
(Pair Int (Event Int)) | (pair 5  none) => no value at 8
(Pair Int (Event Int)) | (pair 5 none => no value at 12
(Pair Int (Event Int)) | (pair 5 none ) => no value at 12
(Pair Int (Event Int)) | (pair unit none) => other type at 6
(Pair Int (Event Int)) | (pair 5 7) => other type at 8
(Pair Int (Event Int)) | (pair 5 (event true)) => other type at 15
(Pair Int (Event Int)) | (pair 5 (event 99999999999999999999)) => number range at 15
{30*(Pair (List Int) }Int{30*)} | {30*(pair (list[1000* 7]) }7{30*)} => {30*(pair (list[1000* 7]) }7{30*)} to 60421
{31*(List }Int{31*)} | {31*(list }7{19999* 7}{31*)} => {31*(list }7{19999* 7}{31*)} to 40216
§ A value with every form of types in it, and faults in it.
(Pair (List (Event Int)) (Pair Bool Unit)) | (pair (list (event 05) => no value at 19
(Pair (List (Event Int)) (Pair Bool Unit)) | (pair (list (event 5 none) (pair true unit)) => no value at 20
(Pair (List (Event Int)) (Pair Bool Unit)) | (pair (list (event 5) nope) => no value at 22
(Pair (List (Event Int)) (Pair Bool Unit)) | (pair (list (event 5)) (pair true units)) => no value at 34
(Pair (List (Event Int)) (Pair Bool Unit)) | (pair (list (event 5)) (pair true unit) => no value at 39
(Pair (List (Event Int)) (Pair Bool Unit)) | (pair (list (event 5))(pair true unit)) => no value at 22
(Pair (List (Event Int)) (Pair Bool Unit)) | (pair (list  none) (pair true unit)) => no value at 12
(Pair (List (Event Int)) (Pair Bool Unit)) | (pair (list none ) ( => no value at 17
(Pair (List (Event Int)) (Pair Bool Unit)) | (pair (listnone) ( => no value at 6
(Pair (List (Event Int)) (Pair Bool Unit)) | (pair (list) (pair => no value at 18
(Pair (List (Event Int)) (Pair Bool Unit)) | (pair (list) (pair  => no value at 19
(Pair (List (Event Int)) (Pair Bool Unit)) | (pair (event none) => other type at 6
(Pair (List (Event Int)) (Pair Bool Unit)) | (pair (list 5) => other type at 12
(Pair (List (Event Int)) (Pair Bool Unit)) | (pair (list (event true) => other type at 19
(Pair (List (Event Int)) (Pair Bool Unit)) | (pair (list (event 5)) true) => other type at 23
(Pair (List (Event Int)) (Pair Bool Unit)) | (pair (list) (pair 1 unit)) => other type at 19
(Pair (List (Event Int)) (Pair Bool Unit)) | (pair (list) (pair true (list))) => other type at 24
(Pair (List (Event Int)) (Pair Bool Unit)) | (pair (list) (pair 99999999999999999999 unit)) => other type at 19
(Pair (List (Event Int)) (Pair Bool Unit)) | none => other type at 0
(Pair (List (Event Int)) (Pair Bool Unit)) | (pair (list (event 9223372036854775808)) => number range at 19
(Pair (List (Event Int)) (Pair Bool Unit)) | (pair (list (event 1) (event -9223372036854775809)) => number range at 29
(Pair (List (Event Int)) (Pair Bool Unit)) | (pair (list (event 9223372036854775808) 5) => number range at 19
(Pair (List (Event Int)) (Pair Bool Unit)) | (pair (list (event -0) 5) => no value at 19
(Pair (List (Event Int)) (Pair Bool Unit)) | (pair (list 5 (event -0)) => other type at 12
(Pair (List (Event Int)) (Pair Bool Unit)) | (pair (list (event 5) none (event -7)) (pair true unit)) => (pair (list (event 5) none (event -7)) (pair true unit)) to 56
(Pair (List (Event Int)) (Pair Bool Unit)) | (pair (list (event 5) none (event -7)) (pair true unit))  => (pair (list (event 5) none (event -7)) (pair true unit)) to 56
(Pair (List (Event Int)) (Pair Bool Unit)) | (pair (list (event 5) none (event -7)) (pair true unit))) => (pair (list (event 5) none (event -7)) (pair true unit)) to 56
(Pair (List (Event Int)) (Pair Bool Unit)) | (pair (list (event 5) none (event -7)) (pair true unit))5 => (pair (list (event 5) none (event -7)) (pair true unit)) to 56
(Pair (List (Event Int)) (Pair Bool Unit)) | (pair (list (event 5) none (event -7)) (pair true unit))x => (pair (list (event 5) none (event -7)) (pair true unit)) to 56
(Pair (List (Event Int)) (Pair Bool Unit)) | (pair (list (event 5) none (event -7)) (pair true unit))(list) => (pair (list (event 5) none (event -7)) (pair true unit)) to 56
(Pair (List (Event Int)) (Pair Bool Unit)) | (pair (list (event 5) none (event -7)) (pair true unit))␤ => (pair (list (event 5) none (event -7)) (pair true unit)) to 56
";

#[test]
fn values_are_read(rt: HostRuntime) {
    all_are_found(&rt, rt.alloc(), Probe::Value, VALUES);
}
