// Networks, and parts and positions of networks, that are built by calls.

use crate::found::{Probe, all_are_found};
use crate::network_types::{arrow_told, checked_told};
use leaf_expr::{Expr, Literal};
use net_syntax::Arrow;
use net_text::read_net;
use net_tree::{
    MOST_SIZE, Measures, Members, Net, NetChild, Position, height, measured, push_position, weight,
};
use net_types::check_types;
use row_texts::texts::{numbered, parted, say, say_at, say_shown};
use sample_core::{Memory, Ty};
use std::alloc::Global;

/// Tells a measure or the types of `(arr x)`, put so many times before itself, at an input that is
/// a number: `KIND COUNT`.
pub fn doubled_told(alloc: Global, given: &str, out: &mut String) {
    let (kind, times) = numbered(given);
    match (doubled(alloc, times), kind) {
        (Some(net), "types") => typed_told(alloc, net, out),
        (Some(net), _) => measure_told(alloc, kind, &net, out),
        (None, _) => say(out, "memory"),
    }
}

/// Tells a measure of a file's network, whatever its types: `KIND | FILE`.
pub fn measured_told(alloc: Global, given: &str, out: &mut String) {
    let (kind, file) = parted(given);
    match read_net(alloc, file.as_bytes()) {
        Ok((input, net)) => {
            drop(input);
            measure_told(alloc, kind, &net, out);
            drop(net);
        }
        Err(fault) => say_shown(out, &fault),
    }
}

fn typed_told(alloc: Global, net: Box<Net<Expr>>, out: &mut String) {
    let checked = check_types(alloc, Ty::Int, Box::into_inner(net));
    checked_told(alloc, checked, out);
}

fn measure_told(alloc: Global, kind: &str, net: &Net<Expr>, out: &mut String) {
    match kind {
        "weight" => number_told(weight(alloc, net), out),
        "height" => number_told(height(alloc, net), out),
        _ => oversized_told(alloc, net, out),
    }
}

/// Says whether the network's size is over the greatest that is walked.
fn oversized_told(alloc: Global, net: &Net<Expr>, out: &mut String) {
    let most = Measures {
        size: MOST_SIZE,
        weight: u32::MAX,
        height: u32::MAX,
    };
    match measured(alloc, net, &most) {
        Ok(Some(_)) => say(out, "no"),
        Ok(None) => say(out, "yes"),
        Err(memory) => say_shown(out, &memory),
    }
}

fn number_told(number: Result<u32, Memory>, out: &mut String) {
    match number {
        Ok(number) => drop(write!(out, "{number}")),
        Err(memory) => say_shown(out, &memory),
    }
}

/// `(arr x)`, put so many times before itself: the halves are shared.
fn doubled(alloc: Global, times: usize) -> Option<Box<Net<Expr>>> {
    let mut net = Box::new(alloc, Net::Arr(Expr::Input)).ok()?;
    for _ in 0..times {
        net = twice(alloc, Box::into_inner(net))?;
    }
    Some(net)
}

fn twice(alloc: Global, net: Net<Expr>) -> Option<Box<Net<Expr>>> {
    let half = NetChild::new(alloc, net).ok()?;
    let copy = half.try_copy().ok()?;
    Box::new(alloc, Net::Seq(copy, half)).ok()
}

/// Says the types of a network of that form with that number, between two networks, at an input
/// that is a number: `FORM NUMBER`.
pub fn built_told(alloc: Global, given: &str, out: &mut String) {
    let (form, number) = numbered(given);
    let net = match form {
        "parB" => members(alloc, number, out),
        _ => Box::new(alloc, numbered_net(form, number)).ok(),
    };
    match net.and_then(|net| between(alloc, Box::into_inner(net))) {
        Some(net) => typed_told(alloc, net, out),
        None => say(out, "memory"),
    }
}

/// A network of that form with that number.
fn numbered_net(form: &str, number: usize) -> Net<Expr> {
    if form == "old" {
        return Net::Old(u32::try_from(number).unwrap_or(0));
    }
    let constant = Expr::Literal(Literal::Int(7));
    match form {
        "after" => Net::After(number as u64, constant),
        "repeatedly" => Net::Repeatedly(number as u64, constant),
        _ => Net::Delay(number as u64, constant),
    }
}

/// `(parB time .. time)`, with so many members, which are a copy of others. Says how many the copy
/// has.
fn members(alloc: Global, count: usize, out: &mut String) -> Option<Box<Net<Expr>>> {
    let mut all = Vec::new(alloc);
    for _ in 0..count {
        drop(all.push(Net::Time));
    }
    let all = Members::new(alloc, all).ok()?;
    let copy = all.try_copy().ok()?;
    say_at(out, "members", copy.as_slice().len());
    say(out, ": ");
    Box::new(alloc, Net::Par(copy)).ok()
}

/// `(>>> time (>>> NETWORK time))`
fn between(alloc: Global, net: Net<Expr>) -> Option<Box<Net<Expr>>> {
    let middle = NetChild::new(alloc, net).ok()?;
    let first = NetChild::new(alloc, Net::Time).ok()?;
    let last = first.try_copy().ok()?;
    let rest = NetChild::new(alloc, Net::Seq(middle, last)).ok()?;
    Box::new(alloc, Net::Seq(first, rest)).ok()
}

/// Says how a part is printed that is made by a call, by its name.
pub fn part_told(alloc: Global, given: &str, out: &mut String) {
    let made = match given {
        "types" => return copied_arrow_told(alloc, out),
        "root" => Position::of_node(alloc, &[]),
        "child" => Position::of_child(alloc, &[0, 1], 10),
        _ => Position::of_node(alloc, &[0, 1, 10, 4_294_967_295]),
    };
    if let Ok(position) = made {
        drop(push_position(out, &position));
    }
}

/// Tells a copy of the types of a frozen network.
fn copied_arrow_told(alloc: Global, out: &mut String) {
    let types = Arrow {
        input: Ty::Int,
        output: Ty::Bool,
    };
    match types.try_copy(alloc) {
        Ok(copy) => {
            arrow_told(&copy.input, &copy.output, out);
            drop(copy);
        }
        Err(memory) => say_shown(out, &memory),
    }
    drop(types);
}

/// How often `(arr x)` is put before itself, and its weight and height, which are counted up to
/// one more than their limits, whether it is oversized, or its types.
static DOUBLED: &str = "
§ Shared halves.
weight 18 => 524287
weight 60 => 1000001
height 18 => 19
oversized 18 => no
oversized 60 => yes
types 18 => Int -> Int weight 524287 height 19
types 19 => too heavy
types 60 => too heavy
";

/// Networks whose frozen ones are resumed twice at each level, measured without their types.
static MEASURED: &str = "
§ Weights and heights up to the limit and over it.
weight | ‹heaviest› => 1000000
height | ‹heaviest› => 52
weight | yampa 1 input Int ‹first frozen› {79*‹next frozen› }(old 79){80*)} => 1000001
height | yampa 1 input Int ‹first frozen› {79*‹next frozen› }(old 79){80*)} => 240
§ What may run several times in a sample counts as often.
weight | yampa 2 input Int (--> 1 (>-- 2 time)) => 3
weight | ‹with events› ‹late stages› => 8
weight | yampa 2 input Int {18*(drSwitch time }time{18*)} => 786430
weight | yampa 2 input Int {19*(drSwitch time }time{19*)} => 1000001
weight | yampa 2 input Int {255*(drSwitch time }time{255*)} => 1000001
height | yampa 2 input Int {19*(drSwitch time }time{19*)} => 20
weight | yampa 2 input Int (rpSwitchB (col) x time) => 65
weight | yampa 2 input Int (rpSwitchB (col{65* time}) x time) => 65
weight | yampa 2 input Int (rpSwitchB (col time (>>> time time)) x time) => 193
weight | yampa 2 input Int {3*(rpSwitchB (col time) x }time{3*)} => 266305
weight | yampa 2 input Int {3*(rpSwitchB (col }time{3*) x time)} => 266305
weight | yampa 2 input Int {4*(rpSwitchB (col }time{4*) x time)} => 1000001
height | yampa 2 input Int {4*(rpSwitchB (col }time{4*) x time)} => 5
height | yampa 2 input Int (rpSwitchB (col time (>>> time time)) x time) => 3
";

/// Forms with numbers at the ends of their ranges and past them.
static BUILT: &str = "
§ Numbers at the ends of their ranges, and some that no file can have, two levels deep.
delay 0 => number at (at 1 0)
delay 1 => Int -> Int weight 5 height 3
delay 4096 => Int -> Int weight 5 height 3
delay 4097 => number at (at 1 0)
after 0 => Int -> Int weight 5 height 3
after 4611686018427387904 => Int -> Int weight 5 height 3
after 4611686018427387905 => number at (at 1 0)
after 18446744073709551615 => number at (at 1 0)
repeatedly 0 => number at (at 1 0)
repeatedly 1 => Int -> Int weight 5 height 3
repeatedly 4611686018427387904 => Int -> Int weight 5 height 3
repeatedly 4611686018427387905 => number at (at 1 0)
old 0 => no old at (at 1 0)
old 4294967295 => no old at (at 1 0)
§ Members, two levels deep.
parB 0 => members 0: members at (at 1 0)
parB 1 => members 1: Int -> Int weight 6 height 4
parB 64 => members 64: Int -> Int weight 69 height 4
parB 65 => members 65: members at (at 1 0)
";

/// Positions and types by their names.
static PARTS: &str = "
§ Positions, and the types of a frozen network.
root => (at)
child => (at 0 1 10)
deep => (at 0 1 10 4294967295)
types => Int -> Bool
";

#[test]
fn built_networks_are_typed(rt: HostRuntime) {
    all_are_found(&rt, rt.alloc(), Probe::Doubled, DOUBLED);
    all_are_found(&rt, rt.alloc(), Probe::Measured, MEASURED);
    all_are_found(&rt, rt.alloc(), Probe::Built, BUILT);
    all_are_found(&rt, rt.alloc(), Probe::Part, PARTS);
}
