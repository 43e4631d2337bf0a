// What stands at positions of networks, and networks with another tree there.

use crate::certificates::steps_in;
use crate::found::{LawProbe, Probe, all_are_found};
use crate::network_types::typed_told;
use crate::typed::network;
use leaf_expr::push_expr;
use net_syntax::{Place, TypedNet, at, replace, type_at};
use net_text::push_net;
use net_tree::{LawStep, Position, Tree, TreeRef, same_net};
use net_types::{Rewritten, rewrite};
use row_texts::texts::{parted, say, say_at, say_shown};
use sample_core::{Memory, Ty, push_type};
use std::alloc::Global;

/// What is tried at a position of a network.
#[derive(Clone, Copy)]
enum Trial {
    /// What stands there, and its type.
    Place,
    /// The network with another tree there.
    Replacing,
    /// The typed network with another tree there, where types and limits are kept.
    Rewriting,
}

/// Says what stands at a position of a file's network, how many parameters and frozen networks are
/// in scope there, and its type: `FILE | E POSITION`.
pub fn place_told(alloc: Global, given: &str, out: &mut String) {
    net_told(alloc, given, Trial::Place, out);
}

/// Says how a file's network is printed with another tree at a position: `FILE | LETTER POSITION
/// TREE`, with the letter E before an expression, and L before a network.
pub fn replaced_told(alloc: Global, given: &str, out: &mut String) {
    net_told(alloc, given, Trial::Replacing, out);
}

/// Says whether the tree is put there in the typed network, how that is then printed, and its
/// types, weight and height: `FILE | LETTER POSITION TREE`.
pub fn rewritten_told(alloc: Global, given: &str, out: &mut String) {
    net_told(alloc, given, Trial::Rewriting, out);
}

fn net_told(alloc: Global, given: &str, trial: Trial, out: &mut String) {
    let (file, behind) = parted(given);
    match network(alloc, file) {
        Some(net) => step_told(alloc, &net, behind, trial, out),
        None => say(out, "no network"),
    }
}

/// The position and the tree are read as those of a step.
fn step_told(alloc: Global, net: &TypedNet, given: &str, trial: Trial, out: &mut String) {
    let (letter, behind) = given.split_once(' ').unwrap_or((given, ""));
    let mut text = String::new(alloc);
    drop(write!(text, "laws 2 (step {letter}1 forward {behind})"));
    match steps_in(alloc, text.as_str()) {
        Ok(steps) => {
            if let Some(step) = steps.first() {
                tried(alloc, net, step, trial, out);
            }
            drop(steps);
        }
        Err(fault) => say_shown(out, &fault),
    }
}

fn tried(alloc: Global, net: &TypedNet, step: &LawStep, trial: Trial, out: &mut String) {
    match (trial, &step.given) {
        (Trial::Place, _) => {
            stands_told(net, &step.position, out);
            type_told(type_at(alloc, net, &step.position), out)
        }
        (Trial::Replacing, Some(tree)) => other_told(alloc, net, &step.position, tree, out),
        (Trial::Rewriting, Some(tree)) => copy_told(alloc, net, &step.position, tree, out),
        (_, None) => say(out, "no tree"),
    }
}

/// Says what stands at the position, and what is in scope there.
fn stands_told(net: &TypedNet, position: &Position, out: &mut String) {
    match at(net.net(), position) {
        Some(place) => found_told(place, out),
        None => say(out, "nothing"),
    }
}

fn found_told(place: Place<'_>, out: &mut String) {
    match place.tree {
        TreeRef::Net(net) => drop(push_net(out, net)),
        TreeRef::Expr(expr) => drop(push_expr(out, expr)),
    }
    say_at(out, " params", place.params as usize);
    say_at(out, " olds", place.olds as usize);
}

/// Says the type, if there is one.
fn type_told(found: Result<Option<Ty>, Memory>, out: &mut String) {
    match found {
        Ok(Some(ty)) => {
            say(out, ": ");
            drop(push_type(out, &ty));
            drop(ty)
        }
        Ok(None) => say(out, ": no type"),
        Err(Memory) => say(out, " memory"),
    }
}

/// Says how the network with the tree at the position is printed.
fn other_told(alloc: Global, net: &TypedNet, position: &Position, tree: &Tree, out: &mut String) {
    match replace(alloc, net.net(), position, tree) {
        Ok(Some(other)) => {
            drop(push_net(out, &other));
            drop(other);
        }
        Ok(None) => say(out, "nothing"),
        Err(memory) => say_shown(out, &memory),
    }
}

/// Puts the tree into a copy of the network.
fn copy_told(alloc: Global, net: &TypedNet, position: &Position, tree: &Tree, out: &mut String) {
    match net.try_copy(alloc) {
        Ok(copy) => put_told(alloc, net, copy, position, tree, out),
        Err(memory) => say_shown(out, &memory),
    }
}

/// Says what the rewriting of the copy comes to, and where the copy is the network as it was, that
/// it is.
fn put_told(
    alloc: Global,
    net: &TypedNet,
    mut copy: TypedNet,
    position: &Position,
    tree: &Tree,
    out: &mut String,
) {
    match tree.try_copy(alloc) {
        Ok(tree) => answer_told(rewrite(alloc, &mut copy, position, tree), &copy, out),
        Err(memory) => say_shown(out, &memory),
    }
    if same_net(copy.net(), net.net()) {
        say(out, ", as before");
    }
    drop(copy);
}

fn answer_told(answer: Result<Rewritten, Memory>, net: &TypedNet, out: &mut String) {
    match answer {
        Ok(Rewritten::Done) => {
            drop(push_net(out, net.net()));
            say(out, ": ");
            typed_told(net, out)
        }
        Ok(Rewritten::NoPosition) => say(out, "no position"),
        Ok(Rewritten::IllTyped) => say(out, "ill typed"),
        Err(memory) => say_shown(out, &memory),
    }
}

/// Networks and positions, and what stands there, what is in scope there, and its type.
static PLACES: &str = "
§ The whole, and parts of networks and of expressions.
‹increment› | E (at) => (>>> (arr (add x 1)) (iPre 0)) params 0 olds 0: Int
‹increment› | E (at 1 0) => 0 params 0 olds 0: Int
‹increment› | E (at 2) => nothing: no type
‹increment› | E (at 0 0 1) => 1 params 0 olds 0: Int
‹increment› | E (at 0 0 1 0) => nothing: no type
yampa 1 input Int (arr (then (less x 1) (not x))) | E (at 0 1 0) => x params 0 olds 0: Bool
yampa 1 input (Event Bool) (arr (on x 1 (if (snd x) 2 3))) | E (at 0 2 0 0) => x params 0 olds 0: (Pair (Event Bool) Bool)
yampa 1 input Int (arr (list Int x (nth (list Int 5) 6 7))) | E (at 0 1 2) => 7 params 0 olds 0: Int
§ Forms without networks, loops and members.
yampa 1 input Int ‹forms› | E (at 3) => time params 0 olds 0: Int
yampa 1 input Int ‹forms› | E (at 3 0) => nothing: no type
yampa 1 input Int ‹forms› | E (at 6 1 0 1) => 0 params 0 olds 0: Int
yampa 1 input Int ‹forms› | E (at 7 0 0) => unit params 0 olds 0: Unit
yampa 1 input Int ‹forms› | E (at 9 1 0) => (first (arr (neg x))) params 0 olds 0: (Pair Int Bool)
yampa 1 input Int ‹forms› | E (at 10 1) => (arr (pair (add (fst x) (snd x)) (fst x))) params 0 olds 0: (Pair Int Int)
yampa 1 input Int ‹forms› | E (at 16) => nothing: no type
§ Switches, and what they bind.
yampa 1 input Int (switch ‹event above nine› ‹plus event›) | E (at 0) => ‹event above nine› params 0 olds 0: (Pair Int (Event Int))
yampa 1 input Int (switch ‹event above nine› ‹plus event›) | E (at 5) => nothing: no type
yampa 1 input Int (switch ‹event above nine› ‹plus event›) | E (at 1 0 1) => (p 0) params 1 olds 0: Int
yampa 1 input Int (dSwitch ‹event above nine› ‹plus event›) | E (at 1) => ‹plus event› params 1 olds 0: Int
yampa 1 input (Pair Int (Event Bool)) (rSwitch (iPre 0) (arr (if (p 0) x 0))) | E (at 1 0 0) => (p 0) params 1 olds 0: Bool
yampa 1 input Int ‹switched twice› | E (at 1 1 0) => (add x (p 1)) params 2 olds 0: Int
yampa 1 input Int ‹resumed› | E (at 1) => ‹event at one› params 0 olds 0: (Event Unit)
yampa 1 input Int ‹resumed› | E (at 2) => ‹old at two› params 1 olds 1: Int
yampa 1 input Int ‹resumed› | E (at 2 1) => (old 0) params 2 olds 1: Int
yampa 1 input Int ‹routed› | E (at 0) => (fst x) params 0 olds 0: Int
yampa 1 input Int ‹routed› | E (at 2) => integral params 0 olds 0: Int
yampa 1 input Int ‹routed› | E (at 4) => (parB (old 1) (old 0)) params 1 olds 2: (List Int)
yampa 1 input Int ‹routed› | E (at 5) => nothing: no type
§ Forms of version 2, and what they bind.
yampa 2 input Bool (--> 7 (arr (if x 1 2))) | E (at) => (--> 7 (arr (if x 1 2))) params 0 olds 0: Int
yampa 2 input Bool (--> 7 (arr (if x 1 2))) | E (at 0) => 7 params 0 olds 0: Int
yampa 2 input Bool (--> 7 (arr (if x 1 2))) | E (at 1 0 0) => x params 0 olds 0: Bool
yampa 2 input Bool (--> 7 (arr (if x 1 2))) | E (at 2) => nothing: no type
yampa 2 input Bool (>-- true (arr (if x 1 2))) | E (at) => (>-- true (arr (if x 1 2))) params 0 olds 0: Int
yampa 2 input Bool (>-- true (arr (if x 1 2))) | E (at 0) => true params 0 olds 0: Bool
yampa 2 input Bool (>-- true (arr (if x 1 2))) | E (at 1 0) => (if x 1 2) params 0 olds 0: Int
yampa 2 input (Pair Int (Event Bool)) (drSwitch (iPre 0) (arr (if (p 0) x 0))) | E (at) => (drSwitch (iPre 0) (arr (if (p 0) x 0))) params 0 olds 0: Int
yampa 2 input (Pair Int (Event Bool)) (drSwitch (iPre 0) (arr (if (p 0) x 0))) | E (at 0) => (iPre 0) params 0 olds 0: Int
yampa 2 input (Pair Int (Event Bool)) (drSwitch (iPre 0) (arr (if (p 0) x 0))) | E (at 1 0 0) => (p 0) params 1 olds 0: Bool
yampa 2 input (Pair Int (Event Bool)) (drSwitch (iPre 0) (arr (if (p 0) x 0))) | E (at 1 0 1) => x params 1 olds 0: Int
yampa 2 input (Pair Int (Event Bool)) (drSwitch (iPre 0) (arr (if (p 0) x 0))) | E (at 2) => nothing: no type
‹with events› (rpSwitchB (col integral time) (pair (list Int) (list Bool (less x 5))) (arr (if (p 0) x 0))) | E (at) => (rpSwitchB (col integral time) (pair (list Int) (list Bool (less x 5))) (arr (if (p 0) x 0))) params 0 olds 0: (List Int)
‹with events› (rpSwitchB (col integral time) (pair (list Int) (list Bool (less x 5))) (arr (if (p 0) x 0))) | E (at 1) => time params 0 olds 0: Int
‹with events› (rpSwitchB (col integral time) (pair (list Int) (list Bool (less x 5))) (arr (if (p 0) x 0))) | E (at 2) => (pair (list Int) (list Bool (less x 5))) params 0 olds 0: (Pair (List Int) (List Bool))
‹with events› (rpSwitchB (col integral time) (pair (list Int) (list Bool (less x 5))) (arr (if (p 0) x 0))) | E (at 2 1 0 0) => x params 0 olds 0: Int
‹with events› (rpSwitchB (col integral time) (pair (list Int) (list Bool (less x 5))) (arr (if (p 0) x 0))) | E (at 3) => (arr (if (p 0) x 0)) params 1 olds 0: Int
‹with events› (rpSwitchB (col integral time) (pair (list Int) (list Bool (less x 5))) (arr (if (p 0) x 0))) | E (at 3 0 0) => (p 0) params 1 olds 0: Bool
‹with events› (rpSwitchB (col integral time) (pair (list Int) (list Bool (less x 5))) (arr (if (p 0) x 0))) | E (at 4) => nothing: no type
";

/// Networks, positions and trees, and the networks with the trees there, whatever their types.
static REPLACINGS: &str = "
§ Trees in the place of others.
‹increment› | L (at) time => time
‹increment› | L (at 1) time => (>>> (arr (add x 1)) time)
‹increment› | E (at 0 0 1) true => (>>> (arr (add x true)) (iPre 0))
yampa 1 input Int (delay 3 0) | E (at 0) x => (delay 3 x)
yampa 1 input (Event Int) (accumBy (fst x) 0) | E (at 1) 5 => (accumBy (fst x) 5)
yampa 1 input Int (loopPre 0 (first time)) | L (at 1 0) integral => (loopPre 0 (first integral))
yampa 1 input Int (loopPre 0 (first time)) | E (at 0) 5 => (loopPre 5 (first time))
yampa 1 input Int (dSwitch ‹event always› ‹plus event›) | L (at 1) time => (dSwitch ‹event always› time)
yampa 1 input Int (kSwitch time (arr (event 1)) (old 0)) | L (at 2) integral => (kSwitch time (arr (event 1)) integral)
yampa 1 input Int (pSwitch x (col time time) (arr (event 1)) (parB time)) | L (at 2) integral => (pSwitch x (col time integral) (arr (event 1)) (parB time))
yampa 1 input Int (pSwitch x (col time time) (arr (event 1)) (parB time)) | L (at 3) integral => (pSwitch x (col time time) integral (parB time))
yampa 1 input Int (pSwitch x (col time time) (arr (event 1)) (parB time)) | E (at 0) 5 => (pSwitch 5 (col time time) (arr (event 1)) (parB time))
yampa 2 input Int (--> 7 time) | E (at 0) true => (--> true time)
yampa 2 input Int (--> 7 time) | L (at 1) (--> 7 time) => (--> 7 (--> 7 time))
yampa 2 input Int (>-- 7 time) | E (at 0) 8 => (>-- 8 time)
yampa 2 input Int (>-- 7 time) | L (at 1) integral => (>-- 7 integral)
‹with events› ‹late restart› | L (at 0) time => (drSwitch time (iPre (p 0)))
‹with events› ‹late restart› | L (at 1) time => (drSwitch (iPre 0) time)
‹with events› (rpSwitchB (col time time) ‹none kept› time) | L (at 0) integral => (rpSwitchB (col integral time) ‹none kept› time)
‹with events› (rpSwitchB (col time time) ‹none kept› time) | L (at 1) integral => (rpSwitchB (col time integral) ‹none kept› time)
‹with events› (rpSwitchB (col time time) ‹none kept› time) | E (at 2) x => (rpSwitchB (col time time) x time)
‹with events› (rpSwitchB (col time time) ‹none kept› time) | E (at 2 0) x => (rpSwitchB (col time time) (pair x (list Int)) time)
‹with events› (rpSwitchB (col time time) ‹none kept› time) | L (at 3) integral => (rpSwitchB (col time time) ‹none kept› integral)
§ Where nothing stands, or a tree of the other kind.
yampa 2 input Int (--> 7 time) | L (at 0) time => nothing
yampa 2 input Int (--> 7 time) | E (at 1) 7 => nothing
‹with events› (rpSwitchB (col time time) ‹none kept› time) | E (at 1) x => nothing
‹with events› (rpSwitchB (col time time) ‹none kept› time) | L (at 2) time => nothing
‹with events› (rpSwitchB (col time time) ‹none kept› time) | E (at 3) x => nothing
‹with events› (rpSwitchB (col time time) ‹none kept› time) | L (at 4) time => nothing
‹increment› | L (at 2) time => nothing
‹increment› | L (at 0 0) time => nothing
‹increment› | E (at 0) x => nothing
";

/// Networks, positions and trees, and what the rewriting comes to.
static REWRITINGS: &str = "
§ Trees of the type of what stood there.
‹sum doubled› | L (at) (arr (then (add x 1) (mul x 2))) => (arr (then (add x 1) (mul x 2))): Int -> Int weight 1 height 1
‹sum doubled› | E (at 0 0) (add x 1) => (>>> (arr (add x 1)) (arr (mul x 2))): Int -> Int weight 3 height 2, as before
yampa 1 input Int ‹resumed› | L (at 0) (>>> (arr x) time) => (kSwitch (>>> (arr x) time) ‹event at one› ‹old at two›): Int -> Int weight 11 height 5
‹tallest› | L (at 0) (>>> (arr x) (arr x)) => (>>> (>>> (arr x) (arr x)) {254*(>>> (arr x) }(arr x){254*)}): Int -> Int weight 513 height 256
yampa 2 input Int (--> 7 time) | L (at 1) (>-- 1 integral) => (--> 7 (>-- 1 integral)): Int -> Int weight 3 height 3
yampa 2 input Int (>-- 7 time) | E (at 0) (add 1 2) => (>-- (add 1 2) time): Int -> Int weight 2 height 2
‹with events› ‹late restart› | L (at 1) (>>> (arr x) (iPre (p 0))) => ‹late stages›: (Pair Int (Event Int)) -> Int weight 8 height 3
‹with events› ‹collection› | L (at 0) (>>> time time) => (rpSwitchB (col (>>> time time)) (pair (list Int 0 0 5) (list Int x)) (iPre (p 0))): (Pair Int (Event Int)) -> (List Int) weight 193 height 3
‹with events› ‹collection› | E (at 1) ‹none kept› => (rpSwitchB (col integral) ‹none kept› (iPre (p 0))): (Pair Int (Event Int)) -> (List Int) weight 65 height 2
‹with events› ‹collection› | L (at 2) (arr (p 0)) => (rpSwitchB (col integral) (pair (list Int 0 0 5) (list Int x)) (arr (p 0))): (Pair Int (Event Int)) -> (List Int) weight 65 height 2
§ Positions that aren't there, and trees of the other kind.
‹sum doubled› | L (at 5) time => no position, as before
‹sum doubled› | L (at 0 0) time => no position, as before
‹sum doubled› | E (at 0) x => no position, as before
‹with events› ‹collection› | L (at 1) time => no position, as before
‹with events› ‹collection› | E (at 2) x => no position, as before
‹with events› ‹collection› | L (at 3) time => no position, as before
§ Trees of another type, and networks past the limits.
yampa 2 input Int (--> 7 time) | E (at 0) true => ill typed, as before
yampa 2 input Int (--> 7 time) | L (at 1) (arr (p 0)) => ill typed, as before
‹with events› ‹late restart› | L (at 0) (arr (p 0)) => ill typed, as before
‹with events› ‹collection› | E (at 1) (pair (list Int) (list Bool)) => ill typed, as before
‹with events› ‹collection› | E (at 1 0) (list Int (p 0)) => ill typed, as before
‹with events› ‹collection› | L (at 2) (arr (p 1)) => ill typed, as before
‹sum doubled› | L (at) (arr (less x 1)) => ill typed, as before
‹sum doubled› | E (at 0 0 1) true => ill typed, as before
‹sum doubled› | E (at 0 0) (p 0) => ill typed, as before
yampa 1 input Int (arr (len (list Int x 5))) | E (at 0 0) (list Bool true) => ill typed, as before
yampa 1 input Int ‹resumed› | L (at 2 1) (old 1) => ill typed, as before
‹tallest› | L (at{255* 1}) (>>> (arr x) (arr x)) => ill typed, as before
‹heaviest› | L (at 0) (>>> (arr x) (arr x)) => ill typed, as before
yampa 1 input Int (arr {255*(neg }x{255*)}) | E (at{256* 0}) (neg x) => ill typed, as before
";

#[test]
fn trees_are_found_and_put(rt: HostRuntime) {
    all_are_found(&rt, rt.alloc(), Probe::Law(LawProbe::Place), PLACES);
    all_are_found(&rt, rt.alloc(), Probe::Law(LawProbe::Replacing), REPLACINGS);
    all_are_found(&rt, rt.alloc(), Probe::Law(LawProbe::Rewriting), REWRITINGS);
}
