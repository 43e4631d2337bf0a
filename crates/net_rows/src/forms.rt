// Each form of networks and each short form: its types, and how it is printed and read again.

use crate::found::{Probe, all_are_found};
use crate::network_types::typed_told;
use crate::networks::file_told;
use crate::typed::network;
use net_syntax::TypedNet;
use net_text::{print_net, push_net};
use row_texts::texts::say;
use sample_core::Memory;
use std::alloc::Global;

/// Says the types, the weight and the height of a file's network, how it is printed, and, where the
/// file that is printed isn't read to the same again, that it isn't.
pub fn form_told(alloc: Global, text: &str, out: &mut String) {
    match network(alloc, text) {
        Some(net) => shown(alloc, &net, out),
        None => say(out, "no network"),
    }
}

fn shown(alloc: Global, net: &TypedNet, out: &mut String) {
    typed_told(net, out);
    say(out, ": ");
    drop(push_net(out, net.net()));
    match print_net(alloc, net.input(), net.net()) {
        Ok(file) => again_told(alloc, file.as_str(), out),
        Err(Memory) => say(out, " memory"),
    }
}

fn again_told(alloc: Global, file: &str, out: &mut String) {
    let mut again = String::new(alloc);
    file_told(alloc, file, &mut again);
    if again.as_str() != file {
        say(out, " and another when it is read again");
    }
}

/// Files, the types, the weight and the height of their networks, and how these are printed.
static FORMS: &str = "
§ Core forms without networks.
yampa 1 input Int (arr (add x 1)) => Int -> Int weight 1 height 1: (arr (add x 1))
yampa 1 input Bool (iPre true) => Bool -> Bool weight 1 height 1: (iPre true)
yampa 1 input Int (delay 3 0) => Int -> Int weight 1 height 1: (delay 3 0)
yampa 1 input (Event (List Int))(hold(list Int 1)) => (Event (List Int)) -> (List Int) weight 1 height 1: (hold (list Int 1))
yampa 1 input (Event Int) (accumBy (pair (snd x) (fst (fst x))) (pair 1 2)) => (Event Int) -> (Event (Pair Int Int)) weight 1 height 1: (accumBy (pair (snd x) (fst (fst x))) (pair 1 2))
yampa 1 input Unit (after 5 7) => Unit -> (Event Int) weight 1 height 1: (after 5 7)
yampa 1 input Unit (repeatedly 3 unit) => Unit -> (Event Unit) weight 1 height 1: (repeatedly 3 unit)
yampa 1 input Unit time => Unit -> Int weight 1 height 1: time
yampa 1 input Int integral => Int -> Int weight 1 height 1: integral
§ Core forms with networks.
‹increment› => Int -> Int weight 3 height 2: (>>> (arr (add x 1)) (iPre 0))
yampa 1 input (Pair Int Bool) (first (arr (less x 0))) => (Pair Int Bool) -> (Pair Bool Bool) weight 2 height 2: (first (arr (less x 0)))
yampa 1 input Int (parB(arr x)time integral) => Int -> (List Int) weight 4 height 2: (parB (arr x) time integral)
yampa 1 input Int (loopPre 0 (arr (pair (add (fst x) (snd x)) (add (fst x) (snd x))))) => Int -> Int weight 2 height 2: (loopPre 0 (arr (pair (add (fst x) (snd x)) (add (fst x) (snd x)))))
yampa 1 input Int (switch ‹event above nine› (arr (add x (p 0)))) => Int -> Int weight 3 height 2: (switch ‹event above nine› (arr (add x (p 0))))
yampa 1 input Int (dSwitch ‹event above nine› (arr (add x (p 0)))) => Int -> Int weight 3 height 2: (dSwitch ‹event above nine› (arr (add x (p 0))))
yampa 1 input Int (switch ‹event above nine› (switch (arr (pair x (event (neg (p 0))))) (arr (add x (p 1))))) => Int -> Int weight 5 height 3: (switch ‹event above nine› (switch (arr (pair x (event (neg (p 0))))) (arr (add x (p 1)))))
yampa 1 input (Pair Int (Event Int)) (rSwitch (iPre 0) (iPre (p 0))) => (Pair Int (Event Int)) -> Int weight 3 height 2: (rSwitch (iPre 0) (iPre (p 0)))
yampa 1 input Int ‹resumed› => Int -> Int weight 7 height 4: ‹resumed›
yampa 1 input Int (kSwitch time ‹event at one› (old 0)) => Int -> Int weight 5 height 3: (kSwitch time ‹event at one› (old 0))
yampa 1 input Int ‹routed› => Int -> (List Int) weight 9 height 4: ‹routed›
yampa 1 input Int ‹forms› => Int -> (List Int) weight 56 height 6: ‹forms›
§ Core forms of version 2.
yampa 2 input Int (--> 7 time) => Int -> Int weight 2 height 2: (--> 7 time)
yampa 2 input Bool (--> 7 (>>> (arr (if x 1 2)) time)) => Bool -> Int weight 4 height 3: (--> 7 (>>> (arr (if x 1 2)) time))
yampa 2 input Int (>-- 9 (iPre 0)) => Int -> Int weight 2 height 2: (>-- 9 (iPre 0))
yampa 2 input Bool (>-- true (arr (if x 1 2))) => Bool -> Int weight 2 height 2: (>-- true (arr (if x 1 2)))
‹with events› ‹late restart› => (Pair Int (Event Int)) -> Int weight 4 height 2: ‹late restart›
‹with events› ‹late stages› => (Pair Int (Event Int)) -> Int weight 8 height 3: ‹late stages›
‹with events› ‹collection› => (Pair Int (Event Int)) -> (List Int) weight 65 height 2: ‹collection›
‹with events› (rpSwitchB (col time (>>> (arr x) time)) ‹none kept› (arr x)) => (Pair Int (Event Int)) -> (List Int) weight 193 height 3: (rpSwitchB (col time (>>> (arr x) time)) ‹none kept› (arr x))
‹with events› (rpSwitchB (col (arr (less x 1))) (pair (list Int) (list Bool true)) (>>> (arr (p 0)) (iPre false))) => (Pair Int (Event Int)) -> (List Bool) weight 193 height 3: (rpSwitchB (col (arr (less x 1))) (pair (list Int) (list Bool true)) (>>> (arr (p 0)) (iPre false)))
yampa 2 input Int ‹new forms› => Int -> (List Int) weight 80 height 5: ‹new forms›
§ Short forms of networks, which mean what their core forms do.
yampa 1 input Int identity => Int -> Int weight 1 height 1: (arr x)
yampa 1 input Int (constant 5) => Int -> Int weight 1 height 1: (arr (then unit 5))
yampa 1 input (Pair Int Bool) (second (iPre true)) => (Pair Int Bool) -> (Pair Int Bool) weight 6 height 4: (>>> (arr (pair (snd x) (fst x))) (>>> (first (iPre true)) (arr (pair (snd x) (fst x)))))
yampa 1 input (Pair Int Bool) (*** (arr (neg x)) (arr (not x))) => (Pair Int Bool) -> (Pair Int Bool) weight 9 height 5: (>>> (first (arr (neg x))) (>>> (arr (pair (snd x) (fst x))) (>>> (first (arr (not x))) (arr (pair (snd x) (fst x))))))
yampa 1 input Int (&&& time (arr true)) => Int -> (Pair Int Bool) weight 11 height 6: (>>> (arr (pair x x)) (>>> (first time) (>>> (arr (pair (snd x) (fst x))) (>>> (first (arr true)) (arr (pair (snd x) (fst x)))))))
yampa 1 input Int (never (Pair Int Bool)) => Int -> (Event (Pair Int Bool)) weight 1 height 1: (arr (none (Pair Int Bool)))
yampa 1 input Int (now 7) => Int -> (Event Int) weight 1 height 1: (after 0 7)
yampa 1 input Bool edge => Bool -> (Event Unit) weight 13 height 7: (>>> (>>> (arr (pair x x)) (>>> (first (arr x)) (>>> (arr (pair (snd x) (fst x))) (>>> (first (iPre true)) (arr (pair (snd x) (fst x))))))) (arr (if (and (fst x) (not (snd x))) (event unit) (none Unit))))
yampa 1 input (Event Int) (accumHoldBy (add (fst x) (snd x)) 10) => (Event Int) -> Int weight 3 height 2: (>>> (accumBy (add (fst x) (snd x)) 10) (hold 10))
§ Short forms of expressions, which mean what their core forms do.
yampa 1 input (Pair (Event Int) (Event Int)) (arr (lMerge (fst x) (snd x))) => (Pair (Event Int) (Event Int)) -> (Event Int) weight 1 height 1: (arr (on (fst x) (snd x) (event (snd x))))
yampa 1 input (Pair (Event Int) Bool) (arr (gate Int (fst x) (snd x))) => (Pair (Event Int) Bool) -> (Event Int) weight 1 height 1: (arr (if (snd x) (fst x) (none Int)))
yampa 1 input (Event Bool) (arr (tag Int x 3)) => (Event Bool) -> (Event Int) weight 1 height 1: (arr (on x (none Int) (event (then (fst x) 3))))
yampa 1 input (Event Bool) (arr (attach (Pair Bool Int) x 3)) => (Event Bool) -> (Event (Pair Bool Int)) weight 1 height 1: (arr (on x (none (Pair Bool Int)) (event (pair (snd x) (then (fst x) 3)))))
";

#[test]
fn forms_are_read_typed_and_printed(rt: HostRuntime) {
    all_are_found(&rt, rt.alloc(), Probe::Form, FORMS);
}
