// Types, weights and heights of networks, and why others have none, and where.

use crate::found::{Probe, all_are_found};
use net_syntax::TypedNet;
use net_text::read_net;
use net_types::{TypeFault, check_types};
use row_texts::texts::{say, say_at, say_shown};
use sample_core::{Ty, push_type};
use std::alloc::Global;

/// Says the types, the weight and the height of a file's network, or why it has none.
pub fn network_told(alloc: Global, text: &str, out: &mut String) {
    match read_net(alloc, text.as_bytes()) {
        Ok((input, net)) => checked_told(alloc, check_types(alloc, input, net), out),
        Err(fault) => say_shown(out, &fault),
    }
}

/// Says what the check of a network found.
pub fn checked_told(alloc: Global, checked: Result<TypedNet, TypeFault>, out: &mut String) {
    match checked {
        Ok(net) => {
            typed_told(&net, out);
            drop(net);
        }
        Err(fault) => say_shown(out, &fault),
    }
}

/// Says the network's types, weight and height.
pub fn typed_told(net: &TypedNet, out: &mut String) {
    arrow_told(net.input(), net.output(), out);
    say_at(out, " weight", net.weight() as usize);
    say_at(out, " height", net.height() as usize);
}

/// Says an input type and an output type.
pub fn arrow_told(input: &Ty, output: &Ty, out: &mut String) {
    drop(push_type(out, input));
    say(out, " -> ");
    drop(push_type(out, output));
}

/// Networks and their types, weights and heights, or why they have none, and where.
static TYPINGS: &str = "
§ At the limits and over them.
‹increment› => Int -> Int weight 3 height 2
‹tallest› => Int -> Int weight 511 height 256
‹too tall› => too deep
yampa 1 input Int (parB{64* time}) => Int -> (List Int) weight 65 height 2
yampa 1 input {31*(Event }Int{31*)} time => {31*(Event }Int{31*)} -> Int weight 1 height 1
yampa 1 input {32*(Event }Int{32*)} (arr (p 0)) => too deep
yampa 1 input {32*(Event }Int{32*)} time => too deep
‹deep event› => expression too deep in (at 0)
§ Weights at the limit and over it: frozen networks count each time that they are resumed.
‹heaviest› => Int -> Int weight 1000000 height 52
yampa 1 input Int ‹first frozen› {16*‹next frozen› }(>>> (old 16) (>>> (old 15) (>>> (old 14) (>>> (old 12) (>>> (old 7) (>>> (old 4) (>>> (old 2) (>>> (old 1) (>>> (arr x) (>>> (arr x) (>>> (arr x) (arr x)))))))))))){17*)} => too heavy
yampa 1 input Int ‹first frozen› {19*‹next frozen› }(old 19){20*)} => too heavy
yampa 1 input Int ‹first frozen› {79*‹next frozen› }(old 79){80*)} => too heavy
yampa 1 input Int ‹first frozen› {19*‹next frozen› }{256*(>>> (old 19) }(arr x){256*)}{20*)} => too deep
§ Weights of forms whose parts may run several times in a sample.
‹with events› {17*(drSwitch time (>>> (arr (pair x (event x))) }time{17*))} => (Pair Int (Event Int)) -> Int weight 917498 height 35
‹with events› {18*(drSwitch time (>>> (arr (pair x (event x))) }time{18*))} => too heavy
‹with events› (rpSwitchB (col ‹eleven frozen›(>>> (old 10) (>>> (old 9) (>>> (old 8) (>>> (old 6) (>>> (old 2) (>>> (old 1) (>>> (old 0) (arr x)))))))){11*)}) ‹none kept› (arr x)) => (Pair Int (Event Int)) -> (List Int) weight 999873 height 35
‹with events› (rpSwitchB (col ‹eleven frozen›(>>> (old 10) (>>> (old 9) (>>> (old 8) (>>> (old 6) (>>> (old 2) (>>> (old 1) (>>> (old 0) (old 0)))))))){11*)}) ‹none kept› (arr x)) => (Pair Int (Event Int)) -> (List Int) weight 999937 height 35
‹with events› (rpSwitchB (col ‹eleven frozen›(>>> (old 10) (>>> (old 9) (>>> (old 8) (>>> (old 6) (>>> (old 2) (>>> (old 1) (old 1))))))){11*)}) ‹none kept› (arr x)) => too heavy
‹with events› (rpSwitchB (col{64* (arr x)}) ‹none kept› (arr x)) => (Pair Int (Event Int)) -> (List Int) weight 65 height 2
§ Each fault at the root or one level deep.
yampa 1 input Int (hold 0) => no event at (at)
‹late truth› => types differ at (at 1)
‹parameter› => no parameter in (at 0)
yampa 1 input Int (old 0) => no old at (at)
yampa 1 input Int (first time) => no pair at (at)
yampa 1 input Int (parB) => members at (at)
yampa 1 input Int (parB{65* time}) => members at (at)
§ Expressions that are refused two levels deep or deeper.
yampa 1 input Int (>>> (arr x) (>>> (arr (add x true)) (arr x))) => mismatch in (at 1 0 0)
yampa 1 input Int (>>> (arr x) (>>> (iPre (p 0)) (arr x))) => no parameter in (at 1 0 0)
yampa 1 input Int (>>> (arr x) (>>> (arr {256*(neg }x{256*)}) (arr x))) => expression too deep in (at 1 0 0)
yampa 1 input Int (>>> (arr (event x)) (>>> (accumBy (neg true) (p 0)) (arr x))) => no parameter in (at 1 0 1)
yampa 1 input Int (>>> (arr (event x)) (>>> (accumBy (fst (fst x)) 0) (arr x))) => mismatch in (at 1 0 0)
yampa 1 input Int (>>> (arr x) (switch (arr (pair x (event true))) (arr (add x (p 0))))) => mismatch in (at 1 1 0)
yampa 1 input Int (>>> (arr x) (switch (arr (pair x (event true))) (arr (p 1)))) => no parameter in (at 1 1 0)
yampa 1 input Int (>>> (arr x) (pSwitch (pair x (p 0)) (col time) time time)) => no parameter in (at 1 0)
yampa 1 input Int (>>> (arr x) (parB time (arr true) (arr (p 0)))) => no parameter in (at 1 2 0)
yampa 1 input Int (>>> (arr x) (pSwitch x (col (arr 1) (arr true) (arr (p 0))) time time)) => no parameter in (at 1 3 0)
§ Types that differ, two levels deep.
yampa 1 input Int (>>> (arr x) (>>> (iPre true) (arr x))) => types differ at (at 1 0)
yampa 1 input Int (>>> (arr x) (>>> (delay 1 true) (arr x))) => types differ at (at 1 0)
yampa 1 input Int (>>> (arr (event x)) (>>> (hold true) (arr x))) => types differ at (at 1 0)
yampa 1 input Int (>>> (arr (event x)) (>>> (accumBy (snd x) true) (arr x))) => types differ at (at 1 0)
yampa 1 input Int (>>> (arr x) (>>> (arr true) integral)) => types differ at (at 1 1)
yampa 1 input Int (>>> (arr x) (parB time time (arr true) (arr unit))) => types differ at (at 1 2)
yampa 1 input Int (>>> (arr x) (loopPre true (arr (pair true (fst x))))) => types differ at (at 1 1)
yampa 1 input Int (>>> (arr x) (switch (arr (pair x (event x))) (arr true))) => types differ at (at 1 1)
yampa 1 input Int (>>> (arr x) (dSwitch (arr (pair x (event x))) (arr (event x)))) => types differ at (at 1 1)
yampa 1 input Int (>>> (arr (pair x (event x))) (rSwitch (arr x) (arr true))) => types differ at (at 1 1)
yampa 1 input Int (>>> (arr x) (kSwitch (arr x) (arr (none Unit)) (arr true))) => types differ at (at 1 2)
yampa 1 input Int (>>> (arr x) (kSwitch (arr x) (arr (none Unit)) (>>> (arr true) (old 0)))) => types differ at (at 1 2 1)
yampa 1 input Int (>>> (arr x) (pSwitch x (col (arr (fst x)) (arr x)) time time)) => types differ at (at 1 2)
yampa 1 input Int (>>> (arr x) (pSwitch x (col (arr x)) (arr (none Unit)) (old 0))) => types differ at (at 1 3)
yampa 1 input Int (>>> (arr x) (pSwitch (fst x) (col time) (arr (none Unit)) (old 0))) => types differ at (at 1 3)
§ First outputs and first inputs.
yampa 2 input Int (--> true time) => types differ at (at)
yampa 2 input Int (--> true (arr (p 0))) => no parameter in (at 1 0)
yampa 2 input Int (--> (p 0) (arr (p 0))) => no parameter in (at 0)
yampa 2 input Int (--> (add x 1) time) => mismatch in (at 0)
yampa 2 input Int (>-- true (arr (p 0))) => types differ at (at)
yampa 2 input Int (>-- (p 0) (arr (p 0))) => no parameter in (at 0)
yampa 2 input Int (>-- 1 (arr (p 0))) => no parameter in (at 1 0)
yampa 2 input Int (>>> (arr x) (--> true time)) => types differ at (at 1)
yampa 2 input Int (>>> (arr x) (>-- true time)) => types differ at (at 1)
§ Late restarts.
yampa 2 input Int (drSwitch (arr (p 0)) time) => no pair at (at)
yampa 2 input (Pair Int Int) (drSwitch (arr (p 0)) time) => no event at (at)
‹with events› (drSwitch (arr (p 0)) (arr (p 1))) => no parameter in (at 0 0)
‹with events› (drSwitch (arr x) (arr (p 1))) => no parameter in (at 1 0)
‹with events› (drSwitch (arr x) (arr true)) => types differ at (at 1)
yampa 2 input Int (>>> (arr (pair x (event x))) (drSwitch time (arr true))) => types differ at (at 1 1)
§ Collections, in the order of the walk.
yampa 2 input Int (rpSwitchB (col) (p 0) (old 0)) => members at (at)
yampa 2 input Int (rpSwitchB (col{65* (old 0)}) (p 0) (old 0)) => members at (at)
yampa 2 input Int (rpSwitchB (col (old 0)) (p 0) (old 0)) => no pair at (at)
yampa 2 input (Pair Int Int) (rpSwitchB (col (old 0)) (p 0) (old 0)) => no event at (at)
‹with events› (rpSwitchB (col time (arr true) (arr (p 0))) (p 0) (old 0)) => no parameter in (at 2 0)
‹with events› (rpSwitchB (col time (arr true)) (p 0) (old 0)) => types differ at (at 1)
‹with events› (rpSwitchB (col time) (p 0) (old 0)) => no parameter in (at 1)
‹with events› (rpSwitchB (col time) (pair (list Int) (list Bool (p 0))) (old 0)) => no parameter in (at 1)
‹with events› (rpSwitchB (col time time) x (old 0)) => types differ at (at 2)
‹with events› (rpSwitchB (col time) (pair (list Int) x) (old 0)) => types differ at (at 1)
‹with events› (rpSwitchB (col time) (pair x (list Int)) (old 0)) => types differ at (at 1)
‹with events› (rpSwitchB (col time) (pair (list Bool) (list Int)) (old 0)) => types differ at (at 1)
‹with events› (rpSwitchB (col time) ‹none kept› (old 0)) => no old at (at 2)
‹with events› (rpSwitchB (col time) ‹none kept› (arr (p 1))) => no parameter in (at 2 0)
‹with events› (rpSwitchB (col time) (pair (list Int) (list Bool)) (arr (p 0))) => types differ at (at 2)
‹with events› (rpSwitchB (col time) (pair (list Int) (list Bool)) (arr (if (p 0) x 0))) => (Pair Int (Event Int)) -> (List Int) weight 65 height 2
‹with lists› (rpSwitchB (col time) (pair x (list Int (len x))) (arr (p 0))) => (Pair Int (Event (List Int))) -> (List Int) weight 65 height 2
yampa 2 input Int (>>> (arr (pair x (event x))) (>>> (rpSwitchB (col time) ‹none kept› (arr true)) (arr x))) => types differ at (at 1 0 2)
yampa 2 input Int (switch (arr (pair (list Int) (event true))) (>>> (arr (pair x (event x))) (rpSwitchB (col time) (pair (list Int) (list Int (if (p 0) x 0))) (arr (p 1))))) => Int -> (List Int) weight 69 height 4
yampa 2 input Int (switch (arr (pair (list Int) (event true))) (>>> (arr (pair x (event x))) (rpSwitchB (col time) (pair (list Int) (list Int (p 1))) (arr (p 1))))) => no parameter in (at 1 1 1)
§ Frozen networks, of which there are none of the level, two levels deep.
yampa 1 input Int (>>> (arr x) (kSwitch (arr x) (arr (none Unit)) (old 1))) => no old at (at 1 2)
yampa 1 input Int (>>> (arr x) (kSwitch (old 0) (arr (none Unit)) (arr x))) => no old at (at 1 0)
yampa 1 input Int (>>> (arr x) (kSwitch (arr x) (old 0) (arr x))) => no old at (at 1 1)
yampa 1 input Int (pSwitch (fst x) (col time time) (arr (none Unit)) (parB (old 1) (old 2))) => no old at (at 4 1)
yampa 1 input Int (kSwitch (arr true) (arr (none Unit)) (>>> (kSwitch (arr x) (arr (none Unit)) (old 1)) (arr true))) => Int -> Bool weight 10 height 5
yampa 1 input Int (kSwitch (arr true) (arr (none Unit)) (>>> (kSwitch (arr x) (arr (none Unit)) (old 0)) (arr true))) => types differ at (at 2 0 2)
§ No events, two levels deep.
yampa 1 input Int (>>> (arr x) (>>> (hold 0) (arr x))) => no event at (at 1 0)
yampa 1 input Int (>>> (arr x) (>>> (accumBy x 0) (arr x))) => no event at (at 1 0)
yampa 1 input Int (>>> (arr x) (switch (arr (pair x x)) (arr x))) => no event at (at 1 0)
yampa 1 input Int (>>> (arr x) (dSwitch (arr (pair x x)) (arr x))) => no event at (at 1 0)
yampa 1 input Int (>>> (arr x) (>>> (arr (pair x x)) (rSwitch (arr x) (arr x)))) => no event at (at 1 1)
yampa 1 input Int (>>> (arr x) (kSwitch (arr x) (arr x) (arr x))) => no event at (at 1 1)
yampa 1 input Int (>>> (arr x) (pSwitch x (col time time) time time)) => no event at (at 1 3)
§ No pairs, two levels deep.
yampa 1 input Int (>>> (arr x) (>>> (first (arr x)) (arr x))) => no pair at (at 1 0)
yampa 1 input Int (>>> (arr x) (loopPre 0 time)) => no pair at (at 1 1)
yampa 1 input Int (>>> (arr x) (switch (arr x) (arr x))) => no pair at (at 1 0)
yampa 1 input Int (>>> (arr x) (dSwitch (arr x) (arr x))) => no pair at (at 1 0)
yampa 1 input Int (>>> (arr x) (>>> (arr x) (rSwitch (arr x) (arr x)))) => no pair at (at 1 1)
§ No members or too many, two levels deep.
yampa 1 input Int (>>> (arr x) (>>> (parB) (arr x))) => members at (at 1 0)
yampa 1 input Int (>>> (arr x) (>>> (parB{65* (arr (p 0))}) (arr x))) => members at (at 1 0)
yampa 1 input Int (>>> (arr x) (>>> (pSwitch (p 0) (col) (old 0) (old 1)) (arr x))) => members at (at 1 0)
yampa 1 input Int (>>> (arr x) (>>> (pSwitch (p 0) (col{65* time}) (old 0) (old 1)) (arr x))) => members at (at 1 0)
§ Types over the limits, two levels deep, at once in the walk.
yampa 1 input Int (>>> (arr x) (>>> (after 1 (none {30*(Event }Int{30*)})) (arr (p 0)))) => too deep
yampa 1 input Int (>>> (arr x) (>>> (repeatedly 1 (none {30*(Event }Int{30*)})) (arr (p 0)))) => too deep
yampa 1 input Int (>>> (arr (p 0)) (>>> (after 1 (none {30*(Event }Int{30*)})) (arr x))) => no parameter in (at 0 0)
yampa 1 input Int (>>> (arr x) (>>> (parB (arr (none {30*(Event }Int{30*)}))) (arr (p 0)))) => too deep
yampa 1 input Int (>>> (arr x) (>>> (loopPre (none {30*(Event }Int{30*)}) (arr (p 0))) (arr x))) => too deep
yampa 1 input Int (>>> (arr (event x)) (>>> (accumBy (p 0) (none {30*(Event }Int{30*)})) (arr x))) => too deep
yampa 1 input Int (>>> (arr (pair x x)) (>>> (first (arr (none {30*(Event }Int{30*)}))) (arr (p 0)))) => too deep
yampa 1 input Int (>>> (arr x) (kSwitch (arr (none {30*(Event }Int{30*)})) (arr (p 0)) (arr x))) => too deep
yampa 1 input Int (>>> (arr (none {30*(Event }Int{30*)})) (pSwitch (p 0) (col time) time time)) => too deep
yampa 1 input Int (>>> (arr (none {30*(Event }Int{30*)})) (pSwitch (p 0) (col) time time)) => members at (at 1)
yampa 1 input Int (>>> (arr x) (pSwitch x (col (arr (none {28*(Event }Int{28*)}))) (arr (p 0)) time)) => no parameter in (at 1 2 0)
yampa 1 input Int (>>> (arr x) (pSwitch x (col (arr (none {29*(Event }Int{29*)}))) (arr (p 0)) time)) => too deep
‹with events› (rpSwitchB (col (arr (none {29*(Event }Int{29*)}))) ‹none kept› (arr (none {29*(Event }Int{29*)}))) => (Pair Int (Event Int)) -> (List {30*(Event }Int{30*)}) weight 65 height 2
‹with events› (rpSwitchB (col (arr (none {30*(Event }Int{30*)}))) ‹none kept› (arr (none {30*(Event }Int{30*)}))) => too deep
‹with events› (rpSwitchB (col (arr (none {30*(Event }Int{30*)}))) ‹none kept› (arr (p 1))) => no parameter in (at 2 0)
";

#[test]
fn networks_are_typed(rt: HostRuntime) {
    all_are_found(&rt, rt.alloc(), Probe::Network, TYPINGS);
}
