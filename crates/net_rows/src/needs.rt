// The expressions of networks: where they stand, and their types.

use crate::found::{Probe, all_are_found};
use crate::network_types::arrow_told;
use crate::typed::network;
use leaf_expr::push_expr;
use net_syntax::{LeafNeed, leaves};
use net_tree::push_position;
use row_texts::texts::{number_in, parted, say, say_shown};
use sample_core::{Memory, push_type};
use std::alloc::Global;

/// Says the expression of that number, from 0, of a file's network: `FILE | NUMBER`.
pub fn need_told(alloc: Global, given: &str, out: &mut String) {
    let (text, number) = parted(given);
    match network(alloc, text) {
        Some(net) => among_told(leaves(alloc, &net), number_in(number), out),
        None => say(out, "no network"),
    }
}

fn among_told(needs: Result<Vec<LeafNeed>, Memory>, number: usize, out: &mut String) {
    match needs {
        Ok(needs) => match needs.get(number) {
            Some(need) => told(need, out),
            None => say(out, "no need"),
        },
        Err(memory) => say_shown(out, &memory),
    }
}

/// Says the expressions of a network, each with where it stands and its types.
pub fn needs_told(needs: Result<Vec<LeafNeed>, Memory>, out: &mut String) {
    match needs {
        Ok(needs) => {
            for need in needs.iter() {
                told(need, out);
            }
        }
        Err(memory) => say_shown(out, &memory),
    }
}

/// Tells where the expression stands, the types of the parameters, each with a comma behind it, and
/// the expression with its types.
fn told(need: &LeafNeed, out: &mut String) {
    drop(push_position(out, &need.position));
    say(out, " ");
    for param in need.key.params.iter() {
        drop(push_type(out, param));
        say(out, ", ");
    }
    arrow_told(&need.key.input, &need.output, out);
    say(out, ": ");
    drop(push_expr(out, &need.key.expr));
}

/// The expressions of networks, from the root on, with the types that they are used at.
static NEEDS: &str = "
§ A network with every form.
yampa 1 input Int ‹forms› | 0 => (at 0 0) Int -> Int: (add x 1)
yampa 1 input Int ‹forms› | 1 => (at 1 0) Unit -> Int: 0
yampa 1 input Int ‹forms› | 2 => (at 2 0) Unit -> Int: 0
yampa 1 input Int ‹forms› | 3 => (at 5 0 0) Int -> (Event Int): (event x)
yampa 1 input Int ‹forms› | 4 => (at 5 1 0) Unit -> Int: 0
yampa 1 input Int ‹forms› | 5 => (at 6 0 0) Int -> (Event Int): (event x)
yampa 1 input Int ‹forms› | 6 => (at 6 1 0 0) (Pair Int Int) -> Int: (add (fst x) (snd x))
yampa 1 input Int ‹forms› | 7 => (at 6 1 0 1) Unit -> Int: 0
yampa 1 input Int ‹forms› | 8 => (at 6 1 1 0) Unit -> Int: 0
yampa 1 input Int ‹forms› | 9 => (at 7 0 0) Unit -> Unit: unit
yampa 1 input Int ‹forms› | 10 => (at 7 1 0) (Event Unit) -> Int: 1
yampa 1 input Int ‹forms› | 11 => (at 8 0 0) Unit -> Unit: unit
yampa 1 input Int ‹forms› | 12 => (at 8 1 0) (Event Unit) -> Int: 1
yampa 1 input Int ‹forms› | 13 => (at 9 0 0) Int -> (Pair Int Bool): (pair x true)
yampa 1 input Int ‹forms› | 14 => (at 9 1 0 0 0) Int -> Int: (neg x)
yampa 1 input Int ‹forms› | 15 => (at 9 1 1 0) (Pair Int Bool) -> Int: (fst x)
yampa 1 input Int ‹forms› | 16 => (at 10 0) Unit -> Int: 0
yampa 1 input Int ‹forms› | 17 => (at 10 1 0) (Pair Int Int) -> (Pair Int Int): (pair (add (fst x) (snd x)) (fst x))
yampa 1 input Int ‹forms› | 18 => (at 11 0 0) Int -> (Pair Int (Event Int)): (pair x (event x))
yampa 1 input Int ‹forms› | 19 => (at 11 1 0) Int, Int -> Int: (add x (p 0))
yampa 1 input Int ‹forms› | 20 => (at 12 0 0) Int -> (Pair Int (Event Int)): (pair x (event x))
yampa 1 input Int ‹forms› | 21 => (at 12 1 0) Int, Int -> Int: (sub x (p 0))
yampa 1 input Int ‹forms› | 22 => (at 13 0 0) Int -> (Pair Int (Event Bool)): (pair x (event true))
yampa 1 input Int ‹forms› | 23 => (at 13 1 0 0) Int -> Int: x
yampa 1 input Int ‹forms› | 24 => (at 13 1 1 0) Bool, Int -> Int: (if (p 0) x 0)
yampa 1 input Int ‹forms› | 25 => (at 14 0 0) Int -> Int: (mul x 2)
yampa 1 input Int ‹forms› | 26 => (at 14 1 0) (Pair Int Int) -> (Event Int): (event (snd x))
yampa 1 input Int ‹forms› | 27 => (at 14 2 1 0) Int, Int -> Int: (add x (p 0))
yampa 1 input Int ‹forms› | 28 => (at 15 0 0) (Pair Int Int) -> Int: (fst x)
yampa 1 input Int ‹forms› | 29 => (at 15 0 1 0) Int -> Int: x
yampa 1 input Int ‹forms› | 30 => (at 15 0 3 0) (Pair Int (List Int)) -> (Event Int): (event (len (snd x)))
yampa 1 input Int ‹forms› | 31 => (at 15 0 4 1 0) Int, Int -> Int: (p 0)
yampa 1 input Int ‹forms› | 32 => (at 15 1 0) (List Int) -> Int: (nth x 0 0)
yampa 1 input Int ‹forms› | 33 => no need
§ The forms of version 2.
yampa 2 input Int ‹new forms› | 0 => (at 0 0) Unit -> Int: 7
yampa 2 input Int ‹new forms› | 1 => (at 1 0) Unit -> Int: 9
yampa 2 input Int ‹new forms› | 2 => (at 1 1 0) Unit -> Int: 0
yampa 2 input Int ‹new forms› | 3 => (at 2 0 0) Int -> (Pair Int (Event Int)): (pair x (event x))
yampa 2 input Int ‹new forms› | 4 => (at 2 1 0 0) Unit -> Int: 0
yampa 2 input Int ‹new forms› | 5 => (at 2 1 1 0) Int, Unit -> Int: (p 0)
yampa 2 input Int ‹new forms› | 6 => (at 3 0 0) Int -> (Pair Int (Event Int)): (pair x (if (less 9 x) (event x) (none Int)))
yampa 2 input Int ‹new forms› | 7 => (at 3 1 0 1 0) Int -> Int: (neg x)
yampa 2 input Int ‹new forms› | 8 => (at 3 1 0 2) Int -> (Pair (List Int) (List Int)): (pair (list Int 1 x 0) (list Int x))
yampa 2 input Int ‹new forms› | 9 => (at 3 1 0 3 0) Int, Unit -> Int: (p 0)
yampa 2 input Int ‹new forms› | 10 => (at 3 1 1 0) (List Int) -> Int: (nth x 1 0)
yampa 2 input Int ‹new forms› | 11 => no need
yampa 2 input Bool (--> 5 (>-- true (>>> (arr (if x 1 2)) (iPre 6)))) | 0 => (at 0) Unit -> Int: 5
yampa 2 input Bool (--> 5 (>-- true (>>> (arr (if x 1 2)) (iPre 6)))) | 1 => (at 1 0) Unit -> Bool: true
yampa 2 input Bool (--> 5 (>-- true (>>> (arr (if x 1 2)) (iPre 6)))) | 2 => (at 1 1 0 0) Bool -> Int: (if x 1 2)
yampa 2 input Bool (--> 5 (>-- true (>>> (arr (if x 1 2)) (iPre 6)))) | 3 => (at 1 1 1 0) Unit -> Int: 6
§ Scopes inside scopes: parameters from the outermost on.
yampa 1 input Int (switch (arr (pair x (event true))) (switch (arr (pair x (event unit))) (arr (if (p 0) x 0)))) | 0 => (at 0 0) Int -> (Pair Int (Event Bool)): (pair x (event true))
yampa 1 input Int (switch (arr (pair x (event true))) (switch (arr (pair x (event unit))) (arr (if (p 0) x 0)))) | 1 => (at 1 0 0) Bool, Int -> (Pair Int (Event Unit)): (pair x (event unit))
yampa 1 input Int (switch (arr (pair x (event true))) (switch (arr (pair x (event unit))) (arr (if (p 0) x 0)))) | 2 => (at 1 1 0) Bool, Unit, Int -> Int: (if (p 0) x 0)
yampa 1 input Int (switch (arr (pair x (event true))) (switch (arr (pair x (event unit))) (arr (if (p 0) x 0)))) | 3 => no need
yampa 1 input Int ‹resumed› | 0 => (at 1 0) (Pair Int Int) -> (Event Unit): (if (equal (fst x) 1) (event unit) (none Unit))
yampa 1 input Int ‹resumed› | 1 => (at 2 0 0) Unit, Int -> (Pair Int (Event Unit)): (pair -1 (if (equal x 2) (event unit) (none Unit)))
yampa 1 input Int ‹resumed› | 2 => no need
yampa 1 input Bool (kSwitch (arr 5) (arr (event x)) (>>> (old 0) (>>> (arr (pair x (p 0))) (arr (fst x))))) | 2 => (at 2 1 0 0) (Pair Bool Int), Int -> (Pair Int (Pair Bool Int)): (pair x (p 0))
yampa 1 input Bool (kSwitch (arr 5) (arr (event x)) (>>> (old 0) (>>> (arr (pair x (p 0))) (arr (fst x))))) | 3 => (at 2 1 1 0) (Pair Bool Int), (Pair Int (Pair Bool Int)) -> Int: (fst x)
yampa 2 input (Pair Unit (Event Bool)) (drSwitch (arr 1) (--> 2 (arr (if (p 0) 3 4)))) | 2 => (at 1 1 0) Bool, Unit -> Int: (if (p 0) 3 4)
yampa 2 input Bool (switch (arr (pair (list Int) (event 5))) (>>> (arr (pair x (event unit))) (rpSwitchB (col (arr (p 0))) (pair (list Int (p 0)) (list Bool true)) (arr (if (p 1) (p 0) 6))))) | 2 => (at 1 1 0 0) Int, Bool -> Int: (p 0)
yampa 2 input Bool (switch (arr (pair (list Int) (event 5))) (>>> (arr (pair x (event unit))) (rpSwitchB (col (arr (p 0))) (pair (list Int (p 0)) (list Bool true)) (arr (if (p 1) (p 0) 6))))) | 3 => (at 1 1 1) Int, Unit -> (Pair (List Int) (List Bool)): (pair (list Int (p 0)) (list Bool true))
yampa 2 input Bool (switch (arr (pair (list Int) (event 5))) (>>> (arr (pair x (event unit))) (rpSwitchB (col (arr (p 0))) (pair (list Int (p 0)) (list Bool true)) (arr (if (p 1) (p 0) 6))))) | 4 => (at 1 1 2 0) Int, Bool, Bool -> Int: (if (p 1) (p 0) 6)
";

#[test]
fn needs_are_found(rt: HostRuntime) {
    all_are_found(&rt, rt.alloc(), Probe::Need, NEEDS);
}
