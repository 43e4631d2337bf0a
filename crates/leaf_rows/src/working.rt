// Types and values of each form of expressions, worked out by hand.

use crate::found::{Probe, all_are_found};
use crate::typing::type_told;
use leaf_core::{Expr, eval, expr_fits};
use leaf_expr::print_expr;
use row_texts::texts::{answer_told, expr_in, parted, say, type_in, value_in};
use sample_core::{Memory, Sample, Ty};
use std::alloc::Global;

/// Says the expression's type and value at the input, and how it is printed where that isn't as it
/// was read.
pub fn worked_told(alloc: Global, given: &str, out: &mut String) {
    let (ty, rest) = parted(given);
    match type_in(alloc, ty) {
        Some(ty) => at_told(alloc, &ty, rest, out),
        None => say(out, "no input type"),
    }
}

fn at_told(alloc: Global, input: &Ty, given: &str, out: &mut String) {
    let (value, text) = parted(given);
    match value_in(alloc, input, value) {
        Some(value) => on_told(alloc, input, &value, text, out),
        None => say(out, "no input"),
    }
}

fn on_told(alloc: Global, input: &Ty, x: &Sample, text: &str, out: &mut String) {
    match expr_in(alloc, text) {
        Some(expr) => expr_told(alloc, input, x, &expr, text, out),
        None => say(out, "no expression"),
    }
}

fn expr_told(alloc: Global, input: &Ty, x: &Sample, expr: &Expr, text: &str, out: &mut String) {
    if !expr_fits(expr) {
        say(out, "not within the limits ");
    }
    type_told(alloc, input, expr, out);
    say(out, " ");
    answer_told(eval(alloc, expr, &PARAMS, x), out);
    printed_told(print_expr(alloc, expr), text, out);
}

/// The parameters' values: parameter 0 is the number 10, parameter 1 is `true`.
const PARAMS: [Sample; 2] = [Sample::Int(10), Sample::Bool(true)];

/// Says what was printed, where it isn't the text.
fn printed_told(printed: Result<String, Memory>, text: &str, out: &mut String) {
    match printed {
        Ok(printed) => {
            if printed.as_str() != text {
                say(out, " of ");
                say(out, printed.as_str());
            }
        }
        Err(Memory) => say(out, " memory"),
    }
}

/// Inputs, expressions, and their types and values.
static WORKED: &str = "
§ Inputs, parameters, literals, pairs, and the order of work.
Int | 3 | x => Int 3
Int | 3 | (p 0) => Int 10
Int | 3 | (p 1) => Bool true
Int | 3 | unit => Unit unit
Int | 3 | true => Bool true
Int | 3 | false => Bool false
Unit | unit | -5 => Int -5
(List (Event Bool)) | (list none (event true)) | x => (List (Event Bool)) (list none (event true))
Int | 3 | (pair x true) => (Pair Int Bool) (pair 3 true)
(Pair Int Bool) | (pair 3 true) | (fst x) => Int 3
(Pair Int Bool) | (pair 3 true) | (snd x) => Bool true
(Pair Int Bool) | (pair 3 true) | (pair (snd x) (fst x)) => (Pair Bool Int) (pair true 3)
Int | 3 | (then (add x 1) (mul x 2)) => Int 8
Int | 3 | (then true (pair x (p 0))) => (Pair Bool Int) (pair true 10)
§ Numbers, which wrap, equality of whole values, and truth values.
Int | 3 | (neg x) => Int -3
Int | -9223372036854775808 | (neg x) => Int -9223372036854775808
Int | 3 | (add x (p 0)) => Int 13
Int | 9223372036854775807 | (add x 1) => Int -9223372036854775808
Int | -9223372036854775808 | (add x -1) => Int 9223372036854775807
Int | 3 | (sub x 5) => Int -2
Int | -9223372036854775808 | (sub x 1) => Int 9223372036854775807
Int | 3 | (mul x -2) => Int -6
Int | 4611686018427387905 | (mul x 4) => Int 4
Int | -9223372036854775808 | (mul x -1) => Int -9223372036854775808
Int | 5 | (less x 6) => Bool true
Int | 6 | (less x 6) => Bool false
Int | 3 | (less -1 x) => Bool true
Int | 3 | (less x -1) => Bool false
Int | 3 | (equal x 3) => Bool true
Int | 3 | (equal x -3) => Bool false
Int | 3 | (equal unit unit) => Bool true
Int | 3 | (equal false (p 1)) => Bool false
Int | 3 | (equal (pair x 1) (pair x 2)) => Bool false
Int | 3 | (equal (list Int 1 2) (list Int 1 2 3)) => Bool false
Int | 3 | (equal (list Int 1 x) (list Int 1 3)) => Bool true
Int | 3 | (equal (none Int) (event x)) => Bool false
Int | 3 | (equal (event 3) (event x)) => Bool true
Bool | true | (not x) => Bool false
Bool | false | (not x) => Bool true
Bool | true | (and x true) => Bool true
Bool | true | (and x false) => Bool false
Bool | false | (and x true) => Bool false
Bool | false | (and x false) => Bool false
Bool | true | (or x true) => Bool true
Bool | true | (or x false) => Bool true
Bool | false | (or x true) => Bool true
Bool | false | (or x false) => Bool false
Bool | true | (if x 1 2) => Int 1
Bool | false | (if x 1 2) => Int 2
§ Events and lists.
Int | 3 | (none (List Int)) => (Event (List Int)) none
Int | 5 | (event x) => (Event Int) (event 5)
(Pair Int (Event Int)) | (pair 3 (event 5)) | (on (snd x) 7 (sub (fst (fst x)) (snd x))) => Int -2
(Pair Int (Event Int)) | (pair 3 none) | (on (snd x) 7 (sub (fst (fst x)) (snd x))) => Int 7
(Event Int) | (event 5) | (on x (pair x 0) x) => (Pair (Event Int) Int) (pair (event 5) 5)
(Event Int) | none | (on x (pair x 0) x) => (Pair (Event Int) Int) (pair none 0)
Int | 3 | (list Int x 1 (p 0)) => (List Int) (list 3 1 10)
Int | 3 | (list Bool) => (List Bool) (list)
(List Int) | (list 10 11) | (nth x 0 7) => Int 10
(List Int) | (list 10 11) | (nth x 1 7) => Int 11
(List Int) | (list 10 11) | (nth x 2 7) => Int 7
(List Int) | (list 10 11) | (nth x -1 7) => Int 7
(List Int) | (list 10 11) | (nth x -9223372036854775808 7) => Int 7
(List Int) | (list) | (nth x 0 7) => Int 7
(List Int) | (list 10 11) | (len x) => Int 2
(List Int) | (list) | (len x) => Int 0
§ Short forms, which mean what their core forms do.
(Pair (Event Int) (Event Int)) | (pair (event 1) (event 2)) | (lMerge (fst x) (snd x)) => (Event Int) (event 1) of (on (fst x) (snd x) (event (snd x)))
(Pair (Event Int) (Event Int)) | (pair none (event 2)) | (lMerge (fst x) (snd x)) => (Event Int) (event 2) of (on (fst x) (snd x) (event (snd x)))
(Pair (Event Int) (Event Int)) | (pair (event 1) none) | (lMerge (fst x) (snd x)) => (Event Int) (event 1) of (on (fst x) (snd x) (event (snd x)))
(Pair (Event Int) (Event Int)) | (pair none none) | (lMerge (fst x) (snd x)) => (Event Int) none of (on (fst x) (snd x) (event (snd x)))
(Pair (Event Int) Bool) | (pair (event 4) true) | (gate Int (fst x) (snd x)) => (Event Int) (event 4) of (if (snd x) (fst x) (none Int))
(Pair (Event Int) Bool) | (pair (event 4) false) | (gate Int (fst x) (snd x)) => (Event Int) none of (if (snd x) (fst x) (none Int))
(Pair (Event Bool) Int) | (pair (event true) 9) | (tag Int (fst x) (snd x)) => (Event Int) (event 9) of (on (fst x) (none Int) (event (then (fst x) (snd x))))
(Pair (Event Bool) Int) | (pair none 9) | (tag Int (fst x) (snd x)) => (Event Int) none of (on (fst x) (none Int) (event (then (fst x) (snd x))))
(Pair (Event Bool) Int) | (pair (event true) 9) | (attach (Pair Bool Int) (fst x) (snd x)) => (Event (Pair Bool Int)) (event (pair true 9)) of (on (fst x) (none (Pair Bool Int)) (event (pair (snd x) (then (fst x) (snd x)))))
(Pair (Event Bool) Int) | (pair none 9) | (attach (Pair Bool Int) (fst x) (snd x)) => (Event (Pair Bool Int)) none of (on (fst x) (none (Pair Bool Int)) (event (pair (snd x) (then (fst x) (snd x)))))
§ The largest expressions: 100,000 nodes, and height 256 with 99,570 nodes.
Int | 3 | (len (list Int{99998* 0})) => Int 99998
Int | 3 | (len (list Int{392* [253*(neg ]x[253*)]})) => Int 392
";

#[test]
fn expressions_are_worked_out(rt: HostRuntime) {
    all_are_found(&rt, rt.alloc(), Probe::Worked, WORKED);
}
