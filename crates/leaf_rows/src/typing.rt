// Which expressions have a type, and which refusal comes first.

use crate::found::{Probe, all_are_found};
use leaf_core::{Expr, ExprFault, expr_fits, type_of_expr};
use row_texts::texts::{expr_in, parted, say, say_shown, type_in};
use sample_core::{Ty, push_type};
use std::alloc::Global;

/// Says whether the expression has a type at an input of the type, under the parameters of the
/// rows.
pub fn typing_told(alloc: Global, given: &str, out: &mut String) {
    under_told(alloc, &PARAMS, given, out);
}

/// Says whether it has one with no parameter in scope.
pub fn typing_alone_told(alloc: Global, given: &str, out: &mut String) {
    under_told(alloc, &[], given, out);
}

/// The parameters' types: parameter 0 is a number, parameter 1 a truth value.
const PARAMS: [Ty; 2] = [Ty::Int, Ty::Bool];

fn under_told(alloc: Global, params: &[Ty], given: &str, out: &mut String) {
    let (input, text) = parted(given);
    match type_in(alloc, input) {
        Some(input) => at_told(alloc, params, &input, text, out),
        None => say(out, "no input type"),
    }
}

fn at_told(alloc: Global, params: &[Ty], input: &Ty, text: &str, out: &mut String) {
    match expr_in(alloc, text) {
        Some(expr) => {
            let found = type_of_expr(alloc, params, input, &expr);
            found_told(found, expr_fits(&expr), out)
        }
        None => say(out, "no expression"),
    }
}

/// Says whether an expression has a type, which is or isn't within the limits.
fn found_told(found: Result<Ty, ExprFault>, fits: bool, out: &mut String) {
    match found {
        Ok(ty) => {
            drop(ty);
            say(
                out,
                if fits {
                    "typed"
                } else {
                    "typed beyond the limits"
                },
            )
        }
        Err(fault) => fault_told(fault, fits, out),
    }
}

/// Says the expression's type under the parameters of the rows.
pub fn type_told(alloc: Global, input: &Ty, expr: &Expr, out: &mut String) {
    match type_of_expr(alloc, &PARAMS, input, expr) {
        Ok(ty) => {
            drop(push_type(out, &ty));
            drop(ty);
        }
        Err(fault) => fault_told(fault, true, out),
    }
}

/// Says why the expression, which is or isn't within the limits, has no type.
fn fault_told(fault: ExprFault, fits: bool, out: &mut String) {
    if !fits {
        say(out, "over the limits: ");
    }
    say_shown(out, &fault);
}

/// Expressions that have a type, and why others have none. An expression's height and nodes are
/// tested before all else; a type that a form names before the form's parts, and the form's own type
/// after them.
static TYPINGS: &str = "
§ Expressions that have a type that is not as wanted.
Int | (fst x) => mismatch
Int | (snd x) => mismatch
Int | (then true (add x 1)) => mismatch
Int | (neg true) => mismatch
Int | (add true 1) => mismatch
Int | (add 1 true) => mismatch
Int | (sub true 1) => mismatch
Int | (sub 1 true) => mismatch
Int | (mul unit 1) => mismatch
Int | (mul 1 unit) => mismatch
Int | (less true 1) => mismatch
Int | (less 1 true) => mismatch
Int | (equal 1 true) => mismatch
Int | (equal (list Int) (list Bool)) => mismatch
Int | (not 1) => mismatch
Int | (and 1 true) => mismatch
Int | (and true 1) => mismatch
Int | (or 1 true) => mismatch
Int | (or true 1) => mismatch
Int | (if 1 2 3) => mismatch
Int | (if true 1 true) => mismatch
Int | (on x 1 2) => mismatch
Int | (on (none Int) 1 true) => mismatch
Int | (on (none Int) 1 x) => mismatch
Int | (list Int 1 true) => mismatch
Int | (list Bool x) => mismatch
Int | (nth x 0 1) => mismatch
Int | (nth (list Int 1) true 1) => mismatch
Int | (nth (list Int 1) 0 true) => mismatch
Int | (len x) => mismatch
Int | (len (event x)) => mismatch
Int | (lMerge (event 1) (event true)) => mismatch
Int | (gate Bool (event 1) true) => mismatch
Int | (tag Bool (event 1) 2) => mismatch
§ Of several faults the leftmost is answered: a part is tested before the next is walked.
Int | (p 2) => no parameter
Int | (p 65535) => no parameter
Int | (add (p 2) true) => no parameter
Int | (add true (p 2)) => mismatch
Int | (if (p 2) 1 true) => no parameter
Int | (if 1 (p 2) 1) => mismatch
Int | (on 5 (p 2) 1) => mismatch
Int | (on (none Int) (p 2) (neg true)) => no parameter
Int | (nth x (p 2) 1) => mismatch
Int | (nth (list Int) true (p 2)) => mismatch
Int | (list Int (p 2) true) => no parameter
Int | (list Int true (p 2)) => mismatch
Int | (equal (p 2) (fst x)) => no parameter
§ Limits: a type's depth, 32, and nodes, 256; an expression's height, 256, and nodes, 100,000.
{31*(Event }Int{31*)} | (event x) => expression too deep
{31*(Event }Int{31*)} | (pair x 1) => expression too deep
{31*(Event }Int{31*)} | (list Int (event x) (p 2)) => expression too deep
{31*(Event }Int{31*)} | (add (event x) 1) => expression too deep
{31*(Event }Int{31*)} | (on (none Int) (p 2) (p 2)) => no parameter
{31*(Event }Int{31*)} | (on (none Int) 1 (p 2)) => expression too deep
{31*(Event }Int{31*)} | (on (none Int) 1 1) => expression too deep
Int | {7*(then (pair x x) }(event x){7*)} => typed
Int | {7*(then (pair x x) }(event (event x)){7*)} => expression too deep
Int | {7*(then (pair x x) }(pair x 1){7*)} => expression too deep
Int | (none {30*(Event }Int{30*)}) => typed
Int | (none {31*(Event }Int{31*)}) => expression too deep
Int | (list {30*(Event }Int{30*)}) => typed
Int | (list {31*(Event }Int{31*)}) => expression too deep
Int | (list {31*(Event }Int{31*)} (p 2)) => no parameter
Int | (list {32*(Event }Int{32*)} (p 2)) => expression too deep
Int | {255*(neg }x{255*)} => typed
Int | {256*(neg }x{256*)} => over the limits: expression too deep
Int | {256*(neg }(p 2){256*)} => over the limits: expression too deep
Int | {255*(neg }(p 2){255*)} => no parameter
Int | {256*(then true }(p 2){256*)} => over the limits: expression too deep
Int | {600*(then x }x{600*)} => over the limits: expression too deep
Int | (list Int{99999* 0}) => typed
Int | (list Int{100000* 0}) => over the limits: expression too deep
";

/// No parameter is in scope.
static ALONE: &str = "
§ Without parameters.
Int | (p 0) => no parameter
Int | x => typed
";

#[test]
fn types_are_found_or_refused(rt: HostRuntime) {
    all_are_found(&rt, rt.alloc(), Probe::Typing, TYPINGS);
    all_are_found(&rt, rt.alloc(), Probe::TypingAlone, ALONE);
}
