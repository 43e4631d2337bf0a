// Texts of expressions and types: what is read, what is printed, what is refused and at which
// byte.

use crate::found::{Probe, all_are_found};
use leaf_core::{Expr, ExprChild, Exprs, same_expr, type_fits};
use leaf_expr::{ExprTextFault, push_expr, read_expr, read_expr_at, read_type_at};
use row_texts::texts::{bytes_in, expr_in, number_in, numbered, parted, say, say_at, say_shown};
use sample_core::{Memory, Ty, TyChild, push_type, same_type};
use std::alloc::Global;

/// Says how the expression of the whole text is printed, or why none is read.
pub fn expr_told(alloc: Global, text: &str, out: &mut String) {
    let bytes = bytes_in(alloc, text);
    reading_told(alloc, read_expr(alloc, &bytes), text, out);
}

/// Says what was read of the whole text, or why nothing was.
pub fn reading_told(
    alloc: Global,
    read: Result<Expr, ExprTextFault>,
    text: &str,
    out: &mut String,
) {
    match read {
        Ok(expr) => {
            expr_printed(alloc, &expr, text, out);
            drop(expr);
        }
        Err(fault) => say_shown(out, &fault),
    }
}

/// Says how the expression is printed that is read from a byte on, and where it ends.
pub fn expr_at_told(alloc: Global, given: &str, out: &mut String) {
    let (place, text) = parted(given);
    let (at, depth) = numbered(place);
    match read_expr_at(alloc, text.as_bytes(), number_in(at), depth) {
        Ok((expr, end)) => {
            drop(push_expr(out, &expr));
            drop(expr);
            say_at(out, " to", end)
        }
        Err(fault) => say_shown(out, &fault),
    }
}

/// Says how the type is printed that is read from a byte on, and where it ends.
pub fn type_at_told(alloc: Global, given: &str, out: &mut String) {
    let (place, text) = parted(given);
    let (at, depth) = numbered(place);
    match read_type_at(alloc, text.as_bytes(), number_in(at), depth) {
        Ok((ty, end)) => {
            type_printed(alloc, &ty, out);
            drop(ty);
            say_at(out, " to", end)
        }
        Err(fault) => say_shown(out, &fault),
    }
}

/// Says how the expression is printed, and what is wrong with it.
fn expr_printed(alloc: Global, expr: &Expr, text: &str, out: &mut String) {
    if !is_read_again(alloc, expr, text) {
        say(out, "not the same when it is read again ");
    }
    if !is_copied(alloc, expr) {
        say(out, "not the same as its copy ");
    }
    drop(push_expr(out, expr));
}

fn is_read_again(alloc: Global, expr: &Expr, text: &str) -> bool {
    match expr_in(alloc, text) {
        Some(again) => same_expr(&again, expr),
        None => false,
    }
}

/// Whether the expression's copy is the expression, and likewise of its parts.
fn is_copied(alloc: Global, expr: &Expr) -> bool {
    match expr.try_copy(alloc) {
        Ok(copy) => {
            let right = same_expr(&copy, expr) && parts_are_copied(expr);
            drop(copy);
            right
        }
        Err(Memory) => false,
    }
}

fn parts_are_copied(expr: &Expr) -> bool {
    match expr {
        Expr::Neg(a) => part_is_copied(a),
        Expr::List(_, all) => items_are_copied(all),
        _ => true,
    }
}

fn part_is_copied(part: &ExprChild) -> bool {
    match part.try_copy() {
        Ok(copy) => same_expr(copy.get(), part.get()),
        Err(Memory) => false,
    }
}

/// Whether the copy of a list's elements has as many.
fn items_are_copied(all: &Exprs) -> bool {
    match all.try_copy() {
        Ok(copy) => copy.as_slice().len() == all.as_slice().len(),
        Err(Memory) => false,
    }
}

/// Says how the type is printed, and what is wrong with it.
fn type_printed(alloc: Global, ty: &Ty, out: &mut String) {
    if !is_type_copied(alloc, ty) {
        say(out, "not the same as its copy ");
    }
    if !type_fits(ty) {
        say(out, "too deep ");
    }
    drop(push_type(out, ty));
}

/// Whether the type's copy is the type, and likewise of its parts.
fn is_type_copied(alloc: Global, ty: &Ty) -> bool {
    match ty.try_copy(alloc) {
        Ok(copy) => {
            let right = same_type(&copy, ty) && type_parts_are_copied(ty);
            drop(copy);
            right
        }
        Err(Memory) => false,
    }
}

fn type_parts_are_copied(ty: &Ty) -> bool {
    match ty {
        Ty::Pair(a, b) => type_child_is_copied(a) && type_child_is_copied(b),
        Ty::Event(a) | Ty::List(a) => type_child_is_copied(a),
        _ => true,
    }
}

fn type_child_is_copied(child: &TyChild) -> bool {
    match child.try_copy() {
        Ok(copy) => same_type(copy.get(), child.get()),
        Err(Memory) => false,
    }
}

/// Texts of expressions, how they are printed, and why they are refused.
static EXPRESSIONS: &str = "
§ Texts as they are printed: short forms are written out, white space and comments part tokens.
x => x
unit => unit
true => true
false => false
0 => 0
-9223372036854775808 => -9223372036854775808
9223372036854775807 => 9223372036854775807
(p 0) => (p 0)
(p 65535) => (p 65535)
(pair x unit) => (pair x unit)
(fst x) => (fst x)
(snd x) => (snd x)
(then x x) => (then x x)
(neg x) => (neg x)
(add x 1) => (add x 1)
(sub x 1) => (sub x 1)
(mul x 1) => (mul x 1)
(less x 1) => (less x 1)
(equal x 1) => (equal x 1)
(not x) => (not x)
(and x x) => (and x x)
(or x x) => (or x x)
(if x 1 2) => (if x 1 2)
(none (Pair Int (Event Bool))) => (none (Pair Int (Event Bool)))
(event x) => (event x)
(on x 1 2) => (on x 1 2)
(list (List Unit)) => (list (List Unit))
(list Int 1 (neg 2) 3) => (list Int 1 (neg 2) 3)
(nth (list Int x) (len x) 1) => (nth (list Int x) (len x) 1)
(p 3) => (p 3)
(pair x 1) => (pair x 1)
(then x 1) => (then x 1)
(neg (add x 1)) => (neg (add x 1))
(and x true) => (and x true)
(or x true) => (or x true)
(none (List Int)) => (none (List Int))
(list Int 1 x) => (list Int 1 x)
(nth x 1 2) => (nth x 1 2)
(len x) => (len x)
(lMerge x (fst x)) => (on x (fst x) (event (snd x)))
(gate Int 1 true) => (if true 1 (none Int))
(tag Int x 7) => (on x (none Int) (event (then (fst x) 7)))
(attach (Pair Int Int) x 7) => (on x (none (Pair Int Int)) (event (pair (snd x) (then (fst x) 7))))
 ;(␤(add␉x␍␤1);) => (add x 1)
(add(neg x)1) => (add (neg x) 1)
( add x 1 ) => (add x 1)
(none(Event;Bool␤Int)) => (none (Event Int))
x;x␍x => x
§ Texts that are refused, and so. The last has a word of bytes that are no text.
(add x 01) => number at byte 7
(add x -0) => number at byte 7
(add x -01) => number at byte 7
(p 65536) => number at byte 3
(p -1) => number at byte 3
(p 00) => number at byte 3
9223372036854775808 => number at byte 0
-9223372036854775809 => number at byte 0
(add 1 99999999999999999999 => number at byte 7
(1 2) => syntax at byte 1
(none 5) => syntax at byte 6
(none 05) => syntax at byte 6
(none x) => syntax at byte 6
(list 1) => syntax at byte 6
(list (Pair Int) 1) => syntax at byte 15
(none (Maybe Int)) => syntax at byte 7
(p x) => syntax at byte 3
(p (p 0)) => syntax at byte 3
(p) => syntax at byte 2
+1 => syntax at byte 0
- => syntax at byte 0
1x => syntax at byte 0
X => syntax at byte 0
add => syntax at byte 0
Int => syntax at byte 0
(x) => syntax at byte 1
(arr x) => syntax at byte 1
() => syntax at byte 1
((add x 1)) => syntax at byte 1
) => syntax at byte 0
(add x) => syntax at byte 6
(add x => syntax at byte 6
(add x 1;) => syntax at byte 10
 => syntax at byte 0
 ; x => syntax at byte 4
x x => syntax at byte 2
(add x 1)) => syntax at byte 9
(add x 1 2) => syntax at byte 9
(add x ␀␋␌~ 1) => syntax at byte 7
§ Long texts, and texts with many open parentheses: the 601st is refused, also where none fits.
{600*(neg } => syntax at byte 3000
{600*(neg }01 => number at byte 3000
{600*(neg }( => nesting at byte 3000
{601*(neg } => nesting at byte 3000
{599*(neg }(p ( => nesting at byte 2998
{598*(neg }(p ( => syntax at byte 2993
{600*(then x }x{600*)} => {600*(then x }x{600*)}
x{1048575* } => x
x{1048576* } => too long
){1048576* } => too long
";

#[test]
fn expressions_are_read(rt: HostRuntime) {
    all_are_found(&rt, rt.alloc(), Probe::Expr, EXPRESSIONS);
}

/// A byte and how many parentheses are open, a text, and what expression is read from there.
static EXPRESSIONS_AT: &str = "
§ Expressions inside a text.
0 1 | (add x 1)) => (add x 1) to 9
5 1 | (arr (add x 1)) => (add x 1) to 14
4 1 | (arr (add x 1)) => (add x 1) to 14
4 1 | (arr  ; (␤ x) => x to 12
0 0 | 12 13 => 12 to 2
1 0 | 12 13 => 2 to 2
0 599 | (neg x) => (neg x) to 7
8 1 | (add x 1) => syntax at byte 8
9 0 | (add x 1) => syntax at byte 9
7 1 | (add x 01) => number at byte 7
0 600 | (add x 1) => nesting at byte 0
0 599 | (add (neg x) 1) => nesting at byte 5
";

/// A byte and how many parentheses are open, a text, and what type is read from there. A type of
/// depth 33 is read, and is over the limits.
static TYPES_AT: &str = "
§ Types inside a text.
0 0 | Int => Int to 3
5 0 | input (Pair Int(List Bool)) x => (Pair Int (List Bool)) to 27
0 1 | Unit) => Unit to 4
0 599 | (Event Int) => (Event Int) to 11
1 600 | XInt => Int to 4
5 0 | input 5 => syntax at byte 6
0 0 | (Pair Int Int Int) => syntax at byte 14
0 0 | (Event 05) => syntax at byte 7
0 0 | (List Int => syntax at byte 9
0 600 | (List Int) => nesting at byte 0
0 599 | (List (Event Int)) => nesting at byte 6
0 0 | Unit => Unit to 4
0 0 | Bool => Bool to 4
0 0 | Int => Int to 3
0 0 | (Pair Int Bool) => (Pair Int Bool) to 15
0 0 | (Event (List Unit)) => (Event (List Unit)) to 19
0 0 | (List Int) => (List Int) to 10
0 0 | {31*(List }Int{31*)} => {31*(List }Int{31*)} to 220
0 0 | {32*(List }Int{32*)} => too deep {32*(List }Int{32*)} to 227
0 0 | {600*(List }Int{600*)} => too deep {600*(List }Int{600*)} to 4203
0 0 | {601*(List }Int{601*)} => nesting at byte 3600
";

#[test]
fn texts_are_read_from_a_place(rt: HostRuntime) {
    all_are_found(&rt, rt.alloc(), Probe::ExprAt, EXPRESSIONS_AT);
    all_are_found(&rt, rt.alloc(), Probe::TypeAt, TYPES_AT);
}
