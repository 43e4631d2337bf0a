// What laws make of expressions and of networks.

use crate::found::{LawProbe, Probe, all_are_found};
use expr_laws::apply_expr;
use law_rules::apply_law;
use leaf_expr::{Expr, push_expr};
use net_text::{push_net, read_net};
use net_tree::{Direction, Law, Net};
use row_texts::texts::{expr_in, number_in, parted, say, say_shown};
use std::alloc::Global;

/// A law, taken one way where so many frozen networks are in scope.
#[derive(Clone, Copy)]
struct LawUse {
    law: Law,
    direction: Direction,
    olds: u32,
}

/// The network that the text spells, whatever its types.
fn net_in(alloc: Global, text: &str) -> Option<Box<Net<Expr>>> {
    let mut file = String::new(alloc);
    say(&mut file, "yampa 2 input Int ");
    say(&mut file, text);
    match read_net(alloc, file.as_bytes()) {
        Ok((input, net)) => {
            drop(input);
            Box::new(alloc, net).ok()
        }
        Err(_fault) => None,
    }
}

/// What `E1 forward` and `L38 backward 2` say.
fn use_of(words: &str) -> LawUse {
    let (law, behind) = words.split_once(' ').unwrap_or((words, ""));
    let (way, olds) = behind.split_once(' ').unwrap_or((behind, ""));
    LawUse {
        law: law_in(law),
        direction: match way {
            "backward" => Direction::Backward,
            _ => Direction::Forward,
        },
        olds: u32::try_from(number_in(olds)).unwrap_or(0),
    }
}

/// The law of that name: a letter and a number up to 255.
fn law_in(word: &str) -> Law {
    match word.strip_prefix('E') {
        Some(digits) => Law::E(law_number(digits)),
        None => Law::L(law_number(word.strip_prefix('L').unwrap_or(""))),
    }
}

fn law_number(digits: &str) -> u8 {
    u8::try_from(number_in(digits)).unwrap_or(0)
}

/// Says what a law makes of an expression, `LAW DIRECTION | EXPR`, and behind it ` | GIVEN` where
/// an expression is given.
pub fn expr_law_told(alloc: Global, given: &str, out: &mut String) {
    let (words, trees) = parted(given);
    let (text, other) = parted(trees);
    match expr_in(alloc, text) {
        Some(expr) => expr_made_told(alloc, use_of(words), &expr, other, out),
        None => say(out, "no expression"),
    }
}

fn expr_made_told(alloc: Global, taken: LawUse, expr: &Expr, other: &str, out: &mut String) {
    if other.is_empty() {
        return expr_from_told(alloc, taken, expr, None, out);
    }
    match expr_in(alloc, other) {
        Some(given) => expr_from_told(alloc, taken, expr, Some(&given), out),
        None => say(out, "no given expression"),
    }
}

fn expr_from_told(
    alloc: Global,
    taken: LawUse,
    expr: &Expr,
    given: Option<&Expr>,
    out: &mut String,
) {
    match apply_expr(alloc, taken.law, taken.direction, expr, given) {
        Ok(Some(made)) => {
            drop(push_expr(out, &made));
            drop(made);
        }
        Ok(None) => say(out, "nothing"),
        Err(memory) => say_shown(out, &memory),
    }
}

/// Says what a law makes of a network, `LAW DIRECTION | NET`, and behind it ` | GIVEN` where a
/// network is given. Behind the direction stands how many frozen networks are in scope, if any.
pub fn net_law_told(alloc: Global, given: &str, out: &mut String) {
    let (words, trees) = parted(given);
    let (text, other) = parted(trees);
    match net_in(alloc, text) {
        Some(net) => net_made_told(alloc, use_of(words), &net, other, out),
        None => say(out, "no network"),
    }
}

fn net_made_told(alloc: Global, taken: LawUse, net: &Net<Expr>, other: &str, out: &mut String) {
    if other.is_empty() {
        return net_from_told(alloc, taken, net, None, out);
    }
    match net_in(alloc, other) {
        Some(given) => net_from_told(alloc, taken, net, Some(&given), out),
        None => say(out, "no given network"),
    }
}

fn net_from_told(
    alloc: Global,
    taken: LawUse,
    net: &Net<Expr>,
    given: Option<&Net<Expr>>,
    out: &mut String,
) {
    match apply_law(alloc, taken.law, taken.direction, net, given, taken.olds) {
        Ok(Some(made)) => {
            drop(push_net(out, &made));
            drop(made);
        }
        Ok(None) => say(out, "nothing"),
        Err(memory) => say_shown(out, &memory),
    }
}

/// Laws, expressions and what is made of them.
static EXPR_LAWS: &str = "
§ What is handed on.
E1 forward | (then x (neg x)) => (neg x)
E2 forward | (then (neg x) x) => (neg x)
E1 forward | (then x x) => x
E3 forward | (then (then (fst x) (neg x)) (event x)) => (then (fst x) (then (neg x) (event x)))
§ Into the parts of an operation, of `on`, and where nothing is looked at.
E4 forward | (then (fst x) (add x 1)) => (add (then (fst x) x) (then (fst x) 1))
E4 forward | (then (fst x) (if x 1 2)) => (if (then (fst x) x) (then (fst x) 1) (then (fst x) 2))
E4 forward | (then 1 (list Int x 2)) => (list Int (then 1 x) (then 1 2))
E4 forward | (then 1 (list Int)) => nothing
E4 forward | (then 1 (then x x)) => nothing
E4 forward | (then 1 (on x 2 3)) => nothing
E4 forward | (then 1 (len x)) => (len (then 1 x))
E5 forward | (then (snd x) (on x 1 (fst x))) => (on (then (snd x) x) (then (snd x) 1) (then (pair (then (fst x) (snd x)) (snd x)) (fst x)))
E6 forward | (then (neg true) 5) => 5
E6 forward | (then x (p 3)) => (p 3)
E6 forward | (then x (none Int)) => (none Int)
E6 forward | (then x (list Bool)) => (list Bool)
E6 forward | (then x (list Bool true)) => nothing
E6 forward | (then 1 x) => nothing
§ Pairs, choices and events.
E7 forward | (fst (pair 1 true)) => 1
E8 forward | (snd (pair 1 true)) => true
E9 forward | (pair (fst (p 0)) (snd (p 0))) => (p 0)
E9 forward | (pair (fst (p 0)) (snd (p 1))) => nothing
E10 forward | (if true 1 2) => 1
E10 forward | (if false 1 2) => nothing
E11 forward | (if false 1 2) => 2
E12 forward | (if (p 0) (neg x) (neg x)) => (neg x)
E12 forward | (if x 1 2) => nothing
E13 forward | (on (none (Pair Int Bool)) 1 x) => 1
E14 forward | (on (event 3) 1 (snd x)) => (then (pair x 3) (snd x))
§ Literals.
E15 forward | (add 9223372036854775807 1) => -9223372036854775808
E15 forward | (neg -9223372036854775808) => -9223372036854775808
E15 forward | (sub 2 5) => -3
E15 forward | (mul 4294967296 4294967296) => 0
E15 forward | (less -1 0) => true
E15 forward | (equal unit unit) => true
E15 forward | (equal true false) => false
E15 forward | (equal 7 7) => true
E15 forward | (equal 1 true) => nothing
E15 forward | (not true) => false
E15 forward | (and true false) => false
E15 forward | (or true false) => true
E15 forward | (add 1 true) => nothing
E15 forward | (add 1 (add 1 1)) => nothing
§ Sums and lists.
E16 forward | (add 1 x) => (add x 1)
E17 forward | (add (add 1 2) 3) => (add 1 (add 2 3))
E17 forward | (add 1 (add 2 3)) => nothing
E18 forward | (nth (list Int 5 6) 1 7) => 6
E18 forward | (nth (list Int 5 6) 2 7) => 7
E18 forward | (nth (list Int 5 6) -1 7) => 7
E18 forward | (nth (list Int) 0 7) => nothing
E18 forward | (nth (list Int 5 6) x 7) => nothing
§ Differences and products.
E19 forward | (sub x 3) => (add x (neg 3))
E19 forward | (add x 3) => nothing
E19 backward | (add x (neg 3)) | (sub x 3) => (sub x 3)
E19 backward | (add x (neg 3)) | (sub 3 x) => nothing
E20 forward | (mul 2 x) => (mul x 2)
E20 forward | (add 2 x) => nothing
E21 forward | (mul (mul 2 x) 3) => (mul 2 (mul x 3))
E21 forward | (mul 2 (mul x 3)) => nothing
E22 forward | (mul x (add 1 2)) => (add (mul x 1) (mul x 2))
E22 forward | (mul (add 1 2) x) => nothing
E22 backward | (add (mul x 1) (mul x 2)) | (mul x (add 1 2)) => (mul x (add 1 2))
E22 backward | (add (mul x 1) (mul (neg x) 2)) | (mul x (add 1 2)) => nothing
§ Logic and tests of equality.
E23 forward | (and true (not x)) => (not x)
E23 forward | (and false (not x)) => false
E23 forward | (or true (not x)) => true
E23 forward | (or false (not x)) => (not x)
E23 forward | (and x true) => (and true x)
E23 forward | (or (not x) x) => (or x (not x))
E23 forward | (and 1 2) => (and 2 1)
E23 forward | (not x) => nothing
E23 backward | x | (or false x) => (or false x)
E23 backward | (and true x) | (and x true) => (and x true)
E23 backward | (and true x) | (and true x) => nothing
E24 forward | (not (not x)) => x
E24 forward | (not x) => nothing
E25 forward | (if (not x) 1 2) => (if x 2 1)
E25 forward | (if x 1 2) => nothing
E26 forward | (equal (neg x) (neg x)) => true
E26 forward | (equal x 1) => (equal 1 x)
E26 forward | (less x x) => nothing
E26 backward | true | (equal x x) => (equal x x)
E26 backward | true | (equal x 1) => nothing
E26 backward | (equal x 1) | (equal 1 x) => (equal 1 x)
§ Sums with 0, products with 1 and 0, and opposites.
E27 forward | (add x 0) => x
E27 forward | (add 0 x) => nothing
E27 forward | (add x 1) => nothing
E27 backward | x | (add x 0) => (add x 0)
E28 forward | (mul x 1) => x
E28 forward | (mul x 0) => nothing
E28 forward | (mul x -1) => nothing
E29 forward | (mul x 0) => 0
E29 forward | (mul x 1) => nothing
E29 backward | 0 | (mul (snd x) 0) => (mul (snd x) 0)
E30 forward | (neg (neg x)) => x
E30 forward | (neg x) => nothing
E31 forward | (neg (add x 1)) => (add (neg x) (neg 1))
E31 forward | (neg (sub x 1)) => nothing
E32 forward | (neg (mul x 3)) => (mul (neg x) 3)
E32 backward | (mul (neg x) 3) | (neg (mul x 3)) => (neg (mul x 3))
E33 forward | (add x (neg x)) => 0
E33 forward | (add x (neg 1)) => nothing
E33 forward | (add (neg x) x) => nothing
E34 forward | (less x x) => false
E34 forward | (less x 1) => nothing
E34 backward | false | (less 3 3) => (less 3 3)
§ Logic.
E35 forward | (and x x) => x
E35 forward | (and x true) => nothing
E35 forward | (or x x) => nothing
E36 forward | (or x x) => x
E36 forward | (or x false) => nothing
E37 forward | (and (and x true) false) => (and x (and true false))
E37 forward | (and x (and true false)) => nothing
E38 forward | (or (or x true) false) => (or x (or true false))
E38 forward | (or (and x true) false) => nothing
E39 forward | (and x (not x)) => false
E39 forward | (and (not x) x) => nothing
E40 forward | (or x (not x)) => true
E40 forward | (or x (not true)) => nothing
E41 forward | (not (and x true)) => (or (not x) (not true))
E41 forward | (not (or x true)) => nothing
E42 forward | (not (or x true)) => (and (not x) (not true))
E43 forward | (and x (or true false)) => (or (and x true) (and x false))
E43 backward | (or (and x true) (and x false)) | (and x (or true false)) => (and x (or true false))
E43 backward | (or (and x true) (and true false)) | (and x (or true false)) => nothing
§ Choices.
E44 forward | (if x true false) => x
E44 forward | (if x false true) => nothing
E45 forward | (and x true) => (if x true false)
E46 forward | (or x false) => (if x true false)
E46 forward | (and x false) => nothing
E47 forward | (if x (if x 1 2) 3) => (if x 1 3)
E47 forward | (if x (if true 1 2) 3) => nothing
E47 forward | (if x 1 (if x 2 3)) => nothing
E48 forward | (if x 1 (if x 2 3)) => (if x 1 3)
E48 forward | (if x 1 (if true 2 3)) => nothing
§ A choice among an operation's parts.
E49 forward | (neg (if x 1 2)) => (if x (neg 1) (neg 2))
E49 forward | (add (if x 1 2) (if true 3 4)) => (if x (add 1 (if true 3 4)) (add 2 (if true 3 4)))
E49 forward | (pair 5 (if true 3 4)) => (if true (pair 5 3) (pair 5 4))
E49 forward | (if (if x true false) 1 2) => (if x (if true 1 2) (if false 1 2))
E49 forward | (if x (if true 1 2) (if false 3 4)) => (if true (if x 1 (if false 3 4)) (if x 2 (if false 3 4)))
E49 forward | (if x 1 (if false 3 4)) => (if false (if x 1 3) (if x 1 4))
E49 forward | (if x 1 2) => nothing
E49 forward | (nth (list Int x) 0 (if true 1 2)) => (if true (nth (list Int x) 0 1) (nth (list Int x) 0 2))
E49 forward | (then (if x 1 2) (neg x)) => (if x (then 1 (neg x)) (then 2 (neg x)))
E49 forward | (then x (if x 1 2)) => nothing
E49 forward | (on (if x (p 0) (p 1)) 0 (snd x)) => (if x (on (p 0) 0 (snd x)) (on (p 1) 0 (snd x)))
E49 forward | (on x (if true 0 1) (snd x)) => (if true (on x 0 (snd x)) (on x 1 (snd x)))
E49 forward | (on x 0 (if true 1 2)) => nothing
E49 forward | (list Int 5 (if x 1 2) (if true 3 4)) => (if x (list Int 5 1 (if true 3 4)) (list Int 5 2 (if true 3 4)))
E49 forward | (list Int 5 6) => nothing
E49 forward | (list Int) => nothing
E49 backward | (if x (neg 1) (neg 2)) | (neg (if x 1 2)) => (neg (if x 1 2))
E49 backward | (if x (neg 1) (neg 3)) | (neg (if x 1 2)) => nothing
§ Events.
E50 forward | (on (on (p 0) (p 1) (p 2)) 5 (neg (snd x))) => (on (p 0) (on (p 1) 5 (neg (snd x))) (on (p 2) (then (fst x) 5) (then (pair (fst (fst x)) (snd x)) (neg (snd x)))))
E50 forward | (on (p 0) 5 (neg (snd x))) => nothing
E51 forward | (on (p 0) (none Int) (event (snd x))) => (p 0)
E51 forward | (on (p 0) (none Int) (event (fst x))) => nothing
E51 forward | (on (p 0) (event 1) (event (snd x))) => nothing
E51 backward | (p 0) | (on (p 0) (none Bool) (event (snd x))) => (on (p 0) (none Bool) (event (snd x)))
E52 forward | (on (p 0) 5 (then (fst x) 5)) => 5
E52 forward | (on (p 0) 5 (then (fst x) 6)) => nothing
E52 forward | (on (p 0) 5 5) => nothing
E53 forward | (then (on (p 0) 1 (snd x)) (neg x)) => (on (p 0) (then 1 (neg x)) (then (snd x) (neg x)))
E53 forward | (then x (on (p 0) 1 (snd x))) => nothing
E54 forward | (pair (on (p 0) 1 (snd x)) (neg x)) => (on (p 0) (pair 1 (neg x)) (pair (snd x) (then (fst x) (neg x))))
E54 forward | (pair x (on (p 0) 1 (snd x))) => nothing
E55 forward | (pair (neg x) (on (p 0) 1 (snd x))) => (on (p 0) (pair (neg x) 1) (pair (then (fst x) (neg x)) (snd x)))
E55 forward | (pair (on (p 0) 1 (snd x)) (neg x)) => nothing
§ Numbers of no law, trees too many or too few, and laws backward.
E0 forward | x => nothing
E56 forward | (add 1 2) => nothing
E1 forward | (then x 1) | 1 => nothing
E1 backward | 1 => nothing
E1 backward | 1 | (then x 1) => (then x 1)
E1 backward | 1 | (then x 2) => nothing
E1 backward | (then x 1) | 1 => nothing
E7 backward | x | (fst (pair x (neg x))) => (fst (pair x (neg x)))
E16 backward | (add 1 2) | (add 2 1) => (add 2 1)
L1 forward | (then x 1) => nothing
";

/// Laws, networks and what is made of them.
static NET_LAWS: &str = "
§ Stages.
L1 forward | (>>> (arr x) time) => time
L1 forward | (>>> (arr (p 0)) time) => nothing
L2 forward | (>>> time (arr x)) => time
L2 forward | (>>> (arr x) time) => nothing
L3 forward | (>>> (>>> time integral) (iPre 0)) => (>>> time (>>> integral (iPre 0)))
L3 forward | (>>> time (>>> integral (iPre 0))) => nothing
L4 forward | (>>> (arr (add x 1)) (arr (mul x 2))) => (arr (then (add x 1) (mul x 2)))
L10 forward | (>>> (arr (add x 1)) (>>> (arr (neg x)) time)) => (>>> (arr (then (add x 1) (neg x))) time)
L25 forward | (>>> time (arr (then unit 7))) => (arr (then unit 7))
L25 forward | (>>> time (arr (then x 7))) => nothing
§ Parts of pairs.
L5 forward | (first (arr (neg x))) => (arr (pair (then (fst x) (neg x)) (snd x)))
L6 forward | (first (>>> time integral)) => (>>> (first time) (first integral))
L7 forward | (>>> (first time) (arr (pair (fst x) (then (snd x) (neg x))))) => (>>> (arr (pair (fst x) (then (snd x) (neg x)))) (first time))
L7 forward | (>>> (first time) (arr (pair (fst x) (neg (snd x))))) => nothing
L8 forward | (>>> (first integral) (arr (fst x))) => (>>> (arr (fst x)) integral)
L9 forward | (>>> (first (first time)) (arr ‹assoc›)) => (>>> (arr ‹assoc›) (first time))
L9 forward | (>>> (first (first time)) (arr ‹unassoc›)) => nothing
§ Cells and delays.
L11 forward | (>>> (iPre 0) (arr (neg x))) => (>>> (arr (neg x)) (iPre (then 0 (neg x))))
L12 forward | (iPre (pair 1 true)) => (>>> (first (iPre 1)) (>>> (arr ‹swap›) (>>> (first (iPre true)) (arr ‹swap›))))
L26 forward | (>>> (delay 3 0) (arr (neg x))) => (>>> (arr (neg x)) (delay 3 (then 0 (neg x))))
§ Loops.
L13 forward | (>>> time (loopPre 0 integral)) => (loopPre 0 (>>> (first time) integral))
L14 forward | (>>> (loopPre 0 integral) time) => (loopPre 0 (>>> integral (first time)))
L15 forward | (loopPre 1 (>>> (arr (pair (fst x) (then (snd x) (neg x)))) integral)) => (loopPre (then 1 (neg x)) (>>> integral (arr (pair (fst x) (then (snd x) (neg x))))))
L16 forward | (loopPre 1 (loopPre 2 time)) => (loopPre (pair 1 2) (>>> (arr ‹unassoc›) (>>> time (arr ‹assoc›))))
L17 forward | (loopPre 0 (first time)) => time
§ Events.
L18 forward | (>>> (arr (event (neg x))) (hold 0)) => (arr (neg x))
L19 forward | (>>> (arr (none Int)) (hold 7)) => (arr (then unit 7))
L20 forward | (>>> integral (after 5 7)) => (after 5 7)
L20 forward | (>>> integral (repeatedly 3 unit)) => (repeatedly 3 unit)
L20 forward | (>>> integral time) => time
L20 forward | (>>> time integral) => nothing
L20 forward | (>>> integral (delay 5 7)) => nothing
L21 forward | (>>> (after 5 7) (arr ‹not of event›)) => (after 5 (then 7 (not x)))
L21 forward | (>>> (repeatedly 5 7) (arr ‹not of event›)) => nothing
L22 forward | (>>> (repeatedly 5 7) (arr ‹not of event›)) => (repeatedly 5 (then 7 (not x)))
L22 forward | (>>> (repeatedly 5 7) (arr (on x (none Int) (event (snd x))))) => nothing
L23 forward | (>>> (arr ‹not of event›) (hold (then true (not x)))) => (>>> (hold true) (arr (not x)))
L23 forward | (>>> (arr ‹not of event›) (hold (then true (neg x)))) => nothing
L24 forward | (>>> (arr ‹not of event›) (accumBy (snd x) 0)) => (accumBy (then (pair (fst x) (then (snd x) (not x))) (snd x)) 0)
§ Switches.
L27 forward | (>>> (arr (neg x)) (switch integral time)) => (switch (>>> (arr (neg x)) integral) (>>> (arr (neg x)) time))
L27 forward | (>>> (iPre 0) (switch integral time)) => nothing
L27 forward | (>>> (arr (neg x)) (dSwitch integral time)) => nothing
L28 forward | (>>> (arr (neg x)) (dSwitch integral time)) => (dSwitch (>>> (arr (neg x)) integral) (>>> (arr (neg x)) time))
L28 forward | (>>> (iPre 0) (dSwitch integral time)) => nothing
L29 forward | (>>> (switch integral time) (arr (neg x))) => (switch (>>> integral (arr (pair (then (fst x) (neg x)) (snd x)))) (>>> time (arr (neg x))))
L30 forward | (>>> (dSwitch integral time) (arr (neg x))) => (dSwitch (>>> integral (arr (pair (then (fst x) (neg x)) (snd x)))) (>>> time (arr (neg x))))
L31 forward | (switch (>>> integral (arr (pair x (none Int)))) time) => integral
L31 forward | (switch (>>> integral (arr (pair x (event 1)))) time) => nothing
L32 forward | (dSwitch (>>> integral (arr (pair x (none Int)))) time) => integral
L33 forward | (first (switch integral time)) => (switch (>>> (first integral) (arr (pair (pair (fst (fst x)) (snd x)) (snd (fst x))))) (first time))
L34 forward | (first (dSwitch integral time)) => (dSwitch (>>> (first integral) (arr (pair (pair (fst (fst x)) (snd x)) (snd (fst x))))) (first time))
L35 forward | (>>> (arr (pair (neg x) (none Int))) (rSwitch integral time)) => (>>> (arr (neg x)) integral)
L36 forward | (>>> (rSwitch integral time) (arr (neg x))) => (rSwitch (>>> integral (arr (neg x))) (>>> time (arr (neg x))))
§ Frozen networks.
L37 forward | (kSwitch integral (arr (none Unit)) time) => integral
L38 forward | (kSwitch integral time (old 0)) => integral
L38 forward 1 | (kSwitch integral time (old 0)) => nothing
L38 forward 2 | (kSwitch integral time (old 2)) => integral
L38 forward | (kSwitch integral time (old 1)) => nothing
L39 forward | (pSwitch (fst x) (col integral) (arr (none Int)) time) => (parB (>>> (arr (then (pair x 0) (fst x))) integral))
L39 forward | (pSwitch x (col{63* time} integral) (arr (none Int)) time) => (parB{63* (>>> (arr (then (pair x #) x)) time)} (>>> (arr (then (pair x 63) x)) integral))
L39 forward | (pSwitch x (col{65* time}) (arr (none Int)) time) => nothing
L39 forward | (pSwitch x (col) (arr (none Int)) time) => nothing
L39 forward | (pSwitch x (col time) (arr (event 1)) time) => nothing
§ Members.
L40 forward | (>>> (parB time integral) (arr (nth x 1 7))) => integral
L40 forward | (>>> (parB time integral) (arr (nth x 2 7))) => nothing
L40 forward | (>>> (parB time integral) (arr (nth x -1 7))) => nothing
L40 forward | (>>> (parB time integral) (arr (nth x (p 0) 7))) => nothing
L40 forward | (>>> (parB time) (arr (nth x 0 7))) => time
L40 forward | (>>> (parB{63* time} integral) (arr (nth x 63 7))) => integral
L40 forward | (>>> (parB{65* time}) (arr (nth x 0 7))) => nothing
L41 forward | (>>> time (parB integral)) => (parB (>>> time integral))
L41 forward | (>>> time (parB{63* (iPre #)} integral)) => (parB{63* (>>> time (iPre #))} (>>> time integral))
L41 forward | (>>> time (parB{65* integral})) => nothing
L41 forward | (>>> time (parB)) => nothing
L42 forward | (arr (list Int (neg x))) => (parB (arr (neg x)))
L42 forward | (arr (list Int{64* #})) => (parB{64* (arr #)})
L42 forward | (arr (list Int{65* 5})) => nothing
L42 forward | (arr (list Int)) => nothing
§ First outputs and first inputs.
L43 forward | (--> 1 (--> true time)) => (--> 1 time)
L43 forward | (--> 1 (--> 2 (--> 3 time))) => (--> 1 (--> 3 time))
L43 forward | (--> 1 (>-- 2 time)) => nothing
L43 forward | (>-- 1 (--> 2 time)) => nothing
L43 forward | (--> 1 time) => nothing
L43 backward | (--> 1 time) | (--> 1 (--> x time)) => (--> 1 (--> x time))
L43 backward | (--> 1 time) | (--> 2 (--> 1 time)) => nothing
L43 backward | (--> 1 time) => nothing
L44 forward | (>-- 3 (arr (add x 1))) => (--> (then 3 (add x 1)) (arr (add x 1)))
L44 forward | (>-- 3 (iPre 0)) => nothing
L44 forward | (--> 3 (arr x)) => nothing
L44 backward | (--> (then 3 (neg x)) (arr (neg x))) | (>-- 3 (arr (neg x))) => (>-- 3 (arr (neg x)))
L44 backward | (--> (then 3 (neg x)) (arr x)) | (>-- 3 (arr x)) => nothing
§ Late restarts.
L45 forward | (>>> (drSwitch integral time) (arr (neg x))) => (drSwitch (>>> integral (arr (neg x))) (>>> time (arr (neg x))))
L45 forward | (>>> (drSwitch integral time) (iPre 0)) => nothing
L45 forward | (>>> (rSwitch integral time) (arr (neg x))) => nothing
L36 forward | (>>> (drSwitch integral time) (arr (neg x))) => nothing
L45 backward | (drSwitch (>>> integral (arr x)) (>>> time (arr x))) | (>>> (drSwitch integral time) (arr x)) => (>>> (drSwitch integral time) (arr x))
L45 backward | (drSwitch (>>> integral (arr x)) (>>> time (arr 1))) | (>>> (drSwitch integral time) (arr x)) => nothing
§ Collections without events.
L46 forward | (>>> (arr (pair (neg x) (none Int))) (rpSwitchB (col time integral) x (arr (p 0)))) => (>>> (arr (neg x)) (parB time integral))
L46 forward | (>>> (arr (pair x (none Int))) (rpSwitchB (col{64* (iPre #)}) x time)) => (>>> (arr x) (parB{64* (iPre #)}))
L46 forward | (>>> (arr (pair x (none Int))) (rpSwitchB (col{65* time}) x time)) => nothing
L46 forward | (>>> (arr (pair x (none Int))) (rpSwitchB (col) x time)) => nothing
L46 forward | (>>> (arr (pair x (event 1))) (rpSwitchB (col time) x time)) => nothing
L46 forward | (>>> (arr x) (rpSwitchB (col time) x time)) => nothing
L46 forward | (>>> time (rpSwitchB (col time) x time)) => nothing
L46 forward | (rpSwitchB (col time) x time) => nothing
L46 backward | (>>> (arr x) (parB time)) | (>>> (arr (pair x (none Bool))) (rpSwitchB (col time) (p 3) integral)) => (>>> (arr (pair x (none Bool))) (rpSwitchB (col time) (p 3) integral))
L46 backward | (>>> (arr x) (parB time)) | (>>> (arr (pair x (none Bool))) (rpSwitchB (col integral) (p 3) integral)) => nothing
L46 backward | (>>> (arr x) (parB time)) => nothing
§ Loops.
L47 forward | (first (loopPre (p 0) time)) => (loopPre (p 0) (>>> (arr ‹cross›) (>>> (first time) (arr ‹cross›))))
L47 forward | (loopPre 1 (first time)) => nothing
L47 forward | (first (iPre 1)) => nothing
L47 backward | (loopPre 1 (>>> (arr ‹cross›) (>>> (first time) (arr ‹cross›)))) | (first (loopPre 1 time)) => (first (loopPre 1 time))
L47 backward | (loopPre 1 (>>> (arr ‹cross›) (>>> (first time) (arr ‹assoc›)))) | (first (loopPre 1 time)) => nothing
L48 forward | (*** time (iPre 0)) => (>>> (>>> (arr ‹swap›) (>>> (first (iPre 0)) (arr ‹swap›))) (first time))
L48 forward | (>>> (second (iPre 0)) (first time)) => nothing
L48 forward | (>>> (first time) (>>> (arr x) (>>> (first (iPre 0)) (arr ‹swap›)))) => nothing
L48 forward | (>>> (first time) (>>> (arr ‹swap›) (>>> (first (iPre 0)) (arr x)))) => nothing
L48 backward | (>>> (second (iPre 0)) (first time)) | (*** time (iPre 0)) => (>>> (first time) (>>> (arr ‹swap›) (>>> (first (iPre 0)) (arr ‹swap›))))
L48 backward | (>>> (second (iPre 0)) (first time)) | (*** (iPre 0) time) => nothing
L49 forward | (iPre (p 0)) => (loopPre (p 0) (arr ‹swap›))
L49 forward | (delay 1 0) => nothing
L49 backward | (loopPre 3 (arr ‹swap›)) | (iPre 3) => (iPre 3)
L49 backward | (loopPre 3 (arr ‹swap›)) | (iPre 4) => nothing
L50 forward | (hold true) => (loopPre true (arr ‹held›))
L50 forward | (iPre 3) => nothing
L50 backward | (loopPre 3 (arr ‹held›)) | (hold 3) => (hold 3)
L50 backward | (loopPre 3 (arr ‹swap›)) | (hold 3) => nothing
L51 forward | (loopPre 3 (arr ‹sums›)) => (accumBy (add (fst x) (snd x)) 3)
L51 forward | (loopPre 3 (arr (on (fst x) (pair (none Unit) (snd x)) (then (pair (snd (fst x)) (snd x)) (then 7 (pair (event x) x)))))) => (accumBy 7 3)
L51 forward | (loopPre 3 (arr (on (fst x) (pair (event 0) (snd x)) (then (pair (snd (fst x)) (snd x)) (then 7 (pair (event x) x)))))) => nothing
L51 forward | (loopPre 3 (arr (on (fst x) (pair (none Int) (snd x)) (then (pair (snd (fst x)) (snd x)) (then 7 (pair (event x) 7)))))) => nothing
L51 forward | (loopPre 3 (arr ‹held›)) => nothing
L51 forward | (accumBy 7 3) => nothing
L51 backward | (accumBy (add (fst x) (snd x)) 3) | (loopPre 3 (arr ‹sums›)) => (loopPre 3 (arr ‹sums›))
L51 backward | (accumBy (add (snd x) (fst x)) 3) | (loopPre 3 (arr ‹sums›)) => nothing
§ Copies, and accumulators that are held.
L52 forward | (>>> integral (arr (pair x x))) => (>>> (arr (pair x x)) (>>> (first integral) (>>> (arr ‹swap›) (>>> (first integral) (arr ‹swap›)))))
L52 forward | (>>> integral (arr (pair x 1))) => nothing
L52 backward | (&&& time time) | (>>> time (arr (pair x x))) => (>>> time (arr (pair x x)))
L52 backward | (&&& time integral) | (>>> time (arr (pair x x))) => nothing
L53 forward | (>>> (accumBy (add (fst x) (snd x)) 3) (hold 3)) => (loopPre 3 (arr (on (fst x) (pair (snd x) (snd x)) (then (pair (snd (fst x)) (snd x)) (then (add (fst x) (snd x)) (pair x x))))))
L53 forward | (>>> (accumBy 7 3) (hold 4)) => nothing
L53 forward | (>>> (accumBy 7 3) (iPre 3)) => nothing
L53 backward | (loopPre 3 (arr (on (fst x) (pair (snd x) (snd x)) (then (pair (snd (fst x)) (snd x)) (then 7 (pair x x)))))) | (>>> (accumBy 7 3) (hold 3)) => (>>> (accumBy 7 3) (hold 3))
L53 backward | (loopPre 3 (arr ‹held›)) | (>>> (accumBy 7 3) (hold 3)) => nothing
§ Restarts without events, and behind `arr`.
L54 forward | (>>> (arr (pair (neg x) (none Int))) (drSwitch integral time)) => (>>> (arr (neg x)) integral)
L54 forward | (>>> (arr (pair (neg x) (none Int))) (rSwitch integral time)) => nothing
L35 forward | (>>> (arr (pair (neg x) (none Int))) (drSwitch integral time)) => nothing
L56 forward | (>>> (arr (pair (then (fst x) (neg x)) (snd x))) (rSwitch integral time)) => (rSwitch (>>> (arr (neg x)) integral) (>>> (arr (neg x)) time))
L56 forward | (>>> (arr (pair (neg (fst x)) (snd x))) (rSwitch integral time)) => nothing
L56 forward | (>>> (arr (pair (then (fst x) (neg x)) (snd x))) (drSwitch integral time)) => nothing
L57 forward | (>>> (arr (pair (then (fst x) (neg x)) (snd x))) (drSwitch integral time)) => (drSwitch (>>> (arr (neg x)) integral) (>>> (arr (neg x)) time))
L57 backward | (drSwitch (>>> (arr (neg x)) integral) (>>> (arr x) time)) | (>>> (arr (pair (then (fst x) (neg x)) (snd x))) (drSwitch integral time)) => nothing
§ Delays of pairs.
L55 forward | (delay 3 (pair 1 true)) => (>>> (first (delay 3 1)) (>>> (arr ‹swap›) (>>> (first (delay 3 true)) (arr ‹swap›))))
L55 forward | (delay 3 (p 0)) => nothing
L55 forward | (iPre (pair 1 true)) => nothing
L55 backward | (*** (delay 3 1) (delay 3 true)) | (delay 3 (pair 1 true)) => (delay 3 (pair 1 true))
L55 backward | (*** (delay 3 1) (delay 4 true)) | (delay 3 (pair 1 true)) => nothing
§ First outputs and first inputs of stages.
L58 forward | (--> 1 (>>> time integral)) => (>>> time (--> 1 integral))
L58 forward | (>-- 1 (>>> time integral)) => nothing
L58 backward | (>>> time (--> 1 integral)) | (--> 1 (>>> time integral)) => (--> 1 (>>> time integral))
L59 forward | (>-- 1 (>>> time integral)) => (>>> (>-- 1 time) integral)
L59 forward | (--> 1 (>>> time integral)) => nothing
L60 forward | (>>> (--> 1 time) integral) => (>>> time (>-- 1 integral))
L60 forward | (>>> (>-- 1 time) integral) => nothing
L60 backward | (>>> time (>-- 2 integral)) | (>>> (--> 1 time) integral) => nothing
L61 forward | (--> 1 (iPre 2)) => (iPre 1)
L61 forward | (--> 1 (hold 2)) => nothing
L61 backward | (iPre 1) | (--> 1 (iPre x)) => (--> 1 (iPre x))
L62 forward | (--> (event 7) (arr (none Bool))) => (after 0 7)
L62 forward | (--> (p 0) (arr (none Bool))) => nothing
L62 backward | (after 0 7) | (--> (event 7) (arr (none Int))) => (--> (event 7) (arr (none Int)))
L62 backward | (after 1 7) | (--> (event 7) (arr (none Int))) => nothing
§ The integral of 1, and switches between the same.
L63 forward | (>>> (arr (then unit 1)) integral) => time
L63 forward | (>>> (arr (then unit 2)) integral) => nothing
L63 forward | (>>> (arr 1) integral) => nothing
L63 backward | time | (>>> (arr (then unit 1)) integral) => (>>> (arr (then unit 1)) integral)
L64 forward | (switch (arr (pair (neg x) (p 0))) (arr (neg x))) => (arr (neg x))
L64 forward | (switch (arr (pair (neg x) (p 0))) (arr x)) => nothing
L64 forward | (dSwitch (arr (pair x (p 0))) (arr x)) => nothing
L65 forward | (dSwitch (arr (pair (neg x) (p 0))) (arr (neg x))) => (arr (neg x))
L65 backward | (arr x) | (dSwitch (arr (pair x (event 1))) (arr x)) => (dSwitch (arr (pair x (event 1))) (arr x))
L65 backward | (arr x) | (dSwitch (arr (pair x (event 1))) (arr (neg x))) => nothing
§ Laws of version 1 on the forms of version 2.
L1 forward | (>>> (arr x) (--> 1 time)) => (--> 1 time)
L3 forward | (>>> (>>> (--> 1 time) ‹late restart›) ‹collection›) => (>>> (--> 1 time) (>>> ‹late restart› ‹collection›))
L41 forward | (>>> (>-- 1 time) (parB (--> 1 time))) => (parB (>>> (>-- 1 time) (--> 1 time)))
§ Numbers of no law, laws of expressions, trees too many or too few, and laws backward.
L0 forward | (>>> (arr x) time) => nothing
L66 forward | (>>> (arr x) time) => nothing
L255 forward | (>>> (arr x) time) => nothing
E1 forward | (arr (then x 1)) => nothing
L1 forward | (>>> (arr x) time) | time => nothing
L1 backward | time => nothing
L1 backward | time | (>>> (arr x) time) => (>>> (arr x) time)
L1 backward | time | (>>> (arr x) integral) => nothing
L1 backward | (>>> (arr x) time) | time => nothing
L25 backward | (arr (then unit 7)) | (>>> integral (arr (then unit 7))) => (>>> integral (arr (then unit 7)))
L38 backward 2 | integral | (kSwitch integral time (old 2)) => (kSwitch integral time (old 2))
L38 backward 1 | integral | (kSwitch integral time (old 2)) => nothing
L42 backward | (parB (arr x) (arr 1)) | (arr (list Bool x 1)) => (arr (list Bool x 1))
L42 backward | (parB (arr x) time) | (arr (list Int x 1)) => nothing
";

#[test]
fn laws_are_applied_to_expressions(rt: HostRuntime) {
    all_are_found(&rt, rt.alloc(), Probe::Law(LawProbe::Expr), EXPR_LAWS);
}

#[test]
fn laws_are_applied_to_networks(rt: HostRuntime) {
    all_are_found(&rt, rt.alloc(), Probe::Law(LawProbe::Net), NET_LAWS);
}
