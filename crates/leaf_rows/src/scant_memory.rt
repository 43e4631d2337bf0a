// What is answered where allocations are refused.

use crate::found::{Probe, all_are_found};
use crate::reading::reading_told;
use crate::values::reading_told as value_reading_told;
use leaf_expr::{Expr, eval, push_expr, read_expr};
use row_texts::ballast::{Ballast, ROOM, TRIES, Tally, spare_at, take_all};
use row_texts::texts::{answer_told, expr_in, say, say_shown, type_in, value_in, written};
use sample_core::{Sample, Ty, read_value};
use std::alloc::Global;

/// What the calls are given, with the spelling of the value and of the expression.
#[derive(Clone, Copy)]
struct Trees<'a> {
    ty: &'a Ty,
    sample: &'a Sample,
    expr: &'a Expr,
    value_text: &'a str,
    expr_text: &'a str,
}

/// Says what the call of that name answers where only so much memory is left to it.
fn told(alloc: Global, name: &str, trees: Trees<'_>, ballast: Option<Ballast>, out: &mut String) {
    match name {
        "reading a value" => value_read(alloc, trees, ballast, out),
        "copying a value" => value_copied(alloc, trees, ballast, out),
        "copying an expression" => expr_copied(alloc, trees, ballast, out),
        "evaluating" => evaluated(alloc, trees, ballast, out),
        _ => expr_read(alloc, trees, ballast, out),
    }
}

fn value_read(alloc: Global, trees: Trees<'_>, ballast: Option<Ballast>, out: &mut String) {
    let read = read_value(alloc, trees.value_text.as_bytes(), trees.ty);
    drop(ballast);
    value_reading_told(alloc, read, trees.ty, trees.value_text, out);
}

fn value_copied(alloc: Global, trees: Trees<'_>, ballast: Option<Ballast>, out: &mut String) {
    let copied = trees.sample.try_copy(alloc);
    drop(ballast);
    answer_told(copied, out);
}

fn evaluated(alloc: Global, trees: Trees<'_>, ballast: Option<Ballast>, out: &mut String) {
    let input = Sample::Unit;
    let answer = eval(alloc, trees.expr, &[], &input);
    drop(ballast);
    drop(input);
    answer_told(answer, out);
}

fn expr_copied(alloc: Global, trees: Trees<'_>, ballast: Option<Ballast>, out: &mut String) {
    let copied = trees.expr.try_copy(alloc);
    drop(ballast);
    match copied {
        Ok(expr) => {
            drop(push_expr(out, &expr));
            drop(expr);
        }
        Err(memory) => say_shown(out, &memory),
    }
}

fn expr_read(alloc: Global, trees: Trees<'_>, ballast: Option<Ballast>, out: &mut String) {
    let read = read_expr(alloc, trees.expr_text.as_bytes());
    drop(ballast);
    reading_told(alloc, read, trees.expr_text, out);
}

/// Says what the tries of the call of that name answer.
fn tally_told(alloc: Global, name: &str, trees: Trees<'_>, out: &mut String) {
    let mut ample = String::new(alloc);
    told(alloc, name, trees, None, &mut ample);
    let mut tally = Tally::new();
    let room = take_all(alloc, ROOM);
    for attempt in 0..TRIES {
        let mut scant = String::new(alloc);
        if let Ok(ballast) = take_all(alloc, spare_at(attempt, 9_000)) {
            told(alloc, name, trees, Some(ballast), &mut scant);
        }
        tally = tally.with(scant.as_str(), ample.as_str(), "memory");
        drop(scant);
    }
    drop(room);
    tally.tell(out);
}

/// Says whether the call of that name fails to allocate at first, and answers in the end: on a list
/// of a hundred events, as a value and as an expression.
pub fn scant_told(alloc: Global, name: &str, out: &mut String) {
    let text = written(alloc, "(list{100* (event (pair 1 2))})");
    match type_in(alloc, "(List (Event (Pair Int Int)))") {
        Some(ty) => value_tried(alloc, name, &ty, text.as_str(), out),
        None => say(out, "no type"),
    }
}

fn value_tried(alloc: Global, name: &str, ty: &Ty, value_text: &str, out: &mut String) {
    match value_in(alloc, ty, value_text) {
        Some(sample) => tried(alloc, name, ty, &sample, value_text, out),
        None => say(out, "no value"),
    }
}

fn tried(alloc: Global, name: &str, ty: &Ty, sample: &Sample, value_text: &str, out: &mut String) {
    let text = written(
        alloc,
        "(list (Event (Pair Int Int)){100* (event (pair 1 2))})",
    );
    match expr_in(alloc, text.as_str()) {
        Some(expr) => {
            let trees = Trees {
                ty,
                sample,
                expr: &expr,
                value_text,
                expr_text: text.as_str(),
            };
            tally_told(alloc, name, trees, out)
        }
        None => say(out, "no expression"),
    }
}

/// Calls by their names. Copies share, and take no memory.
static CALLS: &str = "
§ Calls with little memory.
reading a value => refused at first
reading an expression => refused at first
evaluating => refused at first
copying a value => never refused
copying an expression => never refused
";

#[test]
fn calls_are_refused_memory(rt: HostRuntime) {
    all_are_found(&rt, rt.alloc(), Probe::Scant, CALLS);
}
