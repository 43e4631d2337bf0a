// Values, types and expressions that are built by calls.

use crate::found::{Probe, all_are_found};
use leaf_core::{Expr, ExprChild, Exprs};
use leaf_expr::push_expr;
use row_texts::texts::{printed_told, say};
use sample_core::{
    Sample, SampleChild, Samples, Ty, TyChild, has_type, print_type, print_value, same,
};
use std::alloc::Global;

/// Says how the tree of that name is printed.
pub fn tree_told(alloc: Global, given: &str, out: &mut String) {
    match given {
        "values" => values_told(alloc, out),
        "types" => types_told(alloc, out),
        _ => exprs_told(alloc, out),
    }
}

/// A list of an event, no event and the unit: no type has it.
fn values_told(alloc: Global, out: &mut String) {
    let mut all = Vec::new(alloc);
    if let Some(event) = event(alloc) {
        drop(all.push(Box::into_inner(event)));
    }
    drop(all.push(Sample::NoEvent));
    drop(all.push(Sample::Unit));
    if let Ok(all) = Samples::new(alloc, all) {
        let list = Sample::List(all);
        printed_told(print_value(alloc, &list), out);
        if is_taken_for_another(&list) {
            say(out, " is taken for another");
        }
        drop(list);
    }
}

/// Whether a list is the unit, or has the type of numbers.
fn is_taken_for_another(list: &Sample) -> bool {
    let unit = Sample::Unit;
    let number = Ty::Int;
    let taken = same(list, &unit) || has_type(list, &number);
    drop(unit);
    drop(number);
    taken
}

fn event(alloc: Global) -> Option<Box<Sample>> {
    let child = SampleChild::new(alloc, Sample::Int(-5)).ok()?;
    Box::new(alloc, Sample::Event(child)).ok()
}

fn types_told(alloc: Global, out: &mut String) {
    if let Ok(inner) = TyChild::new(alloc, Ty::Bool) {
        let list = Ty::List(inner);
        printed_told(print_type(alloc, &list), out);
        drop(list);
    }
}

fn exprs_told(alloc: Global, out: &mut String) {
    let mut all = Vec::new(alloc);
    if let Ok(part) = ExprChild::new(alloc, Expr::Input) {
        drop(all.push(Expr::Neg(part)));
    }
    drop(all.push(Expr::Param(7)));
    if let Ok(all) = Exprs::new(alloc, all) {
        let list = Expr::List(Ty::Int, all);
        drop(push_expr(out, &list));
        drop(list);
    }
}

/// Trees by their names, and how they are printed.
static TREES: &str = "
§ Trees that are built by calls.
values => (list (event -5) none unit)
types => (List Bool)
expressions => (list Int (neg x) (p 7))
";

#[test]
fn built_trees_are_printed(rt: HostRuntime) {
    all_are_found(&rt, rt.alloc(), Probe::Tree, TREES);
}
