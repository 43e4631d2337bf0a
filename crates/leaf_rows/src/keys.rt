// Copies of the keys of stored closures.

use crate::found::{Probe, all_are_found};
use leaf_expr::{Expr, LeafKey};
use row_texts::texts::{expr_in, number_in, parted, say, say_shown};
use sample_core::Ty;
use std::alloc::Global;

/// Says whether the copy of a key is equal to it: that of the expression at an input that is a
/// number, under so many parameters that are numbers.
pub fn key_told(alloc: Global, given: &str, out: &mut String) {
    let (count, text) = parted(given);
    match expr_in(alloc, text) {
        Some(expr) => expr_told(alloc, Box::into_inner(expr), number_in(count), out),
        None => say(out, "no expression"),
    }
}

fn expr_told(alloc: Global, expr: Expr, count: usize, out: &mut String) {
    let key = LeafKey {
        expr,
        params: numbers(alloc, count),
        input: Ty::Int,
    };
    told(alloc, &key, out);
    drop(key);
}

fn numbers(alloc: Global, count: usize) -> Vec<Ty> {
    let mut types = Vec::new(alloc);
    for _ in 0..count {
        drop(types.push(Ty::Int));
    }
    types
}

fn told(alloc: Global, key: &LeafKey, out: &mut String) {
    match key.try_copy(alloc) {
        Ok(copy) => {
            say(out, if copy == *key { "equal" } else { "another" });
            drop(copy);
        }
        Err(memory) => say_shown(out, &memory),
    }
}

/// How many parameters there are, and an expression.
static KEYS: &str = "
§ Copies of keys.
0 | (add x 1) => equal
1 | (add x 1) => equal
5 | (add x 1) => equal
";

#[test]
fn keys_are_copied(rt: HostRuntime) {
    all_are_found(&rt, rt.alloc(), Probe::Key, KEYS);
}
