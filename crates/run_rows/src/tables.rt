// Tables of stored closures: how many rows they have, and what their closures answer.

ghost use Rattle.std.specs.Prelude.{◌≡◌, IfSome, Ok, map};
ghost use Rattle.sample_core.specs.ValueView.{datum_of};
ghost use Rattle.leaf_table.specs.{Computes.Computes};

use crate::found::{Probe, all_are_found};
use crate::runs::{Trial, trial_told};
use leaf_expr::LeafKey;
use leaf_table::{Leaf, LeafId, LeafTable, Run, TableFault, run_general};
use net_rows::typed::network;
use net_syntax::{LeafNeed, TypedNet, leaves};
use row_texts::texts::{answer_told, parted, say, say_at, say_shown, value_in};
use sample_core::{Memory, Sample};
use std::alloc::Global;

/// Adds `2^depth` different expressions to the text of a network, the first of them with this
/// number.
fn push_tree(text: &mut String, number: u32, depth: u32) {
    if depth == 0 {
        drop(write!(text, "(arr (add x {number}))"));
        return;
    }
    say(text, "(>>> ");
    push_tree(text, number.wrapping_mul(2), depth - 1);
    say(text, " ");
    push_tree(text, number.wrapping_mul(2).wrapping_add(1), depth - 1);
    say(text, ")");
}

/// A network of 4,096 different expressions, as many as a table has rows, and of one more.
fn large_network(alloc: Global, one_more: &str) -> Option<Box<TypedNet>> {
    let mut text = String::new(alloc);
    say(&mut text, "yampa 1 input Int (>>> ");
    push_tree(&mut text, 0, 12);
    say(&mut text, " ");
    say(&mut text, one_more);
    say(&mut text, ")");
    network(alloc, text.as_str())
}

/// Says what the filling of a table finds with 4,096 different expressions and one more.
pub fn filled_told(alloc: Global, one_more: &str, out: &mut String) {
    match large_network(alloc, one_more) {
        Some(net) => trial_told(alloc, &net, Trial::Rows, out),
        None => say(out, "no network"),
    }
}

/// Says what a table with a row for each of 4,096 different expressions answers to one more.
pub fn added_told(alloc: Global, one_more: &str, out: &mut String) {
    match large_network(alloc, one_more) {
        Some(net) => needs_told(alloc, &net, out),
        None => say(out, "no network"),
    }
}

fn needs_told(alloc: Global, net: &TypedNet, out: &mut String) {
    match leaves(alloc, net) {
        Ok(needs) => general_told(alloc, &needs, None, out),
        Err(memory) => say_shown(out, &memory),
    }
}

/// Adds the closure for any expression for each of the needs to one table. Says what the table
/// answers to the last, and what the last one's row answers on the value, if there is one.
fn general_told(alloc: Global, needs: &[LeafNeed], x: Option<&Sample>, out: &mut String) {
    let mut table = LeafTable::new(alloc);
    for need in needs {
        out.clear();
        if let Some(own) = boxed_key(alloc, need) {
            if let Ok(run) = Box::new(alloc, move |params: &[Sample], x: &Sample| {
                run_general(alloc, &own, params, x)
            }) {
                add(alloc, &mut table, need, run, out);
            }
        }
    }
    if let (Some(need), Some(x)) = (needs.last(), x) {
        say(out, " answers ");
        row_told(&table, need, x, out);
    }
    drop(table);
}

/// The need's key, in a box: what holds it is dropped by a call.
fn boxed_key(alloc: Global, need: &LeafNeed) -> Option<Box<LeafKey>>
    ensures { IfSome result (λ key. key.value ≡ need.now.key) }
{
    match need.key.try_copy(alloc) {
        Ok(key) => Box::new(alloc, key).ok(),
        Err(Memory) => None,
    }
}

/// Adds the closure under the need's key. Says what the table answers.
fn add(alloc: Global, table: &mut LeafTable, need: &LeafNeed, run: Run, out: &mut String)
    requires callable { Run.IsAlwaysCallable run }
    requires computes { (ps : _) (x : _) (v : _) → Run.post run ps x (Ok v) →
        Computes need.now.key (map datum_of ps.now) (datum_of x.now) (datum_of v) }
{
    let Ok(key) = need.key.try_copy(alloc) else {
        return say(out, "memory");
    };
    match need.output.try_copy(alloc) {
        Ok(output) => answer(need, table.add(Leaf::new(key, output, run)), out),
        Err(Memory) => {
            drop(key);
            say(out, "memory")
        }
    }
}

/// Says the row, or why there is none, and whether the leaf that comes back is the need's.
fn answer(need: &LeafNeed, added: Result<LeafId, (Leaf, TableFault)>, out: &mut String) {
    match added {
        Ok(id) => say_at(out, "row", id.0),
        Err((leaf, fault)) => {
            let own = leaf.key == need.key;
            drop(leaf);
            refusal(fault, own, out)
        }
    }
}

fn refusal(fault: TableFault, own: bool, out: &mut String) {
    say_shown(out, &fault);
    say(
        out,
        if own {
            ", and its leaf comes back"
        } else {
            ", and another leaf comes back"
        },
    )
}

/// Says what the row of a network's expression answers on a value, `FILE | VALUE`: where its
/// closure is the one for any expression, and where it is the one for its shape.
pub fn called_told(alloc: Global, given: &str, out: &mut String) {
    let (file, value) = parted(given);
    match network(alloc, file) {
        Some(net) => value_told(alloc, &net, value, out),
        None => say(out, "no network"),
    }
}

fn value_told(alloc: Global, net: &TypedNet, value: &str, out: &mut String) {
    match (value_in(alloc, net.input(), value), leaves(alloc, net)) {
        (Some(x), Ok(needs)) => both_told(alloc, net, &needs, &x, out),
        _ => say(out, "no value"),
    }
}

fn both_told(alloc: Global, net: &TypedNet, needs: &[LeafNeed], x: &Sample, out: &mut String) {
    general_told(alloc, needs, Some(x), out);
    if let Some(need) = needs.last() {
        say(out, " and ");
        trial_told(alloc, net, Trial::Call(need, x), out);
    }
}

/// Says what the row of the need's key answers on the value.
pub fn row_told(table: &LeafTable, need: &LeafNeed, x: &Sample, out: &mut String) {
    match table.find(&need.key) {
        Some(id) => answer_told(table.call(id, &[], x), out),
        None => say(out, "no row"),
    }
}

/// One more expression than 4,096, and what the filling of a table finds.
static FILLED: &str = "
§ One expression more, for the filling of a table.
(arr (add x 4096)) => status 1 table full
(arr (add x 0)) => a row for each
";

/// One more expression, and what a table answers to it that has a row for each of the others: where
/// the key is new the leaf comes back.
static ADDED: &str = "
§ One expression more, for a table that is full.
(arr (add x 4096)) => table full, and its leaf comes back
(arr (add x 0)) => row 0
";

/// A network, a value, and what the row of its expression answers, both ways.
static CALLED: &str = "
§ Rows that are called.
‹successor› | 5 => row 0 answers 6 and 6
‹below six› | 5 => row 0 answers true and true
‹wrap› | 5 => row 0 answers (event 5) and (event 5)
‹second› | (pair 1 2) => row 0 answers 2 and 2
";

#[test]
fn rows_are_called(rt: HostRuntime) {
    all_are_found(&rt, rt.alloc(), Probe::Called, CALLED);
}

#[test]
fn a_table_has_4096_rows(rt: HostRuntime) {
    all_are_found(&rt, rt.alloc(), Probe::Filled, FILLED);
    all_are_found(&rt, rt.alloc(), Probe::Added, ADDED);
}
