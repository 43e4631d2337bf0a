//! Filling a table of stored closures. The closures are boxed in the caller's body, one for each
//! shape of expression.
//!
//! The module is public for its macros alone: what they write in the caller's body names its
//! items.

ghost use Rattle.std.specs.Prelude.{◌≡◌, [], ◌∷◌, ◌++◌, Contains, IfErr, IfSome, Ok, OnErr, OnOk, length, map};
ghost use Rattle.sample_core.specs.ValueView.{datum_of};
ghost use Rattle.leaf_table.specs.{Computes.Computes, Rows.leaves_of, Rows.rows_of};
ghost use Rattle.leaf_table.specs.declared.table.TheConstants.{MOST_ROWS};
ghost use Rattle.yampa_run.specs.Preparation.{RefusesTable};

use crate::preparation::{Refusal, refusal_with};
pub use leaf_core::{Shape, shape_of};
use leaf_table::{Leaf, LeafTable, Run};
pub use leaf_table::{
    TableFault, run_affine, run_again, run_below, run_constant, run_identity, run_left, run_right,
    run_swap, run_wrap,
};
use net_syntax::LeafNeed;
pub use sample_core::Sample;
use std::alloc::Global;
pub use std::cell::Cell;

/// The refusal of a network whose expressions a table doesn't take: status 1 and the line
/// `table full` where it has all its rows, or `Memory`.
pub fn table_refusal(alloc: Global, fault: TableFault) -> Refusal
    ensures { RefusesTable fault result }
{
    match fault {
        TableFault::Full => refusal_with(alloc, 1, "table full"),
        TableFault::Memory => Refusal::Memory,
    }
}

/// Adds a row for a need: the closure under the need's key. Where the key has a row already, that
/// row stays. A part of `fill_table!`, which boxes the closure.
///
/// `Full`: the key is new, and the table has 4,096 rows. `Memory`: allocation failed. The table is
/// then as it was.
pub fn add_row(
    alloc: Global,
    table: &mut LeafTable,
    need: &LeafNeed,
    run: Run,
) -> Result<(), TableFault>
    requires callable { Run.IsAlwaysCallable run }
    requires computes { (ps : _) (x : _) (v : _) → Run.post run ps x (Ok v)
        → Computes need.now.key (map datum_of ps.now) (datum_of x.now) (datum_of v) }
    ensures known { Contains (rows_of table.old) need.now.key
        → rows_of table.new ≡ rows_of table.old }
    ensures grown { OnOk result ((Contains (rows_of table.old) need.now.key → ⊥)
        → rows_of table.new ≡ rows_of table.old ++ need.now.key ∷ []) }
    ensures unchanged { OnErr result (rows_of table.new ≡ rows_of table.old) }
    ensures kept { Contains (rows_of table.old) need.now.key
        → leaves_of table.new ≡ leaves_of table.old }
    ensures stored { OnOk result ((Contains (rows_of table.old) need.now.key → ⊥)
        → (leaf : _) × (leaves_of table.new ≡ leaves_of table.old ++ leaf ∷ [])
        × (leaf.key ≡ need.now.key) × (leaf.output ≡ need.now.output)) }
    ensures no_other { OnErr result (leaves_of table.new ≡ leaves_of table.old) }
    ensures full { IfErr result (λ fault. fault ≡ TableFault.Full
        → (length (rows_of table.old) ≡ MOST_ROWS)
        × (Contains (rows_of table.old) need.now.key → ⊥)) }
{
    // What is dropped here is dropped by calls: where a scope ends, its drop is written out in
    // place, and proved there.
    let Ok(key) = need.key.try_copy(alloc) else {
        return Err(TableFault::Memory);
    };
    match need.output.try_copy(alloc) {
        Ok(output) => match table.add(Leaf::new(key, output, run)) {
            Ok(_) => Ok(()),
            Err((leaf, fault)) => {
                drop(leaf);
                Err(fault)
            }
        },
        Err(_) => {
            drop(key);
            Err(TableFault::Memory)
        }
    }
}

/// The closure in a box; none where allocation failed. A part of `fill_table!`.
pub fn boxed<F: Drop>(alloc: Global, run: F) -> Option<Box<F>>
    ensures { IfSome result (λ b. b.value ≡ run) }
{
    match Box::new(alloc, run) {
        Ok(run) => Some(run),
        Err(refused) => {
            drop(refused);
            None
        }
    }
}

/// Adds a row for a need, whose closure calls a function on its parts and the arguments, and sets
/// `filled` to what comes of it; leaves it as it is where there is no memory for the closure. A
/// part of `fill_table!`.
#[macro_export]
macro_rules! stored_row {
    ($filled:ident, $alloc:ident, $table:expr, $need:ident, $run:ident $(, $part:expr)*) => {
        if let Some(run) = $crate::fill::boxed(
            $alloc,
            move |params: &[$crate::fill::Sample], x: &$crate::fill::Sample| {
                $crate::fill::$run($alloc, $($part,)* params, x)
            },
        ) {
            $filled = $crate::fill::add_row($alloc, &mut $table, $need, run);
        }
    };
}

/// Adds a row for each need of a network: `fill_table!(alloc, table, needs)`, with the table as a
/// place and the needs as a slice or a borrowed vector, is a `Result<(), TableFault>`. It matches
/// the shape of each need's expression and boxes one of nine closures. Needs of the same key share
/// a row.
///
/// It stops at the first need that the table doesn't take; the rows of the needs before it stay.
/// `Full`: the key is new, and the table has 4,096 rows. `Memory`: allocation failed.
///
/// It is dear to prove: use it in a function that does little else.
#[macro_export]
macro_rules! fill_table {
    ($alloc:expr, $table:expr, $needs:expr) => {{
        let alloc: std::alloc::Global = $alloc;
        let mut filled = Ok(());
        for need in $needs {
            // An arm that comes to its row's adding sets what came of that. With one way out of
            // each arm the proof is half as long.
            filled = Err($crate::fill::TableFault::Memory);
            match $crate::fill::shape_of(&need.key.expr) {
                $crate::fill::Shape::Identity => {
                    $crate::stored_row!(filled, alloc, $table, need, run_identity)
                }
                $crate::fill::Shape::Constant { c } => {
                    $crate::stored_row!(filled, alloc, $table, need, run_constant, c)
                }
                $crate::fill::Shape::Affine { a, b } => {
                    $crate::stored_row!(filled, alloc, $table, need, run_affine, a, b)
                }
                $crate::fill::Shape::Swap => {
                    $crate::stored_row!(filled, alloc, $table, need, run_swap)
                }
                $crate::fill::Shape::Left => {
                    $crate::stored_row!(filled, alloc, $table, need, run_left)
                }
                $crate::fill::Shape::Right => {
                    $crate::stored_row!(filled, alloc, $table, need, run_right)
                }
                $crate::fill::Shape::Below { k } => {
                    $crate::stored_row!(filled, alloc, $table, need, run_below, k)
                }
                $crate::fill::Shape::Wrap => {
                    $crate::stored_row!(filled, alloc, $table, need, run_wrap)
                }
                $crate::fill::Shape::General => {
                    if let Ok(own) = need.key.try_copy(alloc) {
                        let last = $crate::fill::Cell::new($crate::fill::Sample::Unit);
                        $crate::stored_row!(filled, alloc, $table, need, run_again, &own, &last)
                    }
                }
            }
            if filled.is_err() {
                break;
            }
        }
        filled
    }};
}
