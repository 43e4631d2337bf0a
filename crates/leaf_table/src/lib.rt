//! Stored closures: each computes one expression, and is found by the expression and the types
//! that it is used at.
//!
//!     let mut table = LeafTable::new(alloc);
//!     let row = table.add(Leaf::new(key, output, closure))?;
//!     let value = table.call(row, &params, &sample)?;
//!
//! Contracts see a table as the list of its keys and the list of its leaves. `add` answers the row
//! of the key, a new last one or the one that is there, whose leaf stays; `Full` if and only if the
//! key is new and 4,096 rows are there. `call` answers the value of the row's expression.
//!
//! First `src/table.rt` and `src/leaf.rt`; `src/run.rt` has the closures of each shape.
#![tactic(auto)]

mod fault;
mod laws;
mod leaf;
mod part;
mod run;
mod table;

pub use fault::TableFault;
pub use laws::limit_laws;
pub use leaf::{Leaf, Run};
pub use run::{
    run_affine, run_again, run_below, run_constant, run_general, run_identity, run_left, run_right,
    run_swap, run_wrap,
};
pub use table::{LeafId, LeafTable, MOST_ROWS};
