//! The code of an expression: steps without jumps, each of which sets a register, and is a line of C.
//!
//!     let code = compile_expr(alloc, &params, &input, &expr)?;
//!
//! An expression is total and does nothing but compute, so each of its nodes is a step, and all are
//! taken: `Choose` takes one of two values that are there. Each register has a type. What the code
//! computes is the expression's value (`leaf_laws`).
//!
//! First `src/operation.rt`, then `specs/Running`, what a step does, and `specs/CodeOf`;
//! `src/emit.rt` makes the code.
#![tactic(auto)]

mod emit;
mod key;
mod laws;
mod operation;

pub use emit::compile_expr;
pub use laws::leaf_laws;
pub use operation::{LeafCode, Operation, Step};
