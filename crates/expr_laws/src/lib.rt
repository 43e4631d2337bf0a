//! The laws of expressions: what each makes of an expression, forward and backward, and
//! that it keeps the expression's value and type.
//!
//!     let right = apply_expr(alloc, law, Direction::Forward, &expr, None)?;
//!
//! The laws are `ExpressionLaw`, in words that are read aloud; `apply_expr` answers exactly what
//! a law allows: forward the right side, backward the tree that is given, where the law leads
//! from it to exactly the tree at hand. Each law keeps the type and the value of a typed
//! left side (`side_laws`), whatever it is put into (`answer_laws`).
//!
//! First `specs/ExpressionLaw`, then `src/table.rt`, the laws as data, and `src/apply.rt`.
#![tactic(auto)]

mod apply;
mod compare;
mod constant;
mod laws;
mod lift;
mod literals;
mod pick;
mod spread;
mod table;
mod turn;

pub use apply::apply_expr;
pub use laws::{answer_laws, side_laws};
