//! Expressions: their trees, types, values and shapes, and the keys that closures are found by.
//! `leaf_expr` passes on all that is asked of a whole expression, beside its text.
//!
//!     let ty = type_of_expr(alloc, &params, &input, &expr)?;
//!     let value = eval(alloc, &expr, &values, &sample)?;
//!
//! Contracts see an `Expr` as an `Expression` (`expression_of`). `eval` answers its value
//! (`value_of`), which every expression has; `type_of_expr` a type if and only if the expression
//! has it within the limits, else the first fault of the walk. That a typed expression has values
//! of its type is `typing_laws`.
//!
//! First `specs/Expression` and `ExpressionValue`, then `src/expr.rt`, `src/evaluation.rt`.
#![tactic(auto)]

mod contents;
mod equal;
mod evaluation;
mod expr;
mod feed;
mod key;
mod laws;
mod limits;
mod literal;
mod looked;
mod operations;
mod part_types;
mod parts;
mod scope;
mod shape;
mod typing;

pub use contents::{Contents, inside};
pub use equal::same_expr;
pub use evaluation::{eval, eval_over};
pub use expr::{Expr, ExprChild, Exprs, with_one_part, with_three_parts, with_two_parts};
pub use feed::tag;
pub use key::LeafKey;
pub use laws::{part_laws, typing_laws};
pub use limits::{
    MOST_EXPR_HEIGHT, MOST_EXPR_NODES, MOST_TYPE_DEPTH, MOST_TYPE_NODES, expr_fits,
    expr_nodes_left, type_fits,
};
pub use literal::Literal;
pub use part_types::part_type;
pub use parts::{part, part_at, with_part_at};
pub use shape::{Shape, shape_laws, shape_of};
pub use typing::{ExprFault, literal_type, type_of_expr};
