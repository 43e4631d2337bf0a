//! Expressions: the total functions that networks are built over. Their trees, types and values
//! come from `leaf_core`; here are their texts: tokens, the grammar, readers and printing.
//!
//!     let expr = read_expr(alloc, b"(add x 1)")?;
//!     let text = print_expr(alloc, &expr)?;
//!
//! `read_expr` answers the expression if and only if the text is one (`IsText`), and else the first
//! token that doesn't fit, with its byte. What is printed is read back within the limits of texts
//! (`printing_laws`); shorter ways mean longer expressions (`sugar_laws`).
//!
//! First `specs/Grammar`, a production for each word, then `src/expr_reader.rt`; a form's word and
//! what it makes stand in `src/form.rt`.
#![tactic(auto)]

mod expr_reader;
mod form;
mod number_reader;
mod print;
mod text_fault;
mod text_laws;
mod token;
mod tree_front;
mod type_reader;
mod word;

pub use expr_reader::{MOST_LENGTH, read_expr, read_expr_at, read_type_at};
pub use leaf_core::{
    Expr, ExprChild, ExprFault, LeafKey, Literal, Shape, eval, shape_of, type_of_expr,
};
pub use number_reader::{MOST_INDEX, natural_named, read_index, read_natural};
pub use print::{print_expr, push_expr, push_last_expr, push_next_expr, push_open};
pub use text_fault::ExprTextFault;
pub use text_laws::{
    grammar_rows, limit_laws, number_laws, printing_laws, reading_laws, sugar_laws, whole_text_laws,
};
pub use token::{Lexeme, lexeme_at, token_at};
pub use tree_front::{Read, TreeFront, closing_at, form_end, form_head, front_at};
pub use type_reader::MOST_OPEN;
