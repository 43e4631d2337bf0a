//! The C of a program as trees of `c_text`.
//!
//!     let built = build(alloc, &program, unchecked)?;
//!
//! Commands are built of symbols in postfix order (`src/sym.rt`): a builder adds symbols to a list, and its
//! contract says what they make (`specs/Symbols`). One machine makes the tree. There is a builder for the lines
//! of each form, for expressions' functions, for functions that compare values or test an input, and for the
//! functions that a program calls; types come from a table of structs, which a first pass collects.
//! `specs/Building` says what all of it is.
//!
//! First `src/sym.rt`, then `src/scope.rt`; `src/file.rt` puts all together.
#![tactic(auto)]

mod cell_steps;
mod cells;
mod checked;
mod collection;
mod compared;
mod delay;
mod ends;
mod file;
mod forms;
mod frame;
mod freezing;
mod functions;
mod growing;
mod index;
mod keeping;
mod kinds;
mod leaf;
mod leaf_function;
mod leaves;
mod lines;
mod machine;
mod members;
mod operation;
mod parts;
mod place;
mod plain;
mod routing;
mod same;
mod scope;
mod shapes;
mod stack;
mod steps;
mod structs;
mod switch_steps;
mod switches;
mod sym;
mod table;
mod types;
mod unbuilt;
mod within;

pub use file::{Built, build};
pub use unbuilt::Unbuilt;
