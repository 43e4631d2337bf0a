//! Laws as data: patterns with letters, what fits them, and what they build.
//!
//!     let made = rewrite_net(alloc, LEFT, RIGHT, &net)?;
//!
//! A rule is two patterns. `rewrite_expr` and `rewrite_net` answer the right side if and only if
//! one choice of trees for the letters fills the left pattern to the tree at hand and the right one
//! to it; else `None`. Where each letter of the right pattern stands in the left one, a left side
//! has one right side (`pattern_laws`). So a law is a line of data in `expr_laws` or `law_rules`.
//!
//! First `specs/Pattern`, then `src/rewrite.rt`; symbols of networks stand in `src/net_sym.rt`.
#![tactic(auto)]

mod building;
mod laws;
mod letters;
mod matching;
mod net_building;
mod net_letters;
mod net_matching;
mod net_sym;
mod rewrite;
mod stack;
mod sym;
mod table;

pub use laws::pattern_laws;
pub use net_sym::{NetLetter, NetSym};
pub use rewrite::{rewrite_expr, rewrite_net};
pub use sym::{
    ADD, AND, EVENT, F, FALSE, FST, G, H, I, IF, J, LESS, Letter, MUL, NEG, NONE, NOT, ON, ONE, OR,
    PAIR, SND, SUB, Sym, THEN, TRUE, UNIT, X, ZERO,
};
pub use table::LawLine;
