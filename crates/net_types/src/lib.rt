//! The type checker of networks: a type, a weight and a height for each network within the limits,
//! and else the first fault with its position.
//!
//!     let mut typed = check_types(alloc, input, net)?;
//!     let answer = rewrite(alloc, &mut typed, &position, tree)?;
//!
//! `check_types` answers the typed network if and only if the typing and all limits hold, else the
//! first failing test of the walk. `rewrite` puts a tree at a position where that keeps the type
//! there, the typing and the limits, and leaves the network as it was where it doesn't.
//!
//! First `specs/Check` and `Walk`, which has the tests in their order, then `src/walk.rt`;
//! `rewrite` is `src/rewriting.rt`.
#![tactic(auto)]

mod check;
mod fault;
mod laws;
mod nodes;
mod rewriting;
mod site;
mod types;
mod walk;

pub use check::check_types;
pub use fault::TypeFault;
pub use laws::typing_laws;
pub use rewriting::{Rewritten, keeps_type_at, rewrite};
