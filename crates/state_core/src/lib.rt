//! States of networks that run, scopes and frozen networks.
//!
//!     let frozen = freeze(alloc, net, &env, Some(&state), step)?;
//!     let members = select(alloc, &frozen, &numbers)?;
//!
//! A network keeps its cells in one list and what runs inside it in another, both in the order of
//! its nodes (`Kept`); contracts see the tree of states that these are (`tree`, `running`). What a
//! state stands for, after a past, is `Stands`; how many nodes a sample visits is `visits`.
//! Freezing copies one `Rc`; `select` answers the networks of a list's numbers, at most 64.
//!
//! First `specs/State` and `Stands`, then `src/state.rt` and `src/env.rt`.
#![tactic(auto)]

mod cells;
mod choosing;
mod env;
mod params;
mod part;
mod state;

pub use cells::Cells;
pub use choosing::select;
pub use env::{Env, Frozen, OldList, Olds, freeze, pause, push_old, push_olds, push_param};
pub use params::Params;
pub use part::{gather, route};
pub use state::{Kept, Places, Running, State, Whole};
