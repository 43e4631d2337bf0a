//! The code of a network: a function a node, which calls earlier ones only.
//!
//!     let code = compile(alloc, &net)?;
//!
//! A function has statements, each of them one line of C: it sets the next register, keeps something, or
//! answers. It works on what its own node keeps and hands parts of that to the functions that it
//! calls, each with the moment: 0 at a first sample, else the step. At 0 a function looks at
//! nothing that is kept, so a restart is a call with 0. What code does is a fold over its
//! functions (`run_code`): there are no pointers, no loop but over members, no stuck state. That of
//! a typed network outputs the network's stream (`code_laws`).
//!
//! First `src/statement.rt`, then `specs/Running`, what statements do, `specs/Bodies`, the function of
//! each form, and `specs/CodeOf`; `src/emit.rt` makes the code.
#![tactic(auto)]

mod bodies;
mod emit;
mod freezable;
mod laws;
mod statement;

pub use emit::compile;
pub use laws::code_laws;
pub use statement::{Action, Effect, Function, Guard, Part, Scope, Statement, When};
