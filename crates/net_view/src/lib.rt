//! Views of a typed network: what stands where, which steps may be taken, what steps lead to.
//!
//!     let lines = outline(alloc, &net)?;
//!     let steps = possible_steps(alloc, &net, &position)?;
//!
//! `outline` answers a line for each position that is there, in preorder, with what `type_at` and
//! `weight` say (`IsOutline`). `possible_steps` answers exactly the steps forward at or below a
//! position that a check would accept, with what then stands there (`ArePossible`). `applied_text`
//! is the file of the network that steps lead to (`PrintsApplied`), and `trace_steps` tells what each
//! of them changes, and why one was refused (`IsTrace`).
//!
//! First `specs/Listed`, then `src/lines.rt`, whose walk comes to each position.
#![tactic(auto)]

mod applied;
mod cut;
mod forms;
mod inner;
mod lines;
mod may_stand;
mod positions;
mod possible;
mod shown;
mod spot;
mod texts;
mod trace;

pub use applied::applied_text;
pub use lines::{OutlineLine, outline};
pub use positions::has_position;
pub use possible::{PossibleStep, possible_steps};
pub use shown::{push_cut_lines, trace_text};
pub use texts::{outline_text, possible_text};
pub use trace::{Change, RefusedStep, Trace, first_steps, trace_steps};
