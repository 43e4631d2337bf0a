//! What the primitive forms of networks keep from one sample to the next: how they start and step.
//!
//!     let (cell, answer) = Cell::start(alloc, form, constant, &sample)?;
//!     let (cell, answer) = cell.step(alloc, dt, &sample)?;
//!
//! A cell answers at each sample what its form's formula says of the samples so far: it starts with
//! what that needs of the first (`cell_start`), and a step keeps what it needs of one more
//! (`cell_step`, `cell_laws`). The old cell stays, for a push that fails to allocate. `accumBy`
//! knows no expression: it is handed the new accumulator in place of the event's value.
//!
//! First `specs/Cell`, then `src/cell.rt`; the queue of a `delay` is `src/queue.rt`.
#![tactic(auto)]

mod behind;
mod cell;
mod entry;
mod form;
mod front;
mod laws;
mod queue;
mod recurring;
mod start;
mod step;

pub use behind::Behind;
pub use cell::Cell;
pub use form::Form;
pub use front::Front;
pub use laws::cell_laws;
pub use recurring::Recurring;
