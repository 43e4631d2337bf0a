//! Streams: their samples from any reader, piece by piece, and readers and writers that count
//! their failures.
//!
//!     let mut lines = LineReader::new(alloc, Counted::new(reader))?;
//!     while let Some((step, value)) = lines.next(&ty)? { .. }
//!
//! What a text holds is `samples`. Successive calls of `next` answer these in order, whatever the
//! pieces; `None` if there is no line more; a line's fault where it has one. A line is read as soon
//! as what was read settles it. `Read` comes only where the reader's failures rose.
//!
//! First `specs/StreamText`, which says what a line holds, then `src/reader.rt`; faults are
//! `src/fault.rt` and `specs/LineFaults`, devices `src/device.rt`, output that is held back
//! `src/held.rt`.
#![tactic(auto)]

mod device;
mod fault;
mod held;
mod kept;
mod laws;
mod line;
mod reader;
mod settle;
mod step_text;

pub use device::{Counted, Device, has_failed};
pub use fault::StreamFault;
pub use held::{Asking, Held, Printer, ROOM, is_given};
pub use laws::{limit_laws, stream_laws};
pub use line::{MOST_BYTES, MOST_SAMPLES};
pub use reader::{LineReader, LineState};
