//! What the tests of several crates share: texts in short forms, and what is said of what is found;
//! readers and writers that fail, memory that is taken, and allocations that fail.
//!
//!     first_wrong(alloc, "5 => 6", &told) == "5: wanted 6, found 7"
//!
//! A row is what is given, `=>`, and what must be told of it, worked out by hand. It stands in a short
//! form (`texts`), in which ‹NAME› is a text of `named` and ␤ a line feed. No contract says what these
//! calls answer: tests alone make them.
//!
//! First `src/found.rt`, the one way to try a row, then `src/texts.rt`.
#![tactic(auto)]

pub mod ballast;
pub mod devices;
mod found;
mod named;
pub mod refusing;
pub mod scarce;
pub mod texts;

pub use found::first_wrong;
