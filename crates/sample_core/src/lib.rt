//! Values and their types: what every sample of a stream is made of; the one spelling of each, and
//! reading a value off the front of bytes.
//!
//!     let (value, length) = read_value(alloc, b"(pair 5 true)", &ty)?;
//!     let text = print_value(alloc, &value)?;
//!
//! Contracts see a `Sample` as a `Datum` (`datum_of`) and a `Ty` as a `TypeTree` (`type_of`).
//! `read_value` answers exactly the value whose spelling stands in front, and else the leftmost
//! fault; `print_value` answers the one spelling, which is read back. Copies share their parts.
//!
//! First `specs/Datum`, `TypeTree` and `HasType`, then `src/sample.rt`; reading is `src/read.rt`.
#![tactic(auto)]

mod equal;
mod fault;
mod front_number;
mod laws;
mod memory;
pub mod number;
mod print;
mod read;
mod sample;
mod ty;
mod typing;
mod words;

pub use equal::{same, same_type};
pub use fault::ValueFault;
pub use laws::reading_laws;
pub use memory::{Memory, OutOfMemory};
pub use print::{print_type, print_value, push_type, push_value, push_word};
pub use read::{read_value, read_value_over};
pub use sample::{Sample, SampleChild, SamplePair, Samples};
pub use ty::{Ty, TyChild, try_copy_types};
pub use typing::has_type;
pub use words::word_is;
