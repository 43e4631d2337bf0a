//! The code of a network as C.
//!
//!     let text = print_c(alloc, &program, options)?;
//!
//! `c_build` makes the tree of a program's C, and `c_text` prints its structs and functions; all that stands
//! around them is of this crate: the comment at the top, the names by which a program calls them, comments
//! (`src/comment.rt`), and a program that runs on standard input (`src/filter.rt`). `specs/FileText` has the file
//! as a whole.
//!
//! First `src/file.rt`.
#![tactic(auto)]

mod about;
mod comment;
mod file;
mod file_text;
mod filter;
mod filter_text;
mod fingerprint;
mod fixed;
mod folded;
mod lists;
mod named;
mod names;
mod piece;

pub use c_build::Unbuilt;
pub use file::{Options, Printed, print_c};
pub use lists::has_lists;
