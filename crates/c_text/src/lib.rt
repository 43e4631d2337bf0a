//! C as trees, and their text.
//!
//!     push_macros(&mut text, prefix)?;
//!     push_structs(&mut text, naming)?;
//!     push_function(&mut text, naming, Name::Function(0), &function)?;
//!
//! A `Naming` has what `empties` finds of the structs.
//!
//! A tree is one of `c_meaning` (`specs/Meant`), whose structs stand in a table, by number. `specs/TermText`,
//! `specs/CommandText` and `specs/FileText` say what its text is, a rule a kind of node; `specs/NameText` has
//! all names. The text is C99, and C++11; what has no member is left out of it.
//!
//! First `src/tree.rt`, then `src/file.rt`.
#![tactic(auto)]

mod command;
mod file;
mod laws;
mod name;
mod place;
mod term;
mod tree;
mod types;
mod used;

pub use file::{Naming, push_function, push_macros, push_structs};
pub use laws::{name_laws, type_rows};
pub use name::{Name, push_name};
pub use tree::{
    Argument, Base, CType, Command, File, Function, Kind, Literal, Local, Operator, Param, Scalar,
    Struct, Term,
};
pub use types::empties;
