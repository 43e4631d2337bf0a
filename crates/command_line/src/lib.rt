//! The program's command line: what its words ask for, and what is replied to words that ask for
//! nothing that is there.
//!
//!     match parse(alloc, &["yampa", "run", "net"]) {
//!         Ok(Request::Run { net }) => ..,
//!         Err(Reply::Help(text)) => ..,
//!
//! The command line is a value of `clap`'s contract (`command_line`), so what words ask for is
//! computed (`request_in`): `command_rows` has some, word for word. A reply is help or the version
//! that was asked for, or the words ask for nothing that is there.
//!
//! First `specs/CommandLine`, then `src/command.rt`; all texts of help stand in `src/help.rt`.
#![tactic(auto)]

mod command;
mod help;

pub use command::{Derivation, Leading, Printing, Reply, Request, Wanted, command_rows, parse};
pub use help::VERSION;
