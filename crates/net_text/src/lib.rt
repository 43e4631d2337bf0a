//! Texts of networks and of certificates: their files, read and printed.
//!
//!     let (input, net) = read_net(alloc, bytes)?;
//!     let text = print_net(alloc, &input, &net)?;
//!     let steps = read_cert(alloc, bytes)?;
//!
//! `read_net` answers the input type and the network if and only if the bytes are a network file
//! (`IsFile`), and else the first token that doesn't fit, with its byte; `read_cert` the same of
//! certificates. A print is read back within the limits of files.
//!
//! First `specs/Grammar`, a production for each word, then `src/network_reader.rt`; a form's word
//! and what it makes stand in `src/form.rt`, certificates in `src/certificate_reader.rt`.
#![tactic(auto)]

mod certificate_reader;
mod fault;
mod form;
mod laws;
mod network_reader;
mod new_forms;
mod print;
mod print_certificate;
mod read;
mod read_certificate;
mod sugar;
mod text;

pub use fault::NetTextFault;
pub use laws::{
    certificate_laws, certificate_rows, file_laws, grammar_rows, printing_laws, reading_laws,
    sugar_laws,
};
pub use print::{print_net, push_net};
pub use print_certificate::{print_cert, push_step, push_tree};
pub use read::read_net;
pub use read_certificate::read_cert;
