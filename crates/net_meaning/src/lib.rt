//! What networks denote, when they are typed, and the laws of both.
//!
//! What a network outputs is `meaning`, one line a form; `stream_of` is that with nothing in scope.
//! Each network outputs once a sample and never looks ahead (`stream_laws`); each form does the same
//! where its parts do (`congruence_laws`); what switches output is said by the environments that
//! their parts run in (`switching_laws`). There is nothing here to run: each function is a law.
//!
//! First `specs/SignalFunction` and `Meaning`, then `specs/Typing`, then `specs/Congruence`.
#![tactic(auto)]

mod laws;

pub use laws::{congruence_laws, output_examples, stream_laws, switching_laws, weight_examples};
