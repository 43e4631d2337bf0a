//! Runs of networks on the texts of streams, what a command line leads to, and what the program
//! prints.
//!
//!     let job = prepare(alloc, &["yampa", "run", "net"], &files)?;
//!     let report = run_network(alloc, &net, &needs, &table, &mut reader, &mut writer)?;
//!
//! `prepare` answers the network to run, or the text to print, for the words and the files' bytes,
//! and else the refusal's status and line. `run_network` writes one line a sample: the spellings
//! of the network's stream meaning, up to the text's first fault. `headline_laws` and
//! `whole_run_laws` say what that means for certificates and for the whole command; `fill_table!`
//! makes the table.
//!
//! First `specs/Output` and `Headline`, then `src/stream_run.rt`, `src/preparation.rt`. A command is
//! in the file of its name, but `run` in `load`, `network_run` and `stream_run`, and `outline` in
//! `network_commands`; so too in `specs`, where `optimise` is in `NetworkCommands`.
#![tactic(auto)]

mod apply;
mod check;
mod compile;
mod ending;
mod fault;
mod file_laws;
mod files;
pub mod fill;
mod laws;
mod load;
mod network_commands;
mod network_run;
mod optimise;
mod preparation;
mod printed;
mod refused;
mod stream_run;
mod types;
mod words;

pub use ending::{Ending, job_ending, run_ending};
pub use fault::{RunFault, RunReport};
pub use file_laws::{
    applied_file_laws, compiled_file_laws, headline_laws, limit_laws, optimised_file_laws,
    refusal_laws, whole_run_laws,
};
pub use files::{FileFault, Files};
pub use fill::table_refusal;
pub use network_run::{run_network, run_status};
pub use preparation::{Job, Refusal, prepare};
pub use printed::fault_line;
pub use stream_run::run;
pub use stream_text::{
    Asking, Counted, Device, Held, LineReader, Printer, ROOM, StreamFault, is_given,
};
