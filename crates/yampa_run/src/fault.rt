// Why a run ended early, and what a run did that met its stream's end.

use stream_text::StreamFault;
use thiserror::Error;

/// Why a run ended early. `lines` is the number of lines of output that were wholly written.
#[derive(Debug, Drop, Error)]
pub enum RunFault {
    /// The stream has a fault, or a read of it failed.
    #[error("{fault}")]
    Stream { lines: u64, fault: StreamFault },
    /// A write of the output failed or took no byte. Where it isn't known how many lines were
    /// written, as of what the program prints, `lines` is 0.
    #[error("output: cannot be written")]
    Write { lines: u64 },
    /// Allocation failed.
    #[error("memory")]
    Memory { lines: u64 },
}

/// What a run did that met its stream's end.
#[derive(Clone, Copy)]
pub struct RunReport {
    /// The lines of output that were written, one for each sample.
    pub lines: u64,
    /// The most nodes of the network that a sample visited; 0 where there was none.
    pub most_visits: u32,
}
