// Why nothing is built.

use sample_core::OutOfMemory;
use thiserror::Error;

/// Why there is no C of a program.
#[derive(Clone, Copy, PartialEq, Eq, Debug, Error)]
pub enum Unbuilt {
    /// A struct isn't in the table, or a number is too large: never of a network's program.
    #[error("no C")]
    Missing,
    /// Allocation failed.
    #[error("memory")]
    Memory,
}

impl<E: OutOfMemory> From<E> for Unbuilt {
    fn from(_: E) -> Unbuilt {
        Unbuilt::Memory
    }
}
