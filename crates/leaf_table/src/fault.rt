// Why a leaf was not added.

use thiserror::Error;

/// Why a table did not take a leaf. The table is then as it was.
#[derive(Clone, Copy, Debug, Error)]
pub enum TableFault {
    /// The leaf's key is new, and the table has 4,096 rows, the most that it may have.
    #[error("table full")]
    Full,
    /// Allocation failed.
    #[error("memory")]
    Memory,
}
