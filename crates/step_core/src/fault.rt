// Why a network was not bound.

ghost use Rattle.std.specs.Prelude.{◌≡◌};

use net_tree::Position;
use sample_core::OutOfMemory;
use thiserror::Error;

/// Why a network is not bound to a table.
#[derive(Debug, Drop, Error)]
pub enum BindFault {
    /// The table has no row for the expression at this position, the first such in preorder.
    #[error("no row at {position}")]
    MissingLeaf {
        /// Where the expression stands.
        position: Position,
    },
    /// Allocation failed.
    #[error("memory")]
    Memory,
}

impl<E: OutOfMemory> From<E> for BindFault {
    ghost use Rattle.step_core.specs.declared.fault.BindFault.TheVariants as Fault;

    ghost from_gives = { λ _ e. e ≡ Fault.Memory };

    fn from(_: E) -> BindFault {
        BindFault::Memory
    }
}
