// Why a network is refused.

ghost use Rattle.std.specs.Prelude.{◌≡◌};

use leaf_core::ExprFault;
use net_tree::Position;
use sample_core::OutOfMemory;
use thiserror::Error;

/// Why a network has no types within the limits. A position is that of the node or of the
/// expression that is refused.
#[derive(Debug, Drop, Error)]
pub enum TypeFault {
    /// The expression is refused, for that fault, which isn't `Memory`.
    #[error("{fault} in {position}")]
    Expr {
        position: Position,
        fault: ExprFault,
    },
    /// A type of the node's parts differs from the one that is wanted.
    #[error("types differ at {position}")]
    Joint {
        position: Position,
    },
    /// No frozen network has the node's level.
    #[error("no old at {position}")]
    NoOld {
        position: Position,
    },
    /// The node wants an event type.
    #[error("no event at {position}")]
    NotEvent {
        position: Position,
    },
    /// The node wants a pair type.
    #[error("no pair at {position}")]
    NotPair {
        position: Position,
    },
    /// The node has no members, or more than 64.
    #[error("members at {position}")]
    Members {
        position: Position,
    },
    /// A number of the node is outside the range of its place.
    #[error("number at {position}")]
    Number {
        position: Position,
    },
    /// The input type or a type that a node makes has a depth over 32 or more than 256 nodes, or
    /// the network's height is over 256.
    #[error("too deep")]
    TooDeep,
    /// The network's weight is over 1,000,000.
    #[error("too heavy")]
    TooHeavy,
    /// Allocation failed.
    #[error("memory")]
    Memory,
}

impl<E: OutOfMemory> From<E> for TypeFault {
    ghost use Rattle.net_types.specs.declared.fault.TypeFault.TheVariants.{Memory};

    ghost from_gives = { λ _ e. e ≡ Memory };

    fn from(_: E) -> TypeFault {
        TypeFault::Memory
    }
}
