// Why a value could not be read.

ghost use Rattle.std.specs.Prelude.{◌≡◌};
ghost use Rattle.sample_core.specs.declared.fault.ValueFault.TheVariants as Fault;

use crate::memory::OutOfMemory;
use thiserror::Error;

/// Why no value of the type was read. Each `at` is a byte of the text, counted from 0.
#[derive(Debug, Drop, Error)]
pub enum ValueFault {
    /// Where a value must stand none begins, of whatever type; or inside a value a space or a `)`
    /// is missing.
    #[error("no value at {at}")]
    NotAValue { at: usize },
    /// Where a value must stand one of another type begins.
    #[error("other type at {at}")]
    OtherType { at: usize },
    /// A number is wanted, and the one that begins there is outside 64 bits.
    #[error("number range at {at}")]
    NumberRange { at: usize },
    /// Allocation failed.
    #[error("memory")]
    Memory,
}

impl<E: OutOfMemory> From<E> for ValueFault {
    ghost from_gives = { λ _ e. e ≡ Fault.Memory };

    fn from(_: E) -> ValueFault {
        ValueFault::Memory
    }
}
