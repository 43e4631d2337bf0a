// Why a type or an expression could not be read.

ghost use Rattle.std.specs.Prelude.{◌≡◌};
ghost use Rattle.leaf_expr.specs.declared.text_fault.ExprTextFault.TheVariants.{Memory};

use sample_core::OutOfMemory;
use thiserror::Error;

/// Why a text is no type or expression. Each `at` is the first byte of the first token that
/// doesn't fit, counted from 0, or the text's length where it ends too early.
#[derive(Debug, Drop, Error)]
pub enum ExprTextFault {
    /// A token that doesn't fit and is none of the next two, or no further token.
    #[error("syntax at byte {at}")]
    Syntax { at: usize },
    /// Where a number may stand, a number word that is badly spelt or out of range: 64 bits for a
    /// literal, 0 to 65,535 for the number of a parameter.
    #[error("number at byte {at}")]
    Number { at: usize },
    /// A parenthesis that would be the 601st open at once, also where none fits.
    #[error("nesting at byte {at}")]
    TooDeep { at: usize },
    /// The text has more than 1,048,576 bytes, whatever they are.
    #[error("too long")]
    TooLong,
    /// Allocation failed.
    #[error("memory")]
    Memory,
}

impl<E: OutOfMemory> From<E> for ExprTextFault {
    ghost from_gives = { λ _ e. e ≡ Memory };

    fn from(_: E) -> ExprTextFault {
        ExprTextFault::Memory
    }
}
