// Why a file could not be read.

ghost use Rattle.std.specs.Prelude.{◌≡◌};

use leaf_expr::ExprTextFault;
use sample_core::Memory;
use thiserror::Error;

/// Why a text is no network file, or no certificate file. Each `at` is the first byte of the first
/// token that doesn't fit, counted from 0, or the text's length where it ends too early.
#[derive(Debug, Drop, Error)]
pub enum NetTextFault {
    /// The first three tokens of a network file aren't `yampa`, `1` or `2`, and `input`, or the
    /// first two of a certificate file `laws`, and `1`, `2` or `3`.
    #[error("header")]
    Header,
    /// A token that doesn't fit and is none of the next two, or no further token.
    #[error("syntax at byte {at}")]
    Syntax { at: usize },
    /// Where a number may stand, a number word that is badly spelt or out of range: 64 bits for a
    /// literal, 0 to 65,535 for the number of a parameter, of a frozen network or of a child in a
    /// position, 1 to 4,096 for the time of `delay`, 0 to 2^62 for that of `after`, 1 to 2^62 for
    /// that of `repeatedly`.
    #[error("number at byte {at}")]
    Number { at: usize },
    /// A parenthesis that would be the 601st open at once, also where none fits.
    #[error("nesting at byte {at}")]
    TooDeep { at: usize },
    /// The text has more than 1,048,576 bytes, whatever they are.
    #[error("too long")]
    TooLong,
    /// Allocation failed.
    #[error("memory")]
    Memory,
}

impl NetTextFault {
    ghost use Rattle.std.specs.Prelude.{◌≢◌, OnOk};
    ghost use Rattle.net_text.specs.declared.fault.NetTextFault.TheVariants as Fault;

    /// `Memory` if that is why the text is refused.
    pub fn unless_memory(&self) -> Result<(), Memory>
        ensures { OnOk result (self.now ≢ Fault.Memory) }
    {
        match self {
            NetTextFault::Memory => Err(Memory),
            _ => Ok(()),
        }
    }
}

impl From<ExprTextFault> for NetTextFault {
    ghost use Rattle.net_text.specs.File.{in_file};

    ghost from_gives = { λ f e. e ≡ in_file f };

    fn from(fault: ExprTextFault) -> NetTextFault {
        match fault {
            ExprTextFault::Syntax { at } => NetTextFault::Syntax { at },
            ExprTextFault::Number { at } => NetTextFault::Number { at },
            ExprTextFault::TooDeep { at } => NetTextFault::TooDeep { at },
            ExprTextFault::TooLong => NetTextFault::TooLong,
            ExprTextFault::Memory => NetTextFault::Memory,
        }
    }
}
