// What the check of a certificate answers.

ghost use Rattle.std.specs.Prelude.{◌≡◌};

use sample_core::OutOfMemory;
use thiserror::Error;

/// A certificate that leads from its source to its target.
#[derive(Debug, Drop)]
pub struct Accepted {
    /// How many steps it has.
    pub steps: u32,
}

/// Why a certificate is refused. Steps are counted from 1.
#[derive(Debug, Drop, Error)]
pub enum CheckFault {
    /// The input types of source and target differ.
    #[error("inputs differ")]
    InputsDiffer,
    /// The certificate has more than 10,000 steps.
    #[error("too many steps")]
    TooManySteps,
    /// The step's position isn't there.
    #[error("no position at step {step}")]
    NoPosition { step: u32 },
    /// The step's law has no answer at its position, as where it is of the other kind than the
    /// tree there.
    #[error("no match at step {step}")]
    NoMatch { step: u32 },
    /// The network that the step leads to is refused by the typing or a limit, or the output type
    /// at the position has changed.
    #[error("ill typed at step {step}")]
    IllTyped { step: u32 },
    /// The steps lead to another network than the target.
    #[error("ends elsewhere")]
    EndsElsewhere,
    /// Allocation failed.
    #[error("memory")]
    Memory,
}

impl<E: OutOfMemory> From<E> for CheckFault {
    ghost use Rattle.cert_check.specs.declared.answer.CheckFault.TheVariants.{Memory};

    ghost from_gives = { λ _ e. e ≡ Memory };

    fn from(_: E) -> CheckFault {
        CheckFault::Memory
    }
}
