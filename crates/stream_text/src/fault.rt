// What is wrong with a stream.

use sample_core::{OutOfMemory, ValueFault};
use thiserror::Error;

/// What is wrong with a stream. Lines are counted from 1.
#[derive(Debug, Drop, Error)]
pub enum StreamFault {
    /// Line 1 begins with `+`; or a later line doesn't begin with `+`, a step and a space, where a
    /// step is digits, the first of them not 0, and at most 2^63 - 1.
    #[error("stream: line {line}: step")]
    Step { line: u64 },
    /// The line's value is faulty. The place in the fault is counted in bytes, from 0 at the
    /// value's first. The fault isn't `Memory`.
    #[error("stream: line {line}: {fault}")]
    Value { line: u64, fault: ValueFault },
    /// Line 1 is `=` and nothing else, and there is no value to repeat.
    #[error("stream: line {line}: nothing before")]
    NothingBefore { line: u64 },
    /// A line has more than 65,536 bytes before its line feed.
    #[error("stream: line {line}: too long")]
    LineTooLong { line: u64 },
    /// There is a line 1,000,001.
    #[error("stream: line {line}: too many samples")]
    TooManySamples { line: u64 },
    /// 2^40 reads are counted, failed ones among them, and the next line isn't known.
    #[error("stream: too many reads")]
    ReadTurns,
    /// The reader counts more failures than before, and the next line isn't known.
    #[error("stream: cannot be read")]
    Read,
    /// Allocation failed.
    #[error("memory")]
    Memory,
    /// An earlier call answered a fault: each later one answers this.
    #[error("stream: ended")]
    Ended,
}

impl<E: OutOfMemory> From<E> for StreamFault {
    ghost use Rattle.std.specs.Prelude.{◌≡◌};
    ghost use Rattle.stream_text.specs.declared.fault.StreamFault.TheVariants as Fault;

    ghost from_gives = { λ _ e. e ≡ Fault.Memory };

    fn from(_: E) -> StreamFault {
        StreamFault::Memory
    }
}
