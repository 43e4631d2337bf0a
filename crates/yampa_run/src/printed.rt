// What the program prints of a run that ended early.

ghost use Rattle.std.specs.Prelude.{◌≡◌, ◌++◌, IfOk, OnOk, string_bytes};
ghost use Rattle.std.specs.Fmt.{decimal};
ghost use Rattle.yampa_run.specs.FaultLines.{EndsRun, IsMet, at_line, line_of, status_of, stream_words, value_words};

use crate::fault::RunFault;
use itoa::Buffer;
use sample_core::{Memory, ValueFault, push_word};
use std::alloc::Global;
use stream_text::StreamFault;

/// The exit status of a run that ended early, and the line that tells why, without a line feed: 1
/// for what is wrong with the stream's text, 3 for reading, writing and memory. The fault must be
/// one that a run answers, so not `Ended`. `Memory` if allocation fails.
pub fn fault_line(alloc: Global, fault: &RunFault) -> Result<(u8, String), Memory>
    requires { EndsRun fault.now }
    ensures status { IfOk result (λ r. r.0 ≡ status_of fault.now) }
    ensures line { IfOk result (λ r. string_bytes r.1 ≡ line_of fault.now) }
{
    let mut line = String::new(alloc);
    push_fault(&mut line, fault)?;
    Ok((status(fault), line))
}

/// 1 for what is wrong with the stream's text, 3 for reading, writing and memory.
fn status(fault: &RunFault) -> u8
    ensures { result ≡ status_of fault.now }
{
    match fault {
        RunFault::Stream { fault, .. } => match fault {
            StreamFault::ReadTurns | StreamFault::Read | StreamFault::Memory => 3,
            StreamFault::Value {
                fault: ValueFault::Memory,
                ..
            } => 3,
            _ => 1,
        },
        RunFault::Write { .. } | RunFault::Memory { .. } => 3,
    }
}

fn push_fault(out: &mut String, fault: &RunFault) -> Result<(), Memory>
    requires { EndsRun fault.now }
    ensures { OnOk result (string_bytes out.new ≡ string_bytes out.old ++ line_of fault.now) }
{
    match fault {
        RunFault::Stream { fault, .. } => push_stream(out, fault),
        RunFault::Write { .. } => push_word(out, "output: cannot be written"),
        RunFault::Memory { .. } => push_word(out, "memory"),
    }
}

fn push_stream(out: &mut String, fault: &StreamFault) -> Result<(), Memory>
    requires { IsMet fault.now }
    ensures { OnOk result (string_bytes out.new ≡ string_bytes out.old ++ stream_words fault.now) }
{
    match fault {
        StreamFault::Step { line } => push_at(out, *line, "step"),
        StreamFault::Value { line, fault } => push_value_fault(out, *line, fault),
        StreamFault::NothingBefore { line } => push_at(out, *line, "nothing before"),
        StreamFault::LineTooLong { line } => push_at(out, *line, "too long"),
        StreamFault::TooManySamples { line } => push_at(out, *line, "too many samples"),
        StreamFault::ReadTurns => push_word(out, "stream: too many reads"),
        StreamFault::Read => push_word(out, "stream: cannot be read"),
        StreamFault::Memory => push_word(out, "memory"),
        StreamFault::Ended => unreachable!(),
    }
}

fn push_value_fault(out: &mut String, line: u64, fault: &ValueFault) -> Result<(), Memory>
    ensures { OnOk result (string_bytes out.new ≡ string_bytes out.old
        ++ value_words line fault.now) }
{
    match fault {
        ValueFault::NotAValue { at } => push_place(out, line, "no value at ", *at),
        ValueFault::OtherType { at } => push_place(out, line, "other type at ", *at),
        ValueFault::NumberRange { at } => push_place(out, line, "number range at ", *at),
        ValueFault::Memory => push_word(out, "memory"),
    }
}

fn push_at(out: &mut String, line: u64, what: &str) -> Result<(), Memory>
    ensures { OnOk result (string_bytes out.new ≡ string_bytes out.old ++ at_line line what.now) }
{
    push_word(out, "stream: line ")?;
    push_number(out, line)?;
    push_word(out, ": ")?;
    push_word(out, what)?;
    Ok(())
}

fn push_place(out: &mut String, line: u64, what: &str, place: usize) -> Result<(), Memory>
    ensures { OnOk result (string_bytes out.new ≡ string_bytes out.old
        ++ at_line line (what.now ++ decimal place)) }
{
    push_at(out, line, what)?;
    push_number(out, place as u64)?;
    Ok(())
}

/// Adds the number in digits. `Memory` if allocation fails.
pub(crate) fn push_number(out: &mut String, number: u64) -> Result<(), Memory>
    ensures { OnOk result (string_bytes out.new ≡ string_bytes out.old ++ decimal number) }
{
    push_word(out, Buffer::new().format(number))
}
