// Samples of the lines of a stream's text.

ghost use Rattle.std.specs.Prelude.{◌≤◌, ◌+◌, IfSome, None, Some, length, if◌then◌else◌};
ghost use Rattle.sample_core.specs.{ValueView.datum_of, TypeView.type_of};
ghost use Rattle.stream_text.specs.LineAhead.{EndsLine, IsAhead};
ghost use Rattle.stream_text.specs.StepText.{step_in};
ghost use Rattle.stream_text.specs.StreamView.{before_view, sample_view};
ghost use Rattle.stream_text.specs.StreamText.{GivesLine, first_line, later_line, line_read, whole_value};

use crate::fault::StreamFault;
use crate::step_text::{split_step, strip};
use sample_core::{Sample, Ty, ValueFault, read_value, read_value_over, reading_laws};
use std::alloc::Global;

/// The most samples of a run.
pub const MOST_SAMPLES: u64 = 1_000_000;

/// The most bytes of a line, without its line feed.
pub const MOST_BYTES: usize = 65_536;

/// What ends a line.
pub const LINE_FEED: u8 = b'\n';

/// The sample of a line, which has a value of the type, with the step that precedes it. Lines are
/// numbered from 1, and `before` is the value of the line before; it is `None` for line 1, whose
/// step is 0.
///
/// Refusals in order. `TooManySamples`: the number is over 1,000,000. `LineTooLong`: more than
/// 65,536 bytes. `Step`: line 1 begins with `+`, or a later line doesn't begin with `+`, a step and
/// a space. `NothingBefore`: line 1 is `=`. `Value`: the value is faulty, by its bytes counted from
/// 0. `Memory`: allocation failed.
pub fn read_line(
    alloc: Global,
    ty: &Ty,
    number: u64,
    before: Option<&Sample>,
    line: &[u8],
) -> Result<(u64, Sample), StreamFault>
    ensures { GivesLine sample_view result
        (line_read (type_of ty.now) number (before_view before.entry) line.now) }
{
    if number > MOST_SAMPLES {
        return Err(StreamFault::TooManySamples { line: number });
    }
    if line.len() > MOST_BYTES {
        return Err(StreamFault::LineTooLong { line: number });
    }
    match before {
        None => read_first(alloc, ty, number, line),
        Some(before) => read_later(alloc, ty, number, before, line),
    }
}

fn read_first(
    alloc: Global,
    ty: &Ty,
    number: u64,
    line: &[u8],
) -> Result<(u64, Sample), StreamFault>
    ensures { GivesLine sample_view result (first_line (type_of ty.now) number line.now) }
{
    if strip(b'+', line).is_some() {
        return Err(StreamFault::Step { line: number });
    }
    if line == b"=".as_slice() {
        return Err(StreamFault::NothingBefore { line: number });
    }
    let value = read_whole(alloc, ty, number, line)?;
    Ok((0, value))
}

fn read_later(
    alloc: Global,
    ty: &Ty,
    number: u64,
    before: &Sample,
    line: &[u8],
) -> Result<(u64, Sample), StreamFault>
    ensures { GivesLine sample_view result
        (later_line (type_of ty.now) number (datum_of before.now) (step_in line.now)) }
{
    let Some((step, rest)) = split_step(line) else {
        return Err(StreamFault::Step { line: number });
    };
    if rest == b"=".as_slice() {
        return Ok((step, before.try_copy(alloc)?));
    }
    let value = read_whole(alloc, ty, number, rest)?;
    Ok((step, value))
}

/// The value that all of the bytes write.
fn read_whole(alloc: Global, ty: &Ty, number: u64, bytes: &[u8]) -> Result<Sample, StreamFault>
    ensures { GivesLine datum_of result (whole_value (type_of ty.now) number bytes.now) }
{
    match read_value(alloc, bytes, ty) {
        Ok((value, taken)) => {
            if taken == bytes.len() {
                Ok(value)
            } else {
                Err(StreamFault::Value {
                    line: number,
                    fault: ValueFault::NotAValue { at: taken },
                })
            }
        }
        Err(ValueFault::Memory) => Err(StreamFault::Memory),
        Err(fault) => Err(StreamFault::Value {
            line: number,
            fault,
        }),
    }
}

/// Where the bytes begin with a later line that holds a sample, and its line feed: the sample's
/// step, whether the line writes a value, which stands in `spare` then, else it repeats the value
/// before, and how many bytes the line has without its line feed. `None` tells nothing of the line.
/// There are at most the bytes of the longest line, with its line feed.
#[inline(always)]
pub fn read_ahead(
    alloc: Global,
    ty: &Ty,
    bytes: &[u8],
    spare: &mut Sample,
) -> Option<(u64, bool, usize)>
    requires { length bytes.now ≤ MOST_BYTES + 1 }
    ensures { IfSome result (λ x. IsAhead (type_of ty.now) bytes.now x.0 x.2
        (if x.1 then Some spare.new else None)) }
{
    // By these laws the value is read alike without what follows it.
    reading_laws();
    let (step, rest) = split_step(bytes)?;
    let (is_new, taken) = read_end(alloc, ty, rest, spare)?;
    let size = bytes.len() - rest.len() + taken;
    Some((step, is_new, size))
}

/// Where the bytes begin with what stands behind a later line's step, and the line feed: whether it
/// is a value, which stands in `spare` then, else it is `=`, and how many bytes it has without the
/// line feed.
#[inline(always)]
fn read_end(alloc: Global, ty: &Ty, bytes: &[u8], spare: &mut Sample) -> Option<(bool, usize)>
    ensures ends { IfSome result (λ x. EndsLine (type_of ty.now) bytes.now x.1
        (if x.0 then Some spare.new else None)) }
    ensures within { IfSome result (λ x. x.1 ≤ length bytes.now) }
{
    // No value begins so.
    if let [b'=', behind @ ..] = bytes {
        return if let [LINE_FEED, ..] = behind {
            Some((false, 1))
        } else {
            None
        };
    }
    match read_value_over(alloc, bytes, ty, spare) {
        Ok(taken) => {
            if taken < bytes.len() && bytes[taken] == LINE_FEED {
                Some((true, taken))
            } else {
                None
            }
        }
        Err(_) => None,
    }
}
