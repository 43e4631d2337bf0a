// Reading on until the next line is known.

ghost use Rattle.std.specs.Prelude.{◌≡◌, ◌≢◌, ◌≤◌, [], length, IfErr, IfNone, IfSome};
ghost use Rattle.stream_text.specs.{Failures.Rose, Settling.SettlesLine, Settling.Settles};
ghost use Rattle.stream_text.specs.TextLines.{IsFeedFree, front_lines, shows_fault};
ghost use Rattle.stream_text.specs.declared.fault.StreamFault.TheVariants as Fault;

use crate::device::{Device, has_failed};
use crate::fault::StreamFault;
use crate::kept::{Pending, Piece};
use crate::line::{MOST_BYTES, MOST_SAMPLES};
use std::io::Read;

/// The most reads of a run, 2^40.
const MOST_READS: u64 = 0x100_0000_0000;

/// What is known of the next line.
#[derive(Clone, Copy)]
pub enum Settled {
    /// It is the first so many bytes that are kept: behind them stands a line feed, or they are all
    /// and show a fault already.
    Line(usize),
    /// There are no more bytes than those that are kept, and no line feed in these.
    Last,
}

/// Reads on until line `number`, the next, is known, and no further. Counts the reads.
///
/// `Read`: the reader counts more failures than `failures`. `ReadTurns`: 2^40 reads are counted,
/// failed ones among them. What is kept then settles no line. Where the reader counts no failure it
/// is asked again.
pub fn settle<R: Read + Device>(
    kept: &mut Pending,
    reads: &mut u64,
    number: u64,
    failures: u64,
    source: &mut R,
) -> Result<Settled, StreamFault>
    requires { reads.old ≤ MOST_READS }
    ensures settles { Settles (R.remaining source.old) (R.remaining source.new) number kept.old
        kept.new reads.old reads.new result }
    ensures unasked { front_lines number kept.old ≢ [] → source.new ≡ source.old }
    ensures few { reads.new ≤ MOST_READS }
    ensures failed { IfErr result (λ fault. fault ≡ Fault.Read
        → Rose failures (R.count source.new)) }
{
    loop {
        if let Some(size) = settled_size(kept, number) {
            return Ok(Settled::Line(size));
        }
        if *reads >= MOST_READS {
            return Err(StreamFault::ReadTurns);
        }
        *reads += 1;
        match kept.fill(source) {
            Piece::Bytes => {}
            Piece::End => return Ok(Settled::Last),
            Piece::Failed => {
                if has_failed(source, failures) {
                    return Err(StreamFault::Read);
                }
            }
        }
    }
}

/// How many bytes line `number` has, where what is kept settles it.
fn settled_size(kept: &mut Pending, number: u64) -> Option<usize>
    ensures same { kept.new ≡ kept.old }
    ensures settled { IfSome result (SettlesLine number kept.old) }
    ensures unsettled { IfNone result (front_lines number kept.old ≡ []) }
    ensures short { IfNone result (length kept.old ≤ MOST_BYTES) }
    ensures free { IfNone result (IsFeedFree kept.old) }
{
    if let Some(at) = kept.feed_at() {
        return Some(at);
    }
    let size = kept.len();
    if is_faulty(number, size) {
        Some(size)
    } else {
        None
    }
}

/// Whether so many bytes without line feed show that line `number` holds no sample.
fn is_faulty(number: u64, size: usize) -> bool
    ensures { result ≡ shows_fault number size }
{
    size > MOST_BYTES || (number > MOST_SAMPLES && size > 0)
}
