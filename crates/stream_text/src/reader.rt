// The samples of a stream, read from any reader.

ghost use Rattle.std.specs.Prelude.{◌≡◌, ◌≤◌, ◌<◌, IfOk, IfSome, None, Some, if◌then◌else◌};
ghost use Rattle.std.specs.Option.{option_map};
ghost use Rattle.sample_core.specs.{Datum.Datum, HasType.HasType, TypeView.type_of, ValueView.datum_of};
ghost use Rattle.stream_text.specs.{Calls.FailsBySource, Calls.LastFits, Calls.step_alone, StreamView.value_behind};
ghost use Rattle.stream_text.specs.declared.line.TheConstants.{MOST_SAMPLES};
ghost use Rattle.stream_text.specs.declared.settle.TheConstants.{MOST_READS};

use crate::device::Device;
use crate::fault::StreamFault;
use crate::kept::Pending;
use crate::line::{MOST_BYTES, MOST_SAMPLES, read_ahead, read_line};
use crate::settle::{Settled, settle};
use sample_core::{Memory, Sample, Ty, reading_laws};
use std::alloc::Global;
use std::io::Read;
use std::mem;

/// The most bytes of a short line, with its line feed.
const SHORT: usize = 256;

/// What has ended a stream, if anything.
#[derive(Clone, Copy)]
pub enum Met {
    Nothing,
    /// The reader's end.
    End,
    /// A fault.
    Fault,
}

/// What is kept of a stream between its samples, whichever reader gives its bytes: those that were
/// read and not yet answered, how many lines were answered, the value that was answered last, how
/// many reads were made, and what has ended it. The spare value is one that isn't needed any more:
/// the next is read over it, and takes its memory.
#[derive(Drop)]
pub struct LineState {
    alloc: Global,
    kept: Pending,
    lines: u64,
    before: Option<Sample>,
    spare: Sample,
    reads: u64,
    met: Met,
    ghost few_lines: { lines ≤ MOST_SAMPLES },
    ghost few_reads: { reads ≤ MOST_READS },
}

impl LineState {
    ghost use Rattle.std.specs.Prelude.{◌≡◌, ◌≢◌, ◌≤◌, ◌<◌, ◌+◌, ◌^◌, length, None, Some};
    ghost use Rattle.stream_text.specs.Answers.{GivesAnswer, GivesStep, IsFresh, SettlesNext};
    ghost use Rattle.stream_text.specs.Calls.{MayTakeNext};
    ghost use Rattle.stream_text.specs.LineTaken.{TakesKept, TakesLast, KeepsCopy};
    ghost use Rattle.stream_text.specs.ReaderState.{reader_state};
    ghost use Rattle.stream_text.specs.StreamView.{before_view};
    ghost use Rattle.stream_text.specs.declared.reader.Met.TheVariants as M;

    /// A stream of which nothing was read. `Memory`: there is no room for a line and a piece.
    pub fn new(alloc: Global) -> Result<LineState, Memory>
        ensures { IfOk result (λ state. IsFresh (reader_state state)) }
    {
        let kept = Pending::new(alloc)?;
        Ok(LineState {
            alloc,
            kept,
            lines: 0,
            before: None,
            spare: Sample::Unit,
            reads: 0,
            met: Met::Nothing,
        })
    }

    /// The next sample of the stream with its step, which is 0 for the first; `None` at the end,
    /// again and again. The value that was answered last, if there is one, must have that type.
    ///
    /// `failures` is how often the source had failed before: `Read` comes only where it counts more
    /// by then.
    ///
    /// The first fault ends the stream: in the words of [`StreamFault`], lines before reads, so
    /// that lines whose line feed came before a failed read are answered first. `Memory`: there
    /// is none for the value or its copy. From then on the answer is `Ended`.
    pub fn next<R: Read + Device>(
        &mut self,
        source: &mut R,
        failures: u64,
        ty: &Ty,
    ) -> Result<Option<(u64, Sample)>, StreamFault>
        requires { LastFits (type_of ty.now) (reader_state self.old) }
        ensures answers { GivesAnswer (type_of ty.now) (reader_state self.old)
            (R.remaining source.old) result (reader_state self.new) (R.remaining source.new) }
        ensures failed { FailsBySource failures result (R.count source.new) }
        ensures unasked { SettlesNext (reader_state self.old) → source.new ≡ source.old }
        ensures typed { IfOk result (λ o. IfSome o (λ x. HasType (datum_of x.1) (type_of ty.now))) }
        ensures stepped { IfOk result (λ o. IfSome o (λ x. 0 < (reader_state self.old).lines
            → (1 ≤ x.0) × (x.0 < 2 ^ 63))) }
        ensures before { LastFits (type_of ty.now) (reader_state self.new) }
        ensures few { (reader_state self.new).lines ≤ MOST_SAMPLES }
    {
        // By these laws the sample is of the type.
        reading_laws();
        match self.met {
            Met::Nothing => self.go_on(source, failures, ty),
            Met::End => Ok(None),
            Met::Fault => Err(StreamFault::Ended),
        }
    }

    /// The step of the next sample, whose value is then the [`LineState::last`]: else as
    /// [`LineState::next`], but that it takes no copy of the value where what is kept tells the
    /// sample.
    #[inline(always)]
    pub fn next_step<R: Read + Device>(
        &mut self,
        source: &mut R,
        failures: u64,
        ty: &Ty,
    ) -> Result<Option<u64>, StreamFault>
        requires { LastFits (type_of ty.now) (reader_state self.old) }
        ensures answers { GivesStep (type_of ty.now) (reader_state self.old)
            (R.remaining source.old) result (reader_state self.new) (R.remaining source.new) }
        ensures failed { FailsBySource failures result (R.count source.new) }
        ensures unasked { SettlesNext (reader_state self.old) → source.new ≡ source.old }
        ensures stepped { IfOk result (λ o. IfSome o (λ step. 0 < (reader_state self.old).lines
            → (1 ≤ step) × (step < 2 ^ 63))) }
        ensures before { LastFits (type_of ty.now) (reader_state self.new) }
        ensures few { (reader_state self.new).lines ≤ MOST_SAMPLES }
    {
        match self.next_kept(ty) {
            Some(step) => Ok(Some(step)),
            None => step_alone(self.next(source, failures, ty)),
        }
    }

    /// The step of the next sample, where its line is kept with its line feed and is not the first:
    /// then the sample's value is the last. Reads nothing. `None` tells nothing of the stream, and
    /// leaves it as it is.
    #[inline(always)]
    fn next_kept(&mut self, ty: &Ty) -> Option<u64>
        requires { LastFits (type_of ty.now) (reader_state self.old) }
        ensures taken { MayTakeNext (type_of ty.now) (reader_state self.old) result
            (reader_state self.new) }
        ensures stepped { IfSome result (λ step. (1 ≤ step) × (step < 2 ^ 63)) }
        ensures before { LastFits (type_of ty.now) (reader_state self.new) }
        ensures few { (reader_state self.new).lines ≤ MOST_SAMPLES }
    {
        // By these laws the sample is of the type.
        reading_laws();
        match (self.met, &self.before) {
            (Met::Nothing, Some(_)) => self.take_next(ty),
            _ => None,
        }
    }

    /// The step of the next sample, where nothing has ended the stream, and there is a value
    /// before.
    #[inline(always)]
    fn take_next(&mut self, ty: &Ty) -> Option<u64>
        requires open { self.old.met ≡ M.Nothing }
        requires later { (reader_state self.old).before ≢ None }
        ensures { MayTakeNext (type_of ty.now) (reader_state self.old) result
            (reader_state self.new) }
    {
        match self.take_short(ty) {
            Some(step) => Some(step),
            None => self.take_long(ty),
        }
    }

    /// The step of the next sample on a short line, which is read before its line feed is looked
    /// for. A list's line is often longer, and would be read twice, so `None` for a list.
    #[inline(always)]
    fn take_short(&mut self, ty: &Ty) -> Option<u64>
        requires open { self.old.met ≡ M.Nothing }
        requires later { (reader_state self.old).before ≢ None }
        ensures { MayTakeNext (type_of ty.now) (reader_state self.old) result
            (reader_state self.new) }
    {
        if matches!(ty, Ty::List(_)) {
            return None;
        }
        self.take_within(ty, SHORT)
    }

    /// The step of the next sample on a line of any length.
    #[inline(never)]
    fn take_long(&mut self, ty: &Ty) -> Option<u64>
        requires open { self.old.met ≡ M.Nothing }
        requires later { (reader_state self.old).before ≢ None }
        ensures { MayTakeNext (type_of ty.now) (reader_state self.old) result
            (reader_state self.new) }
    {
        let size = self.kept.feed_at()?;
        if size > MOST_BYTES {
            return None;
        }
        self.take_within(ty, size + 1)
    }

    /// The step of the next sample on a line that has, with its line feed, at most so many bytes.
    #[inline(always)]
    fn take_within(&mut self, ty: &Ty, most: usize) -> Option<u64>
        requires open { self.old.met ≡ M.Nothing }
        requires later { (reader_state self.old).before ≢ None }
        requires short { most ≤ MOST_BYTES + 1 }
        ensures { MayTakeNext (type_of ty.now) (reader_state self.old) result
            (reader_state self.new) }
    {
        if self.lines >= MOST_SAMPLES {
            return None;
        }
        let (step, is_new, size) = read_ahead(
            self.alloc,
            ty,
            self.kept.near(most),
            &mut self.spare,
        )?;
        put_behind(&mut self.before, &mut self.spare, is_new);
        self.kept.skip_fed(size);
        self.lines += 1;
        Some(step)
    }

    /// The value that was answered last, if there is one.
    #[inline(always)]
    pub fn last(&self) -> Option<&Sample>
        ensures { before_view result ≡ (reader_state self.now).before }
    {
        Option::as_ref(&self.before)
    }

    /// The next answer, where nothing has ended the stream.
    #[inline(never)]
    fn go_on<R: Read + Device>(
        &mut self,
        source: &mut R,
        failures: u64,
        ty: &Ty,
    ) -> Result<Option<(u64, Sample)>, StreamFault>
        requires { self.old.met ≡ M.Nothing }
        ensures answers { GivesAnswer (type_of ty.now) (reader_state self.old)
            (R.remaining source.old) result (reader_state self.new) (R.remaining source.new) }
        ensures failed { FailsBySource failures result (R.count source.new) }
        ensures unasked { SettlesNext (reader_state self.old) → source.new ≡ source.old }
    {
        let number = self.lines + 1;
        match settle(&mut self.kept, &mut self.reads, number, failures, source) {
            Ok(Settled::Line(size)) => self.take_line(ty, size),
            Ok(Settled::Last) => self.take_last(ty),
            Err(fault) => {
                self.met = Met::Fault;
                Err(fault)
            }
        }
    }

    /// The answer at the end, where what is kept is the last line, or nothing.
    fn take_last(&mut self, ty: &Ty) -> Result<Option<(u64, Sample)>, StreamFault>
        ensures { TakesLast (type_of ty.now) (reader_state self.old) result
            (reader_state self.new) }
    {
        self.met = Met::End;
        let size = self.kept.len();
        if size == 0 {
            return Ok(None);
        }
        self.take_line(ty, size)
    }

    /// The answer to the line of so many bytes, which is taken off those that are kept.
    fn take_line(&mut self, ty: &Ty, size: usize) -> Result<Option<(u64, Sample)>, StreamFault>
        requires { size ≤ length self.old.kept }
        ensures { TakesKept (type_of ty.now) (reader_state self.old) size result
            (reader_state self.new) }
    {
        match read_line(
            self.alloc,
            ty,
            self.lines + 1,
            self.before.as_ref(),
            self.kept.front(size),
        ) {
            Ok((step, sample)) => self.keep(step, sample, size),
            Err(refused) => {
                self.met = Met::Fault;
                Err(refused)
            }
        }
    }

    /// Answers the sample of the line of so many bytes, and keeps its value.
    fn keep(
        &mut self,
        step: u64,
        sample: Sample,
        size: usize,
    ) -> Result<Option<(u64, Sample)>, StreamFault>
        requires within { size ≤ length self.old.kept }
        requires few { (reader_state self.old).lines < MOST_SAMPLES }
        ensures { KeepsCopy (reader_state self.old) (step, datum_of sample) size result
            (reader_state self.new) }
    {
        match sample.try_copy(self.alloc) {
            Ok(copy) => {
                self.kept.skip_line(size);
                self.lines += 1;
                drop(self.before.replace(copy));
                Ok(Some((step, sample)))
            }
            Err(Memory) => {
                drop(sample);
                self.met = Met::Fault;
                Err(StreamFault::Memory)
            }
        }
    }
}

/// The samples of a stream, from a reader: what [`LineState`] keeps, with the reader itself.
#[derive(Drop)]
pub struct LineReader<R: Drop> {
    source: R,
    state: LineState,
}

impl<R: Read + Device + Drop> LineReader<R> {
    ghost use Rattle.std.specs.Prelude.{◌≡◌, ◌≤◌, ◌<◌, ◌^◌};
    ghost use Rattle.stream_text.specs.Answers.{GivesAnswer, IsFresh, SettlesNext};
    ghost use Rattle.stream_text.specs.LineReaderView.{source_of, stream_state};

    /// The stream that the reader gives. `Memory`: there is no room for a line and a piece.
    pub fn new(alloc: Global, source: R) -> Result<LineReader<R>, Memory>
        ensures source { IfOk result (λ reader. source_of reader ≡ source) }
        ensures fresh { IfOk result (λ reader. IsFresh (stream_state reader)) }
    {
        match LineState::new(alloc) {
            Ok(state) => Ok(LineReader { source, state }),
            Err(memory) => {
                drop(source);
                Err(memory)
            }
        }
    }

    /// The next sample, as [`LineState::next`] answers it.
    pub fn next(&mut self, ty: &Ty) -> Result<Option<(u64, Sample)>, StreamFault>
        requires { LastFits (type_of ty.now) (stream_state self.old) }
        ensures answers { GivesAnswer (type_of ty.now) (stream_state self.old)
            (R.remaining (source_of self.old)) result (stream_state self.new)
            (R.remaining (source_of self.new)) }
        ensures failed { FailsBySource (R.count (source_of self.old)) result
            (R.count (source_of self.new)) }
        ensures unasked { SettlesNext (stream_state self.old)
            → source_of self.new ≡ source_of self.old }
        ensures typed { IfOk result (λ o. IfSome o (λ x. HasType (datum_of x.1) (type_of ty.now))) }
        ensures stepped { IfOk result (λ o. IfSome o (λ x. 0 < (stream_state self.old).lines
            → (1 ≤ x.0) × (x.0 < 2 ^ 63))) }
        ensures before { LastFits (type_of ty.now) (stream_state self.new) }
    {
        let failures = self.source.failures();
        self.state.next(&mut self.source, failures, ty)
    }
}

/// The answer with the sample's step alone, where a copy of its value is kept.
#[inline(never)]
fn step_alone(
    answer: Result<Option<(u64, Sample)>, StreamFault>,
) -> Result<Option<u64>, StreamFault>
    ensures { result ≡ step_alone answer }
{
    match answer {
        Ok(Some((step, sample))) => {
            drop(sample);
            Ok(Some(step))
        }
        Ok(None) => Ok(None),
        Err(fault) => Err(fault),
    }
}

/// Puts the spare value, where it is new, in place of the value before, which is then the spare
/// one.
#[inline(always)]
fn put_behind(before: &mut Option<Sample>, spare: &mut Sample, is_new: bool)
    ensures { (v : Datum) → option_map datum_of before.old ≡ Some v
        → option_map datum_of before.new
        ≡ Some (value_behind v (if is_new then Some spare.old else None)) }
{
    if is_new {
        if let Some(value) = before {
            mem::swap(value, spare);
        }
    }
}
