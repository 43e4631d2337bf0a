// The cells.

ghost use Rattle.std.specs.Prelude.{◌≡◌, ◌≢◌, IfOk, IsOk, OnOk, MatchOption};
ghost use Rattle.sample_core.specs.{Datum.Datum, ValueView.datum_of};
ghost use Rattle.cell_core.specs.CellView.{cell_of, outcome_of};
ghost use Rattle.cell_core.specs.Cell.{cell_step, accumulating, previous as keeping};
ghost use Rattle.cell_core.specs.Start.{IsWithin, cell_start};

use crate::behind::{Arrival, Behind};
use crate::form::Form;
use crate::front::Front;
use crate::recurring::Recurring;
use crate::step::Keeper;
use crate::{queue, start, step};
use sample_core::{Memory, Sample, SampleChild};
use std::alloc::Global;
use std::boxed::Box;
use std::rc::Rc;

/// What a cell keeps from one sample to the next.
#[derive(Drop)]
pub enum Cell {
    /// `iPre`: the sample before.
    IPre(Sample),
    /// `delay`: those in front, of which one is out, and those behind. The front is dropped first:
    /// where a large place is given back, malloc joins the small ones that are free.
    Delay(Rc<Front>, Box<Behind>),
    /// `hold`: the value of the latest event, or the constant.
    Hold(Sample),
    /// `accumBy`: the accumulator.
    AccumBy(Sample),
    /// `after`: the time that is left, 0 once it is past, and what its event carries.
    After(u64, SampleChild),
    /// `repeatedly`: the time that is left to the next multiple of its q, and its q with what its
    /// events carry.
    Repeatedly(u64, Rc<Recurring>),
    /// `time`: the time since the first sample, wrapping.
    Time(i64),
    /// `integral`: the sum so far, wrapping, and the sample before.
    Integral(i64, i64),
}

impl Cell {
    /// A cell after its first sample, and its answer to it. `constant` is the value of the form's
    /// constant; `time` and `integral`, which have none, don't look at it. For `accumBy` the
    /// sample is, in place of an event v, the event of the leaf's answer at the pair of the
    /// constant and v. A `delay` and a `repeatedly` need a q of at least 1.
    ///
    /// `Memory` if allocation fails, or a count of references is full.
    pub fn start(
        alloc: Global,
        form: Form,
        constant: Sample,
        sample: &Sample,
    ) -> Result<(Cell, Sample), Memory>
        requires { IsWithin form }
        ensures { IfOk result
            (λ r. outcome_of r ≡ cell_start form (datum_of constant) (datum_of sample.now)) }
    {
        match form {
            Form::IPre => start::i_pre(alloc, constant, sample),
            Form::Delay(q) => queue::start(alloc, q, constant, sample),
            Form::Hold => first_step(alloc, Cell::Hold(constant), sample),
            Form::AccumBy => first_step(alloc, Cell::AccumBy(constant), sample),
            Form::After(q) => start::after(alloc, q, constant),
            Form::Repeatedly(q) => start::repeatedly(alloc, q, constant),
            Form::Time => Ok(start::time()),
            Form::Integral => Ok(start::integral(sample)),
        }
    }

    /// The cell after one sample more, and its answer to it. `dt` is the time since the sample
    /// before. For `accumBy` the sample is, in place of an event v, the event of
    /// the leaf's answer at the pair of the `accumulator` and v.
    ///
    /// Only a `delay` takes memory: `Memory` if allocation fails, or a count of references is full.
    /// This cell stays as it is.
    pub fn step(&self, alloc: Global, dt: u64, sample: &Sample) -> Result<(Cell, Sample), Memory>
        ensures { IfOk result
            (λ r. outcome_of r ≡ cell_step (cell_of self.now) (dt, datum_of sample.now)) }
    {
        let mut next = Cell::Time(0);
        let mut answer = Sample::Int(0);
        let done = self.step_into(alloc, dt, sample, &mut next, &mut answer);
        answered(done, next, answer)
    }

    /// The step of `step`, with the cell after it in place of another one, and the answer in that
    /// of another value. After a refusal some cell stands in the one place, and some value in the
    /// other.
    #[inline(always)]
    pub fn step_into(
        &self,
        alloc: Global,
        dt: u64,
        sample: &Sample,
        place: &mut Cell,
        out: &mut Sample,
    ) -> Result<(), Memory>
        ensures { OnOk result (outcome_of (place.new, out.new)
            ≡ cell_step (cell_of self.now) (dt, datum_of sample.now)) }
    {
        match self {
            Cell::IPre(before) => step::i_pre(alloc, before, sample, place, out),
            Cell::Delay(front, behind) => {
                let arrival = Arrival { behind, dt, sample };
                queue::step(alloc, front, arrival, place, out)
            }
            Cell::Hold(kept) => step::hold(alloc, kept, sample, place, out),
            Cell::AccumBy(accumulator) => step::accum_by(alloc, accumulator, sample, place, out),
            Cell::After(left, value) => step::after(*left, value, dt, place, out),
            Cell::Repeatedly(left, recurring) => step::repeatedly(*left, recurring, dt, place, out),
            Cell::Time(time) => {
                step::time(*time, dt, place, out);
                Ok(())
            }
            Cell::Integral(sum, before) => {
                step::integral(*sum, *before, dt, sample, place, out);
                Ok(())
            }
        }
    }

    /// Another cell in place of this one. A place that holds no parts is written at once.
    #[inline(always)]
    pub(crate) fn put(&mut self, cell: Cell)
        ensures { self.new ≡ cell }
    {
        match self {
            Cell::Time(_) | Cell::Integral(..) => *self = cell,
            _ => drop(std::mem::replace(self, cell)),
        }
    }

    /// An `iPre` that keeps a copy of the value, in place of this cell, whose memory it takes where
    /// that is an `iPre` too. `Memory` only if a count of references is full: some cell stands
    /// there then.
    #[inline(always)]
    pub fn put_previous(&mut self, alloc: Global, value: &Sample) -> Result<(), Memory>
        ensures { OnOk result (cell_of self.new ≡ keeping (datum_of value.now)) }
    {
        step::keep(alloc, Keeper::IPre, value, self)
    }

    /// The accumulator of an `accumBy`; nothing for another cell.
    #[inline(always)]
    pub fn accumulator(&self) -> Option<&Sample>
        ensures { MatchOption result ((acc : Datum) → cell_of self.now ≢ accumulating acc)
            (λ acc. cell_of self.now ≡ accumulating (datum_of acc.now)) }
    {
        match self {
            Cell::AccumBy(accumulator) => Some(accumulator),
            _ => None,
        }
    }

    /// The sample before, of an `iPre`; nothing for another cell.
    #[inline(always)]
    pub fn previous(&self) -> Option<&Sample>
        ensures { MatchOption result ((v : Datum) → cell_of self.now ≢ keeping v)
            (λ v. cell_of self.now ≡ keeping (datum_of v.now)) }
    {
        match self {
            Cell::IPre(before) => Some(before),
            _ => None,
        }
    }
}

/// The cell and its answer, where all was done that they come of.
pub(crate) fn answered(
    done: Result<(), Memory>,
    cell: Cell,
    answer: Sample,
) -> Result<(Cell, Sample), Memory>
    ensures { IfOk result (λ r. IsOk done × (r ≡ (cell, answer))) }
{
    match done {
        Ok(()) => Ok((cell, answer)),
        Err(memory) => {
            drop(cell);
            drop(answer);
            Err(memory)
        }
    }
}

/// A cell that keeps its constant, after its first sample, and its answer to it.
fn first_step(alloc: Global, cell: Cell, sample: &Sample) -> Result<(Cell, Sample), Memory>
    ensures { IfOk result
        (λ r. outcome_of r ≡ cell_step (cell_of cell) (0, datum_of sample.now)) }
{
    let first = cell.step(alloc, 0, sample);
    drop(cell);
    first
}
