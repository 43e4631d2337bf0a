// How each cell steps.

ghost use Rattle.std.specs.Prelude.{◌≡◌, ◌∷◌, [], pos, ◌+ℤ◌, ◌*ℤ◌, OnOk};
ghost use Rattle.std.specs.Int.{int_wrap, w64};
ghost use Rattle.sample_core.specs.{Datum.no_event, Datum.unit, ValueView.datum_of};
ghost use Rattle.net_meaning.specs.SignalFunction.{latest_event};
ghost use Rattle.cell_core.specs.CellView.{cell_of, kept_by, outcome_of};
ghost use Rattle.cell_core.specs.Parts.{after_of, recurring_of};
ghost use Rattle.cell_core.specs.Cell.{cell_step, previous, latest as holding, accumulating, ticking, summing};

use crate::cell::Cell;
use crate::recurring::Recurring;
use sample_core::{Memory, Sample, SampleChild};
use std::alloc::Global;
use std::rc::Rc;

/// A cell that keeps one value, and nothing else.
#[derive(Clone, Copy)]
pub(crate) enum Keeper {
    IPre,
    Hold,
    AccumBy,
}

impl Keeper {
    /// The cell that keeps this value.
    #[inline(always)]
    fn cell(self, value: Sample) -> Cell
        ensures { cell_of result ≡ kept_by self (datum_of value) }
    {
        match self {
            Keeper::IPre => Cell::IPre(value),
            Keeper::Hold => Cell::Hold(value),
            Keeper::AccumBy => Cell::AccumBy(value),
        }
    }
}

/// The cell that keeps this value, in that place, whose value's memory it takes where it is one
/// of the same form.
#[inline(always)]
pub(crate) fn keep(
    alloc: Global,
    keeper: Keeper,
    value: &Sample,
    place: &mut Cell,
) -> Result<(), Memory>
    ensures { OnOk result (cell_of place.new ≡ kept_by keeper (datum_of value.now)) }
{
    match (keeper, &mut *place) {
        (Keeper::IPre, Cell::IPre(there)) => there.put_copy(alloc, value),
        (Keeper::Hold, Cell::Hold(there)) => there.put_copy(alloc, value),
        (Keeper::AccumBy, Cell::AccumBy(there)) => there.put_copy(alloc, value),
        _ => {
            place.put(keeper.cell(value.try_copy(alloc)?));
            Ok(())
        }
    }
}

/// The value of the latest event: the sample's, if it is one, else what was kept.
#[inline(always)]
pub(crate) fn latest<'s>(kept: &'s Sample, sample: &'s Sample) -> &'s Sample
    ensures { datum_of result.now
        ≡ latest_event (datum_of kept.entry.now) (datum_of sample.entry.now ∷ []) }
{
    match sample {
        Sample::Event(value) => value.get(),
        _ => kept,
    }
}

/// An `iPre` keeps the sample and answers the one before. Where numbers come into the places of
/// numbers, they are written at once.
#[inline(always)]
pub(crate) fn i_pre(
    alloc: Global,
    before: &Sample,
    sample: &Sample,
    place: &mut Cell,
    out: &mut Sample,
) -> Result<(), Memory>
    ensures { OnOk result (outcome_of (place.new, out.new)
        ≡ cell_step (previous (datum_of before.now)) (0, datum_of sample.now)) }
{
    if let (Sample::Int(next), Sample::Int(last)) = (sample, before) {
        if let (Cell::IPre(Sample::Int(kept)), Sample::Int(answer)) = (&mut *place, &mut *out) {
            *kept = *next;
            *answer = *last;
            return Ok(());
        }
    }
    i_pre_of_any(alloc, before, sample, place, out)
}

/// An `iPre` over values of any type, which are copied into their places.
#[inline(never)]
fn i_pre_of_any(
    alloc: Global,
    before: &Sample,
    sample: &Sample,
    place: &mut Cell,
    out: &mut Sample,
) -> Result<(), Memory>
    ensures { OnOk result (outcome_of (place.new, out.new)
        ≡ cell_step (previous (datum_of before.now)) (0, datum_of sample.now)) }
{
    keep(alloc, Keeper::IPre, sample, place)?;
    out.put_copy(alloc, before)
}

/// A `hold` keeps the value of the latest event and answers it.
#[inline(always)]
pub(crate) fn hold(
    alloc: Global,
    kept: &Sample,
    sample: &Sample,
    place: &mut Cell,
    out: &mut Sample,
) -> Result<(), Memory>
    ensures { OnOk result (outcome_of (place.new, out.new)
        ≡ cell_step (holding (datum_of kept.now)) (0, datum_of sample.now)) }
{
    let value = latest(kept, sample);
    keep(alloc, Keeper::Hold, value, place)?;
    out.put_copy(alloc, value)
}

/// An `accumBy` keeps an event's value and answers the event.
#[inline(always)]
pub(crate) fn accum_by(
    alloc: Global,
    kept: &Sample,
    sample: &Sample,
    place: &mut Cell,
    out: &mut Sample,
) -> Result<(), Memory>
    ensures { OnOk result (outcome_of (place.new, out.new)
        ≡ cell_step (accumulating (datum_of kept.now)) (0, datum_of sample.now)) }
{
    let (value, fires) = match sample {
        Sample::Event(value) => (value.get(), true),
        _ => (kept, false),
    };
    keep(alloc, Keeper::AccumBy, value, place)?;
    if fires {
        return out.put_copy(alloc, sample);
    }
    put_no_event(out);
    Ok(())
}

/// No event in place of a value: mostly there was none before.
#[inline(always)]
fn put_no_event(out: &mut Sample)
    ensures { datum_of out.new ≡ no_event }
{
    match out {
        Sample::NoEvent => {}
        _ => out.put(Sample::NoEvent),
    }
}

/// An `after`: its event comes where it isn't past, and no more than dt is left.
#[inline(always)]
pub(crate) fn after(
    left: u64,
    value: &SampleChild,
    dt: u64,
    place: &mut Cell,
    out: &mut Sample,
) -> Result<(), Memory>
    ensures { OnOk result (outcome_of (place.new, out.new)
        ≡ cell_step (after_of left value.now) (dt, unit)) }
{
    let fires = 0 < left && left <= dt;
    put_after(left.saturating_sub(dt), value, place)?;
    if fires {
        out.put(Sample::Event(value.try_copy()?));
    } else {
        put_no_event(out);
    }
    Ok(())
}

/// The cell of an `after` to whose event so much time is left, in that place.
#[inline(always)]
fn put_after(left: u64, value: &SampleChild, place: &mut Cell) -> Result<(), Memory>
    ensures { OnOk result (cell_of place.new ≡ after_of left value.now) }
{
    let value = value.try_copy()?;
    match place {
        Cell::After(there, kept) => {
            *there = left;
            drop(std::mem::replace(kept, value));
        }
        _ => place.put(Cell::After(left, value)),
    }
    Ok(())
}

/// A `repeatedly`: its event comes where no more than dt is left to a multiple.
#[inline(always)]
pub(crate) fn repeatedly(
    left: u64,
    recurring: &Rc<Recurring>,
    dt: u64,
    place: &mut Cell,
    out: &mut Sample,
) -> Result<(), Memory>
    ensures { OnOk result (outcome_of (place.new, out.new)
        ≡ cell_step (recurring_of left recurring.now.value) (dt, unit)) }
{
    if left <= dt {
        let q = recurring.q;
        put_repeatedly(q - (dt - left) % q, recurring, place)?;
        out.put(Sample::Event(recurring.value.try_copy()?));
    } else {
        put_repeatedly(left - dt, recurring, place)?;
        put_no_event(out);
    }
    Ok(())
}

/// The cell of a `repeatedly` to whose next multiple so much time is left, in that place.
#[inline(always)]
fn put_repeatedly(left: u64, recurring: &Rc<Recurring>, place: &mut Cell) -> Result<(), Memory>
    ensures { OnOk result (cell_of place.new ≡ recurring_of left recurring.now.value) }
{
    let recurring = recurring.clone()?;
    match place {
        Cell::Repeatedly(there, kept) => {
            *there = left;
            drop(std::mem::replace(kept, recurring));
        }
        _ => place.put(Cell::Repeatedly(left, recurring)),
    }
    Ok(())
}

/// A `time` is dt more.
#[inline(never)]
pub(crate) fn time(before: i64, dt: u64, place: &mut Cell, out: &mut Sample)
    ensures { outcome_of (place.new, out.new) ≡ cell_step (ticking before) (dt, unit) }
{
    let time = wrapped_time(before, dt);
    place.put(Cell::Time(time));
    out.put_int(time);
}

/// An `integral` is dt times the sample before more.
#[inline(never)]
pub(crate) fn integral(
    sum: i64,
    before: i64,
    dt: u64,
    sample: &Sample,
    place: &mut Cell,
    out: &mut Sample,
)
    ensures { outcome_of (place.new, out.new)
        ≡ cell_step (summing sum before) (dt, datum_of sample.now) }
{
    let sum = wrapped_area(sum, before, dt);
    place.put(Cell::Integral(sum, sample.number()));
    out.put_int(sum);
}

// A step modulo 2^64, read as signed.
#[inline(always)]
fn signed(dt: u64) -> i64
    ensures { result ≡ int_wrap w64 (pos dt) }
{
    dt.cast_signed()
}

// The time dt later modulo 2^64, read as signed.
#[inline(always)]
fn wrapped_time(before: i64, dt: u64) -> i64
    ensures { result ≡ int_wrap w64 (before +ℤ pos dt) }
{
    wrapped_sum(before, signed(dt))
}

// The sum and dt times the number modulo 2^64, read as signed.
#[inline(always)]
fn wrapped_area(sum: i64, before: i64, dt: u64) -> i64
    ensures { result ≡ int_wrap w64 (sum +ℤ (pos dt *ℤ before)) }
{
    wrapped_sum(sum, wrapped_product(signed(dt), before))
}

// The sum modulo 2^64, read as signed.
#[inline(always)]
fn wrapped_sum(m: i64, n: i64) -> i64
    ensures { result ≡ int_wrap w64 (m +ℤ n) }
{
    m.wrapping_add(n)
}

// The product modulo 2^64, read as signed.
#[inline(always)]
fn wrapped_product(m: i64, n: i64) -> i64
    ensures { result ≡ int_wrap w64 (m *ℤ n) }
{
    m.wrapping_mul(n)
}
