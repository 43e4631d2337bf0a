// Parts of values.

ghost use Rattle.std.specs.Prelude.{◌≡◌, ◌≤◌, ◌<◌, IfOk, length, take};
ghost use Rattle.sample_core.specs.{Datum.pair, ValueView.datum_of};
ghost use Rattle.net_meaning.specs.SignalFunction.{event_in};
ghost use Rattle.step_core.specs.Stepping.{restart_in};
ghost use Rattle.step_core.specs.EventView.{event_found, restart_found};

use sample_core::{Memory, Sample, SamplePair};
use std::alloc::Global;

/// A pair of two values. `Memory` if allocation fails.
pub(crate) fn paired(alloc: Global, v: Sample, w: Sample) -> Result<Sample, Memory>
    ensures { IfOk result (λ p. datum_of p ≡ pair (datum_of v) (datum_of w)) }
{
    let pair = SamplePair::new(alloc, v, w)?;
    Ok(Sample::Pair(pair))
}

/// A pair of a value and a copy of another. `Memory` if allocation fails.
pub(crate) fn paired_with(alloc: Global, v: Sample, w: &Sample) -> Result<Sample, Memory>
    ensures { IfOk result (λ p. datum_of p ≡ pair (datum_of v) (datum_of w.now)) }
{
    match w.try_copy(alloc) {
        Ok(w) => paired(alloc, v, w),
        Err(memory) => {
            drop(v);
            Err(memory)
        }
    }
}

/// The pair of copies of two values. `Memory` if allocation fails.
pub(crate) fn beside(alloc: Global, v: &Sample, w: &Sample) -> Result<Sample, Memory>
    ensures { IfOk result (λ p. datum_of p ≡ pair (datum_of v.now) (datum_of w.now)) }
{
    let v = v.try_copy(alloc)?;
    paired_with(alloc, v, w)
}

/// Puts the pair of copies of two values in place of another value: in its memory, where that is a
/// pair that no one else holds. `Memory` if allocation fails.
pub(crate) fn put_pair(
    alloc: Global,
    v: &Sample,
    w: &Sample,
    place: &mut Sample,
) -> Result<(), Memory>
    ensures { IfOk result (λ _. datum_of place.new ≡ pair (datum_of v.now) (datum_of w.now)) }
{
    if let Sample::Pair(parts) = place {
        if let Some(first) = parts.first_mut() {
            first.put_copy(alloc, v)?;
            if let Some(second) = parts.second_mut() {
                return second.put_copy(alloc, w);
            }
        }
    }
    let fresh = beside(alloc, v, w)?;
    place.put(fresh);
    Ok(())
}

/// Lets a value go. Mostly it has no parts.
#[inline(always)]
pub(crate) fn let_go(value: Sample) {
    match value {
        Sample::Unit | Sample::Bool(_) | Sample::Int(_) | Sample::NoEvent => {}
        value => value.let_go(),
    }
}

/// Puts a number in place of an answer that is a pair or an event: a row keeps a copy of its last
/// answer, and the next one comes into its memory where no one else holds it.
#[inline(always)]
pub(crate) fn let_parts_go(answer: &mut Sample) {
    match answer {
        Sample::Int(_) => {}
        other => let_other_parts_go(other),
    }
}

/// Puts a number in place of an answer that is no number, where it is a pair or an event.
#[inline(never)]
fn let_other_parts_go(answer: &mut Sample) {
    if let Sample::Pair(_) | Sample::Event(_) = answer {
        answer.put_int(0);
    }
}

/// Puts a number in place of a pair's second part, where no one else holds the pair: so it holds
/// that part no longer.
pub(crate) fn let_second_go(pair: &mut Sample) {
    if let Sample::Pair(parts) = pair {
        if let Some(second) = parts.second_mut() {
            second.put_int(0);
        }
    }
}

/// What an event carries; `None` for another value.
pub(crate) fn event_of(value: &Sample) -> Option<&Sample>
    ensures { event_found result ≡ event_in (datum_of value.now) }
{
    match value {
        Sample::Event(event) => Some(event.get()),
        _ => None,
    }
}

/// The sample and what the event carries, of a pair of a sample and an event; `None` for another
/// value.
pub(crate) fn restart_of(value: &Sample) -> Option<(&Sample, &Sample)>
    ensures { restart_found result ≡ restart_in (datum_of value.now) }
{
    match value {
        Sample::Pair(pair) => match pair.second() {
            Sample::Event(event) => Some((pair.first(), event.get())),
            _ => None,
        },
        _ => None,
    }
}

/// The places of so many answers: those of the list that stands in the place, and room for more.
/// `Memory` if allocation fails.
pub(crate) fn answer_places(
    alloc: Global,
    count: usize,
    place: &mut Sample,
) -> Result<Vec<Sample>, Memory> {
    let mut places = place.take_list(alloc);
    let more = count.saturating_sub(places.len());
    match places.try_reserve(more) {
        Ok(()) => Ok(places),
        Err(_) => {
            drop(places);
            Err(Memory)
        }
    }
}

/// Sees to it that there is a place behind so many others; a value that stands there lets its parts
/// go. `Memory` if allocation fails.
#[inline(always)]
pub(crate) fn make_place(places: &mut Vec<Sample>, before: usize) -> Result<(), Memory>
    requires { before ≤ length places.old.items }
    ensures { IfOk result (λ _. (before < length places.new.items)
        × (take before places.new.items ≡ take before places.old.items)) }
{
    if before < places.len() {
        let_parts_go(&mut places[before]);
        return Ok(());
    }
    places.push(Sample::Int(0))?;
    Ok(())
}
