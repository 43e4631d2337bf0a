// The queue of a `delay` starts and steps.

ghost use Rattle.std.specs.Prelude.{◌≡◌, ◌+◌, ◌<◌, ◌∷◌, [], reverse, IfOk, OnOk, length};
ghost use Rattle.sample_core.specs.ValueView.{datum_of};
ghost use Rattle.cell_core.specs.{Cell.cell_step, CellView.cell_of, CellView.outcome_of};
ghost use Rattle.cell_core.specs.Delays.{delay_of, queue_of, IsJoined, IsTurnedOver, IsGathered};
ghost use Rattle.cell_core.specs.{Earlier.back_of, Entries.entries_of, Queue.IsRenewed, Queue.Gathers};
ghost use Rattle.cell_core.specs.Start.{cell_start};

use crate::behind::{Arrival, Behind, Passed};
use crate::cell::{Cell, answered};
use crate::entry::{Entries, Entry};
use crate::form::Form;
use crate::front::Front;
use sample_core::{Memory, Sample};
use std::alloc::Global;
use std::boxed::Box;
use std::rc::Rc;

/// The queue in which only the sample waits, all of q, and its answer, `out`.
pub(crate) fn start(
    alloc: Global,
    q: u64,
    out: Sample,
    sample: &Sample,
) -> Result<(Cell, Sample), Memory>
    ensures { IfOk result (λ r.
        outcome_of r ≡ cell_start (Form.Delay q) (datum_of out) (datum_of sample.now)) }
{
    let mut entries = Entries::none(alloc);
    let kept = entries.push(alloc, 0, &out);
    drop(out);
    if let Err(memory) = kept {
        drop(entries);
        return Err(memory);
    }
    let mut cell = Cell::Time(0);
    let mut answer = Sample::Int(0);
    let done = renewed(
        alloc,
        Front { q, entries },
        0,
        sample,
        &mut cell,
        &mut answer,
    );
    answered(done, cell, answer)
}

/// The queue with the sample in it, in that place, and its answer in the other: the latest value
/// that is due, or what was out. It takes memory for a block of samples, and for a front of those
/// that wait behind when all in front has passed.
#[inline(never)]
pub(crate) fn step(
    alloc: Global,
    front: &Rc<Front>,
    arrival: Arrival<'_>,
    place: &mut Cell,
    out: &mut Sample,
) -> Result<(), Memory>
    ensures { OnOk result (outcome_of (place.new, out.new)
        ≡ cell_step (delay_of front.now.value arrival.entry.behind.now)
        (arrival.entry.dt, datum_of arrival.entry.sample.now)) }
{
    let ahead: &Front = front;
    let before = arrival.behind.passed;
    let from = ahead.within(before.at);
    let at = ahead.passed(from, before.age, arrival.dt);
    if at == 0 {
        return turned(alloc, ahead, arrival, place, out);
    }
    let age = before.age + arrival.dt;
    let front = front.clone()?;
    joined(alloc, front, Passed { age, at }, arrival, place, out)
}

/// The queue with the sample in it, where all in front has passed: those behind that aren't due
/// come to the front, and the sample is behind. Its answer is what is out.
#[inline(never)]
fn turned(
    alloc: Global,
    front: &Front,
    arrival: Arrival<'_>,
    place: &mut Cell,
    out: &mut Sample,
) -> Result<(), Memory>
    ensures { OnOk result (IsTurnedOver front.now arrival.entry.behind.now arrival.entry.dt
        (datum_of arrival.entry.sample.now) (outcome_of (place.new, out.new))) }
{
    let Arrival { behind, dt, sample } = arrival;
    let mut entries = Entries::with_room(alloc, front.entries.as_slice().len())?;
    match gather(front, behind, alloc, dt, &mut entries) {
        Ok(()) => {
            let front = Front {
                q: front.q,
                entries,
            };
            renewed(alloc, front, dt, sample, place, out)
        }
        Err(memory) => {
            drop(entries);
            Err(memory)
        }
    }
}

/// Adds those behind that aren't due in dt, the newest first, each with the time that is left
/// to it then, and what is out then: the newest that is due, or what was out when all in front
/// had passed.
fn gather(
    front: &Front,
    behind: &Behind,
    alloc: Global,
    dt: u64,
    entries: &mut Entries,
) -> Result<(), Memory>
    requires { entries.old ≡ [] }
    ensures { OnOk result (IsGathered front.now behind.now dt entries.new) }
{
    let mut left = front.q;
    let mut samples = behind.recent.as_slice();
    let mut earlier = &behind.earlier;
    loop {
        match gather_run(alloc, samples, dt, left, entries)? {
            Some(rest) => left = rest,
            None => return Ok(()),
        }
        match earlier.last() {
            Some(block) => {
                samples = block.samples.as_slice();
                earlier = &block.earlier;
            }
            None => {
                let out = &front.entries.as_slice()[0].value;
                return entries.push(alloc, 0, out);
            }
        }
    }
}

/// Adds those of the samples, oldest first, that aren't due in dt, the newest first, each with the
/// time that is left to it then, where `left` is left to the newest. Answers what is left to the
/// one before them; nothing where one is due, which is added as what is out.
fn gather_run(
    alloc: Global,
    samples: &[Entry],
    dt: u64,
    left: u64,
    entries: &mut Entries,
) -> Result<Option<u64>, Memory>
    ensures { IfOk result (λ rest. Gathers dt left (reverse (entries_of samples.now))
        entries.old rest entries.new) }
{
    let mut time = left;
    let mut rest = samples;
    'each: while let Some((newest, before)) = rest.split_last() {
        if time <= dt {
            entries.push(alloc, 0, &newest.value)?;
            return Ok(None);
        }
        entries.push(alloc, time - dt, &newest.value)?;
        time = time.saturating_sub(newest.time);
        rest = before;
    }
    Ok(Some(time))
}

/// The queue with this front, of which the last is out, and the sample behind. Its answer is
/// what is out.
#[inline(never)]
fn renewed(
    alloc: Global,
    front: Front,
    dt: u64,
    sample: &Sample,
    place: &mut Cell,
    out: &mut Sample,
) -> Result<(), Memory>
    ensures { OnOk result (IsRenewed front.q front.entries (datum_of sample.now)
        (outcome_of (place.new, out.new))) }
{
    let at = front.entries.as_slice().len() - 1;
    let front = Rc::new(alloc, front)?;
    let nothing = Behind::none(alloc);
    let arrival = Arrival {
        behind: &nothing,
        dt,
        sample,
    };
    let done = joined(alloc, front, Passed { age: 0, at }, arrival, place, out);
    drop(nothing);
    done
}

/// The queue with the sample behind, where those in front have passed so far. Its answer is what
/// is out.
#[inline(always)]
fn joined(
    alloc: Global,
    front: Rc<Front>,
    passed: Passed,
    arrival: Arrival<'_>,
    place: &mut Cell,
    out: &mut Sample,
) -> Result<(), Memory>
    requires { passed.at < length front.value.entries }
    ensures { OnOk result (IsJoined front.value passed.age passed.at
        ((arrival.entry.dt, datum_of arrival.entry.sample.now) ∷ back_of arrival.entry.behind.now)
        (outcome_of (place.new, out.new))) }
{
    if let Err(memory) = out.put_copy(alloc, &front.entries.as_slice()[passed.at].value) {
        drop(front);
        return Err(memory);
    }
    if let Cell::Delay(ahead, there) = place {
        drop(std::mem::replace(ahead, front));
        return there.follow(alloc, arrival, passed);
    }
    put_joined(alloc, front, passed, arrival, place)
}

/// The queue with the sample behind, as above, where the place is of another form.
#[inline(never)]
fn put_joined(
    alloc: Global,
    front: Rc<Front>,
    passed: Passed,
    arrival: Arrival<'_>,
    place: &mut Cell,
) -> Result<(), Memory>
    requires { passed.at < length front.value.entries }
    ensures { OnOk result (cell_of place.new ≡ queue_of front.value passed.age passed.at
        ((arrival.entry.dt, datum_of arrival.entry.sample.now) ∷ back_of arrival.entry.behind.now)) }
{
    let mut fresh = Behind::none(alloc);
    match fresh.follow(alloc, arrival, passed) {
        Ok(()) => put_new(alloc, front, fresh, place),
        Err(memory) => {
            drop(fresh);
            drop(front);
            Err(memory)
        }
    }
}

/// A `delay` with this front and what is behind it, where the place is of another form.
#[inline(never)]
fn put_new(alloc: Global, front: Rc<Front>, behind: Behind, place: &mut Cell) -> Result<(), Memory>
    ensures { OnOk result (cell_of place.new ≡ delay_of front.value behind) }
{
    match Box::new(alloc, behind) {
        Ok(behind) => {
            place.put(Cell::Delay(front, behind));
            Ok(())
        }
        Err(refused) => {
            drop(refused);
            drop(front);
            Err(Memory)
        }
    }
}
