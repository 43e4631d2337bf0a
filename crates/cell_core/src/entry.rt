// Values with times, as they wait in a `delay`.

ghost use Rattle.std.specs.Prelude.{◌≡◌, ◌≤◌, ◌++◌, ◌∷◌, [], IfOk, OnOk, length, take};
ghost use Rattle.sample_core.specs.ValueView.{datum_of};
ghost use Rattle.cell_core.specs.Entries.{entry_of, entries_of};

use crate::step;
use sample_core::{Memory, Sample};
use std::alloc::Global;
use std::marker::Model;

/// A value with a time: in front, how long after the front was made it is due; behind, its step
/// since the one before it.
#[derive(Drop)]
pub(crate) struct Entry {
    pub(crate) time: u64,
    pub(crate) value: Sample,
}

impl Entry {
    /// An entry with that time and a copy of the value. `Memory` if allocation fails.
    #[inline(always)]
    fn copied(alloc: Global, time: u64, value: &Sample) -> Result<Entry, Memory>
        ensures { IfOk result (λ e. entry_of e ≡ (time, datum_of value.now)) }
    {
        let value = value.try_copy(alloc)?;
        Ok(Entry { time, value })
    }

    /// Becomes the entry with that time and a copy of the value. `Memory` if allocation fails.
    #[inline(always)]
    fn renew(&mut self, alloc: Global, time: u64, value: &Sample) -> Result<(), Memory>
        ensures { OnOk result (entry_of self.new ≡ (time, datum_of value.now)) }
    {
        self.time = time;
        self.value.put_copy(alloc, value)
    }
}

/// Entries in order. Behind them stand entries that are out of use, whose places are taken first.
/// Contracts see those in use, each as the pair of its time and its value's tree.
#[derive(Drop)]
pub(crate) struct Entries {
    all: Vec<Entry>,
    used: usize,
}

impl Model for Entries {
    ghost use Rattle.std.specs.Prelude.{◌≤◌, List, ℕ, length, take};
    ghost use Rattle.std.specs.Coded.{coded_list, coded×, coded_ℕ};
    ghost use Rattle.sample_core.specs.Datum.{Datum};
    ghost use Rattle.sample_core.specs.DatumCode.{datum_code};

    ghost Value = { List (ℕ × Datum) };

    ghost coded = { coded_list (coded× coded_ℕ datum_code) };

    ghost use Rattle.cell_core.specs.Entries.{entries_of};

    ghost view = { λ a. entries_of (take a.used a.all.items) };

    ghost invariant = { λ a. a.used ≤ length a.all.items };
}

impl Entries {
    /// No entries, with room for so many. `Memory` if allocation fails.
    pub(crate) fn with_room(alloc: Global, room: usize) -> Result<Entries, Memory>
        ensures { IfOk result (λ es. es ≡ []) }
    {
        let all = Vec::with_capacity(alloc, room)?;
        Ok(Entries { all, used: 0 })
    }

    /// No entries. It takes no memory.
    pub(crate) fn none(alloc: Global) -> Entries
        ensures { result ≡ [] }
    {
        Entries {
            all: Vec::new(alloc),
            used: 0,
        }
    }

    /// The entries in order.
    #[inline(always)]
    pub(crate) fn as_slice(&self) -> &[Entry]
        ensures { entries_of result.now ≡ self.now }
    {
        &self.all[..self.used]
    }

    /// No entries any more; their places stay.
    #[inline(always)]
    pub(crate) fn clear(&mut self)
        ensures { self.new ≡ [] }
    {
        self.used = 0;
    }

    /// One entry more, with that time and a copy of the value. `Memory` if allocation fails.
    #[inline(always)]
    pub(crate) fn push(&mut self, alloc: Global, time: u64, value: &Sample) -> Result<(), Memory>
        ensures { OnOk result (self.new ≡ self.old ++ (time, datum_of value.now) ∷ []) }
    {
        if self.used < self.all.len() {
            self.all[self.used].renew(alloc, time, value)?;
        } else {
            self.all.push(Entry::copied(alloc, time, value)?)?;
        }
        self.used += 1;
        Ok(())
    }

    /// Copies of these entries behind those that are there. `Memory` if allocation fails.
    #[inline(always)]
    pub(crate) fn push_all(&mut self, alloc: Global, from: &[Entry]) -> Result<(), Memory>
        ensures { OnOk result (self.new ≡ self.old ++ entries_of from.now) }
    {
        for entry in from {
            self.push(alloc, entry.time, &entry.value)?;
        }
        Ok(())
    }

    /// Copies of these entries in place of those before. `Memory` if allocation fails.
    #[inline(always)]
    pub(crate) fn renew(&mut self, alloc: Global, from: &[Entry]) -> Result<(), Memory>
        ensures { OnOk result (self.new ≡ entries_of from.now) }
    {
        self.used = 0;
        let there = usize::min(from.len(), self.all.len());
        put_copies(alloc, &mut self.all, &from[..there])?;
        self.used = there;
        self.push_all(alloc, &from[there..])
    }
}

/// Copies of these entries in the first places, whose entries go. `Memory` if allocation fails.
#[inline(always)]
fn put_copies(alloc: Global, places: &mut [Entry], from: &[Entry]) -> Result<(), Memory>
    requires { length from.now ≤ length places.old }
    ensures copied { OnOk result
        (take (length from.now) (entries_of places.new) ≡ entries_of from.now) }
    ensures room { length places.new ≡ length places.old }
{
    for i in 0..from.len() {
        places[i].renew(alloc, from[i].time, &from[i].value)?;
    }
    Ok(())
}
