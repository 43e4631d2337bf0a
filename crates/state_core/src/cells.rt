// The cells of a network.

ghost use Rattle.std.specs.Prelude.{◌≡◌, ◌≤◌, ◌<◌, ◌++◌, ◌∷◌, [], IfOk, MatchOption, None, Some, length, slice_get, slice_set, take};
ghost use Rattle.cell_core.specs.{Cell.previous, CellView.cell_of};
ghost use Rattle.sample_core.specs.ValueView.{datum_of};
ghost use Rattle.state_core.specs.CellsView.{IsStepAdded};

use cell_core::Cell;
use sample_core::{Memory, Sample};
use std::alloc::Global;
use std::marker::Model;

/// The cells of a network, in the order of its nodes. Behind them stand cells that
/// are out of use, whose places are taken first. Contracts see the list of the cells in use.
#[derive(Drop)]
pub struct Cells {
    all: Vec<Cell>,
    used: usize,
}

impl Model for Cells {
    ghost use Rattle.std.specs.Prelude.{◌≤◌, List, length, map, take};
    ghost use Rattle.std.specs.Coded.{coded_list};
    ghost use Rattle.cell_core.specs.Cell.{Cell as CleanCell};
    ghost use Rattle.cell_core.specs.CellView.{cell_of};
    ghost use Rattle.state_core.specs.CellCode.{cell_code};

    ghost Value = { List CleanCell };

    ghost coded = { coded_list cell_code };

    ghost view = { λ a. map cell_of (take a.used a.all.items) };

    ghost invariant = { λ a. a.used ≤ length a.all.items };
}

impl Cells {
    /// No cells. It takes no memory.
    pub(crate) fn none(alloc: Global) -> Cells
        ensures { result ≡ [] }
    {
        Cells {
            all: Vec::new(alloc),
            used: 0,
        }
    }

    /// How many there are.
    #[inline(always)]
    pub fn len(&self) -> usize
        ensures { result ≡ length self.now }
    {
        self.used
    }

    /// Cell i; nothing if there is none.
    #[inline(always)]
    pub fn get(&self, i: usize) -> Option<&Cell>
        ensures { MatchOption result (slice_get self.now i ≡ None)
            (λ k. slice_get self.now i ≡ Some (cell_of k.now)) }
    {
        if i < self.used { self.all.get(i) } else { None }
    }

    /// No cells any more; their places stay.
    #[inline(always)]
    pub(crate) fn clear(&mut self)
        ensures { self.new ≡ [] }
    {
        self.used = 0;
    }

    /// One cell more. `Memory` if allocation fails: the cells are as they were then.
    #[inline(always)]
    pub fn push(&mut self, cell: Cell) -> Result<(), Memory>
        ensures { IfOk result (λ _. self.new ≡ self.old ++ cell_of cell ∷ []) }
    {
        if self.used < self.all.len() {
            drop(std::mem::replace(&mut self.all[self.used], cell));
        } else {
            self.all.push(cell)?;
        }
        self.used += 1;
        Ok(())
    }

    /// Puts the answer of a cell to one sample more, `dt` after the one before, in place of another
    /// value; the cell after it is one cell more. `Memory` if allocation fails: those before stand
    /// there then, perhaps with some cell more, and some value in the other's place.
    #[inline(always)]
    pub fn push_step(
        &mut self,
        alloc: Global,
        before: &Cell,
        dt: u64,
        sample: &Sample,
        out: &mut Sample,
    ) -> Result<(), Memory>
        ensures { IfOk result (λ _. IsStepAdded self.old (cell_of before.now)
            (dt, datum_of sample.now) self.new (datum_of out.new)) }
    {
        if self.used == self.all.len() {
            return self.push_step_anew(alloc, before, dt, sample, out);
        }
        let at = self.used;
        self.used += 1;
        before.step_into(alloc, dt, sample, &mut self.all[at], out)
    }

    /// Puts the answer of a cell there, where there is no place for the cell after it yet.
    #[inline(never)]
    fn push_step_anew(
        &mut self,
        alloc: Global,
        before: &Cell,
        dt: u64,
        sample: &Sample,
        out: &mut Sample,
    ) -> Result<(), Memory>
        ensures { IfOk result (λ _. IsStepAdded self.old (cell_of before.now)
            (dt, datum_of sample.now) self.new (datum_of out.new)) }
    {
        let mut cell = Cell::Time(0);
        match before.step_into(alloc, dt, sample, &mut cell, out) {
            Ok(()) => self.push(cell),
            Err(memory) => {
                drop(cell);
                Err(memory)
            }
        }
    }

    /// One cell more: an `iPre` that keeps a copy of the value. `Memory` if allocation fails: those
    /// before stand there then, perhaps with some cell more.
    #[inline(always)]
    pub fn push_previous(&mut self, alloc: Global, value: &Sample) -> Result<(), Memory>
        ensures { IfOk result
            (λ _. self.new ≡ self.old ++ previous (datum_of value.now) ∷ []) }
    {
        if self.used == self.all.len() {
            add_place(&mut self.all)?;
        }
        let at = self.used;
        self.used += 1;
        self.all[at].put_previous(alloc, value)
    }

    /// An `iPre` that keeps a copy of the value, in place of cell i. `Memory` only if a count of
    /// references is full: some cell stands in that place then, and the others stay.
    #[inline(always)]
    pub fn put_previous(&mut self, alloc: Global, i: usize, value: &Sample) -> Result<(), Memory>
        requires { i < length self.old }
        ensures { IfOk result
            (λ _. self.new ≡ slice_set self.old i (previous (datum_of value.now))) }
    {
        self.all[i].put_previous(alloc, value)?;
        Ok(())
    }
}

/// One place of a cell more. `Memory` if allocation fails.
#[inline(never)]
fn add_place(places: &mut Vec<Cell>) -> Result<(), Memory>
    ensures room { IfOk result (λ _. length places.old.items < length places.new.items) }
    ensures stay { take (length places.old.items) places.new.items ≡ places.old.items }
{
    places.push(Cell::Time(0))?;
    Ok(())
}
