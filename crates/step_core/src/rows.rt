// Rows of stored closures, and memory for what they are handed.

ghost use Rattle.std.specs.Prelude.{◌≡◌, IfOk, List, map};
ghost use Rattle.sample_core.specs.{Datum.pair, ValueView.datum_of};
ghost use Rattle.leaf_core.specs.KeyTree.{KeyTree};
ghost use Rattle.leaf_table.specs.Rows.{rows_of};
ghost use Rattle.step_core.specs.Called.{Called};

use crate::part::{let_go, put_pair};
use leaf_table::{LeafId, LeafTable};
use sample_core::{Memory, Sample};
use std::alloc::Global;
use std::cell::Cell;

/// Rows that can be called by their numbers, and memory for the pairs that they are handed. A trait,
/// though `Workspace` alone has it: so the walk's proof doesn't see the table of closures.
pub(crate) trait Rows {
    ghost keys: { Self → List KeyTree };

    /// What the row answers to the parameters' values and the input. `Memory` if allocation fails.
    fn call(&self, id: LeafId, params: &[Sample], x: &Sample) -> Result<Sample, Memory>
        ensures { IfOk result (λ v.
            Called (keys self.now) id.0 (map datum_of params.now) (datum_of x.now) (datum_of v)) };

    /// A pair of copies of two values, in the memory of the pair that was given back last. `Memory`
    /// if allocation fails.
    fn pair(&self, alloc: Global, v: &Sample, w: &Sample) -> Result<Sample, Memory>
        ensures { IfOk result (λ p. datum_of p ≡ pair (datum_of v.now) (datum_of w.now)) };

    /// Gives a pair back that is out of use.
    fn give_back(&self, pair: Sample);
}

/// A table of stored closures, and a pair that is out of use, whose memory the next one takes
/// where no one else holds it.
#[derive(Drop)]
pub(crate) struct Workspace<'a> {
    pub(crate) table: &'a LeafTable,
    pub(crate) spare: Cell<Sample>,
}

impl<'a> Rows for Workspace<'a> {
    ghost keys = { λ w. rows_of w.table.now };

    fn call(&self, id: LeafId, params: &[Sample], x: &Sample) -> Result<Sample, Memory> {
        if id.0 < self.table.len() {
            self.table.call(id, params, x)
        } else {
            Err(Memory)
        }
    }

    #[inline(always)]
    fn pair(&self, alloc: Global, v: &Sample, w: &Sample) -> Result<Sample, Memory> {
        let mut place = self.spare.replace(Sample::Unit);
        match put_pair(alloc, v, w, &mut place) {
            Ok(()) => Ok(place),
            Err(memory) => {
                drop(place);
                Err(memory)
            }
        }
    }

    #[inline(always)]
    fn give_back(&self, pair: Sample) {
        let_go(self.spare.replace(pair));
    }
}
