// What waits behind in a `delay`.

ghost use Rattle.std.specs.Prelude.{◌≡◌, ◌∷◌, [], IfOk, OnOk, MatchOption};
ghost use Rattle.sample_core.specs.ValueView.{datum_of};
ghost use Rattle.cell_core.specs.{Entries.entries_of, Earlier.back_of, Delays.Follows};

use crate::entry::{Entries, Entry};
use sample_core::{Memory, Sample};
use std::alloc::Global;
use std::marker::Model;
use std::rc::Rc;

/// How many of the newest samples come together in a block.
const BLOCK: usize = 8;

/// What a `delay` keeps behind: its newest samples, the oldest first, each with its step since the
/// one before it, the blocks of those before them, unless they are in front, and how far those in
/// front have passed.
#[derive(Drop)]
pub struct Behind {
    pub(crate) recent: Entries,
    pub(crate) earlier: Earlier,
    pub(crate) passed: Passed,
}

/// How far those in front have passed: the time since the front was made, and where in it the
/// value stands that is out. Those before it wait.
#[derive(Clone, Copy)]
pub(crate) struct Passed {
    pub(crate) age: u64,
    pub(crate) at: usize,
}

/// A sample that comes into a queue: what is behind so far, the time since then, and the sample.
#[derive(Clone, Copy)]
pub(crate) struct Arrival<'a> {
    pub(crate) behind: &'a Behind,
    pub(crate) dt: u64,
    pub(crate) sample: &'a Sample,
}

/// A block of samples, the oldest first, each with its step since the one before it, and the
/// blocks before it. States share it.
#[cycle(block)]
#[derive(Drop)]
pub(crate) struct Block {
    pub(crate) samples: Entries,
    pub(crate) earlier: Earlier,
}

/// Blocks of samples behind. Contracts see the list of them, the newest first, each the list of
/// the pairs of a step and a value's tree.
#[cycle(block)]
pub(crate) struct Earlier {
    last: Option<Rc<Block>>,
}

impl Model for Earlier {
    ghost use Rattle.std.specs.Prelude.{List, ℕ, length};
    ghost use Rattle.std.specs.Coded.{coded_list, coded×, coded_ℕ};
    ghost use Rattle.sample_core.specs.Datum.{Datum};
    ghost use Rattle.sample_core.specs.DatumCode.{datum_code};

    ghost Value = { List (List (ℕ × Datum)) };

    ghost coded = { coded_list (coded_list (coded× coded_ℕ datum_code)) };

    ghost use Rattle.cell_core.specs.Earlier.{blocks};

    ghost view = { λ e. blocks e.last };

    ghost size = { length };

    ghost use Rattle.std.proofs.Common.{arith};

    ghost size_decreases = { λ e h. Prim.grind arith };
}

// A loop, so that many blocks don't run out of stack.
impl Drop for Earlier {
    fn drop(mut self) {
        loop {
            let Earlier { last } = self;
            match last {
                None => return,
                Some(shared) => match Rc::into_inner(shared) {
                    None => return,
                    Some(block) => {
                        let Block {
                            samples: _,
                            earlier,
                        } = block;
                        self = earlier;
                    }
                },
            }
        }
    }
}

impl Earlier {
    /// No blocks.
    pub(crate) fn new() -> Earlier
        ensures { result ≡ [] }
    {
        Earlier { last: None }
    }

    /// The newest block; nothing if there is none.
    pub(crate) fn last(&self) -> Option<&Block>
        ensures { MatchOption result (self.now ≡ [])
            (λ b. self.now ≡ b.now.samples ∷ b.now.earlier) }
    {
        match &self.last {
            None => None,
            Some(block) => Some(block),
        }
    }

    /// These blocks, shared. It takes no memory; `Memory` only if a count of references is full.
    #[inline(always)]
    fn try_copy(&self) -> Result<Earlier, Memory>
        ensures { IfOk result (λ e. e ≡ self.now) }
    {
        let last = match &self.last {
            None => None,
            Some(block) => Some(block.clone()?),
        };
        Ok(Earlier { last })
    }

    /// These blocks and a further one, of copies. `Memory` if allocation fails.
    #[inline(never)]
    fn and(&self, alloc: Global, entries: &[Entry]) -> Result<Earlier, Memory>
        ensures { IfOk result (λ e. e ≡ entries_of entries.now ∷ self.now) }
    {
        let samples = copies(alloc, entries)?;
        match self.try_copy() {
            Ok(earlier) => {
                let block = Rc::new(alloc, Block { samples, earlier })?;
                Ok(Earlier { last: Some(block) })
            }
            Err(memory) => {
                drop(samples);
                Err(memory)
            }
        }
    }
}

/// Copies of these, in a place that fits them. `Memory` if allocation fails.
fn copies(alloc: Global, from: &[Entry]) -> Result<Entries, Memory>
    ensures { IfOk result (λ es. es ≡ entries_of from.now) }
{
    let mut entries = Entries::with_room(alloc, from.len())?;
    match entries.push_all(alloc, from) {
        Ok(()) => Ok(entries),
        Err(memory) => {
            drop(entries);
            Err(memory)
        }
    }
}

impl Behind {
    /// Nothing behind. It takes no memory.
    pub(crate) fn none(alloc: Global) -> Behind
        ensures { back_of result ≡ [] }
    {
        Behind {
            recent: Entries::none(alloc),
            earlier: Earlier::new(),
            passed: Passed { age: 0, at: 0 },
        }
    }

    /// Becomes what was behind and the sample, where those in front have passed so far. `Memory`
    /// if allocation fails.
    #[inline(always)]
    pub(crate) fn follow(
        &mut self,
        alloc: Global,
        arrival: Arrival<'_>,
        passed: Passed,
    ) -> Result<(), Memory>
        ensures { OnOk result (Follows arrival.entry.behind.now passed
            (arrival.entry.dt, datum_of arrival.entry.sample.now) self.new) }
    {
        self.passed = passed;
        let before = arrival.behind;
        let recent = before.recent.as_slice();
        if recent.len() < BLOCK {
            let earlier = before.earlier.try_copy()?;
            drop(std::mem::replace(&mut self.earlier, earlier));
            self.recent.renew(alloc, recent)?;
        } else {
            self.begin_block(alloc, &before.earlier, recent)?;
        }
        self.recent.push(alloc, arrival.dt, arrival.sample)
    }

    /// No newest samples yet: these come into a block, of copies, behind the earlier ones. `Memory`
    /// if allocation fails.
    #[inline(never)]
    fn begin_block(
        &mut self,
        alloc: Global,
        earlier: &Earlier,
        samples: &[Entry],
    ) -> Result<(), Memory>
        ensures recent { OnOk result (self.new.recent ≡ []) }
        ensures earlier { OnOk result (self.new.earlier ≡ entries_of samples.now ∷ earlier.now) }
        ensures passed { self.new.passed ≡ self.old.passed }
    {
        let earlier = earlier.and(alloc, samples)?;
        drop(std::mem::replace(&mut self.earlier, earlier));
        self.recent.clear();
        Ok(())
    }
}
