// What runs, with what it keeps.

ghost use Rattle.std.specs.Prelude.{◌≡◌, ◌∷◌, ◌++◌, [], IfOk, Some, None, MatchOption, length, map, slice_get};
ghost use Rattle.state_core.specs.Depth.{depth_running};
ghost use Rattle.state_core.specs.{StateView.kept_of, StateView.state_of, StateView.running_of, StateView.scope_of, Tree.nothing};

use crate::cells::Cells;
use crate::env::Env;
use leaf_table::LeafId;
use net_tree::Net;
use sample_core::Memory;
use std::alloc::Global;
use std::marker::Model;
use std::rc::Rc;

/// The state of a network that runs. Copies of it share all. A state that is out of use is a place:
/// what runs next comes into its memory, as far as no one else holds that.
#[cycle(state)]
#[derive(Drop)]
pub enum State<'n> {
    /// Nothing, which keeps nothing and takes no memory: a `parB` without members.
    Nothing,
    /// A network that runs.
    Whole(Whole<'n>),
}

/// A network that runs, shared. Contracts see it as the clean state.
#[cycle(state)]
#[derive(Drop)]
pub struct Whole<'n> {
    /// What runs.
    pub running: Rc<Running<'n>>,
}

/// A network that runs at a place of its own, its scope, and what it keeps.
#[cycle(state)]
#[derive(Drop)]
pub struct Running<'n> {
    /// The network.
    pub net: &'n Net<LeafId>,
    /// Its scope.
    pub env: Env<'n>,
    /// What it keeps.
    pub kept: Kept<'n>,
}

/// What a network keeps, in the order of its nodes: a cell for each cell, `accumBy` and `loopPre`, a
/// place for each switch and each resumed network. A switch that waits for its event keeps a place
/// for each of its parts.
#[cycle(state)]
#[derive(Drop)]
pub struct Kept<'n> {
    /// The cells.
    pub cells: Cells,
    /// The places, with what runs there.
    pub places: Places<'n>,
}

/// Places, with what runs there. Behind those in use stand others, whose memory is taken first.
/// Contracts see the states at the places in use.
#[cycle(state)]
#[derive(Drop)]
pub struct Places<'n> {
    all: Vec<State<'n>>,
    used: usize,
}

impl<'n> Model for Whole<'n> {
    ghost use Rattle.std.specs.Prelude.{ℕ};
    ghost use Rattle.std.specs.Coded.{coded×, coded_ℕ};
    ghost use Rattle.state_core.specs.State.{State as CleanState};
    ghost use Rattle.state_core.specs.StateCode.{state_code};

    ghost Value = { CleanState ℕ × ℕ };

    ghost coded = { coded× (state_code coded_ℕ) coded_ℕ };

    ghost use Rattle.state_core.specs.{StateView.running_of, Depth.depth_running};

    ghost view = { λ a. (running_of a.running.value, depth_running a.running.value) };

    ghost size = { λ v. v.1 };

    ghost use Rattle.state_core.specs.Deep.{running_le};

    ghost size_decreases = { λ a h. running_le a.running.value };
}

impl<'n> Model for Places<'n> {
    ghost use Rattle.std.specs.Prelude.{ℕ, List, map, take};
    ghost use Rattle.std.specs.Coded.{coded×, coded_list, coded_ℕ};
    ghost use Rattle.state_core.specs.State.{State as CleanState};
    ghost use Rattle.state_core.specs.StateCode.{state_code};

    ghost Value = { List (CleanState ℕ) × ℕ };

    ghost coded = { coded× (coded_list (state_code coded_ℕ)) coded_ℕ };

    ghost use Rattle.state_core.specs.{StateView.state_of, Depth.depth_states};

    ghost view = { λ a. (map state_of (take a.used a.all.items), depth_states a.all.items) };

    ghost size = { λ v. v.1 };

    ghost use Rattle.state_core.specs.Deep.{states_le};

    ghost size_decreases = { λ a h. states_le a.all.items };
}

impl<'n> Places<'n> {
    /// No places. It takes no memory.
    fn none(alloc: Global) -> Places<'n>
        ensures { result.0 ≡ [] }
    {
        Places {
            all: Vec::new(alloc),
            used: 0,
        }
    }

    /// How many there are.
    #[inline(always)]
    pub fn len(&self) -> usize
        ensures { result ≡ length self.now.0 }
    {
        self.used.min(self.all.len())
    }

    /// What runs at place i; nothing if there is none.
    #[inline(always)]
    pub fn get(&self, i: usize) -> Option<&State<'n>>
        ensures { MatchOption result (slice_get self.now.0 i ≡ None)
            (λ a. slice_get self.now.0 i ≡ Some (state_of a.now)) }
    {
        if i < self.used { self.all.get(i) } else { None }
    }

    /// What runs at the places, in order.
    #[inline(always)]
    pub fn as_slice(&self) -> &[State<'n>]
        ensures { map state_of result.now ≡ self.now.0 }
    {
        &self.all[..self.len()]
    }

    /// No places any more; their memory stays.
    #[inline(always)]
    fn clear(&mut self)
        ensures { self.new.0 ≡ [] }
    {
        self.used = 0;
    }

    /// A state that is out of use, in whose memory what runs at the next place comes; none that is in
    /// use is touched.
    #[inline(always)]
    pub fn spare(&mut self) -> State<'n>
        ensures { self.new.0 ≡ self.old.0 }
    {
        match self.all.get_mut(self.used) {
            Some(place) => std::mem::replace(place, State::Nothing),
            None => State::Nothing,
        }
    }

    /// One place more. `Memory` if allocation fails: the places are as they were then.
    #[inline(always)]
    pub fn push(&mut self, state: State<'n>) -> Result<(), Memory>
        ensures { IfOk result (λ _. self.new.0 ≡ self.old.0 ++ state_of state.entry ∷ []) }
    {
        match self.all.get_mut(self.used) {
            Some(place) => drop(std::mem::replace(place, state)),
            None => self.all.push(state)?,
        }
        self.used = self.used.saturating_add(1);
        Ok(())
    }

    /// Nothing stands behind the places in use any more.
    #[inline(always)]
    fn end(&mut self)
        ensures { self.new.0 ≡ self.old.0 }
    {
        if self.used < self.all.len() {
            self.all.truncate(self.used);
        }
    }
}

impl<'n> Kept<'n> {
    /// Nothing kept. It takes no memory.
    fn none(alloc: Global) -> Kept<'n>
        ensures { kept_of result ≡ nothing }
    {
        Kept {
            cells: Cells::none(alloc),
            places: Places::none(alloc),
        }
    }

    /// Nothing kept any more; the memory stays.
    #[inline(always)]
    fn clear(&mut self)
        ensures { kept_of self.new ≡ nothing }
    {
        self.cells.clear();
        self.places.clear();
    }

    /// Drops what stands behind what is kept.
    #[inline(always)]
    pub fn end(&mut self)
        ensures { kept_of self.new ≡ kept_of self.old }
    {
        self.places.end();
    }
}

impl<'n> Running<'n> {
    /// The network in its scope, which keeps nothing yet. It takes no memory; `Memory` only if a
    /// count of references is full.
    pub fn new(alloc: Global, net: &'n Net<LeafId>, env: &Env<'n>) -> Result<Running<'n>, Memory>
        ensures { IfOk result (λ r. (r.net.now ≡ net.entry.now) × (scope_of r.env ≡ scope_of env.now)
            × (kept_of r.kept ≡ nothing)) }
    {
        let env = env.try_copy()?;
        let kept = Kept::none(alloc);
        Ok(Running { net, env, kept })
    }

    /// The network in its scope, which keeps nothing yet, in the memory of what ran before.
    /// `Memory` only if a count of references is full.
    #[inline(always)]
    pub fn renew(&mut self, net: &'n Net<LeafId>, env: &Env<'n>) -> Result<(), Memory>
        ensures { IfOk result (λ _. (self.new.net.now ≡ net.entry.now)
            × (scope_of self.new.env ≡ scope_of env.now) × (kept_of self.new.kept ≡ nothing)) }
    {
        self.net = net;
        self.kept.clear();
        self.env.renew(env)
    }
}

impl<'n> Whole<'n> {
    /// What runs.
    #[inline(always)]
    pub fn get(&self) -> &Running<'n>
        ensures { running_of result.now ≡ self.now.0 }
    {
        &self.running
    }

    /// This state, shared. It takes no memory; `Memory` only if a count of references is full.
    fn try_copy(&self) -> Result<Whole<'n>, Memory>
        ensures { IfOk result (λ w. w ≡ self.now) }
    {
        let running = self.running.clone()?;
        Ok(Whole { running })
    }
}

impl<'n> State<'n> {
    /// What runs, as a state. `Memory` if allocation fails.
    pub fn new(alloc: Global, running: Running<'n>) -> Result<State<'n>, Memory>
        ensures { IfOk result (λ a. state_of a ≡ running_of running.entry) }
    {
        let running = Rc::new(alloc, running)?;
        Ok(State::Whole(Whole { running }))
    }

    /// A copy, which shares all with it. It takes no memory; `Memory` only if a count of references
    /// is full.
    pub(crate) fn try_copy(&self) -> Result<State<'n>, Memory>
        ensures { IfOk result (λ a. state_of a ≡ state_of self.now) }
    {
        match self {
            State::Nothing => Ok(State::Nothing),
            State::Whole(whole) => Ok(State::Whole(whole.try_copy()?)),
        }
    }
}
