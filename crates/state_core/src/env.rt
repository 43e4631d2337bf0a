// What is in scope, and frozen networks.

ghost use Rattle.std.specs.Prelude.{◌≡◌, ◌++◌, IfOk, OnOk, [], Some, None};
ghost use Rattle.sample_core.specs.ValueView.{datum_of};
ghost use Rattle.state_core.specs.State.{no_frozen, push_param as with_param, push_old as with_old, push_olds as with_olds, scope, unstarted as unstarted_network, paused as paused_state};
ghost use Rattle.state_core.specs.StateView.{state_of, scope_of, frozen_of, frozens_in, olds_of, frozen_from, IsFrozenAt};
ghost use Rattle.state_core.specs.RowsView.{rows_in};

use crate::params::Params;
use crate::state::State;
use leaf_table::LeafId;
use net_tree::Net;
use sample_core::{Memory, Sample};
use std::alloc::Global;
use std::marker::Model;
use std::rc::Rc;

/// The parameters and the frozen networks in scope.
#[cycle(state)]
#[derive(Drop)]
pub struct Env<'n> {
    /// The parameters.
    pub params: Params,
    /// The frozen networks.
    pub olds: Olds<'n>,
}

/// Frozen networks in scope, from the outermost on.
#[cycle(state)]
#[derive(Drop)]
pub enum Olds<'n> {
    /// There are none.
    Nothing,
    /// These.
    All(OldList<'n>),
}

/// A list of frozen networks, shared. Contracts see them as clean ones.
#[cycle(state)]
#[derive(Drop)]
pub struct OldList<'n> {
    all: Rc<Vec<Frozen<'n>>>,
}

/// A frozen network: one that never started, with its scope, or a state with the step of the
/// sample that it did not see.
#[cycle(state)]
#[derive(Drop)]
pub enum Frozen<'n> {
    /// Frozen before its first sample.
    Unstarted {
        /// The network.
        net: &'n Net<LeafId>,
        /// Its scope.
        env: Env<'n>,
    },
    /// Frozen after its first sample.
    Paused {
        /// Its state.
        state: State<'n>,
        /// The step of the sample that it did not see.
        step: u64,
    },
}

impl<'n> Model for OldList<'n> {
    ghost use Rattle.std.specs.Prelude.{ℕ};
    ghost use Rattle.std.specs.Coded.{coded×, coded_ℕ};
    ghost use Rattle.state_core.specs.State.{Frozens};
    ghost use Rattle.state_core.specs.StateCode.{frozens_code};

    ghost Value = { Frozens ℕ × ℕ };

    ghost coded = { coded× (frozens_code coded_ℕ) coded_ℕ };

    ghost use Rattle.state_core.specs.{StateView.frozens_in, Depth.depth_frozens};

    ghost view = { λ a. (frozens_in a.all.value.items, depth_frozens a.all.value.items) };

    ghost size = { λ v. v.1 };

    ghost use Rattle.state_core.specs.Deep.{frozens_le};

    ghost size_decreases = { λ a h. frozens_le a.all.value.items };
}

impl<'n> OldList<'n> {
    /// Frozen networks in order. `Memory` if allocation fails.
    fn new(alloc: Global, all: Vec<Frozen<'n>>) -> Result<OldList<'n>, Memory>
        ensures { IfOk result (λ fs. fs.0 ≡ frozens_in all.entry.items) }
    {
        let all = Rc::new(alloc, all)?;
        Ok(OldList { all })
    }

    /// The frozen networks in order.
    fn as_slice(&self) -> &[Frozen<'n>]
        ensures { frozens_in result.now ≡ self.now.0 }
    {
        self.all.as_slice()
    }

    /// These frozen networks, shared. It takes no memory; `Memory` only if a count of references is
    /// full.
    fn try_copy(&self) -> Result<OldList<'n>, Memory>
        ensures { IfOk result (λ fs. fs ≡ self.now) }
    {
        let all = self.all.clone()?;
        Ok(OldList { all })
    }
}

impl<'n> Olds<'n> {
    /// The frozen networks in order.
    fn as_slice(&self) -> &[Frozen<'n>]
        ensures { frozens_in result.now ≡ olds_of self.now }
    {
        match self {
            Olds::Nothing => &[],
            Olds::All(all) => all.as_slice(),
        }
    }

    /// These frozen networks, shared. It takes no memory; `Memory` only if a count of references is
    /// full.
    fn try_copy(&self) -> Result<Olds<'n>, Memory>
        ensures { IfOk result (λ fs. fs ≡ self.now) }
    {
        match self {
            Olds::Nothing => Ok(Olds::Nothing),
            Olds::All(all) => Ok(Olds::All(all.try_copy()?)),
        }
    }

    /// Frozen network k; `None` if there is none.
    pub fn get(&self, k: u32) -> Option<&Frozen<'n>>
        ensures { IsFrozenAt (olds_of self.now) k result }
    {
        self.as_slice().get(k as usize)
    }
}

impl<'n> Frozen<'n> {
    /// A copy, whose parts are shared with it. `Memory` if allocation fails.
    pub(crate) fn try_copy(&self, alloc: Global) -> Result<Frozen<'n>, Memory>
        ensures { IfOk result (λ f. frozen_of f ≡ frozen_of self.now) }
    {
        match self {
            Frozen::Unstarted { net, env } => unstarted(*net, env),
            Frozen::Paused { state, step } => pause(alloc, state, *step),
        }
    }
}

impl<'n> Env<'n> {
    /// Nothing in scope. It takes no memory.
    pub fn nothing() -> Env<'n>
        ensures { scope_of result ≡ scope [] no_frozen }
    {
        Env {
            params: Params::none(),
            olds: Olds::Nothing,
        }
    }

    /// This scope, shared. It takes no memory; `Memory` only if a count of references is full.
    pub fn try_copy(&self) -> Result<Env<'n>, Memory>
        ensures { IfOk result (λ e. e ≡ self.now) }
    {
        let params = self.params.try_copy()?;
        let olds = self.olds.try_copy()?;
        Ok(Env { params, olds })
    }

    /// This scope, shared, in place of the other. It takes no memory; `Memory` only if a count of
    /// references is full.
    #[inline(always)]
    pub(crate) fn renew(&mut self, from: &Env<'n>) -> Result<(), Memory>
        ensures { OnOk result (scope_of self.new ≡ scope_of from.now) }
    {
        self.params.renew(&from.params)?;
        match (&self.olds, &from.olds) {
            (Olds::Nothing, Olds::Nothing) => Ok(()),
            _ => {
                let olds = from.olds.try_copy()?;
                drop(std::mem::replace(&mut self.olds, olds));
                Ok(())
            }
        }
    }

    /// These parameters, shared, and these frozen networks. `Memory` if allocation fails.
    fn of(alloc: Global, params: &Params, olds: Vec<Frozen<'n>>) -> Result<Env<'n>, Memory>
        ensures { IfOk result (λ e. scope_of e ≡ scope params.now (frozens_in olds.entry.items)) }
    {
        let params = params.try_copy()?;
        let all = OldList::new(alloc, olds)?;
        Ok(Env {
            params,
            olds: Olds::All(all),
        })
    }
}

/// The scope with one parameter more. `Memory` if allocation fails.
pub fn push_param<'n>(alloc: Global, env: &Env<'n>, value: &Sample) -> Result<Env<'n>, Memory>
    ensures { IfOk result (λ e. scope_of e ≡ with_param (scope_of env.now) (datum_of value.now)) }
{
    let params = env.params.and(alloc, value)?;
    let olds = env.olds.try_copy()?;
    Ok(Env { params, olds })
}

/// The scope with one frozen network more. `Memory` if allocation fails.
#[tactic(auto, using(crate::proofs::FrozenLists::frozens_append))]
pub fn push_old<'n>(alloc: Global, env: &Env<'n>, frozen: &Frozen<'n>) -> Result<Env<'n>, Memory>
    ensures { IfOk result (λ e. scope_of e ≡ with_old (scope_of env.now) (frozen_of frozen.now)) }
{
    let mut all = copied(alloc, env.olds.as_slice(), 1)?;
    let frozen = frozen.try_copy(alloc)?;
    all.push(frozen)?;
    Env::of(alloc, &env.params, all)
}

/// The scope with these frozen networks more. `Memory` if allocation fails.
#[tactic(auto, using(crate::proofs::FrozenLists::frozens_append))]
pub fn push_olds<'n>(alloc: Global, env: &Env<'n>, frozen: &[Frozen<'n>]) -> Result<Env<'n>, Memory>
    ensures { IfOk result (λ e. scope_of e ≡ with_olds (scope_of env.now) (frozens_in frozen.now)) }
{
    let all = joined(alloc, env.olds.as_slice(), frozen)?;
    Env::of(alloc, &env.params, all)
}

/// Copies of some frozen networks and of others behind them. `Memory` if allocation fails.
fn joined<'n>(
    alloc: Global,
    old: &[Frozen<'n>],
    more: &[Frozen<'n>],
) -> Result<Vec<Frozen<'n>>, Memory>
    ensures { IfOk result (λ all. frozens_in all.items ≡ frozens_in (old.now ++ more.now)) }
{
    let mut all = copied(alloc, old, more.len())?;
    for frozen in more {
        let frozen = frozen.try_copy(alloc)?;
        all.push(frozen)?;
    }
    Ok(all)
}

/// Copies of some frozen networks, with room for so many more. `Memory` if allocation fails.
fn copied<'n>(alloc: Global, all: &[Frozen<'n>], more: usize) -> Result<Vec<Frozen<'n>>, Memory>
    ensures { IfOk result (λ copies. frozens_in copies.items ≡ frozens_in all.now) }
{
    let mut copies = Vec::with_capacity(alloc, all.len().saturating_add(more))?;
    for frozen in all {
        let frozen = frozen.try_copy(alloc)?;
        copies.push(frozen)?;
    }
    Ok(copies)
}

/// The network frozen: as it never started where there is no state, else the state, with the step
/// of the sample that it does not see. `Memory` if allocation fails.
pub fn freeze<'n>(
    alloc: Global,
    net: &'n Net<LeafId>,
    env: &Env<'n>,
    state: Option<&State<'n>>,
    step: u64,
) -> Result<Frozen<'n>, Memory>
    ensures { IfOk result (λ f. frozen_of f
        ≡ frozen_from (rows_in net.entry.now) (scope_of env.now) state.entry step) }
{
    match state {
        Some(state) => pause(alloc, state, step),
        None => unstarted(net, env),
    }
}

/// The network that has not started, in its scope.
fn unstarted<'n>(net: &'n Net<LeafId>, env: &Env<'n>) -> Result<Frozen<'n>, Memory>
    ensures { IfOk result (λ f. frozen_of f
        ≡ unstarted_network (rows_in net.entry.now) (scope_of env.now)) }
{
    let env = env.try_copy()?;
    Ok(Frozen::Unstarted { net, env })
}

/// The state frozen, with the step of the sample that it does not see. It takes no memory; `Memory`
/// only if a count of references is full.
pub fn pause<'n>(alloc: Global, state: &State<'n>, step: u64) -> Result<Frozen<'n>, Memory>
    ensures { IfOk result (λ f. frozen_of f ≡ paused_state (state_of state.now) step) }
{
    let state = state.try_copy()?;
    Ok(Frozen::Paused { state, step })
}
