// Networks, over leaves of any type.

ghost use Rattle.std.specs.Prelude.{◌≡◌, IfOk};
ghost use Rattle.net_tree.specs.NetworkView.{network_of, members_of};

use sample_core::Memory;
use std::alloc::Global;
use std::marker::Model;
use std::rc::Rc;

/// A network, over leaves L: expressions, or what stands for them. Copies of it share its parts.
#[cycle(net)]
#[derive(Drop)]
pub enum Net<L> {
    /// `(arr e)`: each sample changed by the leaf.
    Arr(L),
    /// `(>>> f g)`: what f outputs is what g gets.
    Seq(NetChild<L>, NetChild<L>),
    /// `(first f)`: f on the left components.
    First(NetChild<L>),
    /// `(parB f1 .. fn)`: the list of what the members output, each of which gets the input.
    Par(Members<L>),
    /// `(loopPre c f)`: f also gets its own second output of the sample before, at first c.
    LoopPre(L, NetChild<L>),
    /// `(iPre c)`: c first, then each sample one later.
    IPre(L),
    /// `(delay q c)`: what came in q or more time before, c where nothing had.
    Delay(u64, L),
    /// `(hold c)`: the latest event's value, c before the first.
    Hold(L),
    /// `(accumBy g z)`: at each event, what g makes of the accumulator, at first z, and the value.
    AccumBy(L, L),
    /// `(after q c)`: one event with c, at the first sample when q has passed.
    After(u64, L),
    /// `(repeatedly q c)`: an event with c whenever a multiple of q has passed.
    Repeatedly(u64, L),
    /// `time`: the time since the start.
    Time,
    /// `integral`: the sum of the inputs, each times the step behind it.
    Integral,
    /// `(switch f t)`: f up to its first event, and from that sample on t.
    Switch(NetChild<L>, NetChild<L>),
    /// `(dSwitch f t)`: the same, with f's output at the event's sample.
    DSwitch(NetChild<L>, NetChild<L>),
    /// `(rSwitch f t)`: f, and from each event in the input on t anew.
    RSwitch(NetChild<L>, NetChild<L>),
    /// `(kSwitch f e t)`: f up to e's first event, and from that sample on t, with f frozen.
    KSwitch(NetChild<L>, NetChild<L>, NetChild<L>),
    /// `(pSwitch r (col f1 .. fn) e t)`: the members, each on what r routes to it, up to e's first
    /// event, and from that sample on t, with the members frozen.
    PSwitch(L, Members<L>, NetChild<L>, NetChild<L>),
    /// `(old k)`: frozen network k, from 0, the outermost first, resumed.
    Old(u32),
    /// `(--> c f)`: f, with c in place of its first output.
    InitialOut(L, NetChild<L>),
    /// `(>-- c f)`: f, with c in place of its first input.
    InitialIn(L, NetChild<L>),
    /// `(drSwitch f t)`: like `rSwitch`, but at an event's sample what ran before still outputs.
    DrSwitch(NetChild<L>, NetChild<L>),
    /// `(rpSwitchB (col f1 .. fn) m t)`: the members; at each event in the input m chooses which of
    /// them go on, and starts t for each of its values.
    RpSwitch(Members<L>, L, NetChild<L>),
}

/// A network inside a network. Contracts see it as the network's tree; copies share it.
#[cycle(net)]
#[derive(Drop)]
pub struct NetChild<L> {
    inner: Rc<Net<L>>,
}

impl<L> Model for NetChild<L> {
    ghost use Rattle.net_tree.specs.Network.{Network, network_size};
    ghost use Rattle.net_tree.specs.NetworkCode.{network_code};

    ghost Value = { Network L };

    ghost coded = { network_code L.code };

    ghost use Rattle.net_tree.specs.NetworkView.{network_of};

    ghost view = { λ a. network_of a.inner.value };

    ghost size = { network_size };

    ghost use Rattle.net_tree.specs.Depth.{depth_le};

    ghost size_decreases = { λ a h. depth_le a.inner.value };
}

/// The members of `parB`, `pSwitch` or `rpSwitchB`, in order. Contracts see them as the members'
/// trees; copies share them.
#[cycle(net)]
#[derive(Drop)]
pub struct Members<L> {
    all: Rc<Vec<Net<L>>>,
}

impl<L> Model for Members<L> {
    ghost use Rattle.net_tree.specs.Network.{Networks, networks_size};
    ghost use Rattle.net_tree.specs.NetworkCode.{networks_code};

    ghost Value = { Networks L };

    ghost coded = { networks_code L.code };

    ghost use Rattle.net_tree.specs.NetworkView.{members_of};

    ghost view = { λ a. members_of a.all.value.items };

    ghost size = { networks_size };

    ghost use Rattle.net_tree.specs.Depth.{depths_le};

    ghost size_decreases = { λ a h. depths_le a.all.value.items };
}

impl<L> NetChild<L> {
    /// The network as a part of another. `Memory` if allocation fails.
    pub fn new(alloc: Global, net: Net<L>) -> Result<NetChild<L>, Memory>
    where
        L: Drop,
        ensures { IfOk result (λ s. s ≡ network_of net) }
    {
        let inner = Rc::new(alloc, net)?;
        Ok(NetChild { inner })
    }

    /// The network itself.
    pub fn get(&self) -> &Net<L>
        ensures { network_of result.now ≡ self.now }
    {
        &self.inner
    }

    /// This network, shared. It takes no memory; `Memory` only if a count of references is full.
    pub fn try_copy(&self) -> Result<NetChild<L>, Memory>
    where
        L: Drop,
        ensures { IfOk result (λ s. s ≡ self.now) }
    {
        let inner = self.inner.clone()?;
        Ok(NetChild { inner })
    }
}

impl<L> Members<L> {
    /// The networks as members, in order. `Memory` if allocation fails.
    pub fn new(alloc: Global, all: Vec<Net<L>>) -> Result<Members<L>, Memory>
    where
        L: Drop,
        ensures { IfOk result (λ fs. fs ≡ members_of all.items) }
    {
        let all = Rc::new(alloc, all)?;
        Ok(Members { all })
    }

    /// The members in order.
    pub fn as_slice(&self) -> &[Net<L>]
        ensures { members_of result.now ≡ self.now }
    {
        self.all.as_slice()
    }

    /// These members, shared. It takes no memory; `Memory` only if a count of references is full.
    pub fn try_copy(&self) -> Result<Members<L>, Memory>
    where
        L: Drop,
        ensures { IfOk result (λ fs. fs ≡ self.now) }
    {
        let all = self.all.clone()?;
        Ok(Members { all })
    }
}
