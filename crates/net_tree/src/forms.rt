// Forms of networks that hold the same parts, and copies.

ghost use Rattle.std.specs.Prelude.{◌≡◌, IfOk};
ghost use Rattle.net_tree.specs.FormView.{fed_form_of, leaf_form_of, pair_form_of};

use crate::net::{Net, NetChild};
use leaf_core::Expr;
use sample_core::Memory;
use std::alloc::Global;

/// A form of one leaf, with its number where it has one.
#[derive(Clone, Copy)]
pub enum LeafForm {
    Arr,
    IPre,
    Delay(u64),
    Hold,
    After(u64),
    Repeatedly(u64),
}

/// A form of two networks.
#[derive(Clone, Copy)]
pub enum PairForm {
    Seq,
    Switch,
    DSwitch,
    RSwitch,
    DrSwitch,
}

/// A form of an expression and a network.
#[derive(Clone, Copy)]
pub enum FedForm {
    LoopPre,
    InitialOut,
    InitialIn,
}

impl LeafForm {
    /// The network of this form.
    pub fn of<L>(self, leaf: L) -> Net<L>
        ensures { result ≡ leaf_form_of self leaf }
    {
        match self {
            LeafForm::Arr => Net::Arr(leaf),
            LeafForm::IPre => Net::IPre(leaf),
            LeafForm::Delay(q) => Net::Delay(q, leaf),
            LeafForm::Hold => Net::Hold(leaf),
            LeafForm::After(q) => Net::After(q, leaf),
            LeafForm::Repeatedly(q) => Net::Repeatedly(q, leaf),
        }
    }
}

impl PairForm {
    /// The network of this form.
    pub fn of<L>(self, f: NetChild<L>, g: NetChild<L>) -> Net<L>
        ensures { result ≡ pair_form_of self f g }
    {
        match self {
            PairForm::Seq => Net::Seq(f, g),
            PairForm::Switch => Net::Switch(f, g),
            PairForm::DSwitch => Net::DSwitch(f, g),
            PairForm::RSwitch => Net::RSwitch(f, g),
            PairForm::DrSwitch => Net::DrSwitch(f, g),
        }
    }
}

impl FedForm {
    /// The network of this form.
    pub fn of<L>(self, c: L, f: NetChild<L>) -> Net<L>
        ensures { result ≡ fed_form_of self c f }
    {
        match self {
            FedForm::LoopPre => Net::LoopPre(c, f),
            FedForm::InitialOut => Net::InitialOut(c, f),
            FedForm::InitialIn => Net::InitialIn(c, f),
        }
    }
}

impl Net<Expr> {
    /// A copy, whose parts are shared with it. It takes no memory; `Memory` only if a count of
    /// references is full.
    pub fn try_copy(&self, alloc: Global) -> Result<Net<Expr>, Memory>
        ensures { IfOk result (λ n. n ≡ self.now) }
    {
        match self {
            Net::Arr(e) => Ok(Net::Arr(e.try_copy(alloc)?)),
            Net::Seq(f, g) => Ok(Net::Seq(f.try_copy()?, g.try_copy()?)),
            Net::First(f) => Ok(Net::First(f.try_copy()?)),
            Net::Par(fs) => Ok(Net::Par(fs.try_copy()?)),
            Net::LoopPre(c, f) => Ok(Net::LoopPre(c.try_copy(alloc)?, f.try_copy()?)),
            Net::IPre(c) => Ok(Net::IPre(c.try_copy(alloc)?)),
            Net::Delay(q, c) => Ok(Net::Delay(*q, c.try_copy(alloc)?)),
            Net::Hold(c) => Ok(Net::Hold(c.try_copy(alloc)?)),
            Net::AccumBy(g, z) => Ok(Net::AccumBy(g.try_copy(alloc)?, z.try_copy(alloc)?)),
            Net::After(q, c) => Ok(Net::After(*q, c.try_copy(alloc)?)),
            Net::Repeatedly(q, c) => Ok(Net::Repeatedly(*q, c.try_copy(alloc)?)),
            Net::Time => Ok(Net::Time),
            Net::Integral => Ok(Net::Integral),
            Net::Switch(f, t) => Ok(Net::Switch(f.try_copy()?, t.try_copy()?)),
            Net::DSwitch(f, t) => Ok(Net::DSwitch(f.try_copy()?, t.try_copy()?)),
            Net::RSwitch(f, t) => Ok(Net::RSwitch(f.try_copy()?, t.try_copy()?)),
            Net::KSwitch(f, e, t) => {
                Ok(Net::KSwitch(f.try_copy()?, e.try_copy()?, t.try_copy()?))
            }
            Net::PSwitch(r, fs, e, t) => Ok(Net::PSwitch(
                r.try_copy(alloc)?,
                fs.try_copy()?,
                e.try_copy()?,
                t.try_copy()?,
            )),
            Net::Old(k) => Ok(Net::Old(*k)),
            Net::InitialOut(c, f) => Ok(Net::InitialOut(c.try_copy(alloc)?, f.try_copy()?)),
            Net::InitialIn(c, f) => Ok(Net::InitialIn(c.try_copy(alloc)?, f.try_copy()?)),
            Net::DrSwitch(f, t) => Ok(Net::DrSwitch(f.try_copy()?, t.try_copy()?)),
            Net::RpSwitch(fs, m, t) => {
                Ok(Net::RpSwitch(fs.try_copy()?, m.try_copy(alloc)?, t.try_copy()?))
            }
        }
    }
}
