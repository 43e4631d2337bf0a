// How large, how heavy and how high a network is: one walk takes the three measures.

ghost use Rattle.std.specs.Prelude.{◌≡◌, ◌+◌, ◌*◌, ◌++◌, ◌∷◌, get_or, map, min, max, suc, [], IfOk, OnOk};
ghost use Rattle.leaf_core.specs.Expression.{input};
ghost use Rattle.net_tree.specs.Height.{height as height_of, heights as heights_of};
ghost use Rattle.net_tree.specs.Measured.{AddsMeasures, Counts, GathersMeasures, Measured, capped};
ghost use Rattle.net_tree.specs.Network.{seq, first, par, old, k_switch, p_switch, delayed, r_switch, rp_switch, network_size, networks_size};
ghost use Rattle.net_tree.specs.NetworkView.{members_of, tree, tree_of, trees};
ghost use Rattle.net_tree.specs.Weight.{weight as weight_of, weights as weights_of};
ghost use Rattle.net_tree.specs.declared.measure.Stop.TheVariants as S;

use crate::limits::MOST_MEMBERS;
use crate::net::{Members, Net, NetChild};
use leaf_core::Expr;
use sample_core::Memory;
use std::alloc::Global;

/// The greatest weight of a network that is run.
pub const MOST_WEIGHT: u32 = 1_000_000;

/// The greatest size of a network that is walked: a typed one of more weighs more than the greatest
/// weight.
pub const MOST_SIZE: u32 = 5_000_000;

/// The greatest height of a network that is run.
pub const MOST_HEIGHT: u32 = 256;

/// What a network measures, each counted up to 4294967295; or limits of these, where the greatest
/// number is none.
#[derive(Clone, Copy)]
pub struct Measures {
    /// How many networks and lists of members stand inside one another in it.
    pub size: u32,
    /// Its weight.
    pub weight: u32,
    /// Its height.
    pub height: u32,
}

/// What members measure together.
#[derive(Clone, Copy)]
pub(crate) struct Together {
    /// The size so far, the sum of their weights and the greatest height.
    inside: Measures,
    /// The greatest weight.
    heaviest: u32,
}

/// The weights and the heights of members, in their order.
#[derive(Drop)]
struct Lists {
    weights: Vec<u32>,
    heights: Vec<u32>,
}

/// What is measured by.
#[derive(Drop)]
pub(crate) struct Measuring {
    /// The limits.
    most: Measures,
    /// The weights of the frozen networks in scope, the outermost first.
    weights: Vec<u32>,
    /// Their heights.
    heights: Vec<u32>,
}

/// Why a measure was not taken to its end: the size, the weight or the height is over its limit.
#[derive(Clone, Copy)]
pub(crate) enum Stop {
    Large,
    Heavy,
    High,
    Memory(Memory),
}

impl From<Memory> for Stop {
    ghost from_gives = { λ refused e. e ≡ S.Memory refused };

    fn from(refused: Memory) -> Stop {
        Stop::Memory(refused)
    }
}

/// What the network measures; `None` if one of the measures is over its limit. Where the size is,
/// this stops there: with shared parts a walk over all parts might never end.
pub fn measured(alloc: Global, net: &Net<Expr>, most: &Measures) -> Result<Option<Measures>, Memory>
    ensures { IfOk result (λ found. Measured found most.now (tree_of net.now)) }
{
    let by = Measuring {
        most: *most,
        weights: Vec::new(alloc),
        heights: Vec::new(alloc),
    };
    match measure_net(alloc, net, &by, 0) {
        Ok(found) => Ok(Some(found)),
        Err(Stop::Memory(refused)) => Err(refused),
        Err(_) => Ok(None),
    }
}

/// The network's weight; one more than the greatest that is allowed where it is more.
pub fn weight(alloc: Global, net: &Net<Expr>) -> Result<u32, Memory>
    ensures { IfOk result (λ w. w ≡ min (weight_of (tree_of net.now) []) (suc MOST_WEIGHT)) }
{
    let most = Measures {
        size: u32::MAX,
        weight: MOST_WEIGHT,
        height: u32::MAX,
    };
    match measured(alloc, net, &most)? {
        Some(found) => Ok(found.weight),
        None => Ok(MOST_WEIGHT + 1),
    }
}

/// The network's height; one more than the greatest that is allowed where it is more.
pub fn height(alloc: Global, net: &Net<Expr>) -> Result<u32, Memory>
    ensures { IfOk result (λ h. h ≡ min (height_of (tree_of net.now) []) (suc MOST_HEIGHT)) }
{
    let most = Measures {
        size: u32::MAX,
        weight: u32::MAX,
        height: MOST_HEIGHT,
    };
    match measured(alloc, net, &most)? {
        Some(found) => Ok(found.height),
        None => Ok(MOST_HEIGHT + 1),
    }
}

impl Measures {
    /// Nothing, at this size so far.
    pub(crate) fn nothing(size: u32) -> Measures
        ensures size { result.size ≡ size }
        ensures weight { result.weight ≡ 0 }
        ensures height { result.height ≡ 0 }
    {
        Measures {
            size,
            weight: 0,
            height: 0,
        }
    }

    /// Together with what was measured next to it, behind it.
    pub(crate) fn beside(self, next: Measures) -> Measures
        ensures size { result.size ≡ next.size }
        ensures weight { result.weight ≡ capped (self.weight + next.weight) }
        ensures height { result.height ≡ max self.height next.height }
    {
        Measures {
            size: next.size,
            weight: self.weight.saturating_add(next.weight),
            height: self.height.max(next.height),
        }
    }
}

impl Lists {
    /// Those of no members.
    fn new(alloc: Global) -> Lists
        ensures weights { result.weights.items ≡ [] }
        ensures heights { result.heights.items ≡ [] }
    {
        Lists {
            weights: Vec::new(alloc),
            heights: Vec::new(alloc),
        }
    }

    /// Adds those of one more.
    fn push(&mut self, member: Measures) -> Result<(), Memory>
        ensures weights { OnOk result (self.new.weights.items
            ≡ self.old.weights.items ++ member.weight ∷ []) }
        ensures heights { OnOk result (self.new.heights.items
            ≡ self.old.heights.items ++ member.height ∷ []) }
    {
        self.weights.push(member.weight)?;
        self.heights.push(member.height)?;
        Ok(())
    }
}

impl Measuring {
    /// One node over what is inside it, where that is within the limits.
    pub(crate) fn above(&self, inside: Measures) -> Result<Measures, Stop>
        ensures { Counts result self.now.most inside.size (suc inside.weight) (suc inside.height) }
    {
        let weight = inside.weight.saturating_add(1);
        let height = inside.height.saturating_add(1);
        if inside.size > self.most.size {
            Err(Stop::Large)
        } else if weight > self.most.weight {
            Err(Stop::Heavy)
        } else if height > self.most.height {
            Err(Stop::High)
        } else {
            Ok(Measures {
                size: inside.size,
                weight,
                height,
            })
        }
    }

    /// Frozen network k, resumed.
    pub(crate) fn resumed(&self, k: u32, size: u32) -> Result<Measures, Stop>
        ensures { AddsMeasures result self.now size (old k) }
    {
        self.above(Measures {
            size,
            weight: number_at(&self.weights, k),
            height: number_at(&self.heights, k),
        })
    }
}

/// One more.
pub(crate) fn more(size: u32) -> u32
    ensures { result ≡ capped (suc size) }
{
    size.saturating_add(1)
}

/// Number k of the list, 0 if there is none.
fn number_at(numbers: &[u32], k: u32) -> u32
    ensures { result ≡ get_or numbers.now k 0 }
{
    match numbers.get(k as usize) {
        Some(number) => *number,
        None => 0,
    }
}

/// The numbers, and then further ones.
pub(crate) fn joined(alloc: Global, scope: &[u32], frozen: &[u32]) -> Result<Vec<u32>, Memory>
    ensures { IfOk result (λ all. all.items ≡ scope.now ++ frozen.now) }
{
    let mut all = scope.to_vec(alloc)?;
    all.extend_from_slice(frozen)?;
    Ok(all)
}

/// The network's weight and height, and its size with the one so far. It stops at the first network
/// that is over a limit.
#[cycle(measure)]
fn measure_net(alloc: Global, net: &Net<Expr>, by: &Measuring, size: u32) -> Result<Measures, Stop>
    ensures { AddsMeasures result by.now size (tree_of net.now) }
{
    match net {
        Net::Arr(_)
        | Net::IPre(_)
        | Net::Delay(_, _)
        | Net::Hold(_)
        | Net::AccumBy(_, _)
        | Net::After(_, _)
        | Net::Repeatedly(_, _)
        | Net::Time
        | Net::Integral => by.above(Measures::nothing(size)),
        Net::First(f) | Net::LoopPre(_, f) | Net::InitialOut(_, f) | Net::InitialIn(_, f) => {
            measure_one(alloc, f, by, size)
        }
        Net::Seq(f, g) | Net::RSwitch(f, g) | Net::Switch(f, g) | Net::DSwitch(f, g) => {
            measure_two(alloc, f, g, by, size)
        }
        Net::DrSwitch(f, t) => measure_late(alloc, f, t, by, size),
        Net::Par(fs) => measure_all(alloc, fs, by, size),
        Net::KSwitch(f, e, t) => measure_freeze(alloc, f, e, t, by, size),
        Net::PSwitch(_, fs, e, t) => measure_freeze_all(alloc, fs, e, t, by, size),
        Net::RpSwitch(fs, _, t) => measure_collection(alloc, fs, t, by, size),
        Net::Old(k) => by.resumed(*k, size),
    }
}

/// The same of a node with one network.
#[cycle(measure)]
fn measure_one(
    alloc: Global,
    f: &NetChild<Expr>,
    by: &Measuring,
    size: u32,
) -> Result<Measures, Stop>
    ensures { AddsMeasures result by.now size (first (tree f.now)) }
{
    let inside = measure_net(alloc, f.get(), by, more(size))?;
    by.above(inside)
}

/// The same of a node with two networks.
#[cycle(measure)]
fn measure_two(
    alloc: Global,
    f: &NetChild<Expr>,
    g: &NetChild<Expr>,
    by: &Measuring,
    size: u32,
) -> Result<Measures, Stop>
    ensures { AddsMeasures result by.now size (seq (tree f.now) (tree g.now)) }
{
    let f = measure_net(alloc, f.get(), by, more(size))?;
    let g = measure_net(alloc, g.get(), by, f.size)?;
    by.above(f.beside(g))
}

/// The same of `drSwitch`, in which what starts may run twice in one sample.
#[cycle(measure)]
fn measure_late(
    alloc: Global,
    f: &NetChild<Expr>,
    t: &NetChild<Expr>,
    by: &Measuring,
    size: u32,
) -> Result<Measures, Stop>
    ensures { AddsMeasures result by.now size (r_switch delayed (tree f.now) (tree t.now)) }
{
    let f = measure_net(alloc, f.get(), by, more(size))?;
    let t = measure_net(alloc, t.get(), by, f.size)?;
    by.above(f.beside(t).beside(t))
}

/// The same of `parB`.
#[cycle(measure)]
fn measure_all(
    alloc: Global,
    fs: &Members<Expr>,
    by: &Measuring,
    size: u32,
) -> Result<Measures, Stop>
    ensures { AddsMeasures result by.now size (par (trees fs.now)) }
{
    let mut lists = Lists::new(alloc);
    let fs = measure_members(alloc, fs.as_slice(), by, more(size), &mut lists)?;
    by.above(fs.inside)
}

/// The same of `kSwitch`.
#[cycle(measure)]
fn measure_freeze(
    alloc: Global,
    f: &NetChild<Expr>,
    e: &NetChild<Expr>,
    t: &NetChild<Expr>,
    by: &Measuring,
    size: u32,
) -> Result<Measures, Stop>
    ensures { AddsMeasures result by.now size (k_switch (tree f.now) (tree e.now) (tree t.now)) }
{
    let f = measure_net(alloc, f.get(), by, more(size))?;
    let e = measure_net(alloc, e.get(), by, f.size)?;
    let t = measure_under(alloc, t, by, &[f.weight], &[f.height], e.size)?;
    by.above(f.beside(e).beside(t))
}

/// The same of `pSwitch`.
#[cycle(measure)]
fn measure_freeze_all(
    alloc: Global,
    fs: &Members<Expr>,
    e: &NetChild<Expr>,
    t: &NetChild<Expr>,
    by: &Measuring,
    size: u32,
) -> Result<Measures, Stop>
    ensures { AddsMeasures result by.now size (p_switch input (trees fs.now) (tree e.now) (tree t.now)) }
{
    let mut lists = Lists::new(alloc);
    let fs = measure_members(alloc, fs.as_slice(), by, more(size), &mut lists)?;
    let e = measure_net(alloc, e.get(), by, fs.inside.size)?;
    let t = measure_under(alloc, t, by, &lists.weights, &lists.heights, e.size)?;
    by.above(fs.inside.beside(e).beside(t))
}

/// The same of `rpSwitchB`, which counts 64 times the greatest weight of its own.
#[cycle(measure)]
fn measure_collection(
    alloc: Global,
    fs: &Members<Expr>,
    t: &NetChild<Expr>,
    by: &Measuring,
    size: u32,
) -> Result<Measures, Stop>
    ensures { AddsMeasures result by.now size (rp_switch (trees fs.now) input (tree t.now)) }
{
    let mut lists = Lists::new(alloc);
    let fs = measure_members(alloc, fs.as_slice(), by, more(size), &mut lists)?;
    let t = measure_net(alloc, t.get(), by, fs.inside.size)?;
    by.above(Measures {
        size: t.size,
        weight: t
            .weight
            .max(fs.heaviest)
            .saturating_mul(MOST_MEMBERS as u32),
        height: fs.inside.height.max(t.height),
    })
}

/// The same of a network under further frozen ones.
#[cycle(measure)]
fn measure_under(
    alloc: Global,
    t: &NetChild<Expr>,
    by: &Measuring,
    weights: &[u32],
    heights: &[u32],
    size: u32,
) -> Result<Measures, Stop>
    ensures { Counts result by.now.most (size + network_size (tree t.now))
        (weight_of (tree t.now) (by.now.weights.items ++ weights.now))
        (height_of (tree t.now) (by.now.heights.items ++ heights.now)) }
{
    let inner = Measuring {
        most: by.most,
        weights: joined(alloc, &by.weights, weights)?,
        heights: joined(alloc, &by.heights, heights)?,
    };
    measure_net(alloc, t.get(), &inner, size)
}

/// What members measure together; it adds their weights and their heights to the lists.
#[cycle(measure)]
fn measure_members(
    alloc: Global,
    fs: &[Net<Expr>],
    by: &Measuring,
    size: u32,
    lists: &mut Lists,
) -> Result<Together, Stop>
    ensures measures { GathersMeasures result by.now.most (size + networks_size (trees (members_of fs.now)))
        (weights_of (trees (members_of fs.now)) by.now.weights.items)
        (heights_of (trees (members_of fs.now)) by.now.heights.items) }
    ensures weights { OnOk result (lists.new.weights.items ≡ lists.old.weights.items
        ++ map capped (weights_of (trees (members_of fs.now)) by.now.weights.items)) }
    ensures heights { OnOk result (lists.new.heights.items ≡ lists.old.heights.items
        ++ map capped (heights_of (trees (members_of fs.now)) by.now.heights.items)) }
{
    let Some((f, rest)) = fs.split_first() else {
        return Ok(Together {
            inside: Measures::nothing(size),
            heaviest: 0,
        });
    };
    let f = measure_net(alloc, f, by, more(size))?;
    lists.push(f)?;
    let rest = measure_members(alloc, rest, by, f.size, lists)?;
    Ok(Together {
        inside: f.beside(rest.inside),
        heaviest: f.weight.max(rest.heaviest),
    })
}
