// What stands at a position.

ghost use Rattle.std.specs.Prelude.{◌≡◌, option_map};
ghost use Rattle.leaf_core.specs.ExpressionView.{expression_of};
ghost use Rattle.net_tree.specs.NetworkView.{tree, tree_of, trees};
ghost use Rattle.net_tree.specs.Place.{a_network, child, child_network, collection_child, member, p_switch_child};
ghost use Rattle.net_tree.specs.LawStep.{seen};
ghost use Rattle.net_syntax.specs.{BehindRoute.behind_of, ChildParts.seen_place, Placed.bound, Placed.bound_in, Placed.placed_at, Placed.FewBound};

use leaf_core::{Expr, part_at};
use net_tree::{Members, Net, NetChild, Parts, Position, TreeRef, parts_inside};

/// What stands at a position.
#[derive(Clone, Copy)]
pub struct Place<'n> {
    /// The network or the expression.
    pub tree: TreeRef<'n>,
    /// How many parameters are in scope there.
    pub params: u32,
    /// How many frozen networks are in scope there.
    pub olds: u32,
}

/// What stands at the position in the network, with nothing in scope; `None` if the position isn't
/// there. Along the position, as far as it leads, fewer than 2^32 parameters and fewer than 2^32
/// frozen networks must be in scope. It takes no memory.
pub fn at<'n>(net: &'n Net<Expr>, position: &Position) -> Option<Place<'n>>
    requires { FewBound 0 0 (a_network (tree_of net.now)) position.now }
    ensures { option_map seen_place result
        ≡ placed_at 0 0 (a_network (tree_of net.now)) position.now }
{
    let whole = Place {
        tree: TreeRef::Net(net),
        params: 0,
        olds: 0,
    };
    place_below(whole, position.path())
}

/// What stands at the path below a place; `None` if the path isn't there. Along the path, as far as
/// it leads, fewer than 2^32 parameters and fewer than 2^32 frozen networks must be in scope. It
/// takes no memory.
pub fn place_below<'n>(place: Place<'n>, path: &[u32]) -> Option<Place<'n>>
    requires { FewBound place.params place.olds (seen place.tree) path.now }
    ensures { option_map seen_place result
        ≡ placed_at place.entry.params place.entry.olds (seen place.entry.tree) path.now }
{
    match place.tree {
        TreeRef::Net(net) => {
            let Some((k, rest)) = path.split_first() else {
                return Some(place);
            };
            let tree = child(net, *k)?;
            let bound = bound_in(net, *k);
            let inner = Place {
                tree,
                params: place.params + bound.params,
                olds: place.olds + bound.olds,
            };
            place_below(inner, rest)
        }
        TreeRef::Expr(expr) => {
            let part = part_at(expr, path)?;
            Some(Place {
                tree: TreeRef::Expr(part),
                params: place.params,
                olds: place.olds,
            })
        }
    }
}

/// Child k of the network, from 0.
pub fn child(net: &Net<Expr>, k: u32) -> Option<TreeRef<'_>>
    ensures { option_map seen result ≡ child (tree_of net.now) k }
{
    match parts_inside(net) {
        Parts::Leaf(e) | Parts::Timed(_, e) => match k {
            0 => Some(TreeRef::Expr(e)),
            _ => None,
        },
        Parts::Leaves(g, z) => match k {
            0 => Some(TreeRef::Expr(g)),
            1 => Some(TreeRef::Expr(z)),
            _ => None,
        },
        Parts::One(f) => match k {
            0 => Some(TreeRef::Net(f.get())),
            _ => None,
        },
        Parts::Fed(c, f) => match k {
            0 => Some(TreeRef::Expr(c)),
            1 => Some(TreeRef::Net(f.get())),
            _ => None,
        },
        Parts::Two(f, g) => match k {
            0 => Some(TreeRef::Net(f.get())),
            1 => Some(TreeRef::Net(g.get())),
            _ => None,
        },
        Parts::Three(f, g, h) => match k {
            0 => Some(TreeRef::Net(f.get())),
            1 => Some(TreeRef::Net(g.get())),
            2 => Some(TreeRef::Net(h.get())),
            _ => None,
        },
        Parts::Many(fs) => Some(TreeRef::Net(member(fs, k)?)),
        Parts::Routed(r, fs, e, t) => match k {
            0 => Some(TreeRef::Expr(r)),
            _ => Some(TreeRef::Net(behind_route(fs, e, t, k - 1)?)),
        },
        Parts::Collection(fs, m, t) => in_collection(fs, m, t, k),
        Parts::Nothing | Parts::Index(_) => None,
    }
}

/// Member k, from 0.
fn member(fs: &Members<Expr>, k: u32) -> Option<&Net<Expr>>
    ensures { option_map (λ f. tree_of f.now) result ≡ member (trees fs.now) k }
{
    fs.as_slice().get(k as usize)
}

/// What stands at number k behind the route of a `pSwitch`: the members, then its event, then its
/// continuation.
fn behind_route<'n>(
    fs: &'n Members<Expr>,
    e: &'n NetChild<Expr>,
    t: &'n NetChild<Expr>,
    k: u32,
) -> Option<&'n Net<Expr>>
    ensures { option_map (λ f. tree_of f.now) result
        ≡ child_network (p_switch_child (trees fs.now) k) (trees fs.now) (tree e.now) (tree t.now)
        k }
{
    match kind_behind(fs, k) {
        StandsBehind::Member => member(fs, k),
        StandsBehind::Event => Some(e.get()),
        StandsBehind::Continuation => Some(t.get()),
        StandsBehind::Nothing => None,
    }
}

/// What stands at number k of an `rpSwitchB`: the members, then its choice, then its continuation.
fn in_collection<'n>(
    fs: &'n Members<Expr>,
    m: &'n Expr,
    t: &'n NetChild<Expr>,
    k: u32,
) -> Option<TreeRef<'n>>
    ensures { option_map seen result
        ≡ collection_child (p_switch_child (trees fs.now) k) (trees fs.now) (expression_of m.now)
        (tree t.now) k }
{
    match kind_behind(fs, k) {
        StandsBehind::Member => Some(TreeRef::Net(member(fs, k)?)),
        StandsBehind::Event => Some(TreeRef::Expr(m)),
        StandsBehind::Continuation => Some(TreeRef::Net(t.get())),
        StandsBehind::Nothing => None,
    }
}

/// What stands at a number behind the route of a `pSwitch`, or in an `rpSwitchB`, where the choice
/// stands as the event does there.
#[derive(Clone, Copy)]
pub(crate) enum StandsBehind {
    Member,
    Event,
    Continuation,
    Nothing,
}

/// What stands at number k behind the route, or in the `rpSwitchB`.
pub(crate) fn kind_behind(fs: &Members<Expr>, k: u32) -> StandsBehind
    ensures { p_switch_child (trees fs.now) k ≡ behind_of result }
{
    let count = fs.as_slice().len();
    let k = k as usize;
    if k < count {
        return StandsBehind::Member;
    }
    match k - count {
        0 => StandsBehind::Event,
        1 => StandsBehind::Continuation,
        _ => StandsBehind::Nothing,
    }
}

/// How many parameters and frozen networks a network binds in a child.
#[derive(Clone, Copy)]
pub struct Binds {
    /// How many parameters.
    pub params: u32,
    /// How many frozen networks.
    pub olds: u32,
}

/// How many the network binds in its child k.
pub fn bound_in(net: &Net<Expr>, k: u32) -> Binds
    ensures { bound_in (tree_of net.now) k ≡ bound result.params result.olds }
{
    match net {
        Net::Switch(..) | Net::DSwitch(..) | Net::RSwitch(..) | Net::DrSwitch(..) => match k {
            1 => Binds { params: 1, olds: 0 },
            _ => Binds { params: 0, olds: 0 },
        },
        Net::KSwitch(..) => match k {
            2 => Binds { params: 1, olds: 1 },
            _ => Binds { params: 0, olds: 0 },
        },
        Net::PSwitch(_, fs, _, _) if k > 0 => match kind_behind(fs, k - 1) {
            StandsBehind::Continuation => Binds {
                params: 1,
                olds: k - 2,
            },
            _ => Binds { params: 0, olds: 0 },
        },
        Net::RpSwitch(fs, _, _) => match kind_behind(fs, k) {
            StandsBehind::Continuation => Binds { params: 1, olds: 0 },
            _ => Binds { params: 0, olds: 0 },
        },
        _ => Binds { params: 0, olds: 0 },
    }
}
