// When two networks are the same.

ghost use Rattle.std.specs.Prelude.{◌≡◌, ◌↔◌, IsTrue};
ghost use Rattle.net_tree.specs.FormParts.{form_number, parts_of, parts_in};
ghost use Rattle.net_tree.specs.NetworkView.{tree_of, tree, trees};

use crate::net::{Members, Net, NetChild};
use leaf_core::{Expr, same_expr};

/// What stands inside a network, apart from its form. With the number of its form it is the
/// network.
#[derive(Clone, Copy)]
pub enum Parts<'n> {
    /// Nothing.
    Nothing,
    /// The number of a frozen network.
    Index(u32),
    /// An expression.
    Leaf(&'n Expr),
    /// A number and an expression.
    Timed(u64, &'n Expr),
    /// Two expressions, in their order.
    Leaves(&'n Expr, &'n Expr),
    /// A network.
    One(&'n NetChild<Expr>),
    /// An expression and a network.
    Fed(&'n Expr, &'n NetChild<Expr>),
    /// Two networks, in their order.
    Two(&'n NetChild<Expr>, &'n NetChild<Expr>),
    /// Three networks, in their order.
    Three(&'n NetChild<Expr>, &'n NetChild<Expr>, &'n NetChild<Expr>),
    /// Members.
    Many(&'n Members<Expr>),
    /// A route, members and two networks.
    Routed(&'n Expr, &'n Members<Expr>, &'n NetChild<Expr>, &'n NetChild<Expr>),
    /// Members, an expression and a network.
    Collection(&'n Members<Expr>, &'n Expr, &'n NetChild<Expr>),
}

/// The number of the network's form: no two forms have one.
pub fn form_number(net: &Net<Expr>) -> u8
    ensures { result ≡ form_number (tree_of net.now) }
{
    match net {
        Net::Arr(_) => 0,
        Net::Seq(..) => 1,
        Net::First(_) => 2,
        Net::Par(_) => 3,
        Net::LoopPre(..) => 4,
        Net::IPre(_) => 5,
        Net::Delay(..) => 6,
        Net::Hold(_) => 7,
        Net::AccumBy(..) => 8,
        Net::After(..) => 9,
        Net::Repeatedly(..) => 10,
        Net::Time => 11,
        Net::Integral => 12,
        Net::Switch(..) => 13,
        Net::DSwitch(..) => 14,
        Net::RSwitch(..) => 15,
        Net::KSwitch(..) => 16,
        Net::PSwitch(..) => 17,
        Net::Old(_) => 18,
        Net::InitialOut(..) => 19,
        Net::InitialIn(..) => 20,
        Net::DrSwitch(..) => 21,
        Net::RpSwitch(..) => 22,
    }
}

/// What stands inside the network.
pub fn parts_inside(net: &Net<Expr>) -> Parts<'_>
    ensures { parts_in result ≡ parts_of (tree_of net.now) }
{
    match net {
        Net::Arr(e) | Net::IPre(e) | Net::Hold(e) => Parts::Leaf(e),
        Net::Delay(q, e) | Net::After(q, e) | Net::Repeatedly(q, e) => Parts::Timed(*q, e),
        Net::AccumBy(g, z) => Parts::Leaves(g, z),
        Net::Time | Net::Integral => Parts::Nothing,
        Net::First(f) => Parts::One(f),
        Net::LoopPre(c, f) | Net::InitialOut(c, f) | Net::InitialIn(c, f) => Parts::Fed(c, f),
        Net::Seq(f, g)
        | Net::Switch(f, g)
        | Net::DSwitch(f, g)
        | Net::RSwitch(f, g)
        | Net::DrSwitch(f, g) => Parts::Two(f, g),
        Net::KSwitch(f, e, t) => Parts::Three(f, e, t),
        Net::Par(fs) => Parts::Many(fs),
        Net::PSwitch(r, fs, e, t) => Parts::Routed(r, fs, e, t),
        Net::Old(k) => Parts::Index(*k),
        Net::RpSwitch(fs, m, t) => Parts::Collection(fs, m, t),
    }
}

/// Whether the two networks are equal, all their parts, numbers and expressions included. It takes
/// no memory.
#[cycle(same)]
#[tactic(auto, using(crate::proofs::FormLaws::same_parts_are))]
pub fn same_net(a: &Net<Expr>, b: &Net<Expr>) -> bool
    ensures { IsTrue result ↔ (tree_of a.now ≡ tree_of b.now) }
{
    form_number(a) == form_number(b) && same_inside(a, b)
}

/// Whether the same stands inside the two networks, whatever their forms.
#[cycle(same)]
#[tactic(auto, using(std::proofs::lemmas::Grind::common_steps, crate::proofs::FormLaws::size_inside))]
fn same_inside(a: &Net<Expr>, b: &Net<Expr>) -> bool
    ensures { IsTrue result ↔ (parts_of (tree_of a.now) ≡ parts_of (tree_of b.now)) }
{
    match (parts_inside(a), parts_inside(b)) {
        (Parts::Nothing, Parts::Nothing) => true,
        (Parts::Index(j), Parts::Index(k)) => j == k,
        (Parts::Leaf(d), Parts::Leaf(e)) => same_expr(d, e),
        (Parts::Timed(p, d), Parts::Timed(q, e)) => p == q && same_expr(d, e),
        (Parts::Leaves(g, z), Parts::Leaves(h, y)) => same_expr(g, h) && same_expr(z, y),
        (Parts::One(f), Parts::One(g)) => same_child(f, g),
        (Parts::Fed(d, f), Parts::Fed(e, g)) => same_expr(d, e) && same_child(f, g),
        (Parts::Two(f, g), Parts::Two(h, i)) => same_two(f, g, h, i),
        (Parts::Three(f, g, h), Parts::Three(i, j, k)) => same_child(f, i) && same_two(g, h, j, k),
        (Parts::Many(fs), Parts::Many(gs)) => same_members(fs, gs),
        (Parts::Routed(q, fs, f, g), Parts::Routed(r, gs, h, i)) => {
            same_expr(q, r) && same_members(fs, gs) && same_two(f, g, h, i)
        }
        (Parts::Collection(fs, l, f), Parts::Collection(gs, m, g)) => {
            same_members(fs, gs) && same_expr(l, m) && same_child(f, g)
        }
        _ => false,
    }
}

/// Whether two networks inside others are equal.
#[cycle(same)]
fn same_child(f: &NetChild<Expr>, g: &NetChild<Expr>) -> bool
    ensures { IsTrue result ↔ (tree f.now ≡ tree g.now) }
{
    same_net(f.get(), g.get())
}

/// Whether two networks are equal to two others.
#[cycle(same)]
fn same_two(f: &NetChild<Expr>, g: &NetChild<Expr>, h: &NetChild<Expr>, i: &NetChild<Expr>) -> bool
    ensures { IsTrue result ↔ ((tree f.now ≡ tree h.now) × (tree g.now ≡ tree i.now)) }
{
    same_child(f, h) && same_child(g, i)
}

/// Whether the members are equal, one by one.
#[cycle(same)]
#[tactic(auto, using(std::proofs::lemmas::Grind::common_steps, crate::proofs::FormLaws::member_smaller, crate::proofs::FormLaws::same_count))]
fn same_members(fs: &Members<Expr>, gs: &Members<Expr>) -> bool
    ensures { IsTrue result ↔ (trees fs.now ≡ trees gs.now) }
{
    let all = fs.as_slice();
    let others = gs.as_slice();
    if all.len() != others.len() {
        return false;
    }
    for i in 0..all.len() {
        if !same_net(&all[i], &others[i]) {
            return false;
        }
    }
    true
}
