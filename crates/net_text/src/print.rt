// The one printed form of networks and of network files.

ghost use Rattle.std.specs.Prelude.{◌≡◌, ◌++◌, ◌∷◌, [], codes, IfOk, string_bytes};
ghost use Rattle.std.specs.Fmt.{decimal};
ghost use Rattle.sample_core.specs.{Adding.Adds, TypeView.type_of};
ghost use Rattle.leaf_core.specs.ExpressionView.{expression_of};
ghost use Rattle.leaf_expr.specs.Sexpr.{atom, form, last, more, sexpr_spelling, sexprs_spelling};
ghost use Rattle.leaf_expr.specs.Printing.{one, two, three, expression_sexpr};
ghost use Rattle.net_tree.specs.Network.{map_network, map_networks, old, p_switch, rp_switch};
ghost use Rattle.net_tree.specs.NetworkView.{tree_of};
ghost use Rattle.net_text.specs.Printing.{network_sexpr, network_sexprs, file_spelling};

use crate::new_forms::{is_new, version_word};
use itoa::Buffer;
use leaf_expr::{Expr, push_last_expr, push_next_expr, push_open};
use net_tree::{Members, Net, NetChild};
use sample_core::{Memory, Ty, push_type, push_word};
use std::alloc::Global;

/// The network file of that input type and network, as a new text of three lines: `yampa 1`, or
/// `yampa 2` where a form of the second version is in the network, `input TYPE` and the network, in
/// core forms. Where its numbers, its depth and its length are within the limits of files, it is
/// read back to the same. `Memory` if allocation fails.
pub fn print_net(alloc: Global, input: &Ty, net: &Net<Expr>) -> Result<String, Memory>
    ensures { IfOk result
        (λ text. string_bytes text ≡ file_spelling (type_of input.now) (tree_of net.now)) }
{
    let mut text = String::new(alloc);
    text.push_str("yampa ")?;
    text.push_str(version_word(is_new(net)))?;
    text.push_str("\ninput ")?;
    push_type(&mut text, input)?;
    text.push_str("\n")?;
    push_net(&mut text, net)?;
    text.push_str("\n")?;
    Ok(text)
}

/// Adds the network's one printed form to the end of the text. `Memory` if allocation fails; the
/// text may then end with a part of it.
#[cycle(push_net)]
pub fn push_net(text: &mut String, net: &Net<Expr>) -> Result<(), Memory>
    ensures { Adds result (string_bytes text.old) (string_bytes text.new)
        (sexpr_spelling (network_sexpr (tree_of net.now))) }
{
    match net {
        Net::Arr(e) => push_leaf(text, "arr", e),
        Net::Seq(f, g) => push_two(text, ">>>", f, g),
        Net::First(f) => push_one(text, "first", f),
        Net::Par(all) => push_par(text, all),
        Net::LoopPre(c, f) => push_fed(text, "loopPre", c, f),
        Net::InitialOut(c, f) => push_fed(text, "-->", c, f),
        Net::InitialIn(c, f) => push_fed(text, ">--", c, f),
        Net::IPre(c) => push_leaf(text, "iPre", c),
        Net::Delay(q, c) => push_timer(text, "delay", *q, c),
        Net::Hold(c) => push_leaf(text, "hold", c),
        Net::AccumBy(g, z) => push_accumulator(text, g, z),
        Net::After(q, c) => push_timer(text, "after", *q, c),
        Net::Repeatedly(q, c) => push_timer(text, "repeatedly", *q, c),
        Net::Time => push_word(text, "time"),
        Net::Integral => push_word(text, "integral"),
        Net::Switch(f, t) => push_two(text, "switch", f, t),
        Net::DSwitch(f, t) => push_two(text, "dSwitch", f, t),
        Net::RSwitch(f, t) => push_two(text, "rSwitch", f, t),
        Net::DrSwitch(f, t) => push_two(text, "drSwitch", f, t),
        Net::RpSwitch(all, m, t) => push_rp_switch(text, all, m, t),
        Net::KSwitch(f, e, t) => push_k_switch(text, f, e, t),
        Net::PSwitch(r, all, e, t) => push_p_switch(text, r, all, e, t),
        Net::Old(k) => push_old(text, *k),
    }
}

/// A form of one expression.
fn push_leaf(text: &mut String, name: &str, e: &Expr) -> Result<(), Memory>
    ensures { Adds result (string_bytes text.old) (string_bytes text.new)
        (sexpr_spelling (one name.now (expression_sexpr (expression_of e.now)))) }
{
    push_open(text, name)?;
    push_last_expr(text, e)
}

/// A time as the next part of a form.
fn push_time(text: &mut String, q: u64) -> Result<(), Memory>
    ensures { Adds result (string_bytes text.old) (string_bytes text.new) (32 ∷ decimal q) }
{
    push_word(text, " ")?;
    push_word(text, Buffer::new().format(q))
}

/// A form of a time and an expression.
fn push_timer(text: &mut String, name: &str, q: u64, c: &Expr) -> Result<(), Memory>
    ensures { Adds result (string_bytes text.old) (string_bytes text.new)
        (sexpr_spelling
        (two name.now (atom (decimal q)) (expression_sexpr (expression_of c.now)))) }
{
    push_open(text, name)?;
    push_time(text, q)?;
    push_last_expr(text, c)
}

/// `(accumBy g z)`.
fn push_accumulator(text: &mut String, g: &Expr, z: &Expr) -> Result<(), Memory>
    ensures { Adds result (string_bytes text.old) (string_bytes text.new)
        (sexpr_spelling
        (two (codes "accumBy") (expression_sexpr (expression_of g.now))
        (expression_sexpr (expression_of z.now)))) }
{
    push_open(text, "accumBy")?;
    push_next_expr(text, g)?;
    push_last_expr(text, z)
}

/// `(old k)`.
fn push_old(text: &mut String, k: u32) -> Result<(), Memory>
    ensures { Adds result (string_bytes text.old) (string_bytes text.new)
        (sexpr_spelling (network_sexpr (old k))) }
{
    push_word(text, "(old ")?;
    push_word(text, Buffer::new().format(k))?;
    push_word(text, ")")
}

/// A network as the next part of a form.
#[cycle(push_net)]
pub(crate) fn push_next(text: &mut String, net: &Net<Expr>) -> Result<(), Memory>
    ensures { Adds result (string_bytes text.old) (string_bytes text.new)
        (32 ∷ sexpr_spelling (network_sexpr (tree_of net.now))) }
{
    push_word(text, " ")?;
    push_net(text, net)
}

/// A network as the last part of a form, and the form's end.
#[cycle(push_net)]
fn push_last(text: &mut String, f: &NetChild<Expr>) -> Result<(), Memory>
    ensures { Adds result (string_bytes text.old) (string_bytes text.new)
        (sexprs_spelling (more (network_sexpr (map_network expression_of f.now)) last) ++ (41 ∷ [])) }
{
    push_next(text, f.get())?;
    push_word(text, ")")
}

/// The last two networks of a form, and the form's end.
#[cycle(push_net)]
fn push_last_two(text: &mut String, f: &NetChild<Expr>, g: &NetChild<Expr>) -> Result<(), Memory>
    ensures { Adds result (string_bytes text.old) (string_bytes text.new)
        (sexprs_spelling
        (more (network_sexpr (map_network expression_of f.now))
        (more (network_sexpr (map_network expression_of g.now)) last)) ++ (41 ∷ [])) }
{
    push_next(text, f.get())?;
    push_last(text, g)
}

/// A form of one network.
#[cycle(push_net)]
fn push_one(text: &mut String, name: &str, f: &NetChild<Expr>) -> Result<(), Memory>
    ensures { Adds result (string_bytes text.old) (string_bytes text.new)
        (sexpr_spelling (one name.now (network_sexpr (map_network expression_of f.now)))) }
{
    push_open(text, name)?;
    push_last(text, f)
}

/// A form of two networks.
#[cycle(push_net)]
fn push_two(
    text: &mut String,
    name: &str,
    f: &NetChild<Expr>,
    g: &NetChild<Expr>,
) -> Result<(), Memory>
    ensures { Adds result (string_bytes text.old) (string_bytes text.new)
        (sexpr_spelling
        (two name.now (network_sexpr (map_network expression_of f.now))
        (network_sexpr (map_network expression_of g.now)))) }
{
    push_open(text, name)?;
    push_last_two(text, f, g)
}

/// `(kSwitch f e t)`.
#[cycle(push_net)]
fn push_k_switch(
    text: &mut String,
    f: &NetChild<Expr>,
    e: &NetChild<Expr>,
    t: &NetChild<Expr>,
) -> Result<(), Memory>
    ensures { Adds result (string_bytes text.old) (string_bytes text.new)
        (sexpr_spelling
        (three (codes "kSwitch") (network_sexpr (map_network expression_of f.now))
        (network_sexpr (map_network expression_of e.now))
        (network_sexpr (map_network expression_of t.now)))) }
{
    push_open(text, "kSwitch")?;
    push_next(text, f.get())?;
    push_last_two(text, e, t)
}

/// The last expression and network of a form, and the form's end.
#[cycle(push_net)]
fn push_last_fed(text: &mut String, c: &Expr, f: &NetChild<Expr>) -> Result<(), Memory>
    ensures { Adds result (string_bytes text.old) (string_bytes text.new)
        (sexprs_spelling
        (more (expression_sexpr (expression_of c.now))
        (more (network_sexpr (map_network expression_of f.now)) last)) ++ (41 ∷ [])) }
{
    push_next_expr(text, c)?;
    push_last(text, f)
}

/// A form of an expression and a network.
#[cycle(push_net)]
fn push_fed(text: &mut String, name: &str, c: &Expr, f: &NetChild<Expr>) -> Result<(), Memory>
    ensures { Adds result (string_bytes text.old) (string_bytes text.new)
        (sexpr_spelling
        (two name.now (expression_sexpr (expression_of c.now))
        (network_sexpr (map_network expression_of f.now)))) }
{
    push_open(text, name)?;
    push_last_fed(text, c, f)
}

/// `(rpSwitchB (col f1 .. fn) m t)`.
#[cycle(push_net)]
fn push_rp_switch(
    text: &mut String,
    all: &Members<Expr>,
    m: &Expr,
    t: &NetChild<Expr>,
) -> Result<(), Memory>
    ensures { Adds result (string_bytes text.old) (string_bytes text.new)
        (sexpr_spelling
        (network_sexpr
        (rp_switch (map_networks expression_of all.now) (expression_of m.now)
        (map_network expression_of t.now)))) }
{
    push_open(text, "rpSwitchB")?;
    push_col(text, all)?;
    push_last_fed(text, m, t)
}

/// `(parB f1 .. fn)`.
#[cycle(push_net)]
fn push_par(text: &mut String, all: &Members<Expr>) -> Result<(), Memory>
    ensures { Adds result (string_bytes text.old) (string_bytes text.new)
        (sexpr_spelling
        (form (codes "parB") (network_sexprs (map_networks expression_of all.now)))) }
{
    push_open(text, "parB")?;
    push_members(text, all)
}

/// `(pSwitch r (col f1 .. fn) e t)`.
#[cycle(push_net)]
fn push_p_switch(
    text: &mut String,
    r: &Expr,
    all: &Members<Expr>,
    e: &NetChild<Expr>,
    t: &NetChild<Expr>,
) -> Result<(), Memory>
    ensures { Adds result (string_bytes text.old) (string_bytes text.new)
        (sexpr_spelling
        (network_sexpr
        (p_switch (expression_of r.now) (map_networks expression_of all.now)
        (map_network expression_of e.now) (map_network expression_of t.now)))) }
{
    push_open(text, "pSwitch")?;
    push_next_expr(text, r)?;
    push_col(text, all)?;
    push_last_two(text, e, t)
}

/// `(col f1 .. fn)` as the next part of a form.
#[cycle(push_net)]
fn push_col(text: &mut String, all: &Members<Expr>) -> Result<(), Memory>
    ensures { Adds result (string_bytes text.old) (string_bytes text.new)
        (32 ∷ sexpr_spelling
        (form (codes "col") (network_sexprs (map_networks expression_of all.now)))) }
{
    push_word(text, " (col")?;
    push_members(text, all)
}

/// Members, each as the next part, and the form's end.
#[cycle(push_net)]
fn push_members(text: &mut String, all: &Members<Expr>) -> Result<(), Memory>
    ensures { Adds result (string_bytes text.old) (string_bytes text.new)
        (sexprs_spelling (network_sexprs (map_networks expression_of all.now)) ++ (41 ∷ [])) }
{
    for net in all.as_slice() {
        push_next(text, net)?;
    }
    push_word(text, ")")
}
