// Reading networks.

ghost use Rattle.std.specs.Prelude.{◌≡◌, ◌<◌, ◌≤◌, Err, MatchResult, Ok, length, map};
ghost use Rattle.leaf_core.specs.ExpressionView.{expression_of};
ghost use Rattle.leaf_expr.specs.{Grammar.type_sort, Grammar.expression_sort, Language.no_place, Language.places};
ghost use Rattle.leaf_expr.specs.ReadText.{GivesTree, tree_at, expression_left, type_left};
ghost use Rattle.net_tree.specs.{Network.networks_of, Network.map_network, Network.map_networks, NetworkView.tree_of};
ghost use Rattle.net_text.specs.Form.{timer_of};
ghost use Rattle.net_text.specs.Grammar.{network_sort, members_sort, time_sort, e, f};
ghost use Rattle.net_text.specs.ReadNet.{sort_at, word_network as word_read, net_form_at as form_read, parts_at as parts_read, last_two_nets_at as last_two_read, last_fed_at as last_fed_read, last_three_at as last_three_read, from_byte, GivesForm, network_left, child_left, members_left};

use crate::form::{
    Accumulator, NetBinary, NetForm, NetLeafForm, NetUnary, Timer, form_named, network_named,
};
use crate::text::Text;
use leaf_expr::{
    Expr, ExprTextFault, MOST_OPEN, Read, TreeFront, closing_at, form_end, form_head, front_at,
    read_expr_at, read_index, read_natural, read_type_at,
};
use net_tree::{FedForm, Members, Net, NetChild};
use sample_core::{Ty, word_is};
use std::alloc::Global;

/// A network that was read, and the byte behind it.
type ReadNet = Read<Net<Expr>>;

/// A network inside a network.
type Child = NetChild<Expr>;

/// The network at or after byte `at`, with room for so many more parentheses, and the byte behind
/// it.
#[cycle(network)]
pub(crate) fn network_at(alloc: Global, text: &Text<'_>, at: usize, room: usize) -> ReadNet
    requires { room ≤ MOST_OPEN }
    ensures { GivesTree (network_left text.now) result (sort_at network_sort text.now room at) }
{
    match front_at(text.bytes, at, room)? {
        TreeFront::Form(start) => form_at(alloc, text, start + 1, room - 1),
        TreeFront::Word(start, end) => word_network(alloc, text, start, end),
    }
}

/// The network that the word is from the first byte up to and without the second, and the latter.
fn word_network(alloc: Global, text: &Text<'_>, start: usize, end: usize) -> ReadNet
    requires { (start < end) × (end ≤ length text.now.bytes.now) }
    ensures { GivesTree (network_left text.now) result (word_read text.now start end) }
{
    match network_named(&text.bytes[start..end]) {
        Some(word) => { Ok((word.of(alloc)?, end)) }
        None => Err(ExprTextFault::Syntax { at: start }),
    }
}

/// What stands behind the parenthesis of a form.
#[cycle(network)]
fn form_at(alloc: Global, text: &Text<'_>, at: usize, room: usize) -> ReadNet
    requires { room ≤ MOST_OPEN }
    ensures { GivesTree (network_left text.now) result (form_read network_sort text.now room at) }
{
    let (start, end) = form_head(text.bytes, at, room)?;
    match form_named(&text.bytes[start..end], text.version) {
        Some(form) => parts_at(alloc, text, end, room, form),
        None => Err(ExprTextFault::Syntax { at: start }),
    }
}

/// The parts of a form, and its end.
#[cycle(network)]
fn parts_at(alloc: Global, text: &Text<'_>, at: usize, room: usize, form: NetForm) -> ReadNet
    requires { room ≤ MOST_OPEN }
    ensures { GivesForm result form text.now room at }
{
    match form {
        NetForm::Leaf(form) => leaf_form_at(alloc, text, at, room, form),
        NetForm::Timer(form) => timer_at(alloc, text, at, room, form),
        NetForm::Accumulator(form) => accumulator_at(alloc, text, at, room, form),
        NetForm::Unary(form) => unary_at(alloc, text, at, room, form),
        NetForm::Binary(form) => binary_at(alloc, text, at, room, form),
        NetForm::Fed(form) => fed_at(alloc, text, at, room, form),
        NetForm::Par => par_at(alloc, text, at, room),
        NetForm::KSwitch => k_switch_at(alloc, text, at, room),
        NetForm::PSwitch => p_switch_at(alloc, text, at, room),
        NetForm::RpSwitch => rp_switch_at(alloc, text, at, room),
        NetForm::Old => old_at(text, at, room),
        NetForm::Never => never_at(alloc, text, at, room),
    }
}

/// A part with what was read behind it; where that is refused, the part goes.
pub(crate) fn both<A: Drop, B>(
    part: A,
    rest: Result<B, ExprTextFault>,
) -> Result<(A, B), ExprTextFault>
    ensures { MatchResult result
        (λ x. (x.0 ≡ part) × (rest ≡ Ok x.1)) (λ fault. rest ≡ Err fault) }
{
    match rest {
        Ok(rest) => Ok((part, rest)),
        Err(fault) => {
            drop(part);
            Err(fault)
        }
    }
}

/// The expression at or after byte `at`, with room for so many more parentheses, and the byte
/// behind it.
fn expr_at(alloc: Global, text: &[u8], at: usize, room: usize) -> Read<Expr>
    requires { room ≤ MOST_OPEN }
    ensures { GivesTree (expression_left text.now) result (tree_at expression_sort text.now room at) }
{
    read_expr_at(alloc, text, at, MOST_OPEN - room)
}

/// The type at or after byte `at`, with room for so many more parentheses, and the byte behind it.
pub(crate) fn type_at(alloc: Global, text: &[u8], at: usize, room: usize) -> Read<Ty>
    requires { room ≤ MOST_OPEN }
    ensures { GivesTree (type_left text.now) result (tree_at type_sort text.now room at) }
{
    read_type_at(alloc, text, at, MOST_OPEN - room)
}

/// The last expression of a form, and the form's end.
pub(crate) fn last_expr_at(alloc: Global, text: &Text<'_>, at: usize, room: usize) -> Read<Expr>
    requires { room ≤ MOST_OPEN }
    ensures { GivesTree (expression_left text.now.bytes.now) result
        (parts_read (e no_place) (λ c. c) text.now room at) }
{
    let (expr, at) = expr_at(alloc, text.bytes, at, room)?;
    both(expr, form_end(text.bytes, at, room))
}

/// One expression, and the end of the form.
fn leaf_form_at(
    alloc: Global,
    text: &Text<'_>,
    at: usize,
    room: usize,
    form: NetLeafForm,
) -> ReadNet
    requires { room ≤ MOST_OPEN }
    ensures { GivesForm result (NetForm.Leaf form) text.now room at }
{
    let (expr, end) = last_expr_at(alloc, text, at, room)?;
    Ok((form.of(alloc, expr)?, end))
}

/// The time of the form at or after byte `at`, and the byte behind it.
fn time_at(text: &Text<'_>, at: usize, room: usize, form: Timer) -> Read<u64>
    ensures { GivesTree (λ x. (x.0, x.1, from_byte x.1 text.now)) result
        (sort_at (time_sort (timer_of form)) text.now room at) }
{
    read_natural(text.bytes, at, room, form.least(), form.greatest())
}

/// A time and an expression, and the end of the form.
fn timer_at(alloc: Global, text: &Text<'_>, at: usize, room: usize, form: Timer) -> ReadNet
    requires { room ≤ MOST_OPEN }
    ensures { GivesForm result (NetForm.Timer form) text.now room at }
{
    let (q, at) = time_at(text, at, room, form)?;
    let (c, end) = last_expr_at(alloc, text, at, room)?;
    Ok((form.of(q, c), end))
}

/// Two expressions, and the end of the form.
fn accumulator_at(
    alloc: Global,
    text: &Text<'_>,
    at: usize,
    room: usize,
    form: Accumulator,
) -> ReadNet
    requires { room ≤ MOST_OPEN }
    ensures { GivesForm result (NetForm.Accumulator form) text.now room at }
{
    let (g, at) = expr_at(alloc, text.bytes, at, room)?;
    let (g, (z, end)) = both(g, last_expr_at(alloc, text, at, room))?;
    Ok((form.of(alloc, g, z)?, end))
}

/// The number of a frozen network, and the end of the form.
fn old_at(text: &Text<'_>, at: usize, room: usize) -> ReadNet
    ensures { GivesForm result NetForm.Old text.now room at }
{
    let (k, at) = read_index(text.bytes, at, room)?;
    let end = form_end(text.bytes, at, room)?;
    Ok((Net::Old(k), end))
}

/// A type, and the end of the form.
fn never_at(alloc: Global, text: &Text<'_>, at: usize, room: usize) -> ReadNet
    requires { room ≤ MOST_OPEN }
    ensures { GivesForm result NetForm.Never text.now room at }
{
    let (carried, at) = type_at(alloc, text.bytes, at, room)?;
    let (carried, end) = both(carried, form_end(text.bytes, at, room))?;
    Ok((Net::Arr(Expr::NoEvent(carried)), end))
}

/// A network inside a network.
#[cycle(network)]
fn child_at(alloc: Global, text: &Text<'_>, at: usize, room: usize) -> Read<Child>
    requires { room ≤ MOST_OPEN }
    ensures { GivesTree (child_left text.now) result (sort_at network_sort text.now room at) }
{
    let (net, at) = network_at(alloc, text, at, room)?;
    let child = NetChild::new(alloc, net)?;
    Ok((child, at))
}

/// The last network of a form, and the form's end.
#[cycle(network)]
fn last_child_at(alloc: Global, text: &Text<'_>, at: usize, room: usize) -> Read<Child>
    requires { room ≤ MOST_OPEN }
    ensures { GivesTree (child_left text.now) result
        (parts_read (f no_place) (λ g. g) text.now room at) }
{
    let (child, at) = child_at(alloc, text, at, room)?;
    let end = form_end(text.bytes, at, room)?;
    Ok((child, end))
}

/// The last two networks of a form, and the form's end.
#[cycle(network)]
fn last_two_at(alloc: Global, text: &Text<'_>, at: usize, room: usize) -> Read<(Child, Child)>
    requires { room ≤ MOST_OPEN }
    ensures { GivesTree
        (λ x. (
          (map_network expression_of x.0.0, map_network expression_of x.0.1),
          x.1,
          from_byte x.1 text.now,
        )) result
        (last_two_read text.now room at) }
{
    let (g, at) = child_at(alloc, text, at, room)?;
    let (h, end) = last_child_at(alloc, text, at, room)?;
    Ok(((g, h), end))
}

/// One network, and the end of the form.
#[cycle(network)]
fn unary_at(alloc: Global, text: &Text<'_>, at: usize, room: usize, form: NetUnary) -> ReadNet
    requires { room ≤ MOST_OPEN }
    ensures { GivesForm result (NetForm.Unary form) text.now room at }
{
    let (g, end) = last_child_at(alloc, text, at, room)?;
    Ok((form.of(alloc, g)?, end))
}

/// Two networks, and the end of the form.
#[cycle(network)]
fn binary_at(alloc: Global, text: &Text<'_>, at: usize, room: usize, form: NetBinary) -> ReadNet
    requires { room ≤ MOST_OPEN }
    ensures { GivesForm result (NetForm.Binary form) text.now room at }
{
    let ((g, h), end) = last_two_at(alloc, text, at, room)?;
    Ok((form.of(alloc, g, h)?, end))
}

/// Three networks, and the end of the form.
#[cycle(network)]
fn k_switch_at(alloc: Global, text: &Text<'_>, at: usize, room: usize) -> ReadNet
    requires { room ≤ MOST_OPEN }
    ensures { GivesForm result NetForm.KSwitch text.now room at }
{
    let (g, at) = child_at(alloc, text, at, room)?;
    let ((test, t), end) = last_two_at(alloc, text, at, room)?;
    Ok((Net::KSwitch(g, test, t), end))
}

/// The last expression and network of a form, and the form's end.
#[cycle(network)]
fn last_fed_at(alloc: Global, text: &Text<'_>, at: usize, room: usize) -> Read<(Expr, Child)>
    requires { room ≤ MOST_OPEN }
    ensures { GivesTree
        (λ x. (
          (expression_of x.0.0, map_network expression_of x.0.1),
          x.1,
          from_byte x.1 text.now,
        )) result
        (last_fed_read text.now room at) }
{
    let (c, at) = expr_at(alloc, text.bytes, at, room)?;
    let (c, (g, end)) = both(c, last_child_at(alloc, text, at, room))?;
    Ok(((c, g), end))
}

/// An expression and a network, and the end of the form.
#[cycle(network)]
fn fed_at(alloc: Global, text: &Text<'_>, at: usize, room: usize, form: FedForm) -> ReadNet
    requires { room ≤ MOST_OPEN }
    ensures { GivesForm result (NetForm.Fed form) text.now room at }
{
    let ((c, g), end) = last_fed_at(alloc, text, at, room)?;
    Ok((form.of(c, g), end))
}

/// Members, an expression and a network, and the end of the form.
#[cycle(network)]
fn rp_switch_at(alloc: Global, text: &Text<'_>, at: usize, room: usize) -> ReadNet
    requires { room ≤ MOST_OPEN }
    ensures { GivesForm result NetForm.RpSwitch text.now room at }
{
    let (all, at) = col_at(alloc, text, at, room)?;
    let ((m, t), end) = last_fed_at(alloc, text, at, room)?;
    Ok((Net::RpSwitch(all, m, t), end))
}

/// Members, and the end of the form.
#[cycle(network)]
fn par_at(alloc: Global, text: &Text<'_>, at: usize, room: usize) -> ReadNet
    requires { room ≤ MOST_OPEN }
    ensures { GivesForm result NetForm.Par text.now room at }
{
    let (all, end) = members_at(alloc, text, at, room)?;
    Ok((Net::Par(all), end))
}

/// An expression, members and two networks, and the end of the form.
#[cycle(network)]
fn p_switch_at(alloc: Global, text: &Text<'_>, at: usize, room: usize) -> ReadNet
    requires { room ≤ MOST_OPEN }
    ensures { GivesForm result NetForm.PSwitch text.now room at }
{
    let (r, at) = expr_at(alloc, text.bytes, at, room)?;
    let (r, ((all, test, t), end)) = both(r, last_three_at(alloc, text, at, room))?;
    Ok((Net::PSwitch(r, all, test, t), end))
}

/// Members and the last two networks of a form, and the form's end.
#[cycle(network)]
fn last_three_at(
    alloc: Global,
    text: &Text<'_>,
    at: usize,
    room: usize,
) -> Read<(Members<Expr>, Child, Child)>
    requires { room ≤ MOST_OPEN }
    ensures { GivesTree
        (λ x. (
          (
            map_networks expression_of x.0.0,
            map_network expression_of x.0.1,
            map_network expression_of x.0.2,
          ),
          x.1,
          from_byte x.1 text.now,
        )) result
        (last_three_read text.now room at) }
{
    let (all, at) = col_at(alloc, text, at, room)?;
    let ((g, h), end) = last_two_at(alloc, text, at, room)?;
    Ok(((all, g, h), end))
}

/// `(col f1 .. fn)` at or after byte `at`, with room for so many more parentheses, as members, and
/// the byte behind it.
#[cycle(network)]
fn col_at(alloc: Global, text: &Text<'_>, at: usize, room: usize) -> Read<Members<Expr>>
    requires { room ≤ MOST_OPEN }
    ensures { GivesTree (members_left text.now) result (sort_at members_sort text.now room at) }
{
    match front_at(text.bytes, at, room)? {
        TreeFront::Form(start) => col_form_at(alloc, text, start + 1, room - 1),
        TreeFront::Word(start, _) => Err(ExprTextFault::Syntax { at: start }),
    }
}

/// What stands behind the parenthesis of `(col f1 .. fn)`.
#[cycle(network)]
fn col_form_at(alloc: Global, text: &Text<'_>, at: usize, room: usize) -> Read<Members<Expr>>
    requires { room ≤ MOST_OPEN }
    ensures { GivesTree (members_left text.now) result (form_read members_sort text.now room at) }
{
    let (start, end) = form_head(text.bytes, at, room)?;
    if word_is(&text.bytes[start..end], "col") {
        members_at(alloc, text, end, room)
    } else {
        Err(ExprTextFault::Syntax { at: start })
    }
}

/// Networks up to the end of the form as members, and the form's end.
#[cycle(network)]
fn members_at(alloc: Global, text: &Text<'_>, at: usize, room: usize) -> Read<Members<Expr>>
    requires { room ≤ MOST_OPEN }
    ensures { GivesTree (members_left text.now) result
        (parts_read (places network_sort) networks_of text.now room at) }
{
    let (all, end) = networks_at(alloc, text, at, room)?;
    let members = Members::new(alloc, all)?;
    Ok((members, end))
}

/// Networks up to the end of the form, and the form's end.
#[cycle(network)]
fn networks_at(alloc: Global, text: &Text<'_>, at: usize, room: usize) -> Read<Vec<Net<Expr>>>
    requires { room ≤ MOST_OPEN }
    ensures { GivesTree (λ x. (map tree_of x.0.items, x.1, from_byte x.1 text.now)) result
        (parts_read (places network_sort) (λ fs. fs) text.now room at) }
{
    let mut all = Vec::new(alloc);
    let mut next = at;
    loop {
        if let Some(end) = closing_at(text.bytes, next) {
            return Ok((all, end));
        }
        let (net, behind) = network_at(alloc, text, next, room)?;
        all.push(net)?;
        next = behind;
    }
}
