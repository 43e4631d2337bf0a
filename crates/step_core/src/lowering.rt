// Networks with rows in place of their expressions.

ghost use Rattle.std.specs.Prelude.{◌≡◌, ◌≢◌, [], IfOk, None, Some, map, zero};
ghost use Rattle.leaf_core.specs.{Expression.input, ExpressionView.expression_of};
ghost use Rattle.net_tree.specs.Network.{first, par, accum_by, k_switch, p_switch, rp_switch, map_network, map_networks};
ghost use Rattle.net_tree.specs.FormView.{fed_tree};
ghost use Rattle.net_tree.specs.NetworkView.{members_of, tree_of};
ghost use Rattle.state_core.specs.RowsView.{row_number, rows_in};
ghost use Rattle.step_core.specs.Lowering.{AddsMembers, fill, fill_leaf, fill_members, fill_pair, fill_routed, leaf_tree, pair_tree};

use leaf_core::Expr;
use leaf_table::LeafId;
use net_tree::{FedForm, LeafForm, Members, Net, NetChild, PairForm};
use sample_core::Memory;
use std::alloc::Global;

/// The network with the first of the rows in place of its expressions, and the rows behind these.
/// There must be enough of them. `Memory` if allocation fails.
#[cycle(lower)]
pub(crate) fn lower<'a>(
    alloc: Global,
    net: &Net<Expr>,
    rows: &'a [LeafId],
) -> Result<(Net<LeafId>, &'a [LeafId]), Memory>
    requires { fill (tree_of net.now) (map row_number rows.now) ≢ None }
    ensures { IfOk result (λ r. fill (tree_of net.now) (map row_number rows.now)
        ≡ Some (rows_in r.0, map row_number r.1.now)) }
{
    match net {
        Net::Arr(_) => Ok(lower_leaf(LeafForm::Arr, rows)),
        Net::IPre(_) => Ok(lower_leaf(LeafForm::IPre, rows)),
        Net::Delay(q, _) => Ok(lower_leaf(LeafForm::Delay(*q), rows)),
        Net::Hold(_) => Ok(lower_leaf(LeafForm::Hold, rows)),
        Net::After(q, _) => Ok(lower_leaf(LeafForm::After(*q), rows)),
        Net::Repeatedly(q, _) => Ok(lower_leaf(LeafForm::Repeatedly(*q), rows)),
        Net::AccumBy(_, _) => Ok(lower_accum(rows)),
        Net::Time => Ok((Net::Time, rows)),
        Net::Integral => Ok((Net::Integral, rows)),
        Net::Old(k) => Ok((Net::Old(*k), rows)),
        Net::First(f) => lower_first(alloc, f, rows),
        Net::Par(fs) => lower_par(alloc, fs, rows),
        Net::LoopPre(_, f) => lower_fed(alloc, FedForm::LoopPre, f, rows),
        Net::InitialOut(_, f) => lower_fed(alloc, FedForm::InitialOut, f, rows),
        Net::InitialIn(_, f) => lower_fed(alloc, FedForm::InitialIn, f, rows),
        Net::Seq(f, g) => lower_pair(alloc, PairForm::Seq, f, g, rows),
        Net::Switch(f, t) => lower_pair(alloc, PairForm::Switch, f, t, rows),
        Net::DSwitch(f, t) => lower_pair(alloc, PairForm::DSwitch, f, t, rows),
        Net::RSwitch(f, t) => lower_pair(alloc, PairForm::RSwitch, f, t, rows),
        Net::DrSwitch(f, t) => lower_pair(alloc, PairForm::DrSwitch, f, t, rows),
        Net::KSwitch(f, e, t) => lower_freeze(alloc, f, e, t, rows),
        Net::PSwitch(_, fs, e, t) => lower_routed(alloc, fs, e, t, rows),
        Net::RpSwitch(fs, _, t) => lower_collection(alloc, fs, t, rows),
    }
}

/// The first row, and those behind it. There must be one.
fn first_row<'a>(rows: &'a [LeafId]) -> (LeafId, &'a [LeafId])
    requires { fill_leaf (map row_number rows.now) ≢ None }
    ensures { fill_leaf (map row_number rows.now)
        ≡ Some (row_number result.0, map row_number result.1.now) }
{
    match rows.split_first() {
        Some((row, rest)) => (*row, rest),
        None => unreachable!(),
    }
}

/// A form of one leaf.
fn lower_leaf<'a>(form: LeafForm, rows: &'a [LeafId]) -> (Net<LeafId>, &'a [LeafId])
    requires { fill_leaf (map row_number rows.now) ≢ None }
    ensures { fill (leaf_tree form zero) (map row_number rows.now)
        ≡ Some (rows_in result.0, map row_number result.1.now) }
{
    let (row, rest) = first_row(rows);
    (form.of(row), rest)
}

/// An `accumBy`.
fn lower_accum<'a>(rows: &'a [LeafId]) -> (Net<LeafId>, &'a [LeafId])
    requires { fill (accum_by zero zero) (map row_number rows.now) ≢ None }
    ensures { fill (accum_by zero zero) (map row_number rows.now)
        ≡ Some (rows_in result.0, map row_number result.1.now) }
{
    let (next, rest) = first_row(rows);
    let (start, rest) = first_row(rest);
    (Net::AccumBy(next, start), rest)
}

/// A network inside a network.
#[cycle(lower)]
fn lower_child<'a>(
    alloc: Global,
    f: &NetChild<Expr>,
    rows: &'a [LeafId],
) -> Result<(NetChild<LeafId>, &'a [LeafId]), Memory>
    requires { fill (map_network expression_of f.now) (map row_number rows.now) ≢ None }
    ensures { IfOk result (λ r. fill (map_network expression_of f.now)
        (map row_number rows.now)
        ≡ Some (map_network row_number r.0, map row_number r.1.now)) }
{
    let (net, rest) = lower(alloc, f.get(), rows)?;
    let child = NetChild::new(alloc, net)?;
    Ok((child, rest))
}

/// A `first`.
#[cycle(lower)]
fn lower_first<'a>(
    alloc: Global,
    f: &NetChild<Expr>,
    rows: &'a [LeafId],
) -> Result<(Net<LeafId>, &'a [LeafId]), Memory>
    requires { fill (first (map_network expression_of f.now)) (map row_number rows.now)
        ≢ None }
    ensures { IfOk result (λ r. fill (first (map_network expression_of f.now))
        (map row_number rows.now) ≡ Some (rows_in r.0, map row_number r.1.now)) }
{
    let (f, rest) = lower_child(alloc, f, rows)?;
    Ok((Net::First(f), rest))
}

/// A form of an expression and a network.
#[cycle(lower)]
fn lower_fed<'a>(
    alloc: Global,
    form: FedForm,
    f: &NetChild<Expr>,
    rows: &'a [LeafId],
) -> Result<(Net<LeafId>, &'a [LeafId]), Memory>
    requires { fill (fed_tree form input (map_network expression_of f.now))
        (map row_number rows.now) ≢ None }
    ensures { IfOk result (λ r. fill (fed_tree form input (map_network expression_of f.now))
        (map row_number rows.now) ≡ Some (rows_in r.0, map row_number r.1.now)) }
{
    let (start, rest) = first_row(rows);
    let (f, rest) = lower_child(alloc, f, rest)?;
    Ok((form.of(start, f), rest))
}

/// A form of two networks.
#[cycle(lower)]
fn lower_pair<'a>(
    alloc: Global,
    form: PairForm,
    f: &NetChild<Expr>,
    g: &NetChild<Expr>,
    rows: &'a [LeafId],
) -> Result<(Net<LeafId>, &'a [LeafId]), Memory>
    requires { fill (pair_tree form (map_network expression_of f.now)
        (map_network expression_of g.now)) (map row_number rows.now) ≢ None }
    ensures { IfOk result (λ r. fill (pair_tree form (map_network expression_of f.now)
        (map_network expression_of g.now)) (map row_number rows.now)
        ≡ Some (rows_in r.0, map row_number r.1.now)) }
{
    let (f, g, rest) = lower_two(alloc, f, g, rows)?;
    Ok((form.of(f, g), rest))
}

/// Two networks.
#[cycle(lower)]
fn lower_two<'a>(
    alloc: Global,
    f: &NetChild<Expr>,
    g: &NetChild<Expr>,
    rows: &'a [LeafId],
) -> Result<(NetChild<LeafId>, NetChild<LeafId>, &'a [LeafId]), Memory>
    requires { fill_pair (map_network expression_of f.now) (map_network expression_of g.now)
        (map row_number rows.now) ≢ None }
    ensures { IfOk result (λ r. fill_pair (map_network expression_of f.now)
        (map_network expression_of g.now) (map row_number rows.now)
        ≡ Some (
          (map_network row_number r.0, map_network row_number r.1),
          map row_number r.2.now,
        )) }
{
    let (f, rest) = lower_child(alloc, f, rows)?;
    match lower_child(alloc, g, rest) {
        Ok((g, rest)) => Ok((f, g, rest)),
        Err(refused) => {
            drop(f);
            Err(refused)
        }
    }
}

/// A `kSwitch`.
#[cycle(lower)]
fn lower_freeze<'a>(
    alloc: Global,
    f: &NetChild<Expr>,
    e: &NetChild<Expr>,
    t: &NetChild<Expr>,
    rows: &'a [LeafId],
) -> Result<(Net<LeafId>, &'a [LeafId]), Memory>
    requires { fill (k_switch (map_network expression_of f.now) (map_network expression_of e.now)
        (map_network expression_of t.now)) (map row_number rows.now) ≢ None }
    ensures { IfOk result (λ r. fill
        (k_switch (map_network expression_of f.now) (map_network expression_of e.now)
        (map_network expression_of t.now)) (map row_number rows.now)
        ≡ Some (rows_in r.0, map row_number r.1.now)) }
{
    let (f, rest) = lower_child(alloc, f, rows)?;
    match lower_two(alloc, e, t, rest) {
        Ok((e, t, rest)) => Ok((Net::KSwitch(f, e, t), rest)),
        Err(refused) => {
            drop(f);
            Err(refused)
        }
    }
}

/// A `parB`.
#[cycle(lower)]
fn lower_par<'a>(
    alloc: Global,
    fs: &Members<Expr>,
    rows: &'a [LeafId],
) -> Result<(Net<LeafId>, &'a [LeafId]), Memory>
    requires { fill (par (map_networks expression_of fs.now)) (map row_number rows.now)
        ≢ None }
    ensures { IfOk result (λ r. fill (par (map_networks expression_of fs.now))
        (map row_number rows.now) ≡ Some (rows_in r.0, map row_number r.1.now)) }
{
    let (fs, rest) = lower_all(alloc, fs, rows)?;
    Ok((Net::Par(fs), rest))
}

/// Members.
#[cycle(lower)]
fn lower_all<'a>(
    alloc: Global,
    fs: &Members<Expr>,
    rows: &'a [LeafId],
) -> Result<(Members<LeafId>, &'a [LeafId]), Memory>
    requires { fill_members (map_networks expression_of fs.now) (map row_number rows.now)
        ≢ None }
    ensures { IfOk result (λ r. fill_members (map_networks expression_of fs.now)
        (map row_number rows.now)
        ≡ Some (map_networks row_number r.0, map row_number r.1.now)) }
{
    let mut all = Vec::new(alloc);
    let rest = lower_members(alloc, fs.as_slice(), rows, &mut all)?;
    let all = Members::new(alloc, all)?;
    Ok((all, rest))
}

/// Adds members.
#[cycle(lower)]
fn lower_members<'a>(
    alloc: Global,
    fs: &[Net<Expr>],
    rows: &'a [LeafId],
    all: &mut Vec<Net<LeafId>>,
) -> Result<&'a [LeafId], Memory>
    requires { fill_members (map_networks expression_of (members_of fs.now))
        (map row_number rows.now) ≢ None }
    ensures { IfOk result (λ rest. AddsMembers
        (fill_members (map_networks expression_of (members_of fs.now))
        (map row_number rows.now)) (map rows_in all.old.items) (map rows_in all.new.items)
        (map row_number rest.now)) }
{
    match fs.split_first() {
        Some((f, others)) => {
            let (net, rest) = lower(alloc, f, rows)?;
            all.push(net)?;
            lower_members(alloc, others, rest, all)
        }
        None => Ok(rows),
    }
}

/// A `pSwitch`.
#[cycle(lower)]
fn lower_routed<'a>(
    alloc: Global,
    fs: &Members<Expr>,
    e: &NetChild<Expr>,
    t: &NetChild<Expr>,
    rows: &'a [LeafId],
) -> Result<(Net<LeafId>, &'a [LeafId]), Memory>
    requires { fill (p_switch input (map_networks expression_of fs.now)
        (map_network expression_of e.now) (map_network expression_of t.now))
        (map row_number rows.now) ≢ None }
    ensures { IfOk result (λ r. fill (p_switch input
        (map_networks expression_of fs.now) (map_network expression_of e.now)
        (map_network expression_of t.now)) (map row_number rows.now)
        ≡ Some (rows_in r.0, map row_number r.1.now)) }
{
    let (route, rest) = first_row(rows);
    lower_behind_route(alloc, route, fs, e, t, rest)
}

/// A `pSwitch` behind its route.
#[cycle(lower)]
fn lower_behind_route<'a>(
    alloc: Global,
    route: LeafId,
    fs: &Members<Expr>,
    e: &NetChild<Expr>,
    t: &NetChild<Expr>,
    rows: &'a [LeafId],
) -> Result<(Net<LeafId>, &'a [LeafId]), Memory>
    requires { fill_routed (row_number route) (map_networks expression_of fs.now)
        (map_network expression_of e.now) (map_network expression_of t.now)
        (map row_number rows.now) ≢ None }
    ensures { IfOk result (λ r. fill_routed (row_number route)
        (map_networks expression_of fs.now) (map_network expression_of e.now)
        (map_network expression_of t.now) (map row_number rows.now)
        ≡ Some (rows_in r.0, map row_number r.1.now)) }
{
    let (fs, rest) = lower_all(alloc, fs, rows)?;
    match lower_two(alloc, e, t, rest) {
        Ok((e, t, rest)) => Ok((Net::PSwitch(route, fs, e, t), rest)),
        Err(refused) => {
            drop(fs);
            Err(refused)
        }
    }
}

/// An `rpSwitchB`.
#[cycle(lower)]
fn lower_collection<'a>(
    alloc: Global,
    fs: &Members<Expr>,
    t: &NetChild<Expr>,
    rows: &'a [LeafId],
) -> Result<(Net<LeafId>, &'a [LeafId]), Memory>
    requires { fill (rp_switch (map_networks expression_of fs.now) input
        (map_network expression_of t.now)) (map row_number rows.now) ≢ None }
    ensures { IfOk result (λ r. fill (rp_switch (map_networks expression_of fs.now) input
        (map_network expression_of t.now)) (map row_number rows.now)
        ≡ Some (rows_in r.0, map row_number r.1.now)) }
{
    let (fs, rest) = lower_all(alloc, fs, rows)?;
    let (choice, rest) = first_row(rest);
    match lower_child(alloc, t, rest) {
        Ok((t, rest)) => Ok((Net::RpSwitch(fs, choice, t), rest)),
        Err(refused) => {
            drop(fs);
            Err(refused)
        }
    }
}
