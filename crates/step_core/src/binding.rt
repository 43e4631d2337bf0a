// Binding a network to a table.

ghost use Rattle.std.specs.Prelude.{◌≡◌, IfOk, IfErr, OnOk, map};
ghost use Rattle.leaf_table.specs.Rows.{rows_of};
ghost use Rattle.net_syntax.specs.{NeedView.need_of, Leaves.LeavesOf};
ghost use Rattle.state_core.specs.RowsView.{row_number};
ghost use Rattle.step_core.specs.{Binding.FitsTable, RowTyping.network_by};
ghost use Rattle.step_core.specs.Lookup.{AddsRows, FindsAll, Misses, MissesIn, Names};

use crate::bound::Bound;
use crate::fault::BindFault;
use crate::lowering::lower;
use leaf_table::{LeafId, LeafTable};
use net_syntax::{LeafNeed, TypedNet, leaves};
use net_tree::Position;
use sample_core::Memory;
use std::alloc::Global;

/// The network with a row of the table in place of each expression. `MissingLeaf` where an
/// expression has no row, at the first such from the root on.
pub fn bind(alloc: Global, net: &TypedNet, table: &LeafTable) -> Result<Bound, BindFault>
    ensures input { IfOk result (λ b. b.input ≡ net.now.input) }
    ensures network { IfOk result (λ b. network_by (rows_of table.now) b.rows ≡ net.now.net) }
    ensures fits { IfOk result (λ b. FitsTable (rows_of table.now) b) }
    ensures found { OnOk result (FindsAll (rows_of table.now) net.now) }
    ensures missing { IfErr result (λ fault. MissesIn (rows_of table.now) net.now fault) }
{
    let needs = leaves(alloc, net)?;
    let bound = bind_needs(alloc, net, &needs, table);
    drop(needs);
    bound
}

/// What `bind` answers, where the network's `leaves` are known: these needs.
pub fn bind_needs(
    alloc: Global,
    net: &TypedNet,
    needs: &[LeafNeed],
    table: &LeafTable,
) -> Result<Bound, BindFault>
    requires { LeavesOf net.now (map need_of needs.now) }
    ensures input { IfOk result (λ b. b.input ≡ net.now.input) }
    ensures network { IfOk result (λ b. network_by (rows_of table.now) b.rows ≡ net.now.net) }
    ensures fits { IfOk result (λ b. FitsTable (rows_of table.now) b) }
    ensures found { OnOk result (FindsAll (rows_of table.now) net.now) }
    ensures missing { IfErr result (λ fault. MissesIn (rows_of table.now) net.now fault) }
{
    let mut rows = Vec::new(alloc);
    add_rows(alloc, table, needs, &mut rows)?;
    let input = net.input().try_copy(alloc)?;
    let (lowered, _) = lower(alloc, net.net(), &rows)?;
    Ok(Bound {
        input,
        net: lowered,
    })
}

/// Adds the rows of the needs. `MissingLeaf` at the first need that has no row.
fn add_rows(
    alloc: Global,
    table: &LeafTable,
    needs: &[LeafNeed],
    rows: &mut Vec<LeafId>,
) -> Result<(), BindFault>
    ensures found { OnOk result (AddsRows (rows_of table.now) (map need_of needs.now)
        (map row_number rows.old.items) (map row_number rows.new.items)) }
    ensures missing { IfErr result (Misses (rows_of table.now) (map need_of needs.now)) }
{
    let mut left = needs;
    while let Some((need, rest)) = left.split_first() {
        match table.find(&need.key) {
            Some(row) => rows.push(row)?,
            None => return Err(missing(alloc, &need.position)),
        }
        left = rest;
    }
    Ok(())
}

/// The refusal for an expression that has no row.
fn missing(alloc: Global, position: &Position) -> BindFault
    ensures { Names position.now result }
{
    match position.try_copy(alloc) {
        Ok(position) => BindFault::MissingLeaf { position },
        Err(Memory) => BindFault::Memory,
    }
}
