// Networks that are bound to a table.

ghost use Rattle.std.specs.Prelude.{◌≡◌};
ghost use Rattle.sample_core.specs.TypeView.{type_of};
ghost use Rattle.state_core.specs.RowsView.{rows_in};

use leaf_table::LeafId;
use net_tree::Net;
use sample_core::Ty;
use std::marker::Model;

/// A network whose expressions are rows of a table, with its input type. `bind` makes it.
#[derive(Drop)]
pub struct Bound {
    pub(crate) input: Ty,
    pub(crate) net: Net<LeafId>,
}

impl Model for Bound {
    ghost use Rattle.step_core.specs.Binding.{Binding, binding_code};

    ghost Value = { Binding };

    ghost coded = { binding_code };

    ghost use Rattle.sample_core.specs.TypeView.{type_of};
    ghost use Rattle.state_core.specs.RowsView.{rows_in};

    ghost view = { λ b. record { input = type_of b.input; rows = rows_in b.net } };
}

impl Bound {
    /// The type of each sample that the network gets.
    pub fn input(&self) -> &Ty
        ensures { type_of result.now ≡ self.now.input }
    {
        &self.input
    }

    /// The network over the numbers of rows.
    pub(crate) fn net(&self) -> &Net<LeafId>
        ensures { rows_in result.now ≡ self.now.rows }
    {
        &self.net
    }
}
