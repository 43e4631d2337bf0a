// Whether there is something of the second version in a network, and the word that a version is.

ghost use Rattle.std.specs.Prelude.{◌≡◌};
ghost use Rattle.leaf_core.specs.ExpressionView.{expression_of};
ghost use Rattle.net_tree.specs.{Network.map_networks, NetworkView.tree_of};
ghost use Rattle.net_text.specs.Printing as printing;

use leaf_expr::Expr;
use net_tree::{Members, Net};

/// Whether a form of the second version is in the network.
#[cycle(is_new)]
pub(crate) fn is_new(net: &Net<Expr>) -> bool
    ensures { result ≡ printing.is_new (tree_of net.now) }
{
    match net {
        Net::InitialOut(..) | Net::InitialIn(..) | Net::DrSwitch(..) | Net::RpSwitch(..) => true,
        Net::First(f) | Net::LoopPre(_, f) => is_new(f.get()),
        Net::Seq(f, g) | Net::Switch(f, g) | Net::DSwitch(f, g) | Net::RSwitch(f, g) => {
            is_new(f.get()) || is_new(g.get())
        }
        Net::KSwitch(f, e, t) => is_new(f.get()) || is_new(e.get()) || is_new(t.get()),
        Net::Par(all) => are_new(all),
        Net::PSwitch(_, all, e, t) => are_new(all) || is_new(e.get()) || is_new(t.get()),
        Net::Arr(_) | Net::IPre(_) | Net::Delay(..) | Net::Hold(_) | Net::AccumBy(..) => false,
        Net::After(..) | Net::Repeatedly(..) | Net::Time | Net::Integral | Net::Old(_) => false,
    }
}

/// Whether a form of the second version is in one of the members.
#[cycle(is_new)]
fn are_new(all: &Members<Expr>) -> bool
    ensures { result ≡ printing.are_new (map_networks expression_of all.now) }
{
    for net in all.as_slice() {
        if is_new(net) {
            return true;
        }
    }
    false
}

/// The word that is the version of a file, by whether there is something new in it.
pub(crate) fn version_word(new: bool) -> &'static str
    ensures { result.now ≡ printing.version_word (printing.version_by new) }
{
    if new { "2" } else { "1" }
}
