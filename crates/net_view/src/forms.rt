// The words of forms.

ghost use Rattle.std.specs.Prelude.{◌≡◌, string_bytes};
ghost use Rattle.sample_core.specs.Adding.{Adds};
ghost use Rattle.leaf_core.specs.ExpressionView.{expression_of};
ghost use Rattle.leaf_expr.specs.Printing.{expression_sexpr};
ghost use Rattle.net_tree.specs.{LawStep.part_of, NetworkView.tree_of};
ghost use Rattle.net_text.specs.Printing.{network_sexpr};
ghost use Rattle.net_view.specs.Texts.{first_word, tree_word};

use leaf_core::Expr;
use leaf_expr::push_expr;
use net_tree::{Net, Tree};
use sample_core::{Memory, push_word};

/// Adds the word of the tree's form; of a literal its own text.
pub(crate) fn push_form(text: &mut String, tree: &Tree) -> Result<(), Memory>
    ensures { Adds result (string_bytes text.old) (string_bytes text.new)
        (tree_word (part_of tree.now)) }
{
    match tree {
        Tree::Net(net) => push_word(text, net_word(net)),
        Tree::Expr(expr) => push_expr_word(text, expr),
    }
}

/// The word of the network's form.
fn net_word(net: &Net<Expr>) -> &'static str
    ensures { result.now ≡ first_word (network_sexpr (tree_of net.now)) }
{
    match net {
        Net::Arr(_) => "arr",
        Net::Seq(..) => ">>>",
        Net::First(_) => "first",
        Net::Par(_) => "parB",
        Net::LoopPre(..) => "loopPre",
        Net::InitialOut(..) => "-->",
        Net::InitialIn(..) => ">--",
        Net::IPre(_) => "iPre",
        Net::Delay(..) => "delay",
        Net::Hold(_) => "hold",
        Net::AccumBy(..) => "accumBy",
        Net::After(..) => "after",
        Net::Repeatedly(..) => "repeatedly",
        Net::Time => "time",
        Net::Integral => "integral",
        Net::Switch(..) => "switch",
        Net::DSwitch(..) => "dSwitch",
        Net::RSwitch(..) => "rSwitch",
        Net::DrSwitch(..) => "drSwitch",
        Net::RpSwitch(..) => "rpSwitchB",
        Net::KSwitch(..) => "kSwitch",
        Net::PSwitch(..) => "pSwitch",
        Net::Old(_) => "old",
    }
}

/// Adds the word of the expression's form; of a literal its own text.
fn push_expr_word(text: &mut String, expr: &Expr) -> Result<(), Memory>
    ensures { Adds result (string_bytes text.old) (string_bytes text.new)
        (first_word (expression_sexpr (expression_of expr.now))) }
{
    match expr {
        Expr::Literal(_) => push_expr(text, expr),
        Expr::Input => push_word(text, "x"),
        Expr::Param(_) => push_word(text, "p"),
        Expr::Pair(..) => push_word(text, "pair"),
        Expr::Fst(_) => push_word(text, "fst"),
        Expr::Snd(_) => push_word(text, "snd"),
        Expr::Then(..) => push_word(text, "then"),
        Expr::Neg(_) => push_word(text, "neg"),
        Expr::Add(..) => push_word(text, "add"),
        Expr::Sub(..) => push_word(text, "sub"),
        Expr::Mul(..) => push_word(text, "mul"),
        Expr::Less(..) => push_word(text, "less"),
        Expr::Equal(..) => push_word(text, "equal"),
        Expr::Not(_) => push_word(text, "not"),
        Expr::And(..) => push_word(text, "and"),
        Expr::Or(..) => push_word(text, "or"),
        Expr::If(..) => push_word(text, "if"),
        Expr::NoEvent(_) => push_word(text, "none"),
        Expr::Event(_) => push_word(text, "event"),
        Expr::On(..) => push_word(text, "on"),
        Expr::List(..) => push_word(text, "list"),
        Expr::Nth(..) => push_word(text, "nth"),
        Expr::Len(_) => push_word(text, "len"),
    }
}
