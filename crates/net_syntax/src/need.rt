// What a network needs a stored closure for.

ghost use Rattle.sample_core.specs.TypeView.{type_of};
ghost use Rattle.leaf_core.specs.ExpressionTyping.{ExpressionTyped};

use leaf_core::LeafKey;
use net_tree::Position;
use sample_core::Ty;

/// An expression of a network: where it stands, by what a stored closure for it is found, and its
/// type. Under the key's types it has that type.
#[derive(Drop)]
pub struct LeafNeed {
    /// Where the expression stands, from the root of the network.
    pub position: Position,
    /// The expression, the types of the parameters in scope and the type of its input.
    /// In a constant place the input is `Unit`.
    pub key: LeafKey,
    /// The expression's type.
    pub output: Ty,
    ghost typed: { ∥ ExpressionTyped key.expr key.params key.input (type_of output) ∥₁ },
}
