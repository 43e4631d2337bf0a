// Networks with their types, weight and height.

ghost use Rattle.std.specs.Prelude.{◌≡◌, IfOk};
ghost use Rattle.sample_core.specs.TypeView.{type_of};
ghost use Rattle.net_tree.specs.{NetworkView.tree_of};
ghost use Rattle.net_meaning.specs.{TypedNetwork.HasItsTypes, NetworkLimits.WithinLimits};
ghost use Rattle.net_syntax.specs.TypedNetworkView.{typed_network_of};

use leaf_core::Expr;
use net_tree::Net;
use sample_core::{Memory, Ty};
use std::alloc::Global;
use std::marker::Model;

/// A network within the limits that has an input type and an output type, with no parameters and
/// no frozen networks in scope. It keeps its weight and its height too.
#[derive(Drop)]
pub struct TypedNet {
    input: Ty,
    output: Ty,
    net: Net<Expr>,
    weight: u32,
    height: u32,
}

impl Model for TypedNet {
    ghost use Rattle.net_meaning.specs.TypedNetwork.{TypedNetwork};
    ghost use Rattle.net_syntax.specs.TypedNetworkCode.{typed_network_code};

    ghost Value = { TypedNetwork };

    ghost coded = { typed_network_code };

    ghost use Rattle.net_syntax.specs.TypedNetworkView.{typed_network_of};
    ghost use Rattle.net_meaning.specs.NetworkLimits.{WithinLimits};

    ghost view = { λ a. typed_network_of a.input a.output a.net a.weight a.height };

    ghost invariant = { λ a.
        WithinLimits (typed_network_of a.input a.output a.net a.weight a.height) };
}

impl TypedNet {
    /// The network with its types, its weight and its height. It must have these, all within the
    /// limits.
    pub fn new(input: Ty, output: Ty, net: Net<Expr>, weight: u32, height: u32) -> TypedNet
        requires { WithinLimits (typed_network_of input output net weight height) }
        ensures { result ≡ typed_network_of input output net weight height }
    {
        TypedNet {
            input,
            output,
            net,
            weight,
            height,
        }
    }

    /// A copy, whose parts are shared with it. `Memory` if allocation fails; nothing is kept then.
    pub fn try_copy(&self, alloc: Global) -> Result<TypedNet, Memory>
        ensures { IfOk result (λ t. t ≡ self.now) }
    {
        let input = self.input.try_copy(alloc)?;
        let output = self.output.try_copy(alloc)?;
        let net = self.net.try_copy(alloc)?;
        Ok(TypedNet::new(input, output, net, self.weight, self.height))
    }

    /// The type of each sample that the network gets.
    pub fn input(&self) -> &Ty
        ensures { type_of result.now ≡ self.now.input }
    {
        &self.input
    }

    /// The type of each sample that the network outputs.
    pub fn output(&self) -> &Ty
        ensures { type_of result.now ≡ self.now.output }
    {
        &self.output
    }

    /// The network, which has the types, the weight and the height.
    pub fn net(&self) -> &Net<Expr>
        ensures net { tree_of result.now ≡ self.now.net }
        ensures typed { HasItsTypes self.now }
        ensures limits { WithinLimits self.now }
    {
        &self.net
    }

    /// What the network weighs, at most 1,000,000: its networks, counted more often where they may run
    /// more than once; a resumed network counts 1 more than the one that was frozen.
    pub fn weight(&self) -> u32
        ensures { result ≡ self.now.weight }
    {
        self.weight
    }

    /// How many nodes stand in one another, at most 256; a resumed network stands over the one
    /// that was frozen.
    pub fn height(&self) -> u32
        ensures { result ≡ self.now.height }
    {
        self.height
    }
}
