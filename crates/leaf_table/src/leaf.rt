// A stored closure and what it computes.

ghost use Rattle.std.specs.Prelude.{◌≡◌, IfOk, Ok, map};
ghost use Rattle.sample_core.specs.{ValueView.datum_of, TypeView.type_of};
ghost use Rattle.leaf_core.specs.ExpressionTyping.{ExpressionTyped};
ghost use Rattle.leaf_table.specs.Computes.{Computes};

use leaf_core::LeafKey;
use sample_core::{Sample, Ty};
use std::alloc::AllocError;

/// A closure of the parameters' values, parameter 0 first, and the input. `AllocError` where
/// allocation failed.
pub type Run = Box<dyn Fn(&[Sample], &Sample) -> Result<Sample, AllocError>>;

/// A closure that computes the expression of its key at arguments of the key's types.
#[derive(Drop)]
pub struct Leaf {
    /// The expression, and the types that it is used at.
    pub key: LeafKey,
    /// The type of the expression's values.
    pub output: Ty,
    run: Run,
    ghost callable: { Run.IsAlwaysCallable run },
    ghost computes: { (ps : _) (x : _) (v : _) → Run.post run ps x (Ok v)
        → ∥ Computes key (map datum_of ps.now) (datum_of x.now) (datum_of v) ∥₁ },
    ghost typed: { ∥ ExpressionTyped key.expr key.params key.input (type_of output) ∥₁ },
}

impl Leaf {
    /// The closure as the leaf of a key. The expression must be of the output's type, the closure
    /// callable at all arguments, and what it answers at arguments of the key's types the
    /// expression's value.
    pub fn new(key: LeafKey, output: Ty, run: Run) -> Leaf
        requires typed { ∥ ExpressionTyped key.expr key.params key.input (type_of output) ∥₁ }
        requires callable { Run.IsAlwaysCallable run }
        requires computes { (ps : _) (x : _) (v : _) → Run.post run ps x (Ok v)
            → Computes key (map datum_of ps.now) (datum_of x.now) (datum_of v) }
        ensures key { result.key ≡ key }
        ensures output { result.output ≡ output }
    {
        Leaf { key, output, run }
    }

    /// What the closure answers. At arguments of the key's types it is the value of the key's
    /// expression. `AllocError` where allocation failed.
    #[inline(always)]
    pub(crate) fn call(&self, params: &[Sample], x: &Sample) -> Result<Sample, AllocError>
        ensures { IfOk result
            (λ v. ∥ Computes self.now.key (map datum_of params.now) (datum_of x.now) (datum_of v)
            ∥₁) }
    {
        (self.run)(params, x)
    }
}
