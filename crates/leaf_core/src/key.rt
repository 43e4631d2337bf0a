// What a stored closure is found by.

ghost use Rattle.std.specs.Prelude.{◌≡◌, ◌↔◌, IsTrue, IfOk};

use crate::equal::same_expr;
use crate::expr::Expr;
use crate::feed::{feed_expr, feed_type};
use sample_core::{Memory, Ty, same_type, try_copy_types};
use std::alloc::Global;
use std::hash::{Hash, Hasher};
use std::marker::Model;

/// What a stored closure is found by: an expression and the types that it is used at. Two keys are
/// equal where the expressions and all types are. Contracts see a key as the record of their
/// trees.
#[derive(Drop)]
pub struct LeafKey {
    /// The expression.
    pub expr: Expr,
    /// The types of the parameters in scope, the outermost first; parameter k has the one at k.
    pub params: Vec<Ty>,
    /// The type of the input.
    pub input: Ty,
}

impl Model for LeafKey {
    ghost use Rattle.std.specs.Prelude.{map};
    ghost use Rattle.sample_core.specs.TypeView.{type_of};
    ghost use Rattle.leaf_core.specs.KeyTree.{KeyTree, key_code};
    ghost use Rattle.leaf_core.specs.ExpressionView.{expression_of};

    ghost Value = { KeyTree };

    ghost coded = { key_code };

    ghost view = { λ k. record {
      expr = expression_of k.expr;
      params = map type_of k.params.items;
      input = type_of k.input;
    } };
}

impl LeafKey {
    /// A copy, whose trees are shared with it. `Memory` if allocation fails.
    pub fn try_copy(&self, alloc: Global) -> Result<LeafKey, Memory>
        ensures { IfOk result (λ k. k ≡ self.now) }
    {
        let params = try_copy_types(alloc, &self.params)?;
        let input = self.input.try_copy(alloc)?;
        match self.expr.try_copy(alloc) {
            Ok(expr) => Ok(LeafKey {
                expr,
                params,
                input,
            }),
            Err(fault) => {
                drop(input);
                Err(fault)
            }
        }
    }

    /// Whether the two keys are equal.
    fn same(&self, other: &LeafKey) -> bool
        ensures { IsTrue result ↔ self.now ≡ other.now }
    {
        if !same_expr(&self.expr, &other.expr) || !same_type(&self.input, &other.input) {
            return false;
        }
        if self.params.len() != other.params.len() {
            return false;
        }
        for i in 0..self.params.len() {
            if !same_type(&self.params[i], &other.params[i]) {
                return false;
            }
        }
        true
    }
}

impl PartialEq for LeafKey {
    ghost use Rattle.leaf_core.specs.KeyTree.{key_code};
    ghost use Rattle.leaf_core.specs.EqualityByCode.{same_by, same_by_partial_laws};

    ghost eq = { same_by key_code };

    ghost laws = { same_by_partial_laws key_code };

    fn eq(&self, other: &LeafKey) -> bool {
        self.same(other)
    }
}

impl Eq for LeafKey {
    ghost use Rattle.leaf_core.specs.KeyTree.{key_code};
    ghost use Rattle.leaf_core.specs.EqualityByCode.{same_by_laws};

    ghost laws = { same_by_laws key_code };
}

impl Hash for LeafKey {
    ghost use Rattle.leaf_core.specs.HashWrites.{key_writes};
    ghost use Rattle.leaf_core.specs.KeyTree.{key_code};
    ghost use Rattle.leaf_core.specs.EqualityByCode.{same_by_respects};

    ghost hash_input = { key_writes };

    ghost respects_eq = { same_by_respects key_code key_writes };

    fn hash<H: Hasher>(&self, state: &mut H) {
        feed_expr(&self.expr, state);
        for ty in &self.params {
            feed_type(ty, state);
        }
        feed_type(&self.input, state);
    }
}
