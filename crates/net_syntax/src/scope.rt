// The types of what is in scope: parameters, and networks that were frozen.

ghost use Rattle.std.specs.Prelude.{◌≡◌, ◌++◌, IfOk, OnOk, map};
ghost use Rattle.sample_core.specs.TypeView.{type_of};
ghost use Rattle.net_syntax.specs.{ArrowView.arrow_of};
ghost use Rattle.net_meaning.specs.Typing.{copies};
ghost use Rattle.net_syntax.specs.Scopes.{and_olds, and_param, empty};

use crate::arrow::Arrow;
use sample_core::{Memory, Ty, try_copy_types};
use std::alloc::Global;
use std::marker::Model;

/// The types of the parameters and of the frozen networks in scope, the outermost first.
#[derive(Drop)]
pub struct ScopeTypes {
    params: Vec<Ty>,
    olds: Vec<Arrow>,
}

impl Model for ScopeTypes {
    ghost use Rattle.std.specs.Prelude.{map};
    ghost use Rattle.net_syntax.specs.Scopes.{InScope, in_scope_code};

    ghost Value = { InScope };

    ghost coded = { in_scope_code };

    ghost use Rattle.sample_core.specs.TypeView.{type_of};
    ghost use Rattle.net_syntax.specs.ArrowView.{arrow_of};

    ghost view = { λ a. record {
      params = map type_of a.params.items;
      olds = map arrow_of a.olds.items;
    } };
}

impl ScopeTypes {
    /// Nothing in scope.
    pub fn new(alloc: Global) -> ScopeTypes
        ensures { result ≡ empty }
    {
        ScopeTypes {
            params: Vec::new(alloc),
            olds: Vec::new(alloc),
        }
    }

    /// The types of the parameters.
    pub fn params(&self) -> &[Ty]
        ensures { map type_of result.now ≡ self.now.params }
    {
        &self.params
    }

    /// The types of the frozen networks.
    pub fn olds(&self) -> &[Arrow]
        ensures { map arrow_of result.now ≡ self.now.olds }
    {
        &self.olds
    }

    /// A copy, whose parts are shared with it. `Memory` if allocation fails.
    pub fn try_copy(&self, alloc: Global) -> Result<ScopeTypes, Memory>
        ensures { IfOk result (λ s. s ≡ self.now) }
    {
        let params = try_copy_types(alloc, &self.params)?;
        let olds = copied_olds(alloc, &self.olds)?;
        Ok(ScopeTypes { params, olds })
    }

    /// The scope with one more parameter, of the type. `Memory` if allocation fails.
    pub fn and_param(&self, alloc: Global, param: &Ty) -> Result<ScopeTypes, Memory>
        ensures { IfOk result (λ s. s ≡ and_param self.now (type_of param.now)) }
    {
        let mut inner = self.try_copy(alloc)?;
        let param = param.try_copy(alloc)?;
        inner.push_param(param)?;
        Ok(inner)
    }

    /// Adds a parameter of the type. `Memory` if allocation fails.
    pub fn push_param(&mut self, param: Ty) -> Result<(), Memory>
        ensures { OnOk result (self.new ≡ and_param self.old (type_of param)) }
    {
        self.params.push(param)?;
        Ok(())
    }

    /// Adds frozen networks of the types, `count` of them. `Memory` if allocation fails.
    pub fn add_olds(&mut self, alloc: Global, count: u32, types: &Arrow) -> Result<(), Memory>
        ensures { OnOk result (self.new ≡ and_olds self.old count (arrow_of types.now)) }
    {
        add_copies(alloc, &mut self.olds, count, types)
    }
}

/// Copies of the types, in order.
fn copied_olds(alloc: Global, olds: &[Arrow]) -> Result<Vec<Arrow>, Memory>
    ensures { IfOk result (λ copied. copied.items ≡ olds.now) }
{
    let mut copied = Vec::with_capacity(alloc, olds.len())?;
    for old in olds {
        let copy = old.try_copy(alloc)?;
        copied.push(copy)?;
    }
    Ok(copied)
}

/// Adds copies of the types, `count` of them.
fn add_copies(alloc: Global, olds: &mut Vec<Arrow>, count: u32, types: &Arrow) -> Result<(), Memory>
    ensures { OnOk result (map arrow_of olds.new.items
        ≡ map arrow_of olds.old.items ++ copies count (arrow_of types.now)) }
{
    for _ in 0..count {
        let copy = types.try_copy(alloc)?;
        olds.push(copy)?;
    }
    Ok(())
}
