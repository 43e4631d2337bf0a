// Types of values.

ghost use Rattle.std.specs.Prelude.{◌≡◌, IfOk};
ghost use Rattle.sample_core.specs.TypeView.{type_of};

use crate::memory::Memory;
use std::alloc::Global;
use std::marker::Model;
use std::rc::Rc;

/// A type of values. Copies of it share its parts.
#[cycle(ty)]
#[derive(Drop)]
pub enum Ty {
    /// The one value `unit`.
    Unit,
    /// `true` and `false`.
    Bool,
    /// Signed numbers of 64 bits.
    Int,
    /// Pairs of a value of each type.
    Pair(TyChild, TyChild),
    /// No event, or an event that carries a value.
    Event(TyChild),
    /// Lists of any length.
    List(TyChild),
}

/// A type inside a type. Contracts see it as the type's tree; copies share it.
#[cycle(ty)]
#[derive(Drop)]
pub struct TyChild {
    inner: Rc<Ty>,
}

impl Model for TyChild {
    ghost use Rattle.sample_core.specs.TypeTree.{TypeTree, nodes_of};
    ghost use Rattle.sample_core.specs.TypeCode.{type_code};

    ghost Value = { TypeTree };

    ghost coded = { type_code };

    ghost use Rattle.sample_core.specs.TypeView.{type_of};

    ghost view = { λ a. type_of a.inner.value };

    ghost size = { nodes_of };

    ghost use Rattle.std.proofs.Common.{arith};

    ghost size_decreases = { λ a h. Prim.grind arith };
}

impl TyChild {
    /// The type as a part of another. `Memory` if allocation fails.
    pub fn new(alloc: Global, ty: Ty) -> Result<TyChild, Memory>
        ensures { IfOk result (λ c. c ≡ type_of ty) }
    {
        let inner = Rc::new(alloc, ty)?;
        Ok(TyChild { inner })
    }

    /// The type itself.
    pub fn get(&self) -> &Ty
        ensures { type_of result.now ≡ self.now }
    {
        &self.inner
    }

    /// This type, shared. It takes no memory; `Memory` only if a count of references is full.
    pub fn try_copy(&self) -> Result<TyChild, Memory>
        ensures { IfOk result (λ c. c ≡ self.now) }
    {
        let inner = self.inner.clone()?;
        Ok(TyChild { inner })
    }
}

impl Ty {
    /// A copy, whose parts are shared with it. It takes no memory; `Memory` only if a count of
    /// references is full.
    pub fn try_copy(&self, _alloc: Global) -> Result<Ty, Memory>
        ensures { IfOk result (λ t. t ≡ self.now) }
    {
        match self {
            Ty::Unit => Ok(Ty::Unit),
            Ty::Bool => Ok(Ty::Bool),
            Ty::Int => Ok(Ty::Int),
            Ty::Pair(a, b) => {
                let a = a.try_copy()?;
                let b = b.try_copy()?;
                Ok(Ty::Pair(a, b))
            }
            Ty::Event(a) => {
                let a = a.try_copy()?;
                Ok(Ty::Event(a))
            }
            Ty::List(a) => {
                let a = a.try_copy()?;
                Ok(Ty::List(a))
            }
        }
    }
}

/// Copies of the types, in order. `Memory` if allocation fails.
pub fn try_copy_types(alloc: Global, types: &[Ty]) -> Result<Vec<Ty>, Memory>
    ensures { IfOk result (λ copies. copies.items ≡ types.now) }
{
    let mut copies = Vec::with_capacity(alloc, types.len())?;
    for ty in types {
        let copy = ty.try_copy(alloc)?;
        copies.push(copy)?;
    }
    Ok(copies)
}
