// The types of a program as types of C.

ghost use Rattle.std.specs.Prelude.{◌≡◌, ℕ, IfOk, length, map, Some, slice_get};
ghost use Rattle.sample_core.specs.TypeView.{type_of};
ghost use Rattle.sample_core.specs.TypeTree.{list_ty};
ghost use Rattle.leaf_core.specs.TypeLimits.{same_tree};
ghost use Rattle.leaf_code.specs.CodeOf.{left_type, right_type, carried_type};
ghost use Rattle.code_fits.specs.Tables.{TableHolds, beside, bound_of, entry_tree, tree_at, trees_at};
ghost use Rattle.c_text.specs.Meant.{type_meant, structs_meant};
ghost use Rattle.c_leaf.specs.LeafC.{is_struct};
ghost use Rattle.c_leaf.specs.Representing.{c_type};
ghost use Rattle.c_file.specs.FunctionC.{element_type};
ghost use Rattle.c_build.specs.Types.{Typed};

use crate::same::is_same;
use crate::table::{BYTE, INTEGER, TRUTH, Table};
use crate::unbuilt::Unbuilt;
use c_text::CType;
use code_fits::{TypeEntry, Types};
use sample_core::Ty;
use std::alloc::Global;

/// The types of a program: its table, how long lists of each may be, and the type of C of each.
#[derive(Clone, Copy)]
pub(crate) struct Known<'a> {
    pub(crate) table: Table<'a>,
    pub(crate) types: &'a Types,
    pub(crate) bounds: &'a [usize],
    pub(crate) all: &'a [CType],
}

impl Known<'_> {
    /// The type of C of type k.
    pub(crate) fn ty(self, k: usize) -> Result<CType, Unbuilt>
        ensures { IfOk result (λ T.
            Typed (structs_meant self.entry.table.structs.now) self.entry.types.now self.entry.bounds.now self.entry.all.now
            → type_meant (structs_meant self.entry.table.structs.now) T
            ≡ c_type (bound_of self.entry.types.now self.entry.bounds.now) (tree_at self.entry.types.now k)) }
    {
        match self.all.get(k) {
            Some(ty) => Ok(*ty),
            None => Err(Unbuilt::Missing),
        }
    }

    /// The types of C of types.
    pub(crate) fn tys(self, alloc: Global, ks: &[usize]) -> Result<Vec<CType>, Unbuilt>
        ensures { IfOk result (λ all.
            Typed (structs_meant self.entry.table.structs.now) self.entry.types.now self.entry.bounds.now self.entry.all.now
            → map (type_meant (structs_meant self.entry.table.structs.now)) all.items
            ≡ map (c_type (bound_of self.entry.types.now self.entry.bounds.now)) (trees_at self.entry.types.now ks.now)) }
    {
        let mut all = Vec::with_capacity(alloc, ks.len())?;
        for k in ks {
            all.push(self.ty(*k)?)?;
        }
        Ok(all)
    }

    /// The type of C of an entry, whose parts are known.
    pub(crate) fn entry(self, entry: TypeEntry) -> Result<CType, Unbuilt>
        ensures { IfOk result (λ T.
            Typed (structs_meant self.entry.table.structs.now) self.entry.types.now self.entry.bounds.now self.entry.all.now
            → type_meant (structs_meant self.entry.table.structs.now) T
            ≡ c_type (bound_of self.entry.types.now self.entry.bounds.now) (entry_tree self.entry.types.now entry)) }
    {
        match entry {
            TypeEntry::Unit => Ok(BYTE),
            TypeEntry::Bool => Ok(TRUTH),
            TypeEntry::Int => Ok(INTEGER),
            TypeEntry::Pair(a, b) => {
                let a = self.ty(a)?;
                let b = self.ty(b)?;
                self.table.pair(a, b)
            }
            TypeEntry::Event(a) => self.table.event(self.ty(a)?),
            TypeEntry::List(a) => {
                let element = self.ty(a)?;
                self.table.list(self.bound(a)?, element)
            }
        }
    }

    /// How many elements lists of type a may have.
    pub(crate) fn bound(self, a: usize) -> Result<usize, Unbuilt>
        ensures { IfOk result (λ m.
            m ≡ bound_of self.entry.types.now self.entry.bounds.now (tree_at self.entry.types.now a)) }
    {
        let Some(element) = self.types.trees.get(a) else {
            return Err(Unbuilt::Missing);
        };
        for (i, tree) in self.types.trees.iter().enumerate() {
            let Some(bound) = self.bounds.get(i) else {
                return Err(Unbuilt::Missing);
            };
            if is_list_of(tree, element) {
                return Ok(*bound);
            }
        }
        Err(Unbuilt::Missing)
    }

    /// Whether the type of C of type k is a struct.
    pub(crate) fn is_struct(self, k: usize) -> Result<bool, Unbuilt>
        ensures { IfOk result (λ b. TableHolds self.entry.types.now
            → b ≡ is_struct (tree_at self.entry.types.now k)) }
    {
        match self.types.entries.get(k) {
            Some(TypeEntry::Pair(..) | TypeEntry::Event(_) | TypeEntry::List(_)) => Ok(true),
            Some(TypeEntry::Unit | TypeEntry::Bool | TypeEntry::Int) => Ok(false),
            None => Err(Unbuilt::Missing),
        }
    }

    /// The number of the type of what is left in pairs of type k.
    pub(crate) fn left(self, k: usize) -> Result<usize, Unbuilt>
        ensures { IfOk result (λ a. TableHolds self.entry.types.now
            → tree_at self.entry.types.now a ≡ left_type (tree_at self.entry.types.now k)) }
    {
        match self.types.entries.get(k) {
            Some(TypeEntry::Pair(a, _)) => Ok(*a),
            _ => Err(Unbuilt::Missing),
        }
    }

    /// The number of the type of what is right in pairs of type k.
    pub(crate) fn right(self, k: usize) -> Result<usize, Unbuilt>
        ensures { IfOk result (λ a. TableHolds self.entry.types.now
            → tree_at self.entry.types.now a ≡ right_type (tree_at self.entry.types.now k)) }
    {
        match self.types.entries.get(k) {
            Some(TypeEntry::Pair(_, b)) => Ok(*b),
            _ => Err(Unbuilt::Missing),
        }
    }

    /// The number of the type of what events of type k carry.
    pub(crate) fn carried(self, k: usize) -> Result<usize, Unbuilt>
        ensures { IfOk result (λ a. TableHolds self.entry.types.now
            → tree_at self.entry.types.now a ≡ carried_type (tree_at self.entry.types.now k)) }
    {
        match self.types.entries.get(k) {
            Some(TypeEntry::Event(a)) => Ok(*a),
            _ => Err(Unbuilt::Missing),
        }
    }

    /// The number of the type of the elements of lists of type k.
    pub(crate) fn element(self, k: usize) -> Result<usize, Unbuilt>
        ensures { IfOk result (λ a. TableHolds self.entry.types.now
            → tree_at self.entry.types.now a ≡ element_type (tree_at self.entry.types.now k)) }
    {
        match self.types.entries.get(k) {
            Some(TypeEntry::List(a)) => Ok(*a),
            _ => Err(Unbuilt::Missing),
        }
    }
}

/// The types of C of the types of a program, one by one. `Missing` where a type isn't over earlier ones.
pub(crate) fn known_of<'a>(
    alloc: Global,
    table: Table<'a>,
    types: &'a Types,
    bounds: &'a [usize],
) -> Result<Vec<CType>, Unbuilt>
    requires { TableHolds types.now }
    ensures known { IfOk result (λ all. Typed (structs_meant table.entry.structs.now) types.now bounds.now all.items) }
    ensures all { IfOk result (λ all. length all.items ≡ length types.now.trees.items) }
{
    let mut all = Vec::with_capacity(alloc, types.entries.len())?;
    for entry in &types.entries {
        let known = Known {
            table,
            types,
            bounds,
            all: all.as_slice(),
        };
        let ty = known.entry(*entry)?;
        all.push(ty)?;
    }
    if all.len() != types.trees.len() {
        return Err(Unbuilt::Missing);
    }
    Ok(all)
}

/// Whether a type is that of lists of another.
fn is_list_of(list: &Ty, element: &Ty) -> bool
    ensures { result ≡ same_tree (type_of list.now) (list_ty (type_of element.now)) }
{
    match list {
        Ty::List(inner) => is_same(inner.get(), element),
        _ => false,
    }
}
