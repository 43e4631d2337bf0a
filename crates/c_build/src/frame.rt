// What a function of the code is built in.

ghost use Rattle.std.specs.Prelude.{◌≡◌, List, IfOk, map};
ghost use Rattle.c_file.specs.FunctionC.{Callee, callee_at, number_at, shape_at, value};
ghost use Rattle.c_forms.specs.Keeping.{shape_type};
ghost use Rattle.code_fits.specs.Layouts.{kept_type};
ghost use Rattle.code_fits.specs.Tables.{tree_at};
ghost use Rattle.leaf_code.specs.Fitting.{Bounds};
ghost use Rattle.c_meaning.specs.Object.{CType as ObjectType};
ghost use Rattle.c_text.specs.Meant.{type_meant};
ghost use Rattle.c_leaf.specs.Representing.{c_type};
ghost use Rattle.c_build.specs.Scopes.{table};
ghost use Rattle.c_build.specs.Frames.{AreCallees, IsCallee, Stands, bounds_in, layout_in};

use crate::scope::Scope;
use crate::table::BYTE;
use crate::types::Known;
use crate::unbuilt::Unbuilt;
use c_text::CType;
use code_fits::{Layout, Types};
use std::alloc::Global;

/// What the file has of a function of the code: the number of its step's C function, the struct of what it
/// keeps, and the types that it goes from and to.
#[derive(Clone, Copy)]
pub struct Called {
    pub number: usize,
    pub kept: CType,
    pub input: CType,
    pub output: CType,
}

/// The structs of what functions keep, of which this is known.
pub(crate) fn kepts_of(
    alloc: Global,
    callees: &[Called],
    fs: &[usize],
) -> Result<Vec<CType>, Unbuilt>
    ensures { IfOk result (λ all. (Ts : List ObjectType) (n : Bounds) (cs : List Callee) → AreCallees Ts n cs callees.now
        → map (type_meant Ts) all.items ≡ map (shape_type n) (map (shape_at cs) fs.now)) }
{
    let mut all = Vec::with_capacity(alloc, fs.len())?;
    for f in fs {
        all.push(found(callees, *f)?.kept)?;
    }
    Ok(all)
}

/// What the file has of function k.
#[tactic(auto, using(crate::proofs::Callees::callee_found))]
pub(crate) fn found(callees: &[Called], k: usize) -> Result<Called, Unbuilt>
    ensures { IfOk result (λ r. (Ts : List ObjectType) (n : Bounds) (cs : List Callee) → AreCallees Ts n cs callees.now
        → IsCallee Ts n (callee_at cs k) r) }
{
    match callees.get(k) {
        Some(called) => Ok(*called),
        None => Err(Unbuilt::Missing),
    }
}

/// What is in scope, the program's types and how long lists of each may be, the type of C of each, the
/// function's layout, and the earlier functions.
#[derive(Clone, Copy)]
pub struct Frame<'a> {
    pub(crate) scope: Scope<'a>,
    pub(crate) types: &'a Types,
    pub(crate) bounds: &'a [usize],
    pub(crate) all: &'a [CType],
    pub(crate) layout: &'a Layout,
    pub(crate) callees: &'a [Called],
}

impl<'a> Frame<'a> {
    /// The types of the program.
    pub(crate) fn known(self) -> Known<'a>
        ensures table { result.table ≡ self.entry.scope.table }
        ensures types { result.types.now ≡ self.entry.types.now }
        ensures bounds { result.bounds.now ≡ self.entry.bounds.now }
        ensures all { result.all.now ≡ self.entry.all.now }
    {
        Known {
            table: self.scope.table,
            types: self.types,
            bounds: self.bounds,
            all: self.all,
        }
    }

    /// The type of C of type k.
    pub(crate) fn ty(self, k: usize) -> Result<CType, Unbuilt>
        ensures { IfOk result (λ T. (cs : List Callee) → Stands self.entry cs
            → type_meant (table self.entry.scope) T ≡ c_type (bounds_in self.entry) (tree_at self.entry.types.now k)) }
    {
        match self.all.get(k) {
            Some(ty) => Ok(*ty),
            None => Err(Unbuilt::Missing),
        }
    }

    /// The type of C of its input.
    pub(crate) fn input(self) -> Result<CType, Unbuilt>
        ensures { IfOk result (λ T. (cs : List Callee) → Stands self.entry cs
            → type_meant (table self.entry.scope) T ≡ c_type (bounds_in self.entry) (layout_in self.entry).input) }
    {
        self.ty(self.layout.input)
    }

    /// The type of C of its answer.
    pub(crate) fn output(self) -> Result<CType, Unbuilt>
        ensures { IfOk result (λ T. (cs : List Callee) → Stands self.entry cs
            → type_meant (table self.entry.scope) T ≡ c_type (bounds_in self.entry) (layout_in self.entry).output) }
    {
        self.ty(self.layout.output)
    }

    /// The type of C of value k.
    #[tactic(auto, using(crate::proofs::Values::value_found, crate::proofs::Values::value_missing))]
    pub(crate) fn value(self, k: usize) -> Result<CType, Unbuilt>
        ensures { IfOk result (λ T. (cs : List Callee) → Stands self.entry cs
            → type_meant (table self.entry.scope) T ≡ c_type (bounds_in self.entry) (value cs (layout_in self.entry) k)) }
    {
        match self.layout.values.get(k) {
            Some(ty) => self.ty(*ty),
            None => Ok(BYTE),
        }
    }

    /// The type of C of the value that it keeps itself.
    pub(crate) fn kept(self) -> Result<CType, Unbuilt>
        ensures { IfOk result (λ T. (cs : List Callee) → Stands self.entry cs
            → type_meant (table self.entry.scope) T ≡ c_type (bounds_in self.entry) (kept_type (layout_in self.entry))) }
    {
        match self.layout.kept {
            Some(ty) => self.ty(ty),
            None => Ok(BYTE),
        }
    }

    /// What the file has of function k.
    pub(crate) fn callee(self, k: usize) -> Result<Called, Unbuilt>
        ensures { IfOk result (λ r. (cs : List Callee) → Stands self.entry cs
            → IsCallee (table self.entry.scope) (bounds_in self.entry) (callee_at cs k) r) }
    {
        found(self.callees, k)
    }

    /// The numbers of the C functions of functions.
    pub(crate) fn numbers(self, fs: &[usize]) -> Result<Vec<usize>, Unbuilt>
        ensures { IfOk result (λ js. (cs : List Callee) → Stands self.entry cs
            → js.items ≡ map (number_at cs) fs.now) }
    {
        let mut all = Vec::with_capacity(self.scope.alloc, fs.len())?;
        for f in fs {
            all.push(self.callee(*f)?.number)?;
        }
        Ok(all)
    }

    /// The structs of what functions keep.
    pub(crate) fn kepts(self, fs: &[usize]) -> Result<Vec<CType>, Unbuilt>
        ensures { IfOk result (λ all. (cs : List Callee) → Stands self.entry cs
            → map (type_meant (table self.entry.scope)) all.items
            ≡ map (shape_type (bounds_in self.entry)) (map (shape_at cs) fs.now)) }
    {
        kepts_of(self.scope.alloc, self.callees, fs)
    }
}
