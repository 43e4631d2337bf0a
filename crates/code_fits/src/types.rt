// The types that occur in code, each by a number.

ghost use Rattle.std.specs.Prelude.{◌≡◌, IfOk, Some, slice_get};
ghost use Rattle.sample_core.specs.TypeView.{type_of};
ghost use Rattle.code_fits.specs.declared.types.TypeEntry.TheVariants as R;
ghost use Rattle.code_fits.specs.Tables.{tree_at};

use crate::walk::Unlaid;
use sample_core::{Memory, Ty, TyChild};
use std::alloc::Global;

/// A type over earlier ones, which are named by their numbers.
#[derive(Clone, Copy, PartialEq, Eq)]
pub enum TypeEntry {
    /// The one value `unit`.
    Unit,
    /// `true` and `false`.
    Bool,
    /// Signed numbers of 64 bits.
    Int,
    /// Pairs of a value of each.
    Pair(usize, usize),
    /// No event, or an event that carries a value.
    Event(usize),
    /// Lists.
    List(usize),
}

/// Types, each once, its parts before it.
#[derive(Drop)]
pub struct Types {
    /// The types, each as an entry.
    pub entries: Vec<TypeEntry>,
    /// The same as trees.
    pub trees: Vec<Ty>,
}

impl Types {
    /// No types.
    pub(crate) fn new(alloc: Global) -> Types {
        Types {
            entries: Vec::new(alloc),
            trees: Vec::new(alloc),
        }
    }

    /// The number of a type, which is added if it isn't there.
    #[cycle(number)]
    pub(crate) fn number(&mut self, alloc: Global, ty: &Ty) -> Result<usize, Memory> {
        match ty {
            Ty::Unit => self.entry_number(alloc, TypeEntry::Unit),
            Ty::Bool => self.entry_number(alloc, TypeEntry::Bool),
            Ty::Int => self.entry_number(alloc, TypeEntry::Int),
            Ty::Pair(a, b) => self.number_pair(alloc, a, b),
            Ty::Event(a) => {
                let a = self.number(alloc, a.get())?;
                self.entry_number(alloc, TypeEntry::Event(a))
            }
            Ty::List(a) => {
                let a = self.number(alloc, a.get())?;
                self.entry_number(alloc, TypeEntry::List(a))
            }
        }
    }

    /// The number of a type of pairs.
    #[cycle(number)]
    fn number_pair(&mut self, alloc: Global, a: &TyChild, b: &TyChild) -> Result<usize, Memory> {
        let a = self.number(alloc, a.get())?;
        let b = self.number(alloc, b.get())?;
        self.entry_number(alloc, TypeEntry::Pair(a, b))
    }

    /// The number of an entry, which is added if it isn't there.
    pub(crate) fn entry_number(
        &mut self,
        alloc: Global,
        entry: TypeEntry,
    ) -> Result<usize, Memory> {
        if let Some(k) = self.entries.iter().position(|known| *known == entry) {
            return Ok(k);
        }
        let tree = self.tree_of(alloc, entry)?;
        self.trees.push(tree)?;
        self.entries.push(entry)?;
        Ok(self.entries.len().saturating_sub(1))
    }

    /// An entry as a tree.
    fn tree_of(&self, alloc: Global, entry: TypeEntry) -> Result<Ty, Memory> {
        match entry {
            TypeEntry::Unit => Ok(Ty::Unit),
            TypeEntry::Bool => Ok(Ty::Bool),
            TypeEntry::Int => Ok(Ty::Int),
            TypeEntry::Pair(a, b) => {
                let a = self.child(alloc, a)?;
                let b = self.child(alloc, b)?;
                Ok(Ty::Pair(a, b))
            }
            TypeEntry::Event(a) => Ok(Ty::Event(self.child(alloc, a)?)),
            TypeEntry::List(a) => Ok(Ty::List(self.child(alloc, a)?)),
        }
    }

    /// A type of the table as a part of another.
    fn child(&self, alloc: Global, k: usize) -> Result<TyChild, Memory> {
        TyChild::new(alloc, self.tree(alloc, k)?)
    }

    /// A type of the table as a tree, `Unit` if it isn't there.
    pub(crate) fn tree(&self, alloc: Global, k: usize) -> Result<Ty, Memory>
        ensures { IfOk result (λ t. type_of t ≡ tree_at self.now k) }
    {
        match self.trees.get(k) {
            Some(tree) => tree.try_copy(alloc),
            None => Ok(Ty::Unit),
        }
    }

    /// The parts of a type of pairs.
    pub(crate) fn parts(&self, k: usize) -> Result<(usize, usize), Unlaid>
        ensures { IfOk result (λ p. slice_get self.now.entries.items k ≡ Some (R.Pair p.0 p.1)) }
    {
        match self.entries.get(k) {
            Some(TypeEntry::Pair(a, b)) => Ok((*a, *b)),
            _ => Err(Unlaid::Untyped),
        }
    }

    /// The type of what an event carries.
    pub(crate) fn carried(&self, k: usize) -> Result<usize, Unlaid>
        ensures { IfOk result (λ a. slice_get self.now.entries.items k ≡ Some (R.Event a)) }
    {
        match self.entries.get(k) {
            Some(TypeEntry::Event(a)) => Ok(*a),
            _ => Err(Unlaid::Untyped),
        }
    }

    /// The type of a list's elements.
    pub(crate) fn element(&self, k: usize) -> Result<usize, Unlaid>
        ensures { IfOk result (λ a. slice_get self.now.entries.items k ≡ Some (R.List a)) }
    {
        match self.entries.get(k) {
            Some(TypeEntry::List(a)) => Ok(*a),
            _ => Err(Unlaid::Untyped),
        }
    }
}
