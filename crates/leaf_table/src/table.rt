// The table of stored closures.

ghost use Rattle.std.specs.Prelude.{◌≡◌, ◌≤◌, ◌<◌, ◌++◌, ◌∷◌, ◌↔◌, [], length, IfOk, IfErr, IsOk, IsErr, OnOk, OnErr, IfSome, IfNone, All, Ok, Some, None, slice_get, Contains, map};
ghost use Rattle.indexmap.specs.IndexMap.{index_map_len};
ghost use Rattle.sample_core.specs.{HasType.HasType, HasType.TypedParams, ValueView.datum_of};
ghost use Rattle.leaf_core.specs.{ExpressionValue.value_of, KeyTree.KeyTree};
ghost use Rattle.leaf_table.specs.declared.table.TheConstants.{MOST_ROWS};

use crate::fault::TableFault;
use crate::leaf::Leaf;
use indexmap::IndexMap;
use leaf_core::LeafKey;
use sample_core::{Memory, Sample};
use std::alloc::Global;

/// The most rows that a table has.
pub const MOST_ROWS: usize = 4_096;

/// The number of a row of a table, counted from 0.
#[derive(Clone, Copy, PartialEq, Eq, Debug)]
pub struct LeafId(pub usize);

/// Stored closures by row and by key: at most 4,096 rows, no two with the same key. Contracts see
/// a table as the list of its rows' keys and the list of its rows' leaves.
#[derive(Drop)]
pub struct LeafTable {
    alloc: Global,
    rows: IndexMap<LeafKey, Leaf>,
    ghost keyed: { ∥ All (λ e. e.1.key ≡ e.0) rows.entries ∥₁ },
    ghost within: { index_map_len rows ≤ MOST_ROWS },
}

impl LeafTable {
    ghost use Rattle.leaf_table.specs.Rows.{leaves_of, rows_of};

    /// A table with no rows. It takes no memory.
    pub fn new(alloc: Global) -> LeafTable
        ensures rows { rows_of result ≡ [] }
        ensures leaves { leaves_of result ≡ [] }
    {
        LeafTable {
            alloc,
            rows: IndexMap::new(alloc),
        }
    }

    /// Adds the leaf as a new last row. Where its key has a row already, the leaf that is there
    /// stays and this one is dropped. Answers the row of the key.
    ///
    /// A refusal gives the leaf back, and the table is as it was. `Full`: the key is new, and the
    /// table has 4,096 rows. `Memory`: allocation failed.
    pub fn add(&mut self, leaf: Leaf) -> Result<LeafId, (Leaf, TableFault)>
        ensures row { IfOk result (λ id. slice_get (rows_of self.new) id.0 ≡ Some leaf.key) }
        ensures known { Contains (rows_of self.old) leaf.key
            → IsOk result × (rows_of self.new ≡ rows_of self.old) }
        ensures grown { OnOk result ((Contains (rows_of self.old) leaf.key → ⊥)
            → rows_of self.new ≡ rows_of self.old ++ leaf.key ∷ []) }
        ensures unchanged { OnErr result (rows_of self.new ≡ rows_of self.old) }
        ensures kept { Contains (rows_of self.old) leaf.key
            → leaves_of self.new ≡ leaves_of self.old }
        ensures stored { OnOk result ((Contains (rows_of self.old) leaf.key → ⊥)
            → leaves_of self.new ≡ leaves_of self.old ++ leaf ∷ []) }
        ensures no_other { OnErr result (leaves_of self.new ≡ leaves_of self.old) }
        ensures returned { IfErr result (λ e. e.0 ≡ leaf) }
        ensures full { IfErr result (λ e. (e.1 ≡ TableFault.Full)
            ↔ (length (rows_of self.old) ≡ MOST_ROWS)) }
        ensures refused { (Contains (rows_of self.old) leaf.key → ⊥)
            → length (rows_of self.old) ≡ MOST_ROWS → IsErr result }
    {
        if let Some(id) = self.find(&leaf.key) {
            drop(leaf);
            return Ok(id);
        }
        if self.rows.len() >= MOST_ROWS {
            return Err((leaf, TableFault::Full));
        }
        match leaf.key.try_copy(self.alloc) {
            Ok(key) => self.push(key, leaf),
            Err(Memory) => Err((leaf, TableFault::Memory)),
        }
    }

    /// Adds the leaf, whose key is new, as a new last row. A leaf that is not taken, since
    /// memory ran out, comes back.
    fn push(&mut self, key: LeafKey, leaf: Leaf) -> Result<LeafId, (Leaf, TableFault)>
        requires own { leaf.key ≡ key }
        requires fresh { Contains (rows_of self.old) key → ⊥ }
        requires room { length (rows_of self.old) < MOST_ROWS }
        ensures row { IfOk result (λ id. slice_get (rows_of self.new) id.0 ≡ Some key) }
        ensures grown { OnOk result (rows_of self.new ≡ rows_of self.old ++ key ∷ []) }
        ensures unchanged { OnErr result (rows_of self.new ≡ rows_of self.old) }
        ensures stored { OnOk result (leaves_of self.new ≡ leaves_of self.old ++ leaf ∷ []) }
        ensures no_other { OnErr result (leaves_of self.new ≡ leaves_of self.old) }
        ensures returned { IfErr result (λ e. (e.0 ≡ leaf) × (e.1 ≡ TableFault.Memory)) }
    {
        let row = self.rows.len();
        match self.rows.insert(key, leaf) {
            Ok(replaced) => {
                drop(replaced);
                Ok(LeafId(row))
            }
            Err(failed) => {
                let (key, leaf) = failed.value;
                drop(key);
                Err((leaf, TableFault::Memory))
            }
        }
    }

    /// The row with this key; `None` if no row has it. It takes no memory.
    pub fn find(&self, key: &LeafKey) -> Option<LeafId>
        ensures found { IfSome result (λ id. slice_get (rows_of self.now) id.0 ≡ Some key.now) }
        ensures missing { IfNone result (Contains (rows_of self.now) key.now → ⊥) }
    {
        match self.rows.get_index_of(key) {
            Some(row) => Some(LeafId(row)),
            None => None,
        }
    }

    /// How many rows the table has.
    pub fn len(&self) -> usize
        ensures { result ≡ length (rows_of self.now) }
    {
        self.rows.len()
    }

    /// What the row's closure answers to the parameters' values, parameter 0 first, and the input
    /// `x`. At arguments of its key's types that is the value of its key's expression. The row must
    /// be there. `Memory` if an allocation of the closure fails.
    pub fn call(&self, id: LeafId, params: &[Sample], x: &Sample) -> Result<Sample, Memory>
        requires { id.0 < length (rows_of self.now) }
        ensures { IfOk result (λ v. (key : KeyTree) → slice_get (rows_of self.now) id.0 ≡ Some key →
            TypedParams key.params (map datum_of params.now) → HasType (datum_of x.now) key.input →
            datum_of v ≡ value_of key.expr (map datum_of params.now) (datum_of x.now)) }
    {
        match self.rows.get_index(id.0) {
            Some((_, leaf)) => Ok(leaf.call(params, x)?),
            None => unreachable!(),
        }
    }
}
