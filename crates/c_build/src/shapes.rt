// The structs of what functions keep.

ghost use Rattle.std.specs.Prelude.{◌≡◌, List, IfOk, map};
ghost use Rattle.sample_core.specs.TypeTree.{TypeTree};
ghost use Rattle.leaf_code.specs.Fitting.{Bounds};
ghost use Rattle.cell_core.specs.declared.form.Form.TheVariants as F;
ghost use Rattle.c_text.specs.Meant.{type_meant, structs_meant};
ghost use Rattle.c_leaf.specs.Representing.{c_type};
ghost use Rattle.c_forms.specs.Keeping.{Shape, shape_type, keeps_none, keeps_cell, keeps_both, keeps_fed, keeps_mode, keeps_frozen, keeps_collection};
ghost use Rattle.c_forms.specs.Members.{members_shape};

use crate::table::{COUNT, INTEGER, NATURAL, TRUTH, Table, array_of};
use crate::unbuilt::Unbuilt;
use c_text::{CType, Kind};
use cell_core::Form;
use std::alloc::Global;

/// How many members of a collection may run at once.
pub(crate) const MOST_MEMBERS: usize = 64;

impl Table<'_> {
    /// What keeps nothing.
    pub(crate) fn keeps_none(self) -> Result<CType, Unbuilt>
        ensures { IfOk result (λ T. (n : Bounds)
            → type_meant (structs_meant self.entry.structs.now) T ≡ shape_type n keeps_none) }
    {
        self.struct_of(Kind::Kept, &[])
    }

    /// A cell that keeps values of a type.
    pub(crate) fn keeps_cell(self, form: Form, value: CType) -> Result<CType, Unbuilt>
        ensures { IfOk result (λ T. (n : Bounds) (V : TypeTree)
            → type_meant (structs_meant self.entry.structs.now) value ≡ c_type n V
            → type_meant (structs_meant self.entry.structs.now) T ≡ shape_type n (keeps_cell form V)) }
    {
        match form {
            Form::After(_) => self.struct_of(Kind::Kept, &[TRUTH, INTEGER, value]),
            Form::Repeatedly(_) => self.struct_of(Kind::Kept, &[INTEGER, value]),
            Form::Time => self.struct_of(Kind::Kept, &[INTEGER]),
            Form::Integral => self.struct_of(Kind::Kept, &[INTEGER, INTEGER]),
            Form::Delay(q) => self.keeps_ring(q, value),
            Form::IPre | Form::Hold | Form::AccumBy => self.struct_of(Kind::Kept, &[value]),
        }
    }

    /// A `delay`.
    fn keeps_ring(self, q: u64, value: CType) -> Result<CType, Unbuilt>
        ensures { IfOk result (λ T. (n : Bounds) (V : TypeTree)
            → type_meant (structs_meant self.entry.structs.now) value ≡ c_type n V
            → type_meant (structs_meant self.entry.structs.now) T ≡ shape_type n (keeps_cell (F.Delay q) V)) }
    {
        let times = array_of(q as usize, NATURAL)?;
        let values = array_of(q as usize, value)?;
        self.struct_of(Kind::Kept, &[NATURAL, value, COUNT, COUNT, times, values])
    }

    /// What two functions keep.
    pub(crate) fn keeps_both(self, one: CType, other: CType) -> Result<CType, Unbuilt>
        ensures { IfOk result (λ T. (n : Bounds) (S U : Shape)
            → type_meant (structs_meant self.entry.structs.now) one ≡ shape_type n S
            → type_meant (structs_meant self.entry.structs.now) other ≡ shape_type n U
            → type_meant (structs_meant self.entry.structs.now) T ≡ shape_type n (keeps_both S U)) }
    {
        self.struct_of(Kind::Kept, &[one, other])
    }

    /// What is fed back, and what a function keeps.
    pub(crate) fn keeps_fed(self, value: CType, all: CType) -> Result<CType, Unbuilt>
        ensures { IfOk result (λ T. (n : Bounds) (V : TypeTree) (S : Shape)
            → type_meant (structs_meant self.entry.structs.now) value ≡ c_type n V
            → type_meant (structs_meant self.entry.structs.now) all ≡ shape_type n S
            → type_meant (structs_meant self.entry.structs.now) T ≡ shape_type n (keeps_fed V S)) }
    {
        self.struct_of(Kind::Kept, &[value, all])
    }

    /// A switch: the value that takes over, what runs first, and what takes over.
    pub(crate) fn keeps_mode(
        self,
        value: CType,
        front: CType,
        taker: CType,
    ) -> Result<CType, Unbuilt>
        ensures { IfOk result (λ T. (n : Bounds) (V : TypeTree) (S U : Shape)
            → type_meant (structs_meant self.entry.structs.now) value ≡ c_type n V
            → type_meant (structs_meant self.entry.structs.now) front ≡ shape_type n S
            → type_meant (structs_meant self.entry.structs.now) taker ≡ shape_type n U
            → type_meant (structs_meant self.entry.structs.now) T ≡ shape_type n (keeps_mode V S U)) }
    {
        self.struct_of(Kind::Kept, &[TRUTH, value, front, taker])
    }

    /// What is frozen, and what resumes it.
    pub(crate) fn keeps_frozen(self, frozen: CType, resumer: CType) -> Result<CType, Unbuilt>
        ensures { IfOk result (λ T. (n : Bounds) (S U : Shape)
            → type_meant (structs_meant self.entry.structs.now) frozen ≡ shape_type n S
            → type_meant (structs_meant self.entry.structs.now) resumer ≡ shape_type n U
            → type_meant (structs_meant self.entry.structs.now) T ≡ shape_type n (keeps_frozen S U)) }
    {
        self.struct_of(Kind::Kept, &[INTEGER, frozen, resumer])
    }

    /// What members keep.
    #[tactic(auto, using(crate::proofs::Kept::members_kept))]
    pub(crate) fn keeps_members(self, members: &[CType]) -> Result<CType, Unbuilt>
        ensures { IfOk result (λ T. (n : Bounds) (Ss : List Shape)
            → map (type_meant (structs_meant self.entry.structs.now)) members.now ≡ map (shape_type n) Ss
            → type_meant (structs_meant self.entry.structs.now) T ≡ shape_type n (members_shape Ss)) }
    {
        self.struct_of(Kind::Kept, members)
    }

    /// A collection: the value that starts a member, what the written members keep, and what one keeps that
    /// was started.
    #[tactic(auto, using(crate::proofs::Kept::members_kept))]
    pub(crate) fn keeps_collection(
        self,
        alloc: Global,
        value: CType,
        members: &[CType],
        started: CType,
    ) -> Result<CType, Unbuilt>
        ensures { IfOk result (λ T. (n : Bounds) (V : TypeTree) (Ss : List Shape) (U : Shape)
            → type_meant (structs_meant self.entry.structs.now) value ≡ c_type n V
            → map (type_meant (structs_meant self.entry.structs.now)) members.now ≡ map (shape_type n) Ss
            → type_meant (structs_meant self.entry.structs.now) started ≡ shape_type n U
            → type_meant (structs_meant self.entry.structs.now) T
            ≡ shape_type n (keeps_collection V (members_shape Ss) U)) }
    {
        let mut all = Vec::new(alloc);
        all.extend_from_slice(&[COUNT, value, started])?;
        all.extend_from_slice(members)?;
        let entry = self.struct_of(Kind::Kept, all.as_slice())?;
        let side = array_of(MOST_MEMBERS, entry)?;
        let sides = array_of(2, side)?;
        self.struct_of(Kind::Kept, &[COUNT, COUNT, sides])
    }
}
