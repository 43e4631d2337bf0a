// Types of C of parts of a function's types.

ghost use Rattle.std.specs.Prelude.{◌≡◌, List, IfOk};
ghost use Rattle.sample_core.specs.TypeTree.{TypeTree, event_ty, int_ty, list_ty, pair_ty};
ghost use Rattle.leaf_code.specs.CodeOf.{carried_type, left_type, right_type};
ghost use Rattle.code_fits.specs.Layouts.{kept_type};
ghost use Rattle.code_fits.specs.Tables.{tree_at};
ghost use Rattle.c_leaf.specs.LeafC.{is_struct};
ghost use Rattle.c_file.specs.FunctionC.{Callee, element_type};
ghost use Rattle.c_build.specs.Frames.{Stands, bounds_in, layout_in};
ghost use Rattle.c_build.specs.Functions.{IsListed, IsRestarted, TypeIn};
ghost use Rattle.c_build.specs.LeafLines.{IsTyped};

use crate::frame::Frame;
use crate::switches::Restarted;
use crate::table::INTEGER;
use crate::unbuilt::Unbuilt;
use c_text::{Base, CType};
use sample_core::Ty;

/// Lists: the type of C of an element, which is no array; that of the list; and how many elements it has at
/// most.
#[derive(Clone, Copy)]
pub(crate) struct Listed {
    pub(crate) element: Base,
    pub(crate) list: CType,
    pub(crate) room: usize,
}

impl Frame<'_> {
    /// The number of the type of what is left in pairs of type k.
    pub(crate) fn left(self, k: usize) -> Result<usize, Unbuilt>
        ensures { IfOk result (λ a. IsTyped self.entry
            → tree_at self.entry.types.now a ≡ left_type (tree_at self.entry.types.now k)) }
    {
        self.known().left(k)
    }

    /// The number of the type of what is right in pairs of type k.
    pub(crate) fn right(self, k: usize) -> Result<usize, Unbuilt>
        ensures { IfOk result (λ a. IsTyped self.entry
            → tree_at self.entry.types.now a ≡ right_type (tree_at self.entry.types.now k)) }
    {
        self.known().right(k)
    }

    /// The number of the type of what events of type k carry.
    pub(crate) fn carried(self, k: usize) -> Result<usize, Unbuilt>
        ensures { IfOk result (λ a. IsTyped self.entry
            → tree_at self.entry.types.now a ≡ carried_type (tree_at self.entry.types.now k)) }
    {
        self.known().carried(k)
    }

    /// The number of the type of the elements of lists of type k.
    pub(crate) fn element(self, k: usize) -> Result<usize, Unbuilt>
        ensures { IfOk result (λ a. IsTyped self.entry
            → tree_at self.entry.types.now a ≡ element_type (tree_at self.entry.types.now k)) }
    {
        self.known().element(k)
    }

    /// Whether the type of C of type k is a struct.
    pub(crate) fn is_struct(self, k: usize) -> Result<bool, Unbuilt>
        ensures { IfOk result (λ b. IsTyped self.entry → b ≡ is_struct (tree_at self.entry.types.now k)) }
    {
        self.known().is_struct(k)
    }

    /// How many elements lists of type k have at most.
    pub(crate) fn room(self, k: usize) -> Result<usize, Unbuilt>
        ensures { IfOk result (λ m. m ≡ bounds_in self.entry (tree_at self.entry.types.now k)) }
    {
        self.known().bound(k)
    }

    /// The type of C of pairs.
    pub(crate) fn pair(self, a: CType, b: CType) -> Result<CType, Unbuilt>
        ensures { IfOk result (λ T. (A B : TypeTree) → TypeIn self.entry a A → TypeIn self.entry b B
            → TypeIn self.entry T (pair_ty A B)) }
    {
        let pair = self.scope.table.pair(a, b)?;
        Ok(pair)
    }

    /// The type of C of events.
    pub(crate) fn event(self, a: CType) -> Result<CType, Unbuilt>
        ensures { IfOk result (λ T. (A : TypeTree) → TypeIn self.entry a A → TypeIn self.entry T (event_ty A)) }
    {
        let event = self.scope.table.event(a)?;
        Ok(event)
    }

    /// The type of C of lists that have so many elements at most.
    pub(crate) fn list(self, room: usize, a: CType) -> Result<CType, Unbuilt>
        ensures { IfOk result (λ T. (A : TypeTree) → TypeIn self.entry a A → room ≡ bounds_in self.entry A
            → TypeIn self.entry T (list_ty A)) }
    {
        let list = self.scope.table.list(room, a)?;
        Ok(list)
    }

    /// The answer as a list, with its elements.
    pub(crate) fn answers(self) -> Result<Listed, Unbuilt>
        ensures { IfOk result (λ l. (cs : List Callee) → Stands self.entry cs
            → IsListed self.entry (element_type (layout_in self.entry).output) l) }
    {
        let k = self.element(self.layout.output)?;
        let room = self.room(k)?;
        let CType::One(element) = self.ty(k)? else {
            return Err(Unbuilt::Missing);
        };
        let list = self.list(room, CType::One(element))?;
        Ok(Listed {
            element,
            list,
            room,
        })
    }

    /// The type of C of the elements of its answer, a list.
    pub(crate) fn element_answer(self) -> Result<CType, Unbuilt>
        ensures { IfOk result (λ T. (cs : List Callee) → Stands self.entry cs
            → TypeIn self.entry T (element_type (layout_in self.entry).output)) }
    {
        let k = self.element(self.layout.output)?;
        let element = self.ty(k)?;
        Ok(element)
    }

    /// The type of C of events of what it keeps itself.
    pub(crate) fn kept_event(self) -> Result<CType, Unbuilt>
        ensures { IfOk result (λ T. (cs : List Callee) → Stands self.entry cs
            → TypeIn self.entry T (event_ty (kept_type (layout_in self.entry)))) }
    {
        let kept = self.kept()?;
        let event = self.event(kept)?;
        Ok(event)
    }

    /// The types of a switch that starts anew.
    pub(crate) fn restarted(self) -> Result<Restarted, Unbuilt>
        ensures { IfOk result (λ t. (cs : List Callee) → Stands self.entry cs → IsRestarted self.entry t) }
    {
        let k = self.left(self.layout.input)?;
        let left = self.ty(k)?;
        let is_struct = self.is_struct(k)?;
        let answer = self.output()?;
        Ok(Restarted {
            left,
            is_struct,
            answer,
        })
    }

    /// The type of C of what an event in its input carries.
    pub(crate) fn carried_input(self) -> Result<CType, Unbuilt>
        ensures { IfOk result (λ T. (cs : List Callee) → Stands self.entry cs
            → TypeIn self.entry T (carried_type (layout_in self.entry).input)) }
    {
        let k = self.carried(self.layout.input)?;
        let carried = self.ty(k)?;
        Ok(carried)
    }

    /// The type of C of pairs of its input's left part, and of an event with what the right part's carries.
    pub(crate) fn chosen_input(self) -> Result<CType, Unbuilt>
        ensures { IfOk result (λ T. (cs : List Callee) → Stands self.entry cs
            → TypeIn self.entry T (pair_ty (left_type (layout_in self.entry).input)
            (event_ty (carried_type (right_type (layout_in self.entry).input))))) }
    {
        let left = self.left(self.layout.input)?;
        let right = self.right(self.layout.input)?;
        let k = self.carried(right)?;
        let value = self.ty(k)?;
        let event = self.event(value)?;
        let input = self.ty(left)?;
        let pair = self.pair(input, event)?;
        Ok(pair)
    }

    /// The type of C of lists of numbers, and how many these are at most.
    pub(crate) fn numbers_list(self) -> Result<(CType, u32), Unbuilt>
        ensures { IfOk result (λ r. TypeIn self.entry r.0 (list_ty int_ty) × (bounds_in self.entry int_ty ≡ r.1)) }
    {
        let room = self.most_of(&Ty::Int)?;
        let list = self.list(room, INTEGER)?;
        let Ok(most) = u32::try_from(room) else {
            return Err(Unbuilt::Missing);
        };
        Ok((list, most))
    }

    /// The type of C of lists of what it keeps itself, and how many these are at most.
    pub(crate) fn kept_list(self) -> Result<(CType, u32), Unbuilt>
        ensures { IfOk result (λ r. (cs : List Callee) → Stands self.entry cs
            → TypeIn self.entry r.0 (list_ty (kept_type (layout_in self.entry)))
            × (bounds_in self.entry (kept_type (layout_in self.entry)) ≡ r.1)) }
    {
        let Some(k) = self.layout.kept else {
            return Err(Unbuilt::Missing);
        };
        let room = self.room(k)?;
        let value = self.ty(k)?;
        let list = self.list(room, value)?;
        let Ok(most) = u32::try_from(room) else {
            return Err(Unbuilt::Missing);
        };
        Ok((list, most))
    }
}
