// Types of C by types.

ghost use Rattle.std.specs.Prelude.{◌≡◌, IfOk};
ghost use Rattle.sample_core.specs.TypeView.{type_of};
ghost use Rattle.code_fits.specs.Tables.{bound_of, tree_at};
ghost use Rattle.c_text.specs.Meant.{base_meant, structs_meant, type_meant};
ghost use Rattle.c_leaf.specs.Representing.{c_type};
ghost use Rattle.c_build.specs.Scopes.{IsType, table};
ghost use Rattle.c_build.specs.Frames.{bounds_in};
ghost use Rattle.c_build.specs.LeafLines.{IsKnown, IsTyped};
ghost use Rattle.c_build.specs.Places.{HasMost};

use crate::frame::Frame;
use crate::types::Known;
use crate::unbuilt::Unbuilt;
use c_text::{Base, CType};
use code_fits::Types;
use sample_core::{Ty, same_type};

/// The number of a type in a table. `Missing` if it isn't there.
fn number_of(types: &Types, ty: &Ty) -> Result<usize, Unbuilt>
    ensures { IfOk result (λ k. tree_at types.now k ≡ type_of ty.now) }
{
    for (k, tree) in types.trees.iter().enumerate() {
        if same_type(tree, ty) {
            return Ok(k);
        }
    }
    Err(Unbuilt::Missing)
}

impl Known<'_> {
    /// The type of C of a type. `Missing` if it isn't in the table.
    pub(crate) fn type_of(self, ty: &Ty) -> Result<CType, Unbuilt>
        ensures { IfOk result (λ T. IsKnown self.entry
            → type_meant (structs_meant self.entry.table.structs.now) T
            ≡ c_type (bound_of self.entry.types.now self.entry.bounds.now) (type_of ty.now)) }
    {
        let k = number_of(self.types, ty)?;
        self.ty(k)
    }

    /// How many elements lists of a type have at most.
    pub(crate) fn most_of(self, element: &Ty) -> Result<usize, Unbuilt>
        ensures { IfOk result (λ m. m
            ≡ bound_of self.entry.types.now self.entry.bounds.now (type_of element.now)) }
    {
        let k = number_of(self.types, element)?;
        self.bound(k)
    }

    /// How many elements values of a type have at most, if it is one of lists.
    pub(crate) fn most_in(self, ty: &Ty) -> Result<u32, Unbuilt>
        ensures { IfOk result (λ m. HasMost (bound_of self.entry.types.now self.entry.bounds.now)
            (type_of ty.now) m) }
    {
        let Ty::List(element) = ty else {
            return Ok(0);
        };
        let most = self.most_of(element.get())?;
        u32::try_from(most).map_err(|_| Unbuilt::Missing)
    }
}

impl Frame<'_> {
    /// The type of C of a type. `Missing` if it isn't in the table.
    pub(crate) fn type_of(self, ty: &Ty) -> Result<CType, Unbuilt>
        ensures { IfOk result (λ T. IsTyped self.entry
            → IsType self.entry.scope (bounds_in self.entry) T (type_of ty.now)) }
    {
        self.known().type_of(ty)
    }

    /// How many elements lists of a type have at most.
    pub(crate) fn most_of(self, element: &Ty) -> Result<usize, Unbuilt>
        ensures { IfOk result (λ m. m ≡ bounds_in self.entry (type_of element.now)) }
    {
        self.known().most_of(element)
    }

    /// The type of C of the elements of lists of a type, which is no array.
    pub(crate) fn base_of(self, element: &Ty) -> Result<Base, Unbuilt>
        ensures { IfOk result (λ b. IsTyped self.entry
            → base_meant (table self.entry.scope) b ≡ c_type (bounds_in self.entry) (type_of element.now)) }
    {
        match self.type_of(element)? {
            CType::One(base) => Ok(base),
            CType::Array(..) | CType::Grid(..) => Err(Unbuilt::Missing),
        }
    }
}
