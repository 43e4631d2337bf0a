// Finds the types of places.

ghost use Rattle.std.specs.Prelude.{◌≡◌};
ghost use Rattle.c_text.specs.PlaceType.{element_type, kind_of, local_type, member_type, place_type};

use crate::tree::{Base, CType, Kind, Local, Struct, Term};

/// The type of a local.
fn local_type(locals: &[Local], k: usize) -> CType
    ensures { result ≡ local_type locals.now k }
{
    match locals.get(k) {
        Some(local) => local.ty,
        None => CType::One(Base::Bool),
    }
}

/// The type of a member of an object of this type.
fn member_type(structs: &[Struct], ty: CType, k: usize) -> CType
    ensures { result ≡ member_type structs.now ty k }
{
    match ty {
        CType::One(Base::Struct(j)) => match structs.get(j) {
            Some(each) => match each.members.as_slice().get(k) {
                Some(member) => *member,
                None => CType::One(Base::Bool),
            },
            None => CType::One(Base::Bool),
        },
        _ => CType::One(Base::Bool),
    }
}

/// The type of an element, of a grid an array.
fn element_type(ty: CType) -> CType
    ensures { result ≡ element_type ty }
{
    match ty {
        CType::Grid(_, n, base) => CType::Array(n, base),
        CType::Array(_, base) | CType::One(base) => CType::One(base),
    }
}

/// The kind of a type's struct.
pub(crate) fn kind_of(structs: &[Struct], ty: CType) -> Kind
    ensures { result ≡ kind_of structs.now ty }
{
    match ty {
        CType::One(Base::Struct(j)) => match structs.get(j) {
            Some(each) => each.kind,
            None => Kind::Kept,
        },
        _ => Kind::Kept,
    }
}

/// The type of what a term designates.
pub(crate) fn place_type(structs: &[Struct], locals: &[Local], place: &Term) -> CType
    ensures { result ≡ place_type structs.now locals.now place.now }
{
    match place {
        Term::Local(k) => local_type(locals, *k),
        Term::Dot(e, k) => member_type(structs, place_type(structs, locals, e), *k),
        Term::At(e, _) => element_type(place_type(structs, locals, e)),
        Term::Zeroed(ty) => *ty,
        Term::Choice(_, a, _) => place_type(structs, locals, a),
        _ => CType::One(Base::Bool),
    }
}
