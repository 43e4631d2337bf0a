// Whether values are the same.

ghost use Rattle.std.specs.Prelude.{◌≡◌, IfOk, map, ℕ};
ghost use Rattle.sample_core.specs.TypeTree.{bool_ty, int_ty, pair_ty, event_ty, list_ty};
ghost use Rattle.sample_core.specs.TypeView.{type_of};
ghost use Rattle.leaf_core.specs.TypeLimits.{same_tree};
ghost use Rattle.leaf_code.specs.Fitting.{Bounds};
ghost use Rattle.c_leaf.specs.LeafC.{has_no_list, same_term, same_command, same_body};
ghost use Rattle.c_file.specs.Compared.{is_among, number_among};
ghost use Rattle.c_build.specs.Symbols.{and_command, and_term};
ghost use Rattle.c_build.specs.Scopes.{made};
ghost use Rattle.c_build.specs.Places.{HasMost, place_term};

use crate::place::{Place, push_place};
use crate::scope::Scope;
use crate::sym::Sym;
use crate::table::TRUTH;
use crate::unbuilt::Unbuilt;
use c_text::{Literal, Operator, Scalar};
use sample_core::{Ty, TyChild, same_type};

/// Whether two types are the same.
pub(crate) fn is_same(a: &Ty, b: &Ty) -> bool
    ensures { result ≡ same_tree (type_of a.now) (type_of b.now) }
{
    same_type(a, b)
}

/// Whether a type is among others.
pub(crate) fn is_among(ty: &Ty, types: &[Ty]) -> bool
    ensures { result ≡ is_among (type_of ty.now) (map type_of types.now) }
{
    for other in types {
        if is_same(other, ty) {
            return true;
        }
    }
    false
}

/// The number of a type among others: how many they are where it isn't there.
pub(crate) fn number_among(types: &[Ty], ty: &Ty) -> usize
    ensures { result ≡ number_among (map type_of types.now) (type_of ty.now) }
{
    for (i, other) in types.iter().enumerate() {
        if is_same(other, ty) {
            return i;
        }
    }
    types.len()
}

/// Whether a type is without lists.
pub(crate) fn has_no_list(ty: &Ty) -> bool
    ensures { result ≡ has_no_list (type_of ty.now) }
{
    match ty {
        Ty::Unit | Ty::Bool | Ty::Int => true,
        Ty::Pair(a, b) => has_no_list(a.get()) && has_no_list(b.get()),
        Ty::Event(a) => has_no_list(a.get()),
        Ty::List(_) => false,
    }
}

/// Adds whether two values of a type without lists are the same.
#[cycle(push_same_term)]
pub(crate) fn push_same_term(
    scope: Scope<'_>,
    out: &mut Vec<Sym>,
    ty: &Ty,
    a: &Place<'_>,
    b: &Place<'_>,
) -> Result<(), Unbuilt>
    ensures { IfOk result (λ _. made scope.entry out.new.items
        ≡ and_term (same_term (type_of ty.now) (place_term a.now) (place_term b.now))
        (made scope.entry out.old.items)) }
{
    match ty {
        Ty::Unit => scope.add(out, &[Sym::Literal(Literal::Bool(true))]),
        Ty::Bool => push_same_truth(scope, out, a, b),
        Ty::Int => push_same_number(scope, out, a, b),
        Ty::Pair(s, t) => {
            push_same_term(
                scope,
                out,
                s.get(),
                &Place::Dot(&*a, 0),
                &Place::Dot(&*b, 0),
            )?;
            push_same_term(
                scope,
                out,
                t.get(),
                &Place::Dot(&*a, 1),
                &Place::Dot(&*b, 1),
            )?;
            scope.add(out, &[Sym::Both])
        }
        Ty::Event(t) => push_same_event(scope, out, t, a, b),
        Ty::List(_) => scope.add(out, &[Sym::Braced(0, None)]),
    }
}

/// Adds whether two truths are the same.
fn push_same_truth(
    scope: Scope<'_>,
    out: &mut Vec<Sym>,
    a: &Place<'_>,
    b: &Place<'_>,
) -> Result<(), Unbuilt>
    ensures { IfOk result (λ _. made scope.entry out.new.items
        ≡ and_term (same_term bool_ty (place_term a.now) (place_term b.now))
        (made scope.entry out.old.items)) }
{
    push_place(scope, out, a)?;
    push_place(scope, out, b)?;
    scope.add(out, &[Sym::Both])?;
    push_place(scope, out, a)?;
    scope.add(out, &[Sym::Inverse])?;
    push_place(scope, out, b)?;
    scope.add(out, &[Sym::Inverse, Sym::Both, Sym::Either])
}

/// Adds whether two numbers are the same.
fn push_same_number(
    scope: Scope<'_>,
    out: &mut Vec<Sym>,
    a: &Place<'_>,
    b: &Place<'_>,
) -> Result<(), Unbuilt>
    ensures { IfOk result (λ _. made scope.entry out.new.items
        ≡ and_term (same_term int_ty (place_term a.now) (place_term b.now))
        (made scope.entry out.old.items)) }
{
    push_place(scope, out, a)?;
    push_place(scope, out, b)?;
    scope.add(out, &[Sym::Binary(Operator::Equals, Scalar::Int64)])
}

/// Adds whether two events are the same.
#[cycle(push_same_term)]
fn push_same_event(
    scope: Scope<'_>,
    out: &mut Vec<Sym>,
    carried: &TyChild,
    a: &Place<'_>,
    b: &Place<'_>,
) -> Result<(), Unbuilt>
    ensures { IfOk result (λ _. made scope.entry out.new.items
        ≡ and_term (same_term (event_ty carried.now) (place_term a.now) (place_term b.now))
        (made scope.entry out.old.items)) }
{
    push_place(scope, out, a)?;
    scope.add(out, &[Sym::Dot(0)])?;
    push_place(scope, out, b)?;
    scope.add(out, &[Sym::Dot(0)])?;
    push_same_term(
        scope,
        out,
        carried.get(),
        &Place::Dot(&*a, 1),
        &Place::Dot(&*b, 1),
    )?;
    scope.add(out, &[Sym::Both])?;
    push_place(scope, out, b)?;
    scope.add(out, &[Sym::Dot(0), Sym::Inverse, Sym::Choice])
}

/// Adds whether two values are the same, as the next local. Those with lists are compared by functions, in the
/// order of their types.
pub(crate) fn push_same(
    scope: Scope<'_>,
    out: &mut Vec<Sym>,
    compared: &[Ty],
    ty: &Ty,
    a: &Place<'_>,
    b: &Place<'_>,
) -> Result<(), Unbuilt>
    ensures { IfOk result (λ _. made scope.entry out.new.items
        ≡ and_command (same_command (number_among (map type_of compared.now)) (type_of ty.now)
        (place_term a.now) (place_term b.now)) (made scope.entry out.old.items)) }
{
    if has_no_list(ty) {
        push_same_term(scope, out, ty, a, b)?;
        return scope.add(out, &[Sym::Define(TRUTH)]);
    }
    scope.add(out, &[Sym::Open])?;
    push_place(scope, out, a)?;
    scope.add(out, &[Sym::Const])?;
    push_place(scope, out, b)?;
    let k = number_among(compared, ty);
    scope.add(out, &[Sym::Const, Sym::Call(TRUTH, k)])
}

/// Adds the body of the function that compares values of a type, of which lists have so many elements at most.
pub(crate) fn push_same_body(
    scope: Scope<'_>,
    out: &mut Vec<Sym>,
    compared: &[Ty],
    ty: &Ty,
    most: u32,
) -> Result<(), Unbuilt>
    ensures { IfOk result (λ _. (n : Bounds) → HasMost n (type_of ty.now) most
        → made scope.entry out.new.items
        ≡ and_command (same_body n (number_among (map type_of compared.now)) (type_of ty.now))
        (made scope.entry out.old.items)) }
{
    match ty {
        Ty::Unit | Ty::Bool | Ty::Int => {
            push_same_term(scope, out, ty, &Place::Local(0), &Place::Local(1))?;
            scope.add(out, &[Sym::Answer])
        }
        Ty::Pair(a, b) => {
            push_pairs_same(scope, out, compared, a, b)?;
            Ok(())
        }
        Ty::Event(a) => {
            push_events_same(scope, out, compared, a)?;
            Ok(())
        }
        Ty::List(a) => {
            push_lists_same(scope, out, compared, a, most)?;
            Ok(())
        }
    }
}

/// Adds the body of the function that compares pairs.
fn push_pairs_same(
    scope: Scope<'_>,
    out: &mut Vec<Sym>,
    compared: &[Ty],
    a: &TyChild,
    b: &TyChild,
) -> Result<(), Unbuilt>
    ensures { IfOk result (λ _. (n : Bounds) → made scope.entry out.new.items
        ≡ and_command (same_body n (number_among (map type_of compared.now)) (pair_ty a.now b.now))
        (made scope.entry out.old.items)) }
{
    let (v, w) = (Place::Local(0), Place::Local(1));
    push_same(
        scope,
        out,
        compared,
        a.get(),
        &Place::Dot(&v, 0),
        &Place::Dot(&w, 0),
    )?;
    push_same(
        scope,
        out,
        compared,
        b.get(),
        &Place::Dot(&v, 1),
        &Place::Dot(&w, 1),
    )?;
    scope.add(
        out,
        &[
            Sym::Local(2),
            Sym::Local(3),
            Sym::Both,
            Sym::Answer,
            Sym::Block(3),
        ],
    )
}

/// Adds the body of the function that compares events.
fn push_events_same(
    scope: Scope<'_>,
    out: &mut Vec<Sym>,
    compared: &[Ty],
    a: &TyChild,
) -> Result<(), Unbuilt>
    ensures { IfOk result (λ _. (n : Bounds) → made scope.entry out.new.items
        ≡ and_command (same_body n (number_among (map type_of compared.now)) (event_ty a.now))
        (made scope.entry out.old.items)) }
{
    let (v, w) = (Place::Local(0), Place::Local(1));
    push_same(
        scope,
        out,
        compared,
        a.get(),
        &Place::Dot(&v, 1),
        &Place::Dot(&w, 1),
    )?;
    let is_first = [Sym::Local(0), Sym::Dot(0)];
    let is_second = [Sym::Local(1), Sym::Dot(0)];
    scope.add(out, &[Sym::Local(2), Sym::Answer, Sym::Block(2), Sym::Skip])?;
    scope.add(out, &is_first)?;
    scope.add(out, &is_second)?;
    scope.add(out, &[Sym::Both, Sym::Branch])?;
    scope.add(out, &is_first)?;
    scope.add(out, &[Sym::Inverse])?;
    scope.add(out, &is_second)?;
    scope.add(out, &[Sym::Inverse, Sym::Both, Sym::Answer, Sym::Block(2)])
}

/// Adds the body of the function that compares lists.
fn push_lists_same(
    scope: Scope<'_>,
    out: &mut Vec<Sym>,
    compared: &[Ty],
    a: &TyChild,
    most: u32,
) -> Result<(), Unbuilt>
    ensures { IfOk result (λ _. (n : Bounds) → n a.now ≡ most → made scope.entry out.new.items
        ≡ and_command (same_body n (number_among (map type_of compared.now)) (list_ty a.now))
        (made scope.entry out.old.items)) }
{
    let stop = [
        Sym::Skip,
        Sym::Literal(Literal::Bool(false)),
        Sym::Answer,
        Sym::Branch,
    ];
    let equals = Sym::Binary(Operator::Equals, Scalar::Uint32);
    let less = Sym::Binary(Operator::Less, Scalar::Uint32);
    let (v, w) = (Place::Local(0), Place::Local(1));
    let (v, w) = (Place::Dot(&v, 1), Place::Dot(&w, 1));
    let sizes = [
        Sym::Local(0),
        Sym::Dot(0),
        Sym::Local(1),
        Sym::Dot(0),
        equals,
    ];
    scope.add(out, &sizes)?;
    scope.add(out, &stop)?;
    push_same(
        scope,
        out,
        compared,
        a.get(),
        &Place::At(&v, 2),
        &Place::At(&w, 2),
    )?;
    scope.add(out, &[Sym::Local(3)])?;
    scope.add(out, &stop)?;
    let bound = [
        Sym::Block(2),
        Sym::Local(2),
        Sym::Local(0),
        Sym::Dot(0),
        less,
    ];
    scope.add(out, &bound)?;
    let end = [
        Sym::Loop(most),
        Sym::Literal(Literal::Bool(true)),
        Sym::Answer,
        Sym::Block(3),
    ];
    scope.add(out, &end)
}
