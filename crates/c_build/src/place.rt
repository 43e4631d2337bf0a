// Where objects stand.

ghost use Rattle.std.specs.Prelude.{◌≡◌, IfOk};
ghost use Rattle.c_build.specs.Symbols.{and_term};
ghost use Rattle.c_build.specs.Scopes.{made};
ghost use Rattle.c_build.specs.Places.{place_term};

use crate::scope::Scope;
use crate::sym::Sym;
use crate::unbuilt::Unbuilt;

/// Where an object stands.
#[derive(Clone, Copy)]
pub(crate) enum Place<'a> {
    /// Local k.
    Local(usize),
    /// Member k of another.
    Dot(&'a Place<'a>, usize),
    /// The element of another whose number is in local k.
    At(&'a Place<'a>, usize),
}

/// Adds the term of a place.
#[tactic(auto, using(crate::proofs::Runs::run_joined))]
pub(crate) fn push_place(
    scope: Scope<'_>,
    out: &mut Vec<Sym>,
    place: &Place<'_>,
) -> Result<(), Unbuilt>
    ensures { IfOk result (λ _. made scope.entry out.new.items
        ≡ and_term (place_term place.now) (made scope.entry out.old.items)) }
{
    match place {
        Place::Local(k) => scope.add(out, &[Sym::Local(*k)]),
        Place::Dot(owner, k) => {
            push_place(scope, out, *owner)?;
            scope.add(out, &[Sym::Dot(*k)])
        }
        Place::At(all, k) => {
            push_place(scope, out, *all)?;
            scope.add(out, &[Sym::Local(*k), Sym::At])
        }
    }
}
