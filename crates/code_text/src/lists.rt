// Which types have lists in them.

ghost use Rattle.std.specs.Prelude.{◌≡◌};
ghost use Rattle.sample_core.specs.TypeView.{type_of};
ghost use Rattle.code_text.specs.Lists.{has_lists};

use sample_core::Ty;

/// Whether a type has a list in it.
pub fn has_lists(ty: &Ty) -> bool
    ensures { result ≡ has_lists (type_of ty.now) }
{
    match ty {
        Ty::Unit | Ty::Bool | Ty::Int => false,
        Ty::Pair(a, b) => has_lists(a.get()) || has_lists(b.get()),
        Ty::Event(a) => has_lists(a.get()),
        Ty::List(_) => true,
    }
}
