// When two values, or two types, are the same.

ghost use Rattle.std.specs.Prelude.{◌≡◌, ◌↔◌, IsTrue};
ghost use Rattle.sample_core.specs.{Datum.list_of, ValueView.datum_of, TypeView.type_of};

use crate::sample::{Sample, Samples};
use crate::ty::Ty;

/// Whether the two values are equal, all their parts included. It takes no memory.
#[cycle(same)]
pub fn same(a: &Sample, b: &Sample) -> bool
    ensures { IsTrue result ↔ (datum_of a.now ≡ datum_of b.now) }
{
    match (a, b) {
        (Sample::Unit, Sample::Unit) => true,
        (Sample::Bool(x), Sample::Bool(y)) => x == y,
        (Sample::Int(x), Sample::Int(y)) => x == y,
        (Sample::Pair(v), Sample::Pair(w)) => same(v.first(), w.first())
            && same(v.second(), w.second()),
        (Sample::NoEvent, Sample::NoEvent) => true,
        (Sample::Event(v), Sample::Event(x)) => same(v.get(), x.get()),
        (Sample::List(vs), Sample::List(xs)) => same_elements(vs, xs),
        _ => false,
    }
}

/// Whether the elements of two lists are equal.
#[cycle(same)]
#[tactic(auto, using(std::proofs::lemmas::Grind::common_steps, crate::proofs::Elements::element_smaller, crate::proofs::Elements::same_length))]
fn same_elements(vs: &Samples, xs: &Samples) -> bool
    ensures { IsTrue result ↔ (list_of vs.now ≡ list_of xs.now) }
{
    let vs = vs.as_slice();
    let xs = xs.as_slice();
    if vs.len() != xs.len() {
        return false;
    }
    for i in 0..vs.len() {
        if !same(&vs[i], &xs[i]) {
            return false;
        }
    }
    true
}

/// Whether the two types are equal, all their parts included. It takes no memory.
pub fn same_type(a: &Ty, b: &Ty) -> bool
    ensures { IsTrue result ↔ (type_of a.now ≡ type_of b.now) }
{
    match (a, b) {
        (Ty::Unit, Ty::Unit) => true,
        (Ty::Bool, Ty::Bool) => true,
        (Ty::Int, Ty::Int) => true,
        (Ty::Pair(t, u), Ty::Pair(v, w)) => same_type(t.get(), v.get())
            && same_type(u.get(), w.get()),
        (Ty::Event(t), Ty::Event(v)) => same_type(t.get(), v.get()),
        (Ty::List(t), Ty::List(v)) => same_type(t.get(), v.get()),
        _ => false,
    }
}
