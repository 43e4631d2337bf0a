// Which values are of which type.

ghost use Rattle.std.specs.Prelude.{◌↔◌, IsTrue};
ghost use Rattle.sample_core.specs.{Datum.list_of, HasType.HasType, HasType.HaveType, ValueView.datum_of};
ghost use Rattle.sample_core.specs.TypeView.{type_of};

use crate::sample::{Sample, Samples};
use crate::ty::{Ty, TyChild};

/// Whether the value is of the type, all its parts included. `none` is of every event type, and
/// the empty list of every list type. It takes no memory.
#[cycle(has_type)]
#[tactic(auto, using(crate::proofs::HasTypeCases::pair_is, crate::proofs::HasTypeCases::event_is, crate::proofs::HasTypeCases::list_is, crate::specs::HasType::unit_has, crate::specs::HasType::bool_has, crate::specs::HasType::int_has, crate::specs::HasType::no_event_has))]
pub fn has_type(sample: &Sample, ty: &Ty) -> bool
    ensures { IsTrue result ↔ HasType (datum_of sample.now) (type_of ty.now) }
{
    match (sample, ty) {
        (Sample::Unit, Ty::Unit) => true,
        (Sample::Bool(_), Ty::Bool) => true,
        (Sample::Int(n), Ty::Int) => {
            // Read, so that the proof knows it to be one of 64 bits.
            let _in_range = *n;
            true
        }
        (Sample::Pair(v), Ty::Pair(a, b)) => has_type(v.first(), a.get())
            && has_type(v.second(), b.get()),
        (Sample::NoEvent, Ty::Event(_)) => true,
        (Sample::Event(v), Ty::Event(a)) => has_type(v.get(), a.get()),
        (Sample::List(all), Ty::List(a)) => have_type(all, a),
        _ => false,
    }
}

/// Whether each element is of the type.
#[cycle(has_type)]
fn have_type(all: &Samples, a: &TyChild) -> bool
    ensures { IsTrue result ↔ HaveType (list_of all.now) a.now }
{
    for v in all.as_slice() {
        if !has_type(v, a.get()) {
            return false;
        }
    }
    true
}
