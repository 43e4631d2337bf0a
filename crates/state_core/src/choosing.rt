// The members of a collection that go on.

ghost use Rattle.std.specs.Prelude.{◌≡◌, ◌∷◌, [], IfOk, MatchOption, map};
ghost use Rattle.sample_core.specs.ValueView.{datum_of};
ghost use Rattle.net_meaning.specs.SignalFunction.{item_named};
ghost use Rattle.state_core.specs.State.{selected};
ghost use Rattle.state_core.specs.StateView.{frozen_of};

use crate::env::Frozen;
use net_tree::MOST_MEMBERS;
use sample_core::{Memory, Sample};
use std::alloc::Global;

/// The frozen networks of those numbers, in the order of the numbers: none for a number outside, a
/// further copy for a repeated one; the first 64 of them. `Memory` if allocation fails.
pub fn select<'n>(
    alloc: Global,
    all: &[Frozen<'n>],
    numbers: &Sample,
) -> Result<Vec<Frozen<'n>>, Memory>
    ensures { IfOk result (λ fs. map frozen_of fs.items
        ≡ selected (map frozen_of all.now) (datum_of numbers.now)) }
{
    let mut chosen = Vec::new(alloc);
    for number in numbers.elements() {
        if chosen.len() == MOST_MEMBERS {
            return Ok(chosen);
        }
        if let Some(frozen) = named(all, number) {
            let frozen = frozen.try_copy(alloc)?;
            chosen.push(frozen)?;
        }
    }
    Ok(chosen)
}

/// The frozen network of the number; none for a number outside, and for another value.
fn named<'a, 'n>(all: &'a [Frozen<'n>], number: &Sample) -> Option<&'a Frozen<'n>>
    ensures { MatchOption result (item_named (map frozen_of all.now) (datum_of number.now) ≡ [])
        (λ f. item_named (map frozen_of all.now) (datum_of number.now) ≡ frozen_of f.now ∷ []) }
{
    match number {
        Sample::Int(k) => match usize::try_from(*k) {
            Ok(k) => match all.get(k) {
                Some(found) => Some(found),
                None => None,
            },
            Err(_) => None,
        },
        _ => None,
    }
}
