// What members of a switch are asked with, and the list of their answers.

ghost use Rattle.std.specs.Prelude.{◌≡◌, IfOk, map, pos};
ghost use Rattle.sample_core.specs.{Datum.int, Datum.list, Datum.list_of, Datum.pair, ValueView.datum_of};

use sample_core::{Memory, Sample, SamplePair, Samples};
use std::alloc::Global;

/// The pair of the sample and the member's number, from 0, by which a `pSwitch` routes. `Memory` if
/// allocation fails.
pub fn route(alloc: Global, sample: &Sample, i: u32) -> Result<Sample, Memory>
    ensures { IfOk result (λ p. datum_of p ≡ pair (datum_of sample.now) (int (pos i))) }
{
    let first = sample.try_copy(alloc)?;
    let pair = SamplePair::new(alloc, first, Sample::Int(i64::from(i)))?;
    Ok(Sample::Pair(pair))
}

/// The list of the members' answers, in member order. `Memory` if allocation fails.
pub fn gather(alloc: Global, answers: Vec<Sample>) -> Result<Sample, Memory>
    ensures { IfOk result (λ v. datum_of v ≡ list (list_of (map datum_of answers.items))) }
{
    let answers = Samples::new(alloc, answers)?;
    Ok(Sample::List(answers))
}
