// Parts of values.

ghost use Rattle.std.specs.Prelude.{◌≡◌, ◌+ℤ◌, ◌*ℤ◌, IfOk};
ghost use Rattle.std.specs.Int.{int_wrap, w64};
ghost use Rattle.sample_core.specs.{Datum.pair, ValueView.datum_of};

use sample_core::{Memory, Sample, SampleChild, SamplePair};
use std::alloc::{AllocError, Global};

/// The product modulo 2^64, read as signed.
pub fn product(m: i64, n: i64) -> i64
    ensures { result ≡ int_wrap w64 (m *ℤ n) }
{
    m.wrapping_mul(n)
}

/// The sum modulo 2^64, read as signed.
pub fn sum(m: i64, n: i64) -> i64
    ensures { result ≡ int_wrap w64 (m +ℤ n) }
{
    m.wrapping_add(n)
}

/// A copy of the value, whose parts are shared with it. `AllocError` only where a count of
/// references is full.
pub fn copied(alloc: Global, value: &Sample) -> Result<Sample, AllocError>
    ensures { IfOk result (λ s. s ≡ value.now) }
{
    match value.try_copy(alloc) {
        Ok(copy) => Ok(copy),
        Err(Memory) => Err(AllocError),
    }
}

/// A pair of copies of the values. `AllocError` where allocation failed.
pub fn paired(alloc: Global, first: &Sample, second: &Sample) -> Result<Sample, AllocError>
    ensures { IfOk result (λ s. datum_of s ≡ pair (datum_of first.now) (datum_of second.now)) }
{
    let first = copied(alloc, first)?;
    match copied(alloc, second) {
        Ok(second) => joined(alloc, first, second),
        Err(AllocError) => {
            drop(first);
            Err(AllocError)
        }
    }
}

/// The pair of the values. `AllocError` where allocation failed.
fn joined(alloc: Global, first: Sample, second: Sample) -> Result<Sample, AllocError>
    ensures { IfOk result (λ s. datum_of s ≡ pair (datum_of first) (datum_of second)) }
{
    match SamplePair::new(alloc, first, second) {
        Ok(parts) => Ok(Sample::Pair(parts)),
        Err(Memory) => Err(AllocError),
    }
}

/// A copy of the value, as a part of another. `AllocError` where allocation failed.
pub fn child(alloc: Global, value: &Sample) -> Result<SampleChild, AllocError>
    ensures { IfOk result (λ c. c ≡ datum_of value.now) }
{
    let copy = copied(alloc, value)?;
    match SampleChild::new(alloc, copy) {
        Ok(child) => Ok(child),
        Err(Memory) => Err(AllocError),
    }
}
