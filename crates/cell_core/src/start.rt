// How each form starts.

ghost use Rattle.std.specs.Prelude.{◌≡◌, ◌≤◌, IfOk};
ghost use Rattle.sample_core.specs.{Datum.unit, ValueView.datum_of};
ghost use Rattle.cell_core.specs.{CellView.outcome_of, Start.cell_start};

use crate::cell::Cell;
use crate::form::Form;
use crate::recurring::Recurring;
use sample_core::{Memory, Sample, SampleChild};
use std::alloc::Global;

/// An `iPre` answers its constant and keeps the sample.
pub(crate) fn i_pre(
    alloc: Global,
    constant: Sample,
    sample: &Sample,
) -> Result<(Cell, Sample), Memory>
    ensures { IfOk result
        (λ r. outcome_of r ≡ cell_start Form.IPre (datum_of constant) (datum_of sample.now)) }
{
    let kept = sample.try_copy(alloc)?;
    Ok((Cell::IPre(kept), constant))
}

/// An `after` is past at once where q is 0, else all of q is left.
pub(crate) fn after(alloc: Global, q: u64, constant: Sample) -> Result<(Cell, Sample), Memory>
    ensures { IfOk result
        (λ r. outcome_of r ≡ cell_start (Form.After q) (datum_of constant) unit) }
{
    let value = SampleChild::new(alloc, constant)?;
    if q == 0 {
        let carried = value.try_copy()?;
        Ok((Cell::After(0, value), Sample::Event(carried)))
    } else {
        Ok((Cell::After(q, value), Sample::NoEvent))
    }
}

/// A `repeatedly` has all of q left.
pub(crate) fn repeatedly(alloc: Global, q: u64, constant: Sample) -> Result<(Cell, Sample), Memory>
    requires { 1 ≤ q }
    ensures { IfOk result
        (λ r. outcome_of r ≡ cell_start (Form.Repeatedly q) (datum_of constant) unit) }
{
    let value = SampleChild::new(alloc, constant)?;
    let recurring = Recurring::new(alloc, q, value)?;
    Ok((Cell::Repeatedly(q, recurring), Sample::NoEvent))
}

/// A `time` starts at 0.
pub(crate) fn time() -> (Cell, Sample)
    ensures { outcome_of result ≡ cell_start Form.Time unit unit }
{
    (Cell::Time(0), Sample::Int(0))
}

/// An `integral` starts at 0 and keeps the sample.
pub(crate) fn integral(sample: &Sample) -> (Cell, Sample)
    ensures { outcome_of result ≡ cell_start Form.Integral unit (datum_of sample.now) }
{
    (Cell::Integral(0, sample.number()), Sample::Int(0))
}
