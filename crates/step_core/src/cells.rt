// The first sample of a cell, and a sample of an `accumBy`.

ghost use Rattle.std.specs.Prelude.{◌≡◌, ◌↔◌, ℕ, IfOk, IsTrue, map};
ghost use Rattle.sample_core.specs.{Datum.event, ValueView.datum_of};
ghost use Rattle.cell_core.specs.{Cell.accumulator_of, CellView.cell_of, Start.IsWithin};
ghost use Rattle.net_tree.specs.Network.{Network, accum_by};
ghost use Rattle.state_core.specs.RowsView.{row_number};
ghost use Rattle.state_core.specs.State.{Scope, accum_state, cell_state, params_of, unstarted};
ghost use Rattle.step_core.specs.{Called.IsConstant, Called.IsPutIn, Flow.IsAccumAdded, Flow.IsCell, Flow.number_of};
ghost use Rattle.step_core.specs.Runs.{RunsWhere};

use crate::on::On;
use crate::rows::Rows;
use cell_core::{Cell, Form};
use leaf_table::LeafId;
use sample_core::{Memory, Sample, SampleChild};
use state_core::Cells;
use std::alloc::Global;

/// The cell after its first sample, and its answer.
#[inline(never)]
pub(crate) fn start_cell<R: Rows>(
    alloc: Global,
    rows: &R,
    form: Form,
    constant: Option<LeafId>,
    params: &[Sample],
    x: &Sample,
) -> Result<(Cell, Sample), Memory>
    ensures { IfOk result (λ r. (net : Network ℕ) (s : Scope ℕ)
        → IsCell net form (number_of constant) → params_of s ≡ map datum_of params.now
        → RunsWhere (R.keys rows.now) (unstarted net s) (datum_of x.now)
        (cell_state (cell_of r.0)) (datum_of r.1) 1) }
{
    if !is_within(form) {
        return Err(Memory);
    }
    let value = constant_value(rows, constant, params)?;
    Cell::start(alloc, form, value, x)
}

/// Whether a cell of this form can start.
fn is_within(form: Form) -> bool
    ensures { IsTrue result ↔ IsWithin form }
{
    match form {
        Form::Delay(q) | Form::Repeatedly(q) => 1 <= q,
        _ => true,
    }
}

/// The value of a form's constant; the unit where it has none.
fn constant_value<R: Rows>(
    rows: &R,
    constant: Option<LeafId>,
    params: &[Sample],
) -> Result<Sample, Memory>
    ensures { IfOk result (λ v. IsConstant (R.keys rows.now) (number_of constant)
        (map datum_of params.now) (datum_of v)) }
{
    match constant {
        Some(c) => rows.call(c, params, &Sample::Unit),
        None => Ok(Sample::Unit),
    }
}

/// The cell of an `accumBy` after its first sample, and its answer.
#[inline(never)]
pub(crate) fn start_accum<R: Rows>(
    on: &On<'_, '_, R>,
    g: LeafId,
    z: LeafId,
    x: &Sample,
) -> Result<(Cell, Sample), Memory>
    ensures { IfOk result (λ r. (s : Scope ℕ) → params_of s ≡ on.now.env.now.params
        → RunsWhere (R.keys on.now.rows.now) (unstarted (accum_by (row_number g) (row_number z)) s)
        (datum_of x.now)
        (accum_state (row_number g) on.now.env.now.params (accumulator_of (cell_of r.0)))
        (datum_of r.1) 1) }
{
    let value = on.rows.call(z, on.params(), &Sample::Unit)?;
    match x {
        Sample::Event(event) => match put_event(on, g, &value, event.get()) {
            Ok(input) => {
                let first = Cell::start(on.alloc, Form::AccumBy, value, &input);
                drop(input);
                first
            }
            Err(memory) => {
                drop(value);
                Err(memory)
            }
        },
        _ => Cell::start(on.alloc, Form::AccumBy, value, x),
    }
}

/// Puts the answer of an `accumBy` to a further sample in place of another value; its cell after it
/// is one cell more.
#[inline(always)]
pub(crate) fn step_accum<R: Rows>(
    on: &On<'_, '_, R>,
    g: LeafId,
    cell: &Cell,
    x: &Sample,
    cells: &mut Cells,
    out: &mut Sample,
) -> Result<(), Memory>
    ensures { IfOk result (λ _. IsAccumAdded (R.keys on.now.rows.now) (row_number g)
        on.now.env.now.params (accumulator_of (cell_of cell.now)) (datum_of x.now) cells.old
        cells.new (datum_of out.new)) }
{
    match cell.accumulator() {
        Some(held) => match x {
            Sample::Event(value) => {
                let input = put_event(on, g, held, value.get())?;
                let done = cells.push_step(on.alloc, cell, 0, &input, out);
                drop(input);
                done
            }
            _ => cells.push_step(on.alloc, cell, 0, x, out),
        },
        None => Err(Memory),
    }
}

/// The event of what the row answers to the pair of the accumulator and an event's value.
fn put_event<R: Rows>(
    on: &On<'_, '_, R>,
    g: LeafId,
    held: &Sample,
    value: &Sample,
) -> Result<Sample, Memory>
    ensures { IfOk result (λ a. IsPutIn (R.keys on.now.rows.now) (row_number g)
        on.now.env.now.params (datum_of held.now) (event (datum_of value.now)) (datum_of a)) }
{
    let input = on.rows.pair(on.alloc, held, value)?;
    let answer = on.rows.call(g, on.params(), &input);
    on.rows.give_back(input);
    let event = SampleChild::new(on.alloc, answer?)?;
    Ok(Sample::Event(event))
}
