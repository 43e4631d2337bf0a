// A runner that may be handed any step and any value.

ghost use Rattle.std.specs.Prelude.{◌≡◌};
ghost use Rattle.std.proofs.Props.{props};
ghost use Rattle.sample_core.specs.{TypeCode.type_code, TypeView.type_of};
ghost use Rattle.leaf_table.specs.Rows.{rows_of};
ghost use Rattle.step_core.specs.{Binding.FitsTable, RunnerView.runner_state};

use leaf_table::LeafTable;
use row_texts::texts::{number_in, value_in};
use sample_core::{Memory, Sample, Ty, has_type};
use std::alloc::Global;
use step_core::{Bound, Runner};

/// A runner, with the type of its inputs, how many pushes it refused, and whether it tells another
/// count of samples or of visits behind a refusal.
#[derive(Drop)]
pub struct WatchedRunner<'a> {
    runner: Runner<'a>,
    input: &'a Ty,
    refused: u64,
    changed: bool,
    ghost same_input: { (runner_state runner).input ≡ type_of input.now } by { Prim.hlevel (props, type_code) },
}

impl<'a> WatchedRunner<'a> {
    /// The network before its first sample.
    pub fn new(alloc: Global, bound: &'a Bound, table: &'a LeafTable) -> WatchedRunner<'a>
        requires { FitsTable (rows_of table.now) bound.now }
    {
        let runner = Runner::new(alloc, bound, table);
        WatchedRunner {
            runner,
            input: bound.input(),
            refused: 0,
            changed: false,
        }
    }

    /// The network's answer to one sample more. `Memory` too where the runner may not be handed
    /// such a step or value.
    pub fn push(&mut self, step: u64, sample: &Sample) -> Result<Sample, Memory> {
        let is_step = 1 <= step && step < 1 << 63;
        if is_step && self.runner.samples() < 1_000 && has_type(sample, self.input) {
            let before = (self.runner.samples(), self.runner.last_visits());
            let answer = self.runner.push(step, sample);
            if answer.is_err() {
                let behind = (self.runner.samples(), self.runner.last_visits());
                self.refused = self.refused.saturating_add(1);
                self.changed = self.changed || behind != before;
            }
            answer
        } else {
            Err(Memory)
        }
    }

    /// How many nodes the last sample visited.
    pub fn last_visits(&self) -> usize {
        self.runner.last_visits() as usize
    }

    /// How many pushes that the runner may be handed were refused memory.
    pub fn refused(&self) -> u64 {
        self.refused
    }

    /// Whether a refused push changed how many samples or visits are told.
    pub fn changed(&self) -> bool {
        self.changed
    }

    /// The step and the value of a line of a stream; a line without a step has step 1.
    pub fn line(&self, alloc: Global, line: &str) -> (u64, Option<Box<Sample>>) {
        match line.strip_prefix('+') {
            Some(line) => {
                let (step, value) = numbered_first(line);
                (step, value_in(alloc, self.input, value))
            }
            None => (1, value_in(alloc, self.input, line)),
        }
    }
}

fn numbered_first(line: &str) -> (u64, &str) {
    let (digits, value) = line.split_once(" ").unwrap_or((line, ""));
    (number_in(digits) as u64, value)
}
