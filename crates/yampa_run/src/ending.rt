// What the program ends with: its exit status, and a line on standard error where something is refused.

ghost use Rattle.std.specs.Prelude.{◌≡◌, MatchOption, true};
ghost use Rattle.yampa_run.specs.Endings.{EndsJob, EndsRun, RefusesOutput, ending_status};
ghost use Rattle.yampa_run.specs.RefusalLines.{answer_status, job_status};
ghost use Rattle.yampa_run.specs.declared.ending.Ending.TheVariants as E;

use crate::fault::{RunFault, RunReport};
use crate::network_run::run_refusal;
use crate::preparation::{Job, Refusal};
use std::alloc::Global;

/// What the program ends with.
#[derive(Drop)]
pub enum Ending {
    /// All was done.
    Done,
    /// This is refused.
    Refused(Refusal),
}

impl Ending {
    /// The exit status: 0, or the refusal's.
    pub fn status(&self) -> u8
        ensures { result ≡ ending_status self.now }
    {
        match self {
            Ending::Done => 0,
            Ending::Refused(refusal) => refusal.status(),
        }
    }

    /// What is refused, if anything: its line goes to standard error.
    pub fn refusal(&self) -> Option<&Refusal>
        ensures { MatchOption result (self.now ≡ E.Done) (λ refusal. self.now ≡ E.Refused refusal.now) }
    {
        match self {
            Ending::Done => None,
            Ending::Refused(refusal) => Some(refusal),
        }
    }
}

/// What a job ends with whose text was printed, by whether the host took all of it.
pub fn job_ending(alloc: Global, job: Job, is_given: bool) -> Ending
    ensures ends { EndsJob job is_given result }
    ensures status { is_given ≡ true → ending_status result ≡ job_status job }
{
    match (is_given, job) {
        (true, Job::PrintAndRefuse { text: _, line }) => {
            Ending::Refused(Refusal::Line { status: 1, line })
        }
        (true, _) => Ending::Done,
        (false, _) => output_refused(alloc),
    }
}

/// What a run ends with, by what `run_network` answers and whether the host took all output. Where
/// it didn't, the lines before a fault of the stream weren't all printed, so that is told, and not
/// the stream's fault.
pub fn run_ending(alloc: Global, answer: Result<RunReport, Refusal>, is_given: bool) -> Ending
    ensures ends { EndsRun answer is_given result }
    ensures status { is_given ≡ true → ending_status result ≡ answer_status answer }
{
    match (is_given, answer) {
        (true, Ok(_)) => Ending::Done,
        (true, Err(refusal)) => Ending::Refused(refusal),
        (false, _) => output_refused(alloc),
    }
}

/// That the host has refused output. How many lines it took isn't known, and isn't told.
fn output_refused(alloc: Global) -> Ending
    ensures { RefusesOutput result }
{
    Ending::Refused(run_refusal(alloc, &RunFault::Write { lines: 0 }))
}
