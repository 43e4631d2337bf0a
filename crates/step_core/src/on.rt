// What the nodes of a network run on.

ghost use Rattle.std.specs.Prelude.{◌≡◌, ◌+◌, ◌<◌, ◌^◌, suc, None, Some, map};
ghost use Rattle.sample_core.specs.ValueView.{datum_of};
ghost use Rattle.state_core.specs.StateView.{kept_of, scope_of};
ghost use Rattle.step_core.specs.Flow.{past_in};

use sample_core::Sample;
use state_core::{Env, Kept, Running};
use std::alloc::Global;

/// What the nodes of a network run on beside the sample: the rows of its expressions, its scope,
/// what it kept before, once it has started, and the time since the sample before.
#[derive(Drop)]
pub(crate) struct On<'s, 'n, R> {
    pub(crate) alloc: Global,
    pub(crate) rows: &'s R,
    pub(crate) env: &'s Env<'n>,
    pub(crate) before: Option<&'s Kept<'n>>,
    pub(crate) dt: u64,
}

impl<'s, 'n, R> On<'s, 'n, R> {
    /// What a network that starts in another scope runs on.
    #[inline(always)]
    pub(crate) fn started<'b>(&'b self, env: &'b Env<'n>) -> On<'b, 'n, R>
        ensures rows { result.rows.now ≡ self.entry.now.rows.now }
        ensures scope { scope_of result.env.now ≡ scope_of env.entry.now }
        ensures past { past_in result.before result.dt ≡ None }
    {
        On {
            alloc: self.alloc,
            rows: self.rows,
            env,
            before: None,
            dt: self.dt,
        }
    }

    /// What a network that goes on, so much time after the sample before, runs on.
    #[inline(always)]
    pub(crate) fn going<'b>(&'b self, running: &'b Running<'n>, dt: u64) -> On<'b, 'n, R>
        ensures rows { result.rows.now ≡ self.entry.now.rows.now }
        ensures scope { scope_of result.env.now ≡ scope_of running.entry.now.env }
        ensures past { past_in result.before result.dt ≡ Some (kept_of running.entry.now.kept, dt) }
    {
        On {
            alloc: self.alloc,
            rows: self.rows,
            env: &running.env,
            before: Some(&running.kept),
            dt,
        }
    }

    /// The parameters in scope.
    #[inline(always)]
    pub(crate) fn params(&self) -> &[Sample]
        ensures { map datum_of result.now ≡ self.now.env.now.params }
    {
        self.env.params.as_slice()
    }
}

/// One node and what its parts visited, where that fits 32 bits.
pub(crate) fn node(first: u32, second: u32) -> u32
    ensures { suc (first + second) < 2 ^ 32 → result ≡ suc (first + second) }
{
    first.saturating_add(second).saturating_add(1)
}

/// What two parts visited, where that fits 32 bits.
pub(crate) fn both(first: u32, second: u32) -> u32
    ensures { first + second < 2 ^ 32 → result ≡ first + second }
{
    first.saturating_add(second)
}
