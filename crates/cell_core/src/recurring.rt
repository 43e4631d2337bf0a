// What a `repeatedly` keeps and doesn't change.

ghost use Rattle.std.specs.Prelude.{◌≡◌, ◌≤◌, IfOk};

use sample_core::{Memory, SampleChild};
use std::alloc::Global;
use std::rc::Rc;

/// The q of a `repeatedly`, and what its events carry.
#[derive(Drop)]
pub struct Recurring {
    pub(crate) q: u64,
    pub(crate) value: SampleChild,
    ghost positive: { 1 ≤ q },
}

impl Recurring {
    /// The q and the value, to be shared. `Memory` if allocation fails.
    pub(crate) fn new(alloc: Global, q: u64, value: SampleChild) -> Result<Rc<Recurring>, Memory>
        requires { 1 ≤ q }
        ensures { IfOk result (λ r. (r.value.q ≡ q) × (r.value.value ≡ value)) }
    {
        let recurring = Rc::new(alloc, Recurring { q, value })?;
        Ok(recurring)
    }
}
