// The types of a frozen network.

ghost use Rattle.std.specs.Prelude.{◌≡◌, IfOk};

use sample_core::{Memory, Ty};
use std::alloc::Global;

/// The input type and the output type of a frozen network in scope.
#[derive(Drop)]
pub struct Arrow {
    /// The type of each sample that it gets.
    pub input: Ty,
    /// The type of each sample that it outputs.
    pub output: Ty,
}

impl Arrow {
    /// A copy, whose parts are shared with it. It takes no memory; `Memory` only if a count of
    /// references is full.
    pub fn try_copy(&self, alloc: Global) -> Result<Arrow, Memory>
        ensures { IfOk result (λ o. o ≡ self.now) }
    {
        let input = self.input.try_copy(alloc)?;
        match self.output.try_copy(alloc) {
            Ok(output) => Ok(Arrow { input, output }),
            Err(refused) => {
                drop(input);
                Err(refused)
            }
        }
    }
}
