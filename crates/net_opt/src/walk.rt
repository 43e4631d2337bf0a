// A walk over a network, for the first step that may be taken.

ghost use Rattle.std.specs.Prelude.{◌≡◌, [], cond, false};

use std::alloc::Global;

/// Where a walk is, and what it met.
#[derive(Drop)]
pub(crate) struct Walk {
    /// The child numbers that lead to where it is, from the root on.
    pub(crate) path: Vec<u32>,
    /// Whether a law matched whose step would not be accepted.
    pub(crate) refused: bool,
}

impl Walk {
    /// A walk that begins at the root.
    pub(crate) fn at_root(alloc: Global) -> Walk
        ensures path { result.path.items ≡ [] }
        ensures refused { result.refused ≡ false }
    {
        Walk {
            path: Vec::new(alloc),
            refused: false,
        }
    }

    /// Of a walk that took a step where it is: the path beside which the next walk need not look
    /// again. It is the way to that step, or nothing where a step was refused on the way, since
    /// that may be accepted now.
    pub(crate) fn settled(self) -> Vec<u32>
        ensures { result.items ≡ cond self.refused [] self.path.items }
    {
        let mut path = self.path;
        if self.refused {
            path.clear();
        }
        path
    }
}
