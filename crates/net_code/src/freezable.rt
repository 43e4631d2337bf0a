// Networks that may be frozen.

/// A network that may be frozen: its function, and how many parameters and frozen networks that has
/// in scope.
#[derive(Clone, Copy)]
pub(crate) struct Freezable {
    pub(crate) function: usize,
    pub(crate) params: usize,
    pub(crate) olds: usize,
}
