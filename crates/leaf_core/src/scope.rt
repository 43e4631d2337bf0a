// What an expression is evaluated over, and what it is typed under.

use sample_core::{Sample, Ty};
use std::alloc::Global;

/// What an expression is evaluated over.
#[derive(Clone, Copy)]
pub struct Scope<'v> {
    /// Where memory comes from.
    pub alloc: Global,
    /// The parameters' values, parameter 0 first.
    pub params: &'v [Sample],
    /// The input.
    pub x: &'v Sample,
}

/// What an expression is typed under.
#[derive(Clone, Copy)]
pub struct TypeScope<'t> {
    /// Where memory comes from.
    pub alloc: Global,
    /// The parameters' types, parameter 0 first.
    pub params: &'t [Ty],
    /// The type of the input.
    pub input: &'t Ty,
}
