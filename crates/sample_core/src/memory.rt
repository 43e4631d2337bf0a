// `Memory`, the one refusal that every call which allocates has.

use std::alloc::{AllocError, AllocFailed};
use thiserror::Error;

/// `Memory`: allocation failed, or a count of references is full.
#[derive(Clone, Copy, PartialEq, Eq, Debug, Error)]
#[error("memory")]
pub struct Memory;

impl From<AllocError> for Memory {
    fn from(_: AllocError) -> Memory {
        Memory
    }
}

impl<T: Drop> From<AllocFailed<T>> for Memory {
    fn from(_failed: AllocFailed<T>) -> Memory {
        Memory
    }
}

/// A refusal that tells of memory and nothing else, as the library's or as `Memory`: each fault
/// that may come of it has one conversion from all of these.
pub trait OutOfMemory: Drop {}

impl OutOfMemory for Memory {}

impl OutOfMemory for AllocError {}

impl<T: Drop> OutOfMemory for AllocFailed<T> {}
