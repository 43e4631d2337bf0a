// How many members a collection has, and how late a network may be, at most.

/// The most members of a collection, those that are written and those that run.
pub const MOST_MEMBERS: usize = 64;

/// The greatest q of `delay`.
pub const MOST_DELAY: u64 = 4_096;

/// The greatest q of `after` and `repeatedly`.
pub const MOST_WAIT: u64 = 1 << 62;
