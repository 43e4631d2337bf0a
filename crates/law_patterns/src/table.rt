// Laws as a table.

/// What a law is, and its two sides, if it has any.
pub type LawLine<R, S> = (R, &'static [S], &'static [S]);
