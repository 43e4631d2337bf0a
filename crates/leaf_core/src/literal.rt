// Literals.

/// A constant that an expression writes out.
#[derive(Clone, Copy)]
pub enum Literal {
    /// `unit`.
    Unit,
    /// `true` or `false`.
    Bool(bool),
    /// A signed number of 64 bits.
    Int(i64),
}
