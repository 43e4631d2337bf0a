// What commands of C are built of: symbols, in postfix order.

use c_text::{CType, Literal, Operator, Scalar};

/// A step of building: takes what it needs off the stacks, and puts what it makes there. Terms and commands
/// stand on a stack each; what is passed stands in a row, which each command empties.
#[derive(Clone, Copy)]
pub enum Sym {
    /// Local k.
    Local(usize),
    /// A literal.
    Literal(Literal),
    /// `{0}` of a type.
    Zeroed(CType),
    /// Member k of a term.
    Dot(usize),
    /// `e[i]`: e, then i.
    At,
    /// So many terms in braces; behind them zeros of a type, or nothing.
    Braced(usize, Option<CType>),
    /// An operator on two terms.
    Binary(Operator, Scalar),
    /// `!e`.
    Inverse,
    /// `a && b`.
    Both,
    /// `a || b`.
    Either,
    /// `c ? a : b`.
    Choice,
    /// `(T)e`.
    Cast(Scalar),
    /// `P_signed(e)`.
    Signed,
    /// Begins what is passed.
    Open,
    /// Passes a term's value.
    Value,
    /// Passes `&e`, to a `const`.
    Const,
    /// Passes `&e`.
    Pointer,
    /// Nothing.
    Skip,
    /// `T r;`.
    Declare(CType),
    /// `const T r = e;`.
    Define(CType),
    /// `const T *const r = &e;`.
    Refer(CType),
    /// `e = f;`: e, then f.
    Assign,
    /// `const T r = f(..);` of what is passed.
    Call(CType, usize),
    /// `if (c) { a } else { b }`: the term c, and the commands a and b.
    Branch,
    /// `for (uint32_t r = 0; (r < n) && c; r++) { a }`: the term c, and the command a.
    Loop(u32),
    /// `return e;`.
    Answer,
    /// So many commands, one after the other.
    Block(usize),
}
