// C as trees.

/// The types of numbers.
#[derive(Clone, Copy, PartialEq, Eq, Hash)]
pub enum Scalar {
    /// `uint8_t`.
    Uint8,
    /// `int64_t`.
    Int64,
    /// `uint64_t`.
    Uint64,
    /// `uint32_t`.
    Uint32,
}

/// A type that is no array.
#[derive(Clone, Copy, PartialEq, Eq, Hash)]
pub enum Base {
    /// `bool`.
    Bool,
    /// A type of numbers.
    Number(Scalar),
    /// Struct k of the file.
    Struct(usize),
}

/// A type of objects.
#[derive(Clone, Copy, PartialEq, Eq, Hash)]
pub enum CType {
    /// One object.
    One(Base),
    /// So many.
    Array(usize, Base),
    /// So many arrays, each of so many.
    Grid(usize, usize, Base),
}

/// What a struct is for, by which its members are called.
#[derive(Clone, Copy, PartialEq, Eq, Hash)]
pub enum Kind {
    /// Pairs.
    Pair,
    /// Events.
    Event,
    /// Lists.
    List,
    /// What functions keep, and all else.
    Kept,
}

/// A struct: its kind, and the types of its members.
#[derive(Drop)]
pub struct Struct {
    pub kind: Kind,
    pub members: Vec<CType>,
}

/// A literal.
#[derive(Clone, Copy)]
pub enum Literal {
    Bool(bool),
    Uint8(u8),
    Int64(i64),
    Uint64(u64),
    Uint32(u32),
}

/// An operator on two numbers of one type.
#[derive(Clone, Copy)]
pub enum Operator {
    Plus,
    Minus,
    Times,
    Remainder,
    Less,
    AtMost,
    Equals,
}

/// An expression. It computes, and does nothing else.
#[derive(Drop)]
pub enum Term {
    /// Local k, parameters first. A parameter by pointer is one too.
    Local(usize),
    /// `e.m`: member k.
    Dot(Box<Term>, usize),
    /// `e[i]`.
    At(Box<Term>, Box<Term>),
    /// A literal.
    Literal(Literal),
    /// `{0}` of a type.
    Zeroed(CType),
    /// `{e, ..}`; behind these zeros of a type, or nothing.
    Braced(Vec<Term>, Option<CType>),
    /// `a + b`, and so on.
    Binary(Operator, Scalar, Box<Term>, Box<Term>),
    /// `!e`.
    Inverse(Box<Term>),
    /// `a && b`.
    Both(Box<Term>, Box<Term>),
    /// `a || b`.
    Either(Box<Term>, Box<Term>),
    /// `c ? a : b`.
    Choice(Box<Term>, Box<Term>, Box<Term>),
    /// `(T)e`.
    Cast(Scalar, Box<Term>),
    /// `P_signed(e)`: a `uint64_t` as an `int64_t`.
    Signed(Box<Term>),
}

/// What is passed.
#[derive(Drop)]
pub enum Argument {
    /// A value.
    Value(Term),
    /// `&e`, to a `const`.
    Const(Term),
    /// `&e`.
    Pointer(Term),
}

/// What a function does.
#[derive(Drop)]
pub enum Command {
    /// Nothing.
    Skip,
    /// One after the other.
    Block(Vec<Command>),
    /// `T r;`.
    Declare(CType),
    /// `const T r = e;`.
    Define(CType, Term),
    /// `const T *const r = &e;`.
    Refer(CType, Term),
    /// `e = f;`.
    Assign(Term, Term),
    /// `const T r = f(..);`.
    Call(CType, usize, Vec<Argument>),
    /// `if (c) { a } else { b }`.
    Branch(Term, Box<Command>, Box<Command>),
    /// `for (uint32_t r = 0; (r < n) && c; r++) { a }`.
    Loop(u32, Term, Box<Command>),
    /// `return e;`.
    Answer(Term),
}

/// A parameter.
#[derive(Clone, Copy)]
pub enum Param {
    /// A value.
    Value(CType),
    /// A pointer to a `const`.
    Const(CType),
    /// A pointer.
    Pointer(CType),
}

/// A function: its parameters, its result's type, and what it does.
#[derive(Drop)]
pub struct Function {
    pub params: Vec<Param>,
    pub result: CType,
    pub body: Command,
}

/// Structs, each over the earlier ones, and functions, each of which calls earlier ones.
#[derive(Drop)]
pub struct File {
    pub structs: Vec<Struct>,
    pub functions: Vec<Function>,
}

/// A local: its type, and whether it is passed by pointer.
#[derive(Clone, Copy)]
pub struct Local {
    pub ty: CType,
    pub pointer: bool,
}
