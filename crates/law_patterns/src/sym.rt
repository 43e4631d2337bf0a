// What patterns of expressions are written in.

/// A letter that stands for an expression, the same one at each place.
#[derive(Clone, Copy)]
pub enum Letter {
    /// `f`.
    F,
    /// `g`.
    G,
    /// `h`.
    H,
    /// `i`.
    I,
    /// `j`.
    J,
}

/// A symbol of a pattern of expressions, which is written with each form before its parts.
#[derive(Clone, Copy)]
pub enum Sym {
    /// A letter.
    Letter(Letter),
    /// `x`.
    Input,
    /// `unit`.
    Unit,
    /// `true` or `false`.
    Truth(bool),
    /// A number.
    Number(i64),
    /// `(none T)`, where T is a letter: any type, the same one at each place.
    NoEvent,
    /// `(fst e)`.
    Fst,
    /// `(snd e)`.
    Snd,
    /// `(event e)`.
    Event,
    /// `(pair a b)`.
    Pair,
    /// `(then f g)`.
    Then,
    /// `(neg a)`.
    Neg,
    /// `(add a b)`.
    Add,
    /// `(sub a b)`.
    Sub,
    /// `(mul a b)`.
    Mul,
    /// `(less a b)`.
    Less,
    /// `(not a)`.
    Not,
    /// `(and a b)`.
    And,
    /// `(or a b)`.
    Or,
    /// `(if c a b)`.
    If,
    /// `(on e d b)`.
    On,
}

/// `f`.
pub const F: Sym = Sym::Letter(Letter::F);
/// `g`.
pub const G: Sym = Sym::Letter(Letter::G);
/// `h`.
pub const H: Sym = Sym::Letter(Letter::H);
/// `i`.
pub const I: Sym = Sym::Letter(Letter::I);
/// `j`.
pub const J: Sym = Sym::Letter(Letter::J);
/// `x`.
pub const X: Sym = Sym::Input;
/// `unit`.
pub const UNIT: Sym = Sym::Unit;
/// `true`.
pub const TRUE: Sym = Sym::Truth(true);
/// `false`.
pub const FALSE: Sym = Sym::Truth(false);
/// `0`.
pub const ZERO: Sym = Sym::Number(0);
/// `1`.
pub const ONE: Sym = Sym::Number(1);
/// `(none T)`.
pub const NONE: Sym = Sym::NoEvent;
/// `(fst e)`.
pub const FST: Sym = Sym::Fst;
/// `(snd e)`.
pub const SND: Sym = Sym::Snd;
/// `(event e)`.
pub const EVENT: Sym = Sym::Event;
/// `(pair a b)`.
pub const PAIR: Sym = Sym::Pair;
/// `(then f g)`.
pub const THEN: Sym = Sym::Then;
/// `(neg a)`.
pub const NEG: Sym = Sym::Neg;
/// `(add a b)`.
pub const ADD: Sym = Sym::Add;
/// `(sub a b)`.
pub const SUB: Sym = Sym::Sub;
/// `(mul a b)`.
pub const MUL: Sym = Sym::Mul;
/// `(less a b)`.
pub const LESS: Sym = Sym::Less;
/// `(not a)`.
pub const NOT: Sym = Sym::Not;
/// `(and a b)`.
pub const AND: Sym = Sym::And;
/// `(or a b)`.
pub const OR: Sym = Sym::Or;
/// `(if c a b)`.
pub const IF: Sym = Sym::If;
/// `(on e d b)`.
pub const ON: Sym = Sym::On;
