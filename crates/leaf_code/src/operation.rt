// What the code of an expression is made of.

use leaf_core::Literal;
use sample_core::Ty;

/// What a step does. Registers are named by their numbers.
#[derive(Drop)]
pub enum Operation {
    /// Parameter k, from 0.
    Param(u32),
    /// A literal.
    Literal(Literal),
    /// The pair of two registers.
    Pair(usize, usize),
    /// The left part of a register.
    Left(usize),
    /// The right part of a register.
    Right(usize),
    /// The negative.
    Neg(usize),
    /// The sum.
    Add(usize, usize),
    /// The first minus the second.
    Sub(usize, usize),
    /// The product.
    Mul(usize, usize),
    /// Whether the first number is below the second.
    Less(usize, usize),
    /// Whether the two values are the same.
    Equal(usize, usize),
    /// Whether a register isn't true.
    Not(usize),
    /// Whether both are true.
    And(usize, usize),
    /// Whether one or both are true.
    Or(usize, usize),
    /// The second register where the first is true, else the third.
    Choose(usize, usize, usize),
    /// No event.
    NoEvent,
    /// The event that carries a register.
    Event(usize),
    /// Whether a register is an event.
    IsEvent(usize),
    /// What the event in a register carries; if there is none, the step's type's zero: numbers are
    /// 0, truths false, and there are no events and no elements.
    Carried(usize),
    /// The list of these registers.
    List(Vec<usize>),
    /// The element of a list at a number, from 0; the third register outside.
    Nth(usize, usize, usize),
    /// How many elements a list has.
    Len(usize),
}

/// A step. Step i, from 0, sets register i + 1; register 0 has the input.
#[derive(Drop)]
pub struct Step {
    /// The type of the register.
    pub ty: Ty,
    /// What the register is.
    pub operation: Operation,
}

/// The code of an expression.
#[derive(Drop)]
pub struct LeafCode {
    /// The steps, in order.
    pub steps: Vec<Step>,
    /// The register that has the value.
    pub answer: usize,
}
