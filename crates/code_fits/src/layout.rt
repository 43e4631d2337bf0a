// What the functions of a network's code work on.

use crate::types::Types;
use net_code::Function;

/// What a function of the code works on. Types are numbers in the program's table.
#[derive(Drop)]
pub struct Layout {
    /// Where its node stands in the network.
    pub position: Vec<u32>,
    /// The types of the parameters in scope.
    pub params: Vec<usize>,
    /// The functions of the frozen networks in scope.
    pub olds: Vec<usize>,
    /// The type of its input.
    pub input: usize,
    /// The type of what it answers.
    pub output: usize,
    /// The types of its statements' values, in order, of those that set a register or answer.
    pub values: Vec<usize>,
    /// The type of the value that it keeps itself: what is fed back, what a cell keeps, what has
    /// taken over.
    pub kept: Option<usize>,
    /// Whether anything is kept, by it or by what it calls.
    pub keeps: bool,
}

/// A network's code with its layouts, one a function, and the types that occur.
#[derive(Drop)]
pub struct Program {
    /// The functions, each of which calls earlier ones.
    pub functions: Vec<Function>,
    /// What each works on.
    pub layouts: Vec<Layout>,
    /// Each type that occurs.
    pub types: Types,
    /// Of each type of lists how many elements it has at most, at least 1; of another 0.
    pub bounds: Vec<usize>,
    /// How many bytes the state has at most, where no type is aligned to more than 8 bytes.
    pub state_bytes: u64,
}
