// What is asked of what is given, and what tells it.

use crate::keys::key_told;
use crate::reading::{expr_at_told, expr_told, type_at_told};
use crate::scant_lines::lines_told;
use crate::scant_memory::scant_told;
use crate::shapes::shape_told;
use crate::stream_calls::{calls_told, scant_calls_told};
use crate::tokens::{number_told, token_told};
use crate::trees::tree_told;
use crate::typing::{typing_alone_told, typing_told};
use crate::values::value_told;
use crate::working::worked_told;
use row_texts::first_wrong;
use std::alloc::Global;
use std::process::Abort;

/// What is asked of what is given.
#[derive(Clone, Copy)]
pub enum Probe {
    /// What value is read at a type, and where it ends: `TYPE | TEXT`.
    Value,
    /// A tree that is built by calls, by its name.
    Tree,
    /// The token, lexeme, head or end of a form from a byte on: `KIND BYTE | TEXT`.
    Token,
    /// What number a word spells.
    Number,
    /// What type is read from a byte on, with so many parentheses open: `BYTE DEPTH | TEXT`.
    TypeAt,
    /// What expression is read from a byte on, likewise: `BYTE DEPTH | TEXT`.
    ExprAt,
    /// What expression is read of the whole text.
    Expr,
    /// Whether an expression has a type, at an input of a type: `TYPE | EXPR`.
    Typing,
    /// Whether it has one with no parameter in scope: `TYPE | EXPR`.
    TypingAlone,
    /// An expression's type and value at an input: `TYPE | VALUE | EXPR`.
    Worked,
    /// An expression's shape.
    Shape,
    /// The copy of a key under so many parameters: `COUNT | EXPR`.
    Key,
    /// Whether a call, by its name, fails to allocate at first and answers in the end.
    Scant,
    /// What successive calls of a reader of lines answer: `TYPE | STREAM`.
    Calls,
    /// What these answer with no memory left: `TYPE | STREAM`.
    ScantCalls,
    /// How the calls of a reader of lines end where all memory is taken at some read: `TYPE | STREAM`.
    ScantLines,
}

/// Adds to the text what the probe finds.
fn tell(alloc: Global, probe: Probe, given: &str, out: &mut String) {
    match probe {
        Probe::Value => value_told(alloc, given, out),
        Probe::Tree => tree_told(alloc, given, out),
        Probe::Token => token_told(given, out),
        Probe::Number => number_told(given, out),
        Probe::TypeAt => type_at_told(alloc, given, out),
        Probe::ExprAt => expr_at_told(alloc, given, out),
        Probe::Expr => expr_told(alloc, given, out),
        Probe::Typing => typing_told(alloc, given, out),
        Probe::TypingAlone => typing_alone_told(alloc, given, out),
        Probe::Worked => worked_told(alloc, given, out),
        Probe::Shape => shape_told(alloc, given, out),
        Probe::Key => key_told(alloc, given, out),
        Probe::Scant => scant_told(alloc, given, out),
        Probe::Calls => calls_told(alloc, given, out),
        Probe::ScantCalls => scant_calls_told(alloc, given, out),
        Probe::ScantLines => lines_told(alloc, given, out),
    }
}

/// Asserts that the probe finds what is wanted of each row.
pub fn all_are_found(rt: &impl Abort, alloc: Global, probe: Probe, rows: &str) {
    let telling = |alloc: Global, given: &str, out: &mut String| tell(alloc, probe, given, out);
    let wrong = first_wrong(alloc, rows, telling);
    assert!(rt; wrong.is_empty(), "{wrong}");
}
