// The laws as a table.

ghost use Rattle.std.specs.Prelude.{◌≡◌, [], get_or, map};
ghost use Rattle.expr_laws.specs.Table.{left_at, right_at, rule_at};

use Rule::{Compare, Compute, Constant, Lift, Nothing, Pick, Sides, Spread, Turn};
use law_patterns::{
    ADD, AND, EVENT, F, FALSE, FST, G, H, I, IF, J, LESS, LawLine, MUL, NEG, NONE, NOT, ON, ONE,
    OR, PAIR, SND, SUB, Sym, THEN, TRUE, X, ZERO,
};
use net_tree::LAST_EXPRESSION_LAW;

/// What a law is.
#[derive(Clone, Copy)]
pub enum Rule {
    /// No law.
    Nothing,
    /// A left and a right side.
    Sides,
    /// An operator behind an expression has each of its parts behind it.
    Spread,
    /// What doesn't see the input is the same behind an expression.
    Constant,
    /// An operator on literals is the literal of its value.
    Compute,
    /// An element of a list at a number literal is that element.
    Pick,
    /// `and` or `or` absorbs a literal that is its first part, or is turned round.
    Turn,
    /// `equal` of one expression is `true`, another is turned round.
    Compare,
    /// An operator at an `if` is an `if` between operators.
    Lift,
}

/// The laws by number, from 0. In each side a form is written before its parts.
pub const LAWS: [LawLine<Rule, Sym>; LAST_EXPRESSION_LAW as usize + 1] = [
    (Nothing, &[], &[]),
    (Sides, &[THEN, X, F], &[F]),
    (Sides, &[THEN, F, X], &[F]),
    (Sides, &[THEN, THEN, F, G, H], &[THEN, F, THEN, G, H]),
    (Spread, &[], &[]),
    (
        Sides,
        &[THEN, F, ON, G, H, I],
        &[
            ON, THEN, F, G, THEN, F, H, THEN, PAIR, THEN, FST, X, F, SND, X, I,
        ],
    ),
    (Constant, &[], &[]),
    (Sides, &[FST, PAIR, F, G], &[F]),
    (Sides, &[SND, PAIR, F, G], &[G]),
    (Sides, &[PAIR, FST, F, SND, F], &[F]),
    (Sides, &[IF, TRUE, F, G], &[F]),
    (Sides, &[IF, FALSE, F, G], &[G]),
    (Sides, &[IF, F, G, G], &[G]),
    (Sides, &[ON, NONE, F, G], &[F]),
    (Sides, &[ON, EVENT, F, G, H], &[THEN, PAIR, X, F, H]),
    (Compute, &[], &[]),
    (Sides, &[ADD, F, G], &[ADD, G, F]),
    (Sides, &[ADD, ADD, F, G, H], &[ADD, F, ADD, G, H]),
    (Pick, &[], &[]),
    (Sides, &[SUB, F, G], &[ADD, F, NEG, G]),
    (Sides, &[MUL, F, G], &[MUL, G, F]),
    (Sides, &[MUL, MUL, F, G, H], &[MUL, F, MUL, G, H]),
    (Sides, &[MUL, F, ADD, G, H], &[ADD, MUL, F, G, MUL, F, H]),
    (Turn, &[], &[]),
    (Sides, &[NOT, NOT, F], &[F]),
    (Sides, &[IF, NOT, F, G, H], &[IF, F, H, G]),
    (Compare, &[], &[]),
    (Sides, &[ADD, F, ZERO], &[F]),
    (Sides, &[MUL, F, ONE], &[F]),
    (Sides, &[MUL, F, ZERO], &[ZERO]),
    // 30
    (Sides, &[NEG, NEG, F], &[F]),
    (Sides, &[NEG, ADD, F, G], &[ADD, NEG, F, NEG, G]),
    (Sides, &[NEG, MUL, F, G], &[MUL, NEG, F, G]),
    (Sides, &[ADD, F, NEG, F], &[ZERO]),
    (Sides, &[LESS, F, F], &[FALSE]),
    (Sides, &[AND, F, F], &[F]),
    (Sides, &[OR, F, F], &[F]),
    (Sides, &[AND, AND, F, G, H], &[AND, F, AND, G, H]),
    (Sides, &[OR, OR, F, G, H], &[OR, F, OR, G, H]),
    (Sides, &[AND, F, NOT, F], &[FALSE]),
    // 40
    (Sides, &[OR, F, NOT, F], &[TRUE]),
    (Sides, &[NOT, AND, F, G], &[OR, NOT, F, NOT, G]),
    (Sides, &[NOT, OR, F, G], &[AND, NOT, F, NOT, G]),
    (Sides, &[AND, F, OR, G, H], &[OR, AND, F, G, AND, F, H]),
    (Sides, &[IF, F, TRUE, FALSE], &[F]),
    (Sides, &[AND, F, G], &[IF, F, G, FALSE]),
    (Sides, &[OR, F, G], &[IF, F, TRUE, G]),
    (Sides, &[IF, F, IF, F, G, H, I], &[IF, F, G, I]),
    (Sides, &[IF, F, G, IF, F, H, I], &[IF, F, G, I]),
    (Lift, &[], &[]),
    // 50
    (
        Sides,
        &[ON, ON, F, G, H, I, J],
        &[
            ON, F, ON, G, I, J, ON, H, THEN, FST, X, I, THEN, PAIR, FST, FST, X, SND, X, J,
        ],
    ),
    (Sides, &[ON, F, NONE, EVENT, SND, X], &[F]),
    (Sides, &[ON, F, G, THEN, FST, X, G], &[G]),
    (
        Sides,
        &[THEN, ON, F, G, H, I],
        &[ON, F, THEN, G, I, THEN, H, I],
    ),
    (
        Sides,
        &[PAIR, ON, F, G, H, I],
        &[ON, F, PAIR, G, I, PAIR, H, THEN, FST, X, I],
    ),
    (
        Sides,
        &[PAIR, F, ON, G, H, I],
        &[ON, G, PAIR, F, H, PAIR, THEN, FST, X, F, I],
    ),
];

/// The law of this number.
pub fn law_rule(number: u8) -> LawLine<Rule, Sym>
    ensures rule { result.0 ≡ rule_at number }
    ensures left { result.1.now ≡ left_at number }
    ensures right { result.2.now ≡ right_at number }
{
    line_at(&LAWS, number)
}

/// The law of a number, in a table from 0; no law outside.
fn line_at(laws: &'static [LawLine<Rule, Sym>], number: u8) -> LawLine<Rule, Sym>
    ensures rule { result.0 ≡ get_or (map (λ law. law.0) laws.now) number Rule.Nothing }
    ensures left { result.1.now ≡ get_or (map (λ law. law.1.now) laws.now) number [] }
    ensures right { result.2.now ≡ get_or (map (λ law. law.2.now) laws.now) number [] }
{
    match laws.get(usize::from(number)) {
        Some(law) => *law,
        None => (Nothing, &[], &[]),
    }
}
