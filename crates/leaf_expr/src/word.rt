// Words that are a type, an expression or a number by themselves.

ghost use Rattle.std.specs.Prelude.{◌≡◌, ◌<◌, ◌≤◌, ◌^◌, IfSome, IfOk, option_map};
ghost use Rattle.sample_core.specs.TypeView.{type_of};
ghost use Rattle.leaf_expr.specs.Grammar.{word_at, type_sort, expression_sort};
ghost use Rattle.leaf_expr.specs.WordReading.{integer_at, natural, natural_at};
ghost use Rattle.leaf_expr.specs.ReadText.{fit, word_reading};
ghost use Rattle.leaf_core.specs.ExpressionView.{expression_of};

use leaf_core::{Expr, Literal};
use sample_core::number::{is_number_spelling, is_number_word, number};
use sample_core::{Ty, word_is};

/// Why a word doesn't fit where a number may stand.
#[derive(Clone, Copy)]
pub(crate) enum WordFault {
    /// A number word that is badly spelt or out of range.
    Misspelt,
    /// Another word.
    Unfit,
}

/// The type that the word is.
#[tactic(auto, unfolding(crate::specs::Grammar::word_at, crate::specs::Grammar::words))]
pub(crate) fn type_word(word: &[u8]) -> Option<Ty>
    ensures { word_at type_sort word.now ≡ fit (option_map type_of result) }
{
    if word_is(word, "Unit") {
        Some(Ty::Unit)
    } else if word_is(word, "Bool") {
        Some(Ty::Bool)
    } else if word_is(word, "Int") {
        Some(Ty::Int)
    } else {
        None
    }
}

/// The number of 64 bits that the word is.
#[tactic(auto, using(crate::proofs::WordSteps::no_number, crate::proofs::WordSteps::bad_number, crate::proofs::WordSteps::big_number, crate::proofs::WordSteps::small_number))]
fn integer_word(word: &[u8]) -> Result<i64, WordFault>
    ensures { word_reading (λ n. n) result ≡ integer_at word.now }
{
    if !is_number_word(word) {
        return Err(WordFault::Unfit);
    }
    if !is_number_spelling(word) {
        return Err(WordFault::Misspelt);
    }
    match number(word) {
        Some(n) => Ok(n),
        None => Err(WordFault::Misspelt),
    }
}

/// The number as a natural number from `low` to `high`, where it is one.
fn natural_of(n: i64, low: u64, high: u64) -> Option<u64>
    ensures number { result ≡ natural low high n }
    ensures within { IfSome result (λ k. (low ≤ k) × (k ≤ high)) }
{
    if n < 0 || (n as u64) < low || n as u64 > high {
        None
    } else {
        Some(n as u64)
    }
}

/// The natural number from `low` to `high` that the word is.
#[tactic(auto, using(crate::proofs::NaturalSteps::natural_refused, crate::proofs::NaturalSteps::natural_found, crate::proofs::NaturalSteps::natural_wild))]
pub(crate) fn natural_word(word: &[u8], low: u64, high: u64) -> Result<u64, WordFault>
    requires { high < 2 ^ 63 }
    ensures number { word_reading (λ k. k) result ≡ natural_at low high word.now }
    ensures within { IfOk result (λ k. (low ≤ k) × (k ≤ high)) }
{
    let n = integer_word(word)?;
    match natural_of(n, low, high) {
        Some(k) => Ok(k),
        None => Err(WordFault::Misspelt),
    }
}

/// The expression that the word is: the input, or a literal.
#[tactic(auto, unfolding(crate::specs::Grammar::word_at, crate::specs::Grammar::words))]
pub(crate) fn expr_word(word: &[u8]) -> Result<Expr, WordFault>
    ensures { word_reading expression_of result ≡ word_at expression_sort word.now }
{
    if word_is(word, "x") {
        Ok(Expr::Input)
    } else if word_is(word, "unit") {
        Ok(Expr::Literal(Literal::Unit))
    } else if word_is(word, "true") {
        Ok(Expr::Literal(Literal::Bool(true)))
    } else if word_is(word, "false") {
        Ok(Expr::Literal(Literal::Bool(false)))
    } else {
        let n = integer_word(word)?;
        Ok(Expr::Literal(Literal::Int(n)))
    }
}
