// Reading numbers that forms take.

ghost use Rattle.std.specs.Prelude.{◌≡◌, ◌<◌, ◌≤◌, ◌^◌, IfOk, IfSome};
ghost use Rattle.leaf_expr.specs.{Grammar.index_sort, ReadText.GivesTree, ReadText.tree_at, ReadText.natural_read};
ghost use Rattle.leaf_expr.specs.{Language.read_word, Token.tokens_from, WordReading.natural_at};

use crate::text_fault::ExprTextFault;
use crate::tree_front::{Read, form_head};
use crate::word::{WordFault, natural_word};

/// The greatest number that a parameter, a frozen network or a child is called by in a text.
pub const MOST_INDEX: u64 = 65_535;

/// The natural number from `low` to `high`, below 2^63, which must be the first token at or after
/// byte `at`, and the byte behind it. `room` is how many more parentheses may be opened.
///
/// `TooDeep` at a `(` where there is no room; `Number` at a number word that is badly spelt or out
/// of that range; `Syntax` at any other token, or at the text's length where none follows. Bytes
/// are counted from 0.
pub fn read_natural(text: &[u8], at: usize, room: usize, low: u64, high: u64) -> Read<u64>
    requires { high < 2 ^ 63 }
    ensures number { GivesTree (λ x. (x.0, x.1, tokens_from x.1 text.now)) result
        (natural_read low high text.now room at) }
    ensures within { IfOk result (λ x. (low ≤ x.0) × (x.0 ≤ high)) }
{
    let (start, end) = form_head(text, at, room)?;
    match natural_word(&text[start..end], low, high) {
        Ok(k) => Ok((k, end)),
        Err(WordFault::Misspelt) => Err(ExprTextFault::Number { at: start }),
        Err(WordFault::Unfit) => Err(ExprTextFault::Syntax { at: start }),
    }
}

/// The natural number from `low` to `high`, below 2^63, that the word spells, where it spells one.
pub fn natural_named(word: &[u8], low: u64, high: u64) -> Option<u64>
    requires { high < 2 ^ 63 }
    ensures number { result ≡ read_word (natural_at low high word.now) }
    ensures within { IfSome result (λ k. (low ≤ k) × (k ≤ high)) }
{
    match natural_word(word, low, high) {
        Ok(k) => Some(k),
        Err(_) => None,
    }
}

/// The number of a parameter or of a frozen network, from 0 to 65,535: as `read_natural`.
pub fn read_index(text: &[u8], at: usize, room: usize) -> Read<u32>
    ensures { GivesTree (λ x. (x.0, x.1, tokens_from x.1 text.now)) result
        (tree_at index_sort text.now room at) }
{
    let (k, end) = read_natural(text, at, room, 0, MOST_INDEX)?;
    Ok((k as u32, end))
}
