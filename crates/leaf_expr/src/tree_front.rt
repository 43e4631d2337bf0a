// Where trees, the words of forms and their ends stand.

ghost use Rattle.std.specs.Prelude.{◌≡◌, ◌-◌, ◌<◌, ◌≤◌, ◌∷◌, false, IfOk, IfSome, MatchOption, length, slice_range};
ghost use Rattle.leaf_expr.specs.{Front.front_from, Front.front_left, Front.FrontFits, Grammar.leaf};
ghost use Rattle.leaf_expr.specs.{ReadText.GivesTree, ReadText.begins_closing, TreeReader.read_end, TreeReader.read_head};
ghost use Rattle.leaf_expr.specs.Token.{closing, tokens_from};

use crate::text_fault::ExprTextFault;
use crate::token::{Lexeme, lexeme_at};

/// What was read, and the byte behind it.
pub type Read<T> = Result<(T, usize), ExprTextFault>;

/// What a tree begins with.
#[derive(Clone, Copy)]
pub enum TreeFront {
    /// A form, whose `(` is that byte.
    Form(usize),
    /// A word, from the first byte up to and without the second.
    Word(usize, usize),
}

/// What the tree begins with that must stand at or after byte `at`. `room` is how many more
/// parentheses may be opened.
///
/// `TooDeep` at a `(` where there is no room; `Syntax` at a `)`, or at the text's length where no
/// token follows. Bytes are counted from 0.
pub fn front_at(text: &[u8], at: usize, room: usize) -> Result<TreeFront, ExprTextFault>
    ensures front { GivesTree (front_left text.now) result (front_from text.now room at) }
    ensures within { IfOk result (FrontFits (length text.now) room) }
{
    match lexeme_at(text, at) {
        Lexeme::End => Err(ExprTextFault::Syntax { at: text.len() }),
        Lexeme::Close(start) => Err(ExprTextFault::Syntax { at: start }),
        Lexeme::Open(start) if room == 0 => Err(ExprTextFault::TooDeep { at: start }),
        Lexeme::Open(start) => Ok(TreeFront::Form(start)),
        Lexeme::Word(start, end) => Ok(TreeFront::Word(start, end)),
    }
}

/// The word that a form begins with, which must be the first token at or after byte `at`: its
/// first byte and the byte behind it. `room` is how many more parentheses may be opened.
///
/// `TooDeep` at a `(` where there is no room; `Syntax` at any other token, or at the text's length
/// where none follows. Bytes are counted from 0.
pub fn form_head(text: &[u8], at: usize, room: usize) -> Result<(usize, usize), ExprTextFault>
    ensures head { GivesTree (λ x. (x.0, slice_range text.now x.0 x.1, tokens_from x.1 text.now)) result
        (read_head leaf (length text.now) room (tokens_from at text.now)) }
    ensures within { IfOk result (λ x. (x.0 < x.1) × (x.1 ≤ length text.now)) }
{
    match front_at(text, at, room)? {
        TreeFront::Form(start) => Err(ExprTextFault::Syntax { at: start }),
        TreeFront::Word(start, end) => Ok((start, end)),
    }
}

/// The end of a form: the byte behind its `)`, which must be the first token at or after byte
/// `at`. `room` is how many more parentheses may be opened.
///
/// `TooDeep` at a `(` where there is no room; `Syntax` at any other token, or at the text's length
/// where none follows. Bytes are counted from 0.
#[tactic(auto, using(crate::proofs::ReadSteps::unfit_open, crate::proofs::ReadSteps::closed))]
pub fn form_end(text: &[u8], at: usize, room: usize) -> Result<usize, ExprTextFault>
    ensures { GivesTree (λ n. (n, tokens_from n text.now)) result
        (read_end leaf (length text.now) room (tokens_from at text.now)) }
{
    match lexeme_at(text, at) {
        Lexeme::End => Err(ExprTextFault::Syntax { at: text.len() }),
        Lexeme::Open(start) if room == 0 => Err(ExprTextFault::TooDeep { at: start }),
        Lexeme::Open(start) => Err(ExprTextFault::Syntax { at: start }),
        Lexeme::Close(start) => Ok(start + 1),
        Lexeme::Word(start, _) => Err(ExprTextFault::Syntax { at: start }),
    }
}

/// The byte behind the `)` that is the first token at or after byte `at`, where it is one.
pub fn closing_at(text: &[u8], at: usize) -> Option<usize>
    ensures token { MatchOption result (begins_closing (tokens_from at text.now) ≡ false)
        (λ end. tokens_from at text.now ≡ (end - 1, closing) ∷ tokens_from end text.now) }
    ensures behind { IfSome result (λ end. 0 < end) }
{
    match lexeme_at(text, at) {
        Lexeme::Close(start) => Some(start + 1),
        Lexeme::End => None,
        Lexeme::Open(_) => None,
        Lexeme::Word(_, _) => None,
    }
}
