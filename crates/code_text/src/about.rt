// The comment at the top.

ghost use Rattle.std.specs.Prelude.{◌≡◌, ◌++◌, IfOk, string_bytes};
ghost use Rattle.code_text.specs.Piece.{pieces_text};
ghost use Rattle.code_text.specs.FileText.{about_text, figures_pieces, options_in, options_pieces, types_pieces, unchecked_word};

use crate::file::Options;
use crate::fixed::push_use;
use crate::folded::push_folded;
use crate::named::push_with_each;
use crate::piece::{Piece, push};
use sample_core::Memory;
use std::alloc::Global;

/// The comment at the top, by itself; the state has at most so many bytes.
pub(crate) fn about(alloc: Global, options: Options<'_>, bytes: usize) -> Result<String, Memory>
    ensures { IfOk result (λ text. string_bytes text ≡ about_text (options_in options.entry) bytes) }
{
    let mut text = String::new(alloc);
    push_about(&mut text, options, bytes)?;
    Ok(text)
}

/// The comment at the top.
fn push_about(text: &mut String, options: Options<'_>, bytes: usize) -> Result<(), Memory>
    ensures { IfOk result (λ _. string_bytes text.new
        ≡ string_bytes text.old ++ about_text (options_in options.entry) bytes) }
{
    push_types(text, options)?;
    push_with_each(text, '\n', ", ", options.version)?;
    push_options(text, options)?;
    push_folded(text, options.network)?;
    push_use(text, options.prefix, options.unchecked)?;
    push_figures(text, options, bytes)
}

/// Its first line.
fn push_types(text: &mut String, options: Options<'_>) -> Result<(), Memory>
    ensures { IfOk result (λ _. string_bytes text.new ≡ string_bytes text.old
        ++ pieces_text options.entry.prefix.now (types_pieces (options_in options.entry))) }
{
    push(
        text,
        options.prefix,
        &[
            Piece::Text("/* "),
            Piece::Name,
            Piece::Text(": "),
            Piece::Spelt(options.input),
            Piece::Text(" -> "),
            Piece::Spelt(options.output),
            Piece::Text("\n *\n * By yampa "),
        ],
    )
}

/// The word for an unchecked step, with a blank before it.
fn unchecked_word(unchecked: bool) -> &'static str
    ensures { result.now ≡ unchecked_word unchecked }
{
    if unchecked { " --unchecked" } else { "" }
}

/// The words of the command that change what is printed.
fn push_options(text: &mut String, options: Options<'_>) -> Result<(), Memory>
    ensures { IfOk result (λ _. string_bytes text.new ≡ string_bytes text.old
        ++ pieces_text options.entry.prefix.now (options_pieces (options_in options.entry))) }
{
    let unchecked = unchecked_word(options.unchecked);
    push(
        text,
        options.prefix,
        &[
            Piece::Text(":\n * `yampa compile --name "),
            Piece::Name,
            Piece::Text(" --most "),
            Piece::Number(options.most),
            Piece::Text(unchecked),
            Piece::Text("`, of the network\n *\n * "),
        ],
    )
}

/// Its figures.
fn push_figures(text: &mut String, options: Options<'_>, bytes: usize) -> Result<(), Memory>
    ensures { IfOk result (λ _. string_bytes text.new ≡ string_bytes text.old
        ++ pieces_text options.entry.prefix.now (figures_pieces (options_in options.entry) bytes)) }
{
    push(
        text,
        options.prefix,
        &[
            Piece::Text(" *\n * Weight "),
            Piece::Number(options.weight as usize),
            Piece::Text(". The state has at most "),
            Piece::Number(bytes),
            Piece::Text(" bytes, lists of the input at most "),
            Piece::Number(options.most),
            Piece::Text(" elements. */\n"),
        ],
    )
}
