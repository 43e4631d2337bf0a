// The names by which a program calls types and the state.

ghost use Rattle.std.specs.Prelude.{◌≡◌, ◌++◌, IfOk, map, slice_get, string_bytes};
ghost use Rattle.sample_core.specs.TypeView.{type_of};
ghost use Rattle.code_text.specs.Piece.{pieces_text};
ghost use Rattle.code_text.specs.FileText.{all_letters, letters_if, letters_pieces, names_text, options_in, state_pieces, type_name};

use crate::file::Options;
use crate::fixed::push_bounded;
use crate::piece::{Piece, push};
use c_build::Built;
use c_text::{Base, CType};
use code_fits::Program;
use sample_core::{Memory, Ty};

/// Adds the names of types, of the input's and the output's, and of the state's struct, with its bound.
pub(crate) fn push_names(
    text: &mut String,
    program: &Program,
    options: Options<'_>,
    built: &Built,
) -> Result<(), Memory>
    ensures { IfOk result (λ _. string_bytes text.new ≡ string_bytes text.old
        ++ names_text program.now (options_in options.entry) built.now) }
{
    push_all_letters(
        text,
        options.prefix,
        built.types.as_slice(),
        program.types.trees.as_slice(),
    )?;
    push_type_name(text, options.prefix, options.input, "_input")?;
    push_type_name(text, options.prefix, options.output, "_output")?;
    push_state(text, options.prefix, built.state)?;
    push_bounded(text, options.prefix)
}

/// Adds the letters of types, whose types of C these are, as names of their structs.
fn push_all_letters(
    text: &mut String,
    prefix: &str,
    all: &[CType],
    types: &[Ty],
) -> Result<(), Memory>
    ensures { IfOk result (λ _. string_bytes text.new
        ≡ string_bytes text.old ++ all_letters prefix.now all.now 0 (map type_of types.now)) }
{
    for (k, ty) in types.iter().enumerate() {
        push_letters_at(text, prefix, all, k, ty)?;
    }
    Ok(())
}

/// Adds the letters of a type, whose type of C has this number.
fn push_letters_at(
    text: &mut String,
    prefix: &str,
    all: &[CType],
    k: usize,
    ty: &Ty,
) -> Result<(), Memory>
    ensures { IfOk result (λ _. string_bytes text.new ≡ string_bytes text.old
        ++ pieces_text prefix.now (letters_if (type_of ty.now) (slice_get all.now k))) }
{
    match all.get(k) {
        Some(found) => push_letters_of(text, prefix, *found, ty),
        None => Ok(()),
    }
}

/// Adds the letters of a type, if its type of C is a struct.
fn push_letters_of(text: &mut String, prefix: &str, found: CType, ty: &Ty) -> Result<(), Memory>
    ensures { IfOk result (λ _. string_bytes text.new
        ≡ string_bytes text.old ++ pieces_text prefix.now (letters_pieces (type_of ty.now) found)) }
{
    if let CType::One(Base::Struct(k)) = found {
        push(
            text,
            prefix,
            &[
                Piece::Text("\n#define "),
                Piece::Name,
                Piece::Text("_"),
                Piece::Letters(ty),
                Piece::Text(" "),
                Piece::Name,
                Piece::Text("_t"),
                Piece::Number(k),
                Piece::Text(" /* "),
                Piece::Spelt(ty),
                Piece::Text(" */"),
            ],
        )?;
    }
    Ok(())
}

/// Adds a name for a type.
fn push_type_name<'a>(
    text: &mut String,
    prefix: &str,
    ty: &'a Ty,
    name: &'a str,
) -> Result<(), Memory>
    ensures { IfOk result (λ _. string_bytes text.new
        ≡ string_bytes text.old ++ pieces_text prefix.now (type_name (type_of ty.now) name.now)) }
{
    push(
        text,
        prefix,
        &[
            Piece::Text("\ntypedef "),
            Piece::Type(ty),
            Piece::Text(" "),
            Piece::Name,
            Piece::Text(name),
            Piece::Text("; /* "),
            Piece::Spelt(ty),
            Piece::Text(" */"),
        ],
    )
}

/// Adds the name of the state's struct.
fn push_state(text: &mut String, prefix: &str, state: CType) -> Result<(), Memory>
    ensures { IfOk result (λ _. string_bytes text.new
        ≡ string_bytes text.old ++ pieces_text prefix.now (state_pieces state)) }
{
    if let CType::One(Base::Struct(k)) = state {
        push(
            text,
            prefix,
            &[
                Piece::Text("\n\n#define "),
                Piece::Name,
                Piece::Text("_state "),
                Piece::Name,
                Piece::Text("_t"),
                Piece::Number(k),
                Piece::Text("\n"),
            ],
        )?;
    }
    Ok(())
}
