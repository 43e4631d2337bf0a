// Pieces of C.

ghost use Rattle.std.specs.Prelude.{◌≡◌, ◌++◌, IfOk, map, string_bytes};
ghost use Rattle.sample_core.specs.{TypeView.type_of};
ghost use Rattle.code_text.specs.Piece.{c_type, letters, piece_text, pieces_text};
ghost use Rattle.code_text.specs.PieceView.{piece_of};

use sample_core::{Memory, Ty, push_type};

/// A piece of C.
#[derive(Clone, Copy)]
pub(crate) enum Piece<'a> {
    /// This text.
    Text(&'a str),
    /// The prefix of a network's names.
    Name,
    /// A number.
    Number(usize),
    /// 16 hexadecimal digits.
    Hex(u64),
    /// A type in C.
    Type(&'a Ty),
    /// A type's letters.
    Letters(&'a Ty),
    /// A type as the language spells it.
    Spelt(&'a Ty),
}

/// Adds pieces to the end of the text.
pub(crate) fn push(text: &mut String, prefix: &str, pieces: &[Piece<'_>]) -> Result<(), Memory>
    ensures { IfOk result (λ _. string_bytes text.new
        ≡ string_bytes text.old ++ pieces_text prefix.now (map piece_of pieces.now)) }
{
    for piece in pieces {
        push_piece(text, prefix, *piece)?;
    }
    Ok(())
}

/// Adds a piece.
fn push_piece(text: &mut String, prefix: &str, piece: Piece<'_>) -> Result<(), Memory>
    ensures { IfOk result (λ _. string_bytes text.new
        ≡ string_bytes text.old ++ piece_text prefix.now (piece_of piece.entry)) }
{
    match piece {
        Piece::Text(s) => write!(text, "{s}")?,
        Piece::Name => write!(text, "{prefix}")?,
        Piece::Number(n) => write!(text, "{n}")?,
        Piece::Hex(n) => write!(text, "{n:016x}")?,
        Piece::Type(ty) => push_c_type(text, prefix, ty)?,
        Piece::Letters(ty) => push_letters(text, ty)?,
        Piece::Spelt(ty) => push_type(text, ty)?,
    }
    Ok(())
}

/// Adds a type's letters.
#[cycle(letters)]
fn push_letters(text: &mut String, ty: &Ty) -> Result<(), Memory>
    ensures { IfOk result (λ _. string_bytes text.new
        ≡ string_bytes text.old ++ letters (type_of ty.now)) }
{
    match ty {
        Ty::Unit => write!(text, "u")?,
        Ty::Bool => write!(text, "b")?,
        Ty::Int => write!(text, "i")?,
        Ty::Pair(a, b) => {
            write!(text, "p")?;
            push_letters(text, a.get())?;
            push_letters(text, b.get())?;
        }
        Ty::Event(a) => {
            write!(text, "e")?;
            push_letters(text, a.get())?;
        }
        Ty::List(a) => {
            write!(text, "l")?;
            push_letters(text, a.get())?;
        }
    }
    Ok(())
}

/// Adds a type in C.
fn push_c_type(text: &mut String, prefix: &str, ty: &Ty) -> Result<(), Memory>
    ensures { IfOk result (λ _. string_bytes text.new
        ≡ string_bytes text.old ++ c_type prefix.now (type_of ty.now)) }
{
    match ty {
        Ty::Unit => write!(text, "uint8_t")?,
        Ty::Bool => write!(text, "bool")?,
        Ty::Int => write!(text, "int64_t")?,
        _ => {
            write!(text, "struct {prefix}_")?;
            push_letters(text, ty)?;
        }
    }
    Ok(())
}
