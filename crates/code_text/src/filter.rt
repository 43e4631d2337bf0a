// The filter: constant text, and a reader and a writer of each type with parts.

ghost use Rattle.std.specs.Prelude.{◌≡◌, ◌++◌, IfOk, map, string_bytes};
ghost use Rattle.sample_core.specs.{TypeTree.event_ty, TypeTree.list_ty, TypeTree.pair_ty, TypeView.type_of};
ghost use Rattle.leaf_core.specs.TypeLimits.{same_tree};
ghost use Rattle.code_text.specs.Piece.{pieces_text};
ghost use Rattle.code_text.specs.FilterText.{filter_text, has_parts, is_part, reader_if, reader_text, readers_text, reading_pieces, sample_pieces, writer_if, writer_text, writers_text, writing_pieces};

use crate::filter_text::{HEAD, TAIL};
use crate::named::push_named;
use crate::piece::{Piece, push};
use sample_core::{Memory, Ty, same_type};

/// The filter of a network, whose input's lists have at most so many elements.
pub(crate) fn push_filter(
    text: &mut String,
    prefix: &str,
    types: &[Ty],
    input: &Ty,
    output: &Ty,
    most: usize,
) -> Result<(), Memory>
    ensures { IfOk result (λ _. string_bytes text.new ≡ string_bytes text.old
        ++ filter_text prefix.now (map type_of types.now) (type_of input.now) (type_of output.now) most) }
{
    push_named(text, prefix, HEAD)?;
    push_readers(text, prefix, types, input, most)?;
    push_writers(text, prefix, types, output)?;
    push_sample(text, prefix, input, output)?;
    push_named(text, prefix, TAIL)
}

/// How a sample's input is read, and its output written.
fn push_sample<'a>(
    text: &mut String,
    prefix: &str,
    input: &'a Ty,
    output: &'a Ty,
) -> Result<(), Memory>
    ensures { IfOk result (λ _. string_bytes text.new
        ≡ string_bytes text.old ++ pieces_text prefix.now (sample_pieces (type_of input.now) (type_of output.now))) }
{
    push(
        text,
        prefix,
        &[
            Piece::Text("\nstatic bool "),
            Piece::Name,
            Piece::Text("_read_input(struct "),
            Piece::Name,
            Piece::Text("_reader *r, "),
            Piece::Name,
            Piece::Text("_input *input)\n{\n    return "),
            Piece::Name,
            Piece::Text("_read_"),
            Piece::Letters(input),
            Piece::Text("(r, input);\n}\n\nstatic void "),
            Piece::Name,
            Piece::Text("_put_output(const "),
            Piece::Name,
            Piece::Text("_output *output)\n{\n    "),
            Piece::Name,
            Piece::Text("_put_"),
            Piece::Letters(output),
            Piece::Text("(output);\n}\n"),
        ],
    )
}

/// Whether two types are the same.
fn is_same(a: &Ty, b: &Ty) -> bool
    ensures { result ≡ same_tree (type_of a.now) (type_of b.now) }
{
    same_type(a, b)
}

/// Whether a type is this one or a part of it.
#[cycle(is_part)]
pub(crate) fn is_part(ty: &Ty, whole: &Ty) -> bool
    ensures { result ≡ is_part (type_of ty.now) (type_of whole.now) }
{
    match whole {
        Ty::Unit | Ty::Bool | Ty::Int => is_same(ty, whole),
        Ty::Pair(a, b) => is_same(ty, whole) || is_part(ty, a.get()) || is_part(ty, b.get()),
        Ty::Event(a) | Ty::List(a) => is_same(ty, whole) || is_part(ty, a.get()),
    }
}

/// Whether a type has parts.
fn has_parts(ty: &Ty) -> bool
    ensures { result ≡ has_parts (type_of ty.now) }
{
    match ty {
        Ty::Unit | Ty::Bool | Ty::Int => false,
        Ty::Pair(..) | Ty::Event(_) | Ty::List(_) => true,
    }
}

/// The readers of the types that the input has.
fn push_readers(
    text: &mut String,
    prefix: &str,
    types: &[Ty],
    input: &Ty,
    most: usize,
) -> Result<(), Memory>
    ensures { IfOk result (λ _. string_bytes text.new ≡ string_bytes text.old
        ++ readers_text prefix.now most (type_of input.now) (map type_of types.now)) }
{
    for ty in types {
        push_reader_if(text, prefix, ty, input, most)?;
    }
    Ok(())
}

/// The reader of a type with parts that the input has.
#[tactic(auto, unfolding(crate::specs::FilterText::reader_if))]
fn push_reader_if(
    text: &mut String,
    prefix: &str,
    ty: &Ty,
    input: &Ty,
    most: usize,
) -> Result<(), Memory>
    ensures { IfOk result (λ _. string_bytes text.new ≡ string_bytes text.old
        ++ reader_if prefix.now most (type_of input.now) (type_of ty.now)) }
{
    if has_parts(ty) && is_part(ty, input) {
        push_reader(text, prefix, ty, most)?;
    }
    Ok(())
}

/// The reader of a type.
fn push_reader(text: &mut String, prefix: &str, ty: &Ty, most: usize) -> Result<(), Memory>
    ensures { IfOk result (λ _. string_bytes text.new
        ≡ string_bytes text.old ++ reader_text prefix.now most (type_of ty.now)) }
{
    push(
        text,
        prefix,
        &[
            Piece::Text("\nstatic bool "),
            Piece::Name,
            Piece::Text("_read_"),
            Piece::Letters(ty),
            Piece::Text("(struct "),
            Piece::Name,
            Piece::Text("_reader *r, "),
            Piece::Type(ty),
            Piece::Text(" *v)\n{\n"),
        ],
    )?;
    push_reading(text, prefix, ty, most)?;
    push(text, prefix, &[Piece::Text("}\n")])
}

/// The lines of a reader.
fn push_reading(text: &mut String, prefix: &str, ty: &Ty, most: usize) -> Result<(), Memory>
    ensures { IfOk result (λ _. string_bytes text.new
        ≡ string_bytes text.old ++ pieces_text prefix.now (reading_pieces most (type_of ty.now))) }
{
    match ty {
        Ty::Unit | Ty::Bool | Ty::Int => {}
        Ty::Pair(a, b) => {
            let a = a.get();
            let b = b.get();
            push_reading_pair(text, prefix, a, b)?;
        }
        Ty::Event(a) => {
            let a = a.get();
            push_reading_event(text, prefix, a)?;
        }
        Ty::List(a) => {
            let a = a.get();
            push_reading_list(text, prefix, a, most)?;
        }
    }
    Ok(())
}

/// The lines of a reader of pairs.
fn push_reading_pair<'a>(
    text: &mut String,
    prefix: &str,
    a: &'a Ty,
    b: &'a Ty,
) -> Result<(), Memory>
    ensures { IfOk result (λ _. string_bytes text.new
        ≡ string_bytes text.old ++ pieces_text prefix.now (reading_pieces 0 (pair_ty (type_of a.now) (type_of b.now)))) }
{
    push(
        text,
        prefix,
        &[
            Piece::Text("    return "),
            Piece::Name,
            Piece::Text("_word(r, 'P', \"(pair\", 5) && "),
            Piece::Name,
            Piece::Text("_byte(r, ' ') && "),
            Piece::Name,
            Piece::Text("_read_"),
            Piece::Letters(a),
            Piece::Text("(r, &v->a)\n        && "),
            Piece::Name,
            Piece::Text("_byte(r, ' ') && "),
            Piece::Name,
            Piece::Text("_read_"),
            Piece::Letters(b),
            Piece::Text("(r, &v->b) && "),
            Piece::Name,
            Piece::Text("_byte(r, ')');\n"),
        ],
    )
}

/// The lines of a reader of events.
fn push_reading_event(text: &mut String, prefix: &str, a: &Ty) -> Result<(), Memory>
    ensures { IfOk result (λ _. string_bytes text.new
        ≡ string_bytes text.old ++ pieces_text prefix.now (reading_pieces 0 (event_ty (type_of a.now)))) }
{
    push(
        text,
        prefix,
        &[
            Piece::Text("    v->is = "),
            Piece::Name,
            Piece::Text("_is_word(r, \"(event\", 6);\n    if (v->is) {\n        return "),
            Piece::Name,
            Piece::Text("_byte(r, ' ') && "),
            Piece::Name,
            Piece::Text("_read_"),
            Piece::Letters(a),
            Piece::Text("(r, &v->v) && "),
            Piece::Name,
            Piece::Text("_byte(r, ')');\n    }\n    return "),
            Piece::Name,
            Piece::Text("_word(r, 'E', \"none\", 4);\n"),
        ],
    )
}

/// The lines of a reader of lists.
fn push_reading_list(text: &mut String, prefix: &str, a: &Ty, most: usize) -> Result<(), Memory>
    ensures { IfOk result (λ _. string_bytes text.new
        ≡ string_bytes text.old ++ pieces_text prefix.now (reading_pieces most (list_ty (type_of a.now)))) }
{
    push(
        text,
        prefix,
        &[
            Piece::Text("    if (!"),
            Piece::Name,
            Piece::Text(
                "_word(r, 'L', \"(list\", 5)) {\n        return false;\n    }\n    for (v->n = 0; *r->at != ')'; v->n++) {\n        if (!",
            ),
            Piece::Name,
            Piece::Text("_byte(r, ' ') || !"),
            Piece::Name,
            Piece::Text("_room(r, v->n, "),
            Piece::Number(most),
            Piece::Text(") || !"),
            Piece::Name,
            Piece::Text("_read_"),
            Piece::Letters(a),
            Piece::Text(
                "(r, &v->e[v->n])) {\n            return false;\n        }\n    }\n    r->at++;\n    return true;\n",
            ),
        ],
    )
}

/// The writers of the types that the output has.
fn push_writers(text: &mut String, prefix: &str, types: &[Ty], output: &Ty) -> Result<(), Memory>
    ensures { IfOk result (λ _. string_bytes text.new ≡ string_bytes text.old
        ++ writers_text prefix.now (type_of output.now) (map type_of types.now)) }
{
    for ty in types {
        push_writer_if(text, prefix, ty, output)?;
    }
    Ok(())
}

/// The writer of a type with parts that the output has.
fn push_writer_if(text: &mut String, prefix: &str, ty: &Ty, output: &Ty) -> Result<(), Memory>
    ensures { IfOk result (λ _. string_bytes text.new
        ≡ string_bytes text.old ++ writer_if prefix.now (type_of output.now) (type_of ty.now)) }
{
    if has_parts(ty) && is_part(ty, output) {
        push_writer(text, prefix, ty)?;
    }
    Ok(())
}

/// The writer of a type.
fn push_writer(text: &mut String, prefix: &str, ty: &Ty) -> Result<(), Memory>
    ensures { IfOk result (λ _. string_bytes text.new
        ≡ string_bytes text.old ++ writer_text prefix.now (type_of ty.now)) }
{
    push(
        text,
        prefix,
        &[
            Piece::Text("\nstatic void "),
            Piece::Name,
            Piece::Text("_put_"),
            Piece::Letters(ty),
            Piece::Text("(const "),
            Piece::Type(ty),
            Piece::Text(" *v)\n{\n"),
        ],
    )?;
    push_writing(text, prefix, ty)?;
    push(text, prefix, &[Piece::Text("}\n")])
}

/// The lines of a writer.
fn push_writing(text: &mut String, prefix: &str, ty: &Ty) -> Result<(), Memory>
    ensures { IfOk result (λ _. string_bytes text.new
        ≡ string_bytes text.old ++ pieces_text prefix.now (writing_pieces (type_of ty.now))) }
{
    match ty {
        Ty::Unit | Ty::Bool | Ty::Int => {}
        Ty::Pair(a, b) => {
            let a = a.get();
            let b = b.get();
            push_writing_pair(text, prefix, a, b)?;
        }
        Ty::Event(a) => {
            let a = a.get();
            push_writing_event(text, prefix, a)?;
        }
        Ty::List(a) => {
            let a = a.get();
            push_writing_list(text, prefix, a)?;
        }
    }
    Ok(())
}

/// The lines of a writer of pairs.
fn push_writing_pair<'a>(
    text: &mut String,
    prefix: &str,
    a: &'a Ty,
    b: &'a Ty,
) -> Result<(), Memory>
    ensures { IfOk result (λ _. string_bytes text.new
        ≡ string_bytes text.old ++ pieces_text prefix.now (writing_pieces (pair_ty (type_of a.now) (type_of b.now)))) }
{
    push(
        text,
        prefix,
        &[
            Piece::Text("    "),
            Piece::Name,
            Piece::Text("_put(\"(pair \", 6);\n    "),
            Piece::Name,
            Piece::Text("_put_"),
            Piece::Letters(a),
            Piece::Text("(&v->a);\n    "),
            Piece::Name,
            Piece::Text("_put(\" \", 1);\n    "),
            Piece::Name,
            Piece::Text("_put_"),
            Piece::Letters(b),
            Piece::Text("(&v->b);\n    "),
            Piece::Name,
            Piece::Text("_put(\")\", 1);\n"),
        ],
    )
}

/// The lines of a writer of events.
fn push_writing_event(text: &mut String, prefix: &str, a: &Ty) -> Result<(), Memory>
    ensures { IfOk result (λ _. string_bytes text.new
        ≡ string_bytes text.old ++ pieces_text prefix.now (writing_pieces (event_ty (type_of a.now)))) }
{
    push(
        text,
        prefix,
        &[
            Piece::Text("    if (v->is) {\n        "),
            Piece::Name,
            Piece::Text("_put(\"(event \", 7);\n        "),
            Piece::Name,
            Piece::Text("_put_"),
            Piece::Letters(a),
            Piece::Text("(&v->v);\n        "),
            Piece::Name,
            Piece::Text("_put(\")\", 1);\n    } else {\n        "),
            Piece::Name,
            Piece::Text("_put(\"none\", 4);\n    }\n"),
        ],
    )
}

/// The lines of a writer of lists.
fn push_writing_list(text: &mut String, prefix: &str, a: &Ty) -> Result<(), Memory>
    ensures { IfOk result (λ _. string_bytes text.new
        ≡ string_bytes text.old ++ pieces_text prefix.now (writing_pieces (list_ty (type_of a.now)))) }
{
    push(
        text,
        prefix,
        &[
            Piece::Text("    "),
            Piece::Name,
            Piece::Text("_put(\"(list\", 5);\n    for (uint32_t i = 0; i < v->n; i++) {\n        "),
            Piece::Name,
            Piece::Text("_put(\" \", 1);\n        "),
            Piece::Name,
            Piece::Text("_put_"),
            Piece::Letters(a),
            Piece::Text("(&v->e[i]);\n    }\n    "),
            Piece::Name,
            Piece::Text("_put(\")\", 1);\n"),
        ],
    )
}
