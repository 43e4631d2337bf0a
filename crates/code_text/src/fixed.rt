// The C that each file has: how it is used, its beginning, and the declarations of what a program calls.

ghost use Rattle.std.specs.Prelude.{◌≡◌, ◌++◌, IfOk, string_bytes};
ghost use Rattle.code_text.specs.Piece.{pieces_text};
ghost use Rattle.code_text.specs.FixedText.{bounded_pieces, init_head, opening_pieces, promised, prototypes_text, returned, step_head, use_pieces};

use crate::piece::{Piece, push};
use sample_core::Memory;

/// How a program uses the file, in the comment.
pub(crate) fn push_use(text: &mut String, prefix: &str, unchecked: bool) -> Result<(), Memory>
    ensures { IfOk result (λ _. string_bytes text.new
        ≡ string_bytes text.old ++ pieces_text prefix.now (use_pieces unchecked)) }
{
    let promised = promised(unchecked);
    push(
        text,
        prefix,
        &[
            Piece::Text("\n * struct "),
            Piece::Name,
            Piece::Text("_state state;                     all the memory that there is\n * "),
            Piece::Name,
            Piece::Text(
                "_init(&state);                           before the first sample, and to start anew\n * ",
            ),
            Piece::Name,
            Piece::Text(
                "_step(&state, dt, &input, &output);      at each sample\n *\n * dt is the time since the sample before, at least 1; at the first sample it is not looked at.\n * Lists of the input have at most as many elements as their arrays. ",
            ),
            Piece::Text(promised),
        ],
    )
}

/// Who sees to both.
fn promised(unchecked: bool) -> &'static str
    ensures { result.now ≡ promised unchecked }
{
    if unchecked {
        "The caller sees to both.\n"
    } else {
        "Else the step\n * does nothing, and returns false.\n"
    }
}

/// The beginning of the declarations, with a fingerprint, and the bytes that the state has at most.
pub(crate) fn push_opening(
    text: &mut String,
    prefix: &str,
    fingerprint: u64,
    bytes: usize,
) -> Result<(), Memory>
    ensures { IfOk result (λ _. string_bytes text.new
        ≡ string_bytes text.old ++ pieces_text prefix.now (opening_pieces fingerprint bytes)) }
{
    push(
        text,
        prefix,
        &[
            Piece::Text("#ifndef "),
            Piece::Name,
            Piece::Text("_h\n#define "),
            Piece::Name,
            Piece::Text(
                "_h\n\n#include <stdbool.h>\n#include <stdint.h>\n\n/* The sum of the comment above, so that only a header and a file of the same one link. */\n#define ",
            ),
            Piece::Name,
            Piece::Text("_init "),
            Piece::Name,
            Piece::Text("_init_"),
            Piece::Hex(fingerprint),
            Piece::Text("\n#define "),
            Piece::Name,
            Piece::Text("_step "),
            Piece::Name,
            Piece::Text("_step_"),
            Piece::Hex(fingerprint),
            Piece::Text("\n#define "),
            Piece::Name,
            Piece::Text("_STATE_BYTES "),
            Piece::Number(bytes),
            Piece::Text("\n"),
        ],
    )
}

/// No compiler takes a state that has more bytes than that.
pub(crate) fn push_bounded(text: &mut String, prefix: &str) -> Result<(), Memory>
    ensures { IfOk result (λ _. string_bytes text.new
        ≡ string_bytes text.old ++ pieces_text prefix.now (bounded_pieces)) }
{
    push(
        text,
        prefix,
        &[
            Piece::Text("typedef char "),
            Piece::Name,
            Piece::Text("_state_fits[(sizeof(struct "),
            Piece::Name,
            Piece::Text("_state) <= "),
            Piece::Name,
            Piece::Text("_STATE_BYTES) ? 1 : -1];\n"),
        ],
    )
}

/// What a step returns.
fn returned(unchecked: bool) -> &'static str
    ensures { result.now ≡ returned unchecked }
{
    if unchecked { "void " } else { "bool " }
}

/// The head of the function that makes a state before the first sample.
fn push_init_head(text: &mut String, prefix: &str) -> Result<(), Memory>
    ensures { IfOk result (λ _. string_bytes text.new
        ≡ string_bytes text.old ++ pieces_text prefix.now (init_head)) }
{
    push(
        text,
        prefix,
        &[
            Piece::Text("void "),
            Piece::Name,
            Piece::Text("_init(struct "),
            Piece::Name,
            Piece::Text("_state *state)"),
        ],
    )
}

/// The head of the step.
fn push_step_head(text: &mut String, prefix: &str, unchecked: bool) -> Result<(), Memory>
    ensures { IfOk result (λ _. string_bytes text.new
        ≡ string_bytes text.old ++ pieces_text prefix.now (step_head unchecked)) }
{
    let returned = returned(unchecked);
    push(
        text,
        prefix,
        &[
            Piece::Text(returned),
            Piece::Name,
            Piece::Text("_step(struct "),
            Piece::Name,
            Piece::Text("_state *state, int64_t dt, const "),
            Piece::Name,
            Piece::Text("_input *input, "),
            Piece::Name,
            Piece::Text("_output *output)"),
        ],
    )
}

/// What a program calls, declared.
pub(crate) fn push_prototypes(
    text: &mut String,
    prefix: &str,
    unchecked: bool,
) -> Result<(), Memory>
    ensures { IfOk result (λ _. string_bytes text.new
        ≡ string_bytes text.old ++ prototypes_text prefix.now unchecked) }
{
    text.push_str("\n#ifdef __cplusplus\nextern \"C\" {\n#endif\n")?;
    push_init_head(text, prefix)?;
    text.push_str(";\n")?;
    push_step_head(text, prefix, unchecked)?;
    push(
        text,
        prefix,
        &[Piece::Text(";\n#ifdef __cplusplus\n}\n#endif\n\n#endif\n")],
    )
}
