// The network in the first comment, on lines that end by column 100.

ghost use Rattle.std.specs.Prelude.{◌≡◌, ◌++◌, [], IfOk, string_bytes};
ghost use Rattle.code_text.specs.FoldedText.{folded, folded_lines, gap, room_behind, word_length};

use sample_core::Memory;

/// What a line begins with.
const LINE: &str = "\n * ";

/// How many columns there are behind that.
const ROOM: usize = 97;

/// Adds the lines of a text, broken at blanks; what is longer than a line, and has no blank, stands alone.
pub(crate) fn push_folded(text: &mut String, lines: &str) -> Result<(), Memory>
    ensures { IfOk result (λ _. string_bytes text.new
        ≡ string_bytes text.old ++ folded_lines [] lines.now) }
{
    let mut rest = lines;
    while let Some((line, after)) = rest.split_once('\n') {
        push_line(text, line)?;
        text.push_str(LINE)?;
        rest = after;
    }
    push_line(text, rest)?;
    Ok(())
}

/// Adds a line.
fn push_line(text: &mut String, line: &str) -> Result<(), Memory>
    ensures { IfOk result (λ _. string_bytes text.new ≡ string_bytes text.old ++ folded 97 line.now) }
{
    let mut rest = line;
    let mut room = ROOM;
    while let Some((word, after)) = rest.split_once(' ') {
        text.push_str(word)?;
        room = push_gap(text, room.saturating_sub(word.len()), after)?;
        rest = after;
    }
    text.push_str(rest)?;
    Ok(())
}

/// Adds what stands before this text, behind which there is so much room. Answers how much there is behind it.
fn push_gap(text: &mut String, room: usize, after: &str) -> Result<usize, Memory>
    ensures text { IfOk result (λ _. string_bytes text.new ≡ string_bytes text.old ++ gap room after.now) }
    ensures room { IfOk result (λ left. left ≡ room_behind room after.now) }
{
    if word_length(after) < room {
        text.push_str(" ")?;
        Ok(room - 1)
    } else {
        text.push_str(LINE)?;
        Ok(ROOM)
    }
}

/// How long the first word is.
fn word_length(text: &str) -> usize
    ensures { result ≡ word_length text.now }
{
    match text.split_once(' ') {
        Some((word, _)) => word.len(),
        None => text.len(),
    }
}
