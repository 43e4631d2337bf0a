// Long texts, cut to a line.

ghost use Rattle.std.specs.Prelude.{nat_lt, take, drop, filter, bytes_eq, not, ◌&&◌, ◌≡◌, ◌+◌, ◌++◌, ◌<◌, ◌^◌, IfOk, OnOk, codes, string_bytes};
ghost use Rattle.sample_core.specs.Adding.{Adds};
ghost use Rattle.net_view.specs.Cut.{around, beginning, cut, cut_pair, dots, fitting, head, open_behind, same_front, shown, to_depth};
ghost use Rattle.net_view.specs.TraceText.{pair_lines};

use sample_core::Memory;
use std::alloc::Global;

/// The most bytes of a text that isn't cut.
const LINE: usize = 100;

/// How deep in brackets a part may be that is shown of a text that is cut.
const DEEPEST: usize = 8;

/// The most bytes that are shown of a text of which only a part is.
const PART: usize = LINE - 4;

/// The most of them that stand before what differs.
const FRONT: usize = 20;

/// Adds the text; one of over 100 bytes with two dots for each part that is too deep in brackets,
/// as deep as 100 bytes hold; else its first word, and two dots for the rest.
fn push_cut(alloc: Global, text: &mut String, whole: &str) -> Result<(), Memory>
    ensures { Adds result (string_bytes text.old) (string_bytes text.new) (cut whole.now) }
{
    if whole.len() > LINE {
        push_fitting(alloc, text, whole.as_bytes(), DEEPEST)
    } else {
        text.push_str(whole)?;
        Ok(())
    }
}

/// Adds what fits of the text, to so many brackets at most.
fn push_fitting(alloc: Global, text: &mut String, whole: &[u8], most: usize) -> Result<(), Memory>
    ensures { Adds result (string_bytes text.old) (string_bytes text.new)
        (fitting most whole.now) }
{
    if most == 0 {
        return push_head(alloc, text, whole);
    }
    let shown = to_depth(alloc, whole, most)?;
    if shown.len() > LINE {
        drop(shown);
        return push_fitting(alloc, text, whole, most - 1);
    }
    text.push_str(shown.as_str())?;
    Ok(())
}

/// Adds the first word of a text in brackets, and two dots for the rest.
fn push_head(alloc: Global, text: &mut String, whole: &[u8]) -> Result<(), Memory>
    ensures { Adds result (string_bytes text.old) (string_bytes text.new)
        (head whole.now ++ codes " ..)") }
{
    let word = head_of(alloc, whole)?;
    text.push_str(word.as_str())?;
    text.push_str(" ..)")?;
    Ok(())
}

/// The text before its first blank.
fn head_of(alloc: Global, whole: &[u8]) -> Result<String, Memory>
    ensures { IfOk result (λ text. string_bytes text ≡ head whole.now) }
{
    let mut text = String::new(alloc);
    for byte in whole {
        if *byte == b' ' {
            return Ok(text);
        }
        push_shown(&mut text, *byte, 0, 1)?;
    }
    Ok(text)
}

/// The text with two dots for each part in so many brackets.
fn to_depth(alloc: Global, whole: &[u8], most: usize) -> Result<String, Memory>
    ensures { IfOk result (λ text. string_bytes text ≡ to_depth most 0 whole.now) }
{
    let mut text = String::new(alloc);
    let mut depth: usize = 0;
    for byte in whole {
        push_shown(&mut text, *byte, depth, most)?;
        depth = open_behind(depth, *byte);
    }
    Ok(text)
}

/// Adds what is shown of a byte where so many brackets are open before it.
fn push_shown(text: &mut String, byte: u8, depth: usize, most: usize) -> Result<(), Memory>
    ensures { OnOk result (string_bytes text.new
        ≡ string_bytes text.old ++ shown most depth byte) }
{
    if depth > most {
        return Ok(());
    }
    if byte == b'(' && depth == most {
        text.push_str("..")?;
    } else if byte < 128 {
        text.push(char::from(byte))?;
    }
    Ok(())
}

/// How many brackets are open behind a byte.
fn open_behind(depth: usize, byte: u8) -> usize
    requires { depth + 1 < 2 ^ 64 }
    ensures { result ≡ open_behind depth byte }
{
    match byte {
        b'(' => depth + 1,
        b')' => depth.saturating_sub(1),
        _ => depth,
    }
}

/// Adds both texts, a line each behind `- ` and `+ `, as `cut_pair` gives them.
pub(crate) fn push_pair(
    alloc: Global,
    text: &mut String,
    before: &str,
    after: &str,
) -> Result<(), Memory>
    ensures { Adds result (string_bytes text.old) (string_bytes text.new)
        (pair_lines (cut_pair before.now after.now)) }
{
    let (first, second) = cut_pair(alloc, before, after)?;
    push_lines(text, first.as_str(), second.as_str())
}

/// Both texts, cut; where that leaves no difference to see, the part of each around the first byte
/// at which they differ.
fn cut_pair(alloc: Global, before: &str, after: &str) -> Result<(String, String), Memory>
    ensures { IfOk result (λ pair. (string_bytes pair.0, string_bytes pair.1)
        ≡ cut_pair before.now after.now) }
{
    let first = cut_of(alloc, before)?;
    let second = cut_of(alloc, after)?;
    if !is_unseen(before, after, first.as_str(), second.as_str()) {
        return Ok((first, second));
    }
    let at = same_front(before.as_bytes(), after.as_bytes());
    let first = around(alloc, before.as_bytes(), at)?;
    let second = around(alloc, after.as_bytes(), at)?;
    Ok((first, second))
}

/// Whether two texts differ, and the first and the second, as they are cut, don't.
fn is_unseen(before: &str, after: &str, first: &str, second: &str) -> bool
    ensures { result ≡ (bytes_eq first.now second.now && not (bytes_eq before.now after.now)) }
{
    first == second && before != after
}

/// Adds the two texts behind `- ` and `+ `, a line each.
fn push_lines(text: &mut String, first: &str, second: &str) -> Result<(), Memory>
    ensures { Adds result (string_bytes text.old) (string_bytes text.new)
        (pair_lines (first.now, second.now)) }
{
    text.push_str("- ")?;
    text.push_str(first)?;
    text.push_str("\n+ ")?;
    text.push_str(second)?;
    text.push_str("\n")?;
    Ok(())
}

/// The text, cut where it is long.
fn cut_of(alloc: Global, whole: &str) -> Result<String, Memory>
    ensures { IfOk result (λ text. string_bytes text ≡ cut whole.now) }
{
    let mut text = String::new(alloc);
    push_cut(alloc, &mut text, whole)?;
    Ok(text)
}

/// How many bytes both texts begin with.
fn same_front(a: &[u8], b: &[u8]) -> usize
    ensures { result ≡ same_front a.now b.now }
{
    let mut count = 0usize;
    for (x, y) in a.iter().zip(b) {
        if *x != *y {
            return count;
        }
        count += 1;
    }
    count
}

/// The part of a text around a byte, and two dots for what stands before and behind it.
fn around(alloc: Global, whole: &[u8], at: usize) -> Result<String, Memory>
    ensures { IfOk result (λ text. string_bytes text ≡ around at whole.now) }
{
    let from = at.saturating_sub(FRONT);
    let mut text = String::new(alloc);
    push_dots(&mut text, from > 0)?;
    let rest = beginning(alloc, behind(whole, from))?;
    text.push_str(rest.as_str())?;
    Ok(text)
}

/// As many bytes as are shown, and two dots for what stands behind them.
fn beginning(alloc: Global, whole: &[u8]) -> Result<String, Memory>
    ensures { IfOk result (λ text. string_bytes text ≡ beginning whole.now) }
{
    let mut text = ascii_of(alloc, first(whole, PART))?;
    push_dots(&mut text, whole.len() > PART)?;
    Ok(text)
}

/// The first bytes, so many at most.
fn first(whole: &[u8], count: usize) -> &[u8]
    ensures { result.now ≡ take count whole.now }
{
    &whole[..count.min(whole.len())]
}

/// What stands behind so many bytes.
fn behind(whole: &[u8], count: usize) -> &[u8]
    ensures { result.now ≡ drop count whole.now }
{
    &whole[count.min(whole.len())..]
}

/// Adds two dots, if something is left out there.
fn push_dots(text: &mut String, is_left_out: bool) -> Result<(), Memory>
    ensures { Adds result (string_bytes text.old) (string_bytes text.new) (dots is_left_out) }
{
    if is_left_out {
        text.push_str("..")?;
    }
    Ok(())
}

/// The bytes that are ASCII.
fn ascii_of(alloc: Global, bytes: &[u8]) -> Result<String, Memory>
    ensures { IfOk result (λ text. string_bytes text ≡ filter (λ c. nat_lt c 128) bytes.now) }
{
    let mut text = String::new(alloc);
    for byte in bytes {
        push_shown(&mut text, *byte, 0, 1)?;
    }
    Ok(text)
}
