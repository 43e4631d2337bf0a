// Constant text of C.

ghost use Rattle.std.specs.Prelude.{◌≡◌, ◌++◌, ◌<◌, IfOk, string_bytes};
ghost use Rattle.code_text.specs.NamedText.{named_text, with_each};

use sample_core::Memory;

/// Adds a constant text, in which `@` stands for the prefix.
pub(crate) fn push_named(text: &mut String, prefix: &str, constant: &str) -> Result<(), Memory>
    ensures { IfOk result (λ _. string_bytes text.new
        ≡ string_bytes text.old ++ named_text prefix.now constant.now) }
{
    push_with_each(text, '@', prefix, constant)
}

/// Adds a text, with another in place of each mark.
pub(crate) fn push_with_each(
    text: &mut String,
    mark: char,
    by: &str,
    marked: &str,
) -> Result<(), Memory>
    requires { mark < 128 }
    ensures { IfOk result (λ _. string_bytes text.new
        ≡ string_bytes text.old ++ with_each mark by.now marked.now) }
{
    let mut rest = marked;
    while let Some((before, after)) = rest.split_once(mark) {
        text.push_str(before)?;
        text.push_str(by)?;
        rest = after;
    }
    text.push_str(rest)?;
    Ok(())
}
