// The names of a file, by number.

ghost use Rattle.std.specs.Prelude.{◌≡◌, ◌++◌, IfOk, string_bytes};
ghost use Rattle.c_text.specs.NameText.{member_from, member_text, name_text};

use crate::tree::Kind;
use std::alloc::AllocError;

/// What has a name.
#[derive(Clone, Copy)]
pub enum Name {
    /// Local k of a function, parameters first.
    Local(usize),
    /// Member k of a struct of a kind.
    Member(Kind, usize),
    /// Function k.
    Function(usize),
    /// The function that makes a state before the first sample.
    Init,
    /// The function that a program calls at each sample.
    Step,
    /// Struct k.
    Struct(usize),
    /// The macro by which C and C++ say the type of what stands in braces.
    Of,
    /// The macro of a struct's zeros.
    Zeros,
    /// The macro by which a `uint64_t` becomes an `int64_t`.
    Signed,
}

/// Adds a name to the end of the text.
pub fn push_name(text: &mut String, prefix: &str, name: Name) -> Result<(), AllocError>
    ensures { IfOk result (λ _. string_bytes text.new
        ≡ string_bytes text.old ++ name_text prefix.now name) }
{
    match name {
        Name::Local(k) => write!(text, "r{k}")?,
        Name::Member(kind, k) => push_member(text, kind, k)?,
        Name::Function(k) => write!(text, "{prefix}_f{k}")?,
        Name::Init => write!(text, "{prefix}_init")?,
        Name::Step => write!(text, "{prefix}_step")?,
        Name::Struct(k) => write!(text, "{prefix}_t{k}")?,
        Name::Of => write!(text, "{prefix}_of")?,
        Name::Zeros => write!(text, "{prefix}_zeros")?,
        Name::Signed => write!(text, "{prefix}_signed")?,
    }
    Ok(())
}

/// Adds the name of member k, by the kind of its struct.
fn push_member(text: &mut String, kind: Kind, k: usize) -> Result<(), AllocError>
    ensures { IfOk result (λ _. string_bytes text.new
        ≡ string_bytes text.old ++ member_text kind k) }
{
    match kind {
        Kind::Pair => push_member_from(text, "a", "b", k)?,
        Kind::Event => push_member_from(text, "is", "v", k)?,
        Kind::List => push_member_from(text, "n", "e", k)?,
        Kind::Kept => write!(text, "m{k}")?,
    }
    Ok(())
}

/// Adds the name of member k where the first two have names of their own.
fn push_member_from(text: &mut String, one: &str, other: &str, k: usize) -> Result<(), AllocError>
    ensures { IfOk result (λ _. string_bytes text.new
        ≡ string_bytes text.old ++ member_from one.now other.now k) }
{
    match k {
        0 => text.push_str(one)?,
        1 => text.push_str(other)?,
        _ => write!(text, "m{k}")?,
    }
    Ok(())
}
