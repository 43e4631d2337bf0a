// The command `types`.

ghost use Rattle.std.specs.Prelude.{◌≡◌, ◌++◌, IfOk, OnOk, string_bytes};
ghost use Rattle.yampa_run.specs.Types.{arrow_line, size_lines, types_lines};

use crate::printed::push_number;
use net_syntax::TypedNet;
use sample_core::{Memory, push_type, push_word};
use std::alloc::Global;

/// The lines on a network's types, weight and height.
pub(crate) fn types_text(alloc: Global, net: &TypedNet) -> Result<String, Memory>
    ensures { IfOk result (λ text. string_bytes text ≡ types_lines net.now) }
{
    let mut text = String::new(alloc);
    push_arrow(&mut text, net)?;
    push_sizes(&mut text, net.weight(), net.height())?;
    Ok(text)
}

/// Adds the network's input type and output type.
fn push_arrow(text: &mut String, net: &TypedNet) -> Result<(), Memory>
    ensures { OnOk result (string_bytes text.new ≡ string_bytes text.old ++ arrow_line net.now) }
{
    push_type(text, net.input())?;
    push_word(text, " -> ")?;
    push_type(text, net.output())
}

/// Adds a line feed, and the lines of a network's weight and height.
fn push_sizes(text: &mut String, weight: u32, height: u32) -> Result<(), Memory>
    ensures { OnOk result (string_bytes text.new ≡ string_bytes text.old
        ++ size_lines weight height) }
{
    push_word(text, "\nweight ")?;
    push_number(text, u64::from(weight))?;
    push_word(text, "\nheight ")?;
    push_number(text, u64::from(height))?;
    push_word(text, "\n")
}
