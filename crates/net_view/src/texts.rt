// The outline and the steps that may be taken, as texts.

ghost use Rattle.std.specs.Prelude.{IfOk, string_bytes};
ghost use Rattle.sample_core.specs.Adding.{Adds};
ghost use Rattle.net_view.specs.{Possible.possible_of, Outline.line_of};
ghost use Rattle.net_view.specs.Texts.{OutlineText, PossibleText, indent, possible_spelling, line_spelling, weight_spelling};

use crate::forms::push_form;
use crate::lines::{OutlineLine, outline};
use crate::possible::{PossibleStep, possible_steps};
use crate::shown::push_cut_lines;
use itoa::Buffer;
use net_syntax::TypedNet;
use net_text::push_step;
use net_tree::{Position, push_position};
use sample_core::{Memory, push_type, push_word};
use std::alloc::Global;

/// The network's outline as a new text, a line a line: two blanks for each level of depth, then the
/// position, the word of the form, the type, and of networks the weight, parted by tabs. `Memory`
/// if allocation fails.
pub fn outline_text(alloc: Global, net: &TypedNet) -> Result<String, Memory>
    ensures { IfOk result (λ text. OutlineText net.now (string_bytes text)) }
{
    let lines = outline(alloc, net)?;
    let mut text = String::new(alloc);
    for line in &lines {
        push_line(&mut text, line)?;
    }
    Ok(text)
}

/// The steps forward at or below the position that a check would accept, as a new text of three
/// lines a step: the step as a certificate has it, behind `- ` what stands at its position, and
/// behind `+ ` what stands there then. A tree of over 100 bytes is cut: as deep as 100 bytes hold,
/// two dots stand for each part that is deeper in brackets; where that leaves no difference to see,
/// 96 bytes of each from 20 before the first difference on stand there, and two dots for what is
/// before and behind. `Memory` if allocation fails.
pub fn possible_text(alloc: Global, net: &TypedNet, position: &Position) -> Result<String, Memory>
    ensures { IfOk result (λ text. PossibleText net.now position.now (string_bytes text)) }
{
    let steps = possible_steps(alloc, net, position)?;
    let mut text = String::new(alloc);
    for step in &steps {
        push_possible(alloc, &mut text, step)?;
    }
    Ok(text)
}

/// A step and what it changes.
fn push_possible(alloc: Global, text: &mut String, step: &PossibleStep) -> Result<(), Memory>
    ensures { Adds result (string_bytes text.old) (string_bytes text.new)
        (possible_spelling (possible_of step.now)) }
{
    push_step(text, &step.step)?;
    push_cut_lines(alloc, text, &step.change.before, &step.change.after)
}

/// A line of the outline.
fn push_line(text: &mut String, line: &OutlineLine) -> Result<(), Memory>
    ensures { Adds result (string_bytes text.old) (string_bytes text.new)
        (line_spelling (line_of line.now)) }
{
    push_indent(text, line.position.path())?;
    push_position(text, &line.position)?;
    push_word(text, "\t")?;
    push_form(text, &line.tree)?;
    push_word(text, "\t")?;
    push_type(text, &line.output)?;
    push_weight(text, line.weight)?;
    push_word(text, "\n")
}

/// Two blanks for each child number.
fn push_indent(text: &mut String, path: &[u32]) -> Result<(), Memory>
    ensures { Adds result (string_bytes text.old) (string_bytes text.new) (indent path.now) }
{
    'children: for _ in path {
        push_word(text, "  ")?;
    }
    Ok(())
}

/// A tab and the weight, if there is one.
fn push_weight(text: &mut String, weight: Option<u32>) -> Result<(), Memory>
    ensures { Adds result (string_bytes text.old) (string_bytes text.new)
        (weight_spelling weight) }
{
    match weight {
        Some(weight) => {
            push_word(text, "\t")?;
            push_word(text, Buffer::new().format(weight))
        }
        None => Ok(()),
    }
}
