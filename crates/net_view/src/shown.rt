// The text of what came of steps.

ghost use Rattle.std.specs.Prelude.{◌≡◌, map, option_map, string_bytes, IfOk};
ghost use Rattle.sample_core.specs.Adding.{Adds};
ghost use Rattle.net_tree.specs.LawStep.{part_of, step_of};
ghost use Rattle.net_view.specs.Trace.{changed_of, stopped_of};
ghost use Rattle.net_view.specs.TraceText.{change_lines, cut_lines, marked_line, marked_lines, stop_lines, trace_lines};

use crate::cut::push_pair;
use crate::trace::{Change, RefusedStep, Trace};
use net_text::{push_step, push_tree};
use net_tree::{LawStep, Tree};
use sample_core::Memory;
use std::alloc::Global;

/// The trace of the steps as a new text: for each step that was taken its line, as `print_cert` has
/// it, then `- ` and the tree that stood at its position, then `+ ` and the one that stands there
/// now; for one that was refused its line, then `- ` and what stands at its position, if that is
/// there, and `> ` and what its law leads to from the given tree, where it leads somewhere.
/// `Memory` if allocation fails.
pub fn trace_text(alloc: Global, steps: &[LawStep], trace: &Trace) -> Result<String, Memory>
    ensures { IfOk result (λ text. string_bytes text
        ≡ trace_lines (map step_of steps.now) (map changed_of trace.now.changes.items)
        (option_map stopped_of trace.now.stop)) }
{
    let mut text = String::new(alloc);
    let mut changes = trace.changes.as_slice();
    for step in steps {
        let Some((change, rest)) = changes.split_first() else {
            push_stop(&mut text, step, &trace.stop)?;
            return Ok(text);
        };
        push_change(&mut text, step, change)?;
        changes = rest;
    }
    Ok(text)
}

/// The lines of a step that was taken.
fn push_change(text: &mut String, step: &LawStep, change: &Change) -> Result<(), Memory>
    ensures { Adds result (string_bytes text.old) (string_bytes text.new)
        (change_lines (step_of step.now) (changed_of change.now)) }
{
    push_step(text, step)?;
    push_marked(text, "- ", &change.before)?;
    push_marked(text, "+ ", &change.after)
}

/// The lines of a step that was refused, where one was.
fn push_stop(text: &mut String, step: &LawStep, stop: &Option<RefusedStep>) -> Result<(), Memory>
    ensures { Adds result (string_bytes text.old) (string_bytes text.new)
        (stop_lines (step_of step.now) (option_map stopped_of stop.now)) }
{
    let Some(stop) = stop else {
        return Ok(());
    };
    push_step(text, step)?;
    push_some(text, "- ", &stop.there)?;
    push_some(text, "> ", &stop.led)
}

/// The line of a tree behind a mark, if there is one.
fn push_some(text: &mut String, mark: &str, tree: &Option<Tree>) -> Result<(), Memory>
    ensures { Adds result (string_bytes text.old) (string_bytes text.new)
        (marked_lines mark.now (option_map part_of tree.now)) }
{
    match tree {
        Some(tree) => push_marked(text, mark, tree),
        None => Ok(()),
    }
}

/// A tree behind a mark, and the end of its line.
pub(crate) fn push_marked(text: &mut String, mark: &str, tree: &Tree) -> Result<(), Memory>
    ensures { Adds result (string_bytes text.old) (string_bytes text.new)
        (marked_line mark.now (part_of tree.now)) }
{
    text.push_str(mark)?;
    push_tree(text, tree)?;
    text.push_str("\n")?;
    Ok(())
}

/// Adds `- ` and the first tree, and `+ ` and the second, a line each. A tree of over 100 bytes is
/// cut: as deep as 100 bytes hold, two dots stand for each part that is deeper in brackets; where that
/// leaves no difference to see, each line has the part of its tree around the first byte at which they
/// differ. `Memory` if allocation fails; the text then begins as before.
pub fn push_cut_lines(
    alloc: Global,
    text: &mut String,
    before: &Tree,
    after: &Tree,
) -> Result<(), Memory>
    ensures { Adds result (string_bytes text.old) (string_bytes text.new)
        (cut_lines (part_of before.now) (part_of after.now)) }
{
    let mut first = String::new(alloc);
    push_tree(&mut first, before)?;
    let mut second = String::new(alloc);
    push_tree(&mut second, after)?;
    push_pair(alloc, text, first.as_str(), second.as_str())
}
