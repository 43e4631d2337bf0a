// The comment above the C function that does the step of a function of the code.

ghost use Rattle.std.specs.Prelude.{◌≡◌, ◌++◌, IfOk, slice_get, string_bytes};
ghost use Rattle.sample_core.specs.Spelling.{type_spelling};
ghost use Rattle.code_fits.specs.Tables.{tree_at};
ghost use Rattle.code_text.specs.CommentText.{cell_word, comment_of, comment_over, comment_text, position_text, types_text, word_of};

use cell_core::Form;
use code_fits::{Layout, Program, Types};
use net_code::Function;
use sample_core::{Memory, push_type};

/// Adds what function k of a program is, if there is one.
pub(crate) fn push_comment_of(text: &mut String, program: &Program, k: usize) -> Result<(), Memory>
    ensures { IfOk result (λ _. string_bytes text.new
        ≡ string_bytes text.old ++ comment_of program.now k) }
{
    match program.functions.get(k) {
        Some(function) => push_over(text, program, k, function),
        None => Ok(()),
    }
}

/// Adds what function k is, if it has a layout.
fn push_over(
    text: &mut String,
    program: &Program,
    k: usize,
    function: &Function,
) -> Result<(), Memory>
    ensures { IfOk result (λ _. string_bytes text.new ≡ string_bytes text.old
        ++ comment_over program.now.types function.now (slice_get program.now.layouts.items k)) }
{
    match program.layouts.get(k) {
        Some(layout) => push_comment(text, &program.types, function, layout),
        None => Ok(()),
    }
}

/// Adds what a function is.
fn push_comment(
    text: &mut String,
    types: &Types,
    function: &Function,
    layout: &Layout,
) -> Result<(), Memory>
    ensures { IfOk result (λ _. string_bytes text.new
        ≡ string_bytes text.old ++ comment_text types.now function.now layout.now) }
{
    text.push_str("/* ")?;
    text.push_str(word_of(function))?;
    text.push_str(" at (at")?;
    push_position(text, layout.position.as_slice())?;
    text.push_str("): ")?;
    push_types(text, types, layout)?;
    text.push_str(" */\n")?;
    Ok(())
}

/// Adds the types that a function goes from and to.
fn push_types(text: &mut String, types: &Types, layout: &Layout) -> Result<(), Memory>
    ensures { IfOk result (λ _. string_bytes text.new
        ≡ string_bytes text.old ++ types_text types.now layout.now) }
{
    push_type_at(text, types, layout.input)?;
    text.push_str(" -> ")?;
    push_type_at(text, types, layout.output)
}

/// Adds the type of a number.
fn push_type_at(text: &mut String, types: &Types, k: usize) -> Result<(), Memory>
    ensures { IfOk result (λ _. string_bytes text.new
        ≡ string_bytes text.old ++ type_spelling (tree_at types.now k)) }
{
    match types.trees.get(k) {
        Some(ty) => push_type(text, ty)?,
        None => text.push_str("Unit")?,
    }
    Ok(())
}

/// Adds the numbers of a position.
fn push_position(text: &mut String, position: &[u32]) -> Result<(), Memory>
    ensures { IfOk result (λ _. string_bytes text.new
        ≡ string_bytes text.old ++ position_text position.now) }
{
    for k in position {
        write!(text, " {k}")?;
    }
    Ok(())
}

/// The word of a function's form.
fn word_of(function: &Function) -> &'static str
    ensures { result.now ≡ word_of function.now }
{
    match function {
        Function::Arr(_) => "arr",
        Function::Seq(..) => ">>>",
        Function::First(_) => "first",
        Function::Par(_) => "parB",
        Function::Loop(..) => "loopPre",
        Function::Cell(form, _) | Function::Clock(form) => cell_word(*form),
        Function::Accum(..) => "accumBy",
        Function::Switch(..) => "switch",
        Function::DSwitch(..) => "dSwitch",
        Function::RSwitch(..) => "rSwitch",
        Function::DrSwitch(..) => "drSwitch",
        Function::KSwitch(..) => "kSwitch",
        Function::PSwitch(..) => "pSwitch",
        Function::Old(..) | Function::Same => "old",
        Function::InitialOut(..) => "-->",
        Function::InitialIn(..) => ">--",
        Function::Collection(..) => "rpSwitchB",
    }
}

/// The word of a cell's form.
fn cell_word(form: Form) -> &'static str
    ensures { result.now ≡ cell_word form }
{
    match form {
        Form::IPre => "iPre",
        Form::Delay(_) => "delay",
        Form::Hold => "hold",
        Form::AccumBy => "accumBy",
        Form::After(_) => "after",
        Form::Repeatedly(_) => "repeatedly",
        Form::Time => "time",
        Form::Integral => "integral",
    }
}
