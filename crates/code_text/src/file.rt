// The C of a network.

ghost use Rattle.std.specs.Prelude.{◌≡◌, ◌++◌, IfOk, string_bytes};
ghost use Rattle.code_fits.specs.Tables.{TableHolds};
ghost use Rattle.code_text.specs.Piece.{pieces_text};
ghost use Rattle.code_text.specs.FileText.{IsCOf, comment_at, declarations_text, declared_text, definitions_text, file_text, filtered_text, function_at, functions_text, is_step, name_at, options_in, parts_text, posix_pieces, printed_text, within_name, within_text};

use crate::about::about;
use crate::comment::push_comment_of;
use crate::file_text::{FILTER_INCLUDES, POSIX, PRAGMAS};
use crate::filter::push_filter;
use crate::fingerprint::fingerprint;
use crate::fixed::{push_opening, push_prototypes};
use crate::names::push_names;
use crate::piece::{Piece, push};
use c_build::{Built, Unbuilt, build};
use c_text::{
    Function, Name, Naming, empties, push_function, push_macros, push_name, push_structs,
};
use code_fits::Program;
use sample_core::{Memory, Ty};
use std::alloc::Global;

/// What of a network's C is printed.
#[derive(Clone, Copy)]
pub enum Printed {
    /// All of it, with a filter.
    Filter,
    /// All but the filter.
    Functions,
    /// The declarations alone.
    Header,
}

/// How a network's C is printed: with this prefix, by this version of the program, and with this text of the network's file in its
/// comment; the lists of its input have at most so many elements; its step tests what it is given, or is unchecked; the network goes
/// from the one type to the other.
#[derive(Clone, Copy)]
pub struct Options<'a> {
    pub prefix: &'a str,
    pub printed: Printed,
    pub most: usize,
    pub unchecked: bool,
    pub version: &'a str,
    pub network: &'a str,
    pub weight: u64,
    pub input: &'a Ty,
    pub output: &'a Ty,
}

/// What is printed: a program's C, and which of its structs have no member.
#[derive(Clone, Copy)]
struct Source<'a> {
    program: &'a Program,
    options: Options<'a>,
    built: &'a Built,
    empty: &'a [bool],
}

/// A network's code as C. `Missing`: never of a network's program; `Memory` if allocation fails.
pub fn print_c(alloc: Global, program: &Program, options: Options<'_>) -> Result<String, Unbuilt>
    requires { TableHolds program.now.types }
    ensures { IfOk result (λ text. IsCOf program.now (options_in options.entry) (string_bytes text)) }
{
    let built = build(alloc, program, options.unchecked)?;
    let text = file_of(alloc, program, options, &built);
    drop(built);
    Ok(text?)
}

/// The file of a program, whose C this is.
fn file_of(
    alloc: Global,
    program: &Program,
    options: Options<'_>,
    built: &Built,
) -> Result<String, Memory>
    ensures { IfOk result (λ text. string_bytes text
        ≡ file_text program.now (options_in options.entry) built.now) }
{
    let empty = empties(alloc, built.file.structs.as_slice())?;
    let source = Source {
        program,
        options,
        built,
        empty: empty.as_slice(),
    };
    let mut text = String::new(alloc);
    let pushed = push_parts(alloc, &mut text, source);
    drop(empty);
    pushed?;
    Ok(text)
}

/// The file.
fn push_parts(alloc: Global, text: &mut String, source: Source<'_>) -> Result<(), Memory>
    ensures { IfOk result (λ _. string_bytes text.new ≡ string_bytes text.old
        ++ parts_text source.entry.program.now (options_in source.entry.options)
        source.entry.built.now source.entry.empty.now) }
{
    push_declarations(alloc, text, source)?;
    push_printed(alloc, text, source)
}

/// What stands behind the declarations.
fn push_printed(alloc: Global, text: &mut String, source: Source<'_>) -> Result<(), Memory>
    ensures { IfOk result (λ _. string_bytes text.new ≡ string_bytes text.old
        ++ printed_text source.entry.program.now (options_in source.entry.options)
        source.entry.built.now source.entry.empty.now source.entry.options.printed) }
{
    match source.options.printed {
        Printed::Header => {}
        Printed::Functions => push_definitions(alloc, text, source)?,
        Printed::Filter => push_filtered(alloc, text, source)?,
    }
    Ok(())
}

/// The functions with a filter, and what that stands on.
fn push_filtered(alloc: Global, text: &mut String, source: Source<'_>) -> Result<(), Memory>
    ensures { IfOk result (λ _. string_bytes text.new ≡ string_bytes text.old
        ++ filtered_text source.entry.program.now (options_in source.entry.options)
        source.entry.built.now source.entry.empty.now) }
{
    let options = source.options;
    push(text, options.prefix, &[Piece::Text(FILTER_INCLUDES)])?;
    push_definitions(alloc, text, source)?;
    push_within(text, options.prefix, source.built)?;
    push_filter(
        text,
        options.prefix,
        source.program.types.trees.as_slice(),
        options.input,
        options.output,
        options.most,
    )
}

/// The step that the filter calls, which needn't test lists: its reader has.
fn push_within(text: &mut String, prefix: &str, built: &Built) -> Result<(), Memory>
    ensures { IfOk result (λ _. string_bytes text.new
        ≡ string_bytes text.old ++ within_text prefix.now built.now) }
{
    let name = within_name(built);
    push(
        text,
        prefix,
        &[
            Piece::Text("\n#define "),
            Piece::Name,
            Piece::Text("_step_within "),
        ],
    )?;
    push_name(text, prefix, name)?;
    push(text, prefix, &[Piece::Text("\n")])
}

/// The name of the function behind `init`: the step of an input whose lists are within their arrays.
fn within_name(built: &Built) -> Name
    ensures { result ≡ within_name built.now }
{
    if built.init < built.step {
        name_at(built, built.init + 1)
    } else {
        Name::Step
    }
}

/// The comment, and the declarations, which have its fingerprint.
fn push_declarations(alloc: Global, text: &mut String, source: Source<'_>) -> Result<(), Memory>
    ensures { IfOk result (λ _. string_bytes text.new ≡ string_bytes text.old
        ++ declarations_text source.entry.program.now (options_in source.entry.options)
        source.entry.built.now source.entry.empty.now) }
{
    let about = about(alloc, source.options, source.program.state_bytes as usize)?;
    let sum = fingerprint(about.as_bytes());
    let pushed = text.push_str(about.as_str());
    drop(about);
    pushed?;
    push_declared(alloc, text, source, sum)
}

/// The structs, names, and what a program calls.
fn push_declared(
    alloc: Global,
    text: &mut String,
    source: Source<'_>,
    sum: u64,
) -> Result<(), Memory>
    ensures { IfOk result (λ _. string_bytes text.new ≡ string_bytes text.old
        ++ declared_text source.entry.program.now (options_in source.entry.options)
        source.entry.built.now source.entry.empty.now sum) }
{
    let options = source.options;
    push_posix(text, options)?;
    push_opening(
        text,
        options.prefix,
        sum,
        source.program.state_bytes as usize,
    )?;
    push_structs(
        text,
        Naming {
            alloc,
            prefix: options.prefix,
            structs: source.built.file.structs.as_slice(),
            empty: source.empty,
        },
    )?;
    push_names(text, source.program, options, source.built)?;
    push_prototypes(text, options.prefix, options.unchecked)
}

/// What POSIX has, where there is a filter.
fn push_posix(text: &mut String, options: Options<'_>) -> Result<(), Memory>
    ensures { IfOk result (λ _. string_bytes text.new
        ≡ string_bytes text.old ++ pieces_text options.entry.prefix.now (posix_pieces options.entry.printed)) }
{
    match options.printed {
        Printed::Filter => push(text, options.prefix, &[Piece::Text(POSIX)])?,
        Printed::Functions | Printed::Header => {}
    }
    Ok(())
}

/// The functions.
fn push_definitions(alloc: Global, text: &mut String, source: Source<'_>) -> Result<(), Memory>
    ensures { IfOk result (λ _. string_bytes text.new ≡ string_bytes text.old
        ++ definitions_text source.entry.program.now (options_in source.entry.options)
        source.entry.built.now source.entry.empty.now) }
{
    let options = source.options;
    push(text, options.prefix, &[Piece::Text(PRAGMAS)])?;
    push_macros(text, options.prefix)?;
    push_functions(alloc, text, source)
}

/// The name of function i of the file: two have names of their own, by which a program calls them.
fn name_at(built: &Built, i: usize) -> Name
    ensures { result ≡ name_at built.now i }
{
    if i == built.init {
        Name::Init
    } else if i == built.step {
        Name::Step
    } else {
        Name::Function(i)
    }
}

/// Whether function i of the file is the step of function k of the code.
fn is_step(built: &Built, i: usize, k: usize) -> bool
    ensures { result ≡ is_step built.now i k }
{
    match built.steps.get(k) {
        Some(j) => *j == i,
        None => false,
    }
}

/// The functions of the file.
fn push_functions(alloc: Global, text: &mut String, source: Source<'_>) -> Result<(), Memory>
    ensures { IfOk result (λ _. string_bytes text.new ≡ string_bytes text.old
        ++ functions_text source.entry.program.now (options_in source.entry.options)
        source.entry.built.now source.entry.empty.now 0 0 source.entry.built.now.file.functions.items) }
{
    let functions = source.built.file.functions.as_slice();
    let mut k = 0;
    for (i, function) in functions.iter().enumerate() {
        push_function_at(alloc, text, source, i, k, function)?;
        if is_step(source.built, i, k) {
            k += 1;
        }
    }
    Ok(())
}

/// Function i of the file, where the next step is that of function k of the code.
fn push_function_at(
    alloc: Global,
    text: &mut String,
    source: Source<'_>,
    i: usize,
    k: usize,
    function: &Function,
) -> Result<(), Memory>
    ensures { IfOk result (λ _. string_bytes text.new ≡ string_bytes text.old
        ++ function_at source.entry.program.now (options_in source.entry.options)
        source.entry.built.now source.entry.empty.now i k function.now) }
{
    text.push_str("\n")?;
    push_comment_at(text, source.program, source.built, i, k)?;
    push_function(
        text,
        Naming {
            alloc,
            prefix: source.options.prefix,
            structs: source.built.file.structs.as_slice(),
            empty: source.empty,
        },
        name_at(source.built, i),
        function,
    )?;
    Ok(())
}

/// What stands above function i of the file.
fn push_comment_at(
    text: &mut String,
    program: &Program,
    built: &Built,
    i: usize,
    k: usize,
) -> Result<(), Memory>
    ensures { IfOk result (λ _. string_bytes text.new
        ≡ string_bytes text.old ++ comment_at program.now built.now i k) }
{
    if is_step(built, i, k) {
        push_comment_of(text, program, k)?;
    }
    Ok(())
}
