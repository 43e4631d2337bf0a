// The commands `compile` and `compile-checked`: networks of files as C.

ghost use Rattle.std.specs.Prelude.{◌≡◌, IfErr, IfOk, ℕ, string_bytes};
ghost use Rattle.code_fits.specs.Programs.{HasNoProgram};
ghost use Rattle.code_fits.specs.Tables.{TableHolds};
ghost use Rattle.code_text.specs.FileText.{IsCOf};
ghost use Rattle.command_line.specs.CommandLine.{derivation_view, printing_view};
ghost use Rattle.yampa_run.specs.Compile.{HasNoC, IsForm, IsNoForm, IsNotCheckedC, IsNotCompiled, PrintsNamed, TellsC, TellsCheckedC, asks_most, options_for, printed_by};
ghost use Rattle.yampa_run.specs.Loading.{RefusesWith};
ghost use Rattle.yampa_run.specs.RefusalLines.{no_layout_words, too_large_words};
ghost use Rattle.yampa_run.specs.Words.{TellsMost};

use crate::check::derived;
use crate::files::Files;
use crate::load::load;
use crate::preparation::Refusal;
use crate::refused::{Role, no_layout_line, too_large_line};
use crate::words::{most_of, name_of};
use code_fits::{Program, Refused, program_of};
use code_text::{Options, Printed, Unbuilt, has_lists, print_c};
use command_line::{Derivation, Printing, VERSION};
use net_syntax::TypedNet;
use net_text::print_net;
use net_tree::Position;
use sample_core::Memory;
use std::alloc::Global;

/// How C is printed, as words tell.
#[derive(Clone, Copy)]
struct Form<'a> {
    /// What all names begin with.
    name: &'a str,
    /// How many elements a list of the input may have.
    most: usize,
}

/// The network of the file of that name as C.
pub(crate) fn compiled<F: Files>(
    alloc: Global,
    name: &str,
    printing: Printing<'_>,
    files: &F,
) -> Result<String, Refusal>
    ensures text { IfOk result (λ text. TellsC (F.told files.now name.now)
        (printing_view printing.entry) (string_bytes text)) }
    ensures refused { IfErr result
        (IsNotCompiled (F.told files.now name.now) (printing_view printing.entry)) }
{
    let form = match form_of(alloc, printing) {
        Ok(form) => form,
        Err(refusal) => return Err(refusal),
    };
    match load(alloc, Role::Network, name, files) {
        Ok(net) => {
            let text = c_text(alloc, &net, printing, form);
            drop(net);
            text
        }
        Err(refusal) => Err(refusal),
    }
}

/// The target of those files as C, which the certificate derives from the source.
pub(crate) fn compiled_checked<F: Files>(
    alloc: Global,
    names: Derivation<'_>,
    printing: Printing<'_>,
    files: &F,
) -> Result<String, Refusal>
    ensures text { IfOk result (λ text. TellsCheckedC (F.told files.now)
        (derivation_view names.entry) (printing_view printing.entry) (string_bytes text)) }
    ensures refused { IfErr result (IsNotCheckedC (F.told files.now)
        (derivation_view names.entry) (printing_view printing.entry)) }
{
    let form = match form_of(alloc, printing) {
        Ok(form) => form,
        Err(refusal) => return Err(refusal),
    };
    match derived(alloc, names, files) {
        Ok((target, _)) => {
            let text = c_text(alloc, &target, printing, form);
            drop(target);
            text
        }
        Err(refusal) => Err(refusal),
    }
}

/// How C is printed, by the words. Refused with status 2 where one of them is no name or no number.
fn form_of<'a>(alloc: Global, printing: Printing<'a>) -> Result<Form<'a>, Refusal>
    ensures form { IfOk result (IsForm (printing_view printing.entry)) }
    ensures refused { IfErr result (IsNoForm (printing_view printing.entry)) }
{
    let name = match name_of(alloc, printing.name) {
        Ok(name) => name,
        Err(refusal) => return Err(refusal),
    };
    match most_of(alloc, printing.most) {
        Ok(most) => Ok(Form { name, most }),
        Err(refusal) => Err(refusal),
    }
}

/// The network as C.
fn c_text(
    alloc: Global,
    net: &TypedNet,
    printing: Printing<'_>,
    form: Form<'_>,
) -> Result<String, Refusal>
    requires { TellsMost (printing_view printing).most form.most }
    ensures text { IfOk result (λ text. PrintsNamed net.now (printing_view printing.entry)
        form.entry.name.now form.entry.most (string_bytes text)) }
    ensures refused { IfErr result (HasNoC net.now (printing_view printing.entry)) }
{
    match program_of(alloc, net, form.most) {
        Ok(program) => {
            let text = text_of(alloc, net, &program, printing, form);
            drop(program);
            text
        }
        Err(refused) => Err(no_program(alloc, net, printing, refused)?),
    }
}

/// A program of the network, as C.
fn text_of(
    alloc: Global,
    net: &TypedNet,
    program: &Program,
    printing: Printing<'_>,
    form: Form<'_>,
) -> Result<String, Refusal>
    requires { TableHolds program.now.types }
    ensures text { IfOk result (λ text. IsCOf program.now (options_for net.now
        (printing_view printing.entry) form.entry.name.now form.entry.most) (string_bytes text)) }
    ensures refused { IfErr result (RefusesWith 1 no_layout_words) }
{
    let network = print_net(alloc, net.input(), net.net())?;
    let text = print_c(
        alloc,
        program,
        Options {
            prefix: form.name,
            printed: printed_by(printing),
            most: form.most,
            unchecked: printing.unchecked,
            version: VERSION,
            network: network.as_str(),
            weight: u64::from(net.weight()),
            input: net.input(),
            output: net.output(),
        },
    );
    drop(network);
    match text {
        Ok(text) => Ok(text),
        Err(unbuilt) => Err(not_built(alloc, unbuilt)?),
    }
}

/// The refusal of a program that has no C.
fn not_built(alloc: Global, unbuilt: Unbuilt) -> Result<Refusal, Memory>
    ensures { IfOk result (RefusesWith 1 no_layout_words) }
{
    match unbuilt {
        Unbuilt::Missing => no_layout(alloc),
        Unbuilt::Memory => Ok(Refusal::Memory),
    }
}

/// The refusal of a network that has no layout.
fn no_layout(alloc: Global) -> Result<Refusal, Memory>
    ensures { IfOk result (RefusesWith 1 no_layout_words) }
{
    Ok(Refusal::Line {
        status: 1,
        line: no_layout_line(alloc)?,
    })
}

/// What is printed, by the words.
fn printed_by(printing: Printing<'_>) -> Printed
    ensures { result ≡ printed_by (printing_view printing.entry) }
{
    if printing.header {
        Printed::Header
    } else if printing.no_main {
        Printed::Functions
    } else {
        Printed::Filter
    }
}

/// The refusal of a network that has no program.
fn no_program(
    alloc: Global,
    net: &TypedNet,
    printing: Printing<'_>,
    refused: Refused,
) -> Result<Refusal, Memory>
    ensures { (most : ℕ) → TellsMost (printing_view printing.entry).most most
        → HasNoProgram net.now most refused
        → IfOk result (HasNoC net.now (printing_view printing.entry)) }
{
    match refused {
        Refused::State(at) => too_large(alloc, "state", at, asks_most(net, printing)),
        Refused::Untyped => no_layout(alloc),
        Refused::Memory => Ok(Refusal::Memory),
    }
}

/// The refusal of what is too large at a position.
fn too_large(alloc: Global, what: &str, at: Position, asks: bool) -> Result<Refusal, Memory>
    ensures { IfOk result (RefusesWith 1 (too_large_words what.now at asks)) }
{
    let line = too_large_line(alloc, what, &at, asks);
    drop(at);
    Ok(Refusal::Line {
        status: 1,
        line: line?,
    })
}

/// Whether `--most` may help: the input has lists, and the words don't say how long they are.
fn asks_most(net: &TypedNet, printing: Printing<'_>) -> bool
    ensures { result ≡ asks_most net.now (printing_view printing.entry) }
{
    match printing.most {
        Some(_) => false,
        None => has_lists(net.input()),
    }
}
