// Finds the locals that a function uses.

ghost use Rattle.std.specs.Prelude.{◌≡◌, [], IfOk};
ghost use Rattle.c_text.specs.Used.{argument_used, arguments_used, command_used, commands_used, is_used, mark, term_used, terms_used};

use crate::tree::{Argument, Command, Term};
use std::alloc::{AllocError, Global};

/// Whether local k is one of those that are used.
pub(crate) fn is_used(used: &[bool], k: usize) -> bool
    ensures { result ≡ is_used used.now k }
{
    match used.get(k) {
        Some(b) => *b,
        None => false,
    }
}

/// Which locals the command's terms name.
pub(crate) fn used_in(alloc: Global, command: &Command) -> Result<Vec<bool>, AllocError>
    ensures { IfOk result (λ used. used.items ≡ command_used [] command.now) }
{
    let mut used = Vec::new(alloc);
    mark_command(&mut used, command)?;
    Ok(used)
}

/// Marks local k.
fn mark(used: &mut Vec<bool>, k: usize) -> Result<(), AllocError>
    ensures { IfOk result (λ _. used.new.items ≡ mark k used.old.items) }
{
    while used.len() <= k {
        used.push(false)?;
    }
    used[k] = true;
    Ok(())
}

/// Marks the locals that an expression names.
#[cycle(mark_term)]
#[tactic(auto, using(crate::proofs::UsedRows::braced_used))]
fn mark_term(used: &mut Vec<bool>, term: &Term) -> Result<(), AllocError>
    ensures { IfOk result (λ _. used.new.items ≡ term_used used.old.items term.now) }
{
    match term {
        Term::Local(k) => mark(used, *k),
        Term::Literal(_) | Term::Zeroed(_) => Ok(()),
        Term::Braced(all, _) => mark_terms(used, all.as_slice()),
        Term::Dot(a, _) | Term::Inverse(a) | Term::Cast(_, a) | Term::Signed(a) => {
            mark_term(used, a)
        }
        Term::At(a, b) | Term::Binary(_, _, a, b) | Term::Both(a, b) | Term::Either(a, b) => {
            mark_term(used, a)?;
            mark_term(used, b)
        }
        Term::Choice(c, a, b) => {
            mark_term(used, c)?;
            mark_term(used, a)?;
            mark_term(used, b)
        }
    }
}

/// Marks the locals that expressions name.
#[cycle(mark_term)]
fn mark_terms(used: &mut Vec<bool>, all: &[Term]) -> Result<(), AllocError>
    ensures { IfOk result (λ _. used.new.items ≡ terms_used used.old.items all.now) }
{
    for term in all {
        mark_term(used, term)?;
    }
    Ok(())
}

/// Marks the locals that stand in what is passed.
fn mark_arguments(used: &mut Vec<bool>, all: &[Argument]) -> Result<(), AllocError>
    ensures { IfOk result (λ _. used.new.items ≡ arguments_used used.old.items all.now) }
{
    for argument in all {
        mark_argument(used, argument)?;
    }
    Ok(())
}

/// Marks the locals that stand in an argument.
fn mark_argument(used: &mut Vec<bool>, argument: &Argument) -> Result<(), AllocError>
    ensures { IfOk result (λ _. used.new.items ≡ argument_used used.old.items argument.now) }
{
    match argument {
        Argument::Value(e) | Argument::Const(e) | Argument::Pointer(e) => mark_term(used, e),
    }
}

/// Marks the locals that a command names.
#[cycle(mark_command)]
#[tactic(auto, using(crate::proofs::UsedRows::block_used))]
fn mark_command(used: &mut Vec<bool>, command: &Command) -> Result<(), AllocError>
    ensures { IfOk result (λ _. used.new.items ≡ command_used used.old.items command.now) }
{
    match command {
        Command::Skip | Command::Declare(_) => Ok(()),
        Command::Block(all) => mark_commands(used, all.as_slice()),
        Command::Define(_, e) | Command::Refer(_, e) | Command::Answer(e) => mark_term(used, e),
        Command::Assign(e, v) => {
            mark_term(used, e)?;
            mark_term(used, v)
        }
        Command::Call(_, _, all) => mark_arguments(used, all.as_slice()),
        Command::Branch(c, a, b) => {
            mark_term(used, c)?;
            mark_command(used, a)?;
            mark_command(used, b)
        }
        Command::Loop(_, c, a) => {
            mark_term(used, c)?;
            mark_command(used, a)
        }
    }
}

/// Marks the locals that commands name.
#[cycle(mark_command)]
fn mark_commands(used: &mut Vec<bool>, all: &[Command]) -> Result<(), AllocError>
    ensures { IfOk result (λ _. used.new.items ≡ commands_used used.old.items all.now) }
{
    for command in all {
        mark_command(used, command)?;
    }
    Ok(())
}
