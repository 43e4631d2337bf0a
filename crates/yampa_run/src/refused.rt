// What the program prints of a file that is refused.

ghost use Rattle.std.specs.Prelude.{◌≡◌, IfOk, string_bytes};
ghost use Rattle.yampa_run.specs.RefusalLines.{byte_words, check_words, expression_words, line_on, no_layout_words, not_there_words, place_words, role_words, step_words, text_words, too_large_words, type_words, unread_words};

use crate::printed::push_number;
use cert_check::CheckFault;
use leaf_core::ExprFault;
use net_text::NetTextFault;
use net_tree::{Position, push_position};
use net_types::TypeFault;
use sample_core::{Memory, push_word};
use std::alloc::Global;

/// What a file is read as.
#[derive(Clone, Copy)]
pub(crate) enum Role {
    /// The network that a command is about.
    Network,
    /// The network that a certificate begins with.
    Source,
    /// The network that a certificate leads to.
    Target,
    /// A certificate.
    Certificate,
}

/// What a line on a file of that role begins with.
fn role_word(role: Role) -> &'static str
    ensures { result.now ≡ role_words role }
{
    match role {
        Role::Network => "network: ",
        Role::Source => "source: ",
        Role::Target => "target: ",
        Role::Certificate => "certificate: ",
    }
}

fn line_of(alloc: Global, role: Role, what: &str) -> Result<String, Memory>
    ensures { IfOk result (λ line. string_bytes line ≡ line_on role what.now) }
{
    let mut line = String::from_str(alloc, role_word(role))?;
    push_word(&mut line, what)?;
    Ok(line)
}

/// The line on a file that can't be read.
pub(crate) fn unread_line(alloc: Global, role: Role) -> Result<String, Memory>
    ensures { IfOk result (λ line. string_bytes line ≡ unread_words role) }
{
    line_of(alloc, role, "cannot be read")
}

/// The line on a file whose text is refused.
pub(crate) fn text_line(alloc: Global, role: Role, fault: &NetTextFault) -> Result<String, Memory>
    ensures { IfOk result (λ line. string_bytes line ≡ text_words role fault.now) }
{
    match fault {
        NetTextFault::Header => line_of(alloc, role, "header"),
        NetTextFault::Syntax { at } => byte_line(alloc, role, "syntax", *at),
        NetTextFault::Number { at } => byte_line(alloc, role, "number", *at),
        NetTextFault::TooDeep { at } => byte_line(alloc, role, "nesting", *at),
        NetTextFault::TooLong => line_of(alloc, role, "too long"),
        NetTextFault::Memory => Err(Memory),
    }
}

fn byte_line(alloc: Global, role: Role, what: &str, at: usize) -> Result<String, Memory>
    ensures { IfOk result (λ line. string_bytes line ≡ byte_words role what.now at) }
{
    let mut line = line_of(alloc, role, what)?;
    push_word(&mut line, " at byte ")?;
    push_number(&mut line, at as u64)?;
    Ok(line)
}

/// The line on a network that has no types within the limits.
pub(crate) fn type_line(alloc: Global, role: Role, fault: &TypeFault) -> Result<String, Memory>
    ensures { IfOk result (λ line. string_bytes line ≡ type_words role fault.now) }
{
    match fault {
        TypeFault::Expr { position, fault } => expression_line(alloc, role, position, fault),
        TypeFault::Joint { position } => place_line(alloc, role, "types differ at ", position),
        TypeFault::NoOld { position } => place_line(alloc, role, "no old at ", position),
        TypeFault::NotEvent { position } => place_line(alloc, role, "no event at ", position),
        TypeFault::NotPair { position } => place_line(alloc, role, "no pair at ", position),
        TypeFault::Members { position } => place_line(alloc, role, "members at ", position),
        TypeFault::Number { position } => place_line(alloc, role, "number at ", position),
        TypeFault::TooDeep => line_of(alloc, role, "too deep"),
        TypeFault::TooHeavy => line_of(alloc, role, "too heavy"),
        TypeFault::Memory => Err(Memory),
    }
}

fn expression_line(
    alloc: Global,
    role: Role,
    position: &Position,
    fault: &ExprFault,
) -> Result<String, Memory>
    ensures { IfOk result (λ line. string_bytes line ≡ expression_words role position.now fault.now) }
{
    match fault {
        ExprFault::Mismatch => place_line(alloc, role, "mismatch in ", position),
        ExprFault::NoParam => place_line(alloc, role, "no parameter in ", position),
        ExprFault::TooDeep => place_line(alloc, role, "expression too deep in ", position),
        ExprFault::Memory => Err(Memory),
    }
}

fn place_line(alloc: Global, role: Role, what: &str, position: &Position) -> Result<String, Memory>
    ensures { IfOk result (λ line. string_bytes line ≡ place_words role what.now position.now) }
{
    let mut line = line_of(alloc, role, what)?;
    push_position(&mut line, position)?;
    Ok(line)
}

/// The line on a position at which nothing stands in the network.
pub(crate) fn not_there_line(alloc: Global, position: &Position) -> Result<String, Memory>
    ensures { IfOk result (λ line. string_bytes line ≡ not_there_words position.now) }
{
    place_line(alloc, Role::Network, "no position ", position)
}

/// The line on what is too large at a position, and that `--most` may help, where it may.
pub(crate) fn too_large_line(
    alloc: Global,
    what: &str,
    position: &Position,
    asks: bool,
) -> Result<String, Memory>
    ensures { IfOk result (λ line. string_bytes line
        ≡ too_large_words what.now position.now asks) }
{
    let mut line = line_of(alloc, Role::Network, what)?;
    push_word(&mut line, " too large at ")?;
    push_position(&mut line, position)?;
    push_word(&mut line, if asks { ": give --most" } else { "" })?;
    Ok(line)
}

/// The line on a network that has no layout.
pub(crate) fn no_layout_line(alloc: Global) -> Result<String, Memory>
    ensures { IfOk result (λ line. string_bytes line ≡ no_layout_words) }
{
    line_of(alloc, Role::Network, "no layout")
}

/// The line on a certificate that doesn't lead from its source to its target.
pub(crate) fn check_line(alloc: Global, fault: &CheckFault) -> Result<String, Memory>
    ensures { IfOk result (λ line. string_bytes line ≡ check_words fault.now) }
{
    match fault {
        CheckFault::InputsDiffer => line_of(alloc, Role::Certificate, "inputs differ"),
        CheckFault::TooManySteps => line_of(alloc, Role::Certificate, "too many steps"),
        CheckFault::NoPosition { step } => step_line(alloc, "no position", *step),
        CheckFault::NoMatch { step } => step_line(alloc, "no match", *step),
        CheckFault::IllTyped { step } => step_line(alloc, "ill typed", *step),
        CheckFault::EndsElsewhere => line_of(alloc, Role::Certificate, "ends elsewhere"),
        CheckFault::Memory => Err(Memory),
    }
}

fn step_line(alloc: Global, what: &str, step: u32) -> Result<String, Memory>
    ensures { IfOk result (λ line. string_bytes line ≡ step_words what.now step) }
{
    let mut line = line_of(alloc, Role::Certificate, what)?;
    push_word(&mut line, " at step ")?;
    push_number(&mut line, u64::from(step))?;
    Ok(line)
}
