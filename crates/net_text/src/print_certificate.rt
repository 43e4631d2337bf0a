// The one printed form of certificates.

ghost use Rattle.std.specs.Prelude.{◌≡◌, ◌++◌, ◌∷◌, [], IfOk, map, option_map, string_bytes};
ghost use Rattle.std.specs.Fmt.{decimal};
ghost use Rattle.sample_core.specs.Adding.{Adds};
ghost use Rattle.leaf_expr.specs.Sexpr.{sexpr_spelling, sexprs_spelling};
ghost use Rattle.net_tree.specs.LawStep.{step_of, part_of};
ghost use Rattle.net_text.specs.CertificatePrinting.{law_spelling, direction_spelling, given_sexprs, step_sexpr, tree_sexpr, certificate_spelling, are_new_given, lacks_laws, steps_version};
ghost use Rattle.net_text.specs.Form.{version_of};
ghost use Rattle.net_text.specs.Printing.{version_word};
ghost use Rattle.net_text.specs.CertificatePrinting as printing;

use crate::certificate_reader::{last_law, last_leaf_law};
use crate::new_forms::{is_new, version_word};
use crate::print::{push_net, push_next};
use crate::text::Version;
use itoa::Buffer;
use leaf_expr::{push_expr, push_next_expr};
use net_tree::{Direction, Law, LawStep, Tree, push_position};
use sample_core::{Memory, push_word};
use std::alloc::Global;

/// The certificate file of those steps, as a new text: a line `laws 1`, or `laws 2` where a law
/// above L42 is among them or a form of the second version in a given tree, or `laws 3` where a law
/// above E18 or L46 is, or `laws 4` where one above E26 or L51 is, and a line for each step, with
/// given trees in core forms. Where each law is one, each given tree is of its law's kind, and their
/// numbers, their depth and the text's length are within the limits of files, it is read back to the
/// same. `Memory` if allocation fails.
pub fn print_cert(alloc: Global, steps: &[LawStep]) -> Result<String, Memory>
    ensures { IfOk result
        (λ text. string_bytes text ≡ certificate_spelling (map step_of steps.now)) }
{
    let mut text = String::new(alloc);
    push_word(&mut text, "laws ")?;
    push_word(&mut text, steps_word(steps))?;
    push_word(&mut text, "\n")?;
    for step in steps {
        push_step(&mut text, step)?;
    }
    Ok(text)
}

/// Adds the network's or the expression's one printed form to the end of the text. `Memory` if
/// allocation fails; the text may then end with a part of it.
pub fn push_tree(text: &mut String, tree: &Tree) -> Result<(), Memory>
    ensures { Adds result (string_bytes text.old) (string_bytes text.new)
        (sexpr_spelling (tree_sexpr (part_of tree.now))) }
{
    match tree {
        Tree::Net(net) => push_net(text, net),
        Tree::Expr(expr) => push_expr(text, expr),
    }
}

/// The word that is the first version that has the laws and the forms in the steps.
fn steps_word(steps: &[LawStep]) -> &'static str
    ensures { result.now ≡ version_word (steps_version (map step_of steps.now)) }
{
    if lacks_laws(Version::Three, steps) {
        "4"
    } else if lacks_laws(Version::Two, steps) {
        "3"
    } else {
        version_word(lacks_laws(Version::One, steps) || are_new_given(steps))
    }
}

/// Whether the version lacks a law of the steps.
fn lacks_laws(version: Version, steps: &[LawStep]) -> bool
    ensures { result ≡ lacks_laws (version_of version) (map step_of steps.now) }
{
    for step in steps {
        if lacks_law(version, step.law) {
            return true;
        }
    }
    false
}

/// Whether the version lacks the law.
fn lacks_law(version: Version, law: Law) -> bool
    ensures { result ≡ printing.lacks_law (version_of version) law }
{
    match law {
        Law::E(number) => number > last_leaf_law(version),
        Law::L(number) => number > last_law(version),
    }
}

/// Whether a form of the second version is in a given tree of the steps.
fn are_new_given(steps: &[LawStep]) -> bool
    ensures { result ≡ are_new_given (map step_of steps.now) }
{
    for step in steps {
        if is_new_given(&step.given) {
            return true;
        }
    }
    false
}

/// Whether a form of the second version is in the given tree.
fn is_new_given(given: &Option<Tree>) -> bool
    ensures { result ≡ printing.is_new_given (option_map part_of given.now) }
{
    match given {
        None => false,
        Some(Tree::Expr(_)) => false,
        Some(Tree::Net(net)) => is_new(net),
    }
}

/// Adds a step's line, as `print_cert` has it, to the end of the text. `Memory` if allocation
/// fails; the text may then end with a part of it.
pub fn push_step(text: &mut String, step: &LawStep) -> Result<(), Memory>
    ensures { Adds result (string_bytes text.old) (string_bytes text.new)
        (sexpr_spelling (step_sexpr (step_of step.now)) ++ 10 ∷ []) }
{
    push_word(text, "(step ")?;
    push_law(text, step.law)?;
    push_word(text, direction_word(step.direction))?;
    push_position(text, &step.position)?;
    push_given(text, &step.given)?;
    push_word(text, ")\n")
}

/// The word that names the law.
fn push_law(text: &mut String, law: Law) -> Result<(), Memory>
    ensures { Adds result (string_bytes text.old) (string_bytes text.new) (law_spelling law) }
{
    match law {
        Law::E(number) => push_numbered(text, "E", number),
        Law::L(number) => push_numbered(text, "L", number),
    }
}

/// A letter and a number.
fn push_numbered(text: &mut String, letter: &str, number: u8) -> Result<(), Memory>
    ensures { Adds result (string_bytes text.old) (string_bytes text.new)
        (letter.now ++ decimal number) }
{
    push_word(text, letter)?;
    push_word(text, Buffer::new().format(number))
}

/// The word that is the direction, between spaces.
fn direction_word(direction: Direction) -> &'static str
    ensures { result.now ≡ 32 ∷ direction_spelling direction ++ 32 ∷ [] }
{
    match direction {
        Direction::Forward => " forward ",
        Direction::Backward => " backward ",
    }
}

/// The given tree as the last part of a step, if there is one.
fn push_given(text: &mut String, given: &Option<Tree>) -> Result<(), Memory>
    ensures { Adds result (string_bytes text.old) (string_bytes text.new)
        (sexprs_spelling (given_sexprs (option_map part_of given.now))) }
{
    match given {
        None => Ok(()),
        Some(Tree::Expr(expr)) => push_next_expr(text, expr),
        Some(Tree::Net(net)) => push_next(text, net),
    }
}
