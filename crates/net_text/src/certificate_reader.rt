// Reading certificates.

ghost use Rattle.std.specs.Prelude.{◌≡◌, ◌<◌, Some, length, map};
ghost use Rattle.leaf_expr.specs.{Language.no_place, Language.read_word, ReadText.GivesTree, ReadText.fit, Grammar.word_among, WordReading.natural_at, WordReading.unfit};
ghost use Rattle.net_tree.specs.LawStep.{step_of};
ghost use Rattle.net_text.specs.Certificate.{read_opening};
ghost use Rattle.net_text.specs.Certificate as certificate;
ghost use Rattle.net_text.specs.Form.{version_of};
ghost use Rattle.net_text.specs.StepGrammar.{law_sort, direction_sort, directions, position_sort, step_word_at};
ghost use Rattle.net_text.specs.StepGrammar as grammar;
ghost use Rattle.net_text.specs.ReadCertificate.{step_part_left, step_part_at, position_form, children_from, given_from, given_left, step_from, step_left, steps_from};
ghost use Rattle.net_tree.specs.Place.{a_network, a_leaf};
ghost use Rattle.net_text.specs.Grammar.{e, f};
ghost use Rattle.net_text.specs.ReadNet.{from_byte, parts_at};

use crate::network_reader::{both, last_expr_at, network_at};
use crate::text::{Text, Version};
use leaf_expr::{
    ExprTextFault, MOST_OPEN, Read, TreeFront, closing_at, form_end, form_head, front_at,
    natural_named, read_index, token_at,
};
use net_tree::{Direction, LAST_EXPRESSION_LAW, LAST_NETWORK_LAW, Law, LawStep, Position, Tree};
use sample_core::word_is;
use std::alloc::Global;

/// How many more parentheses may be opened inside a step.
const STEP_ROOM: usize = MOST_OPEN - 1;

/// How many more parentheses may be opened inside a position.
const POSITION_ROOM: usize = STEP_ROOM - 1;

/// The steps at or after byte `at`, up to the end of the text.
pub(crate) fn steps_at(
    alloc: Global,
    text: &Text<'_>,
    at: usize,
) -> Result<Vec<LawStep>, ExprTextFault>
    ensures { GivesTree (λ steps. map step_of steps.items) result (steps_from text.now at) }
{
    let mut steps = Vec::new(alloc);
    let mut next = at;
    loop {
        if token_at(text.bytes, next).is_none() {
            return Ok(steps);
        }
        let (step, behind) = step_at(alloc, text, next)?;
        steps.push(step)?;
        next = behind;
    }
}

/// The step at or after byte `at`, and the byte behind it.
fn step_at(alloc: Global, text: &Text<'_>, at: usize) -> Read<LawStep>
    ensures { GivesTree (step_left text.now) result (step_from text.now at) }
{
    let at = step_front(text, at)?;
    let (law, at) = law_at(text, at)?;
    let (direction, at) = direction_at(text, at)?;
    let (position, at) = position_at(alloc, text, at)?;
    let (position, (given, end)) = both(position, given_at(alloc, text, at, law))?;
    let step = LawStep {
        law,
        direction,
        position,
        given,
    };
    Ok((step, end))
}

/// The byte behind `(step`, which must stand at or after byte `at`.
fn step_front(text: &Text<'_>, at: usize) -> Result<usize, ExprTextFault>
    ensures { GivesTree (λ n. from_byte n text.now) result
        (read_opening (length text.now.bytes.now) (version_of text.now.version)
        (from_byte at text.now)) }
{
    match front_at(text.bytes, at, MOST_OPEN)? {
        TreeFront::Form(start) => step_name(text, start + 1),
        TreeFront::Word(start, _) => Err(ExprTextFault::Syntax { at: start }),
    }
}

/// The byte behind the word `step`, which must be the first token at or after byte `at`.
fn step_name(text: &Text<'_>, at: usize) -> Result<usize, ExprTextFault>
    ensures { GivesTree (λ n. from_byte n text.now) result
        (certificate.read_name (length text.now.bytes.now) (version_of text.now.version)
        (from_byte at text.now)) }
{
    let (start, end) = form_head(text.bytes, at, STEP_ROOM)?;
    if word_is(&text.bytes[start..end], "step") {
        Ok(end)
    } else {
        Err(ExprTextFault::Syntax { at: start })
    }
}

/// The law that must be the first token at or after byte `at`, and the byte behind it.
fn law_at(text: &Text<'_>, at: usize) -> Read<Law>
    ensures { GivesTree (step_part_left text.now) result (step_part_at law_sort text.now at) }
{
    let (start, end) = form_head(text.bytes, at, STEP_ROOM)?;
    match law_named(&text.bytes[start..end], text.version) {
        Some(law) => Ok((law, end)),
        None => Err(ExprTextFault::Syntax { at: start }),
    }
}

/// The law that the word names in that version.
#[tactic(auto, unfolding(crate::specs::StepGrammar::step_word_at))]
fn law_named(word: &[u8], version: Version) -> Option<Law>
    ensures { step_word_at (version_of version) law_sort word.now ≡ fit result }
{
    let (letter, digits) = word.split_first()?;
    if *letter == b'E' {
        Some(Law::E(law_number(digits, last_leaf_law(version))?))
    } else if *letter == b'L' {
        Some(Law::L(law_number(digits, last_law(version))?))
    } else {
        None
    }
}

/// The last law of expressions of the version.
pub(crate) fn last_leaf_law(version: Version) -> u8
    ensures { result ≡ grammar.last_leaf_law (version_of version) }
{
    match version {
        Version::One | Version::Two => 18,
        Version::Three => 26,
        Version::Four => LAST_EXPRESSION_LAW,
    }
}

/// The last law of networks of the version.
pub(crate) fn last_law(version: Version) -> u8
    ensures { result ≡ grammar.last_law (version_of version) }
{
    match version {
        Version::One => 42,
        Version::Two => 46,
        Version::Three => 51,
        Version::Four => LAST_NETWORK_LAW,
    }
}

/// The number of a law, from 1 to `most`, that the word spells.
fn law_number(word: &[u8], most: u8) -> Option<u8>
    ensures { result ≡ read_word (natural_at 1 most word.now) }
{
    let number = natural_named(word, 1, most as u64)?;
    Some(number as u8)
}

/// The direction that must be the first token at or after byte `at`, and the byte behind it.
#[tactic(auto, unfolding(crate::specs::StepGrammar::step_word_at))]
fn direction_at(text: &Text<'_>, at: usize) -> Read<Direction>
    ensures { GivesTree (step_part_left text.now) result (step_part_at direction_sort text.now at) }
{
    let (start, end) = form_head(text.bytes, at, STEP_ROOM)?;
    match direction_named(&text.bytes[start..end]) {
        Some(direction) => Ok((direction, end)),
        None => Err(ExprTextFault::Syntax { at: start }),
    }
}

/// The direction that the word is.
#[tactic(auto, unfolding(crate::specs::StepGrammar::directions))]
fn direction_named(word: &[u8]) -> Option<Direction>
    ensures { word_among word.now directions unfit ≡ fit result }
{
    if word_is(word, "forward") {
        Some(Direction::Forward)
    } else if word_is(word, "backward") {
        Some(Direction::Backward)
    } else {
        None
    }
}

/// The position `(at N1 .. Nk)` at or after byte `at`, and the byte behind it.
fn position_at(alloc: Global, text: &Text<'_>, at: usize) -> Read<Position>
    ensures { GivesTree (step_part_left text.now) result (step_part_at position_sort text.now at) }
{
    match front_at(text.bytes, at, STEP_ROOM)? {
        TreeFront::Form(start) => position_form_at(alloc, text, start + 1),
        TreeFront::Word(start, _) => Err(ExprTextFault::Syntax { at: start }),
    }
}

/// What stands behind the parenthesis of `(at N1 .. Nk)`.
fn position_form_at(alloc: Global, text: &Text<'_>, at: usize) -> Read<Position>
    ensures { GivesTree (step_part_left text.now) result (position_form text.now at) }
{
    let (start, end) = form_head(text.bytes, at, POSITION_ROOM)?;
    if word_is(&text.bytes[start..end], "at") {
        children_at(alloc, text, end)
    } else {
        Err(ExprTextFault::Syntax { at: start })
    }
}

/// Child numbers up to the end of the position, and the byte behind it.
fn children_at(alloc: Global, text: &Text<'_>, at: usize) -> Read<Position>
    ensures { GivesTree (step_part_left text.now) result (children_from text.now at) }
{
    let mut path = Vec::new(alloc);
    let mut next = at;
    loop {
        if let Some(end) = closing_at(text.bytes, next) {
            return Ok((Position::new(path), end));
        }
        let (child, behind) = read_index(text.bytes, next, POSITION_ROOM)?;
        path.push(child)?;
        next = behind;
    }
}

/// The end of a step of that law at or after byte `at`, perhaps with a given tree before it, and
/// the byte behind the step.
fn given_at(alloc: Global, text: &Text<'_>, at: usize, law: Law) -> Read<Option<Tree>>
    ensures { GivesTree (given_left text.now) result (given_from law text.now at) }
{
    if let Some(end) = closing_at(text.bytes, at) {
        return Ok((None, end));
    }
    match law {
        Law::E(_) => given_expr_at(alloc, text, at),
        Law::L(_) => given_net_at(alloc, text, at),
    }
}

/// A given expression, and the end of the step.
fn given_expr_at(alloc: Global, text: &Text<'_>, at: usize) -> Read<Option<Tree>>
    ensures { GivesTree (given_left text.now) result
        (parts_at (e no_place) (λ e. Some (a_leaf e)) text.now STEP_ROOM at) }
{
    let (expr, end) = last_expr_at(alloc, text, at, STEP_ROOM)?;
    Ok((Some(Tree::Expr(expr)), end))
}

/// A given network, and the end of the step.
fn given_net_at(alloc: Global, text: &Text<'_>, at: usize) -> Read<Option<Tree>>
    ensures { GivesTree (given_left text.now) result
        (parts_at (f no_place) (λ f. Some (a_network f)) text.now STEP_ROOM at) }
{
    let (net, at) = network_at(alloc, text, at, STEP_ROOM)?;
    let (net, end) = both(net, form_end(text.bytes, at, STEP_ROOM))?;
    Ok((Some(Tree::Net(net)), end))
}
