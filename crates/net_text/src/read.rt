// Reading network files.

ghost use Rattle.std.specs.Prelude.{◌≡◌, ◌<◌, Err, length, option_map, IfOk, IfErr};
ghost use Rattle.leaf_expr.specs.{ReadText.GivesTree, Token.tokens, Token.tokens_from};
ghost use Rattle.leaf_core.specs.Expression.{Expression};
ghost use Rattle.sample_core.specs.TypeTree.{TypeTree};
ghost use Rattle.net_tree.specs.{Network.Network, NetworkView.tree_of};
ghost use Rattle.sample_core.specs.TypeView.{type_of};
ghost use Rattle.net_text.specs.File.{behind_word, behind_version, network_version, behind_header, read_body, read_behind, read_file};
ghost use Rattle.net_text.specs.File as file_specs;
ghost use Rattle.net_text.specs.{FileLaws.IsFile, FileLaws.IsFileFault, ReadNet.GivesFile, ReadNet.last_network_at, ReadNet.from_byte, Form.version_of};
ghost use Rattle.net_text.specs.declared.fault.NetTextFault.TheVariants as Fault;

use crate::fault::NetTextFault;
use crate::network_reader::{both, network_at, type_at};
use crate::text::{Text, Version};
use leaf_expr::{Expr, ExprTextFault, Lexeme, MOST_LENGTH, MOST_OPEN, lexeme_at, token_at};
use net_tree::Net;
use sample_core::{Ty, word_is};
use std::alloc::Global;

/// Reads a network file: `yampa 1 input TYPE NET`, or `yampa 2 input TYPE NET`, whose network may
/// have the forms `-->`, `>--`, `drSwitch` and `rpSwitchB` too. Answers the type of the input, and
/// the network, with sugar expanded.
///
/// `TooLong`: the text has more than 1,048,576 bytes, whatever they are. Else a refusal is the
/// first token that doesn't fit, by its first byte, counted from 0. `Header`: it is one of the
/// first three, or they aren't all there. `TooDeep`: a parenthesis that would be the 601st open at
/// once, also where none fits. `Number`: where a number may stand, a number word that is badly
/// spelt or out of range: 64 bits for a literal, 0 to 65,535 for the number of a parameter or of a
/// frozen network, 1 to 4,096 for the time of `delay`, 0 to 2^62 for that of `after`, 1 to 2^62 for
/// that of `repeatedly`. `Syntax`: any other, among them one behind the network, or the text's
/// length where it ends too early. `Memory`: allocation failed.
pub fn read_net(alloc: Global, text: &[u8]) -> Result<(Ty, Net<Expr>), NetTextFault>
    // What is read is what the file says.
    ensures found { IfOk result (λ x. IsFile text.now (type_of x.0) (tree_of x.1)) }
    // A network file is read, unless memory runs out.
    ensures only { (A : TypeTree) (f : Network Expression) → IsFile text.now A f
        → GivesFile result (Ok (A, f)) }
    // A text that is too long is refused as such, whatever its bytes are.
    ensures long { MOST_LENGTH < length text.now → result ≡ Err Fault.TooLong }
    // What is refused is so at the first token that doesn't fit, or for its length.
    ensures refused { IfErr result (IsFileFault text.now) }
{
    file(alloc, text)
}

/// What `read_net` answers. It stands apart, since the clauses of that contract follow from its
/// own.
fn file(alloc: Global, text: &[u8]) -> Result<(Ty, Net<Expr>), NetTextFault>
    ensures long { MOST_LENGTH < length text.now → result ≡ Err Fault.TooLong }
    ensures exact { GivesFile result (read_file text.now) }
{
    if text.len() > MOST_LENGTH {
        return Err(NetTextFault::TooLong);
    }
    headed(alloc, text)
}

/// A header, and a type and a network behind it, in a text of whatever length.
fn headed(alloc: Global, text: &[u8]) -> Result<(Ty, Net<Expr>), NetTextFault>
    ensures { GivesFile result (read_behind (read_body (length text.now)) (behind_header (tokens text.now))) }
{
    match header_end(text) {
        Some((version, at)) => {
            let text = Text {
                bytes: text,
                version,
            };
            Ok(body_at(alloc, &text, at)?)
        }
        None => Err(NetTextFault::Header),
    }
}

/// A type and a network, and nothing behind them, at or after byte `at`.
fn body_at(alloc: Global, text: &Text<'_>, at: usize) -> Result<(Ty, Net<Expr>), ExprTextFault>
    ensures { GivesTree (λ x. (type_of x.0, tree_of x.1)) result
        (read_body (length text.now.bytes.now) (version_of text.now.version)
        (from_byte at text.now)) }
{
    let (input, at) = type_at(alloc, text.bytes, at, MOST_OPEN)?;
    both(input, last_network(alloc, text, at))
}

/// A network, and nothing behind it, at or after byte `at`.
fn last_network(alloc: Global, text: &Text<'_>, at: usize) -> Result<Net<Expr>, ExprTextFault>
    ensures { GivesTree tree_of result (last_network_at text.now at) }
{
    let (net, end) = network_at(alloc, text, at, MOST_OPEN)?;
    match token_at(text.bytes, end) {
        None => Ok(net),
        Some((start, _)) => {
            drop(net);
            Err(ExprTextFault::Syntax { at: start })
        }
    }
}

/// The version and the byte behind the words `yampa`, a version and `input`, where these are the
/// first tokens.
fn header_end(text: &[u8]) -> Option<(Version, usize)>
    ensures { option_map (λ x. (version_of x.0, tokens_from x.1 text.now)) result
        ≡ behind_header (tokens text.now) }
{
    let at = word_end(text, 0, "yampa")?;
    let (version, at) = network_version_end(text, at)?;
    let at = word_end(text, at, "input")?;
    Some((version, at))
}

/// The version of network files that is the first token at or after `at`, and the byte behind it.
fn network_version_end(text: &[u8], at: usize) -> Option<(Version, usize)>
    ensures { option_map (λ x. (version_of x.0, tokens_from x.1 text.now)) result
        ≡ network_version (tokens_from at text.now) }
{
    let (version, end) = version_end(text, at)?;
    match version {
        Version::One | Version::Two => Some((version, end)),
        Version::Three | Version::Four => None,
    }
}

/// The version that is the first token at or after `at`, and the byte behind it.
pub(crate) fn version_end(text: &[u8], at: usize) -> Option<(Version, usize)>
    ensures { option_map (λ x. (version_of x.0, tokens_from x.1 text.now)) result
        ≡ behind_version (tokens_from at text.now) }
{
    match lexeme_at(text, at) {
        Lexeme::Word(start, end) => {
            let version = version_named(&text[start..end])?;
            Some((version, end))
        }
        Lexeme::End => None,
        Lexeme::Open(_) => None,
        Lexeme::Close(_) => None,
    }
}

/// The version that the word is.
fn version_named(word: &[u8]) -> Option<Version>
    ensures { option_map version_of result ≡ file_specs.version_named word.now }
{
    if word_is(word, "1") {
        Some(Version::One)
    } else if word_is(word, "2") {
        Some(Version::Two)
    } else if word_is(word, "3") {
        Some(Version::Three)
    } else if word_is(word, "4") {
        Some(Version::Four)
    } else {
        None
    }
}

/// The byte behind the word, where it is the first token at or after `at`.
pub(crate) fn word_end(text: &[u8], at: usize, word: &str) -> Option<usize>
    ensures { option_map (λ end. tokens_from end text.now) result
        ≡ behind_word word.now (tokens_from at text.now) }
{
    match lexeme_at(text, at) {
        Lexeme::Word(start, end) => {
            if &text[start..end] == word.as_bytes() {
                Some(end)
            } else {
                None
            }
        }
        Lexeme::End => None,
        Lexeme::Open(_) => None,
        Lexeme::Close(_) => None,
    }
}
