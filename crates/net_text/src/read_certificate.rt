// Reading certificate files.

ghost use Rattle.std.specs.Prelude.{◌≡◌, ◌<◌, Err, List, Ok, length, map, option_map, IfOk, IfErr};
ghost use Rattle.leaf_expr.specs.Token.{tokens, tokens_from};
ghost use Rattle.net_tree.specs.LawStep.{Step, step_of};
ghost use Rattle.net_text.specs.{File.read_behind, Form.version_of};
ghost use Rattle.net_text.specs.Certificate.{behind_laws, read_all_steps, read_certificate};
ghost use Rattle.net_text.specs.{CertificateLaws.IsCertificate, CertificateLaws.IsCertificateFault, ReadCertificate.GivesSteps};
ghost use Rattle.net_text.specs.declared.fault.NetTextFault.TheVariants as Fault;

use crate::certificate_reader::steps_at;
use crate::fault::NetTextFault;
use crate::read::{version_end, word_end};
use crate::text::{Text, Version};
use leaf_expr::MOST_LENGTH;
use net_tree::LawStep;
use std::alloc::Global;

/// Reads a certificate file: `laws 1` to `laws 4` and then any number of steps,
/// `(step LAW DIRECTION POSITION)` or `(step LAW DIRECTION POSITION TREE)`. LAW is `E1` to `E18` or
/// `L1` to `L42`, behind `laws 2` to `L46`, behind `laws 3` to `E26` or `L51`, behind `laws 4` to
/// `LAST_EXPRESSION_LAW` or `LAST_NETWORK_LAW`. DIRECTION is `forward` or `backward`, POSITION is `(at N1 .. Nk)` with child
/// numbers, and TREE is an expression for an E law and a network for an L law, with sugar expanded;
/// behind `laws 2` to `laws 4` it may have the forms `-->`, `>--`, `drSwitch` and `rpSwitchB` too.
///
/// `TooLong`: the text has more than 1,048,576 bytes, whatever they are. Else a refusal is the
/// first token that doesn't fit, by its first byte, counted from 0. `Header`: it is one of the
/// first two, or they aren't both there. `TooDeep`: a parenthesis that would be the 601st open at
/// once, also where none fits. `Number`: where a number may stand, a number word that is badly
/// spelt or out of range: a child number is from 0 to 65,535, those in a tree are as for
/// `read_net`. `Syntax`: any other, or the text's length where it ends too early. `Memory`:
/// allocation failed.
pub fn read_cert(alloc: Global, text: &[u8]) -> Result<Vec<LawStep>, NetTextFault>
    // What is read is what the file says.
    ensures found { IfOk result (λ steps. IsCertificate text.now (map step_of steps.items)) }
    // A certificate file is read, unless memory runs out.
    ensures only { (ss : List Step) → IsCertificate text.now ss → GivesSteps (λ steps. map step_of steps.items) result (Ok ss) }
    // A text that is too long is refused as such, whatever its bytes are.
    ensures long { MOST_LENGTH < length text.now → result ≡ Err Fault.TooLong }
    // What is refused is so at the first token that doesn't fit, or for its length.
    ensures refused { IfErr result (IsCertificateFault text.now) }
{
    certificate(alloc, text)
}

/// What `read_cert` answers. It stands apart, since the clauses of that contract follow from its
/// own.
fn certificate(alloc: Global, text: &[u8]) -> Result<Vec<LawStep>, NetTextFault>
    ensures long { MOST_LENGTH < length text.now → result ≡ Err Fault.TooLong }
    ensures exact { GivesSteps (λ steps. map step_of steps.items) result
        (read_certificate text.now) }
{
    if text.len() > MOST_LENGTH {
        return Err(NetTextFault::TooLong);
    }
    headed(alloc, text)
}

/// A header, and the steps behind it, in a text of whatever length.
fn headed(alloc: Global, text: &[u8]) -> Result<Vec<LawStep>, NetTextFault>
    ensures { GivesSteps (λ steps. map step_of steps.items) result
        (read_behind (read_all_steps (length text.now)) (behind_laws (tokens text.now))) }
{
    match laws_end(text) {
        Some((version, at)) => {
            let text = Text {
                bytes: text,
                version,
            };
            Ok(steps_at(alloc, &text, at)?)
        }
        None => Err(NetTextFault::Header),
    }
}

/// The version and the byte behind the words `laws` and a version, where these are the first
/// tokens.
fn laws_end(text: &[u8]) -> Option<(Version, usize)>
    ensures { option_map (λ x. (version_of x.0, tokens_from x.1 text.now)) result
        ≡ behind_laws (tokens text.now) }
{
    let at = word_end(text, 0, "laws")?;
    version_end(text, at)
}
