// Beginnings of a network's file, and where each is refused.

use crate::found::{Probe, all_are_found};
use net_text::{NetTextFault, read_net};
use row_texts::texts::say;
use std::alloc::Global;

/// Says of each beginning of the file that lacks its last `)` why it isn't read: `h` for its
/// header, `e` for a fault at its end, `w` for one at the first byte of its last word.
pub fn beginnings_told(alloc: Global, file: &str, out: &mut String) {
    let bytes = file.as_bytes();
    let mut word = 0;
    for length in 0..bytes.len() {
        let (beginning, rest) = bytes.split_at(length);
        if rest.contains(&b')') {
            say(out, refusal_of(alloc, beginning, word));
        }
        if matches!(bytes[length], b' ' | b'\n' | b'(' | b')') {
            word = length + 1;
        }
    }
}

fn refusal_of(alloc: Global, beginning: &[u8], word: usize) -> &'static str {
    match read_net(alloc, beginning) {
        Ok((input, net)) => {
            drop(input);
            drop(net);
            "read "
        }
        Err(NetTextFault::Header) => "h",
        Err(NetTextFault::Syntax { at }) => place_of(at, beginning.len(), word),
        Err(_) => "another fault ",
    }
}

fn place_of(at: usize, end: usize, word: usize) -> &'static str {
    if at == end {
        "e"
    } else if at == word {
        "w"
    } else {
        "another place "
    }
}

/// Files as they are printed, and where their beginnings are refused: in the header as long as the
/// words `yampa 1 input` or `yampa 2 input` aren't whole, then at the last word where it is cut
/// short, and else at the end.
static BEGINNINGS: &str = "
§ Beginnings.
yampa 1␤input Int␤‹routed›␤ => {13*h}eewweee{6*w}eeeww{6*e}wweewwwee{7*w}{4*e}wweeeweee{4*w}eeeww{9*e}{4*w}eewww{4*e}wwweewww{6*e}wwweeeww{6*e}ww{5*e}
yampa 2␤input Int␤(--> 7 (>-- 9 time))␤ => {13*h}eewweeeww{5*e}ww{4*e}wwwee
yampa 2␤input (Pair Int (Event Int))␤‹collection›␤ => {13*h}eeewwweewweee{4*w}eeww{5*e}{8*w}eeewwee{7*w}{5*e}wweeewwweeww{10*e}wwweeww{7*e}www{8*e}
";

#[test]
fn beginnings_are_refused(rt: HostRuntime) {
    all_are_found(&rt, rt.alloc(), Probe::Beginnings, BEGINNINGS);
}
