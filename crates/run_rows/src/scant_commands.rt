// What command lines lead to where allocations are refused.

use crate::commands::{answer_told, words_of};
use crate::files::ThreeFiles;
use crate::found::{Probe, all_are_found};
use row_texts::ballast::{ROOM, take_all};
use row_texts::scarce::{Ending, MOST_TRIES, Tries};
use row_texts::texts::{parted, say};
use std::alloc::Global;
use yampa_run::prepare;

/// A command line's words, its files, and what they lead to with ample memory.
#[derive(Clone, Copy)]
struct Given<'a> {
    words: &'a [&'a str],
    files: &'a ThreeFiles<'a>,
    ample: &'a str,
}

/// Says what the command line leads to, and whether it fails to allocate at first: `WORDS | SOURCE
/// | TARGET | CERTIFICATE`.
pub fn scant_command_told(alloc: Global, given: &str, out: &mut String) {
    let (line, files) = parted(given);
    let (source, behind) = parted(files);
    let (target, certificate) = parted(behind);
    let files = ThreeFiles {
        source: source.as_bytes(),
        target: target.as_bytes(),
        certificate: certificate.as_bytes(),
    };
    let words = words_of(alloc, line);
    let mut ample = String::new(alloc);
    let asked = prepare(alloc, &words, &files);
    answer_told(&asked, &mut ample);
    drop(asked);
    say(out, ample.as_str());
    say(out, " ");
    let given = Given {
        words: &words,
        files: &files,
        ample: ample.as_str(),
    };
    tried(alloc, given, out);
}

fn tried(alloc: Global, given: Given<'_>, out: &mut String) {
    let mut tries = Tries::new(0);
    let room = take_all(alloc, ROOM);
    for _ in 0..MOST_TRIES {
        if let Some(shortage) = tries.next() {
            tries.note(command_tried(alloc, given, shortage.spare));
        }
    }
    drop(room);
    tries.tell(out);
}

/// How the command line ends where so many bytes are left.
fn command_tried(alloc: Global, given: Given<'_>, spare: usize) -> Ending {
    let ballast = take_all(alloc, spare);
    let asked = prepare(alloc, given.words, given.files);
    drop(ballast);
    let mut told = String::new(alloc);
    answer_told(&asked, &mut told);
    drop(asked);
    match told.as_str() {
        "memory" => Ending::Refused(0),
        told if told == given.ample => Ending::Whole,
        _ => Ending::Other,
    }
}

/// Command lines on files, and what they lead to.
static COMMANDS: &str = "
§ Command lines with little memory, the first of no words.
 | ‹same› => wrong words refused at first
yampa types src | ‹increment› => Int -> Int␤weight 3␤height 2␤ refused at first
yampa types src | yampa 1 input Int (hold 0) => status 1 network: no event at (at) refused at first
yampa run src | ‹same› => run (arr x) refused at first
yampa optimise src | ‹sum doubled› => yampa 1␤input Int␤(arr (then (add x 1) (mul x 2)))␤ refused at first
yampa outline src | yampa 1 input Int time => (at)␉time␉Int␉1␤ refused at first
yampa laws src --at (at) | ‹sum doubled› => (step L4 forward (at))␤- (>>> (arr (add x 1)) (arr (mul x 2)))␤+ (arr (then (add x 1) (mul x 2)))␤(step E16 forward (at 0 0))␤- (add x 1)␤+ (add 1 x)␤(step E20 forward (at 1 0))␤- (mul x 2)␤+ (mul 2 x)␤ refused at first
yampa apply src cert | ‹successor› |  | laws 1 (step E16 forward (at 0)) => yampa 1␤input Int␤(arr (add 1 x))␤ refused at first
yampa apply src cert --steps | ‹successor› |  | laws 1 (step L4 forward (at 5)) => (step L4 forward (at 5))␤status 1 certificate: no position at step 1 refused at first
yampa check src tgt cert | ‹sum doubled› | ‹sum doubled at once› | laws 1 (step L4 forward (at)) => accepted 1␤ refused at first
yampa run-checked src tgt cert | ‹sum doubled› | ‹sum doubled at once› | laws 1 (step L4 forward (at)) => run (arr (then (add x 1) (mul x 2))) refused at first
yampa run-checked tgt src cert | ‹sum doubled› | ‹sum doubled at once› | laws 1 (step L4 backward (at) (>>> (arr (add x 1)) (arr (mul x 2)))) => run (>>> (arr (add x 1)) (arr (mul x 2))) refused at first
";

#[test]
fn command_lines_are_refused_memory(rt: HostRuntime) {
    all_are_found(&rt, rt.alloc(), Probe::ScantCommand, COMMANDS);
}
