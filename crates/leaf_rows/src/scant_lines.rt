// Which lines are answered where memory is short from some read on.

use crate::found::{Probe, all_are_found};
use crate::stream_calls::answers_told;
use row_texts::ballast::{ROOM, take_all};
use row_texts::refusing::refuse_none;
use row_texts::scarce::{Ending, MOST_TRIES, Scarce, Shortage, Tries};
use row_texts::texts::{parted, say, type_in};
use sample_core::{Memory, Ty};
use std::alloc::Global;
use stream_text::{Counted, LineReader};

/// Says ten answers of a reader of lines over the stream, `TYPE | STREAM`, with ample memory, and
/// how the calls end where memory is short at some read.
pub fn lines_told(alloc: Global, given: &str, out: &mut String) {
    let (ty, stream) = parted(given);
    match type_in(alloc, ty) {
        Some(ty) => {
            let mut whole = String::new(alloc);
            calls_told(alloc, &ty, stream, NEVER, &mut whole);
            say(out, whole.as_str());
            say(out, " ");
            calls_tried(alloc, &ty, stream, whole.as_str(), out);
        }
        None => say(out, "no type"),
    }
}

/// No shortage: there is no such read.
const NEVER: Shortage = Shortage {
    at_read: usize::MAX,
    number: 0,
    spare: 0,
};

fn calls_tried(alloc: Global, ty: &Ty, stream: &str, whole: &str, out: &mut String) {
    let mut tries = Tries::new(stream.len().saturating_add(1));
    let room = take_all(alloc, ROOM);
    for _ in 0..MOST_TRIES {
        if let Some(shortage) = tries.next() {
            tries.note(call_tried(alloc, ty, stream, whole, shortage));
        }
    }
    drop(room);
    tries.tell(out);
}

fn call_tried(alloc: Global, ty: &Ty, stream: &str, whole: &str, shortage: Shortage) -> Ending {
    let mut told = String::new(alloc);
    // Room for what is told, so that it isn't refused.
    say(&mut told, whole);
    say(&mut told, whole);
    told.clear();
    calls_told(alloc, ty, stream, shortage, &mut told);
    refuse_none(alloc, None);
    calls_ending(told.as_str(), whole)
}

fn calls_told(alloc: Global, ty: &Ty, stream: &str, shortage: Shortage, out: &mut String) {
    let source = Counted::new(Scarce::new(alloc, stream.as_bytes(), shortage));
    match LineReader::new(alloc, source) {
        Ok(mut reader) => {
            answers_told(&mut reader, ty, out);
            answers_told(&mut reader, ty, out);
            drop(reader);
        }
        Err(Memory) => say(out, "memory;"),
    }
}

/// Whether the calls answered the whole, or were refused memory behind some of its answers and then
/// had ended.
fn calls_ending(told: &str, whole: &str) -> Ending {
    match told.split_once("memory;") {
        Some((before, behind)) => {
            if whole.starts_with(before) && all_ended(behind) {
                Ending::Refused(before.split(';').count() - 1)
            } else {
                Ending::Other
            }
        }
        None => {
            if told == whole {
                Ending::Whole
            } else {
                Ending::Other
            }
        }
    }
}

fn all_ended(told: &str) -> bool {
    let mut all = true;
    for answer in told.split(';') {
        all = all && (answer == "stream: ended" || answer == "");
    }
    all
}

/// Types, streams, what is answered, and how calls with little memory end.
static LINES: &str = "
§ Memory is refused from each read on in turn: numbers take none, once there is a reader; other values do.
Int | 5␤+1 6␤+1 7 => + 0 5;+ 1 6;+ 1 7;end;end;end;end;end;end;end; refused at first
Int | 0␤+4 0␤+5 1␤+6 0␤+7 2␤+1 0 => + 0 0;+ 4 0;+ 5 1;+ 6 0;+ 7 2;+ 1 0;end;end;end;end; refused at first
(Pair Int (Event Int)) | (pair 5 none)␤+2 (pair 6 (event 9)) => + 0 (pair 5 none);+ 2 (pair 6 (event 9));end;end;end;end;end;end;end;end; refused, also behind lines
(List Int) | (list 1)␤+1 (list 1 2 3 4 5 6 7 8 9)␤+1 = => + 0 (list 1);+ 1 (list 1 2 3 4 5 6 7 8 9);+ 1 (list 1 2 3 4 5 6 7 8 9);end;end;end;end;end;end;end; refused, also behind lines
";

#[test]
fn lines_are_short_of_memory(rt: HostRuntime) {
    all_are_found(&rt, rt.alloc(), Probe::ScantLines, LINES);
}
