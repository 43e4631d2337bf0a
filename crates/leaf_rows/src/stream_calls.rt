// What successive calls of a reader of lines answer.

ghost use Rattle.sample_core.specs.TypeView.{type_of};
ghost use Rattle.stream_text.specs.{LineReaderView.stream_state, StreamText.IsBefore};

use crate::found::{Probe, all_are_found};
use row_texts::ballast::take_all;
use row_texts::devices::Pieces;
use row_texts::texts::{parted, say, say_at, say_shown, type_in};
use sample_core::{Sample, Ty, push_value};
use std::alloc::Global;
use std::io::Read;
use stream_text::{Counted, Device, LineReader};

/// Says the first five answers of a reader of lines over the stream, `TYPE | STREAM`, which it gets
/// in pieces of 4,096 bytes; and `differs`, where smaller pieces lead to others.
pub fn calls_told(alloc: Global, given: &str, out: &mut String) {
    let (ty, stream) = parted(given);
    match type_in(alloc, ty) {
        Some(ty) => all_told(alloc, &ty, stream, out),
        None => say(out, "no type"),
    }
}

fn all_told(alloc: Global, ty: &Ty, stream: &str, out: &mut String) {
    pieces_told(alloc, ty, stream, 4_096, out);
    for most in 1..4usize {
        let mut again = String::new(alloc);
        pieces_told(alloc, ty, stream, most, &mut again);
        if again.as_str() != out.as_str() {
            say(out, "differs");
        }
    }
}

fn pieces_told(alloc: Global, ty: &Ty, stream: &str, most: usize, out: &mut String) {
    match LineReader::new(alloc, Counted::new(Pieces::new(stream.as_bytes(), most, 0))) {
        Ok(mut reader) => {
            answers_told(&mut reader, ty, out);
            drop(reader);
        }
        Err(_) => say(out, "memory"),
    }
}

/// Says the same where no memory is left once the reader is there.
pub fn scant_calls_told(alloc: Global, given: &str, out: &mut String) {
    let (ty, stream) = parted(given);
    match type_in(alloc, ty) {
        Some(ty) => scant_told(alloc, &ty, stream, out),
        None => say(out, "no type"),
    }
}

fn scant_told(alloc: Global, ty: &Ty, stream: &str, out: &mut String) {
    // Room for what is told, so that saying it doesn't allocate.
    say(
        out,
        "five answers, which are samples, an end or faults, and what stands between them",
    );
    out.clear();
    match LineReader::new(
        alloc,
        Counted::new(Pieces::new(stream.as_bytes(), 4_096, 0)),
    ) {
        Ok(mut reader) => {
            let ballast = take_all(alloc, 0);
            answers_told(&mut reader, ty, out);
            drop(ballast);
            drop(reader);
        }
        Err(_) => say(out, "memory"),
    }
}

/// Says five answers of the reader.
pub fn answers_told<R: Read + Device + Drop>(reader: &mut LineReader<R>, ty: &Ty, out: &mut String)
    requires { IsBefore (type_of ty.now) (stream_state reader.old).lines (stream_state reader.old).before }
    ensures { IsBefore (type_of ty.now) (stream_state reader.new).lines (stream_state reader.new).before }
{
    answer_told(reader, ty, out);
    answer_told(reader, ty, out);
    answer_told(reader, ty, out);
    answer_told(reader, ty, out);
    answer_told(reader, ty, out);
}

fn answer_told<R: Read + Device + Drop>(reader: &mut LineReader<R>, ty: &Ty, out: &mut String)
    requires { IsBefore (type_of ty.now) (stream_state reader.old).lines (stream_state reader.old).before }
    ensures { IsBefore (type_of ty.now) (stream_state reader.new).lines (stream_state reader.new).before }
{
    match reader.next(ty) {
        Ok(Some((step, sample))) => sample_told(step, sample, out),
        Ok(None) => say(out, "end;"),
        Err(fault) => {
            say_shown(out, &fault);
            say(out, ";");
        }
    }
}

fn sample_told(step: u64, sample: Sample, out: &mut String) {
    say_at(out, "+", step as usize);
    say(out, " ");
    drop(push_value(out, &sample));
    drop(sample);
    say(out, ";");
}

/// Types, streams, and what five calls answer.
static CALLS: &str = "
§ Samples, and then the end again and again.
Int | 5␤+1 6␤+1 7 => + 0 5;+ 1 6;+ 1 7;end;end;
Int | 5␤+1 6␤+1 7␤ => + 0 5;+ 1 6;+ 1 7;end;end;
Int | => end;end;end;end;end;
Int | 5␤+3 =␤+9223372036854775807 = => + 0 5;+ 3 5;+ 9223372036854775807 5;end;end;
§ A fault once, and then that it has ended.
Int | 5␤+1 6␤+0 7␤+1 8 => + 0 5;+ 1 6;stream: line 3: step;stream: ended;stream: ended;
Int | =␤+1 5 => stream: line 1: nothing before;stream: ended;stream: ended;stream: ended;stream: ended;
Int | true␤+1 5 => stream: line 1: other type at 0;stream: ended;stream: ended;stream: ended;stream: ended;
Int | 9223372036854775808 => stream: line 1: number range at 0;stream: ended;stream: ended;stream: ended;stream: ended;
Int | 007 => stream: line 1: no value at 0;stream: ended;stream: ended;stream: ended;stream: ended;
Int | -0 => stream: line 1: no value at 0;stream: ended;stream: ended;stream: ended;stream: ended;
Int | 5  => stream: line 1: no value at 1;stream: ended;stream: ended;stream: ended;stream: ended;
(Pair Int (Event Int)) | (pair 5 no => stream: line 1: no value at 8;stream: ended;stream: ended;stream: ended;stream: ended;
(Pair Int (Event Int)) | (pair 5 none)␤+2 (pair 6 (event 9)) => + 0 (pair 5 none);+ 2 (pair 6 (event 9));end;end;end;
";

/// What the calls of a reader of lines answer with no memory left.
static SCANT_CALLS: &str = "
§ Numbers are answered where every allocation fails.
Int | 5␤+1 6␤+1 7 => + 0 5;+ 1 6;+ 1 7;end;end;
Int | 5␤+1 6␤+0 7 => + 0 5;+ 1 6;stream: line 3: step;stream: ended;stream: ended;
";

#[test]
fn lines_are_read_call_by_call(rt: HostRuntime) {
    all_are_found(&rt, rt.alloc(), Probe::Calls, CALLS);
    all_are_found(&rt, rt.alloc(), Probe::ScantCalls, SCANT_CALLS);
}
