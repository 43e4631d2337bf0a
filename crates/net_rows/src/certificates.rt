// Certificate files: what is read and printed, and what is refused and where.

use crate::found::{LawProbe, Probe, all_are_found};
use net_text::{NetTextFault, print_cert, read_cert};
use net_tree::LawStep;
use row_texts::texts::{bytes_in, printed_told, say, say_shown};
use std::alloc::Global;

/// Says how the certificate file is printed once it is read, and where what is printed isn't read
/// to the same again, that it isn't; or why the file isn't read.
pub fn certificate_told(alloc: Global, text: &str, out: &mut String) {
    match steps_in(alloc, text) {
        Ok(steps) => {
            printed_told(print_cert(alloc, &steps), out);
            drop(steps);
            again_told(alloc, out);
        }
        Err(fault) => say_shown(out, &fault),
    }
}

/// The steps of the certificate file.
pub fn steps_in(alloc: Global, text: &str) -> Result<Vec<LawStep>, NetTextFault> {
    let bytes = bytes_in(alloc, text);
    read_cert(alloc, &bytes)
}

/// Tells it where the certificate that was printed is printed otherwise once it is read.
fn again_told(alloc: Global, out: &mut String) {
    let mut again = String::new(alloc);
    match steps_in(alloc, out.as_str()) {
        Ok(steps) => {
            printed_told(print_cert(alloc, &steps), &mut again);
            drop(steps);
        }
        Err(fault) => say_shown(&mut again, &fault),
    }
    if again.as_str() != out.as_str() {
        say(out, " and another when it is read again");
    }
}

/// Certificate files, how they are printed, and why they are refused.
static CERTIFICATES: &str = "
§ Certificates, and how they are printed.
laws 1 => laws 1␤
laws 1 (step L4 forward (at)) => laws 1␤(step L4 forward (at))␤
laws␉1␍␤;(step␤(step E16 backward(at 0 65535)(add 1 x))(step L42 forward(at 1 2)) => laws 1␤(step E16 backward (at 0 65535) (add 1 x))␤(step L42 forward (at 1 2))␤
laws 1 (step E18 forward (at 0) 5) (step L38 backward (at) (kSwitch time integral (old 0))) => laws 1␤(step E18 forward (at 0) 5)␤(step L38 backward (at) (kSwitch time integral (old 0)))␤
laws 1 (step L25 backward (at) (>>> identity (constant 5))) => laws 1␤(step L25 backward (at) (>>> (arr x) (arr (then unit 5))))␤
laws 1 (step E13 backward (at 0) (tag Int x 3)) => laws 1␤(step E13 backward (at 0) (on x (none Int) (event (then (fst x) 3))))␤
laws 1{10000* (step E7 forward (at[20* 1]))} => laws 1␤{10000*(step E7 forward (at[20* 1]))␤}
§ Certificates of version 2: printed so where a new law or a new form stands in them.
laws 2 => laws 1␤
laws 2 (step L42 forward (at)) => laws 1␤(step L42 forward (at))␤
laws 2 (step L43 forward (at)) => laws 2␤(step L43 forward (at))␤
laws 2 (step E1 forward (at)) (step L46 backward (at 1) (>>> identity time)) => laws 2␤(step E1 forward (at))␤(step L46 backward (at 1) (>>> (arr x) time))␤
laws 2 (step L44 forward (at 0))(step L45 forward (at)) => laws 2␤(step L44 forward (at 0))␤(step L45 forward (at))␤
laws 2 (step L1 backward (at) (--> 1 time)) => laws 2␤(step L1 backward (at) (--> 1 time))␤
laws 2 (step L1 backward (at) (>>> time (>-- 1 time))) (step L1 forward (at)) => laws 2␤(step L1 backward (at) (>>> time (>-- 1 time)))␤(step L1 forward (at))␤
laws 2 (step L1 backward (at) ‹late restart›) => laws 2␤(step L1 backward (at) ‹late restart›)␤
laws 2 (step L1 backward (at) ‹collection›) => laws 2␤(step L1 backward (at) ‹collection›)␤
§ Certificates of version 3: printed so where a law of that version stands in them.
laws 3 => laws 1␤
laws 3 (step E18 forward (at)) (step L42 forward (at)) => laws 1␤(step E18 forward (at))␤(step L42 forward (at))␤
laws 3 (step L46 forward (at)) => laws 2␤(step L46 forward (at))␤
laws 3 (step L1 backward (at) (--> 1 time)) => laws 2␤(step L1 backward (at) (--> 1 time))␤
laws 3 (step E19 forward (at)) => laws 3␤(step E19 forward (at))␤
laws 3 (step L43 forward (at)) (step E26 backward (at 0) true) => laws 3␤(step L43 forward (at))␤(step E26 backward (at 0) true)␤
laws 3 (step L47 forward (at)) (step L51 forward (at 1)) => laws 3␤(step L47 forward (at))␤(step L51 forward (at 1))␤
§ Certificates of version 4: printed so where a law of that version stands in them.
laws 4 => laws 1␤
laws 4 (step E18 forward (at)) => laws 1␤(step E18 forward (at))␤
laws 4 (step L1 backward (at) (--> 1 time)) => laws 2␤(step L1 backward (at) (--> 1 time))␤
laws 4 (step E26 forward (at)) (step L51 forward (at)) => laws 3␤(step E26 forward (at))␤(step L51 forward (at))␤
laws 4 (step L43 forward (at)) (step E27 backward (at 0) (add x 0)) => laws 4␤(step L43 forward (at))␤(step E27 backward (at 0) (add x 0))␤
laws 4 (step E55 forward (at 0)) => laws 4␤(step E55 forward (at 0))␤
laws 4 (step L52 forward (at)) (step L65 forward (at 1)) => laws 4␤(step L52 forward (at))␤(step L65 forward (at 1))␤
§ Headers and lengths.
 => header
laws => header
laws 5 => header
laws 02 => header
laws2 => header
laws 01 => header
Laws 1 => header
(laws 1) => header
yampa 1 => header
{10000*(} => header
{10000*)} => header
{10000*;} => header
{10000*-} => header
{10000*~} => header
laws 1{1048570* } => laws 1␤
laws 1{1048571* } => too long
{1048577*~} => too long
§ Steps in which a word isn't one that may stand there.
laws 1 step => syntax at byte 7
laws 1 ) => syntax at byte 7
laws 1 ~ => syntax at byte 7
laws 1 ( => syntax at byte 8
laws 1 (at) => syntax at byte 8
laws 1 (step => syntax at byte 12
laws 1 (step E0 forward (at)) => syntax at byte 13
laws 1 (step E19 forward (at)) => syntax at byte 13
laws 1 (step L0 forward (at)) => syntax at byte 13
laws 1 (step L01 forward (at)) => syntax at byte 13
laws 1 (step L43 forward (at)) => syntax at byte 13
laws 1 (step L46 forward (at)) => syntax at byte 13
laws 2 (step L47 forward (at)) => syntax at byte 13
laws 2 (step L0 forward (at)) => syntax at byte 13
laws 2 (step E19 forward (at)) => syntax at byte 13
laws 3 (step E27 forward (at)) => syntax at byte 13
laws 3 (step L52 forward (at)) => syntax at byte 13
laws 4 (step E56 forward (at)) => syntax at byte 13
laws 4 (step L66 forward (at)) => syntax at byte 13
laws 1 (step l1 forward (at)) => syntax at byte 13
laws 1 (step 1 forward (at)) => syntax at byte 13
laws 1 (step L1 Forward (at)) => syntax at byte 16
laws 1 (step L1 1 (at)) => syntax at byte 16
laws 1 (step L1 forward) => syntax at byte 23
laws 1 (step L1 forward at) => syntax at byte 24
laws 1 (step L1 forward (0)) => syntax at byte 25
laws 1 (step L1 forward (at x)) => syntax at byte 28
laws 1 (step L1 forward (at (0))) => syntax at byte 28
laws 1 (step L1 forward (at) => syntax at byte 28
laws 1 (step L1 forward (at))) => syntax at byte 29
§ Trees of the other kind, and more than one.
laws 1 (step L1 backward (at) x) => syntax at byte 30
laws 1 (step L1 backward (at) 5) => syntax at byte 30
laws 1 (step E1 backward (at) time) => syntax at byte 30
laws 1 (step E1 backward (at) (arr x)) => syntax at byte 31
laws 1 (step E1 backward (at) 1 2) => syntax at byte 32
laws 1 (step L1 backward (at) (--> 1 time)) => syntax at byte 31
laws 1 (step L1 backward (at) (parB time ‹collection›)) => syntax at byte 42
laws 2 (step E1 backward (at) (--> 1 time)) => syntax at byte 31
laws 2 (step L43 backward (at) x) => syntax at byte 31
§ Numbers that are badly spelt or out of range.
laws 1 (step L4 forward (at 65536)) => number at byte 28
laws 1 (step L4 forward (at 0 18446744073709551616)) => number at byte 30
laws 1 (step L4 forward (at -1)) => number at byte 28
laws 1 (step L4 forward (at 00)) => number at byte 28
laws 1 (step L1 backward (at) (delay 4097 0)) => number at byte 37
laws 1 (step L1 backward (at) (old 65536)) => number at byte 35
laws 1 (step E1 backward (at) 9223372036854775808) => number at byte 30
§ Parentheses open at once.
laws 1 (step L1 backward (at) {599*(>>> } => syntax at byte 3025
laws 1 (step L1 backward (at) {600*(>>> } => nesting at byte 3025
laws 1 (step E1 backward (at) {600*(neg } => nesting at byte 3025
laws 1 (step L1 backward (at) {598*(>>> }(( => nesting at byte 3021
laws 1 {601*(} => syntax at byte 8
";

#[test]
fn certificate_files_are_read(rt: HostRuntime) {
    all_are_found(&rt, rt.alloc(), Probe::Law(LawProbe::File), CERTIFICATES);
}
