// Network files: what is read and printed, and what is refused and where.

use crate::found::{Probe, all_are_found};
use leaf_expr::Expr;
use net_text::{NetTextFault, print_net, read_net};
use net_tree::Net;
use row_texts::texts::{bytes_in, printed_told, say_shown};
use sample_core::Ty;
use std::alloc::Global;

/// Says how the file is printed once it is read, or why it isn't.
pub fn file_told(alloc: Global, text: &str, out: &mut String) {
    let bytes = bytes_in(alloc, text);
    reading_told(alloc, read_net(alloc, &bytes), out);
}

/// Says how a copy of what was read is printed, or why nothing was read.
pub fn reading_told(alloc: Global, read: Result<(Ty, Net<Expr>), NetTextFault>, out: &mut String) {
    match read {
        Ok((input, net)) => {
            copy_told(alloc, &input, &net, out);
            drop(input);
            drop(net);
        }
        Err(fault) => say_shown(out, &fault),
    }
}

/// Says how a copy of the network is printed.
fn copy_told(alloc: Global, input: &Ty, net: &Net<Expr>, out: &mut String) {
    match net.try_copy(alloc) {
        Ok(copy) => {
            printed_told(print_net(alloc, input, &copy), out);
            drop(copy);
        }
        Err(memory) => say_shown(out, &memory),
    }
}

/// Network files, how they are printed, and why they are refused.
static FILES: &str = "
§ Headers, what follows one, and lengths.
 => header
yampa => header
yampa 1 => header
yampa 1 inpu => header
yampa 2 => header
yampa 02 input Int identity => header
yampa 2 inpu => header
yampa 3 input Int identity => header
yampa 01 input Int identity => header
(yampa 1 input Int identity) => header
Yampa 1 input Int identity => header
yampa1 input Int identity => header
; yampa 1 input Int identity => header
laws 1 => header
yampa 3 input Int time => header
yampa 1 input␀Int identity => header
yampa 1 input => syntax at byte 13
yampa 2 input => syntax at byte 13
yampa 2 input Int => syntax at byte 17
yampa 1 input Int => syntax at byte 17
yampa 1 input 5 identity => syntax at byte 14
yampa 1 input identity => syntax at byte 14
{10000*(} => header
{10000*)} => header
{10000*;} => header
{10000*-} => header
{10000*~} => header
{1048576*(} => header
{1048576*(}  => too long
§ Files in which no network stands: bytes of no text, zeros and vertical tabs are in words.
yampa 1 input Int 5 => syntax at byte 18
yampa 1 input Int arr => syntax at byte 18
yampa 1 input Int ) => syntax at byte 18
yampa 1 input Int (time) => syntax at byte 19
yampa 1 input Int (integral) => syntax at byte 19
yampa 1 input Int (identity) => syntax at byte 19
yampa 1 input Int (edge) => syntax at byte 19
yampa 1 input Int () => syntax at byte 19
yampa 1 input Int (1 2) => syntax at byte 19
yampa 1 input Int (x) => syntax at byte 19
yampa 1 input Int ((arr x)) => syntax at byte 19
yampa 1 input Int (col identity) => syntax at byte 19
yampa 1 input Int (--> 1 identity) => syntax at byte 19
yampa 1 input Int (>-- identity 1) => syntax at byte 19
yampa 1 input Int (drSwitch identity identity) => syntax at byte 19
yampa 1 input Int (rpSwitchB (col identity) identity identity) => syntax at byte 19
yampa 1 input Int (pre identity) => syntax at byte 19
yampa 1 input Int (loop identity) => syntax at byte 19
yampa 1 input Int (Arr x) => syntax at byte 19
yampa 1 input Int (first) => syntax at byte 24
yampa 1 input Int (first identity identity) => syntax at byte 34
yampa 1 input Int (loopPre identity identity) => syntax at byte 27
yampa 1 input Int (loopPre 0 0) => syntax at byte 29
yampa 1 input Int (kSwitch identity identity) => syntax at byte 44
yampa 1 input Int (parB identity x) => syntax at byte 33
yampa 1 input Int (parB identity => syntax at byte 32
yampa 1 input Int (never x) => syntax at byte 25
yampa 1 input Int (never 5) => syntax at byte 25
yampa 1 input Int (accumBy x) => syntax at byte 28
yampa 1 input Int (hold -0) => number at byte 24
yampa 1 input Int (now) => syntax at byte 22
yampa 1 input Int (second x) => syntax at byte 26
yampa 1 input Int (*** identity) => syntax at byte 31
yampa 1 input Int (parB x) => syntax at byte 24
yampa 1 input Int (parB (col identity)) => syntax at byte 25
yampa 1 input Int (hold) => syntax at byte 23
yampa 1 input Int (accumHoldBy x 0 0) => syntax at byte 35
yampa 1 input Int (after 1 time) => syntax at byte 27
yampa 1 input Int (repeatedly unit unit) => syntax at byte 30
yampa 1 input Int (switch identity) => syntax at byte 34
yampa 1 input Int (pSwitch identity) => syntax at byte 27
§ Forms of version 2 that don't fit.
yampa 1 input Int (--> 7 time) => syntax at byte 19
yampa 1 input Int --> => syntax at byte 18
yampa 2 input Int --> => syntax at byte 18
yampa 2 input Int (-->) => syntax at byte 22
yampa 2 input Int (--> 1) => syntax at byte 24
yampa 2 input Int (--> 01 time) => number at byte 23
yampa 2 input Int (--> time 1) => syntax at byte 23
yampa 2 input Int (--> 1 time time) => syntax at byte 30
yampa 2 input Int (>-- identity 1) => syntax at byte 23
yampa 2 input Int (>-- 1 1) => syntax at byte 25
yampa 2 input Int (drSwitch time) => syntax at byte 32
yampa 2 input Int (drSwitch time 1) => syntax at byte 33
yampa 2 input Int (rpSwitchB) => syntax at byte 28
yampa 2 input Int (rpSwitchB time x time) => syntax at byte 29
yampa 2 input Int (rpSwitchB (cal time) x time) => syntax at byte 30
yampa 2 input Int (rpSwitchB (col identity) identity identity) => syntax at byte 44
yampa 2 input Int (rpSwitchB (col x) x time) => syntax at byte 34
yampa 2 input Int (rpSwitchB (col time) x) => syntax at byte 41
yampa 2 input Int (rpSwitchB (col time) x 1) => syntax at byte 42
yampa 2 input Int (rpSwitchB (col time) x time time) => syntax at byte 47
yampa 2 input Int (rpSwitchB (parB) x time) => syntax at byte 30
yampa 2 input Int (pre time) => syntax at byte 19
§ Numbers of frozen networks, and times.
yampa 1 input Int (old) => syntax at byte 22
yampa 1 input Int (old x) => syntax at byte 23
yampa 1 input Int (old (p 0)) => syntax at byte 23
yampa 1 input Int (old -1) => number at byte 23
yampa 1 input Int (old 01) => number at byte 23
yampa 1 input Int (old 65536) => number at byte 23
yampa 1 input Int (old 0 0) => syntax at byte 25
yampa 1 input Int (delay x 0) => syntax at byte 25
yampa 1 input Int (delay (p 0) 0) => syntax at byte 25
yampa 1 input Int (delay 0 0) => number at byte 25
yampa 1 input Int (delay 01 0) => number at byte 25
yampa 1 input Int (delay 4097 0) => number at byte 25
yampa 1 input Int (delay 18446744073709551616 0) => number at byte 25
yampa 1 input Int (delay 1) => syntax at byte 26
yampa 1 input Int (after -0 0) => number at byte 25
yampa 1 input Int (after 4611686018427387905 0) => number at byte 25
yampa 1 input Int (repeatedly 0 0) => number at byte 30
yampa 1 input Int (repeatedly 4611686018427387905 0) => number at byte 30
yampa 1 input Int (delay -1 0) => number at byte 25
yampa 1 input Int (after 18446744073709551616 0) => number at byte 25
yampa 1 input Int (after -1 0) => number at byte 25
yampa 1 input Int (old 00) => number at byte 23
§ Where the members of `pSwitch` must stand.
yampa 1 input Int (pSwitch x identity identity identity) => syntax at byte 29
yampa 1 input Int (pSwitch x col identity identity) => syntax at byte 29
yampa 1 input Int (pSwitch x 5 identity identity) => syntax at byte 29
yampa 1 input Int (pSwitch x (parB identity) identity identity) => syntax at byte 30
yampa 1 input Int (pSwitch x ((col)) identity identity) => syntax at byte 30
yampa 1 input Int (pSwitch x (col x) identity identity) => syntax at byte 34
yampa 1 input Int (pSwitch x (col) identity) => syntax at byte 43
yampa 1 input Int (pSwitch x () identity identity) => syntax at byte 30
yampa 1 input Int (pSwitch x (parB) identity identity) => syntax at byte 30
yampa 1 input Int (pSwitch x (col identity) identity) => syntax at byte 52
§ Words that are no network, and what stands behind one.
yampa 1 input Int x => syntax at byte 18
yampa 1 input Int identity ; a␍ )␤ x => syntax at byte 35
yampa 1 input Int ident;ity => syntax at byte 18
yampa 1 input Int ~identity => syntax at byte 18
yampa 1 input Int identity␋ => syntax at byte 18
yampa 1 input Int (arr => syntax at byte 22
yampa 1 input Int (arr 01) => number at byte 23
yampa 1 input Int (arr) => syntax at byte 22
yampa 1 input Int (arr x x) => syntax at byte 25
yampa 1 input Int (>>> identity) => syntax at byte 31
yampa 1 input Int (arr identity) => syntax at byte 23
yampa 1 input Int (>>> x identity) => syntax at byte 23
yampa 1 input Int identity ) => syntax at byte 27
yampa 1 input Int identity identity => syntax at byte 27
yampa 1 input Int (iPre -0) => number at byte 24
yampa 1 input Int (iPre 9223372036854775808) => number at byte 24
yampa 1 input Int (arr (p 65536)) => number at byte 26
§ The 601st parenthesis, also where none fits.
yampa 1 input Int {601*(>>> } => nesting at byte 3018
yampa 1 input Int {600*(>>> } => syntax at byte 3018
yampa 1 input Int {599*(>>> }(( => nesting at byte 3014
yampa 1 input Int {599*(>>> }(arr x ( => nesting at byte 3020
yampa 1 input Int {599*(>>> }(arr ( => nesting at byte 3018
yampa 1 input Int {599*(>>> }(>>> ( => nesting at byte 3018
yampa 1 input Int {598*(>>> }(pSwitch x (col ( => nesting at byte 3024
yampa 1 input Int {599*(>>> }(pSwitch x ( => nesting at byte 3024
yampa 1 input Int {599*(>>> }(delay ( => nesting at byte 3020
yampa 1 input Int {599*(>>> }(parB time ( => nesting at byte 3024
yampa 1 input Int {600*(parB } => syntax at byte 3618
yampa 1 input Int {601*(parB } => nesting at byte 3618
yampa 1 input Int {600*(first }) => syntax at byte 4218
yampa 1 input Int {601*(kSwitch } => nesting at byte 5418
yampa 1 input Int {300*(pSwitch x (col }time => syntax at byte 4822
yampa 1 input Int {300*(pSwitch x (col }( => nesting at byte 4818
yampa 1 input Int {599*(first }(pSwitch x (col => nesting at byte 4222
yampa 1 input Int {599*(first }(loopPre (x => nesting at byte 4220
yampa 2 input Int {599*(>>> }(rpSwitchB (col => nesting at byte 3024
yampa 2 input Int {598*(>>> }(rpSwitchB (col ( => nesting at byte 3024
yampa 2 input Int {600*(--> 1 } => syntax at byte 4218
yampa 2 input Int {601*(--> 1 } => nesting at byte 4218
§ Files as they are printed: in three lines and in core forms.
yampa 1 input Int(>>>(arr(add x 1));␤(iPre 0)) => yampa 1␤input Int␤(>>> (arr (add x 1)) (iPre 0))␤
yampa 1 input (Pair Int Bool) identity => yampa 1␤input (Pair Int Bool)␤(arr x)␤
yampa 1 input Unit (constant -7) => yampa 1␤input Unit␤(arr (then unit -7))␤
yampa 1 input Int (arr (gate Int x true)) => yampa 1␤input Int␤(arr (if true x (none Int)))␤
yampa 1 input Int (arr (attach Int (event 1) 2)) => yampa 1␤input Int␤(arr (on (event 1) (none Int) (event (pair (snd x) (then (fst x) 2)))))␤
yampa 1 input Int (>>> (arr x) (iPre 0)) => yampa 1␤input Int␤(>>> (arr x) (iPre 0))␤
␉; first␍; (␤yampa␍1;)␤input;x␤(List Int)(>>>(arr x)(iPre(list Int)));end => yampa 1␤input (List Int)␤(>>> (arr x) (iPre (list Int)))␤
yampa 1 input Int identity ; (time) => yampa 1␤input Int␤(arr x)␤
yampa 1 input Int(pSwitch x(col;(␤time)(col␤)time) => syntax at byte 40
yampa 1 input Int(pSwitch x(col;(␤time)time(parB)) => yampa 1␤input Int␤(pSwitch x (col time) time (parB))␤
§ Files of version 2: printed so where a new form stands in them.
yampa 2 input Int identity => yampa 1␤input Int␤(arr x)␤
yampa 2 input Int (parB) => yampa 1␤input Int␤(parB)␤
yampa 2 input Int(-->(add 1 2)time) => yampa 2␤input Int␤(--> (add 1 2) time)␤
yampa 2 input Int (>-- x identity) => yampa 2␤input Int␤(>-- x (arr x))␤
yampa 2 input Int (drSwitch identity identity) => yampa 2␤input Int␤(drSwitch (arr x) (arr x))␤
yampa 2 input Int(rpSwitchB(col)x(constant 1)) => yampa 2␤input Int␤(rpSwitchB (col) x (arr (then unit 1)))␤
yampa 2 input Int (rpSwitchB (col time identity) (lMerge x x) time) => yampa 2␤input Int␤(rpSwitchB (col time (arr x)) (on x x (event (snd x))) time)␤
yampa 2 input Int (second (parB time (first (--> 1 time)))) => yampa 2␤input Int␤(>>> (arr (pair (snd x) (fst x))) (>>> (first (parB time (first (--> 1 time)))) (arr (pair (snd x) (fst x)))))␤
yampa 2 input Int (pSwitch x (col time (>-- 1 time)) time time) => yampa 2␤input Int␤(pSwitch x (col time (>-- 1 time)) time time)␤
yampa␤2 ; new␤input Int (kSwitch time time (rSwitch time (drSwitch time time))) => yampa 2␤input Int␤(kSwitch time time (rSwitch time (drSwitch time time)))␤
§ Sugar as it is printed.
yampa 1 input Int (second time) => yampa 1␤input Int␤(>>> (arr (pair (snd x) (fst x))) (>>> (first time) (arr (pair (snd x) (fst x)))))␤
yampa 1 input Int (*** time integral) => yampa 1␤input Int␤(>>> (first time) (>>> (arr (pair (snd x) (fst x))) (>>> (first integral) (arr (pair (snd x) (fst x))))))␤
yampa 1 input Int (&&& time integral) => yampa 1␤input Int␤(>>> (arr (pair x x)) (>>> (first time) (>>> (arr (pair (snd x) (fst x))) (>>> (first integral) (arr (pair (snd x) (fst x)))))))␤
yampa 1 input Int (never (List Int)) => yampa 1␤input Int␤(arr (none (List Int)))␤
yampa 1 input Int (now (p 0)) => yampa 1␤input Int␤(after 0 (p 0))␤
yampa 1 input Int edge => yampa 1␤input Int␤(>>> (>>> (arr (pair x x)) (>>> (first (arr x)) (>>> (arr (pair (snd x) (fst x))) (>>> (first (iPre true)) (arr (pair (snd x) (fst x))))))) (arr (if (and (fst x) (not (snd x))) (event unit) (none Unit))))␤
yampa 1 input Int (accumHoldBy (fst x) 10) => yampa 1␤input Int␤(>>> (accumBy (fst x) 10) (hold 10))␤
yampa 1 input Int (second (second time)) => yampa 1␤input Int␤(>>> (arr (pair (snd x) (fst x))) (>>> (first (>>> (arr (pair (snd x) (fst x))) (>>> (first time) (arr (pair (snd x) (fst x)))))) (arr (pair (snd x) (fst x)))))␤
§ What is printed is read to the same.
yampa 2␤input Int␤(--> 7 time)␤ => yampa 2␤input Int␤(--> 7 time)␤
yampa 2␤input Int␤(>-- 9 (iPre 0))␤ => yampa 2␤input Int␤(>-- 9 (iPre 0))␤
yampa 2␤input Int␤‹late restart›␤ => yampa 2␤input Int␤‹late restart›␤
yampa 2␤input Int␤‹collection›␤ => yampa 2␤input Int␤‹collection›␤
yampa 2␤input Int␤(rpSwitchB (col) x time)␤ => yampa 2␤input Int␤(rpSwitchB (col) x time)␤
yampa 2␤input Int␤‹new forms›␤ => yampa 2␤input Int␤‹new forms›␤
yampa 1␤input Int␤time␤ => yampa 1␤input Int␤time␤
yampa 1␤input Int␤integral␤ => yampa 1␤input Int␤integral␤
yampa 1␤input Int␤(first time)␤ => yampa 1␤input Int␤(first time)␤
yampa 1␤input Int␤(parB)␤ => yampa 1␤input Int␤(parB)␤
yampa 1␤input Int␤(parB time (arr x))␤ => yampa 1␤input Int␤(parB time (arr x))␤
yampa 1␤input Int␤(loopPre 0 time)␤ => yampa 1␤input Int␤(loopPre 0 time)␤
yampa 1␤input Int␤(delay 1 x)␤ => yampa 1␤input Int␤(delay 1 x)␤
yampa 1␤input Int␤(delay 4096 x)␤ => yampa 1␤input Int␤(delay 4096 x)␤
yampa 1␤input Int␤(hold 0)␤ => yampa 1␤input Int␤(hold 0)␤
yampa 1␤input Int␤(accumBy (add (fst x) (snd x)) 0)␤ => yampa 1␤input Int␤(accumBy (add (fst x) (snd x)) 0)␤
yampa 1␤input Int␤(after 0 7)␤ => yampa 1␤input Int␤(after 0 7)␤
yampa 1␤input Int␤(after 4611686018427387904 7)␤ => yampa 1␤input Int␤(after 4611686018427387904 7)␤
yampa 1␤input Int␤(repeatedly 1 unit)␤ => yampa 1␤input Int␤(repeatedly 1 unit)␤
yampa 1␤input Int␤(repeatedly 4611686018427387904 unit)␤ => yampa 1␤input Int␤(repeatedly 4611686018427387904 unit)␤
yampa 1␤input Int␤(switch time (arr (p 0)))␤ => yampa 1␤input Int␤(switch time (arr (p 0)))␤
yampa 1␤input Int␤(dSwitch time (arr (p 0)))␤ => yampa 1␤input Int␤(dSwitch time (arr (p 0)))␤
yampa 1␤input Int␤(rSwitch time (arr (p 0)))␤ => yampa 1␤input Int␤(rSwitch time (arr (p 0)))␤
yampa 1␤input Int␤(kSwitch time (arr (none Unit)) (old 0))␤ => yampa 1␤input Int␤(kSwitch time (arr (none Unit)) (old 0))␤
yampa 1␤input Int␤(pSwitch (fst x) (col) time integral)␤ => yampa 1␤input Int␤(pSwitch (fst x) (col) time integral)␤
yampa 1␤input Int␤(pSwitch (fst x) (col time integral) (arr (none Unit)) (parB (old 1) (old 0)))␤ => yampa 1␤input Int␤(pSwitch (fst x) (col time integral) (arr (none Unit)) (parB (old 1) (old 0)))␤
yampa 1␤input Int␤(old 65535)␤ => yampa 1␤input Int␤(old 65535)␤
yampa 1␤input Int␤(>>> (arr (add x 1)) (iPre 0))␤ => yampa 1␤input Int␤(>>> (arr (add x 1)) (iPre 0))␤
yampa 1␤input (Pair Int Bool)␤(arr x)␤ => yampa 1␤input (Pair Int Bool)␤(arr x)␤
yampa 1␤input Unit␤(arr (then unit -7))␤ => yampa 1␤input Unit␤(arr (then unit -7))␤
yampa 1␤input Int␤(arr (if true x (none Int)))␤ => yampa 1␤input Int␤(arr (if true x (none Int)))␤
yampa 1␤input Int␤(arr (on (event 1) (none Int) (event (pair (snd x) (then (fst x) 2)))))␤ => yampa 1␤input Int␤(arr (on (event 1) (none Int) (event (pair (snd x) (then (fst x) 2)))))␤
yampa 1␤input Int␤(>>> (arr x) (iPre 0))␤ => yampa 1␤input Int␤(>>> (arr x) (iPre 0))␤
yampa 1␤input (List Int)␤(>>> (arr x) (iPre (list Int)))␤ => yampa 1␤input (List Int)␤(>>> (arr x) (iPre (list Int)))␤
yampa 1␤input Int␤(arr x)␤ => yampa 1␤input Int␤(arr x)␤
";

#[test]
fn network_files_are_read(rt: HostRuntime) {
    all_are_found(&rt, rt.alloc(), Probe::File, FILES);
}
