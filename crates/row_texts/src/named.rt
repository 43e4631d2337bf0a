// Files, networks and parts of networks that several tables try, by their names.

/// The file, the network or the part of that name, in short form; nothing where none has it.
pub fn network_named(name: &str) -> &'static str {
    for line in NAMED.lines() {
        if let Some((first, text)) = line.split_once(" = ") {
            if first == name {
                return text;
            }
        }
    }
    ""
}

/// Names, and the file, the network or the part of each. `forms` is a network in which each of the
/// nineteen forms of version 1 stands, on numbers, and `new forms` one with the four of version 2.
static NAMED: &str = "
increment = yampa 1 input Int (>>> (arr (add x 1)) (iPre 0))
same = yampa 1 input Int (arr x)
sum doubled = yampa 1 input Int (>>> (arr (add x 1)) (arr (mul x 2)))
sum doubled at once = yampa 1 input Int (arr (then (add x 1) (mul x 2)))
late switch = yampa 1 input Int (>>> (iPre 0) \
    (switch (arr (pair x (if (less 9 x) (event x) (none Int)))) (arr (add x (p 0)))))
successor = yampa 1 input Int (arr (add x 1))
below six = yampa 1 input Int (arr (less x 6))
wrap = yampa 1 input Int (arr (event x))
numbers in = yampa 1␤input Int␤
with events = yampa 2 input (Pair Int (Event Int))
with lists = yampa 2 input (Pair Int (Event (List Int)))
two events = (pair 5 none)␤+1 (pair 6 (event 9))␤+1 (pair 7 (event 8))␤+1 (pair 4 none)
second = yampa 1 input (Pair Int Int) (arr (snd x))
parameter = yampa 1 input Int (arr (p 0))
late truth = yampa 1 input Int (>>> (arr (less x 1)) (iPre 0))
tallest = yampa 1 input Int {255*(>>> (arr x) }(arr x){255*)}
too tall = yampa 1 input Int {256*(>>> (arr x) }(arr x){256*)}
heaviest = yampa 1 input Int (kSwitch (arr x) (arr (none Unit)) \
    {16*(kSwitch (>>> (old #) (old #)) (arr (none Unit)) }\
    (>>> (old 16) (>>> (old 15) (>>> (old 14) (>>> (old 12) (>>> (old 7) (>>> (old 4) (>>> (old 2) \
    (>>> (old 1) (>>> (arr x) (>>> (arr x) (arr x))))))))))){17*)}
deep event = yampa 1 input {31*(Event }Int{31*)} (arr (event x))
first frozen = (kSwitch (arr x) (arr (none Unit))
next frozen = (kSwitch (>>> (old #) (old #)) (arr (none Unit))
event above nine = (arr (pair x (if (less 9 x) (event x) (none Int))))
event always = (arr (pair x (event x)))
plus event = (arr (add x (p 0)))
negative = (arr (neg x))
events negative = (arr (on x (none Int) (event (then (snd x) (neg x)))))
at one at nine = 0␤+4 0␤+5 1␤+6 0␤+7 2␤+1 0
twenty steps = (>>> (arr x) (arr [19*(fst (pair ]x[19* 0))]))
a thousand taken = laws 1␤{50*(step L1 forward (at #))␤[19*(step E7 forward (at # 0))␤]}
eleven frozen = (kSwitch (arr x) (arr (none Unit)) \
    {10*(kSwitch (>>> (old #) (old #)) (arr (none Unit)) }
event at one = (arr (if (equal (fst x) 1) (event unit) (none Unit)))
hundreds = (arr (sub (mul 100 (nth x 0 0)) (nth x 1 0)))
old at two = (switch (arr (pair -1 (if (equal x 2) (event unit) (none Unit)))) (old 0))
switched twice = (switch (arr (pair x (if (less 9 x) (event x) (none Int)))) \
    (switch (arr (pair x (event (neg (p 0))))) (arr (add x (p 1)))))
resumed = (kSwitch time (arr (if (equal (fst x) 1) (event unit) (none Unit))) \
    (switch (arr (pair -1 (if (equal x 2) (event unit) (none Unit)))) (old 0)))
routed = (pSwitch (fst x) (col time integral) \
    (arr (if (equal (fst x) 7) (event unit) (none Unit))) (parB (old 1) (old 0)))
not of event = (on x (none Bool) (event (then (snd x) (not x))))
swap = (pair (snd x) (fst x))
assoc = (pair (fst (fst x)) (pair (snd (fst x)) (snd x)))
unassoc = (pair (pair (fst x) (fst (snd x))) (snd (snd x)))
cross = (pair (pair (fst (fst x)) (snd x)) (snd (fst x)))
held = (on (fst x) (pair (snd x) (snd x)) (pair (snd x) (snd x)))
sums = (on (fst x) (pair (none Int) (snd x)) (then (pair (snd (fst x)) (snd x)) (then (add (fst x) (snd x)) (pair (event x) x))))
forms = (parB (arr (add x 1)) (iPre 0) (delay 3 0) time integral \
    (>>> (arr (event x)) (hold 0)) \
    (>>> (arr (event x)) (>>> (accumBy (add (fst x) (snd x)) 0) (hold 0))) \
    (>>> (after 5 unit) (arr 1)) \
    (>>> (repeatedly 5 unit) (arr 1)) \
    (>>> (arr (pair x true)) (>>> (first (arr (neg x))) (arr (fst x)))) \
    (loopPre 0 (arr (pair (add (fst x) (snd x)) (fst x)))) \
    (switch (arr (pair x (event x))) (arr (add x (p 0)))) \
    (dSwitch (arr (pair x (event x))) (arr (sub x (p 0)))) \
    (>>> (arr (pair x (event true))) (rSwitch (arr x) (arr (if (p 0) x 0)))) \
    (kSwitch (arr (mul x 2)) (arr (event (snd x))) (>>> (old 0) (arr (add x (p 0))))) \
    (>>> (pSwitch (fst x) (col (arr x) integral) (arr (event (len (snd x)))) \
    (parB (old 0) (arr (p 0)))) (arr (nth x 0 0))))
late restart = (drSwitch (iPre 0) (iPre (p 0)))
late stages = (drSwitch (iPre 0) (>>> (arr x) (iPre (p 0))))
collection = (rpSwitchB (col integral) (pair (list Int 0 0 5) (list Int x)) (iPre (p 0)))
none kept = (pair (list Int) (list Int))
adjacent = (drSwitch (arr (mul x 10)) (>>> (arr (add x (p 0))) (iPre (p 0))))
chosen = (rpSwitchB (col integral (iPre 7)) (pair x (list Int 5)) (--> (p 0) integral))
opened = (kSwitch (--> 7 (>-- 100 integral)) \
    (arr (if (less 8 (fst x)) (event (fst x)) (none Int))) \
    (--> (p 0) (>>> (old 0) (--> 55 (arr x)))))
collection at seven = (kSwitch (rpSwitchB (col integral) (pair (list Int 0) (list Int x)) (iPre (p 0))) \
    (arr (if (equal (fst (fst x)) 7) (event unit) (none Unit))) (old 0))
restarted twice = (kSwitch (drSwitch time (>>> integral (arr (add x (mul 1000 (p 0)))))) \
    (arr (if (equal (fst (fst x)) 7) (event unit) (none Unit))) \
    (>>> (parB (old 0) (old 0)) (arr (add (nth x 0 0) (mul 1000000 (nth x 1 0))))))
new forms = (parB (--> 7 time) (>-- 9 (iPre 0)) \
    (>>> (arr (pair x (event x))) (drSwitch (iPre 0) (iPre (p 0)))) \
    (>>> (arr (pair x (if (less 9 x) (event x) (none Int)))) \
    (>>> (rpSwitchB (col integral (arr (neg x))) (pair (list Int 1 x 0) (list Int x)) \
    (iPre (p 0))) (arr (nth x 1 0)))))
";
