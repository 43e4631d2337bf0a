// What patterns of networks are written in.

use crate::sym::Sym;

/// A letter that stands for a network, the same one at each place.
#[derive(Clone, Copy)]
pub enum NetLetter {
    /// `f`.
    F,
    /// `g`.
    G,
    /// `h`.
    H,
}

/// A symbol of a pattern of networks, which is written with each form before its expressions, and
/// these before its networks. `q` is a letter: any number, the same one at each place.
#[derive(Clone, Copy)]
pub enum NetSym {
    /// A letter.
    Letter(NetLetter),
    /// A symbol of an expression.
    Leaf(Sym),
    /// `(arr e)`.
    Arr,
    /// `(iPre c)`.
    IPre,
    /// `(hold c)`.
    Hold,
    /// `(delay q c)`.
    Delay,
    /// `(after q c)`.
    After,
    /// `(after 0 c)`.
    Now,
    /// `(repeatedly q c)`.
    Repeatedly,
    /// `time`.
    Time,
    /// `integral`.
    Integral,
    /// `(accumBy g z)`.
    AccumBy,
    /// `(loopPre c f)`.
    LoopPre,
    /// `(--> c f)`.
    InitialOut,
    /// `(>-- c f)`.
    InitialIn,
    /// `(first f)`.
    First,
    /// `(>>> f g)`.
    Seq,
    /// `(switch f t)`.
    Switch,
    /// `(dSwitch f t)`.
    DSwitch,
    /// `(rSwitch f t)`.
    RSwitch,
    /// `(drSwitch f t)`.
    DrSwitch,
    /// `(kSwitch f e t)`.
    KSwitch,
}
