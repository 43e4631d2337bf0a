// The laws as a table.

ghost use Rattle.std.specs.Prelude.{◌≡◌, [], get_or, map};
ghost use Rattle.law_rules.specs.Table.{left_at, right_at, rule_at};

use NetSym::{
    AccumBy, After, Arr, DSwitch, Delay, DrSwitch, First, Hold, IPre, InitialIn, InitialOut,
    Integral, KSwitch, Leaf, LoopPre, Now, RSwitch, Repeatedly, Seq, Switch, Time,
};
use Rule::{
    BeforeMembers, ElementsApart, MembersApart, Nothing, OneMember, Resumed, Sides, Unchanging,
    WithoutInput,
};
use law_patterns::{LawLine, Letter, NetLetter, NetSym, Sym};
use net_tree::LAST_NETWORK_LAW;

/// What a law is.
#[derive(Clone, Copy)]
pub enum Rule {
    /// No law.
    Nothing,
    /// A left and a right side.
    Sides,
    /// Behind any network, what goes by the steps alone is itself.
    WithoutInput,
    /// A network that is frozen and at once resumed goes on.
    Resumed,
    /// Members that no event ends are a `parB`, each behind its route.
    MembersApart,
    /// Of the list of what the members output, an element is what its member outputs.
    OneMember,
    /// What goes before a `parB` goes before each of its members.
    BeforeMembers,
    /// A list expression is the `parB` of its elements.
    ElementsApart,
    /// Where no event comes, an `rpSwitchB` is the `parB` of the members that it begins with.
    Unchanging,
}

/// `f`, `g` and `h`, networks.
const NET_F: NetSym = NetSym::Letter(NetLetter::F);

const NET_G: NetSym = NetSym::Letter(NetLetter::G);

const NET_H: NetSym = NetSym::Letter(NetLetter::H);
/// `f`, `g` and `h`, expressions.
const F: NetSym = Leaf(Sym::Letter(Letter::F));

const G: NetSym = Leaf(Sym::Letter(Letter::G));

const H: NetSym = Leaf(Sym::Letter(Letter::H));
/// What expressions are written in.
const X: NetSym = Leaf(Sym::Input);

const UNIT: NetSym = Leaf(Sym::Unit);

const ONE: NetSym = Leaf(Sym::Number(1));

const NONE: NetSym = Leaf(Sym::NoEvent);

const FST: NetSym = Leaf(Sym::Fst);

const SND: NetSym = Leaf(Sym::Snd);

const EVENT: NetSym = Leaf(Sym::Event);

const PAIR: NetSym = Leaf(Sym::Pair);

const THEN: NetSym = Leaf(Sym::Then);

const ON: NetSym = Leaf(Sym::On);

/// The laws by number, from 0. In each side a form is written before its expressions, and these
/// before its networks.
pub const LAWS: [LawLine<Rule, NetSym>; LAST_NETWORK_LAW as usize + 1] = [
    (Nothing, &[], &[]),
    (Sides, &[Seq, Arr, X, NET_F], &[NET_F]),
    (Sides, &[Seq, NET_F, Arr, X], &[NET_F]),
    (
        Sides,
        &[Seq, Seq, NET_F, NET_G, NET_H],
        &[Seq, NET_F, Seq, NET_G, NET_H],
    ),
    (Sides, &[Seq, Arr, F, Arr, G], &[Arr, THEN, F, G]),
    (
        Sides,
        &[First, Arr, H],
        &[Arr, PAIR, THEN, FST, X, H, SND, X],
    ),
    (
        Sides,
        &[First, Seq, NET_F, NET_G],
        &[Seq, First, NET_F, First, NET_G],
    ),
    (
        Sides,
        &[Seq, First, NET_F, Arr, PAIR, FST, X, THEN, SND, X, G],
        &[Seq, Arr, PAIR, FST, X, THEN, SND, X, G, First, NET_F],
    ),
    (
        Sides,
        &[Seq, First, NET_F, Arr, FST, X],
        &[Seq, Arr, FST, X, NET_F],
    ),
    (
        Sides,
        &[
            Seq, First, First, NET_F, Arr, PAIR, FST, FST, X, PAIR, SND, FST, X, SND, X,
        ],
        &[
            Seq, Arr, PAIR, FST, FST, X, PAIR, SND, FST, X, SND, X, First, NET_F,
        ],
    ),
    // 10
    (
        Sides,
        &[Seq, Arr, F, Seq, Arr, G, NET_H],
        &[Seq, Arr, THEN, F, G, NET_H],
    ),
    (
        Sides,
        &[Seq, IPre, F, Arr, G],
        &[Seq, Arr, G, IPre, THEN, F, G],
    ),
    (
        Sides,
        &[IPre, PAIR, F, G],
        &[
            Seq, First, IPre, F, Seq, Arr, PAIR, SND, X, FST, X, Seq, First, IPre, G, Arr, PAIR,
            SND, X, FST, X,
        ],
    ),
    (
        Sides,
        &[Seq, NET_H, LoopPre, F, NET_F],
        &[LoopPre, F, Seq, First, NET_H, NET_F],
    ),
    (
        Sides,
        &[Seq, LoopPre, F, NET_F, NET_H],
        &[LoopPre, F, Seq, NET_F, First, NET_H],
    ),
    (
        Sides,
        &[LoopPre, F, Seq, Arr, PAIR, FST, X, THEN, SND, X, G, NET_F],
        &[
            LoopPre, THEN, F, G, Seq, NET_F, Arr, PAIR, FST, X, THEN, SND, X, G,
        ],
    ),
    (
        Sides,
        &[LoopPre, F, LoopPre, G, NET_F],
        &[
            LoopPre, PAIR, F, G, Seq, Arr, PAIR, PAIR, FST, X, FST, SND, X, SND, SND, X, Seq,
            NET_F, Arr, PAIR, FST, FST, X, PAIR, SND, FST, X, SND, X,
        ],
    ),
    (Sides, &[LoopPre, F, First, NET_F], &[NET_F]),
    (Sides, &[Seq, Arr, EVENT, F, Hold, G], &[Arr, F]),
    (Sides, &[Seq, Arr, NONE, Hold, F], &[Arr, THEN, UNIT, F]),
    // 20
    (WithoutInput, &[], &[]),
    (
        Sides,
        &[Seq, After, F, Arr, ON, X, NONE, EVENT, THEN, SND, X, G],
        &[After, THEN, F, G],
    ),
    (
        Sides,
        &[Seq, Repeatedly, F, Arr, ON, X, NONE, EVENT, THEN, SND, X, G],
        &[Repeatedly, THEN, F, G],
    ),
    (
        Sides,
        &[
            Seq, Arr, ON, X, NONE, EVENT, THEN, SND, X, G, Hold, THEN, F, G,
        ],
        &[Seq, Hold, F, Arr, G],
    ),
    (
        Sides,
        &[Seq, Arr, ON, X, NONE, EVENT, THEN, SND, X, G, AccumBy, F, H],
        &[AccumBy, THEN, PAIR, FST, X, THEN, SND, X, G, F, H],
    ),
    (
        Sides,
        &[Seq, NET_F, Arr, THEN, UNIT, F],
        &[Arr, THEN, UNIT, F],
    ),
    (
        Sides,
        &[Seq, Delay, F, Arr, G],
        &[Seq, Arr, G, Delay, THEN, F, G],
    ),
    (
        Sides,
        &[Seq, Arr, H, Switch, NET_F, NET_G],
        &[Switch, Seq, Arr, H, NET_F, Seq, Arr, H, NET_G],
    ),
    (
        Sides,
        &[Seq, Arr, H, DSwitch, NET_F, NET_G],
        &[DSwitch, Seq, Arr, H, NET_F, Seq, Arr, H, NET_G],
    ),
    (
        Sides,
        &[Seq, Switch, NET_F, NET_G, Arr, H],
        &[
            Switch, Seq, NET_F, Arr, PAIR, THEN, FST, X, H, SND, X, Seq, NET_G, Arr, H,
        ],
    ),
    // 30
    (
        Sides,
        &[Seq, DSwitch, NET_F, NET_G, Arr, H],
        &[
            DSwitch, Seq, NET_F, Arr, PAIR, THEN, FST, X, H, SND, X, Seq, NET_G, Arr, H,
        ],
    ),
    (
        Sides,
        &[Switch, Seq, NET_F, Arr, PAIR, X, NONE, NET_G],
        &[NET_F],
    ),
    (
        Sides,
        &[DSwitch, Seq, NET_F, Arr, PAIR, X, NONE, NET_G],
        &[NET_F],
    ),
    (
        Sides,
        &[First, Switch, NET_F, NET_G],
        &[
            Switch, Seq, First, NET_F, Arr, PAIR, PAIR, FST, FST, X, SND, X, SND, FST, X, First,
            NET_G,
        ],
    ),
    (
        Sides,
        &[First, DSwitch, NET_F, NET_G],
        &[
            DSwitch, Seq, First, NET_F, Arr, PAIR, PAIR, FST, FST, X, SND, X, SND, FST, X, First,
            NET_G,
        ],
    ),
    (
        Sides,
        &[Seq, Arr, PAIR, F, NONE, RSwitch, NET_F, NET_G],
        &[Seq, Arr, F, NET_F],
    ),
    (
        Sides,
        &[Seq, RSwitch, NET_F, NET_G, Arr, H],
        &[RSwitch, Seq, NET_F, Arr, H, Seq, NET_G, Arr, H],
    ),
    (Sides, &[KSwitch, NET_F, Arr, NONE, NET_G], &[NET_F]),
    (Resumed, &[], &[]),
    (MembersApart, &[], &[]),
    // 40
    (OneMember, &[], &[]),
    (BeforeMembers, &[], &[]),
    (ElementsApart, &[], &[]),
    (
        Sides,
        &[InitialOut, F, InitialOut, G, NET_F],
        &[InitialOut, F, NET_F],
    ),
    (
        Sides,
        &[InitialIn, F, Arr, G],
        &[InitialOut, THEN, F, G, Arr, G],
    ),
    (
        Sides,
        &[Seq, DrSwitch, NET_F, NET_G, Arr, H],
        &[DrSwitch, Seq, NET_F, Arr, H, Seq, NET_G, Arr, H],
    ),
    (Unchanging, &[], &[]),
    (
        Sides,
        &[First, LoopPre, F, NET_F],
        &[
            LoopPre, F, Seq, Arr, PAIR, PAIR, FST, FST, X, SND, X, SND, FST, X, Seq, First, NET_F,
            Arr, PAIR, PAIR, FST, FST, X, SND, X, SND, FST, X,
        ],
    ),
    (
        Sides,
        &[
            Seq, First, NET_F, Seq, Arr, PAIR, SND, X, FST, X, Seq, First, NET_G, Arr, PAIR, SND,
            X, FST, X,
        ],
        &[
            Seq, Seq, Arr, PAIR, SND, X, FST, X, Seq, First, NET_G, Arr, PAIR, SND, X, FST, X,
            First, NET_F,
        ],
    ),
    (Sides, &[IPre, F], &[LoopPre, F, Arr, PAIR, SND, X, FST, X]),
    // 50
    (
        Sides,
        &[Hold, F],
        &[
            LoopPre, F, Arr, ON, FST, X, PAIR, SND, X, SND, X, PAIR, SND, X, SND, X,
        ],
    ),
    (
        Sides,
        &[
            LoopPre, F, Arr, ON, FST, X, PAIR, NONE, SND, X, THEN, PAIR, SND, FST, X, SND, X, THEN,
            G, PAIR, EVENT, X, X,
        ],
        &[AccumBy, G, F],
    ),
    (
        Sides,
        &[Seq, NET_F, Arr, PAIR, X, X],
        &[
            Seq, Arr, PAIR, X, X, Seq, First, NET_F, Seq, Arr, PAIR, SND, X, FST, X, Seq, First,
            NET_F, Arr, PAIR, SND, X, FST, X,
        ],
    ),
    (
        Sides,
        &[Seq, AccumBy, G, F, Hold, F],
        &[
            LoopPre, F, Arr, ON, FST, X, PAIR, SND, X, SND, X, THEN, PAIR, SND, FST, X, SND, X,
            THEN, G, PAIR, X, X,
        ],
    ),
    (
        Sides,
        &[Seq, Arr, PAIR, F, NONE, DrSwitch, NET_F, NET_G],
        &[Seq, Arr, F, NET_F],
    ),
    (
        Sides,
        &[Delay, PAIR, F, G],
        &[
            Seq, First, Delay, F, Seq, Arr, PAIR, SND, X, FST, X, Seq, First, Delay, G, Arr, PAIR,
            SND, X, FST, X,
        ],
    ),
    (
        Sides,
        &[
            Seq, Arr, PAIR, THEN, FST, X, H, SND, X, RSwitch, NET_F, NET_G,
        ],
        &[RSwitch, Seq, Arr, H, NET_F, Seq, Arr, H, NET_G],
    ),
    (
        Sides,
        &[
            Seq, Arr, PAIR, THEN, FST, X, H, SND, X, DrSwitch, NET_F, NET_G,
        ],
        &[DrSwitch, Seq, Arr, H, NET_F, Seq, Arr, H, NET_G],
    ),
    (
        Sides,
        &[InitialOut, F, Seq, NET_F, NET_G],
        &[Seq, NET_F, InitialOut, F, NET_G],
    ),
    (
        Sides,
        &[InitialIn, F, Seq, NET_F, NET_G],
        &[Seq, InitialIn, F, NET_F, NET_G],
    ),
    // 60
    (
        Sides,
        &[Seq, InitialOut, F, NET_F, NET_G],
        &[Seq, NET_F, InitialIn, F, NET_G],
    ),
    (Sides, &[InitialOut, F, IPre, G], &[IPre, F]),
    (Sides, &[InitialOut, EVENT, F, Arr, NONE], &[Now, F]),
    (Sides, &[Seq, Arr, THEN, UNIT, ONE, Integral], &[Time]),
    (Sides, &[Switch, Arr, PAIR, F, G, Arr, F], &[Arr, F]),
    (Sides, &[DSwitch, Arr, PAIR, F, G, Arr, F], &[Arr, F]),
];

/// The law of this number.
pub(crate) fn law_rule(number: u8) -> LawLine<Rule, NetSym>
    ensures rule { result.0 ≡ rule_at number }
    ensures left { result.1.now ≡ left_at number }
    ensures right { result.2.now ≡ right_at number }
{
    line_at(&LAWS, number)
}

/// The law of a number, in a table from 0; no law outside.
fn line_at(laws: &'static [LawLine<Rule, NetSym>], number: u8) -> LawLine<Rule, NetSym>
    ensures rule { result.0 ≡ get_or (map (λ law. law.0) laws.now) number Rule.Nothing }
    ensures left { result.1.now ≡ get_or (map (λ law. law.1.now) laws.now) number [] }
    ensures right { result.2.now ≡ get_or (map (λ law. law.2.now) laws.now) number [] }
{
    match laws.get(usize::from(number)) {
        Some(law) => *law,
        None => (Nothing, &[], &[]),
    }
}
