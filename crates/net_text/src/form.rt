// The forms of networks, by the word that each begins with, and the words that are networks.

ghost use Rattle.std.specs.Prelude.{◌≡◌, ◌≤◌, ◌^◌, IfOk, option_map};
ghost use Rattle.leaf_core.specs.ExpressionView.{expression_of};
ghost use Rattle.leaf_expr.specs.ReadText.{fit};
ghost use Rattle.net_tree.specs.{Network.map_network, NetworkView.tree_of};
ghost use Rattle.net_text.specs.Form.{net_form_production, version_of, net_word_of};
ghost use Rattle.leaf_expr.specs.Language.{production_among};
ghost use Rattle.net_text.specs.Grammar.{cell_productions, pair_productions, other_net_productions, new_productions, second_productions, net_production_at, net_word_at, network_sort};

use crate::sugar::{Made, accum_hold_by, beside, constant, edge, fan_out, second};
use crate::text::Version;
use leaf_expr::Expr;
use net_tree::{FedForm, MOST_DELAY, MOST_WAIT, Net, NetChild};
use sample_core::word_is;
use std::alloc::Global;

/// A word that is a network by itself. `Identity` and `Edge` are sugar.
#[derive(Clone, Copy)]
pub(crate) enum NetWord {
    Time,
    Integral,
    Identity,
    Edge,
}

/// A form of one expression. `Constant` and `Now` are sugar.
#[derive(Clone, Copy)]
pub(crate) enum NetLeafForm {
    Arr,
    IPre,
    Hold,
    Constant,
    Now,
}

/// A form of a length of time and an expression.
#[derive(Clone, Copy)]
pub(crate) enum Timer {
    Delay,
    After,
    Repeatedly,
}

/// A form of two expressions. `AccumHoldBy` is sugar.
#[derive(Clone, Copy)]
pub(crate) enum Accumulator {
    AccumBy,
    AccumHoldBy,
}

/// A form of one network. `Second` is sugar.
#[derive(Clone, Copy)]
pub(crate) enum NetUnary {
    First,
    Second,
}

/// A form of two networks. `Beside`, which is `***`, and `FanOut`, which is `&&&`, are sugar.
#[derive(Clone, Copy)]
pub(crate) enum NetBinary {
    Seq,
    Switch,
    DSwitch,
    RSwitch,
    DrSwitch,
    Beside,
    FanOut,
}

/// A form of networks, by the parts that it takes. `Never` is sugar.
#[derive(Clone, Copy)]
pub(crate) enum NetForm {
    Leaf(NetLeafForm),
    Timer(Timer),
    Accumulator(Accumulator),
    Unary(NetUnary),
    Binary(NetBinary),
    Fed(FedForm),
    /// Any number of networks.
    Par,
    /// Three networks.
    KSwitch,
    /// An expression, members, and two networks.
    PSwitch,
    /// Members, an expression, and a network.
    RpSwitch,
    /// The number of a frozen network.
    Old,
    /// A type.
    Never,
}

impl NetWord {
    /// The network that the word is.
    pub(crate) fn of(self, alloc: Global) -> Made
        ensures { IfOk result (λ net. tree_of net ≡ net_word_of self) }
    {
        match self {
            NetWord::Time => Ok(Net::Time),
            NetWord::Integral => Ok(Net::Integral),
            NetWord::Identity => Ok(Net::Arr(Expr::Input)),
            NetWord::Edge => edge(alloc),
        }
    }
}

impl NetLeafForm {
    ghost use Rattle.net_text.specs.Form.{net_leaf_form_of};

    /// The form with that expression.
    pub(crate) fn of(self, alloc: Global, e: Expr) -> Made
        ensures { IfOk result (λ net. tree_of net ≡ net_leaf_form_of self (expression_of e)) }
    {
        match self {
            NetLeafForm::Arr => Ok(Net::Arr(e)),
            NetLeafForm::IPre => Ok(Net::IPre(e)),
            NetLeafForm::Hold => Ok(Net::Hold(e)),
            NetLeafForm::Constant => constant(alloc, e),
            NetLeafForm::Now => Ok(Net::After(0, e)),
        }
    }
}

impl Timer {
    ghost use Rattle.net_text.specs.Form.{timer_of, timer_form_of};
    ghost use Rattle.net_text.specs.Grammar.{least, greatest_time};

    /// The least time that the form takes.
    pub(crate) fn least(self) -> u64
        ensures { result ≡ least (timer_of self) }
    {
        match self {
            Timer::Delay => 1,
            Timer::After => 0,
            Timer::Repeatedly => 1,
        }
    }

    /// The greatest time that the form takes.
    pub(crate) fn greatest(self) -> u64
        ensures number { result ≡ greatest_time (timer_of self) }
        ensures low { result ≤ 2 ^ 62 }
    {
        match self {
            Timer::Delay => MOST_DELAY,
            Timer::After => MOST_WAIT,
            Timer::Repeatedly => MOST_WAIT,
        }
    }

    /// The form with that time and expression.
    pub(crate) fn of(self, q: u64, c: Expr) -> Net<Expr>
        ensures { tree_of result ≡ timer_form_of self q (expression_of c) }
    {
        match self {
            Timer::Delay => Net::Delay(q, c),
            Timer::After => Net::After(q, c),
            Timer::Repeatedly => Net::Repeatedly(q, c),
        }
    }
}

impl Accumulator {
    ghost use Rattle.net_text.specs.Form.{accumulator_form_of};

    /// The form with those expressions.
    pub(crate) fn of(self, alloc: Global, g: Expr, z: Expr) -> Made
        ensures { IfOk result
            (λ net. tree_of net ≡ accumulator_form_of self (expression_of g) (expression_of z)) }
    {
        match self {
            Accumulator::AccumBy => Ok(Net::AccumBy(g, z)),
            Accumulator::AccumHoldBy => accum_hold_by(alloc, g, z),
        }
    }
}

impl NetUnary {
    ghost use Rattle.net_text.specs.Form.{net_unary_of};

    /// The form with that network.
    pub(crate) fn of(self, alloc: Global, f: NetChild<Expr>) -> Made
        ensures { IfOk result
            (λ net. tree_of net ≡ net_unary_of self (map_network expression_of f)) }
    {
        match self {
            NetUnary::First => Ok(Net::First(f)),
            NetUnary::Second => second(alloc, f),
        }
    }
}

impl NetBinary {
    ghost use Rattle.net_text.specs.Form.{net_binary_of};

    /// The form with those networks.
    pub(crate) fn of(self, alloc: Global, f: NetChild<Expr>, g: NetChild<Expr>) -> Made
        ensures { IfOk result
            (λ net. tree_of net
            ≡ net_binary_of self (map_network expression_of f) (map_network expression_of g)) }
    {
        match self {
            NetBinary::Seq => Ok(Net::Seq(f, g)),
            NetBinary::Switch => Ok(Net::Switch(f, g)),
            NetBinary::DSwitch => Ok(Net::DSwitch(f, g)),
            NetBinary::RSwitch => Ok(Net::RSwitch(f, g)),
            NetBinary::DrSwitch => Ok(Net::DrSwitch(f, g)),
            NetBinary::Beside => beside(alloc, f, g),
            NetBinary::FanOut => fan_out(alloc, f, g),
        }
    }
}

/// The form without networks that the word begins.
fn cell_named(word: &[u8]) -> Option<NetForm>
    ensures { option_map net_form_production result ≡ production_among word.now cell_productions }
{
    if word_is(word, "arr") {
        Some(NetForm::Leaf(NetLeafForm::Arr))
    } else if word_is(word, "iPre") {
        Some(NetForm::Leaf(NetLeafForm::IPre))
    } else if word_is(word, "hold") {
        Some(NetForm::Leaf(NetLeafForm::Hold))
    } else if word_is(word, "delay") {
        Some(NetForm::Timer(Timer::Delay))
    } else if word_is(word, "after") {
        Some(NetForm::Timer(Timer::After))
    } else if word_is(word, "repeatedly") {
        Some(NetForm::Timer(Timer::Repeatedly))
    } else if word_is(word, "accumBy") {
        Some(NetForm::Accumulator(Accumulator::AccumBy))
    } else if word_is(word, "constant") {
        Some(NetForm::Leaf(NetLeafForm::Constant))
    } else if word_is(word, "now") {
        Some(NetForm::Leaf(NetLeafForm::Now))
    } else if word_is(word, "accumHoldBy") {
        Some(NetForm::Accumulator(Accumulator::AccumHoldBy))
    } else {
        None
    }
}

/// The form of one or two networks that the word begins.
fn pair_named(word: &[u8]) -> Option<NetForm>
    ensures { option_map net_form_production result ≡ production_among word.now pair_productions }
{
    if word_is(word, "first") {
        Some(NetForm::Unary(NetUnary::First))
    } else if word_is(word, ">>>") {
        Some(NetForm::Binary(NetBinary::Seq))
    } else if word_is(word, "switch") {
        Some(NetForm::Binary(NetBinary::Switch))
    } else if word_is(word, "dSwitch") {
        Some(NetForm::Binary(NetBinary::DSwitch))
    } else if word_is(word, "rSwitch") {
        Some(NetForm::Binary(NetBinary::RSwitch))
    } else if word_is(word, "second") {
        Some(NetForm::Unary(NetUnary::Second))
    } else if word_is(word, "***") {
        Some(NetForm::Binary(NetBinary::Beside))
    } else if word_is(word, "&&&") {
        Some(NetForm::Binary(NetBinary::FanOut))
    } else {
        None
    }
}

/// The form of other parts that the word begins.
fn other_named(word: &[u8]) -> Option<NetForm>
    ensures { option_map net_form_production result
        ≡ production_among word.now other_net_productions }
{
    if word_is(word, "loopPre") {
        Some(NetForm::Fed(FedForm::LoopPre))
    } else if word_is(word, "parB") {
        Some(NetForm::Par)
    } else if word_is(word, "kSwitch") {
        Some(NetForm::KSwitch)
    } else if word_is(word, "pSwitch") {
        Some(NetForm::PSwitch)
    } else if word_is(word, "old") {
        Some(NetForm::Old)
    } else if word_is(word, "never") {
        Some(NetForm::Never)
    } else {
        None
    }
}

/// The form of the second version alone that the word begins.
fn new_named(word: &[u8]) -> Option<NetForm>
    ensures { option_map net_form_production result ≡ production_among word.now second_productions }
{
    if word_is(word, "-->") {
        Some(NetForm::Fed(FedForm::InitialOut))
    } else if word_is(word, ">--") {
        Some(NetForm::Fed(FedForm::InitialIn))
    } else if word_is(word, "drSwitch") {
        Some(NetForm::Binary(NetBinary::DrSwitch))
    } else if word_is(word, "rpSwitchB") {
        Some(NetForm::RpSwitch)
    } else {
        None
    }
}

/// The form that the word begins in that version, and not in the first.
fn added_named(word: &[u8], version: Version) -> Option<NetForm>
    ensures { option_map net_form_production result
        ≡ production_among word.now (new_productions (version_of version)) }
{
    match version {
        Version::One => None,
        Version::Two | Version::Three | Version::Four => new_named(word),
    }
}

/// The form of networks that the word begins in that version.
pub(crate) fn form_named(word: &[u8], version: Version) -> Option<NetForm>
    ensures { option_map net_form_production result
        ≡ net_production_at (version_of version) network_sort word.now }
{
    if let Some(form) = cell_named(word) {
        Some(form)
    } else if let Some(form) = pair_named(word) {
        Some(form)
    } else if let Some(form) = other_named(word) {
        Some(form)
    } else {
        added_named(word, version)
    }
}

/// The network that the word is.
#[tactic(auto, unfolding(crate::specs::Grammar::net_word_at, crate::specs::Grammar::net_words))]
pub(crate) fn network_named(word: &[u8]) -> Option<NetWord>
    ensures { net_word_at network_sort word.now ≡ fit (option_map net_word_of result) }
{
    if word_is(word, "time") {
        Some(NetWord::Time)
    } else if word_is(word, "integral") {
        Some(NetWord::Integral)
    } else if word_is(word, "identity") {
        Some(NetWord::Identity)
    } else if word_is(word, "edge") {
        Some(NetWord::Edge)
    } else {
        None
    }
}
