// What the functions of a network's code are made of.

use cell_core::Form;
use leaf_core::Expr;

/// A part of what a function keeps. A switch has its own network in `Front` and what takes over in
/// `Taker`; one that freezes has what it watches and the watcher there.
#[derive(Clone, Copy)]
pub enum Part {
    Whole,
    One,
    Other,
    Looped,
    Front,
    Taker,
    Watched,
    Watcher,
    Resumer,
}

/// The moment at which a function is called: that of the sample, or the start.
#[derive(Clone, Copy)]
pub enum When {
    Now,
    Start,
}

/// What a called function has in scope.
#[derive(Clone, Copy)]
pub enum Scope {
    /// What the caller has.
    Same,
    /// Also the value by which it has taken over.
    Value,
    /// Also that value, and the network that was frozen.
    Frozen,
    /// Also that value, and so many members that were frozen.
    Members(usize),
    /// The first so many parameters and frozen networks.
    First(usize, usize),
}

/// A value of a register's, or what a called function answers.
#[derive(Drop)]
pub enum Action {
    /// Register k.
    Register(usize),
    /// The expression at register k.
    Leaf(Expr, usize),
    /// The value of an expression that looks at no input.
    Constant(Expr),
    /// The left part of register k.
    Left(usize),
    /// The right part of register k.
    Right(usize),
    /// The event on the right of register k, which is a pair.
    Beside(usize),
    /// The pair of registers j and k.
    Pair(usize, usize),
    /// Register j at the first sample, and else k.
    FirstOr(usize, usize),
    /// Register j at the first sample, and else what was fed back.
    FedOr(usize),
    /// Function j, on a part, at register k.
    Call(usize, Scope, Part, When, usize),
    /// Function g by the value, where that has taken over, and else f, at register k.
    GoesOn(usize, usize, usize),
    /// The members on a part, each at register k.
    Each(Part, usize),
    /// The members on a part, each at the expression's value at register k and its number.
    Routed(Expr, Part, usize),
    /// A cell that starts with register j, at register k.
    Cell(Form, usize, usize),
    /// An `accumBy` by the expression, which starts with register j, at register k.
    Accumulate(Expr, usize, usize),
    /// A collection of the members and of function j by a value; the expression chooses, at
    /// register k.
    Collect(Expr, usize, usize),
}

/// When a function answers.
#[derive(Clone, Copy)]
pub enum Guard {
    Always,
    /// Unless register k is an event.
    NoEvent(usize),
    /// Where something has taken over.
    Taken,
}

/// What is kept.
#[derive(Clone, Copy)]
pub enum Effect {
    /// At the first sample nothing has taken over.
    Clear,
    /// The value of the event in register k takes over.
    Take(usize),
    /// Register k is fed back next.
    Feed(usize),
    /// What is watched is frozen as it is, with the moment.
    Freeze,
    /// At the first sample the frozen network k is copied, and its moment taken.
    Resume(usize),
    /// Function j is the next member.
    Member(usize),
}

/// A statement of a function.
#[derive(Drop)]
pub enum Statement {
    /// The next register has the action's value.
    Set(Action),
    /// The function answers the action's value, where the guard holds.
    Exit(Guard, Action),
    /// The effect happens.
    Do(Effect),
}

/// A function of the code: one of a network's nodes. f, g, e, t are the numbers of the functions that
/// it calls, which are earlier ones.
#[derive(Drop)]
pub enum Function {
    /// `arr`.
    Arr(Expr),
    /// `>>>` of f and g.
    Seq(usize, usize),
    /// `first`.
    First(usize),
    /// `parB`.
    Par(Vec<usize>),
    /// `loopPre` of the constant and f.
    Loop(Expr, usize),
    /// A cell with a constant.
    Cell(Form, Expr),
    /// A cell without one.
    Clock(Form),
    /// `accumBy` of the step and the constant.
    Accum(Expr, Expr),
    /// `switch` of f and t.
    Switch(usize, usize),
    /// `dSwitch` of f and t.
    DSwitch(usize, usize),
    /// `rSwitch` of f and t.
    RSwitch(usize, usize),
    /// `drSwitch` of f and t.
    DrSwitch(usize, usize),
    /// `kSwitch` of f, e and t.
    KSwitch(usize, usize, usize),
    /// `pSwitch` of the route, the members, e and t.
    PSwitch(Expr, Vec<usize>, usize, usize),
    /// `old`: the frozen network of this number, its function, and how many parameters and frozen
    /// networks that has in scope.
    Old(usize, usize, usize, usize),
    /// `old` of a frozen network that is not there.
    Same,
    /// `-->` of the constant and f.
    InitialOut(Expr, usize),
    /// `>--` of the constant and f.
    InitialIn(Expr, usize),
    /// `rpSwitchB` of the members, the choice and t.
    Collection(Vec<usize>, Expr, usize),
}
