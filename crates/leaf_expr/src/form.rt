// The forms of types and expressions, by the word that each begins with.

ghost use Rattle.std.specs.Prelude.{◌≡◌, IfOk, option_map};
ghost use Rattle.leaf_core.specs.Expression.{input, fst, snd, then_expr, pair_expr, event_expr, on};
ghost use Rattle.leaf_core.specs.ExpressionView.{expression_of};
ghost use Rattle.leaf_expr.specs.Form.{form_production, unary_production, binary_production, ternary_production, typed_production, type_production};
ghost use Rattle.leaf_expr.specs.Language.{production_among};
ghost use Rattle.leaf_expr.specs.Grammar.{type_sort, expression_sort, production_at, other_productions, unary_productions, binary_productions, ternary_productions, typed_productions};

use leaf_core::{Expr, ExprChild};
use sample_core::{Memory, word_is};
use std::alloc::Global;

/// A form of types.
#[derive(Clone, Copy)]
pub(crate) enum TypeForm {
    Pair,
    Event,
    List,
}

impl Unary {
    ghost use Rattle.leaf_expr.specs.Form.{unary_of};

    /// The form with that expression.
    pub(crate) fn of(self, a: ExprChild) -> Expr
        ensures { expression_of result ≡ unary_of self a }
    {
        match self {
            Unary::Fst => Expr::Fst(a),
            Unary::Snd => Expr::Snd(a),
            Unary::Neg => Expr::Neg(a),
            Unary::Not => Expr::Not(a),
            Unary::Event => Expr::Event(a),
            Unary::Len => Expr::Len(a),
        }
    }
}

impl Binary {
    ghost use Rattle.leaf_expr.specs.Form.{binary_of};

    /// The form with those expressions; `(lMerge a b)` is `(on a b (event (snd x)))`.
    pub(crate) fn of(self, alloc: Global, a: ExprChild, b: ExprChild) -> Result<Expr, Memory>
        ensures { IfOk result (λ e. expression_of e ≡ binary_of self a b) }
    {
        match self {
            Binary::Pair => Ok(Expr::Pair(a, b)),
            Binary::Then => Ok(Expr::Then(a, b)),
            Binary::Add => Ok(Expr::Add(a, b)),
            Binary::Sub => Ok(Expr::Sub(a, b)),
            Binary::Mul => Ok(Expr::Mul(a, b)),
            Binary::Less => Ok(Expr::Less(a, b)),
            Binary::Equal => Ok(Expr::Equal(a, b)),
            Binary::And => Ok(Expr::And(a, b)),
            Binary::Or => Ok(Expr::Or(a, b)),
            Binary::Merge => merged(alloc, a, b),
        }
    }
}

impl Ternary {
    ghost use Rattle.leaf_expr.specs.Form.{ternary_of};

    /// The form with those expressions.
    pub(crate) fn of(self, a: ExprChild, b: ExprChild, c: ExprChild) -> Expr
        ensures { expression_of result ≡ ternary_of self a b c }
    {
        match self {
            Ternary::If => Expr::If(a, b, c),
            Ternary::On => Expr::On(a, b, c),
            Ternary::Nth => Expr::Nth(a, b, c),
        }
    }
}

/// `(snd x)`: the event's value, where the input is a pair of a sample and it.
fn event_value(alloc: Global) -> Result<ExprChild, Memory>
    ensures { IfOk result (λ e. e ≡ snd input) }
{
    let input = ExprChild::new(alloc, Expr::Input)?;
    ExprChild::new(alloc, Expr::Snd(input))
}

/// `(then (fst x) c)`: c at the sample, where the input is a pair of it and an event's value.
fn at_sample(alloc: Global, c: ExprChild) -> Result<ExprChild, Memory>
    ensures { IfOk result (λ e. e ≡ then_expr (fst input) c) }
{
    let input = ExprChild::new(alloc, Expr::Input)?;
    let left = ExprChild::new(alloc, Expr::Fst(input))?;
    ExprChild::new(alloc, Expr::Then(left, c))
}

/// An event of that value where `a` has one, and else what is given.
fn mapped(alloc: Global, a: ExprChild, other: ExprChild, value: ExprChild) -> Result<Expr, Memory>
    ensures { IfOk result (λ e. expression_of e ≡ on a other (event_expr value)) }
{
    let event = ExprChild::new(alloc, Expr::Event(value))?;
    Ok(Expr::On(a, other, event))
}

/// `(on a b (event (snd x)))`.
fn merged(alloc: Global, a: ExprChild, b: ExprChild) -> Result<Expr, Memory>
    ensures { IfOk result (λ e. expression_of e ≡ on a b (event_expr (snd input))) }
{
    let value = event_value(alloc)?;
    mapped(alloc, a, b, value)
}

/// `(pair (snd x) (then (fst x) c))`: the event's value, and c at the sample.
fn value_and(alloc: Global, c: ExprChild) -> Result<ExprChild, Memory>
    ensures { IfOk result (λ e. e ≡ pair_expr (snd input) (then_expr (fst input) c)) }
{
    let right = at_sample(alloc, c)?;
    let left = event_value(alloc)?;
    ExprChild::new(alloc, Expr::Pair(left, right))
}

impl Typed {
    ghost use Rattle.leaf_expr.specs.Form.{typed_by};

    /// The form with no event of that type and those expressions: `(gate T e b)` is
    /// `(if b e (none T))`, `(tag T e c)` is `(on e (none T) (event (then (fst x) c)))`, and
    /// `(attach T e c)` is `(on e (none T) (event (pair (snd x) (then (fst x) c))))`.
    pub(crate) fn of(
        self,
        alloc: Global,
        none: ExprChild,
        a: ExprChild,
        b: ExprChild,
    ) -> Result<Expr, Memory>
        ensures { IfOk result (λ e. expression_of e ≡ typed_by self none a b) }
    {
        match self {
            Typed::Gate => Ok(Expr::If(b, a, none)),
            Typed::Tag => {
                let value = at_sample(alloc, b)?;
                mapped(alloc, a, none, value)
            }
            Typed::Attach => {
                let value = value_and(alloc, b)?;
                mapped(alloc, a, none, value)
            }
        }
    }
}

/// The form of types that the word begins.
#[tactic(auto, unfolding(crate::specs::Grammar::production_at, crate::specs::Grammar::productions))]
pub(crate) fn type_form_named(word: &[u8]) -> Option<TypeForm>
    ensures { option_map type_production result ≡ production_at type_sort word.now }
{
    if word_is(word, "Pair") {
        Some(TypeForm::Pair)
    } else if word_is(word, "Event") {
        Some(TypeForm::Event)
    } else if word_is(word, "List") {
        Some(TypeForm::List)
    } else {
        None
    }
}

/// A form of one expression.
#[derive(Clone, Copy)]
pub(crate) enum Unary {
    Fst,
    Snd,
    Neg,
    Not,
    Event,
    Len,
}

/// A form of two expressions. `Merge` is sugar.
#[derive(Clone, Copy)]
pub(crate) enum Binary {
    Pair,
    Then,
    Add,
    Sub,
    Mul,
    Less,
    Equal,
    And,
    Or,
    Merge,
}

/// A form of three expressions.
#[derive(Clone, Copy)]
pub(crate) enum Ternary {
    If,
    On,
    Nth,
}

/// A form of a type and two expressions. Each is sugar.
#[derive(Clone, Copy)]
pub(crate) enum Typed {
    Gate,
    Tag,
    Attach,
}

/// A form of expressions, by the parts that it takes.
#[derive(Clone, Copy)]
pub(crate) enum ExprForm {
    /// The number of a parameter.
    Param,
    /// A type.
    NoEvent,
    /// A type and any number of expressions.
    List,
    Unary(Unary),
    Binary(Binary),
    Ternary(Ternary),
    Typed(Typed),
}

/// The form of two expressions that the word begins.
fn binary_named(word: &[u8]) -> Option<Binary>
    ensures { option_map binary_production result ≡ production_among word.now binary_productions }
{
    if word_is(word, "pair") {
        Some(Binary::Pair)
    } else if word_is(word, "then") {
        Some(Binary::Then)
    } else if word_is(word, "add") {
        Some(Binary::Add)
    } else if word_is(word, "sub") {
        Some(Binary::Sub)
    } else if word_is(word, "mul") {
        Some(Binary::Mul)
    } else if word_is(word, "less") {
        Some(Binary::Less)
    } else if word_is(word, "equal") {
        Some(Binary::Equal)
    } else if word_is(word, "and") {
        Some(Binary::And)
    } else if word_is(word, "or") {
        Some(Binary::Or)
    } else if word_is(word, "lMerge") {
        Some(Binary::Merge)
    } else {
        None
    }
}

/// The form of one expression that the word begins.
fn unary_named(word: &[u8]) -> Option<Unary>
    ensures { option_map unary_production result ≡ production_among word.now unary_productions }
{
    if word_is(word, "fst") {
        Some(Unary::Fst)
    } else if word_is(word, "snd") {
        Some(Unary::Snd)
    } else if word_is(word, "neg") {
        Some(Unary::Neg)
    } else if word_is(word, "not") {
        Some(Unary::Not)
    } else if word_is(word, "event") {
        Some(Unary::Event)
    } else if word_is(word, "len") {
        Some(Unary::Len)
    } else {
        None
    }
}

/// The form of three expressions that the word begins.
fn ternary_named(word: &[u8]) -> Option<Ternary>
    ensures { option_map ternary_production result ≡ production_among word.now ternary_productions }
{
    if word_is(word, "if") {
        Some(Ternary::If)
    } else if word_is(word, "on") {
        Some(Ternary::On)
    } else if word_is(word, "nth") {
        Some(Ternary::Nth)
    } else {
        None
    }
}

/// The form of a type and two expressions that the word begins.
fn typed_named(word: &[u8]) -> Option<Typed>
    ensures { option_map typed_production result ≡ production_among word.now typed_productions }
{
    if word_is(word, "gate") {
        Some(Typed::Gate)
    } else if word_is(word, "tag") {
        Some(Typed::Tag)
    } else if word_is(word, "attach") {
        Some(Typed::Attach)
    } else {
        None
    }
}

/// The form of other parts that the word begins.
fn other_named(word: &[u8]) -> Option<ExprForm>
    ensures { option_map form_production result ≡ production_among word.now other_productions }
{
    if word_is(word, "p") {
        Some(ExprForm::Param)
    } else if word_is(word, "none") {
        Some(ExprForm::NoEvent)
    } else if word_is(word, "list") {
        Some(ExprForm::List)
    } else {
        None
    }
}

/// The form of expressions that the word begins.
pub(crate) fn form_named(word: &[u8]) -> Option<ExprForm>
    ensures { option_map form_production result ≡ production_at expression_sort word.now }
{
    if let Some(form) = other_named(word) {
        Some(form)
    } else if let Some(form) = unary_named(word) {
        Some(ExprForm::Unary(form))
    } else if let Some(form) = binary_named(word) {
        Some(ExprForm::Binary(form))
    } else if let Some(form) = ternary_named(word) {
        Some(ExprForm::Ternary(form))
    } else {
        let form = typed_named(word)?;
        Some(ExprForm::Typed(form))
    }
}
