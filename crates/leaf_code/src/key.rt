// When an operation was computed already.

ghost use Rattle.std.specs.Prelude.{◌≡◌};
ghost use Rattle.sample_core.specs.TypeView.{type_of};
ghost use Rattle.leaf_code.specs.CodeView.{operation_of, step_of};
ghost use Rattle.leaf_code.specs.Keys.{has_key, is_computed, key_of, reads_below, same_key};
ghost use Rattle.leaf_core.specs.TypeLimits.{same_tree};

use crate::operation::{Operation, Step};
use leaf_core::Literal;
use sample_core::{Ty, same_type};

/// What tells an operation from others: which one it is, its registers, and its number; 0 is in place of those
/// that it hasn't.
#[derive(Clone, Copy)]
pub struct Key {
    pub operation: u8,
    pub first: usize,
    pub second: usize,
    pub third: usize,
    pub number: i64,
}

/// The key of an operation; a list has none.
pub(crate) fn key_of(operation: &Operation) -> Option<Key>
    ensures { result ≡ key_of (operation_of operation.now) }
{
    let (operation, (first, second, third), number) = match operation {
        Operation::Param(k) => (0, (0, 0, 0), *k as i64),
        Operation::Literal(Literal::Unit) => (1, (0, 0, 0), 0),
        Operation::Literal(Literal::Bool(false)) => (2, (0, 0, 0), 0),
        Operation::Literal(Literal::Bool(true)) => (3, (0, 0, 0), 0),
        Operation::Literal(Literal::Int(n)) => (4, (0, 0, 0), *n),
        Operation::Pair(j, k) => (5, (*j, *k, 0), 0),
        Operation::Left(j) => (6, (*j, 0, 0), 0),
        Operation::Right(j) => (7, (*j, 0, 0), 0),
        Operation::Neg(j) => (8, (*j, 0, 0), 0),
        Operation::Add(j, k) => (9, (*j, *k, 0), 0),
        Operation::Sub(j, k) => (10, (*j, *k, 0), 0),
        Operation::Mul(j, k) => (11, (*j, *k, 0), 0),
        Operation::Less(j, k) => (12, (*j, *k, 0), 0),
        Operation::Equal(j, k) => (13, (*j, *k, 0), 0),
        Operation::Not(j) => (14, (*j, 0, 0), 0),
        Operation::And(j, k) => (15, (*j, *k, 0), 0),
        Operation::Or(j, k) => (16, (*j, *k, 0), 0),
        Operation::Choose(c, j, k) => (17, (*c, *j, *k), 0),
        Operation::NoEvent => (18, (0, 0, 0), 0),
        Operation::Event(j) => (19, (*j, 0, 0), 0),
        Operation::IsEvent(j) => (20, (*j, 0, 0), 0),
        Operation::Carried(j) => (21, (*j, 0, 0), 0),
        Operation::List(_) => return None,
        Operation::Nth(j, k, d) => (22, (*j, *k, *d), 0),
        Operation::Len(j) => (23, (*j, 0, 0), 0),
    };
    Some(Key {
        operation,
        first,
        second,
        third,
        number,
    })
}

/// Whether two operations are one.
fn same_key(a: Key, b: Key) -> bool
    ensures { result ≡ same_key a b }
{
    a.operation == b.operation
        && a.first == b.first
        && a.second == b.second
        && a.third == b.third
        && a.number == b.number
}

/// Whether all registers of an operation are below m.
fn reads_below(m: usize, key: Key) -> bool
    ensures { result ≡ reads_below m key }
{
    key.first < m && key.second < m && key.third < m
}

/// Whether an operation has this key.
fn has_key(operation: &Operation, key: Key) -> bool
    ensures { result ≡ has_key key (key_of (operation_of operation.now)) }
{
    match key_of(operation) {
        Some(other) => same_key(other, key),
        None => false,
    }
}

/// Whether two types are one.
fn is_type(a: &Ty, b: &Ty) -> bool
    ensures { result ≡ same_tree (type_of a.now) (type_of b.now) }
{
    same_type(a, b)
}

/// Whether the step that sets register m gives what an operation gives, of registers that were there.
pub(crate) fn is_computed(m: usize, ty: &Ty, key: Key, step: &Step) -> bool
    ensures { result ≡ is_computed m (type_of ty.now) key (step_of step.now) }
{
    has_key(&step.operation, key) && is_type(&step.ty, ty) && reads_below(m, key)
}
