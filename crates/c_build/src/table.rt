// Structs by their members.

ghost use Rattle.std.specs.Prelude.{◌≡◌, List, true, IfOk, MatchOption};
ghost use Rattle.c_meaning.specs.Object.{CType as ObjectType, array, truth_type, number_type, u32};
ghost use Rattle.c_leaf.specs.Representing.{two_types};
ghost use Rattle.c_text.specs.Meant.{type_meant, members_meant, structs_meant};
ghost use Rattle.c_build.specs.Tables.{IsAt, is_below, type_below, all_below, closed_from};

use crate::index::Index;
use crate::unbuilt::Unbuilt;
use c_text::{Base, CType, Kind, Scalar, Struct};

/// `bool`.
pub(crate) const TRUTH: CType = CType::One(Base::Bool);
/// `uint8_t`.
pub(crate) const BYTE: CType = CType::One(Base::Number(Scalar::Uint8));
/// `int64_t`.
pub(crate) const INTEGER: CType = CType::One(Base::Number(Scalar::Int64));
/// `uint64_t`.
pub(crate) const NATURAL: CType = CType::One(Base::Number(Scalar::Uint64));
/// `uint32_t`.
pub(crate) const COUNT: CType = CType::One(Base::Number(Scalar::Uint32));

/// Structs, each over earlier ones, and where they stand.
#[derive(Clone, Copy)]
pub struct Table<'a> {
    pub structs: &'a [Struct],
    pub index: &'a Index,
    ghost closed: { closed_from 0 structs.now ≡ true },
}

impl<'a> Table<'a> {
    /// These structs. `Missing` where one isn't over earlier ones.
    pub(crate) fn new(structs: &'a [Struct], index: &'a Index) -> Result<Table<'a>, Unbuilt>
        ensures { IfOk result (λ t. t.structs.now ≡ structs.now) }
    {
        for (k, each) in structs.iter().enumerate() {
            if !all_below(k, each.members.as_slice()) {
                return Err(Unbuilt::Missing);
            }
        }
        Ok(Table { structs, index })
    }

    /// The struct of a kind with these members. `Missing` where there is none.
    #[tactic(auto, using(crate::proofs::Tables::struct_is))]
    pub(crate) fn struct_of(self, kind: Kind, members: &[CType]) -> Result<CType, Unbuilt>
        ensures { IfOk result (λ T. type_meant (structs_meant self.entry.structs.now) T
            ≡ members_meant (structs_meant self.entry.structs.now) members.now) }
    {
        match struct_at(self.structs, self.index, kind, members) {
            Some(k) => Ok(CType::One(Base::Struct(k))),
            None => Err(Unbuilt::Missing),
        }
    }

    /// The struct of pairs.
    pub(crate) fn pair(self, a: CType, b: CType) -> Result<CType, Unbuilt>
        ensures { IfOk result (λ T. type_meant (structs_meant self.entry.structs.now) T
            ≡ two_types (type_meant (structs_meant self.entry.structs.now) a)
            (type_meant (structs_meant self.entry.structs.now) b)) }
    {
        self.struct_of(Kind::Pair, &[a, b])
    }

    /// The struct of events.
    pub(crate) fn event(self, a: CType) -> Result<CType, Unbuilt>
        ensures { IfOk result (λ T. type_meant (structs_meant self.entry.structs.now) T
            ≡ two_types truth_type (type_meant (structs_meant self.entry.structs.now) a)) }
    {
        self.struct_of(Kind::Event, &[TRUTH, a])
    }

    /// The struct of lists of so many.
    pub(crate) fn list(self, count: usize, a: CType) -> Result<CType, Unbuilt>
        ensures { IfOk result (λ T. type_meant (structs_meant self.entry.structs.now) T
            ≡ two_types (number_type u32) (array count (type_meant (structs_meant self.entry.structs.now) a))) }
    {
        self.struct_of(Kind::List, &[COUNT, array_of(count, a)?])
    }
}

/// The number of the struct of a kind with these members, if there is one.
pub(crate) fn struct_at(
    structs: &[Struct],
    index: &Index,
    kind: Kind,
    members: &[CType],
) -> Option<usize>
    ensures { MatchOption result (Unit {0}) (λ k. IsAt structs.now members.now k) }
{
    let mut k = index.first(kind, members);
    for _ in 0..structs.len() {
        let Some(each) = structs.get(k) else {
            return None;
        };
        if each.kind == kind && same_types(each.members.as_slice(), members) {
            return Some(k);
        }
        k = index.next(k);
    }
    None
}

/// Arrays of so many of a type. `Missing` of arrays of arrays.
pub(crate) fn array_of(count: usize, ty: CType) -> Result<CType, Unbuilt>
    ensures { IfOk result (λ T. (Ts : List ObjectType) → type_meant Ts T ≡ array count (type_meant Ts ty)) }
{
    match ty {
        CType::One(base) => Ok(CType::Array(count, base)),
        CType::Array(inner, base) => Ok(CType::Grid(count, inner, base)),
        CType::Grid(..) => Err(Unbuilt::Missing),
    }
}

/// Whether a type's struct, if it has one, has a number below k.
fn is_below(k: usize, base: Base) -> bool
    ensures { result ≡ is_below k base }
{
    match base {
        Base::Struct(j) => j < k,
        Base::Bool | Base::Number(_) => true,
    }
}

/// The same of a type of objects.
fn type_below(k: usize, ty: CType) -> bool
    ensures { result ≡ type_below k ty }
{
    match ty {
        CType::One(base) => is_below(k, base),
        CType::Array(_, base) => is_below(k, base),
        CType::Grid(_, _, base) => is_below(k, base),
    }
}

/// The same of types.
fn all_below(k: usize, types: &[CType]) -> bool
    ensures { result ≡ all_below k types.now }
{
    for ty in types {
        if !type_below(k, *ty) {
            return false;
        }
    }
    true
}

/// Whether two types of numbers are the same.
fn same_scalar(a: Scalar, b: Scalar) -> bool
    ensures { result ≡ true → a ≡ b }
{
    match a {
        Scalar::Uint8 => matches!(b, Scalar::Uint8),
        Scalar::Int64 => matches!(b, Scalar::Int64),
        Scalar::Uint64 => matches!(b, Scalar::Uint64),
        Scalar::Uint32 => matches!(b, Scalar::Uint32),
    }
}

/// Whether two types that are no arrays are the same.
fn same_base(a: Base, b: Base) -> bool
    ensures { result ≡ true → a ≡ b }
{
    match a {
        Base::Bool => matches!(b, Base::Bool),
        Base::Number(scalar) => match b {
            Base::Number(other) => same_scalar(scalar, other),
            _ => false,
        },
        Base::Struct(j) => match b {
            Base::Struct(k) => j == k,
            _ => false,
        },
    }
}

/// Whether two types are the same.
fn same_ctype(a: CType, b: CType) -> bool
    ensures { result ≡ true → a ≡ b }
{
    match a {
        CType::One(base) => match b {
            CType::One(other) => same_base(base, other),
            _ => false,
        },
        CType::Array(n, base) => match b {
            CType::Array(m, other) => n == m && same_base(base, other),
            _ => false,
        },
        CType::Grid(l, n, base) => match b {
            CType::Grid(k, m, other) => l == k && n == m && same_base(base, other),
            _ => false,
        },
    }
}

/// Whether two rows of types are the same.
#[tactic(auto, using(std::proofs::lemmas::List::take_more_same, std::proofs::lemmas::List::take_all))]
pub(crate) fn same_types(a: &[CType], b: &[CType]) -> bool
    ensures { result ≡ true → a.now ≡ b.now }
{
    if a.len() != b.len() {
        return false;
    }
    for i in 0..a.len() {
        if !same_ctype(a[i], b[i]) {
            return false;
        }
    }
    true
}
