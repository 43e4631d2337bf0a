// Where structs may stand in a table, by what they are. It promises nothing: who asks tests the answer.

use crate::unbuilt::Unbuilt;
use c_text::{Base, CType, Kind, Scalar};
use std::alloc::Global;

/// How many buckets there are.
const BUCKETS: usize = 8192;

/// The number of no struct.
const NOWHERE: usize = usize::MAX;

/// The structs of a table in buckets.
#[derive(Drop)]
pub struct Index {
    /// The last struct of each bucket.
    last: Vec<usize>,
    /// The struct before each in its bucket.
    before: Vec<usize>,
}

impl Index {
    /// No structs.
    pub(crate) fn new(alloc: Global) -> Result<Index, Unbuilt> {
        let mut last = Vec::with_capacity(alloc, BUCKETS)?;
        for _ in 0..BUCKETS {
            last.push(NOWHERE)?;
        }
        let before = Vec::new(alloc);
        Ok(Index { last, before })
    }

    /// Adds the next struct.
    pub(crate) fn add(&mut self, kind: Kind, members: &[CType]) -> Result<(), Unbuilt> {
        let k = self.before.len();
        let Some(last) = self.last.get_mut(bucket_of(kind, members)) else {
            return Err(Unbuilt::Missing);
        };
        let earlier = *last;
        *last = k;
        self.before.push(earlier)?;
        Ok(())
    }

    /// Where a struct may stand first.
    pub(crate) fn first(&self, kind: Kind, members: &[CType]) -> usize {
        match self.last.get(bucket_of(kind, members)) {
            Some(k) => *k,
            None => NOWHERE,
        }
    }

    /// Where it may stand else.
    pub(crate) fn next(&self, k: usize) -> usize {
        match self.before.get(k) {
            Some(earlier) => *earlier,
            None => NOWHERE,
        }
    }
}

/// The bucket of a struct.
fn bucket_of(kind: Kind, members: &[CType]) -> usize {
    let mut hash = mixed(14_695_981_039_346_656_037, kind_number(kind));
    for ty in members {
        hash = match ty {
            CType::One(base) => mixed(mixed(hash, 1), base_number(*base)),
            CType::Array(n, base) => mixed(mixed(hash, *n as u64), base_number(*base)),
            CType::Grid(m, n, base) => {
                mixed(mixed(mixed(hash, *m as u64), *n as u64), base_number(*base))
            }
        };
    }
    (hash >> 40) as usize % BUCKETS
}

/// A number mixed into others.
fn mixed(hash: u64, number: u64) -> u64 {
    (hash ^ number).wrapping_mul(1_099_511_628_211)
}

/// A number of a kind.
fn kind_number(kind: Kind) -> u64 {
    match kind {
        Kind::Pair => 0,
        Kind::Event => 1,
        Kind::List => 2,
        Kind::Kept => 3,
    }
}

/// A number of a type that is no array.
fn base_number(base: Base) -> u64 {
    match base {
        Base::Bool => 0,
        Base::Number(Scalar::Uint8) => 1,
        Base::Number(Scalar::Int64) => 2,
        Base::Number(Scalar::Uint64) => 3,
        Base::Number(Scalar::Uint32) => 4,
        Base::Struct(k) => (k as u64).saturating_add(5),
    }
}
