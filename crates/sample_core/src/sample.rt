// Values.

ghost use Rattle.std.specs.Prelude.{◌≡◌, IfOk, OnOk, map};
ghost use Rattle.sample_core.specs.{Datum.list, Datum.list_of, Taken.IsTakenOut, ValueView.datum_of};

use crate::memory::Memory;
use std::alloc::Global;
use std::marker::Model;
use std::rc::Rc;

/// A value. Copies of it share its parts.
#[cycle(sample)]
#[derive(Drop)]
pub enum Sample {
    /// `unit`.
    Unit,
    /// `true` or `false`.
    Bool(bool),
    /// A signed number of 64 bits.
    Int(i64),
    /// `(pair v w)`.
    Pair(SamplePair),
    /// `none`, no event.
    NoEvent,
    /// `(event v)`, an event that carries v.
    Event(SampleChild),
    /// `(list v1 .. vn)`, of any length.
    List(Samples),
}

/// The two parts of a pair, in one place. Contracts see them as two trees; copies share them.
#[cycle(sample)]
#[derive(Drop)]
pub struct SamplePair {
    pub(crate) parts: Rc<(Sample, Sample)>,
}

/// A value inside a value. Contracts see it as the value's tree; copies share it.
#[cycle(sample)]
#[derive(Drop)]
pub struct SampleChild {
    inner: Rc<Sample>,
}

/// The elements of a list value. Contracts see them as a list of trees; copies share them.
#[cycle(sample)]
#[derive(Drop)]
pub struct Samples {
    pub(crate) all: Rc<Vec<Sample>>,
}

impl Model for SamplePair {
    ghost use Rattle.std.specs.Prelude.{◌+◌};
    ghost use Rattle.std.specs.Coded.{coded×};
    ghost use Rattle.sample_core.specs.Datum.{Datum, datum_size};
    ghost use Rattle.sample_core.specs.DatumCode.{datum_code};

    ghost Value = { Datum × Datum };

    ghost coded = { coded× datum_code datum_code };

    ghost use Rattle.sample_core.specs.ValueView.{datum_of};

    ghost view = { λ a. (datum_of a.parts.value.0, datum_of a.parts.value.1) };

    ghost size = { λ p. datum_size p.0 + datum_size p.1 };

    ghost use Rattle.sample_core.specs.Depth.{depth_le};
    ghost use Rattle.std.proofs.Common.{arith};

    ghost size_decreases = { λ a h.
        Prim.omega (arith, depth_le a.parts.value.0, depth_le a.parts.value.1) };
}

impl Model for SampleChild {
    ghost use Rattle.sample_core.specs.Datum.{Datum, datum_size};
    ghost use Rattle.sample_core.specs.DatumCode.{datum_code};

    ghost Value = { Datum };

    ghost coded = { datum_code };

    ghost use Rattle.sample_core.specs.ValueView.{datum_of};

    ghost view = { λ a. datum_of a.inner.value };

    ghost size = { datum_size };

    ghost use Rattle.sample_core.specs.Depth.{depth_le};

    ghost size_decreases = { λ a h. depth_le a.inner.value };
}

impl Model for Samples {
    ghost use Rattle.std.specs.Prelude.{List, map};
    ghost use Rattle.std.specs.Coded.{coded_list};
    ghost use Rattle.sample_core.specs.Datum.{Datum, list_of, datums_size};
    ghost use Rattle.sample_core.specs.DatumCode.{datum_code};

    ghost Value = { List Datum };

    ghost coded = { coded_list datum_code };

    ghost use Rattle.sample_core.specs.ValueView.{datum_of};

    ghost view = { λ a. map datum_of a.all.value.items };

    ghost size = { λ vs. datums_size (list_of vs) };

    ghost use Rattle.sample_core.specs.Depth.{depths_le};
    ghost use Rattle.std.proofs.Common.{arith};

    ghost size_decreases = { λ a h. Prim.omega (arith, depths_le a.all.value.items) };
}

impl SamplePair {
    ghost use Rattle.std.specs.Borrow.{sem};
    ghost use Rattle.sample_core.specs.Lending.{LendsFirst, LendsSecond};

    /// The values as the parts of a pair. `Memory` if allocation fails.
    #[inline(always)]
    pub fn new(alloc: Global, first: Sample, second: Sample) -> Result<SamplePair, Memory>
        ensures { IfOk result (λ p. p ≡ (datum_of first, datum_of second)) }
    {
        let parts = Rc::new(alloc, (first, second))?;
        Ok(SamplePair { parts })
    }

    /// The first part.
    pub fn first(&self) -> &Sample
        ensures { datum_of result.now ≡ self.now.0 }
    {
        &self.parts.0
    }

    /// The second part.
    pub fn second(&self) -> &Sample
        ensures { datum_of result.now ≡ self.now.1 }
    {
        &self.parts.1
    }

    /// The first part, to write to, where no one else holds the parts.
    #[inline(always)]
    pub fn first_mut(&mut self) -> Option<&mut Sample>
        ensures* { sem 𝓛 (LendsFirst self.entry result) }
    {
        match Rc::get_mut(&mut self.parts) {
            Some(parts) => Some(&mut parts.0),
            None => None,
        }
    }

    /// The second part, to write to, where no one else holds the parts.
    #[inline(always)]
    pub fn second_mut(&mut self) -> Option<&mut Sample>
        ensures* { sem 𝓛 (LendsSecond self.entry result) }
    {
        match Rc::get_mut(&mut self.parts) {
            Some(parts) => Some(&mut parts.1),
            None => None,
        }
    }

    /// These parts, shared. It takes no memory; `Memory` only if a count of references is full.
    pub fn try_copy(&self) -> Result<SamplePair, Memory>
        ensures { IfOk result (λ p. p ≡ self.now) }
    {
        let parts = self.parts.clone()?;
        Ok(SamplePair { parts })
    }
}

impl SampleChild {
    ghost use Rattle.std.specs.Borrow.{sem};
    ghost use Rattle.sample_core.specs.Lending.{LendsChild};

    /// The value as a part of another. `Memory` if allocation fails.
    pub fn new(alloc: Global, sample: Sample) -> Result<SampleChild, Memory>
        ensures { IfOk result (λ c. c ≡ datum_of sample) }
    {
        let inner = Rc::new(alloc, sample)?;
        Ok(SampleChild { inner })
    }

    /// The value itself.
    pub fn get(&self) -> &Sample
        ensures { datum_of result.now ≡ self.now }
    {
        &self.inner
    }

    /// The value itself, to write to, where no one else holds it.
    #[inline(always)]
    pub fn get_mut(&mut self) -> Option<&mut Sample>
        ensures* { sem 𝓛 (LendsChild self.entry result) }
    {
        Rc::get_mut(&mut self.inner)
    }

    /// This value, shared. It takes no memory; `Memory` only if a count of references is full.
    pub fn try_copy(&self) -> Result<SampleChild, Memory>
        ensures { IfOk result (λ c. c ≡ self.now) }
    {
        let inner = self.inner.clone()?;
        Ok(SampleChild { inner })
    }
}

impl Samples {
    /// The values as the elements of a list value, in order. `Memory` if allocation fails.
    pub fn new(alloc: Global, all: Vec<Sample>) -> Result<Samples, Memory>
        ensures { IfOk result (λ vs. vs ≡ map datum_of all.items) }
    {
        let all = Rc::new(alloc, all)?;
        Ok(Samples { all })
    }

    /// The elements in order.
    pub fn as_slice(&self) -> &[Sample]
        ensures { map datum_of result.now ≡ self.now }
    {
        self.all.as_slice()
    }

    /// These elements, shared. It takes no memory; `Memory` only if a count of references is full.
    pub fn try_copy(&self) -> Result<Samples, Memory>
        ensures { IfOk result (λ vs. vs ≡ self.now) }
    {
        let all = self.all.clone()?;
        Ok(Samples { all })
    }

    /// The elements, in whose place there are none then, where no one else holds them; else nothing.
    #[inline(always)]
    fn take(&mut self, alloc: Global) -> Vec<Sample>
        ensures { IsTakenOut (list (list_of self.old)) (map datum_of result.items)
            (list (list_of self.new)) }
    {
        match Rc::get_mut(&mut self.all) {
            Some(all) => std::mem::replace(all, Vec::new(alloc)),
            None => Vec::new(alloc),
        }
    }

    /// The values in place of these elements, in order: in its memory, where no one else holds
    /// that. `Memory` if allocation fails.
    #[inline(always)]
    fn put(&mut self, alloc: Global, all: Vec<Sample>) -> Result<(), Memory>
        ensures { OnOk result (self.new ≡ map datum_of all.items) }
    {
        match Rc::get_mut(&mut self.all) {
            Some(there) => {
                drop(std::mem::replace(there, all));
                Ok(())
            }
            None => {
                let fresh = Samples::new(alloc, all)?;
                drop(std::mem::replace(self, fresh));
                Ok(())
            }
        }
    }
}

impl Sample {
    ghost use Rattle.sample_core.specs.Datum.{bool, int, int_of, items_of, left, right};

    /// The number of an `Int`; 0 of another value.
    #[inline(always)]
    pub fn number(&self) -> i64
        ensures { result ≡ int_of (datum_of self.now) }
    {
        match self {
            Sample::Int(n) => *n,
            _ => 0,
        }
    }

    /// The first part of a pair; another value itself.
    #[inline(always)]
    pub fn left(&self) -> &Sample
        ensures { datum_of result.now ≡ left (datum_of self.now) }
    {
        match self {
            Sample::Pair(parts) => parts.first(),
            _ => self,
        }
    }

    /// The second part of a pair; another value itself.
    #[inline(always)]
    pub fn right(&self) -> &Sample
        ensures { datum_of result.now ≡ right (datum_of self.now) }
    {
        match self {
            Sample::Pair(parts) => parts.second(),
            _ => self,
        }
    }

    /// The elements of a list value; none of another value.
    pub fn elements(&self) -> &[Sample]
        ensures { map datum_of result.now ≡ items_of (datum_of self.now) }
    {
        match self {
            Sample::List(all) => all.as_slice(),
            _ => &[],
        }
    }

    /// Puts another value in place of this one. A place that holds no parts is written at once.
    #[inline(always)]
    pub fn put(&mut self, value: Sample)
        ensures { self.new ≡ value }
    {
        match self {
            Sample::Pair(_) | Sample::Event(_) | Sample::List(_) => self.replace(value),
            _ => *self = value,
        }
    }

    /// Puts a number in place of this value.
    #[inline(always)]
    pub fn put_int(&mut self, n: i64)
        ensures { datum_of self.new ≡ int n }
    {
        match self {
            Sample::Int(there) => *there = n,
            _ => self.put(Sample::Int(n)),
        }
    }

    /// Puts a truth in place of this value.
    #[inline(always)]
    pub fn put_bool(&mut self, b: bool)
        ensures { datum_of self.new ≡ bool b }
    {
        match self {
            Sample::Bool(there) => *there = b,
            _ => self.put(Sample::Bool(b)),
        }
    }

    /// Puts a copy of a value in place of this one: of a number at once. It takes no memory;
    /// `Memory` only if a count of references is full. After a refusal this value stays.
    #[inline(always)]
    pub fn put_copy(&mut self, alloc: Global, value: &Sample) -> Result<(), Memory>
        ensures { OnOk result (datum_of self.new ≡ datum_of value.now) }
    {
        match value {
            Sample::Int(n) => {
                self.put_int(*n);
                Ok(())
            }
            _ => self.put_any_copy(alloc, value),
        }
    }

    /// Puts a copy of any value in place of this one.
    #[inline(never)]
    fn put_any_copy(&mut self, alloc: Global, value: &Sample) -> Result<(), Memory>
        ensures { OnOk result (datum_of self.new ≡ datum_of value.now) }
    {
        let copy = value.try_copy(alloc)?;
        self.put(copy);
        Ok(())
    }

    /// The elements of a list that no one else holds, in whose place there are none then; nothing
    /// of another value, which stays. It takes no memory.
    #[inline(always)]
    pub fn take_list(&mut self, alloc: Global) -> Vec<Sample>
        ensures { IsTakenOut (datum_of self.old) (map datum_of result.items) (datum_of self.new) }
    {
        match self {
            Sample::List(all) => all.take(alloc),
            _ => Vec::new(alloc),
        }
    }

    /// Puts the list of the values in place of this one: in its memory, where that is a list that
    /// no one else holds. `Memory` if allocation fails; this value stays then.
    #[inline(always)]
    pub fn put_list(&mut self, alloc: Global, all: Vec<Sample>) -> Result<(), Memory>
        ensures { OnOk result (datum_of self.new ≡ list (list_of (map datum_of all.items))) }
    {
        match self {
            Sample::List(there) => there.put(alloc, all),
            _ => {
                let all = Samples::new(alloc, all)?;
                self.put(Sample::List(all));
                Ok(())
            }
        }
    }

    /// Lets the value go. Mostly it is a number, which holds nothing.
    #[inline(always)]
    pub fn let_go(self) {
        match self {
            Sample::Int(_) => {}
            value => value.let_go_on(),
        }
    }

    /// Lets a value of any form go.
    #[inline(never)]
    fn let_go_on(self) {
        drop(self);
    }

    /// Puts another value in place of this one, in a frame of its own.
    #[inline(never)]
    fn replace(&mut self, value: Sample)
        ensures { self.new ≡ value }
    {
        *self = value;
    }

    /// A copy, whose parts are shared with it. It takes no memory; `Memory` only if a count of
    /// references is full.
    #[inline(always)]
    pub fn try_copy(&self, _alloc: Global) -> Result<Sample, Memory>
        ensures { IfOk result (λ s. s ≡ self.now) }
    {
        match self {
            Sample::Unit => Ok(Sample::Unit),
            Sample::Bool(b) => Ok(Sample::Bool(*b)),
            Sample::Int(n) => Ok(Sample::Int(*n)),
            Sample::Pair(parts) => {
                let parts = parts.try_copy()?;
                Ok(Sample::Pair(parts))
            }
            Sample::NoEvent => Ok(Sample::NoEvent),
            Sample::Event(a) => {
                let a = a.try_copy()?;
                Ok(Sample::Event(a))
            }
            Sample::List(all) => {
                let all = all.try_copy()?;
                Ok(Sample::List(all))
            }
        }
    }
}
