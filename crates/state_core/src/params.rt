// Parameters in scope.

ghost use Rattle.std.specs.Prelude.{◌≡◌, ◌++◌, ◌∷◌, [], IfOk, OnOk, map};
ghost use Rattle.sample_core.specs.ValueView.{datum_of};

use sample_core::{Memory, Sample};
use std::alloc::Global;
use std::marker::Model;
use std::rc::Rc;

/// The values of the parameters in scope, parameter 0 first. Copies share them. Contracts see them
/// as a list of values.
#[derive(Drop)]
pub struct Params {
    all: Option<Rc<Vec<Sample>>>,
}

impl Model for Params {
    ghost use Rattle.std.specs.Prelude.{List, map};
    ghost use Rattle.std.specs.Coded.{coded_list};
    ghost use Rattle.sample_core.specs.Datum.{Datum};
    ghost use Rattle.sample_core.specs.DatumCode.{datum_code};

    ghost Value = { List Datum };

    ghost coded = { coded_list datum_code };

    ghost use Rattle.state_core.specs.ParamsView.{values_in};

    ghost view = { λ a. values_in a.all };
}

impl Params {
    /// No parameters. It takes no memory.
    pub fn none() -> Params
        ensures { result ≡ [] }
    {
        Params { all: None }
    }

    /// The values in order.
    pub fn as_slice(&self) -> &[Sample]
        ensures { map datum_of result.now ≡ self.now }
    {
        match &self.all {
            Some(all) => all.as_slice(),
            None => &[],
        }
    }

    /// These parameters, shared. It takes no memory; `Memory` only if a count of references is
    /// full.
    pub(crate) fn try_copy(&self) -> Result<Params, Memory>
        ensures { IfOk result (λ ps. ps ≡ self.now) }
    {
        match &self.all {
            Some(all) => Ok(Params {
                all: Some(all.clone()?),
            }),
            None => Ok(Params { all: None }),
        }
    }

    /// These parameters, shared, in place of the others. It takes no memory; `Memory` only if a
    /// count of references is full.
    #[inline(always)]
    pub(crate) fn renew(&mut self, from: &Params) -> Result<(), Memory>
        ensures { OnOk result (self.new ≡ from.now) }
    {
        if self.all.is_some() || from.all.is_some() {
            let copy = from.try_copy()?;
            drop(std::mem::replace(self, copy));
        }
        Ok(())
    }

    /// These parameters and one more behind them. `Memory` if allocation fails.
    pub(crate) fn and(&self, alloc: Global, value: &Sample) -> Result<Params, Memory>
        ensures { IfOk result (λ ps. ps ≡ self.now ++ datum_of value.now ∷ []) }
    {
        let mut all = copied(alloc, self.as_slice(), 1)?;
        let value = value.try_copy(alloc)?;
        all.push(value)?;
        let all = Rc::new(alloc, all)?;
        Ok(Params { all: Some(all) })
    }
}

/// Copies of the values, with room for so many more. `Memory` if allocation fails.
fn copied(alloc: Global, values: &[Sample], more: usize) -> Result<Vec<Sample>, Memory>
    ensures { IfOk result (λ copies. copies.items ≡ values.now) }
{
    let mut copies = Vec::with_capacity(alloc, values.len().saturating_add(more))?;
    for value in values {
        let value = value.try_copy(alloc)?;
        copies.push(value)?;
    }
    Ok(copies)
}
