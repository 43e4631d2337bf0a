// A stack: what was put on last comes off first.

ghost use Rattle.std.specs.Prelude.{◌≡◌, IfOk, ◌∷◌, [], ◌+◌, ◌++◌, length, reverse};

use crate::unbuilt::Unbuilt;
use std::alloc::Global;
use std::marker::Model;

/// A stack. Contracts see it as its list, the top first.
#[derive(Drop)]
pub(crate) struct Stack<T> {
    all: Vec<T>,
}

impl<T> Model for Stack<T> {
    ghost use Rattle.std.specs.Prelude.{List, reverse};
    ghost use Rattle.std.specs.Coded.{coded_list};

    ghost Value = { List T };

    ghost coded = { coded_list T.code };

    ghost view = { λ s. reverse s.all.items };
}

impl<T: Drop> Stack<T> {
    /// An empty stack.
    pub(crate) fn new(alloc: Global) -> Stack<T>
        ensures { result ≡ [] }
    {
        Stack {
            all: Vec::new(alloc),
        }
    }

    /// Puts one on top.
    pub(crate) fn put(&mut self, a: T) -> Result<(), Unbuilt>
        ensures { IfOk result (λ _. self.new ≡ a ∷ self.old) }
    {
        self.all.push(a)?;
        Ok(())
    }

    /// Takes the top off. `Missing` where there is none.
    pub(crate) fn take(&mut self) -> Result<T, Unbuilt>
        ensures { IfOk result (λ a. self.old ≡ a ∷ self.new) }
    {
        match self.all.pop() {
            Some(a) => Ok(a),
            None => Err(Unbuilt::Missing),
        }
    }

    /// Takes so many off, in the order in which they were put on. `Missing` where there are fewer.
    #[tactic(auto, using(crate::proofs::Stacks::split_reversed))]
    pub(crate) fn take_all(&mut self, alloc: Global, count: usize) -> Result<Vec<T>, Unbuilt>
        ensures { IfOk result (λ all. (self.old ≡ reverse all.items ++ self.new) × (length all.items ≡ count)) }
    {
        if count > self.all.len() {
            return Err(Unbuilt::Missing);
        }
        Ok(self.all.split_off(self.all.len() - count)?)
    }
}
