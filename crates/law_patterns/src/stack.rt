// A stack: what was put on last comes off first.

ghost use Rattle.std.specs.Prelude.{◌≡◌, ◌↔◌, IsTrue, IfOk, MatchOption, ◌∷◌, [], Some, None, true};
ghost use Rattle.law_patterns.specs.Pattern.{around_two, only};

use sample_core::Memory;
use std::alloc::Global;
use std::marker::Model;

/// A stack. Contracts see it as its list, the top first.
#[derive(Drop)]
pub(crate) struct Stack<T> {
    all: Vec<T>,
}

impl<T> Model for Stack<T> {
    ghost use Rattle.std.specs.Prelude.{List, reverse};
    ghost use Rattle.std.specs.Coded.{coded_list};

    ghost Value = { List T };

    ghost coded = { coded_list T.code };

    ghost view = { λ s. reverse s.all.items };
}

impl<T: Drop> Stack<T> {
    /// An empty stack.
    pub(crate) fn new(alloc: Global) -> Stack<T>
        ensures { result ≡ [] }
    {
        Stack {
            all: Vec::new(alloc),
        }
    }

    /// Whether there is nothing on it.
    pub(crate) fn is_empty(&self) -> bool
        ensures { IsTrue result ↔ (self.now ≡ []) }
    {
        self.all.is_empty()
    }

    /// Puts one on top, and answers true.
    pub(crate) fn put(&mut self, a: T) -> Result<bool, Memory>
        ensures { IfOk result (λ r. (r ≡ true) × (self.new ≡ a ∷ self.old)) }
    {
        self.all.push(a)?;
        Ok(true)
    }

    /// Puts two on top, the first above, and answers true.
    pub(crate) fn put_two(&mut self, a: T, b: T) -> Result<bool, Memory>
        ensures { IfOk result (λ r. (r ≡ true) × (self.new ≡ a ∷ b ∷ self.old)) }
    {
        self.put(b)?;
        self.put(a)
    }

    /// Puts three on top, the first above, and answers true.
    pub(crate) fn put_three(&mut self, a: T, b: T, c: T) -> Result<bool, Memory>
        ensures { IfOk result (λ r. (r ≡ true) × (self.new ≡ a ∷ b ∷ c ∷ self.old)) }
    {
        self.put(c)?;
        self.put_two(a, b)
    }

    /// Takes the top off, if there is one.
    pub(crate) fn pop(&mut self) -> Option<T>
        ensures { MatchOption result ((self.old ≡ []) × (self.new ≡ [])) (λ a. self.old ≡ a ∷ self.new) }
    {
        self.all.pop()
    }

    /// Takes two off, if there are two; the first was on top.
    pub(crate) fn pop_two(&mut self) -> Option<(T, T)>
        ensures { MatchOption result (around_two (λ a _. a) self.old ≡ None)
            (λ p. self.old ≡ p.0 ∷ p.1 ∷ self.new) }
    {
        let a = self.pop()?;
        match self.pop() {
            Some(b) => Some((a, b)),
            None => {
                drop(a);
                None
            }
        }
    }

    /// What is on it, where that is one alone.
    pub(crate) fn only(mut self) -> Option<T>
        ensures { MatchOption result (only (Some self) ≡ None) (λ a. self ≡ a ∷ []) }
    {
        let top = self.pop()?;
        if self.all.is_empty() {
            Some(top)
        } else {
            drop(top);
            None
        }
    }
}
