// Positions of networks and expressions inside a network.

ghost use Rattle.std.specs.Prelude.{◌≡◌, [], ◌∷◌, ◌++◌, codes, nat_eq, IfOk, string_bytes};
ghost use Rattle.std.specs.Fmt.{decimal};
ghost use lib.Pointwise.{pointwise};
ghost use Rattle.std.specs.Cmp.{partial_equiv_from_equiv};
ghost use Rattle.std.proofs.lemmas.Cmp.{nat_list_eq_equiv};
ghost use Rattle.sample_core.specs.Adding.{Adds};
ghost use Rattle.net_tree.specs.Position.{position_spelling};

use itoa::Buffer;
use sample_core::Memory;
use std::alloc::Global;
use std::fmt;
use std::marker::Model;

/// Where a part of a network stands: the child numbers, from 0, that lead to it from the root.
/// Contracts see it as the list of these numbers.
#[derive(Debug, Drop)]
pub struct Position {
    path: Vec<u32>,
}

impl Model for Position {
    ghost use Rattle.std.specs.Prelude.{ℕ, List};

    ghost Value = { List ℕ };

    ghost view = { λ a. a.path.items };
}

impl Position {
    /// The position to which these child numbers lead, counted from 0, from the root on; the root
    /// itself has none.
    pub fn new(path: Vec<u32>) -> Position
        ensures { result ≡ path.items }
    {
        Position { path }
    }

    /// The position of the node at the path. `Memory` if allocation fails.
    pub fn of_node(alloc: Global, path: &[u32]) -> Result<Position, Memory>
        ensures { IfOk result (λ p. p ≡ path.now) }
    {
        Ok(Position::new(path.to_vec(alloc)?))
    }

    /// The position of child k, from 0, of the node at the path. `Memory` if allocation fails.
    pub fn of_child(alloc: Global, path: &[u32], k: u32) -> Result<Position, Memory>
        ensures { IfOk result (λ p. p ≡ path.now ++ k ∷ []) }
    {
        let mut numbers = Vec::with_capacity(alloc, path.len() + 1)?;
        numbers.extend_from_slice(path)?;
        numbers.push(k)?;
        Ok(Position::new(numbers))
    }

    /// A copy. `Memory` if allocation fails.
    pub fn try_copy(&self, alloc: Global) -> Result<Position, Memory>
        ensures { IfOk result (λ p. p ≡ self.now) }
    {
        Position::of_node(alloc, &self.path)
    }

    /// The child numbers, counted from 0, from the root on.
    pub fn path(&self) -> &[u32]
        ensures { result.now ≡ self.now }
    {
        &self.path
    }
}

impl fmt::Display for Position {
    fn fmt<W: fmt::Write>(&self, f: &mut fmt::Formatter<W>) -> fmt::Result {
        f.write_str("(at")?;
        for child in self.path() {
            write!(f, " {child}")?;
        }
        f.write_str(")")
    }
}

impl PartialEq for Position {
    ghost eq = { pointwise nat_eq };

    ghost laws = { partial_equiv_from_equiv nat_list_eq_equiv };

    fn eq(&self, other: &Position) -> bool {
        self.path == other.path
    }
}

impl Eq for Position {
    ghost laws = { nat_list_eq_equiv };
}

/// Adds the position, as it is printed, `(at 0 1)`, and `(at)` for the root, to the end of the
/// text. `Memory` if allocation fails; the text may then end with a part of it, and still begins as
/// it did.
pub fn push_position(text: &mut String, position: &Position) -> Result<(), Memory>
    ensures { Adds result (string_bytes text.old) (string_bytes text.new)
        (position_spelling position.now) }
{
    text.push_str("(at")?;
    for child in position.path() {
        push_child(text, *child)?;
    }
    text.push_str(")")?;
    Ok(())
}

/// Adds a space and a child number.
fn push_child(text: &mut String, child: u32) -> Result<(), Memory>
    ensures { Adds result (string_bytes text.old) (string_bytes text.new)
        (codes " " ++ decimal child) }
{
    text.push_str(" ")?;
    text.push_str(Buffer::new().format(child))?;
    Ok(())
}
