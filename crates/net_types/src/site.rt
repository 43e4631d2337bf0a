// The tests that a node makes of types, numbers and members, and where their faults stand.

ghost use Rattle.std.specs.Prelude.{◌≡◌, ◌+◌, ◌≤◌, ℕ, List, Err, IfOk, MatchOption, Ok, length, map};
ghost use Rattle.sample_core.specs.TypeView.{type_of};
ghost use Rattle.net_tree.specs.{Network.map_networks, NetworkView.members_of};
ghost use Rattle.net_tree.specs.declared.limits.TheConstants.{MOST_MEMBERS};
ghost use Rattle.leaf_core.specs.ExpressionView.{expression_of};
ghost use Rattle.net_types.specs.Walk.{all_same, as_choice, as_event, as_pair, expect_same, one_output, test_members, test_range};
ghost use Rattle.net_types.specs.{Check.GivesTyped, Sites.site_of};
ghost use Rattle.net_types.specs.declared.fault.TypeFault.TheVariants as Fault;

use crate::fault::TypeFault;
use crate::walk::Walk;
use leaf_core::Expr;
use net_tree::{MOST_MEMBERS, Net, Position};
use sample_core::{Memory, Ty, same_type};

/// Where a test of a node puts its fault: at the node, or at one of its children.
#[derive(Clone, Copy)]
pub(crate) enum Site {
    Node,
    Child(u32),
}

impl Walk {
    /// The position of the site.
    fn position_of(&self, site: Site) -> Result<Position, Memory>
        ensures { IfOk result (λ p. p ≡ site_of self.now.path.items site) }
    {
        match site {
            Site::Node => Position::of_node(self.alloc, &self.path),
            Site::Child(k) => Position::of_child(self.alloc, &self.path, k),
        }
    }

    /// Tests that the type is the one that is wanted; else `Joint` at the site.
    pub(crate) fn same_at(&self, site: Site, wanted: &Ty, ty: &Ty) -> Result<(), TypeFault>
        ensures { GivesTyped (λ _. type_of wanted.now) result
            (expect_same (site_of self.now.path.items site) (type_of wanted.now) (type_of ty.now)) }
    {
        if same_type(wanted, ty) {
            return Ok(());
        }
        let position = self.position_of(site)?;
        Err(TypeFault::Joint { position })
    }

    /// The type, where it is the one that is wanted; else `Joint` at the site.
    pub(crate) fn wanted_at(&self, site: Site, wanted: &Ty, ty: Ty) -> Result<Ty, TypeFault>
        ensures { GivesTyped type_of result
            (expect_same (site_of self.now.path.items site) (type_of wanted.now) (type_of ty)) }
    {
        if same_type(wanted, &ty) {
            return Ok(ty);
        }
        drop(ty);
        let position = self.position_of(site)?;
        Err(TypeFault::Joint { position })
    }

    /// The two parts of a pair type; else `NotPair` at the site.
    pub(crate) fn pair_at<'a>(&self, site: Site, ty: &'a Ty) -> Result<(&'a Ty, &'a Ty), TypeFault>
        ensures { GivesTyped (λ parts. (type_of parts.0.now, type_of parts.1.now)) result
            (as_pair (site_of self.now.path.items site) (type_of ty.now)) }
    {
        if let Ty::Pair(left, right) = ty {
            return Ok((left.get(), right.get()));
        }
        let position = self.position_of(site)?;
        Err(TypeFault::NotPair { position })
    }

    /// The type of what an event type carries; else `NotEvent` at the site.
    pub(crate) fn event_at<'a>(&self, site: Site, ty: &'a Ty) -> Result<&'a Ty, TypeFault>
        ensures { GivesTyped (λ carried. type_of carried.now) result
            (as_event (site_of self.now.path.items site) (type_of ty.now)) }
    {
        if let Ty::Event(carried) = ty {
            return Ok(carried.get());
        }
        let position = self.position_of(site)?;
        Err(TypeFault::NotEvent { position })
    }

    /// The type of the values that a choice of this type starts members with: it is a pair of a list
    /// of numbers and a list of those; else `Joint` at the site.
    pub(crate) fn choice_at<'a>(&self, site: Site, ty: &'a Ty) -> Result<&'a Ty, TypeFault>
        ensures { GivesTyped (λ started. type_of started.now) result
            (as_choice (site_of self.now.path.items site) (type_of ty.now)) }
    {
        if let Some(started) = started_by(ty) {
            return Ok(started);
        }
        let position = self.position_of(site)?;
        Err(TypeFault::Joint { position })
    }

    /// Tests that the number is from `low` to `high`; else `Number` at the node.
    pub(crate) fn in_range(&self, low: u64, high: u64, number: u64) -> Result<(), TypeFault>
        ensures { GivesTyped (λ _. tt) result (test_range self.now.path.items low high number) }
    {
        if low <= number && number <= high {
            return Ok(());
        }
        let position = Position::of_node(self.alloc, &self.path)?;
        Err(TypeFault::Number { position })
    }

    /// How many members there are, where they are 1 to 64; else `Members` at the node.
    pub(crate) fn count_members(&self, members: &[Net<Expr>]) -> Result<u32, TypeFault>
        ensures counted { IfOk result (λ n. n ≡ length members.now) }
        ensures few { IfOk result (λ n. n ≤ MOST_MEMBERS) }
        ensures answer { GivesTyped (λ _. tt) result
            (test_members self.now.path.items
            (map_networks expression_of (members_of members.now))) }
    {
        let count = members.len();
        if 1 <= count && count <= MOST_MEMBERS {
            return Ok(count as u32);
        }
        let position = Position::of_node(self.alloc, &self.path)?;
        Err(TypeFault::Members { position })
    }

    /// The one type of the outputs of members, the first of which is child `first` of the node;
    /// else `Joint` at the first that differs from the first member's.
    pub(crate) fn one_type(&self, first: u32, outputs: &[Ty]) -> Result<Ty, TypeFault>
        requires { first + length outputs.now ≤ 4294967295 }
        ensures { GivesTyped type_of result
            (one_output self.now.path.items first (map type_of outputs.now)) }
    {
        let Some((output, others)) = outputs.split_first() else {
            let position = Position::of_node(self.alloc, &self.path)?;
            return Err(TypeFault::Members { position });
        };
        self.all_same_at(first + 1, output, others)?;
        let output = output.try_copy(self.alloc)?;
        Ok(output)
    }

    /// Tests that the outputs of members, the first of which is child `first` of the node, are all
    /// the type that is wanted; else `Joint` at the first that isn't.
    fn all_same_at(&self, first: u32, wanted: &Ty, outputs: &[Ty]) -> Result<(), TypeFault>
        requires { first + length outputs.now ≤ 4294967295 }
        ensures { GivesTyped (λ _. type_of wanted.now) result
            (all_same self.now.path.items first (type_of wanted.now) (map type_of outputs.now)) }
    {
        let mut child = first;
        for output in outputs {
            self.same_at(Site::Child(child), wanted, output)?;
            child += 1;
        }
        Ok(())
    }
}

/// What a type of such a pair starts members with; `None` for another type.
fn started_by(ty: &Ty) -> Option<&Ty>
    ensures { (P : List ℕ) → MatchOption result
        (as_choice P (type_of ty.now) ≡ Err (Fault.Joint P))
        (λ started. as_choice P (type_of ty.now) ≡ Ok (type_of started.now)) }
{
    let Ty::Pair(numbers, values) = ty else {
        return None;
    };
    let Ty::List(number) = numbers.get() else {
        return None;
    };
    match (number.get(), values.get()) {
        (Ty::Int, Ty::List(value)) => Some(value.get()),
        _ => None,
    }
}
