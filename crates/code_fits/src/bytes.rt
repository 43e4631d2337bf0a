// How many bytes values and what is kept take at most, by `specs/Sizes`; the greatest number where that
// is more.

ghost use Rattle.std.specs.Prelude.{◌≡◌, ◌+◌, ◌*◌, ℕ, List, IfOk, Some, get_or, map, slice_get};
ghost use Rattle.sample_core.specs.TypeView.{type_of};
ghost use Rattle.code_fits.specs.declared.types.Types.{Types as Table};
ghost use Rattle.code_fits.specs.Sizes.{cell_size, collection_size, freezing_size, function_size, kept_sizes, own_size, rounded_up, sizes_at, switch_size, value_size};
ghost use Rattle.code_fits.specs.Tables.{TableHolds, bound_of, entry_tree, layout_of, tree_if};
ghost use Rattle.code_fits.specs.Saturated.{AreSizes, saturated};

use crate::around::{layout_at, most_of, type_at};
use crate::layout::Layout;
use crate::types::{TypeEntry, Types};
use crate::walk::Unlaid;
use cell_core::Form;
use net_code::Function;
use net_tree::MOST_MEMBERS;
use sample_core::Ty;
use std::alloc::Global;

/// The sum of two sizes.
fn plus(a: u64, b: u64) -> u64
    ensures { (m n : ℕ) → a ≡ saturated m → b ≡ saturated n → result ≡ saturated (m + n) }
{
    a.saturating_add(b)
}

/// So many times a size.
fn times(a: u64, count: u64) -> u64
    ensures { (m : ℕ) → a ≡ saturated m → result ≡ saturated (m * count) }
{
    a.saturating_mul(count)
}

/// A size, rounded up to a multiple of 8.
fn rounded(bytes: u64) -> u64
    ensures { (n : ℕ) → bytes ≡ saturated n → result ≡ saturated (rounded_up n) }
{
    bytes.div_ceil(8).saturating_mul(8)
}

/// The size of number k, 0 if there is none.
fn at(all: &[u64], k: usize) -> u64
    ensures { (ns : List ℕ) → all.now ≡ map saturated ns → result ≡ saturated (get_or ns k 0) }
{
    match all.get(k) {
        Some(bytes) => *bytes,
        None => 0,
    }
}

/// The sum of the sizes of these numbers.
fn sum(all: &[u64], ks: &[usize]) -> u64
    ensures { (ns : List ℕ) → all.now ≡ map saturated ns → result ≡ saturated (sizes_at ns ks.now) }
{
    let mut bytes = 0;
    for k in ks {
        bytes = plus(bytes, at(all, *k));
    }
    bytes
}

/// The size of a type, by its number.
fn value_at(values: &[u64], k: usize) -> Result<u64, Unlaid>
    ensures { IfOk result (λ n. slice_get values.now k ≡ Some n) }
{
    match values.get(k) {
        Some(bytes) => Ok(*bytes),
        None => Err(Unlaid::Untyped),
    }
}

/// The bytes of a value of each type of the table, whose lists have at most so many elements.
fn value_bytes(alloc: Global, types: &Types, bounds: &[usize]) -> Result<Vec<u64>, Unlaid>
    requires { TableHolds types.now }
    ensures { IfOk result (λ all. AreSizes types.now bounds.now all.items) }
{
    let mut all = Vec::new(alloc);
    for (k, entry) in types.entries.iter().enumerate() {
        let ty = type_at(types, k)?;
        let bytes = entry_bytes(types, bounds, *entry, ty, all.as_slice())?;
        all.push(bytes)?;
    }
    Ok(all)
}

/// The bytes of a value of an entry's type, over those of earlier ones.
fn entry_bytes(
    types: &Types,
    bounds: &[usize],
    entry: TypeEntry,
    ty: &Ty,
    earlier: &[u64],
) -> Result<u64, Unlaid>
    requires is_type { type_of ty.now ≡ entry_tree types.now entry }
    requires sizes { AreSizes types.now bounds.now earlier.now }
    ensures { IfOk result
        (λ n. n ≡ saturated (value_size (bound_of types.now bounds.now) (type_of ty.now))) }
{
    match entry {
        TypeEntry::Unit | TypeEntry::Bool => Ok(1),
        TypeEntry::Int => Ok(8),
        TypeEntry::Pair(a, b) => {
            let first = rounded(value_at(earlier, a)?);
            Ok(plus(first, rounded(value_at(earlier, b)?)))
        }
        TypeEntry::Event(a) => Ok(plus(rounded(value_at(earlier, a)?), 8)),
        TypeEntry::List(a) => {
            let most = most_of(types.trees.as_slice(), bounds, ty)?;
            let elements = times(value_at(earlier, a)?, most as u64);
            Ok(plus(rounded(elements), 8))
        }
    }
}

/// The bytes that each function keeps, earlier ones first, over the types of a table.
pub(crate) fn kept_bytes(
    alloc: Global,
    functions: &[Function],
    layouts: &[Layout],
    types: &Types,
    bounds: &[usize],
) -> Result<Vec<u64>, Unlaid>
    requires { TableHolds types.now }
    ensures { IfOk result (λ all. all.items ≡ map saturated
        (kept_sizes (bound_of types.now bounds.now) functions.now
        (map (layout_of types.now) layouts.now))) }
{
    let values = value_bytes(alloc, types, bounds)?;
    let mut all = Vec::new(alloc);
    for (k, function) in functions.iter().enumerate() {
        let layout = layout_at(layouts, k)?;
        let own = own_bytes(layout.kept, values.as_slice())?;
        let bytes = function_bytes(function, own, all.as_slice());
        all.push(bytes)?;
    }
    Ok(all)
}

/// The bytes of the value that a function keeps itself, if it does.
fn own_bytes(kept: Option<usize>, values: &[u64]) -> Result<u64, Unlaid>
    ensures { (ts : Table) (ns : List ℕ) → AreSizes ts ns values.now → IfOk result
        (λ n. n ≡ saturated (own_size (bound_of ts ns) (tree_if ts kept))) }
{
    match kept {
        Some(ty) => Ok(rounded(value_at(values, ty)?)),
        None => Ok(0),
    }
}

/// The bytes that a function keeps, whose own value takes so many, over what earlier ones keep.
fn function_bytes(function: &Function, own: u64, earlier: &[u64]) -> u64
    ensures { (v : ℕ) (ns : List ℕ) → own ≡ saturated v → earlier.now ≡ map saturated ns
        → result ≡ saturated (function_size v ns function.now) }
{
    match function {
        Function::Arr(_) | Function::Same => 0,
        Function::Seq(f, g) => plus(at(earlier, *f), at(earlier, *g)),
        Function::First(f)
        | Function::Old(_, f, _, _)
        | Function::InitialOut(_, f)
        | Function::InitialIn(_, f) => at(earlier, *f),
        Function::Par(fs) => sum(earlier, fs.as_slice()),
        Function::Loop(_, f) => plus(at(earlier, *f), own),
        Function::Cell(form, _) => cell_bytes(*form, own),
        Function::Clock(_) => 16,
        Function::Accum(..) => own,
        Function::Switch(f, t)
        | Function::DSwitch(f, t)
        | Function::RSwitch(f, t)
        | Function::DrSwitch(f, t) => switch_bytes(own, earlier, *f, *t),
        Function::KSwitch(f, e, t) => freezing_bytes(at(earlier, *f), own, earlier, *e, *t),
        Function::PSwitch(_, fs, e, t) => {
            freezing_bytes(sum(earlier, fs.as_slice()), own, earlier, *e, *t)
        }
        Function::Collection(fs, _, t) => collection_bytes(own, earlier, fs.as_slice(), *t),
    }
}

/// The bytes that a switch keeps.
fn switch_bytes(own: u64, earlier: &[u64], f: usize, t: usize) -> u64
    ensures { (v : ℕ) (ns : List ℕ) → own ≡ saturated v → earlier.now ≡ map saturated ns
        → result ≡ saturated (switch_size v ns f t) }
{
    let parts = plus(at(earlier, f), at(earlier, t));
    plus(plus(parts, own), 8)
}

/// The bytes that a cell keeps beside or with its value.
fn cell_bytes(form: Form, own: u64) -> u64
    ensures { (v : ℕ) → own ≡ saturated v → result ≡ saturated (cell_size form v) }
{
    match form {
        Form::Delay(q) => plus(plus(times(plus(own, 8), q), own), 16),
        Form::After(_) => plus(own, 16),
        Form::Repeatedly(_) => plus(own, 8),
        _ => own,
    }
}

/// The bytes that a switch keeps which freezes what keeps so many.
fn freezing_bytes(watched: u64, own: u64, earlier: &[u64], e: usize, t: usize) -> u64
    ensures { (w v : ℕ) (ns : List ℕ) → watched ≡ saturated w → own ≡ saturated v
        → earlier.now ≡ map saturated ns → result ≡ saturated (freezing_size v ns w e t) }
{
    let parts = plus(at(earlier, e), at(earlier, t));
    plus(plus(plus(times(watched, 2), parts), own), 16)
}

/// The bytes that a collection keeps: on two sides as many members as there may be.
fn collection_bytes(own: u64, earlier: &[u64], fs: &[usize], t: usize) -> u64
    ensures { (v : ℕ) (ns : List ℕ) → own ≡ saturated v → earlier.now ≡ map saturated ns
        → result ≡ saturated (collection_size v ns fs.now t) }
{
    let parts = plus(sum(earlier, fs), at(earlier, t));
    let member = plus(plus(parts, own), 8);
    plus(times(member, 2 * MOST_MEMBERS as u64), 8)
}
