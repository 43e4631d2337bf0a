// What a function's lines are built under.

ghost use Rattle.std.specs.Prelude.{◌≡◌, ◌+◌, ◌*◌, ◌<◌, ◌^◌, ◌++◌, IfOk, length};
ghost use Rattle.c_forms.specs.Standing.{param_args, old_args};
ghost use Rattle.c_build.specs.declared.sym.Sym.TheVariants as S;
ghost use Rattle.c_build.specs.Symbols.{run, and_arguments};

use crate::sym::Sym;
use crate::table::Table;
use crate::unbuilt::Unbuilt;
use c_text::CType;
use std::alloc::Global;

// A builder adds the lines of a function to `out`, and its contract says what stands on the stacks then, for
// all types that its types of C are ones of:
//
//     fn push_arr(scope: Scope<'_>, out: &mut Vec<Sym>, b: CType, j: usize) -> Result<(), Unbuilt>
//         ensures { IfOk result (λ _. (n : Bounds) (Ps : List TypeTree) (Os : List Shape) (B : TypeTree)
//             → Counts scope.entry Ps Os → IsType scope.entry n b B
//             → made scope.entry out.new.items ≡ and_command (..) (made scope.entry out.old.items)) }

/// The structs of the file, the types of the parameters and of the frozen networks in scope, and the number
/// of the first local behind them.
#[derive(Clone, Copy)]
pub struct Scope<'a> {
    pub alloc: Global,
    pub table: Table<'a>,
    pub params: &'a [CType],
    pub olds: &'a [CType],
    pub first: usize,
    ghost first_is: { first ≡ 3 + (length params.now + 2 * length olds.now) },
    ghost few: { first < 2 ^ 32 },
}

impl<'a> Scope<'a> {
    ghost use Rattle.c_build.specs.Scopes.{table, made};

    /// A scope. `Missing` if too much is in it.
    pub fn new(
        alloc: Global,
        table: Table<'a>,
        params: &'a [CType],
        olds: &'a [CType],
    ) -> Result<Scope<'a>, Unbuilt>
        ensures table { IfOk result (λ s. s.table ≡ table.entry) }
        ensures params { IfOk result (λ s. s.params.now ≡ params.now) }
        ensures olds { IfOk result (λ s. s.olds.now ≡ olds.now) }
    {
        const MOST: usize = 1_000_000_000;
        if params.len() > MOST || olds.len() > MOST {
            return Err(Unbuilt::Missing);
        }
        Ok(Scope {
            alloc,
            table,
            params,
            olds,
            first: 3 + (params.len() + 2 * olds.len()),
        })
    }

    /// Adds symbols.
    #[tactic(auto, using(crate::proofs::Runs::run_joined))]
    pub(crate) fn add(self, out: &mut Vec<Sym>, syms: &[Sym]) -> Result<(), Unbuilt>
        ensures { IfOk result (λ _. made self.entry out.new.items
            ≡ run (table self.entry) (made self.entry out.old.items) syms.now) }
    {
        out.extend_from_slice(syms)?;
        Ok(())
    }

    /// Register k: the local behind what is passed, and k others.
    pub(crate) fn register(self, k: usize) -> Sym
        requires { k < 2 ^ 32 }
        ensures { result ≡ S.Local (3 + (length self.entry.params.now + 2 * length self.entry.olds.now) + k) }
    {
        Sym::Local(self.first + k)
    }

    /// Passes the parameters, by pointer.
    pub(crate) fn push_params(self, out: &mut Vec<Sym>) -> Result<(), Unbuilt>
        ensures { IfOk result (λ _. made self.entry out.new.items
            ≡ and_arguments (param_args 3 (length self.entry.params.now)) (made self.entry out.old.items)) }
    {
        self.push_locals(out, 3, self.params.len())
    }

    /// Passes the frozen networks, each with its moment.
    pub(crate) fn push_olds(self, out: &mut Vec<Sym>) -> Result<(), Unbuilt>
        ensures { IfOk result (λ _. made self.entry out.new.items
            ≡ and_arguments (old_args (3 + length self.entry.params.now) (length self.entry.olds.now))
            (made self.entry out.old.items)) }
    {
        self.push_pairs(out, 3 + self.params.len(), self.olds.len())
    }

    /// Passes what is in scope.
    pub(crate) fn push_scope(self, out: &mut Vec<Sym>) -> Result<(), Unbuilt>
        ensures { IfOk result (λ _. made self.entry out.new.items
            ≡ and_arguments
            (param_args 3 (length self.entry.params.now)
            ++ old_args (3 + length self.entry.params.now) (length self.entry.olds.now))
            (made self.entry out.old.items)) }
    {
        self.push_params(out)?;
        self.push_olds(out)
    }

    /// Passes so many locals from number k on, by pointer.
    pub(crate) fn push_locals(
        self,
        out: &mut Vec<Sym>,
        k: usize,
        count: usize,
    ) -> Result<(), Unbuilt>
        ensures { IfOk result (λ _. made self.entry out.new.items
            ≡ and_arguments (param_args k count) (made self.entry out.old.items)) }
    {
        let Some(end) = k.checked_add(count) else {
            return Err(Unbuilt::Missing);
        };
        for i in k..end {
            self.add(out, &[Sym::Local(i), Sym::Const])?;
        }
        Ok(())
    }

    /// Passes so many frozen networks from local k on: of each its local, and the next one's value.
    pub(crate) fn push_pairs(
        self,
        out: &mut Vec<Sym>,
        k: usize,
        count: usize,
    ) -> Result<(), Unbuilt>
        ensures { IfOk result (λ _. made self.entry out.new.items
            ≡ and_arguments (old_args k count) (made self.entry out.old.items)) }
    {
        const MOST: usize = 1_000_000_000;
        if k > MOST || count > MOST {
            return Err(Unbuilt::Missing);
        }
        for i in 0..count {
            let at = k + 2 * i;
            self.add(
                out,
                &[Sym::Local(at), Sym::Const, Sym::Local(at + 1), Sym::Value],
            )?;
        }
        Ok(())
    }
}
