// Makes the trees that symbols build.

ghost use Rattle.std.specs.Prelude.{◌≡◌, List, IfOk, ◌∷◌, ◌++◌, [], map};
ghost use Rattle.c_meaning.specs.Object.{CType as ObjectType};
ghost use Rattle.c_text.specs.Meant.{term_meant, command_meant};
ghost use Rattle.c_build.specs.Symbols.{built, run, step, empty, and_term, and_command, of_term, of_two, of_three, of_argument, of_line, of_two_line, top_command};
ghost use Rattle.c_build.specs.declared.sym.Sym.TheVariants as S;
ghost use Rattle.c_build.specs.Machine.{stacks_of, of_one, of_pair, passed, line_of};
ghost use Rattle.c_meaning.specs.Syntax.{choice, assign};

use crate::stack::Stack;
use crate::sym::Sym;
use crate::unbuilt::Unbuilt;
use c_text::{Argument, CType, Command, Term};
use std::alloc::Global;
use std::mem;

/// The command that symbols build, the last one that they make. `Missing` where a symbol finds too little.
pub(crate) fn assemble(alloc: Global, syms: &[Sym]) -> Result<Command, Unbuilt>
    ensures { IfOk result (λ c. (Ts : List ObjectType)
        → command_meant Ts c ≡ top_command (built Ts syms.now).commands) }
{
    let mut machine = Machine {
        alloc,
        terms: Stack::new(alloc),
        arguments: Vec::new(alloc),
        commands: Stack::new(alloc),
    };
    for sym in syms {
        machine.step(*sym)?;
    }
    machine.commands.take()
}

/// What is made so far.
#[derive(Drop)]
struct Machine {
    alloc: Global,
    terms: Stack<Term>,
    arguments: Vec<Argument>,
    commands: Stack<Command>,
}

impl Machine {
    /// Does what a symbol says.
    fn step(&mut self, sym: Sym) -> Result<(), Unbuilt>
        ensures { IfOk result (λ _. (Ts : List ObjectType)
            → stacks_of Ts self.new.terms self.new.arguments.items self.new.commands
            ≡ step Ts sym (stacks_of Ts self.old.terms self.old.arguments.items self.old.commands)) }
    {
        match sym {
            Sym::Local(k) => self.terms.put(Term::Local(k)),
            Sym::Literal(literal) => self.terms.put(Term::Literal(literal)),
            Sym::Zeroed(ty) => self.terms.put(Term::Zeroed(ty)),
            Sym::Dot(_) | Sym::Inverse | Sym::Cast(_) | Sym::Signed => self.one(sym),
            Sym::At | Sym::Binary(..) | Sym::Both | Sym::Either => self.two(sym),
            Sym::Choice => self.three(),
            Sym::Braced(count, tail) => self.brace(count, tail),
            Sym::Open => {
                self.arguments = Vec::new(self.alloc);
                Ok(())
            }
            Sym::Value | Sym::Const | Sym::Pointer => self.pass(sym),
            Sym::Define(_) | Sym::Refer(_) | Sym::Answer => self.line(sym),
            Sym::Skip => self.put(Command::Skip),
            Sym::Declare(ty) => self.put(Command::Declare(ty)),
            Sym::Assign => self.assign(),
            Sym::Call(ty, k) => {
                let all = mem::replace(&mut self.arguments, Vec::new(self.alloc));
                self.put(Command::Call(ty, k, all))
            }
            Sym::Branch => self.branch(),
            Sym::Loop(most) => self.repeat(most),
            Sym::Block(count) => self.block(count),
        }
    }

    /// The term on top, in a box.
    fn part(&mut self) -> Result<Box<Term>, Unbuilt>
        ensures terms { IfOk result (λ e. self.old.terms ≡ e.value ∷ self.new.terms) }
        ensures arguments { IfOk result (λ _. self.new.arguments.items ≡ self.old.arguments.items) }
        ensures commands { IfOk result (λ _. self.new.commands ≡ self.old.commands) }
    {
        let term = self.terms.take()?;
        Ok(Box::new(self.alloc, term)?)
    }

    /// Makes a term of the one on top.
    fn one(&mut self, sym: Sym) -> Result<(), Unbuilt>
        ensures { IfOk result (λ _. (Ts : List ObjectType)
            → stacks_of Ts self.new.terms self.new.arguments.items self.new.commands
            ≡ of_term (of_one sym) (stacks_of Ts self.old.terms self.old.arguments.items self.old.commands)) }
    {
        let term = self.part()?;
        self.terms.put(match sym {
            Sym::Dot(k) => Term::Dot(term, k),
            Sym::Cast(ty) => Term::Cast(ty, term),
            Sym::Signed => Term::Signed(term),
            _ => Term::Inverse(term),
        })
    }

    /// Makes a term of the two on top.
    fn two(&mut self, sym: Sym) -> Result<(), Unbuilt>
        ensures { IfOk result (λ _. (Ts : List ObjectType)
            → stacks_of Ts self.new.terms self.new.arguments.items self.new.commands
            ≡ of_two (of_pair sym) (stacks_of Ts self.old.terms self.old.arguments.items self.old.commands)) }
    {
        let second = self.part()?;
        let first = self.part()?;
        self.terms.put(match sym {
            Sym::At => Term::At(first, second),
            Sym::Binary(operator, ty) => Term::Binary(operator, ty, first, second),
            Sym::Both => Term::Both(first, second),
            _ => Term::Either(first, second),
        })
    }

    /// Makes a choice of the three on top.
    fn three(&mut self) -> Result<(), Unbuilt>
        ensures { IfOk result (λ _. (Ts : List ObjectType)
            → stacks_of Ts self.new.terms self.new.arguments.items self.new.commands
            ≡ of_three choice (stacks_of Ts self.old.terms self.old.arguments.items self.old.commands)) }
    {
        let other = self.part()?;
        let one = self.part()?;
        let test = self.part()?;
        self.terms.put(Term::Choice(test, one, other))
    }

    /// Puts so many terms in braces.
    #[tactic(auto, using(crate::proofs::Stacks::braced_made, crate::proofs::Stacks::below_made))]
    fn brace(&mut self, count: usize, tail: Option<CType>) -> Result<(), Unbuilt>
        ensures { IfOk result (λ _. (Ts : List ObjectType)
            → stacks_of Ts self.new.terms self.new.arguments.items self.new.commands
            ≡ step Ts (S.Braced count tail) (stacks_of Ts self.old.terms self.old.arguments.items self.old.commands)) }
    {
        let all = self.terms.take_all(self.alloc, count)?;
        self.terms.put(Term::Braced(all, tail))
    }

    /// Passes the term on top.
    fn pass(&mut self, sym: Sym) -> Result<(), Unbuilt>
        ensures { IfOk result (λ _. (Ts : List ObjectType)
            → stacks_of Ts self.new.terms self.new.arguments.items self.new.commands
            ≡ of_argument (passed sym) (stacks_of Ts self.old.terms self.old.arguments.items self.old.commands)) }
    {
        let term = self.terms.take()?;
        self.arguments.push(match sym {
            Sym::Value => Argument::Value(term),
            Sym::Const => Argument::Const(term),
            _ => Argument::Pointer(term),
        })?;
        Ok(())
    }

    /// Puts a command on top, behind which nothing is passed any more.
    fn put(&mut self, command: Command) -> Result<(), Unbuilt>
        ensures terms { IfOk result (λ _. self.new.terms ≡ self.old.terms) }
        ensures arguments { IfOk result (λ _. self.new.arguments.items ≡ []) }
        ensures commands { IfOk result (λ _. self.new.commands ≡ command ∷ self.old.commands) }
    {
        self.arguments = Vec::new(self.alloc);
        self.commands.put(command)
    }

    /// Makes a command of the term on top.
    fn line(&mut self, sym: Sym) -> Result<(), Unbuilt>
        ensures { IfOk result (λ _. (Ts : List ObjectType)
            → stacks_of Ts self.new.terms self.new.arguments.items self.new.commands
            ≡ of_line (line_of Ts sym) (stacks_of Ts self.old.terms self.old.arguments.items self.old.commands)) }
    {
        let term = self.terms.take()?;
        self.put(match sym {
            Sym::Define(ty) => Command::Define(ty, term),
            Sym::Refer(ty) => Command::Refer(ty, term),
            _ => Command::Answer(term),
        })
    }

    /// Makes an assignment of the two terms on top.
    fn assign(&mut self) -> Result<(), Unbuilt>
        ensures { IfOk result (λ _. (Ts : List ObjectType)
            → stacks_of Ts self.new.terms self.new.arguments.items self.new.commands
            ≡ of_two_line assign (stacks_of Ts self.old.terms self.old.arguments.items self.old.commands)) }
    {
        let value = self.terms.take()?;
        let place = self.terms.take()?;
        self.put(Command::Assign(place, value))
    }

    /// The command on top, in a box.
    fn body(&mut self) -> Result<Box<Command>, Unbuilt>
        ensures terms { IfOk result (λ _. self.new.terms ≡ self.old.terms) }
        ensures arguments { IfOk result (λ _. self.new.arguments.items ≡ self.old.arguments.items) }
        ensures commands { IfOk result (λ c. self.old.commands ≡ c.value ∷ self.new.commands) }
    {
        let command = self.commands.take()?;
        Ok(Box::new(self.alloc, command)?)
    }

    /// Makes a branch of the term and the two commands on top.
    fn branch(&mut self) -> Result<(), Unbuilt>
        ensures { IfOk result (λ _. (Ts : List ObjectType)
            → stacks_of Ts self.new.terms self.new.arguments.items self.new.commands
            ≡ step Ts S.Branch (stacks_of Ts self.old.terms self.old.arguments.items self.old.commands)) }
    {
        let other = self.body()?;
        let one = self.body()?;
        let test = self.terms.take()?;
        self.put(Command::Branch(test, one, other))
    }

    /// Makes a loop of the term and the command on top.
    fn repeat(&mut self, most: u32) -> Result<(), Unbuilt>
        ensures { IfOk result (λ _. (Ts : List ObjectType)
            → stacks_of Ts self.new.terms self.new.arguments.items self.new.commands
            ≡ step Ts (S.Loop most) (stacks_of Ts self.old.terms self.old.arguments.items self.old.commands)) }
    {
        let body = self.body()?;
        let test = self.terms.take()?;
        self.put(Command::Loop(most, test, body))
    }

    /// Makes a block of so many commands.
    #[tactic(auto, using(crate::proofs::Stacks::block_made, crate::proofs::Stacks::below_made))]
    fn block(&mut self, count: usize) -> Result<(), Unbuilt>
        ensures { IfOk result (λ _. (Ts : List ObjectType)
            → stacks_of Ts self.new.terms self.new.arguments.items self.new.commands
            ≡ step Ts (S.Block count) (stacks_of Ts self.old.terms self.old.arguments.items self.old.commands)) }
    {
        let all = self.commands.take_all(self.alloc, count)?;
        self.put(Command::Block(all))
    }
}
