// Prints commands.

ghost use Rattle.std.specs.Prelude.{◌≡◌, ◌++◌, codes, true, IfOk, string_bytes};
ghost use Rattle.std.specs.Fmt.{decimal};
ghost use Rattle.c_text.specs.TermText.{operand_text, term_text, valued_text};
ghost use Rattle.c_text.specs.PlaceType.{place_type};
ghost use Rattle.c_text.specs.TypeText.{left_out};
ghost use Rattle.c_text.specs.CommandText.{after, after_all, answer_text, answered_text, argument_text, arguments_text, assignment_text, by_value, call_text, called_text, command_text, constant_head, constant_text, counted, declaration_text, end_text, inner, is_skip, lines_text, loop_head, next_text, otherwise_text, passes_nothing, printed, reference_head, reference_text, separator_text};

use crate::name::{Name, push_name};
use crate::place::place_type;
use crate::term::{Scope, push_address, push_operand, push_term, push_valued};
use crate::tree::{Argument, Base, CType, Command, Local, Scalar, Struct, Term};
use crate::types::{is_empty, push_declared, push_type};
use crate::used::is_used;
use std::alloc::{AllocError, Global};

/// What a command stands under: the prefix of names, the structs and which of them have no member, the
/// function's result and which locals it uses, what each line begins with, and the locals.
#[derive(Clone, Copy)]
pub(crate) struct Context<'a> {
    pub alloc: Global,
    pub prefix: &'a str,
    pub structs: &'a [Struct],
    pub empty: &'a [bool],
    pub result: CType,
    pub used: &'a [bool],
    pub margin: &'a str,
    pub locals: &'a [Local],
}

/// Whether there is nothing to do.
fn is_skip(command: &Command) -> bool
    ensures { result ≡ is_skip command.now }
{
    match command {
        Command::Skip => true,
        _ => false,
    }
}

/// The local that holds a value.
fn by_value(ty: CType) -> Local
    ensures { result ≡ by_value ty }
{
    Local { ty, pointer: false }
}

/// Adds what a command declares to the locals.
#[cycle(declare)]
#[tactic(auto, using(crate::proofs::Rows::after_block))]
fn declare(locals: &mut Vec<Local>, command: &Command) -> Result<(), AllocError>
    ensures { IfOk result (λ _. locals.new.items ≡ after locals.old.items command.now) }
{
    match command {
        Command::Declare(ty) | Command::Define(ty, _) | Command::Call(ty, _, _) => {
            locals.push(by_value(*ty))?;
        }
        Command::Refer(ty, _) => locals.push(Local {
            ty: *ty,
            pointer: true,
        })?,
        Command::Block(all) => declare_all(locals, all.as_slice())?,
        Command::Skip
        | Command::Assign(..)
        | Command::Branch(..)
        | Command::Loop(..)
        | Command::Answer(..) => {}
    }
    Ok(())
}

/// Adds what commands declare to the locals.
#[cycle(declare)]
fn declare_all(locals: &mut Vec<Local>, all: &[Command]) -> Result<(), AllocError>
    ensures { IfOk result (λ _. locals.new.items ≡ after_all locals.old.items all.now) }
{
    for command in all {
        declare(locals, command)?;
    }
    Ok(())
}

/// Adds what stands before an argument or a parameter.
pub(crate) fn push_separator(text: &mut String, first: bool) -> Result<(), AllocError>
    ensures { IfOk result (λ _. string_bytes text.new
        ≡ string_bytes text.old ++ separator_text first) }
{
    if !first {
        text.push_str(", ")?;
    }
    Ok(())
}

/// A copy of the locals.
fn copied(alloc: Global, locals: &[Local]) -> Result<Vec<Local>, AllocError>
    ensures { IfOk result (λ copies. copies.items ≡ locals.now) }
{
    let mut copies = Vec::with_capacity(alloc, locals.len())?;
    copies.extend_from_slice(locals)?;
    Ok(copies)
}

/// The locals inside a loop: also its counter.
fn counted(alloc: Global, locals: &[Local]) -> Result<Vec<Local>, AllocError>
    ensures { IfOk result (λ all. all.items ≡ counted locals.now) }
{
    let mut all = copied(alloc, locals)?;
    all.push(by_value(CType::One(Base::Number(Scalar::Uint32))))?;
    Ok(all)
}

impl<'a> Context<'a> {
    /// What an expression stands under there.
    fn scope(self) -> Scope<'a>
        ensures prefix { result.prefix.now ≡ self.entry.prefix.now }
        ensures structs { result.structs.now ≡ self.entry.structs.now }
        ensures locals { result.locals.now ≡ self.entry.locals.now }
    {
        Scope {
            prefix: self.prefix,
            structs: self.structs,
            locals: self.locals,
        }
    }

    /// Adds the name of the next local.
    fn push_next(self, text: &mut String) -> Result<(), AllocError>
        ensures { IfOk result (λ _. string_bytes text.new
            ≡ string_bytes text.old ++ printed next_text self.entry) }
    {
        push_name(text, self.prefix, Name::Local(self.locals.len()))
    }

    /// Adds the end of the line that declares it, which names it where it isn't used.
    fn push_line_end(self, text: &mut String) -> Result<(), AllocError>
        ensures { IfOk result (λ _. string_bytes text.new
            ≡ string_bytes text.old ++ printed end_text self.entry) }
    {
        if is_used(self.used, self.locals.len()) {
            text.push_str(";\n")?;
        } else {
            text.push_str("; (void)")?;
            self.push_next(text)?;
            text.push_str(";\n")?;
        }
        Ok(())
    }

    /// Adds the declaration of a local.
    fn push_declaration(self, text: &mut String, ty: CType) -> Result<(), AllocError>
        ensures { IfOk result (λ _. string_bytes text.new ≡ string_bytes text.old
            ++ left_out self.entry.empty.now ty (printed declaration_text self.entry ty)) }
    {
        if !is_empty(self.empty, ty) {
            text.push_str(self.margin)?;
            push_declared(text, self.prefix, ty, Name::Local(self.locals.len()))?;
            self.push_line_end(text)?;
        }
        Ok(())
    }

    /// Adds the line of a constant up to its value.
    fn push_constant_head(self, text: &mut String, ty: CType) -> Result<(), AllocError>
        ensures { IfOk result (λ _. string_bytes text.new
            ≡ string_bytes text.old ++ printed constant_head self.entry ty) }
    {
        text.push_str(self.margin)?;
        text.push_str("const ")?;
        push_declared(text, self.prefix, ty, Name::Local(self.locals.len()))?;
        text.push_str(" = ")?;
        Ok(())
    }

    /// Adds the definition of a local.
    fn push_definition(self, text: &mut String, ty: CType, e: &Term) -> Result<(), AllocError>
        ensures { IfOk result (λ _. string_bytes text.new ≡ string_bytes text.old
            ++ left_out self.entry.empty.now ty
            (printed constant_text self.entry ty
            (term_text self.entry.prefix.now self.entry.structs.now self.entry.locals.now e.now))) }
    {
        if !is_empty(self.empty, ty) {
            self.push_constant_head(text, ty)?;
            push_term(text, self.scope(), e)?;
            self.push_line_end(text)?;
        }
        Ok(())
    }

    /// Adds the line of a pointer up to where it leads.
    fn push_reference_head(self, text: &mut String, ty: CType) -> Result<(), AllocError>
        ensures { IfOk result (λ _. string_bytes text.new
            ≡ string_bytes text.old ++ printed reference_head self.entry ty) }
    {
        text.push_str(self.margin)?;
        text.push_str("const ")?;
        push_type(text, self.prefix, ty)?;
        text.push_str(" *const ")?;
        self.push_next(text)?;
        text.push_str(" = ")?;
        Ok(())
    }

    /// Adds a pointer.
    fn push_reference(self, text: &mut String, ty: CType, e: &Term) -> Result<(), AllocError>
        ensures { IfOk result (λ _. string_bytes text.new ≡ string_bytes text.old
            ++ left_out self.entry.empty.now ty (printed reference_text self.entry ty e.now)) }
    {
        if !is_empty(self.empty, ty) {
            self.push_reference_head(text, ty)?;
            push_address(text, self.scope(), e)?;
            self.push_line_end(text)?;
        }
        Ok(())
    }

    /// Adds an assignment.
    fn push_assignment(self, text: &mut String, e: &Term, v: &Term) -> Result<(), AllocError>
        ensures { IfOk result (λ _. string_bytes text.new ≡ string_bytes text.old
            ++ left_out self.entry.empty.now
            (place_type self.entry.structs.now self.entry.locals.now e.now)
            (printed assignment_text self.entry e.now v.now)) }
    {
        let ty = place_type(self.structs, self.locals, e);
        if !is_empty(self.empty, ty) {
            text.push_str(self.margin)?;
            push_term(text, self.scope(), e)?;
            text.push_str(" = ")?;
            push_valued(text, self.scope(), ty, v)?;
            text.push_str(";\n")?;
        }
        Ok(())
    }

    /// Whether a pointer is passed to what has no member.
    fn passes_nothing(self, argument: &Argument) -> bool
        ensures { result ≡ printed passes_nothing self.entry argument.now }
    {
        match argument {
            Argument::Value(_) => false,
            Argument::Const(e) | Argument::Pointer(e) => is_empty(
                self.empty,
                place_type(self.structs, self.locals, e),
            ),
        }
    }

    /// Adds an argument.
    fn push_argument(self, text: &mut String, argument: &Argument) -> Result<(), AllocError>
        ensures { IfOk result (λ _. string_bytes text.new
            ≡ string_bytes text.old ++ printed argument_text self.entry argument.now) }
    {
        match argument {
            Argument::Value(e) => push_term(text, self.scope(), e),
            Argument::Const(e) | Argument::Pointer(e) => push_address(text, self.scope(), e),
        }
    }

    /// Adds arguments.
    fn push_arguments(self, text: &mut String, all: &[Argument]) -> Result<(), AllocError>
        ensures { IfOk result (λ _. string_bytes text.new
            ≡ string_bytes text.old ++ printed arguments_text self.entry true all.now) }
    {
        let mut first = true;
        for argument in all {
            if !self.passes_nothing(argument) {
                push_separator(text, first)?;
                self.push_argument(text, argument)?;
                first = false;
            }
        }
        Ok(())
    }

    /// Adds a call, whose result is a local, if it has a member.
    fn push_call(
        self,
        text: &mut String,
        ty: CType,
        k: usize,
        all: &[Argument],
    ) -> Result<(), AllocError>
        ensures { IfOk result (λ _. string_bytes text.new ≡ string_bytes text.old
            ++ printed called_text self.entry ty (printed call_text self.entry k all.now)) }
    {
        if is_empty(self.empty, ty) {
            text.push_str(self.margin)?;
            self.push_called(text, k, all)?;
            text.push_str(";\n")?;
            return Ok(());
        }
        self.push_constant_head(text, ty)?;
        self.push_called(text, k, all)?;
        self.push_line_end(text)
    }

    /// Adds the call itself.
    fn push_called(self, text: &mut String, k: usize, all: &[Argument]) -> Result<(), AllocError>
        ensures { IfOk result (λ _. string_bytes text.new
            ≡ string_bytes text.old ++ printed call_text self.entry k all.now) }
    {
        push_name(text, self.prefix, Name::Function(k))?;
        text.push_str("(")?;
        self.push_arguments(text, all)?;
        text.push_str(")")?;
        Ok(())
    }

    /// Adds what is returned.
    fn push_answer(self, text: &mut String, e: &Term) -> Result<(), AllocError>
        ensures { IfOk result (λ _. string_bytes text.new
            ≡ string_bytes text.old ++ printed answer_text self.entry e.now) }
    {
        text.push_str(self.margin)?;
        text.push_str("return")?;
        self.push_answered(text, e)?;
        text.push_str(";\n")?;
        Ok(())
    }

    /// Adds the value that is returned, if it has a member.
    fn push_answered(self, text: &mut String, e: &Term) -> Result<(), AllocError>
        ensures { IfOk result (λ _. string_bytes text.new
            ≡ string_bytes text.old ++ printed answered_text self.entry e.now) }
    {
        if !is_empty(self.empty, self.result) {
            text.push_str(" ")?;
            push_valued(text, self.scope(), self.result, e)?;
        }
        Ok(())
    }

    /// Adds a command.
    #[cycle(push_command)]
    #[tactic(auto, using(crate::proofs::Rows::block_text))]
    pub(crate) fn push_command(self, text: &mut String, command: &Command) -> Result<(), AllocError>
        ensures { IfOk result (λ _. string_bytes text.new
            ≡ string_bytes text.old ++ printed command_text self.entry command.now) }
    {
        match command {
            Command::Skip => Ok(()),
            Command::Block(all) => self.push_block(text, all.as_slice()),
            Command::Declare(ty) => self.push_declaration(text, *ty),
            Command::Define(ty, e) => self.push_definition(text, *ty, e),
            Command::Refer(ty, e) => self.push_reference(text, *ty, e),
            Command::Assign(e, v) => self.push_assignment(text, e, v),
            Command::Call(ty, k, all) => self.push_call(text, *ty, *k, all.as_slice()),
            Command::Branch(c, a, b) => {
                if is_skip(a) {
                    self.push_unless(text, c)?;
                    self.push_inner(text, b)?;
                    return self.push_end(text);
                }
                self.push_if(text, c)?;
                self.push_inner(text, a)?;
                self.push_otherwise(text, b)?;
                self.push_end(text)
            }
            Command::Loop(n, c, a) => {
                let counted = counted(self.alloc, self.locals)?;
                let within = Context {
                    locals: counted.as_slice(),
                    ..self
                };
                self.push_for(text, *n, c)?;
                within.push_inner(text, a)?;
                self.push_end(text)
            }
            Command::Answer(e) => self.push_answer(text, e),
        }
    }

    /// Adds commands, one after the other.
    #[cycle(push_command)]
    fn push_block(self, text: &mut String, all: &[Command]) -> Result<(), AllocError>
        ensures { IfOk result (λ _. string_bytes text.new
            ≡ string_bytes text.old ++ printed lines_text self.entry all.now) }
    {
        let mut grown = copied(self.alloc, self.locals)?;
        for command in all {
            let here = Context {
                locals: grown.as_slice(),
                ..self
            };
            here.push_command(text, command)?;
            declare(&mut grown, command)?;
        }
        Ok(())
    }

    /// Adds a command, one level in.
    #[cycle(push_command)]
    fn push_inner(self, text: &mut String, command: &Command) -> Result<(), AllocError>
        ensures { IfOk result (λ _. string_bytes text.new ≡ string_bytes text.old
            ++ printed (λ P E Ss R U m L. command_text P E Ss R U (inner m) L command.now) self.entry) }
    {
        let outer = self.margin;
        let margin = format!(in self.alloc; "{outer}    ")?;
        let within = Context {
            margin: margin.as_str(),
            ..self
        };
        within.push_command(text, command)
    }

    /// Adds the line that begins what is done where a test fails.
    fn push_unless(self, text: &mut String, c: &Term) -> Result<(), AllocError>
        ensures { IfOk result (λ _. string_bytes text.new ≡ string_bytes text.old
            ++ (self.entry.margin.now
            ++ (codes "if ("
            ++ (codes "!"
            ++ (operand_text c.now
            (term_text self.entry.prefix.now self.entry.structs.now self.entry.locals.now c.now)
            ++ codes ") {\n"))))) }
    {
        text.push_str(self.margin)?;
        text.push_str("if (")?;
        text.push_str("!")?;
        push_operand(text, self.scope(), c)?;
        text.push_str(") {\n")?;
        Ok(())
    }

    /// Adds the line that begins what is done where a test holds.
    fn push_if(self, text: &mut String, c: &Term) -> Result<(), AllocError>
        ensures { IfOk result (λ _. string_bytes text.new ≡ string_bytes text.old
            ++ (self.entry.margin.now
            ++ (codes "if ("
            ++ (term_text self.entry.prefix.now self.entry.structs.now self.entry.locals.now c.now
            ++ codes ") {\n")))) }
    {
        text.push_str(self.margin)?;
        text.push_str("if (")?;
        push_term(text, self.scope(), c)?;
        text.push_str(") {\n")?;
        Ok(())
    }

    /// Adds the line that ends a block.
    fn push_end(self, text: &mut String) -> Result<(), AllocError>
        ensures { IfOk result (λ _. string_bytes text.new
            ≡ string_bytes text.old ++ (self.entry.margin.now ++ codes "}\n")) }
    {
        text.push_str(self.margin)?;
        text.push_str("}\n")?;
        Ok(())
    }

    /// Adds the other side, if there is something to do.
    #[cycle(push_command)]
    fn push_otherwise(self, text: &mut String, b: &Command) -> Result<(), AllocError>
        ensures { IfOk result (λ _. string_bytes text.new ≡ string_bytes text.old
            ++ printed (λ P E Ss R U m L. otherwise_text P E Ss R U m L
            (is_skip b.now) (command_text P E Ss R U (inner m) L b.now)) self.entry) }
    {
        if !is_skip(b) {
            text.push_str(self.margin)?;
            text.push_str("} else {\n")?;
            self.push_inner(text, b)?;
        }
        Ok(())
    }

    /// Adds how far a loop over the next local goes.
    fn push_bound(self, text: &mut String, n: u32) -> Result<(), AllocError>
        ensures { IfOk result (λ _. string_bytes text.new ≡ string_bytes text.old
            ++ (printed next_text self.entry
            ++ (codes " < UINT32_C(" ++ (decimal n ++ codes ")) && ")))) }
    {
        self.push_next(text)?;
        text.push_str(" < UINT32_C(")?;
        write!(text, "{n}")?;
        text.push_str(")) && ")?;
        Ok(())
    }

    /// Adds the head of a loop over the next local, up to its test.
    fn push_loop_head(self, text: &mut String, n: u32) -> Result<(), AllocError>
        ensures { IfOk result (λ _. string_bytes text.new
            ≡ string_bytes text.old ++ printed loop_head self.entry n) }
    {
        text.push_str(self.margin)?;
        text.push_str("for (uint32_t ")?;
        self.push_next(text)?;
        text.push_str(" = 0; (")?;
        self.push_bound(text, n)?;
        Ok(())
    }

    /// Adds the line that begins a loop over the next local.
    fn push_for(self, text: &mut String, n: u32, c: &Term) -> Result<(), AllocError>
        ensures { IfOk result (λ _. string_bytes text.new ≡ string_bytes text.old
            ++ (printed loop_head self.entry n
            ++ (operand_text c.now
            (term_text self.entry.prefix.now self.entry.structs.now
            (counted self.entry.locals.now) c.now)
            ++ (codes "; " ++ (printed next_text self.entry ++ codes "++) {\n"))))) }
    {
        let counted = counted(self.alloc, self.locals)?;
        let within = Context {
            locals: counted.as_slice(),
            ..self
        };
        self.push_loop_head(text, n)?;
        push_operand(text, within.scope(), c)?;
        text.push_str("; ")?;
        self.push_next(text)?;
        text.push_str("++) {\n")?;
        Ok(())
    }
}
