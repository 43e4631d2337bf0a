// The structs that the C of a program needs, each over earlier ones.

use crate::index::Index;
use crate::shapes::MOST_MEMBERS;
use crate::table::{BYTE, COUNT, INTEGER, NATURAL, TRUTH, array_of, struct_at};
use crate::unbuilt::Unbuilt;
use c_text::{Base, CType, Kind, Struct};
use cell_core::Form;
use code_fits::{Program, TypeEntry};
use net_code::Function;
use std::alloc::Global;

/// Structs, and where each stands.
#[derive(Drop)]
pub(crate) struct Structs {
    alloc: Global,
    pub(crate) all: Vec<Struct>,
    pub(crate) index: Index,
}

/// All structs of a program: those of its types, what keeps nothing, what its functions keep, the state.
pub(crate) fn structs_of(alloc: Global, program: &Program) -> Result<Structs, Unbuilt> {
    let mut structs = Structs {
        alloc,
        all: Vec::new(alloc),
        index: Index::new(alloc)?,
    };
    let types = structs.add_types(program)?;
    structs.add(Kind::Kept, &[])?;
    let kepts = structs.add_functions(program, types.as_slice())?;
    let Some(whole) = kepts.as_slice().last() else {
        return Err(Unbuilt::Missing);
    };
    structs.add(Kind::Kept, &[TRUTH, *whole])?;
    Ok(structs)
}

/// The type at a place. `Missing` if there is none.
fn at(types: &[CType], k: usize) -> Result<CType, Unbuilt> {
    match types.get(k) {
        Some(ty) => Ok(*ty),
        None => Err(Unbuilt::Missing),
    }
}

/// What functions keep, of all that is known.
fn all_at(alloc: Global, kepts: &[CType], fs: &[usize]) -> Result<Vec<CType>, Unbuilt> {
    let mut all = Vec::with_capacity(alloc, fs.len())?;
    for f in fs {
        all.push(at(kepts, *f)?)?;
    }
    Ok(all)
}

impl Structs {
    /// A struct, which is added if it isn't there.
    fn add(&mut self, kind: Kind, members: &[CType]) -> Result<CType, Unbuilt> {
        if let Some(k) = struct_at(self.all.as_slice(), &self.index, kind, members) {
            return Ok(CType::One(Base::Struct(k)));
        }
        let k = self.all.len();
        self.index.add(kind, members)?;
        let mut copy = Vec::with_capacity(self.alloc, members.len())?;
        copy.extend_from_slice(members)?;
        self.all.push(Struct {
            kind,
            members: copy,
        })?;
        Ok(CType::One(Base::Struct(k)))
    }

    /// The types of C of the types of a program.
    fn add_types(&mut self, program: &Program) -> Result<Vec<CType>, Unbuilt> {
        let mut types = Vec::with_capacity(self.alloc, program.types.entries.len())?;
        for (k, entry) in program.types.entries.iter().enumerate() {
            let room = match program.bounds.get(k) {
                Some(bound) => *bound,
                None => 0,
            };
            let ty = self.add_type(types.as_slice(), *entry, room)?;
            types.push(ty)?;
        }
        Ok(types)
    }

    /// The type of C of a type over earlier ones; a list has room for so many elements.
    fn add_type(
        &mut self,
        types: &[CType],
        entry: TypeEntry,
        room: usize,
    ) -> Result<CType, Unbuilt> {
        match entry {
            TypeEntry::Unit => Ok(BYTE),
            TypeEntry::Bool => Ok(TRUTH),
            TypeEntry::Int => Ok(INTEGER),
            TypeEntry::Pair(a, b) => self.add(Kind::Pair, &[at(types, a)?, at(types, b)?]),
            TypeEntry::Event(a) => self.add(Kind::Event, &[TRUTH, at(types, a)?]),
            TypeEntry::List(a) => { self.add(Kind::List, &[COUNT, array_of(room, at(types, a)?)?]) }
        }
    }

    /// What the functions of a program keep.
    fn add_functions(&mut self, program: &Program, types: &[CType]) -> Result<Vec<CType>, Unbuilt> {
        let mut kepts = Vec::with_capacity(self.alloc, program.functions.len())?;
        for (k, function) in program.functions.iter().enumerate() {
            let value = match program.layouts.get(k) {
                Some(layout) => match layout.kept {
                    Some(ty) => at(types, ty)?,
                    None => BYTE,
                },
                None => return Err(Unbuilt::Missing),
            };
            let kept = self.add_function(kepts.as_slice(), value, function)?;
            kepts.push(kept)?;
        }
        Ok(kepts)
    }

    /// What a function keeps over earlier ones, itself a value of this type.
    fn add_function(
        &mut self,
        kepts: &[CType],
        value: CType,
        function: &Function,
    ) -> Result<CType, Unbuilt> {
        match function {
            Function::Seq(f, g) => self.add(Kind::Kept, &[at(kepts, *f)?, at(kepts, *g)?]),
            Function::First(f)
            | Function::Old(_, f, _, _)
            | Function::InitialOut(_, f)
            | Function::InitialIn(_, f) => at(kepts, *f),
            Function::Par(fs) => self.add_members(kepts, fs.as_slice()),
            Function::Loop(_, f) => self.add(Kind::Kept, &[value, at(kepts, *f)?]),
            Function::Cell(form, _) => self.add_cell(*form, value),
            Function::Clock(form) => self.add_cell(*form, INTEGER),
            Function::Accum(..) => self.add_cell(Form::AccumBy, value),
            Function::Switch(f, t)
            | Function::DSwitch(f, t)
            | Function::RSwitch(f, t)
            | Function::DrSwitch(f, t) => {
                self.add(Kind::Kept, &[TRUTH, value, at(kepts, *f)?, at(kepts, *t)?])
            }
            Function::KSwitch(f, e, t) => {
                let all = at(kepts, *f)?;
                self.add_freezing(value, all, at(kepts, *e)?, at(kepts, *t)?)
            }
            Function::PSwitch(_, fs, e, t) => {
                let all = self.add_members(kepts, fs.as_slice())?;
                self.add_freezing(value, all, at(kepts, *e)?, at(kepts, *t)?)
            }
            Function::Collection(fs, _, t) => {
                self.add_collection(kepts, value, fs.as_slice(), at(kepts, *t)?)
            }
            Function::Arr(_) | Function::Same => self.add(Kind::Kept, &[]),
        }
    }

    /// A cell that keeps values of a type.
    fn add_cell(&mut self, form: Form, value: CType) -> Result<CType, Unbuilt> {
        match form {
            Form::After(_) => self.add(Kind::Kept, &[TRUTH, INTEGER, value]),
            Form::Repeatedly(_) => self.add(Kind::Kept, &[INTEGER, value]),
            Form::Time => self.add(Kind::Kept, &[INTEGER]),
            Form::Integral => self.add(Kind::Kept, &[INTEGER, INTEGER]),
            Form::Delay(q) => {
                let times = array_of(q as usize, NATURAL)?;
                let values = array_of(q as usize, value)?;
                self.add(Kind::Kept, &[NATURAL, value, COUNT, COUNT, times, values])
            }
            Form::IPre | Form::Hold | Form::AccumBy => self.add(Kind::Kept, &[value]),
        }
    }

    /// What members keep.
    fn add_members(&mut self, kepts: &[CType], fs: &[usize]) -> Result<CType, Unbuilt> {
        let members = all_at(self.alloc, kepts, fs)?;
        self.add(Kind::Kept, members.as_slice())
    }

    /// A switch that freezes, with what it watches, the watcher, and what resumes.
    fn add_freezing(
        &mut self,
        value: CType,
        watched: CType,
        watcher: CType,
        resumer: CType,
    ) -> Result<CType, Unbuilt> {
        let front = self.add(Kind::Kept, &[watched, watcher])?;
        let taker = self.add(Kind::Kept, &[INTEGER, watched, resumer])?;
        self.add(Kind::Kept, &[TRUTH, value, front, taker])
    }

    /// A collection of members, and what one keeps that was started by a value.
    fn add_collection(
        &mut self,
        kepts: &[CType],
        value: CType,
        fs: &[usize],
        started: CType,
    ) -> Result<CType, Unbuilt> {
        let members = all_at(self.alloc, kepts, fs)?;
        let mut all = Vec::new(self.alloc);
        all.extend_from_slice(&[COUNT, value, started])?;
        all.extend_from_slice(members.as_slice())?;
        let entry = self.add(Kind::Kept, all.as_slice())?;
        let side = array_of(MOST_MEMBERS, entry)?;
        let sides = array_of(2, side)?;
        self.add(Kind::Kept, &[COUNT, COUNT, sides])
    }
}
