// Where files are read from.

ghost use Rattle.std.specs.Prelude.{◌≡◌, ℕ, List, Option, None, IfErr, IfOk};
ghost use Rattle.yampa_run.specs.KnownFiles.{AgreesWith};
ghost use Rattle.yampa_run.specs.Loading.{IsUnread};

use crate::preparation::Refusal;
use crate::refused::{Role, unread_line};
use std::alloc::Global;
use thiserror::Error;

/// Why a file wasn't read.
#[derive(Clone, Copy, Debug, Error)]
pub enum FileFault {
    /// There is no such file, or it can't be read.
    #[error("cannot be read")]
    Unread,
    /// Allocation failed.
    #[error("memory")]
    Memory,
}

/// Files by their names. They tell contracts the bytes of a name, or nothing of it.
pub trait Files {
    ghost told: { Self → List ℕ → Option (List ℕ) };

    /// The bytes of the file of that name: those that are told, where any are. `Unread` only if
    /// nothing is told of it.
    fn read(&self, alloc: Global, name: &str) -> Result<Vec<u8>, FileFault>
        ensures agrees { IfOk result (λ bytes. AgreesWith (told self.now name.now) bytes.items) }
        ensures unread { IfErr result (λ fault. fault ≡ FileFault.Unread
            → told self.now name.now ≡ None) };
}

/// The bytes of the file of that name, which is read as what the role says.
pub(crate) fn read_file<F: Files>(
    alloc: Global,
    role: Role,
    name: &str,
    files: &F,
) -> Result<Vec<u8>, Refusal>
    ensures read { IfOk result (λ bytes. AgreesWith (F.told files.now name.now) bytes.items) }
    ensures unread { IfErr result (IsUnread role (F.told files.now name.now)) }
{
    match files.read(alloc, name) {
        Ok(bytes) => Ok(bytes),
        Err(FileFault::Memory) => Err(Refusal::Memory),
        Err(FileFault::Unread) => Err(Refusal::Line {
            status: 3,
            line: unread_line(alloc, role)?,
        }),
    }
}
