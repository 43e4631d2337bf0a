// Files that command lines are tried on.

use std::alloc::Global;
use yampa_run::{FileFault, Files};

/// The files of a derivation: `src`, `tgt` and `cert`, whose bytes are told.
#[derive(Drop)]
pub struct ThreeFiles<'a> {
    /// What is in the file of the source.
    pub source: &'a [u8],
    /// What is in the file of the target.
    pub target: &'a [u8],
    /// What is in the file of the certificate.
    pub certificate: &'a [u8],
}

impl Files for ThreeFiles<'_> {
    ghost use Rattle.std.specs.Prelude.{None, Some, bytes_eq, codes, if◌then◌else◌};

    ghost told = { λ files name.
        if bytes_eq name (codes "src") then Some files.source.now else
        if bytes_eq name (codes "tgt") then Some files.target.now else
        if bytes_eq name (codes "cert") then Some files.certificate.now else None };

    fn read(&self, alloc: Global, name: &str) -> Result<Vec<u8>, FileFault> {
        let bytes = match name {
            "src" => self.source,
            "tgt" => self.target,
            "cert" => self.certificate,
            _ => return Err(FileFault::Unread),
        };
        match bytes.to_vec(alloc) {
            Ok(bytes) => Ok(bytes),
            Err(_) => Err(FileFault::Memory),
        }
    }
}
