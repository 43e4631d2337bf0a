// The host's files.

use leaf_expr::MOST_LENGTH;
use std::alloc::Global;
use std::fs::File;
use std::io::{self, ErrorKind, Read};
use std::rt;
use yampa_run::{FileFault, Files};

/// One byte more than a file may have, so that a longer one is seen to be too long.
const MOST_BYTES: u64 = MOST_LENGTH as u64 + 1;

/// Files of the host by their paths. Nothing is told of what they hold.
#[derive(Drop)]
pub struct HostFiles<'a, R> {
    rt: &'a R,
}

impl<'a, R> HostFiles<'a, R> {
    /// The host's files, as the runtime reaches them. Nothing is opened yet.
    pub fn new(rt: &'a R) -> HostFiles<'a, R> {
        HostFiles { rt }
    }
}

impl<R: rt::Files> Files for HostFiles<'_, R> {
    ghost use Rattle.std.specs.Prelude.{None};

    ghost told = { λ files name. None };

    fn read(&self, alloc: Global, name: &str) -> Result<Vec<u8>, FileFault> {
        let mut bytes = Vec::new(alloc);
        match File::open(self.rt, name) {
            Ok(file) => match file.take(MOST_BYTES).read_to_end(&mut bytes) {
                Ok(_) => Ok(bytes),
                Err(error) => Err(file_fault(&error)),
            },
            Err(error) => Err(file_fault(&error)),
        }
    }
}

fn file_fault(error: &io::Error) -> FileFault {
    match error.kind() {
        ErrorKind::OutOfMemory => FileFault::Memory,
        _ => FileFault::Unread,
    }
}
