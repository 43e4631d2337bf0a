// Readers and writers that give and take little, and fail.

use crate::texts::say;
use std::cell::RefCell;
use std::io;
use std::io::{Error, ErrorKind, Read, Write};

/// Gives its bytes, so many at a time, and fails at the read of that number, counted from 1.
#[derive(Drop)]
pub struct Pieces<'a> {
    bytes: &'a [u8],
    most: usize,
    reads: usize,
    fails_at: usize,
}

impl<'a> Pieces<'a> {
    /// Gives the bytes; never fails where `fails_at` is 0.
    pub fn new(bytes: &'a [u8], most: usize, fails_at: usize) -> Pieces<'a> {
        Pieces {
            bytes,
            most,
            reads: 0,
            fails_at,
        }
    }
}

impl Read for Pieces<'_> {
    fn read(&mut self, buf: &mut [u8]) -> io::Result<usize> {
        self.reads = self.reads.saturating_add(1);
        if self.reads == self.fails_at {
            return Err(Error::from(ErrorKind::Other));
        }
        let n = self.bytes.len().min(buf.len()).min(self.most);
        let (piece, rest) = self.bytes.split_at(n);
        buf[..n].copy_from_slice(piece);
        self.bytes = rest;
        Ok(n)
    }
}

/// Keeps what it takes, so many bytes at a time, and fails at the write of that number, counted
/// from 1. At a failure it takes none, or answers so.
#[derive(Drop)]
pub struct Small {
    kept: Vec<u8>,
    most: usize,
    writes: usize,
    fails_at: usize,
    quiet: bool,
}

impl Small {
    /// Keeps bytes behind those that are there; never fails where `fails_at` is 0. Where it is
    /// quiet, it takes 0 bytes and answers no error.
    pub fn new(kept: Vec<u8>, most: usize, fails_at: usize, quiet: bool) -> Small {
        Small {
            kept,
            most,
            writes: 0,
            fails_at,
            quiet,
        }
    }

    /// What it took.
    pub fn into_kept(self) -> Vec<u8> {
        self.kept
    }
}

impl Write for Small {
    fn write(&mut self, buf: &[u8]) -> io::Result<usize> {
        self.writes = self.writes.saturating_add(1);
        if self.writes == self.fails_at {
            return if self.quiet {
                Ok(0)
            } else {
                Err(Error::from(ErrorKind::Other))
            };
        }
        let n = buf.len().min(self.most);
        self.kept.extend_from_slice(&buf[..n])?;
        Ok(n)
    }

    fn flush(&mut self) -> io::Result<()> {
        Ok(())
    }
}

/// Gives its bytes one at a time, and notes at each read which text was written before.
#[derive(Drop)]
pub struct Witness<'a> {
    pieces: Pieces<'a>,
    written: &'a RefCell<String>,
    seen: &'a RefCell<String>,
}

impl<'a> Witness<'a> {
    /// Notes in `seen` what is added to `written`.
    pub fn new(
        bytes: &'a [u8],
        written: &'a RefCell<String>,
        seen: &'a RefCell<String>,
    ) -> Witness<'a> {
        Witness {
            pieces: Pieces::new(bytes, 1, 0),
            written,
            seen,
        }
    }
}

impl Read for Witness<'_> {
    fn read(&mut self, buf: &mut [u8]) -> io::Result<usize> {
        note(self.written, self.seen);
        self.pieces.read(buf)
    }
}

/// Adds to what is seen what was written since the read before, and `.` for the read.
fn note(written: &RefCell<String>, seen: &RefCell<String>) {
    if let (Ok(mut text), Ok(mut seen)) = (written.try_borrow_mut(), seen.try_borrow_mut()) {
        say(&mut seen, text.as_str());
        say(&mut seen, ".");
        text.clear();
    }
}

/// Writes into a text that another sees.
#[derive(Drop)]
pub struct Shared<'a> {
    pub written: &'a RefCell<String>,
}

impl Write for Shared<'_> {
    fn write(&mut self, buf: &[u8]) -> io::Result<usize> {
        if let Ok(mut text) = self.written.try_borrow_mut() {
            say(&mut text, str::from_utf8(buf).unwrap_or("no text"));
        }
        Ok(buf.len())
    }

    fn flush(&mut self) -> io::Result<()> {
        Ok(())
    }
}

/// Gives a value, and then lines that repeat it, so many bytes in all.
#[derive(Drop)]
pub struct Repeats {
    pub left: usize,
    pub first: bool,
}

impl Read for Repeats {
    fn read(&mut self, buf: &mut [u8]) -> io::Result<usize> {
        let line = if self.first {
            b"0\n".as_slice()
        } else {
            b"+1 =\n".as_slice()
        };
        self.first = false;
        let n = line.len().min(buf.len()).min(self.left);
        buf[..n].copy_from_slice(&line[..n]);
        self.left -= n;
        Ok(n)
    }
}

/// Takes all, and keeps nothing.
#[derive(Drop)]
pub struct Sink;

impl Write for Sink {
    fn write(&mut self, buf: &[u8]) -> io::Result<usize> {
        Ok(buf.len())
    }

    fn flush(&mut self) -> io::Result<()> {
        Ok(())
    }
}
