// A reader that leaves no memory, and the tries of what reads from it.

use crate::ballast::Ballast;
use crate::devices::Pieces;
use crate::refusing::refuse;
use crate::texts::say;
use std::alloc::Global;
use std::io::Read;
use std::{io, mem};

/// From when on allocation fails, and how: see `refuse`.
#[derive(Clone, Copy)]
pub struct Shortage {
    /// The read from which on it is, counted from 1; 0 where it is before the first one.
    pub at_read: usize,
    /// The allocation that fails.
    pub number: usize,
    /// The bytes that are left.
    pub spare: usize,
}

/// Gives its bytes one at a time, and has allocation fail from some read on.
#[derive(Drop)]
pub struct Scarce<'a> {
    alloc: Global,
    pieces: Pieces<'a>,
    reads: usize,
    shortage: Shortage,
    ballast: Option<Ballast>,
}

impl<'a> Scarce<'a> {
    /// Gives the bytes, and has allocation fail at its turn.
    pub fn new(alloc: Global, bytes: &'a [u8], shortage: Shortage) -> Scarce<'a> {
        let mut reader = Scarce {
            alloc,
            pieces: Pieces::new(bytes, 1, 0),
            reads: 0,
            shortage,
            ballast: None,
        };
        reader.refuse_at_turn();
        reader
    }

    /// Has allocation fail where it is the turn of this read.
    fn refuse_at_turn(&mut self) {
        if self.reads == self.shortage.at_read {
            let taken = refuse(self.alloc, self.shortage.number, self.shortage.spare);
            drop(mem::replace(&mut self.ballast, taken));
        }
    }
}

impl Read for Scarce<'_> {
    fn read(&mut self, buf: &mut [u8]) -> io::Result<usize> {
        self.reads = self.reads.saturating_add(1);
        self.refuse_at_turn();
        self.pieces.read(buf)
    }
}

/// How a try ends.
#[derive(Clone, Copy)]
pub enum Ending {
    /// As with ample memory.
    Whole,
    /// Refused memory, behind so many lines of the whole.
    Refused(usize),
    /// Otherwise.
    Other,
}

/// Tries with memory that is short at each read in turn, and at each with a later allocation that
/// fails, or with more bytes left, until one ends as with ample memory.
#[derive(Clone, Copy)]
pub struct Tries {
    last_read: usize,
    next: Shortage,
    refused: bool,
    behind_lines: bool,
    other: bool,
}

impl Tries {
    /// Before the first try, for so many reads.
    pub fn new(reads: usize) -> Tries {
        Tries {
            last_read: reads,
            next: Shortage {
                at_read: 0,
                number: 1,
                spare: 0,
            },
            refused: false,
            behind_lines: false,
            other: false,
        }
    }

    /// What the next try is short of; `None` if each read has had its turn.
    pub fn next(&self) -> Option<Shortage> {
        if self.next.at_read <= self.last_read {
            Some(self.next)
        } else {
            None
        }
    }

    /// Notes how the next try ends, and goes on to the one behind it.
    pub fn note(&mut self, ending: Ending) {
        match ending {
            Ending::Whole => {
                self.next.at_read = self.next.at_read.saturating_add(1);
                self.next.number = 1;
                self.next.spare = 0;
                return;
            }
            Ending::Refused(lines) => {
                self.refused = true;
                self.behind_lines = self.behind_lines || lines > 0;
            }
            Ending::Other => self.other = true,
        }
        self.next.number = self.next.number.saturating_add(1);
        self.next.spare = more_than(self.next.spare);
    }

    /// Says whether tries lacked memory, whether also behind lines, and whether each ended as it may.
    pub fn tell(&self, out: &mut String) {
        let goes_on = self.next().is_some();
        match (self.other || goes_on, self.refused, self.behind_lines) {
            (true, _, _) => say(out, "another answer"),
            (false, false, _) => say(out, "never refused"),
            (false, true, false) => say(out, "refused at first"),
            (false, true, true) => say(out, "refused, also behind lines"),
        }
    }
}

/// How many tries there are at most.
pub const MOST_TRIES: usize = 20_000;

/// A few bytes more, so that allocation fails that the try before didn't come to.
fn more_than(spare: usize) -> usize {
    spare.saturating_add(16).saturating_add(spare / 32)
}
