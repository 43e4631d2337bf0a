// The bytes that were read of a stream and not yet answered.

ghost use Rattle.std.specs.Prelude.{◌≡◌, ◌≤◌, ◌<◌, ◌+◌, ℕ, List, [], length, take, drop, IfOk, IfSome, IfNone, vec_len, vec_capacity};
ghost use Rattle.stream_text.specs.TextLines.{IsFeedFree, IsFirstFeed};
ghost use Rattle.stream_text.specs.Pieces.{KeepsPiece};
ghost use Rattle.stream_text.specs.declared.kept.TheConstants.{ROOM};

use crate::line::{LINE_FEED, MOST_BYTES};
use memchr::memchr;
use sample_core::Memory;
use std::alloc::Global;
use std::io::{self, Read};
use std::marker::Model;

/// The most bytes of a piece.
const PIECE: usize = 4_096;

/// Room for a line and a piece.
const ROOM: usize = MOST_BYTES + PIECE;

/// What a read of a piece gave.
#[derive(Clone, Copy)]
pub enum Piece {
    /// Bytes.
    Bytes,
    /// None, since there are no more.
    End,
    /// None, since the read failed.
    Failed,
}

/// The bytes that were read and not yet answered: contracts see them as their list. They lie in
/// room for one line and one piece, which is taken once.
#[derive(Drop)]
pub struct Pending {
    /// The bytes, behind those that were answered already.
    bytes: Vec<u8>,
    /// How many were answered.
    start: usize,
    /// How many bytes from there on were searched, and are no line feeds.
    searched: usize,
}

impl Model for Pending {
    ghost Value = { List ℕ };

    ghost view = { λ k. drop k.start k.bytes.items };

    ghost invariant = { λ k. (k.start + k.searched ≤ vec_len k.bytes)
        × (ROOM ≤ vec_capacity k.bytes)
        × IsFeedFree (take k.searched (drop k.start k.bytes.items)) };
}

impl Pending {
    /// No bytes, and all the room. `Memory` if allocation fails.
    pub fn new(alloc: Global) -> Result<Pending, Memory>
        ensures { IfOk result (λ k. k ≡ []) }
    {
        let bytes = Vec::with_capacity(alloc, ROOM)?;
        Ok(Pending {
            bytes,
            start: 0,
            searched: 0,
        })
    }

    /// How many bytes there are.
    pub fn len(&self) -> usize
        ensures { result ≡ length self.now }
    {
        self.bytes.len() - self.start
    }

    /// The first bytes.
    #[inline(always)]
    pub fn front(&self, size: usize) -> &[u8]
        requires { size ≤ length self.now }
        ensures { result.now ≡ take size self.now }
    {
        &self.bytes[self.start..self.start + size]
    }

    /// The first bytes, so many where there are as many, else all.
    #[inline(always)]
    pub fn near(&self, most: usize) -> &[u8]
        ensures { result.now ≡ take most self.now }
    {
        self.front(usize::min(most, self.len()))
    }

    /// The place of the first line feed. It is looked for behind what was searched before alone.
    pub fn feed_at(&mut self) -> Option<usize>
        ensures same { self.new ≡ self.old }
        ensures found { IfSome result (IsFirstFeed self.old) }
        ensures none { IfNone result (IsFeedFree self.old) }
    {
        match first_feed(&self.bytes[self.start + self.searched..]) {
            Some(at) => {
                self.searched += at;
                Some(self.searched)
            }
            None => {
                self.searched = self.bytes.len() - self.start;
                None
            }
        }
    }

    /// Lets so many of the first bytes go, and the one behind them.
    #[inline(always)]
    pub fn skip_fed(&mut self, size: usize)
        requires { size < length self.old }
        ensures { self.new ≡ drop (size + 1) self.old }
    {
        let end = self.start + size;
        self.start = end + 1;
        self.searched = 0;
    }

    /// Lets so many of the first bytes go, and the one behind them, if there is one.
    pub fn skip_line(&mut self, size: usize)
        requires { size ≤ length self.old }
        ensures { self.new ≡ drop (size + 1) self.old }
    {
        let left = self.bytes.len() - self.start;
        self.start += if size < left { size + 1 } else { left };
        self.searched = 0;
    }

    /// Reads one piece of at most 4,096 bytes, and keeps it behind the others. There must be at
    /// most 65,536 bytes.
    pub fn fill<R: Read>(&mut self, source: &mut R) -> Piece
        requires { length self.old ≤ MOST_BYTES }
        ensures { KeepsPiece (R.remaining source.old) (R.remaining source.new) self.old self.new
            result }
    {
        if self.start > 0 {
            move_to_front(&mut self.bytes, self.start);
            self.start = 0;
        }
        read_behind(&mut self.bytes, source)
    }
}

/// The place of the first line feed.
#[inline(never)]
fn first_feed(bytes: &[u8]) -> Option<usize>
    ensures found { IfSome result (IsFirstFeed bytes.now) }
    ensures none { IfNone result (IsFeedFree bytes.now) }
{
    memchr(LINE_FEED, bytes)
}

/// Lets the first bytes go, and moves the others to their place.
fn move_to_front(bytes: &mut Vec<u8>, start: usize)
    requires { start ≤ vec_len bytes.old }
    ensures items { bytes.new.items ≡ drop start bytes.old.items }
    ensures capacity { vec_capacity bytes.new ≡ vec_capacity bytes.old }
{
    let rest = bytes.len() - start;
    bytes.copy_within(start.., 0);
    bytes.truncate(rest);
}

/// Reads a piece behind the bytes, which have room for it.
fn read_behind<R: Read>(bytes: &mut Vec<u8>, source: &mut R) -> Piece
    requires { vec_len bytes.old + PIECE ≤ vec_capacity bytes.old }
    ensures piece { KeepsPiece (R.remaining source.old) (R.remaining source.new) bytes.old.items
        bytes.new.items result }
    ensures capacity { vec_capacity bytes.old ≤ vec_capacity bytes.new }
{
    let old = bytes.len();
    // There is room, so this takes no memory.
    let Ok(()) = bytes.resize(old + PIECE, 0) else {
        unreachable!()
    };
    match source.read(&mut bytes[old..]) {
        Ok(0) => {
            bytes.truncate(old);
            Piece::End
        }
        Ok(size) => {
            bytes.truncate(old + size);
            Piece::Bytes
        }
        Err(_) => {
            bytes.truncate(old);
            Piece::Failed
        }
    }
}
