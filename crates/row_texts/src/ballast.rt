// Memory that is taken first, so that what is tested is refused it.

use crate::texts::say;
use leaf_core::{Expr, ExprChild};
use sample_core::Memory;
use std::alloc::{AllocError, Global};

/// Blocks that hold all the memory that this process may have, but for some that is kept free.
#[derive(Drop)]
pub struct Ballast {
    blocks: Vec<Vec<u8>>,
}

/// Takes all memory but `spare` bytes, which serve allocations of any size.
pub fn take_all(alloc: Global, spare: usize) -> Result<Ballast, AllocError> {
    let kept: Vec<u8> = Vec::with_capacity(alloc, spare.saturating_add(LARGE))?;
    let mut blocks = Vec::with_capacity(alloc, 60_000)?;
    take_halves(alloc, &mut blocks)?;
    take_small(alloc, &mut blocks)?;
    drop(kept);
    let large = Vec::with_capacity(alloc, LARGE)?;
    blocks.push(large)?;
    Ok(Ballast { blocks })
}

/// Takes blocks as large as there are, then half as large, down to one byte.
fn take_halves(alloc: Global, blocks: &mut Vec<Vec<u8>>) -> Result<(), AllocError> {
    let mut size = 1usize << 46;
    for _ in 0..59_000u32 {
        match Vec::with_capacity(alloc, size) {
            Ok(block) => blocks.push(block)?,
            Err(_) => {
                if size == 1 {
                    break;
                }
                size /= 2;
            }
        }
    }
    Ok(())
}

/// Takes the small blocks that `malloc` sets aside, once they are dropped, for allocations of their
/// own size, up to 1,032 bytes.
fn take_small(alloc: Global, blocks: &mut Vec<Vec<u8>>) -> Result<(), AllocError> {
    let mut size = 24usize;
    for _ in 0..900u32 {
        match Vec::with_capacity(alloc, size) {
            Ok(block) => blocks.push(block)?,
            Err(_) => {
                if size >= 1_032 {
                    break;
                }
                size += 16;
            }
        }
    }
    Ok(())
}

/// Lets the stack grow by a megabyte or more, as dropping so deep an expression does. Once all
/// memory was taken it can't grow, and a call that needs more of it is killed. So a test begins
/// with this.
pub fn grow_stack(alloc: Global) {
    let mut expr = Expr::Input;
    for _ in 0..10_000u32 {
        match ExprChild::new(alloc, expr) {
            Ok(inner) => expr = Expr::Neg(inner),
            Err(Memory) => return,
        }
    }
    drop(expr);
}

/// The bytes of a block that `malloc` doesn't set aside, once it is dropped, for allocations of its
/// own size: of a smaller block nothing would be left to others.
const LARGE: usize = 4_096;

/// The bytes that are left to a test that then takes all memory many times: all but these are taken
/// once.
pub const ROOM: usize = 8_000_000;

/// How many times a call is tried, with more and more bytes left.
pub const TRIES: usize = 8;

/// The bytes that are left at a try, `unit` more at each; at the last try ample memory.
pub fn spare_at(attempt: usize, unit: usize) -> usize {
    if attempt < LAST_TRY {
        unit.saturating_mul(attempt)
    } else {
        1_000_000
    }
}

const LAST_TRY: usize = TRIES - 1;

/// What the tries of a call told.
#[derive(Clone, Copy)]
pub struct Tally {
    refused: usize,
    other: bool,
    ample: bool,
}

impl Tally {
    /// Before the first try.
    pub fn new() -> Tally {
        Tally {
            refused: 0,
            other: false,
            ample: false,
        }
    }

    /// With what one more try told, beside what is told with ample memory and for want of it.
    pub fn with(self, told: &str, ample: &str, refused: &str) -> Tally {
        let is_ample = told == ample;
        let is_refused = told == refused;
        Tally {
            refused: self.refused.saturating_add(usize::from(is_refused)),
            other: self.other || !(is_ample || is_refused),
            ample: is_ample,
        }
    }

    /// Says whether the call failed to allocate at first, and answered in the end.
    pub fn tell(self, out: &mut String) {
        match (self.ample && !self.other, self.refused) {
            (false, _) => say(out, "another answer"),
            (true, 0) => say(out, "never refused"),
            (true, 1) => say(out, "refused once"),
            (true, _) => say(out, "refused at first"),
        }
    }
}
