// Allocations that fail one at a time.

use crate::ballast::{Ballast, take_all};
use std::alloc::{AllocError, Global};

/// From now on fails to allocate. Where `tests/growths` runs the test, the allocation of that number
/// fails, counted from 1, and no other; else all memory but so many bytes is taken.
pub fn refuse(alloc: Global, number: usize, spare: usize) -> Option<Ballast> {
    if names_growth(alloc, number) {
        None
    } else {
        take_all(alloc, spare).ok()
    }
}

/// From now on no allocation is made to fail.
pub fn refuse_none(alloc: Global, ballast: Option<Ballast>) {
    drop(ballast);
    let _is_heard = names_growth(alloc, 0);
}

/// Names the allocation that is to fail: asks for what no machine has. Answers whether it is heard.
fn names_growth(alloc: Global, number: usize) -> bool {
    let asked: Result<Vec<u8>, AllocError> = Vec::with_capacity(
        alloc,
        MESSAGE.saturating_add(number),
    );
    match asked {
        Ok(block) => {
            drop(block);
            true
        }
        Err(_) => false,
    }
}

/// What `tests/refusing/growths.c` takes for a message, with the number behind it.
const MESSAGE: usize = 1 << 50;
