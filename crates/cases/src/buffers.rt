// The buffers that a case lends: they hold 9s, so that it shows what a call writes.
use crate::Stop;
use std::alloc::{AllocError, Global};

// What they hold.
pub const BEFORE: u8 = 9;

// The most marks of actions and of facts that are lent, and the most bytes of a file of a small case.
pub const ACTIONS: usize = 600;

pub const FACTS: usize = 2100;

pub const FILE: usize = 1000;

// A buffer of the length that the case names, or of the most that is lent.
pub fn shortened(alloc: Global, length: usize, most: usize) -> Result<Vec<u8>, AllocError> {
    vec![in alloc; BEFORE; length.min(most)]
}

// A buffer of the length that the case names, which is no case where that is more than is lent.
pub fn exact(alloc: Global, length: u16, most: usize) -> Result<Vec<u8>, Stop> {
    let length = usize::from(length);
    if most < length {
        return Err(Stop::NoCase);
    }
    Ok(vec![in alloc; BEFORE; length]?)
}
