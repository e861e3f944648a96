//! Steps on an array by index, which is filled at indexes that no number of a script reaches.
//!
//! A call that finds no memory is made again on the spot, once what can be read of the array was compared.

use anyhow::{Result, ensure};
use arrayvec::ArrayVec;
use index_array::{IndexArray, IndexFault};
use std::alloc::Global;

/// What reading calls show of an array.
type Picture = ArrayVec<u64, 64>;

/// How far apart two indexes of one leaf of an array are at most, and one more.
const LEAF: u32 = 64;

/// Where an array is filled: each needs a level more than the one before it, and the last one needs none.
const PLACES: [u32; 5] = [3, 130, 5_000, 300_000, 16_000_000];

/// A sum that tells in which order the numbers stand.
fn sum_of(seen: &Picture) -> u64 {
    let mut sum = 0u64;
    for n in seen.iter() {
        sum = sum.wrapping_mul(31).wrapping_add(*n);
    }
    sum
}

/// What can be read of an array: each index in use, with its value and its marks.
fn see_array(array: &IndexArray) -> Picture {
    let mut seen = Picture::new();
    let mut from = 0u32;
    for _ in 0..PLACES.len() {
        let Some(i) = array.next(from) else {
            return seen;
        };
        let _ = seen.try_push(u64::from(i));
        let _ = seen.try_push(u64::from(array.get(i).copied().unwrap_or(0)));
        for m in 0..3 {
            let _ = seen.try_push(u64::from(array.has_mark(i, m)));
        }
        from = i.saturating_add(1);
    }
    seen
}

/// Makes room at an index, and once more where there was no memory.
fn prepare(array: &mut IndexArray, i: u32) -> Result<bool> {
    let before = see_array(array);
    match array.prepare(i) {
        Ok(()) => return Ok(true),
        Err(fault) => ensure!(fault == IndexFault::NoMemory, "a bad index"),
    }
    ensure!(see_array(array) == before, "something has changed");
    Ok(array.prepare(i).is_ok())
}

/// Stores the index itself as its value, and once more where there was no memory.
fn store(array: &mut IndexArray, i: u32) -> Result<bool> {
    let before = see_array(array);
    let marks = [true, false, true];
    match array.store(i, i, marks) {
        Ok(_) => return Ok(true),
        Err((fault, value)) => {
            ensure!(fault == IndexFault::NoMemory, "a bad index");
            ensure!(value == i, "another value came back");
        }
    }
    ensure!(see_array(array) == before, "something has changed");
    Ok(array.store(i, i, marks).is_ok())
}

/// At each place room for an index, and a value in the next leaf. It answers a sum; none where there was no memory.
pub fn fill(alloc: Global) -> Result<Option<u64>> {
    let mut array = IndexArray::new(alloc);
    for i in PLACES {
        if !prepare(&mut array, i)? || !store(&mut array, i.saturating_add(LEAF))? {
            return Ok(None);
        }
    }
    Ok(Some(sum_of(&see_array(&array))))
}
