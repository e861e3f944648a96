//! Room in a slab whose keys are 32-bit numbers.

ghost use Rattle.std.specs.Prelude.{◌≡◌, ◌<◌, ◌^◌, None, IsOk, IfOk, OnOk};
ghost use Rattle.slab.specs.Slab.{get, HasRoomFor};

use slab::Slab;
use std::alloc::AllocError;

/// Takes the memory for one more entry, and answers its key. The error is want of memory, or that the
/// next key is 2^30 or above; the entries stay as they were.
pub fn make_room<T>(slab: &mut Slab<T>) -> Result<u32, AllocError>
    ensures same { slab.new ≡ record slab.old { capacity = slab.new.capacity } }
    ensures room { OnOk result (HasRoomFor slab.new 1) }
    ensures key { IfOk result (λ key. key ≡ slab.new.vacant_key) }
    ensures few { IfOk result (λ key. key < 2 ^ 30) }
    ensures vacant { IfOk result (λ key. get slab.old key ≡ None) }
    ensures succeeds { HasRoomFor slab.old 1 → slab.old.vacant_key < 2 ^ 30 → IsOk result }
{
    slab.reserve(1)?;
    let key = slab.vacant_key();
    if key >= 1 << 30 {
        return Err(AllocError);
    }
    Ok(key as u32)
}
