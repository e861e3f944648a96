//! The live tasks of control groups, in lists.

ghost use Rattle.std.specs.Prelude.{◌≡◌, ◌<◌, ◌≤◌, ◌^◌, ℕ, length, None, IfOk};
ghost use Rattle.member_lists.specs.Owners.{owner_of};

use member_lists::MemberLists;
use std::alloc::{AllocError, Global};

/// No task, and room for those of the root control group, whose key is 0. The error is want of memory.
pub(crate) fn no_residents(alloc: Global) -> Result<MemberLists, AllocError>
    ensures none { IfOk result (λ r. (k : ℕ) → owner_of r k ≡ None) }
    ensures root { IfOk result (λ r. 0 < length r) }
    ensures few { IfOk result (λ r. length r ≤ 2 ^ 30) }
{
    let mut residents = MemberLists::new(alloc);
    residents.grow(1)?;
    Ok(residents)
}
