//! Room for tasks.

ghost use Rattle.std.specs.Prelude.{◌≡◌, ℕ, ◌<◌, ◌≤◌, ◌^◌, length, OnOk};
ghost use Rattle.member_lists.specs.Owners.{HasMoreRoom};
ghost use Rattle.task_tree.specs.Tree.{task_at, parent_of, rank_of};

use member_lists::{MemberLists, keys_with_room};
use pid_types::keys::TaskKey;
use std::alloc::AllocError;
use task_tree::TaskTree;

/// Makes room for all keys up to one, and for more where there is none yet, in the tree and in the lists of residents.
/// The error is want of memory.
#[inline(always)]
pub(crate) fn room_for(
    tree: &mut TaskTree,
    residents: &mut MemberLists,
    key: TaskKey,
) -> Result<(), AllocError>
    requires key { key < 2 ^ 30 }
    requires within { length tree.old.tasks ≤ length residents.old }
    ensures more { HasMoreRoom residents.old residents.new }
    ensures within { length tree.new.tasks ≤ length residents.new }
    ensures room { OnOk result (key < length tree.new.tasks) }
    ensures tasks { (k : ℕ) → task_at tree.new k ≡ task_at tree.old k }
    ensures parents { (k : ℕ) → parent_of tree.new k ≡ parent_of tree.old k }
    ensures ranks { (k : ℕ) → rank_of tree.new k ≡ rank_of tree.old k }
{
    let keys = tree.keys();
    if (key as usize) < keys {
        return Ok(());
    }
    let room = keys_with_room(key);
    residents.reserve(room)?;
    tree.grow(room - keys)
}
