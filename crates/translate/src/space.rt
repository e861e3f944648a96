//! One read of a namespace: where it is in the tree, its init, and whether it has fallen.

ghost use Rattle.std.specs.Prelude.{◌≡◌, ◌+◌, ℕ, Some, IsSome, option_map};
ghost use Rattle.{
  pid_types.specs.Names.{level, root_number, task_numbered},
  pid_numbers.specs.Numbering.{id_at},
  task_table.specs.View.{state_of},
  translate.specs.Spaces.{space_stat_at},
};

use crate::shown::space_row;
use crate::stat::root_of;
use pid_types::keys::{Pid, SpaceKey};
use task_table::Tasks;
use task_table::view::{find_task, laws};

/// What is read of a namespace.
#[derive(Clone, Copy)]
pub struct SpaceStat {
    /// Its id.
    pub id: u64,
    /// The id of the namespace that it is in; none of the root namespace.
    pub parent: Option<u64>,
    /// How many namespaces are around it: 0 for the root namespace, 32 for the deepest.
    pub level: u32,
    /// The root number of its init, which has number 1 in it, also where it has ended; none where it was reaped, or its
    /// parent, who had to reap it, is gone.
    pub init: Option<Pid>,
    /// Whether its init has ended. Then it takes no task any more, and is gone with the last number in it.
    pub fallen: bool,
}

/// The root number of the namespace's init.
#[tactic(auto, unfolding(pid_types::specs::Names::task_numbered, pid_types::specs::Threads::process_numbered))]
fn init_of(store: &Tasks, key: SpaceKey) -> Option<Pid>
    ensures { (i : ℕ) → id_at store.now.numbering key ≡ Some i
        → result ≡ option_map (λ row. root_number row.name) (task_numbered (state_of store.now) i 1) }
{
    let found = find_task(store, key, 1)?;
    Some(root_of(store, found.key))
}

/// How many namespaces are around the one with the key.
fn level_of(store: &Tasks, key: SpaceKey) -> u32
    requires { IsSome (id_at store.now.numbering key) }
    ensures { (i : ℕ) → id_at store.now.numbering key ≡ Some i → result ≡ level (state_of store.now).spaces i }
{
    laws(store);
    store.numbers().level(key) as u32
}

/// Reads the namespace with the id; none where there is none.
///
/// It costs a search for the id, one for number 1 in the namespace, and a few reads, however many tasks and namespaces
/// are in it. It takes no memory.
pub fn read_space(store: &Tasks, id: u64) -> Option<SpaceStat>
    ensures { result ≡ space_stat_at (state_of store.now) id }
{
    laws(store);
    let key = store.numbers().find_space(id)?;
    let space = space_row(store, id, key);
    Some(SpaceStat {
        id,
        parent: space.parent,
        level: level_of(store, key),
        init: init_of(store, key),
        fallen: space.fallen,
    })
}
