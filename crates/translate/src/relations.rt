//! One read of whose child a task is, of which process group and session, and in which namespaces these names are.

ghost use Rattle.std.specs.{Prelude.{◌≡◌, Some, IsSome, option_map}, Option.{option_map_or}};
ghost use Rattle.{
  pid_types.specs.Names.{root_number, row_at},
  pid_numbers.specs.Numbering.{identifier_at},
  task_tree.specs.Tree.{task_at, parent_of},
  task_table.specs.{Found.{IsFound}, View.{name_at, row_of, state_of}, Whole.{HasParents, IsWhole}},
  translate.specs.Relations.{relations_of, relations_at},
};

use crate::stat::{root_of, root_of_name};
use pid_types::keys::{IdentKey, Pid, TaskKey};
use pid_types::plain::Life;
use task_table::Tasks;
use task_table::view::{Found, find_task, laws, own_id};

/// To whom a task belongs, and where. All numbers are those of the root namespace.
#[derive(Clone, Copy)]
pub struct Relations {
    /// Its parent: 0 for the root init, which has none.
    pub parent: Pid,
    pub life: Life,
    /// Its process group.
    pub group: Pid,
    /// Its session.
    pub session: Pid,
    /// The id of its own namespace.
    pub space: u64,
    /// The id of the namespace that its group's name is of.
    pub group_space: u64,
    /// The id of the namespace that its session's name is of.
    pub session_space: u64,
}

/// The root number of a task's parent; 0 for the root init, which has none.
fn parent_number(store: &Tasks, key: TaskKey) -> Pid
    requires parents { HasParents store.now }
    requires there { IsSome (task_at store.now.tree key) }
    ensures { result ≡ option_map_or root_number
        (option_map (name_at store.now.numbering) (parent_of store.now.tree key)) 0 }
{
    laws(store);
    match store.tree().parent(key) {
        Some(parent) => root_of(store, parent),
        None => 0,
    }
}

/// The id of an identifier's own namespace.
fn space_of_name(store: &Tasks, key: IdentKey) -> u64
    requires { IsSome (identifier_at store.now.numbering key) }
    ensures { result ≡ (name_at store.now.numbering key).space }
{
    match store.numbers().space_of(key) {
        Some(space) => store.numbers().id(space).unwrap_or(0),
        None => unreachable!(),
    }
}

/// The relations of a task that was found.
fn relations_found(store: &Tasks, found: &Found) -> Relations
    requires parents { HasParents store.now }
    requires found { IsFound store.now found.now }
    ensures { result ≡ relations_of (row_of store.now found.now.key found.now.task) }
{
    laws(store);
    let group = store.members().group(found.key);
    let session = store.members().session(found.key);
    Relations {
        parent: parent_number(store, found.key),
        life: found.task.life,
        group: root_of_name(store, group),
        session: root_of_name(store, session),
        space: own_id(store, found),
        group_space: space_of_name(store, group),
        session_space: space_of_name(store, session),
    }
}

/// Reads the task with the root number; none where there is none. It costs a search and a few reads, and takes no
/// memory.
pub fn read_relations(store: &Tasks, number: Pid) -> Option<Relations>
    requires { IsWhole store.now }
    ensures { result ≡ relations_at (state_of store.now).rows number }
{
    laws(store);
    let found = find_task(store, 0, number)?;
    Some(relations_found(store, &found))
}
