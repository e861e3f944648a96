//! One read of a task as the caller's namespace sees it: what `status` and `stat` of `proc(5)` tell of a process.

ghost use Rattle.std.specs.Prelude.{◌≡◌, ◌≤◌, ℕ, Some, IfOk, IsSome, length};
ghost use Rattle.{
  pid_types.specs.Names.{root_number},
  pid_numbers.specs.Numbering.{id_at, identifier_at},
  task_tree.specs.Tree.{task_at},
  task_table.specs.{Found.{IsFound}, View.{name_at, row_of, state_of}, Whole.{HasParents, IsWhole}},
  translate.specs.Stat.{stat_of, stat_at, glimpse_in, IsSeen},
};

use crate::queries::{seen_group, seen_parent, seen_session, self_or_task};
use arrayvec::ArrayVec;
use pid_types::keys::{IdentKey, Pid, SpaceKey, TaskKey};
use pid_types::plain::{LEVELS, Life};
use pid_types::reply::Refusal;
use task_table::Tasks;
use task_table::view::{Found, find_live, laws, own_id};

/// What is read of a task. The numbers are those in the caller's namespace, 0 where there is none, but for `root`.
#[derive(Drop)]
pub struct Stat {
    /// Its numbers from the caller's namespace inwards, outermost first, as `NSpid` has them.
    pub numbers: ArrayVec<Pid, LEVELS>,
    /// Its number in the root namespace, which names it in calls. It is told whether or not the caller sees that far.
    pub root: Pid,
    /// The id of its own namespace.
    pub space: u64,
    /// Its parent's number: 0 for the root init too, which has no parent.
    pub parent: Pid,
    /// Its process group.
    pub group: Pid,
    /// Its session.
    pub session: Pid,
    /// The id of the control group that it is in.
    pub home: u64,
    pub life: Life,
    /// Whether it has executed.
    pub executed: bool,
    pub subreaper: bool,
}

/// The number of an identifier in the root namespace.
pub(crate) fn root_of_name(store: &Tasks, key: IdentKey) -> Pid
    requires { IsSome (identifier_at store.now.numbering key) }
    ensures { result ≡ root_number (name_at store.now.numbering key) }
{
    laws(store);
    store.numbers().number_in(key, 0).unwrap_or(0)
}

/// The number of a task in the root namespace.
pub(crate) fn root_of(store: &Tasks, key: TaskKey) -> Pid
    requires { IsSome (task_at store.now.tree key) }
    ensures { result ≡ root_number (name_at store.now.numbering key) }
{
    laws(store);
    root_of_name(store, key)
}

/// The numbers as a list of their own.
pub fn listed(numbers: &[Pid]) -> ArrayVec<Pid, LEVELS>
    requires { length numbers.now ≤ LEVELS }
    ensures { result.items ≡ numbers.now }
{
    let mut list = ArrayVec::new();
    match list.try_extend_from_slice(numbers) {
        Ok(()) => list,
        Err(_) => unreachable!(),
    }
}

/// Reads a task as the namespace sees it.
fn read_task(store: &Tasks, space: SpaceKey, found: &Found) -> Stat
    requires parents { HasParents store.now }
    requires found { IsFound store.now found.now }
    ensures { (i : ℕ) → id_at store.now.numbering space ≡ Some i
        → result ≡ stat_of (state_of store.now) i (row_of store.now found.now.key found.now.task) }
{
    laws(store);
    let mut room = [0; LEVELS];
    let count = store
        .numbers()
        .write_levels_from(found.key, space, &mut room);
    Stat {
        numbers: listed(&room[..count]),
        root: root_of(store, found.key),
        space: own_id(store, found),
        parent: seen_parent(store, space, found.key),
        group: seen_group(store, space, found),
        session: seen_session(store, space, found),
        home: store.controls().home_id(found.task.home),
        life: found.task.life,
        executed: found.task.executed,
        subreaper: found.task.subreaper,
    }
}

/// Reads the task with the number in the caller's namespace, where 0 is the caller: a zombie too, as `getpgid(2)` finds
/// it.
///
/// The refusal is `NoCaller` where no live task has the caller's root number, then `NoTask` where no task is there with
/// the number. It costs two searches in trees of numbers, a few reads, and a read for each level. It takes no memory.
#[tactic(auto, unfolding(crate::specs::Stat::stat_at))]
pub fn read_stat(store: &Tasks, caller: Pid, pid: Pid) -> Result<Stat, Refusal>
    requires { IsWhole store.now }
    ensures told { result ≡ stat_at (state_of store.now) caller pid }
    ensures seen { IfOk result (λ stat. IsSeen (state_of store.now) caller pid (glimpse_in stat)) }
{
    let Some(found) = find_live(store, caller) else {
        return Err(Refusal::NoCaller);
    };
    let Some(task) = self_or_task(store, &found, pid) else {
        return Err(Refusal::NoTask);
    };
    Ok(read_task(store, found.space, &task))
}
