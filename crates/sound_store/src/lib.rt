//! Decides whether the state of a store is sound, so that a table can be made of a store that a builder filled.
//!
//! The parts of a store agree at any time, by what their types keep. What a table keeps between two calls is more:
//! each standing namespace has a live init, each chain of parents ends at the root init, and so on. Here is asked what
//! the parts do not keep by themselves, and no more.
#![tactic(auto)]

ghost use Rattle.std.specs.Prelude.{◌≡◌, ◌≢◌, OnOk, IfErr};
ghost use Rattle.sound_store.specs.Flaws.{IsFlaw};
ghost use Rattle.task_table.specs.{Store.{HasNoThreads}, Whole.{IsWhole}};

mod chains;
mod controls;
mod spaces;
mod tasks;
mod walk;

use chains::check_chains;
use controls::check_controls;
use pid_types::keys::Pid;
use spaces::check_spaces;
use std::alloc::Global;
use task_table::Tasks;
use task_table::view::laws;
use tasks::check_tasks;

/// Why a store's state is not sound. A task is told by its number in the root namespace, a namespace and a control
/// group by their ids.
#[derive(Clone, Copy)]
pub enum Flaw {
    /// There was no memory to look at it.
    NoMemory,
    /// The root namespace is not the one with the id 0 or has fallen, or the namespace is not younger than the one that
    /// it is in.
    Space(u64),
    /// The namespace stands, and no live task of its own is number 1 in it.
    NoInit(u64),
    /// The control group has no greater id than the one before it or than its parent, is more than 64 levels below the
    /// root, or has a limit where it is the root or one above 4194304; or there is no root with the id 0.
    Control(u64),
    /// The task has no parent and is not number 1, or its parent does not live, is neither in its namespace nor around
    /// it, is in it where the task is its init, or is below the task.
    Parent(Pid),
    /// The namespace that the task's children go into is neither its own nor inside it.
    ChildrenSpace(Pid),
    /// The task's group is named after a task of another session.
    Group(Pid),
    /// The task lives in a namespace that has fallen.
    Fallen(Pid),
    /// The control group that the task is in is not there.
    Home(Pid),
}

/// Says whether the store's state is sound, or the first flaw of it.
///
/// First are the namespaces by their ids. Then come the control groups: the root, the order of their ids, and each by
/// its id. Then come the tasks by their keys, each asked for its parent, its children's namespace, its group, its own
/// namespace and its control group in this order. Last are the chains of parents, in the order of the tasks: the flaw
/// is `Parent` of the first whose chain does not end at the root init.
///
/// It takes one byte for each key that the store has room for, and changes nothing. It costs a few searches for each
/// namespace, two searches by id for each task, and a step for each level above a control group. The walks up from
/// parent to parent are one step for each task in all, and where a chain does not end at most `pid_max` more.
pub fn check_sound(alloc: Global, store: &Tasks) -> Result<(), Flaw>
    requires { HasNoThreads store.now.threads }
    ensures sound { OnOk result (IsWhole store.now) }
    ensures flaw { IfErr result (λ flaw. flaw ≢ Flaw.NoMemory → IsWhole store.now → ⊥) }
    ensures told { IfErr result (λ flaw. IsFlaw store.now flaw) }
{
    laws(store);
    check_spaces(store)?;
    check_controls(store.controls())?;
    check_tasks(store)?;
    check_chains(alloc, store)
}
