//! What is read of a task, in one struct.
ghost use Rattle.std.specs.Prelude.{◌≡◌};
ghost use Rattle.foreign_numbers.specs.Tasks.{ended_number, status_number, stat_numbers, no_stat_numbers, task_numbers};

use crate::numbers::padded;
use pid_types::plain::{Ended, LEVELS, Life};
use pid_types::reply::Refusal;
use translate::stat::Stat;

/// A task as the caller's namespace sees it; all its numbers but `root` are those there, 0 where there is none. Where
/// `refusal` is not 0 the task was not read, and all but `errno` and `refusal` is 0.
///
/// | Field | What it tells |
/// |---|---|
/// | `errno`, `refusal` | why there is no answer, as a reply of kind 9 has it |
/// | `count`, `levels` | the first `count` of `levels` are its numbers from the caller's namespace inwards |
/// | `parent`, `group`, `session` | their numbers |
/// | `ended`, `status` | 0 and 0 while it lives; then 1 and its status, or 256 where it was killed |
/// | `executed`, `subreaper` | 1 where it has executed, or is a subreaper |
/// | `space`, `control` | the ids of its namespace and of its control group |
/// | `root` | its number in the root namespace, which names it in calls |
#[repr(C)]
#[derive(Clone, Copy)]
pub struct TaskNumbers {
    pub errno: u32,
    pub refusal: u32,
    pub count: u32,
    pub parent: u32,
    pub group: u32,
    pub session: u32,
    pub ended: u32,
    pub status: u32,
    pub executed: u32,
    pub subreaper: u32,
    pub space: u64,
    pub control: u64,
    pub root: u32,
    pub levels: [u32; LEVELS],
}

/// Whether the task has ended, as a number.
fn tell_ended(life: Life) -> u32
    ensures { result ≡ ended_number life }
{
    match life {
        Life::Live => 0,
        Life::Zombie(_) => 1,
    }
}

/// How the task has ended, as a number.
fn tell_status(life: Life) -> u32
    ensures { result ≡ status_number life }
{
    match life {
        Life::Live => 0,
        Life::Zombie(Ended::Exited(status)) => u32::from(status),
        Life::Zombie(Ended::Killed) => 256,
    }
}

/// The task that was read.
fn stat_told(stat: &Stat) -> TaskNumbers
    ensures { result ≡ stat_numbers stat.now }
{
    TaskNumbers {
        errno: 0,
        refusal: 0,
        count: stat.numbers.len() as u32,
        parent: stat.parent,
        group: stat.group,
        session: stat.session,
        ended: tell_ended(stat.life),
        status: tell_status(stat.life),
        executed: u32::from(stat.executed),
        subreaper: u32::from(stat.subreaper),
        space: stat.space,
        control: stat.home,
        root: stat.root,
        levels: padded(&stat.numbers),
    }
}

/// Why no task was read.
fn refusal_told(refusal: Refusal) -> TaskNumbers
    ensures { result ≡ no_stat_numbers refusal }
{
    TaskNumbers {
        errno: refusal.errno(),
        refusal: u32::from(refusal.number()),
        count: 0,
        parent: 0,
        group: 0,
        session: 0,
        ended: 0,
        status: 0,
        executed: 0,
        subreaper: 0,
        space: 0,
        control: 0,
        root: 0,
        levels: [0; LEVELS],
    }
}

/// What is told of a task.
pub fn tell_task(answer: Result<Stat, Refusal>) -> TaskNumbers
    ensures { result ≡ task_numbers answer }
{
    match answer {
        Ok(stat) => stat_told(&stat),
        Err(refusal) => refusal_told(refusal),
    }
}
