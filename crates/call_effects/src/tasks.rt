//! Tasks before a call, and what became of each.

ghost use Rattle.std.specs.Prelude.{◌≡◌, ◌+◌, ◌≤◌, ◌<◌, ◌++◌, length, flat_map, vec_len, vec_capacity};
ghost use Rattle.translate.specs.Stat.{still_lives};
ghost use Rattle.call_effects.specs.Changes.{as_list, changes_in, end_now, ending, lives_now, moving};

use crate::effect::Effect;
use pid_table::PidTable;
use pid_types::keys::Pid;
use pid_types::plain::{Ended, Life};
use translate::relations::Relations;

/// A task that a call may touch, by its root number, and its relations before that.
#[derive(Clone, Copy)]
pub struct Watched {
    pub number: Pid,
    pub before: Relations,
}

/// Whether the life is that of a task that has not ended.
fn is_live(life: Life) -> bool
    ensures { result ≡ still_lives life }
{
    matches!(life, Life::Live)
}

/// Whether the task lives, where it is there.
fn is_alive(now: Option<Relations>) -> bool
    ensures { result ≡ lives_now now }
{
    match now {
        Some(relations) => is_live(relations.life),
        None => false,
    }
}

/// How the task ended: killed, where it is there no more.
fn read_end(now: Option<Relations>) -> Ended
    ensures { result ≡ end_now now }
{
    match now {
        Some(relations) => match relations.life {
            Life::Live => Ended::Killed,
            Life::Zombie(ended) => ended,
        },
        None => Ended::Killed,
    }
}

/// The end of a task that lived.
fn read_ending(watched: &Watched, now: Option<Relations>) -> Option<Effect>
    ensures { result ≡ ending watched.now now }
{
    if is_live(watched.before.life) && !is_alive(now) {
        return Some(Effect::Ended {
            number: watched.number,
            end: read_end(now),
        });
    }
    None
}

/// The task's way to another parent, or out of the table.
fn read_moving(watched: &Watched, now: Option<Relations>) -> Option<Effect>
    ensures { result ≡ moving watched.now now }
{
    let number = watched.number;
    match now {
        Some(relations) if relations.parent == watched.before.parent => None,
        Some(relations) => Some(Effect::Adopted {
            number,
            parent: relations.parent,
        }),
        None => Some(Effect::Gone { number }),
    }
}

/// Adds the effect, if there is one. It takes no memory.
pub(crate) fn add(effect: Option<Effect>, told: &mut Vec<Effect>)
    requires { vec_len told.old < vec_capacity told.old }
    ensures items { told.new.items ≡ told.old.items ++ as_list effect }
    ensures len { vec_len told.new ≤ vec_len told.old + 1 }
    ensures capacity { vec_capacity told.new ≡ vec_capacity told.old }
{
    if let Some(effect) = effect {
        told.push_reserved(effect);
    }
}

/// Adds what became of the tasks. It takes no memory: there is room for two effects on each.
pub(crate) fn add_changes(table: &PidTable, tasks: &[Watched], told: &mut Vec<Effect>)
    requires { vec_len told.old + length tasks.now + length tasks.now ≤ vec_capacity told.old }
    ensures items { told.new.items ≡ told.old.items ++ flat_map (changes_in table.now) tasks.now }
    ensures len { vec_len told.new ≤ vec_len told.old + length tasks.now + length tasks.now }
    ensures capacity { vec_capacity told.new ≡ vec_capacity told.old }
{
    for watched in tasks {
        let now = table.relations(watched.number);
        add(read_ending(watched, now), told);
        add(read_moving(watched, now), told);
    }
}
