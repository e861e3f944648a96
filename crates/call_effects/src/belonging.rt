//! The process groups and sessions of tasks, and which of them have no members any more.

ghost use Rattle.std.specs.Prelude.{◌≡◌, ◌+◌, ◌≤◌, ◌++◌, flat_map, length, map, vec_len, vec_capacity, IfOk};
ghost use Rattle.call_effects.specs.{Belonging.{gone_in, owner_by}, Effects.{gone_as, has_members_as}};
ghost use Rattle.translate.specs.Pages.{AreListedFrom};

use crate::asked::{ROOT_INIT, is_number};
use crate::distinct::sort_distinct;
use crate::effect::Effect;
use crate::tasks::Watched;
use pid_table::PidTable;
use pid_types::call::{Call, Kind};
use pid_types::keys::Pid;
use pid_types::reply::Reply;
use std::alloc::AllocError;

/// The number of what the task belonged to: itself, its process group or its session.
fn owner_of(watched: &Watched, kind: Kind) -> Pid
    ensures { result ≡ owner_by kind watched.now }
{
    match kind {
        Kind::Task => watched.number,
        Kind::Group => watched.before.group,
        Kind::Session => watched.before.session,
    }
}

/// The process groups or sessions of the tasks, each once, by rising numbers. The error is want of memory.
pub(crate) fn list_owners(
    table: &PidTable,
    kind: Kind,
    tasks: &[Watched],
) -> Result<Vec<Pid>, AllocError>
    ensures listed { IfOk result (λ r. AreListedFrom (map (owner_by kind) tasks.now) 0 r.items) }
    ensures few { IfOk result (λ r. vec_len r ≤ length tasks.now) }
{
    let mut owners = Vec::with_capacity(table.allocator(), tasks.len())?;
    for watched in tasks {
        owners.push(owner_of(watched, kind))?;
    }
    sort_distinct(&mut owners);
    Ok(owners)
}

/// Whether some task is in the process group or in the session.
fn any_member(table: &PidTable, kind: Kind, number: Pid) -> bool
    ensures { result ≡ has_members_as kind table.now number }
{
    table.laws();
    table.no_threads();
    let mut reply = Reply::Done;
    let next = Call::Next {
        caller: ROOT_INIT,
        kind,
        from: number,
    };
    table.ask(next, &mut reply);
    is_number(number, &reply)
}

/// The end of what has the number.
fn tell_gone(kind: Kind, number: Pid) -> Effect
    ensures { result ≡ gone_as kind number }
{
    match kind {
        Kind::Task => Effect::Gone { number },
        Kind::Group => Effect::GroupGone { number },
        Kind::Session => Effect::SessionGone { number },
    }
}

/// Adds the process groups or sessions that have no members any more. It takes no memory.
pub(crate) fn add_gone(table: &PidTable, kind: Kind, numbers: &[Pid], told: &mut Vec<Effect>)
    requires { vec_len told.old + length numbers.now ≤ vec_capacity told.old }
    ensures items { told.new.items ≡ told.old.items ++ flat_map (gone_in kind table.now) numbers.now }
    ensures len { vec_len told.new ≤ vec_len told.old + length numbers.now }
    ensures capacity { vec_capacity told.new ≡ vec_capacity told.old }
{
    for number in numbers {
        if !any_member(table, kind, *number) {
            told.push_reserved(tell_gone(kind, *number));
        }
    }
}
