//! Whom a call may touch: the caller of an exit and its children, or all in its namespace; whom a wait reaps; who goes
//! into another group or session. No other call touches a task's life, its parent, its group or its session.

ghost use Rattle.std.specs.Prelude.{◌≡◌, ◌↔◌, true, IfOk, Some};
ghost use Rattle.pid_types.specs.{Exit.{is_init}, Names.{live_row}, Sound.{IsBelow}, Step.{step}};
ghost use Rattle.pid_types.specs.declared.plain.Row.{Row};
ghost use Rattle.call_effects.specs.{Reckoned.{IsTouching}, Touched.{is_touching, Touches}};
ghost use Rattle.call_effects.specs.Whom.{none_or_one, root_seen, target_seen, IsRootList};
ghost use Rattle.pid_types.specs.declared.call.Call.TheVariants as calls;

use crate::asked::{ROOT_INIT, is_number};
use pid_table::PidTable;
use pid_types::call::{Call, Kind, Which};
use pid_types::keys::Pid;
use pid_types::reply::Reply;
use std::alloc::AllocError;
use translate::members::Reach;
use translate::page::{Page, Whom};

/// Whether the call may touch a task's life, its parent, its group or its session.
pub(crate) fn may_touch(call: Call) -> bool
    ensures { result ≡ is_touching call }
{
    matches!(
        call,
        Call::Exit { .. } | Call::Wait { .. } | Call::SetPgid { .. } | Call::SetSid { .. }
    )
}

/// Whether the call would be answered that it is done.
fn would_be_done(table: &PidTable, stamp: u64, call: Call) -> bool
    requires { IsBelow stamp table.now }
    ensures { (result ≡ true) ↔ ((step table.now stamp call).reply ≡ Reply.Done) }
{
    let mut reply = Reply::End;
    table.would(stamp, call, &mut reply);
    matches!(reply, Reply::Done)
}

/// The root number of the task with a number in the caller's namespace, where 0 is the caller.
fn root_of(table: &PidTable, caller: Pid, number: Pid) -> Option<Pid>
    ensures { result ≡ root_seen table.now caller number }
{
    match table.stat(caller, number) {
        Ok(stat) => Some(stat.root),
        Err(_) => None,
    }
}

/// The root number of the task that `setpgid(2)` means by the number: a negative one names nobody.
fn target_root(table: &PidTable, caller: Pid, pid: i32) -> Option<Pid>
    ensures { result ≡ target_seen table.now caller pid }
{
    match u32::try_from(pid) {
        Ok(number) => root_of(table, caller, number),
        Err(_) => None,
    }
}

/// The one number or none, in a list. The error is want of memory.
fn list_one(table: &PidTable, number: Option<Pid>) -> Result<Vec<Pid>, AllocError>
    ensures { IfOk result (λ r. r.items ≡ none_or_one number) }
{
    let mut numbers = Vec::new(table.allocator());
    if let Some(number) = number {
        numbers.push(number)?;
    }
    Ok(numbers)
}

/// The root numbers of a page, in rising order. The error is want of memory.
fn list_from_root(table: &PidTable, whom: Whom, number: Pid) -> Result<Vec<Pid>, AllocError>
    ensures { IfOk result (λ r. IsRootList table.now whom number r.items) }
{
    table.laws();
    let page = Page {
        caller: ROOT_INIT,
        whom,
        number,
        from: 0,
    };
    match table.list(&page)? {
        Some(numbers) => Ok(numbers),
        None => unreachable!(),
    }
}

/// Whether the caller is the init of its own namespace.
fn is_own_init(table: &PidTable, caller: Pid) -> bool
    ensures { (row : Row) → live_row table.now.rows caller ≡ Some row → result ≡ is_init table.now row }
{
    table.no_threads();
    let mut reply = Reply::Done;
    table.ask(Call::GetPid { caller }, &mut reply);
    is_number(1, &reply)
}

/// Whom an exit may touch.
fn touched_by_exit(
    table: &PidTable,
    stamp: u64,
    caller: Pid,
    status: u8,
) -> Result<Vec<Pid>, AllocError>
    requires { IsBelow stamp table.now }
    ensures touches { IfOk result (λ r.
        Touches table.now (step table.now stamp (calls.Exit caller status)).state r.items) }
    ensures just { IfOk result (λ r. IsTouching table.now stamp (calls.Exit caller status) r.items) }
{
    table.laws();
    table.no_threads();
    if !would_be_done(table, stamp, Call::Exit { caller, status }) {
        return Ok(Vec::new(table.allocator()));
    }
    if is_own_init(table, caller) {
        return list_from_root(table, Whom::Namespace(Reach::Subtree), caller);
    }
    let children = list_from_root(table, Whom::Belonging(Kind::Task), caller)?;
    let mut numbers = list_one(table, Some(caller))?;
    numbers.extend_from_slice(&children)?;
    numbers.sort()?;
    Ok(numbers)
}

/// Whom a wait may touch.
fn touched_by_wait(
    table: &PidTable,
    stamp: u64,
    caller: Pid,
    which: Which,
) -> Result<Vec<Pid>, AllocError>
    requires { IsBelow stamp table.now }
    ensures touches { IfOk result (λ r.
        Touches table.now (step table.now stamp (calls.Wait caller which)).state r.items) }
    ensures just { IfOk result (λ r. IsTouching table.now stamp (calls.Wait caller which) r.items) }
{
    table.laws();
    table.no_threads();
    let mut reply = Reply::Done;
    table.would(stamp, Call::Wait { caller, which }, &mut reply);
    match reply {
        Reply::Reaped { child, .. } => list_one(table, root_of(table, caller, child)),
        _ => Ok(Vec::new(table.allocator())),
    }
}

/// Whom a `setpgid` may touch.
fn touched_by_setpgid(
    table: &PidTable,
    stamp: u64,
    caller: Pid,
    pid: i32,
    pgid: i32,
) -> Result<Vec<Pid>, AllocError>
    requires { IsBelow stamp table.now }
    ensures touches { IfOk result (λ r.
        Touches table.now (step table.now stamp (calls.SetPgid caller pid pgid)).state r.items) }
    ensures just { IfOk result (λ r. IsTouching table.now stamp (calls.SetPgid caller pid pgid) r.items) }
{
    table.laws();
    table.no_threads();
    list_one(table, target_root(table, caller, pid))
}

/// Whom a `setsid` may touch.
fn touched_by_setsid(table: &PidTable, stamp: u64, caller: Pid) -> Result<Vec<Pid>, AllocError>
    requires { IsBelow stamp table.now }
    ensures touches { IfOk result (λ r. Touches table.now (step table.now stamp (calls.SetSid caller)).state r.items) }
    ensures just { IfOk result (λ r. IsTouching table.now stamp (calls.SetSid caller) r.items) }
{
    table.laws();
    table.no_threads();
    list_one(table, root_of(table, caller, 0))
}

/// Whom the call may touch, by their root numbers in rising order. The error is want of memory.
pub(crate) fn touched_by(table: &PidTable, stamp: u64, call: Call) -> Result<Vec<Pid>, AllocError>
    requires { IsBelow stamp table.now }
    ensures touches { IfOk result (λ r. Touches table.now (step table.now stamp call).state r.items) }
    ensures just { IfOk result (λ r. IsTouching table.now stamp call r.items) }
{
    table.laws();
    table.no_threads();
    match call {
        Call::Exit { caller, status } => touched_by_exit(table, stamp, caller, status),
        Call::Wait { caller, which } => touched_by_wait(table, stamp, caller, which),
        Call::SetPgid { caller, pid, pgid } => touched_by_setpgid(table, stamp, caller, pid, pgid),
        Call::SetSid { caller } => touched_by_setsid(table, stamp, caller),
        _ => Ok(Vec::new(table.allocator())),
    }
}
