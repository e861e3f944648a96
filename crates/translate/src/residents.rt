//! The live tasks directly in a control group, by their numbers as a caller's namespace has them: what the kernel's
//! file `cgroup.procs` lists (the cgroup-v2 document, "Processes").

ghost use Rattle.std.specs.Prelude.{◌≡◌, ◌+◌, true, IfOk, OnErr};
ghost use Rattle.{
  pid_types.specs.Short.{reply_of},
  pids_charge.specs.Charges.{stands, home_id},
  task_table.specs.{Found.{IsFound}, Store.{HasNoThreads}, View.{row_of, state_of}, Whole.{IsWhole}},
  translate.specs.{Pages.{AreLeastFrom}, Residents.{residents_seen, TellsControlTasks}},
};

use crate::page::{cut, gather, put_front};
use pid_types::keys::{ControlKey, Pid};
use pid_types::reply::{Refusal, ShortReply};
use std::alloc::AllocError;
use task_table::Tasks;
use task_table::view::{Found, find_live, laws};

/// Of which control group the live tasks are listed, and from which number on.
#[derive(Clone, Copy)]
pub struct ControlPage {
    /// The caller's root number. Its namespace has all other numbers.
    pub caller: Pid,
    /// The id of the control group.
    pub control: u64,
    /// No number below this one is listed.
    pub from: Pid,
}

/// The least numbers, from one on, of the live tasks directly in the control group with the key, in rising order, one
/// more than the room takes. The error is want of memory.
fn list_residents(
    store: &Tasks,
    caller: &Found,
    home: ControlKey,
    from: Pid,
    room: usize,
) -> Result<Vec<Pid>, AllocError>
    requires found { IsFound store.now caller.now }
    requires alone { HasNoThreads store.now.threads }
    requires stands { stands store.now.charges home ≡ true }
    ensures { IfOk result (λ r. AreLeastFrom (residents_seen (state_of store.now) (home_id store.now.charges home)
        (row_of store.now caller.now.key caller.now.task)) from (room + 1) r.items) }
{
    laws(store);
    let keys = store.residents(home);
    let mut numbers = Vec::new(store.numbers().allocator());
    gather(store, caller.space, from, keys, &mut numbers)?;
    numbers.sort()?;
    cut(&mut numbers, room);
    Ok(numbers)
}

/// Writes the numbers of the live tasks directly in the control group over the front of the room, in rising order, as
/// many as it takes, and answers how many there are, as `Counted`; but one more than the room takes where there are
/// more. What is behind them in the room stays. A zombie is in no list (the cgroup-v2 document, "Processes"), and a
/// task that the caller's namespace does not see is left out.
///
/// The refusals are `NoCaller` where no live task has the caller's root number, and then `NoControl` where no control
/// group has the id. The error is want of memory, and then the room is as it was. It costs a search for the caller and
/// one for the id, a few reads for each live task of the group, and the sorting of their numbers; it looks at no other
/// task.
pub fn read_control_tasks(
    store: &Tasks,
    asked: &ControlPage,
    room: &mut [Pid],
) -> Result<ShortReply, AllocError>
    requires { IsWhole store.now }
    ensures told { IfOk result (λ reply.
        TellsControlTasks (state_of store.now) asked.now room.old room.new (reply_of reply)) }
    ensures err { OnErr result (room.new ≡ room.old) }
{
    let Some(caller) = find_live(store, asked.caller) else {
        return Ok(ShortReply::Refused(Refusal::NoCaller));
    };
    let Some(home) = store.controls().find(asked.control) else {
        return Ok(ShortReply::Refused(Refusal::NoControl));
    };
    let listed = list_residents(store, &caller, home, asked.from, room.len())?;
    put_front(&listed, room);
    Ok(ShortReply::Counted(listed.len() as u64))
}
