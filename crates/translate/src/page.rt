//! Pages: the children of a task, the members of a process group or of a session, or the tasks of a namespace, by their
//! numbers as a caller's namespace has them. So whom `kill(2)` of a process group or of -1 reaches, and what
//! `pgrep -P`, `pgrep -s` and an `ls` of `/proc` list.

ghost use Rattle.std.specs.Prelude.{◌≡◌, ◌<◌, ◌++◌, ◌+◌, ℕ, length, take, Some, IfOk, OnOk, OnErr, option_map};
ghost use Rattle.std.specs.List.{AllByRecursion};
ghost use Rattle.{
  pid_types.specs.{declared.call.Kind.{Kind}, Short.{reply_of}},
  pid_numbers.specs.Numbering.{id_at},
  task_table.specs.{Found.{IsFound}, View.{name_at, row_of, state_of}, Whole.{HasParents, IsWhole}},
  translate.specs.{Gathered.{numbers_of_keys, AddsGroups, AreGathered, IsMeantAlone}, Pages.{numbers_asked}},
  translate.specs.Pages.{numbers_belonging, with_front, AreLeastFrom, ListsPage, TellsPage, TellsSeenPage},
};
ghost use Rattle.pid_types.specs.declared.call.Kind.TheVariants as kinds;
ghost use Rattle.translate.specs.declared.page.Whom.TheVariants as whoms;

use crate::members::{Asked, Reach, list_members};
use crate::queries::self_or_task;
use groups_sessions::GroupMembers;
use pid_types::call::Kind;
use pid_types::keys::{IdentKey, Pid, SpaceKey, TaskKey};
use pid_types::reply::{Refusal, ShortReply};
use std::alloc::AllocError;
use task_table::Tasks;
use task_table::view::{Found, find_live, laws};

/// Whom a page lists.
#[derive(Clone, Copy)]
pub enum Whom {
    /// The children of a task, the members of a process group, or those of a session, as the kind says.
    Belonging(Kind),
    /// The tasks of the namespace that a task is in.
    Namespace(Reach),
}

/// Whom a page lists, and from which number on.
#[derive(Clone, Copy)]
pub struct Page {
    /// The caller's root number. Its namespace has all other numbers.
    pub caller: Pid,
    pub whom: Whom,
    /// The number of the task, the group or the session. 0 is the caller itself, its own group or its own session, seen
    /// or not, as `kill(2)` has it.
    pub number: Pid,
    /// No number below this one is listed.
    pub from: Pid,
}

/// Adds the numbers in the namespace, from one on, of the tasks with the keys. The error is want of memory.
pub(crate) fn gather(
    store: &Tasks,
    space: SpaceKey,
    from: Pid,
    keys: GroupMembers<'_>,
    numbers: &mut Vec<Pid>,
) -> Result<(), AllocError>
    ensures { OnOk result (numbers.new.items
        ≡ numbers.old.items ++ numbers_of_keys store.now.numbering space from keys.entry) }
{
    for key in keys {
        match store.numbers().number_in(key, space) {
            Some(number) if number >= from => numbers.push(number)?,
            _ => {}
        }
    }
    Ok(())
}

/// The numbers of the children of the task with the key, if it is one.
fn children(
    store: &Tasks,
    space: SpaceKey,
    parent: TaskKey,
    from: Pid,
) -> Result<Vec<Pid>, AllocError>
    requires { HasParents store.now }
    ensures { IfOk result (λ r. AreGathered store.now space kinds.Task parent from r.items) }
{
    laws(store);
    let mut numbers = Vec::new(store.numbers().allocator());
    if store.tree().task(parent).is_none() {
        return Ok(numbers);
    }
    let children = store.tree().children(parent);
    gather(store, space, from, children, &mut numbers)?;
    Ok(numbers)
}

/// The numbers of the members of the group.
fn group_members(
    store: &Tasks,
    space: SpaceKey,
    group: IdentKey,
    from: Pid,
) -> Result<Vec<Pid>, AllocError>
    ensures { IfOk result (λ r. AreGathered store.now space kinds.Group group from r.items) }
{
    laws(store);
    let members = store.members();
    members.laws();
    let mut numbers = Vec::new(store.numbers().allocator());
    if !members.any_in_group(group) {
        return Ok(numbers);
    }
    let found = members.group_members(group);
    gather(store, space, from, found, &mut numbers)?;
    Ok(numbers)
}

/// Adds the numbers of those who are in the groups. The error is want of memory.
fn gather_groups(
    store: &Tasks,
    space: SpaceKey,
    from: Pid,
    groups: GroupMembers<'_>,
    numbers: &mut Vec<Pid>,
) -> Result<(), AllocError>
    requires { AllByRecursion (λ g. g < length store.now.members) groups }
    ensures { OnOk result (AddsGroups store.now space from groups.entry numbers.old.items numbers.new.items) }
{
    for group in groups {
        let members = store.members().group_members(group);
        gather(store, space, from, members, numbers)?;
    }
    Ok(())
}

/// The numbers of the members of the session.
fn session_members(
    store: &Tasks,
    space: SpaceKey,
    session: IdentKey,
    from: Pid,
) -> Result<Vec<Pid>, AllocError>
    ensures { IfOk result (λ r. AreGathered store.now space kinds.Session session from r.items) }
{
    laws(store);
    let members = store.members();
    members.laws();
    let mut numbers = Vec::new(store.numbers().allocator());
    if session as usize >= members.keys() {
        return Ok(numbers);
    }
    let groups = members.session_groups(session);
    gather_groups(store, space, from, groups, &mut numbers)?;
    Ok(numbers)
}

/// The numbers of those who belong to the task, the group or the session.
fn belonging(
    store: &Tasks,
    space: SpaceKey,
    kind: Kind,
    owner: IdentKey,
    from: Pid,
) -> Result<Vec<Pid>, AllocError>
    requires { HasParents store.now }
    ensures { IfOk result (λ r. AreGathered store.now space kind owner from r.items) }
{
    match kind {
        Kind::Task => children(store, space, owner, from),
        Kind::Group => group_members(store, space, owner, from),
        Kind::Session => session_members(store, space, owner, from),
    }
}

/// What the caller means by the number.
fn find_owner(store: &Tasks, caller: &Found, kind: Kind, number: Pid) -> Option<IdentKey>
    requires { IsFound store.now caller.now }
    ensures { IsMeantAlone store.now (row_of store.now caller.now.key caller.now.task) kind number result }
{
    laws(store);
    if number > 0 {
        return store.numbers().find(caller.space, number);
    }
    Some(match kind {
        Kind::Task => caller.key,
        Kind::Group => store.members().group(caller.key),
        Kind::Session => store.members().session(caller.key),
    })
}

/// Keeps the first ones of the list, one more than the room takes.
pub(crate) fn cut<T: Copy>(listed: &mut Vec<T>, room: usize)
    ensures { listed.new.items ≡ take (room + 1) listed.old.items }
{
    if listed.len() > room {
        listed.truncate(room + 1);
    }
}

/// The least numbers of those who belong to what the caller means, in rising order, one more than the room takes.
fn list_belonging(
    store: &Tasks,
    caller: &Found,
    kind: Kind,
    page: &Page,
    room: usize,
) -> Result<Vec<Pid>, AllocError>
    requires parents { HasParents store.now }
    requires caller { IsFound store.now caller.now }
    ensures { IfOk result (λ r. AreLeastFrom (numbers_belonging (state_of store.now)
        (row_of store.now caller.now.key caller.now.task) kind page.now.number) page.now.from (room + 1) r.items) }
{
    laws(store);
    let Some(owner) = find_owner(store, caller, kind, page.number) else {
        return Ok(Vec::new(store.numbers().allocator()));
    };
    let mut numbers = belonging(store, caller.space, kind, owner, page.from)?;
    numbers.sort()?;
    cut(&mut numbers, room);
    Ok(numbers)
}

/// The least numbers of the tasks of the namespace that the task with the page's number is in, in rising order, one
/// more than the room takes.
fn list_namespace(
    store: &Tasks,
    caller: &Found,
    reach: Reach,
    page: &Page,
    room: usize,
) -> Result<Vec<Pid>, AllocError>
    requires { IsFound store.now caller.now }
    ensures { IfOk result (λ r. AreLeastFrom (numbers_asked (state_of store.now)
        (row_of store.now caller.now.key caller.now.task) (whoms.Namespace reach) page.now.number)
        page.now.from (room + 1) r.items) }
{
    let Some(task) = self_or_task(store, caller, page.number) else {
        return Ok(Vec::new(store.numbers().allocator()));
    };
    let asked = Asked {
        space: task.space,
        reach,
        viewer: caller.space,
        from: page.from,
    };
    list_members(store, &asked, room)
}

/// The least numbers that the caller's page asks for, in rising order, one more than the room takes.
fn list_numbers(
    store: &Tasks,
    caller: &Found,
    page: &Page,
    room: usize,
) -> Result<Vec<Pid>, AllocError>
    requires parents { HasParents store.now }
    requires caller { IsFound store.now caller.now }
    ensures { IfOk result (λ r. AreLeastFrom (numbers_asked (state_of store.now)
        (row_of store.now caller.now.key caller.now.task) page.now.whom page.now.number)
        page.now.from (room + 1) r.items) }
{
    match page.whom {
        Whom::Belonging(kind) => list_belonging(store, caller, kind, page, room),
        Whom::Namespace(reach) => list_namespace(store, caller, reach, page, room),
    }
}

/// Writes as much of the list over the front of the room as it takes.
pub(crate) fn put_front<T: Copy>(listed: &[T], room: &mut [T])
    ensures { room.new ≡ with_front listed.now room.old }
{
    let count = listed.len().min(room.len());
    room[..count].copy_from_slice(&listed[..count]);
}

/// The numbers of the page, in rising order; none where no live task has the caller's root number. The error is want of
/// memory. It costs what [`read_page`] costs.
pub fn list_page(store: &Tasks, page: &Page) -> Result<Option<Vec<Pid>>, AllocError>
    requires { IsWhole store.now }
    ensures { IfOk result (λ r. ListsPage (state_of store.now) page.now (option_map (λ listed. listed.items) r)) }
{
    let Some(caller) = find_live(store, page.caller) else {
        return Ok(None);
    };
    Ok(Some(list_numbers(store, &caller, page, usize::MAX)?))
}

/// Writes the numbers of the page over the front of the room, in rising order, as many as it takes, and answers how
/// many there are, as `Counted`; but one more than the room takes where there are more. What is behind them in the room
/// stays.
///
/// The refusal is `NoCaller` where no live task has the caller's root number. A number that names nobody has an empty
/// page. The error is want of memory, and then the room is as it was. Of the caller's own namespace it costs a search
/// and a few reads for each number that it passes, until it has one more than the room takes. Else it costs a search, a
/// few reads for each child or member, for each task that a namespace sees a search more, and the sorting of their
/// numbers; it looks at no other task.
pub fn read_page(store: &Tasks, page: &Page, room: &mut [Pid]) -> Result<ShortReply, AllocError>
    requires { IsWhole store.now }
    ensures told { IfOk result (λ reply. TellsPage (state_of store.now) page.now room.old room.new (reply_of reply)) }
    ensures seen { IfOk result (λ reply.
        TellsSeenPage (state_of store.now) page.now room.old room.new (reply_of reply)) }
    ensures err { OnErr result (room.new ≡ room.old) }
{
    let Some(caller) = find_live(store, page.caller) else {
        return Ok(ShortReply::Refused(Refusal::NoCaller));
    };
    let listed = list_numbers(store, &caller, page, room.len())?;
    put_front(&listed, room);
    Ok(ShortReply::Counted(listed.len() as u64))
}
