//! Fork: `fork(2)`, and `clone(2)` with `CLONE_NEWPID`, over the tasks of a table.
//!
//! A fork is planned on the unchanged store, then memory is taken, then the store changes: so neither a refusal
//! nor want of memory changes anything. It costs one or two searches for each level, and a step for each control
//! group around the caller's.
#![tactic(auto)]

ghost use Rattle.std.specs.Prelude.{◌≡◌, ℕ, Some, None, true, false, map, find, is_none, option_map, unwrap_or, IfOk};
ghost use Rattle.std.specs.Prelude.{IfErr, OnOk, IsSome, nat_le, ◌∷◌, ◌==◌, ◌<◌};
ghost use Rattle.{
  pid_types.specs.{Bounds.{deepest_space}, Names.{level, number_or_zero, root_number}, declared.plain.Life.{Life}},
  pid_types.specs.{declared.reply.Reply.{Reply}, Controls.{passed_limit as passed_limit_of}},
  pid_types.specs.{Fork.{fork as fork_of, is_gone}, Sound.{IsBelow}, declared.reply.Refusal.{Refusal}},
  pid_types.specs.Short.{reply_of},
  fork_calls.specs.Outcomes.{child_there, child_below, space_refusal, IsKeyOf, nest_refusal as nest_refusal_of},
  fork_calls.specs.Outcomes.{LeavesOutcome, Replies, StaysSame},
  pid_numbers.specs.Numbering.{id_at, path_at, draw_in, namespace_at, number_of, identifier_at, Identifier},
  task_tree.specs.declared.Task.{Task},
  task_table.specs.{View.{name_at, row_of, state_of}, Found.{IsCaller, IsFound}, Whole.{IsWhole, HasParents}},
};

pub mod threads;
mod would;

use arrayvec::ArrayVec;
use pid_types::keys::{Pid, SpaceKey, TaskKey};
use pid_types::plain::{DEEPEST_SPACE, LEVELS, Life};
use pid_types::reply::{Refusal, ShortReply};
use std::alloc::AllocError;
use task_table::Tasks;
use task_table::view::{Found, find_live, laws};
use task_tree::Task;
pub use would::would_fork;

/// The control group whose limit one task more beside the caller would pass.
fn passed_limit(store: &Tasks, found: &Found) -> Option<Refusal>
    requires whole { IsWhole store.now }
    requires caller { IsCaller store.now found.now }
    ensures { result ≡ option_map Refusal.PidsLimit (passed_limit_of (state_of store.now)
        (row_of store.now found.now.key found.now.task).home) }
{
    laws(store);
    match store.controls().may_charge(found.task.home) {
        Ok(()) => None,
        Err(refusal) => Some(refusal),
    }
}

/// The id of a namespace that is there.
fn id_of(store: &Tasks, space: SpaceKey) -> u64
    requires { IsSome (namespace_at store.now.numbering space) }
    ensures { id_at store.now.numbering space ≡ Some result }
{
    match store.numbers().id(space) {
        Some(id) => id,
        None => unreachable!(),
    }
}

/// A child of the task, before it has executed, whose own children go into the namespace with the id.
fn child_of(found: &Found, children_space: u64) -> Task
    ensures { result ≡ record {
      children_space = children_space;
      home = found.now.task.home;
      executed = false;
      subreaper = false;
      life = Life.Live;
    } }
{
    Task {
        children_space,
        home: found.task.home,
        executed: false,
        subreaper: false,
        life: Life::Live,
    }
}

/// The identifier's number in the namespace; 0 where it has none there.
fn number_seen(store: &Tasks, key: TaskKey, space: SpaceKey) -> Pid
    ensures { result ≡ unwrap_or (number_of store.now.numbering key space) 0 }
{
    store.numbers().number_in(key, space).unwrap_or(0)
}

/// The reply for a new task with the planned numbers: its numbers in the caller's namespace and in the root, which is
/// the outermost of them. Most callers are in the root.
#[inline(always)]
fn reply_for(store: &Tasks, key: TaskKey, own: SpaceKey, numbers: &[Pid]) -> ShortReply
    requires there { IsSome (identifier_at store.now.numbering key) }
    requires numbers { (u : Identifier) → identifier_at store.now.numbering key ≡ Some u → u.numbers ≡ numbers.now }
    ensures { (i : ℕ) → id_at store.now.numbering own ≡ Some i
        → reply_of result ≡ Reply.Forked (number_or_zero (state_of store.now).spaces
        (name_at store.now.numbering key) i) (root_number (name_at store.now.numbering key)) }
{
    laws(store);
    let root = numbers[numbers.len() - 1];
    let child = if own == 0 {
        root
    } else {
        number_seen(store, key, own)
    };
    ShortReply::Forked { child, root }
}

/// The caller's child in a namespace that stands, with the planned numbers. The error is want of memory.
#[inline(always)]
fn fork_planned(
    store: &mut Tasks,
    found: &Found,
    space: SpaceKey,
    numbers: &[Pid],
) -> Result<ShortReply, AllocError>
    requires whole { IsWhole store.old }
    requires caller { IsCaller store.old found.now }
    requires id { id_at store.old.numbering space ≡ Some found.now.task.children_space }
    requires all { find (λ s. is_none (draw_in store.old.numbering s)) (path_at store.old.numbering space) ≡ None }
    requires planned { numbers.now ≡ map (λ s. unwrap_or (draw_in store.old.numbering s) 0)
        (path_at store.old.numbering space) }
    ensures state { LeavesOutcome result store.new (child_there store.old found.now.key found.now.task) }
    ensures reply { Replies result (child_there store.old found.now.key found.now.task) }
    ensures err { StaysSame result store.old store.new }
    ensures parents { HasParents store.new }
    ensures threads { store.new.threads ≡ store.old.threads }
{
    laws(store);
    if let Some(refusal) = passed_limit(store, found) {
        return Ok(ShortReply::Refused(refusal));
    }
    let task = child_of(found, found.task.children_space);
    let key = store.fork(Some(found.key), space, numbers, task)?;
    laws(store);
    Ok(reply_for(store, key, found.space, numbers))
}

/// The caller's child in a namespace that stands. The error is want of memory.
fn fork_into(store: &mut Tasks, found: &Found, space: SpaceKey) -> Result<ShortReply, AllocError>
    requires whole { IsWhole store.old }
    requires caller { IsCaller store.old found.now }
    requires id { id_at store.old.numbering space ≡ Some found.now.task.children_space }
    ensures state { LeavesOutcome result store.new (child_there store.old found.now.key found.now.task) }
    ensures reply { Replies result (child_there store.old found.now.key found.now.task) }
    ensures err { StaysSame result store.old store.new }
    ensures parents { HasParents store.new }
    ensures threads { store.new.threads ≡ store.old.threads }
{
    laws(store);
    let mut numbers = ArrayVec::<Pid, LEVELS>::new();
    match store.numbers().plan_into(space, &mut numbers) {
        Err(exhausted) => Ok(ShortReply::Refused(Refusal::NoNumber(id_of(store, exhausted)))),
        Ok(()) => fork_planned(store, found, space, numbers.as_slice()),
    }
}

/// The caller's child in the root namespace, where one number is planned and no list of them. The error is want of
/// memory.
fn fork_into_root(store: &mut Tasks, found: &Found) -> Result<ShortReply, AllocError>
    requires whole { IsWhole store.old }
    requires caller { IsCaller store.old found.now }
    requires id { id_at store.old.numbering 0 ≡ Some found.now.task.children_space }
    ensures state { LeavesOutcome result store.new (child_there store.old found.now.key found.now.task) }
    ensures reply { Replies result (child_there store.old found.now.key found.now.task) }
    ensures err { StaysSame result store.old store.new }
    ensures parents { HasParents store.new }
    ensures threads { store.new.threads ≡ store.old.threads }
{
    laws(store);
    match store.numbers().plan_one(0) {
        None => Ok(ShortReply::Refused(Refusal::NoNumber(id_of(store, 0)))),
        Some(number) => fork_planned(store, found, 0, &[number]),
    }
}

/// The caller's child in a new namespace inside the caller's own, with the planned numbers. The error is want of
/// memory.
fn fork_new_planned(
    store: &mut Tasks,
    found: &Found,
    stamp: u64,
    numbers: &[Pid],
) -> Result<ShortReply, AllocError>
    requires whole { IsWhole store.old }
    requires below { IsBelow stamp (state_of store.old) }
    requires caller { IsCaller store.old found.now }
    requires id { id_at store.old.numbering found.now.space ≡ Some found.now.task.children_space }
    requires stands { is_gone (state_of store.old) found.now.task.children_space ≡ false }
    requires shallow { nat_le deepest_space (level (state_of store.old).spaces found.now.task.children_space) ≡ false }
    requires all { find (λ s. is_none (draw_in store.old.numbering s)) (path_at store.old.numbering found.now.space)
        ≡ None }
    requires planned { numbers.now ≡ 1 ∷ map (λ s. unwrap_or (draw_in store.old.numbering s) 0)
        (path_at store.old.numbering found.now.space) }
    ensures state { LeavesOutcome result store.new (child_below store.old found.now.key found.now.task stamp) }
    ensures reply { Replies result (child_below store.old found.now.key found.now.task stamp) }
    ensures err { StaysSame result store.old store.new }
    ensures parents { HasParents store.new }
    ensures threads { store.new.threads ≡ store.old.threads }
{
    laws(store);
    if let Some(refusal) = passed_limit(store, found) {
        return Ok(ShortReply::Refused(refusal));
    }
    let task = child_of(found, stamp);
    let keys = store.fork_new(found.key, found.space, stamp, numbers, task)?;
    laws(store);
    Ok(reply_for(store, keys.0, found.space, numbers))
}

/// The caller's child in a new namespace inside the caller's own, in which it is the init. The error is want of
/// memory.
fn fork_inside(store: &mut Tasks, found: &Found, stamp: u64) -> Result<ShortReply, AllocError>
    requires whole { IsWhole store.old }
    requires below { IsBelow stamp (state_of store.old) }
    requires caller { IsCaller store.old found.now }
    requires id { id_at store.old.numbering found.now.space ≡ Some found.now.task.children_space }
    requires stands { is_gone (state_of store.old) found.now.task.children_space ≡ false }
    requires shallow { nat_le deepest_space (level (state_of store.old).spaces found.now.task.children_space) ≡ false }
    ensures state { LeavesOutcome result store.new (child_below store.old found.now.key found.now.task stamp) }
    ensures reply { Replies result (child_below store.old found.now.key found.now.task stamp) }
    ensures err { StaysSame result store.old store.new }
    ensures parents { HasParents store.new }
    ensures threads { store.new.threads ≡ store.old.threads }
{
    laws(store);
    let mut numbers = ArrayVec::<Pid, LEVELS>::new();
    match store.numbers().plan_new_into(found.space, &mut numbers) {
        Err(full) => Ok(ShortReply::Refused(Refusal::NoNumber(id_of(store, full)))),
        Ok(()) => fork_new_planned(store, found, stamp, numbers.as_slice()),
    }
}

/// The namespace with the id, looked for at the caller's own first: the children of most tasks go there.
fn find_space(store: &Tasks, id: u64, own: SpaceKey) -> Option<SpaceKey>
    ensures { IsKeyOf store.now.numbering id result }
{
    if store.numbers().id(own) == Some(id) {
        return Some(own);
    }
    store.numbers().find_space(id)
}

/// Why the caller, whose own namespace is the second, can have no new one in the first.
fn nest_refusal(store: &Tasks, space: SpaceKey, own: SpaceKey) -> Option<Refusal>
    requires { IsSome (namespace_at store.now.numbering space) }
    ensures { (id i : ℕ) → id_at store.now.numbering space ≡ Some id → id_at store.now.numbering own ≡ Some i
        → result ≡ nest_refusal_of (state_of store.now) id i }
{
    laws(store);
    if store.numbers().level(space) >= DEEPEST_SPACE {
        return Some(Refusal::TooDeep);
    }
    if space != own {
        return Some(Refusal::Elsewhere);
    }
    None
}

/// The namespace, if it has not fallen.
fn standing(store: &Tasks, space: SpaceKey) -> Result<SpaceKey, Refusal>
    ensures ok { IfOk result (λ s. (s ≡ space) × ((id : ℕ) → id_at store.now.numbering space ≡ Some id
        → is_gone (state_of store.now) id ≡ false)) }
    ensures err { IfErr result (λ r. (r ≡ Refusal.SpaceFallen) × ((id : ℕ) → id_at store.now.numbering space ≡ Some id
        → is_gone (state_of store.now) id ≡ true)) }
{
    laws(store);
    if store.numbers().is_fallen(space) {
        return Err(Refusal::SpaceFallen);
    }
    Ok(space)
}

/// The namespace for the caller's children, or why it can have none there or in a new one below it.
#[inline(always)]
fn namespace_for(store: &Tasks, found: &Found, new_space: bool) -> Result<SpaceKey, Refusal>
    requires found { IsFound store.now found.now }
    ensures ok { IfOk result (λ space. (space_refusal (state_of store.now)
        (row_of store.now found.now.key found.now.task) new_space ≡ None)
        × (id_at store.now.numbering space ≡ Some found.now.task.children_space)) }
    ensures err { IfErr result (λ r. space_refusal (state_of store.now)
        (row_of store.now found.now.key found.now.task) new_space ≡ Some r) }
{
    laws(store);
    let Some(space) = find_space(store, found.task.children_space, found.space) else {
        return Err(if new_space {
            Refusal::Elsewhere
        } else {
            Refusal::SpaceFallen
        });
    };
    if !new_space {
        return standing(store, space);
    }
    match nest_refusal(store, space, found.space) {
        Some(refusal) => Err(refusal),
        None => standing(store, space),
    }
}

/// `fork(2)`; with `new_space`, `clone(2)` with `CLONE_NEWPID`, where the stamp is the id of the new namespace. A
/// refused fork leaves every cursor as it was. The error is want of memory.
#[tactic(auto, unfolding(pid_types::specs::Fork::fork))]
#[inline(never)]
pub fn fork(
    store: &mut Tasks,
    caller: Pid,
    new_space: bool,
    stamp: u64,
) -> Result<ShortReply, AllocError>
    requires whole { IsWhole store.old }
    requires below { IsBelow stamp (state_of store.old) }
    ensures state { OnOk result (state_of store.new ≡ (fork_of (state_of store.old) stamp caller new_space).state) }
    ensures reply { IfOk result (λ reply. reply_of reply
        ≡ (fork_of (state_of store.old) stamp caller new_space).reply) }
    ensures err { StaysSame result store.old store.new }
    ensures parents { HasParents store.new }
    ensures threads { store.new.threads ≡ store.old.threads }
{
    let Some(found) = find_live(store, caller) else {
        return Ok(ShortReply::Refused(Refusal::NoCaller));
    };
    match namespace_for(store, &found, new_space) {
        Err(refusal) => Ok(ShortReply::Refused(refusal)),
        Ok(_) if new_space => fork_inside(store, &found, stamp),
        Ok(0) => fork_into_root(store, &found),
        Ok(space) => fork_into(store, &found, space),
    }
}
