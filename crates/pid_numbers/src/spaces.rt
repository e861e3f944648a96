//! The numbers of the namespaces, each at the key of its namespace, and walks along paths.

ghost use Rattle.std.specs.Prelude.{if◌then◌else◌, vec_capacity, ◌≡◌, ◌≢◌, ℕ, ◌+◌, ◌<◌, ◌≤◌, length, map, Some, None};
ghost use Rattle.std.specs.Prelude.{slice_get, IsSome, IfOk, IfErr, OnOk, find, is_none, is_some, unwrap_or, true};
ghost use Rattle.std.specs.Prelude.{false, ◌++◌, List};
ghost use Rattle.{
  cyclic_ids.specs.Ids.{Ids},
  index_array.specs.Place.{index_count, entry_at, with_mark, is_marked, is_unmarked, IsLeastIndex},
  pid_types.specs.{Bounds.{deepest_space}, Settings.{HasGoodPidMax}},
  ns_tree.specs.{Tree.{way, grown, IsDistinct}},
  pid_numbers.specs.Slabs.{entry_on, leads, plan_on, cursor_on, bound_on, ready, touched, stepped, given_to, mark_of},
  pid_numbers.specs.Slabs.{dead_on, AreAround, AreIn, ArePlanned, AreReady, KeepsPlans, KeepsNumbers, KeepsBounds},
  pid_numbers.specs.Slabs.{KeepsCursors, KeepsOtherNumbers, KeepsOtherSpaces, AreFreed, AreSwept},
};

use arrayvec::ArrayVec;
use cyclic_ids::{CyclicIds, GROUP_MARK, SESSION_MARK, TASK_MARK};
use ns_tree::SpaceTree;
use pid_types::call::Kind;
use pid_types::keys::{IdentKey, Pid, SpaceKey};
use pid_types::plain::LEVELS;
use std::alloc::{AllocError, Global};

/// The mark of a kind.
pub(crate) fn mark(kind: Kind) -> usize
    ensures value { result ≡ mark_of kind }
    ensures few { result < 3 }
{
    match kind {
        Kind::Task => TASK_MARK,
        Kind::Group => GROUP_MARK,
        Kind::Session => SESSION_MARK,
    }
}

/// What a number leads to.
#[inline(always)]
pub(crate) fn look(ids: &Vec<CyclicIds>, key: SpaceKey, n: Pid) -> Option<IdentKey>
    ensures { result ≡ leads (entry_on ids.now.items) key n }
{
    match ids.get(key as usize) {
        Some(t) => t.value(n),
        None => None,
    }
}

/// What a number of the root namespace leads to. It costs no test whether that is there.
#[inline(always)]
pub(crate) fn look_in_root(ids: &Vec<CyclicIds>, n: Pid) -> Option<IdentKey>
    requires { 0 < length ids.now.items }
    ensures { result ≡ leads (entry_on ids.now.items) 0 n }
{
    ids[0].value(n)
}

/// The number that the namespace gives next.
#[inline(always)]
pub(crate) fn plan_at(ids: &Vec<CyclicIds>, key: SpaceKey) -> Option<Pid>
    requires { key < length ids.now.items }
    ensures { result ≡ plan_on ids.now.items key }
{
    ids[key as usize].plan()
}

/// Writes the numbers that those on the path give next behind others, or answers the first that gives none.
#[inline(always)]
pub(crate) fn plan_path(
    ids: &Vec<CyclicIds>,
    path: &[SpaceKey],
    numbers: &mut ArrayVec<Pid, LEVELS>,
) -> Result<(), SpaceKey>
    requires there { AreIn ids.now.items path.now }
    requires room { length numbers.old.items + length path.now ≤ deepest_space + 1 }
    ensures ok { OnOk result ((find (λ s. is_none (plan_on ids.now.items s)) path.now ≡ None)
        × (numbers.new.items ≡ numbers.old.items ++ map (λ s. unwrap_or (plan_on ids.now.items s) 0) path.now)) }
    ensures err { IfErr result (λ s. find (λ s. is_none (plan_on ids.now.items s)) path.now ≡ Some s) }
{
    for k in 0..path.len() {
        let key = path[k];
        match plan_at(ids, key) {
            Some(n) => numbers.push(n),
            None => return Err(key),
        }
    }
    Ok(())
}

/// Takes the memory for a number that the namespace gives next.
#[inline(always)]
pub(crate) fn prepare_at(ids: &mut Vec<CyclicIds>, key: SpaceKey, n: Pid) -> Result<(), AllocError>
    requires { plan_on ids.old.items key ≡ Some n }
    ensures ok { OnOk result (ready ids.new.items key n ≡ true) }
    ensures ready { (s m : ℕ) → ready ids.old.items s m ≡ true → ready ids.new.items s m ≡ true }
    ensures plan { KeepsPlans ids.old.items ids.new.items }
    ensures entries { KeepsNumbers ids.old.items ids.new.items }
    ensures bound { KeepsBounds ids.old.items ids.new.items }
    ensures cursors { KeepsCursors ids.old.items ids.new.items }
    ensures count { length ids.new.items ≡ length ids.old.items }
{
    ids[key as usize].prepare(n)
}

/// Takes the memory for the numbers along a path.
#[inline(always)]
pub(crate) fn prepare_path(
    ids: &mut Vec<CyclicIds>,
    path: &[SpaceKey],
    numbers: &[Pid],
) -> Result<(), AllocError>
    requires planned { ArePlanned ids.old.items path.now numbers.now }
    requires len { length numbers.now ≡ length path.now }
    ensures ok { OnOk result (AreReady ids.new.items path.now numbers.now) }
    ensures plan { KeepsPlans ids.old.items ids.new.items }
    ensures entries { KeepsNumbers ids.old.items ids.new.items }
    ensures bound { KeepsBounds ids.old.items ids.new.items }
    ensures cursors { KeepsCursors ids.old.items ids.new.items }
    ensures count { length ids.new.items ≡ length ids.old.items }
{
    for k in 0..path.len() {
        prepare_at(ids, path[k], numbers[k])?;
    }
    Ok(())
}

/// The next draw in a namespace begins at the number.
pub(crate) fn put_cursor(ids: &mut Vec<CyclicIds>, key: SpaceKey, cursor: Pid)
    requires { key < length ids.old.items }
    ensures entries { KeepsNumbers ids.old.items ids.new.items }
    ensures bound { KeepsBounds ids.old.items ids.new.items }
    ensures here { cursor_on ids.new.items key ≡ cursor }
    ensures others { (s : ℕ) → s ≢ key → cursor_on ids.new.items s ≡ cursor_on ids.old.items s }
    ensures count { length ids.new.items ≡ length ids.old.items }
{
    ids[key as usize].set_cursor(cursor);
}

/// Gives the planned number to a task, or to a thread.
#[inline(always)]
pub(crate) fn give_at(
    ids: &mut Vec<CyclicIds>,
    key: SpaceKey,
    n: Pid,
    value: IdentKey,
    is_task: bool,
)
    requires planned { plan_on ids.old.items key ≡ Some n }
    requires ready { ready ids.old.items key n ≡ true }
    ensures here { entry_on ids.new.items key n ≡ given_to is_task value }
    ensures same { KeepsOtherNumbers ids.old.items ids.new.items key n }
    ensures others { KeepsOtherSpaces ids.old.items ids.new.items key }
    ensures bound { bound_on ids.new.items key ≡ bound_on ids.old.items key }
    ensures cursor { cursor_on ids.new.items key ≡ n + 1 }
    ensures count { length ids.new.items ≡ length ids.old.items }
{
    ids[key as usize].commit_marked(n, value, [is_task, false, false]);
}

/// Gives the planned numbers along a path to a task, or to a thread.
#[inline(always)]
pub(crate) fn give_path(
    ids: &mut Vec<CyclicIds>,
    path: &[SpaceKey],
    numbers: &[Pid],
    value: IdentKey,
    is_task: bool,
)
    requires distinct { IsDistinct path.now }
    requires planned { ArePlanned ids.old.items path.now numbers.now }
    requires ready { AreReady ids.old.items path.now numbers.now }
    requires len { length numbers.now ≡ length path.now }
    ensures entries { (s n : ℕ) → entry_on ids.new.items s n
        ≡ touched path.now numbers.now (λ _. given_to is_task value) (entry_on ids.old.items) s n }
    ensures cursors { (s : ℕ) → cursor_on ids.new.items s
        ≡ stepped path.now numbers.now s (cursor_on ids.old.items s) }
    ensures bound { KeepsBounds ids.old.items ids.new.items }
    ensures count { length ids.new.items ≡ length ids.old.items }
{
    for k in 0..path.len() {
        give_at(ids, path[k], numbers[k], value, is_task);
    }
}

/// Gives a number the mark of a kind, or takes it away.
pub(crate) fn mark_at(ids: &mut Vec<CyclicIds>, key: SpaceKey, n: Pid, kind: Kind, on: bool)
    requires { key < length ids.old.items }
    ensures here { entry_on ids.new.items key n ≡ with_mark (mark_of kind) on (entry_on ids.old.items key n) }
    ensures same { KeepsOtherNumbers ids.old.items ids.new.items key n }
    ensures others { KeepsOtherSpaces ids.old.items ids.new.items key }
    ensures bound { bound_on ids.new.items key ≡ bound_on ids.old.items key }
    ensures cursor { cursor_on ids.new.items key ≡ cursor_on ids.old.items key }
    ensures count { length ids.new.items ≡ length ids.old.items }
{
    let ids = &mut ids[key as usize];
    let m = mark(kind);
    if on {
        let _ = ids.set_mark(n, m);
    } else {
        let _ = ids.clear_mark(n, m);
    }
}

/// Gives the numbers along a path the mark of a kind, or takes it away.
pub(crate) fn mark_path(
    ids: &mut Vec<CyclicIds>,
    path: &[SpaceKey],
    numbers: &[Pid],
    kind: Kind,
    on: bool,
)
    requires there { AreIn ids.old.items path.now }
    requires distinct { IsDistinct path.now }
    requires len { length numbers.now ≡ length path.now }
    ensures entries { (s n : ℕ) → entry_on ids.new.items s n
        ≡ touched path.now numbers.now (with_mark (mark_of kind) on) (entry_on ids.old.items) s n }
    ensures cursors { KeepsCursors ids.old.items ids.new.items }
    ensures bound { KeepsBounds ids.old.items ids.new.items }
    ensures count { length ids.new.items ≡ length ids.old.items }
{
    for k in 0..path.len() {
        mark_at(ids, path[k], numbers[k], kind, on);
    }
}

/// Makes a number free.
#[inline(always)]
pub(crate) fn release_at(ids: &mut Vec<CyclicIds>, key: SpaceKey, n: Pid)
    requires { key < length ids.old.items }
    ensures here { entry_on ids.new.items key n ≡ None }
    ensures same { KeepsOtherNumbers ids.old.items ids.new.items key n }
    ensures others { KeepsOtherSpaces ids.old.items ids.new.items key }
    ensures bound { bound_on ids.new.items key ≡ bound_on ids.old.items key }
    ensures cursor { cursor_on ids.new.items key ≡ cursor_on ids.old.items key }
    ensures count { length ids.new.items ≡ length ids.old.items }
{
    let _ = ids[key as usize].release(n);
}

/// Makes the numbers along a path free.
#[inline(never)]
pub(crate) fn release_path(ids: &mut Vec<CyclicIds>, path: &[SpaceKey], numbers: &[Pid])
    requires there { AreIn ids.old.items path.now }
    requires distinct { IsDistinct path.now }
    requires len { length numbers.now ≡ length path.now }
    ensures { AreFreed ids.old.items ids.new.items path.now numbers.now }
{
    for k in 0..path.len() {
        release_at(ids, path[k], numbers[k]);
    }
}

/// The least number from one on that has the mark of a kind.
#[inline(always)]
pub(crate) fn next_at(ids: &Vec<CyclicIds>, key: SpaceKey, kind: Kind, from: Pid) -> Option<Pid>
    ensures { IsLeastIndex (λ n. is_marked (mark_of kind) (entry_on ids.now.items key n)) from index_count result }
{
    match ids.get(key as usize) {
        Some(t) => t.next_marked(from, mark(kind)),
        None => None,
    }
}

/// The least number from one on that is in use and has no mark.
#[inline(always)]
pub(crate) fn next_unmarked_at(ids: &Vec<CyclicIds>, key: SpaceKey, from: Pid) -> Option<Pid>
    ensures { IsLeastIndex (λ n. is_unmarked (entry_on ids.now.items key n)) from index_count result }
{
    match ids.get(key as usize) {
        Some(t) => t.next_unmarked(from),
        None => None,
    }
}

/// Whether the namespace has fallen and no number in it is in use.
#[inline(always)]
fn is_dead(tree: &SpaceTree, ids: &Vec<CyclicIds>, key: SpaceKey) -> bool
    ensures { result ≡ dead_on tree.now.nodes ids.now.items key }
{
    if !tree.is_fallen(key) {
        return false;
    }
    match ids.get(key as usize) {
        Some(t) => t.is_empty(),
        None => true,
    }
}

/// Drops the namespace, where it is dead, and then each one around it that is dead, the innermost first.
#[inline(always)]
pub(crate) fn sweep(tree: &mut SpaceTree, ids: &Vec<CyclicIds>, space: SpaceKey)
    requires { AreAround tree.old.nodes ids.now.items (way tree.old.nodes space) }
    ensures { AreSwept tree.old tree.new ids.now.items }
{
    tree.laws();
    let mut key = space;
    while is_dead(tree, ids, key) {
        let Some(parent) = tree.parent(key) else {
            unreachable!()
        };
        tree.drop_space(key);
        tree.laws();
        key = parent;
    }
}

/// Makes the numbers of an identifier that is gone free, and drops each namespace around it that is dead then.
#[inline(always)]
pub(crate) fn free_numbers(
    tree: &mut SpaceTree,
    ids: &mut Vec<CyclicIds>,
    space: SpaceKey,
    numbers: &[Pid],
)
    requires there { AreIn ids.old.items (way tree.old.nodes space) }
    requires distinct { IsDistinct (way tree.old.nodes space) }
    requires len { length numbers.now ≡ length (way tree.old.nodes space) }
    requires around { (after : List (Ids ℕ)) → AreFreed ids.old.items after (way tree.old.nodes space) numbers.now
        → AreAround tree.old.nodes after (way tree.old.nodes space) }
    ensures freed { AreFreed ids.old.items ids.new.items (way tree.old.nodes space) numbers.now }
    ensures swept { AreSwept tree.old tree.new ids.new.items }
{
    release_path(ids, tree.path_up(space), numbers);
    sweep(tree, ids, space);
}

/// The numbers of a new namespace, of which the first is given to a task.
pub(crate) fn first_ids(
    alloc: Global,
    pid_max: u32,
    value: IdentKey,
) -> Result<CyclicIds, AllocError>
    requires { HasGoodPidMax pid_max }
    ensures here { IfOk result (λ ids. entry_at ids.places 1 ≡ given_to true value) }
    ensures others { IfOk result (λ ids. (n : ℕ) → n ≢ 1 → entry_at ids.places n ≡ None) }
    ensures pid_max { IfOk result (λ ids. ids.pid_max ≡ pid_max) }
    ensures cursor { IfOk result (λ ids. ids.cursor ≡ 2) }
{
    let mut ids = CyclicIds::new(alloc, pid_max);
    ids.prepare(1)?;
    ids.commit_marked(1, value, [true, false, false]);
    Ok(ids)
}

/// Puts the numbers of a new namespace at its key: over those of one that is gone, or behind all others.
pub(crate) fn put_ids(all: &mut Vec<CyclicIds>, key: SpaceKey, ids: CyclicIds)
    requires near { key ≤ length all.old.items }
    requires room { length all.old.items < vec_capacity all.old }
    ensures here { slice_get all.new.items key ≡ Some ids }
    ensures others { (s : ℕ) → s ≢ key → slice_get all.new.items s ≡ slice_get all.old.items s }
    ensures count { length all.new.items ≡ grown (length all.old.items) key }
{
    if (key as usize) < all.len() {
        all[key as usize] = ids;
    } else {
        all.push_reserved(ids);
    }
}
