//! Changes of each element of a list: the one loop that all changes of rows, namespaces and limits
//! go through. A change of one task's row has the name of its definition in the model.
ghost use Rattle.std.specs.Prelude.{◌≡◌, ◌≤◌, ◌==◌, map, filter, Bool, true, not, vec_len, vec_capacity};
ghost use Rattle.{
  pid_types.specs.Names.{same_name, on_row, root_number as root_of},
  pid_types.specs.Threads.{is_thread_of as is_thread_of_process},
  pid_types.specs.Changes.{set_executed, set_home, set_thread_home, set_thread_space},
  pid_types.specs.Changes.{rehome, set_children_space, set_mark, limited},
  pid_types.specs.Groups.{set_group, start_session},
  pid_types.specs.Exit.{row_after_exit, row_after_fall, goes_in_fall, has_parent_within, is_of},
  plain_table.specs.Moved.{moved_by},
};

use pid_types::plain::{Control, Ended, Life, Name, Row, Space, Thread};
use plain_view::names::{copy_name, is_live, is_parent, is_same, root_number};
use plain_view::spaces::beside;
use plain_view::threads::is_thread_of;
use plain_view::view::View;

/// A change of one element.
pub trait Edit<T> {
    // What the element becomes.
    ghost gives: { Self → T → T };

    /// Makes the change.
    fn edit(&self, element: &mut T)
        ensures { element.new ≡ gives self.now element.old };
}

/// Changes each element.
#[tactic(auto, using(std::proofs::lemmas::List::Edits::map_over_more))]
pub fn edit_all<T, E: Edit<T>>(elements: &mut [T], change: &E)
    ensures { elements.new ≡ map (E.gives change.now) elements.old }
{
    for element in elements.iter_mut() {
        change.edit(element);
    }
}

/// A change of the named task's row alone.
#[derive(Drop)]
pub struct OnRow<'a, C> {
    pub name: &'a Name,
    pub change: &'a C,
}

impl<C: Edit<Row>> Edit<Row> for OnRow<'_, C> {
    ghost gives = { λ e row. on_row e.name.now (C.gives e.change.now) row };

    fn edit(&self, row: &mut Row) {
        if is_same(&row.name, self.name) {
            self.change.edit(row);
        }
    }
}

/// Changes the named task's row.
pub fn edit_row<C: Edit<Row>>(rows: &mut [Row], name: &Name, change: &C)
    ensures { rows.new ≡ map (on_row name.now (C.gives change.now)) rows.old }
{
    edit_all(rows, &OnRow { name, change });
}

/// The process has executed, and goes on in the thread with the root number.
#[derive(Drop)]
pub struct SetExecuted<'a> {
    pub view: &'a View<'a>,
    pub number: u32,
}

impl Edit<Row> for SetExecuted<'_> {
    ghost gives = { λ e row. set_executed e.view.now e.number row };

    fn edit(&self, row: &mut Row) {
        self.view.as_thread(self.number, row);
        row.executed = true;
    }
}

/// The task goes into the group.
#[derive(Drop)]
pub struct SetGroup<'a>(pub &'a Name);

impl Edit<Row> for SetGroup<'_> {
    ghost gives = { λ e row. set_group e.0.now row };

    fn edit(&self, row: &mut Row) {
        row.group = copy_name(self.0);
    }
}

/// The task leads a new group and a new session.
#[derive(Drop)]
pub struct StartSession;

impl Edit<Row> for StartSession {
    ghost gives = { λ _ row. start_session row };

    fn edit(&self, row: &mut Row) {
        row.group = copy_name(&row.name);
        row.session = copy_name(&row.name);
    }
}

/// The process's first thread goes into the control group, unless it has left.
#[derive(Drop)]
pub struct SetHome<'a> {
    pub view: &'a View<'a>,
    pub home: u64,
}

impl Edit<Row> for SetHome<'_> {
    ghost gives = { λ e row. set_home e.view.now e.home row };

    fn edit(&self, row: &mut Row) {
        if !self.view.has_left(root_number(&row.name)) {
            row.home = self.home;
        }
    }
}

/// The process's threads beside its first one go into the control group.
#[derive(Drop)]
pub struct SetThreadHome<'a> {
    pub process: &'a Name,
    pub home: u64,
}

impl Edit<Thread> for SetThreadHome<'_> {
    ghost gives = { λ e t. set_thread_home e.process.now e.home t };

    fn edit(&self, thread: &mut Thread) {
        if is_thread_of(self.process, thread) {
            thread.home = self.home;
        }
    }
}

/// The children of the thread with the root number go into the namespace.
#[derive(Drop)]
pub struct SetThreadSpace {
    pub number: u32,
    pub space: u64,
}

impl Edit<Thread> for SetThreadSpace {
    ghost gives = { λ e t. set_thread_space e.number e.space t };

    fn edit(&self, thread: &mut Thread) {
        if root_number(&thread.name) == self.number {
            thread.children_space = self.space;
        }
    }
}

/// The task's children go into the namespace.
#[derive(Drop)]
pub struct SetChildrenSpace(pub u64);

impl Edit<Row> for SetChildrenSpace {
    ghost gives = { λ e row. set_children_space e.0 row };

    fn edit(&self, row: &mut Row) {
        row.children_space = self.0;
    }
}

/// The task has the subreaper's mark, or not.
#[derive(Drop)]
pub struct SetMark(pub bool);

impl Edit<Row> for SetMark {
    ghost gives = { λ e row. set_mark e.0 row };

    fn edit(&self, row: &mut Row) {
        row.subreaper = self.0;
    }
}

/// All tasks of one control group go into another.
#[derive(Drop)]
pub struct Rehome {
    pub from: u64,
    pub to: u64,
}

impl Edit<Row> for Rehome {
    ghost gives = { λ e row. rehome e.from e.to row };

    fn edit(&self, row: &mut Row) {
        if row.home == self.from {
            row.home = self.to;
        }
    }
}

/// The control group has the limit.
#[derive(Drop)]
pub struct Limits {
    pub id: u64,
    pub limit: Option<u32>,
}

impl Edit<Control> for Limits {
    ghost gives = { λ e control. limited e.id e.limit control };

    fn edit(&self, control: &mut Control) {
        if control.id == self.id {
            control.limit = self.limit;
        }
    }
}

/// A task has ended, and its children go to the heir.
#[derive(Drop)]
pub struct Ends<'a> {
    pub task: &'a Row,
    pub heir: &'a Option<Name>,
    pub ended: Ended,
}

impl Edit<Row> for Ends<'_> {
    ghost gives = { λ e row. row_after_exit e.task.now e.heir.now e.ended row };

    fn edit(&self, row: &mut Row) {
        if is_parent(&self.task.name, row) {
            row.parent = copy_parent(self.heir);
        }
        if is_same(&row.name, &self.task.name) {
            row.life = Life::Zombie(self.ended);
        }
    }
}

/// A copy, which needs no memory.
fn copy_parent(parent: &Option<Name>) -> Option<Name>
    ensures { result ≡ parent.now }
{
    match parent {
        Some(name) => Some(copy_name(name)),
        None => None,
    }
}

/// A namespace falls by the end of its init: the init has ended by its exit, and every other live
/// member is killed.
#[derive(Drop)]
pub struct Falls<'a> {
    pub view: &'a View<'a>,
    pub init: &'a Row,
    pub status: u8,
}

impl Edit<Row> for Falls<'_> {
    ghost gives = { λ e row. row_after_fall e.view.now e.init.now e.status row };

    fn edit(&self, row: &mut Row) {
        if is_same(&row.name, &self.init.name) {
            row.life = Life::Zombie(Ended::Exited(self.status));
        } else if self.view.is_member(self.init.name.space, row) && is_live(row) {
            row.life = Life::Zombie(Ended::Killed);
        }
    }
}

/// The namespaces of the path have the cursors beside them.
#[derive(Drop)]
pub struct MovesCursors<'a> {
    pub path: &'a [u64],
    pub cursors: &'a [u32],
}

impl Edit<Space> for MovesCursors<'_> {
    ghost gives = { λ e space. moved_by e.path.now e.cursors.now space };

    fn edit(&self, space: &mut Space) {
        if let Some(cursor) = beside(space.id, self.path, self.cursors) {
            space.cursor = cursor;
        }
    }
}

/// A test of one element.
pub trait Test<T> {
    // Whether the element passes.
    ghost passes: { Self → T → Bool };

    /// Whether the element passes.
    fn test(&self, element: &T) -> bool
        ensures { result ≡ passes self.now element.now };
}

/// Keeps the elements that pass.
pub fn keep<T: Drop, P: Test<T>>(elements: &mut Vec<T>, passing: &P)
    ensures kept { elements.new.items ≡ filter (P.passes passing.now) elements.old.items }
    ensures fewer { vec_len elements.new ≤ vec_len elements.old }
    ensures capacity { vec_capacity elements.new ≡ vec_capacity elements.old }
{
    elements.retain(|element| passing.test(element));
}

/// All rows but the named one.
#[derive(Drop)]
pub struct AllBut<'a>(pub &'a Name);

impl Test<Row> for AllBut<'_> {
    ghost passes = { λ t row. not (same_name row.name t.0.now) };

    fn test(&self, row: &Row) -> bool {
        !is_same(&row.name, self.0)
    }
}

/// All control groups but the one with the id.
#[derive(Drop)]
pub struct AllButControl(pub u64);

impl Test<Control> for AllButControl {
    ghost passes = { λ t control. not (control.id == t.0) };

    fn test(&self, control: &Control) -> bool {
        control.id != self.0
    }
}

/// All threads but those of the process.
#[derive(Drop)]
pub struct NoThreadOf<'a>(pub &'a Name);

impl Test<Thread> for NoThreadOf<'_> {
    ghost passes = { λ t thread. not (is_thread_of_process t.0.now thread) };

    fn test(&self, thread: &Thread) -> bool {
        !is_thread_of(self.0, thread)
    }
}

/// All threads but the one with the root number.
#[derive(Drop)]
pub struct AllButNumbered(pub u32);

impl Test<Thread> for AllButNumbered {
    ghost passes = { λ t thread. not (root_of thread.name == t.0) };

    fn test(&self, thread: &Thread) -> bool {
        root_number(&thread.name) != self.0
    }
}

/// All names but the one.
#[derive(Drop)]
pub struct AllButName<'a>(pub &'a Name);

impl Test<Name> for AllButName<'_> {
    ghost passes = { λ t name. not (same_name name t.0.now) };

    fn test(&self, name: &Name) -> bool {
        !is_same(name, self.0)
    }
}

/// What is not of the namespace, and of none inside it.
#[derive(Drop)]
pub struct Outside<'a> {
    pub view: &'a View<'a>,
    pub space: u64,
}

impl Test<Name> for Outside<'_> {
    ghost passes = { λ t name. not (is_of t.view.now.spaces t.space name) };

    fn test(&self, name: &Name) -> bool {
        !self.view.is_within(name.space, self.space)
    }
}

impl Test<Thread> for Outside<'_> {
    ghost passes = { λ t thread. not (is_of t.view.now.spaces t.space thread.name) };

    fn test(&self, thread: &Thread) -> bool {
        !self.view.is_within(thread.name.space, self.space)
    }
}

/// The rows that a fall by the end of the init leaves.
#[derive(Drop)]
pub struct Stays<'a> {
    pub view: &'a View<'a>,
    pub init: &'a Row,
}

impl Stays<'_> {
    /// Whether the row's parent is a member of the init's namespace.
    fn has_parent_within(&self, row: &Row) -> bool
        ensures { result ≡ has_parent_within self.now.view.now self.now.init.now.name.space row.now }
    {
        match &row.parent {
            Some(parent) => self.view.is_within(parent.space, self.init.name.space),
            None => false,
        }
    }
}

impl Test<Row> for Stays<'_> {
    ghost passes = { λ t row. not (goes_in_fall t.view.now t.init.now row) };

    fn test(&self, row: &Row) -> bool {
        is_same(&row.name, &self.init.name)
            || !self.view.is_member(self.init.name.space, row)
            || !self.has_parent_within(row)
    }
}
