//! Exit (`_exit(2)`), new parents (`PR_SET_CHILD_SUBREAPER(2const)`), and the fall of a namespace
//! (`pid_namespaces(7)`). They look through all tasks, and take no memory.
ghost use Rattle.std.specs.Prelude.{◌≡◌, ◌≤◌, [], length, map, filter, not, vec_capacity};
ghost use Rattle.{
  pid_types.specs.Exit.{parent_number as parent_number_of, is_subreaper_in as is_subreaper_of},
  pid_types.specs.Exit.{nearest_subreaper as nearest_subreaper_of, new_parent as new_parent_of},
  pid_types.specs.Exit.{rows_after_exit, handed_over},
  pid_types.specs.Exit.{rows_after_fall, row_after_fall, goes_in_fall, fallen_below, fall as fall_of, exit as exit_of},
  pid_types.specs.Exit.{is_of, ends as ends_of},
};

use crate::edit::{Ends, Falls, Outside, Stays, edit_all, keep};
use crate::table::PlainTable;
use pid_types::plain::{Ended, Name, Row, Space, Thread};
use pid_types::reply::{Refusal, Reply};
use plain_view::names::{copy_name, root_number};
use plain_view::view::View;
use std::mem;

/// The root number of the parent of the task with the root number.
fn parent_number(view: &View<'_>, number: u32) -> Option<u32>
    ensures { result ≡ parent_number_of view.now.rows number }
{
    let row = view.row_at(number)?;
    match &row.parent {
        Some(parent) => Some(root_number(parent)),
        None => None,
    }
}

/// Whether the task with the root number is a subreaper whose own namespace this is.
fn is_subreaper_in(view: &View<'_>, space: u64, number: u32) -> bool
    ensures { result ≡ is_subreaper_of view.now.rows space number }
{
    match view.row_at(number) {
        Some(row) => row.subreaper && row.name.space == space,
        None => false,
    }
}

/// The namespaces, fallen from the given one inwards.
fn push_fallen(kept: &mut Vec<Space>, view: &View<'_>, spaces: &[Space], fallen: u64)
    requires empty { kept.old.items ≡ [] }
    requires room { length spaces.now ≤ vec_capacity kept.old }
    ensures fallen { kept.new.items ≡ map (fallen_below view.now.spaces fallen) spaces.now }
    ensures room { vec_capacity kept.old ≤ vec_capacity kept.new }
{
    for space in spaces {
        let Ok(()) = kept.push(Space {
            id: space.id,
            parent: space.parent,
            cursor: space.cursor,
            fallen: space.fallen || view.is_within(space.id, fallen),
        }) else {
            unreachable!()
        };
    }
}

/// Ends the members of the init's namespace, of which only those whose parent is outside stay.
fn end_in_fall(rows: &mut Vec<Row>, view: &View<'_>, init: &Row, status: u8)
    ensures { rows.new.items ≡ map (row_after_fall view.now init.now status)
        (filter (λ row. not (goes_in_fall view.now init.now row)) rows.old.items) }
{
    keep(rows, &Stays { view, init });
    edit_all(rows, &Falls { view, init, status });
}

/// Keeps the threads and the marks that are of no process in the namespace or inside it.
fn keep_outside(threads: &mut Vec<Thread>, left: &mut Vec<Name>, view: &View<'_>, space: u64)
    ensures threads { threads.new.items ≡ filter (λ t. not (is_of view.now.spaces space t.name)) threads.old.items }
    ensures left { left.new.items ≡ filter (λ name. not (is_of view.now.spaces space name)) left.old.items }
{
    keep(threads, &Outside { view, space });
    keep(left, &Outside { view, space });
}

impl PlainTable {
    fn task_count(&self) -> usize
        ensures { result ≡ length self.now.rows }
    {
        self.rows.len()
    }

    /// The root number of the task's nearest ancestor in its own namespace that is a subreaper.
    fn nearest_subreaper(&self, task: &Row) -> Option<u32>
        ensures { result ≡ nearest_subreaper_of self.now.rows task.now }
    {
        let view = self.view();
        let mut number = root_number(&task.name);
        for _ in 0..self.task_count() {
            number = parent_number(&view, number)?;
            if is_subreaper_in(&view, task.name.space, number) {
                return Some(number);
            }
        }
        None
    }

    /// Who takes the children of the task: its nearest subreaper, or else the init of its own
    /// namespace.
    #[tactic(auto, unfolding(pid_types::specs::Exit::new_parent))]
    fn new_parent(&self, task: &Row) -> Option<Name>
        ensures { result ≡ new_parent_of self.now task.now }
    {
        let view = self.view();
        let heir = match self.nearest_subreaper(task) {
            Some(number) => view.row_at(number),
            None => view.task_at(task.name.space, 1),
        };
        match heir {
            Some(row) => Some(copy_name(&row.name)),
            None => None,
        }
    }

    /// The rows after the task ended, with its children handed on.
    #[tactic(auto, unfolding(pid_types::specs::Exit::rows_after_exit))]
    fn end_row(&mut self, task: &Row, status: u8)
        ensures { self.new ≡ record self.old { rows = rows_after_exit self.old task.now status } }
    {
        let heir = self.new_parent(task);
        edit_all(
            &mut self.rows,
            &Ends {
                task,
                heir: &heir,
                ended: Ended::Exited(status),
            },
        );
    }

    /// The task has ended with all its threads, and its children have a new parent.
    #[tactic(auto, unfolding(pid_types::specs::Exit::handed_over))]
    fn end(&mut self, task: &Row, status: u8)
        ensures { self.new ≡ handed_over self.old task.now status }
    {
        self.end_row(task, status);
        self.drop_threads(&task.name);
    }

    /// The members of the init's namespace have ended.
    #[tactic(auto, unfolding(pid_types::specs::Exit::rows_after_fall))]
    fn end_members(&mut self, init: &Row, status: u8)
        ensures { self.new ≡ record self.old { rows = rows_after_fall self.old init.now status } }
    {
        // No tasks: they are lent to the change, and who is a member is told by namespaces alone.
        let view = View::new(&[], &[], &[], &self.spaces, &self.controls, self.pid_max);
        end_in_fall(&mut self.rows, &view, init, status);
    }

    /// The threads of the namespace and of those inside it have ended.
    fn end_threads(&mut self, fallen: u64)
        ensures { self.new ≡ record self.old {
          threads = filter (λ t. not (is_of self.old.spaces fallen t.name)) self.old.threads;
          left = filter (λ name. not (is_of self.old.spaces fallen name)) self.old.left;
        } }
    {
        // No tasks: they are lent to the change, and what is below a namespace is told by namespaces alone.
        let view = View::new(&[], &[], &[], &self.spaces, &self.controls, self.pid_max);
        keep_outside(&mut self.threads, &mut self.left, &view, fallen);
    }

    /// The namespace and those below it have fallen.
    fn fall_from(&mut self, fallen: u64)
        ensures { self.new ≡ record self.old { spaces = map (fallen_below self.old.spaces fallen) self.old.spaces } }
    {
        // No tasks: what is below a namespace is told by namespaces alone.
        let view = View::new(&[], &[], &[], &self.spaces, &self.controls, self.pid_max);
        push_fallen(&mut self.kept, &view, &self.spaces, fallen);
        mem::swap(&mut self.spaces, &mut self.kept);
        self.kept.clear();
    }

    /// The namespace of the init has fallen.
    #[tactic(auto, unfolding(pid_types::specs::Exit::fall))]
    fn fall(&mut self, init: &Row, status: u8)
        ensures { self.new ≡ fall_of self.old init.now status }
    {
        self.end_members(init, status);
        self.end_threads(init.name.space);
        self.fall_from(init.name.space);
    }

    /// The process has ended, and its namespace if it is the init there.
    pub(crate) fn ends(&mut self, task: &Row, status: u8) -> Reply
        ensures state { self.new ≡ (ends_of self.old status task.now).state }
        ensures reply { result ≡ (ends_of self.old status task.now).reply }
    {
        if root_number(&task.name) == 1 {
            return Reply::Refused(Refusal::RootInit);
        }
        if self.view().is_numbered(&task.name, task.name.space, 1) {
            self.fall(task, status);
        } else {
            self.end(task, status);
        }
        self.sweep();
        Reply::Done
    }

    /// `_exit(2)` by any thread: the process is a zombie until its parent waits, and its children
    /// have a new parent. The exit of a namespace's init ends all its members, and the namespace
    /// falls.
    #[tactic(auto, unfolding(pid_types::specs::Exit::exit))]
    pub fn exit(&mut self, caller: u32, status: u8) -> Reply
        ensures state { self.new ≡ (exit_of self.old caller status).state }
        ensures reply { result ≡ (exit_of self.old caller status).reply }
    {
        let Some(task) = self.find_caller(caller) else {
            return Reply::Refused(Refusal::NoCaller);
        };
        self.ends(&task, status)
    }
}
