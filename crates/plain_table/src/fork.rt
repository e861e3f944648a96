//! Fork: `fork(2)`, and `clone(2)` with `CLONE_NEWPID`.
//!
//! A fork is planned on the unchanged table, then memory is taken, then the table changes: so
//! neither a refusal nor want of memory changes anything. A draw looks through all tasks for each
//! number that it tries. That is one number or a few as long as most are free, and all of them, up
//! to twice, where none is.
ghost use Rattle.std.specs.Prelude.{◌≡◌, ◌≤◌, ◌<◌, ◌+◌, ◌++◌, map, find, is_none, length, Some, None};
ghost use Rattle.std.specs.Prelude.{MatchResult, OnOk, OnErr, IfOk, vec_len, vec_capacity};
ghost use Rattle.std.specs.Prelude.{option_to_list};
ghost use Rattle.{
  pid_types.specs.{State.{State}, Names.{path_up}, Draw.{draw}, Outcome.{refused, changed}},
  pid_types.specs.Fork.{drawn, new_name, child_of as child_row, no_room, forked, with_space, fork as fork_of},
  plain_table.specs.Planned.{with_planned, after_plan},
};

use crate::edit::{MovesCursors, edit_all};
use crate::place::insert_placed;
use crate::table::PlainTable;
use arrayvec::ArrayVec;
use pid_types::plain::{LEVELS, Life, Name, Row, Space};
use pid_types::reply::{Refusal, Reply};
use plain_view::names::{copy_name, root_number};
use plain_view::view::View;
use std::alloc::AllocError;

/// What a fork is going to add and change, decided on the unchanged table.
#[derive(Debug, Drop)]
pub struct ForkPlan {
    /// The new task.
    pub child: Row,
    /// The namespaces that give it a number, innermost first.
    pub path: ArrayVec<u64, LEVELS>,
    /// Their cursors afterwards.
    pub cursors: ArrayVec<u32, LEVELS>,
    /// The new namespace, of which the child is the init.
    pub added: Option<Space>,
    pub reply: Reply,
}

/// The numbers drawn along a path, and the cursors behind them.
#[derive(Debug, Drop)]
struct Draws {
    numbers: ArrayVec<u32, LEVELS>,
    cursors: ArrayVec<u32, LEVELS>,
}

/// A new name, the namespaces that gave its numbers, innermost first, and their cursors afterwards.
#[derive(Debug, Drop)]
pub struct DrawnName {
    pub name: Name,
    pub path: ArrayVec<u64, LEVELS>,
    pub cursors: ArrayVec<u32, LEVELS>,
}

/// Draws a number in each namespace of the path, or says which has none.
fn draw_along(view: &View<'_>, path: &[u64]) -> Result<Draws, u64>
    requires { length path.now ≤ 33 }
    ensures { MatchResult result
        (λ d. (find (λ s. is_none (draw view.now s)) path.now ≡ None)
        × (d.numbers.items ≡ map (drawn view.now) path.now)
        × (d.cursors.items ≡ map (λ s. drawn view.now s + 1) path.now))
        (λ s. find (λ s. is_none (draw view.now s)) path.now ≡ Some s) }
{
    let mut numbers = ArrayVec::new();
    let mut cursors = ArrayVec::new();
    for space in path {
        let Some(number) = view.draw(*space) else {
            return Err(*space);
        };
        numbers.push(number);
        cursors.push(number + 1);
    }
    Ok(Draws { numbers, cursors })
}

/// A name in the namespace with these numbers, innermost first.
fn name_in(space: u64, mut numbers: ArrayVec<u32, LEVELS>) -> Name
    ensures { (state : State) → numbers.items ≡ map (drawn state) (path_up state.spaces space)
        → result ≡ new_name state space }
{
    numbers.as_mut_slice().reverse();
    Name { space, numbers }
}

/// Draws a name in the namespace for the caller's new task, or says why it can have none.
pub(crate) fn draw_name(view: &View<'_>, caller: &Row, space: u64) -> Result<DrawnName, Refusal>
    ensures { MatchResult result
        (λ d. (no_room view.now caller.now space ≡ None) × (d.path.items ≡ path_up view.now.spaces space)
        × (d.cursors.items ≡ map (λ s. drawn view.now s + 1) d.path.items)
        × (d.name ≡ new_name view.now space))
        (λ r. no_room view.now caller.now space ≡ Some r) }
{
    let path = view.path_up(space);
    let draws = match draw_along(view, path.as_slice()) {
        Ok(draws) => draws,
        Err(full) => return Err(Refusal::NoNumber(full)),
    };
    if let Some(control) = view.passed_limit(caller.home) {
        return Err(Refusal::PidsLimit(control));
    }
    let Draws { numbers, cursors } = draws;
    let name = name_in(space, numbers);
    Ok(DrawnName {
        name,
        path,
        cursors,
    })
}

/// The caller's child in the namespace, with this name.
fn child_of(caller: &Row, space: u64, name: Name) -> Row
    ensures { (state : State) → name ≡ new_name state space → result ≡ child_row state caller.now space }
{
    Row {
        name,
        parent: Some(copy_name(&caller.name)),
        group: copy_name(&caller.group),
        session: copy_name(&caller.session),
        executed: false,
        life: Life::Live,
        home: caller.home,
        children_space: space,
        subreaper: false,
    }
}

/// Plans the caller's child in the namespace, or says why there can be none.
fn plan(view: &View<'_>, caller: &Row, space: u64) -> Result<ForkPlan, Refusal>
    ensures { MatchResult result
        (λ p. (p.added ≡ None) × (no_room view.now caller.now space ≡ None)
        × (forked view.now caller.now space ≡ changed (with_planned view.now p) p.reply))
        (λ r. no_room view.now caller.now space ≡ Some r) }
{
    let DrawnName {
        name,
        path,
        cursors,
    } = draw_name(view, caller, space)?;
    let child = child_of(caller, space, name);
    let reply = Reply::Forked {
        child: view.number_or_zero(&child.name, caller.name.space),
        root: root_number(&child.name),
    };
    Ok(ForkPlan {
        child,
        path,
        cursors,
        added: None,
        reply,
    })
}

/// Adds the namespace, if there is one.
fn push_added(spaces: &mut Vec<Space>, added: Option<Space>)
    requires { vec_len spaces.old < vec_capacity spaces.old }
    ensures items { spaces.new.items ≡ spaces.old.items ++ option_to_list added }
    ensures longer { vec_len spaces.new ≤ vec_len spaces.old + 1 }
{
    if let Some(space) = added {
        let Ok(()) = spaces.push(space) else {
            unreachable!()
        };
    }
}

impl PlainTable {
    /// Plans the fork on the unchanged table, or says why it is refused.
    #[tactic(auto, unfolding(pid_types::specs::Fork::fork))]
    fn plan_fork(&self, caller: u32, new_space: bool, stamp: u64) -> Result<ForkPlan, Refusal>
        ensures { MatchResult result
            (λ p. fork_of self.now stamp caller new_space ≡ changed (after_plan self.now p) p.reply)
            (λ r. fork_of self.now stamp caller new_space ≡ refused self.now r) }
    {
        let Some(process) = self.find_caller(caller) else {
            return Err(Refusal::NoCaller);
        };
        let row = self.as_thread(caller, process);
        let space = row.children_space;
        if new_space && self.view().level(space) >= 32 {
            return Err(Refusal::TooDeep);
        }
        if new_space && space != row.name.space {
            return Err(Refusal::Elsewhere);
        }
        if self.view().is_gone(space) {
            return Err(Refusal::SpaceFallen);
        }
        if new_space {
            self.plan_inside_new(&row, stamp)
        } else {
            plan(&self.view(), &row, space)
        }
    }

    /// Plans a child that is the init of a new namespace.
    fn plan_inside_new(&self, caller: &Row, stamp: u64) -> Result<ForkPlan, Refusal>
        ensures { MatchResult result
            (λ p. let planned = with_space self.now caller.now.children_space stamp in
            (no_room planned caller.now stamp ≡ None)
            × (forked planned caller.now stamp ≡ changed (after_plan self.now p) p.reply))
            (λ r. no_room (with_space self.now caller.now.children_space stamp) caller.now stamp ≡ Some r) }
    {
        let added = Space {
            id: stamp,
            parent: Some(caller.children_space),
            cursor: 0,
            fallen: false,
        };
        let view = View::with_space(
            &self.rows,
            &self.threads,
            &self.left,
            &self.spaces,
            added,
            &self.controls,
            self.pid_max,
        );
        let mut plan = plan(&view, caller, stamp)?;
        plan.added = Some(added);
        Ok(plan)
    }

    /// Makes room for the plan, and carries it out.
    fn carry_out(&mut self, plan: ForkPlan) -> Result<Reply, AllocError>
        ensures ok { IfOk result (λ reply. (reply ≡ plan.reply) × (self.new ≡ after_plan self.old plan)) }
        ensures err { OnErr result (self.new ≡ self.old) }
    {
        let ForkPlan {
            child,
            path,
            cursors,
            added,
            reply,
        } = plan;
        self.rows.try_reserve(1)?;
        self.spaces.try_reserve(1)?;
        self.kept.try_reserve(self.spaces.len() + 1)?;
        insert_placed(&mut self.rows, child);
        push_added(&mut self.spaces, added);
        edit_all(
            &mut self.spaces,
            &MovesCursors {
                path: path.as_slice(),
                cursors: cursors.as_slice(),
            },
        );
        Ok(reply)
    }

    /// `fork(2)`; with `new_space`, `clone(2)` with `CLONE_NEWPID`, where the stamp is the id of
    /// the new namespace. A refused fork leaves every cursor as it was.
    pub fn fork(&mut self, caller: u32, new_space: bool, stamp: u64) -> Result<Reply, AllocError>
        ensures state { OnOk result (self.new ≡ (fork_of self.old stamp caller new_space).state) }
        ensures reply { IfOk result (λ reply. reply ≡ (fork_of self.old stamp caller new_space).reply) }
        ensures err { OnErr result (self.new ≡ self.old) }
    {
        match self.plan_fork(caller, new_space, stamp) {
            Ok(plan) => {
                let reply = self.carry_out(plan)?;
                self.sweep();
                Ok(reply)
            }
            Err(refusal) => Ok(Reply::Refused(refusal)),
        }
    }
}
