//! A new thread: `clone(2)` with `CLONE_THREAD`. It is planned on the unchanged table, then memory is
//! taken, then the table changes, as a fork does.
ghost use Rattle.std.specs.Prelude.{◌≡◌, Some, None, MatchResult, OnOk, OnErr, IfOk};
ghost use Rattle.{
  pid_types.specs.{State.{State}, Outcome.{refused, changed}, Fork.{new_name, no_room}},
  pid_types.specs.Clone.{thread_of as thread_of_row, threaded, thread as thread_call},
  plain_table.specs.Planned.{with_thread_planned},
};

use crate::edit::{MovesCursors, edit_all};
use crate::fork::{DrawnName, draw_name};
use crate::place::insert_placed;
use crate::table::PlainTable;
use arrayvec::ArrayVec;
use pid_types::plain::{LEVELS, Name, Row, Thread};
use pid_types::reply::{Refusal, Reply};
use plain_view::names::{copy_name, root_number};
use plain_view::view::View;
use std::alloc::AllocError;

/// What a new thread is going to add and change, decided on the unchanged table.
#[derive(Debug, Drop)]
pub struct ThreadPlan {
    pub thread: Thread,
    /// The namespaces that give it a number, innermost first.
    pub path: ArrayVec<u64, LEVELS>,
    /// Their cursors afterwards.
    pub cursors: ArrayVec<u32, LEVELS>,
    pub reply: Reply,
}

/// The caller's new thread with this name.
fn thread_of(caller: &Row, name: Name) -> Thread
    ensures { (state : State) → name ≡ new_name state caller.now.name.space
        → result ≡ thread_of_row state caller.now }
{
    Thread {
        name,
        process: copy_name(&caller.name),
        home: caller.home,
        children_space: caller.name.space,
    }
}

/// Plans the caller's new thread, or says why there can be none.
fn plan(view: &View<'_>, caller: &Row) -> Result<ThreadPlan, Refusal>
    ensures { MatchResult result
        (λ p. (no_room view.now caller.now caller.now.name.space ≡ None)
        × (threaded view.now caller.now ≡ changed (with_thread_planned view.now p) p.reply))
        (λ r. no_room view.now caller.now caller.now.name.space ≡ Some r) }
{
    let DrawnName {
        name,
        path,
        cursors,
    } = draw_name(view, caller, caller.name.space)?;
    let thread = thread_of(caller, name);
    let reply = Reply::Forked {
        child: view.number_or_zero(&thread.name, caller.name.space),
        root: root_number(&thread.name),
    };
    Ok(ThreadPlan {
        thread,
        path,
        cursors,
        reply,
    })
}

impl PlainTable {
    /// Plans the thread on the unchanged table, or says why it is refused.
    #[tactic(auto, unfolding(pid_types::specs::Clone::thread))]
    fn plan_thread(&self, caller: u32) -> Result<ThreadPlan, Refusal>
        ensures { MatchResult result
            (λ p. thread_call self.now caller ≡ changed (with_thread_planned self.now p) p.reply)
            (λ r. thread_call self.now caller ≡ refused self.now r) }
    {
        let Some(process) = self.find_caller(caller) else {
            return Err(Refusal::NoCaller);
        };
        let row = self.as_thread(caller, process);
        if row.children_space != row.name.space {
            return Err(Refusal::Elsewhere);
        }
        plan(&self.view(), &row)
    }

    /// Makes room for the thread, and adds it.
    fn add_thread(&mut self, plan: ThreadPlan) -> Result<Reply, AllocError>
        ensures ok { IfOk result (λ reply. (reply ≡ plan.reply) × (self.new ≡ with_thread_planned self.old plan)) }
        ensures err { OnErr result (self.new ≡ self.old) }
    {
        let ThreadPlan {
            thread,
            path,
            cursors,
            reply,
        } = plan;
        self.threads.try_reserve(1)?;
        insert_placed(&mut self.threads, thread);
        edit_all(
            &mut self.spaces,
            &MovesCursors {
                path: path.as_slice(),
                cursors: cursors.as_slice(),
            },
        );
        Ok(reply)
    }

    /// `clone(2)` with `CLONE_THREAD`: one more thread of the caller's process, counted where the
    /// caller is. A refused one leaves every cursor as it was. An error is want of memory for the
    /// thread, and nothing has changed. It costs what a fork does.
    pub fn thread(&mut self, caller: u32) -> Result<Reply, AllocError>
        ensures state { OnOk result (self.new ≡ (thread_call self.old caller).state) }
        ensures reply { IfOk result (λ reply. reply ≡ (thread_call self.old caller).reply) }
        ensures err { OnErr result (self.new ≡ self.old) }
    {
        match self.plan_thread(caller) {
            Ok(plan) => {
                let reply = self.add_thread(plan)?;
                self.sweep();
                Ok(reply)
            }
            Err(refusal) => Ok(Reply::Refused(refusal)),
        }
    }
}
