//! The end of one thread: `_exit(2)` as the system call. The mark of a first thread that has left
//! takes memory, which is there before anything changes.
ghost use Rattle.std.specs.Prelude.{◌≡◌, OnOk, OnErr, IfOk};
ghost use Rattle.pid_types.specs.Leave.{without_thread, without_first, without_caller, leave as leave_of};

use crate::edit::{AllButNumbered, keep};
use crate::place::insert_placed;
use crate::table::PlainTable;
use pid_types::plain::Row;
use pid_types::reply::{Refusal, Reply};
use plain_view::names::copy_name;
use std::alloc::AllocError;

impl PlainTable {
    #[tactic(auto, unfolding(pid_types::specs::Leave::without_thread))]
    fn drop_thread(&mut self, number: u32)
        ensures { self.new ≡ without_thread self.old number }
    {
        keep(&mut self.threads, &AllButNumbered(number));
    }

    /// Marks the process, whose first thread has left.
    #[tactic(auto, unfolding(pid_types::specs::Leave::without_first))]
    fn mark_left(&mut self, process: &Row) -> Result<(), AllocError>
        ensures ok { OnOk result (self.new ≡ without_first self.old process.now) }
        ensures err { OnErr result (self.new ≡ self.old) }
    {
        self.left.try_reserve(1)?;
        insert_placed(&mut self.left, copy_name(&process.name));
        Ok(())
    }

    /// Takes the calling thread away.
    fn drop_caller(&mut self, caller: u32, process: &Row) -> Result<(), AllocError>
        ensures ok { OnOk result (self.new ≡ without_caller self.old caller process.now) }
        ensures err { OnErr result (self.new ≡ self.old) }
    {
        if self.view().thread_at(caller).is_some() {
            self.drop_thread(caller);
            Ok(())
        } else {
            self.mark_left(process)
        }
    }

    /// The end of the calling thread, and of its process if no other thread runs. A first thread
    /// that leaves beside others keeps its number until the process has ended and is reaped. An error
    /// is want of memory for that one's mark, and nothing has changed. It looks through all threads.
    #[tactic(auto, unfolding(pid_types::specs::Leave::leave))]
    pub fn leave(&mut self, caller: u32, status: u8) -> Result<Reply, AllocError>
        ensures state { OnOk result (self.new ≡ (leave_of self.old caller status).state) }
        ensures reply { IfOk result (λ reply. reply ≡ (leave_of self.old caller status).reply) }
        ensures err { OnErr result (self.new ≡ self.old) }
    {
        let Some(process) = self.find_caller(caller) else {
            return Ok(Reply::Refused(Refusal::NoCaller));
        };
        if self.view().running(&process) == 1 {
            return Ok(self.ends(&process, status));
        }
        self.drop_caller(caller, &process)?;
        self.sweep();
        Ok(Reply::Done)
    }
}
