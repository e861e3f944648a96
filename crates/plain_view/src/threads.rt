//! Threads: which tasks a process has, who calls, and whom a number names.
ghost use Rattle.std.specs.Prelude.{◌≡◌, ◌==◌, ◌<◌, ◌^◌, length, filter, option_copied};
ghost use Rattle.std.specs.List.{list_any};
ghost use Rattle.{
  pid_types.specs.Threads.{is_thread_of as is_thread_of_process, has_left as has_left_of, has_thread},
  pid_types.specs.Threads.{running as running_of},
  pid_types.specs.Threads.{caller_of as caller_of_number, thread_at as thread_with, as_thread as as_thread_of},
  pid_types.specs.Threads.{process_at as process_with, process_numbered as process_in, thread_numbered as thread_in},
  pid_types.specs.Names.{root_number as root_of, is_numbered as is_numbered_of},
};

use crate::names::{is_live, is_same, root_number};
use crate::view::View;
use pid_types::plain::{Name, Row, Thread};

/// Whether the thread is one of the process beside its first one.
pub fn is_thread_of(process: &Name, thread: &Thread) -> bool
    ensures { result ≡ is_thread_of_process process.now thread.now }
{
    is_same(&thread.process, process)
}

impl View<'_> {
    /// Whether the first thread of the process with the root number has left.
    pub fn has_left(&self, number: u32) -> bool
        ensures { result ≡ has_left_of self.now number }
    {
        self.left.iter().any(|name| root_number(name) == number)
    }

    fn count_threads_of(&self, process: &Name) -> usize
        ensures value { result ≡ length (filter (is_thread_of_process process.now) self.now.threads) }
        ensures small { result < 2 ^ 63 }
    {
        self.threads
            .iter()
            .filter(|t| is_thread_of(process, t))
            .count()
    }

    /// How many threads of the process run, the first one among them if it has not left.
    pub fn running(&self, row: &Row) -> usize
        ensures { result ≡ running_of self.now row.now }
    {
        let first = if self.has_left(root_number(&row.name)) {
            0
        } else {
            1
        };
        self.count_threads_of(&row.name) + first
    }

    /// The thread with the root number, beside first ones.
    pub fn thread_at(&self, number: u32) -> Option<&Thread>
        ensures { option_copied result ≡ thread_with self.now number }
    {
        self.threads.iter().find(|t| root_number(&t.name) == number)
    }

    /// The thread, beside first ones, with the number in the namespace.
    #[tactic(auto, unfolding(pid_types::specs::Threads::thread_numbered))]
    pub fn thread_numbered(&self, space: u64, number: u32) -> Option<&Thread>
        ensures { option_copied result ≡ thread_in self.now space number }
    {
        self.threads
            .iter()
            .find(|t| self.is_numbered(&t.name, space, number))
    }

    /// Whether a thread of the process beside its first one has the root number.
    fn has_thread_at(&self, number: u32, row: &Row) -> bool
        ensures { result ≡ has_thread self.now (λ name. root_of name == number) row.now }
    {
        self.threads.iter().any(|t| root_number(&t.name) == number && is_thread_of(&row.name, t))
    }

    /// Whether a thread of the process beside its first one has the number in the namespace.
    fn has_thread_numbered(&self, space: u64, number: u32, row: &Row) -> bool
        ensures { result ≡ has_thread self.now (λ name. is_numbered_of self.now.spaces name space number) row.now }
    {
        self.threads.iter().any(|t| {
            self.is_numbered(&t.name, space, number) && is_thread_of(&row.name, t)
        })
    }

    /// The live process of which a running thread has the root number.
    pub fn caller_of(&self, number: u32) -> Option<&Row>
        ensures { option_copied result ≡ caller_of_number self.now number }
    {
        self.rows.iter().find(|row| {
            (self.has_thread_at(number, row)
                || (!self.has_left(number) && root_number(&row.name) == number))
                && is_live(row)
        })
    }

    /// The live process of which any thread has the root number, a first one that has left too.
    pub fn process_at(&self, number: u32) -> Option<&Row>
        ensures { option_copied result ≡ process_with self.now number }
    {
        self.rows.iter().find(|row| {
            (self.has_thread_at(number, row) || root_number(&row.name) == number) && is_live(row)
        })
    }

    /// The process of which a thread has the number in the namespace, zombies among them.
    #[tactic(auto, unfolding(pid_types::specs::Threads::process_numbered))]
    pub fn process_numbered(&self, space: u64, number: u32) -> Option<&Row>
        ensures { option_copied result ≡ process_in self.now space number }
    {
        self.rows.iter().find(|row| {
            self.has_thread_numbered(space, number, row)
                || self.is_numbered(&row.name, space, number)
        })
    }

    /// Gives the process's row what is the thread's own: where it is counted, and where its
    /// children go.
    pub fn as_thread(&self, number: u32, row: &mut Row)
        ensures { row.new ≡ as_thread_of self.now number row.old }
    {
        if let Some(thread) = self.thread_at(number) {
            row.home = thread.home;
            row.children_space = thread.children_space;
        }
    }
}
