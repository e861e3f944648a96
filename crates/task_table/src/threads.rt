//! Threads beside the first ones of their processes: they have numbers and charges, as tasks have, and no place in the
//! tree, in groups or in sessions. And first threads that leave while others run: the process keeps its place.

ghost use Rattle.std.specs.Prelude.{◌≡◌, ◌≢◌, ℕ, ◌<◌, ◌^◌, length, None, Some, true, false, IfOk, OnOk, OnErr};
ghost use Rattle.std.specs.Prelude.{slice_set};
ghost use Rattle.{
  pid_types.specs.declared.plain.Life.{Life},
  pid_numbers.specs.Numbering.{identifier_at, thread_identifier},
  pids_charge.specs.Charges.{live_at, stands},
  process_threads.specs.Threads.{left_at, KeepsKeys},
  task_tree.specs.Tree.{task_at, lives},
  task_table.specs.Store.{AreNextNumbers, BeginsThread, IsLess, IsSameWithRoom, IsThread},
  task_table.specs.Store.{ChangesThreads, EndsCharge, IsVisibleToParent, MovesCharge, ReturnsCharge, Uncharges},
  task_table.specs.Whole.{HasParents},
};

use crate::Tasks;
use member_lists::keys_with_room;
use pid_types::keys::{ControlKey, Pid, SpaceKey, TaskKey};
use pid_types::plain::Ended;
use pids_charge::Controls;
use process_threads::{Thread, Threads};
use std::alloc::AllocError;
use task_tree::Task;

/// Makes room for a thread and its process. The error is want of memory, and then nothing has changed.
fn room_for_thread(threads: &mut Threads, key: TaskKey, process: TaskKey) -> Result<(), AllocError>
    requires key { key < 2 ^ 30 }
    requires process { process < 2 ^ 30 }
    ensures key { OnOk result (key < length threads.new.threads) }
    ensures process { OnOk result (process < length threads.new.threads) }
    ensures kept { KeepsKeys threads.old threads.new }
    ensures err { OnErr result (threads.new ≡ threads.old) }
{
    let greatest = if key < process { process } else { key };
    threads.reserve(keys_with_room(greatest))
}

/// A live thread goes from its home, and nothing of it stays there.
fn uncharge_thread(controls: &mut Controls, home: ControlKey)
    requires { 0 < live_at controls.old home }
    ensures { Uncharges controls.old controls.new home }
{
    controls.died(home);
    controls.uncharge(home);
}

impl Tasks {
    /// The threads beside the first ones of their processes.
    pub fn threads(&self) -> &Threads
        ensures { result.now ≡ self.now.threads }
    {
        &self.threads
    }

    /// A thread begins in a process, with the planned numbers in the namespace and those around it, innermost first:
    /// `clone(2)` with `CLONE_THREAD`. The caller sees to it that the process lives in that namespace. The thread is
    /// charged to its home. Its key is returned, which is below 2^30. The error is want of memory or of keys, and then
    /// nothing has changed but the room. It costs what the draw does, a step for each control group around the home,
    /// and one for each key that is new to the threads.
    pub fn start_thread(
        &mut self,
        space: SpaceKey,
        numbers: &[Pid],
        thread: Thread,
    ) -> Result<TaskKey, AllocError>
        requires process { thread.process < length self.old.tree.tasks }
        requires parents { HasParents self.old }
        requires home { stands self.old.charges thread.home ≡ true }
        requires planned { AreNextNumbers self.old.numbering space numbers.now }
        ensures begun { IfOk result (λ key.
            BeginsThread self.old self.new key thread (thread_identifier space numbers.now)) }
        ensures err { OnErr result (IsSameWithRoom self.old self.new) }
    {
        let key = self.numbers.next_key()?;
        self.numbers.laws();
        self.tree.laws();
        self.threads.laws();
        room_for_thread(&mut self.threads, key, thread.process)?;
        self.numbers.draw_thread(space, numbers)?;
        self.threads.enter(key, thread);
        self.controls.charge(thread.home);
        Ok(key)
    }

    /// A thread is gone at once, with its numbers and its charge: nobody can wait for it (`clone(2)`). It costs a step
    /// for each level of namespaces and for each control group around the home, and takes no memory.
    pub fn end_thread(&mut self, key: TaskKey, thread: Thread)
        requires { IsThread self.old.threads key thread }
        ensures threads { self.new.threads
            ≡ record self.old.threads { threads = slice_set self.old.threads.threads key None } }
        ensures gone { identifier_at self.new.numbering key ≡ None }
        ensures names { (i : ℕ) → i ≢ key → identifier_at self.new.numbering i ≡ identifier_at self.old.numbering i }
        ensures numbers { IsLess self.old.numbering self.new.numbering }
        ensures home { Uncharges self.old.charges self.new.charges thread.home }
        ensures rest { (self.new.tree ≡ self.old.tree) × (self.new.members ≡ self.old.members) }
    {
        self.numbers.laws();
        self.tree.laws();
        self.threads.remove(key);
        uncharge_thread(&mut self.controls, thread.home);
        self.numbers.free_thread(key);
    }

    /// A thread goes to another control group, or to the one that it is in. It costs a step for each control group from
    /// both up to the nearest above both, and takes no memory.
    pub fn move_thread(&mut self, key: TaskKey, thread: Thread, to: ControlKey)
        requires there { IsThread self.old.threads key thread }
        requires stands { stands self.old.charges to ≡ true }
        ensures threads { self.new.threads ≡ record self.old.threads {
          threads =
              slice_set self.old.threads.threads key (Some (record thread { home = to }));
        } }
        ensures moved { MovesCharge self.old.charges self.new.charges thread.home to }
        ensures rest { ChangesThreads self.old self.new }
    {
        self.controls.transfer(thread.home, to);
        self.threads.update(key, Thread { home: to, ..thread });
    }

    /// A thread's children go into another namespace from now on, the one with the id: `unshare(2)` or `setns(2)` with
    /// `CLONE_NEWPID`. The caller sees to it that the namespace is there. It costs one write, and takes no memory.
    pub fn join_thread(&mut self, key: TaskKey, thread: Thread, space: u64)
        requires { IsThread self.old.threads key thread }
        ensures threads { self.new.threads ≡ record self.old.threads {
          threads =
              slice_set self.old.threads.threads key (Some (record thread { children_space = space }));
        } }
        ensures rest { self.new ≡ record self.old { threads = self.new.threads } }
    {
        let joined = Thread {
            children_space: space,
            ..thread
        };
        self.threads.update(key, joined);
    }

    /// The first thread of a live process leaves, by `_exit(2)` as a system call. The caller sees to it that another
    /// thread runs, and that there is room for the mark: where a thread began in the process there is. The process
    /// lives on: its number stays in use, it is charged until it is gone, and it stays among the residents of its
    /// home. But it is charged as one that has ended is, so that its home may be removed where nothing else lives
    /// there (the cgroup-v2 document, "Processes"). It costs a step for each control group around the home, and takes
    /// no memory.
    pub fn leave_first(&mut self, key: TaskKey, task: Task)
        requires there { task_at self.old.tree key ≡ Some task }
        requires live { lives task ≡ true }
        requires stays { left_at self.old.threads key ≡ false }
        requires room { key < length self.old.threads.left }
        ensures threads { self.new.threads
            ≡ record self.old.threads { left = slice_set self.old.threads.left key true } }
        ensures home { EndsCharge self.old.charges self.new.charges task.home }
        ensures rest { ChangesThreads self.old self.new }
    {
        self.threads.mark_left(key);
        self.controls.died(task.home);
    }

    /// A live process whose first thread has left ends with its last thread, and waits for its parent by its number in
    /// the parent's namespace, as after [`finish`](Tasks::finish). The caller sees to it that its threads are gone. It
    /// is charged as it was, and is no resident any more (`wait(2)`; the cgroup-v2 document, "Processes"). It costs
    /// what `finish` does but for the charge, and takes no memory.
    pub fn finish_left(&mut self, key: TaskKey, task: Task, end: Ended)
        requires there { task_at self.old.tree key ≡ Some task }
        requires live { lives task ≡ true }
        requires left { left_at self.old.threads key ≡ true }
        requires visible { IsVisibleToParent self.old key }
        ensures tasks { self.new.tree.tasks ≡ slice_set self.old.tree.tasks key
            (Some (record task { life = Life.Zombie end })) }
        ensures parents { self.new.tree.parents ≡ self.old.tree.parents }
        ensures here { left_at self.new.threads key ≡ false }
        ensures others { (p : ℕ) → p ≢ key → left_at self.new.threads p ≡ left_at self.old.threads p }
        ensures threads { self.new.threads.threads ≡ self.old.threads.threads }
        ensures rest { (self.new.numbering ≡ self.old.numbering) × (self.new.members ≡ self.old.members) }
        ensures charges { self.new.charges ≡ self.old.charges }
    {
        self.numbers.laws();
        self.tree.laws();
        let rank = self.rank_for(key);
        self.tree.finish(key, task, end, rank);
        self.threads.clear_left(key);
        self.residents.remove(key);
    }

    /// The first thread of a process that had left is there again, in a control group: another thread of the process
    /// executed a program, and goes on as the first one (`execve(2)`). The caller sees to it that the other threads are
    /// gone. It costs a step for each control group around the one that the process leaves and for each around the one
    /// that it comes to, and takes no memory.
    pub fn return_first(&mut self, key: TaskKey, task: Task, to: ControlKey)
        requires there { task_at self.old.tree key ≡ Some task }
        requires live { lives task ≡ true }
        requires left { left_at self.old.threads key ≡ true }
        requires stands { stands self.old.charges to ≡ true }
        ensures tasks { self.new.tree.tasks ≡ slice_set self.old.tree.tasks key (Some (record task { home = to })) }
        ensures here { left_at self.new.threads key ≡ false }
        ensures others { (p : ℕ) → p ≢ key → left_at self.new.threads p ≡ left_at self.old.threads p }
        ensures threads { self.new.threads.threads ≡ self.old.threads.threads }
        ensures charges { ReturnsCharge self.old.charges self.new.charges task.home to }
        ensures rest { self.new
            ≡ record self.old {
              tree = record self.old.tree { tasks = self.new.tree.tasks };
              charges = self.new.charges;
              threads = self.new.threads;
            } }
    {
        self.tree.laws();
        self.threads.laws();
        self.controls.charge(to);
        self.controls.uncharge(task.home);
        self.tree.update(key, Task { home: to, ..task });
        self.residents.move_to(key, to);
        self.threads.clear_left(key);
    }
}
