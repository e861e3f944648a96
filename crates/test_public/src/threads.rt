//! Threads of two processes, and a process whose first thread has left; and the numbers of threads.

ghost use Rattle.std.specs.Prelude.{◌≡◌};

use pid_numbers::Numbers;
use pid_types::call::Kind;
use pid_types::keys::IdentKey;
use process_threads::{Thread, Threads};
use std::process::Abort;

/// No threads, and room for so many keys.
fn room_for(rt: &(impl AllocGlobal + Abort), keys: usize) -> Threads {
    let mut threads = Threads::new(rt.alloc());
    assert!(rt; threads.is_empty() && threads.keys() == 0);
    assert!(rt; keys < 8);
    threads.reserve(keys).expect(rt, "no memory");
    threads
}

/// A thread of the process, with its key as its home.
fn thread_of(process: u32, key: u32) -> Thread
    ensures { result.process ≡ process }
{
    Thread {
        process,
        children_space: 7,
        home: key,
    }
}

/// A thread of the process begins at the key.
fn enter(rt: &impl Abort, threads: &mut Threads, key: u32, process: u32) {
    let room = threads.keys();
    assert!(rt; (key as usize) < room && (process as usize) < room);
    assert!(rt; threads.thread(key).is_none());
    threads.enter(key, thread_of(process, key));
}

/// The thread at the key goes.
fn remove(rt: &impl Abort, threads: &mut Threads, key: u32) {
    assert!(rt; threads.thread(key).is_some());
    threads.remove(key);
}

/// The thread at the key comes to another home, if it is of the process.
fn change_home(rt: &impl Abort, threads: &mut Threads, key: u32, thread: Thread) {
    assert!(rt; threads.process(key) == Some(thread.process));
    threads.update(key, thread);
}

/// The threads of the process in rising order, behind `None` for each of three that is not there.
fn threads_of(rt: &impl Abort, threads: &Threads, process: u32) -> [Option<u32>; 3] {
    assert!(rt; (process as usize) < threads.keys());
    let mut members = threads.members(process);
    let mut found = [members.next(), members.next(), members.next()];
    found.sort_unstable();
    assert!(rt; threads.first(process).is_some() == threads.has_thread(process));
    found
}

/// Two threads of process 0 and one of process 4 begin, and two go.
#[test]
fn lists_threads(rt: HostRuntime) {
    let mut threads = room_for(&rt, 5);
    enter(&rt, &mut threads, 1, 0);
    enter(&rt, &mut threads, 3, 0);
    enter(&rt, &mut threads, 2, 4);
    assert!(rt; threads_of(&rt, &threads, 0) == [None, Some(1), Some(3)]);
    assert!(rt; threads_of(&rt, &threads, 4) == [None, None, Some(2)]);
    assert!(rt; threads_of(&rt, &threads, 1) == [None; 3]);
    remove(&rt, &mut threads, 1);
    change_home(&rt, &mut threads, 3, thread_of(0, 6));
    remove(&rt, &mut threads, 2);
    assert!(rt; !threads.is_empty() && threads.has_thread(0) && !threads.has_thread(4));
    assert!(rt; [threads.thread(1), threads.thread(3)] == [None, Some(thread_of(0, 6))]);
    assert!(rt;
        [threads.process(3), threads.process(0), threads.process(9)] == [Some(0), None, None]
    );
}

/// The first thread of process 1 leaves, and is there again. Past the room nobody has left.
#[test]
fn marks_who_left(rt: HostRuntime) {
    let mut threads = room_for(&rt, 2);
    assert!(rt; threads.keys() == 2);
    threads.mark_left(1);
    threads.clear_left(9);
    assert!(rt;
        [
            threads.has_left(0),
            threads.has_left(1),
            threads.has_left(9)
        ] == [false, true, false]
    );
    threads.clear_left(1);
    assert!(rt; !threads.has_left(1) && threads.is_empty());
}

/// Gives the next number of the root namespace to a thread, or to a task.
fn draw(rt: &impl Abort, numbers: &mut Numbers, for_thread: bool) -> IdentKey {
    assert!(rt; numbers.id(0).is_some());
    let Ok(planned) = numbers.plan(0) else {
        rt.abort()
    };
    let drawn = if for_thread {
        numbers.draw_thread(0, planned.as_slice())
    } else {
        numbers.draw(0, planned.as_slice())
    };
    drawn.expect(rt, "no memory")
}

/// A thread's number is drawn after a task's. It is a thread's and no task's, and is free once that is gone.
#[test]
fn gives_numbers_to_threads(rt: HostRuntime) {
    let mut numbers = Numbers::new(rt.alloc(), 301).expect(&rt, "no memory");
    let task = draw(&rt, &mut numbers, false);
    let thread = draw(&rt, &mut numbers, true);
    assert!(&rt; [numbers.number_in(task, 0), numbers.number_in(thread, 0)] == [Some(1), Some(2)]);
    assert!(&rt; !numbers.is_thread(task));
    assert!(&rt; [numbers.next_thread(0, 0), numbers.next_thread(0, 3)] == [Some(2), None]);
    assert!(&rt; numbers.next_used(0, Kind::Task, 2).is_none());
    assert!(&rt; numbers.is_thread(thread));
    numbers.free_thread(thread);
    assert!(&rt; !numbers.is_thread(thread) && numbers.find(0, 2).is_none());
}
