//! Calls that are generated: who makes them, and on what.
//!
//! They are chosen by a picture of the table that is some calls old, so most of them find what they name.

ghost use Rattle.std.specs.Prelude.{◌<◌};

use crate::draft::{DRAFTS, Draft, Theme};
use crate::random::Random;
use pid_types::call::{Call, Kind, Which};
use pid_types::plain::{Life, Name, Plain};

/// How often a task is looked for that is as wanted.
const TRIES: usize = 12;

/// One above the greatest limit that there is.
const BAD_LIMIT: u32 = 4_194_305;

/// More control groups than this are not made.
const MOST_CONTROLS: usize = 100;

/// What a run's calls are chosen by.
#[derive(Clone, Copy)]
pub struct Aims {
    pub theme: Theme,
    /// Where there are as many tasks, no fork is drafted.
    pub most_tasks: usize,
    /// So many tasks are seldom callers and are not ended: those by which the run began.
    pub kept_tasks: usize,
    /// So many control groups are not removed.
    pub kept_controls: usize,
}

/// The calls of one run.
#[derive(Drop)]
pub struct Generator {
    random: Random,
    aims: Aims,
    picture: Plain,
}

/// Who makes a call: a root number, and the level of the namespace whose numbers the call has.
#[derive(Clone, Copy)]
struct Caller {
    root: u32,
    level: usize,
}

/// A task and its group by their numbers in the parent's namespace.
#[derive(Clone, Copy)]
struct Child {
    parent: Caller,
    number: u32,
    group: u32,
}

/// The root init.
const ROOT_INIT: Caller = Caller { root: 1, level: 0 };

impl Generator {
    /// The calls of a seed, on a table as the picture shows it.
    pub fn new(seed: u64, aims: Aims, picture: Plain) -> Self {
        Generator {
            random: Random::seeded(seed),
            aims,
            picture,
        }
    }

    /// Takes another picture of the table.
    pub fn look(&mut self, picture: Plain) {
        self.picture = picture;
    }

    /// The next call.
    pub fn call(&mut self) -> Call {
        match self.draft() {
            Draft::Fork => self.fork(false),
            Draft::ForkNew => self.fork(true),
            Draft::Exec => Call::Exec {
                caller: self.caller().root,
            },
            Draft::Exit => self.exit(),
            Draft::Fall => self.fall(),
            Draft::Wait => self.wait(),
            Draft::SetPgid => self.set_pgid(),
            Draft::SetSid => Call::SetSid {
                caller: self.caller().root,
            },
            Draft::MakeControl => self.make_control(),
            Draft::RemoveControl => self.remove_control(),
            Draft::SetLimit => self.set_limit(),
            Draft::Move => self.move_task(),
            Draft::Join => self.join(),
            Draft::SetSubreaper => self.set_subreaper(),
            Draft::Query => self.query(),
            Draft::Count => Call::Count { id: self.control() },
        }
    }

    /// The next draft.
    fn draft(&mut self) -> Draft {
        let mut total = 0usize;
        for draft in DRAFTS {
            total = total.saturating_add(self.aims.theme.weight(draft));
        }
        let mut left = self.random.high_below(total.max(1));
        for draft in DRAFTS {
            let weight = self.aims.theme.weight(draft);
            if left < weight {
                return draft;
            }
            left -= weight;
        }
        Draft::Wait
    }
}

// Whom a call names.
impl Generator {
    /// The place of a task among the rows of the picture.
    fn place(&mut self) -> usize {
        let tasks = self.picture.rows.len();
        self.random.high_below(tasks.max(1))
    }

    /// The place of a task that is not kept.
    fn late_place(&mut self) -> usize {
        let kept = self.aims.kept_tasks;
        let late = self.picture.rows.len().saturating_sub(kept);
        self.random.high_below(late.max(1)).saturating_add(kept)
    }

    /// The place of a live task: not of a kept one, where another is found.
    fn live_place(&mut self) -> usize {
        for _ in 0..TRIES {
            let place = self.late_place();
            if self.is_live(place) {
                return place;
            }
        }
        self.place()
    }

    /// The place of a task that has ended, where one is found.
    fn ended_place(&mut self) -> usize {
        for _ in 0..TRIES {
            let place = self.place();
            if !self.is_live(place) {
                return place;
            }
        }
        self.place()
    }

    /// Whether a task lives.
    fn is_live(&self, place: usize) -> bool {
        match self.picture.rows.get(place) {
            Some(row) => row.life == Life::Live,
            None => false,
        }
    }

    /// The task at a place, as a caller.
    fn caller_at(&self, place: usize) -> Caller {
        match self.picture.rows.get(place) {
            Some(row) => caller_of(&row.name),
            None => ROOT_INIT,
        }
    }

    /// Mostly a live task, at times any task, and at times any number.
    fn caller(&mut self) -> Caller {
        if self.random.one_in(40) {
            return Caller {
                root: self.number(),
                level: 0,
            };
        }
        let place = if self.random.one_in(4) {
            self.place()
        } else {
            self.live_place()
        };
        self.caller_at(place)
    }

    /// The task at a place, as its parent sees it; the root init as it sees itself.
    fn child_at(&self, place: usize) -> Child {
        let Some(row) = self.picture.rows.get(place) else {
            return Child {
                parent: ROOT_INIT,
                number: 1,
                group: 1,
            };
        };
        let parent = match &row.parent {
            Some(name) => caller_of(name),
            None => ROOT_INIT,
        };
        Child {
            parent,
            number: number_at(&row.name, parent.level),
            group: number_at(&row.group, parent.level),
        }
    }

    /// Any number: one of the first, one about the least `pid_max`, or a great one.
    fn number(&mut self) -> u32 {
        match self.random.high_below(6) {
            0 => 0,
            1 => 1,
            2 => u32::MAX,
            3 => self.random.high_below(400) as u32,
            _ => self.random.high_below(40) as u32,
        }
    }

    /// The number that a caller knows a task by; at times any number.
    fn target(&mut self, level: usize) -> u32 {
        if self.random.one_in(12) {
            return self.number();
        }
        let place = self.place();
        match self.picture.rows.get(place) {
            Some(row) => number_at(&row.name, level),
            None => 0,
        }
    }

    /// The number that a caller knows a group by; at times any number.
    fn group(&mut self, level: usize) -> u32 {
        if self.random.one_in(12) {
            return self.number();
        }
        let place = self.place();
        match self.picture.rows.get(place) {
            Some(row) => number_at(&row.group, level),
            None => 0,
        }
    }

    /// A control group, often one of the last; at times any number.
    fn control(&mut self) -> u64 {
        if self.random.one_in(20) {
            return self.random.high_below(6000) as u64;
        }
        let controls = self.picture.controls.len();
        let mut place = self.random.high_below(controls.max(1));
        if self.random.one_in(2) {
            place = controls.saturating_sub(self.random.high_below(4).saturating_add(1));
        }
        match self.picture.controls.get(place) {
            Some(control) => control.id,
            None => 0,
        }
    }
}

// The calls.
impl Generator {
    /// A fork; the end of a task instead, where there are many.
    fn fork(&mut self, new_space: bool) -> Call {
        if self.picture.rows.len() >= self.aims.most_tasks {
            return if self.random.one_in(2) {
                self.exit()
            } else {
                self.wait()
            };
        }
        Call::Fork {
            caller: self.caller().root,
            new_space,
        }
    }

    /// The exit of a task that is not kept; at times of the root init or of nobody.
    fn exit(&mut self) -> Call {
        let status = self.random.high_below(256) as u8;
        if self.random.one_in(40) {
            return Call::Exit {
                caller: self.number(),
                status,
            };
        }
        let place = self.live_place();
        Call::Exit {
            caller: self.caller_at(place).root,
            status,
        }
    }

    /// The exit of a namespace's init, where one is found.
    fn fall(&mut self) -> Call {
        for _ in 0..TRIES {
            let place = self.late_place();
            if self.is_init(place) {
                return Call::Exit {
                    caller: self.caller_at(place).root,
                    status: 0,
                };
            }
        }
        self.exit()
    }

    /// Whether a task is the init of a namespace other than the root.
    fn is_init(&self, place: usize) -> bool {
        let Some(row) = self.picture.rows.get(place) else {
            return false;
        };
        let level = caller_of(&row.name).level;
        level > 0 && number_at(&row.name, level) == 1
    }

    /// A wait, mostly of the parent of a task that has ended.
    fn wait(&mut self) -> Call {
        let place = self.ended_place();
        let child = self.child_at(place);
        let parent = if self.random.one_in(12) {
            self.caller()
        } else {
            child.parent
        };
        let which = match self.random.high_below(10) {
            0 => Which::OwnGroup,
            1 | 2 => Which::Group(child.group),
            3 | 4 => Which::Pid(child.number),
            5 => Which::Pid(self.target(parent.level)),
            6 => Which::Group(self.group(parent.level)),
            _ => Which::Any,
        };
        Call::Wait {
            caller: parent.root,
            which,
        }
    }

    /// A change of group: of the caller, of its child or of anybody, into a group of any kind.
    fn set_pgid(&mut self) -> Call {
        let place = self.live_place();
        let child = self.child_at(place);
        let (caller, pid) = match self.random.high_below(8) {
            0 | 1 => (self.caller_at(place), 0),
            2 => (self.caller_at(place), self.target(child.parent.level)),
            _ => (child.parent, child.number),
        };
        let pgid = match self.random.high_below(8) {
            0 | 1 => 0,
            2 => pid,
            _ => self.group(caller.level),
        };
        Call::SetPgid {
            caller: caller.root,
            pid: self.signed(pid),
            pgid: self.signed(pgid),
        }
    }

    /// The number with a sign, which is seldom a minus.
    fn signed(&mut self, number: u32) -> i32 {
        if self.random.one_in(30) {
            return -1;
        }
        i32::try_from(number).unwrap_or(i32::MAX)
    }

    /// A new control group, where there are few.
    fn make_control(&mut self) -> Call {
        if self.picture.controls.len() >= MOST_CONTROLS {
            return self.remove_control();
        }
        Call::MakeControl {
            parent: self.control(),
        }
    }

    /// The end of a control group that is not kept.
    fn remove_control(&mut self) -> Call {
        let id = self.control();
        if id > 0 && id <= self.aims.kept_controls as u64 {
            return Call::Count { id };
        }
        Call::RemoveControl { id }
    }

    /// A limit: mostly one near the tasks that a control group may have, at times none or a bad one.
    fn set_limit(&mut self) -> Call {
        let limit = match self.random.high_below(8) {
            0 | 1 => None,
            2 => Some(BAD_LIMIT),
            _ => Some(self.random.high_below(self.aims.most_tasks.clamp(1, 1000)) as u32),
        };
        Call::SetLimit {
            id: self.control(),
            limit,
        }
    }

    /// A move of a task.
    fn move_task(&mut self) -> Call {
        Call::Move {
            task: self.caller().root,
            id: self.control(),
        }
    }

    /// A join of a namespace.
    fn join(&mut self) -> Call {
        let caller = self.caller();
        Call::Join {
            caller: caller.root,
            target: self.target(caller.level),
        }
    }

    /// A subreaper's mark.
    fn set_subreaper(&mut self) -> Call {
        Call::SetSubreaper {
            caller: self.caller().root,
            on: !self.random.one_in(4),
        }
    }

    /// A query, by the caller's numbers.
    fn query(&mut self) -> Call {
        let Caller {
            root: caller,
            level,
        } = self.caller();
        match self.random.high_below(9) {
            0 => Call::GetPid { caller },
            1 => Call::GetPpid { caller },
            2 => Call::GetPgid {
                caller,
                pid: self.target(level),
            },
            3 => Call::GetSid {
                caller,
                pid: self.target(level),
            },
            4 | 5 => Call::NsPid {
                caller,
                target: self.target(level),
            },
            6 => self.next(caller, Kind::Task, level),
            7 => self.next(caller, Kind::Group, level),
            _ => self.next(caller, Kind::Session, level),
        }
    }

    /// A query for the next number in use.
    fn next(&mut self, caller: u32, kind: Kind, level: usize) -> Call {
        let above = self.random.high_below(3) as u32;
        Call::Next {
            caller,
            kind,
            from: self.target(level).saturating_add(above),
        }
    }
}

/// A name's number at a level, counted from the root; 0 where it has none there.
fn number_at(name: &Name, level: usize) -> u32 {
    name.numbers.as_slice().get(level).copied().unwrap_or(0)
}

/// A task as a caller.
fn caller_of(name: &Name) -> Caller {
    Caller {
        root: number_at(name, 0),
        level: name.numbers.len().saturating_sub(1),
    }
}
