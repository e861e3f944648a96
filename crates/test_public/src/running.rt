//! A table that goes on: one from the start, or one that was loaded.

use model_laws::soundness::{root_state_is_sound, soundness_is_kept};
use pid_table::PidTable;
use pid_types::call::Call;
use pid_types::config::Config;
use pid_types::keys::Pid;
use pid_types::plain::Plain;
use pid_types::reply::{Reply, ShortReply};
use std::marker::Model;
use std::process::Abort;
use table_load::laws::what_is_dumped_is_loaded;
use table_load::load::load;
use table_text::dump::dump_text;
use translate::residents::ControlPage;

/// A table, and the stamp of its next call.
#[derive(Drop)]
pub struct Running {
    table: PidTable,
    stamp: u64,
}

impl Model for Running {
    ghost use Rattle.pid_types.specs.{State.{State}, Sound.{IsBelow}};

    ghost Value = { State };

    ghost view = { λ r. r.table };

    ghost invariant = { λ r. IsBelow r.stamp r.table };
}

impl Running {
    /// A table as it begins.
    pub fn new(rt: &(impl AllocGlobal + Abort), config: &Config) -> Running {
        root_state_is_sound();
        prove!(config.pid_max() >= 301 && config.pid_max() <= 4_194_304);
        Running {
            table: PidTable::new(rt.alloc(), config).expect(rt, "no memory"),
            stamp: config.first_stamp(),
        }
    }

    /// The table that a text was written of.
    pub fn from_text(rt: &(impl AllocGlobal + Abort), text: &[u8]) -> Running {
        let loaded = load(rt.alloc(), text).expect(rt, "a fault");
        Running {
            table: loaded.table,
            stamp: loaded.stamp,
        }
    }

    /// The stamp of the next call.
    pub fn stamp(&self) -> u64 {
        self.stamp
    }

    /// Makes a call.
    pub fn call(&mut self, rt: &impl Abort, call: Call) -> Reply {
        let next = self.stamp.checked_add(1).expect(rt, "no stamp is left");
        soundness_is_kept();
        self.table.laws();
        let mut reply = Reply::Done;
        let made = self.table.step(self.stamp, call, &mut reply);
        made.expect(rt, "no memory");
        self.stamp = next;
        reply
    }

    /// Makes a call that is not refused. It answers the root number of the child, or 0 where there is none.
    pub fn make(&mut self, rt: &impl Abort, call: Call) -> Pid {
        match self.call(rt, call) {
            Reply::Forked { child: _, root } => root,
            Reply::Refused(_) => panic!(rt; "a refusal"),
            _ => 0,
        }
    }

    /// What a caller is told of the tasks of a control group. None is answered for want of memory.
    pub fn control_tasks(&self, asked: &ControlPage, room: &mut [Pid]) -> Option<ShortReply> {
        self.table.control_tasks(asked, room).ok()
    }

    /// What the table shows.
    pub fn look(&self, rt: &impl Abort) -> Plain {
        self.table.snapshot().expect(rt, "no memory")
    }

    /// The text of the table.
    pub fn text(&self, rt: &(impl AllocGlobal + Abort)) -> Vec<u8> {
        dump_text(rt.alloc(), &self.look(rt), self.stamp).expect(rt, "no memory")
    }

    /// The table saved and loaded, which is to be as it was.
    pub fn reloaded(&self, rt: &(impl AllocGlobal + Abort)) -> Running {
        let told = what_is_dumped_is_loaded(rt.alloc(), &self.table, self.stamp);
        let loaded = told.expect(rt, "no memory");
        let again = Running {
            table: loaded.table,
            stamp: loaded.stamp,
        };
        assert!(rt; again.text(rt).as_slice() == self.text(rt).as_slice());
        again
    }
}
