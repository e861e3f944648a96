//! The process table: any call of the model, on tasks whose state is sound before and after it.
//!
//! A [`Tasks`] holds what its calls leave in it; the table holds one in which every call finds and leaves a sound
//! state.
#![tactic(auto)]

ghost use Rattle.std.specs.Prelude.{◌≡◌, ◌+◌, ◌<◌, ◌≤◌, IfOk, IfSome, OnErr, OnOk, None, [], ◌∷◌, is_some, length, map};
ghost use Rattle.std.specs.Prelude.{option_map};
ghost use Rattle.{
  pid_types.specs.{Controls.{control_at, count as count_of}, Settings.{HasGoodPidMax}, Short.{reply_of}},
  pid_types.specs.{Shown.{Shows, with_count}, Sound.{IsSound}, State.{root_state}},
  model_laws.specs.Before.{IsThreadless},
  task_table.specs.{View.{state_of}, Whole.{IsWhole}},
  translate.specs.{From.{rows_from}, Inside.{ids_inside}, Residents.{TellsControlTasks}, Listed.{TellsList}},
  translate.specs.{Pages.{ListsPage, TellsPage, TellsSeenPage}, Relations.{relations_at}, Spaces.{space_stat_at}},
  translate.specs.Stat.{stat_at, glimpse_in, IsSeen},
  pid_table.specs.Bare.{IsBare},
};

mod alone;
mod step;

use model_laws::soundness::root_state_is_sound;
use pid_types::config::Config;
use pid_types::keys::Pid;
use pid_types::plain::{ControlRow, Life, Plain, Row, Space};
use pid_types::reply::{Refusal, ShortReply};
use std::alloc::{AllocError, Global};
use std::marker::Model;
pub use step::is_query;
use task_table::Tasks;
use task_table::view::laws;
use task_tree::Task;
use translate::inside::{Inside, read_inside};
use translate::page::{Page, list_page, read_page};
use translate::relations::{Relations, read_relations};
use translate::residents::{ControlPage, read_control_tasks};
use translate::shown;
use translate::space::{SpaceStat, read_space};
pub use translate::stat::listed;
use translate::stat::{Stat, read_stat};

/// The process table: what it holds, and that this is sound.
pub struct PidTable {
    store: Tasks,
}

// Written out, and not derived: so the crates above cite this drop, and do not prove it anew.
impl Drop for PidTable {
    fn drop(self) {
        let PidTable { store: _ } = self;
    }
}

impl Model for PidTable {
    ghost use Rattle.pid_types.specs.State.{State};
    ghost use Rattle.task_table.specs.{View.{state_of}, Whole.{IsWhole}};

    ghost Value = { State };

    ghost view = { λ t. state_of t.store };

    ghost invariant = { λ t. IsWhole t.store };
}

/// The root init begins in a bare store. The error is want of memory.
fn begin_root_init(store: &mut Tasks) -> Result<(), AllocError>
    requires { IsBare store.old }
    ensures state { OnOk result (state_of store.new ≡ root_state store.old.numbering.pid_max) }
    ensures whole { OnOk result (IsWhole store.new) }
    ensures threads { store.new.threads ≡ store.old.threads }
{
    laws(store);
    root_state_is_sound();
    let Ok(numbers) = store.numbers().plan(0) else {
        unreachable!()
    };
    let Some(home) = store.controls().find(0) else {
        unreachable!()
    };
    let task = Task {
        children_space: 0,
        home,
        executed: false,
        subreaper: false,
        life: Life::Live,
    };
    store.fork(None, 0, numbers.as_slice(), task)?;
    laws(store);
    Ok(())
}

impl PidTable {
    /// A table with the root init, the root namespace and the root control group alone. The error is want of memory.
    pub fn new(alloc: Global, config: &Config) -> Result<PidTable, AllocError>
        ensures { IfOk result (λ table. table ≡ root_state config.now.pid_max) }
    {
        let mut store = Tasks::new(alloc, config.pid_max())?;
        begin_root_init(&mut store)?;
        Ok(PidTable { store })
    }

    /// A table of a store whose state is sound: that of a saved text, say.
    pub fn of(store: Tasks) -> PidTable
        requires { IsWhole store }
        ensures { result ≡ state_of store }
    {
        PidTable { store }
    }

    /// What is true at any time; the call does nothing. The state is sound.
    pub fn laws(&self)
        ensures { IsSound self.now }
    {
        let _ = &self.store;
    }

    /// The state has no threads beside the first ones, and none of these has left; the call does nothing.
    pub fn no_threads(&self)
        ensures { IsThreadless self.now }
    {
        let _ = &self.store;
    }

    /// The memory that the table is in. It costs one read.
    pub fn allocator(&self) -> Global {
        self.store.numbers().allocator()
    }

    /// The bound of all numbers, 301 to 4194304. It costs one read.
    pub fn pid_max(&self) -> u32
        ensures value { result ≡ self.now.pid_max }
        ensures good { HasGoodPidMax result }
    {
        let numbers = self.store.numbers();
        numbers.laws();
        numbers.pid_max()
    }

    /// How many tasks there are, ended ones too. It costs a logarithm of the control groups.
    pub fn tasks(&self) -> usize
        ensures { result ≡ length self.now.rows }
    {
        laws(&self.store);
        let Some(root) = self.store.controls().find(0) else {
            unreachable!()
        };
        self.store.controls().count(root) as usize
    }

    /// How many tasks the control group with the id and those below it have, ended ones too; none where there is no
    /// such group. It is the number that the table keeps with the group (`pids.current`): a search for the id and one
    /// read, and no task is looked at.
    pub fn count(&self, control: u64) -> Option<u64>
        ensures there { is_some result ≡ is_some (control_at self.now.controls control) }
        ensures value { IfSome result (λ n. n ≡ count_of self.now control) }
    {
        laws(&self.store);
        let Some(key) = self.store.controls().find(control) else {
            return None;
        };
        Some(self.store.controls().count(key))
    }

    /// How many control groups there are, the root group too. It costs one read.
    pub fn controls(&self) -> usize
        ensures { result ≡ length self.now.controls }
    {
        self.store.controls().len()
    }

    /// One read of the task with the number in the caller's namespace, where 0 is the caller: [`read_stat`].
    pub fn stat(&self, caller: Pid, pid: Pid) -> Result<Stat, Refusal>
        ensures told { result ≡ stat_at self.now caller pid }
        ensures seen { IfOk result (λ stat. IsSeen self.now caller pid (glimpse_in stat)) }
    {
        read_stat(&self.store, caller, pid)
    }

    /// Writes the numbers of a page over the front of the room, and answers how many there are: [`read_page`]. The
    /// error is want of memory, and then the room is as it was.
    pub fn page(&self, page: &Page, room: &mut [Pid]) -> Result<ShortReply, AllocError>
        ensures told { IfOk result (λ reply. TellsPage self.now page.now room.old room.new (reply_of reply)) }
        ensures seen { IfOk result (λ reply. TellsSeenPage self.now page.now room.old room.new (reply_of reply)) }
        ensures err { OnErr result (room.new ≡ room.old) }
    {
        read_page(&self.store, page, room)
    }

    /// The numbers of a page, in rising order; none where there is no caller: [`list_page`]. The error is want of
    /// memory.
    pub fn list(&self, page: &Page) -> Result<Option<Vec<Pid>>, AllocError>
        ensures { IfOk result (λ r. ListsPage self.now page.now (option_map (λ listed. listed.items) r)) }
    {
        list_page(&self.store, page)
    }

    /// To whom the task with the root number belongs, and where: [`read_relations`]. None where there is none.
    pub fn relations(&self, number: Pid) -> Option<Relations>
        ensures { result ≡ relations_at self.now.rows number }
    {
        read_relations(&self.store, number)
    }

    /// Writes the ids of what is directly inside a namespace or a control group over the front of the room, and answers
    /// how many there are; none where there is no such namespace or group: [`read_inside`]. The error is want of
    /// memory, and then the room is as it was.
    pub fn inside(&self, inside: &Inside, room: &mut [u64]) -> Result<Option<u64>, AllocError>
        ensures told { IfOk result (λ count.
            TellsList (ids_inside self.now inside.now) inside.now.from room.old room.new count) }
        ensures err { OnErr result (room.new ≡ room.old) }
    {
        read_inside(&self.store, inside, room)
    }

    /// Writes the numbers of the live tasks directly in a control group over the front of the room, and answers how
    /// many there are: [`read_control_tasks`]. The error is want of memory, and then the room is as it was.
    pub fn control_tasks(
        &self,
        asked: &ControlPage,
        room: &mut [Pid],
    ) -> Result<ShortReply, AllocError>
        ensures told { IfOk result (λ reply.
            TellsControlTasks self.now asked.now room.old room.new (reply_of reply)) }
        ensures err { OnErr result (room.new ≡ room.old) }
    {
        read_control_tasks(&self.store, asked, room)
    }

    /// One read of the namespace with the id: [`read_space`]. None where there is none.
    pub fn space(&self, id: u64) -> Option<SpaceStat>
        ensures { result ≡ space_stat_at self.now id }
    {
        read_space(&self.store, id)
    }

    /// The plain state, with the count of each control group: [`shown::snapshot`]. The error is want of memory.
    pub fn snapshot(&self) -> Result<Plain, AllocError>
        ensures { IfOk result (Shows self.now) }
    {
        shown::snapshot(&self.store)
    }

    /// Writes the row of the first task from a number in the root namespace on over another, and answers the task's
    /// number there: [`shown::next_row`]. Where there is no such task, nothing is written. It takes no memory.
    pub fn next_row(&self, from: Pid, row: &mut Row) -> Option<Pid>
        ensures next { IfSome result (λ n. rows_from self.now.rows from ≡ row.new ∷ rows_from self.now.rows (n + 1)) }
        ensures above { IfSome result (λ n. (from ≤ n) × (n < self.now.pid_max)) }
        ensures good { HasGoodPidMax self.now.pid_max }
        ensures none { result ≡ None → rows_from self.now.rows from ≡ [] }
    {
        shown::next_row(&self.store, from, row)
    }

    /// The namespaces by their ids: [`shown::all_spaces`]. The error is want of memory.
    pub fn spaces(&self) -> Result<Vec<Space>, AllocError>
        ensures { IfOk result (λ spaces. spaces.items ≡ self.now.spaces) }
    {
        shown::all_spaces(&self.store)
    }

    /// The control groups by their ids, each with its count: [`shown::all_controls`]. The error is want of memory.
    pub fn control_rows(&self) -> Result<Vec<ControlRow>, AllocError>
        ensures { IfOk result (λ rows. rows.items ≡ map (with_count self.now) self.now.controls) }
    {
        shown::all_controls(&self.store)
    }
}
