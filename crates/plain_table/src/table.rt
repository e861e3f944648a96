//! The table, its making, its sweep and its snapshot.
ghost use Rattle.std.specs.Prelude.{◌≡◌, ◌≤◌, ◌∷◌, [], length, vec_len, vec_capacity, filter, map, not, IfOk};
ghost use Rattle.std.specs.Prelude.{◌↔◌, IsTrue, IfSome, Ok, None};
ghost use Rattle.pid_types.specs.State.{root_state, root_name as root_name_of, root_init as root_init_of};
ghost use Rattle.pid_types.specs.{Names.{with_row}, Outcome.{sweep, is_dead}, Shown.{Shows, with_count as counted}};

use crate::edit::{Edit, edit_row};
use arrayvec::ArrayVec;
use pid_types::config::Config;
use pid_types::plain::{Control, ControlRow, Life, Name, Plain, Row, Space, Thread};
use plain_view::names::copy_name;
use plain_view::view::View;
use std::alloc::{AllocError, Global};
use std::marker::Model;
use std::mem;

/// The process table on plain lists. Contracts see the model's state.
#[derive(Debug, Drop)]
pub struct PlainTable {
    pub(crate) rows: Vec<Row>,
    pub(crate) threads: Vec<Thread>,
    pub(crate) left: Vec<Name>,
    pub(crate) spaces: Vec<Space>,
    pub(crate) controls: Vec<Control>,
    pub(crate) pid_max: u32,
    /// Room for the namespaces that a sweep keeps, so that it takes no memory.
    pub(crate) kept: Vec<Space>,
}

impl Model for PlainTable {
    ghost use Rattle.std.specs.Prelude.{◌≡◌, ◌≤◌, [], vec_len, vec_capacity};
    ghost use Rattle.pid_types.specs.State.{State};

    ghost Value = { State };

    ghost view = { λ t. record {
      rows = t.rows.items;
      threads = t.threads.items;
      left = t.left.items;
      spaces = t.spaces.items;
      controls = t.controls.items;
      pid_max = t.pid_max;
    } };

    ghost invariant = { λ t. (t.kept.items ≡ []) × (vec_len t.spaces ≤ vec_capacity t.kept) };
}

/// The name of the root init.
fn root_name() -> Name
    ensures { result ≡ root_name_of }
{
    let mut numbers = ArrayVec::new();
    numbers.push(1);
    Name { space: 0, numbers }
}

/// The root init's row.
fn root_init() -> Row
    ensures { result ≡ root_init_of }
{
    let name = root_name();
    Row {
        group: copy_name(&name),
        session: copy_name(&name),
        name,
        parent: None,
        executed: false,
        life: Life::Live,
        home: 0,
        children_space: 0,
        subreaper: false,
    }
}

/// The namespaces that are not dead, in the order of the list.
fn keep_living(kept: &mut Vec<Space>, view: &View<'_>, spaces: &[Space])
    requires empty { kept.old.items ≡ [] }
    requires room { length spaces.now ≤ vec_capacity kept.old }
    ensures living { kept.new.items ≡ filter (λ s. not (is_dead view.now s)) spaces.now }
    ensures fewer { vec_len kept.new ≤ length spaces.now }
    ensures room { vec_capacity kept.old ≤ vec_capacity kept.new }
{
    for space in spaces {
        if !view.is_dead(space) {
            let Ok(()) = kept.push(*space) else {
                unreachable!()
            };
        }
    }
}

impl PlainTable {
    /// A table with the root init, the root namespace and the root control group alone.
    pub fn new(alloc: Global, config: &Config) -> Result<PlainTable, AllocError>
        ensures { IfOk result (λ table. table ≡ root_state config.now.pid_max) }
    {
        let root = Space {
            id: 0,
            parent: None,
            cursor: 2,
            fallen: false,
        };
        let control = Control {
            id: 0,
            parent: None,
            limit: None,
        };
        let mut kept = Vec::new(alloc);
        kept.try_reserve(1)?;
        Ok(PlainTable {
            rows: vec![in alloc; root_init()]?,
            threads: Vec::new(alloc),
            left: Vec::new(alloc),
            spaces: vec![in alloc; root]?,
            controls: vec![in alloc; control]?,
            pid_max: config.pid_max(),
            kept,
        })
    }

    /// How many tasks there are, ended ones too. It costs nothing.
    pub fn tasks(&self) -> usize
        ensures { result ≡ length self.now.rows }
    {
        self.rows.len()
    }

    /// How many control groups there are, the root group too. It costs nothing.
    pub fn controls(&self) -> usize
        ensures { result ≡ length self.now.controls }
    {
        self.controls.len()
    }

    /// The lists, for look-ups.
    pub(crate) fn view(&self) -> View<'_>
        ensures { result ≡ self.now }
    {
        View::new(
            &self.rows,
            &self.threads,
            &self.left,
            &self.spaces,
            &self.controls,
            self.pid_max,
        )
    }

    /// Changes the named task's row.
    #[tactic(auto, unfolding(pid_types::specs::Names::with_row))]
    pub(crate) fn change_row<C: Edit<Row>>(&mut self, name: &Name, change: &C)
        ensures { self.new ≡ with_row self.old name.now (C.gives change.now) }
    {
        edit_row(&mut self.rows, name, change);
    }

    /// Drops the dead namespaces.
    pub(crate) fn sweep(&mut self)
        ensures { self.new ≡ sweep self.old }
    {
        let view = View::new(
            &self.rows,
            &self.threads,
            &self.left,
            &self.spaces,
            &self.controls,
            self.pid_max,
        );
        keep_living(&mut self.kept, &view, &self.spaces);
        mem::swap(&mut self.spaces, &mut self.kept);
        self.kept.clear();
    }
}

impl PlainTable {
    /// Whether each process is its first thread alone.
    fn is_without_threads(&self) -> bool
        ensures { IsTrue result ↔ ((self.now.threads ≡ []) × (self.now.left ≡ [])) }
    {
        self.threads.is_empty() && self.left.is_empty()
    }

    /// The plain state, with the count of each control group. There is none where a process has
    /// another thread than its first one, or where that one has left: a snapshot shows no threads.
    pub fn snapshot(&self) -> Result<Option<Plain>, AllocError>
        ensures shown { IfOk result (λ shown. IfSome shown (Shows self.now)) }
        ensures none { result ≡ Ok None → self.now.threads ≡ [] → self.now.left ≡ [] → ⊥ }
    {
        if !self.is_without_threads() {
            return Ok(None);
        }
        Ok(Some(Plain {
            pid_max: self.pid_max,
            rows: self.rows.clone()?,
            spaces: self.spaces.clone()?,
            controls: self.control_rows()?,
        }))
    }

    /// The control groups with their counts.
    fn control_rows(&self) -> Result<Vec<ControlRow>, AllocError>
        ensures { IfOk result (λ rows. rows.items ≡ map (counted self.now) self.now.controls) }
    {
        let view = self.view();
        let mut rows = Vec::new(*self.controls.allocator());
        for control in &self.controls {
            rows.push(with_count(&view, control))?;
        }
        Ok(rows)
    }
}

/// The control group with its count.
fn with_count(view: &View<'_>, control: &Control) -> ControlRow
    ensures { result ≡ counted view.now control.now }
{
    ControlRow {
        id: control.id,
        parent: control.parent,
        limit: control.limit,
        count: view.count(control.id),
    }
}
