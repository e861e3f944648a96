//! A table that a caller holds, with a history or without one.
ghost use Rattle.std.specs.Prelude.{◌≡◌, ◌↔◌, ◌⊎◌, Some, None, Err, IfOk, IfErr, OnOk, is_some};
ghost use Rattle.{
  pid_types.specs.State.{root_state},
  kept_table.specs.Calls.{begun},
  foreign_handles.specs.declared.held.Held.TheVariants.{Bare, Recorded},
  foreign_calls.specs.{Calls.{visible}, Held.{Takes}, Opened.{most_workers, opened, CanOpen}},
};

use foreign_handles::handle::{Handle, null};
use foreign_handles::held::Held;
use foreign_handles::loose::Loose;
use foreign_numbers::status::{NO_MEMORY, OUT_OF_RANGE};
use kept_table::Kept;
use pid_types::config::Config;
use stamped_table::StampedTable;
use std::alloc::{AllocError, Global};
use std::mem;

/// The most workers that a table with a history has.
pub const MOST_WORKERS: u32 = 16;

/// What a table is opened with. C's `struct pidtab_settings` begins so.
#[repr(C)]
#[derive(Clone, Copy)]
pub struct TableSettings {
    /// All numbers are below it: 301 to 4194304.
    pub pid_max: u32,
    /// So many count their calls apart: 1 to 16, and 1 where no history is kept.
    pub workers: u32,
    /// The stamp of the first call, at least 1.
    pub first_stamp: u64,
    /// 0: no history is kept. How many entries are kept otherwise is the affair of those who cut it.
    pub keep: u64,
}

/// A table for C, or none: zeroes are none.
#[repr(C)]
#[derive(Drop)]
pub struct Pidtab {
    pub handle: Handle,
    pub is_open: bool,
    ghost linked: { is_some handle.held ≡ is_open },
}

impl Pidtab {
    /// What is held, which the handle has no more.
    pub fn take(&mut self, alloc: Global) -> Option<Box<Held>>
        ensures { Takes result (λ held. held.value) self.old.handle.held self.new.handle.held }
    {
        let Pidtab { handle, is_open } = mem::replace(
            self,
            Pidtab {
                handle: Handle::empty(alloc, null()),
                is_open: false,
            },
        );
        if is_open {
            Some(handle.into_loose(alloc).into_box())
        } else {
            None
        }
    }

    /// Holds the table.
    pub fn put(&mut self, held: Box<Held>)
        ensures { self.new.handle.held ≡ Some held.value }
    {
        *self = Pidtab {
            handle: Handle::of(Loose::of(held)),
            is_open: true,
        };
    }

    /// Frees the table, if there is one, and leaves zeroes.
    pub fn close(&mut self, alloc: Global)
        ensures { self.new.handle.held ≡ None }
    {
        let _held = self.take(alloc);
    }
}

/// What is held, on the heap. The error is want of memory.
pub fn boxed(alloc: Global, held: Held) -> Result<Box<Held>, AllocError>
    ensures { IfOk result (λ boxed. boxed.value ≡ held) }
{
    match Box::new(alloc, held) {
        Ok(boxed) => Ok(boxed),
        Err(_) => Err(AllocError),
    }
}

/// A new table on the heap. The error is want of memory.
fn boxed_table(alloc: Global, config: &Config) -> Result<Box<Held>, AllocError>
    ensures { IfOk result (λ held.
        held.value ≡ Bare (record { state = root_state config.now.pid_max; stamp = config.now.first_stamp })) }
{
    boxed(alloc, Held::Bare(StampedTable::new(alloc, config)?))
}

/// A new table with its history on the heap. The error is want of memory.
fn boxed_kept(alloc: Global, config: &Config, workers: usize) -> Result<Box<Held>, AllocError>
    ensures { IfOk result (λ held.
        visible held.value ≡ Recorded (begun config.now workers 0)) }
{
    boxed(alloc, Held::Recorded(Kept::new(alloc, config, workers)?))
}

/// A new table on the heap, with its history or without one. The error is want of memory.
fn boxed_held(
    alloc: Global,
    config: &Config,
    settings: &TableSettings,
) -> Result<Box<Held>, AllocError>
    requires same { (config.now.pid_max ≡ settings.now.pid_max) × (config.now.first_stamp ≡ settings.now.first_stamp) }
    ensures { IfOk result (λ held. visible held.value ≡ opened settings.now) }
{
    if settings.keep == 0 {
        boxed_table(alloc, config)
    } else {
        boxed_kept(alloc, config, settings.workers as usize)
    }
}

/// How many workers a table has at most.
fn most_workers(keep: u64) -> u32
    ensures { result ≡ most_workers keep }
{
    if keep == 0 { 1 } else { MOST_WORKERS }
}

/// A new table on the heap, with the root init alone, as the settings say. The error is the status.
pub fn new_held(alloc: Global, settings: &TableSettings) -> Result<Box<Held>, u32>
    ensures new { IfOk result (λ held. visible held.value ≡ opened settings.now) }
    ensures good { OnOk result (CanOpen settings.now) }
    ensures out_of_range { (result ≡ Err OUT_OF_RANGE) ↔ (CanOpen settings.now → ⊥) }
    ensures err { IfErr result (λ status. (status ≡ OUT_OF_RANGE) ⊎ (status ≡ NO_MEMORY)) }
{
    if settings.workers == 0 || settings.workers > most_workers(settings.keep) {
        return Err(OUT_OF_RANGE);
    }
    let Ok(config) = Config::new(settings.pid_max, settings.first_stamp) else {
        return Err(OUT_OF_RANGE);
    };
    match boxed_held(alloc, &config, settings) {
        Ok(held) => Ok(held),
        Err(_) => Err(NO_MEMORY),
    }
}
