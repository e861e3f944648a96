//! A store with all that a text says.
ghost use Rattle.std.specs.Prelude.{◌≡◌, map, IfOk, OnOk};
ghost use Rattle.{
  pid_types.specs.Sound.{IsSound},
  task_table.specs.{Store.{HasNoThreads}, View.{spaces_of, state_of}, Whole.{HasParents}},
  table_text.specs.Reading.{saved_state},
  table_build.specs.{Bare.{undrawn}, Kept.{HasNobody}, Parts.{HasParts}, Stages.{KeepsPlaces, Blames}},
  table_build.specs.Tables.{IsOfTables},
};

use crate::begin::begin_tasks;
use crate::controls::put_controls;
use crate::falls::{put_cursors, put_falls};
use crate::fault::BuildFault;
use crate::sessions::enter_sessions;
use crate::settle::{remove_placeholders, settle_tasks};
use crate::spaces::put_spaces;
use pid_types::config::Config;
use std::alloc::Global;
use table_text::read::Saved;
use task_table::Tasks;
use task_table::view::laws;

/// A store with the control groups and the namespaces of the text, and no task.
fn put_places(alloc: Global, saved: &Saved) -> Result<Tasks, BuildFault>
    ensures nobody { IfOk result (λ store. HasNobody store) }
    ensures controls { IfOk result (λ store. store.charges.controls ≡ saved.now.controls.items) }
    ensures spaces { IfOk result (λ store. spaces_of store.numbering ≡ map undrawn saved.now.spaces.items) }
    ensures bound { IfOk result (λ store. store.numbering.pid_max ≡ saved.now.pid_max) }
    ensures kin { IfOk result (λ store. HasParents store) }
    ensures refused { Blames result (IsOfTables (saved_state saved.now) → ⊥) }
{
    let Ok(config) = Config::new(saved.pid_max, 1) else {
        return Err(BuildFault::BadSettings(1));
    };
    let mut store = Tasks::new(alloc, config.pid_max())?;
    laws(&store);
    put_controls(&mut store, saved)?;
    put_spaces(&mut store, saved)?;
    Ok(store)
}

/// The tasks of the text are put into a store that has none.
fn put_tasks(alloc: Global, store: &mut Tasks, saved: &Saved) -> Result<(), BuildFault>
    requires { HasNobody store.old }
    ensures rows { OnOk result ((state_of store.new).rows ≡ saved.now.rows) }
    ensures places { OnOk result (KeepsPlaces store.old store.new) }
    ensures kin { OnOk result (HasParents store.new) }
    ensures alone { OnOk result (HasNoThreads store.new.threads) }
    ensures refused { Blames result (IsSound (saved_state saved.now)
        → HasParts store.old (saved_state saved.now) → ⊥) }
{
    let mut placed = begin_tasks(alloc, store, saved)?;
    enter_sessions(store, &mut placed, saved)?;
    settle_tasks(store, &placed, saved)?;
    remove_placeholders(store, &placed);
    laws(store);
    Ok(())
}

/// A store with the state that the text says. Its parts agree, and the state need not be sound. The store of a state
/// that is sound, as tables have it, is made wherever there is memory.
pub fn build(alloc: Global, saved: &Saved) -> Result<Tasks, BuildFault>
    ensures state { IfOk result (λ store. state_of store ≡ saved_state saved.now) }
    ensures kin { IfOk result (λ store. HasParents store) }
    ensures alone { IfOk result (λ store. HasNoThreads store.threads) }
    ensures refused { Blames result (IsOfTables (saved_state saved.now) → ⊥) }
{
    let mut store = put_places(alloc, saved)?;
    put_tasks(alloc, &mut store, saved)?;
    put_falls(alloc, &mut store, saved)?;
    put_cursors(&mut store, saved);
    Ok(store)
}
