//! The control groups of a text, put into a store.
ghost use Rattle.std.specs.Prelude.{◌≡◌, ◌≤◌, ◌<◌, ◌++◌, ◌∷◌, [], true, false, None, IsTrue, OnOk, IfOk, Some, length};
ghost use Rattle.std.specs.{Prelude.{slice_get, take, ◌+◌}, List.{AllByRecursion}};
ghost use Rattle.{
  table_build.specs.{Follows.{AreUpToLast, AreGoodControls, MayFollow}, Stages.{Blames}},
  pid_types.specs.declared.plain.Control.{Control},
  pids_charge.specs.Charges.{stands, home_id},
  task_table.specs.Store.{ChangesCharges},
};

use crate::fault::BuildFault;
use crate::lines::control_line;
use pid_types::keys::ControlKey;
use pid_types::plain::Control;
use pids_charge::ControlFault;
use table_text::read::Saved;
use task_table::Tasks;

/// Whether it is the root control group as it begins, which is there already.
fn is_root(control: &Control) -> bool
    ensures yes { IsTrue result → control.now ≡ record { id = 0; parent = None; limit = None } }
    ensures no { result ≡ false → control.now ≡ record { id = 0; parent = None; limit = None } → ⊥ }
{
    control.id == 0 && control.parent.is_none() && control.limit.is_none()
}

/// Makes a control group without a limit behind those that are there, whose ids are up to the last one.
fn make_control(
    store: &mut Tasks,
    control: &Control,
    last: u64,
    line: u64,
) -> Result<ControlKey, BuildFault>
    requires below { AllByRecursion (λ g. g.id ≤ last) store.old.charges.controls }
    ensures above { OnOk result (last < control.now.id) }
    ensures stands { IfOk result (λ key. stands store.new.charges key ≡ true) }
    ensures id { IfOk result (λ key. home_id store.new.charges key ≡ control.now.id) }
    ensures made { OnOk result (store.new.charges.controls
        ≡ store.old.charges.controls ++ record control.now { limit = None } ∷ []) }
    ensures refused { Blames result (MayFollow store.old.charges.controls last control.now → ⊥) }
    ensures rest { ChangesCharges store.old store.new }
{
    let Some(around) = control.parent else {
        return Err(BuildFault::UnknownGroup(line));
    };
    if control.id <= last {
        return Err(BuildFault::Unsorted(line));
    }
    let Some(parent) = store.controls().find(around) else {
        return Err(BuildFault::UnknownGroup(line));
    };
    match store.make_control(parent, control.id) {
        Ok(key) => Ok(key),
        Err(ControlFault::NoMemory) => Err(BuildFault::NoMemory),
        Err(ControlFault::ControlDepth) => Err(BuildFault::Impossible(line)),
    }
}

/// Puts a control group behind those that are there, whose ids are up to the last one.
fn put_control(store: &mut Tasks, control: &Control, last: u64, line: u64) -> Result<(), BuildFault>
    requires below { AllByRecursion (λ g. g.id ≤ last) store.old.charges.controls }
    ensures below { OnOk result (AllByRecursion (λ g. g.id ≤ control.now.id) store.new.charges.controls) }
    ensures put { OnOk result (store.new.charges.controls ≡ store.old.charges.controls ++ control.now ∷ []) }
    ensures refused { Blames result (MayFollow store.old.charges.controls last control.now → ⊥) }
    ensures rest { ChangesCharges store.old store.new }
{
    let key = make_control(store, control, last, line)?;
    if control.limit.is_none() {
        return Ok(());
    }
    match store.set_limit(key, control.limit) {
        Ok(()) => Ok(()),
        Err(_) => Err(BuildFault::Impossible(line)),
    }
}

/// Sees that the first line is that of the root control group.
fn check_root(saved: &Saved) -> Result<(), BuildFault>
    ensures root { OnOk result ((c : Control) → slice_get saved.now.controls.items 0 ≡ Some c
        → c ≡ record { id = 0; parent = None; limit = None }) }
    ensures some { OnOk result (0 < length saved.now.controls.items) }
    ensures refused { Blames result (AreGoodControls saved.now.controls.items → ⊥) }
{
    let Some(root) = saved.controls.first() else {
        return Err(BuildFault::Impossible(control_line(saved, 0)));
    };
    if root.id != 0 {
        return Err(BuildFault::Unsorted(control_line(saved, 0)));
    }
    if !is_root(root) {
        return Err(BuildFault::Impossible(control_line(saved, 0)));
    }
    Ok(())
}

/// Puts the control group of a line behind those of the lines before.
fn put_next(store: &mut Tasks, saved: &Saved, index: usize) -> Result<(), BuildFault>
    requires put { store.old.charges.controls ≡ take index saved.now.controls.items }
    requires below { AreUpToLast store.old.charges.controls saved.now.controls.items index }
    requires index { (0 < index) × (index < length saved.now.controls.items) }
    ensures put { OnOk result (store.new.charges.controls ≡ take (index + 1) saved.now.controls.items) }
    ensures below { OnOk result (AreUpToLast store.new.charges.controls saved.now.controls.items (index + 1)) }
    ensures rest { ChangesCharges store.old store.new }
    ensures refused { Blames result (AreGoodControls saved.now.controls.items → ⊥) }
{
    let last = saved.controls[index - 1].id;
    put_control(
        store,
        &saved.controls[index],
        last,
        control_line(saved, index),
    )
}

/// Puts all control groups: the first line is that of the root, and the ids rise.
pub fn put_controls(store: &mut Tasks, saved: &Saved) -> Result<(), BuildFault>
    requires root { store.old.charges.controls ≡ record { id = 0; parent = None; limit = None } ∷ [] }
    ensures put { OnOk result (store.new.charges.controls ≡ saved.now.controls.items) }
    ensures rest { ChangesCharges store.old store.new }
    ensures refused { Blames result (AreGoodControls saved.now.controls.items → ⊥) }
{
    check_root(saved)?;
    for index in 1..saved.controls.len() {
        put_next(store, saved, index)?;
    }
    Ok(())
}
