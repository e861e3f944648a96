//! What is asked of control groups.

ghost use Rattle.std.specs.Prelude.{◌≡◌, ◌↔◌, ℕ, ◌<◌, ◌≤◌, true, Some, None, OnOk, IfErr, IsTrue};
ghost use Rattle.{
  pid_types.specs.{Bounds.{greatest_limit}, declared.plain.Control.{Control}},
  pid_types.specs.{Controls.{control_at, parent_control, control_path}, Membership.{IsIn}, Sound.{IsRising}},
  pids_charge.specs.Charges.{stands, home_id, control_limit},
  sound_store.specs.{Flaws.{IsControlFlaw}, Groups.{HasGoodControls, IsGoodControl, ids_of}},
};

use crate::Flaw;
use pid_types::keys::ControlKey;
use pids_charge::Controls;

/// How many control groups there may be on the path from one up to the root.
const LONGEST_PATH: u32 = 65;

/// The greatest limit, as the model has it.
const GREATEST_LIMIT: u32 = 4_194_304;

/// Whether the root is on the path from the control group up.
fn leads_to_root(controls: &Controls, control: ControlKey) -> bool
    requires { stands controls.now control ≡ true }
    ensures { IsTrue result ↔ IsIn 0 (control_path controls.now.controls (home_id controls.now control)) }
{
    let mut at = control;
    for _ in 0..LONGEST_PATH {
        if controls.id(at) == 0 {
            return true;
        }
        match controls.parent(at) {
            Some(parent) => at = parent,
            None => return false,
        }
    }
    false
}

/// Whether the control group has a greater id than the one that it is in.
fn is_younger(controls: &Controls, control: ControlKey) -> bool
    requires { stands controls.now control ≡ true }
    ensures { IsTrue result ↔ ((p : ℕ) → parent_control controls.now.controls (home_id controls.now control) ≡ Some p
        → p < home_id controls.now control) }
{
    match controls.parent(control) {
        Some(parent) => controls.id(parent) < controls.id(control),
        None => true,
    }
}

/// Whether the limit of the control group may be: none at the root, and none above the greatest.
fn has_good_limit(controls: &Controls, control: ControlKey) -> bool
    requires { stands controls.now control ≡ true }
    ensures { IsTrue result
        ↔ ((home_id controls.now control ≡ 0 → control_limit controls.now (home_id controls.now control) ≡ None)
        × ((l : ℕ) → control_limit controls.now (home_id controls.now control) ≡ Some l → l ≤ greatest_limit)) }
{
    match controls.limit(control) {
        Some(limit) => controls.id(control) != 0 && limit <= GREATEST_LIMIT,
        None => true,
    }
}

/// Asks one control group.
fn is_good_control(controls: &Controls, control: ControlKey) -> bool
    requires { stands controls.now control ≡ true }
    ensures { IsTrue result ↔ IsGoodControl controls.now (home_id controls.now control) }
{
    is_younger(controls, control)
        && leads_to_root(controls, control)
        && has_good_limit(controls, control)
}

/// Asks each control group by itself.
fn check_each(controls: &Controls) -> Result<(), Flaw>
    ensures ok { OnOk result ((id : ℕ) → IsIn id (ids_of controls.now) → IsGoodControl controls.now id) }
    ensures told { IfErr result (λ flaw. IsControlFlaw controls.now flaw) }
{
    for (id, key) in controls.keys() {
        if !is_good_control(controls, key) {
            return Err(Flaw::Control(id));
        }
    }
    Ok(())
}

/// Whether the id is above the one before it, if there is one.
fn is_above(last: Option<u64>, id: u64) -> bool
    ensures { IsTrue result ↔ ((before : ℕ) → last ≡ Some before → before < id) }
{
    match last {
        Some(before) => before < id,
        None => true,
    }
}

/// Asks whether the ids of the control groups rise.
fn check_order(controls: &Controls) -> Result<(), Flaw>
    ensures ok { OnOk result (IsRising (ids_of controls.now)) }
    ensures told { IfErr result (λ flaw. IsControlFlaw controls.now flaw) }
{
    let mut last: Option<u64> = None;
    for (id, _key) in controls.keys() {
        if !is_above(last, id) {
            return Err(Flaw::Control(id));
        }
        last = Some(id);
    }
    Ok(())
}

/// Whether there is a root, with the id 0 and without a parent.
fn has_root(controls: &Controls) -> bool
    ensures { IsTrue result ↔ ((c : Control) × (control_at controls.now.controls 0 ≡ Some c) × (c.parent ≡ None)) }
{
    match controls.find(0) {
        Some(root) => controls.parent(root).is_none(),
        None => false,
    }
}

/// Asks all control groups.
pub(crate) fn check_controls(controls: &Controls) -> Result<(), Flaw>
    ensures ok { OnOk result (HasGoodControls controls.now) }
    ensures told { IfErr result (λ flaw. IsControlFlaw controls.now flaw) }
{
    if !has_root(controls) {
        return Err(Flaw::Control(0));
    }
    check_order(controls)?;
    check_each(controls)
}
