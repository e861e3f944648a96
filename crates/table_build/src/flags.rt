//! Flags by key: none where there is no place for one.
ghost use Rattle.std.specs.Prelude.{◌≡◌, ◌≢◌, ◌≤◌, ◌^◌, ℕ, true, length, OnOk};
ghost use Rattle.pid_numbers.specs.Restore.{is_flagged};

use std::alloc::AllocError;

/// Sets the flag of a key. It takes one byte for each key up to the greatest.
pub fn set_flag(flags: &mut Vec<bool>, key: u32) -> Result<(), AllocError>
    ensures set { OnOk result (is_flagged flags.new.items key ≡ true) }
    ensures others { (k : ℕ) → k ≢ key → is_flagged flags.new.items k ≡ is_flagged flags.old.items k }
    ensures few { length flags.old.items ≤ 2 ^ 32 → length flags.new.items ≤ 2 ^ 32 }
{
    let place = key as usize;
    if place >= flags.len() {
        flags.resize(place.saturating_add(1), false)?;
    }
    if let Some(flag) = flags.get_mut(place) {
        *flag = true;
    }
    Ok(())
}

/// Whether the key has a flag.
pub fn has_flag(flags: &[bool], key: u32) -> bool
    ensures { result ≡ is_flagged flags.now key }
{
    match flags.get(key as usize) {
        Some(flag) => *flag,
        None => false,
    }
}
