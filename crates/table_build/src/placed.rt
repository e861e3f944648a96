//! Which tasks were placed in a store that is made of a text.
ghost use Rattle.std.specs.Prelude.{◌≡◌, ◌≢◌, ◌++◌, ◌∷◌, [], ℕ, true, OnOk};
ghost use Rattle.table_build.specs.Lines.{KeepsLists, is_held};

use crate::flags::{has_flag, set_flag};
use pid_types::keys::TaskKey;
use std::alloc::{AllocError, Global};

/// The tasks of the lines, and the placeholders: tasks that only bear the name of a group or a session, and go again.
#[derive(Drop)]
pub struct Placed {
    /// The key of each line's task.
    pub keys: Vec<TaskKey>,
    /// The key of who bears the name of each line's group.
    pub groups: Vec<TaskKey>,
    /// At each key whether its task is a placeholder.
    pub placeholders: Vec<bool>,
}

impl Placed {
    /// Nobody.
    pub fn new(alloc: Global) -> Placed
        ensures keys { result.keys.items ≡ [] }
        ensures groups { result.groups.items ≡ [] }
        ensures placeholders { result.placeholders.items ≡ [] }
    {
        Placed {
            keys: Vec::new(alloc),
            groups: Vec::new(alloc),
            placeholders: Vec::new(alloc),
        }
    }

    /// The task of the next line.
    pub fn add_key(&mut self, key: TaskKey) -> Result<(), AllocError>
        ensures keys { OnOk result (self.new.keys.items ≡ self.old.keys.items ++ key ∷ []) }
        ensures groups { self.new.groups ≡ self.old.groups }
        ensures placeholders { self.new.placeholders ≡ self.old.placeholders }
    {
        match self.keys.push(key) {
            Ok(()) => Ok(()),
            Err(_) => Err(AllocError),
        }
    }

    /// Who bears the name of the next line's group.
    pub fn add_group(&mut self, key: TaskKey) -> Result<(), AllocError>
        ensures groups { OnOk result (self.new.groups.items ≡ self.old.groups.items ++ key ∷ []) }
        ensures keys { self.new.keys ≡ self.old.keys }
        ensures placeholders { self.new.placeholders ≡ self.old.placeholders }
    {
        match self.groups.push(key) {
            Ok(()) => Ok(()),
            Err(_) => Err(AllocError),
        }
    }

    /// A task is a placeholder.
    pub fn add_placeholder(&mut self, key: TaskKey) -> Result<(), AllocError>
        ensures held { OnOk result (is_held self.new key ≡ true) }
        ensures others { (k : ℕ) → k ≢ key → is_held self.new k ≡ is_held self.old k }
        ensures lists { KeepsLists self.old self.new }
    {
        set_flag(&mut self.placeholders, key)
    }

    /// Whether the task is a placeholder.
    pub fn is_placeholder(&self, key: TaskKey) -> bool
        ensures { result ≡ is_held self.now key }
    {
        has_flag(&self.placeholders, key)
    }
}
