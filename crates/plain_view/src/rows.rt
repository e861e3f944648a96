//! The tasks that a number names.
ghost use Rattle.std.specs.Prelude.{◌≡◌, option_copied};
ghost use Rattle.pid_types.specs.Names.{row_at as row_with, task_numbered};
ghost use Rattle.pid_types.specs.Names.{is_member as is_member_of};

use crate::names::root_number;
use crate::view::View;
use pid_types::plain::Row;

impl View<'_> {
    /// The task with the root number, zombies among them.
    pub fn row_at(&self, number: u32) -> Option<&Row>
        ensures { option_copied result ≡ row_with self.now.rows number }
    {
        self.rows
            .iter()
            .find(|row| root_number(&row.name) == number)
    }

    /// The task with the number in the namespace, zombies among them.
    #[tactic(auto, unfolding(pid_types::specs::Names::task_numbered))]
    pub fn task_at(&self, space: u64, number: u32) -> Option<&Row>
        ensures { option_copied result ≡ task_numbered self.now space number }
    {
        self.rows
            .iter()
            .find(|row| self.is_numbered(&row.name, space, number))
    }

    /// Whether the task is visible in the namespace.
    pub fn is_member(&self, space: u64, row: &Row) -> bool
        ensures { result ≡ is_member_of self.now.spaces space row.now }
    {
        self.number(&row.name, space).is_some()
    }
}
