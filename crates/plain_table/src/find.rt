//! Tasks found, as copies that outlive a change of the table.
ghost use Rattle.std.specs.Prelude.{◌≡◌, option_copied};
ghost use Rattle.pid_types.specs.Threads.{caller_of, as_thread, process_at, process_numbered};

use crate::table::PlainTable;
use pid_types::plain::Row;

/// A copy, which needs no memory.
pub(crate) fn copy_row(row: &Row) -> Row
    ensures { result ≡ row.now }
{
    match row.clone() {
        Ok(copy) => copy,
        Err(_) => unreachable!(),
    }
}

/// A copy of the row that was found.
pub(crate) fn copy_found(found: Option<&Row>) -> Option<Row>
    ensures { result ≡ option_copied found.entry }
{
    match found {
        Some(row) => Some(copy_row(row)),
        None => None,
    }
}

impl PlainTable {
    /// The live process of which a running thread has the root number.
    pub(crate) fn find_caller(&self, number: u32) -> Option<Row>
        ensures { result ≡ caller_of self.now number }
    {
        copy_found(self.view().caller_of(number))
    }

    /// The process's row with what is the thread's own.
    pub(crate) fn as_thread(&self, number: u32, mut row: Row) -> Row
        ensures { result ≡ as_thread self.now number row }
    {
        self.view().as_thread(number, &mut row);
        row
    }

    /// The live process of which any thread has the root number, a first one that has left too.
    pub(crate) fn find_live(&self, number: u32) -> Option<Row>
        ensures { result ≡ process_at self.now number }
    {
        copy_found(self.view().process_at(number))
    }

    /// The process of which a thread has the number in the namespace, zombies among them.
    pub(crate) fn find_process(&self, space: u64, number: u32) -> Option<Row>
        ensures { result ≡ process_numbered self.now space number }
    {
        copy_found(self.view().process_numbered(space, number))
    }
}
