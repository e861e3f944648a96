//! Which numbers are in use, and which comes next: the cyclic draw of the kernel's
//! `idr_alloc_cyclic`. Whether a number is in use is asked of each thread's name and of each
//! task's three names, so a draw costs the tasks and threads times the numbers that it tries.
ghost use Rattle.std.specs.Prelude.{◌≡◌, ◌<◌, ◌+◌, ◌^◌, ◌==◌, IfSome, is_none, nat_lt, length};
ghost use Rattle.std.specs.Prelude.{Some, None, if◌then◌else◌};
ghost use Rattle.std.specs.List.{list_any, list_all};
ghost use Rattle.{
  pid_types.specs.{Chains.{contains}, Names.{taken, number as number_of, is_numbered}},
  pid_types.specs.Draw.{least_free, restart as restart_of, draw as draw_of, cursor_of},
  pid_types.specs.Outcome.{is_dead as is_dead_of},
  plain_view.specs.Uses.{uses_number, uses_none},
};

use crate::view::View;
use pid_types::plain::{Row, Space};

/// Where a draw starts again.
fn restart(cursor: u32) -> u32
    ensures { result ≡ restart_of cursor }
{
    if cursor > 300 { 300 } else { 1 }
}

impl View<'_> {
    /// Whether the row's task, group or session has the number in the namespace.
    fn uses_number(&self, row: &Row, space: u64, number: u32) -> bool
        ensures { result ≡ uses_number self.now.spaces space number row.now }
    {
        self.is_numbered(&row.name, space, number)
            || self.is_numbered(&row.group, space, number)
            || self.is_numbered(&row.session, space, number)
    }

    /// Whether none of the row's task, group and session has a number in the namespace.
    fn uses_none(&self, row: &Row, space: u64) -> bool
        ensures { result ≡ uses_none self.now.spaces space row.now }
    {
        self.number(&row.name, space).is_none()
            && self.number(&row.group, space).is_none()
            && self.number(&row.session, space).is_none()
    }

    fn some_thread_has(&self, space: u64, number: u32) -> bool
        ensures { result ≡ list_any (λ t. is_numbered self.now.spaces t.name space number) self.now.threads }
    {
        self.threads
            .iter()
            .any(|t| self.is_numbered(&t.name, space, number))
    }

    fn no_thread_has(&self, space: u64) -> bool
        ensures { result ≡ list_all (λ t. is_none (number_of self.now.spaces t.name space)) self.now.threads }
    {
        self.threads
            .iter()
            .all(|t| self.number(&t.name, space).is_none())
    }

    fn some_row_uses(&self, space: u64, number: u32) -> bool
        ensures { result ≡ list_any (uses_number self.now.spaces space number) self.now.rows }
    {
        self.rows
            .iter()
            .any(|row| self.uses_number(row, space, number))
    }

    fn all_rows_use_none(&self, space: u64) -> bool
        ensures { result ≡ list_all (uses_none self.now.spaces space) self.now.rows }
    {
        self.rows.iter().all(|row| self.uses_none(row, space))
    }

    /// Whether the number is in use in the namespace, as thread, task, group or session.
    pub fn is_taken(&self, space: u64, number: u32) -> bool
        ensures { result ≡ contains (taken self.now space) number }
    {
        self.some_thread_has(space, number) || self.some_row_uses(space, number)
    }

    /// Whether no number is in use in the namespace.
    pub fn is_unused(&self, space: u64) -> bool
        ensures { result ≡ (length (taken self.now space) == 0) }
    {
        self.no_thread_has(space) && self.all_rows_use_none(space)
    }

    /// Whether the namespace has fallen and nothing has a number in it any more.
    pub fn is_dead(&self, space: &Space) -> bool
        ensures { result ≡ is_dead_of self.now space.now }
    {
        space.fallen && self.is_unused(space.id)
    }

    /// The least number from the given one on that is below the bound and not in use.
    fn find_free(&self, space: u64, from: u32) -> Option<u32>
        ensures value { result ≡ (if nat_lt (least_free (taken self.now space) from) self.now.pid_max
            then Some (least_free (taken self.now space) from) else None) }
        ensures below { IfSome result (λ n. n < self.now.pid_max) }
        ensures fits { IfSome result (λ n. n + 1 < 2 ^ 32) }
    {
        for number in from..self.pid_max {
            if !self.is_taken(space, number) {
                return Some(number);
            }
        }
        None
    }

    /// The cursor of the namespace, 0 where there is none.
    fn cursor(&self, space: u64) -> u32
        ensures { result ≡ cursor_of self.now space }
    {
        self.find_space(space).map_or(0, |s| s.cursor)
    }

    /// The number that the namespace gives next.
    pub fn draw(&self, space: u64) -> Option<u32>
        ensures value { result ≡ draw_of self.now space }
        ensures below { IfSome result (λ n. n < self.now.pid_max) }
        ensures fits { IfSome result (λ n. n + 1 < 2 ^ 32) }
    {
        let cursor = self.cursor(space);
        let low = restart(cursor);
        match self.find_free(space, cursor.max(low)) {
            Some(number) => Some(number),
            None => self.find_free(space, low),
        }
    }
}
