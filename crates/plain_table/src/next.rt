//! The next number in use, or of a thread, found by a look at each task or thread.
ghost use Rattle.std.specs.Prelude.{◌≡◌, nat_le, filter, filter_map};
ghost use Rattle.pid_types.specs.{Chains.{least_of}, Names.{number}};
ghost use Rattle.pid_types.specs.Queries.{name_by as name_of, numbers_by, next as next_of};
ghost use Rattle.pid_types.specs.Queries.{next_thread as next_thread_of};
ghost use Rattle.plain_table.specs.Least.{lesser_number as lesser_number_of, number_from, thread_from};

use crate::table::PlainTable;
use pid_types::call::Kind;
use pid_types::plain::{Name, Row, Thread};
use pid_types::reply::{Refusal, Reply};
use plain_view::view::View;

/// What the row is named by, as the kind says.
fn name_by(kind: Kind, row: &Row) -> &Name
    ensures { result.now ≡ name_of kind row.now }
{
    match kind {
        Kind::Task => &row.name,
        Kind::Group => &row.group,
        Kind::Session => &row.session,
    }
}

/// The row's number in the namespace, if it is not below the given one.
fn number_at_or_above(view: &View<'_>, kind: Kind, space: u64, from: u32, row: &Row) -> Option<u32>
    ensures { result ≡ number_from view.now kind space from row.now }
{
    match view.number(name_by(kind, row), space) {
        Some(number) if from <= number => Some(number),
        _ => None,
    }
}

/// The lesser of the number found before, if there is one, and this one.
fn lesser_number(least: Option<u32>, number: u32) -> u32
    ensures { result ≡ lesser_number_of least number }
{
    match least {
        Some(other) if other <= number => other,
        _ => number,
    }
}

/// The thread's number in the namespace, if it is not below the given one.
fn thread_at_or_above(view: &View<'_>, space: u64, from: u32, thread: &Thread) -> Option<u32>
    ensures { result ≡ thread_from view.now space from thread.now }
{
    match view.number(&thread.name, space) {
        Some(number) if from <= number => Some(number),
        _ => None,
    }
}

impl PlainTable {
    /// The least number from the given one on that is in use as the kind in the namespace.
    fn least_number(&self, kind: Kind, space: u64, from: u32) -> Option<u32>
        ensures { result ≡ least_of (filter (nat_le from) (numbers_by self.now kind space)) }
    {
        let view = self.view();
        let mut least = None;
        for row in &self.rows {
            if let Some(number) = number_at_or_above(&view, kind, space, from, row) {
                least = Some(lesser_number(least, number));
            }
        }
        least
    }

    /// The least number from the given one on that is in use as the kind, in the caller's
    /// namespace.
    #[tactic(auto, unfolding(pid_types::specs::Queries::next))]
    pub fn next(&self, caller: u32, kind: Kind, from: u32) -> Reply
        ensures { result ≡ next_of self.now caller kind from }
    {
        let Some(row) = self.find_caller(caller) else {
            return Reply::Refused(Refusal::NoCaller);
        };
        match self.least_number(kind, row.name.space, from) {
            Some(number) => Reply::Number(number),
            None => Reply::End,
        }
    }

    /// The least number from the given one on that a thread beside first ones has in the namespace.
    fn least_thread(&self, space: u64, from: u32) -> Option<u32>
        ensures { result ≡ least_of (filter (nat_le from)
            (filter_map (λ t. number self.now.spaces t.name space) self.now.threads)) }
    {
        let view = self.view();
        let mut least = None;
        for thread in &self.threads {
            if let Some(number) = thread_at_or_above(&view, space, from, thread) {
                least = Some(lesser_number(least, number));
            }
        }
        least
    }

    /// The least number from the given one on that a thread beside first ones has, in the caller's
    /// namespace.
    #[tactic(auto, unfolding(pid_types::specs::Queries::next_thread))]
    pub fn next_thread(&self, caller: u32, from: u32) -> Reply
        ensures { result ≡ next_thread_of self.now caller from }
    {
        let Some(row) = self.find_caller(caller) else {
            return Reply::Refused(Refusal::NoCaller);
        };
        match self.least_thread(row.name.space, from) {
            Some(number) => Reply::Number(number),
            None => Reply::End,
        }
    }
}
