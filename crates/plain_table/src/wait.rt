//! Wait: `waitpid(2)` with `WNOHANG`. It looks through all tasks, and through the namespaces where
//! it reaps one. It takes no memory and never sleeps.
ghost use Rattle.std.specs.Prelude.{◌≡◌, ◌==◌, ◌&&◌, not, filter, length, option_copied, Some};
ghost use Rattle.{
  pid_types.specs.{Names.{is_parent as is_parent_of}, Wait.{is_selected as is_selected_of, matching, ended_children}},
  pid_types.specs.Wait.{least_row, end_of as end_of_row, without_row, wait as wait_of},
  plain_table.specs.Least.{lesser_of, is_ended_match},
};

use crate::edit::{AllBut, keep};
use crate::find::copy_found;
use crate::table::PlainTable;
use pid_types::call::Which;
use pid_types::plain::{Ended, Life, Row};
use pid_types::reply::{Refusal, Reply};
use plain_view::names::{is_live, is_parent, is_same};
use plain_view::view::View;

/// Whether the caller's wait selects the child.
fn is_selected(view: &View<'_>, caller: &Row, which: Which, row: &Row) -> bool
    ensures { result ≡ is_selected_of view.now caller.now which row.now }
{
    match which {
        Which::Any => true,
        Which::Pid(number) => view.is_numbered(&row.name, caller.name.space, number),
        Which::OwnGroup => is_same(&row.group, &caller.group),
        Which::Group(number) => view.is_numbered(&row.group, caller.name.space, number),
    }
}

/// Whether the row is a child that the caller's wait selects.
fn is_match(view: &View<'_>, caller: &Row, which: Which, row: &Row) -> bool
    ensures { result ≡ (is_parent_of caller.now.name row.now && is_selected_of view.now caller.now which row.now) }
{
    is_parent(&caller.name, row) && is_selected(view, caller, which, row)
}

/// Whether the row is such a child that has ended.
fn is_ended_match(view: &View<'_>, caller: &Row, which: Which, row: &Row) -> bool
    ensures { result ≡ is_ended_match view.now caller.now which row.now }
{
    is_match(view, caller, which, row) && !is_live(row)
}

/// How a task ended.
fn end_of(row: &Row) -> Ended
    ensures { result ≡ end_of_row row.now }
{
    match row.life {
        // Asked of no live task. The model's definition answers so, and this is that definition.
        Life::Live => Ended::Killed,
        Life::Zombie(ended) => ended,
    }
}

impl PlainTable {
    /// How many of the caller's children its wait selects.
    #[tactic(auto, unfolding(pid_types::specs::Wait::matching))]
    fn count_matching(&self, caller: &Row, which: Which) -> usize
        ensures { result ≡ length (matching self.now caller.now which) }
    {
        let view = self.view();
        self.rows
            .iter()
            .filter(|row| is_match(&view, caller, which, row))
            .count()
    }

    /// Of the selected children that have ended, the one with the least number.
    fn ended_child(&self, caller: &Row, which: Which) -> Option<Row>
        ensures { result ≡ least_row self.now caller.now.name.space (ended_children self.now caller.now which) }
    {
        let view = self.view();
        let space = caller.name.space;
        let mut least: Option<&Row> = None;
        for row in &self.rows {
            if is_ended_match(&view, caller, which, row) {
                least = lesser(&view, space, least, row);
            }
        }
        copy_found(least)
    }

    /// Reaps the row.
    #[tactic(auto, unfolding(pid_types::specs::Wait::without_row))]
    fn remove_row(&mut self, gone: &Row)
        ensures { self.new ≡ without_row self.old gone.now }
    {
        keep(&mut self.rows, &AllBut(&gone.name));
    }

    /// `waitpid(2)` with `WNOHANG`: reaps the selected child with the least number that has ended.
    #[tactic(auto, unfolding(pid_types::specs::Wait::wait))]
    pub fn wait(&mut self, caller: u32, which: Which) -> Reply
        ensures state { self.new ≡ (wait_of self.old caller which).state }
        ensures reply { result ≡ (wait_of self.old caller which).reply }
    {
        let Some(row) = self.find_caller(caller) else {
            return Reply::Refused(Refusal::NoCaller);
        };
        if self.count_matching(&row, which) == 0 {
            return Reply::Refused(Refusal::NoChild);
        }
        let Some(child) = self.ended_child(&row, which) else {
            return Reply::NoneYet;
        };
        let number = self.view().number_or_zero(&child.name, row.name.space);
        let ended = end_of(&child);
        self.remove_row(&child);
        self.sweep();
        Reply::Reaped {
            child: number,
            ended,
        }
    }
}

/// The row with the lesser number in the namespace, the first one where they are equal.
fn lesser<'a>(view: &View<'_>, space: u64, least: Option<&'a Row>, row: &'a Row) -> Option<&'a Row>
    ensures { option_copied result ≡ Some (lesser_of view.now space (option_copied least.entry) row.now) }
{
    match least {
        Some(other)
            if view.number_or_zero(&other.name, space) <= view.number_or_zero(&row.name, space) => {
            Some(other)
        }
        _ => Some(row),
    }
}
