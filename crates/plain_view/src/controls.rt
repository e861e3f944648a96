//! Control groups, and how many tasks they hold. A count is added up anew each time, over all
//! tasks.
ghost use Rattle.std.specs.Prelude.{◌≡◌, ◌<◌, ◌+◌, ◌^◌, filter, length, option_copied};
ghost use Rattle.{
  pid_types.specs.Controls.{control_at, parent_control as parent_of, control_path as path_of, is_below as is_below_of},
  pid_types.specs.Controls.{count as count_of, is_limited_below as is_limited_below_of},
  pid_types.specs.Controls.{passed_limit as passed_limit_of},
};

use crate::view::View;
use arrayvec::ArrayVec;
use pid_types::plain::Control;

impl View<'_> {
    /// The control group with the id.
    pub fn find_control(&self, id: u64) -> Option<&Control>
        ensures { option_copied result ≡ control_at self.now.controls id }
    {
        self.controls.iter().find(|c| c.id == id)
    }

    /// The id of the control group that the control group is in.
    pub fn parent_control(&self, id: u64) -> Option<u64>
        ensures { result ≡ parent_of self.now.controls id }
    {
        self.find_control(id).and_then(|c| c.parent)
    }

    /// The control group and those above it, nearest first.
    pub fn control_path(&self, id: u64) -> ArrayVec<u64, 65>
        ensures { result.items ≡ path_of self.now.controls id }
    {
        let mut path = ArrayVec::new();
        let mut next = Some(id);
        for _ in 0..65usize {
            let Some(at) = next else { return path };
            path.push(at);
            next = self.parent_control(at);
        }
        path
    }

    /// Whether `above` is the control group with the id, or above it.
    pub fn is_below(&self, id: u64, above: u64) -> bool
        ensures { result ≡ is_below_of self.now.controls id above }
    {
        self.control_path(id).contains(&above)
    }

    fn count_threads(&self, id: u64) -> u64
        ensures value { result ≡ length (filter (λ t. is_below_of self.now.controls t.home id) self.now.threads) }
        ensures small { result < 2 ^ 63 }
    {
        self.threads
            .iter()
            .filter(|t| self.is_below(t.home, id))
            .count() as u64
    }

    fn count_rows(&self, id: u64) -> u64
        ensures value { result ≡ length (filter (λ row. is_below_of self.now.controls row.home id) self.now.rows) }
        ensures small { result < 2 ^ 63 }
    {
        self.rows
            .iter()
            .filter(|row| self.is_below(row.home, id))
            .count() as u64
    }

    /// How many tasks the control group and those below it have, threads among them.
    #[tactic(auto, unfolding(pid_types::specs::Controls::count))]
    pub fn count(&self, id: u64) -> u64
        ensures value { result ≡ count_of self.now id }
        ensures small { result + 1 < 2 ^ 64 }
    {
        self.count_threads(id) + self.count_rows(id)
    }

    /// Whether the control group has a limit below the number.
    fn is_limited_below(&self, number: u64, id: u64) -> bool
        ensures { result ≡ is_limited_below_of self.now number id }
    {
        self.find_control(id)
            .and_then(|c| c.limit)
            .map_or(false, |limit| u64::from(limit) < number)
    }

    /// The nearest control group, from the home up, whose limit one more task would pass.
    #[tactic(auto, unfolding(pid_types::specs::Controls::passed_limit))]
    pub fn passed_limit(&self, home: u64) -> Option<u64>
        ensures { result ≡ passed_limit_of self.now home }
    {
        self.control_path(home)
            .iter()
            .copied()
            .find(|id| self.is_limited_below(self.count(*id) + 1, *id))
    }
}
