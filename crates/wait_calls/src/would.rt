//! The reply that a wait would get.
ghost use Rattle.std.specs.Prelude.{◌≡◌};
ghost use Rattle.pid_types.specs.{Short.{reply_of}, Wait.{wait as wait_of}};
ghost use Rattle.thread_view.specs.{Calling.{IsWholeWithThreads}, Full.{full_state}};

use crate::selection::Choice;
use crate::{choose_child, end_of_life};
use pid_types::call::Which;
use pid_types::keys::Pid;
use pid_types::reply::{Refusal, ShortReply};
use task_table::Tasks;
use thread_view::find_live;

/// The reply that [`wait`](crate::wait) would get. It changes nothing: `waitid(2)` with `WNOWAIT`.
#[tactic(auto, unfolding(pid_types::specs::Wait::wait))]
pub fn would_wait(store: &Tasks, caller: Pid, which: Which) -> ShortReply
    requires { IsWholeWithThreads store.now }
    ensures { reply_of result ≡ (wait_of (full_state store.now) caller which).reply }
{
    let Some(found) = find_live(store, caller) else {
        return ShortReply::Refused(Refusal::NoCaller);
    };
    match choose_child(store, &found, which) {
        Choice::NoChild => ShortReply::Refused(Refusal::NoChild),
        Choice::NoneEnded => ShortReply::NoneYet,
        Choice::Ended { child, rank } => {
            let Some(task) = store.tree().task(child) else {
                unreachable!();
            };
            ShortReply::Reaped {
                child: rank,
                ended: end_of_life(task.life),
            }
        }
    }
}
