//! A record for one worker, as a [`Table`] that answers one call after another. There is no lock.
ghost use Rattle.std.specs.Prelude.{◌≡◌, false, [], IfOk};
ghost use Rattle.kept_table.specs.Chronicle.{next_stamp};
ghost use Rattle.pid_types.specs.State.{root_state};

use locked_table::{Record, Seat};
use pid_types::call::Call;
use pid_types::config::Config;
use pid_types::reply::{CallFault, Reply};
use script_session::session::Table;
use std::alloc::{AllocError, Global};
use std::sync::ledger::{Blank, Ledger};

/// A record and its one seat, and the reply to the last call.
#[derive(Drop)]
pub struct OneSeat<L: Ledger> {
    pub record: Record<L, 1>,
    pub seat: Seat<L, 1>,
    pub reply: Reply,
}

impl<L: Ledger> OneSeat<L> {
    /// The table with the root init alone.
    pub fn new(alloc: Global, blank: Blank, config: &Config) -> Result<OneSeat<L>, AllocError>
        requires name { blank.name ≡ L.name }
        requires parts { (blank.parts ≡ L.parts) × (L.parts ≡ 1) }
        ensures present { IfOk result (λ t. t.record.present ≡ root_state config.now.pid_max) }
        ensures stamp { IfOk result (λ t. next_stamp t.record ≡ config.now.first_stamp) }
        ensures config { IfOk result (λ t. t.record.config ≡ config.now) }
        ensures fresh { IfOk result (λ t. t.record.is_resumed ≡ false) }
        ensures whole { IfOk result (λ t. t.record.first_kept ≡ 0) }
        ensures entries { IfOk result (λ t. t.record.entries ≡ []) }
    {
        let (record, seats) = Record::<L, 1>::new(alloc, blank, config)?;
        let mut seats = seats;
        let Some(seat) = seats.pop() else {
            unreachable!()
        };
        Ok(OneSeat {
            record,
            seat,
            reply: Reply::Done,
        })
    }
}

impl<L: Ledger> Table for OneSeat<L> {
    ghost use Rattle.std.specs.Prelude.{◌++◌, Some};
    ghost use Rattle.{
      kept_table.specs.Chronicle.{next_stamp},
      script_session.specs.Session.{any_call},
      pid_workers.specs.{Made.{MakesCalls}, MadeLaws.{makes_nothing, makes_more}},
    };

    ghost state = { λ t. t.record.present };

    ghost stamp = { λ t. next_stamp t.record };

    ghost held = { λ t. Some t.reply };

    ghost did = { λ a b calls. MakesCalls a.record b.record calls };

    // Each call has an entry, which needs memory.
    ghost may_starve = { any_call };

    ghost nothing = { λ a. makes_nothing a.record };

    ghost more = { λ a b c xs ys. makes_more a.record b.record c.record xs ys };

    #[inline(always)]
    fn act(&mut self, call: Call) -> Result<(), CallFault> {
        self.record.make_call(&mut self.seat, call)?;
        let Some(reply) = self.record.last_reply() else {
            unreachable!()
        };
        self.reply = reply;
        Ok(())
    }

    #[inline(always)]
    fn reply(&self) -> Option<&Reply> {
        Some(&self.reply)
    }
}
