//! A table without a history, for runs that hand out replies alone.
ghost use Rattle.std.specs.Prelude.{◌≡◌, IfOk};
ghost use Rattle.pid_types.specs.State.{root_state};

use pid_types::call::Call;
use pid_types::config::Config;
use pid_types::reply::{CallFault, Reply};
use script_session::session::Table;
use stamped_table::StampedTable;
use std::alloc::{AllocError, Global};

/// A table with the stamp of its next call, and the reply to the last one.
#[derive(Drop)]
pub struct ScriptTable {
    pub table: StampedTable,
    pub reply: Reply,
}

impl ScriptTable {
    /// The table with the root init alone.
    pub fn new(alloc: Global, config: &Config) -> Result<ScriptTable, AllocError>
        ensures { IfOk result (λ t.
            t.table ≡ record { state = root_state config.now.pid_max; stamp = config.now.first_stamp }) }
    {
        Ok(ScriptTable {
            table: StampedTable::new(alloc, config)?,
            reply: Reply::Done,
        })
    }
}

impl Table for ScriptTable {
    ghost use Rattle.std.specs.Prelude.{⊤, Some};
    ghost use Rattle.pid_types.specs.Step.{may_grow};

    ghost state = { λ t. t.table.state };

    ghost stamp = { λ t. t.table.stamp };

    ghost held = { λ t. Some t.reply };

    // Its calls are not told.
    ghost did = { λ _ _ _. ⊤ };

    ghost may_starve = { may_grow };

    ghost nothing = { λ _. tt };

    ghost more = { λ _ _ _ _ _ _ _. tt };

    #[inline(always)]
    fn act(&mut self, call: Call) -> Result<(), CallFault> {
        self.table.make(call, &mut self.reply)
    }

    #[inline(always)]
    fn reply(&self) -> Option<&Reply> {
        Some(&self.reply)
    }
}
