//! The state that a record's kept history begins in.
ghost use Rattle.std.specs.Prelude.{◌≡◌, IfOk, OnOk, OnErr, IsTrue, true, false};
ghost use Rattle.pid_types.specs.{Shown.{Shows}, Sound.{IsBelow}, State.{root_state}, Step.{step}};
ghost use Rattle.kept_past.specs.{Opening.{held_in, state_shown, IsHeldWell}, Past.{starves_at}};

use model_laws::laws::nothing_changes;
use pid_table::{PidTable, is_query};
use pid_types::call::Call;
use pid_types::config::Config;
use pid_types::plain::Plain;
use pid_types::reply::Reply;
use std::alloc::{AllocError, Global};
use std::marker::Model;

/// What a state is held in.
#[derive(Drop)]
pub(crate) enum Form {
    /// The root init's state: a table is made of it when the first call is made on it.
    Root(Config),
    /// A table, on which calls are made.
    Table(PidTable),
    /// A snapshot, on which no call is made.
    Fixed(Plain),
}

/// The state before the kept entries. Contracts see that state, and whether no call can be made on it.
#[derive(Drop)]
pub(crate) struct Opening {
    form: Form,
}

impl Model for Opening {
    ghost use Rattle.kept_past.specs.Opening.{Held, held_in, IsHeldWell};

    ghost Value = { Held };

    ghost view = { λ a. held_in a.form };

    ghost invariant = { λ a. IsHeldWell a.form };
}

impl Opening {
    /// The state with the root init alone. It takes no memory.
    pub(crate) fn root(config: Config) -> Opening
        ensures { result ≡ record { state = root_state config.pid_max; is_fixed = false; is_new = true } }
    {
        Opening {
            form: Form::Root(config),
        }
    }

    /// The state of a table that is given.
    pub(crate) fn table(table: PidTable) -> Opening
        ensures { result ≡ record { state = table; is_fixed = false; is_new = false } }
    {
        Opening {
            form: Form::Table(table),
        }
    }

    /// The table's present state, as a snapshot. The error is want of memory.
    pub(crate) fn copy(table: &PidTable) -> Result<Opening, AllocError>
        ensures { IfOk result (λ opening. opening ≡ record { state = table.now; is_fixed = true; is_new = false }) }
    {
        let plain = table.snapshot()?;
        Ok(Opening {
            form: Form::Fixed(plain),
        })
    }

    /// Whether no call can be made on it.
    pub(crate) fn is_fixed(&self) -> bool
        ensures { result ≡ self.now.is_fixed }
    {
        matches!(self.form, Form::Fixed(_))
    }

    /// A copy of the state. The error is want of memory.
    pub(crate) fn snapshot(&self, alloc: Global) -> Result<Plain, AllocError>
        ensures { IfOk result (Shows self.now.state) }
    {
        match &self.form {
            Form::Root(config) => PidTable::new(alloc, config)?.snapshot(),
            Form::Table(table) => table.snapshot(),
            Form::Fixed(plain) => copy_plain(plain),
        }
    }

    /// Makes a call on it, of which nobody asks the reply: so of a query there is nothing to make. The error is want of
    /// memory.
    pub(crate) fn make(&mut self, alloc: Global, stamp: u64, call: Call) -> Result<(), AllocError>
        requires below { IsBelow stamp self.old.state }
        requires moves { self.old.is_fixed ≡ false }
        ensures ok { OnOk result (self.new ≡ record self.old {
          state = (step self.old.state stamp call).state;
          is_new = self.new.is_new;
        }) }
        ensures err { OnErr result (self.new ≡ self.old) }
        ensures starves { OnErr result (IsTrue (starves_at self.old call)) }
    {
        nothing_changes();
        if is_query(&call) {
            return Ok(());
        }
        make_in(&mut self.form, alloc, stamp, call)
    }
}

/// A copy of a snapshot. The error is want of memory.
fn copy_plain(plain: &Plain) -> Result<Plain, AllocError>
    requires { Shows (state_shown plain.now) plain.now }
    ensures { IfOk result (Shows (state_shown plain.now)) }
{
    Ok(Plain {
        pid_max: plain.pid_max,
        rows: plain.rows.clone()?,
        spaces: plain.spaces.clone()?,
        controls: plain.controls.clone()?,
    })
}

/// Makes a call on a state in its form. The root init's state becomes a table by it. The error is want of memory.
fn make_in(form: &mut Form, alloc: Global, stamp: u64, call: Call) -> Result<(), AllocError>
    requires below { IsBelow stamp (held_in form.old).state }
    requires moves { (held_in form.old).is_fixed ≡ false }
    requires well { IsHeldWell form.old }
    ensures ok { OnOk result (held_in form.new ≡ record (held_in form.old) {
      state = (step (held_in form.old).state stamp call).state;
      is_new = (held_in form.new).is_new;
    }) }
    ensures err { OnErr result (held_in form.new ≡ held_in form.old) }
    ensures starves { OnErr result (IsTrue (starves_at (held_in form.old) call)) }
    ensures well { IsHeldWell form.new }
{
    let mut reply = Reply::Done;
    match form {
        Form::Table(table) => table.step(stamp, call, &mut reply),
        Form::Root(config) => {
            let mut table = PidTable::new(alloc, config)?;
            table.step(stamp, call, &mut reply)?;
            *form = Form::Table(table);
            Ok(())
        }
        Form::Fixed(_) => unreachable!(),
    }
}
