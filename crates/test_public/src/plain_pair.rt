//! The fast table and the plain one, which are told the same calls: each reply and each snapshot is compared.

ghost use Rattle.std.specs.Prelude.{◌≡◌, ◌+◌, ◌↔◌, OnOk, IfOk, IsTrue, Err};
ghost use Rattle.test_public.specs.Two.{ShowSame};
ghost use Rattle.pid_types.specs.{declared.reply.Reply.{Reply}, Shown.{Shows}, State.{root_state}, Step.{step}};

use model_laws::soundness::{root_state_is_sound, soundness_is_kept};
use pid_table::PidTable;
use pid_types::call::Call;
use pid_types::config::Config;
use pid_types::plain::Plain;
use pid_types::reply::Reply;
use plain_table::table::PlainTable;
use std::alloc::{AllocError, Global};
use std::marker::Model;

/// Why a call on both tables has no reply, or why they are not one.
#[derive(Debug, Drop)]
pub enum Fault {
    /// The tables answer a call otherwise than one another.
    Replies { fast: Reply, plain: Reply },
    /// Each answered as many calls alike, and yet what they show is not the same.
    States,
    /// The stamps are used up.
    Spent,
    /// There was no memory.
    NoMemory,
}

impl From<AllocError> for Fault {
    ghost use Rattle.std.specs.Prelude.{◌≡◌};
    ghost use Rattle.test_public.specs.declared.plain_pair.Fault.TheVariants.{NoMemory};

    ghost from_gives = { λ _ fault. fault ≡ NoMemory };

    fn from(_refused: AllocError) -> Fault {
        Fault::NoMemory
    }
}

/// Both tables, and the stamp of the next call. Contracts see the two states and the stamp.
#[derive(Drop)]
pub struct Pair {
    fast: PidTable,
    plain: PlainTable,
    stamp: u64,
}

impl Model for Pair {
    ghost use Rattle.pid_types.specs.Sound.{IsSound, IsBelow};
    ghost use Rattle.test_public.specs.Two.{Two};

    ghost Value = { Two };

    ghost view = { λ p. record { fast = p.fast; plain = p.plain; stamp = p.stamp } };

    ghost invariant = { λ p. IsSound p.fast × IsBelow p.stamp p.fast };
}

impl Pair {
    /// Both tables as they begin. The error is want of memory.
    pub fn new(alloc: Global, config: &Config) -> Result<Pair, AllocError>
        ensures { IfOk result (λ pair. pair ≡ record {
          fast = root_state config.now.pid_max;
          plain = root_state config.now.pid_max;
          stamp = config.now.first_stamp;
        }) }
    {
        root_state_is_sound();
        prove!(config.pid_max() >= 301 && config.pid_max() <= 4_194_304);
        Ok(Pair {
            fast: PidTable::new(alloc, config)?,
            plain: PlainTable::new(alloc, config)?,
            stamp: config.first_stamp(),
        })
    }

    /// Makes the call on both tables, and answers what both do. After an error the tables may be two
    /// states, so the pair is of no more use.
    pub fn make(&mut self, call: Call) -> Result<Reply, Fault>
        ensures fast { IfOk result (λ reply. record { state = self.new.fast; reply = reply }
            ≡ step self.old.fast self.old.stamp call) }
        ensures plain { IfOk result (λ reply. record { state = self.new.plain; reply = reply }
            ≡ step self.old.plain self.old.stamp call) }
        ensures stamp { OnOk result (self.new.stamp ≡ self.old.stamp + 1) }
        ensures replies { (fast plain : Reply) → result ≡ Err (Fault.Replies fast plain)
            → self.old.fast ≡ self.old.plain → ⊥ }
    {
        let Some(next) = self.stamp.checked_add(1) else {
            return Err(Fault::Spent);
        };
        soundness_is_kept();
        let plain = self.plain.step(self.stamp, call)?;
        let mut fast = Reply::Done;
        self.fast.step(self.stamp, call, &mut fast)?;
        self.stamp = next;
        if !is_one(&fast, &plain) {
            return Err(Fault::Replies { fast, plain });
        }
        Ok(plain)
    }

    /// What both tables show. The error is that they show two states, or want of memory.
    #[tactic(auto, using(crate::proofs::Same::of_both, crate::proofs::Same::alike, crate::proofs::Same::threadless))]
    pub fn snapshot(&self) -> Result<Plain, Fault>
        ensures plain { IfOk result (Shows self.now.plain) }
        ensures fast { IfOk result (Shows self.now.fast) }
        ensures states { result ≡ Err Fault.States → self.now.fast ≡ self.now.plain → ⊥ }
    {
        let fast = self.fast.snapshot()?;
        let Some(plain) = self.plain.snapshot()? else {
            return Err(Fault::States);
        };
        if !is_same(&fast, &plain) {
            return Err(Fault::States);
        }
        Ok(plain)
    }
}

/// Whether two replies are one.
fn is_one(fast: &Reply, plain: &Reply) -> bool
    ensures { IsTrue result ↔ (fast.now ≡ plain.now) }
{
    fast == plain
}

/// Whether two snapshots have the same tasks.
fn have_same_rows(a: &Plain, b: &Plain) -> bool
    ensures { IsTrue result ↔ (a.now.rows.items ≡ b.now.rows.items) }
{
    a.rows == b.rows
}

/// Whether two snapshots have the same namespaces.
fn have_same_spaces(a: &Plain, b: &Plain) -> bool
    ensures { IsTrue result ↔ (a.now.spaces.items ≡ b.now.spaces.items) }
{
    a.spaces == b.spaces
}

/// Whether two snapshots have the same control groups, with the same counts.
fn have_same_controls(a: &Plain, b: &Plain) -> bool
    ensures { IsTrue result ↔ (a.now.controls.items ≡ b.now.controls.items) }
{
    a.controls == b.controls
}

/// Whether two snapshots show the same.
fn is_same(a: &Plain, b: &Plain) -> bool
    ensures { IsTrue result ↔ ShowSame a.now b.now }
{
    a.pid_max == b.pid_max
        && have_same_rows(a, b)
        && have_same_spaces(a, b)
        && have_same_controls(a, b)
}
