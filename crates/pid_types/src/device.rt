//! Where scripts come from and where answers go.
ghost use Rattle.std.specs.Prelude.{◌≡◌, ◌↔◌, ◌<◌, ◌≤◌, ◌++◌, Bool, false, Option, List, [], ◌∷◌, ℕ, length, IfOk};
ghost use Rattle.std.specs.Prelude.{OnOk, OnErr, IsTrue};
ghost use Rattle.std.specs.Io.KnownBytes.{Appends, Consumes, ReadConsumes, WriteAppends};
ghost use Rattle.pid_types.specs.Devices.{AreWell, Event, heard, reading, readings, said, writing};

use std::io::{Read, Write};
use thiserror::Error;

/// A device that failed to read or to write.
#[derive(Clone, Copy, Debug, PartialEq, Eq, Error)]
#[error("device fault")]
pub struct DeviceFault;

/// A reader of bytes that remembers whether it has failed.
pub trait Source {
    // The bytes that are still to be read, where they are known.
    ghost remaining: { Self → Option (List ℕ) };
    // Whether a read has failed.
    ghost has_failed: { Self → Bool };
    // What was done with it between two moments.
    ghost did: { Self → Self → List Event → Type 0 };

    /// Reads into the front of the buffer. `Ok(n)` gives the next `n` bytes; `Ok(0)` into a buffer
    /// that is not empty is the end. A fault moves no byte.
    fn read(&mut self, buffer: &mut [u8]) -> Result<usize, DeviceFault>
        ensures bound { IfOk result (λ n. n ≤ length buffer.new) }
        ensures bytes { ReadConsumes (remaining self.old) (remaining self.new) result buffer.new }
        ensures event { did self.old self.new (reading (length buffer.old) result buffer.new ∷ []) }
        ensures unchanged { OnOk result (has_failed self.new ≡ has_failed self.old) }
        ensures fails { OnErr result (IsTrue (has_failed self.new)) };

    /// Whether a read has failed.
    fn failed(&self) -> bool
        ensures { result ≡ has_failed self.now };

    ghost nothing: { (a : Self) → did a a [] };

    ghost more: { (a b c : Self) (xs ys : List Event) → did a b xs → did b c ys → did a c (xs ++ ys) };

    ghost consumed: { (a b : Self) (xs : List Event) → did a b xs → Consumes (remaining a) (remaining b) (heard xs) };

    ghost still: { (a b : Self) → did a b [] → remaining b ≡ remaining a };

    ghost kept: { (a b : Self) (xs : List Event) → did a b xs → AreWell xs → has_failed b ≡ has_failed a };
}

/// A writer of bytes that remembers whether it has failed.
pub trait Sink {
    // The bytes that were written, where they are known.
    ghost contents: { Self → Option (List ℕ) };
    // Whether a write has failed.
    ghost has_failed: { Self → Bool };
    // Whether a write has taken nothing of a buffer that was not empty.
    ghost is_full: { Self → Bool };
    // What was done with it between two moments.
    ghost did: { Self → Self → List Event → Type 0 };

    /// Writes from the front of the buffer. `Ok(n)` took the first `n` bytes; `Ok(0)` of a buffer that
    /// is not empty says that the sink is full. A fault takes none.
    fn write(&mut self, buffer: &[u8]) -> Result<usize, DeviceFault>
        ensures bound { IfOk result (λ n. n ≤ length buffer.now) }
        ensures bytes { WriteAppends (contents self.old) (contents self.new) result buffer.now }
        ensures event { did self.old self.new (writing result buffer.now ∷ []) }
        ensures full { IfOk result (λ n. n ≡ 0 → 0 < length buffer.now → IsTrue (is_full self.new)) }
        ensures room { IfOk result (λ n. 0 < n → is_full self.new ≡ is_full self.old) }
        ensures empty { length buffer.now ≡ 0 → is_full self.new ≡ is_full self.old }
        ensures none { OnErr result (is_full self.new ≡ is_full self.old) }
        ensures unchanged { OnOk result (has_failed self.new ≡ has_failed self.old) }
        ensures fails { OnErr result (IsTrue (has_failed self.new)) };

    /// Whether a write has failed.
    fn failed(&self) -> bool
        ensures { result ≡ has_failed self.now };

    ghost nothing: { (a : Self) → did a a [] };

    ghost more: { (a b c : Self) (xs ys : List Event) → did a b xs → did b c ys → did a c (xs ++ ys) };

    ghost appended: { (a b : Self) (xs : List Event) → did a b xs → Appends (contents a) (contents b) (said xs) };

    ghost kept: { (a b : Self) (xs : List Event) → did a b xs → AreWell xs
        → (has_failed b ≡ has_failed a) × (is_full b ≡ is_full a) };
}

/// A source and a sink in one, which knows the order of reads and writes.
pub trait Dialogue: Source + Sink {
    // Whether what it reads from and writes to is still the same.
    ghost is_same: { Self → Self → Type 0 };

    ghost one: { (a b : Self) (xs : List Event) → Self.Source.did a b xs ↔ Self.Sink.did a b xs };

    ghost apart: { (a b : Self) (xs : List Event) → Self.Sink.did a b xs → readings xs ≡ []
        → Self.remaining b ≡ Self.remaining a };

    ghost same: { (a b : Self) (xs : List Event) → Self.Source.did a b xs → is_same a b };
}

/// A source and a sink that are two things, as one [`Dialogue`]. What each of them did is known, and
/// not which of them did it first.
#[derive(Drop)]
pub struct Both<'a, S: Source, K: Sink> {
    pub source: &'a mut S,
    pub sink: &'a mut K,
}

impl<S: Source, K: Sink> Source for Both<'_, S, K> {
    ghost use Rattle.std.proofs.Common.{◌∙◌, refl, subst};
    ghost use Rattle.pid_types.specs.Devices.{DidBoth, readings, writings};
    ghost use Rattle.pid_types.specs.DeviceLaws.{readings-more, writings-more, readings_heard, readings_well};

    ghost remaining = { λ b. S.remaining b.source.now };

    ghost has_failed = { λ b. S.has_failed b.source.now };

    ghost did = { λ a b xs. ((b.source.ghost_name ≡ a.source.ghost_name) × (b.sink.ghost_name ≡ a.sink.ghost_name))
        × DidBoth (S.did a.source.now b.source.now) (K.did a.sink.now b.sink.now) xs };

    ghost nothing = { λ a. ((refl, refl), (S.nothing a.source.now, K.nothing a.sink.now)) };

    ghost more = { λ a b c xs ys first second. (
      (second.0.0 ∙ first.0.0, second.0.1 ∙ first.0.1),
      (
        subst (S.did a.source.now c.source.now) (readings-more xs ys)
            (S.more a.source.now b.source.now c.source.now (readings xs) (readings ys) first.1.0 second.1.0),
        subst (K.did a.sink.now c.sink.now) (writings-more xs ys)
            (K.more a.sink.now b.sink.now c.sink.now (writings xs) (writings ys) first.1.1 second.1.1),
      ),
    ) };

    ghost still = { λ a b did. S.still a.source.now b.source.now did.1.0 };

    ghost consumed = { λ a b xs did. subst (Consumes (S.remaining a.source.now) (S.remaining b.source.now))
        (readings_heard xs) (S.consumed a.source.now b.source.now (readings xs) did.1.0) };

    ghost kept = { λ a b xs did well. S.kept a.source.now b.source.now (readings xs) did.1.0 (readings_well xs well) };

    fn read(&mut self, buffer: &mut [u8]) -> Result<usize, DeviceFault> {
        self.source.read(buffer)
    }

    fn failed(&self) -> bool {
        Source::failed(self.source)
    }
}

impl<S: Source, K: Sink> Sink for Both<'_, S, K> {
    ghost use Rattle.std.proofs.Common.{◌∙◌, refl, subst};
    ghost use Rattle.pid_types.specs.Devices.{DidBoth, readings, writings};
    ghost use Rattle.pid_types.specs.DeviceLaws.{readings-more, writings-more, writings_said, writings_well};

    ghost contents = { λ b. K.contents b.sink.now };

    ghost has_failed = { λ b. K.has_failed b.sink.now };

    ghost is_full = { λ b. K.is_full b.sink.now };

    ghost did = { λ a b xs. ((b.source.ghost_name ≡ a.source.ghost_name) × (b.sink.ghost_name ≡ a.sink.ghost_name))
        × DidBoth (S.did a.source.now b.source.now) (K.did a.sink.now b.sink.now) xs };

    ghost nothing = { λ a. ((refl, refl), (S.nothing a.source.now, K.nothing a.sink.now)) };

    ghost more = { λ a b c xs ys first second. (
      (second.0.0 ∙ first.0.0, second.0.1 ∙ first.0.1),
      (
        subst (S.did a.source.now c.source.now) (readings-more xs ys)
            (S.more a.source.now b.source.now c.source.now (readings xs) (readings ys) first.1.0 second.1.0),
        subst (K.did a.sink.now c.sink.now) (writings-more xs ys)
            (K.more a.sink.now b.sink.now c.sink.now (writings xs) (writings ys) first.1.1 second.1.1),
      ),
    ) };

    ghost appended = { λ a b xs did. subst (Appends (K.contents a.sink.now) (K.contents b.sink.now))
        (writings_said xs) (K.appended a.sink.now b.sink.now (writings xs) did.1.1) };

    ghost kept = { λ a b xs did well. K.kept a.sink.now b.sink.now (writings xs) did.1.1 (writings_well xs well) };

    fn write(&mut self, buffer: &[u8]) -> Result<usize, DeviceFault> {
        self.sink.write(buffer)
    }

    fn failed(&self) -> bool {
        Sink::failed(self.sink)
    }
}

impl<S: Source, K: Sink> Dialogue for Both<'_, S, K> {
    ghost use Rattle.std.proofs.Common.{subst};

    ghost is_same = { λ a b. (b.source.ghost_name ≡ a.source.ghost_name) × (b.sink.ghost_name ≡ a.sink.ghost_name) };

    ghost one = { λ a b xs. (λ did. did, λ did. did) };

    ghost apart = { λ a b xs did none. S.still a.source.now b.source.now
        (subst (S.did a.source.now b.source.now) none did.1.0) };

    ghost same = { λ a b xs did. did.0 };
}

/// A reader of std as a [`Source`]. An error of any kind is a fault.
#[derive(Drop)]
pub struct FromReader<R: Read + Drop> {
    reader: R,
    failed: bool,
}

impl<R: Read + Drop> FromReader<R> {
    /// The reader, which has not failed.
    pub fn new(reader: R) -> Self
        ensures bytes { ⟦<FromReader<R> as Source>⟧.remaining result ≡ R.remaining reader }
        ensures whole { ⟦<FromReader<R> as Source>⟧.has_failed result ≡ false }
    {
        FromReader {
            reader,
            failed: false,
        }
    }
}

impl<R: Read + Drop> Source for FromReader<R> {
    ghost use Rattle.std.specs.Prelude.{refl};
    ghost use Rattle.pid_types.specs.{Devices.{Took}, DeviceLaws.{Took-nothing, Took-more}};

    ghost remaining = { λ s. R.remaining s.reader };

    ghost has_failed = { λ s. s.failed };

    ghost did = { λ a b. Took (R.remaining a.reader) (R.remaining b.reader) a.failed b.failed };

    ghost nothing = { λ a. Took-nothing _ _ };

    ghost more = { λ a b c xs ys. Took-more _ _ _ _ _ _ xs ys };

    ghost consumed = { λ a b xs took. took.consumed };

    ghost still = { λ a b took. took.still refl };

    ghost kept = { λ a b xs took. took.kept };

    fn read(&mut self, buffer: &mut [u8]) -> Result<usize, DeviceFault> {
        match self.reader.read(buffer) {
            Ok(count) => Ok(count),
            Err(_) => {
                self.failed = true;
                Err(DeviceFault)
            }
        }
    }

    fn failed(&self) -> bool {
        self.failed
    }
}

/// A writer of std that is lent, as a [`Sink`]. An error of any kind is a fault. That it is the same writer all along
/// is part of what is known of each write, so that its owner learns what it holds.
#[derive(Drop)]
pub struct ToWriter<'a, W: Write> {
    pub writer: &'a mut W,
    failed: bool,
    full: bool,
}

impl<'a, W: Write> ToWriter<'a, W> {
    /// The writer, which has not failed and is not full.
    pub fn new(writer: &'a mut W) -> ToWriter<'a, W>
        ensures same { result.writer.ghost_name ≡ writer.entry.ghost_name }
        ensures now { result.writer.now ≡ writer.old }
        ensures bytes { ⟦<ToWriter<'a, W> as Sink>⟧.contents result ≡ W.contents writer.old }
        ensures whole { ⟦<ToWriter<'a, W> as Sink>⟧.has_failed result ≡ false }
        ensures room { ⟦<ToWriter<'a, W> as Sink>⟧.is_full result ≡ false }
    {
        ToWriter {
            writer,
            failed: false,
            full: false,
        }
    }
}

impl<W: Write> Sink for ToWriter<'_, W> {
    ghost use Rattle.std.proofs.Common.{◌∙◌, refl};
    ghost use Rattle.pid_types.specs.{Devices.{Gave}, DeviceLaws.{Gave-nothing, Gave-more}};

    ghost contents = { λ s. W.contents s.writer.now };

    ghost has_failed = { λ s. s.failed };

    ghost is_full = { λ s. s.full };

    ghost did = { λ a b es. (b.writer.ghost_name ≡ a.writer.ghost_name)
        × Gave (W.contents a.writer.now) (W.contents b.writer.now) a.failed b.failed a.full b.full es };

    ghost nothing = { λ a. (refl, Gave-nothing _ _ _) };

    ghost more = { λ a b c xs ys first second.
        (second.0 ∙ first.0, Gave-more _ _ _ _ _ _ _ _ _ xs ys first.1 second.1) };

    ghost appended = { λ a b es did. did.1.appended };

    ghost kept = { λ a b es did. did.1.kept };

    fn write(&mut self, buffer: &[u8]) -> Result<usize, DeviceFault> {
        match self.writer.write(buffer) {
            Ok(count) => {
                if count == 0 && !buffer.is_empty() {
                    self.full = true;
                }
                Ok(count)
            }
            Err(_) => {
                self.failed = true;
                Err(DeviceFault)
            }
        }
    }

    fn failed(&self) -> bool {
        self.failed
    }
}

/// A sink that takes all and keeps nothing.
#[derive(Drop)]
pub struct Discard;

impl Sink for Discard {
    ghost use Rattle.std.specs.Prelude.{⊤, None, false, refl};

    ghost contents = { λ _. None };

    ghost has_failed = { λ _. false };

    ghost is_full = { λ _. false };

    ghost did = { λ _ _ _. ⊤ };

    ghost nothing = { λ _. tt };

    ghost more = { λ _ _ _ _ _ _ _. tt };

    ghost appended = { λ _ _ _ _. tt };

    ghost kept = { λ _ _ _ _ _. (refl, refl) };

    fn write(&mut self, buffer: &[u8]) -> Result<usize, DeviceFault> {
        Ok(buffer.len())
    }

    fn failed(&self) -> bool {
        false
    }
}
