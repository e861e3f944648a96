//! A writer that makes an interrupted write again.
ghost use Rattle.std.specs.Prelude.{◌≡◌};

use std::io;
use std::io::{ErrorKind, Write};

/// So many times a write is made again: a signal that comes at each of them is no accident.
const MOST_TRIES: u32 = 1_000_000;

/// A writer that makes a write again which a signal has interrupted (`EINTR`), as std's `write_all` does.
#[derive(Drop)]
pub struct PatientWriter<'a, W: Write> {
    writer: &'a mut W,
}

impl<'a, W: Write> PatientWriter<'a, W> {
    /// Over the writer.
    pub fn new(writer: &'a mut W) -> PatientWriter<'a, W>
        ensures same { result.writer.ghost_name ≡ writer.entry.ghost_name }
        ensures now { result.writer.now ≡ writer.old }
    {
        PatientWriter { writer }
    }
}

impl<W: Write> Write for PatientWriter<'_, W> {
    ghost contents = { λ p. W.contents p.writer.now };

    fn write(&mut self, buffer: &[u8]) -> io::Result<usize> {
        for _ in 0..MOST_TRIES {
            match self.writer.write(buffer) {
                Err(error) if error.kind() == ErrorKind::Interrupted => {}
                written => return written,
            }
        }
        self.writer.write(buffer)
    }

    fn flush(&mut self) -> io::Result<()> {
        self.writer.flush()
    }
}
