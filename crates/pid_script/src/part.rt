//! Lines that come in parts.
ghost use Rattle.std.specs.Prelude.{◌≡◌, ◌↔◌, Some, [], ◌++◌, List, ℕ, IsTrue};
ghost use Rattle.pid_script.specs.{Reading.{parsed}, Script.{kept_line, kept_more, said_line}};

use crate::line::{Line, parse_line};
use arrayvec::ArrayVec;
use std::marker::Model;

/// The length of the longest line that is kept, without its newline. No call is written longer, so
/// a longer line is bad, and only that is remembered of it.
pub const LONGEST_LINE: usize = 200;

/// What has come so far of a line that has not ended.
#[derive(Drop)]
pub struct PartLine {
    kept: ArrayVec<u8, LONGEST_LINE>,
    is_long: bool,
}

impl Model for PartLine {
    ghost use Rattle.std.specs.Prelude.{Option, Some, None, List, ℕ, if◌then◌else◌};

    ghost Value = { Option (List ℕ) };

    ghost view = { λ p. if p.is_long then None else Some p.kept.items };
}

impl PartLine {
    /// A line of which nothing has come.
    pub fn new() -> PartLine
        ensures { result ≡ Some [] }
    {
        PartLine {
            kept: ArrayVec::new(),
            is_long: false,
        }
    }

    /// Whether nothing has come.
    pub fn is_empty(&self) -> bool
        ensures { IsTrue result ↔ (self.now ≡ Some []) }
    {
        !self.is_long && self.kept.is_empty()
    }

    /// Adds bytes that do not end the line.
    pub fn push(&mut self, bytes: &[u8])
        ensures value { self.new ≡ kept_more self.old bytes.now }
        ensures kept { (part : List ℕ) → self.old ≡ kept_line part → self.new ≡ kept_line (part ++ bytes.now) }
    {
        if self.kept.remaining_capacity() < bytes.len() {
            self.is_long = true;
        } else {
            self.kept.try_extend_from_slice(bytes).unwrap();
        }
    }

    /// What the line says if it ends here.
    fn said(&self) -> Line
        ensures { result ≡ said_line self.now }
    {
        if self.is_long {
            return Line::Bad;
        }
        parse_line(self.kept.as_slice())
    }

    /// The same of a line of which something has come.
    #[tactic(auto, using(crate::proofs::Kept::said_by_kept))]
    pub fn finish_kept(&mut self, end: &[u8]) -> Line
        ensures value { result ≡ said_line (kept_more self.old end.now) }
        ensures line { (part : List ℕ) → self.old ≡ kept_line part → result ≡ parsed (part ++ end.now) }
        ensures next { self.new ≡ Some [] }
    {
        self.push(end);
        let line = self.said();
        self.kept.clear();
        self.is_long = false;
        line
    }

    /// Ends the line with these bytes, and says what it says. The next line begins.
    #[tactic(auto, using(crate::proofs::Kept::said_by_kept))]
    #[inline(always)]
    pub fn finish(&mut self, end: &[u8]) -> Line
        ensures value { result ≡ said_line (kept_more self.old end.now) }
        ensures line { (part : List ℕ) → self.old ≡ kept_line part → result ≡ parsed (part ++ end.now) }
        ensures next { self.new ≡ Some [] }
    {
        // Most lines come whole, and are read where they stand.
        if self.is_empty() {
            parse_line(end)
        } else {
            self.finish_kept(end)
        }
    }
}
