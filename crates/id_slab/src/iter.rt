//! The walk over the ids in their order.

ghost use Rattle.std.specs.{Prelude.{◌≡◌}, Iterator.{YieldsFirst, item_count}};
ghost use Rattle.id_slab.specs.Entries.{live};

use crate::Entry;
use std::marker::Model;

/// The ids that are still to come, each with its key.
#[derive(Drop)]
pub struct Iter<'a> {
    entries: &'a [Entry],
}

impl<'a> Model for Iter<'a> {
    ghost use Rattle.std.specs.Prelude.{List, ℕ};

    ghost Value = { List (ℕ × ℕ) };

    ghost use Rattle.id_slab.specs.Entries.{live};

    ghost view = { λ a. live a.entries.now };
}

impl<'a> Iter<'a> {
    /// The ids of entries.
    pub(crate) fn from(entries: &'a [Entry]) -> Self
        ensures { result ≡ live entries.now }
    {
        Iter { entries }
    }
}

impl<'a> Iterator for Iter<'a> {
    type Item = (u64, u32);

    ghost next_gives = { YieldsFirst (λ s. s) };

    ghost remaining = { item_count (λ s. s) };

    fn next(&mut self) -> Option<(u64, u32)> {
        while let Some((first, others)) = self.entries.split_first() {
            self.entries = others;
            if let Some(key) = first.key {
                return Some((first.id, key));
            }
        }
        None
    }
}
