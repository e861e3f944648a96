//! The walk over the members of one owner.

ghost use Rattle.std.specs.{Prelude.{◌≡◌, length}, Iterator.{YieldsFirst, item_count}};
ghost use Rattle.member_lists.specs.Links.{chain, ReachesNil};

use crate::{Link, NIL};
use std::marker::Model;

/// The members of an owner that are still to come.
///
/// A step costs one read. Members of two owners may be walked in step, each by its own `Members`.
#[derive(Drop)]
pub struct Members<'a> {
    links: &'a [Link],
    at: u32,
}

impl<'a> Model for Members<'a> {
    ghost use Rattle.std.specs.Prelude.{List, ℕ, length};

    ghost Value = { List ℕ };

    ghost use Rattle.member_lists.specs.Links.{chain, ReachesNil};

    ghost view = { λ a. chain a.links.now a.at (length a.links.now) };

    ghost invariant = { λ a. ReachesNil a.links.now a.at (length a.links.now) };
}

impl<'a> Members<'a> {
    /// The keys from one on.
    pub(crate) fn from(links: &'a [Link], at: u32) -> Self
        requires { ReachesNil links.now at (length links.now) }
        ensures { result ≡ chain links.now at (length links.now) }
    {
        Members { links, at }
    }
}

impl<'a> Iterator for Members<'a> {
    type Item = u32;

    ghost next_gives = { YieldsFirst (λ s. s) };

    ghost remaining = { item_count (λ s. s) };

    fn next(&mut self) -> Option<u32> {
        let key = self.at;
        if key == NIL {
            return None;
        }
        self.at = self.links[key as usize].next;
        Some(key)
    }
}
