//! Identifiers by key, in places of a vector.

ghost use Rattle.std.specs.Prelude.{◌≡◌, ◌≢◌, ℕ, ◌<◌, ◌≤◌, ◌^◌, ◌+◌, ◌==◌, [], length, None, Some, IfOk, OnOk, IfSome};
ghost use Rattle.std.specs.{Prelude.{OnErr, IsSome, true, false}, Option.{option_copied}};
ghost use Rattle.pid_numbers.specs.Numbering.{Identifier, uses, less, more, is_used_as};
ghost use Rattle.pid_numbers.specs.Table.{get, identifier_of, ident_at, ChangesPlace};

use crate::levels::LevelNumbers;
use pid_types::call::Kind;
use pid_types::keys::{IdentKey, SpaceKey};
use std::alloc::{AllocError, Global};
use std::marker::Model;
use std::mem;

/// An identifier, and how many use it as what. Where it has no numbers the place is vacant: its identifier is gone, and
/// another one may come. It takes 32 bytes.
#[derive(Drop)]
pub(crate) struct Ident {
    pub numbers: LevelNumbers,
    pub space: SpaceKey,
    pub tasks: u32,
    pub groups: u32,
    pub sessions: u32,
}

/// Identifiers by key. The place of one that is gone is that of the next one.
#[derive(Drop)]
pub(crate) struct Idents {
    places: Vec<Ident>,
    /// The keys of vacant places.
    vacant: Vec<IdentKey>,
}

impl Model for Idents {
    ghost use Rattle.std.specs.Prelude.{vec_capacity, length, map};
    ghost use Rattle.pid_numbers.specs.Table.{Table, shown, next_place, has_room, IsTable};

    ghost Value = { Table };

    ghost view = { λ a. record {
      slots = map shown a.places.items;
      vacant_key = next_place a.places.items a.vacant.items;
      ready = has_room a.places.items (vec_capacity a.places) a.vacant.items (vec_capacity a.vacant);
    } };

    ghost invariant = { λ a. IsTable a.places.items a.vacant.items (vec_capacity a.vacant) };
}

/// How many uses of the kind.
pub(crate) fn count(x: &Ident, kind: Kind) -> u32
    ensures { result ≡ uses kind (identifier_of x.now) }
{
    match kind {
        Kind::Task => x.tasks,
        Kind::Group => x.groups,
        Kind::Session => x.sessions,
    }
}

/// One use less.
fn lessen(x: &mut Ident, kind: Kind)
    requires { 0 < uses kind (identifier_of x.old) }
    ensures uses { identifier_of x.new ≡ less kind (identifier_of x.old) }
    ensures numbers { x.new.numbers ≡ x.old.numbers }
{
    match kind {
        Kind::Task => {
            x.tasks -= 1;
        }
        Kind::Group => {
            x.groups -= 1;
        }
        Kind::Session => {
            x.sessions -= 1;
        }
    }
}

/// One use more.
fn raise(x: &mut Ident, kind: Kind)
    requires { uses kind (identifier_of x.old) + 1 < 2 ^ 32 }
    ensures uses { identifier_of x.new ≡ more kind (identifier_of x.old) }
    ensures numbers { x.new.numbers ≡ x.old.numbers }
{
    match kind {
        Kind::Task => {
            x.tasks += 1;
        }
        Kind::Group => {
            x.groups += 1;
        }
        Kind::Session => {
            x.sessions += 1;
        }
    }
}

/// What a vacant place has.
fn nobody() -> Ident
    ensures { result.numbers ≡ [] }
{
    Ident {
        numbers: LevelNumbers::none(),
        space: 0,
        tasks: 0,
        groups: 0,
        sessions: 0,
    }
}

impl Idents {
    /// No identifiers.
    pub(crate) fn new(alloc: Global) -> Self
        ensures empty { result.slots ≡ [] }
        ensures first_key { result.vacant_key ≡ 0 }
    {
        Idents {
            places: Vec::new(alloc),
            vacant: Vec::new(alloc),
        }
    }

    /// The key of the next identifier. The error is that there are 2^30 places, none of them vacant.
    #[inline(always)]
    pub(crate) fn next_key(&self) -> Result<IdentKey, AllocError>
        ensures key { IfOk result (λ key. key ≡ self.now.vacant_key) }
        ensures few { IfOk result (λ key. key < 2 ^ 30) }
        ensures vacant { IfOk result (λ key. get self.now key ≡ None) }
        ensures err { OnErr result (2 ^ 30 ≤ self.now.vacant_key) }
    {
        if let Some(&key) = self.vacant.last() {
            return Ok(key);
        }
        let places = self.places.len();
        if places >= 1 << 30 {
            return Err(AllocError);
        }
        Ok(places as IdentKey)
    }

    /// Takes the memory for one more identifier, and answers its key. The error is want of memory, or that there are
    /// 2^30 places.
    pub(crate) fn make_room(&mut self) -> Result<IdentKey, AllocError>
        ensures same { self.new ≡ record self.old { ready = self.new.ready } }
        ensures room { OnOk result (self.new.ready ≡ true) }
        ensures key { IfOk result (λ key. key ≡ self.new.vacant_key) }
        ensures few { IfOk result (λ key. key < 2 ^ 30) }
        ensures vacant { IfOk result (λ key. get self.old key ≡ None) }
    {
        let key = self.next_key()?;
        if self.vacant.is_empty() {
            self.places.try_reserve(1)?;
            self.vacant.try_reserve(self.places.len() + 1)?;
        }
        Ok(key)
    }

    /// Puts an identifier into the place that there is room for, and answers its key.
    #[inline(always)]
    pub(crate) fn insert_reserved(&mut self, ident: Ident) -> IdentKey
        requires room { self.old.ready ≡ true }
        requires some { 0 < length ident.numbers }
        ensures key { result ≡ self.old.vacant_key }
        ensures updates { ChangesPlace self.old self.new result (Some ident) }
    {
        match self.vacant.pop() {
            Some(key) => {
                self.places[key as usize] = ident;
                key
            }
            None => {
                let key = self.places.len() as IdentKey;
                self.places.push_reserved(ident);
                key
            }
        }
    }

    /// Takes an identifier out, whose place is then vacant.
    #[inline(always)]
    pub(crate) fn remove(&mut self, key: IdentKey) -> Ident
        requires { IsSome (ident_at self.old key) }
        ensures value { get self.old key ≡ Some result }
        ensures updates { ChangesPlace self.old self.new key None }
    {
        let gone = mem::replace(&mut self.places[key as usize], nobody());
        self.vacant.push_reserved(key);
        gone
    }

    /// The identifier with the key, if it is there.
    #[inline(always)]
    pub(crate) fn get(&self, key: IdentKey) -> Option<&Ident>
        ensures { option_copied result ≡ get self.now key }
    {
        let ident = self.places.get(key as usize)?;
        if ident.numbers.is_none() {
            return None;
        }
        Some(ident)
    }

    /// The identifier with the key, which is there.
    #[inline(always)]
    pub(crate) fn at(&self, key: IdentKey) -> &Ident
        requires { IsSome (ident_at self.now key) }
        ensures { get self.now key ≡ Some result.now }
    {
        &self.places[key as usize]
    }

    /// One use less.
    pub(crate) fn less_use(&mut self, key: IdentKey, kind: Kind)
        requires { is_used_as kind (ident_at self.old key) ≡ true }
        ensures here { (u : Identifier) → ident_at self.old key ≡ Some u → ident_at self.new key ≡ Some (less kind u) }
        ensures others { (j : ℕ) → j ≢ key → ident_at self.new j ≡ ident_at self.old j }
        ensures next { self.new.vacant_key ≡ self.old.vacant_key }
    {
        lessen(&mut self.places[key as usize], kind);
    }

    /// One use more.
    pub(crate) fn more_use(&mut self, key: IdentKey, kind: Kind)
        requires there { IsSome (ident_at self.old key) }
        requires few { IfSome (ident_at self.old key) (λ u. uses kind u + 1 < 2 ^ 32) }
        ensures here { (u : Identifier) → ident_at self.old key ≡ Some u → ident_at self.new key ≡ Some (more kind u) }
        ensures others { (j : ℕ) → j ≢ key → ident_at self.new j ≡ ident_at self.old j }
        ensures next { self.new.vacant_key ≡ self.old.vacant_key }
    {
        raise(&mut self.places[key as usize], kind);
    }
}
