//! Members by owner: which owner each key has, and the members of each owner in a list.
//!
//! Keys and owners are numbers below 2^30. Each call but `grow`, `reserve` and `move_all` costs a few reads and writes,
//! and each but the first two takes no memory; the members of an owner come in no order that a caller may rely on.
#![tactic(auto)]

ghost use Rattle.std.specs.Prelude.{◌≡◌, ◌≢◌, ℕ, ◌+◌, ◌<◌, ◌≤◌, ◌^◌, length, map, Some, None, MatchOption, OnOk, OnErr};
ghost use Rattle.std.specs.Prelude.{slice_set, option_map, IsSome, [], ◌++◌, replicate};
ghost use Rattle.member_lists.specs.Owners.{owner_of, AreMembers, HasMoreRoom, handed};
ghost use Rattle.member_lists.specs.Links.{nil, lone, link_at, head_at, owner_in, chain, AreTold, ReachesNil, IsLinked};

mod members;

pub use members::Members;
use std::alloc::{AllocError, Global};
use std::marker::Model;

/// No key and no owner.
const NIL: u32 = u32::MAX;

/// The links of one key. Where it has no owner the other two mean nothing.
#[derive(Clone, Copy)]
struct Link {
    owner: u32,
    next: u32,
    prev: u32,
}

/// The link of a key in no list.
const LONE: Link = Link {
    owner: NIL,
    next: NIL,
    prev: NIL,
};

/// How many keys are to have room where one is: the multiple of 64 above it. So keys that come one by one take
/// memory once in 64 times.
pub fn keys_with_room(key: u32) -> usize
    requires { key < 2 ^ 30 }
    ensures above { key < result }
    ensures few { result ≤ 2 ^ 30 }
{
    (key as usize / 64 + 1) * 64
}

/// Whose member each key is, and the members of each owner.
///
/// A key has at most one owner. It takes 16 bytes for each key with the owner of the same number.
#[derive(Drop)]
pub struct MemberLists {
    heads: Vec<u32>,
    links: Vec<Link>,
}

impl Model for MemberLists {
    ghost use Rattle.std.specs.Prelude.{List, Option, ℕ, map};

    ghost Value = { List (Option ℕ) };

    ghost use Rattle.member_lists.specs.Links.{owner_in, IsLinked};

    ghost view = { λ a. map owner_in a.links.items };

    ghost invariant = { λ a. IsLinked a.heads.items a.links.items };
}

/// Tells the key before another one.
fn set_prev(links: &mut Vec<Link>, at: u32, prev: u32)
    requires { at ≢ nil → at < length links.old.items }
    ensures here { at ≢ nil → link_at links.new.items at ≡ record (link_at links.old.items at) { prev = prev } }
    ensures others { (j : ℕ) → j ≢ at → link_at links.new.items j ≡ link_at links.old.items j }
    ensures owners { map owner_in links.new.items ≡ map owner_in links.old.items }
    ensures len { length links.new.items ≡ length links.old.items }
{
    if at != NIL {
        links[at as usize].prev = prev;
    }
}

/// Tells who comes behind `prev`, or who is first where there is no such key.
fn set_behind(heads: &mut Vec<u32>, links: &mut Vec<Link>, owner: u32, prev: u32, next: u32)
    requires owner { owner < length heads.old.items }
    requires prev { prev ≢ nil → prev < length links.old.items }
    ensures head { prev ≡ nil → head_at heads.new.items owner ≡ next }
    ensures head_kept { prev ≢ nil → head_at heads.new.items owner ≡ head_at heads.old.items owner }
    ensures heads { (g : ℕ) → g ≢ owner → head_at heads.new.items g ≡ head_at heads.old.items g }
    ensures here { prev ≢ nil → link_at links.new.items prev ≡ record (link_at links.old.items prev) { next = next } }
    ensures others { (j : ℕ) → j ≢ prev → link_at links.new.items j ≡ link_at links.old.items j }
    ensures owners { map owner_in links.new.items ≡ map owner_in links.old.items }
    ensures len { length links.new.items ≡ length links.old.items }
    ensures rooms { length heads.new.items ≡ length heads.old.items }
{
    if prev == NIL {
        heads[owner as usize] = next;
    } else {
        links[prev as usize].next = next;
    }
}

/// Takes a key out of its list, and leaves its own link to be written.
fn take_out(heads: &mut Vec<u32>, links: &mut Vec<Link>, key: u32)
    requires linked { IsLinked heads.old.items links.old.items }
    requires owned { (link_at links.old.items key).owner ≢ nil }
    ensures linked { IsLinked heads.new.items (slice_set links.new.items key lone) }
    ensures owners { map owner_in links.new.items ≡ map owner_in links.old.items }
{
    let Link { owner, next, prev } = links[key as usize];
    set_prev(links, next, prev);
    set_behind(heads, links, owner, prev, next);
}

/// Puts a key that is in no list before the members of an owner. What its own link says is not read.
fn put_first(heads: &mut Vec<u32>, links: &mut Vec<Link>, key: u32, owner: u32)
    requires key { key < length links.old.items }
    requires owner { owner < length heads.old.items }
    requires linked { IsLinked heads.old.items (slice_set links.old.items key lone) }
    ensures linked { IsLinked heads.new.items links.new.items }
    ensures owners { map owner_in links.new.items ≡ slice_set (map owner_in links.old.items) key (Some owner) }
{
    let first = heads[owner as usize];
    set_prev(links, first, key);
    links[key as usize] = Link {
        owner,
        next: first,
        prev: NIL,
    };
    heads[owner as usize] = key;
}

/// Tells the members of one owner, from the first on, another owner. It answers the last of them.
fn tell_owner(links: &mut Vec<Link>, first: u32, owner: u32) -> u32
    requires some { first ≢ nil }
    requires ends { ReachesNil links.old.items first (length links.old.items) }
    requires members { AreMembers (map owner_in links.old.items) (link_at links.old.items first).owner
        (chain links.old.items first (length links.old.items)) }
    ensures told { AreTold links.old.items links.new.items (link_at links.old.items first).owner owner }
    ensures last { ((link_at links.old.items result).owner ≡ (link_at links.old.items first).owner)
        × ((link_at links.old.items result).next ≡ nil) }
{
    let all = links.as_mut_slice();
    let mut last = first;
    let mut at = first;
    while at != NIL {
        let link = &mut all[at as usize];
        link.owner = owner;
        last = at;
        at = link.next;
    }
    last
}

/// Puts the whole list of one owner, which has a member, before the members of another.
fn move_list(heads: &mut Vec<u32>, links: &mut Vec<Link>, from: u32, to: u32)
    requires differ { from ≢ to }
    requires from { from < length heads.old.items }
    requires to { to < length heads.old.items }
    requires linked { IsLinked heads.old.items links.old.items }
    requires some { head_at heads.old.items from ≢ nil }
    ensures linked { IsLinked heads.new.items links.new.items }
    ensures owners { (k : ℕ) → owner_of (map owner_in links.new.items) k
        ≡ option_map (handed from to) (owner_of (map owner_in links.old.items) k) }
    ensures len { length links.new.items ≡ length links.old.items }
{
    let first = heads[from as usize];
    let last = tell_owner(links, first, to);
    let behind = heads[to as usize];
    set_prev(links, behind, last);
    links[last as usize].next = behind;
    heads[to as usize] = first;
    heads[from as usize] = NIL;
}

impl MemberLists {
    /// No keys and no owners.
    pub fn new(alloc: Global) -> Self
        ensures { result ≡ [] }
    {
        MemberLists {
            heads: Vec::new(alloc),
            links: Vec::new(alloc),
        }
    }

    /// Makes room for so many more keys, which have no owner, and for the owners of the same numbers, which have
    /// no member. The error is want of memory, and then nothing has changed.
    #[inline(never)]
    pub fn grow(&mut self, more: usize) -> Result<(), AllocError>
        requires { length self.old + more ≤ 2 ^ 30 }
        ensures ok { OnOk result (self.new ≡ self.old ++ replicate more None) }
        ensures err { OnErr result (self.new ≡ self.old) }
    {
        let keys = self.links.len() + more;
        self.heads.try_reserve(more)?;
        self.links.resize(keys, LONE)?;
        self.heads.resize(keys, NIL)?;
        Ok(())
    }

    /// Makes room for so many keys, and as many owners, where there is none yet. The error is want of memory, and then
    /// nothing has changed.
    #[inline(never)]
    pub fn reserve(&mut self, keys: usize) -> Result<(), AllocError>
        requires { keys ≤ 2 ^ 30 }
        ensures ok { OnOk result (keys ≤ length self.new) }
        ensures more { HasMoreRoom self.old self.new }
    {
        if self.keys() >= keys {
            return Ok(());
        }
        self.grow(keys - self.keys())
    }

    /// How many keys there are, and as many owners.
    pub fn keys(&self) -> usize
        ensures { result ≡ length self.now }
    {
        self.links.len()
    }

    /// The owner of a key.
    pub fn owner(&self, key: u32) -> Option<u32>
        requires { key < length self.now }
        ensures { result ≡ owner_of self.now key }
    {
        let owner = self.links[key as usize].owner;
        if owner == NIL { None } else { Some(owner) }
    }

    /// The owner of a key that has one.
    pub fn member_owner(&self, key: u32) -> u32
        requires { IsSome (owner_of self.now key) }
        ensures { owner_of self.now key ≡ Some result }
    {
        self.links[key as usize].owner
    }

    /// Some member of an owner, if it has any.
    pub fn first(&self, owner: u32) -> Option<u32>
        requires { owner < length self.now }
        ensures { MatchOption result ((k : ℕ) → owner_of self.now k ≢ Some owner)
            (λ k. owner_of self.now k ≡ Some owner) }
    {
        let key = self.heads[owner as usize];
        if key == NIL { None } else { Some(key) }
    }

    /// The members of an owner, one after the other.
    pub fn members(&self, owner: u32) -> Members<'_>
        requires { owner < length self.now }
        ensures { AreMembers self.now owner result }
    {
        let first = self.heads[owner as usize];
        Members::from(self.links.as_slice(), first)
    }

    /// Makes a key that has no owner a member of this one.
    pub fn add(&mut self, key: u32, owner: u32)
        requires key { key < length self.old }
        requires free { owner_of self.old key ≡ None }
        requires owner { owner < length self.old }
        ensures { self.new ≡ slice_set self.old key (Some owner) }
    {
        put_first(&mut self.heads, &mut self.links, key, owner);
    }

    /// Takes a key from its owner.
    pub fn remove(&mut self, key: u32)
        requires key { key < length self.old }
        requires owned { IsSome (owner_of self.old key) }
        ensures { self.new ≡ slice_set self.old key None }
    {
        take_out(&mut self.heads, &mut self.links, key);
        self.links[key as usize].owner = NIL;
    }

    /// Makes a key that has an owner a member of this one instead. The two may be the same.
    pub fn move_to(&mut self, key: u32, owner: u32)
        requires key { key < length self.old }
        requires owned { IsSome (owner_of self.old key) }
        requires owner { owner < length self.old }
        ensures { self.new ≡ slice_set self.old key (Some owner) }
    {
        take_out(&mut self.heads, &mut self.links, key);
        put_first(&mut self.heads, &mut self.links, key, owner);
    }

    /// All members of the one owner become the other's. It costs one read and one write for each of them.
    pub fn move_all(&mut self, from: u32, to: u32)
        requires differ { from ≢ to }
        requires from { from < length self.old }
        requires to { to < length self.old }
        ensures owners { (k : ℕ) → owner_of self.new k ≡ option_map (handed from to) (owner_of self.old k) }
        ensures keys { length self.new ≡ length self.old }
    {
        if self.heads[from as usize] != NIL {
            move_list(&mut self.heads, &mut self.links, from, to);
        }
    }
}
