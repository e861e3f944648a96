//! The entries of a history, at 64 bytes each. Where a reply is a list of more than five numbers, these are in a queue
//! beside the entries. There is room in both before a call is made.
ghost use Rattle.std.specs.Prelude.{◌≡◌, ◌≢◌, ℕ, ◌+◌, ◌-◌, ◌<◌, ◌≤◌, List, [], ◌∷◌, ◌++◌, length, take, drop};
ghost use Rattle.std.specs.Prelude.{slice_get, ◌^◌, IfOk, OnOk, OnErr, IfSome, Some, None};
ghost use Rattle.std.specs.{Option.{option_map}, VecDeque.{deque_capacity, deque_len}};
ghost use Rattle.pid_types.specs.{declared.entry.Entry.{Entry}, Short.{list_reply, reply_of}};
ghost use Rattle.kept_past.specs.Stored.{list_at, kept_reply, replies_of, HasRoomFor, IsListedWithin};

use pid_table::listed;
use pid_types::call::Call;
use pid_types::entry::Entry;
use pid_types::keys::Pid;
use pid_types::plain::LEVELS;
use pid_types::reply::{Reply, ShortReply};
use std::alloc::{AllocError, Global};
use std::collections::VecDeque;
use std::marker::Model;

/// So many numbers have room in a slot.
pub(crate) const FEW: usize = 5;

/// A list of few numbers.
#[derive(Drop)]
struct Few {
    count: u32,
    numbers: [Pid; FEW],
}

impl Model for Few {
    ghost use Rattle.std.specs.Prelude.{List, ℕ, ◌≤◌, take};

    ghost Value = { List ℕ };

    ghost view = { λ a. take a.count a.numbers };

    ghost invariant = { λ a. a.count ≤ 5 };
}

/// What a slot has of a reply.
#[derive(Drop)]
enum SlotReply {
    /// All of it.
    Short(ShortReply),
    /// It is a list, and these are its numbers.
    Few(Few),
    /// It is a list of more: so many first numbers of the room at a place, among all such rooms that there were.
    Many { place: u64, count: u32 },
}

/// An entry, but for the numbers of a list of many.
#[derive(Drop)]
struct Slot {
    worker: usize,
    call: Call,
    reply: SlotReply,
}

/// Entries in their order. Contracts see them, and for how many more there is room.
#[derive(Drop)]
pub(crate) struct Ring {
    slots: VecDeque<Slot>,
    // The rooms of the lists of many numbers, in the order of their entries.
    lists: VecDeque<[Pid; LEVELS]>,
    // How many such lists were dropped: the place of the first one.
    dropped: u64,
    // For so many more such lists there is room.
    list_room: usize,
}

impl Model for Ring {
    ghost use Rattle.std.specs.{Prelude.{◌+◌, ◌-◌, min}, VecDeque.{deque_len, deque_capacity}};
    ghost use Rattle.kept_past.specs.Stored.{Stored, entries_in, HasRoomFor, ListsAreInOrder};

    ghost Value = { Stored };

    ghost view = { λ a. record {
      entries = entries_in a.lists.items a.dropped a.slots.items;
      room = min (deque_capacity a.slots - deque_len a.slots) a.list_room;
    } };

    ghost invariant = { λ a. ListsAreInOrder a.dropped (a.dropped + deque_len a.lists) a.slots.items
        × HasRoomFor a.list_room (deque_capacity a.lists) (deque_len a.lists) a.dropped };
}

impl Ring {
    /// No entry.
    pub(crate) fn new(alloc: Global) -> Ring
        ensures { result.entries ≡ [] }
    {
        Ring {
            slots: VecDeque::new(alloc),
            lists: VecDeque::new(alloc),
            dropped: 0,
            list_room: 0,
        }
    }

    /// Where its memory is from.
    pub(crate) fn allocator(&self) -> Global {
        *self.slots.allocator()
    }

    /// How many entries there are.
    #[inline(always)]
    pub(crate) fn len(&self) -> usize
        ensures { result ≡ length self.now.entries }
    {
        self.slots.len()
    }

    /// The entry at a place.
    pub(crate) fn get(&self, place: usize) -> Option<Entry>
        ensures { result ≡ slice_get self.now.entries place }
    {
        let slot = self.slots.get(place)?;
        Some(Entry {
            worker: slot.worker,
            call: slot.call,
            reply: whole_reply(&self.lists, self.dropped, &slot.reply),
        })
    }

    /// Whose call the entry at a place has.
    #[inline(always)]
    pub(crate) fn worker_at(&self, place: usize) -> usize
        requires { place < length self.now.entries }
        ensures { Some result ≡ option_map (λ (e : Entry). e.worker) (slice_get self.now.entries place) }
    {
        self.slots[place].worker
    }

    /// The call of the first entry.
    pub(crate) fn first_call(&self) -> Option<Call>
        ensures { result ≡ option_map (λ (e : Entry). e.call) (slice_get self.now.entries 0) }
    {
        let slot = self.slots.get(0)?;
        Some(slot.call)
    }

    /// The numbers of the last entry's reply, where that is a list.
    pub(crate) fn last_list(&self) -> Option<&[Pid]>
        ensures list { IfSome result (λ list.
            slice_get (replies_of self.now.entries) (length self.now.entries - 1) ≡ Some (list_reply list.now)) }
        ensures all { (list : List ℕ) →
            slice_get (replies_of self.now.entries) (length self.now.entries - 1) ≡ Some (list_reply list)
            → result ≢ None }
        ensures fits { IfSome result (λ list. length list.now ≤ LEVELS) }
    {
        let all = self.slots.len();
        if all == 0 {
            return None;
        }
        match &self.slots[all - 1].reply {
            SlotReply::Short(_) => None,
            SlotReply::Few(few) => Some(few.as_slice()),
            SlotReply::Many { place, count } => {
                Some(list_at(&self.lists, self.dropped, *place, *count))
            }
        }
    }

    /// Makes room for n more entries, each of which may have a list. The error is want of memory.
    #[inline(always)]
    pub(crate) fn reserve(&mut self, n: usize) -> Result<(), AllocError>
        ensures entries { self.new.entries ≡ self.old.entries }
        ensures ok { OnOk result (n ≤ self.new.room) }
        ensures room { self.old.room ≤ self.new.room }
        ensures enough { OnErr result (self.old.room < n) }
    {
        self.slots.reserve(n)?;
        if self.list_room < n {
            self.list_room = list_room_for(&mut self.lists, self.dropped, n)?;
        }
        Ok(())
    }

    /// Puts an entry behind the others, whose reply is a list: so many first numbers of the room.
    #[inline(always)]
    pub(crate) fn push_list(
        &mut self,
        worker: usize,
        call: Call,
        room: &[Pid; LEVELS],
        count: usize,
    )
        requires room { 0 < self.old.room }
        requires fits { count ≤ LEVELS }
        ensures entries { self.new.entries ≡ self.old.entries
            ++ record { worker = worker; call = call; reply = list_reply (take count room.now) } ∷ [] }
        ensures room { self.old.room ≤ self.new.room + 1 }
    {
        if count <= FEW {
            self.push_few(worker, call, room, count);
        } else {
            self.push_many(worker, call, room, count);
        }
    }

    /// Puts an entry behind the others, whose reply is a list of few numbers.
    #[inline(always)]
    fn push_few(&mut self, worker: usize, call: Call, room: &[Pid; LEVELS], count: usize)
        requires room { 0 < self.old.room }
        requires few { count ≤ FEW }
        ensures entries { self.new.entries ≡ self.old.entries
            ++ record { worker = worker; call = call; reply = list_reply (take count room.now) } ∷ [] }
        ensures room { self.old.room ≤ self.new.room + 1 }
    {
        self.slots.push_back_reserved(Slot {
            worker,
            call,
            reply: SlotReply::Few(Few::first_of(room, count)),
        });
    }

    /// Puts an entry behind the others, and its list behind theirs.
    #[inline(always)]
    fn push_many(&mut self, worker: usize, call: Call, room: &[Pid; LEVELS], count: usize)
        requires room { 0 < self.old.room }
        requires fits { count ≤ LEVELS }
        ensures entries { self.new.entries ≡ self.old.entries
            ++ record { worker = worker; call = call; reply = list_reply (take count room.now) } ∷ [] }
        ensures room { self.old.room ≤ self.new.room + 1 }
    {
        let place = self.dropped + self.lists.len() as u64;
        self.lists.push_back_reserved(*room);
        self.slots.push_back_reserved(Slot {
            worker,
            call,
            reply: SlotReply::Many {
                place,
                count: count as u32,
            },
        });
        self.list_room -= 1;
    }

    /// Puts an entry behind the others, whose reply is no list.
    #[inline(always)]
    pub(crate) fn push_short(&mut self, worker: usize, call: Call, reply: ShortReply)
        requires { 0 < self.old.room }
        ensures entries { self.new.entries
            ≡ self.old.entries ++ record { worker = worker; call = call; reply = reply_of reply } ∷ [] }
        ensures room { self.old.room ≤ self.new.room + 1 }
    {
        self.slots.push_back_reserved(Slot {
            worker,
            call,
            reply: SlotReply::Short(reply),
        });
    }

    /// Drops the first entry.
    pub(crate) fn pop(&mut self)
        ensures entries { self.new.entries ≡ drop 1 self.old.entries }
        ensures room { self.old.room ≤ self.new.room }
    {
        let Some(first) = self.slots.pop_front() else {
            return;
        };
        if let SlotReply::Many { place: _, count: _ } = first.reply {
            let _list = self.lists.pop_front();
            self.dropped += 1;
        }
    }

    /// Drops all entries.
    pub(crate) fn clear(&mut self)
        ensures entries { self.new.entries ≡ [] }
        ensures room { self.old.room ≤ self.new.room }
    {
        self.slots.clear();
        self.lists.clear();
    }
}

impl Few {
    /// So many first numbers of the room.
    #[inline(always)]
    fn first_of(room: &[Pid; LEVELS], count: usize) -> Few
        requires { count ≤ FEW }
        ensures { result ≡ take count room.now }
    {
        Few {
            count: count as u32,
            numbers: [room[0], room[1], room[2], room[3], room[4]],
        }
    }

    /// The numbers.
    fn as_slice(&self) -> &[Pid]
        ensures numbers { result.now ≡ self.now }
        ensures few { length result.now ≤ FEW }
    {
        &self.numbers[..self.count as usize]
    }
}

/// So many first numbers of the room, or all.
#[inline(always)]
fn first_of(room: &[Pid; LEVELS], count: u32) -> &[Pid]
    ensures list { result.now ≡ take count room.now }
    ensures fits { length result.now ≤ LEVELS }
{
    &room[..LEVELS.min(count as usize)]
}

/// So many numbers of the list at a place, where that of the first list is told.
fn list_at(lists: &VecDeque<[Pid; LEVELS]>, first: u64, place: u64, count: u32) -> &[Pid]
    requires { (first ≤ place) × (place < first + deque_len lists.now) }
    ensures list { result.now ≡ take count (list_at lists.now.items first place) }
    ensures fits { length result.now ≤ LEVELS }
{
    first_of(&lists[(place - first) as usize], count)
}

/// Makes room for n more lists, and answers for how many there is room. It is not inlined, since a call rarely comes
/// here. The error is want of memory, or of places, of which so many never were: stamps are spent before.
#[cold]
#[inline(never)]
fn list_room_for(
    lists: &mut VecDeque<[Pid; LEVELS]>,
    dropped: u64,
    n: usize,
) -> Result<usize, AllocError>
    requires { dropped + deque_len lists.old < 2 ^ 64 }
    ensures enough { IfOk result (λ room. n ≤ room) }
    ensures room { IfOk result (λ room. HasRoomFor room (deque_capacity lists.new) (deque_len lists.new) dropped) }
    ensures items { lists.new.items ≡ lists.old.items }
    ensures len { deque_len lists.new ≡ deque_len lists.old }
    ensures capacity { deque_capacity lists.old ≤ deque_capacity lists.new }
{
    lists.reserve(n)?;
    let places = (u64::MAX - dropped - lists.len() as u64) as usize;
    if places < n {
        return Err(AllocError);
    }
    Ok((lists.capacity() - lists.len()).min(places))
}

/// The whole reply, where lists of many numbers are beside the slots.
fn whole_reply(lists: &VecDeque<[Pid; LEVELS]>, first: u64, reply: &SlotReply) -> Reply
    requires { IsListedWithin first (first + deque_len lists.now) reply.now }
    ensures { result ≡ kept_reply lists.now.items first reply.now }
{
    match reply {
        SlotReply::Short(short) => {
            let mut reply = Reply::Done;
            (*short).tell(&mut reply);
            reply
        }
        SlotReply::Few(few) => Reply::Levels(listed(few.as_slice())),
        SlotReply::Many { place, count } => {
            Reply::Levels(listed(list_at(lists, first, *place, *count)))
        }
    }
}
