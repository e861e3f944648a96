//! Memory for one more node.

ghost use Rattle.std.specs.Prelude.{◌≡◌, ℕ, ◌<◌, ◌≤◌, ◌^◌, length, IfOk, OnOk};
ghost use Rattle.{
  slab.specs.Slab.{HasRoomFor},
  member_lists.specs.Owners.{HasMoreRoom},
  pids_charge.specs.Kept.{counter_at},
};

use crate::counter::Counter;
use crate::node::Node;
use member_lists::MemberLists;
use pid_types::keys::ControlKey;
use slab::Slab;
use std::alloc::AllocError;

/// Counters for all keys up to one.
fn grow_counters(counters: &mut Vec<Counter>, key: ControlKey) -> Result<(), AllocError>
    ensures counters { (k : ℕ) → counter_at counters.new.items k ≡ counter_at counters.old.items k }
    ensures longer { length counters.old.items ≤ length counters.new.items }
    ensures room { OnOk result (key < length counters.new.items) }
{
    while counters.len() <= key as usize {
        counters.push(Counter::new(None))?;
    }
    Ok(())
}

/// Takes the memory for one more node, which may own children and residents, and answers its key.
pub(crate) fn make_room(
    nodes: &mut Slab<Node>,
    counters: &mut Vec<Counter>,
    children: &mut MemberLists,
    residents: &mut MemberLists,
) -> Result<ControlKey, AllocError>
    ensures nodes { nodes.new ≡ record nodes.old { capacity = nodes.new.capacity } }
    ensures counters { (k : ℕ) → counter_at counters.new.items k ≡ counter_at counters.old.items k }
    ensures children { HasMoreRoom children.old children.new }
    ensures residents { HasMoreRoom residents.old residents.new }
    ensures longer { length counters.old.items ≤ length counters.new.items }
    ensures reserved { OnOk result (HasRoomFor nodes.new 1) }
    ensures key { IfOk result (λ key. key ≡ nodes.new.vacant_key) }
    ensures room { IfOk result (λ key. key < length counters.new.items) }
    ensures lists { IfOk result (λ key. key < length children.new) }
    ensures homes { IfOk result (λ key. key < length residents.new) }
{
    let key = id_slab::make_room(nodes)?;
    grow_counters(counters, key)?;
    children.reserve(key as usize + 1)?;
    residents.reserve(key as usize + 1)?;
    Ok(key)
}
