//! What is directly inside: the namespaces that are in a namespace, or the control groups that are in a control group,
//! by their ids. Of a namespace that is what `NS_GET_PARENT` of `ioctl_ns(2)` tells the other way round; of a control
//! group they are the folders in its folder.

ghost use Rattle.std.specs.Prelude.{◌≡◌, ◌++◌, nat_le, filter, filter_map, map, option_map, true, IfOk, OnOk, OnErr};
ghost use Rattle.std.specs.List.{AllByRecursion};
ghost use Rattle.{
  pid_numbers.specs.Numbering.{id_at},
  pids_charge.specs.Charges.{stands, home_id},
  task_table.specs.{View.{state_of}, Whole.{IsWhole}},
  translate.specs.{Inside.{ids_in, ids_inside, AreGatheredFrom}, Listed.{TellsList}},
};
ghost use Rattle.translate.specs.declared.inside.Tree.TheVariants as trees;

use crate::page::{cut, put_front};
use pid_numbers::InnerSpaces;
use pids_charge::InnerControls;
use std::alloc::AllocError;
use task_table::Tasks;
use task_table::view::laws;

/// Which tree an id is of.
#[derive(Clone, Copy)]
pub enum Tree {
    /// That of the PID namespaces: `pid_namespaces(7)`, "Nesting PID namespaces".
    Spaces,
    /// That of the control groups: the kernel's cgroup-v2 document, "Organizing Processes and Threads".
    Controls,
}

/// Of what the inside is listed, and from which id on.
#[derive(Clone, Copy)]
pub struct Inside {
    /// Whether the ids are those of namespaces or of control groups.
    pub tree: Tree,
    /// The id of the namespace or of the control group.
    pub id: u64,
    /// No id below this one is listed.
    pub from: u64,
}

/// Adds the ids, from one on, of the namespaces with the keys. The error is want of memory.
fn gather_spaces(
    store: &Tasks,
    from: u64,
    keys: InnerSpaces<'_>,
    ids: &mut Vec<u64>,
) -> Result<(), AllocError>
    ensures { OnOk result (ids.new.items
        ≡ ids.old.items ++ filter (nat_le from) (filter_map (id_at store.now.numbering) keys.entry)) }
{
    for key in keys {
        match store.numbers().id(key) {
            Some(id) if id >= from => ids.push(id)?,
            _ => {}
        }
    }
    Ok(())
}

/// Adds the ids, from one on, of the control groups with the keys. The error is want of memory.
fn gather_controls(
    store: &Tasks,
    from: u64,
    keys: InnerControls<'_>,
    ids: &mut Vec<u64>,
) -> Result<(), AllocError>
    requires { AllByRecursion (λ k. stands store.now.charges k ≡ true) keys }
    ensures { OnOk result (ids.new.items
        ≡ ids.old.items ++ filter (nat_le from) (map (home_id store.now.charges) keys.entry)) }
{
    for key in keys {
        let id = store.controls().id(key);
        if id >= from {
            ids.push(id)?;
        }
    }
    Ok(())
}

/// The ids, from one on, of the namespaces directly in the one with the id; none where there is no such namespace.
fn inner_spaces(store: &Tasks, id: u64, from: u64) -> Result<Option<Vec<u64>>, AllocError>
    ensures { IfOk result (λ r. AreGatheredFrom (ids_in (state_of store.now) trees.Spaces id) from
        (option_map (λ v. v.items) r)) }
{
    laws(store);
    let Some(key) = store.numbers().find_space(id) else {
        return Ok(None);
    };
    let keys = store.numbers().inner_spaces(key);
    let mut ids = Vec::new(store.numbers().allocator());
    gather_spaces(store, from, keys, &mut ids)?;
    Ok(Some(ids))
}

/// The ids, from one on, of the control groups directly in the one with the id; none where there is no such group.
fn inner_controls(store: &Tasks, id: u64, from: u64) -> Result<Option<Vec<u64>>, AllocError>
    requires { IsWhole store.now }
    ensures { IfOk result (λ r. AreGatheredFrom (ids_in (state_of store.now) trees.Controls id) from
        (option_map (λ v. v.items) r)) }
{
    let Some(key) = store.controls().find(id) else {
        return Ok(None);
    };
    let keys = store.controls().children(key);
    let mut ids = Vec::new(store.numbers().allocator());
    gather_controls(store, from, keys, &mut ids)?;
    Ok(Some(ids))
}

/// The ids that are asked for, in no order.
fn inner_ids(store: &Tasks, inside: &Inside) -> Result<Option<Vec<u64>>, AllocError>
    requires { IsWhole store.now }
    ensures { IfOk result (λ r. AreGatheredFrom (ids_inside (state_of store.now) inside.now) inside.now.from
        (option_map (λ v. v.items) r)) }
{
    match inside.tree {
        Tree::Spaces => inner_spaces(store, inside.id, inside.from),
        Tree::Controls => inner_controls(store, inside.id, inside.from),
    }
}

/// Writes the ids of what is directly inside over the front of the room, in rising order, as many as it takes, and
/// answers how many there are; but one more than the room takes where there are more. What is behind them in the room
/// stays.
///
/// None is answered where no namespace, or no control group, has the id, and then the room is as it was. The error is
/// want of memory, and then the room is as it was too. It costs a search for the id, a few reads for each namespace or
/// control group that is directly inside, and the sorting of their ids; it looks at no other one.
pub fn read_inside(
    store: &Tasks,
    inside: &Inside,
    room: &mut [u64],
) -> Result<Option<u64>, AllocError>
    requires { IsWhole store.now }
    ensures told { IfOk result (λ count.
        TellsList (ids_inside (state_of store.now) inside.now) inside.now.from room.old room.new count) }
    ensures err { OnErr result (room.new ≡ room.old) }
{
    let found = inner_ids(store, inside)?;
    let Some(mut ids) = found else {
        return Ok(None);
    };
    ids.sort()?;
    cut(&mut ids, room.len());
    put_front(&ids, room);
    Ok(Some(ids.len() as u64))
}
