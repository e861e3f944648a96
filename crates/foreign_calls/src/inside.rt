//! What is directly inside a namespace or a control group, by ids.
ghost use Rattle.std.specs.Prelude.{◌≡◌, ◌≢◌, ◌↔◌, [], ◌∷◌, Some, None, is_some};
ghost use Rattle.translate.specs.{Inside.{ids_inside}, Listed.{TellsList}};
ghost use Rattle.foreign_calls.specs.{Held.{IsDoneOr}, Inside.{tree_chosen, inside_by}};

use foreign_numbers::choices;
use foreign_numbers::status::{DONE, NO_MEMORY, OUT_OF_RANGE};
use pid_table::PidTable;
pub use translate::inside::{Inside, Tree};

/// The tree that the number says.
fn read_tree(choice: u32) -> Option<Tree>
    ensures { result ≡ tree_chosen choice }
{
    match choice {
        choices::SPACES => Some(Tree::Spaces),
        choices::CONTROLS => Some(Tree::Controls),
        _ => None,
    }
}

/// What the numbers ask for; none where the first of them is no tree's.
pub fn read_inside(tree: u32, id: u64, from: u64) -> Option<Inside>
    ensures { result ≡ inside_by tree id from }
{
    let tree = read_tree(tree)?;
    Some(Inside { tree, id, from })
}

/// Whether the tree has the id.
fn is_there(table: &PidTable, inside: &Inside) -> bool
    ensures { result ≡ is_some (ids_inside table.now inside.now) }
{
    match inside.tree {
        Tree::Spaces => table.space(inside.id).is_some(),
        Tree::Controls => table.count(inside.id).is_some(),
    }
}

/// Writes the ids of what is directly inside over the front of the room, and tells how many there are. The result is
/// the status.
pub fn tell_inside(table: &PidTable, inside: &Inside, ids: &mut [u64], count: &mut u64) -> u32
    ensures done { result ≡ DONE
        → TellsList (ids_inside table.now inside.now) inside.now.from ids.old ids.new (Some count.new) }
    ensures not_done_ids { result ≢ DONE → ids.new ≡ ids.old }
    ensures not_done_count { result ≢ DONE → count.new ≡ count.old }
    ensures out_of_range { (result ≡ OUT_OF_RANGE) ↔ (ids_inside table.now inside.now ≡ None) }
    ensures statuses { IsDoneOr result (OUT_OF_RANGE ∷ NO_MEMORY ∷ []) }
{
    if !is_there(table, inside) {
        return OUT_OF_RANGE;
    }
    match table.inside(inside, ids) {
        Ok(Some(found)) => {
            *count = found;
            DONE
        }
        Ok(None) => unreachable!(),
        Err(_) => NO_MEMORY,
    }
}
