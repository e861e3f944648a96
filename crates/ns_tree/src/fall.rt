//! The fall of a namespace with all inside it (`pid_namespaces(7)`).

ghost use Rattle.std.specs.Prelude.{◌≡◌, ◌<◌, ◌≤◌, ℕ, length, option_map, IsSome};
ghost use Rattle.member_lists.specs.Owners.{owner_of};
ghost use Rattle.ns_tree.specs.Tree.{node_in, way, outer_of, felled_within, IsPathTree};

use crate::places::Places;
use member_lists::MemberLists;
use pid_types::keys::SpaceKey;

/// The namespace and all inside it have fallen. It costs a step for each of them, and goes as deep as they are nested.
pub(crate) fn fall_within(places: &mut Places, children: &MemberLists, outer: SpaceKey)
    requires there { IsSome (node_in places.old.nodes outer) }
    requires tree { IsPathTree (way places.old.nodes) }
    requires some { (s : ℕ) → IsSome (node_in places.old.nodes s) → 0 < length (way places.old.nodes s) }
    requires owners { (s : ℕ) → owner_of children.now s ≡ outer_of (way places.old.nodes) s }
    requires lists { length places.old.nodes ≤ length children.now }
    ensures nodes { (s : ℕ) → node_in places.new.nodes s
        ≡ option_map (felled_within outer) (node_in places.old.nodes s) }
    ensures count { length places.new.nodes ≡ length places.old.nodes }
{
    places.mark_fallen(outer);
    for inner in children.members(outer) {
        fall_within(places, children, inner);
    }
}
