//! Namespaces that have fallen all at once, as in a table that was saved.

ghost use Rattle.std.specs.Prelude.{◌≡◌, ◌≢◌, ℕ, ◌<◌, ◌≤◌, ◌^◌, length, option_map};
ghost use Rattle.ns_tree.specs.Tree.{node_in};
ghost use Rattle.pid_numbers.specs.Restore.{is_flagged, felled_if};

use ns_tree::SpaceTree;
use pid_types::keys::SpaceKey;

/// Whether the key has a flag.
fn has_flag(flags: &[bool], key: SpaceKey) -> bool
    ensures { result ≡ is_flagged flags.now key }
{
    match flags.get(key as usize) {
        Some(flag) => *flag,
        None => false,
    }
}

/// The namespace with the key has fallen, if it is there and has a flag.
fn mark_one(tree: &mut SpaceTree, flags: &[bool], place: usize)
    requires { place < 2 ^ 32 }
    ensures here { node_in tree.new.nodes place
        ≡ option_map (felled_if (is_flagged flags.now place)) (node_in tree.old.nodes place) }
    ensures others { (s : ℕ) → s ≢ place → node_in tree.new.nodes s ≡ node_in tree.old.nodes s }
    ensures count { length tree.new.nodes ≡ length tree.old.nodes }
    ensures order { tree.new.order ≡ tree.old.order }
{
    let Ok(key) = SpaceKey::try_from(place) else {
        return;
    };
    if has_flag(flags, key) && tree.is_there(key) {
        tree.mark_fallen(key);
    }
}

/// The namespaces with a flag have fallen.
pub(crate) fn mark_all(tree: &mut SpaceTree, flags: &[bool])
    requires { length flags.now ≤ 2 ^ 32 }
    ensures nodes { (s : ℕ) → node_in tree.new.nodes s
        ≡ option_map (felled_if (is_flagged flags.now s)) (node_in tree.old.nodes s) }
    ensures count { length tree.new.nodes ≡ length tree.old.nodes }
    ensures order { tree.new.order ≡ tree.old.order }
{
    for place in 0..flags.len() {
        mark_one(tree, flags, place);
    }
}
