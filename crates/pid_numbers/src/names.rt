//! Identifiers and their uses.

ghost use Rattle.std.specs.Prelude.{◌≡◌, ℕ, ◌+◌, ◌<◌, ◌≤◌, [], reverse, take, Some, IsSome, IfSome, length, option_map};
ghost use Rattle.std.specs.{Prelude.{slice_index_or, ◌++◌, drop}, Option.{option_map_or}};
ghost use Rattle.{
  pid_types.specs.{Bounds.{deepest_space}, declared.call.Kind.{Kind}},
  pid_numbers.specs.Numbering.{Identifier, uses, is_used, is_used_as, is_thread},
  pid_numbers.specs.Slabs.{entry_on, touched, mark_of, AreIn, KeepsBounds, KeepsCursors},
  pid_numbers.specs.{Table.{ident_at, identifier_of}},
  ns_tree.specs.{Tree.{way, IsDistinct}},
  index_array.specs.Place.{with_mark},
};

use crate::idents::{Ident, Idents, count};
use crate::levels::{put_inwards, write_inwards};
use crate::spaces::mark_path;
use arrayvec::ArrayVec;
use cyclic_ids::CyclicIds;
use ns_tree::SpaceTree;
use pid_types::call::Kind;
use pid_types::keys::{IdentKey, Pid, SpaceKey};
use pid_types::plain::LEVELS;

/// The namespace of the identifier.
#[inline(always)]
pub(crate) fn home_of(idents: &Idents, ident: IdentKey) -> Option<SpaceKey>
    ensures { result ≡ option_map (λ u. u.space) (ident_at idents.now ident) }
{
    match idents.get(ident) {
        Some(x) => Some(x.space),
        None => None,
    }
}

/// The identifier's number at a place of its path.
#[inline(always)]
pub(crate) fn number_at(idents: &Idents, ident: IdentKey, place: usize) -> Option<Pid>
    requires { IfSome (ident_at idents.now ident) (λ u. place < length u.numbers) }
    ensures { result ≡ option_map (λ u. slice_index_or u.numbers place 0) (ident_at idents.now ident) }
{
    match idents.get(ident) {
        Some(x) => Some(x.numbers.as_slice()[place]),
        None => None,
    }
}

/// Writes the identifier's innermost numbers, so many, the outermost of them first.
#[inline(always)]
pub(crate) fn write_numbers_inwards(
    idents: &Idents,
    ident: IdentKey,
    count: usize,
    numbers: &mut ArrayVec<Pid, LEVELS>,
)
    requires there { IfSome (ident_at idents.now ident) (λ u. count ≤ length u.numbers) }
    requires few { count ≤ deepest_space + 1 }
    ensures { numbers.new.items ≡ option_map_or (λ u. reverse (take count u.numbers)) (ident_at idents.now ident) [] }
{
    match idents.get(ident) {
        Some(x) => write_inwards(x.numbers.as_slice(), count, numbers),
        None => numbers.clear(),
    }
}

/// Writes the innermost numbers of an identifier that is there, so many, over the first ones of the room, the outermost
/// of them first.
#[inline(always)]
pub(crate) fn write_levels(idents: &Idents, ident: IdentKey, count: usize, room: &mut [Pid; LEVELS])
    requires there { IsSome (ident_at idents.now ident) }
    requires fits { IfSome (ident_at idents.now ident) (λ u. count ≤ length u.numbers) }
    requires few { count ≤ deepest_space + 1 }
    ensures { (u : Identifier) → ident_at idents.now ident ≡ Some u
        → room.new ≡ reverse (take count u.numbers) ++ drop count room.old }
{
    put_inwards(idents.at(ident).numbers.as_slice(), count, room);
}

/// How many uses of the kind the identifier has.
pub(crate) fn count_at(idents: &Idents, ident: IdentKey, kind: Kind) -> u64
    ensures { result ≡ option_map_or (uses kind) (ident_at idents.now ident) 0 }
{
    match idents.get(ident) {
        Some(x) => u64::from(count(x, kind)),
        None => 0,
    }
}

/// Whether the identifier has a use of the kind.
pub(crate) fn has_use(idents: &Idents, ident: IdentKey, kind: Kind) -> bool
    ensures { result ≡ is_used_as kind (ident_at idents.now ident) }
{
    match idents.get(ident) {
        Some(x) => count(x, kind) != 0,
        None => false,
    }
}

/// Whether an identifier that is there has a use of the kind. It costs one read, and no test whether it is there.
#[inline(always)]
pub(crate) fn has_use_at(idents: &Idents, ident: IdentKey, kind: Kind) -> bool
    requires { IsSome (ident_at idents.now ident) }
    ensures { result ≡ is_used_as kind (ident_at idents.now ident) }
{
    count(idents.at(ident), kind) != 0
}

/// Whether an identifier has a use.
#[inline(always)]
fn in_use(x: &Ident) -> bool
    ensures { result ≡ is_used (identifier_of x.now) }
{
    !(x.tasks == 0 && x.groups == 0 && x.sessions == 0)
}

/// Whether there is an identifier, and nothing uses it.
#[inline(always)]
pub(crate) fn is_thread(idents: &Idents, ident: IdentKey) -> bool
    ensures { result ≡ is_thread (ident_at idents.now ident) }
{
    match idents.get(ident) {
        Some(x) => !in_use(x),
        None => false,
    }
}

/// Whether an identifier that is there has a use.
#[inline(always)]
pub(crate) fn in_use_at(idents: &Idents, ident: IdentKey) -> bool
    requires { IsSome (ident_at idents.now ident) }
    ensures { (u : Identifier) → ident_at idents.now ident ≡ Some u → result ≡ is_used u }
{
    in_use(idents.at(ident))
}

/// Gives the numbers of an identifier the mark of a kind, or takes it away.
pub(crate) fn mark_numbers(
    tree: &SpaceTree,
    ids: &mut Vec<CyclicIds>,
    idents: &Idents,
    ident: IdentKey,
    kind: Kind,
    on: bool,
)
    requires there { (s : ℕ) → AreIn ids.old.items (way tree.now.nodes s) }
    requires distinct { (s : ℕ) → IsDistinct (way tree.now.nodes s) }
    requires full { IfSome (ident_at idents.now ident) (λ u. length u.numbers ≡ length (way tree.now.nodes u.space)) }
    ensures entries { IfSome (ident_at idents.now ident) (λ u. (s n : ℕ)
        → entry_on ids.new.items s n ≡ touched (way tree.now.nodes u.space) u.numbers
        (with_mark (mark_of kind) on) (entry_on ids.old.items) s n) }
    ensures cursors { KeepsCursors ids.old.items ids.new.items }
    ensures bound { KeepsBounds ids.old.items ids.new.items }
    ensures count { length ids.new.items ≡ length ids.old.items }
{
    let Some(x) = idents.get(ident) else {
        return;
    };
    mark_path(ids, tree.path_up(x.space), x.numbers.as_slice(), kind, on);
}
