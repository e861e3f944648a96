//! Worked lists, ranks and ids.

ghost use Rattle.std.specs.Prelude.{◌≡◌, ◌<◌, ℕ, [], ◌∷◌, length, Some, None};

use id_slab::RisingIds;
use member_lists::MemberLists;
use member_queues::MemberQueues;
use std::process::Abort;

/// The members of owner 1 in rising order, behind `None` for each of four that is not there.
fn members_of_1(lists: &MemberLists) -> [Option<u32>; 4]
    requires { 1 < length lists.now }
{
    let mut members = lists.members(1);
    let mut found = [
        members.next(),
        members.next(),
        members.next(),
        members.next(),
    ];
    found.sort_unstable();
    found
}

/// Three keys without an owner.
fn three_keys(rt: &(impl AllocGlobal + Abort)) -> MemberLists
    ensures { result ≡ None ∷ None ∷ None ∷ [] }
{
    let mut lists = MemberLists::new(rt.alloc());
    lists.grow(1).expect(rt, "no memory");
    lists.grow(2).expect(rt, "no memory");
    lists
}

/// All three come to owner 1.
fn add_three(lists: &mut MemberLists)
    requires { lists.old ≡ None ∷ None ∷ None ∷ [] }
    ensures { lists.new ≡ Some 1 ∷ Some 1 ∷ Some 1 ∷ [] }
{
    lists.add(0, 1);
    lists.add(1, 1);
    lists.add(2, 1);
}

/// One key moves on to owner 2 and one goes.
fn move_and_remove(lists: &mut MemberLists)
    requires { lists.old ≡ Some 1 ∷ Some 1 ∷ Some 1 ∷ [] }
    ensures { lists.new ≡ None ∷ Some 2 ∷ Some 1 ∷ [] }
{
    lists.move_to(1, 2);
    lists.remove(0);
}

/// The owners of keys 0 and 1, and the first members of owners 1 and 2.
fn looks(lists: &MemberLists) -> [Option<u32>; 4]
    requires { 2 < length lists.now }
{
    [
        lists.owner(0),
        lists.owner(1),
        lists.first(1),
        lists.first(2),
    ]
}

/// Three keys come to owner 1, one moves on and one goes.
#[test]
fn moves_members(rt: HostRuntime) {
    let mut lists = three_keys(&rt);
    assert!(rt; lists.keys() == 3);
    assert!(rt; looks(&lists) == [None; 4]);
    add_three(&mut lists);
    assert!(rt; members_of_1(&lists) == [None, Some(0), Some(1), Some(2)]);
    move_and_remove(&mut lists);
    assert!(rt; looks(&lists) == [None, Some(2), Some(2), Some(1)]);
    assert!(rt; members_of_1(&lists) == [None, None, None, Some(2)]);
}

/// Keys 0 to 2 as members of owner 2, of which key 1 came second and ranks least.
fn three_members(rt: &(impl AllocGlobal + Abort)) -> MemberQueues
    ensures { result ≡ Some (2, 50) ∷ Some (2, 40) ∷ Some (2, 60) ∷ [] }
{
    let mut members = MemberQueues::new(rt.alloc());
    members.grow(1).expect(rt, "no memory");
    members.grow(2).expect(rt, "no memory");
    members.insert(0, 2, 50);
    members.insert(1, 2, 40);
    members.insert(2, 2, 60);
    members
}

/// The least member of owner 2, and the ranks of keys 0 and 1.
fn ranks(members: &MemberQueues) -> [Option<u32>; 3]
    requires { 2 < length members.now }
{
    [members.least(2), members.rank(0), members.rank(1)]
}

/// The least of an owner, whatever the order in which they came.
#[test]
fn answers_least(rt: HostRuntime) {
    let mut members = three_members(&rt);
    assert!(rt; members.keys() == 3);
    assert!(rt; ranks(&members) == [Some(1), Some(50), Some(40)]);
    members.remove(1);
    assert!(rt; ranks(&members) == [Some(0), Some(50), None]);
    members.remove(2);
    assert!(rt; ranks(&members) == [Some(0), Some(50), None]);
    members.remove(0);
    assert!(rt; ranks(&members) == [None; 3]);
}

/// The members of an owner in rising order, behind `None` for each of four that is not there.
fn ranked_members(members: &MemberQueues, owner: u32) -> [Option<u32>; 4]
    requires { owner < length members.now }
{
    let mut walk = members.members(owner);
    let mut found = [walk.next(), walk.next(), walk.next(), walk.next()];
    found.sort_unstable();
    found
}

/// All members of owner 2 go to owner 0, who has one, and each keeps its rank.
#[test]
fn moves_ranked_members(rt: HostRuntime) {
    let mut members = three_members(&rt);
    members.grow(1).expect(&rt, "no memory");
    members.insert(3, 0, 45);
    assert!(rt; ranked_members(&members, 2) == [None, Some(0), Some(1), Some(2)]);
    assert!(rt; ranked_members(&members, 0) == [None, None, None, Some(3)]);
    members.move_all(2, 0);
    assert!(rt; ranked_members(&members, 2) == [None; 4]);
    assert!(rt; ranked_members(&members, 0) == [Some(0), Some(1), Some(2), Some(3)]);
    assert!(rt; [members.least(2), members.least(0)] == [None, Some(1)]);
    members.remove(1);
    assert!(rt; [members.least(0), members.rank(3)] == [Some(3), Some(45)]);
}

/// The ids 3, 5 and 9.
fn three_ids(rt: &(impl AllocGlobal + Abort)) -> RisingIds
    ensures { result ≡ (3, 7) ∷ (5, 8) ∷ (9, 6) ∷ [] }
{
    let mut ids = RisingIds::new(rt.alloc());
    ids.push(3, 7).expect(rt, "no memory");
    ids.push(5, 8).expect(rt, "no memory");
    ids.push(9, 6).expect(rt, "no memory");
    ids
}

/// The first ids with their keys, in order.
fn all_of(ids: &RisingIds) -> [Option<(u64, u32)>; 4] {
    let mut all = ids.iter();
    [all.next(), all.next(), all.next(), all.next()]
}

/// Ids in their order, one of them removed.
#[test]
fn keeps_rising_ids(rt: HostRuntime) {
    let mut ids = three_ids(&rt);
    assert!(rt; [ids.find(5), ids.find(4)] == [Some(8), None]);
    assert!(rt; [ids.remove(9), ids.remove(9)] == [Some(6), None]);
    ids.push(6, 6).expect(&rt, "no memory");
    assert!(rt; all_of(&ids) == [Some((3, 7)), Some((5, 8)), Some((6, 6)), None]);
}
