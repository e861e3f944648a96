//! Uses of identifiers, as tasks, groups and sessions.

ghost use Rattle.std.specs.Prelude.{◌≡◌, ℕ, ◌+◌, ◌<◌, ◌≤◌, ◌^◌, ◌==◌, ◌&&◌};
ghost use Rattle.{
  pid_types.specs.declared.call.Kind.{Kind},
  task_table.specs.Store.{uses_at, one_if, is_kind, IsUsedAt, bare_at, IsLess, KeepsThreads},
};

use pid_numbers::Numbers;
use pid_types::call::Kind;
use pid_types::keys::IdentKey;

/// One use less.
#[inline(always)]
pub(crate) fn take_use(numbers: &mut Numbers, ident: IdentKey, kind: Kind)
    requires { 0 < uses_at numbers.old kind ident }
    ensures uses { (k : Kind) (i : ℕ) → uses_at numbers.new k i + one_if ((i == ident) && is_kind k kind)
        ≡ uses_at numbers.old k i }
    ensures less { IsLess numbers.old numbers.new }
    ensures threads { KeepsThreads numbers.old numbers.new }
{
    numbers.drop_use(ident, kind);
}

/// One use less as a group and one as a session.
#[inline(always)]
pub(crate) fn take_uses(numbers: &mut Numbers, group: IdentKey, session: IdentKey)
    requires group { 0 < uses_at numbers.old Kind.Group group }
    requires session { 0 < uses_at numbers.old Kind.Session session }
    ensures uses { (k : Kind) (i : ℕ) → uses_at numbers.new k i + one_if
        ((i == group) && is_kind k Kind.Group) + one_if ((i == session) && is_kind k Kind.Session)
        ≡ uses_at numbers.old k i }
    ensures less { IsLess numbers.old numbers.new }
    ensures threads { KeepsThreads numbers.old numbers.new }
{
    numbers.laws();
    take_use(numbers, group, Kind::Group);
    take_use(numbers, session, Kind::Session);
}

/// One use more as a group and one as a session.
#[inline(always)]
pub(crate) fn add_uses(numbers: &mut Numbers, group: IdentKey, session: IdentKey)
    requires group { IsUsedAt numbers.old group }
    requires session { IsUsedAt numbers.old session }
    requires few { (k : Kind) (i : ℕ) → uses_at numbers.old k i ≤ 2 ^ 30 }
    ensures uses { (k : Kind) (i : ℕ) → uses_at numbers.new k i
        ≡ uses_at numbers.old k i + one_if ((i == group) && is_kind k Kind.Group) + one_if
        ((i == session) && is_kind k Kind.Session) }
    ensures bare { (i : ℕ) → bare_at numbers.new i ≡ bare_at numbers.old i }
    ensures threads { KeepsThreads numbers.old numbers.new }
    ensures namespaces { numbers.new.namespaces ≡ numbers.old.namespaces }
    ensures order { numbers.new.order ≡ numbers.old.order }
    ensures pid_max { numbers.new.pid_max ≡ numbers.old.pid_max }
{
    numbers.add_use(group, Kind::Group);
    numbers.add_use(session, Kind::Session);
}
