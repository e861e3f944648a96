//! Queries that tell one number, for C: as calls with arguments of their own. Each is the call of its name, as
//! [`crate::pidtab_call`] makes it, and tells nothing but its number: so it costs less.
//!
//! Each answers `CLOSED` where there is no open table; then `SPENT` where the stamp of the call would be `u64::MAX`;
//! and else it makes the call, and answers `DONE`, or the error of its refusal. The number stays as it was unless the
//! answer is `DONE`.
ghost use Rattle.std.specs.Prelude.{◌≡◌, IsTrue, Option, Some, None, false};
ghost use Rattle.{
  model_laws.specs.Refusals.{is_query},
  pid_table.specs.Lists.{answers_list},
  pid_types.specs.declared.call.{Call.TheVariants.{GetPid, GetPpid, GetPgid, GetSid, Next, Count}, Kind.{Kind}},
  foreign_numbers.specs.Numbers.{kind_of},
  foreign_calls.specs.Numbered.{TellsNumberOf, RefusesKind},
};

use foreign_calls::number_calls::{number_bare, number_kept};
use foreign_calls::table::Pidtab;
use foreign_handles::held::Held;
use foreign_numbers::numbers::read_kind;
use foreign_numbers::status::{CLOSED, OUT_OF_RANGE};
use pid_types::call::Call;

/// Makes the query on what is held, if there is something, and tells its number.
#[inline(always)]
fn number_of(table: &mut Pidtab, query: Call, number: &mut u64) -> u32
    requires asks { IsTrue (is_query query) }
    requires short { answers_list query ≡ false }
    ensures { TellsNumberOf table.old.handle.held query number.old number.new result table.new.handle.held }
{
    if !table.is_open {
        return CLOSED;
    }
    match table.handle.lend() {
        Held::Bare(held) => number_bare(held, query, number),
        Held::Recorded(held) => number_kept(held, query, number),
    }
}

/// The caller's number in its own namespace: `getpid(2)`. The refusal is that no live task has the caller's root
/// number, `ESRCH`. It costs one search.
#[unsafe(no_mangle)]
pub extern "C" fn pidtab_getpid_of(table: &mut Pidtab, caller: u32, number: &mut u64) -> u32
    ensures { TellsNumberOf table.old.handle.held (GetPid caller) number.old number.new result table.new.handle.held }
{
    number_of(table, Call::GetPid { caller }, number)
}

/// The number of the caller's parent, 0 for one that it cannot see: `getppid(2)`. The refusal is that no live task has
/// the caller's root number, `ESRCH`. It costs one search.
#[unsafe(no_mangle)]
pub extern "C" fn pidtab_getppid_of(table: &mut Pidtab, caller: u32, number: &mut u64) -> u32
    ensures { TellsNumberOf table.old.handle.held (GetPpid caller) number.old number.new result table.new.handle.held }
{
    number_of(table, Call::GetPpid { caller }, number)
}

/// The process group of a task that the caller sees, where 0 is the caller; 0 where it cannot see the group:
/// `getpgid(2)`. The refusals are that no live task has the caller's root number, and then that no task has the number
/// in the caller's namespace, both `ESRCH`. It costs a search for each of the two.
#[unsafe(no_mangle)]
pub extern "C" fn pidtab_getpgid_of(
    table: &mut Pidtab,
    caller: u32,
    pid: u32,
    number: &mut u64,
) -> u32
    ensures { TellsNumberOf table.old.handle.held (GetPgid caller pid)
        number.old number.new result table.new.handle.held }
{
    number_of(table, Call::GetPgid { caller, pid }, number)
}

/// The session of a task that the caller sees, likewise: `getsid(2)`.
#[unsafe(no_mangle)]
pub extern "C" fn pidtab_getsid_of(
    table: &mut Pidtab,
    caller: u32,
    pid: u32,
    number: &mut u64,
) -> u32
    ensures { TellsNumberOf table.old.handle.held (GetSid caller pid)
        number.old number.new result table.new.handle.held }
{
    number_of(table, Call::GetSid { caller, pid }, number)
}

/// The least number from one on that is in use as that kind in the caller's namespace, 0 where none follows. A kind
/// that is none is `OUT_OF_RANGE`, behind `CLOSED`, and then no call is made. The refusal is that no live task has the
/// caller's root number, `ESRCH`. It costs two searches.
#[unsafe(no_mangle)]
pub extern "C" fn pidtab_next_of(
    table: &mut Pidtab,
    caller: u32,
    kind: u32,
    from: u32,
    number: &mut u64,
) -> u32
    ensures made { (k : Kind) → kind_of kind ≡ Some k
        → TellsNumberOf table.old.handle.held (Next caller k from)
        number.old number.new result table.new.handle.held }
    ensures out_of_range { kind_of kind ≡ None
        → RefusesKind table.old.handle.held number.old number.new result table.new.handle.held }
{
    if !table.is_open {
        return CLOSED;
    }
    let Some(kind) = read_kind(kind) else {
        return OUT_OF_RANGE;
    };
    let query = Call::Next { caller, kind, from };
    match table.handle.lend() {
        Held::Bare(held) => number_bare(held, query, number),
        Held::Recorded(held) => number_kept(held, query, number),
    }
}

/// How many tasks the control group and those below it have. The refusal is that no control group has the id, `ENOENT`.
/// It costs one search.
#[unsafe(no_mangle)]
pub extern "C" fn pidtab_count_of(table: &mut Pidtab, id: u64, number: &mut u64) -> u32
    ensures { TellsNumberOf table.old.handle.held (Count id) number.old number.new result table.new.handle.held }
{
    number_of(table, Call::Count { id }, number)
}
