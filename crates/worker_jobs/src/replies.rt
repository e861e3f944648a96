//! Whether two calls or two replies are the same, for the audit of receipts.
ghost use Rattle.std.specs.Prelude.{◌≡◌, ◌≢◌, true, false};

use arrayvec::ArrayVec;
use pid_types::call::Call;
use pid_types::plain::LEVELS;
use pid_types::reply::Reply;

/// Whether two calls are the same.
pub(crate) fn is_same_call(one: &Call, other: &Call) -> bool
    ensures yes { result ≡ true → one.now ≡ other.now }
    ensures no { result ≡ false → one.now ≢ other.now }
{
    one == other
}

/// Whether two lists of numbers are the same.
fn is_same_list(one: &ArrayVec<u32, LEVELS>, other: &ArrayVec<u32, LEVELS>) -> bool
    ensures yes { result ≡ true → one.now ≡ other.now }
    ensures no { result ≡ false → one.now ≢ other.now }
{
    one.as_slice() == other.as_slice()
}

/// Whether two replies are the same. The derived `==` would say less: where a field is a list, its
/// contract speaks of the fields' own `==`, and not of the two being the same.
pub(crate) fn is_same_reply(one: &Reply, other: &Reply) -> bool
    ensures yes { result ≡ true → one.now ≡ other.now }
    ensures no { result ≡ false → one.now ≢ other.now }
{
    match one {
        Reply::Forked { child, root } => {
            matches!(other, Reply::Forked { child: c, root: r } if c == child && r == root)
        }
        Reply::Done => matches!(other, Reply::Done),
        Reply::Number(number) => matches!(other, Reply::Number(n) if n == number),
        Reply::Levels(levels) => match other {
            Reply::Levels(l) => is_same_list(levels, l),
            _ => false,
        },
        Reply::Reaped { child, ended } => {
            matches!(other, Reply::Reaped { child: c, ended: e } if c == child && e == ended)
        }
        Reply::NoneYet => matches!(other, Reply::NoneYet),
        Reply::Counted(count) => matches!(other, Reply::Counted(c) if c == count),
        Reply::Control(id) => matches!(other, Reply::Control(i) if i == id),
        Reply::End => matches!(other, Reply::End),
        Reply::Refused(refusal) => matches!(other, Reply::Refused(r) if r == refusal),
    }
}
