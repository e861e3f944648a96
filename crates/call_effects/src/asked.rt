//! What the root init asks the table.

ghost use Rattle.std.specs.Prelude.{◌≡◌};
ghost use Rattle.call_effects.specs.Whom.{is_number};

use pid_types::keys::Pid;
use pid_types::reply::Reply;

/// The root init asks for all numbers of the root namespace.
pub(crate) const ROOT_INIT: Pid = 1;

/// Whether the reply is the number.
pub(crate) fn is_number(number: Pid, reply: &Reply) -> bool
    ensures { result ≡ is_number number reply.now }
{
    match reply {
        Reply::Number(replied) => *replied == number,
        _ => false,
    }
}
