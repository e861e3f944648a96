//! Whom a page lists, as a number.
ghost use Rattle.std.specs.Prelude.{◌≡◌};
ghost use Rattle.foreign_numbers.specs.Whom.{whom_of};

use crate::choices;
use pid_types::call::Kind;
use translate::members::Reach;
use translate::page::Whom;

/// Whom a page lists.
pub fn read_whom(choice: u32) -> Option<Whom>
    ensures { result ≡ whom_of choice }
{
    match choice {
        choices::CHILDREN => Some(Whom::Belonging(Kind::Task)),
        choices::GROUP_MEMBERS => Some(Whom::Belonging(Kind::Group)),
        choices::SESSION_MEMBERS => Some(Whom::Belonging(Kind::Session)),
        choices::NAMESPACE_MEMBERS => Some(Whom::Namespace(Reach::Subtree)),
        choices::NAMESPACE_OWN => Some(Whom::Namespace(Reach::Own)),
        _ => None,
    }
}
