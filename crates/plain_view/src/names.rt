//! Names and rows by themselves.
ghost use Rattle.std.specs.Prelude.{◌≡◌};
ghost use Rattle.pid_types.specs.Names.{same_name, root_number as root_of, is_live as lives, is_parent as is_parent_of};

use pid_types::plain::{Life, Name, Row};

/// Whether two names are one.
pub fn is_same(a: &Name, b: &Name) -> bool
    ensures { result ≡ same_name a.now b.now }
{
    a == b
}

/// A copy, which needs no memory.
pub fn copy_name(name: &Name) -> Name
    ensures { result ≡ name.now }
{
    match name.clone() {
        Ok(copy) => copy,
        Err(_) => unreachable!(),
    }
}

/// The number in the root namespace.
pub fn root_number(name: &Name) -> u32
    ensures { result ≡ root_of name.now }
{
    match name.numbers.as_slice() {
        [] => 0,
        [first, ..] => *first,
    }
}

/// Whether the task has not ended.
pub fn is_live(row: &Row) -> bool
    ensures { result ≡ lives row.now }
{
    match row.life {
        Life::Live => true,
        Life::Zombie(_) => false,
    }
}

/// Whether the name is the row's parent.
pub fn is_parent(name: &Name, row: &Row) -> bool
    ensures { result ≡ is_parent_of name.now row.now }
{
    match &row.parent {
        Some(parent) => is_same(parent, name),
        None => false,
    }
}
