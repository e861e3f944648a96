//! Lists that stand by a number: one more element goes in front of the first one above it.
ghost use Rattle.std.specs.Prelude.{◌≡◌, ◌≤◌, ◌<◌, ℕ, nat_lt, position, length, unwrap_or, IfSome};
ghost use Rattle.std.specs.Prelude.{vec_len, vec_capacity};
ghost use Rattle.pid_types.specs.{Names.{root_number as root_of}, Fork.{insert_by}};

use pid_types::plain::{Name, Row, Thread};
use plain_view::names::root_number;

/// What stands in a list by a number.
pub trait Placed {
    // The number.
    ghost key: { Self → ℕ };

    /// The number.
    fn key(&self) -> u32
        ensures { result ≡ key self.now };
}

impl Placed for Row {
    ghost key = { λ row. root_of row.name };

    fn key(&self) -> u32 {
        root_number(&self.name)
    }
}

impl Placed for Thread {
    ghost key = { λ thread. root_of thread.name };

    fn key(&self) -> u32 {
        root_number(&self.name)
    }
}

impl Placed for Name {
    ghost key = { λ name. root_of name };

    fn key(&self) -> u32 {
        root_number(self)
    }
}

/// The first place at which an element has a greater number.
fn first_above<T: Placed>(elements: &[T], number: u32) -> Option<usize>
    ensures place { result ≡ position (λ x. nat_lt number (T.key x)) elements.now }
    ensures within { IfSome result (λ place. place < length elements.now) }
{
    elements.iter().position(|x| number < x.key())
}

/// The place of an element with the number among the elements.
fn place_of<T: Placed>(elements: &[T], number: u32) -> usize
    ensures place { result ≡ unwrap_or (position (λ x. nat_lt number (T.key x)) elements.now) (length elements.now) }
    ensures within { result ≤ length elements.now }
{
    first_above(elements, number).unwrap_or(elements.len())
}

/// Adds the element in its place.
pub fn insert_placed<T: Placed + Drop>(elements: &mut Vec<T>, new: T)
    requires { vec_len elements.old < vec_capacity elements.old }
    ensures { elements.new.items ≡ insert_by T.key new elements.old.items }
{
    let place = place_of(elements, new.key());
    let Ok(()) = elements.insert(place, new) else {
        unreachable!()
    };
}
