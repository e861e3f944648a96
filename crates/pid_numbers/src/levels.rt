//! The numbers of one identifier.

ghost use Rattle.std.specs.Prelude.{◌≡◌, ◌<◌, ◌≤◌, length, reverse, take, IfOk, slice_index_or, ◌+◌};
ghost use Rattle.std.specs.Prelude.{[], ◌==◌, ◌++◌, drop};
ghost use Rattle.pid_types.specs.Bounds.{deepest_space};
ghost use Rattle.pid_numbers.specs.Blocks.{numbers_in, IsFilled};

use arrayvec::ArrayVec;
use pid_types::keys::Pid;
use pid_types::plain::LEVELS;
use std::alloc::{AllocError, Global};
use std::marker::Model;

/// A few numbers, and room for more up to `N` in all.
#[derive(Drop)]
struct Block<const N: usize> {
    count: u32,
    numbers: [Pid; N],
}

impl<const N: usize> Model for Block<N> {
    ghost use Rattle.std.specs.Prelude.{List, ℕ, ◌≤◌, take};

    ghost Value = { List ℕ };

    ghost view = { λ a. take a.count a.numbers };

    ghost invariant = { λ a. a.count ≤ N };
}

impl<const N: usize> Block<N> {
    /// A block with the numbers. The error is want of memory.
    fn new(alloc: Global, numbers: &[Pid]) -> Result<Box<Self>, AllocError>
        requires room { length numbers.now ≤ N }
        requires few { length numbers.now ≤ deepest_space + 1 }
        ensures { IfOk result (λ block. block.value ≡ numbers.now) }
    {
        let empty = Block {
            count: 0,
            numbers: [0; N],
        };
        let mut block = Box::new(alloc, empty)?;
        block.fill(numbers);
        Ok(block)
    }

    /// Writes the numbers over those that it has.
    #[inline(always)]
    fn fill(&mut self, numbers: &[Pid])
        requires room { length numbers.now ≤ N }
        requires few { length numbers.now ≤ deepest_space + 1 }
        ensures { self.new ≡ numbers.now }
    {
        self.numbers[..numbers.len()].copy_from_slice(numbers);
        self.count = numbers.len() as u32;
    }

    /// The numbers.
    #[inline(always)]
    fn as_slice(&self) -> &[Pid]
        ensures { result.now ≡ self.now }
    {
        &self.numbers[..self.count as usize]
    }
}

/// Where the numbers are: one in place, and more of them in a block of memory that they about fill, with what the
/// allocator adds: 32, 64 or 144 bytes. The first of these is in place too, where any place has it: so it is one read.
#[derive(Drop)]
enum Place {
    Nowhere,
    Here([Pid; 1]),
    Small(Pid, Box<Block<5>>),
    Middle(Pid, Box<Block<13>>),
    Large(Pid, Box<Block<LEVELS>>),
}

/// The numbers of one identifier, one for each level, innermost first.
///
/// It takes 16 bytes, and an identifier of the root namespace no memory beside them.
#[derive(Drop)]
pub(crate) struct LevelNumbers {
    place: Place,
}

impl Model for LevelNumbers {
    ghost use Rattle.std.specs.Prelude.{List, ℕ};
    ghost use Rattle.pid_numbers.specs.Blocks.{numbers_in, IsFilled};

    ghost Value = { List ℕ };

    ghost view = { λ a. numbers_in a.place };

    ghost invariant = { λ a. IsFilled a.place };
}

/// Where numbers go, so that they take little more memory than they need. The error is want of memory.
#[inline(always)]
fn place_for(alloc: Global, numbers: &[Pid]) -> Result<Place, AllocError>
    requires { length numbers.now ≤ deepest_space + 1 }
    ensures numbers { IfOk result (λ place. numbers_in place ≡ numbers.now) }
    ensures filled { IfOk result IsFilled }
{
    Ok(match numbers {
        [] => Place::Nowhere,
        [number] => Place::Here([*number]),
        _ if numbers.len() <= 5 => Place::Small(numbers[0], Block::new(alloc, numbers)?),
        _ if numbers.len() <= 13 => Place::Middle(numbers[0], Block::new(alloc, numbers)?),
        _ => Place::Large(numbers[0], Block::new(alloc, numbers)?),
    })
}

impl LevelNumbers {
    /// No numbers.
    pub(crate) fn none() -> Self
        ensures { result ≡ [] }
    {
        LevelNumbers {
            place: Place::Nowhere,
        }
    }

    /// Keeps the numbers. The error is want of memory.
    #[inline(always)]
    pub(crate) fn from(alloc: Global, numbers: &[Pid]) -> Result<Self, AllocError>
        requires { length numbers.now ≤ deepest_space + 1 }
        ensures { IfOk result (λ r. r ≡ numbers.now) }
    {
        let place = place_for(alloc, numbers)?;
        Ok(LevelNumbers { place })
    }

    /// The numbers.
    #[inline(always)]
    pub(crate) fn as_slice(&self) -> &[Pid]
        ensures { result.now ≡ self.now }
    {
        match &self.place {
            Place::Here(number) => number,
            Place::Nowhere => &[],
            Place::Small(_, block) => block.as_slice(),
            Place::Middle(_, block) => block.as_slice(),
            Place::Large(_, block) => block.as_slice(),
        }
    }

    /// The innermost number.
    #[inline(always)]
    pub(crate) fn first(&self) -> Pid
        requires { 0 < length self.now }
        ensures { result ≡ slice_index_or self.now 0 0 }
    {
        match &self.place {
            Place::Here([number]) => *number,
            Place::Nowhere => unreachable!(),
            Place::Small(first, _) => *first,
            Place::Middle(first, _) => *first,
            Place::Large(first, _) => *first,
        }
    }

    /// Whether there are none.
    #[inline(always)]
    pub(crate) fn is_none(&self) -> bool
        ensures { result ≡ (length self.now == 0) }
    {
        matches!(self.place, Place::Nowhere)
    }
}

/// Writes the innermost numbers, so many, the outermost of them first.
#[inline(always)]
pub(crate) fn write_inwards(numbers: &[Pid], count: usize, into: &mut ArrayVec<Pid, LEVELS>)
    requires there { count ≤ length numbers.now }
    requires few { count ≤ deepest_space + 1 }
    ensures { into.new.items ≡ reverse (take count numbers.now) }
{
    into.clear();
    for k in 0..count {
        into.push(numbers[k]);
    }
    into.as_mut_slice().reverse();
}

/// Writes the innermost numbers, so many, over the first ones of the room, the outermost of them first.
#[inline(always)]
pub(crate) fn put_inwards(numbers: &[Pid], count: usize, room: &mut [Pid; LEVELS])
    requires there { count ≤ length numbers.now }
    requires few { count ≤ deepest_space + 1 }
    ensures { room.new ≡ reverse (take count numbers.now) ++ drop count room.old }
{
    for k in 0..count {
        room[count - 1 - k] = numbers[k];
    }
}
