//! Namespaces, and the numbers that names have in them.
ghost use Rattle.std.specs.Prelude.{◌≡◌, ◌≤◌, length, reverse, option_copied, option_to_list};
ghost use Rattle.{
  pid_types.specs.Names.{space_at, parent_space as parent_of, path_up as path_of, is_within as is_within_of},
  pid_types.specs.Names.{level as level_of, number as number_of, number_or_zero as number_or_zero_of},
  pid_types.specs.Names.{is_numbered as is_numbered_of, numbers_from as numbers_from_of, beside as beside_of},
  pid_types.specs.{Names.{beside_from as beside_from_of}, Fork.{is_gone as is_gone_of}},
};

use crate::view::View;
use arrayvec::ArrayVec;
use pid_types::plain::{LEVELS, Name, Space};

/// The namespace of the list with the id.
fn find_listed(spaces: &[Space], id: u64) -> Option<&Space>
    ensures { option_copied result ≡ space_at spaces.now id }
{
    spaces.iter().find(|s| s.id == id)
}

/// The namespace that is about to be added, if it has the id.
fn find_added(added: &Option<Space>, id: u64) -> Option<&Space>
    ensures { option_copied result ≡ space_at (option_to_list added.now) id }
{
    match added {
        Some(space) if space.id == id => Some(space),
        _ => None,
    }
}

/// The number that stands where the id does.
pub fn beside(id: u64, ids: &[u64], numbers: &[u32]) -> Option<u32>
    ensures { result ≡ beside_of id ids.now numbers.now }
{
    let [at, inner_ids @ ..] = ids else {
        return None;
    };
    let [number, inner_numbers @ ..] = numbers else {
        return None;
    };
    if *at == id {
        Some(*number)
    } else {
        beside(id, inner_ids, inner_numbers)
    }
}

/// The numbers from the place of the id on.
fn beside_from<'a>(id: u64, ids: &[u64], numbers: &'a [u32]) -> &'a [u32]
    ensures numbers { result.now ≡ beside_from_of id ids.now numbers.now }
    ensures at_most { length result.now ≤ length numbers.now }
{
    let [at, inner_ids @ ..] = ids else {
        return &[];
    };
    let [_, inner_numbers @ ..] = numbers else {
        return &[];
    };
    if *at == id {
        numbers
    } else {
        beside_from(id, inner_ids, inner_numbers)
    }
}

impl View<'_> {
    /// The namespace with the id.
    pub fn find_space(&self, id: u64) -> Option<&Space>
        ensures { option_copied result ≡ space_at self.now.spaces id }
    {
        match find_listed(self.spaces, id) {
            Some(space) => Some(space),
            None => find_added(&self.added, id),
        }
    }

    /// The id of the namespace that the namespace is in.
    pub fn parent_space(&self, id: u64) -> Option<u64>
        ensures { result ≡ parent_of self.now.spaces id }
    {
        self.find_space(id).and_then(|s| s.parent)
    }

    /// The namespace and those around it, innermost first.
    pub fn path_up(&self, id: u64) -> ArrayVec<u64, LEVELS>
        ensures { result.items ≡ path_of self.now.spaces id }
    {
        let mut path = ArrayVec::new();
        let mut next = Some(id);
        for _ in 0..33usize {
            let Some(at) = next else { return path };
            path.push(at);
            next = self.parent_space(at);
        }
        path
    }

    /// Whether `around` is the namespace or around it.
    pub fn is_within(&self, id: u64, around: u64) -> bool
        ensures { result ≡ is_within_of self.now.spaces id around }
    {
        self.path_up(id).contains(&around)
    }

    /// How many namespaces are around it.
    pub fn level(&self, id: u64) -> usize
        ensures { result ≡ level_of self.now.spaces id }
    {
        self.path_up(id).len().saturating_sub(1)
    }

    /// Whether the namespace has fallen, or was dropped since.
    pub fn is_gone(&self, id: u64) -> bool
        ensures { result ≡ is_gone_of self.now id }
    {
        self.find_space(id).map_or(true, |s| s.fallen)
    }

    /// The namespaces from the root to this one.
    pub fn path_down(&self, id: u64) -> ArrayVec<u64, LEVELS>
        ensures { result.items ≡ reverse (path_of self.now.spaces id) }
    {
        let mut path = self.path_up(id);
        path.as_mut_slice().reverse();
        path
    }

    /// The number of the name in the namespace.
    pub fn number(&self, name: &Name, space: u64) -> Option<u32>
        ensures { result ≡ number_of self.now.spaces name.now space }
    {
        let path = self.path_down(name.space);
        beside(space, path.as_slice(), name.numbers.as_slice())
    }

    /// The numbers of the name from the namespace inwards.
    pub fn numbers_from(&self, name: &Name, space: u64) -> ArrayVec<u32, LEVELS>
        ensures { result.items ≡ numbers_from_of self.now.spaces name.now space }
    {
        let path = self.path_down(name.space);
        let mut numbers = ArrayVec::new();
        for number in beside_from(space, path.as_slice(), name.numbers.as_slice()) {
            numbers.push(*number);
        }
        numbers
    }

    /// The number of the name in the namespace, or 0 where it has none.
    pub fn number_or_zero(&self, name: &Name, space: u64) -> u32
        ensures { result ≡ number_or_zero_of self.now.spaces name.now space }
    {
        self.number(name, space).unwrap_or(0)
    }

    /// Whether the name has the number in the namespace.
    pub fn is_numbered(&self, name: &Name, space: u64, number: u32) -> bool
        ensures { result ≡ is_numbered_of self.now.spaces name.now space number }
    {
        self.number(name, space) == Some(number)
    }
}
