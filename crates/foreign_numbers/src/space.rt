//! What is read of a namespace, in one struct.
ghost use Rattle.std.specs.Prelude.{◌≡◌};
ghost use Rattle.foreign_numbers.specs.Spaces.{space_numbers};

use translate::space::SpaceStat;

/// A namespace.
///
/// | Field | What it tells |
/// |---|---|
/// | `id` | its id |
/// | `parent` | the id of the namespace that it is in; 0 also of the root namespace, whose level is 0 |
/// | `level` | how many namespaces are around it |
/// | `init` | the root number of its init, ended or not, 0 where that is gone |
/// | `fallen` | 1 where its init has ended |
#[repr(C)]
#[derive(Clone, Copy)]
pub struct SpaceNumbers {
    pub id: u64,
    pub parent: u64,
    pub level: u32,
    pub init: u32,
    pub fallen: u32,
}

/// What is told of a namespace.
pub fn tell_space(read: &SpaceStat) -> SpaceNumbers
    ensures { result ≡ space_numbers read.now }
{
    SpaceNumbers {
        id: read.id,
        parent: read.parent.unwrap_or(0),
        level: read.level,
        init: read.init.unwrap_or(0),
        fallen: u32::from(read.fallen),
    }
}
