//! In a state without threads each call does what it did before there were threads.
ghost use Rattle.model_laws.specs.Before.{CountsAsBefore, DoesAsBefore, StaysThreadless};

/// In a state without threads each call does what it did, on the same numbers and counts, and none but those of
/// threads makes one.
pub fn threadless_as_before()
    ensures does { DoesAsBefore }
    ensures counts { CountsAsBefore }
    ensures stays { StaysThreadless }
{}
