//! What the definitions that compute mean: paths, counts, who takes orphans, what a fall does, what a
//! wait reaps.
ghost use Rattle.{
  model_laws.specs.PathLaws.{CountIsOfSubtree, CountsAreOfSubtrees, PathsAreChains, SubtreeIsTold},
  model_laws.specs.{ParentLaws.{NewParentIsNearest}, FallLaws.{ExitOfInitFalls}},
  model_laws.specs.WaitLaws.{NoneYetHasEnded, WaitReapsLeast},
  model_laws.specs.ThreadLaws.{LastLeavingEnds, OneCaller, OneIsNamed},
};

/// In a sound state the path of a namespace or a control group is its chain of parents up to the root.
#[tactic(auto, using(crate::proofs::Subtrees::paths_are_chains))]
pub fn paths_are_chains()
    ensures { PathsAreChains }
{}

/// In a sound state a control group's count, as it is answered and as a snapshot shows it, is the number
/// of tasks whose home is in its subtree.
pub fn count_is_of_subtree()
    ensures count { CountIsOfSubtree }
    ensures told { SubtreeIsTold }
    ensures shown { CountsAreOfSubtrees }
{}

/// The children of a task that ends go to its nearest ancestor in its own namespace that is a subreaper,
/// or else to the init there.
#[tactic(auto, using(crate::proofs::NearestSubreaper::takes_orphans))]
pub fn new_parent_is_nearest()
    ensures { NewParentIsNearest }
{}

/// The exit of a namespace's init ends every member and its threads, takes away those whose parent is a
/// member, and changes nobody outside.
#[tactic(auto, using(crate::proofs::Falls::exit_of_init_falls))]
pub fn exit_of_init_falls()
    ensures { ExitOfInitFalls }
{}

/// A wait reaps, of the children that it selects and that have ended, the one with the least number; it
/// finds none yet only where all of them live.
pub fn wait_reaps_least()
    ensures reaps { WaitReapsLeast }
    ensures none_yet { NoneYetHasEnded }
{}

/// In a sound state one process calls by a root number, and a number of a namespace names one process. The last thread
/// that leaves ends its process as an exit does.
pub fn threads_are_found()
    ensures caller { OneCaller }
    ensures named { OneIsNamed }
    ensures last { LastLeavingEnds }
{}
