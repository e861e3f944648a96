//! What changes a control group's count.
ghost use Rattle.model_laws.specs.CountLaws.{FallCountsTaken, ForkCountsOne, MoveCountsBoth, NothingElseCounts};
ghost use Rattle.model_laws.specs.CountLaws.{ReapingCountsOneLess, ThreadCountsOne, LeavingCountsOneLess};
ghost use Rattle.model_laws.specs.CountLaws.{EndCountsThreads, ExecCountsOne, ThreadQueriesCountNothing};

/// A fork counts one more in each control group from the calling thread's home to the root.
#[tactic(auto, using(crate::proofs::Counting::fork_counts_one))]
pub fn fork_counts_one()
    ensures { ForkCountsOne }
{}

/// A new thread counts one more, and one that leaves others running one less, unless it is its process's
/// first one. The end of a process and its exec count its other threads no more. Queries about threads
/// change no count.
pub fn threads_count()
    ensures made { ThreadCountsOne }
    ensures left { LeavingCountsOneLess }
    ensures end { EndCountsThreads }
    ensures exec { ExecCountsOne }
    ensures query { ThreadQueriesCountNothing }
{}

/// A reaping counts one less in each control group from the reaped task's home to the root.
pub fn reaping_counts_one_less()
    ensures { ReapingCountsOneLess }
{}

/// A fall counts as many less as it takes rows and threads away.
#[tactic(auto, using(crate::proofs::Counting::fall_counts_taken))]
pub fn fall_counts_taken()
    ensures { FallCountsTaken }
{}

/// A move counts each running thread of the process one less on its old path to the root, and one more on
/// the new one.
#[tactic(auto, using(crate::proofs::Counting::move_counts_both))]
pub fn move_counts_both()
    ensures { MoveCountsBoth }
{}

/// Nothing else changes a count.
#[tactic(auto, using(crate::proofs::Counting::nothing_else_counts))]
pub fn nothing_else_counts()
    ensures { NothingElseCounts }
{}
