//! Every call leaves a sound state.
ghost use Rattle.model_laws.specs.StepLaws.{PlainCallsMakeNoId, BoundStays, RootInitLives, RootNeverFalls};
ghost use Rattle.model_laws.specs.StepLaws.{AnyRunsKeepSoundness, ThreadCallsKeepSoundness, ThreadsKeepBound};
ghost use Rattle.model_laws.specs.StepLaws.{RootStateIsSound, RunsKeepSoundness, StepKeepsSoundness};

/// The state that a table begins with is sound.
pub fn root_state_is_sound()
    ensures { RootStateIsSound }
{}

/// Every call in a sound state whose ids are below the stamp leaves a sound state whose ids are
/// below the next stamp, and so does every run of calls.
pub fn soundness_is_kept()
    ensures step { StepKeepsSoundness }
    ensures plain { PlainCallsMakeNoId }
    ensures run { RunsKeepSoundness }
{}

/// No run of calls changes the bound of all numbers.
#[tactic(auto, using(crate::proofs::Bounds::run_bound))]
pub fn bound_stays()
    ensures { BoundStays }
{}

/// In a sound state the root namespace stands. Since every call leaves one, no call lets it fall.
#[tactic(auto, using(crate::proofs::StepKept::root_never_falls))]
pub fn root_never_falls()
    ensures { RootNeverFalls }
{}

/// In a sound state the root init lives. Every chain of parents ends at it.
#[tactic(auto, using(crate::proofs::Ancestry::root_init_lives))]
pub fn root_init_lives()
    ensures { RootInitLives }
{}

/// Every call about threads leaves a sound state, and neither an id nor the bound of all numbers changes. Every run of
/// them and of calls of the table leaves a sound state.
pub fn threads_keep_soundness()
    ensures call { ThreadCallsKeepSoundness }
    ensures run { AnyRunsKeepSoundness }
    ensures bound { ThreadsKeepBound }
{}
