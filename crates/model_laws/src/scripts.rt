//! Worked scripts. The checker computes each answer from the definitions.
ghost use Rattle.{
  model_laws.specs.ForkScripts.{ForkAndGetPid, ThreeForks, ForkIntoNewSpace, ForkIntoNewSpaceEnd, OneWorld, OtherWorld},
  model_laws.specs.{ForkScripts.{WorldsSeenAlike}, GroupScripts.{SetPgidInOrder, SetSidOnce}},
  model_laws.specs.{WaitScripts.{WaitSelects, OrphansGoToInit}, FallScripts.{FallTakesMembers, FallTakesMembersEnd}},
  model_laws.specs.FallScripts.{GroupKeepsSpace, GroupKeepsSpaceEnd, GroupLetsSpaceGo, GroupLetsSpaceGoEnd},
  model_laws.specs.ControlScripts.{LimitsAndMoves, ZombiesGoUp, ControlRefusals, NearestLimitFirst},
  model_laws.specs.{FallScripts.{FallUncharges}, DepthScripts.{ControlDepthIs64}},
  model_laws.specs.JoinScripts.{JoinAndFall, JoinAndFallEnd, NoForkIntoDropped, OrphanOfJoined},
  model_laws.specs.ThreadScripts.{ThreadsHaveNumbers, LastThreadEnds, FirstThreadEnds, ExecTakesThreads},
  model_laws.specs.ThreadScripts.{ThreadsAreCharged, LastOfInitFalls, LastThreadEndsEnd},
  model_laws.specs.SubreaperScripts.{SubreaperTakesChildren, MarkKeptOverExec, MarkOfOtherSpace, MarkOfJoined},
};

/// Worked scripts of fork and the queries of numbers.
#[tactic(auto, unfolding(crate::proofs::Computed::computed))]
pub fn fork_scripts()
    ensures fork_and_get_pid { ForkAndGetPid }
    ensures three_forks { ThreeForks }
    ensures fork_into_new_space { ForkIntoNewSpace }
    ensures fork_into_new_space_end { ForkIntoNewSpaceEnd }
    ensures one_world { OneWorld }
    ensures other_world { OtherWorld }
    ensures worlds_seen_alike { WorldsSeenAlike }
{}

/// Worked scripts of process groups and sessions.
#[tactic(auto, unfolding(crate::proofs::Computed::computed))]
pub fn group_scripts()
    ensures set_pgid_in_order { SetPgidInOrder }
    ensures set_sid_once { SetSidOnce }
{}

/// Worked scripts of exit and wait.
#[tactic(auto, unfolding(crate::proofs::Computed::computed))]
pub fn wait_scripts()
    ensures wait_selects { WaitSelects }
    ensures orphans_go_to_init { OrphansGoToInit }
{}

/// Worked scripts of the fall of a namespace.
pub fn fall_scripts()
    ensures fall_takes_members { FallTakesMembers }
    ensures fall_takes_members_end { FallTakesMembersEnd }
    ensures group_keeps_space { GroupKeepsSpace }
    ensures group_keeps_space_end { GroupKeepsSpaceEnd }
    ensures group_lets_space_go { GroupLetsSpaceGo }
    ensures group_lets_space_go_end { GroupLetsSpaceGoEnd }
    ensures fall_uncharges { FallUncharges }
{}

/// Worked scripts of control groups.
#[tactic(auto, unfolding(crate::proofs::Computed::computed))]
pub fn control_scripts()
    ensures limits_and_moves { LimitsAndMoves }
    ensures zombies_go_up { ZombiesGoUp }
    ensures control_refusals { ControlRefusals }
    ensures nearest_limit_first { NearestLimitFirst }
{}

/// A worked script of the depth of control groups.
#[tactic(auto, unfolding(crate::proofs::Computed::computed))]
pub fn depth_scripts()
    ensures { ControlDepthIs64 }
{}

/// Worked scripts of join.
#[tactic(auto, unfolding(crate::proofs::Computed::computed))]
pub fn join_scripts()
    ensures join_and_fall { JoinAndFall }
    ensures join_and_fall_end { JoinAndFallEnd }
    ensures no_fork_into_dropped { NoForkIntoDropped }
    ensures orphan_of_joined { OrphanOfJoined }
{}

/// Worked scripts of child subreapers.
#[tactic(auto, unfolding(crate::proofs::Computed::computed))]
pub fn subreaper_scripts()
    ensures subreaper_takes_children { SubreaperTakesChildren }
    ensures mark_kept_over_exec { MarkKeptOverExec }
    ensures mark_of_other_space { MarkOfOtherSpace }
    ensures mark_of_joined { MarkOfJoined }
{}

/// Worked scripts of threads.
pub fn thread_scripts()
    ensures threads_have_numbers { ThreadsHaveNumbers }
    ensures last_thread_ends { LastThreadEnds }
    ensures first_thread_ends { FirstThreadEnds }
    ensures exec_takes_threads { ExecTakesThreads }
    ensures threads_are_charged { ThreadsAreCharged }
    ensures last_of_init_falls { LastOfInitFalls }
    ensures last_thread_ends_end { LastThreadEndsEnd }
{}
