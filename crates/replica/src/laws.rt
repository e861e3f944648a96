//! Laws of a log.
ghost use Rattle.replica.specs.Laws.{EachIsMadeOnce, OneLogIsOneReplica, RepeatsChangeNothing};

/// Of each session, the entries with the numbers 1, 2, 3 and so on are made, in this order, and each once, whatever
/// entries come and how often.
pub fn each_is_made_once()
    ensures { EachIsMadeOnce }
{}

/// Two replicas that were given one log have one table, one digest and the same sessions, and have given the same
/// answers.
pub fn one_log_is_one_replica()
    ensures { OneLogIsOneReplica }
{}

/// An entry that was made, and comes again, is a repeat, and changes nothing but the position.
pub fn repeats_change_nothing()
    ensures { RepeatsChangeNothing }
{}
