//! What holds of each run of the machine, whatever is late, lost or doubled.
ghost use Rattle.host_calls.specs.{HostWorld.{HostWorld}, CallPromises.{IsComeBy, IsMadeOnce, AnswersAreTheLogs}};
ghost use Rattle.host_calls.specs.CallPromises.{PutsNoneThatIsUnmade, TellsOnce, TellsWhatWasRead, LosesNone};
ghost use Rattle.host_calls.specs.CallPromises.{TellsAllInTheEnd, SomeCallIsAnswered};
ghost use Rattle.host_calls.specs.CallNumbers.{NumbersTellHosts, NumbersTellCalls};

/// The promises to whoever submits a call, in each state that a host can come to; the call does nothing.
pub fn keeps_its_promises()
    ensures is_made_once { (w : HostWorld) → IsComeBy w → IsMadeOnce w }
    ensures answers_are_the_logs { (w : HostWorld) → IsComeBy w → AnswersAreTheLogs w }
    ensures puts_none_that_is_unmade { (w : HostWorld) → IsComeBy w → PutsNoneThatIsUnmade w }
    ensures tells_once { (w : HostWorld) → IsComeBy w → TellsOnce w }
    ensures tells_what_was_read { (w : HostWorld) → IsComeBy w → TellsWhatWasRead w }
    ensures loses_none { (w : HostWorld) → IsComeBy w → LosesNone w }
    ensures tells_all_in_the_end { (w : HostWorld) → IsComeBy w → TellsAllInTheEnd w }
{}

/// C may keep the numbers of hosts and of calls: they tell each, and nothing is lost.
pub fn numbers_tell_all()
    ensures hosts { NumbersTellHosts }
    ensures calls { NumbersTellCalls }
{}

/// There is a run in which a call is answered.
pub fn answers_calls()
    ensures { SomeCallIsAnswered }
{}
