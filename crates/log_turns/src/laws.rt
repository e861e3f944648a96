//! What holds of each run of the machine, whatever fails and whenever the power does.
ghost use Rattle.log_turns.specs.{World.{World}, Promises.{IsComeTo, AnswersWhatIsSynced, HasEachCallOnce}};
ghost use Rattle.log_turns.specs.Promises.{AnswersNoMore, KeepsIfKilled, KeepsWithoutPower, NamesWhatIsThere};

/// The promises of the log, in each state that it can come to; the call does nothing.
pub fn keeps_its_promises()
    ensures answers_what_is_synced { (w : World) → IsComeTo w → AnswersWhatIsSynced w }
    ensures has_each_call_once { (w : World) → IsComeTo w → HasEachCallOnce w }
    ensures answers_no_more { (w : World) → IsComeTo w → AnswersNoMore w }
    ensures keeps_if_killed { (w : World) → IsComeTo w → KeepsIfKilled w }
    ensures keeps_without_power { (w : World) → IsComeTo w → KeepsWithoutPower w }
    ensures names_what_is_there { (w : World) → IsComeTo w → NamesWhatIsThere w }
{}
