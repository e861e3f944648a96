//! A query is answered from what the caller's namespace sees.
ghost use Rattle.model_laws.specs.SightLaws.{
  QueriesAnswerSeen,
  SameSightSameAnswers,
  SameSightSameThreadAnswers,
  ThreadQueriesAnswerSeen,
};

/// Each query of a live process is answered from its own number and what its namespace sees.
#[tactic(auto, using(crate::proofs::Glimpses::queries_answer_seen))]
pub fn queries_answer_seen()
    ensures { QueriesAnswerSeen }
{}

/// Two live processes whose namespaces see the same, and whose own numbers are equal, get the same
/// answers.
#[tactic(auto, using(crate::proofs::Glimpses::same_sight_same_answers))]
pub fn same_sight_same_answers()
    ensures { SameSightSameAnswers }
{}

/// Each query about threads is answered from the calling thread's own number and what its namespace
/// sees. So two threads whose namespaces see the same, and whose own numbers are equal, get the same
/// answers.
pub fn thread_queries_answer_seen()
    ensures seen { ThreadQueriesAnswerSeen }
    ensures same { SameSightSameThreadAnswers }
{}
