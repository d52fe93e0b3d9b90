//! What holds of all requests that a session handles one after another. Each law is the contract of a function that does
//! nothing.
ghost use Rattle.un_turns.specs.Conversations.{SnocLaw, VersionLaw, OwnLaw, WaitLaw, TrueTurnsLaw, DenialLaw};
ghost use Rattle.un_turns.specs.Served.{answering};
ghost use Rattle.un_turns.specs.Truths.{LostLaw, ReplyLaw, MoreLaw, TruthLaw};
ghost use Rattle.un_turns.specs.Prepared.{ReadFirstLaw, ReadFirstFaultLaw};

use crate::answers::Answers;
use un_machine::Machine;
use un_publish::published::BoardName;

/// One more turn may follow those that took place.
#[tactic(auto, using(crate::proofs::Turning::conversed_more))]
pub fn one_more_turn<M: Machine, A: Answers<M>, J: BoardName<M>>()
    ensures { SnocLaw M.Hint M.step J.opening A.least }
{}

/// The versions never fall, and none is below what the session had seen.
#[tactic(auto, using(crate::proofs::Turning::versions_rise))]
pub fn versions_rise<M: Machine, A: Answers<M>, J: BoardName<M>>()
    ensures { VersionLaw M.Hint M.step J.opening A.least }
{}

/// The session's own entries are those before, and then the accepted commands, each once and in order.
#[tactic(auto, using(crate::proofs::Owning::own_grow))]
pub fn own_entries_grow<M: Machine, A: Answers<M>, J: BoardName<M>>()
    ensures { OwnLaw M.Hint M.step J.opening A.least }
{}

/// The count of waits rises by at most one for each command, one for each query that asks for more entries than are
/// known, one for each query at a past version, and two for each query about two versions.
#[tactic(auto, using(crate::proofs::Waiting::waits_bounded))]
pub fn waits_are_bounded<M: Machine, A: Answers<M>, J: BoardName<M>>()
    ensures { WaitLaw M.Hint M.step J.opening A.least }
{}

/// What each turn reports is true of the entries that the session has seen in the end.
#[tactic(auto, using(crate::proofs::Holding::all_hold))]
pub fn replies_are_true<M: Machine, A: Answers<M>, J: BoardName<M>>()
    ensures { TrueTurnsLaw M.Hint M.step J.opening A.least }
{}

/// Each denial is counted, and nothing else is.
#[tactic(auto, using(crate::proofs::Denying::denials_counted))]
pub fn denials_are_counted<M: Machine, A: Answers<M>, J: BoardName<M>>()
    ensures { DenialLaw M.Hint M.step J.opening A.least }
{}

/// The reply in a response is that of a step of the machine.
pub fn replies_are_steps<M: Machine, A: Answers<M>, J: BoardName<M>>()
    ensures { ReplyLaw M.Hint M.step J.opening A.least (answering A.answer A.between) }
{}

/// One more request may follow those that were handled.
#[tactic(auto, using(crate::proofs::Serving::served_more))]
pub fn one_more_request<M: Machine, A: Answers<M>, J: BoardName<M>>()
    ensures { MoreLaw M.Hint M.step J.opening A.least (answering A.answer A.between) }
{}

/// If memory runs out before an answer at a past version is printed, the request may as well have had that response.
pub fn past_answers_may_be_lost<M: Machine, A: Answers<M>, J: BoardName<M>>()
    ensures { LostLaw M.Hint M.step J.opening A.least (answering A.answer A.between) }
{}

/// All that is promised of requests and their responses holds if they were handled one after another.
#[tactic(auto, using(crate::proofs::Truths::truthful))]
pub fn responses_are_truthful<M: Machine, A: Answers<M>, J: BoardName<M>>()
    ensures { TruthLaw M.Hint M.step J.opening A.least (answering A.answer A.between) }
{}

/// A session may read before it submits a command, to prepare work for it: the two calls do what submitting alone may do.
pub fn reads_may_come_first<M: Machine, J: BoardName<M>>()
    ensures receipt { ReadFirstLaw M.Hint M.step J.opening }
    ensures fault { ReadFirstFaultLaw M.Hint M.step J.opening }
{}
