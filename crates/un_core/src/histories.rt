//! What the accepted commands alone lead to and answer, each as what a function ensures that does nothing.

ghost use Rattle.un_core.specs.Accepted.{MayLaw, SetupLaw, OpeningLaw, AfterLaw, VersionLaw};
ghost use Rattle.un_core.specs.Clearing.{ValidationLaw};
ghost use Rattle.un_core.specs.HistoryAnswers.{ReplyLaw, AnswerLaw};
ghost use Rattle.un_core.specs.Logs.{LogLaw};
ghost use Rattle.un_core.specs.Requests.{FaithfulLaw, BehindLaw};

/// A command that is not refused might happen: a row that an edit makes or changes fits its kind, and nothing stands on a row that goes. In
/// a batch this holds of each edit where the ones before it are made.
pub fn accepted_commands_may_happen()
    ensures { MayLaw }
{}

/// No command changes the schema or the tiers.
#[tactic(auto, using(crate::proofs::Accepted::same_setup))]
pub fn setup_stays()
    ensures { SetupLaw }
{}

/// A network is opened without a history.
#[tactic(auto, using(crate::proofs::Accepted::opening_is_after))]
pub fn opening_has_no_history()
    ensures { OpeningLaw }
{}

/// The state after a command is the one after the accepted commands.
pub fn commands_lead()
    ensures { AfterLaw }
{}

/// The version is the number of accepted commands.
#[tactic(auto, using(crate::proofs::Accepted::versions_count))]
pub fn versions_count()
    ensures { VersionLaw }
{}

/// A validation rebuilds the areas that meet its extent and clears them, changes nothing else, and tells of the errors that are there.
pub fn validation_clears()
    ensures { ValidationLaw }
{}

/// The reply to a command is determined by the schema, the tiers and the accepted commands.
#[tactic(auto, using(crate::proofs::HistoryAnswers::history_replies))]
pub fn replies_are_of_history()
    ensures { ReplyLaw }
{}

/// The answer of a query is determined by the schema, the tiers and the accepted commands.
#[tactic(auto, using(crate::proofs::HistoryAnswers::history_answers))]
pub fn answers_are_of_history()
    ensures { AnswerLaw }
{}

/// Where a log leads, its commands lead, and the version there is the log's length.
#[tactic(auto, using(crate::proofs::Logs::logs_are_histories))]
pub fn logs_are_histories()
    ensures { LogLaw }
{}

/// The state after a history replies and answers as the history does, over exactly what walks reach.
#[tactic(auto, using(crate::proofs::Faithful::states_are_faithful))]
pub fn states_are_faithful()
    ensures { FaithfulLaw }
{}

/// The state behind a request is the one after the history behind it.
#[tactic(auto, using(crate::proofs::Faithful::requests_lead))]
pub fn requests_lead()
    ensures { BehindLaw }
{}
