//! What holds of every state, each as what a function ensures that does nothing.

ghost use Rattle.un_core.specs.Changes.{KeptElsewhereLaw, KeptWereFreshLaw};
ghost use Rattle.un_core.specs.Commands.{StepLaw};
ghost use Rattle.un_core.specs.Cover.{CoverLaw, HistoryLaw, StepLocalityLaw};
ghost use Rattle.un_core.specs.Walks.{WalkLaw, TwoGroundsLaw};

/// Each point that no dirty area covers has its fresh star, whatever commands were accepted.
pub fn cover_is_kept()
    ensures { CoverLaw }
{}

/// A command, whether one edit, a batch or a validation, changes the stars of the features only under the rectangles that it makes dirty.
#[tactic(auto, using(crate::proofs::StepLocality::steps_are_local))]
pub fn steps_are_local()
    ensures { StepLocalityLaw }
{}

/// The kept topology and the dirty areas are determined by the accepted commands.
#[tactic(auto, using(crate::proofs::HistoryKept::kept_is_history))]
pub fn kept_is_history()
    ensures { HistoryLaw }
{}

/// The nodes that a trace is said to reach are exactly those in which a walk ends, over the kept topology, over all features and over what
/// a history leaves; and the errors that are listed are exactly those of the stars.
#[tactic(auto, using(crate::proofs::Exact::walks_are_exact))]
pub fn walks_are_exact()
    ensures { WalkLaw }
{}

/// A consistent trace over the kept topology answers as it does over all features: by the same result, or by the same refusal for dirty
/// ground.
#[tactic(auto, using(crate::proofs::HistoryAnswers::two_grounds))]
pub fn two_grounds()
    ensures { TwoGroundsLaw }
{}

/// What a step gives is the reply to its command and the state after it; the reply is one of a command, and short.
#[tactic(auto, using(crate::proofs::Stepping::steps_reply))]
pub fn steps_reply()
    ensures { StepLaw }
{}

/// Between two versions of one log, the kept star of a point is the same unless an area over it was cleared, or a command made the point
/// dirty.
#[tactic(auto, using(crate::proofs::Elsewhere::kept_elsewhere))]
pub fn kept_elsewhere()
    ensures { KeptElsewhereLaw }
{}

/// Each star that is kept after the commands of a log was the star of all features at its point, in some state on the way there.
pub fn kept_stars_were_fresh()
    ensures { KeptWereFreshLaw }
{}
