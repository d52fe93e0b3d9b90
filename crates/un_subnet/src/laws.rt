//! The laws of updates and of the status of stored rows, each as what a function ensures that does nothing.

ghost use Rattle.un_subnet.specs.Laws.{StartsLaw, AloneLaw, MayUpdateLaw, RowPointsLaw, SameReplyLaw, SameOutcomeLaw, MadeDirtyLaw, SameDirtyLaw};

/// Each controller of a subnetwork has a node from which it is walked.
pub fn starts()
    ensures { StartsLaw }
{}

/// Of the nodes that walks from all controllers reach, the list has those that walks from the least one reach.
pub fn alone()
    ensures { AloneLaw }
{}

/// The walk of a subnetwork that has controllers may be asked for.
pub fn may_update()
    ensures { MayUpdateLaw }
{}

/// The points of a row that is to be stored are in order.
pub fn row_points()
    ensures { RowPointsLaw }
{}

/// Grounds with the same areas and, where no area covers a reached node, with the same entries at the reached nodes give the same reply
/// and the same outcome.
pub fn two_grounds()
    ensures reply { SameReplyLaw }
    ensures outcome { SameOutcomeLaw }
{}

/// Where each star that changes is looked at, the test tells whether a stored row becomes dirty, whatever else is looked at.
pub fn made_dirty()
    ensures test { MadeDirtyLaw }
    ensures same { SameDirtyLaw }
{}
