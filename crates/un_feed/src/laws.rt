//! What a copy is after pages, each as what a function ensures that does nothing.

ghost use Rattle.un_feed.specs.Laws.{AppliedDifference, PagesAreFollowed, SpansAreFollowed};

/// The differences of two kept topologies lead from the one to the other.
pub fn applied_difference()
    ensures { AppliedDifference }
{}

/// A copy that takes the pages from its topology to another one, in order, is a copy of the other one.
pub fn pages_are_followed()
    ensures { PagesAreFollowed }
{}

/// A copy that begins with nothing and takes the pages of all spans, in order, is a copy of the last topology.
pub fn spans_are_followed()
    ensures { SpansAreFollowed }
{}
