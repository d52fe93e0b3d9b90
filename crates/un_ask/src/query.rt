use crate::diagram::NamedDiagram;
use crate::path::{NamedCheck, NamedPath};
use crate::trace::TraceAsk;
use un_geom::{Point, Rect};
use un_schema::Name;

/// A question, which is refused where `seen` is over the version of the state that answers.
#[derive(Drop)]
pub struct Query {
    /// The least version that may answer.
    pub seen: u64,
    pub what: Asked,
}

/// What is asked.
#[derive(Drop)]
pub enum Asked {
    Version,
    Feature { id: u64 },
    Dirty { extent: Rect },
    Errors { extent: Rect },
    Subnet { tier: Name, subnet: Name },
    Trace(TraceAsk),
    Path(NamedPath),
    Check(NamedCheck),
    Diagram(NamedDiagram),
}

/// A question about the state at a past version, which is refused where `seen` is over the version that is read.
#[derive(Drop)]
pub struct PastQuery {
    /// The least version that may be read.
    pub seen: u64,
    /// The version at which the question is answered.
    pub at: u64,
    pub what: Asked,
}

/// A question for the differences between the kept topologies of two versions, which is refused where `seen` is over the version that is
/// read.
#[derive(Clone, Copy, Debug, PartialEq, Eq, Hash)]
pub struct ChangesQuery {
    /// The least version that may be read.
    pub seen: u64,
    /// The version that the asker has.
    pub since: u64,
    /// The version that the asker wants to have, or that of the view that is read.
    pub upto: Option<u64>,
    /// Only changes at points after it are asked for.
    pub after: Option<Point>,
    /// The most changes of the answer, from 1 to 1,000.
    pub most: u64,
}
