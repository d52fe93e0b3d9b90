use crate::edits::Edits;
use crate::query::{ChangesQuery, PastQuery, Query};
use crate::rule::NamedRule;
use un_defs::Edit;
use un_geom::Rect;
use un_schema::Name;

/// What a line of a script or a request over HTTP asks.
#[derive(Drop)]
pub enum Request {
    Command(Command),
    Query(Query),
    /// A query at a past version, which a server answers and a script does not.
    Past(PastQuery),
    /// A query for changes of the kept topology, which a server answers and a script does not.
    Changes(ChangesQuery),
}

/// What may change the state.
#[derive(Drop)]
pub enum Command {
    /// One edit. An edit that adds a rule comes as `Rule`, with its kinds by name.
    Edit(Edit),
    /// Several edits that are made all or not at all.
    Batch(Edits),
    /// Adds a rule to those in force.
    Rule { rule: NamedRule },
    /// Brings the topology up to date where dirty areas meet the extent.
    Validate { extent: Rect },
    /// Walks a subnetwork anew and stores what it found.
    Update { tier: Name, subnet: Name },
}
