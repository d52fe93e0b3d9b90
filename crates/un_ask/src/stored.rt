use crate::areas::Points;
use un_defs::Ids;
use un_defs::port::Ports;
use un_schema::Name;

/// Whether a stored subnetwork is as it was walked.
#[derive(Clone, Copy, Debug, PartialEq, Eq, PartialOrd, Ord, Hash)]
pub enum Status {
    Clean,
    /// A validation changed the topology at one of its points, or at another where the subnetwork has a controller.
    Dirty,
}

/// What the last update of a subnetwork found.
#[derive(Drop)]
pub struct StoredSubnet {
    /// The number of its tier.
    pub tier: u8,
    pub subnet: Name,
    /// The ports of its controllers, rising.
    pub controllers: Ports,
    /// The features that the walk reached, rising.
    pub members: Ids,
    /// The points that the walk reached.
    pub points: Points,
    /// The version after the update.
    pub updated: u64,
    pub status: Status,
}
