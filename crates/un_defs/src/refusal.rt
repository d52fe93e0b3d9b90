ghost use Rattle.un_defs.specs.declared.refusal.Refusal.TheVariants.{Memory};
ghost use Rattle.std.specs.Prelude.{◌≡◌};

use std::alloc::AllocError;
use un_geom::Point;
use un_schema::{Name, Place};

/// Why a request is refused. A refusal leaves the state as it was.
#[derive(Debug, Drop)]
pub enum Refusal {
    /// The line is no JSON value.
    NotJson,
    /// The value is no request: the first place that is bad.
    BadRequest {
        place: Place,
    },
    /// The line has more than 1,048,576 bytes.
    LineTooLong,
    /// The first line is no schema: the first place that is bad.
    BadSchema {
        place: Place,
    },
    /// No live feature has the id.
    NoSuchFeature {
        id: u64,
    },
    /// The base is not the feature's moment, which is `at`.
    Moved {
        at: u64,
    },
    /// The points are no shape of the kind's class: the number of the first that is bad, from 0.
    BadShape {
        place: usize,
    },
    NoSuchKind {
        kind: Name,
    },
    /// In byte order of names, the first attribute that is unknown, out of range, or the ninth.
    BadAttribute {
        attribute: Name,
    },
    /// The feature has no such terminal.
    BadTerminal {
        feature: u64,
    },
    /// The feature is no device with a configuration that has the path.
    BadPath,
    /// The feature is an end of associations, of which this one has the least id.
    HasAssociations {
        least: u64,
    },
    /// A controller sits on the feature.
    HasControllers,
    NoSuchAssociation,
    /// The feature's class is not one that the edit is for.
    WrongKind,
    /// The content is in this container.
    AlreadyContained {
        by: u64,
    },
    /// The content is the container, or the container is in the content.
    ContainsItself,
    NoSuchTier,
    /// The feature's kind may not be a controller.
    NotController,
    /// The terminal has a controller.
    ControllerExists,
    /// The terminal has no controller.
    NoSuchController,
    NoSuchSubnetwork,
    /// A controller of another subnetwork of the tier is reached.
    Conflict {
        subnet: Name,
        feature: u64,
        port: u8,
    },
    /// A controller of the subnetwork is not reached from the least one.
    Disjoint {
        feature: u64,
        port: u8,
    },
    /// The named count would pass its limit.
    Full {
        what: Limit,
    },
    /// The query wants a version that is not there yet.
    Ahead {
        seen: u64,
        latest: u64,
    },
    /// The feature has no such port to start from.
    NoStart {
        feature: u64,
        port: u8,
    },
    /// A start is on a device that isolates.
    StartIsValve {
        feature: u64,
        terminal: u8,
    },
    /// A condition has an unknown name, or is too deep or too large.
    BadCondition {
        place: Place,
    },
    /// A dirty area covers a reached node: the least such area, and the least such node's port.
    DirtyGround {
        area: u64,
        feature: u64,
        port: u8,
    },
    /// A controller of the tier cannot be cut off.
    NotIsolable {
        feature: u64,
        terminal: u8,
    },
    /// A rule names a terminal that its kind has not: the place in the rule's list.
    BadRuleTerminal {
        place: usize,
    },
    /// An equal rule is in force: its number, from 0.
    RuleExists {
        place: usize,
    },
    /// The answer of a version is asked for that is not there yet.
    NotYet {
        at: u64,
        latest: u64,
    },
    /// A script does not answer at past versions; a server does.
    ServeOnly,
    /// The page does not go on from what the follower has: its version, and the last point of the pages before it.
    WrongPage {
        after: Option<Point>,
        at: u64,
    },
    /// Changes are asked for from a version on that comes after the one up to which they are asked for.
    BadSpan {
        since: u64,
        upto: u64,
    },
    /// There was no memory; nothing has changed.
    Memory,
}

/// What there is a greatest number of.
#[derive(Clone, Copy, Debug, PartialEq, Eq, PartialOrd, Ord, Hash)]
pub enum Limit {
    /// Versions, ids and numbers of areas: 9,000,000,000,000,000.
    Numbers,
    /// Live features: 100,000.
    Features,
    /// Dirty areas: 65,536.
    Areas,
    /// Live associations: 200,000.
    Associations,
    /// Contents of one container: 4,096.
    Contents,
    /// Live controllers: 4,096.
    Controllers,
    /// Stored subnetworks: 4,096.
    Subnetworks,
    /// Rules in force: 4,096.
    Rules,
}

impl From<AllocError> for Refusal {
    ghost from_gives = { λ _ e. e ≡ Memory };

    fn from(_failed: AllocError) -> Refusal {
        Refusal::Memory
    }
}
