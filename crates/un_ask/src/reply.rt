//! What requests are answered.
ghost use Rattle.std.specs.Prelude.{◌≡◌};
ghost use Rattle.un_ask.specs.Replies.{on_dirty_ground};

use crate::areas::{Areas, PlacedErrors, Points};
use crate::results::{Controllers, Edges, Labels, Parts, Pieces, Segments, Totals};
use crate::stored::{Status, StoredSubnet};
use crate::trace::TraceKind;
use crate::word::EditWord;
use un_defs::port::Ports;
use un_defs::{Dirt, Flow, Ids, NamedAttrs, Note, Refusal};
use un_schema::Name;

/// What a request is answered. `areas` is the number of the first dirty area that the command made and how many it made,
/// both 0 where it made none; `version` is the state's version after the request.
#[derive(Drop)]
pub enum Reply {
    /// An edit was made. `id` is the new feature or association, the changed one, or the controller's device.
    Edited {
        areas: [u64; 2],
        id: u64,
        word: EditWord,
        version: u64,
    },
    /// A batch was made, with the id of each edit.
    Batch {
        areas: [u64; 2],
        ids: Ids,
        version: u64,
    },
    /// A rule was added; `rules` are now in force.
    Ruled {
        areas: [u64; 2],
        rules: u64,
        version: u64,
    },
    /// So many areas were cleared, and so many errors stand at their points.
    Validated {
        cleared: u64,
        errors: u64,
        version: u64,
    },
    /// A subnetwork was stored, or removed where there is no row.
    Updated {
        row: Option<StoredSubnet>,
        version: u64,
    },
    Version {
        version: u64,
    },
    Feature {
        feature: FeatureReply,
        version: u64,
    },
    Dirty {
        areas: Areas,
        version: u64,
    },
    Errors {
        errors: PlacedErrors,
        version: u64,
    },
    Subnet {
        controllers: Ports,
        members: Ids,
        status: Status,
        subnet: Name,
        tier: Name,
        updated: u64,
        version: u64,
    },
    /// The result of a connected, subnetwork, upstream or downstream trace.
    Traced {
        result: ResultReply,
        version: u64,
    },
    Controllers {
        controllers: Controllers,
        version: u64,
    },
    Loops {
        segments: Segments,
        version: u64,
    },
    Isolation {
        borders: Ports,
        features: Parts,
        version: u64,
    },
    /// The best walk, with no cost where there is no walk. The labels are those that were asked for.
    Path {
        cost: Option<u128>,
        labels: Labels,
        nodes: Ports,
        version: u64,
    },
    /// Whether a certificate is valid.
    Check {
        valid: bool,
        version: u64,
    },
    Diagram {
        edges: Edges,
        kept: Ports,
        pieces: Pieces,
        version: u64,
    },
    /// The request was refused. `edit` is the place of the refused edit in a batch, from 0.
    Refused {
        refusal: Refusal,
        edit: Option<u64>,
        version: u64,
    },
}

impl Reply {
    /// The reply of a walk that meets dirt, which names the area and the port. The caller puts in the version.
    pub fn on_dirty_ground(dirt: Dirt) -> Reply
        ensures { result ≡ on_dirty_ground dirt }
    {
        Reply::Refused {
            refusal: Refusal::DirtyGround {
                area: dirt.area,
                feature: dirt.port.feature,
                port: dirt.port.number,
            },
            edit: None,
            version: 0,
        }
    }
}

/// A feature as it stands, with its names.
#[derive(Drop)]
pub struct FeatureReply {
    pub attrs: NamedAttrs,
    /// The version after the command that last changed it.
    pub base: u64,
    pub ends: [u8; 2],
    pub flow: Flow,
    pub id: u64,
    pub kind: Name,
    pub note: Note,
    /// The current path of a device that has a configuration.
    pub path: Option<Name>,
    pub points: Points,
}

/// What a trace reached. An inclusion that was not asked for is empty.
#[derive(Drop)]
pub struct ResultReply {
    pub containers: Ids,
    pub content: Ids,
    pub features: Parts,
    pub functions: Totals,
    pub kind: TraceKind,
    pub structures: Ids,
}
