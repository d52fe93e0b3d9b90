//! Copies of replies.
//!
//! A reply is copied part by part: numbers and words as they are, each list and each name into memory of its own. So
//! the copy and its source share nothing, and either may be dropped before the other. It takes time and memory in
//! proportion to what the reply holds.
ghost use Rattle.std.specs.Prelude.{◌≡◌, IfOk};
ghost use Rattle.un_ask.specs.Groups.{IsPlainReply, IsCommandReply, IsQueryReply, IsTraceReply, IsShownReply};

use crate::reply::{FeatureReply, Reply, ResultReply};
use crate::stored::StoredSubnet;
use std::alloc::{AllocError, Global};
use un_schema::Name;

mod lists;
mod refusal;

use lists::{copy_attrs, copy_controllers, copy_parts};
use refusal::copy_refusal;

impl Reply {
    /// An equal reply of its own. Want of memory is the one error.
    pub fn copy(&self, alloc: Global) -> Result<Reply, AllocError>
        ensures { IfOk result (λ copy. copy ≡ self.now) }
    {
        match self {
            Reply::Edited { .. }
            | Reply::Ruled { .. }
            | Reply::Validated { .. }
            | Reply::Version { .. }
            | Reply::Check { .. } => Ok(copy_plain(self)),
            Reply::Batch { .. } | Reply::Updated { .. } | Reply::Refused { .. } => {
                copy_command_reply(alloc, self)
            }
            Reply::Feature { .. }
            | Reply::Dirty { .. }
            | Reply::Errors { .. }
            | Reply::Subnet { .. } => copy_query_reply(alloc, self),
            Reply::Traced { .. }
            | Reply::Controllers { .. }
            | Reply::Loops { .. }
            | Reply::Isolation { .. } => copy_trace_reply(alloc, self),
            Reply::Path { .. } | Reply::Diagram { .. } => copy_shown_reply(alloc, self),
        }
    }
}

/// A reply that holds numbers and words alone. It takes no memory.
fn copy_plain(reply: &Reply) -> Reply
    requires { IsPlainReply reply.now }
    ensures { result ≡ reply.now }
{
    match reply {
        Reply::Edited {
            areas,
            id,
            word,
            version,
        } => Reply::Edited {
            areas: *areas,
            id: *id,
            word: *word,
            version: *version,
        },
        Reply::Ruled {
            areas,
            rules,
            version,
        } => Reply::Ruled {
            areas: *areas,
            rules: *rules,
            version: *version,
        },
        Reply::Validated {
            cleared,
            errors,
            version,
        } => Reply::Validated {
            cleared: *cleared,
            errors: *errors,
            version: *version,
        },
        Reply::Version { version } => Reply::Version { version: *version },
        Reply::Check { valid, version } => Reply::Check {
            valid: *valid,
            version: *version,
        },
        _ => unreachable!(),
    }
}

/// A reply of a command that holds more than numbers and words.
fn copy_command_reply(alloc: Global, reply: &Reply) -> Result<Reply, AllocError>
    requires { IsCommandReply reply.now }
    ensures { IfOk result (λ copy. copy ≡ reply.now) }
{
    match reply {
        Reply::Batch {
            areas,
            ids,
            version,
        } => Ok(Reply::Batch {
            areas: *areas,
            ids: ids.copy(alloc)?,
            version: *version,
        }),
        Reply::Updated { row, version } => Ok(Reply::Updated {
            row: copy_row(alloc, row)?,
            version: *version,
        }),
        Reply::Refused {
            refusal,
            edit,
            version,
        } => Ok(Reply::Refused {
            refusal: copy_refusal(alloc, refusal)?,
            edit: *edit,
            version: *version,
        }),
        _ => unreachable!(),
    }
}

/// A reply of a query.
fn copy_query_reply(alloc: Global, reply: &Reply) -> Result<Reply, AllocError>
    requires { IsQueryReply reply.now }
    ensures { IfOk result (λ copy. copy ≡ reply.now) }
{
    match reply {
        Reply::Feature { feature, version } => Ok(Reply::Feature {
            feature: copy_feature(alloc, feature)?,
            version: *version,
        }),
        Reply::Dirty { areas, version } => Ok(Reply::Dirty {
            areas: areas.copy(alloc)?,
            version: *version,
        }),
        Reply::Errors { errors, version } => Ok(Reply::Errors {
            errors: errors.copy(alloc)?,
            version: *version,
        }),
        Reply::Subnet {
            controllers,
            members,
            status,
            subnet,
            tier,
            updated,
            version,
        } => Ok(Reply::Subnet {
            controllers: controllers.copy(alloc)?,
            members: members.copy(alloc)?,
            status: *status,
            subnet: subnet.copy(alloc)?,
            tier: tier.copy(alloc)?,
            updated: *updated,
            version: *version,
        }),
        _ => unreachable!(),
    }
}

/// A reply of a trace.
fn copy_trace_reply(alloc: Global, reply: &Reply) -> Result<Reply, AllocError>
    requires { IsTraceReply reply.now }
    ensures { IfOk result (λ copy. copy ≡ reply.now) }
{
    match reply {
        Reply::Traced {
            result: traced,
            version,
        } => Ok(Reply::Traced {
            result: copy_result(alloc, traced)?,
            version: *version,
        }),
        Reply::Controllers {
            controllers,
            version,
        } => Ok(Reply::Controllers {
            controllers: copy_controllers(alloc, controllers)?,
            version: *version,
        }),
        Reply::Loops { segments, version } => Ok(Reply::Loops {
            segments: segments.copy(alloc)?,
            version: *version,
        }),
        Reply::Isolation {
            borders,
            features,
            version,
        } => Ok(Reply::Isolation {
            borders: borders.copy(alloc)?,
            features: copy_parts(alloc, features)?,
            version: *version,
        }),
        _ => unreachable!(),
    }
}

/// A path or a diagram.
fn copy_shown_reply(alloc: Global, reply: &Reply) -> Result<Reply, AllocError>
    requires { IsShownReply reply.now }
    ensures { IfOk result (λ copy. copy ≡ reply.now) }
{
    match reply {
        Reply::Path {
            cost,
            labels,
            nodes,
            version,
        } => Ok(Reply::Path {
            cost: *cost,
            labels: labels.copy(alloc)?,
            nodes: nodes.copy(alloc)?,
            version: *version,
        }),
        Reply::Diagram {
            edges,
            kept,
            pieces,
            version,
        } => Ok(Reply::Diagram {
            edges: edges.copy(alloc)?,
            kept: kept.copy(alloc)?,
            pieces: pieces.copy(alloc)?,
            version: *version,
        }),
        _ => unreachable!(),
    }
}

/// A stored subnetwork, or none where it was removed.
fn copy_row(alloc: Global, row: &Option<StoredSubnet>) -> Result<Option<StoredSubnet>, AllocError>
    ensures { IfOk result (λ copy. copy ≡ row.now) }
{
    match row {
        Some(row) => Ok(Some(StoredSubnet {
            tier: row.tier,
            subnet: row.subnet.copy(alloc)?,
            controllers: row.controllers.copy(alloc)?,
            members: row.members.copy(alloc)?,
            points: row.points.copy(alloc)?,
            updated: row.updated,
            status: row.status,
        })),
        None => Ok(None),
    }
}

/// A feature with its names.
fn copy_feature(alloc: Global, feature: &FeatureReply) -> Result<FeatureReply, AllocError>
    ensures { IfOk result (λ copy. copy ≡ feature.now) }
{
    Ok(FeatureReply {
        attrs: copy_attrs(alloc, &feature.attrs)?,
        base: feature.base,
        ends: feature.ends,
        flow: feature.flow,
        id: feature.id,
        kind: feature.kind.copy(alloc)?,
        note: feature.note.copy(alloc)?,
        path: copy_path(alloc, &feature.path)?,
        points: feature.points.copy(alloc)?,
    })
}

/// The name of a path, if there is one.
fn copy_path(alloc: Global, path: &Option<Name>) -> Result<Option<Name>, AllocError>
    ensures { IfOk result (λ copy. copy ≡ path.now) }
{
    match path {
        Some(path) => Ok(Some(path.copy(alloc)?)),
        None => Ok(None),
    }
}

/// What a trace reached.
fn copy_result(alloc: Global, traced: &ResultReply) -> Result<ResultReply, AllocError>
    ensures { IfOk result (λ copy. copy ≡ traced.now) }
{
    Ok(ResultReply {
        containers: traced.containers.copy(alloc)?,
        content: traced.content.copy(alloc)?,
        features: copy_parts(alloc, &traced.features)?,
        functions: traced.functions.copy(alloc)?,
        kind: traced.kind,
        structures: traced.structures.copy(alloc)?,
    })
}
