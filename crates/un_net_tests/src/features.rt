//! What the tests at a desk need to know of a machine, and the network as such a machine.
//!
//! The tests are written over any machine. So what they do at a desk is proved once, without all that a network is, and
//! what a desk asks of a machine is shown of the network where a test starts.

use std::alloc::Global;
use std::test::Fail;
use un_ask::{Command, Refusal, Reply, Request};
use un_core::Net;
use un_json::read_request;
use un_machine::Machine;
use un_schema_json::read_schema;

/// A machine whose commands insert and delete features.
pub(crate) trait FeatureMachine: Machine {
    /// A command that inserts a joint at the origin.
    fn insert(alloc: Global) -> Option<Self::Cmd>;

    /// A command that deletes the feature with the id 9, as it was at version 0.
    fn delete_nine(alloc: Global) -> Option<Self::Cmd>;

    /// The id in the reply to an edit.
    fn edited_id(reply: &Self::Reply) -> Option<u64>;

    /// Whether the reply refuses a command because no feature had the id 9 at version 1.
    fn finds_no_nine(reply: &Self::Reply) -> bool;

    /// How many features there are.
    fn feature_count(&self) -> u64;
}

impl FeatureMachine for Net {
    fn insert(alloc: Global) -> Option<Command> {
        command(
            alloc,
            b"{\"do\":\"insert\",\"kind\":\"joint\",\"points\":[[0,0,0]]}",
        )
    }

    fn delete_nine(alloc: Global) -> Option<Command> {
        command(alloc, b"{\"do\":\"delete\",\"id\":9,\"base\":0}")
    }

    fn edited_id(reply: &Reply) -> Option<u64> {
        match reply {
            Reply::Edited { id, .. } => Some(*id),
            _ => None,
        }
    }

    fn finds_no_nine(reply: &Reply) -> bool {
        matches!(
            reply,
            Reply::Refused {
                refusal: Refusal::NoSuchFeature { id: 9 },
                edit: None,
                version: 1,
            }
        )
    }

    fn feature_count(&self) -> u64 {
        self.rows()
    }
}

// The command that a request asks for.
fn command(alloc: Global, text: &[u8]) -> Option<Command> {
    match read_request(alloc, text) {
        Ok(Request::Command(command)) => Some(command),
        _ => None,
    }
}

/// The network without features under the schema 0.
pub(crate) fn network(alloc: Global) -> Result<Net, Fail> {
    let Ok((schema, tiers)) = read_schema(alloc, b"{\"schema\":0}") else {
        return Err(Fail::from("schema"));
    };
    Ok(Net::open(alloc, schema, tiers)?)
}
