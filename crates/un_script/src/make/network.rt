//! The commands.
ghost use Rattle.std.specs.Prelude.{◌≡◌, ◌≤◌, Some, IfOk};
ghost use Rattle.un_core.specs.State.{opening};
ghost use Rattle.un_gen.specs.Generator.{seeded, joints, pipes, generated};
ghost use Rattle.un_script.specs.Made.{built_in_setup, run_of, errors_of};
ghost use Rattle.un_script.specs.Redone.{redone};

use crate::recoverable::after;
use std::alloc::{AllocError, Global};
use un_ask::Reply;
use un_core::Net;
use un_gen::{Draws, joint, pipes_at, validation};
use un_schema_json::{SchemaFault, read_schema};

/// The line of the built-in schema.
const SCHEMA: &[u8] = b"{\"schema\":0}";

/// The network without features under the built-in schema.
pub(crate) fn open(alloc: Global) -> Result<Net, AllocError>
    ensures { IfOk result (λ net. net ≡ opening built_in_setup) }
{
    match read_schema(alloc, SCHEMA) {
        Ok((schema, tiers)) => Net::open(alloc, schema, tiers),
        Err(SchemaFault::Memory) => Err(AllocError),
        Err(SchemaFault::BadSchema { .. }) => unreachable!(),
    }
}

/// Applies the commands of a number, each once it is made. Answers the network after them, and the errors that the validation
/// at their end tells of.
pub(crate) fn apply_all(
    alloc: Global,
    net: Net,
    seed: u32,
    count: u32,
) -> Result<(Net, u64), AllocError>
    requires { count ≤ 20000 }
    ensures state { IfOk result (λ r. r.0 ≡ (run_of net (generated seed count)).state) }
    ensures errors { IfOk result (λ r. r.1 ≡ errors_of (run_of net (generated seed count)).reply) }
{
    let with_joints = with_joints(alloc, net, count)?;
    let with_pipes = with_pipes(alloc, with_joints, seed, count)?;
    let (checked, reply) = with_pipes.stepped(alloc, &validation())?;
    Ok((checked, errors_of(&reply)))
}

/// The network with the joints of all places.
fn with_joints(alloc: Global, net: Net, count: u32) -> Result<Net, AllocError>
    ensures { IfOk result (λ next. next ≡ redone net (joints count)) }
{
    let mut last = net;
    for place in 0..count {
        let (next, _) = last.stepped(alloc, &joint(alloc, place)?)?;
        last = next;
    }
    Ok(last)
}

/// The network with the pipes from all places.
fn with_pipes(alloc: Global, net: Net, seed: u32, count: u32) -> Result<Net, AllocError>
    requires { count ≤ 20000 }
    ensures { IfOk result (λ next. next ≡ redone net (pipes count (seeded seed) count)) }
{
    let mut draws = Draws::new(seed);
    let mut last = net;
    for place in 0..count {
        let pipes = pipes_at(alloc, count, place, &mut draws)?;
        last = after(alloc, last, pipes.as_slice())?;
    }
    Ok(last)
}

/// The errors that a reply tells of, if it is one to a validation; else 0.
fn errors_of(reply: &Reply) -> u64
    ensures { result ≡ errors_of (Some reply.now) }
{
    match reply {
        Reply::Validated { errors, .. } => *errors,
        _ => 0,
    }
}
