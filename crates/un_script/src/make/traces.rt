//! The queries.
ghost use Rattle.std.specs.Prelude.{◌≡◌, IfOk};
ghost use Rattle.un_ask.specs.declared.trace.TraceKind.TheVariants.{Connected, Loops};
ghost use Rattle.un_core.specs.Answers.{answer};
ghost use Rattle.un_script.specs.Made.{trace_of, features_of, segments_of};

use std::alloc::{AllocError, Global};
use un_ask::{Asked, Include, NamedFuncs, Query, Reply, TraceAsk, TraceKind};
use un_core::Net;
use un_defs::Port;
use un_defs::port::Ports;
use un_steps::Steps;

/// How many features are connected to the first joint.
pub(crate) fn connected(alloc: Global, net: &Net) -> Result<u64, AllocError>
    ensures { IfOk result (λ count. count ≡ features_of (answer net.now (trace_of Connected))) }
{
    Ok(features_of(&traced(alloc, net, TraceKind::Connected)?))
}

/// How many segments of what is connected to the first joint lie on loops.
pub(crate) fn loops(alloc: Global, net: &Net) -> Result<u64, AllocError>
    ensures { IfOk result (λ count. count ≡ segments_of (answer net.now (trace_of Loops))) }
{
    Ok(segments_of(&traced(alloc, net, TraceKind::Loops)?))
}

/// The reply to a trace from the first joint.
fn traced(alloc: Global, net: &Net, kind: TraceKind) -> Result<Reply, AllocError>
    ensures { IfOk result (λ reply. reply ≡ answer net.now (trace_of kind)) }
{
    let query = trace_of(alloc, kind)?;
    let mut steps: Steps<()> = Steps::new();
    net.answer(alloc, &query, &mut steps)
}

/// The trace from the first joint.
#[tactic(auto, unfolding(crate::specs::Made::trace_of))]
fn trace_of(alloc: Global, kind: TraceKind) -> Result<Query, AllocError>
    ensures { IfOk result (λ query. query ≡ trace_of kind) }
{
    let start = Port {
        feature: 1,
        number: 1,
    };
    let trace = TraceAsk {
        kind,
        starts: Ports::new(vec![in alloc; start]?),
        tier: None,
        subnet: None,
        isolators: None,
        barriers: None,
        stops: Ports::new(Vec::new(alloc)),
        consistent: true,
        include: Include::default(),
        functions: NamedFuncs::new(Vec::new(alloc)),
    };
    Ok(Query {
        seen: 0,
        what: Asked::Trace(trace),
    })
}

/// How many features a trace reached, if the reply has its result; else 0.
fn features_of(reply: &Reply) -> u64
    ensures { result ≡ features_of reply.now }
{
    match reply {
        Reply::Traced { result: traced, .. } => traced.features.as_slice().len() as u64,
        _ => 0,
    }
}

/// How many segments lie on loops, if the reply tells them; else 0.
fn segments_of(reply: &Reply) -> u64
    ensures { result ≡ segments_of reply.now }
{
    match reply {
        Reply::Loops { segments, .. } => segments.as_slice().len() as u64,
        _ => 0,
    }
}
