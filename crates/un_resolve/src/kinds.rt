//! What a trace of each kind needs.

ghost use Rattle.std.specs.Prelude.{◌≡◌};
ghost use Rattle.un_resolve.specs.Kinds.{is_subnetwork, is_isolation, needs_tier, is_always_consistent, lacking};

use un_ask::{TraceAsk, TraceKind};
use un_defs::Refusal;
use un_schema::Place;

/// A trace of the kind starts at the controllers of a subnetwork.
pub(crate) fn is_subnetwork(kind: TraceKind) -> bool
    ensures { result ≡ is_subnetwork kind }
{
    matches!(kind, TraceKind::Subnetwork)
}

/// A trace of the kind needs isolating devices.
fn is_isolation(kind: TraceKind) -> bool
    ensures { result ≡ is_isolation kind }
{
    matches!(kind, TraceKind::Isolation)
}

/// A trace of the kind walks in a tier.
fn needs_tier(kind: TraceKind) -> bool
    ensures { result ≡ needs_tier kind }
{
    !matches!(kind, TraceKind::Connected | TraceKind::Loops)
}

/// A trace of the kind is consistent, whatever is asked for.
pub(crate) fn is_always_consistent(kind: TraceKind) -> bool
    ensures { result ≡ is_always_consistent kind }
{
    matches!(kind, TraceKind::Loops | TraceKind::Isolation)
}

/// The refusal for the first member that the trace's kind needs and that is not given.
pub(crate) fn lacking(ask: &TraceAsk) -> Option<Refusal>
    ensures { result ≡ lacking ask.now }
{
    let place = if needs_tier(ask.kind) && ask.tier.is_none() {
        Place::Tier
    } else if is_subnetwork(ask.kind) && ask.subnet.is_none() {
        Place::Subnet
    } else if is_isolation(ask.kind) && ask.isolators.is_none() {
        Place::Isolators
    } else {
        return None;
    };
    Some(Refusal::BadRequest { place })
}
