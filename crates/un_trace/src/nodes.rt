//! The nodes of a result with their entries.

ghost use Rattle.std.specs.Prelude.{◌≡◌};
ghost use Rattle.un_trace.specs.Seen.{is_in_result, in_result};

use un_defs::Barriers;
use un_walk::Seen;

/// Whether the node is in the result: it is no barrier, or barriers are asked for.
pub(crate) fn is_in_result(one: &Seen, barriers: &Barriers, with_barriers: bool) -> bool
    ensures { result ≡ is_in_result barriers.now with_barriers one.now }
{
    with_barriers || !one.is_barrier(barriers)
}

/// Of the reached nodes those that are no barrier, and the barriers too where they are asked for.
pub(crate) fn seen_in_result<'a>(
    reached: Vec<Seen<'a>>,
    barriers: &Barriers,
    with_barriers: bool,
) -> Vec<Seen<'a>>
    ensures { result.items ≡ in_result barriers.now with_barriers reached.entry.items }
{
    let mut seen = reached;
    seen.retain(|one| is_in_result(one, barriers, with_barriers));
    seen
}
