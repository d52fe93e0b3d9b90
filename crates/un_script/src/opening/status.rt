//! A run of lines whose first line is a schema, and the status that a program ends with.
ghost use Rattle.std.specs.Prelude.{◌≡◌, ℕ, None, [], ◌∷◌, Contains};
ghost use Rattle.un_script.specs.Opening.{OpensBySchema};
ghost use Rattle.un_script.specs.Statuses.{RunsBy};

use std::alloc::Global;
use un_io::{Sink, Source};
use un_lines::{Ending, Handler, run_lines};

/// Runs a handler that has not begun over the lines of a source, writes its replies to a sink, and answers the status: 0 at the end of the
/// input, 3 and 4 where the source or the sink failed, 6 where the first line was refused, 7 where there was no memory to begin, and
/// 8 at the limit of bytes.
pub(crate) fn run_status<H: Handler, S: Source, K: Sink>(
    alloc: Global,
    handler: &mut H,
    source: &mut S,
    sink: &mut K,
) -> u8
    requires start { H.state handler.old ≡ None }
    requires schema { OpensBySchema H.rules }
    ensures statuses { Contains (0 ∷ 3 ∷ 4 ∷ 6 ∷ 7 ∷ 8 ∷ []) result }
    ensures runs { RunsBy H.rules (S.left source.old) (S.left source.new)
        (K.taken sink.old) (K.taken sink.new) (S.faults source.old) (S.faults source.new)
        (K.faults sink.old) (K.faults sink.new) result }
{
    match run_lines(alloc, handler, source, sink) {
        Ending::Ended => 0,
        Ending::SourceFault => 3,
        Ending::SinkFault => 4,
        Ending::Refused => 6,
        Ending::Memory => 7,
        Ending::Limit => 8,
    }
}
