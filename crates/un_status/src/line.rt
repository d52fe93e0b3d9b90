//! A line that a program writes.
ghost use Rattle.std.specs.Prelude.{[], ◌∷◌, Contains};
ghost use Rattle.un_status.specs.Statuses.{WritesLine};

use un_io::{Sink, SinkFault, write_all};

/// Writes a line, and answers the status: 0 where it is written, 4 where the sink failed.
pub fn write_line<K: Sink>(sink: &mut K, line: &[u8]) -> u8
    ensures statuses { Contains (0 ∷ 4 ∷ []) result }
    ensures writes { WritesLine line.now (K.taken sink.old) (K.taken sink.new)
        (K.faults sink.old) (K.faults sink.new) result }
{
    match write_all(sink, line) {
        Ok(()) => 0,
        Err(SinkFault) => 4,
    }
}
