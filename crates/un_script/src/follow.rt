//! A copy of a server's topology that follows its pages, from bytes to bytes.
ghost use Rattle.std.specs.Prelude.{[], ◌∷◌, Contains};
ghost use Rattle.un_script.specs.Runs.{RunsFollow};

mod copy;
mod handler;

use crate::follow::handler::Follow;
use crate::opening::run_status;
use std::alloc::Global;
use un_io::{Sink, Source};

/// Runs a follower over the lines of a source, and answers the status of the program.
///
/// The first line is a schema's. Each later one is a page of changes, which the copy takes if it fits and which is refused otherwise, or a
/// question for the star that the copy has at a point. What is due is a function of the bytes read alone, except for lines that ran out of
/// memory, which the output identifies. Where a source or a sink doesn't tell its bytes, what is said of the status and its cause holds
/// alone.
///
/// The status is 0 at the end of the input, 3 and 4 where the source or the sink failed, 6 where the first line was refused, 7 where there
/// was no memory to begin, and 8 at the limit of 2 ^ 32 bytes.
#[tactic(auto, using(crate::proofs::FollowOpens::follow_opens))]
pub(crate) fn run_follow<S: Source, K: Sink>(alloc: Global, source: &mut S, sink: &mut K) -> u8
    ensures statuses { Contains (0 ∷ 3 ∷ 4 ∷ 6 ∷ 7 ∷ 8 ∷ []) result }
    ensures runs { RunsFollow (S.left source.old) (S.left source.new)
        (K.taken sink.old) (K.taken sink.new) (S.faults source.old) (S.faults source.new)
        (K.faults sink.old) (K.faults sink.new) result }
{
    let mut handler = Follow::new();
    run_status(alloc, &mut handler, source, sink)
}
