//! The commands that end by themselves, from words and bytes to bytes.
ghost use Rattle.std.specs.Prelude.{◌≡◌, ◌⊎◌, ◌↔◌, ◌≤◌, None, [], ◌∷◌, Contains};
ghost use Rattle.un_script.specs.Made.{made_line};
ghost use Rattle.un_script.specs.Runs.{IsScript, IsFollow, IsMake, RunsScript, RunsMake, RunsScriptOver, RunsFollowOver, RunsMakeOver};
ghost use Rattle.un_script.specs.History.{Headline};

use crate::follow::run_follow;
use crate::laws::headline;
use crate::make::make_line;
use crate::opening::run_status;
use crate::script::Script;
use std::alloc::Global;
use un_io::{Sink, Source, Word};
use un_status::write_line;
use un_steps::Steps;
use un_words::{ProgramCommand, read_words};

// Runs a script, and answers its status.
#[tactic(auto, using(crate::proofs::Endings::opens_by_schema, crate::proofs::Endings::runs_script))]
fn script_lines<S: Source, K: Sink, L>(
    alloc: Global,
    source: &mut S,
    sink: &mut K,
    steps: &mut Steps<L>,
) -> u8
    ensures statuses { Contains (0 ∷ 3 ∷ 4 ∷ 6 ∷ 7 ∷ 8 ∷ []) result }
    ensures runs { RunsScript (S.left source.old) (S.left source.new)
        (K.taken sink.old) (K.taken sink.new) (S.faults source.old) (S.faults source.new)
        (K.faults sink.old) (K.faults sink.new) result }
{
    // For the proof alone.
    headline();
    let mut script = Script::new(steps);
    let status = run_status(alloc, &mut script, source, sink);
    script.forget();
    status
}

// Writes the line of a generated network, and answers the status.
fn make<K: Sink>(alloc: Global, seed: u32, count: u32, sink: &mut K) -> u8
    requires count { (1 ≤ count) × (count ≤ 20000) }
    ensures made { RunsMake (made_line seed count) (K.taken sink.old) (K.taken sink.new)
        (K.faults sink.old) (K.faults sink.new) result }
    ensures no_memory { result ≡ 7 → sink.new ≡ sink.old }
{
    match make_line(alloc, seed, count) {
        Ok(line) => write_line(sink, &line),
        Err(_) => 7,
    }
}

/// Does one of three commands, and answers the status of the program.
///
/// `script` reads the lines of a script from the source, and writes the replies to the sink. What is due is a function of the bytes
/// read alone, except for lines that ran out of memory, which the output identifies. It is defined twice: by the state that the
/// lines before left, and by the schema and the accepted commands alone. Where a source or a sink doesn't tell its bytes, what is
/// said of the status and its cause holds alone.
///
/// `follow` reads pages of changes from the source, brings a copy of a topology up to date by them, and writes the replies to the sink.
/// What is due is a function of the bytes read in the same way.
///
/// `make SEED COUNT` reads nothing, and writes the line of a generated network.
pub fn run_script<S: Source, K: Sink, L>(
    alloc: Global,
    words: &[Word],
    source: &mut S,
    sink: &mut K,
    steps: &mut Steps<L>,
) -> u8
    ensures statuses { Contains (0 ∷ 2 ∷ 3 ∷ 4 ∷ 6 ∷ 7 ∷ 8 ∷ []) result }

    // 2: the words are none of the commands. Nothing is read or written.
    ensures no_command { (result ≡ 2) ↔ ¬ (IsScript words.now ⊎ IsFollow words.now ⊎ IsMake words.now) }
    ensures nothing_done { result ≡ 2 → (source.new ≡ source.old) × (sink.new ≡ sink.old) }

    // Over every list of lines and every cut of the input, the accepted commands alone determine the state and what is due.
    ensures headline { Headline }

    // `script`: what each status says of the bytes read and written, and when it comes.
    ensures script { IsScript words.now → RunsScriptOver S.left S.faults source.old source.new
        K.taken K.faults sink.old sink.new result }

    // `follow`: the same of its lines.
    ensures follow { IsFollow words.now → RunsFollowOver S.left S.faults source.old source.new
        K.taken K.faults sink.old sink.new result }

    // `make`: the same of its line. Nothing is read.
    ensures make { RunsMakeOver words.now K.taken K.faults sink.old sink.new result }
    ensures unread { IsMake words.now → source.new ≡ source.old }
    ensures unwritten { IsMake words.now → result ≡ 7 → sink.new ≡ sink.old }
{
    // For the proof alone.
    headline();
    match read_words(words) {
        Some(ProgramCommand::Script) => script_lines(alloc, source, sink, steps),
        Some(ProgramCommand::Follow) => run_follow(alloc, source, sink),
        Some(ProgramCommand::Make { seed, count }) => make(alloc, seed, count, sink),
        _ => 2,
    }
}
