//! Commands that read from memory and write to memory, in pieces of a size, and with a source and a sink that fail.

pub(crate) mod faults;

use std::alloc::{AllocError, Global};
use un_io::{MemSink, MemSource, Plan, Word};
use un_script::run_script;
use un_steps::Steps;

// More room than any output here needs.
const ROOM: usize = 65_536;

/// The words of a command, which spaces part.
pub(crate) fn words_of(alloc: Global, command: &str) -> Result<Vec<Word>, AllocError> {
    let mut words = Vec::new(alloc);
    for word in command.split_whitespace() {
        words.push(Word::new(String::from_str(alloc, word)?))?;
    }
    Ok(words)
}

/// The status of a command, and what it writes, where the source and the sink follow their plans.
pub(crate) fn run(
    alloc: Global,
    words: &[Word],
    input: &[u8],
    source: Plan,
    sink: Plan,
) -> Result<(u8, MemSink), AllocError> {
    let mut source = MemSource::new(input.to_vec(alloc)?, source);
    let mut sink = MemSink::new(alloc, ROOM, sink)?;
    let mut steps = Steps::<()>::new();
    let status = run_script(alloc, words, &mut source, &mut sink, &mut steps);
    Ok((status, sink))
}

/// How calls of a source or a sink go: each moves at most so many bytes, and one of them fails.
#[derive(Clone, Copy)]
pub(crate) struct Calls {
    pub(crate) size: usize,
    pub(crate) failing: usize,
}

/// All is moved at once, and nothing fails.
pub(crate) const WHOLE: Calls = Calls {
    size: usize::MAX,
    failing: usize::MAX,
};

/// The plan of these calls. What comes after some 10,000 bytes is moved at once.
pub(crate) fn plan(alloc: Global, calls: Calls) -> Result<Plan, AllocError> {
    let count = 10_000 / calls.size.max(1);
    let cuts = vec![in alloc; calls.size; count]?;
    Ok(Plan::new(cuts, vec![in alloc; calls.failing]?))
}
