//! The runs of a row, one for each way in which its bytes may come and go, and the first of them that is not as due.

use crate::links::run_link;
use crate::scripts::{Calls, WHOLE, plan, run, words_of};
use crate::table::Row;
use std::alloc::{AllocError, Global};
use std::fmt;
use std::sync::Wait;
use std::thread::Threads;
use un_io::Word;

/// In what pieces the bytes of a run come and go.
#[derive(Clone, Copy)]
pub(crate) enum Pieces {
    /// All at once.
    Whole,
    /// At most so many at once.
    Of(usize),
    /// So many are read first, and then the others.
    CutAfter(usize),
    /// As the words of the command say.
    Listed,
}

impl fmt::Display for Pieces {
    fn fmt<W: fmt::Write>(&self, f: &mut fmt::Formatter<W>) -> fmt::Result {
        match self {
            Pieces::Whole => write!(f, "all at once"),
            Pieces::Of(size) => write!(f, "in pieces of {size}"),
            Pieces::CutAfter(cut) => write!(f, "cut after {cut}"),
            Pieces::Listed => write!(f, "in the pieces of its command"),
        }
    }
}

/// A run: how it ended, and what was written.
#[derive(Drop)]
pub(crate) struct Run {
    pub(crate) pieces: Pieces,
    pub(crate) end: String,
    pub(crate) output: Vec<u8>,
}

impl Run {
    // Whether it ended and wrote as the row says.
    fn is_due(&self, row: &Row) -> bool {
        let end = match &row.end {
            Some(end) => end.as_str(),
            None => "0",
        };
        self.end.as_str() == end && self.output == row.output
    }
}

// The pieces in which the bytes of a command come and go.
const PIECES: [Pieces; 6] = [
    Pieces::Whole,
    Pieces::Of(1),
    Pieces::Of(2),
    Pieces::Of(3),
    Pieces::Of(7),
    Pieces::Of(4_096),
];

// A run of a command that reads these bytes.
fn run_command(
    alloc: Global,
    words: &[Word],
    input: &[u8],
    pieces: Pieces,
) -> Result<Run, AllocError> {
    let size = match pieces {
        Pieces::Of(size) => size,
        Pieces::Whole | Pieces::CutAfter(_) | Pieces::Listed => usize::MAX,
    };
    let calls = Calls { size, ..WHOLE };
    let (status, sink) = run(
        alloc,
        words,
        input,
        plan(alloc, calls)?,
        plan(alloc, calls)?,
    )?;
    Ok(Run {
        pieces,
        end: format!(in alloc; "{status}")?,
        output: sink.bytes().to_vec(alloc)?,
    })
}

// The first run of a command that is not as due.
fn first_other_command(alloc: Global, row: &Row) -> Result<Option<Run>, AllocError> {
    let words = words_of(alloc, row.command.as_str())?;
    for pieces in PIECES {
        let run = run_command(alloc, words.as_slice(), &row.input, pieces)?;
        if !run.is_due(row) {
            return Ok(Some(run));
        }
    }
    Ok(None)
}

// A run of a server with one link that sends these bytes, of which the first reads give at most so many.
fn serve<R: Threads + Wait + Sync>(
    rt: &R,
    alloc: Global,
    input: &[u8],
    (pieces, cuts): (Pieces, &[usize]),
) -> Result<Run, AllocError> {
    let (end, link) = run_link(rt, alloc, input, cuts)?;
    let end = match end {
        Some(end) => format!(in alloc; "{end:?}")?,
        None => String::from_str(alloc, "no desk")?,
    };
    Ok(Run {
        pieces,
        end,
        output: link.bytes().to_vec(alloc)?,
    })
}

// The first run of a server that is not as due, where the first read of its link ends after any of the bytes.
fn first_other_cut<R: Threads + Wait + Sync>(
    rt: &R,
    alloc: Global,
    row: &Row,
) -> Result<Option<Run>, AllocError> {
    for cut in 1..=row.input.len().max(1) {
        let run = serve(rt, alloc, &row.input, (Pieces::CutAfter(cut), &[cut]))?;
        if !run.is_due(row) {
            return Ok(Some(run));
        }
    }
    Ok(None)
}

// The sizes behind the word `link`, if this is the command.
fn link_sizes(alloc: Global, command: &str) -> Result<Option<Vec<usize>>, AllocError> {
    let mut words = command.split_whitespace();
    if words.next() != Some("link") {
        return Ok(None);
    }
    let mut sizes = Vec::new(alloc);
    for word in words {
        let Ok(size) = word.parse::<usize>() else {
            return Ok(None);
        };
        sizes.push(size)?;
    }
    Ok(Some(sizes))
}

/// The first run of a row that is not as due.
pub(crate) fn first_other<R: Threads + Wait + Sync>(
    rt: &R,
    alloc: Global,
    row: &Row,
) -> Result<Option<Run>, AllocError> {
    let Some(sizes) = link_sizes(alloc, row.command.as_str())? else {
        return first_other_command(alloc, row);
    };
    if sizes.is_empty() {
        return first_other_cut(rt, alloc, row);
    }
    let run = serve(rt, alloc, &row.input, (Pieces::Listed, &sizes))?;
    if run.is_due(row) {
        Ok(None)
    } else {
        Ok(Some(run))
    }
}
