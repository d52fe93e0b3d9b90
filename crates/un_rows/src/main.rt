//! Runs the rows of a table, and prints for each of them whether all was as due.
//!
//! Standard input holds the table: rows of what a command reads and what it must write, in the notation that `table`
//! describes. Each row runs over memory. `script`, `follow` and `make` run once with all bytes at once, and once for each of a few
//! sizes of pieces. `link`, a server with one link that sends the bytes, runs once for each byte after which its first read may
//! end; or once, if sizes for its first reads stand behind the word.
//!
//! One line is printed for each row: its name and `as due`. Where a run ends or writes otherwise, the line tells in which pieces
//! the bytes came and how the run ended, and what was written follows. Where the table can't be read, its first line that is
//! none of a table is told, and no row runs. The status is 0 if all is as due, and else 1.
//!
//! After the rows come a few runs that no text can describe: sources, sinks and doors that fail, and links that wait for one
//! another.
#![tactic(auto)]

mod escapes;
mod links;
mod runs;
mod scripts;
mod table;
mod unlisted;

use runs::{Run, first_other};
use std::io;
use std::io::Write;
use std::net::{Net, TcpListener, TcpStream};
use std::process::ExitCode;
use std::sync::Wait;
use std::thread::Threads;
use table::{Row, read_rows};
use unlisted::show_unlisted;

/// Whether all was as due.
#[derive(Clone, Copy, PartialEq, Eq)]
enum Verdict {
    AsDue,
    Other,
}

impl Verdict {
    // Whether all was as due in both.
    fn and(self, other: Verdict) -> Verdict {
        match self {
            Verdict::AsDue => other,
            Verdict::Other => Verdict::Other,
        }
    }
}

// Tells how a run was that was not as due.
fn show_other<R: Print>(rt: &R, name: &str, run: &Run) -> io::Result<()> {
    let (pieces, end) = (run.pieces, run.end.as_str());
    println!(rt; "{name}: other, {pieces}: it ends with {end} and writes")?;
    let mut writer = io::writer(rt);
    writer.write_all(&run.output)?;
    writer.write_all(b"\n")
}

// Runs a row, and tells how it was.
fn show_row<R: Print + AllocGlobal + Threads + Wait + Sync>(
    rt: &R,
    row: &Row,
) -> io::Result<Verdict> {
    let name = row.name.as_str();
    match first_other(rt, rt.alloc(), row)? {
        Some(run) => {
            show_other(rt, name, &run)?;
            Ok(Verdict::Other)
        }
        None => {
            println!(rt; "{name}: as due")?;
            Ok(Verdict::AsDue)
        }
    }
}

// Runs all rows, and tells how each was.
fn show_rows<R: Print + AllocGlobal + Threads + Wait + Sync>(
    rt: &R,
    rows: &[Row],
) -> io::Result<Verdict> {
    let mut verdict = Verdict::AsDue;
    for row in rows {
        verdict = verdict.and(show_row(rt, row)?);
    }
    Ok(verdict)
}

// Reads the table, and runs its rows.
fn show_table<R: Input + Print + AllocGlobal + Threads + Wait + Sync>(
    rt: &R,
) -> io::Result<Verdict> {
    let text = io::read_to_string(rt.alloc(), rt.reader())?;
    match read_rows(rt.alloc(), text.as_str()) {
        Ok(rows) => show_rows(rt, rows.as_slice()),
        Err(error) => {
            println!(rt; "the table can't be read: {error}")?;
            Ok(Verdict::Other)
        }
    }
}

// Runs the rows, and what no row describes.
fn show_all<
    R: Input
        + Print
        + Net<Listener = TcpListener, Stream = TcpStream>
        + AllocGlobal
        + Threads
        + Wait
        + Sync,
>(rt: &R) -> io::Result<Verdict> {
    Ok(show_table(rt)?.and(show_unlisted(rt)?))
}

fn main(rt: HostRuntime) -> ExitCode {
    match show_all(&rt) {
        Ok(Verdict::AsDue) => ExitCode::SUCCESS,
        Ok(Verdict::Other) => ExitCode::FAILURE,
        Err(fault) => {
            let _ = eprintln!(rt; "{fault}");
            ExitCode::FAILURE
        }
    }
}
