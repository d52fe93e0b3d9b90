//! The server, from its words to its end.
ghost use Rattle.std.specs.Prelude.{◌≡◌, ◌≢◌, ◌⊎◌, ◌↔◌, ℕ, ◌^◌, ◌<◌, ◌≤◌, List, Some, [], ◌∷◌, Err, true, false, length, Contains, IfOk, IfSome, MatchOption};
ghost use Rattle.un_io.specs.Outside.{Rose};
ghost use Rattle.un_lines.specs.Cut.{lines_of};
ghost use Rattle.un_lines.specs.First.{first_kept, ReadsBlankLines, ReadsBlankToLimit};
ghost use Rattle.un_gate.specs.Gates.{IsSince};
ghost use Rattle.un_serve.specs.Running.{EndsByFirstLine, IsServe, Opens, ReadsNoSchema, ReadsSchema, fault_status, is_schema, open_fault};

use crate::workers::serve_door;
use core::mem::replace_with;
use std::alloc::Global;
use std::marker::Brand;
use std::sync::Wait;
use std::thread::Threads;
use un_core::Net;
use un_desk::desk::Desk;
use un_gate::DoorCount;
use un_io::{Door, Source, Word};
use un_lines::{FirstFault, FirstLine, read_first_line};
use un_machine::Entry;
use un_publish::prefix::NewLog;
use un_publish::published::BoardName;
use un_publish::session::Session;
use un_schema_json::{SchemaFault, read_schema};
use un_status::door_status;
use un_words::{ProgramCommand, read_words};

/// Why no network was opened.
#[derive(Clone, Copy, Debug, PartialEq, Eq)]
enum OpenFault {
    /// The source failed before a first line.
    Source,
    /// The first line is no schema, or there is none.
    NoSchema,
    Memory,
    /// The limit of bytes was read before a first line.
    Limit,
}

// How many workers the words ask for, if they are those of a server.
fn workers_in(words: &[Word]) -> Option<u32>
    ensures serve { MatchOption result (¬ IsServe words.now) (λ _. IsServe words.now) }
    ensures count { IfSome result (λ workers. (0 < workers) × (workers ≤ 64)) }
{
    match read_words(words) {
        Some(ProgramCommand::Serve { port: _, workers }) => Some(workers),
        _ => None,
    }
}

// The network without features that a schema's line opens.
fn open_by(alloc: Global, line: &[u8]) -> Result<Net, OpenFault>
    ensures opens { IfOk result (λ _. is_schema (FirstLine.Line line.now) ≡ true) }
    ensures refuses { result ≡ Err OpenFault.NoSchema → is_schema (FirstLine.Line line.now) ≡ false }
    ensures cause { (result ≢ Err OpenFault.Source) × (result ≢ Err OpenFault.Limit) }
{
    match read_schema(alloc, line) {
        Ok((schema, tiers)) => Net::open(alloc, schema, tiers).map_err(|_| OpenFault::Memory),
        Err(SchemaFault::BadSchema { place: _ }) => Err(OpenFault::NoSchema),
        Err(SchemaFault::Memory) => Err(OpenFault::Memory),
    }
}

// The network that a first line opens.
fn open_first(alloc: Global, first: &FirstLine) -> Result<Net, OpenFault>
    ensures opens { IfOk result (λ _. is_schema first.now ≡ true) }
    ensures refuses { result ≡ Err OpenFault.NoSchema → is_schema first.now ≡ false }
    ensures cause { (result ≢ Err OpenFault.Source) × (result ≢ Err OpenFault.Limit) }
{
    match first {
        FirstLine::Line(line) => open_by(alloc, line.as_slice()),
        FirstLine::TooLong | FirstLine::Missing => Err(OpenFault::NoSchema),
    }
}

// Why the first line was not read.
fn open_fault(fault: FirstFault) -> OpenFault
    ensures { result ≡ open_fault fault }
{
    match fault {
        FirstFault::Source => OpenFault::Source,
        FirstFault::Memory => OpenFault::Memory,
        FirstFault::Limit => OpenFault::Limit,
    }
}

// Reads the schema's line, and opens the network.
fn open_network<S: Source>(alloc: Global, schema: &mut S) -> Result<Net, OpenFault>
    ensures opened { IfOk result (λ _. ReadsSchema (S.left schema.old) (S.left schema.new)) }
    ensures refused { result ≡ Err OpenFault.NoSchema
        → ReadsNoSchema (S.left schema.old) (S.left schema.new) }
    ensures source_fault { result ≡ Err OpenFault.Source
        → ReadsBlankLines (S.left schema.old) (S.left schema.new) }
    ensures source_cause { result ≡ Err OpenFault.Source
        → Rose (S.faults schema.old) (S.faults schema.new) }
    ensures limit { result ≡ Err OpenFault.Limit
        → ReadsBlankToLimit (S.left schema.old) (S.left schema.new) }
    ensures complete { (bytes : List ℕ) → S.left schema.old ≡ Some bytes → length bytes < 2 ^ 32
        → ¬ Rose (S.faults schema.old) (S.faults schema.new)
        → Opens (is_schema (first_kept (lines_of true bytes))) result }
{
    match read_first_line(alloc, schema) {
        Ok(first) => open_first(alloc, &first),
        Err(fault) => Err(open_fault(fault)),
    }
}

// The status where no network was opened.
fn fault_status(fault: OpenFault) -> u8
    ensures { result ≡ fault_status fault }
{
    match fault {
        OpenFault::Source => 3,
        OpenFault::NoSchema => 6,
        OpenFault::Memory => 7,
        OpenFault::Limit => 8,
    }
}

// Opens a desk over the network with a session for each worker, serves the links of the door, and closes the desk.
fn serve_network<
    R: Threads + Wait + Sync,
    D: Door + Send,
    J: BoardName<Net> + Send + Sync,
    N: DoorCount + Send + Sync,
>(rt: &R, alloc: Global, new_log: NewLog<Entry<Net>>, net: Net, workers: u32, door: &mut D) -> u8
where
    D::Line: Send,
    requires book { new_log.seen.book ≡ J.book }
    requires opening { J.opening ≡ net ∷ [] }
    requires count { N.count ≡ D.faults door.old }
    requires workers { (0 < workers) × (workers ≤ 64) }
    ensures statuses { Contains (0 ∷ 5 ∷ 7 ∷ []) result }
    ensures closed { result ≡ 0 → D.closed door.new ≡ true }
    ensures cause { result ≡ 5 → Rose (D.faults door.old) (D.faults door.new) }
{
    let Ok((desk, sessions)) = Desk::<Net, J>::open(rt, alloc, new_log, net, workers) else {
        return 7;
    };
    let end = replace_with(
        door,
        sessions,
        |door: D, sessions: Vec<Session<Net, J>>|
            requires { N.count ≡ D.faults door }
            ensures { IsSince N.count (D.faults result.0) (D.closed result.0) result.1 }
        { serve_door::<R, J, D, N>(rt, alloc, &desk, sessions, door) },
    );
    desk.close(rt);
    door_status(end)
}

/// Serves the links that arrive at the door: reads the schema's line from its source, opens a network under it, and runs
/// a worker for each session at one desk. Answers the status of the program. It waits for links, and for as long as the
/// door is open. How a link ends matters to that link alone.
pub fn run_serve<R: Threads + Wait + Sync, S: Source, D: Door + Send>(
    rt: &R,
    alloc: Global,
    words: &[Word],
    schema: &mut S,
    door: &mut D,
) -> u8
where
    D::Line: Send,
    ensures statuses { Contains (0 ∷ 2 ∷ 3 ∷ 5 ∷ 6 ∷ 7 ∷ 8 ∷ []) result }

    // 2: the words are no such command. Nothing is read, and the door is not asked.
    ensures no_command { (result ≡ 2) ↔ ¬ IsServe words.now }
    ensures nothing_done { result ≡ 2 → (schema.new ≡ schema.old) × (door.new ≡ door.old) }

    // 0: the door was closed, and each link has ended. 5: the door failed. The first line is a schema.
    ensures opened { (result ≡ 0) ⊎ (result ≡ 5)
        → ReadsSchema (S.left schema.old) (S.left schema.new) }
    ensures closed { result ≡ 0 → D.closed door.new ≡ true }
    ensures door_cause { result ≡ 5 → Rose (D.faults door.old) (D.faults door.new) }

    // 3: the source failed before a first line.
    ensures source_fault { result ≡ 3 → ReadsBlankLines (S.left schema.old) (S.left schema.new) }
    ensures source_cause { result ≡ 3 → Rose (S.faults schema.old) (S.faults schema.new) }

    // 6: the first line that isn't blank is no schema, or the input ended without one.
    ensures refused { result ≡ 6 → ReadsNoSchema (S.left schema.old) (S.left schema.new) }

    // 8: so many bytes were read before a first line.
    ensures limit { result ≡ 8 → ReadsBlankToLimit (S.left schema.old) (S.left schema.new) }

    // Without a network the door is not asked.
    ensures unasked { (result ≡ 3) ⊎ ((result ≡ 6) ⊎ (result ≡ 8)) → door.new ≡ door.old }

    // Where nothing fails and fewer bytes come than the limit, the first line decides, or there was no memory.
    ensures complete { EndsByFirstLine words.now
        S.left S.faults schema.old schema.new D.faults door.old door.new result }
{
    let Some(workers) = workers_in(words) else {
        return 2;
    };
    match open_network(alloc, schema) {
        Ok(net) => serve_network::<R, D, Brand, Brand>(
            rt,
            alloc,
            NewLog::new(),
            net,
            workers,
            door,
        ),
        Err(fault) => fault_status(fault),
    }
}
