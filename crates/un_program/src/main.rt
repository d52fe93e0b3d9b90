//! The utility network program: `script` runs a script from standard input to standard output, `follow` keeps a copy of a
//! server's topology from the pages on standard input, `make` writes the line of a generated network, and `serve` answers
//! HTTP requests on the loopback under the schema that it reads from standard input.
#![tactic(auto)]

use std::alloc::AllocError;
use std::net::{Ipv4Addr, SocketAddr, TcpListener};
use std::process::ExitCode;
use std::rt::Env;
use std::{env, io};
use un_io::{ReadSource, TcpDoor, Word, WriteSink};
use un_script::run_script;
use un_serve::run_serve;
use un_steps::Steps;
use un_words::{ProgramCommand, read_words};

/// The status where there is no memory for the words.
const NO_MEMORY: u8 = 7;

/// The status where the words are no command, or one of them is not UTF-8.
const NO_COMMAND: u8 = 2;

/// The status where the port cannot be listened at.
const NO_DOOR: u8 = 5;

/// The largest block that the C library's allocator learns from, in bytes: 32 MiB without what it adds to a block.
const LARGEST_BLOCK: usize = 32 * 1024 * 1024 - 8192;

// The words behind the program's name.
fn words<R: Env + AllocGlobal>(rt: &R) -> io::Result<Vec<Word>> {
    let mut words = Vec::new(rt.alloc());
    for text in env::args(rt)?.skip(1) {
        words.push(Word::new(text))?;
    }
    Ok(words)
}

// The status where the words cannot be had.
fn no_words(fault: &io::Error) -> u8 {
    match fault.kind() {
        io::ErrorKind::InvalidData => NO_COMMAND,
        _ => NO_MEMORY,
    }
}

// Runs a script or a follower from standard input to standard output, or writes the line of a generated network.
fn script(rt: &HostRuntime, words: &[Word]) -> u8 {
    let mut source = ReadSource::new(rt.stdin());
    let mut sink = WriteSink::new(rt.stdout());
    let mut steps: Steps<()> = Steps::new();
    run_script(rt.alloc(), words, &mut source, &mut sink, &mut steps)
}

// Listens at a port of the loopback.
fn listen(rt: &HostRuntime, port: u16) -> io::Result<TcpDoor> {
    let address = SocketAddr::from((Ipv4Addr::LOCALHOST, port));
    Ok(TcpDoor::new(TcpListener::bind(rt, address)?))
}

// Takes a large block and gives it back. The C library's allocator takes that as a sign that blocks of up to this size come and go: it keeps
// what is given back later, up to twice as much, for the next walk, where else the system would take each page away and clear it again.
// The block's pages are never touched, so it takes no memory. Where it cannot be had, nothing is lost but time.
fn keep_what_is_given_back<R: AllocGlobal>(rt: &R) {
    let block: Result<Vec<u8>, AllocError> = Vec::with_capacity(rt.alloc(), LARGEST_BLOCK);
    drop(block);
}

fn main(rt: HostRuntime) -> ExitCode {
    keep_what_is_given_back(&rt);
    let status = match words(&rt) {
        Ok(words) => match read_words(words.as_slice()) {
            Some(ProgramCommand::Serve { port, workers: _ }) => match listen(&rt, port) {
                Ok(mut door) => {
                    let mut schema = ReadSource::new(rt.stdin());
                    run_serve(&rt, rt.alloc(), words.as_slice(), &mut schema, &mut door)
                }
                Err(_) => NO_DOOR,
            },
            _ => script(&rt, words.as_slice()),
        },
        Err(fault) => no_words(&fault),
    };
    if status == NO_COMMAND {
        let _ = eprintln!(rt;
            "usage: un_program script | follow | make SEED COUNT | serve PORT WORKERS"
        );
    }
    ExitCode::from(status)
}
