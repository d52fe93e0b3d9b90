//! A server over TCP: two links at once, and a link before a door that fails.

use super::short_door::{Last, ShortDoor};
use crate::scripts::words_of;
use std::alloc::Global;
use std::io;
use std::io::{Read, Write};
use std::net::{
    Ipv4Addr, Net, OpenListener, OpenStream, Shutdown, SocketAddr, TcpListener, TcpStream,
};
use std::sync::Wait;
use std::thread::{Threads, join};
use std::time::Duration;
use un_io::{SureSource, TcpDoor};
use un_serve::run_serve;

/// The first bytes of the first link's insert. While the rest is missing, the second link is served.
const INSERT_BEGUN: &[u8] =
    b"POST /commands HTTP/1.1\r\nContent-Length: 49\r\n\r\n{\"do\":\"insert\",";

const INSERT_ENDED: &[u8] = b"\"kind\":\"joint\",\"points\":[[0,0,0]]}";

const INSERTED: &[u8] =
    b"HTTP/1.1 200 OK\r\nContent-Type: application/json\r\nContent-Length: 48\r\n\r\n{\"areas\":[1,1],\"id\":1,\"ok\":\"insert\",\"version\":1}";

const VERSION: &[u8] = b"GET /version HTTP/1.1\r\n\r\n";

const VERSION_0: &[u8] =
    b"HTTP/1.1 200 OK\r\nContent-Type: application/json\r\nContent-Length: 28\r\n\r\n{\"ok\":\"version\",\"version\":0}";

const SEEN_1: &[u8] =
    b"POST /queries HTTP/1.1\r\nContent-Length: 26\r\n\r\n{\"ask\":\"version\",\"seen\":1}";

const VERSION_1: &[u8] =
    b"HTTP/1.1 200 OK\r\nContent-Type: application/json\r\nContent-Length: 28\r\n\r\n{\"ok\":\"version\",\"version\":1}";

const SEEN_2: &[u8] =
    b"POST /queries HTTP/1.1\r\nContent-Length: 26\r\n\r\n{\"ask\":\"version\",\"seen\":2}";

const AHEAD: &[u8] =
    b"HTTP/1.1 409 Conflict\r\nContent-Type: application/json\r\nContent-Length: 47\r\n\r\n{\"error\":31,\"latest\":1,\"name\":\"Ahead\",\"seen\":2}";

const TRACE: &[u8] =
    b"POST /queries HTTP/1.1\r\nContent-Length: 60\r\n\r\n{\"ask\":\"trace\",\"type\":\"connected\",\"starts\":[[1,1]],\"seen\":1}";

const DIRTY: &[u8] =
    b"HTTP/1.1 422 Unprocessable Content\r\nContent-Type: application/json\r\nContent-Length: 75\r\n\r\n{\"area\":1,\"error\":43,\"feature\":1,\"name\":\"DirtyGround\",\"port\":1,\"version\":1}";

// Whether the response to the bytes is this one.
fn gets(alloc: Global, link: &mut TcpStream, request: &[u8], response: &[u8]) -> io::Result<bool> {
    link.write_all(request)?;
    let mut bytes = vec![in alloc; 0u8; response.len()]?;
    link.read_exact(&mut bytes)?;
    Ok(bytes.as_slice() == response)
}

// The second link asks while the first one has sent half of a request, and then for what the first one inserted. Both
// are closed at the end.
fn talk(alloc: Global, first: TcpStream, second: TcpStream) -> io::Result<bool> {
    let (mut first, mut second) = (first, second);
    first.write_all(INSERT_BEGUN)?;
    let meanwhile = gets(alloc, &mut second, VERSION, VERSION_0)?;
    let inserted = gets(alloc, &mut first, INSERT_ENDED, INSERTED)?;
    let seen = gets(alloc, &mut second, SEEN_1, VERSION_1)?;
    let ahead = gets(alloc, &mut second, SEEN_2, AHEAD)?;
    let dirty = gets(alloc, &mut second, TRACE, DIRTY)?;
    Ok(meanwhile && inserted && seen && ahead && dirty)
}

// A link to the server. A read that has no answer for so long fails, and does not hang.
fn connect<R: Net<Stream = TcpStream>>(rt: &R, address: SocketAddr) -> io::Result<TcpStream> {
    let link = TcpStream::connect(rt, address)?;
    link.set_read_timeout(Some(Duration::from_secs(20)))?;
    Ok(link)
}

// The line that opens a server.
fn schema(alloc: Global) -> io::Result<SureSource> {
    Ok(SureSource::new(b"{\"schema\":0}\n".to_vec(alloc)?))
}

// A port of the loopback, and a door there that gives so many links.
fn listen<R: Net<Listener = TcpListener, Stream = TcpStream>>(
    rt: &R,
    links: u32,
    last: Last,
) -> io::Result<(SocketAddr, ShortDoor)> {
    let listener = TcpListener::bind(rt, SocketAddr::from((Ipv4Addr::LOCALHOST, 0)))?;
    let address = listener.local_addr()?;
    Ok((address, ShortDoor::new(TcpDoor::new(listener), links, last)))
}

// Two links to the server.
fn connect_both<R: Net<Stream = TcpStream>>(
    rt: &R,
    address: SocketAddr,
) -> io::Result<(TcpStream, TcpStream)> {
    let first = connect(rt, address)?;
    Ok((first, connect(rt, address)?))
}

// A link whose one request is sent, and which sends no more.
fn asking<R: Net<Stream = TcpStream>>(rt: &R, address: SocketAddr) -> io::Result<TcpStream> {
    let mut link = connect(rt, address)?;
    link.write_all(VERSION)?;
    link.shutdown(Shutdown::Write)?;
    Ok(link)
}

/// Whether a link is served while the one before it waits, and whether it sees what that one made before.
pub(crate) fn are_served_at_once<
    R: Net<Listener = TcpListener, Stream = TcpStream> + AllocGlobal + Threads + Wait + Sync,
>(rt: &R) -> io::Result<bool> {
    let alloc = rt.alloc();
    // The port is of no use: the door is there.
    let words = words_of(alloc, "serve 1 2")?;
    let mut schema = schema(alloc)?;
    let (address, mut door) = listen(rt, 2, Last::Closed)?;
    let (first, second) = connect_both(rt, address)?;
    let (status, talked) = join(
        rt,
        || run_serve(rt, alloc, &words, &mut schema, &mut door),
        || talk(alloc, first, second).is_ok_and(|all| all),
    );
    Ok(talked && status == 0)
}

/// Whether a link is served before the door fails, and the server ends with the status of the failure.
pub(crate) fn is_served_before_the_door_fails<
    R: Net<Listener = TcpListener, Stream = TcpStream> + AllocGlobal + Threads + Wait + Sync,
>(rt: &R) -> io::Result<bool> {
    let alloc = rt.alloc();
    let words = words_of(alloc, "serve 1 1")?;
    let mut schema = schema(alloc)?;
    let (address, mut door) = listen(rt, 1, Last::Failed)?;
    let client = asking(rt, address)?;
    let status = run_serve(rt, alloc, &words, &mut schema, &mut door);
    let text = io::read_to_string(alloc, client)?;
    Ok(status == 5 && text.as_bytes() == VERSION_0)
}
