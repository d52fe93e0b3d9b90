//! Writing responses.
ghost use Rattle.std.specs.Prelude.{◌≡◌, ◌⊎◌, ◌≤◌, ◌++◌, Some, OnOk, OnErr, vec_capacity};
ghost use Rattle.std.specs.Io.KnownBytes.{Appends};
ghost use Rattle.un_io.specs.Outside.{AppendsPrefix, Rose};
ghost use Rattle.un_exchange.specs.Pages.{page, response_bytes};
ghost use Rattle.un_exchange.specs.Causes.{CountsWriteFault};
ghost use Rattle.un_exchange.specs.Writing.{Writes, WritesMemoryPage, page_bytes, outgoing_page, outgoing_end};
ghost use Rattle.un_exchange.specs.Exchanges.{end_if};

use crate::end::LinkEnd;
use crate::respond::Outgoing;
use crate::status::Status;
use un_http::print_head;
use un_io::{Link, SinkFault, send};

/// The most bytes of a body that is written together with its head.
const SMALL_BODY: usize = 8_192;

/// The room for a head and a body of that length.
pub(crate) const HEAD_ROOM: usize = 8_448;

/// The body of a response when memory has run out.
const MEMORY_BODY: &[u8] = b"{\"memory\":true}";

/// The response when there is no memory for the room that a link takes.
const MEMORY_RESPONSE: &[u8] =
    b"HTTP/1.1 503 Service Unavailable\r\nContent-Type: application/json\r\nContent-Length: 15\r\nConnection: close\r\n\r\n{\"memory\":true}";

/// Writes the response that says that there is no memory, after which the link ends. It reads nothing.
pub fn refuse_link<L: Link>(link: &mut L) -> LinkEnd
    ensures writes { WritesMemoryPage (L.taken link.old) (L.taken link.new) result }
    ensures cause { CountsWriteFault result (L.write_faults link.old) (L.write_faults link.new) }
    ensures ends { (result ≡ LinkEnd.Memory) ⊎ (result ≡ LinkEnd.WriteFault) }
    ensures counted { L.write_faults link.old ≤ L.write_faults link.new }
    ensures keeps_left { L.left link.new ≡ L.left link.old }
    ensures keeps_count { L.read_faults link.new ≡ L.read_faults link.old }
{
    match send(link, MEMORY_RESPONSE) {
        Ok(()) => LinkEnd::Memory,
        Err(SinkFault) => LinkEnd::WriteFault,
    }
}

// Writes a head and a body.
fn send_both<L: Link>(link: &mut L, head: &[u8], body: &[u8]) -> Result<(), SinkFault>
    ensures ok { OnOk result (Appends (L.taken link.old) (L.taken link.new) (head.now ++ body.now)) }
    ensures err { OnErr result
        (AppendsPrefix (L.taken link.old) (L.taken link.new) (head.now ++ body.now)) }
    ensures counted { L.write_faults link.old ≤ L.write_faults link.new }
    ensures cause { OnErr result (Rose (L.write_faults link.old) (L.write_faults link.new)) }
    ensures keeps_left { L.left link.new ≡ L.left link.old }
    ensures keeps_count { L.read_faults link.new ≡ L.read_faults link.old }
{
    send(link, head)?;
    send(link, body)
}

// Writes a response. It allocates nothing.
fn send_response<L: Link>(
    link: &mut L,
    head: &mut Vec<u8>,
    status: Status,
    body: &[u8],
    close: bool,
) -> Result<(), SinkFault>
    requires room { HEAD_ROOM ≤ vec_capacity head.old }
    ensures ok { OnOk result (Appends (L.taken link.old) (L.taken link.new)
        (response_bytes (page status body.now) close)) }
    ensures err { OnErr result (AppendsPrefix (L.taken link.old) (L.taken link.new)
        (response_bytes (page status body.now) close)) }
    ensures capacity { vec_capacity head.old ≤ vec_capacity head.new }
    ensures counted { L.write_faults link.old ≤ L.write_faults link.new }
    ensures cause { OnErr result (Rose (L.write_faults link.old) (L.write_faults link.new)) }
    ensures keeps_left { L.left link.new ≡ L.left link.old }
    ensures keeps_count { L.read_faults link.new ≡ L.read_faults link.old }
{
    head.clear();
    print_head(status.number(), body.len(), status.allow_get(), close, head);
    if body.len() <= SMALL_BODY {
        // One write, so that a small response is one packet.
        let _ = head.extend_from_slice(body);
        send(link, head)
    } else {
        send_both(link, head, body)
    }
}

/// Writes a response, after which the link ends as `end` says. It allocates nothing.
pub(crate) fn send_then<L: Link>(
    link: &mut L,
    head: &mut Vec<u8>,
    status: Status,
    body: &[u8],
    end: Option<LinkEnd>,
) -> Option<LinkEnd>
    requires room { HEAD_ROOM ≤ vec_capacity head.old }
    ensures writes { Writes (L.taken link.old) (L.taken link.new)
        (page_bytes (page status body.now) end) end result }
    ensures cause { (result ≡ end) ⊎ Rose (L.write_faults link.old) (L.write_faults link.new) }
    ensures capacity { vec_capacity head.old ≤ vec_capacity head.new }
    ensures counted { L.write_faults link.old ≤ L.write_faults link.new }
    ensures keeps_left { L.left link.new ≡ L.left link.old }
    ensures keeps_count { L.read_faults link.new ≡ L.read_faults link.old }
{
    match send_response(link, head, status, body, end.is_some()) {
        Ok(()) => end,
        Err(SinkFault) => Some(LinkEnd::WriteFault),
    }
}

// How the link ends after a response, if the request asks to close it.
fn end_if(close: bool) -> Option<LinkEnd>
    ensures { result ≡ end_if close }
{
    if close { Some(LinkEnd::Closed) } else { None }
}

/// Writes what is to be written, after which the link ends or goes on.
pub(crate) fn send_outgoing<L: Link>(
    link: &mut L,
    head: &mut Vec<u8>,
    printed: &[u8],
    outgoing: Outgoing,
    close: bool,
) -> Option<LinkEnd>
    requires room { HEAD_ROOM ≤ vec_capacity head.old }
    ensures writes { Writes (L.taken link.old) (L.taken link.new)
        (page_bytes (outgoing_page printed.now outgoing) (outgoing_end close outgoing))
        (outgoing_end close outgoing) result }
    ensures cause { result ≡ Some LinkEnd.WriteFault
        → Rose (L.write_faults link.old) (L.write_faults link.new) }
    ensures other { (result ≡ Some LinkEnd.ReadFault) → ⊥ }
    ensures capacity { vec_capacity head.old ≤ vec_capacity head.new }
    ensures counted { L.write_faults link.old ≤ L.write_faults link.new }
    ensures keeps_left { L.left link.new ≡ L.left link.old }
    ensures keeps_count { L.read_faults link.new ≡ L.read_faults link.old }
{
    match outgoing {
        Outgoing::Printed(status) => send_then(link, head, status, printed, end_if(close)),
        Outgoing::Page(page) => send_then(link, head, page.status(), page.body(), end_if(close)),
        Outgoing::Denied(denied) => {
            let body = Status::Denied.http_body();
            let end = Some(LinkEnd::Denied(denied));
            send_then(link, head, Status::Denied, body, end)
        }
        Outgoing::Memory => {
            let end = Some(LinkEnd::Memory);
            send_then(link, head, Status::Unavailable, MEMORY_BODY, end)
        }
    }
}
