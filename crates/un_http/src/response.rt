//! Heads of responses.
ghost use Rattle.std.specs.Prelude.{◌≡◌, ◌+◌, ◌≤◌, ◌++◌, length, IsTrue, IsSome, ◌↔◌, vec_len, vec_capacity};
ghost use Rattle.un_http.specs.Response.{is_status, phrase, allow_line, close_line, response_head};

use crate::put::{put, put_number};

// The phrase of a status.
fn phrase(status: u16) -> &'static [u8]
    ensures value { result.now ≡ phrase status }
    ensures short { length result.now ≤ 31 }
{
    match status {
        200 => b"OK",
        400 => b"Bad Request",
        404 => b"Not Found",
        405 => b"Method Not Allowed",
        409 => b"Conflict",
        411 => b"Length Required",
        413 => b"Content Too Large",
        422 => b"Unprocessable Content",
        431 => b"Request Header Fields Too Large",
        500 => b"Internal Server Error",
        501 => b"Not Implemented",
        503 => b"Service Unavailable",
        _ => b"",
    }
}

// Appends the line that names the method of a route.
fn put_allow(out: &mut Vec<u8>, allow_get: Option<bool>)
    requires { vec_len out.old + 13 ≤ vec_capacity out.old }
    ensures items { out.new.items ≡ out.old.items ++ allow_line allow_get }
    ensures len { vec_len out.new ≤ vec_len out.old + 13 }
    ensures capacity { vec_capacity out.old ≤ vec_capacity out.new }
{
    match allow_get {
        Some(true) => put(out, b"Allow: GET\r\n"),
        Some(false) => put(out, b"Allow: POST\r\n"),
        None => {}
    }
}

// Appends the line that says that the link closes.
fn put_close(out: &mut Vec<u8>, close: bool)
    requires { vec_len out.old + 19 ≤ vec_capacity out.old }
    ensures items { out.new.items ≡ out.old.items ++ close_line close }
    ensures len { vec_len out.new ≤ vec_len out.old + 19 }
    ensures capacity { vec_capacity out.old ≤ vec_capacity out.new }
{
    if close {
        put(out, b"Connection: close\r\n");
    }
}

/// Appends a response up to its body, which has `length` bytes. It allocates nothing.
///
/// `allow_get` is given for the status 405 and for no other: `true` if the route takes GET, `false` if it takes POST.
/// `close` says that the link closes after the response.
pub fn print_head(
    status: u16,
    length: usize,
    allow_get: Option<bool>,
    close: bool,
    out: &mut Vec<u8>,
)
    requires status { IsTrue (is_status status) }
    requires allow { IsSome allow_get ↔ (status ≡ 405) }
    requires room { vec_len out.old + 256 ≤ vec_capacity out.old }
    ensures items { out.new.items ≡ out.old.items ++ response_head status length allow_get close }
    ensures len { vec_len out.new ≤ vec_len out.old + 256 }
    ensures capacity { vec_capacity out.old ≤ vec_capacity out.new }
{
    put(out, b"HTTP/1.1 ");
    put_number(out, status as u64);
    put(out, b" ");
    put(out, phrase(status));
    put(
        out,
        b"\r\nContent-Type: application/json\r\nContent-Length: ",
    );
    put_number(out, length as u64);
    put(out, b"\r\n");
    put_allow(out, allow_get);
    put_close(out, close);
    put(out, b"\r\n");
}
