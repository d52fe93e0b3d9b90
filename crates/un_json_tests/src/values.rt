//! The values that are read of a request's text.

use std::io;
use un_ask::{Asked, Command, Edit, PastQuery, Request};
use un_json::read_request;

// The versions of a query at a past version that asks for a path, and the ends of the path.
fn show_past(rt: &HostRuntime, past: &PastQuery) -> io::Result<()> {
    let (seen, at) = (past.seen, past.at);
    match &past.what {
        Asked::Path(path) => {
            let (from, to) = (path.from, path.to);
            println!(rt; "{seen} {at} {from:?} {to:?}")
        }
        _ => rt.println("no path"),
    }
}

fn show_insert(rt: &HostRuntime, edit: &Edit) -> io::Result<()> {
    match edit {
        Edit::Insert {
            kind,
            points,
            attrs,
            flow,
            ends,
            note,
        } => {
            let (kind, note) = (kind.text(), note.text());
            let (points, attrs) = (points.as_slice(), attrs.as_slice().len());
            println!(rt; "{kind} {points:?} {attrs} {flow:?} {ends:?} {note:?}")
        }
        _ => rt.println("no insert"),
    }
}

fn show_request(rt: &HostRuntime, request: &Request) -> io::Result<()> {
    match request {
        Request::Changes(query) => println!(rt; "{query:?}"),
        Request::Past(past) => show_past(rt, past),
        Request::Command(Command::Edit(edit)) => show_insert(rt, edit),
        _ => rt.println("no value"),
    }
}

/// Writes the values of a query for changes, of a query at a past version, or of an insert.
pub(super) fn show(rt: &HostRuntime, text: &[u8]) -> io::Result<()> {
    match read_request(rt.alloc(), text) {
        Ok(request) => show_request(rt, &request),
        Err(_) => rt.println("no value"),
    }
}
