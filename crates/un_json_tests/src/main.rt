//! Tests of the JSON of requests. The file `stdin` has texts, one a line, and the file `stdout` says on the same line what
//! reading that text as a request gives: `good` for a request, `json` for a text that is no JSON value, and otherwise the
//! place where the request is bad, which is empty where the text as a whole is no object. What each line gives was worked
//! out by hand from the format of requests.
//!
//! A line that begins with `#` is a heading, and stands in both files. After `0x` come the bytes of a text in hexadecimal:
//! so stand the texts with a line end inside, and those that are not in UTF-8. After `?` comes a request of which the values
//! are printed that were read, in the order of the types' fields.
#![tactic(auto)]

use std::alloc::Global;
use std::io;
use un_json::{ReadFault, read_request};

mod values;

// What bytes are: a request, no JSON value, or the place where they are bad.
fn outcome(alloc: Global, bytes: &[u8]) -> &'static str {
    match read_request(alloc, bytes) {
        Ok(_) => "good",
        Err(ReadFault::NotJson) => "json",
        Err(ReadFault::BadRequest { place }) => place.text(),
        Err(ReadFault::Memory) => "memory",
    }
}

// What the bytes with these hexadecimal digits are.
fn outcome_of_digits(alloc: Global, digits: &str) -> &'static str {
    match hex::decode(alloc, digits) {
        Ok(bytes) => outcome(alloc, bytes.as_slice()),
        Err(_) => "no digits",
    }
}

fn show(rt: &HostRuntime, line: &str) -> io::Result<()> {
    if line.starts_with('#') {
        rt.println(line)
    } else if let Some(digits) = line.strip_prefix("0x") {
        rt.println(outcome_of_digits(rt.alloc(), digits))
    } else if let Some(text) = line.strip_prefix('?') {
        values::show(rt, text.as_bytes())
    } else {
        rt.println(outcome(rt.alloc(), line.as_bytes()))
    }
}

fn main(rt: HostRuntime) -> io::Result<()> {
    for line in rt.lines(rt.alloc()) {
        show(&rt, line?.as_str())?;
    }
    Ok(())
}
