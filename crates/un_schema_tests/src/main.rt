//! Tests of the reader of schemas, and so of what is good in attributes, categories, configurations, kinds, rules and tiers.
//!
//! The file `stdin` has lines, and the file `stdout` says on the same line what reading that line as a schema gives: `good`, or
//! the place where it is bad, which is empty where the line as a whole is no object. A line that begins with `#` is a heading,
//! and stands in both files. What each line gives was worked out by hand from the format of schemas.
#![tactic(auto)]

use std::alloc::Global;
use std::io;
use un_schema_json::{SchemaFault, read_schema};

// What a line is: a schema, or the place where it is bad.
fn outcome(alloc: Global, line: &[u8]) -> &'static str {
    match read_schema(alloc, line) {
        Ok(_) => "good",
        Err(SchemaFault::BadSchema { place }) => place.text(),
        Err(SchemaFault::Memory) => "memory",
    }
}

fn main(rt: HostRuntime) -> io::Result<()> {
    for line in rt.lines(rt.alloc()) {
        let line = line?;
        if line.starts_with('#') {
            rt.println(line.as_str())?;
        } else {
            rt.println(outcome(rt.alloc(), line.as_bytes()))?;
        }
    }
    Ok(())
}
