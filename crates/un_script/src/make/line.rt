//! The line.
ghost use Rattle.std.specs.Prelude.{◌≡◌, ◌++◌, decimal, IfOk, OnOk};
ghost use Rattle.un_script.specs.Made.{line_of, line_at};

use crate::make::traces::{connected, loops};
use itoa::Buffer;
use std::alloc::{AllocError, Global};
use un_core::Net;

/// The line of a network whose validation told of so many errors.
#[tactic(auto, unfolding(crate::specs::Made::line_at))]
pub(crate) fn line_at(alloc: Global, net: &Net, errors: u64) -> Result<Vec<u8>, AllocError>
    ensures { IfOk result (λ line. line.items ≡ line_at net.now errors) }
{
    let connected = connected(alloc, net)?;
    let loops = loops(alloc, net)?;
    line_of(alloc, connected, errors, net.rows(), loops, net.version())
}

/// The line of five numbers.
fn line_of(
    alloc: Global,
    connected: u64,
    errors: u64,
    features: u64,
    loops: u64,
    version: u64,
) -> Result<Vec<u8>, AllocError>
    ensures { IfOk result (λ line. line.items ≡ line_of connected errors features loops version) }
{
    let mut line = Vec::new(alloc);
    put(&mut line, b"{\"connected\":", connected)?;
    put(&mut line, b",\"errors\":", errors)?;
    put(&mut line, b",\"features\":", features)?;
    put(&mut line, b",\"loops\":", loops)?;
    put(&mut line, b",\"ok\":\"make\",\"version\":", version)?;
    line.extend_from_slice(b"}\n")?;
    Ok(line)
}

/// Adds a text, and a number after it.
fn put(line: &mut Vec<u8>, text: &[u8], number: u64) -> Result<(), AllocError>
    ensures { OnOk result (line.new.items ≡ line.old.items ++ text.now ++ decimal number) }
{
    line.extend_from_slice(text)?;
    line.extend_from_slice(Buffer::new().format(number).as_bytes())
}
