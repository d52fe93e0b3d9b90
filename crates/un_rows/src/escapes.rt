//! Bytes that are written as text.

use crate::table::Cause;
use std::alloc::AllocError;

/// Why a text stands for no bytes.
#[derive(Clone, Copy, Debug, PartialEq, Eq, thiserror::Error)]
pub(crate) enum EscapeError {
    #[error("an escape that is none of \\r, \\n, \\t, \\\\ and \\xHH")]
    Unknown,
    #[error("an escape that has no end")]
    Open,
}

// What has been read of an escape.
#[derive(Clone, Copy)]
enum Escape {
    Outside,
    Begun,
    Hex,
    // The first of two digits.
    Digit(u8),
}

// The value of a digit.
fn digit(byte: u8) -> Result<u8, EscapeError> {
    match byte {
        b'0'..=b'9' => Ok(byte - b'0'),
        b'a'..=b'f' => Ok(byte - b'a' + 10),
        _ => Err(EscapeError::Unknown),
    }
}

// The byte that a letter behind the backslash stands for.
fn named(byte: u8) -> Result<u8, EscapeError> {
    match byte {
        b'r' => Ok(b'\r'),
        b'n' => Ok(b'\n'),
        b't' => Ok(b'\t'),
        b'\\' => Ok(b'\\'),
        _ => Err(EscapeError::Unknown),
    }
}

// What has been read after one byte more, and the byte that is whole by then.
fn step(escape: Escape, byte: u8) -> Result<(Escape, Option<u8>), EscapeError> {
    match escape {
        Escape::Outside if byte == b'\\' => Ok((Escape::Begun, None)),
        Escape::Outside => Ok((Escape::Outside, Some(byte))),
        Escape::Begun if byte == b'x' => Ok((Escape::Hex, None)),
        Escape::Begun => Ok((Escape::Outside, Some(named(byte)?))),
        Escape::Hex => Ok((Escape::Digit(digit(byte)?), None)),
        Escape::Digit(high) => Ok((Escape::Outside, Some((high << 4) | digit(byte)?))),
    }
}

/// Adds the bytes that a text stands for: `\r`, `\n`, `\t`, `\\` and `\xHH` stand for one byte each, and all else for itself.
pub(crate) fn push_bytes(bytes: &mut Vec<u8>, text: &str) -> Result<(), Cause> {
    let mut escape = Escape::Outside;
    for byte in text.as_bytes() {
        let (next, whole) = step(escape, *byte)?;
        if let Some(whole) = whole {
            bytes.push(whole).map_err(AllocError::from)?;
        }
        escape = next;
    }
    match escape {
        Escape::Outside => Ok(()),
        Escape::Begun | Escape::Hex | Escape::Digit(_) => Err(Cause::Escape(EscapeError::Open)),
    }
}
