//! The rows of a table: what a command reads, and what it must write.
//!
//! A table is text, of which each line begins with a mark and a space. Empty lines, and lines that begin with `#`, say nothing.
//!
//! | Line | What it says |
//! |---|---|
//! | `= COMMAND: NAME` | a row begins: the words of its command, and a name that no other row has |
//! | `+ NAME` | the row reads and must write all that the row of this name, above it, reads and must write |
//! | `< TEXT` | the command reads this line |
//! | `> TEXT` | it must write this line |
//! | `<< BYTES` | it reads these bytes, and no end of a line |
//! | `>> BYTES` | it must write these bytes, and no end of a line |
//! | `<* COUNT BYTES` | it reads these bytes so many times |
//! | `? END` | its status, or how its link ends; without this line its status is 0 |
//!
//! In `BYTES`, `\r`, `\n`, `\t`, `\\` and `\xHH` stand for one byte each. All other text stands for itself.

use crate::escapes::{EscapeError, push_bytes};
use std::alloc::{AllocError, Global};

/// Why a line of a table can't be read.
#[derive(Debug, Drop, thiserror::Error)]
pub(crate) enum Cause {
    #[error("out of memory")]
    Memory(#[from] AllocError),
    #[error("{0}")]
    Escape(#[from] EscapeError),
    #[error("a mark that is none of the table's")]
    UnknownMark,
    #[error("a line before the first row")]
    NoRow,
    #[error("a row without a command or a name")]
    NoName,
    #[error("a name that a row above has")]
    SameName,
    #[error("no row above has this name")]
    UnknownName,
    #[error("a count that is no number from 1 to 2000000")]
    BadCount,
    #[error("a second end of one row")]
    SecondEnd,
    #[error("no row")]
    NoRows,
}

/// A line that can't be read, counted from 1.
#[derive(Debug, Drop, thiserror::Error)]
#[error("line {line}: {cause}")]
pub(crate) struct TableError {
    pub(crate) line: u64,
    pub(crate) cause: Cause,
}

/// What a command reads, and what it must write.
#[derive(Drop)]
pub(crate) struct Row {
    /// The words of the command, with a space between them.
    pub(crate) command: String,
    pub(crate) name: String,
    pub(crate) input: Vec<u8>,
    pub(crate) output: Vec<u8>,
    /// How the command must end, if the table says so.
    pub(crate) end: Option<String>,
}

/// The most times that a line can say bytes.
const MOST_TIMES: usize = 2_000_000;

impl Row {
    // The row that begins with this text, of which nothing is said yet.
    fn new(alloc: Global, text: &str) -> Result<Row, Cause> {
        let (command, name) = text.split_once(": ").ok_or(Cause::NoName)?;
        if command.is_empty() || name.is_empty() {
            return Err(Cause::NoName);
        }
        Ok(Row {
            command: String::from_str(alloc, command)?,
            name: String::from_str(alloc, name)?,
            input: Vec::new(alloc),
            output: Vec::new(alloc),
            end: None,
        })
    }

    // Adds what a line says of the row.
    fn add(&mut self, alloc: Global, mark: &str, text: &str) -> Result<(), Cause> {
        match mark {
            "<" => push_line(&mut self.input, text),
            ">" => push_line(&mut self.output, text),
            "<<" => push_bytes(&mut self.input, text),
            ">>" => push_bytes(&mut self.output, text),
            "<*" => push_times(alloc, &mut self.input, text),
            "?" => self.set_end(alloc, text),
            _ => Err(Cause::UnknownMark),
        }
    }

    // Says how the command must end.
    fn set_end(&mut self, alloc: Global, text: &str) -> Result<(), Cause> {
        if self.end.is_some() {
            return Err(Cause::SecondEnd);
        }
        self.end = Some(String::from_str(alloc, text)?);
        Ok(())
    }
}

// Adds a line.
fn push_line(bytes: &mut Vec<u8>, text: &str) -> Result<(), Cause> {
    bytes.extend_from_slice(text.as_bytes())?;
    bytes.push(b'\n').map_err(AllocError::from)?;
    Ok(())
}

// Adds bytes as often as the count before them says.
fn push_times(alloc: Global, bytes: &mut Vec<u8>, text: &str) -> Result<(), Cause> {
    let (count, text) = text.split_once(' ').ok_or(Cause::BadCount)?;
    let count = count.parse::<usize>().map_err(|_| Cause::BadCount)?;
    if count == 0 || count > MOST_TIMES {
        return Err(Cause::BadCount);
    }
    let mut piece = Vec::new(alloc);
    push_bytes(&mut piece, text)?;
    for _ in 0..count {
        bytes.extend_from_slice(&piece)?;
    }
    Ok(())
}

// The rows that are read so far, and the last one, of which more may be said.
#[derive(Drop)]
struct Table {
    rows: Vec<Row>,
    open: Option<Row>,
}

impl Table {
    fn new(alloc: Global) -> Table {
        Table {
            rows: Vec::new(alloc),
            open: None,
        }
    }

    // Reads a line.
    fn read_line(&mut self, alloc: Global, line: &str) -> Result<(), Cause> {
        if line.is_empty() || line.starts_with('#') {
            return Ok(());
        }
        let (mark, text) = line.split_once(' ').ok_or(Cause::UnknownMark)?;
        match mark {
            "=" => self.begin(Row::new(alloc, text)?),
            "+" => self.go_on(text),
            _ => match &mut self.open {
                Some(row) => row.add(alloc, mark, text),
                None => Err(Cause::NoRow),
            },
        }
    }

    // Begins a row.
    fn begin(&mut self, row: Row) -> Result<(), Cause> {
        self.close()?;
        if self.find(row.name.as_str()).is_some() {
            return Err(Cause::SameName);
        }
        self.open = Some(row);
        Ok(())
    }

    // Ends the last row.
    fn close(&mut self) -> Result<(), Cause> {
        if let Some(row) = self.open.take() {
            self.rows.push(row).map_err(AllocError::from)?;
        }
        Ok(())
    }

    // Ends the last row, of which there must be one.
    fn end(&mut self) -> Result<(), Cause> {
        if self.open.is_none() {
            return Err(Cause::NoRows);
        }
        self.close()
    }

    // The row of this name, if it has ended.
    fn find(&self, name: &str) -> Option<&Row> {
        self.rows.iter().find(|row| row.name.as_str() == name)
    }

    // Adds all that the row of this name reads and must write to the last row.
    fn go_on(&mut self, name: &str) -> Result<(), Cause> {
        let open = self.open.as_mut().ok_or(Cause::NoRow)?;
        for row in &self.rows {
            if row.name.as_str() == name {
                open.input.extend_from_slice(&row.input)?;
                open.output.extend_from_slice(&row.output)?;
                return Ok(());
            }
        }
        Err(Cause::UnknownName)
    }
}

// Reads all lines.
fn read_lines(alloc: Global, table: &mut Table, text: &str) -> Result<(), TableError> {
    let mut line = 0u64;
    for words in text.lines() {
        line = line.saturating_add(1);
        if let Err(cause) = table.read_line(alloc, words) {
            return Err(TableError { line, cause });
        }
    }
    match table.end() {
        Ok(()) => Ok(()),
        Err(cause) => Err(TableError { line, cause }),
    }
}

/// The rows of a table, in their order.
///
/// The error is that of the first line that can't be read.
pub(crate) fn read_rows(alloc: Global, text: &str) -> Result<Vec<Row>, TableError> {
    let mut table = Table::new(alloc);
    read_lines(alloc, &mut table, text)?;
    Ok(table.rows)
}
