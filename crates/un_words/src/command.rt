//! Commands.
ghost use Rattle.std.specs.Prelude.{◌≡◌, ℕ, List, Some, [], ◌∷◌, codes};
ghost use Rattle.un_words.specs.Words.{IsCommand, ReadsCommand};
ghost use Rattle.un_words.specs.declared.command.ProgramCommand.{ProgramCommand};

use crate::number::number_within;
use un_io::Word;

/// The most junctions that are made.
const MOST_JUNCTIONS: u32 = 20_000;

/// The most workers of a server.
const MOST_WORKERS: u32 = 64;

/// What a program is asked to do.
#[derive(Clone, Copy, Debug, PartialEq, Eq)]
pub enum ProgramCommand {
    /// `script`: runs the script that is read from standard input.
    Script,
    /// `follow`: keeps a copy of a kept topology from pages of changes that are read from standard input.
    Follow,
    /// `make SEED COUNT`: builds a network of this many junctions, which the seed determines.
    Make { seed: u32, count: u32 },
    /// `serve PORT WORKERS`: answers HTTP requests at a port, with this many workers.
    Serve { port: u16, workers: u32 },
}

// The command with one word.
fn read_name(name: &Word) -> Option<ProgramCommand>
    ensures read { ReadsCommand (name.now ∷ []) result }
{
    match name.as_str() {
        "script" => Some(ProgramCommand::Script),
        "follow" => Some(ProgramCommand::Follow),
        _ => None,
    }
}

// The command `make` with these numbers.
fn read_make(seed: &Word, count: &Word) -> Option<ProgramCommand>
    ensures read { ReadsCommand (codes "make" ∷ seed.now ∷ count.now ∷ []) result }
{
    let seed = number_within(seed.as_str(), 0, u32::MAX)?;
    let count = number_within(count.as_str(), 1, MOST_JUNCTIONS)?;
    Some(ProgramCommand::Make { seed, count })
}

// The command `serve` with these numbers.
fn read_serve(port: &Word, workers: &Word) -> Option<ProgramCommand>
    ensures read { ReadsCommand (codes "serve" ∷ port.now ∷ workers.now ∷ []) result }
{
    let port = number_within(port.as_str(), 1, u16::MAX as u32)?;
    let workers = number_within(workers.as_str(), 1, MOST_WORKERS)?;
    Some(ProgramCommand::Serve {
        port: port as u16,
        workers,
    })
}

// The command with three words.
fn read_numbers(name: &Word, first: &Word, second: &Word) -> Option<ProgramCommand>
    ensures read { ReadsCommand (name.now ∷ first.now ∷ second.now ∷ []) result }
{
    match name.as_str() {
        "make" => read_make(first, second),
        "serve" => read_serve(first, second),
        _ => None,
    }
}

/// The command that the words are, or `None` if they are none.
///
/// Numbers are decimal, without a sign and without leading zeros.
pub fn read_words(words: &[Word]) -> Option<ProgramCommand>
    ensures read { ReadsCommand words.now result }
    ensures only { (command : ProgramCommand) → IsCommand words.now command → result ≡ Some command }
{
    match words {
        [name] => read_name(name),
        [name, first, second] => read_numbers(name, first, second),
        _ => None,
    }
}
