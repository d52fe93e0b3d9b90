//! A network that is made from a number, and a line that tells of it.
//!
//! The commands of the number are applied to a network under the built-in schema, one after another. Then a connected
//! trace and a trace of loops start from the first joint. The line has five numbers: the features that the first reached,
//! the errors that the validation told of, the features that there are, the segments on loops, and the version.
ghost use Rattle.std.specs.Prelude.{◌≡◌, ◌≤◌, IfOk};
ghost use Rattle.un_script.specs.Made.{made_line};

mod line;
mod network;
mod traces;

use std::alloc::{AllocError, Global};
use std::mem::forget;

/// The line of a seed and a count, with its line end. Want of memory is the one error.
pub(crate) fn make_line(alloc: Global, seed: u32, count: u32) -> Result<Vec<u8>, AllocError>
    requires some { 1 ≤ count }
    requires few { count ≤ 20000 }
    ensures { IfOk result (λ line. line.items ≡ made_line seed count) }
{
    let empty = network::open(alloc)?;
    let (net, errors) = network::apply_all(alloc, empty, seed, count)?;
    let line = line::line_at(alloc, &net, errors);
    // The program ends after this line, and the system takes its memory back faster than it can be freed block by block.
    forget(net);
    line
}
