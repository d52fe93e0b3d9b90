//! A large network from a number.
//!
//! Joints stand on a grid, 20 in a row, a metre apart. Pipes join each to the next one of its row and, where a draw says
//! so, to the one above it in the next row; seven of eight draws do. The draws come from a linear congruential generator
//! that starts at the seed, so the same seed and the same count give the same commands.
//!
//! The commands are the joints of all places, the pipes from all places, and a validation of all of it, in this order. [`commands`] has them in
//! a list; whoever applies them one after another makes them place by place, and keeps but a few at once.
#![tactic(auto)]

ghost use Rattle.std.specs.Prelude.{◌≡◌, ◌≤◌, IfOk};
ghost use Rattle.un_gen.specs.Generator.{generated};

mod draws;
mod inserts;
mod joints;
mod pipes;

pub use draws::Draws;
pub use inserts::{joint, validation};
pub use pipes::pipes_at;
use std::alloc::{AllocError, Global};
use un_ask::Command;

/// The commands that make a network of `count` joints under the built-in schema: the joints, the pipes and a validation
/// of all of it. Want of memory is the one error.
pub fn commands(alloc: Global, seed: u32, count: u32) -> Result<Vec<Command>, AllocError>
    requires some { 1 ≤ count }
    requires few { count ≤ 20000 }
    ensures { IfOk result (λ made. made.items ≡ generated seed count) }
{
    // A joint and at most two pipes for each place, and the validation.
    let mut commands = Vec::with_capacity(alloc, 3 * count as usize + 1)?;
    joints::push_joints(alloc, count, &mut commands)?;
    pipes::push_pipes(alloc, seed, count, &mut commands)?;
    commands.push(inserts::validation())?;
    Ok(commands)
}
