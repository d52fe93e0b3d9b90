ghost use Rattle.std.specs.Prelude.{◌≡◌, ◌≤◌, ◌<◌, ◌++◌, IfOk, OnOk};
ghost use Rattle.un_gen.specs.Generator.{seeded, has_next, has_above, along, across, pipes_at, state_after, pipes};

use crate::draws::Draws;
use crate::inserts::pipe;
use std::alloc::{AllocError, Global};
use un_ask::Command;

/// Adds the pipes from all places.
pub(crate) fn push_pipes(
    alloc: Global,
    seed: u32,
    count: u32,
    commands: &mut Vec<Command>,
) -> Result<(), AllocError>
    requires { count ≤ 20000 }
    ensures { OnOk result (commands.new.items ≡ commands.old.items ++ pipes count (seeded seed) count) }
{
    let mut draws = Draws::new(seed);
    for place in 0..count {
        push_pipes_at(alloc, count, place, &mut draws, commands)?;
    }
    Ok(())
}

/// The inserts of the pipes from a place, of `count` places, with the draw that it makes: at most two. Want of memory is the one error.
pub fn pipes_at(
    alloc: Global,
    count: u32,
    place: u32,
    draws: &mut Draws,
) -> Result<Vec<Command>, AllocError>
    requires { place < 20000 }
    ensures pipes { IfOk result (λ made. made.items ≡ pipes_at count draws.old.state place) }
    ensures draws { OnOk result (draws.new.state ≡ state_after count draws.old.state place) }
{
    let mut pipes = Vec::with_capacity(alloc, 2)?;
    push_pipes_at(alloc, count, place, draws, &mut pipes)?;
    Ok(pipes)
}

/// Adds the pipes from a place.
fn push_pipes_at(
    alloc: Global,
    count: u32,
    place: u32,
    draws: &mut Draws,
    commands: &mut Vec<Command>,
) -> Result<(), AllocError>
    requires { place < 20000 }
    ensures pipes { OnOk result
        (commands.new.items ≡ commands.old.items ++ pipes_at count draws.old.state place) }
    ensures draws { OnOk result (draws.new.state ≡ state_after count draws.old.state place) }
{
    push_along(alloc, count, place, commands)?;
    push_across(alloc, count, place, draws, commands)
}

/// Adds the pipe to the next place of the row, if there is one.
fn push_along(
    alloc: Global,
    count: u32,
    place: u32,
    commands: &mut Vec<Command>,
) -> Result<(), AllocError>
    requires { place < 20000 }
    ensures { OnOk result (commands.new.items ≡ commands.old.items ++ along count place) }
{
    if has_next(count, place) {
        commands.push(pipe(alloc, place, place + 1)?)?;
    }
    Ok(())
}

/// Makes a draw if there is a place above, and adds the pipe to it unless 0 is drawn.
fn push_across(
    alloc: Global,
    count: u32,
    place: u32,
    draws: &mut Draws,
    commands: &mut Vec<Command>,
) -> Result<(), AllocError>
    requires { place < 20000 }
    ensures pipes { OnOk result
        (commands.new.items ≡ commands.old.items ++ across count draws.old.state place) }
    ensures draws { OnOk result (draws.new.state ≡ state_after count draws.old.state place) }
{
    if has_above(count, place) && draws.draw() != 0 {
        commands.push(pipe(alloc, place, place + 20)?)?;
    }
    Ok(())
}

/// Whether the next place is in the same row.
fn has_next(count: u32, place: u32) -> bool
    requires { place < 20000 }
    ensures { result ≡ has_next count place }
{
    place % 20 != 19 && place + 1 < count
}

/// Whether there is a place above, in the next row.
fn has_above(count: u32, place: u32) -> bool
    requires { place < 20000 }
    ensures { result ≡ has_above count place }
{
    place + 20 < count
}
