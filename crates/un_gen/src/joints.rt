ghost use Rattle.std.specs.Prelude.{◌≡◌, ◌++◌, OnOk};
ghost use Rattle.un_gen.specs.Generator.{joints};

use crate::inserts::joint;
use std::alloc::{AllocError, Global};
use un_ask::Command;

/// Adds the joints of all places.
pub(crate) fn push_joints(
    alloc: Global,
    count: u32,
    commands: &mut Vec<Command>,
) -> Result<(), AllocError>
    ensures { OnOk result (commands.new.items ≡ commands.old.items ++ joints count) }
{
    for place in 0..count {
        commands.push(joint(alloc, place)?)?;
    }
    Ok(())
}
