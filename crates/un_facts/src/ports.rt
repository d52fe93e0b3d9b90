//! Which ports stand where once a row was edited.
ghost use Rattle.std.specs.Prelude.{OnOk, IfSome};
ghost use Rattle.std.specs.Option.{option_copied};
ghost use Rattle.un_grid.specs.Grids.{HasRow, LacksRow, HasInPlace};
ghost use Rattle.un_facts.specs.Standers.{HasPorts};

use std::alloc::{AllocError, Global};
use un_defs::{Edit, Row};
use un_grid::Grid;

// Puts the ports of a row in, if there is one.
fn put_row(grid: &mut Grid, alloc: Global, after: Option<&Row>) -> Result<(), AllocError>
    ensures { OnOk result (IfSome (option_copied after.entry) (HasRow grid.old grid.new)) }
{
    match after {
        Some(row) => grid.put(alloc, row),
        None => Ok(()),
    }
}

// Takes the ports of a row out, if there is one.
fn take_row(grid: &mut Grid, alloc: Global, before: Option<&Row>) -> Result<(), AllocError>
    ensures { OnOk result (IfSome (option_copied before.entry) (LacksRow grid.old grid.new)) }
{
    match before {
        Some(row) => grid.take(alloc, row),
        None => Ok(()),
    }
}

// Puts the ports of a row in the place of those of another, if there are both.
fn exchange_rows(
    grid: &mut Grid,
    alloc: Global,
    before: Option<&Row>,
    after: Option<&Row>,
) -> Result<(), AllocError>
    ensures { OnOk result (IfSome (option_copied before.entry)
        (λ r. IfSome (option_copied after.entry) (HasInPlace grid.old grid.new r))) }
{
    match (before, after) {
        (Some(before), Some(after)) => grid.exchange(alloc, before, after),
        _ => Ok(()),
    }
}

/// Moves the ports once an edit changed a row.
pub(crate) fn move_ports(
    grid: &mut Grid,
    alloc: Global,
    edit: &Edit,
    before: Option<&Row>,
    after: Option<&Row>,
) -> Result<(), AllocError>
    ensures { OnOk result
        (HasPorts edit.now (option_copied before.entry) (option_copied after.entry) grid.old grid.new) }
{
    match edit {
        Edit::Insert { .. } => put_row(grid, alloc, after),
        Edit::Delete { .. } => take_row(grid, alloc, before),
        Edit::Reshape { .. } | Edit::Kind { .. } => exchange_rows(grid, alloc, before, after),
        Edit::Attrs { .. }
        | Edit::Path { .. }
        | Edit::Flow { .. }
        | Edit::Ends { .. }
        | Edit::Note { .. }
        | Edit::Connect { .. }
        | Edit::Contain { .. }
        | Edit::Attach { .. }
        | Edit::Detach { .. }
        | Edit::Controller { .. }
        | Edit::Uncontroller { .. }
        | Edit::Rule { .. } => Ok(()),
    }
}
