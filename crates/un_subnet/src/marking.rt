//! Which stored rows a validation makes dirty.
//!
//! The rows at a point that has changed stand under the point's keys. Those of the subnetwork of a controller that a changed star had or has
//! stand under the keys of its name, where names with the same hash may stand too. The numbers of all these rows are gathered, some of them
//! more than once, and then each of the rows is made dirty that is not so already.

ghost use Rattle.std.specs.Prelude.{◌≡◌, ◌∷◌, ◌++◌, [], false, flat_map, IfOk, OnOk};
ghost use Rattle.std.specs.BTreeMap.{is_at};
ghost use Rattle.std.specs.Map.{lookup};
ghost use Rattle.std.specs.Option.{option_map_or};
ghost use Rattle.std.specs.Ordering.{nat_cmp};
ghost use Rattle.un_subnet.specs.Outcome.{is_row_of};
ghost use Rattle.un_subnet.specs.declared.row_index.Subject.TheVariants.{At};
ghost use Rattle.un_subnet.specs.RowIndex.{IsIndex, dirty, numbers_at, numbers_with, changed_numbers, made_in};

use crate::changes::StarChanges;
use crate::entry::Entry;
use crate::row_index::{Key, Subject, first_key, push_numbers};
use std::alloc::{AllocError, Global};
use std::sync::Arc;
use un_defs::Controller;
use un_geom::Point;
use un_pages::Paged;
use un_schema::Name;

/// Adds the numbers of the rows at the points.
fn push_at_points(
    keys: &Paged<Key, ()>,
    points: &[Point],
    numbers: &mut Vec<u64>,
) -> Result<(), AllocError>
    ensures { OnOk result (numbers.new.items
        ≡ numbers.old.items ++ flat_map (λ p. numbers_at keys.now (At p)) points.now) }
{
    for point in points {
        push_numbers(keys, Subject::At(*point), numbers)?;
    }
    Ok(())
}

/// Whether the row with this number is of the subnetwork.
fn is_of(rows: &Paged<u64, Entry>, number: u64, tier: u8, subnet: &Name) -> bool
    ensures { result
        ≡ option_map_or (is_row_of tier subnet.now) (lookup (is_at (nat_cmp number)) rows.now) false }
{
    match rows.get(&number) {
        Some(entry) => entry.is_of(tier, subnet),
        None => false,
    }
}

/// Adds the numbers of the rows of a subnetwork.
fn push_rows_of(
    rows: &Paged<u64, Entry>,
    keys: &Paged<Key, ()>,
    tier: u8,
    subnet: &Name,
    numbers: &mut Vec<u64>,
) -> Result<(), AllocError>
    requires { IsIndex rows.now keys.now }
    ensures { OnOk result (numbers.new.items
        ≡ numbers.old.items ++ numbers_with (is_row_of tier subnet.now) rows.now) }
{
    // For the proof alone.
    let (_rows, _keys) = (rows.len(), keys.len());
    let subject = Subject::of_subnet(tier, subnet);
    for (key, _) in keys.range(first_key(subject)) {
        if !key.is_under(subject) {
            return Ok(());
        }
        if !is_of(rows, key.number, tier, subnet) {
            continue;
        }
        numbers.push(key.number)?;
    }
    Ok(())
}

/// Adds the numbers of the rows of the controllers' subnetworks.
fn push_of_controllers(
    rows: &Paged<u64, Entry>,
    keys: &Paged<Key, ()>,
    controllers: &[&Controller],
    numbers: &mut Vec<u64>,
) -> Result<(), AllocError>
    requires { IsIndex rows.now keys.now }
    ensures { OnOk result (numbers.new.items ≡ numbers.old.items
        ++ flat_map (λ c. numbers_with (is_row_of c.now.tier c.now.subnet) rows.now) controllers.now) }
{
    for controller in controllers {
        push_rows_of(rows, keys, controller.tier, &controller.subnet, numbers)?;
    }
    Ok(())
}

/// The numbers of the rows that the changes make dirty.
pub(crate) fn changed_numbers(
    alloc: Global,
    rows: &Paged<u64, Entry>,
    keys: &Paged<Key, ()>,
    changes: &StarChanges<'_>,
) -> Result<Vec<u64>, AllocError>
    requires { IsIndex rows.now keys.now }
    ensures { IfOk result (λ numbers. numbers.items ≡ changed_numbers rows.now keys.now changes.now) }
{
    let mut numbers = Vec::new(alloc);
    push_at_points(keys, changes.points(), &mut numbers)?;
    push_of_controllers(rows, keys, changes.controllers(), &mut numbers)?;
    Ok(numbers)
}

/// Makes the row with this number dirty.
fn mark(alloc: Global, rows: &mut Paged<u64, Entry>, number: u64) -> Result<(), AllocError>
    ensures { OnOk result (rows.new ≡ made_in dirty (number ∷ []) rows.old) }
{
    // For the proof alone.
    let _len = rows.len();
    let Some(entry) = rows.get(&number) else {
        return Ok(());
    };
    if let Some(entry) = entry.dirty()? {
        rows.put(alloc, number, Arc::new(alloc, entry)?)?;
    }
    Ok(())
}

/// Makes the rows with these numbers dirty.
pub(crate) fn mark_all(
    alloc: Global,
    rows: &mut Paged<u64, Entry>,
    numbers: &[u64],
) -> Result<(), AllocError>
    ensures { OnOk result (rows.new ≡ made_in dirty numbers.now rows.old) }
{
    for number in numbers {
        mark(alloc, rows, *number)?;
    }
    Ok(())
}
