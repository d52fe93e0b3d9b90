//! The entries of the ports at a point.

ghost use Rattle.std.specs.Prelude.{◌≡◌, ◌==◌, Some, IfOk, map, filter, find};
ghost use Rattle.std.specs.Option.{option_copied};
ghost use Rattle.un_defs.specs.Features.{row as row_of};
ghost use Rattle.un_defs.specs.Star.{controller_at, is_containment, is_attachment};
ghost use Rattle.un_star.specs.Meet.{IsMeeting};
ghost use Rattle.un_star.specs.Entries.{permitted_among, attached_among, container_among, contents_among, structures_among, spot_here, spots_here};

use crate::links::ties_of;
use crate::meet::Meeting;
use crate::permit::permitted;
use std::alloc::{AllocError, Global};
use un_defs::order::rising;
use un_defs::{Assoc, AssocKind, Controller, Ids, Node, PackedSpot, Port, Row, Rows, Spot};

/// Of a row's associations the permitted ones by which it contains or is contained.
fn containments<R: Rows>(
    alloc: Global,
    rows: &R,
    assocs: &[Assoc],
) -> Result<Vec<Assoc>, AllocError>
    ensures { IfOk result (λ found. found.items
        ≡ permitted_among (R.features rows.now) is_containment assocs.now) }
{
    assocs
        .iter()
        .copied()
        .filter(|assoc| assoc.sort == AssocKind::Containment && permitted(rows, assoc))
        .collect(alloc)
}

/// Of a row's associations the permitted ones by which it is attached to a structure. What is attached to the row itself, which may be much,
/// is passed over before the rules are asked.
fn attachments<R: Rows>(
    alloc: Global,
    rows: &R,
    assocs: &[Assoc],
    id: u64,
) -> Result<Vec<Assoc>, AllocError>
    ensures { IfOk result (λ found. found.items ≡ attached_among (R.features rows.now) assocs.now id) }
{
    assocs
        .iter()
        .copied()
        .filter(|assoc| assoc.to.feature == id)
        .filter(|assoc| assoc.sort == AssocKind::Attachment && permitted(rows, assoc))
        .collect(alloc)
}

/// The first of the associations of which the row is the content.
fn containing(found: &[Assoc], id: u64) -> Option<&Assoc>
    ensures { option_copied result ≡ find (λ a. a.to.feature == id) found.now }
{
    found.iter().find(|assoc| assoc.to.feature == id)
}

/// The id of the container, 0 where there is none.
fn container(found: &[Assoc], id: u64) -> u64
    ensures { result ≡ container_among found.now id }
{
    match containing(found, id) {
        Some(assoc) => assoc.from.feature,
        None => 0,
    }
}

fn content_ids(alloc: Global, found: &[Assoc], id: u64) -> Result<Vec<u64>, AllocError>
    ensures { IfOk result (λ ids. ids.items
        ≡ map (λ a. a.to.feature) (filter (λ a. a.from.feature == id) found.now)) }
{
    found
        .iter()
        .filter(|assoc| assoc.from.feature == id)
        .map(|assoc| assoc.to.feature)
        .collect(alloc)
}

/// The ids of the contents, rising.
fn contents(alloc: Global, found: &[Assoc], id: u64) -> Result<Ids, AllocError>
    ensures { IfOk result (λ ids. ids ≡ contents_among found.now id) }
{
    let ids = content_ids(alloc, found, id)?;
    let ids = rising(alloc, ids.as_slice())?;
    Ok(Ids::new(ids))
}

fn structure_ids(alloc: Global, found: &[Assoc]) -> Result<Vec<u64>, AllocError>
    ensures { IfOk result (λ ids. ids.items ≡ map (λ a. a.from.feature) found.now) }
{
    found.iter().map(|assoc| assoc.from.feature).collect(alloc)
}

/// The ids of the structures to which the row is attached, rising.
fn structures<R: Rows>(
    alloc: Global,
    rows: &R,
    assocs: &[Assoc],
    id: u64,
) -> Result<Ids, AllocError>
    ensures { IfOk result (λ ids. ids
        ≡ structures_among (permitted_among (R.features rows.now) is_attachment assocs.now) id) }
{
    let found = attachments(alloc, rows, assocs, id)?;
    let ids = structure_ids(alloc, found.as_slice())?;
    let ids = rising(alloc, ids.as_slice())?;
    Ok(Ids::new(ids))
}

/// The controller on a port, in memory of its own.
fn controller<R: Rows>(
    alloc: Global,
    rows: &R,
    port: Port,
) -> Result<Option<Controller>, AllocError>
    ensures { IfOk result (λ controller. controller ≡ controller_at (R.features rows.now) port) }
{
    match rows.controller_at(port) {
        Some(controller) => {
            let subnet = controller.subnet.copy(alloc)?;
            Ok(Some(Controller {
                port: controller.port,
                tier: controller.tier,
                subnet,
            }))
        }
        None => Ok(None),
    }
}

/// The entry of a port of a row.
fn spot<R: Rows>(
    alloc: Global,
    rows: &R,
    meeting: &Meeting,
    port: Port,
    row: &Row,
) -> Result<PackedSpot, AllocError>
    requires meeting { IsMeeting (R.catalog rows.now) (R.features rows.now) meeting.now }
    requires row { row_of (R.features rows.now) port.feature ≡ Some row.now }
    ensures { IfOk result (λ spot. spot
        ≡ spot_here (R.catalog rows.now) (R.features rows.now) meeting.now.at port row.now) }
{
    let node = Node {
        port,
        at: meeting.at,
    };
    let assocs = rows.assocs_of(alloc, row.id)?;
    let ties = ties_of(alloc, rows, meeting, node, row, assocs.as_slice())?;
    let controller = controller(alloc, rows, port)?;
    let contained = containments(alloc, rows, assocs.as_slice())?;
    let contents = contents(alloc, contained.as_slice(), row.id)?;
    let structures = structures(alloc, rows, assocs.as_slice(), row.id)?;
    let spot = Spot {
        port,
        kind: row.kind,
        class: row.class,
        cats: rows.schema().cats(row.kind),
        attrs: row.attrs.copy(),
        ties,
        controller,
        container: container(contained.as_slice(), row.id),
        contents,
        structures,
    };
    let packed = PackedSpot::new(alloc, spot)?;
    Ok(packed)
}

/// The entries of the ports at a point, in their order.
pub(crate) fn spots_here<R: Rows>(
    alloc: Global,
    rows: &R,
    meeting: &Meeting,
) -> Result<Vec<PackedSpot>, AllocError>
    requires { IsMeeting (R.catalog rows.now) (R.features rows.now) meeting.now }
    ensures { IfOk result (λ spots. spots.items
        ≡ spots_here (R.catalog rows.now) (R.features rows.now) meeting.now.at) }
{
    let mut spots = Vec::with_capacity(alloc, meeting.standing.len())?;
    for one in &meeting.standing {
        let spot = spot(alloc, rows, meeting, one.port, one.row)?;
        spots.push(spot)?;
    }
    Ok(spots)
}
