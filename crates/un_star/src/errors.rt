//! The errors at a point.

ghost use Rattle.std.specs.Prelude.{◌≡◌, ◌≤◌, ◌++◌, IfOk, OnOk, find, map, option_to_list};
ghost use Rattle.std.specs.List.{range_with_len};
ghost use Rattle.std.specs.Option.{option_map};
ghost use Rattle.un_defs.specs.declared.star.ErrorKind.TheVariants.{MissingJunction};
ghost use Rattle.un_defs.specs.Ports.{port_numbers_of};
ghost use Rattle.un_defs.specs.Errors.{least_port_at, error_number, error_at_end};
ghost use Rattle.un_star.specs.Meet.{AreGroups, IsMeeting};
ghost use Rattle.un_star.specs.Errors.{end_error_kind, end_error_of, meeting_errors_of, loose_errors, joint_errors_here, stacked, stands_as, errors_of_association, association_errors_of, association_errors_here, errors_here};

use crate::meet::{End, Joint, Meeting, has_chosen, joins};
use crate::order::rising_errors;
use crate::permit::permitted;
use std::alloc::{AllocError, Global};
use un_defs::{Assoc, AssocKind, ErrorKind, Port, Row, Rows, TopoError};
use un_geom::Point;
use un_schema::{Class, Schema};

/// What is wrong with an end at the only device or junction, if anything is.
fn end_error_kind(schema: &Schema, meeting: &Meeting, joint: &Joint, end: &End) -> Option<ErrorKind>
    requires { AreGroups schema.now.rules joint.now meeting.now.ends.items meeting.now.groups.items }
    ensures { result ≡ end_error_kind schema.now.rules joint.now meeting.now.ends.items end.now }
{
    if has_chosen(joint, end) {
        if joins(schema, meeting, joint, end) {
            None
        } else {
            Some(ErrorKind::NoRule)
        }
    } else if end.outer {
        Some(ErrorKind::BadTerminal)
    } else if joint.terminals >= 2 {
        Some(ErrorKind::MidspanTerminal)
    } else {
        None
    }
}

fn end_error(end: &End, kind: ErrorKind) -> TopoError
    ensures { result ≡ end_error_of end.now kind }
{
    TopoError {
        kind,
        feature: end.port.feature,
        number: end.port.number,
        assoc: 0,
    }
}

/// The error of a device or junction that is not alone.
fn stacked(joint: &Joint) -> TopoError
    ensures { result ≡ stacked joint.now }
{
    TopoError {
        kind: ErrorKind::Stacked,
        feature: joint.id,
        number: 1,
        assoc: 0,
    }
}

/// The error of an end at the only device or junction, if there is one.
fn error_of_end(schema: &Schema, meeting: &Meeting, joint: &Joint, end: &End) -> Option<TopoError>
    requires { AreGroups schema.now.rules joint.now meeting.now.ends.items meeting.now.groups.items }
    ensures { result ≡ option_map (end_error_of end.now)
        (end_error_kind schema.now.rules joint.now meeting.now.ends.items end.now) }
{
    match end_error_kind(schema, meeting, joint, end) {
        Some(kind) => Some(end_error(end, kind)),
        None => None,
    }
}

/// What is wrong with the ends at the only device or junction.
fn joint_errors_here(
    alloc: Global,
    schema: &Schema,
    meeting: &Meeting,
    joint: &Joint,
) -> Result<Vec<TopoError>, AllocError>
    requires { AreGroups schema.now.rules joint.now meeting.now.ends.items meeting.now.groups.items }
    ensures { IfOk result (λ errors. errors.items
        ≡ joint_errors_here schema.now.rules joint.now meeting.now.ends.items) }
{
    let mut errors = Vec::new(alloc);
    for end in &meeting.ends {
        add(&mut errors, error_of_end(schema, meeting, joint, end))?;
    }
    Ok(errors)
}

fn missing(alloc: Global, ends: &[End]) -> Result<Vec<TopoError>, AllocError>
    ensures { IfOk result (λ errors. errors.items ≡ map (λ e. end_error_of e MissingJunction) ends.now) }
{
    ends.iter()
        .map(|end| end_error(end, ErrorKind::MissingJunction))
        .collect(alloc)
}

/// What is wrong with the ends where there is no device or junction.
fn loose_errors(alloc: Global, ends: &[End]) -> Result<Vec<TopoError>, AllocError>
    ensures { IfOk result (λ errors. errors.items ≡ loose_errors ends.now) }
{
    if ends.len() < 2 {
        return Ok(Vec::new(alloc));
    }
    missing(alloc, ends)
}

fn all_stacked(alloc: Global, joints: &[Joint]) -> Result<Vec<TopoError>, AllocError>
    ensures { IfOk result (λ errors. errors.items ≡ map stacked joints.now) }
{
    joints.iter().map(|joint| stacked(joint)).collect(alloc)
}

/// What is wrong with what meets at a point.
fn meeting_errors<R: Rows>(
    alloc: Global,
    rows: &R,
    meeting: &Meeting,
) -> Result<Vec<TopoError>, AllocError>
    requires { IsMeeting (R.catalog rows.now) (R.features rows.now) meeting.now }
    ensures { IfOk result (λ errors. errors.items
        ≡ meeting_errors_of (R.catalog rows.now).rules meeting.now.joints.items meeting.now.ends.items) }
{
    match meeting.joints.as_slice() {
        [] => loose_errors(alloc, meeting.ends.as_slice()),
        [joint] => joint_errors_here(alloc, rows.schema(), meeting, joint),
        joints => all_stacked(alloc, joints),
    }
}

/// Whether the row's port with this number stands at the point.
fn stands_as(p: Point, row: &Row, number: u8) -> bool
    ensures { result ≡ stands_as p row.now number }
{
    match row.node(number) {
        Some(node) => node.at == p,
        None => false,
    }
}

/// The first of so many ports that stands at the point.
fn first_standing(p: Point, row: &Row, from: u8, count: u8) -> Option<u8>
    requires { from ≤ 1 }
    ensures { result ≡ find (stands_as p row.now) (range_with_len from count) }
{
    for before in 0..count {
        if stands_as(p, row, from + before) {
            return Some(from + before);
        }
    }
    None
}

/// The numbers of a row's ports: the first, and how many there are.
fn port_range(row: &Row) -> (u8, u8)
    ensures low { result.0 ≤ 1 }
    ensures numbers { range_with_len result.0 result.1 ≡ port_numbers_of row.now }
{
    match row.class {
        Class::Device => (1, row.terminals),
        Class::Junction => (1, 1),
        Class::Assembly => (0, 1),
        Class::Line | Class::Structure => (0, row.shape.points().len() as u8),
    }
}

/// The least number of the row's ports at the point, if it stands there.
fn least_port_at(p: Point, row: &Row) -> Option<u8>
    ensures { result ≡ least_port_at p row.now }
{
    let (from, count) = port_range(row);
    first_standing(p, row, from, count)
}

/// The number that an error of an association has.
fn error_number(sort: AssocKind, terminal: u8, least: u8) -> u8
    ensures { result ≡ error_number sort terminal least }
{
    match sort {
        AssocKind::Connectivity => terminal,
        AssocKind::Containment | AssocKind::Attachment => least,
    }
}

/// The error of an association at one of its ends, if that end's row stands at the point.
fn error_at_end<R: Rows>(rows: &R, p: Point, assoc: &Assoc, end: Port) -> Option<TopoError>
    ensures { option_to_list result ≡ error_at_end (R.features rows.now) p assoc.now end }
{
    let row = rows.row(end.feature)?;
    let least = least_port_at(p, row)?;
    Some(TopoError {
        kind: ErrorKind::AssociationRule,
        feature: end.feature,
        number: error_number(assoc.sort, end.number, least),
        assoc: assoc.id,
    })
}

fn add(errors: &mut Vec<TopoError>, error: Option<TopoError>) -> Result<(), AllocError>
    ensures { OnOk result (errors.new.items ≡ errors.old.items ++ option_to_list error) }
{
    if let Some(error) = error {
        errors.push(error)?;
    }
    Ok(())
}

/// Adds the errors of an association at both its ends, unless it is permitted.
fn add_assoc_errors<R: Rows>(
    errors: &mut Vec<TopoError>,
    rows: &R,
    p: Point,
    assoc: &Assoc,
) -> Result<(), AllocError>
    ensures { OnOk result (errors.new.items
        ≡ errors.old.items ++ errors_of_association (R.features rows.now) p assoc.now) }
{
    if permitted(rows, assoc) {
        return Ok(());
    }
    add(errors, error_at_end(rows, p, assoc, assoc.from))?;
    add(errors, error_at_end(rows, p, assoc, assoc.to))
}

/// Adds the errors of the associations of a row that are not permitted.
fn add_row_errors<R: Rows>(
    errors: &mut Vec<TopoError>,
    alloc: Global,
    rows: &R,
    p: Point,
    id: u64,
) -> Result<(), AllocError>
    ensures { OnOk result (errors.new.items
        ≡ errors.old.items ++ association_errors_of (R.features rows.now) p id) }
{
    let assocs = rows.assocs_of(alloc, id)?;
    for assoc in &assocs {
        add_assoc_errors(errors, rows, p, assoc)?;
    }
    Ok(())
}

/// Adds the errors of the associations of the rows at the point that are not permitted.
fn add_association_errors<R: Rows>(
    errors: &mut Vec<TopoError>,
    alloc: Global,
    rows: &R,
    p: Point,
) -> Result<(), AllocError>
    ensures { OnOk result (errors.new.items
        ≡ errors.old.items ++ association_errors_here (R.features rows.now) p) }
{
    for port in rows.ports_at(p) {
        add_row_errors(errors, alloc, rows, p, port.feature)?;
    }
    Ok(())
}

/// The errors at a point, in order.
pub(crate) fn errors_here<R: Rows>(
    alloc: Global,
    rows: &R,
    meeting: &Meeting,
) -> Result<Vec<TopoError>, AllocError>
    requires { IsMeeting (R.catalog rows.now) (R.features rows.now) meeting.now }
    ensures { IfOk result (λ errors. errors.items
        ≡ errors_here (R.catalog rows.now) (R.features rows.now) meeting.now.at) }
{
    let mut errors = meeting_errors(alloc, rows, meeting)?;
    add_association_errors(&mut errors, alloc, rows, meeting.at)?;
    let errors = rising_errors(alloc, errors.as_slice())?;
    Ok(errors)
}
