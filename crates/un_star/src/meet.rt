//! What meets at a point.

ghost use Rattle.std.specs.Prelude.{◌≡◌, ◌<◌, ◌++◌, List, Some, IfOk, OnOk, length, option_to_list};
ghost use Rattle.un_schema.specs.declared.rule.Rule.{Rule};
ghost use Rattle.std.specs.List.{list_any};
ghost use Rattle.un_schema.specs.Catalog.{any_vertex};
ghost use Rattle.un_defs.specs.Features.{row as row_of};
ghost use Rattle.un_defs.specs.Links.{only};
ghost use Rattle.un_star.specs.Meet.{pairs_of, stander, standers, joint_of_port, joints_among, end_here, ends_here, chosen_by, has_chosen_by, joins_by, noted, passes_group, TakesIn, AreGroups, IsMeeting, with_port};

use std::alloc::{AllocError, Global};
use un_defs::ports::is_joint;
use un_defs::{Port, Row, Rows};
use un_geom::Point;
use un_schema::{Class, Policy, Schema};

/// A port that stands at the point, with its row.
#[derive(Clone, Copy)]
pub(crate) struct Standing<'a> {
    pub(crate) port: Port,
    pub(crate) row: &'a Row,
}

/// What the rules ask of a device or junction.
#[derive(Clone, Copy)]
pub(crate) struct Joint {
    pub(crate) id: u64,
    pub(crate) kind: u16,
    pub(crate) terminals: u8,
}

/// What the rules ask of a vertex of a line.
#[derive(Clone, Copy)]
pub(crate) struct End {
    pub(crate) port: Port,
    pub(crate) kind: u16,
    /// The terminal that the line's end gives, 0 for none and at an inner vertex.
    pub(crate) terminal: u8,
    /// Whether it is the first or the last vertex.
    pub(crate) outer: bool,
}

/// Ends of lines of one kind that meet a device or junction at one terminal.
#[derive(Clone, Copy)]
pub(crate) struct Group {
    pub(crate) kind: u16,
    pub(crate) terminal: u8,
    /// The first of them.
    pub(crate) first: Port,
    /// Whether there is another one.
    pub(crate) several: bool,
}

/// What meets at a point.
#[derive(Drop)]
pub(crate) struct Meeting<'a> {
    pub(crate) at: Point,
    /// The ports at the point, in their order.
    pub(crate) standing: Vec<Standing<'a>>,
    pub(crate) joints: Vec<Joint>,
    pub(crate) ends: Vec<End>,
    pub(crate) groups: Vec<Group>,
}

/// Adds a port with its row, if there is one.
fn add_standing<'a, R: Rows>(
    standing: &mut Vec<Standing<'a>>,
    rows: &'a R,
    port: Port,
) -> Result<(), AllocError>
    ensures { OnOk result (pairs_of standing.new.items
        ≡ pairs_of standing.old.items ++ option_to_list (stander (R.features rows.now) port)) }
{
    if let Some(row) = rows.row(port.feature) {
        standing.push(Standing { port, row })?;
    }
    Ok(())
}

/// The ports at a point with their rows, each row looked up once.
fn standing_at<'a, R: Rows>(
    alloc: Global,
    rows: &'a R,
    p: Point,
) -> Result<Vec<Standing<'a>>, AllocError>
    ensures { IfOk result (λ standing. pairs_of standing.items ≡ standers (R.features rows.now) p) }
{
    let ports = rows.ports_at(p);
    let mut standing = Vec::with_capacity(alloc, ports.len())?;
    for port in ports {
        add_standing(&mut standing, rows, *port)?;
    }
    Ok(standing)
}

/// The device or junction of the row, if the port is its first terminal.
fn joint_here(port: Port, row: &Row) -> Option<Joint>
    ensures { result ≡ joint_of_port port row.now }
{
    if is_joint(row.class) && port.number == 1 {
        return Some(Joint {
            id: row.id,
            kind: row.kind,
            terminals: row.terminals,
        });
    }
    None
}

fn joints_here(alloc: Global, standing: &[Standing]) -> Result<Vec<Joint>, AllocError>
    ensures { IfOk result (λ joints. joints.items ≡ joints_among standing.now) }
{
    standing
        .iter()
        .filter_map(|one| joint_here(one.port, one.row))
        .collect(alloc)
}

/// Whether any vertex of a line of this kind may connect.
fn any_vertex(schema: &Schema, kind: u16) -> bool
    requires { kind < length schema.now.kinds }
    ensures { result ≡ any_vertex schema.now kind }
{
    schema.kind_at(kind).policy == Policy::AnyVertex
}

/// The vertex that the port of a row is, if it is one of a line and may connect.
pub(crate) fn end_here<R: Rows>(rows: &R, p: Point, port: Port, row: &Row) -> Option<End>
    requires { row_of (R.features rows.now) port.feature ≡ Some row.now }
    ensures { result ≡ end_here (R.catalog rows.now) (R.features rows.now) p port }
{
    if row.class != Class::Line {
        return None;
    }
    let first = port.number == 0;
    let last = usize::from(port.number) + 1 == row.shape.points().len();
    if !any_vertex(rows.schema(), row.kind) && !first && !last {
        return None;
    }
    let terminal = if first {
        row.ends[0]
    } else if last {
        row.ends[1]
    } else {
        0
    };
    Some(End {
        port: Port {
            feature: row.id,
            number: port.number,
        },
        kind: row.kind,
        terminal,
        outer: first || last,
    })
}

fn add_end(ends: &mut Vec<End>, end: Option<End>) -> Result<(), AllocError>
    ensures { OnOk result (ends.new.items ≡ ends.old.items ++ option_to_list end) }
{
    if let Some(end) = end {
        ends.push(end)?;
    }
    Ok(())
}

fn ends_here<R: Rows>(
    alloc: Global,
    rows: &R,
    p: Point,
    standing: &[Standing],
) -> Result<Vec<End>, AllocError>
    requires { pairs_of standing.now ≡ standers (R.features rows.now) p }
    ensures { IfOk result (λ ends. ends.items ≡ ends_here (R.catalog rows.now) (R.features rows.now) p) }
{
    let mut ends = Vec::new(alloc);
    for one in standing {
        add_end(&mut ends, end_here(rows, p, one.port, one.row))?;
    }
    Ok(ends)
}

/// The terminal that an end gives, or where it is 0 the only one.
pub(crate) fn chosen(end: &End, joint: &Joint) -> u8
    ensures { result ≡ chosen_by end.now joint.now }
{
    if end.terminal == 0 && joint.terminals == 1 {
        1
    } else {
        end.terminal
    }
}

/// Whether the end's terminal is there.
pub(crate) fn has_chosen(joint: &Joint, end: &End) -> bool
    ensures { result ≡ has_chosen_by joint.now end.now }
{
    let terminal = chosen(end, joint);
    1 <= terminal && terminal <= joint.terminals
}

/// The only device or junction, if there is exactly one.
pub(crate) fn only(joints: &[Joint]) -> Option<Joint>
    ensures { result ≡ only joints.now }
{
    match joints {
        [joint] => Some(*joint),
        _ => None,
    }
}

/// The group with one more end.
fn with_port(group: &Group, port: Port) -> Group
    ensures { result ≡ with_port group.now port }
{
    Group {
        kind: group.kind,
        terminal: group.terminal,
        first: group.first,
        several: group.several || group.first != port,
    }
}

/// Takes an end into the first group of its kind and terminal, or into a new one.
fn note(groups: &mut Vec<Group>, kind: u16, terminal: u8, port: Port) -> Result<(), AllocError>
    ensures { OnOk result (groups.new.items ≡ noted groups.old.items kind terminal port) }
{
    for place in 0..groups.len() {
        let group = groups[place];
        if group.kind == kind && group.terminal == terminal {
            groups[place] = with_port(&group, port);
            return Ok(());
        }
    }
    groups.push(Group {
        kind,
        terminal,
        first: port,
        several: false,
    })?;
    Ok(())
}

/// Takes an end into the groups, if its terminal is there.
fn take_in(groups: &mut Vec<Group>, joint: &Joint, end: &End) -> Result<(), AllocError>
    ensures { OnOk result ((rules : List Rule)
        → TakesIn rules joint.now end.now groups.old.items groups.new.items) }
{
    if !has_chosen(joint, end) {
        return Ok(());
    }
    note(groups, end.kind, chosen(end, joint), end.port)?;
    Ok(())
}

/// The ends whose terminal is there, by their kind and terminal.
fn groups(alloc: Global, joint: &Joint, ends: &[End]) -> Result<Vec<Group>, AllocError>
    ensures { IfOk result (λ groups. (rules : List Rule) → AreGroups rules joint.now ends.now groups.items) }
{
    let mut groups = Vec::new(alloc);
    for end in ends {
        take_in(&mut groups, joint, end)?;
    }
    Ok(groups)
}

/// What meets at a point.
pub(crate) fn meet<'a, R: Rows>(
    alloc: Global,
    rows: &'a R,
    p: Point,
) -> Result<Meeting<'a>, AllocError>
    ensures at { IfOk result (λ meeting. meeting.at ≡ p) }
    ensures meeting { IfOk result (IsMeeting (R.catalog rows.now) (R.features rows.now)) }
{
    let standing = standing_at(alloc, rows, p)?;
    let joints = joints_here(alloc, standing.as_slice())?;
    let ends = ends_here(alloc, rows, p, standing.as_slice())?;
    let groups = match only(joints.as_slice()) {
        Some(joint) => groups(alloc, &joint, ends.as_slice())?,
        None => Vec::new(alloc),
    };
    Ok(Meeting {
        at: p,
        standing,
        joints,
        ends,
        groups,
    })
}

/// Whether a rule lets an end pass through with one of the group, which is another end.
fn passes(schema: &Schema, joint: &Joint, end: &End, group: &Group) -> bool
    ensures { result ≡ passes_group schema.now.rules joint.now end.now group.now }
{
    (end.port != group.first || group.several)
        && schema.allows_through(
            joint.kind,
            chosen(end, joint),
            end.kind,
            group.terminal,
            group.kind,
        )
}

/// Whether a rule lets an end pass through with one of the groups.
fn passes_any(schema: &Schema, joint: &Joint, end: &End, groups: &[Group]) -> bool
    ensures { result ≡ list_any (passes_group schema.now.rules joint.now end.now) groups.now }
{
    groups.iter().any(|group| passes(schema, joint, end, group))
}

/// Whether the end's terminal is there, and a rule allows the end.
pub(crate) fn joins(schema: &Schema, meeting: &Meeting, joint: &Joint, end: &End) -> bool
    requires { AreGroups schema.now.rules joint.now meeting.now.ends.items meeting.now.groups.items }
    ensures { result ≡ joins_by schema.now.rules joint.now meeting.now.ends.items end.now }
{
    has_chosen(joint, end)
        && (schema.allows_edge(joint.kind, chosen(end, joint), end.kind)
            || passes_any(schema, joint, end, meeting.groups.as_slice()))
}
