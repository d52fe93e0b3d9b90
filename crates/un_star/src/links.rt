//! The links of a node.

ghost use Rattle.std.specs.Prelude.{◌≡◌, ◌<◌, ◌++◌, Some, IfOk, OnOk, IsTrue, length, flat_map, option_to_list};
ghost use Rattle.un_defs.specs.Orders.{rising, tie_cmp};
ghost use Rattle.un_defs.specs.Features.{row as row_of, is_line, associations_of};
ghost use Rattle.un_defs.specs.Links.{ties_by, link_of, segment, is_device, association_link, node_at};
ghost use Rattle.un_star.specs.Meet.{AreGroups, IsMeeting, end_here};
ghost use Rattle.un_star.specs.Links.{segment_before, segment_ties, path_link_by, path_between_by, path_ties_by, path_ties, coin_ties_by, coin_ties, association_ties, node_ties};

use crate::meet::{End, Joint, Meeting, chosen, end_here, joins, only};
use crate::order::rising_ties;
use crate::permit::permitted;
use std::alloc::{AllocError, Global};
use un_defs::link::{TieList, Ties};
use un_defs::{Assoc, AssocKind, Flow, LinkName, Node, PackedTie, Port, Row, Rows, Tie};
use un_schema::{Class, Schema};
use un_terms::TermConfig;

/// What a node has by a link between two nodes, where both are there and it is one of them.
fn tie(
    node: Node,
    name: LinkName,
    along: bool,
    against: bool,
    first: Option<Node>,
    second: Option<Node>,
) -> Option<Tie>
    ensures { option_to_list result ≡ flat_map (ties_by node) (link_of name along against first second) }
{
    let first = first?;
    let second = second?;
    if node == first {
        return Some(Tie {
            name,
            to: second,
            out: along,
            back: against,
        });
    }
    if node == second {
        return Some(Tie {
            name,
            to: first,
            out: against,
            back: along,
        });
    }
    None
}

fn add(ties: &mut TieList, tie: Option<Tie>) -> Result<(), AllocError>
    ensures { OnOk result (ties.new.items ≡ ties.old.items ++ option_to_list tie) }
{
    if let Some(tie) = tie {
        ties.push(PackedTie::new(tie))?;
    }
    Ok(())
}

/// The segment of a line between the vertices i and i + 1.
fn segment(node: Node, line: &Row, i: u8) -> Option<Tie>
    requires { i < 255 }
    ensures { option_to_list result ≡ flat_map (ties_by node) (segment line.now i) }
{
    let along = line.flow != Flow::Against;
    let against = line.flow != Flow::With;
    tie(
        node,
        LinkName::Seg {
            line: line.id,
            index: i,
        },
        along,
        against,
        line.node(i),
        line.node(i + 1),
    )
}

/// The path between two terminals of a device, the lower first.
fn path(node: Node, config: &TermConfig, number: usize, row: &Row, low: u8, high: u8) -> Option<Tie>
    requires { number < length config.now.paths }
    ensures { option_to_list result
        ≡ flat_map (ties_by node) (path_link_by config.now number row.now low high) }
{
    let along = config.flows(number, low, high);
    let against = config.flows(number, high, low);
    if low < high && (along || against) {
        return tie(
            node,
            LinkName::Path {
                device: row.id,
                low,
                high,
            },
            along,
            against,
            row.node(low),
            row.node(high),
        );
    }
    None
}

/// The path between two terminals of a device, in whichever order they are given.
fn path_between(
    node: Node,
    config: &TermConfig,
    number: usize,
    row: &Row,
    a: u8,
    b: u8,
) -> Option<Tie>
    requires { number < length config.now.paths }
    ensures { option_to_list result
        ≡ flat_map (ties_by node) (path_between_by config.now number row.now a b) }
{
    if a < b {
        path(node, config, number, row, a, b)
    } else {
        path(node, config, number, row, b, a)
    }
}

/// The link between an end and the device or junction at its point.
fn coin(schema: &Schema, meeting: &Meeting, node: Node, joint: &Joint, end: &End) -> Option<Tie>
    requires { AreGroups schema.now.rules joint.now meeting.now.ends.items meeting.now.groups.items }
    ensures { option_to_list result
        ≡ coin_ties_by schema.now.rules node joint.now meeting.now.ends.items end.now }
{
    if !joins(schema, meeting, joint, end) {
        return None;
    }
    let terminal = chosen(end, joint);
    tie(
        node,
        LinkName::Coin {
            junction: joint.id,
            terminal,
            line: end.port.feature,
            vertex: end.port.number,
        },
        true,
        true,
        Some(Node {
            port: Port {
                feature: joint.id,
                number: terminal,
            },
            at: node.at,
        }),
        Some(Node {
            port: end.port,
            at: node.at,
        }),
    )
}

/// The node of a port of a live row.
fn node_at<R: Rows>(rows: &R, port: Port) -> Option<Node>
    ensures { result ≡ node_at (R.features rows.now) port }
{
    rows.row(port.feature)?.node(port.number)
}

/// The link by a permitted connectivity association.
fn association<R: Rows>(rows: &R, node: Node, assoc: &Assoc) -> Option<Tie>
    ensures { option_to_list result
        ≡ flat_map (ties_by node) (association_link (R.features rows.now) assoc.now) }
{
    if assoc.sort == AssocKind::Connectivity && permitted(rows, assoc) {
        return tie(
            node,
            LinkName::Assoc { id: assoc.id },
            true,
            true,
            node_at(rows, assoc.from),
            node_at(rows, assoc.to),
        );
    }
    None
}

/// Adds the segment of a line that ends at a vertex.
fn add_segment_before(ties: &mut TieList, node: Node, line: &Row) -> Result<(), AllocError>
    ensures { OnOk result (ties.new.items ≡ ties.old.items
        ++ flat_map (ties_by node) (segment_before line.now node.port.number)) }
{
    if node.port.number > 0 {
        add(ties, segment(node, line, node.port.number - 1))?;
    }
    Ok(())
}

/// Adds the segment of a line that begins at a vertex.
fn add_segment_after(ties: &mut TieList, node: Node, line: &Row) -> Result<(), AllocError>
    requires { IsTrue (is_line line.now.class) }
    ensures { OnOk result (ties.new.items ≡ ties.old.items
        ++ flat_map (ties_by node) (segment line.now node.port.number)) }
{
    if usize::from(node.port.number) + 1 < line.shape.points().len() {
        add(ties, segment(node, line, node.port.number))?;
    }
    Ok(())
}

/// Adds the two segments at a vertex of a line.
fn add_segments(ties: &mut TieList, node: Node, row: &Row) -> Result<(), AllocError>
    ensures { OnOk result (ties.new.items ≡ ties.old.items ++ segment_ties node row.now) }
{
    if row.class != Class::Line {
        return Ok(());
    }
    add_segment_before(ties, node, row)?;
    add_segment_after(ties, node, row)
}

/// Adds the paths from a terminal of a device to each other one.
fn add_paths_of(
    ties: &mut TieList,
    config: &TermConfig,
    number: usize,
    node: Node,
    row: &Row,
) -> Result<(), AllocError>
    requires { number < length config.now.paths }
    ensures { OnOk result (ties.new.items ≡ ties.old.items ++ path_ties_by config.now number node row.now) }
{
    for before in 0..row.terminals {
        let other = before + 1;
        add(
            ties,
            path_between(node, config, number, row, node.port.number, other),
        )?;
    }
    Ok(())
}

/// Adds the links between the ends at the node's point and the only device or junction there, where it is of the node's row.
fn add_all_coins(
    ties: &mut TieList,
    schema: &Schema,
    meeting: &Meeting,
    node: Node,
    joint: &Joint,
) -> Result<(), AllocError>
    requires { AreGroups schema.now.rules joint.now meeting.now.ends.items meeting.now.groups.items }
    ensures { OnOk result (ties.new.items ≡ ties.old.items
        ++ flat_map (coin_ties_by schema.now.rules node joint.now meeting.now.ends.items) meeting.now.ends.items) }
{
    for end in &meeting.ends {
        add(ties, coin(schema, meeting, node, joint, end))?;
    }
    Ok(())
}

/// Adds the links by the associations of the node's row.
fn add_associations<R: Rows>(
    ties: &mut TieList,
    rows: &R,
    node: Node,
    assocs: &[Assoc],
) -> Result<(), AllocError>
    requires { assocs.now ≡ associations_of (R.features rows.now) node.port.feature }
    ensures { OnOk result (ties.new.items ≡ ties.old.items ++ association_ties (R.features rows.now) node) }
{
    for assoc in assocs {
        add(ties, association(rows, node, assoc))?;
    }
    Ok(())
}

fn is_device(class: Class) -> bool
    ensures { result ≡ is_device class }
{
    class == Class::Device
}

/// Adds the paths from a terminal to each other one.
fn add_paths<R: Rows>(ties: &mut TieList, rows: &R, node: Node, row: &Row) -> Result<(), AllocError>
    requires { row_of (R.features rows.now) node.port.feature ≡ Some row.now }
    ensures { OnOk result (ties.new.items ≡ ties.old.items ++ path_ties (R.catalog rows.now) node row.now) }
{
    if is_device(row.class) {
        return add_device_paths(ties, rows, node, row);
    }
    Ok(())
}

/// Adds the paths from a terminal of a device to each other one.
fn add_device_paths<R: Rows>(
    ties: &mut TieList,
    rows: &R,
    node: Node,
    row: &Row,
) -> Result<(), AllocError>
    requires row { row_of (R.features rows.now) node.port.feature ≡ Some row.now }
    requires device { IsTrue (is_device row.now.class) }
    ensures { OnOk result (ties.new.items ≡ ties.old.items ++ path_ties (R.catalog rows.now) node row.now) }
{
    let Some(number) = row.path else {
        return Ok(());
    };
    let Some(config) = rows.schema().config(row.kind) else {
        return Ok(());
    };
    add_paths_of(ties, config, number, node, row)?;
    Ok(())
}

/// Adds the link of a vertex of the row with the only device or junction at its point.
fn add_own_coin<R: Rows>(
    ties: &mut TieList,
    rows: &R,
    meeting: &Meeting,
    node: Node,
    row: &Row,
    joint: &Joint,
) -> Result<(), AllocError>
    requires row { row_of (R.features rows.now) node.port.feature ≡ Some row.now }
    requires groups { AreGroups
        (R.catalog rows.now).rules joint.now meeting.now.ends.items meeting.now.groups.items }
    ensures { OnOk result (ties.new.items ≡ ties.old.items
        ++ flat_map (coin_ties_by (R.catalog rows.now).rules node joint.now meeting.now.ends.items)
        (option_to_list (end_here (R.catalog rows.now) (R.features rows.now) node.at node.port))) }
{
    if let Some(end) = end_here(rows, node.at, node.port, row) {
        add(ties, coin(rows.schema(), meeting, node, joint, &end))?;
    }
    Ok(())
}

/// Adds the links between vertices and the only device or junction at the node's point.
fn add_coins<R: Rows>(
    ties: &mut TieList,
    rows: &R,
    meeting: &Meeting,
    node: Node,
    row: &Row,
) -> Result<(), AllocError>
    requires meeting { IsMeeting (R.catalog rows.now) (R.features rows.now) meeting.now }
    requires here { meeting.now.at ≡ node.at }
    requires row { row_of (R.features rows.now) node.port.feature ≡ Some row.now }
    ensures { OnOk result (ties.new.items
        ≡ ties.old.items ++ coin_ties (R.catalog rows.now) (R.features rows.now) node) }
{
    let Some(joint) = only(meeting.joints.as_slice()) else {
        return Ok(());
    };
    if node.port.feature == joint.id {
        add_all_coins(ties, rows.schema(), meeting, node, &joint)?;
    } else {
        add_own_coin(ties, rows, meeting, node, row, &joint)?;
    }
    Ok(())
}

/// How many links a node of the row has at most, apart from those by associations, so that a list of them seldom moves.
fn room_for_ties(meeting: &Meeting, node: Node, row: &Row) -> usize {
    if row.class == Class::Line {
        let vertices = row.shape.points().len();
        let is_outer = node.port.number == 0 || usize::from(node.port.number) + 1 == vertices;
        return if is_outer { 2 } else { 3 };
    }
    meeting
        .ends
        .len()
        .saturating_add(usize::from(row.terminals))
        .saturating_sub(1)
}

/// The links of a node of a row with its associations, in the order of their names.
pub(crate) fn ties_of<R: Rows>(
    alloc: Global,
    rows: &R,
    meeting: &Meeting,
    node: Node,
    row: &Row,
    assocs: &[Assoc],
) -> Result<Ties, AllocError>
    requires meeting { IsMeeting (R.catalog rows.now) (R.features rows.now) meeting.now }
    requires here { meeting.now.at ≡ node.at }
    requires row { row_of (R.features rows.now) node.port.feature ≡ Some row.now }
    requires assocs { assocs.now ≡ associations_of (R.features rows.now) node.port.feature }
    ensures { IfOk result (λ ties. ties
        ≡ rising tie_cmp (node_ties (R.catalog rows.now) (R.features rows.now) node row.now)) }
{
    let mut ties = TieList::with_capacity(alloc, room_for_ties(meeting, node, row))?;
    add_segments(&mut ties, node, row)?;
    add_paths(&mut ties, rows, node, row)?;
    add_coins(&mut ties, rows, meeting, node, row)?;
    add_associations(&mut ties, rows, node, assocs)?;
    let ties = rising_ties(alloc, ties)?;
    Ok(Ties::new(ties))
}
