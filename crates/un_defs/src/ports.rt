//! The ports of a row, and the points at which they stand.
ghost use Rattle.std.specs.Prelude.{◌≡◌, ◌++◌, IfOk, OnOk, option_to_list};
ghost use Rattle.std.specs.List.{range_with_len};
ghost use Rattle.un_defs.specs.Features.{is_joint, has_terminal};
ghost use Rattle.un_defs.specs.Ports.{nodes_of, node_of, port_numbers_of, shape_place, first_number, has_port, port_node};

use crate::port::{Node, Port};
use crate::row::Row;
use std::alloc::{AllocError, Global};
use un_schema::Class;

// The number of the first port of a class.
fn first_number(class: Class) -> u8
    ensures { result ≡ first_number class }
{
    match class {
        Class::Device | Class::Junction => 1,
        Class::Line | Class::Assembly | Class::Structure => 0,
    }
}

// The place in the shape at which a port stands.
fn shape_place(class: Class, number: u8) -> usize
    ensures { result ≡ shape_place class number }
{
    match class {
        Class::Device | Class::Junction => 0,
        Class::Line | Class::Assembly | Class::Structure => usize::from(number),
    }
}

// How many ports a row has.
fn port_count(row: &Row) -> u8
    ensures { range_with_len (first_number row.now.class) result ≡ port_numbers_of row.now }
{
    match row.class {
        Class::Device => row.terminals,
        Class::Junction | Class::Assembly => 1,
        Class::Line | Class::Structure => row.shape.points().len() as u8,
    }
}

// The row has a port with the number.
fn has_port(row: &Row, number: u8) -> bool
    ensures { result ≡ has_port row.now number }
{
    let first = first_number(row.class);
    first <= number && number - first < port_count(row)
}

fn add(nodes: &mut Vec<Node>, node: Option<Node>) -> Result<(), AllocError>
    ensures { OnOk result (nodes.new.items ≡ nodes.old.items ++ option_to_list node) }
{
    if let Some(node) = node {
        nodes.push(node)?;
    }
    Ok(())
}

/// Whether features of the class have terminals.
pub fn is_joint(class: Class) -> bool
    ensures { result ≡ is_joint class }
{
    matches!(class, Class::Device | Class::Junction)
}

impl Row {
    /// Whether it has the terminal with this number.
    pub fn has_terminal(&self, terminal: u8) -> bool
        ensures { result ≡ has_terminal self.now terminal }
    {
        is_joint(self.class) && 1 <= terminal && terminal <= self.terminals
    }

    /// The port with this number at the point of the shape at which it would stand, whether the row has the port or not.
    pub fn node(&self, number: u8) -> Option<Node>
        ensures { result ≡ node_of self.now number }
    {
        let at = self.shape.points().get(shape_place(self.class, number))?;
        Some(Node {
            port: Port {
                feature: self.id,
                number,
            },
            at: *at,
        })
    }

    /// The port with this number and its point, if the row has it.
    pub fn port_node(&self, number: u8) -> Option<Node>
        ensures { result ≡ port_node self.now number }
    {
        if has_port(self, number) {
            self.node(number)
        } else {
            None
        }
    }

    /// Its ports, each with its point, by rising number.
    pub fn nodes(&self, alloc: Global) -> Result<Vec<Node>, AllocError>
        ensures { IfOk result (λ nodes. nodes.items ≡ nodes_of self.now) }
    {
        let first = first_number(self.class);
        let mut nodes = Vec::new(alloc);
        for place in 0..port_count(self) {
            add(&mut nodes, self.node(first + place))?;
        }
        Ok(nodes)
    }
}
