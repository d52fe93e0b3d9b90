//! Queries that walk, with their names looked up: what the crates that walk are given.

use crate::results::Labels;
use crate::trace::{Include, TraceKind};
use un_conds::Cond;
use un_defs::port::{Nodes, Ports};
use un_defs::{Barriers, Node};
use un_schema::{Items, Name};

/// A function over the features of a result, with its attribute by number, or none where the schema has no such attribute.
#[derive(Clone, Copy, Debug, PartialEq, Eq, Hash)]
pub enum Func {
    Count,
    Sum(Option<u8>),
    Least(Option<u8>),
    Greatest(Option<u8>),
}

/// A list of functions.
pub type Funcs = Items<Func>;

/// A trace.
#[derive(Drop)]
pub struct TypedAsk {
    pub kind: TraceKind,
    pub starts: Nodes,
    /// Where the walk stops, with the tier and the consistency.
    pub barriers: Barriers,
    pub isolators: Option<Cond>,
    pub subnet: Option<Name>,
    /// Whether the tier allows controllers that do not reach one another.
    pub disjoint: bool,
    pub include: Include,
    pub functions: Funcs,
}

/// What a segment of a line costs. Other links cost nothing.
#[derive(Clone, Copy, Debug, PartialEq, Eq, Hash)]
pub enum Weight {
    /// Each segment costs 1.
    Steps,
    /// A segment costs the value of the attribute with this number at the node that it is left from, 0 where that is absent or below 0.
    Attribute(u8),
    /// An attribute that no feature has: each segment costs 0.
    Unknown,
}

/// A query for the best walk from one node to another.
#[derive(Drop)]
pub struct PathAsk {
    pub from: Node,
    pub to: Node,
    pub weight: Weight,
    pub barriers: Barriers,
    /// Whether the labels of the reached nodes are asked for too.
    pub certificate: bool,
}

/// A query whether labels and a walk are valid.
#[derive(Drop)]
pub struct CheckAsk {
    pub from: Node,
    pub to: Node,
    pub weight: Weight,
    pub barriers: Barriers,
    /// The ports of the walk, none for the claim that there is no walk.
    pub nodes: Ports,
    pub labels: Labels,
}

/// A query for the collapsed diagram of what walks from some nodes reach.
#[derive(Drop)]
pub struct DiagramAsk {
    pub starts: Nodes,
    /// Nodes whose entry meets it are kept, as the starts are.
    pub keep: Cond,
    pub barriers: Barriers,
}
