//! What traces, paths and diagrams tell.
ghost use Rattle.std.specs.Prelude.{◌≡◌, IfOk};

use smallvec::SmallVec;
use std::alloc::{AllocError, Global};
use std::marker::Model;
use un_defs::{Controller, Port};
use un_schema::Items;

/// A feature of a result with the numbers of its reached ports, rising.
#[derive(Drop)]
pub struct Part {
    pub feature: u64,
    pub numbers: Numbers,
}

/// The segment of a line from the vertex with this index to the next one.
#[derive(Clone, Copy, Debug, PartialEq, Eq, PartialOrd, Ord, Hash)]
pub struct Segment {
    pub line: u64,
    pub index: u8,
}

/// A list of numbers of ports of one feature. Up to 16 of them lie in the value itself, which is enough for most features, so that a result
/// takes no memory for each of its features. Contracts see its elements.
#[derive(Drop)]
pub struct Numbers {
    numbers: SmallVec<u8, 16>,
}

impl Model for Numbers {
    ghost use Rattle.std.specs.Prelude.{List, ℕ};

    ghost Value = { List ℕ };

    ghost view = { λ n. n.numbers.items };
}

impl Numbers {
    /// The list of these numbers, in this order. It takes no memory.
    pub fn new(numbers: SmallVec<u8, 16>) -> Numbers
        ensures { result ≡ numbers.items }
    {
        Numbers { numbers }
    }

    /// Its elements, in order.
    pub fn as_slice(&self) -> &[u8]
        ensures { result.now ≡ self.now }
    {
        self.numbers.as_slice()
    }

    /// An equal list of its own.
    pub fn copy(&self, alloc: Global) -> Result<Numbers, AllocError>
        ensures { IfOk result (λ copy. copy ≡ self.now) }
    {
        let numbers = SmallVec::from_slice(alloc, self.numbers.as_slice())?;
        Ok(Numbers { numbers })
    }
}

/// A list of features with their reached ports.
pub type Parts = Items<Part>;

/// A list of controllers.
pub type Controllers = Items<Controller>;

/// A list of segments of lines.
pub type Segments = Items<Segment>;

/// A list of values of functions, none for the least or the greatest of no values.
pub type Totals = Items<Option<i128>>;

/// A reached port, and the least that a walk to it costs.
#[derive(Clone, Copy, Debug, PartialEq, Eq, Hash)]
pub struct Label {
    pub port: Port,
    pub cost: u128,
}

/// A list of labels.
pub type Labels = Items<Label>;

/// Nodes that a diagram shows as one.
#[derive(Clone, Copy, Debug, PartialEq, Eq, Hash)]
pub struct Piece {
    /// The least port of its nodes.
    pub name: Port,
    /// How many nodes it has.
    pub nodes: usize,
    /// How many features these nodes are of.
    pub features: usize,
}

/// A list of pieces.
pub type Pieces = Items<Piece>;

/// What joins a kept port of a diagram with another, the lesser first, or a kept port with a piece.
#[derive(Clone, Copy, Debug, PartialEq, Eq, PartialOrd, Ord, Hash)]
pub struct Edge {
    /// A kept port.
    pub from: Port,
    /// Another kept port, or the name of a piece.
    pub to: Port,
}

/// A list of edges.
pub type Edges = Items<Edge>;
