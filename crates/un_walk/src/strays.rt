//! Found nodes for which no star has an entry.

ghost use Rattle.std.specs.Prelude.{◌≡◌, [], not, IfOk, OnOk};
ghost use Rattle.un_walk.specs.Growth.{has_node, with_node};

use crate::hasher::NumberHasher;
use indexmap::IndexSet;
use std::alloc::{AllocError, Global};
use std::hash::BuildHasherDefault;
use std::marker::Model;
use un_defs::Node;

/// Distinct nodes. A ground that is clean has no such nodes.
#[derive(Drop)]
pub(crate) struct Strays {
    nodes: IndexSet<Node, BuildHasherDefault<NumberHasher>>,
}

impl Model for Strays {
    ghost use Rattle.std.specs.Prelude.{List};
    ghost use Rattle.un_defs.specs.declared.port.Node.{Node};

    ghost Value = { List Node };

    ghost view = { λ s. s.nodes.keys };
}

impl Strays {
    pub(crate) fn new(alloc: Global) -> Self
        ensures { result ≡ [] }
    {
        Strays {
            nodes: IndexSet::with_hasher(alloc, BuildHasherDefault::new()),
        }
    }

    /// Adds the node, unless it is there. Whether it was not.
    pub(crate) fn add(&mut self, node: Node) -> Result<bool, AllocError>
        ensures nodes { OnOk result (self.new ≡ with_node self.old node) }
        ensures added { IfOk result (λ is_new. is_new ≡ not (has_node self.old node)) }
    {
        let is_new = self.nodes.insert(node)?;
        Ok(is_new)
    }
}
