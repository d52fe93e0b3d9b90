//! What is found of walks.

use un_ask::Labels;
use un_defs::port::Ports;

/// The best walk, or that there is none.
#[derive(Drop)]
pub(crate) struct PathFound {
    /// What the walk costs, `None` where there is no walk.
    pub(crate) cost: Option<u128>,
    /// The ports of its nodes, from the first to the last.
    pub(crate) nodes: Ports,
    /// The labels of the reached nodes, if they were asked for.
    pub(crate) labels: Labels,
}
