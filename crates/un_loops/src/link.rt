//! Links between nodes, which are numbered from 0.

/// A link between two nodes. It is identified by its index in the list of links.
#[derive(Clone, Copy, Debug, PartialEq, Eq)]
pub(crate) struct Link {
    pub(crate) a: usize,
    pub(crate) b: usize,
}
