//! What the router keeps for each route.

/// The kinds of routes, one for each pattern of the router.
#[derive(Clone, Copy, Debug, PartialEq, Eq)]
pub(crate) enum Kind {
    Commands,
    Queries,
    Version,
    Feature,
    Subnetwork,
}
