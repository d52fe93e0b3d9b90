//! What a request asks for, by its method and its path.

/// What a method and a path ask for.
#[derive(Clone, Copy, Debug, PartialEq, Eq)]
pub enum Route {
    /// `POST /commands`: the body is a command.
    Commands,
    /// `POST /queries`: the body is a query.
    Queries,
    /// `GET /version`.
    Version,
    /// `GET /features/{id}`.
    Feature {
        id: u64,
    },
    /// `GET /subnetworks/{tier}/{subnet}`. Each pair is the place in the path where the name begins, and where it ends.
    Subnetwork {
        tier: (usize, usize),
        subnet: (usize, usize),
    },
    /// No route has the path: 404.
    NotFound,
    /// The route of the path takes another method: GET where `allow_get`, else POST. 405.
    WrongMethod {
        allow_get: bool,
    },
}
