//! The server of a network: what the requests of its links ask, and all requests of a link.
//!
//! A link is one client's connection. Its requests are read by their routes: the body of a POST is JSON, and the path of
//! a GET says what it asks. A command goes to the desk that all links share; a query is answered at the state that the
//! link's session reads, without waiting for any other link; a query for changes, by the states at two versions.
//! `un_exchange` has the loop over the requests of a link, for any machine; here a network is that machine.
#![tactic(auto)]

mod asking;
mod printing;
mod run;
mod serve;
mod service;
mod touched;
mod workers;

pub use run::run_serve;
pub use serve::serve_link;
pub use service::NetService;
pub use un_exchange::LinkEnd;
