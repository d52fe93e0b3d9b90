//! The requests in the bytes of a link, their routes, and the heads of responses: a profile of HTTP/1.1 (RFC 9112).
//!
//! A client sends its requests one after another, and reads of the link may split their bytes anywhere. What is to be
//! found is one list of requests, which depends on the bytes alone. A request is a block, which ends with the first
//! empty line, and a body, whose length the block's headers give. `next_request` has four steps:
//!
//! 1. it drops the CR and LF bytes before the request (`fill::skip_blank`);
//! 2. it reads until the block ends, and examines each byte once for that (`fill::find_block`);
//! 3. it passes the block to `httparse`, and makes the checks of its headers in order (`head::read_head`);
//! 4. it reads until the body is whole (`fill::fill`).
//!
//! What was read past the body stays in the inbox for the next call. All memory is allocated when the inbox is made, so
//! no later call can run out of it. The contracts of the steps speak of one list, the bytes that the inbox held and
//! then those that were read, so it never matters where the reads split them.
#![tactic(auto)]

mod block;
mod check;
mod fill;
mod head;
mod header;
mod inbox;
mod kind;
mod law;
mod list;
mod number;
mod put;
mod response;
mod route;
mod routes;
mod take;

pub use check::Check;
pub use inbox::{Head, Inbox, Next, next_request};
pub use law::{one_more, one_reading};
pub use response::print_head;
pub use route::Route;
pub use routes::Routes;
