//! The star at a point: the topology there, of all features.
//!
//! # What is to be found
//!
//! The star at a point has an entry for each port that stands there, a terminal or a vertex, with all that a walk asks of it: above all the
//! links of its node. And it has the errors at the point. Both are defined over all features of the network; [`star::build`] finds them from
//! the ports at the point, the rows of these ports, and the associations of these rows.
//!
//! # How it is found
//!
//! First it takes down the ports at the point, each with its row, and what meets there ([`meet`]): the devices and junctions, and the vertices
//! of lines that may connect there (the ends). What is found for a port from its row is read from the row taken down here. Where there is
//! exactly one device or junction, the ends whose terminal it has are put into groups, one for each kind of line with its terminal; a group
//! remembers its first end, and whether it has more. So whether a rule joins an end with another one through the device or junction is asked
//! once for each group, and not once for each other end: a group of which the end itself is the only one doesn't count.
//!
//! Then each port has its links ([`links`]): at most two segments of its line; the paths from its terminal to each other one; its link with
//! what meets there, which is one for a vertex and one for each end that joins at the terminal for a device or junction; and those of the
//! permitted associations of its row. They are put in the order of their names. The rest of the entry comes from the
//! row, its associations and the controller on the port ([`entries`]).
//!
//! The errors ([`errors`]) are those of what meets at the point, and those of the associations of the rows there that are not permitted, at
//! whichever of their ends stands there. They are put in order, and each stands once.
//!
//! # Why that is enough
//!
//! A link of the network of which a node is an end is a segment or a path of the node's row, a link at the node's point, or one by an
//! association of the node's row, since ids of rows are distinct. What meets at the point has there the first port of a device or junction, or
//! the vertex's own port. An association has an error at the point only if one of its ends has a port there.
//!
//! # What it costs
//!
//! With n line ends and one device or junction at the point the number of steps grows as n log n: the row of each port is looked up once, each
//! end is grouped once and tested once for each terminal, and the links of a terminal are sorted. The number of groups is at most that of the
//! kinds of lines there with their terminals, and each end is compared with each group at most once for each terminal. The
//! associations of a port's row are looked up twice, for the entry and for the errors, and each of them is tested with the rows at its ends,
//! which are looked up for that. No list of all features is gone through.
#![tactic(auto)]

mod entries;
mod errors;
mod links;
mod meet;
mod order;
mod permit;
pub mod star;

pub use star::build;
