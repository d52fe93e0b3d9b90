//! What walks reach over any ground, and the dirt that they meet.
//!
//! # What is to be found
//!
//! A ground has a star at each point, which tells the links of the nodes there, and dirty areas. A walk begins at a start and goes from node
//! to node by links that its mode takes: any link, those by which flow leaves, or those by which it comes in. It may end in a barrier, and in
//! a dirty node, but goes on from neither: a barrier is a node among the stops, or one whose entry meets the condition of the request or of
//! the tier, and dirt stops a walk in consistent mode alone. In a walk with a tier a path between two terminals of a device is shut where
//! either of them has a controller of that tier. Wanted are all nodes in which a walk ends, rising, and the least dirty area that covers one
//! of them, with the least port that it covers there.
//!
//! # How it is found
//!
//! [`walk::reach_found`] keeps the nodes found so far in a list ([`found::Found`]), which has each once and in the order of finding, and visits
//! them in this order. If a walk may go on from a node, it follows the node's links, and adds each node to which one leads, unless it is there
//! ([`walk::visit`], [`traversal::follow`]). When it has visited all that were found, it adds the next start, unless that was reached from the
//! starts before.
//!
//! Callers say in which order links are followed ([`order::Order`]). In breadth they are followed when the node is visited. In depth only those to
//! nodes at the same point are; the others are put off, and when all found nodes are visited, the one that was put off last is followed. So what is
//! reached at a point is visited in one go, while the star there is at hand. Of a large network most stars are in no cache.
//!
//! Points at which a node was found have numbers ([`points::Points`]), and for each the list keeps what the ground has there, the star and
//! the least dirty area ([`site::Site`]), and a mark for each entry of the star: its port, and the place of its node in the list, if it was found
//! ([`visits::Visits`]). So the mark of its entry tells whether a node is in the list, and where; the few nodes without an entry are kept in a
//! set of their own ([`strays::Strays`]). Most links stay at a point, and lead to a node whose point's number is known. Of the others, most lead to
//! where their node was found from: the list remembers that place for each node, and such a link needs no look-up at all, and is not put off. Where a
//! link that was put off leads to a node found before, the marks at its point tell so, and neither the star nor the list is read. The links of a star
//! are read when the walk first comes to its point, all in one loop ([`site::Site::links_away`]), since those that no cache holds are fetched side by
//! side then.
//!
//! The list also remembers by which link each node was found ([`found::Origin`]). These links make a forest over the places in the list, with
//! the starts as roots. A link that leads to a node found before, at the same place or a later one, is a chord ([`found::Chord`]), and chords are
//! kept in a list of their own. Where each link stands at both its ends, the links of the forest and the chords are all by which a walk goes,
//! each from the earlier of its ends. Since one start is done before the next one is begun, the places of one tree follow each other, and a
//! chord joins two places of one tree.
//!
//! It is done once it has visited the last node and no link is put off. The dirt is kept on the way: the least so far, by area, then port
//! ([`dirt::dirt_after`]). So are the entries of the nodes, which callers need for their results. [`walk::reach_found`] answers the list itself, for
//! callers that ask for the forest and the chords; [`walk::reach_seen`] the nodes with their entries, sorted, first by one number each ([`ranked`])
//! and then by node, and [`walk::reach`] the nodes alone.
//!
//! # Why that is enough
//!
//! Three facts hold before each step. Each node of the list is reached, since it is a start or a link leads to it from a node of the list that
//! is open. Each start that was begun is in the list. Each node to which a walk goes on from a visited node is in the list, or a link from there
//! to it is put off. When all have been visited and no link is put off, the third fact says that no walk leaves the list, so it has exactly the
//! reached nodes.
//!
//! A set of the ground's nodes is not known to be finite, but a list in memory has fewer than 2^64 nodes, so it comes to an end, or to the
//! end of memory.
//!
//! The least area that covers a reached node is the least of the least areas at the nodes' points, and a node that it covers has it as its
//! own least area. So the least pair of a node's least area and its port names both.
//!
//! # What it costs
//!
//! One look-up of an area and one of a star for each point at which nodes are reached, and for each link of an open node that the mode takes
//! a search among the marks of the point to which it leads, save those back to the node from which it was found. A link to another point
//! takes one look-up in a hash table of points before. Only where a tier is asked for and a path leads to another point is one more star
//! looked up. The links of each star to which the walk comes are read once more than it goes by them. Sorting the nodes, where that is asked
//! for, takes n log n comparisons. A found node is kept in 64 bytes ([`item::PackedItem`]), a point in 56, a mark in 16, and a
//! link that is put off in 48.
#![tactic(auto)]

mod dirt;
mod entries;
pub mod found;
mod hasher;
mod item;
pub mod order;
mod points;
mod ranked;
mod room;
pub mod seen;
mod site;
mod strays;
mod traversal;
mod visits;
pub mod walk;

pub use found::{Chord, Found, Origin};
pub use order::Order;
pub use seen::Seen;
pub use walk::{Reached, ReachedFound, ReachedSeen, reach, reach_found, reach_seen};
