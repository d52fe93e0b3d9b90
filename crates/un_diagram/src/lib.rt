//! Collapsed diagrams: kept ports, the pieces between them, and the edges that join these.
//!
//! # What is to be found
//!
//! Walks go over a ground from the starts, by any link, and end in a barrier. Where a dirty area covers a reached node, the reply is a refusal
//! that names the least such area and the least port that it covers. Else the open reached nodes are drawn. Such a node is kept if it is a start,
//! or if its entry meets the condition of the query, such as being a valve. The others are collapsed: two of them are in one piece if a walk over
//! collapsed nodes leads from the one to the other. A piece is named by its least port, and shown with the numbers of its nodes and of the features
//! that these are of.
//! Barriers, starts among them, are neither kept nor in a piece.
//!
//! An edge joins two kept ports that are linked, the lesser first, and a kept port with each piece that has a node linked to it, the kept port
//! first. Kept ports, pieces and edges each rise, and each edge stands once.
//!
//! # How it is found
//!
//! `un_walk` gives the reached nodes with their entries, in order. A node is from here on a number, its place among them. [`roles::roles_of`] tells
//! which are kept and which collapsed, and [`ends::ends_from`] the places to which the links of one lead.
//!
//! [`colours::coloured`] takes the places in order. One that is collapsed and has no colour yet is the first of a piece, and its number is the
//! colour of the piece: [`colours::colour_piece`] colours it, and then by a worklist each collapsed place without a colour to which a link leads
//! from one on the list. The list is then the piece.
//!
//! [`edges::edges_of`] looks at the links of the kept nodes. The end of a link stands for itself if it is kept and comes later, and for the first
//! place of its piece, which its colour tells, if it is collapsed ([`edges::seen_as`]). The edges are sorted, and equal ones are dropped.
//!
//! # Why that is enough
//!
//! Where no dirt is met, a condition stands on the call, as for loops: each link between two reached nodes stands at both of them, no two reached
//! nodes have one port, and the links of one name join one pair of nodes. By the first, a walk over collapsed nodes can be gone back, so two pieces
//! have no node in common. By the second, a port tells its node.
//!
//! Before each place is taken, no link leads from a coloured place to a collapsed one of another colour or of none. A worklist begins at a place
//! without a colour. Were there a link from one of its places to one that an earlier piece has coloured, there would be one back, and the place
//! would have that colour already. So the list grows until no link leads out of it to a collapsed node, and has exactly those to which walks lead
//! from its first. All places before the first were coloured before or are not collapsed, so the first is the least, and since places stand in the
//! order of ports, its port is the name.
//!
//! A link between a kept node and another stands at the kept one. Between two kept nodes it stands at both, and is taken from the lesser.
//!
//! Nothing is lost by drawing so: along a walk over open nodes, each step stays in a piece or goes by an edge; and from each node of a piece walks
//! lead to each other one, so a way along edges can be walked. [`laws`] has this as a theorem, and that each open node is in one place.
//!
//! The contract of the call gives the reply as lists that are computed from the definitions, each piece from the walks that begin at its least node.
//! That these lists have exactly what is to be found, and that no others have, is a law too. So it is enough that the code finds just that.
//!
//! # What it costs
//!
//! Beside the walk over the ground, a binary search for each link of an open node, and sorting the features of each piece and the edges: in the
//! order of (V + E) log (V + E).
#![tactic(auto)]

mod colours;
pub mod drawing;
mod edges;
mod ends;
pub mod laws;
mod roles;

pub use drawing::diagram;
pub use un_ask::DiagramAsk;
