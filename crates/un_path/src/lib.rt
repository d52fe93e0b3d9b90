//! The best walk from one node to another, and certificates that no walk is better.
//!
//! # What is to be found
//!
//! Walks go over a ground from one node, by any link, and end in a barrier. A segment of a line costs 1, or where a query has a weight the value of
//! that attribute at the node that the walk leaves by it, 0 where that is absent or below 0. Other links cost nothing. Where several links join two
//! nodes, the step costs what the cheapest does. Where a dirty area covers a reached node, the reply is a refusal with the least such area and the
//! least port that it covers.
//!
//! Else the best walk to the other node is wanted: the one that costs least, of these one with the fewest nodes, and of these the one whose nodes,
//! read from the last to the first, come first. Beside it stand, where they are asked for, the labels: for each reached node the least that a walk
//! to it costs. A walk from a node to itself has that one node and costs 0, also where it is a barrier.
//!
//! Labels and a walk are a certificate, which [`certificate::check`] judges without looking for a walk of its own. It is valid if the labels have
//! exactly the reached nodes, the first node's is 0, no step leads from a node to one whose label is more than the first label and the step's cost,
//! and the walk costs its last node's label; or it shows no walk, and the last node is not reached.
//!
//! Both replies are functions of the ground, the query and the reached nodes. Of the walks with at most as many nodes as are reached there are
//! finitely many, so they can be listed, and the reply to a query for a path has the first of those that end in the other node. Whether a
//! certificate is valid is a test: all pairs of reached nodes are looked at, and all walks with as many nodes as ports are shown. The code lists
//! no walks. [`laws`] has it as theorems that the first of the list comes before all walks, also the longer ones, that what the labels have are
//! the least costs, and that the test holds exactly where the certificate is valid.
//!
//! # How it is found
//!
//! `un_walk` gives the reached nodes with their entries, in order. A node is from here on a number, its place among them, and
//! [`hops::hops_from`] tells the steps from a place, each with the cost of its link.
//!
//! [`search::best_arrivals`] is Dijkstra's search with a heap. What is pending there are walks that come to a place: what the walk costs, how many
//! steps it takes, and the place before the last, and they compare in this order. The first of them whose place is not settled is taken
//! ([`search::take_first`]): its place is settled so, and the hops from there make further walks pending ([`search::settle`]). A walk to a place
//! that was settled meanwhile is dropped when it comes up. Once nothing is pending, the search is done.
//!
//! [`shortest::path`] then goes back from the last node, each time to the place before, until no steps are left, and turns the ports round. The
//! labels are the costs at the places.
//!
//! A certificate's labels stand in the order of the places, so a label is found by its place. [`certificate`] compares their ports with those of
//! the nodes, then each hop with the two labels at its ends, and in the end goes along the walk, to each next port by the cheapest hop
//! ([`walks::walk_end`]).
//!
//! # Why that is enough
//!
//! Of a certificate: along any walk the label of each node is at most what the walk cost so far, by the first node's 0 and one step after another.
//! So no walk costs less than the label of its last node, and the walk of the certificate costs just that. [`laws`] has it as a theorem, and that
//! the labels and the walk that are found are a valid certificate.
//!
//! Of the search: each step costs at least 0 and is one more, so a walk with one step more comes later in the order of the heap. What is settled
//! is therefore never later than what is pending. From this follows what holds before each place is taken: where a step leads from a settled
//! place, the place that it leads to is settled no later than by this step, or is pending so. In the end nothing is pending, and the argument of
//! the certificate holds of the pair of cost and steps: no walk comes before what its last node is settled with. Each place but the first is
//! settled by a step from the place before it, with that place's cost and steps, so what a node is settled with is that of a walk.
//!
//! Of the nodes: let a walk cost least and take the fewest steps. Its last node but one is a node from which a step leads to the last one, and the
//! walk up to it costs least and takes the fewest steps among the walks to it, since a better one would make the whole better. Of all nodes from
//! which such a step leads, the search keeps the least as the place before, since the places before are compared where cost and steps are the
//! same. So read from the last node, the walk that is found is the same as the other up to some node, and then has the lesser one, or they are one.
//!
//! Of the list: where a walk comes to a node twice, what lies between can be cut out. The walk that is left has fewer nodes and costs no more, so it
//! comes before the other, and with no node twice it has at most as many nodes as are reached. So before each walk that is not in the list there is
//! one that is. No two walks tie, since two that have the same nodes are one. So the walk that the search finds is the first of the list.
//!
//! A link costs less than 2^63 and a settled place takes fewer steps than there are nodes, so all sums fit in 128 bits.
//!
//! # What it costs
//!
//! Beside the walk over the ground, a binary search for each link of an open node, and for `path` a heap with a walk for each of these links at
//! most: in the order of (V + E) log V.
#![tactic(auto)]

mod answer;
pub mod certificate;
mod costs;
mod hops;
pub mod laws;
mod search;
pub mod shortest;
mod walks;

pub use certificate::check;
pub use shortest::path;
pub use un_ask::{CheckAsk, PathAsk, Weight};
