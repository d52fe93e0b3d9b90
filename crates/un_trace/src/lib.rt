//! The five traces that tell a result: connected, subnetwork, controllers, upstream and downstream.
//!
//! # What is to be found
//!
//! A trace walks over a ground, of which every node in which a walk ends is reached. Where consistency is on and a dirty area covers a
//! reached node, the answer is a refusal that names the least such area and the least port that it covers. Else the result nodes are the
//! reached nodes that are no barrier, and the barriers too where these are asked for. Of these the answer tells the features with the
//! numbers of their ports, both rising and each once, what their entries tell of containers, content and structures, rising and each once,
//! and functions over the features, where a feature's attributes are those of its first node with an entry. A trace for controllers tells in
//! their place the controllers of its tier at the reached nodes, rising by port and subnetwork, each once.
//!
//! # How it is found
//!
//! [`answer::trace`] asks `un_walk` for the reached nodes and for the dirt. Where the answer tells nothing of entries, each port of a result
//! node sets a bit in the word of its feature, and one pass over the words gives the features in order ([`table::parts_told`]). Where there is
//! no room for that, since ids are large beside the number of reached nodes or a port has the number 64 or more, it makes one number of each
//! port, sorts the numbers and cuts them into runs of one feature ([`ports::parts_found`]).
//!
//! Else, or where a feature's id leaves no room for the number of a port, it takes the reached nodes with their entries, rising by port, and
//! keeps the result nodes ([`nodes::seen_in_result`]). Since they rise by port, the nodes of a feature stand together: one pass cuts them into
//! runs of one feature ([`features::features_of`]), and each run gives its feature, its numbers and the first entry in it. A number may stand twice in a run, since a port may stand at two points where areas are dirty; it is told once. The
//! ids of containers, content and structures go into a set that keeps them in order ([`included::included`]). Each function is taken over
//! the values that the first entries have ([`functions::totals`]). Controllers are put one after another into a rising list
//! ([`controllers::controllers_of`]), which is short: a network has at most 4,096.
//!
//! # Why that is enough
//!
//! Before each run is cut off, the features of the nodes before it are below those of the nodes from there on. So the run is all nodes of
//! its feature, and its feature goes to the end of the rising list. The nodes of a run rise by number, so leaving out a number that is the
//! one before it leaves each number once. The numbers that stand for ports rise as the ports do, and the order in which the nodes were found
//! does not matter for the features with their ports. Nor does it matter for the bits: in the end a word has exactly those of its feature's
//! ports that stand in the result. A list that rises and has exactly the wanted elements is the only such list.
//!
//! A sum has room in 128 bits: after n values it lies within n times 2^63 either way, and a list in memory has fewer than 2^63 values.
//!
//! # What it costs
//!
//! Beside the walk, where ports alone are told, a bit for each reached node and a pass over at most sixteen words for each, or else eight bytes
//! for each, their sort and one pass over them. Else time that is linear in the result nodes for the features, one step in an ordered set for
//! each id that an entry gives, and a pass over the features for each function. For controllers, a comparison of each with those that are told
//! before it.
#![tactic(auto)]

pub mod answer;
mod controllers;
mod features;
mod functions;
mod included;
mod nodes;
mod ports;
mod table;

pub use answer::trace;
