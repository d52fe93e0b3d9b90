//! The ports to shut so that a part of the network is cut off from the controllers of a tier.
//!
//! # What is to be found
//!
//! A trace for isolation has starts, a tier, and a condition on devices, such as being a valve. A port of a device that meets the condition
//! isolates. The walks of the trace go from the starts by any link, and over isolating ports too. Where a dirty area covers a reached node,
//! the answer is a refusal that names the least such area and the least port that it covers.
//!
//! The inner nodes are those that walks reach without an isolating port. The border has the isolating nodes to which a walk goes from an open
//! inner node. Where a controller of the tier sits at an inner node or at one of the border, no device parts it from the starts, and the answer
//! is a refusal that names the least such port. Else a port of the border is needed if some walk from a start to a controller has it as its only
//! port of the border. The answer has the needed ports, sorted, and the part that they cut off: the features with the ports that walks reach
//! where needed ports are not open. Barriers and the needed ports themselves belong to the part. A valve behind which no controller is found is
//! not needed, and the part goes on beyond it.
//!
//! # How it is found
//!
//! [`answer::isolate`] asks `un_walk` for the reached nodes with their entries, which come sorted, and for the dirt. Where there is no dirt, a
//! node is from here on a number, its place among the reached ones, and [`network::network_of`] makes a graph of the places: for each of them the places to which a walk goes on, and marks on the starts, on the
//! isolating nodes, and on those with a controller. What follows are three walks over that graph ([`spread::spread`]). Each begins at marked places,
//! marks what it comes to, and does not go on from places that are closed to it.
//!
//! 1. From the starts, closed at isolating nodes. It marks the inner nodes and the border. The first of these nodes with a controller is named
//!    in a refusal, if there is one. The border is what isolates among them.
//! 2. From the controllers back, by the links turned round, closed at the border ([`cut::needed_marks`]). The needed ports are those of the border
//!    to which it comes.
//! 3. From the starts, closed at the needed ports. It marks the part ([`cut::cut_off`]).
//!
//! [`parts::parts_of`] puts the ports of the part together by features.
//!
//! # Why that is enough
//!
//! Two conditions stand on the call where no dirt is met: no two reached nodes have one port, so a port tells its node, and no start isolates. So
//! the first walk stays among inner nodes until it comes to one of the border, and comes to each.
//!
//! Let the walk back come to a node of the border. Then a walk goes from that node to a controller, and none of the nodes after it is of the
//! border. Inner nodes lead from a start to the node, since it is of the border. The two together are a walk that has its port as the only one
//! of the border, so it is needed.
//!
//! Let a port be needed, and take the walk that shows it. The walk does not end at the border, where no controller sits. After its last node with
//! that port it meets no port of the border, so the walk back comes along it to that node.
//!
//! The needed ports do separate. Take a walk to a controller where they are shut. Its last node is not of the border. If there were a node of
//! the border on it, the last such node would be one to which the walk back comes: needed, and so shut. Without one the walk stays among inner
//! nodes, at none of which is a controller. And each set of ports of the border that separates has all needed ones, since the walk that shows a
//! port to be needed would pass any set without it. [`laws`] has both as theorems.
//!
//! # What it costs
//!
//! Beside the walk, a binary search for each link of an open node. Each of the three walks takes
//! a node and a link at most once, however many ports the border has. So the whole takes in the order of (V + E) log V at most, and memory for
//! each link twice, from either of its ends.
#![tactic(auto)]

pub mod answer;
mod cut;
mod entries;
pub mod laws;
mod links;
mod marks;
mod network;
mod parts;
mod spread;

pub use answer::isolate;
