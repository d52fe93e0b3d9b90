//! The segments of lines that lie on a loop.
//!
//! # What is to be found
//!
//! A trace for loops walks over a ground from its starts, by any link. Where a dirty area covers a reached node, the answer is a refusal that
//! names the least such area and the least port that it covers. Else the answer has the segments of lines that lie on a loop, by line, then
//! index. A segment lies on a loop if both its ends are reached and open, and a walk over open nodes leads from one of them to the other without
//! it. Such a walk goes by links of all sorts, but in a walk with a tier not by a path that a controller shuts. So a lead-in to a ring is on no
//! loop, a ring that a barrier interrupts is none, and of two pipes between the same two joints both are on one.
//!
//! # How it is found
//!
//! [`answer::loops`] asks `un_walk` for the reached nodes with their entries, in the order in which they were found, and for the dirt. A node's
//! place is its number in that order. The walk also tells by which links it went: for each node that is no start its origin, which is the place
//! that it was found from and the link that led there, and for each further link that led to a node found before, at the same place or a later
//! one, a chord. These are all links between the nodes, each once or, where it stands twice in the list of a node, twice.
//!
//! Where there is no dirt, [`graph::graph_of`] makes a graph of these: its nodes are the places, and its links are those of which both ends are
//! open, with their names, which are read where they stand, in the entries ([`names::Names`]). The origins are a forest that spans it. A place
//! that is open and no start has a parent, the earlier place that it was found from, and a parent link. A barrier is a root that no link leads
//! to, since no walk goes on from there. A chord with the name of a parent link between the same places is that link again, and is left out.
//!
//! What is left is the question which links of the graph lie on a cycle ([`cycles::on_cycles`]). The answer is the names of segments among
//! them, sorted ([`segments::loop_segments`]).
//!
//! Each link outside the forest closes a cycle, with the parent links from its two ends to where these meet. [`heads::climb`] marks those: it
//! goes from both ends towards the root, always from the later of the two places, until it stands at one place. Parent links that are marked
//! need not be gone by again, so each place has a head, which is itself while its parent link is not marked, and else a place nearer to the
//! root, such that all parent links from the place to its head are marked. [`heads::find`] goes along heads to the last one, and halves the way
//! for later calls, as in a union-find structure.
//!
//! In the end a link outside the forest is on a cycle, and a parent link is on one where it is marked.
//!
//! # Why that is enough
//!
//! That each link between reached nodes stands at both its ends, and that the links of one name join one pair of nodes, is a condition on the
//! call. A walk that goes by a link of a reached and open node reaches the other end, so a walk over open nodes stays among the places. Each
//! link between open nodes leads from one of its ends to the same or a later place, and the walk went by it from there, so it is the origin of
//! that place or a chord. The starts are walked from one after another, so a link never joins two trees.
//!
//! A chord that stands twice has two indices in the list of links with one name. That does no harm: the parent links alone join its ends, so
//! both are on a cycle, and its name is on a loop. Each parent link has a name of its own, so a walk without its index is one without its name.
//!
//! Before each link is climbed: marked parent links join each place to its head; each marked parent link is on a cycle; and marked parent links
//! join the ends of each link outside the forest that was climbed. Let a climb stand at two places, to which marked parent links join the two
//! ends of its link. The later one is its own head, so its parent link is not marked. From its parent a walk leads to the root, and from there
//! to the earlier one of the two, by parent links of places before the later one; from there by marked parent links to an end of the link that
//! is climbed, by this link to its other end, and by marked parent links to the later place. That walk does without the parent link of the later
//! place, which is therefore on a cycle.
//!
//! Let a place's parent link not be marked in the end, and take all places whose way to the root goes by it. Each other parent link joins two of
//! these, or none of them. So do marked parent links, and so does each link whose ends they join. So no walk without this parent link leads from
//! these places to others, and it is on no cycle.
//!
//! # What it costs
//!
//! Beside the walk, nothing is looked up: there is no search in a star and no hash table. One pass over the places and one over the chords make
//! the graph, in which each node is tested once for being a barrier. Each step of a climb marks a parent link, so there are at most as many
//! steps as nodes, and each step and each link asks for a head or two. The segments on loops are sorted. So for V nodes and E links the whole
//! takes in the order of (V + E) log V at most.
#![tactic(auto)]

pub mod answer;
mod cycles;
mod graph;
mod heads;
pub mod laws;
mod link;
mod names;
mod segments;

pub use answer::loops;
