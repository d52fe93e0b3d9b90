//! The update of a subnetwork, and the status of the rows that updates have stored.
//!
//! # What is to be found
//!
//! An update walks over a ground from all controllers of a subnetwork, as the features stand now ([`ask::update_ask`]), by any link, in
//! consistent mode. The tier's barriers stop it, and no path is followed past a controller of the tier. The update is refused for the first of
//! three reasons: a dirty area covers a reached node; a reached port has a controller of the same tier and another name; or the tier does not
//! allow disjoint controllers, and the least controller alone does not reach all others. Each refusal names the least port that it holds of.
//! Else the answer is the row that is to be stored: the controllers, the features that were reached, barriers too, and the points, each rising.
//!
//! A stored row tells of the topology at its update. A later validation makes it dirty if it changes the star at one of the row's points, or a
//! star that has a controller of the row's subnetwork before or after.
//!
//! # How it is found
//!
//! [`answer::update`] asks `un_walk` for the reached nodes, which come sorted by port, and for the dirt. Where there is no dirt it looks up the
//! star of each reached node in turn, up to the first that has a controller of another subnetwork ([`conflict::conflict_refusal`]). Where there
//! is none, and the tier does not allow disjoint controllers, and there are several, it asks `un_walk` for what the least controller alone
//! reaches, and looks for each controller in that list ([`alone::disjoint_refusal`]). Else it reads the row off the reached nodes
//! ([`row::row_of`]).
//!
//! For the status, [`changes::star_changes`] compares the two stars of each point that was looked at, before and after, part by part
//! ([`un_defs::is_same_star`]). It keeps the points whose stars differ, and the controllers that these stars had before or have now. A row
//! becomes dirty if one of these points is among its own, or if one of these controllers is of its subnetwork. The stored rows have keys by
//! their points and their subnetworks, under which those rows are looked up ([`stored::StoredRows::marked`]).
//!
//! # Why that is enough
//!
//! The reached nodes are in the order of their ports, so the first with a controller of another subnetwork has the least such port. What the
//! least controller reaches alone is a part of what all of them reach. Two stars that the comparison takes for the same are the same, and
//! others differ, so a change that makes a row dirty is found where each point whose star changes is looked at.
//!
//! # What it costs
//!
//! Beside the walk, at most one look-up of a star for each reached node, and where there are several controllers at most one more walk. Sorting
//! the row's lists takes n log n steps, and storing it takes a look-up in the keys for each point of the old row and of the new one. For the
//! status, two look-ups and one comparison for each point that is looked at, and then a look-up in the keys for each point that has changed and
//! each controller there, and one for each row that it finds. No step is taken for a stored row that this does not concern ([`stored`]).
#![tactic(auto)]

mod alone;
pub mod answer;
pub mod ask;
pub mod changes;
mod conflict;
mod entry;
pub mod laws;
mod marking;
mod row;
mod row_index;
mod sorted;
pub mod stored;

pub use answer::update;
pub use ask::update_ask;
pub use changes::{StarChanges, star_changes};
pub use stored::StoredRows;
