//! The features of a network: rows, associations and controllers, with the ports that stand at each point and the rules in force.
//!
//! # What is to be found
//!
//! An edit changes the features, or is refused for the first cause that is there. It also makes rectangles dirty, under which the topology is
//! no longer that of the features.
//!
//! # How it is found
//!
//! [`Facts`] holds a store of rows, one of associations and controllers, and the grid of ports, each an ordered map on shared pages, and all
//! of them behind one shared pointer, so that equal features are had by counting one owner more. What an
//! edit leaves is made first, and taken over in place afterwards ([`edit`]). One of a row is made by the store of rows; what stands on the row
//! may refuse it, and the ports of the row are put in place of those that it had ([`standing`], [`ports`]). An edit of an association or of a controller is one of the other store. The rectangles
//! ([`rectangles`]) are the envelope of the row before the edit, the one after it, and those of other rows: the partners of a row that moves
//! or becomes of another kind, and the ends of an association.
//!
//! The schema and the tiers stay for the life of a network, but rules may be added. So the features hold a frame ([`frame`]): what the network
//! was opened with, and beside it the schema with the rules in force, once a rule was added ([`rules`]). An edit of a feature shares the frame.
//!
//! # Why that is enough
//!
//! Only a row's own edits change its ports, so the grid stays that of all features. Which rows have stars that change is a law of the
//! definitions: an edit changes the star at no point outside its rectangles.
//!
//! # What it costs
//!
//! Each store takes time by the logarithm of what it holds, and the old features share with the new ones all pages but those on the way to
//! what changed. A row that moves or becomes of another kind costs a step for each of its associations. A new rule costs a step for each
//! row, or for each association, and the list of rules is copied.
#![tactic(auto)]

pub mod edit;
mod envelope;
pub mod facts;
mod frame;
pub mod ids;
pub mod laws;
pub mod live;
mod ports;
mod rectangles;
pub mod rules;
mod standing;

pub use edit::{After, Change};
pub use facts::Facts;
pub use ids::NextIds;
pub use live::Live;
pub use rules::Ruled;
