//! Which ports stand at a point.
//!
//! # What is to be found
//!
//! A star is built from the ports that stand at its point, and a validation rebuilds the points under its areas at which something stands. So
//! both are asked of the network: what stands at this point, and which points of this rectangle have something.
//!
//! # How it is found
//!
//! A [`Grid`] is an ordered map from points to their ports, by x, then y, then z, on pages that are shared between versions. The points of a
//! rectangle are those between its least and its greatest x, of which the y is looked at.
//!
//! # What it costs
//!
//! A look-up takes time that grows with the logarithm of the number of points. A row that is put in or taken out copies one page for each of
//! its ports. The points of a rectangle cost a step for each point between its sides in x.
#![tactic(auto)]

mod grid;
mod laws;
mod port_list;

pub use grid::Grid;
pub use laws::{insert_law, remove_law, replace_law, stay_law};
