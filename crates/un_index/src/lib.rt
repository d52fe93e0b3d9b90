//! The kept topology: stars by their points.
//!
//! A star stands at each point that was validated while a port stood there, or an error. An empty star is the same as none, so none is
//! kept. The stars stand in a map from points on shared pages: a change is made on the map itself, and a map that shares its pages stays as
//! it is.
//!
//! A look-up and a change take the way from the root of the map to one page. What stands under a rectangle is found among the points whose x
//! is between its sides.
#![tactic(auto)]

pub mod index;

pub use index::Index;
pub use un_pages::Memory;
