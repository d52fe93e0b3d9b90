//! Maps from points, asked by point and by rectangle, on shared pages.
//!
//! # What is to be found
//!
//! A value stands at a point. Asked for are the value at a point, and the points that a rectangle covers, rising.
//!
//! # How it is found
//!
//! The pairs stand in an ordered map on shared pages, by x, then y, then z. The points under a rectangle have an x between its sides, so they
//! stand in one run of the map: the walk begins at the first point with an x not below the left side, and ends at the first with an x over
//! the right side. Of those between, it takes the points whose y is between the other two sides. Where many points of one x are below or
//! above the rectangle, it looks up the next one that may not be (`walk`).
//!
//! # Why that is enough
//!
//! A point that comes after one with an x over the right side has such an x too, since points compare by x first.
//!
//! # What it costs
//!
//! One look-up, and a step for each point whose x is between the sides of the rectangle; but of the points with one x it steps over at most
//! 16 that are below the rectangle and about as many above it, with a look-up for the others. `next_under` takes a look-up for each point
//! whose x is between the sides.
#![tactic(auto)]

pub mod point_map;
mod strip;
pub mod walk;

pub use point_map::PointMap;
pub use un_pages::Memory;
pub use walk::Under;
