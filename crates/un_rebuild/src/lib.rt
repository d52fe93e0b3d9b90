//! The topology under dirty areas, made fresh.
//!
//! # What is to be found
//!
//! A validation makes the kept topology fresh under each dirty area that meets its extent: at each point that such an area covers, the star of
//! all features stands afterwards, and at each other point what was kept before. Stars may have been built beforehand, at an earlier state of
//! the features, and serve where they still hold.
//!
//! # How it is found
//!
//! [`points_under`] gathers the points at which something stands or a star is kept, area by area, in a list that is sorted from time to time
//! and then keeps each point once (`gathered`). Where the areas are many and lie in the extent, as after a network was loaded, the points in the
//! extent are taken as a whole (`inside`). [`rebuild`] puts the star of each into a topology that shares its pages with the kept one: the
//! one that was built beforehand, if the marks of what was done since do not cover the point ([`Marks`], [`Usable`]), and else one that is
//! built now by `un_star`.
//!
//! # Why that is enough
//!
//! At a point where nothing stands, and where no star is kept, the star was empty and stays so. The areas count as a whole: an area that
//! meets the extent is made fresh also outside the extent, since it is gone afterwards.
//!
//! # What it costs
//!
//! The points whose x lies between the sides of an area are looked at, and a star is built for each that it covers, once however many areas
//! cover it. Where there are at least as many areas as features, and all lie in the extent, each point there is looked at once, and the areas
//! over it are looked up. While they are gathered, the points take memory in proportion to the distinct ones. Topology elsewhere is shared, and not looked
//! at.
#![tactic(auto)]

mod gathered;
mod inside;
pub mod marks;
pub mod points;
pub mod topology;
pub mod usable;

pub use marks::Marks;
pub use points::points_under;
pub use topology::{Rebuilt, rebuild};
pub use usable::Usable;
