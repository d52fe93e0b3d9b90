//! The live associations and subnetwork controllers of a network.
//!
//! # What is to be found
//!
//! An association ties two features: two terminals that connect, a container and a content, or a structure and what hangs on it. Asked for
//! are an association by its id, those of a feature by rising id, and the controller on a terminal. An edit that adds an association asks
//! further whether its content is in a container already, whether the container is itself in the content, and how many contents it has.
//!
//! # How it is found
//!
//! The associations stand in ordered maps on shared pages: by id (`by_id`), by feature and id, once for each of the two ends (`ends`), and
//! for containments by content; beside each container stands how many contents it has (`containers`). The controllers stand in a map by
//! their ports (`controllers`). The associations of a feature are those from the first whose feature is this one on, up to another feature.
//! The chain of containers above a feature is followed from content to container.
//!
//! Before an edit is made, what may refuse it is looked at in a set order, and the first refusal is the answer (`checks`).
//!
//! # Why that is enough
//!
//! The maps by end, by content and by container hold what the list of all associations tells; each edit keeps that. An association goes
//! under both of its ends, and a feature is never both ends of one. A content is in one container, since a second containment of it is
//! refused. A chain of containers takes another association for each step, so it ends within as many steps as there are associations.
//!
//! # What it costs
//!
//! An edit copies one page and the nodes above it of each map that it changes, and shares all else with the old `Assocs`: time by the
//! logarithm of the count, however many associations a feature has. A containment takes a look-up more for each container above. The
//! associations of a feature take one look-up and a step each.
#![tactic(auto)]

pub mod assocs;
mod by_id;
mod checks;
mod containers;
mod controllers;
pub mod edit;
pub mod edits;
mod ends;
pub mod laws;

pub use assocs::Assocs;
