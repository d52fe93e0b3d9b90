//! Traces, paths, diagrams and rules with their names looked up.
//!
//! # What is to be found
//!
//! A request gives a trace by names: of a tier, of a subnetwork, of the attributes and categories in its conditions, of the attributes in its
//! functions; and it starts at ports of features, or at the controllers of a subnetwork. Asked for is the same trace by numbers, which starts
//! at nodes, or the first refusal that can be told before any walk.
//!
//! # How it is found
//!
//! The causes are looked at in a fixed order, each over everything that can have it before the next one is: a member that the trace's kind
//! needs ([`kinds`]); the features of the given ports; the tier; the controllers of the subnetwork; the given ports ([`starts`]); the condition
//! for isolating devices, and the one for barriers ([`names`]); and whether a start is on an isolating device ([`valves`]). [`trace::resolve`]
//! does this and builds the trace. A start stands at the
//! place that its port has in the row now, so it may stand at a point whose star is older than the row.
//!
//! A path, a check of a certificate and a diagram walk in no tier ([`paths`], [`diagrams`]): the features of their ports are looked at first,
//! then the ports, and then their conditions.
//!
//! A rule is given by the names of its kinds; [`rules`] looks them up in the order in which the rule names them.
//!
//! # What it costs
//!
//! A look-up of a row for each start, and for a subnetwork trace a pass over all controllers, of which there are at most 4,096.
#![tactic(auto)]

mod diagrams;
mod kinds;
mod names;
mod paths;
mod rules;
mod starts;
pub mod trace;
mod valves;

pub use diagrams::resolve_diagram;
pub use paths::{resolve_check, resolve_path};
pub use rules::resolve_rule;
pub use trace::resolve;
