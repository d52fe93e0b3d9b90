//! The tiers of subnetworks: each a name, a condition on what bounds a subnetwork, and whether its controllers may stand apart. A network is
//! opened with a schema and its tiers.
#![tactic(auto)]

pub mod fault;
pub mod raw;
pub mod setup;
pub mod tier;
pub mod tiers;

pub use fault::TierFault;
pub use raw::RawTier;
pub use setup::Setup;
pub use tiers::Tiers;
