use un_conds::{RawCond, Text};

/// A tier as a schema gives it.
#[derive(Drop)]
pub struct RawTier {
    pub name: Text,
    pub barrier: Option<RawCond>,
    /// Whether controllers of one subnetwork may stand apart.
    pub disjoint: bool,
}
