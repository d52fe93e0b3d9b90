ghost use Rattle.std.specs.Prelude.{◌≡◌, ◌<◌, true, false, length, map, IfOk, OnOk, OnErr, IfErr, IsErrOf, if◌then◌else◌};
ghost use Rattle.std.specs.List.{list_any};
ghost use Rattle.un_conds.specs.Names.{same_text};
ghost use Rattle.un_tiers.specs.Raw.{written_barrier, written_tier, barrier_from, resolves, is_good, tier_from};
ghost use Rattle.un_tiers.specs.Faults.{OnBadTier};

use crate::fault::TierFault;
use crate::raw::RawTier;
use std::alloc::Global;
use un_conds::{Cond, CondFault, Names, RawCond};
use un_schema::Name;

/// A tier of subnetworks.
#[derive(Drop)]
pub struct Tier {
    pub name: Name,
    /// What bounds a subnetwork of the tier.
    pub barrier: Option<Cond>,
    /// Whether controllers of one subnetwork may stand apart.
    pub disjoint: bool,
}

// The barrier by numbers, if there is one.
fn own_barrier<N: Names>(
    alloc: Global,
    raw: &Option<RawCond>,
    names: &N,
) -> Result<Option<Cond>, CondFault>
    ensures ok { IfOk result (λ barrier. barrier
        ≡ barrier_from (N.attributes names.now) (N.categories names.now) (written_barrier raw.now)) }
    ensures good { OnOk result
        (resolves (N.attributes names.now) (N.categories names.now) (written_barrier raw.now) ≡ true) }
    ensures bad { IsErrOf result CondFault.BadCondition
        → resolves (N.attributes names.now) (N.categories names.now) (written_barrier raw.now) ≡ false }
{
    match raw {
        Some(cond) => match Cond::resolve(alloc, cond, names) {
            Ok(cond) => Ok(Some(cond)),
            Err(fault) => Err(fault),
        },
        None => Ok(None),
    }
}

/// Whether one of the tiers has this name.
fn has_name(name: &str, tiers: &[Tier]) -> bool
    ensures { result ≡ list_any (λ tier. same_text name.now tier.name) tiers.now }
{
    tiers.iter().any(|tier| name == tier.name.text())
}

/// The tier after those before it.
pub(crate) fn own_tier<N: Names>(
    alloc: Global,
    raw: &RawTier,
    before: &[Tier],
    names: &N,
) -> Result<Tier, TierFault>
    ensures ok { IfOk result (λ tier. tier
        ≡ tier_from (N.attributes names.now) (N.categories names.now) (written_tier raw.now)) }
    ensures good { OnOk result
        (is_good (N.attributes names.now) (N.categories names.now) before.now (written_tier raw.now)
        ≡ true) }
    ensures bad { IfErr result (λ fault. OnBadTier fault (λ place.
        (place ≡ length before.now) × (is_good (N.attributes names.now) (N.categories names.now) before.now (written_tier raw.now) ≡ false))) }
{
    let bad = TierFault::BadTier {
        place: before.len(),
    };
    if before.len() >= 16 || has_name(raw.name.as_str(), before) {
        return Err(bad);
    }
    let text = String::from_str(alloc, raw.name.as_str())?;
    let Some(name) = Name::new(text) else {
        return Err(bad);
    };
    match own_barrier(alloc, &raw.barrier, names) {
        Ok(barrier) => Ok(Tier {
            name,
            barrier,
            disjoint: raw.disjoint,
        }),
        Err(CondFault::BadCondition) => Err(bad),
        Err(CondFault::Memory) => Err(TierFault::Memory),
    }
}
