ghost use Rattle.std.specs.Prelude.{◌≡◌, ◌<◌, ◌↔◌, [], None, Some, length, IfOk, OnOk, IfErr, IsTrue, position, slice_get};
ghost use Rattle.std.specs.Option.{option_copied, option_map};
ghost use Rattle.un_conds.specs.Names.{same_text};
ghost use Rattle.un_tiers.specs.Raw.{tiers_from, first_bad_of};
ghost use Rattle.un_tiers.specs.Faults.{OnBadTier};
ghost use Rattle.un_tiers.specs.Lists.{tier_named, IsTierList};

use crate::fault::TierFault;
use crate::raw::RawTier;
use crate::tier::{Tier, own_tier};
use std::alloc::Global;
use std::marker::Model;
use un_conds::{Cond, Names};

/// The tiers of a network, numbered from 0. There are at most 16, with distinct names.
///
/// Contracts see the list.
#[derive(Drop)]
pub struct Tiers {
    tiers: Vec<Tier>,
}

impl Model for Tiers {
    ghost use Rattle.std.specs.Prelude.{List};
    ghost use Rattle.un_tiers.specs.declared.tier.Tier.{Tier};
    ghost use Rattle.un_tiers.specs.Code.{tiers_code};
    ghost use Rattle.un_tiers.specs.Lists.{IsTierList};

    ghost Value = { List Tier };

    ghost coded = { tiers_code };

    ghost view = { λ t. t.tiers.items };

    ghost invariant = { λ t. IsTierList t.tiers.items };
}

impl Tiers {
    /// The tiers that are given, with the names in their conditions looked up.
    ///
    /// `BadTier` names the first whose name has not the form of a name or stands before, or whose condition is refused. Where all of
    /// the first 16 are taken and there are more, it names place 16.
    pub fn new<N: Names>(alloc: Global, raw: &[RawTier], names: &N) -> Result<Tiers, TierFault>
        ensures ok { IfOk result
            (λ tiers. tiers ≡ tiers_from (N.attributes names.now) (N.categories names.now) raw.now) }
        ensures good { OnOk result
            (first_bad_of (N.attributes names.now) (N.categories names.now) raw.now ≡ None) }
        ensures bad { IfErr result (λ fault. OnBadTier fault
            (λ place. first_bad_of (N.attributes names.now) (N.categories names.now) raw.now ≡ Some place)) }
    {
        let mut tiers = Vec::new(alloc);
        for tier in raw {
            let own = own_tier(alloc, tier, tiers.as_slice(), names)?;
            tiers.push(own)?;
        }
        Ok(Tiers { tiers })
    }

    /// How many tiers there are.
    pub fn len(&self) -> usize
        ensures len { result ≡ length self.now }
        ensures list { IsTierList self.now }
    {
        self.tiers.len()
    }

    /// Whether there is no tier.
    pub fn is_empty(&self) -> bool
        ensures { IsTrue result ↔ (self.now ≡ []) }
    {
        self.tiers.is_empty()
    }

    /// The number of the tier with this name.
    pub fn find(&self, name: &str) -> Option<u8>
        ensures { result ≡ tier_named self.now name.now }
    {
        let place = place_of_tier(name, self.tiers.as_slice())?;
        Some(place as u8)
    }

    /// The tier's barrier, if it has one.
    pub fn barrier(&self, tier: u8) -> Option<&Cond>
        requires { tier < length self.now }
        ensures { Some (option_copied result) ≡ option_map (λ t. t.barrier) (slice_get self.now tier) }
    {
        self.tiers[usize::from(tier)].barrier.as_ref()
    }

    /// Whether controllers of one subnetwork of the tier may stand apart.
    pub fn disjoint(&self, tier: u8) -> bool
        requires { tier < length self.now }
        ensures { Some result ≡ option_map (λ t. t.disjoint) (slice_get self.now tier) }
    {
        self.tiers[usize::from(tier)].disjoint
    }

    /// The tier's name.
    pub fn name(&self, tier: u8) -> &str
        requires { tier < length self.now }
        ensures { Some result.now ≡ option_map (λ t. t.name) (slice_get self.now tier) }
    {
        self.tiers[usize::from(tier)].name.text()
    }
}

fn place_of_tier(name: &str, tiers: &[Tier]) -> Option<usize>
    ensures { result ≡ position (λ tier. same_text name.now tier.name) tiers.now }
{
    tiers.iter().position(|tier| name == tier.name.text())
}
