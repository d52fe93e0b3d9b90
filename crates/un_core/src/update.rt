//! Stored subnetworks: their updates, and the query for one.
ghost use Rattle.std.specs.Prelude.{◌≡◌, ◌<◌, nat_le, not, ◌&&◌, true, false, Some, None, length, IfOk, IfSome, IfErr, OnOk};
ghost use Rattle.std.specs.List.Sorted.{IsStrictlySortedBy};
ghost use Rattle.un_geom.specs.Places.{point_cmp};
ghost use Rattle.un_ask.specs.declared.reply.Reply.TheVariants as reply;
ghost use Rattle.un_defs.specs.declared.refusal.Refusal.TheVariants.{Full};
ghost use Rattle.un_defs.specs.declared.refusal.Limit.TheVariants.{Subnetworks};
ghost use Rattle.un_defs.specs.declared.walk.Mode.TheVariants.{Any};
ghost use Rattle.un_resolve.specs.Resolved.{tier_barrier, tier_disjoint};
ghost use Rattle.un_subnet.specs.Answer.{IsForUpdate, walk_refusal, row_of};
ghost use Rattle.un_subnet.specs.Outcome.{outcome_refusal, stored_row, most_rows};
ghost use Rattle.un_core.specs.State.{kept_ground};
ghost use Rattle.un_core.specs.Walked.{kept_survey, reached};
ghost use Rattle.un_subnet.specs.Stored.{under, with_row};
ghost use Rattle.un_core.specs.Answers.{row_reply, subnet_reply};
ghost use Rattle.un_core.specs.Updating.{walk_of, outcome_in, done, IsOfWalk, row_in_reply, updated, updated_reply};
ghost use Rattle.un_defs.specs.Refusing.{Refuses};
ghost use Rattle.un_core.specs.Refusals.{update_refusal};

use crate::net::Net;
use std::alloc::{AllocError, Global};
use un_ask::{Reply, Status, StoredSubnet, TypedAsk};
use un_conds::Cond;
use un_defs::{Limit, Refusal};
use un_schema::Name;
use un_steps::Steps;
use un_subnet::{StoredRows, update, update_ask};
use un_tiers::Tiers;

/// The most subnetworks that are stored.
const MOST_STORED: usize = 4_096;

/// A network once a subnetwork was updated, and the reply.
#[derive(Drop)]
pub(crate) struct Updated {
    pub(crate) net: Net,
    pub(crate) reply: Reply,
}

// What bounds the subnetworks of the tier.
fn barrier_of(alloc: Global, tiers: &Tiers, tier: u8) -> Result<Option<Cond>, AllocError>
    requires { tier < length tiers.now }
    ensures { IfOk result (λ cond. cond ≡ tier_barrier tiers.now (Some tier)) }
{
    match tiers.barrier(tier) {
        Some(cond) => Ok(Some(cond.copy(alloc)?)),
        None => Ok(None),
    }
}

// Whether controllers of a subnetwork of the tier may stand apart.
fn is_disjoint(tiers: &Tiers, tier: u8) -> bool
    requires { tier < length tiers.now }
    ensures { result ≡ tier_disjoint tiers.now (Some tier) }
{
    tiers.disjoint(tier)
}

// The row in the reply to a walk, or the refusal.
fn row_in_reply(reply: Reply) -> Result<StoredSubnet, Refusal>
    requires { IsOfWalk reply }
    ensures { result ≡ row_in_reply reply }
{
    match reply {
        Reply::Updated { row: Some(row), .. } => Ok(row),
        Reply::Refused { refusal, .. } => Err(refusal),
        _ => unreachable!(),
    }
}

// Whether a row fits, beside so many others unless it takes the place of one.
fn fits(has_row: bool, count: usize) -> Result<(), Refusal>
    ensures good { OnOk result (not has_row && nat_le most_rows count ≡ false) }
    ensures bad { IfErr result (λ refusal.
        (refusal ≡ Full Subnetworks) × (has_row ≡ false) × (nat_le most_rows count ≡ true)) }
{
    if !has_row && count >= MOST_STORED {
        return Err(Refusal::Full {
            what: Limit::Subnetworks,
        });
    }
    Ok(())
}

// The row that an update stores, with the version after it.
fn at_version(row: Option<StoredSubnet>, version: u64) -> Option<StoredSubnet>
    ensures { result ≡ stored_row (done row) version }
{
    let mut row = row?;
    row.updated = version;
    Some(row)
}

// The reply to an update, with a copy of its row beside it.
fn reply_and_row(
    alloc: Global,
    row: Option<StoredSubnet>,
    version: u64,
) -> Result<(Reply, Option<StoredSubnet>), AllocError>
    ensures reply { IfOk result (λ pair. pair.0 ≡ reply.Updated row version) }
    ensures row { IfOk result (λ pair. pair.1 ≡ row) }
{
    let reply = Reply::Updated { row, version };
    match reply.copy(alloc)? {
        Reply::Updated { row, .. } => Ok((reply, row)),
        _ => unreachable!(),
    }
}

impl Net {
    // The walk of an update, from the controllers of the subnetwork as the features stand.
    fn walk_of(&self, alloc: Global, tier: u8, subnet: &Name) -> Result<TypedAsk, AllocError>
        requires { tier < length self.now.setup.tiers }
        ensures { IfOk result (λ ask. ask ≡ walk_of self.now tier subnet.now) }
    {
        let tiers = &self.facts.setup().tiers;
        let barrier = barrier_of(alloc, tiers, tier)?;
        let disjoint = is_disjoint(tiers, tier);
        update_ask(
            alloc,
            &self.facts,
            barrier,
            disjoint,
            tier,
            subnet.copy(alloc)?,
        )
    }

    // The row of what the walk reaches over what is kept, or why it is refused.
    fn walked_row(&self, alloc: Global, ask: &TypedAsk) -> Result<StoredSubnet, Refusal>
        requires { IsForUpdate ask.now }
        ensures row { IfOk result (λ row. row
            ≡ row_of ask.now (reached (kept_survey self.now) ask.now.barriers Any ask.now.starts)) }
        ensures good { OnOk result (walk_refusal (kept_ground self.now) ask.now
            (reached (kept_survey self.now) ask.now.barriers Any ask.now.starts) ≡ None) }
        ensures bad { Refuses result (walk_refusal (kept_ground self.now) ask.now
            (reached (kept_survey self.now) ask.now.barriers Any ask.now.starts)) }
    {
        let mut steps = Steps::<Net>::new();
        let kept = self.kept_ground();
        let reply = update(alloc, &kept, ask, &mut steps)?;
        row_in_reply(reply)
    }

    // What an update with this walk stores, or nothing where the stored row alone is left of the subnetwork.
    fn row_by(
        &self,
        alloc: Global,
        tier: u8,
        subnet: &Name,
        ask: &TypedAsk,
    ) -> Result<Option<StoredSubnet>, Refusal>
        requires { ask.now ≡ walk_of self.now tier subnet.now }
        ensures row { IfOk result (λ row. outcome_in self.now (kept_survey self.now) tier subnet.now ≡ done row) }
        ensures ordered { IfOk result (λ row. IfSome row (λ row. IsStrictlySortedBy point_cmp row.points)) }
        ensures bad { Refuses result
            (outcome_refusal (outcome_in self.now (kept_survey self.now) tier subnet.now)) }
    {
        // For the proof alone.
        let _version = self.version();
        let has_row = self.stored.has(tier, subnet);
        if ask.starts.as_slice().is_empty() {
            if has_row {
                return Ok(None);
            }
            return Err(Refusal::NoSuchSubnetwork);
        }
        let row = self.walked_row(alloc, ask)?;
        fits(has_row, self.stored.len())?;
        Ok(Some(row))
    }

    // What an update of a subnetwork of a tier stores.
    fn updated_row(
        &self,
        alloc: Global,
        tier: u8,
        subnet: &Name,
    ) -> Result<Option<StoredSubnet>, Refusal>
        requires { tier < length self.now.setup.tiers }
        ensures row { IfOk result (λ row. outcome_in self.now (kept_survey self.now) tier subnet.now ≡ done row) }
        ensures ordered { IfOk result (λ row. IfSome row (λ row. IsStrictlySortedBy point_cmp row.points)) }
        ensures bad { Refuses result
            (outcome_refusal (outcome_in self.now (kept_survey self.now) tier subnet.now)) }
    {
        let ask = self.walk_of(alloc, tier, subnet)?;
        self.row_by(alloc, tier, subnet, &ask)
    }

    /// The network at a version, with these stored rows.
    pub(crate) fn with_stored(&self, stored: StoredRows, version: u64) -> Result<Net, AllocError>
        ensures { IfOk result (λ net. net ≡ record self.now { stored = stored; version = version }) }
    {
        // For the proof alone.
        let _len = stored.len();
        let dirty = self.dirty.share()?;
        let kept = self.kept.share()?;
        let facts = self.facts.share()?;
        Ok(Net {
            facts,
            kept,
            dirty,
            stored,
            version,
            ids: self.ids,
        })
    }

    // The network once this row is stored of a subnetwork, or none.
    fn with_row(
        &self,
        alloc: Global,
        tier: u8,
        subnet: &Name,
        row: Option<StoredSubnet>,
        version: u64,
    ) -> Result<Updated, AllocError>
        requires { IfSome row (λ row. IsStrictlySortedBy point_cmp row.points) }
        ensures net { IfOk result (λ u. u.net
            ≡ record self.now { stored = with_row self.now.stored tier subnet.now row; version = version }) }
        ensures reply { IfOk result (λ u. u.reply ≡ reply.Updated row version) }
    {
        let (reply, row) = reply_and_row(alloc, row, version)?;
        let stored = self.stored.with(alloc, tier, subnet, row)?;
        let net = self.with_stored(stored, version)?;
        Ok(Updated { net, reply })
    }

    /// The network once a subnetwork is updated: what its controllers reach is stored, and where it has none, its row is gone.
    ///
    /// It is refused by `Full` where the numbers are used up; by `NoSuchTier`; by `NoSuchSubnetwork` where there is neither a controller nor
    /// a row of it; for what it reaches as `un_subnet` refuses it; and by `Full` where 4,096 others are stored.
    pub(crate) fn update(
        &self,
        alloc: Global,
        tier: &Name,
        subnet: &Name,
    ) -> Result<Updated, Refusal>
        ensures state { IfOk result (λ u. u.net ≡ updated self.now tier.now subnet.now) }
        ensures reply { IfOk result (λ u. u.reply ≡ updated_reply self.now tier.now subnet.now) }
        ensures good { OnOk result (update_refusal self.now tier.now subnet.now ≡ None) }
        ensures bad { Refuses result (update_refusal self.now tier.now subnet.now) }
    {
        self.check_numbers()?;
        let Some(number) = self.facts.setup().tiers.find(tier.text()) else {
            return Err(Refusal::NoSuchTier);
        };
        let row = self.updated_row(alloc, number, subnet)?;
        let version = self.version + 1;
        let row = at_version(row, version);
        Ok(self.with_row(alloc, number, subnet, row, version)?)
    }

    // A stored row, under the name of its tier.
    fn row_reply(
        &self,
        alloc: Global,
        tier: &Name,
        row: &StoredSubnet,
        status: Status,
    ) -> Result<Reply, AllocError>
        ensures { IfOk result (λ reply. reply ≡ row_reply self.now tier.now (under (row.now, status))) }
    {
        Ok(Reply::Subnet {
            controllers: row.controllers.copy(alloc)?,
            members: row.members.copy(alloc)?,
            status,
            subnet: row.subnet.copy(alloc)?,
            tier: tier.copy(alloc)?,
            updated: row.updated,
            version: self.version,
        })
    }

    /// The stored row of a subnetwork, or the refusal where there is none.
    pub(crate) fn subnet(
        &self,
        alloc: Global,
        tier: &Name,
        subnet: &Name,
    ) -> Result<Reply, AllocError>
        ensures { IfOk result (λ reply. reply ≡ subnet_reply self.now tier.now subnet.now) }
    {
        let Some(number) = self.facts.setup().tiers.find(tier.text()) else {
            return Ok(self.refused(Refusal::NoSuchTier));
        };
        match self.stored.get(number, subnet) {
            Some((row, status)) => self.row_reply(alloc, tier, row, status),
            None => Ok(self.refused(Refusal::NoSuchSubnetwork)),
        }
    }
}
