//! Validations.
ghost use Rattle.std.specs.Prelude.{◌≡◌, map, length, None, IfOk, OnOk, IfSome};
ghost use Rattle.un_index.specs.Kept.{stars_of};
ghost use Rattle.un_subnet.specs.Changes.{changes_at};
ghost use Rattle.un_subnet.specs.Stored.{marked};
ghost use Rattle.un_machine.specs.Logs.{Since};
ghost use Rattle.un_rebuild.specs.Preparing.{AreUsable};
ghost use Rattle.un_rebuild.specs.Renewed.{IsRebuilt};
ghost use Rattle.un_core.specs.State.{known};
ghost use Rattle.un_core.specs.Commands.{step};
ghost use Rattle.un_core.specs.Preparing.{IsPreparedAt};
ghost use Rattle.un_core.specs.Validation.{validated, met, errors_under};
ghost use Rattle.un_defs.specs.Refusing.{Refuses};
ghost use Rattle.un_core.specs.Refusals.{numbers_refusal};

use crate::kept::Kept;
use crate::net::Net;
use crate::prepared::Prepared;
use std::alloc::{AllocError, Global};
use un_defs::Refusal;
use un_geom::{Point, Rect};
use un_index::Index;
use un_machine::Entry;
use un_rebuild::{Rebuilt, Usable, rebuild};
use un_subnet::{StoredRows, star_changes};

/// A network once an extent was validated, with how many areas were cleared and how many errors stand under them.
#[derive(Drop)]
pub(crate) struct Validated {
    pub(crate) net: Net,
    pub(crate) cleared: u64,
    pub(crate) errors: u64,
}

impl Net {
    // The topology once it is fresh under the areas that meet the extent, with some stars that were built beforehand.
    fn rebuilt_with(
        &self,
        alloc: Global,
        extent: Rect,
        usable: Option<&Usable>,
    ) -> Result<Rebuilt, AllocError>
        requires { IfSome usable (λ u. AreUsable (known self.now) u.now) }
        ensures { IfOk result (IsRebuilt (known self.now) self.now.kept (met extent self.now.areas)) }
    {
        rebuild(alloc, &self.facts, &self.kept, &self.dirty, extent, usable)
    }

    // The topology once it is fresh under the areas that meet the extent.
    fn rebuilt(
        &self,
        alloc: Global,
        extent: Rect,
        hint: Option<&Prepared>,
        since: &[Entry<Net>],
    ) -> Result<Rebuilt, AllocError>
        requires { IfSome hint (λ h. Since step IsPreparedAt h.now since.now self.now) }
        ensures { IfOk result (IsRebuilt (known self.now) self.now.kept (met extent self.now.areas)) }
    {
        let usable = self.usable(alloc, hint, since)?;
        self.rebuilt_with(alloc, extent, usable.as_ref())
    }

    // The stored subnetworks once this is kept, where the two topologies have the same stars at all other points. Where none is stored, no
    // star is looked at.
    fn marked(
        &self,
        alloc: Global,
        kept: &Index,
        points: &[Point],
    ) -> Result<StoredRows, AllocError>
        ensures { IfOk result (λ rows. rows
            ≡ map (marked (changes_at (stars_of self.now.kept) (stars_of kept.now) points.now)) self.now.stored) }
    {
        if self.stored.len() == 0 {
            return self.stored.share();
        }
        let before = self.kept_ground();
        let after = Kept {
            stars: kept,
            dirty: &self.dirty,
        };
        let changes = star_changes(alloc, &before, &after, points)?;
        self.stored.marked(alloc, &changes)
    }

    /// The network once the topology is fresh under each dirty area that meets the extent, and these areas are cleared. Each stored
    /// subnetwork that a star concerns which changes is dirty.
    ///
    /// It is refused where the numbers are used up. What was prepared of it changes nothing of the result.
    pub(crate) fn validate(
        &self,
        alloc: Global,
        extent: Rect,
        hint: Option<&Prepared>,
        since: &[Entry<Net>],
    ) -> Result<Validated, Refusal>
        requires { IfSome hint (λ h. Since step IsPreparedAt h.now since.now self.now) }
        ensures state { IfOk result (λ v. v.net ≡ validated self.now extent) }
        ensures cleared { IfOk result (λ v. v.cleared ≡ length (met extent self.now.areas)) }
        ensures errors { IfOk result (λ v. v.errors ≡ errors_under self.now (met extent self.now.areas)) }
        ensures good { OnOk result (numbers_refusal self.now ≡ None) }
        ensures bad { Refuses result (numbers_refusal self.now) }
    {
        self.check_numbers()?;
        let rebuilt = self.rebuilt(alloc, extent, hint, since)?;
        let stored = self.marked(alloc, &rebuilt.kept, &rebuilt.points)?;
        let dirty = self.dirty.clear_meeting(alloc, extent)?;
        let facts = self.facts.share()?;
        Ok(Validated {
            net: Net {
                facts,
                kept: rebuilt.kept,
                dirty,
                stored,
                version: self.version + 1,
                ids: self.ids,
            },
            cleared: rebuilt.areas,
            errors: rebuilt.errors,
        })
    }
}
