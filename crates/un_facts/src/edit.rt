//! Edits of the features.
ghost use Rattle.std.specs.Prelude.{◌≡◌, true, None, IfOk, OnOk};
ghost use Rattle.un_defs.specs.Laws.{AreNew};
ghost use Rattle.un_defs.specs.Dirtied.{dirtied};
ghost use Rattle.un_store.specs.Words.{IsRowEdit};
ghost use Rattle.un_defs.specs.Refusing.{Refuses};
ghost use Rattle.un_assoc.specs.Words.{IsLinkEdit};
ghost use Rattle.un_facts.specs.Known.{next_at, edited, linked, MayBeEdited};
ghost use Rattle.un_facts.specs.Changing.{IsRowChange, Follows};
ghost use Rattle.un_facts.specs.Standing.{IsKnown};
ghost use Rattle.un_facts.specs.Refusals.{is_row_edit, is_of_features, refusal_of};

use crate::facts::{Facts, Parts};
use crate::ids::NextIds;
use crate::ports::move_ports;
use std::alloc::{AllocError, Global};
use un_assoc::Assocs;
use un_assoc::laws::links_alone;
use un_defs::{Edit, Refusal};
use un_geom::Rect;
use un_store::RowChange;
use un_tiers::Setup;

/// What an edit leaves: a change of a row, or the associations and controllers.
#[derive(Drop)]
pub enum After {
    Row(RowChange),
    Links(Assocs),
}

/// What an edit leaves, and the rectangles that it makes dirty.
#[derive(Drop)]
pub struct Change {
    pub after: After,
    pub dirtied: Vec<Rect>,
}

/// Whether the edit is one of a row.
fn is_row_edit(edit: &Edit) -> bool
    ensures { result ≡ is_row_edit edit.now }
{
    matches!(
        edit,
        Edit::Insert { .. }
            | Edit::Reshape { .. }
            | Edit::Attrs { .. }
            | Edit::Kind { .. }
            | Edit::Path { .. }
            | Edit::Flow { .. }
            | Edit::Ends { .. }
            | Edit::Note { .. }
            | Edit::Delete { .. }
    )
}

impl Facts {
    // What an edit of a row leaves.
    fn row_change(
        &self,
        alloc: Global,
        edit: &Edit,
        ids: NextIds,
        moment: u64,
    ) -> Result<Change, Refusal>
        requires word { IsRowEdit edit.now }
        requires new { AreNew (next_at ids moment) self.now.features }
        ensures follows { IfOk result (λ c. Follows self.now ids moment edit.now c.after) }
        ensures dirtied { IfOk result (λ c. c.dirtied.items ≡ dirtied self.now.features edit.now) }
        ensures may { OnOk result (MayBeEdited self.now ids moment edit.now) }
        ensures good { OnOk result (refusal_of self.now edit.now ≡ None) }
        ensures bad { Refuses result (refusal_of self.now edit.now) }
    {
        let parts = self.parts();
        let Setup { schema, .. } = parts.frame.setup();
        // For the proof alone.
        let _rules = schema.rules();
        let change = parts.rows.edit(alloc, edit, schema, ids.feature, moment)?;
        self.check_standing(edit)?;
        let id = change.id();
        let before = parts.rows.row(id);
        let after = change.row();
        let dirtied = self.rectangles(alloc, edit, before, after)?;
        Ok(Change {
            after: After::Row(change),
            dirtied,
        })
    }

    // What an edit of an association or of a controller leaves.
    fn link_change(
        &self,
        alloc: Global,
        edit: &Edit,
        ids: NextIds,
        moment: u64,
    ) -> Result<Change, Refusal>
        requires word { IsLinkEdit edit.now }
        requires new { AreNew (next_at ids moment) self.now.features }
        ensures follows { IfOk result (λ c. Follows self.now ids moment edit.now c.after) }
        ensures dirtied { IfOk result (λ c. c.dirtied.items ≡ dirtied self.now.features edit.now) }
        ensures may { OnOk result (MayBeEdited self.now ids moment edit.now) }
        ensures good { OnOk result (refusal_of self.now edit.now ≡ None) }
        ensures bad { Refuses result (refusal_of self.now edit.now) }
    {
        let parts = self.parts();
        let Setup { schema, tiers } = parts.frame.setup();
        // For the proof alone.
        let _rules = schema.rules();
        links_alone();
        let assocs = parts
            .assocs
            .edit(alloc, edit, &parts.rows, schema, tiers, ids.association)?;
        let dirtied = self.rectangles(alloc, edit, None, None)?;
        Ok(Change {
            after: After::Links(assocs),
            dirtied,
        })
    }

    /// What an edit leaves that may be made at a moment, with the rectangles that it makes dirty. It changes nothing.
    ///
    /// An edit of a row is refused, in this order: as the store of rows refuses it; a delete by `HasAssociations`; a delete and a kind by
    /// `HasControllers`. An edit of an association or of a controller is refused as the store of these refuses it. It answers `Memory` only
    /// for want of memory.
    pub fn change(
        &self,
        alloc: Global,
        edit: &Edit,
        ids: NextIds,
        moment: u64,
    ) -> Result<Change, Refusal>
        requires word { is_of_features edit.now ≡ true }
        requires new { AreNew (next_at ids moment) self.now.features }
        ensures follows { IfOk result (λ c. Follows self.now ids moment edit.now c.after) }
        ensures dirtied { IfOk result (λ c. c.dirtied.items ≡ dirtied self.now.features edit.now) }
        ensures may { OnOk result (MayBeEdited self.now ids moment edit.now) }
        ensures good { OnOk result (refusal_of self.now edit.now ≡ None) }
        ensures bad { Refuses result (refusal_of self.now edit.now) }
    {
        if is_row_edit(edit) {
            self.row_change(alloc, edit, ids, moment)
        } else {
            self.link_change(alloc, edit, ids, moment)
        }
    }

    // The features with the change that an edit of a row makes.
    fn with_row_change(
        self,
        alloc: Global,
        edit: &Edit,
        ids: NextIds,
        moment: u64,
        change: RowChange,
    ) -> Result<Facts, AllocError>
        requires word { IsRowEdit edit.now }
        requires new { AreNew (next_at ids moment) self.features }
        requires change { IsRowChange self ids moment edit.now change }
        requires may { MayBeEdited self ids moment edit.now }
        ensures { IfOk result (λ facts. facts ≡ edited self ids moment edit.now) }
    {
        let mut parts = self.into_parts()?;
        let id = change.id();
        let before = parts.rows.row(id);
        let after = change.row();
        move_ports(&mut parts.grid, alloc, edit, before, after)?;
        parts.rows.apply(alloc, change)?;
        let facts = Facts::of(alloc, parts)?;
        Ok(facts)
    }

    // The same features but for the associations and controllers.
    fn with_links(self, alloc: Global, assocs: Assocs) -> Result<Facts, AllocError>
        requires { IsKnown (linked self assocs) }
        ensures { IfOk result (λ facts. facts ≡ linked self assocs) }
    {
        let mut parts = self.into_parts()?;
        parts.assocs = assocs;
        let facts = Facts::of(alloc, parts)?;
        Ok(facts)
    }

    /// The features with what an edit leaves. Pages of rows and ports that no other features share are changed in place.
    pub fn changed(
        self,
        alloc: Global,
        edit: &Edit,
        ids: NextIds,
        moment: u64,
        after: After,
    ) -> Result<Facts, AllocError>
        requires new { AreNew (next_at ids moment) self.features }
        requires follows { Follows self ids moment edit.now after }
        requires may { MayBeEdited self ids moment edit.now }
        ensures { IfOk result (λ facts. facts ≡ edited self ids moment edit.now) }
    {
        match after {
            After::Row(change) => self.with_row_change(alloc, edit, ids, moment, change),
            After::Links(assocs) => self.with_links(alloc, assocs),
        }
    }
}
