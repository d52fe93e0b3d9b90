//! Edits of the features.
ghost use Rattle.std.specs.Prelude.{◌≡◌, ◌<◌, ◌≤◌, ◌+◌, true, length, Some, None, IfOk, OnOk, IfErr};
ghost use Rattle.un_defs.specs.Refusing.{first_refusal, Refuses};
ghost use Rattle.un_defs.specs.Dirtied.{dirtied};
ghost use Rattle.un_facts.specs.Refusals.{is_of_features};
ghost use Rattle.un_core.specs.Step.{MayBeMadeAt, made_at, edited, reply_id, touched_row};
ghost use Rattle.un_core.specs.Refusals.{beside_numbers, edit_refusal, too_many};
ghost use Rattle.un_core.specs.Making.{AreasGrow, FeaturesGrow, AssociationsGrow, IsChange};

use crate::net::Net;
use std::alloc::{AllocError, Global};
use un_defs::{Edit, Limit, Refusal};
use un_dirty::Dirty;
use un_facts::{Change, NextIds};
use un_geom::Rect;

/// The most dirty areas.
const MOST_AREAS: usize = 65_536;

/// A network once an edit is made, and the rectangles that it makes dirty.
#[derive(Drop)]
pub(crate) struct Edited {
    pub(crate) net: Net,
    pub(crate) dirtied: Vec<Rect>,
}

/// The id that the reply to an edit tells: that of the feature that it makes or changes, or of the association.
pub(crate) fn reply_id(edit: &Edit, ids: NextIds) -> u64
    ensures { result ≡ reply_id ids edit.now }
{
    match edit {
        Edit::Reshape { id, .. }
        | Edit::Attrs { id, .. }
        | Edit::Kind { id, .. }
        | Edit::Path { id, .. }
        | Edit::Flow { id, .. }
        | Edit::Ends { id, .. }
        | Edit::Note { id, .. }
        | Edit::Delete { id, .. }
        | Edit::Controller { id, .. }
        | Edit::Uncontroller { id, .. } => *id,
        Edit::Detach { assoc } => *assoc,
        Edit::Insert { .. } => ids.feature,
        Edit::Connect { .. } | Edit::Contain { .. } | Edit::Attach { .. } | Edit::Rule { .. } => {
            ids.association
        }
    }
}

/// The row that an edit makes or changes.
pub(crate) fn touched_row(edit: &Edit, ids: NextIds) -> Option<u64>
    ensures { result ≡ touched_row ids edit.now }
{
    match edit {
        Edit::Insert { .. }
        | Edit::Reshape { .. }
        | Edit::Attrs { .. }
        | Edit::Kind { .. }
        | Edit::Path { .. }
        | Edit::Flow { .. }
        | Edit::Ends { .. }
        | Edit::Note { .. }
        | Edit::Delete { .. } => Some(reply_id(edit, ids)),
        Edit::Connect { .. }
        | Edit::Contain { .. }
        | Edit::Attach { .. }
        | Edit::Detach { .. }
        | Edit::Controller { .. }
        | Edit::Uncontroller { .. }
        | Edit::Rule { .. } => None,
    }
}

/// Refuses where there would be too many areas with some more, of these rectangles.
pub(crate) fn check_room(dirty: &Dirty, rects: &[Rect]) -> Result<(), Refusal>
    ensures room { OnOk result (length dirty.now.areas + length rects.now ≤ 65536) }
    ensures good { OnOk result (too_many dirty.now.areas rects.now ≡ None) }
    ensures bad { IfErr result (λ refusal. too_many dirty.now.areas rects.now ≡ Some refusal) }
{
    // For the proof alone.
    let _len = dirty.len();
    if rects.len() > MOST_AREAS || !dirty.has_room(rects.len() as u64) {
        return Err(Refusal::Full { what: Limit::Areas });
    }
    Ok(())
}

impl Net {
    // What an edit leaves that may be made at a moment. It changes nothing. The numbers are not looked at.
    pub(crate) fn change(&self, alloc: Global, edit: &Edit, moment: u64) -> Result<Change, Refusal>
        requires word { is_of_features edit.now ≡ true }
        requires area { self.now.next_area < 9_000_000_000_100_000 }
        ensures follows { IfOk result (λ c. IsChange self.now moment edit.now c) }
        ensures may { OnOk result (MayBeMadeAt moment self.now edit.now) }
        ensures good { OnOk result (first_refusal (beside_numbers self.now edit.now) ≡ None) }
        ensures bad { Refuses result (first_refusal (beside_numbers self.now edit.now)) }
    {
        let change = self.facts.change(alloc, edit, self.ids, moment)?;
        check_room(&self.dirty, &change.dirtied)?;
        Ok(change)
    }

    // The network with what an edit leaves. What no other network shares is changed in place.
    pub(crate) fn changed(
        self,
        alloc: Global,
        edit: &Edit,
        moment: u64,
        change: Change,
    ) -> Result<Edited, AllocError>
        requires feature { self.next_feature < 9_000_000_000_100_000 }
        requires association { self.next_association < 9_000_000_000_100_000 }
        requires area { self.next_area < 9_000_000_000_100_000 }
        requires follows { IsChange self moment edit.now change }
        requires may { MayBeMadeAt moment self edit.now }
        ensures state { IfOk result (λ m. m.net ≡ made_at moment self edit.now) }
        ensures dirtied { IfOk result (λ m. m.dirtied.items ≡ dirtied self.features edit.now) }
        ensures features { IfOk result (λ m. FeaturesGrow self m.net) }
        ensures associations { IfOk result (λ m. AssociationsGrow self m.net) }
        ensures areas { IfOk result (λ m. AreasGrow self m.net) }
    {
        let facts = self
            .facts
            .changed(alloc, edit, self.ids, moment, change.after)?;
        let dirty = self.dirty.with(alloc, &change.dirtied)?;
        // For the proof alone.
        let _len = dirty.len();
        let net = Net {
            facts,
            kept: self.kept,
            dirty,
            stored: self.stored,
            version: self.version,
            ids: self.ids.after(edit),
        };
        Ok(Edited {
            net,
            dirtied: change.dirtied,
        })
    }

    // The network once an edit is made at a moment. The version stays, and the numbers are not looked at.
    pub(crate) fn make(&self, alloc: Global, edit: &Edit, moment: u64) -> Result<Edited, Refusal>
        requires word { is_of_features edit.now ≡ true }
        requires feature { self.now.next_feature < 9_000_000_000_100_000 }
        requires association { self.now.next_association < 9_000_000_000_100_000 }
        requires area { self.now.next_area < 9_000_000_000_100_000 }
        ensures state { IfOk result (λ m. m.net ≡ made_at moment self.now edit.now) }
        ensures dirtied { IfOk result (λ m. m.dirtied.items ≡ dirtied self.now.features edit.now) }
        ensures features { IfOk result (λ m. FeaturesGrow self.now m.net) }
        ensures associations { IfOk result (λ m. AssociationsGrow self.now m.net) }
        ensures areas { IfOk result (λ m. AreasGrow self.now m.net) }
        ensures may { OnOk result (MayBeMadeAt moment self.now edit.now) }
        ensures good { OnOk result (first_refusal (beside_numbers self.now edit.now) ≡ None) }
        ensures bad { Refuses result (first_refusal (beside_numbers self.now edit.now)) }
    {
        let change = self.change(alloc, edit, moment)?;
        let same = self.share()?;
        let edited = same.changed(alloc, edit, moment, change)?;
        Ok(edited)
    }

    /// The network after an edit of a row, an association or a controller.
    ///
    /// The envelope of a new row becomes a dirty area, and so does that of a row that is deleted or changed, but for its note. A row that is
    /// reshaped makes two, of its old points and of its new ones, and one more for each other row with which a connectivity association joins
    /// it; a row of another kind makes its own, and one for each other row with which any association joins it. An association makes those of
    /// its two ends, and a controller that of its device.
    ///
    /// Each edit is refused by `Full` where the numbers are used up, and by `Full` at last, where it makes areas and there would be more
    /// than 65,536. Between the two it is refused as `Facts::change` refuses it.
    pub(crate) fn edit(&self, alloc: Global, edit: &Edit) -> Result<Edited, Refusal>
        requires word { is_of_features edit.now ≡ true }
        ensures state { IfOk result (λ m. m.net ≡ edited self.now edit.now) }
        ensures dirtied { IfOk result (λ m. m.dirtied.items ≡ dirtied self.now.features edit.now) }
        ensures good { OnOk result (edit_refusal self.now edit.now ≡ None) }
        ensures bad { Refuses result (edit_refusal self.now edit.now) }
    {
        self.check_numbers()?;
        let moment = self.version + 1;
        let Edited { mut net, dirtied } = self.make(alloc, edit, moment)?;
        net.version = moment;
        Ok(Edited { net, dirtied })
    }
}
