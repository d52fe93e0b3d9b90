//! The rectangles that an edit makes dirty.
ghost use Rattle.std.specs.Prelude.{◌≡◌, ◌++◌, [], ◌∷◌, flat_map, IfOk, OnOk, option_to_list};
ghost use Rattle.std.specs.Option.{option_copied};
ghost use Rattle.un_defs.specs.Dirtied.{envelope_of, partners};
ghost use Rattle.un_facts.specs.Rectangles.{envelope_of_row, own_rectangles, ends_of, other_rows, other_rectangles};
ghost use Rattle.un_facts.specs.Partners.{takes, taken_end};

use crate::facts::Facts;
use std::alloc::{AllocError, Global};
use un_defs::order::rising;
use un_defs::{Assoc, AssocKind, Edit, Row};
use un_geom::Rect;

/// Which associations of a row make partners of it.
#[derive(Clone, Copy, Debug, PartialEq, Eq)]
pub(crate) enum Which {
    Connectivity,
    All,
}

// The envelope of a row, if there is one.
fn envelope_of(row: Option<&Row>) -> Option<Rect>
    ensures { option_to_list result ≡ envelope_of_row (option_copied row.entry) }
{
    let row = row?;
    Some(row.shape.envelope())
}

// What an edit makes dirty of the row itself: its envelope before the edit, and the one after it.
fn own(edit: &Edit, before: Option<&Row>, after: Option<&Row>) -> (Option<Rect>, Option<Rect>)
    ensures { option_to_list result.0 ++ option_to_list result.1
        ≡ own_rectangles edit.now (option_copied before.entry) (option_copied after.entry) }
{
    match edit {
        Edit::Insert { .. } => (None, envelope_of(after)),
        Edit::Reshape { .. } => (envelope_of(before), envelope_of(after)),
        Edit::Attrs { .. }
        | Edit::Kind { .. }
        | Edit::Path { .. }
        | Edit::Flow { .. }
        | Edit::Ends { .. }
        | Edit::Delete { .. } => (envelope_of(before), None),
        Edit::Note { .. }
        | Edit::Connect { .. }
        | Edit::Contain { .. }
        | Edit::Attach { .. }
        | Edit::Detach { .. }
        | Edit::Controller { .. }
        | Edit::Uncontroller { .. }
        | Edit::Rule { .. } => (None, None),
    }
}

// Adds a rectangle, if there is one.
pub(crate) fn add(rects: &mut Vec<Rect>, rect: Option<Rect>) -> Result<(), AllocError>
    ensures { OnOk result (rects.new.items ≡ rects.old.items ++ option_to_list rect) }
{
    if let Some(rect) = rect {
        rects.push(rect)?;
    }
    Ok(())
}

// An association that makes partners.
fn is_taken(which: Which, assoc: &Assoc) -> bool
    ensures { result ≡ takes which assoc.now.sort }
{
    match which {
        Which::Connectivity => assoc.sort == AssocKind::Connectivity,
        Which::All => true,
    }
}

// Adds the other end of an association that is taken, if the row is an end of it.
fn add_other_end(ids: &mut Vec<u64>, id: u64, which: Which, assoc: &Assoc) -> Result<(), AllocError>
    ensures { OnOk result (ids.new.items ≡ ids.old.items ++ taken_end which id assoc.now) }
{
    if is_taken(which, assoc) && assoc.from.feature == id {
        ids.push(assoc.to.feature)?;
    }
    if is_taken(which, assoc) && assoc.to.feature == id {
        ids.push(assoc.from.feature)?;
    }
    Ok(())
}

// The other ends of some associations of a row.
fn other_ends(alloc: Global, found: &[Assoc], id: u64, which: Which) -> Result<Vec<u64>, AllocError>
    ensures { IfOk result (λ ids. ids.items ≡ flat_map (taken_end which id) found.now) }
{
    let mut ids = Vec::new(alloc);
    for assoc in found {
        add_other_end(&mut ids, id, which, assoc)?;
    }
    Ok(ids)
}

impl Facts {
    /// The partners of a row, rising.
    fn partners(&self, alloc: Global, id: u64, which: Which) -> Result<Vec<u64>, AllocError>
        ensures { IfOk result (λ ids. ids.items ≡ partners self.now.features (takes which) id) }
    {
        let found = self.parts().assocs.of(alloc, id)?;
        let ids = other_ends(alloc, &found, id, which)?;
        let ids = rising(alloc, &ids)?;
        Ok(ids)
    }

    // The two ends of an association, if there is one.
    fn ends_of(&self, alloc: Global, assoc: u64) -> Result<Vec<u64>, AllocError>
        ensures { IfOk result (λ ids. ids.items ≡ ends_of self.now.features assoc) }
    {
        let mut ids = Vec::new(alloc);
        if let Some(assoc) = self.parts().assocs.get(assoc) {
            ids.push(assoc.from.feature)?;
            ids.push(assoc.to.feature)?;
        }
        Ok(ids)
    }

    /// The other rows whose envelopes become dirty.
    fn other_rows(&self, alloc: Global, edit: &Edit) -> Result<Vec<u64>, AllocError>
        ensures { IfOk result (λ ids. ids.items ≡ other_rows self.now.features edit.now) }
    {
        match edit {
            Edit::Reshape { id, .. } => self.partners(alloc, *id, Which::Connectivity),
            Edit::Kind { id, .. } => self.partners(alloc, *id, Which::All),
            Edit::Connect { from, to } => pair(alloc, from.feature, to.feature),
            Edit::Contain { container, content } => pair(alloc, *container, *content),
            Edit::Attach { structure, content } => pair(alloc, *structure, *content),
            Edit::Detach { assoc } => self.ends_of(alloc, *assoc),
            Edit::Controller { id, .. } | Edit::Uncontroller { id, .. } => one(alloc, *id),
            Edit::Insert { .. }
            | Edit::Attrs { .. }
            | Edit::Path { .. }
            | Edit::Flow { .. }
            | Edit::Ends { .. }
            | Edit::Note { .. }
            | Edit::Delete { .. }
            | Edit::Rule { .. } => Ok(Vec::new(alloc)),
        }
    }

    // Adds the envelopes of rows.
    fn add_envelopes(&self, rects: &mut Vec<Rect>, ids: &[u64]) -> Result<(), AllocError>
        ensures { OnOk result (rects.new.items
            ≡ rects.old.items ++ flat_map (envelope_of self.now.features) ids.now) }
    {
        for id in ids {
            add(rects, envelope_of(self.parts().rows.row(*id)))?;
        }
        Ok(())
    }

    /// The rectangles that an edit makes dirty, of the row before it and after it and of other rows.
    pub(crate) fn rectangles(
        &self,
        alloc: Global,
        edit: &Edit,
        before: Option<&Row>,
        after: Option<&Row>,
    ) -> Result<Vec<Rect>, AllocError>
        ensures { IfOk result (λ rects. rects.items
            ≡ own_rectangles edit.now (option_copied before.entry) (option_copied after.entry) ++ other_rectangles self.now.features edit.now) }
    {
        let (first, second) = own(edit, before, after);
        let others = self.other_rows(alloc, edit)?;
        let mut rects = Vec::new(alloc);
        add(&mut rects, first)?;
        add(&mut rects, second)?;
        self.add_envelopes(&mut rects, &others)?;
        Ok(rects)
    }
}

fn one(alloc: Global, id: u64) -> Result<Vec<u64>, AllocError>
    ensures { IfOk result (λ ids. ids.items ≡ id ∷ []) }
{
    let mut ids = Vec::new(alloc);
    ids.push(id)?;
    Ok(ids)
}

fn pair(alloc: Global, first: u64, second: u64) -> Result<Vec<u64>, AllocError>
    ensures { IfOk result (λ ids. ids.items ≡ first ∷ second ∷ []) }
{
    let mut ids = Vec::new(alloc);
    ids.push(first)?;
    ids.push(second)?;
    Ok(ids)
}
