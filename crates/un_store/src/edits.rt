//! Edits of a row that is there, and the moment that the rows of a batch get.
ghost use Rattle.std.specs.Prelude.{◌≡◌, None, IfOk, OnOk};
ghost use Rattle.un_store.specs.Changes.{id_of};
ghost use Rattle.un_store.specs.Words.{row_of, IsReshape, IsAttrs, IsKind, IsPath, IsFlow, IsEnds, IsNote, IsDelete};
ghost use Rattle.un_defs.specs.Refusing.{Refuses};
ghost use Rattle.un_store.specs.Refusals.{refusal_of};
ghost use Rattle.un_defs.specs.Change.{change_row};
ghost use Rattle.un_store.specs.Edits.{only_rows, at_moment, settled, IsChangeOf, KeepsFit};

use crate::change::RowChange;
use crate::checks::{attrs_of, check_class, check_line, kind_number, path_of, shape_of};
use crate::parts::{configured, copied, reshaped, terminals_by_class};
use crate::store::Store;
use std::alloc::{AllocError, Global};
use un_defs::{Edit, Refusal};
use un_schema::Schema;

impl Store {
    /// The change that replaces the points of a row.
    ///
    /// In this order it is refused: `NoSuchFeature`, `Moved`, `BadShape`.
    pub fn reshape(
        &self,
        alloc: Global,
        edit: &Edit,
        schema: &Schema,
        next: u64,
        moment: u64,
    ) -> Result<RowChange, Refusal>
        requires word { IsReshape edit.now }
        ensures rows { IfOk result (IsChangeOf schema.now next moment self.now edit.now) }
        ensures id { IfOk result (λ change. id_of change ≡ row_of next edit.now) }
        ensures good { OnOk result (refusal_of schema.now self.now edit.now ≡ None) }
        ensures bad { Refuses result (refusal_of schema.now self.now edit.now) }
        ensures fits { OnOk result (KeepsFit schema.now next moment self.now edit.now) }
    {
        let Edit::Reshape { id, base, points } = edit else {
            unreachable!()
        };
        let row = self.found(*id, *base)?;
        let shape = shape_of(alloc, row.class, points)?;
        let mut new = reshaped(alloc, row, shape)?;
        new.moment = moment;
        Ok(self.replace(*id, new))
    }

    /// The change that replaces all attributes of a row.
    ///
    /// In this order it is refused: `NoSuchFeature`, `Moved`, `BadAttribute`.
    pub fn attrs(
        &self,
        alloc: Global,
        edit: &Edit,
        schema: &Schema,
        next: u64,
        moment: u64,
    ) -> Result<RowChange, Refusal>
        requires word { IsAttrs edit.now }
        ensures rows { IfOk result (IsChangeOf schema.now next moment self.now edit.now) }
        ensures id { IfOk result (λ change. id_of change ≡ row_of next edit.now) }
        ensures good { OnOk result (refusal_of schema.now self.now edit.now ≡ None) }
        ensures bad { Refuses result (refusal_of schema.now self.now edit.now) }
    {
        let Edit::Attrs { id, base, attrs } = edit else {
            unreachable!()
        };
        let row = self.found(*id, *base)?;
        let attrs = attrs_of(alloc, schema, attrs)?;
        let mut new = copied(alloc, row)?;
        new.attrs = attrs;
        new.moment = moment;
        Ok(self.replace(*id, new))
    }

    /// The change that makes a row one of another kind. A device goes to the first path of the new configuration.
    ///
    /// In this order it is refused: `NoSuchFeature`; `Moved`; `NoSuchKind`; `WrongKind`, where the kind has another class.
    pub fn kind(
        &self,
        alloc: Global,
        edit: &Edit,
        schema: &Schema,
        next: u64,
        moment: u64,
    ) -> Result<RowChange, Refusal>
        requires word { IsKind edit.now }
        ensures rows { IfOk result (IsChangeOf schema.now next moment self.now edit.now) }
        ensures id { IfOk result (λ change. id_of change ≡ row_of next edit.now) }
        ensures good { OnOk result (refusal_of schema.now self.now edit.now ≡ None) }
        ensures bad { Refuses result (refusal_of schema.now self.now edit.now) }
        ensures fits { OnOk result (KeepsFit schema.now next moment self.now edit.now) }
    {
        let Edit::Kind { id, base, kind } = edit else {
            unreachable!()
        };
        let row = self.found(*id, *base)?;
        let number = kind_number(alloc, schema, kind)?;
        check_class(schema.kind_at(number), row)?;
        let (terminals, path) = configured(schema, number);
        let mut new = copied(alloc, row)?;
        new.kind = number;
        new.terminals = terminals_by_class(row.class, terminals);
        new.path = path;
        new.moment = moment;
        Ok(self.replace(*id, new))
    }

    /// The change that puts a device on another path.
    ///
    /// In this order it is refused: `NoSuchFeature`; `Moved`; `BadPath`, where the row is no device with a configuration that
    /// has the path.
    pub fn path(
        &self,
        alloc: Global,
        edit: &Edit,
        schema: &Schema,
        next: u64,
        moment: u64,
    ) -> Result<RowChange, Refusal>
        requires word { IsPath edit.now }
        ensures rows { IfOk result (IsChangeOf schema.now next moment self.now edit.now) }
        ensures id { IfOk result (λ change. id_of change ≡ row_of next edit.now) }
        ensures good { OnOk result (refusal_of schema.now self.now edit.now ≡ None) }
        ensures bad { Refuses result (refusal_of schema.now self.now edit.now) }
        ensures fits { OnOk result (KeepsFit schema.now next moment self.now edit.now) }
    {
        let Edit::Path { id, base, path } = edit else {
            unreachable!()
        };
        // For the proof alone.
        let _rules = schema.rules();
        let row = self.found(*id, *base)?;
        let path = path_of(schema, row, path)?;
        let mut new = copied(alloc, row)?;
        new.path = Some(path);
        new.moment = moment;
        Ok(self.replace(*id, new))
    }

    /// The change of a line's flow.
    ///
    /// In this order it is refused: `NoSuchFeature`; `Moved`; `WrongKind`, where the row is no line.
    pub fn flow(
        &self,
        alloc: Global,
        edit: &Edit,
        schema: &Schema,
        next: u64,
        moment: u64,
    ) -> Result<RowChange, Refusal>
        requires word { IsFlow edit.now }
        ensures rows { IfOk result (IsChangeOf schema.now next moment self.now edit.now) }
        ensures id { IfOk result (λ change. id_of change ≡ row_of next edit.now) }
        ensures good { OnOk result (refusal_of schema.now self.now edit.now ≡ None) }
        ensures bad { Refuses result (refusal_of schema.now self.now edit.now) }
    {
        let Edit::Flow { id, base, flow } = edit else {
            unreachable!()
        };
        let row = self.found(*id, *base)?;
        check_line(row)?;
        let mut new = copied(alloc, row)?;
        new.flow = *flow;
        new.moment = moment;
        Ok(self.replace(*id, new))
    }

    /// The change that chooses other terminals at the ends of a line.
    ///
    /// In this order it is refused: `NoSuchFeature`; `Moved`; `WrongKind`, where the row is no line.
    pub fn ends(
        &self,
        alloc: Global,
        edit: &Edit,
        schema: &Schema,
        next: u64,
        moment: u64,
    ) -> Result<RowChange, Refusal>
        requires word { IsEnds edit.now }
        ensures rows { IfOk result (IsChangeOf schema.now next moment self.now edit.now) }
        ensures id { IfOk result (λ change. id_of change ≡ row_of next edit.now) }
        ensures good { OnOk result (refusal_of schema.now self.now edit.now ≡ None) }
        ensures bad { Refuses result (refusal_of schema.now self.now edit.now) }
    {
        let Edit::Ends { id, base, ends } = edit else {
            unreachable!()
        };
        let row = self.found(*id, *base)?;
        check_line(row)?;
        let mut new = copied(alloc, row)?;
        let ends = *ends;
        new.ends = ends;
        new.moment = moment;
        Ok(self.replace(*id, new))
    }

    /// The change of a row's note.
    ///
    /// In this order it is refused: `NoSuchFeature`, `Moved`.
    pub fn note(
        &self,
        alloc: Global,
        edit: &Edit,
        schema: &Schema,
        next: u64,
        moment: u64,
    ) -> Result<RowChange, Refusal>
        requires word { IsNote edit.now }
        ensures rows { IfOk result (IsChangeOf schema.now next moment self.now edit.now) }
        ensures id { IfOk result (λ change. id_of change ≡ row_of next edit.now) }
        ensures good { OnOk result (refusal_of schema.now self.now edit.now ≡ None) }
        ensures bad { Refuses result (refusal_of schema.now self.now edit.now) }
    {
        let Edit::Note { id, base, note } = edit else {
            unreachable!()
        };
        let row = self.found(*id, *base)?;
        let mut new = copied(alloc, row)?;
        new.note = note.copy(alloc)?;
        new.moment = moment;
        Ok(self.replace(*id, new))
    }

    /// The change that takes a row out.
    ///
    /// In this order it is refused: `NoSuchFeature`, `Moved`. Whether the row is an end of an association or has a controller
    /// is not looked at here.
    pub fn delete(
        &self,
        alloc: Global,
        edit: &Edit,
        schema: &Schema,
        next: u64,
        moment: u64,
    ) -> Result<RowChange, Refusal>
        requires word { IsDelete edit.now }
        ensures rows { IfOk result (IsChangeOf schema.now next moment self.now edit.now) }
        ensures id { IfOk result (λ change. id_of change ≡ row_of next edit.now) }
        ensures good { OnOk result (refusal_of schema.now self.now edit.now ≡ None) }
        ensures bad { Refuses result (refusal_of schema.now self.now edit.now) }
    {
        let Edit::Delete { id, base } = edit else {
            unreachable!()
        };
        let _row = self.found(*id, *base)?;
        Ok(RowChange::Remove(*id))
    }

    /// The store in which those of the rows with these ids that are there have the moment, as at the end of a batch.
    pub fn settle(&self, alloc: Global, ids: &[u64], moment: u64) -> Result<Store, AllocError>
        ensures { IfOk result (λ store. store ≡ settled ids.now moment self.now) }
    {
        let mut store = self.share()?;
        for id in ids {
            store.settle_one(alloc, *id, moment)?;
        }
        Ok(store)
    }

    // The same of one id, on the store itself.
    fn settle_one(&mut self, alloc: Global, id: u64, moment: u64) -> Result<(), AllocError>
        ensures { OnOk result (self.new ≡ (change_row (only_rows self.old) id (at_moment moment)).rows) }
    {
        match self.row(id) {
            None => Ok(()),
            Some(row) => {
                let mut new = copied(alloc, row)?;
                new.moment = moment;
                let change = self.replace(id, new);
                self.apply(alloc, change)
            }
        }
    }
}
