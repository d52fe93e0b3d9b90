//! Inserts.
ghost use Rattle.std.specs.Prelude.{◌≡◌, ◌<◌, All, None, IfOk, OnOk};
ghost use Rattle.un_store.specs.Changes.{id_of};
ghost use Rattle.un_store.specs.Words.{row_of, IsInsert};
ghost use Rattle.un_defs.specs.Refusing.{Refuses};
ghost use Rattle.un_store.specs.Refusals.{refusal_of};
ghost use Rattle.un_store.specs.Edits.{Fits, IsChangeOf};

use crate::change::RowChange;
use crate::checks::{attrs_of, check_plain, check_room, kind_number, shape_of};
use crate::parts::{configured, terminals_by_class};
use crate::store::Store;
use std::alloc::Global;
use un_defs::{Edit, Refusal, Row};
use un_schema::Schema;

impl Store {
    /// The change that adds the feature that the edit inserts.
    ///
    /// `next` is the id that it gets, over every id of the store, and `moment` its moment. In this order the edit is refused:
    /// `NoSuchKind`; `WrongKind`, where the kind is no line but the flow is not both ways or a terminal is chosen; `BadShape`;
    /// `BadAttribute`; `Full`, where there are 100,000 features.
    pub fn insert(
        &self,
        alloc: Global,
        edit: &Edit,
        schema: &Schema,
        next: u64,
        moment: u64,
    ) -> Result<RowChange, Refusal>
        requires word { IsInsert edit.now }
        requires next { All (λ r. r.id < next) self.now }
        ensures rows { IfOk result (IsChangeOf schema.now next moment self.now edit.now) }
        ensures id { IfOk result (λ change. id_of change ≡ row_of next edit.now) }
        ensures good { OnOk result (refusal_of schema.now self.now edit.now ≡ None) }
        ensures bad { Refuses result (refusal_of schema.now self.now edit.now) }
        ensures fits { OnOk result (Fits schema.now next moment self.now edit.now) }
    {
        let Edit::Insert {
            kind,
            points,
            attrs,
            flow,
            ends,
            note,
        } = edit
        else {
            unreachable!()
        };
        let number = kind_number(alloc, schema, kind)?;
        let class = schema.kind_at(number).class;
        check_plain(class, *flow, ends)?;
        let shape = shape_of(alloc, class, points)?;
        let attrs = attrs_of(alloc, schema, attrs)?;
        check_room(self)?;
        let (terminals, path) = configured(schema, number);
        let row = Row {
            id: next,
            kind: number,
            class,
            terminals: terminals_by_class(class, terminals),
            shape,
            attrs,
            path,
            flow: *flow,
            ends: *ends,
            note: note.copy(alloc)?,
            moment,
        };
        Ok(self.add(row))
    }
}
