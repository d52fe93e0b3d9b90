//! Any edit of rows.
ghost use Rattle.std.specs.Prelude.{◌≡◌, ◌<◌, All, None, IfOk, OnOk};
ghost use Rattle.un_store.specs.Changes.{id_of};
ghost use Rattle.un_store.specs.Words.{row_of, IsRowEdit};
ghost use Rattle.un_defs.specs.Refusing.{Refuses};
ghost use Rattle.un_store.specs.Refusals.{refusal_of};
ghost use Rattle.un_store.specs.Edits.{IsChangeOf};

use crate::change::RowChange;
use crate::store::Store;
use std::alloc::Global;
use un_defs::{Edit, Refusal};
use un_schema::Schema;

impl Store {
    /// The change that an edit of a row makes, by its word.
    ///
    /// It is refused as by the call of its word: `NoSuchFeature`, `Moved`, `NoSuchKind`, `WrongKind`, `BadShape`, `BadAttribute`,
    /// `BadPath` or `Full`, whichever of them is due first there.
    pub fn edit(
        &self,
        alloc: Global,
        edit: &Edit,
        schema: &Schema,
        next: u64,
        moment: u64,
    ) -> Result<RowChange, Refusal>
        requires word { IsRowEdit edit.now }
        requires next { All (λ r. r.id < next) self.now }
        ensures rows { IfOk result (IsChangeOf schema.now next moment self.now edit.now) }
        ensures id { IfOk result (λ change. id_of change ≡ row_of next edit.now) }
        ensures good { OnOk result (refusal_of schema.now self.now edit.now ≡ None) }
        ensures bad { Refuses result (refusal_of schema.now self.now edit.now) }
    {
        match edit {
            Edit::Insert { .. } => self.insert(alloc, edit, schema, next, moment),
            Edit::Reshape { .. } => self.reshape(alloc, edit, schema, next, moment),
            Edit::Attrs { .. } => self.attrs(alloc, edit, schema, next, moment),
            Edit::Kind { .. } => self.kind(alloc, edit, schema, next, moment),
            Edit::Path { .. } => self.path(alloc, edit, schema, next, moment),
            Edit::Flow { .. } => self.flow(alloc, edit, schema, next, moment),
            Edit::Ends { .. } => self.ends(alloc, edit, schema, next, moment),
            Edit::Note { .. } => self.note(alloc, edit, schema, next, moment),
            Edit::Delete { .. } => self.delete(alloc, edit, schema, next, moment),
            _ => unreachable!(),
        }
    }
}
