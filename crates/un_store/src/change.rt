//! What an edit of a row changes.
ghost use Rattle.std.specs.Prelude.{◌≡◌, List};
ghost use Rattle.std.specs.Option.{option_copied};
ghost use Rattle.un_defs.specs.declared.row.Row.{Row};
ghost use Rattle.un_store.specs.Changes.{applied, id_of};
ghost use Rattle.un_store.specs.Keyed.{row_with};

use un_defs::Row;

/// What an edit changes of the rows: it puts a row, in place of the one with its id if there is one, or takes the one with an id out.
#[derive(Drop)]
pub enum RowChange {
    Put(Row),
    Remove(u64),
}

impl RowChange {
    /// The id of the row that changes.
    pub fn id(&self) -> u64
        ensures { result ≡ id_of self.now }
    {
        match self {
            RowChange::Put(row) => row.id,
            RowChange::Remove(id) => *id,
        }
    }

    /// The row with that id once the change is made, if there is one.
    pub fn row(&self) -> Option<&Row>
        ensures { (rows : List Row)
            → option_copied result ≡ row_with (applied rows self.now) (id_of self.now) }
    {
        match self {
            RowChange::Put(row) => Some(row),
            RowChange::Remove(_) => None,
        }
    }
}
