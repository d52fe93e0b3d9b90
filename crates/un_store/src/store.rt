//! The store.
ghost use Rattle.std.specs.Prelude.{◌≡◌, ◌<◌, ◌==◌, not, ◌++◌, ◌∷◌, [], filter, All, None, Some, IfOk, OnOk, OnErr, IfErr, length};
ghost use Rattle.std.specs.Map.{values_of};
ghost use Rattle.std.specs.Option.{option_copied};
ghost use Rattle.un_geom.specs.Places.{IsPlace};
ghost use Rattle.un_store.specs.Keyed.{IsRising, row_with, is_line_of, line_points};
ghost use Rattle.un_store.specs.Refusals.{no_row};
ghost use Rattle.un_store.specs.Changes.{applied, with_row, id_of};
ghost use Rattle.un_store.specs.Edits.{IsReplaced};

use crate::change::RowChange;
use std::alloc::{AllocError, Global};
use std::marker::Model;
use std::ops::Bound;
use std::sync::Arc;
use un_defs::{Lookup, Refusal, Row};
use un_geom::Point;
use un_pages::Paged;

/// The live features of a network. Contracts see their rows, by rising id.
#[derive(Drop)]
pub struct Store {
    rows: Paged<u64, Row>,
}

impl Model for Store {
    ghost use Rattle.std.specs.Prelude.{List};
    ghost use Rattle.std.specs.Map.{values_of};
    ghost use Rattle.un_defs.specs.declared.row.Row.{Row};
    ghost use Rattle.un_store.specs.Keyed.{IsKeyed};

    ghost Value = { List Row };

    ghost view = { λ s. values_of s.rows };

    ghost invariant = { λ s. IsKeyed s.rows };
}

fn is_line_of(row: &Row, kind: u16) -> bool
    ensures { result ≡ is_line_of kind row.now }
{
    row.class.is_line() && row.kind == kind
}

// The points of the lines of a kind, which are looked for among all rows.
fn points_of_lines(
    alloc: Global,
    rows: &Paged<u64, Row>,
    kind: u16,
) -> Result<Vec<Point>, AllocError>
    ensures points { IfOk result (λ points. points.items ≡ line_points kind (values_of rows.now)) }
    ensures placed { IfOk result (λ points. All IsPlace points.items) }
{
    let mut points = Vec::new(alloc);
    for (_, row) in rows.range(Bound::Unbounded) {
        if is_line_of(row, kind) {
            points.extend_from_slice(row.shape.points())?;
        }
    }
    Ok(points)
}

impl Store {
    /// The store without features. It takes no memory.
    pub fn new(_alloc: Global) -> Store
        ensures { result ≡ [] }
    {
        Store { rows: Paged::new() }
    }

    /// How many features there are.
    pub fn len(&self) -> u64
        ensures count { result ≡ length self.now }
        ensures rising { IsRising self.now }
    {
        self.rows.len()
    }

    /// The row with this id, if there is one.
    pub fn row(&self, id: u64) -> Option<&Row>
        ensures { option_copied result ≡ row_with self.now id }
    {
        self.rows.get(&id)
    }

    /// The points of all lines of a kind, line by line in the order of their ids. All features are looked at.
    pub fn points_of_lines(&self, alloc: Global, kind: u16) -> Result<Vec<Point>, AllocError>
        ensures points { IfOk result (λ points. points.items ≡ line_points kind self.now) }
        ensures placed { IfOk result (λ points. All IsPlace points.items) }
    {
        points_of_lines(alloc, &self.rows, kind)
    }

    /// An equal store, which shares all pages.
    pub fn share(&self) -> Result<Store, AllocError>
        ensures { IfOk result (λ store. store ≡ self.now) }
    {
        let rows = self.rows.share()?;
        Ok(Store { rows })
    }

    /// Makes the change on the store itself. Pages that no other store shares are changed in place, the others copied. For want of memory
    /// the store is as it was.
    pub fn apply(&mut self, alloc: Global, change: RowChange) -> Result<(), AllocError>
        ensures ok { OnOk result (self.new ≡ applied self.old change) }
        ensures err { OnErr result (self.new ≡ self.old) }
    {
        match change {
            RowChange::Put(row) => self.put(alloc, row),
            RowChange::Remove(id) => self.remove(alloc, id),
        }
    }

    // Puts a row, in place of the one with its id if there is one.
    fn put(&mut self, alloc: Global, row: Row) -> Result<(), AllocError>
        ensures ok { OnOk result (self.new ≡ with_row self.old row) }
        ensures err { OnErr result (self.new ≡ self.old) }
    {
        let id = row.id;
        let shared = Arc::new(alloc, row)?;
        self.rows.put(alloc, id, shared)?;
        Ok(())
    }

    // Takes the row with this id out.
    fn remove(&mut self, alloc: Global, id: u64) -> Result<(), AllocError>
        ensures ok { OnOk result (self.new ≡ filter (λ r. not (r.id == id)) self.old) }
        ensures err { OnErr result (self.new ≡ self.old) }
    {
        self.rows.take(alloc, &id)?;
        Ok(())
    }
}

impl Store {
    /// The row with this id and this moment.
    pub(crate) fn found(&self, id: u64, base: u64) -> Result<&Row, Refusal>
        ensures row { IfOk result (λ row. row_with self.now id ≡ Some row.now) }
        ensures id { IfOk result (λ row. row.now.id ≡ id) }
        ensures good { OnOk result (no_row self.now id base ≡ None) }
        ensures bad { IfErr result (λ refusal. no_row self.now id base ≡ Some refusal) }
    {
        let Some(row) = self.row(id) else {
            return Err(Refusal::NoSuchFeature { id });
        };
        if row.moment != base {
            return Err(Refusal::Moved { at: row.moment });
        }
        Ok(row)
    }

    /// The change that adds a row, whose id is over all others.
    pub(crate) fn add(&self, row: Row) -> RowChange
        requires { All (λ r. r.id < row.id) self.now }
        ensures rows { applied self.now result ≡ self.now ++ row ∷ [] }
        ensures id { id_of result ≡ row.id }
    {
        RowChange::Put(row)
    }

    /// The change that puts a row in place of the one with this id.
    pub(crate) fn replace(&self, id: u64, row: Row) -> RowChange
        requires { row.id ≡ id }
        ensures rows { IsReplaced self.now id row (applied self.now result) }
        ensures id { id_of result ≡ id }
    {
        // For the proof alone.
        let _rising = self.len();
        RowChange::Put(row)
    }
}

impl Lookup for Store {
    ghost use Rattle.un_store.specs.Edits.{only_rows};

    ghost features = { λ rows. only_rows rows };

    fn row(&self, id: u64) -> Option<&Row> {
        Store::row(self, id)
    }
}
