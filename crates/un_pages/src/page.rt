// A page: pairs in the order of their keys.
ghost use Rattle.std.specs.Prelude.{◌≡◌, ◌<◌, ◌≤◌, ◌+◌, ◌∷◌, [], length, IfOk, OnErr};
ghost use Rattle.std.specs.Arc.{arc_value};
ghost use Rattle.std.specs.Map.{remove_entry};
ghost use Rattle.std.specs.BTreeMap.{is_at, insert_entry};
ghost use Rattle.un_pages.specs.Pairs.{spread, from_on, IsOrdered, IsPage};
ghost use Rattle.un_pages.specs.Changes.{IsPut, IsTaken};

use crate::level::{LEAST_FILL, Level, Put, ROOM, Taken};
use crate::row::{Row, Tail};
use std::alloc::{AllocError, Global};
use std::marker::Model;
use std::ops::Bound;
use std::sync::Arc;

#[derive(Drop)]
pub(crate) struct Page<K: Ord + Copy, V> {
    row: Row<K, V>,
}

impl<K: Ord + Copy, V> Model for Page<K, V> {
    ghost use Rattle.std.specs.Prelude.{List, length, ◌≤◌};
    ghost use Rattle.un_pages.specs.Pairs.{IsPage};

    ghost Value = { List (K × V) };

    ghost view = { λ p. p.row };

    ghost invariant = { λ p. IsPage K.cmp p.row };
}

// One page, or two where there are too many pairs for one.
fn packed<K: Ord + Copy, V: Drop>(
    row: Row<K, V>,
) -> Result<(Page<K, V>, Option<Page<K, V>>), AllocError>
    requires some { 0 < length row }
    requires bound { length row ≤ 64 }
    requires ordered { IsOrdered K.cmp row }
    ensures { IfOk result (λ r. spread (λ p. p) r ≡ row) }
{
    let len = row.len();
    if len <= ROOM {
        return Ok((Page { row }, None));
    }
    let (low, high) = row.split(len / 2)?;
    Ok((Page { row: low }, Some(Page { row: high })))
}

// The pairs, with the value at the key.
fn put<K: Ord + Copy, V: Drop>(
    row: &Row<K, V>,
    alloc: Global,
    key: K,
    value: Arc<V>,
) -> Result<Row<K, V>, AllocError>
    requires { IsOrdered K.cmp row.now }
    ensures { IfOk result (λ r. r ≡ insert_entry K.cmp row.now key (arc_value value)) }
{
    match row.seek(&key) {
        Ok(at) => {
            let (kept, _) = row.entry(at);
            row.spliced(alloc, at, 1, Row::one(alloc, kept, value)?)
        }
        Err(at) => row.spliced(alloc, at, 0, Row::one(alloc, key, value)?),
    }
}

// The pairs without the key.
fn cut<K: Ord + Copy, V: Drop>(
    row: &Row<K, V>,
    alloc: Global,
    key: &K,
) -> Result<Row<K, V>, AllocError>
    requires { IsOrdered K.cmp row.now }
    ensures { IfOk result (λ r. r ≡ remove_entry (is_at (K.cmp key.now)) row.now) }
{
    match row.seek(key) {
        Ok(at) => {
            // For the proof alone.
            let _kept = row.entry(at);
            row.spliced(alloc, at, 1, Row::empty(alloc))
        }
        Err(at) => row.spliced(alloc, at, 0, Row::empty(alloc)),
    }
}

// `put`, in the row itself.
fn put_here<K: Ord + Copy, V: Drop>(
    row: &mut Row<K, V>,
    alloc: Global,
    key: K,
    value: &Arc<V>,
) -> Result<Put, AllocError>
    requires { IsPage K.cmp row.old }
    ensures put { IfOk result (IsPut K.cmp (λ r. r) row.old row.new key (arc_value value.now)) }
    ensures page { IsPage K.cmp row.new }
    ensures err { OnErr result (row.new ≡ row.old) }
{
    match row.seek(&key) {
        Ok(at) => {
            row.set_value(at, Arc::try_clone(value)?);
            Ok(Put::Replaced)
        }
        Err(at) if row.len() < ROOM => {
            row.insert(at, key, Arc::try_clone(value)?)?;
            Ok(Put::Added)
        }
        Err(_) => Ok(Put::Refused),
    }
}

// `cut`, in the row itself.
fn cut_here<K: Ord + Copy, V: Drop>(row: &mut Row<K, V>, key: &K) -> Taken
    requires { IsPage K.cmp row.old }
    ensures taken { IsTaken K.cmp (λ r. r) row.old row.new key.now result }
    ensures page { IsPage K.cmp row.new }
{
    match row.seek(key) {
        Ok(at) if row.len() > LEAST_FILL => {
            row.remove(at);
            Taken::Removed
        }
        Ok(_) => Taken::Kept,
        Err(_) => Taken::Absent,
    }
}

impl<K: Ord + Copy, V: Drop> Page<K, V> {
    // A page with one pair.
    pub(crate) fn of(alloc: Global, key: K, value: Arc<V>) -> Result<Page<K, V>, AllocError>
        ensures { IfOk result (λ p. p ≡ (key, arc_value value) ∷ []) }
    {
        Ok(Page {
            row: Row::one(alloc, key, value)?,
        })
    }

    pub(crate) fn entries(&self) -> Tail<'_, K, V>
        ensures entries { result ≡ self.now }
        ensures some { 0 < length self.now }
    {
        self.row.tail(0)
    }

    /// The entries from a bound on.
    pub(crate) fn entries_from(&self, bound: &Bound<K>) -> Tail<'_, K, V>
        ensures { result ≡ from_on K.cmp bound.now self.now }
    {
        self.row.tail(self.row.place_from(bound))
    }
}

impl<K: Ord + Copy, V: Drop> Level<K, V> for Page<K, V> {
    ghost pairs = { λ p. p };

    fn size(&self) -> usize {
        self.row.len()
    }

    fn first(&self) -> (K, &Arc<V>) {
        self.row.entry(0)
    }

    // The pairs are read one after another. A page has few, most pages of a large map are in no cache, and a search by halves would wait for
    // memory at each of its steps.
    fn get(&self, key: &K) -> Option<&Arc<V>> {
        for at in 0..self.row.len() {
            let (here, value) = self.row.entry(at);
            if key.cmp(&here).is_eq() {
                return Some(value);
            }
        }
        None
    }

    fn next(&self, after: &K) -> Option<(K, &Arc<V>)> {
        let at = self.row.beyond(after);
        if at < self.row.len() {
            Some(self.row.entry(at))
        } else {
            None
        }
    }

    fn with(
        &self,
        alloc: Global,
        key: K,
        value: Arc<V>,
    ) -> Result<(Page<K, V>, Option<Page<K, V>>), AllocError>
        ensures { IfOk result (λ r. spread (λ p. p) r ≡ insert_entry K.cmp self.now key (arc_value value)) }
    {
        packed(put(&self.row, alloc, key, value)?)
    }

    fn put(&mut self, alloc: Global, key: K, value: &Arc<V>) -> Result<Put, AllocError> {
        put_here(&mut self.row, alloc, key, value)
    }

    fn take(&mut self, _alloc: Global, key: &K) -> Result<Taken, AllocError> {
        Ok(cut_here(&mut self.row, key))
    }

    fn without(&self, alloc: Global, key: &K) -> Result<Option<Page<K, V>>, AllocError> {
        let row = cut(&self.row, alloc, key)?;
        if row.len() == 0 {
            return Ok(None);
        }
        Ok(Some(Page { row }))
    }

    fn joined(
        alloc: Global,
        low: &Page<K, V>,
        high: &Page<K, V>,
    ) -> Result<(Page<K, V>, Option<Page<K, V>>), AllocError> {
        packed(low.row.followed_by(alloc, &high.row)?)
    }
}
