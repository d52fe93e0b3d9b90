// The root list: a row of any number of shelves.
ghost use Rattle.std.specs.Prelude.{◌≡◌, ◌∷◌, [], slice_get, Some, IfOk, OnErr};
ghost use Rattle.std.specs.Arc.{arc_value};
ghost use Rattle.std.specs.Map.{lookup, remove_entry};
ghost use Rattle.std.specs.BTreeMap.{is_at, insert_entry};
ghost use Rattle.un_pages.specs.Pairs.{held, pair_held, value_held, past, from_on, left, IsOrdered};
ghost use Rattle.un_pages.specs.Changes.{IsPut, IsTaken};

use crate::branch::{Branch, Shelf};
use crate::level::{Level, Put, Taken};
use crate::page::Page;
use crate::parts;
use crate::range::{Range, Under};
use crate::row::Row;
use std::alloc::{AllocError, Global};
use std::marker::Model;
use std::ops::Bound;
use std::sync::Arc;

#[derive(Drop)]
pub(crate) struct Root<K: Ord + Copy, V: Drop> {
    shelves: Row<K, Shelf<K, V>>,
}

impl<K: Ord + Copy, V: Drop> Model for Root<K, V> {
    ghost use Rattle.std.specs.Prelude.{List};
    ghost use Rattle.un_pages.specs.Pairs.{flat, IsGrown};

    ghost Value = { List (K × V) };

    ghost view = { λ r. flat (λ s. s) r.shelves };

    ghost invariant = { λ r. IsGrown K.cmp (λ s. s) r.shelves };
}

impl<K: Ord + Copy, V: Drop> Root<K, V> {
    // A root list with one pair.
    pub(crate) fn of(alloc: Global, key: K, value: Arc<V>) -> Result<Root<K, V>, AllocError>
        ensures { IfOk result (λ r. r ≡ (key, arc_value value) ∷ []) }
    {
        let page = Page::of(alloc, key, value)?;
        let shelf = Branch::of(alloc, Branch::of(alloc, page)?)?;
        Ok(Root {
            shelves: parts::alone::<K, V, Shelf<K, V>>(alloc, shelf)?,
        })
    }

    pub(crate) fn get(&self, key: &K) -> Option<&Arc<V>>
        ensures { value_held result ≡ lookup (is_at (K.cmp key.now)) self.now }
    {
        parts::get(&self.shelves, key)
    }

    pub(crate) fn first(&self) -> (K, &Arc<V>)
        ensures { slice_get self.now 0 ≡ Some (pair_held result) }
    {
        parts::first(&self.shelves)
    }

    /// The first entry past a key.
    pub(crate) fn next(&self, after: &K) -> Option<(K, &Arc<V>)>
        ensures { held result ≡ slice_get (past K.cmp (Some after.now) self.now) 0 }
    {
        parts::next(&self.shelves, after)
    }

    /// The entries from a bound on, in order.
    pub(crate) fn range(&self, bound: &Bound<K>) -> Range<'_, K, V>
        ensures { result ≡ from_on K.cmp bound.now self.now }
    {
        let (shelf, shelves) = parts::open(&self.shelves, bound);
        let (block, blocks) = shelf.open(bound);
        let (page, pages) = block.open(bound);
        Range::new(page.entries_from(bound), pages, Under::new(blocks, shelves))
    }

    /// The root with the value at the key.
    pub(crate) fn with(
        &self,
        alloc: Global,
        key: K,
        value: Arc<V>,
    ) -> Result<Root<K, V>, AllocError>
        ensures { IfOk result (λ r. r ≡ insert_entry K.cmp self.now key (arc_value value)) }
    {
        let shelves = parts::with(&self.shelves, alloc, key, value)?;
        Ok(Root { shelves })
    }

    // `with`, in the root list itself.
    pub(crate) fn put(&mut self, alloc: Global, key: K, value: &Arc<V>) -> Result<Put, AllocError>
        ensures put { IfOk result (IsPut K.cmp (λ m. m) self.old self.new key (arc_value value.now)) }
        ensures err { OnErr result (self.new ≡ self.old) }
    {
        parts::put_in(&mut self.shelves, alloc, key, value)
    }

    // `without`, in the root list itself.
    pub(crate) fn take(&mut self, alloc: Global, key: &K) -> Result<Taken, AllocError>
        ensures taken { IfOk result (IsTaken K.cmp (λ m. m) self.old self.new key.now) }
        ensures err { OnErr result (self.new ≡ self.old) }
    {
        parts::take_in(&mut self.shelves, alloc, key)
    }

    // None where no pair is left.
    pub(crate) fn without(&self, alloc: Global, key: &K) -> Result<Option<Root<K, V>>, AllocError>
        ensures { IfOk result (λ r. left (λ m. m) r ≡ remove_entry (is_at (K.cmp key.now)) self.now) }
    {
        let shelves = parts::without::<K, V, Shelf<K, V>>(&self.shelves, alloc, key)?;
        if shelves.len() == 0 {
            return Ok(None);
        }
        Ok(Some(Root { shelves }))
    }
}
