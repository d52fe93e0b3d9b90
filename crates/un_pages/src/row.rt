// A row of keys, each beside a shared value: what a page, a block, a shelf and the root list are made of.
ghost use Rattle.std.specs.Prelude.{◌≡◌, ◌<◌, ◌≤◌, ◌+◌, ◌∷◌, ◌++◌, [], length, slice_get, IfOk, IfErr, OnOk, OnErr, IfSome, Some, take, drop};
ghost use Rattle.std.specs.Arc.{arc_value};
ghost use Rattle.std.specs.Map.Iter.{TakesFirst};
ghost use Rattle.un_pages.specs.Pairs.{past, from_on, pairs_of, pair_of, pair_held, first_key, IsOrdered, IsFound, IsGap, IsPlace, IsStart};
ghost use Rattle.un_pages.specs.Changes.{IsPut, IsTaken, IsChangedAt};

use crate::level::{Level, Put, Taken};
use std::alloc::{AllocError, Global};
use std::marker::Model;
use std::ops::Bound;
use std::sync::Arc;

#[derive(Drop)]
pub(crate) struct Row<K: Ord + Copy, X> {
    items: Vec<(K, Arc<X>)>,
}

impl<K: Ord + Copy, X> Model for Row<K, X> {
    ghost use Rattle.std.specs.Prelude.{List};
    ghost use Rattle.un_pages.specs.Pairs.{pairs_of};

    ghost Value = { List (K × X) };

    ghost view = { λ r. pairs_of r.items.items };
}

// The entries of a row from a place on.
#[derive(Drop)]
pub(crate) struct Tail<'a, K: Ord + Copy, X> {
    items: &'a [(K, Arc<X>)],
}

impl<'a, K: Ord + Copy, X> Model for Tail<'a, K, X> {
    ghost use Rattle.std.specs.Prelude.{List};
    ghost use Rattle.un_pages.specs.Pairs.{pairs_of};

    ghost Value = { List (K × X) };

    ghost view = { λ t. pairs_of t.items.now };
}

impl<'a, K: Ord + Copy, X> Tail<'a, K, X> {
    /// A tail without entries.
    pub(crate) fn empty() -> Tail<'a, K, X>
        ensures { result ≡ [] }
    {
        Tail { items: &[] }
    }

    /// Takes the first entry off the tail.
    pub(crate) fn next(&mut self) -> Option<(K, &'a Arc<X>)>
        ensures { TakesFirst pair_held self.old result self.new }
    {
        let (first, others) = self.items.split_first()?;
        self.items = others;
        Some((first.0, &first.1))
    }
}

impl<K: Ord + Copy, X> Row<K, X> {
    /// A row without entries. Takes no memory.
    pub(crate) fn empty(alloc: Global) -> Row<K, X>
        ensures { result ≡ [] }
    {
        Row {
            items: Vec::new(alloc),
        }
    }

    // No entries, and room for so many.
    fn with_room(alloc: Global, room: usize) -> Result<Row<K, X>, AllocError>
        ensures { IfOk result (λ r. r ≡ []) }
    {
        let items = Vec::with_capacity(alloc, room)?;
        Ok(Row { items })
    }

    pub(crate) fn len(&self) -> usize
        ensures { result ≡ length self.now }
    {
        self.items.len()
    }

    /// The entry at a place.
    pub(crate) fn entry(&self, at: usize) -> (K, &Arc<X>)
        requires { at < length self.now }
        ensures { slice_get self.now at ≡ Some (result.0, arc_value result.1.now) }
    {
        let item = &self.items[at];
        (item.0, &item.1)
    }

    // Where the key is, or where it would go.
    pub(crate) fn seek(&self, key: &K) -> Result<usize, usize>
        requires { IsOrdered K.cmp self.now }
        ensures found { IfOk result (IsFound K.cmp self.now key.now) }
        ensures gap { IfErr result (IsGap K.cmp self.now key.now) }
    {
        self.items.binary_search_by_key(key, |item| item.0)
    }

    // The only place whose part may have the key.
    pub(crate) fn place(&self, key: &K) -> usize
        requires some { 0 < length self.now }
        requires ordered { IsOrdered K.cmp self.now }
        ensures { IsPlace K.cmp self.now key.now result }
    {
        match self.seek(key) {
            Ok(at) => at,
            Err(0) => 0,
            Err(at) => at - 1,
        }
    }

    // The place of the first entry whose key is over `key`.
    pub(crate) fn beyond(&self, key: &K) -> usize
        requires { IsOrdered K.cmp self.now }
        ensures first { slice_get (past K.cmp (Some key.now) self.now) 0 ≡ slice_get self.now result }
        ensures rest { past K.cmp (Some key.now) self.now ≡ drop result self.now }
        ensures within { result ≤ length self.now }
    {
        // For the proof alone.
        let _len = self.len();
        match self.seek(key) {
            Ok(at) => at + 1,
            Err(at) => at,
        }
    }

    // The place of the first entry from the bound on.
    pub(crate) fn place_from(&self, bound: &Bound<K>) -> usize
        requires { IsOrdered K.cmp self.now }
        ensures reached { from_on K.cmp bound.now self.now ≡ drop result self.now }
        ensures within { result ≤ length self.now }
    {
        match bound {
            Bound::Included(key) => match self.seek(key) {
                Ok(at) | Err(at) => at,
            },
            Bound::Excluded(key) => self.beyond(key),
            Bound::Unbounded => 0,
        }
    }

    // The place of the first part that may have a key from the bound on.
    pub(crate) fn start(&self, bound: &Bound<K>) -> usize
        requires some { 0 < length self.now }
        requires ordered { IsOrdered K.cmp self.now }
        ensures { IsStart K.cmp self.now bound.now result }
    {
        match bound {
            Bound::Included(key) | Bound::Excluded(key) => self.place(key),
            Bound::Unbounded => 0,
        }
    }

    /// The entries from a place on.
    #[tactic(auto, using(crate::proofs::PairsOf::pairs_of_drop))]
    pub(crate) fn tail(&self, from: usize) -> Tail<'_, K, X>
        requires { from ≤ length self.now }
        ensures { result ≡ drop from self.now }
    {
        Tail {
            items: self.items.as_slice().split_at(from).1,
        }
    }

    // Puts another value at a place.
    #[tactic(auto, using(crate::proofs::PairsOf::pairs_of_set))]
    pub(crate) fn set_value(&mut self, at: usize, value: Arc<X>)
    where
        X: Drop,
        requires { at < length self.old }
        ensures { IfSome (slice_get self.old at) (λ p. self.new
            ≡ take at self.old ++ (((p.0, arc_value value) ∷ []) ++ drop (at + 1) self.old)) }
    {
        self.items[at].1 = value;
    }

    /// Inserts an entry at a place, or leaves the row as it was.
    #[tactic(auto, using(crate::proofs::PairsOf::pairs_of_insert))]
    pub(crate) fn insert(&mut self, at: usize, key: K, value: Arc<X>) -> Result<(), AllocError>
    where
        X: Drop,
        requires { at ≤ length self.old }
        ensures ok { OnOk result (self.new
            ≡ take at self.old ++ (((key, arc_value value) ∷ []) ++ drop at self.old)) }
        ensures err { OnErr result (self.new ≡ self.old) }
    {
        self.items.insert(at, (key, value))?;
        Ok(())
    }

    /// Removes the entry at a place.
    #[tactic(auto, using(crate::proofs::PairsOf::pairs_of_remove))]
    pub(crate) fn remove(&mut self, at: usize)
    where
        X: Drop,
        requires { at < length self.old }
        ensures { self.new ≡ take at self.old ++ drop (at + 1) self.old }
    {
        let _gone = self.items.remove(at);
    }

    // Puts the value at the key in the part at a place.
    #[tactic(auto, using(crate::proofs::PairsOf::pairs_of_set))]
    pub(crate) fn put_at<V>(
        &mut self,
        at: usize,
        alloc: Global,
        key: K,
        value: &Arc<V>,
    ) -> Result<Put, AllocError>
    where
        X: Level<K, V>,
        requires within { at < length self.old }
        requires leads { IfSome (slice_get self.old at) (λ p. first_key (X.pairs p.1) ≡ Some p.0) }
        ensures put { IfOk result (λ r. IsChangedAt X.pairs self.old self.new at
            (λ was now. IsPut K.cmp (λ p. X.pairs p.1) was now key (arc_value value.now) r)) }
        ensures err { OnErr result (self.new ≡ self.old) }
    {
        put_beside(&mut self.items[at], alloc, key, value)
    }

    // Takes the key out of the part at a place.
    #[tactic(auto, using(crate::proofs::PairsOf::pairs_of_set))]
    pub(crate) fn take_at<V>(
        &mut self,
        at: usize,
        alloc: Global,
        key: &K,
    ) -> Result<Taken, AllocError>
    where
        X: Level<K, V>,
        requires within { at < length self.old }
        requires leads { IfSome (slice_get self.old at) (λ p. first_key (X.pairs p.1) ≡ Some p.0) }
        ensures taken { IfOk result (λ r. IsChangedAt X.pairs self.old self.new at
            (λ was now. IsTaken K.cmp (λ p. X.pairs p.1) was now key.now r)) }
        ensures err { OnErr result (self.new ≡ self.old) }
    {
        take_beside(&mut self.items[at], alloc, key)
    }

    // The entry alone.
    pub(crate) fn one(alloc: Global, key: K, value: Arc<X>) -> Result<Row<K, X>, AllocError>
    where
        X: Drop,
        ensures { IfOk result (λ r. r ≡ (key, arc_value value) ∷ []) }
    {
        let mut items = Vec::with_capacity(alloc, 1)?;
        items.push((key, value))?;
        Ok(Row { items })
    }

    /// Appends an entry.
    pub(crate) fn push(&mut self, key: K, value: Arc<X>) -> Result<(), AllocError>
    where
        X: Drop,
        ensures { IfOk result (λ _. self.new ≡ self.old ++ (key, arc_value value) ∷ []) }
    {
        self.items.push((key, value))?;
        Ok(())
    }

    // Adds the first `count` entries of the other row.
    #[tactic(auto, using(crate::proofs::PairsOf::pairs_of_take))]
    fn copy_front(&mut self, other: &Row<K, X>, count: usize) -> Result<(), AllocError>
    where
        X: Drop,
        requires { count ≤ length other.now }
        ensures { IfOk result (λ _. self.new ≡ self.old ++ take count other.now) }
    {
        copy_to(&mut self.items, &other.items[..count])
    }

    // Adds the entries of the other row from `from` on.
    #[tactic(auto, using(crate::proofs::PairsOf::pairs_of_drop))]
    fn copy_back(&mut self, other: &Row<K, X>, from: usize) -> Result<(), AllocError>
    where
        X: Drop,
        requires { from ≤ length other.now }
        ensures { IfOk result (λ _. self.new ≡ self.old ++ drop from other.now) }
    {
        copy_to(&mut self.items, other.items.as_slice().split_at(from).1)
    }

    fn append(&mut self, other: Row<K, X>) -> Result<(), AllocError>
    where
        X: Drop,
        ensures { IfOk result (λ _. self.new ≡ self.old ++ other) }
    {
        let Row { items: mut others } = other;
        self.items.append(&mut others)
    }

    // The entries, with those of `new` in place of the `gone` entries from `at` on.
    pub(crate) fn spliced(
        &self,
        alloc: Global,
        at: usize,
        gone: usize,
        new: Row<K, X>,
    ) -> Result<Row<K, X>, AllocError>
    where
        X: Drop,
        requires { at + gone ≤ length self.now }
        ensures { IfOk result (λ r. r ≡ take at self.now ++ (new ++ drop (at + gone) self.now)) }
    {
        let room = (self.len() - gone).saturating_add(new.len());
        let mut row = Row::with_room(alloc, room)?;
        row.copy_front(self, at)?;
        row.append(new)?;
        row.copy_back(self, at + gone)?;
        Ok(row)
    }

    // The entries, and after them those of the other row.
    pub(crate) fn followed_by(
        &self,
        alloc: Global,
        other: &Row<K, X>,
    ) -> Result<Row<K, X>, AllocError>
    where
        X: Drop,
        ensures { IfOk result (λ r. r ≡ self.now ++ other.now) }
    {
        let room = self.len().saturating_add(other.len());
        let mut items = Vec::with_capacity(alloc, room)?;
        copy_to(&mut items, &self.items)?;
        copy_to(&mut items, &other.items)?;
        Ok(Row { items })
    }

    // The first `at` entries, and the others.
    #[tactic(auto, using(crate::proofs::PairsOf::pairs_of_take, crate::proofs::PairsOf::pairs_of_drop, crate::proofs::PairsOf::pairs_of_append))]
    pub(crate) fn split(self, at: usize) -> Result<(Row<K, X>, Row<K, X>), AllocError>
    where
        X: Drop,
        requires { at ≤ length self }
        ensures prefix { IfOk result (λ p. p.0 ≡ take at self) }
        ensures back { IfOk result (λ p. p.1 ≡ drop at self) }
    {
        let Row { mut items } = self;
        let others = items.split_off(at)?;
        Ok((Row { items }, Row { items: others }))
    }
}

fn copy_to<K: Ord + Copy, X: Drop>(
    items: &mut Vec<(K, Arc<X>)>,
    from: &[(K, Arc<X>)],
) -> Result<(), AllocError>
    ensures { IfOk result (λ _. pairs_of items.new.items ≡ pairs_of items.old.items ++ pairs_of from.now) }
{
    items.try_reserve_exact(from.len())?;
    for (key, value) in from {
        items.push((*key, Arc::try_clone(value)?))?;
    }
    Ok(())
}

// Puts the value at the key in a part, where nobody else holds it.
fn put_into<K: Ord + Copy, V, T: Level<K, V>>(
    part: &mut Arc<T>,
    alloc: Global,
    key: K,
    value: &Arc<V>,
) -> Result<Put, AllocError>
    ensures put { IfOk result
        (IsPut K.cmp T.pairs (arc_value part.old) (arc_value part.new) key (arc_value value.now)) }
    ensures err { OnErr result (arc_value part.new ≡ arc_value part.old) }
{
    match Arc::get_mut(part) {
        Some(part) => part.put(alloc, key, value),
        None => Ok(Put::Refused),
    }
}

// The same, with the first key beside the part.
fn put_beside<K: Ord + Copy, V, T: Level<K, V>>(
    item: &mut (K, Arc<T>),
    alloc: Global,
    key: K,
    value: &Arc<V>,
) -> Result<Put, AllocError>
    requires { first_key (T.pairs (arc_value item.old.1)) ≡ Some item.old.0 }
    ensures put { IfOk result
        (IsPut K.cmp (λ p. T.pairs p.1) (pair_of item.old) (pair_of item.new) key (arc_value value.now)) }
    ensures leads { first_key (T.pairs (arc_value item.new.1)) ≡ Some item.new.0 }
    ensures err { OnErr result (pair_of item.new ≡ pair_of item.old) }
{
    let put = put_into(&mut item.1, alloc, key, value)?;
    match put {
        Put::Added | Put::Replaced => {
            if key.cmp(&item.0).is_lt() {
                item.0 = key;
            }
        }
        Put::Refused => {}
    }
    Ok(put)
}

// Takes the key out of a part, where nobody else holds it.
fn take_out<K: Ord + Copy, V, T: Level<K, V>>(
    part: &mut Arc<T>,
    alloc: Global,
    key: &K,
) -> Result<Taken, AllocError>
    ensures taken { IfOk result (IsTaken K.cmp T.pairs (arc_value part.old) (arc_value part.new) key.now) }
    ensures err { OnErr result (arc_value part.new ≡ arc_value part.old) }
{
    match Arc::get_mut(part) {
        Some(part) => part.take(alloc, key),
        None => Ok(Taken::Kept),
    }
}

// The same, with the first key beside the part.
fn take_beside<K: Ord + Copy, V, T: Level<K, V>>(
    item: &mut (K, Arc<T>),
    alloc: Global,
    key: &K,
) -> Result<Taken, AllocError>
    requires { first_key (T.pairs (arc_value item.old.1)) ≡ Some item.old.0 }
    ensures taken { IfOk result
        (IsTaken K.cmp (λ p. T.pairs p.1) (pair_of item.old) (pair_of item.new) key.now) }
    ensures leads { first_key (T.pairs (arc_value item.new.1)) ≡ Some item.new.0 }
    ensures err { OnErr result (pair_of item.new ≡ pair_of item.old) }
{
    let taken = take_out(&mut item.1, alloc, key)?;
    if let Taken::Removed = taken
        && key.cmp(&item.0).is_eq()
    {
        item.0 = item.1.first().0;
    }
    Ok(taken)
}
