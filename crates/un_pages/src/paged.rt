// The map.
ghost use Rattle.std.specs.Prelude.{◌≡◌, ◌+◌, ◌<◌, ◌^◌, [], ◌∷◌, length, slice_get, Some, IfOk, IfSome, IfNone, OnOk, OnErr, IsSome, is_some, if◌then◌else◌};
ghost use Rattle.std.specs.Option.{option_copied};
ghost use Rattle.std.specs.Arc.{arc_value};
ghost use Rattle.std.specs.Map.{lookup, remove_entry};
ghost use Rattle.std.specs.Map.Iter.{ShowsInOrder};
ghost use Rattle.std.specs.declared.alloc.Global.{Global};
ghost use Rattle.std.specs.BTreeMap.{is_at, insert_entry};
ghost use Rattle.un_pages.specs.Pairs.{all_of, held, left, past, pair_held, from_on, IsOrdered};
ghost use Rattle.un_pages.specs.Changes.{IsPut, IsTaken};

use crate::level::{Put, Taken};
use crate::range::Range;
use crate::root::Root;
use std::alloc::{AllocError, Global};
use std::marker::Model;
use std::ops::Bound;
use std::sync::Arc;

/// An ordered map whose pages are shared with the maps that it was made from.
#[derive(Drop)]
pub struct Paged<K: Ord + Copy, V: Drop> {
    root: Option<Arc<Root<K, V>>>,
    len: u64,
}

impl<K: Ord + Copy, V: Drop> Model for Paged<K, V> {
    ghost use Rattle.std.specs.Prelude.{List, length, ◌≡◌};
    ghost use Rattle.un_pages.specs.Pairs.{all_of, IsCounted};

    ghost Value = { List (K × V) };

    ghost view = { λ m. all_of m.root };

    ghost invariant = { λ m. IsCounted K.cmp (all_of m.root) m.len };
}

impl<K: Ord + Copy, V: Drop> Paged<K, V> {
    /// The empty map, which takes no memory.
    pub fn new() -> Paged<K, V>
        ensures { result ≡ [] }
    {
        Paged { root: None, len: 0 }
    }

    /// How many pairs the map has.
    pub fn len(&self) -> u64
        ensures len { result ≡ length self.now }
        ensures ordered { IsOrdered K.cmp self.now }
    {
        self.len
    }

    /// The value at the key.
    pub fn get(&self, key: &K) -> Option<&V>
        ensures { option_copied result ≡ lookup (is_at (K.cmp key.now)) self.now }
    {
        let root = self.root.as_ref()?;
        Some(&**root.get(key)?)
    }

    /// The first pair whose key is greater than `after`, or the first pair if `after` is `None`.
    pub fn next(&self, after: Option<K>) -> Option<(K, &Arc<V>)>
        ensures first { held result ≡ slice_get (past K.cmp after self.now) 0 }
        ensures rest { IfSome result (λ p. past K.cmp after self.now
            ≡ pair_held p ∷ past K.cmp (Some p.0) self.now) }
        ensures last { IfNone result (past K.cmp after self.now ≡ []) }
    {
        // For the proof alone.
        let _len = self.len();
        self.first_past(after)
    }

    fn first_past(&self, after: Option<K>) -> Option<(K, &Arc<V>)>
        ensures { held result ≡ slice_get (past K.cmp after self.now) 0 }
    {
        let root = self.root.as_ref()?;
        match after {
            None => Some(root.first()),
            Some(after) => root.next(&after),
        }
    }

    /// The pairs from a key on, in the order of their keys. The place of the first is sought once.
    pub fn range(&self, from: Bound<K>) -> Range<'_, K, V>
        ensures pairs { result ≡ from_on K.cmp from self.now }
        ensures fits { length result < 2 ^ 64 }
        ensures runs { ShowsInOrder (pair_held {K = K} {V = V} {Z = Global}) }
    {
        // For the proof alone.
        let _len = self.len();
        match &self.root {
            Some(root) => root.range(&from),
            None => Range::empty(&self.root),
        }
    }

    /// The map with the value at the key, in place of the old value where the key has one.
    pub fn with(&self, alloc: Global, key: K, value: V) -> Result<Paged<K, V>, AllocError>
        ensures { IfOk result (λ m. m ≡ insert_entry K.cmp self.now key value) }
    {
        self.with_shared(alloc, key, Arc::new(alloc, value)?)
    }

    /// `with`, for a value that is shared already.
    pub fn with_shared(
        &self,
        alloc: Global,
        key: K,
        value: Arc<V>,
    ) -> Result<Paged<K, V>, AllocError>
        ensures { IfOk result (λ m. m ≡ insert_entry K.cmp self.now key (arc_value value)) }
    {
        let len = self.len_with(&key)?;
        let root = self.root_with(alloc, key, value)?;
        Ok(Paged {
            root: Some(Arc::new(alloc, root)?),
            len,
        })
    }

    // How many pairs there are once the key has a value.
    fn len_with(&self, key: &K) -> Result<u64, AllocError>
        ensures len { IfOk result (λ n. n
            ≡ length self.now + (if is_some (lookup (is_at (K.cmp key.now)) self.now) then 0 else 1)) }
        ensures ordered { IsOrdered K.cmp self.now }
    {
        match self.get(key) {
            Some(_) => Ok(self.len),
            None => Ok(self.len.checked_add(1).ok_or(AllocError)?),
        }
    }

    fn root_with(&self, alloc: Global, key: K, value: Arc<V>) -> Result<Root<K, V>, AllocError>
        ensures { IfOk result (λ r. r ≡ insert_entry K.cmp self.now key (arc_value value)) }
    {
        match &self.root {
            Some(root) => root.with(alloc, key, value),
            None => Root::of(alloc, key, value),
        }
    }

    /// The map without the key: an equal map, where it has no such key.
    pub fn without(&self, alloc: Global, key: &K) -> Result<Paged<K, V>, AllocError>
        ensures { IfOk result (λ m. m ≡ remove_entry (is_at (K.cmp key.now)) self.now) }
    {
        match self.get(key) {
            None => self.share(),
            Some(_) => self.without_found(alloc, key),
        }
    }

    /// `with_shared`, in the map itself: pages, blocks and shelves that no other map shares are
    /// changed in place, and the others copied. After an `Err` the map is as it was.
    pub fn put(&mut self, alloc: Global, key: K, value: Arc<V>) -> Result<(), AllocError>
        ensures ok { OnOk result (self.new ≡ insert_entry K.cmp self.old key (arc_value value)) }
        ensures err { OnErr result (self.new ≡ self.old) }
    {
        if let Put::Refused = self.put_here(alloc, key, &value)? {
            *self = self.with_shared(alloc, key, value)?;
        }
        Ok(())
    }

    // `with_shared` in place, where the root list is not shared and the parts have room.
    fn put_here(&mut self, alloc: Global, key: K, value: &Arc<V>) -> Result<Put, AllocError>
        ensures put { IfOk result (IsPut K.cmp (λ m. m) self.old self.new key (arc_value value.now)) }
        ensures err { OnErr result (self.new ≡ self.old) }
    {
        if self.len == u64::MAX {
            return Ok(Put::Refused);
        }
        let put = put_in_root(&mut self.root, alloc, key, value)?;
        if let Put::Added = put {
            self.len += 1;
        }
        Ok(put)
    }

    /// `without`, in the map itself: pages, blocks and shelves that no other map shares are changed
    /// in place, and the others copied. After an `Err` the map is as it was.
    pub fn take(&mut self, alloc: Global, key: &K) -> Result<(), AllocError>
        ensures ok { OnOk result (self.new ≡ remove_entry (is_at (K.cmp key.now)) self.old) }
        ensures err { OnErr result (self.new ≡ self.old) }
    {
        if let Taken::Kept = self.take_here(alloc, key)? {
            *self = self.without(alloc, key)?;
        }
        Ok(())
    }

    // `without` in place, where the root list is not shared and no part becomes thin.
    fn take_here(&mut self, alloc: Global, key: &K) -> Result<Taken, AllocError>
        ensures taken { IfOk result (IsTaken K.cmp (λ m. m) self.old self.new key.now) }
        ensures err { OnErr result (self.new ≡ self.old) }
    {
        let taken = take_from_root(&mut self.root, alloc, key)?;
        if let Taken::Removed = taken {
            self.len -= 1;
        }
        Ok(taken)
    }

    fn without_found(&self, alloc: Global, key: &K) -> Result<Paged<K, V>, AllocError>
        requires { IsSome (lookup (is_at (K.cmp key.now)) self.now) }
        ensures { IfOk result (λ m. m ≡ remove_entry (is_at (K.cmp key.now)) self.now) }
    {
        match self.root_without(alloc, key)? {
            Some(rest) => Ok(Paged {
                root: Some(Arc::new(alloc, rest)?),
                len: self.len - 1,
            }),
            None => Ok(Paged::new()),
        }
    }

    fn root_without(&self, alloc: Global, key: &K) -> Result<Option<Root<K, V>>, AllocError>
        ensures { IfOk result (λ r. left (λ m. m) r ≡ remove_entry (is_at (K.cmp key.now)) self.now) }
    {
        match &self.root {
            Some(root) => root.without(alloc, key),
            None => Ok(None),
        }
    }

    /// An equal map, which shares all pages.
    pub fn share(&self) -> Result<Paged<K, V>, AllocError>
        ensures { IfOk result (λ m. m ≡ self.now) }
    {
        let root = match &self.root {
            Some(root) => Some(Arc::try_clone(root)?),
            None => None,
        };
        Ok(Paged {
            root,
            len: self.len,
        })
    }
}

fn put_in_root<K: Ord + Copy, V: Drop>(
    root: &mut Option<Arc<Root<K, V>>>,
    alloc: Global,
    key: K,
    value: &Arc<V>,
) -> Result<Put, AllocError>
    ensures put { IfOk result
        (IsPut K.cmp (λ m. m) (all_of root.old) (all_of root.new) key (arc_value value.now)) }
    ensures err { OnErr result (all_of root.new ≡ all_of root.old) }
{
    let Some(root) = root else {
        return Ok(Put::Refused);
    };
    match Arc::get_mut(root) {
        Some(root) => root.put(alloc, key, value),
        None => Ok(Put::Refused),
    }
}

fn take_from_root<K: Ord + Copy, V: Drop>(
    root: &mut Option<Arc<Root<K, V>>>,
    alloc: Global,
    key: &K,
) -> Result<Taken, AllocError>
    ensures taken { IfOk result (IsTaken K.cmp (λ m. m) (all_of root.old) (all_of root.new) key.now) }
    ensures err { OnErr result (all_of root.new ≡ all_of root.old) }
{
    let Some(root) = root else {
        return Ok(Taken::Absent);
    };
    match Arc::get_mut(root) {
        Some(root) => root.take(alloc, key),
        None => Ok(Taken::Kept),
    }
}
