// What is done in a row of parts by the one part that may have the key.
ghost use Rattle.std.specs.Prelude.{◌≡◌, ◌<◌, ◌≤◌, ◌+◌, ◌++◌, length, slice_get, Some, IfOk, OnErr, take, drop, suc};
ghost use Rattle.std.specs.Arc.{arc_value};
ghost use Rattle.std.specs.Map.{lookup, remove_entry};
ghost use Rattle.std.specs.BTreeMap.{is_at, insert_entry};
ghost use Rattle.un_pages.specs.Pairs.{spread, held, pair_held, value_held, past, from_on, flat, IsOrdered, IsGrown, IsSeated, IsChanged, IsBranch, HasFirstKeys};
ghost use Rattle.un_pages.specs.Changes.{IsPut, IsTaken, IsKept};

use crate::level::{LEAST_FILL, Level, Put, ROOM, Taken};
use crate::row::{Row, Tail};
use std::alloc::{AllocError, Global};
use std::ops::Bound;
use std::sync::Arc;

pub(crate) fn get<'a, K: Ord + Copy, V, T: Level<K, V>>(
    row: &'a Row<K, T>,
    key: &K,
) -> Option<&'a Arc<V>>
    requires { IsGrown K.cmp T.pairs row.now }
    ensures { value_held result ≡ lookup (is_at (K.cmp key.now)) (flat T.pairs row.now) }
{
    let (_, part) = row.entry(row.place(key));
    part.get(key)
}

pub(crate) fn first<K: Ord + Copy, V, T: Level<K, V>>(row: &Row<K, T>) -> (K, &Arc<V>)
    requires { IsGrown K.cmp T.pairs row.now }
    ensures { slice_get (flat T.pairs row.now) 0 ≡ Some (pair_held result) }
{
    let (_, part) = row.entry(0);
    part.first()
}

/// The first entry past a key, in the part that has the key's place or in the next one.
pub(crate) fn next<'a, K: Ord + Copy, V, T: Level<K, V>>(
    row: &'a Row<K, T>,
    after: &K,
) -> Option<(K, &'a Arc<V>)>
    requires { IsGrown K.cmp T.pairs row.now }
    ensures { held result ≡ slice_get (past K.cmp (Some after.now) (flat T.pairs row.now)) 0 }
{
    let at = row.place(after);
    let (_, part) = row.entry(at);
    match part.next(after) {
        Some(pair) => Some(pair),
        None => first_beyond(row, at),
    }
}

// The first pair of the parts after a place.
fn first_beyond<K: Ord + Copy, V, T: Level<K, V>>(
    row: &Row<K, T>,
    at: usize,
) -> Option<(K, &Arc<V>)>
    requires within { at < length row.now }
    requires leads { HasFirstKeys T.pairs row.now }
    ensures { held result ≡ slice_get (flat T.pairs (drop (suc at) row.now)) 0 }
{
    let len = row.len();
    if at + 1 == len {
        return None;
    }
    let (_, part) = row.entry(at + 1);
    Some(part.first())
}

// The first part that may have a key from the bound on, and the parts after it.
pub(crate) fn open<'a, K: Ord + Copy, V, T: Level<K, V>>(
    row: &'a Row<K, T>,
    bound: &Bound<K>,
) -> (&'a T, Tail<'a, K, T>)
    requires { IsGrown K.cmp T.pairs row.now }
    ensures { from_on K.cmp bound.now (flat T.pairs row.now)
        ≡ from_on K.cmp bound.now (T.pairs result.0.now) ++ flat T.pairs result.1 }
{
    let at = row.start(bound);
    // For the proof alone.
    let _len = row.len();
    let (_, part) = row.entry(at);
    (part, row.tail(at + 1))
}

// A part, as a row.
pub(crate) fn alone<K: Ord + Copy, V, T: Level<K, V>>(
    alloc: Global,
    part: T,
) -> Result<Row<K, T>, AllocError>
    ensures seated { IfOk result (IsSeated T.pairs (T.pairs part)) }
    ensures single { IfOk result (λ r. length r ≡ 1) }
{
    let key = part.first().0;
    let row = Row::one(alloc, key, Arc::new(alloc, part)?)?;
    Ok(row)
}

// One part or two, as a row.
fn seated<K: Ord + Copy, V, T: Level<K, V>>(
    alloc: Global,
    parts: (T, Option<T>),
) -> Result<Row<K, T>, AllocError>
    ensures { IfOk result (IsSeated T.pairs (spread T.pairs parts)) }
{
    let (low, more) = parts;
    let key = low.first().0;
    let mut row = Row::one(alloc, key, Arc::new(alloc, low)?)?;
    if let Some(high) = more {
        let key = high.first().0;
        row.push(key, Arc::new(alloc, high)?)?;
    }
    Ok(row)
}

/// The row with the value at the key: one part is made anew, and the others are shared.
pub(crate) fn with<K: Ord + Copy, V, T: Level<K, V>>(
    row: &Row<K, T>,
    alloc: Global,
    key: K,
    value: Arc<V>,
) -> Result<Row<K, T>, AllocError>
    requires { IsGrown K.cmp T.pairs row.now }
    ensures pairs { IfOk result (λ r. flat T.pairs r
        ≡ insert_entry K.cmp (flat T.pairs row.now) key (arc_value value)) }
    ensures grown { IfOk result (IsGrown K.cmp T.pairs) }
    ensures bound { IfOk result (λ r. length r ≤ length row.now + 1) }
{
    let at = row.place(&key);
    let (_, part) = row.entry(at);
    let new = seated::<K, V, T>(alloc, part.with(alloc, key, value)?)?;
    row.spliced(alloc, at, 1, new)
}

// `with`, in the parts themselves.
pub(crate) fn put_in<K: Ord + Copy, V, T: Level<K, V>>(
    row: &mut Row<K, T>,
    alloc: Global,
    key: K,
    value: &Arc<V>,
) -> Result<Put, AllocError>
    requires { IsGrown K.cmp T.pairs row.old }
    ensures put { IfOk result (IsPut K.cmp (flat T.pairs) row.old row.new key (arc_value value.now)) }
    ensures kept { IsKept K.cmp T.pairs row.old row.new }
    ensures err { OnErr result (row.new ≡ row.old) }
{
    let at = row.place(&key);
    row.put_at(at, alloc, key, value)
}

// `with`, in the parts themselves, or by a copy of those on the way.
pub(crate) fn put<K: Ord + Copy, V, T: Level<K, V>>(
    row: &mut Row<K, T>,
    alloc: Global,
    key: K,
    value: &Arc<V>,
) -> Result<Put, AllocError>
    requires { IsBranch K.cmp T.pairs row.old }
    ensures put { IfOk result (IsPut K.cmp (flat T.pairs) row.old row.new key (arc_value value.now)) }
    ensures kept { IsBranch K.cmp T.pairs row.new }
    ensures err { OnErr result (row.new ≡ row.old) }
{
    match put_in(row, alloc, key, value)? {
        Put::Refused if row.len() < ROOM => {
            let put = match get(row, &key) {
                Some(_) => Put::Replaced,
                None => Put::Added,
            };
            *row = with(row, alloc, key, Arc::try_clone(value)?)?;
            Ok(put)
        }
        put => Ok(put),
    }
}

// `without`, in the parts themselves.
pub(crate) fn take_in<K: Ord + Copy, V, T: Level<K, V>>(
    row: &mut Row<K, T>,
    alloc: Global,
    key: &K,
) -> Result<Taken, AllocError>
    requires { IsGrown K.cmp T.pairs row.old }
    ensures taken { IfOk result (IsTaken K.cmp (flat T.pairs) row.old row.new key.now) }
    ensures kept { IsKept K.cmp T.pairs row.old row.new }
    ensures err { OnErr result (row.new ≡ row.old) }
{
    let at = row.place(key);
    row.take_at(at, alloc, key)
}

// `without`, in the parts themselves, or by a copy of those on the way.
pub(crate) fn take<K: Ord + Copy, V, T: Level<K, V>>(
    row: &mut Row<K, T>,
    alloc: Global,
    key: &K,
) -> Result<Taken, AllocError>
    requires { IsBranch K.cmp T.pairs row.old }
    ensures taken { IfOk result (IsTaken K.cmp (flat T.pairs) row.old row.new key.now) }
    ensures kept { IsBranch K.cmp T.pairs row.new }
    ensures err { OnErr result (row.new ≡ row.old) }
{
    match take_in(row, alloc, key)? {
        Taken::Kept if row.len() > LEAST_FILL => match get(row, key) {
            None => Ok(Taken::Absent),
            Some(_) => {
                *row = without::<K, V, T>(row, alloc, key)?;
                Ok(Taken::Removed)
            }
        },
        taken => Ok(taken),
    }
}

/// The row without the key: one part is made anew, and the others are shared.
pub(crate) fn without<K: Ord + Copy, V, T: Level<K, V>>(
    row: &Row<K, T>,
    alloc: Global,
    key: &K,
) -> Result<Row<K, T>, AllocError>
    requires { IsGrown K.cmp T.pairs row.now }
    ensures pairs { IfOk result (λ r. flat T.pairs r
        ≡ remove_entry (is_at (K.cmp key.now)) (flat T.pairs row.now)) }
    ensures changed { IfOk result (IsChanged K.cmp T.pairs (length row.now)) }
{
    let at = row.place(key);
    let (_, part) = row.entry(at);
    match part.without(alloc, key)? {
        None => row.spliced(alloc, at, 1, Row::empty(alloc)),
        Some(rest) => replaced::<K, V, T>(row, alloc, at, rest),
    }
}

// The row with `rest` as the part at a place, joined with a neighbour where it has become thin.
fn replaced<K: Ord + Copy, V, T: Level<K, V>>(
    row: &Row<K, T>,
    alloc: Global,
    at: usize,
    rest: T,
) -> Result<Row<K, T>, AllocError>
    requires within { at < length row.now }
    requires leads { HasFirstKeys T.pairs row.now }
    requires ordered { IsOrdered K.cmp (flat T.pairs (take at row.now)
        ++ (T.pairs rest ++ flat T.pairs (drop (suc at) row.now))) }
    ensures pairs { IfOk result (λ r. flat T.pairs r
        ≡ flat T.pairs (take at row.now) ++ (T.pairs rest ++ flat T.pairs (drop (suc at) row.now))) }
    ensures leads { IfOk result (HasFirstKeys T.pairs) }
    ensures bound { IfOk result (λ r. length r ≤ length row.now) }
{
    let thin = rest.size() < LEAST_FILL;
    let len = row.len();
    if thin && at + 1 < len {
        let (_, high) = row.entry(at + 1);
        let new = seated::<K, V, T>(alloc, T::joined(alloc, &rest, high)?)?;
        return row.spliced(alloc, at, 2, new);
    }
    if thin && at > 0 {
        let (_, low) = row.entry(at - 1);
        let new = seated::<K, V, T>(alloc, T::joined(alloc, low, &rest)?)?;
        return row.spliced(alloc, at - 1, 2, new);
    }
    let new = alone::<K, V, T>(alloc, rest)?;
    row.spliced(alloc, at, 1, new)
}
