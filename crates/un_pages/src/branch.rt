// A branch: a row of parts, which are pages in a block and blocks in a shelf.
ghost use Rattle.std.specs.Prelude.{◌≡◌, ◌<◌, ◌≤◌, ◌∷◌, ◌++◌, [], length, IfOk};
ghost use Rattle.std.specs.Arc.{arc_value};
ghost use Rattle.std.specs.BTreeMap.{insert_entry};
ghost use Rattle.un_pages.specs.Pairs.{spread, flat, from_on, IsGrown, IsOrdered};

use crate::level::{Level, Put, ROOM, Taken};
use crate::page::Page;
use crate::parts;
use crate::row::{Row, Tail};
use std::alloc::{AllocError, Global};
use std::marker::{Model, PhantomData};
use std::ops::Bound;
use std::sync::Arc;

#[derive(Drop)]
pub(crate) struct Branch<K: Ord + Copy, V, T: Level<K, V>> {
    row: Row<K, T>,
    of: PhantomData<V>,
}

pub(crate) type Block<K, V> = Branch<K, V, Page<K, V>>;

pub(crate) type Shelf<K, V> = Branch<K, V, Block<K, V>>;

impl<K: Ord + Copy, V, T: Level<K, V>> Model for Branch<K, V, T> {
    ghost use Rattle.std.specs.Prelude.{List};
    ghost use Rattle.un_pages.specs.Pairs.{flat, IsBranch};

    ghost Value = { List (K × V) };

    ghost view = { λ b. flat T.pairs b.row };

    ghost invariant = { λ b. IsBranch K.cmp T.pairs b.row };
}

// One branch, or two where there are too many parts for one.
fn packed<K: Ord + Copy, V, T: Level<K, V>>(
    row: Row<K, T>,
) -> Result<(Branch<K, V, T>, Option<Branch<K, V, T>>), AllocError>
    requires grown { IsGrown K.cmp T.pairs row }
    requires bound { length row ≤ 64 }
    ensures { IfOk result (λ r. spread (λ b. b) r ≡ flat T.pairs row) }
{
    let len = row.len();
    if len <= ROOM {
        return Ok((
            Branch {
                row,
                of: PhantomData,
            },
            None,
        ));
    }
    let (low, high) = row.split(len / 2)?;
    let low = Branch {
        row: low,
        of: PhantomData,
    };
    let high = Branch {
        row: high,
        of: PhantomData,
    };
    Ok((low, Some(high)))
}

impl<K: Ord + Copy, V, T: Level<K, V>> Branch<K, V, T> {
    // A branch with one part.
    pub(crate) fn of(alloc: Global, part: T) -> Result<Branch<K, V, T>, AllocError>
        requires { IsOrdered K.cmp (T.pairs part) }
        ensures { IfOk result (λ b. b ≡ T.pairs part) }
    {
        Ok(Branch {
            row: parts::alone::<K, V, T>(alloc, part)?,
            of: PhantomData,
        })
    }

    pub(crate) fn parts(&self) -> Tail<'_, K, T>
        ensures parts { flat T.pairs result ≡ self.now }
        ensures some { 0 < length result }
    {
        self.row.tail(0)
    }

    // The first part that may have a key from the bound on, and the parts after it.
    pub(crate) fn open(&self, bound: &Bound<K>) -> (&T, Tail<'_, K, T>)
        ensures { from_on K.cmp bound.now self.now
            ≡ from_on K.cmp bound.now (T.pairs result.0.now) ++ flat T.pairs result.1 }
    {
        parts::open(&self.row, bound)
    }
}

impl<K: Ord + Copy, V: Drop, T: Level<K, V>> Level<K, V> for Branch<K, V, T> {
    ghost pairs = { λ b. b };

    fn size(&self) -> usize {
        self.row.len()
    }

    fn first(&self) -> (K, &Arc<V>) {
        parts::first(&self.row)
    }

    fn get(&self, key: &K) -> Option<&Arc<V>> {
        parts::get(&self.row, key)
    }

    fn next(&self, after: &K) -> Option<(K, &Arc<V>)> {
        parts::next(&self.row, after)
    }

    fn with(
        &self,
        alloc: Global,
        key: K,
        value: Arc<V>,
    ) -> Result<(Branch<K, V, T>, Option<Branch<K, V, T>>), AllocError>
        ensures { IfOk result (λ r. spread (λ b. b) r ≡ insert_entry K.cmp self.now key (arc_value value)) }
    {
        packed(parts::with(&self.row, alloc, key, value)?)
    }

    fn put(&mut self, alloc: Global, key: K, value: &Arc<V>) -> Result<Put, AllocError> {
        parts::put(&mut self.row, alloc, key, value)
    }

    fn take(&mut self, alloc: Global, key: &K) -> Result<Taken, AllocError> {
        parts::take(&mut self.row, alloc, key)
    }

    fn without(&self, alloc: Global, key: &K) -> Result<Option<Branch<K, V, T>>, AllocError> {
        let row = parts::without::<K, V, T>(&self.row, alloc, key)?;
        if row.len() == 0 {
            return Ok(None);
        }
        Ok(Some(Branch {
            row,
            of: PhantomData,
        }))
    }

    fn joined(
        alloc: Global,
        low: &Branch<K, V, T>,
        high: &Branch<K, V, T>,
    ) -> Result<(Branch<K, V, T>, Option<Branch<K, V, T>>), AllocError> {
        packed(low.row.followed_by(alloc, &high.row)?)
    }
}
