//! The pairs of a map from a key on, one after another.
//!
//! The place of the first pair is sought once, down the levels. On the way each level notes which of
//! its parts come after the part that was entered. So all that is left to give is the rest of one page,
//! then the pages after it in its block, then the blocks after that in its shelf, then the shelves after
//! that. A pair is mostly the next one of the page; where a page is used up, the next page is entered,
//! and where a block or a shelf is used up, the one after it. No part is empty, so each part that is
//! entered has a pair.
ghost use Rattle.std.specs.Prelude.{◌≡◌, ◌++◌, [], MatchOption};
ghost use Rattle.std.specs.Iterator.{item_count};
ghost use Rattle.std.specs.Map.Iter.{TakesFirst};
ghost use Rattle.un_pages.specs.Pairs.{flat, pair_held};

use crate::branch::{Block, Branch, Shelf};
use crate::level::Level;
use crate::page::Page;
use crate::root::Root;
use crate::row::Tail;
use std::marker::Model;
use std::sync::Arc;

// The parts that come after a place: the rest of one branch, and the branches after it.
#[derive(Drop)]
pub(crate) struct Under<'a, K: Ord + Copy, V, T: Level<K, V>> {
    here: Tail<'a, K, T>,
    above: Tail<'a, K, Branch<K, V, T>>,
}

impl<'a, K: Ord + Copy, V, T: Level<K, V>> Model for Under<'a, K, V, T> {
    ghost use Rattle.std.specs.Prelude.{List, ◌++◌};
    ghost use Rattle.un_pages.specs.Pairs.{flat};

    ghost Value = { List (K × V) };

    ghost view = { λ u. flat T.pairs u.here ++ flat (λ b. b) u.above };
}

impl<'a, K: Ord + Copy, V, T: Level<K, V>> Under<'a, K, V, T> {
    pub(crate) fn new(
        here: Tail<'a, K, T>,
        above: Tail<'a, K, Branch<K, V, T>>,
    ) -> Under<'a, K, V, T>
        ensures { result ≡ flat T.pairs here.entry ++ flat (λ b. b) above.entry }
    {
        Under { here, above }
    }

    // The next part.
    fn next(&mut self) -> Option<&'a T>
        ensures { MatchOption result ((self.old ≡ [])
            × (self.new ≡ [])) (λ t. self.old ≡ T.pairs t.now ++ self.new) }
    {
        if let Some((_, part)) = self.here.next() {
            return Some(part);
        }
        let (_, branch) = self.above.next()?;
        self.here = branch.parts();
        let (_, part) = self.here.next()?;
        Some(part)
    }
}

/// The pairs of a map from a key on that are still to come, in the order of their keys.
#[derive(Drop)]
pub struct Range<'a, K: Ord + Copy, V: Drop> {
    entries: Tail<'a, K, V>,
    pages: Tail<'a, K, Page<K, V>>,
    blocks: Under<'a, K, V, Block<K, V>>,
}

impl<'a, K: Ord + Copy, V: Drop> Model for Range<'a, K, V> {
    ghost use Rattle.std.specs.Prelude.{List, ◌++◌};
    ghost use Rattle.un_pages.specs.Pairs.{flat};

    ghost Value = { List (K × V) };

    ghost view = { λ r. r.entries ++ (flat (λ p. p) r.pages ++ r.blocks) };
}

impl<'a, K: Ord + Copy, V: Drop> Range<'a, K, V> {
    pub(crate) fn new(
        entries: Tail<'a, K, V>,
        pages: Tail<'a, K, Page<K, V>>,
        blocks: Under<'a, K, V, Block<K, V>>,
    ) -> Range<'a, K, V>
        ensures { result ≡ entries.entry ++ (flat (λ p. p) pages.entry ++ blocks.entry) }
    {
        Range {
            entries,
            pages,
            blocks,
        }
    }

    // No pairs. The parameter says for how long.
    pub(crate) fn empty(_of: &'a Option<Arc<Root<K, V>>>) -> Range<'a, K, V>
        ensures { result ≡ [] }
    {
        Range::new(
            Tail::empty(),
            Tail::empty(),
            Under::new(Tail::empty(), Tail::empty()),
        )
    }
}

// The next page.
fn turn<'a, K: Ord + Copy, V: Drop>(
    pages: &mut Tail<'a, K, Page<K, V>>,
    blocks: &mut Under<'a, K, V, Block<K, V>>,
) -> Option<&'a Page<K, V>>
    ensures { MatchOption result ((flat (λ p. p) pages.old ++ blocks.old ≡ [])
        × (flat (λ p. p) pages.new ++ blocks.new ≡ [])) (λ t. flat (λ p. p) pages.old ++ blocks.old
        ≡ t.now ++ (flat (λ p. p) pages.new ++ blocks.new)) }
{
    if let Some((_, page)) = pages.next() {
        return Some(page);
    }
    let block = blocks.next()?;
    *pages = block.parts();
    let (_, page) = pages.next()?;
    Some(page)
}

impl<'a, K: Ord + Copy, V: Drop> Iterator for Range<'a, K, V> {
    type Item = (K, &'a Arc<V>);

    ghost next_gives = { TakesFirst pair_held };

    ghost remaining = { item_count (λ r. r) };

    fn next(&mut self) -> Option<(K, &'a Arc<V>)> {
        if let Some(pair) = self.entries.next() {
            return Some(pair);
        }
        let page = turn(&mut self.pages, &mut self.blocks)?;
        self.entries = page.entries();
        self.entries.next()
    }
}
