//! A follower's copy of a kept topology.
//!
//! The copy is brought up to date by pages of differences. The pages of one span lead from the version of the copy to a later version. All
//! but the last of them are staged: they are applied to a topology beside the copy, which shares its pages with it. The last page changes
//! the copy and its version. So the copy never shows a part of a span.

ghost use Rattle.std.specs.Prelude.{◌≡◌, length, OnOk, OnErr, true};
ghost use Rattle.std.specs.Option.{option_copied};
ghost use Rattle.un_geom.specs.Places.{point_cmp};
ghost use Rattle.un_pages.specs.Pairs.{IsOrdered};
ghost use Rattle.un_points.specs.PointMaps.{value_at};
ghost use Rattle.un_feed.specs.Differences.{shown, changes_shown};
ghost use Rattle.un_feed.specs.Follows.{nothing_copied, same_places, last_staged, goes_on, place_of, fits, staged_or, last_place, taken};

use crate::changes::{Changes, Page};
use crate::putting::put_in;
use std::alloc::{AllocError, Global};
use std::marker::Model;
use un_defs::Star;
use un_geom::Point;
use un_pages::Paged;

// The pages of a span that have come so far.
#[derive(Drop)]
struct Stage {
    kept: Paged<Point, Star>,
    upto: u64,
    last: Option<Point>,
}

impl Model for Stage {
    ghost use Rattle.un_feed.specs.Follows.{Staged};

    ghost Value = { Staged };

    ghost view = { λ s. record { kept = s.kept; upto = s.upto; last = s.last } };
}

/// A copy of a kept topology with its version.
#[derive(Drop)]
pub struct Follower {
    kept: Paged<Point, Star>,
    version: u64,
    staged: Option<Stage>,
}

impl Model for Follower {
    ghost use Rattle.un_feed.specs.Follows.{Copied};

    ghost Value = { Copied };

    ghost view = { λ f. record { kept = f.kept; version = f.version; staged = f.staged } };
}

impl Follower {
    /// A copy of the empty topology at version 0. It takes no memory.
    pub fn new() -> Follower
        ensures { result ≡ nothing_copied }
    {
        Follower {
            kept: Paged::new(),
            version: 0,
            staged: None,
        }
    }

    /// At how many points the copy has a star.
    pub fn points(&self) -> u64
        ensures points { result ≡ length self.now.kept }
        ensures ordered { IsOrdered point_cmp self.now.kept }
    {
        self.kept.len()
    }

    /// The version of the topology that the copy shows.
    pub fn version(&self) -> u64
        ensures { result ≡ self.now.version }
    {
        self.version
    }

    /// The star that the copy has at the point.
    pub fn star(&self, at: Point) -> Option<&Star>
        ensures { option_copied result ≡ value_at at self.now.kept }
    {
        self.kept.get(&at)
    }

    /// The point after which the next page has to begin, or `None` where the next page is the first of a span.
    pub fn place(&self) -> Option<Point>
        ensures { result ≡ place_of self.now }
    {
        last_staged(&self.staged)
    }

    /// Whether the page can be taken: it begins at the version of the copy, and where pages are staged, it goes up to the same version as
    /// they do and begins after the last of their points.
    pub fn fits(&self, page: &Changes) -> bool
        ensures { result ≡ fits self.now (changes_shown page.now) }
    {
        page.since == self.version && goes_on(&self.staged, page)
    }

    /// Takes a page that fits. A page that says that there are more is staged. The last page of a span changes the copy, together with what
    /// was staged. The only error is want of memory, and after it the copy is as it was.
    pub fn take(&mut self, alloc: Global, page: &Changes) -> Result<(), AllocError>
        requires { fits self.old (changes_shown page.now) ≡ true }
        ensures ok { OnOk result (self.new ≡ taken self.old (changes_shown page.now)) }
        ensures err { OnErr result (self.new ≡ self.old) }
    {
        let kept = put_in(alloc, base(&self.kept, &self.staged), &page.page)?;
        if page.page.more {
            self.staged = Some(Stage {
                kept,
                upto: page.upto,
                last: last_place(page.after, &page.page),
            });
        } else {
            self.kept = kept;
            self.version = page.upto;
            self.staged = None;
        }
        Ok(())
    }
}

fn last_staged(staged: &Option<Stage>) -> Option<Point>
    ensures { result ≡ last_staged staged.now }
{
    match staged {
        Some(staged) => staged.last,
        None => None,
    }
}

fn goes_on(staged: &Option<Stage>, page: &Changes) -> bool
    ensures { result ≡ goes_on staged.now (changes_shown page.now) }
{
    match staged {
        Some(staged) => page.upto == staged.upto && is_same_place(page.after, staged.last),
        None => page.after.is_none(),
    }
}

fn is_same_place(one: Option<Point>, other: Option<Point>) -> bool
    ensures { result ≡ same_places one other }
{
    match (one, other) {
        (None, None) => true,
        (Some(one), Some(other)) => one == other,
        _ => false,
    }
}

fn base<'a>(kept: &'a Paged<Point, Star>, staged: &'a Option<Stage>) -> &'a Paged<Point, Star>
    ensures { result.now ≡ staged_or kept.now staged.now }
{
    match staged {
        Some(staged) => &staged.kept,
        None => kept,
    }
}

// The point of the last pair, or the point after which the page begins.
fn last_place(after: Option<Point>, page: &Page) -> Option<Point>
    ensures { result ≡ last_place after (shown page.now).pairs }
{
    match page.pairs.as_slice().last() {
        Some(change) => Some(change.at),
        None => after,
    }
}
