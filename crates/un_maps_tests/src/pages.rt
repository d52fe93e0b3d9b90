//! Long maps: many versions kept at a time, and changes in place beside a map that shares the pages.

use std::alloc::{AllocError, Global};
use std::sync::Arc;
use std::test::Fail;
use un_pages::Paged;

type Numbers = Paged<u64, u64>;

// Spreads the numbers over all keys, each to a key of its own.
fn scattered(k: u64) -> u64 {
    k.wrapping_mul(0x9e37_79b9_7f4a_7c15)
}

// The map after each of so many numbers.
fn growing(alloc: Global, count: u64) -> Result<Vec<Numbers>, AllocError> {
    let mut versions = Vec::new(alloc);
    let mut newest = Paged::new();
    for k in 0..count {
        newest = newest.with(alloc, scattered(k), k)?;
        versions.push(newest.share()?)?;
    }
    Ok(versions)
}

// How many versions there are up to the first that has not one pair more than the one before it.
fn counted(versions: &[Numbers]) -> u64 {
    let mut count = 0u64;
    for version in versions {
        if version.len() != count.wrapping_add(1) {
            return count;
        }
        count = count.wrapping_add(1);
    }
    count
}

#[test]
fn keeps_sixty_thousand_versions(rt: HostRuntime) -> Result<(), Fail> {
    let versions = growing(rt.alloc(), 60_000)?;
    assert_eq!(rt; counted(&versions), 60_000);
    Ok(())
}

// Gives each of the first 20,000 numbers the value that is so much greater.
fn put_all(alloc: Global, map: &mut Numbers, more: u64) -> Result<(), AllocError> {
    for k in 0..20_000u64 {
        let value = Arc::new(alloc, k.wrapping_add(more))?;
        map.put(alloc, scattered(k), value)?;
    }
    Ok(())
}

// Takes all but the last ten of them.
fn take_most(alloc: Global, map: &mut Numbers) -> Result<(), AllocError> {
    for k in 0..19_990u64 {
        map.take(alloc, &scattered(k))?;
    }
    Ok(())
}

// How many of them have the value that is so much greater.
fn count_with(map: &Numbers, more: u64) -> u64 {
    let mut count = 0u64;
    for k in 0..20_000u64 {
        if map.get(&scattered(k)).copied() == Some(k.wrapping_add(more)) {
            count = count.wrapping_add(1);
        }
    }
    count
}

// Needs what may be seen from several threads: maps may, where their keys and values may.
fn needs_sync<T: Send + Sync>(_shared: &T) {}

fn map_is_sync<K: Ord + Copy + Send + Sync, V: Drop + Send + Sync>(map: &Paged<K, V>) {
    needs_sync(map);
}

#[test]
fn changes_in_place_leave_a_shared_map(rt: HostRuntime) -> Result<(), Fail> {
    let mut map = Paged::new();
    put_all(rt.alloc(), &mut map, 0)?;
    map_is_sync(&map);
    let old = map.share()?;
    put_all(rt.alloc(), &mut map, 1)?;
    take_most(rt.alloc(), &mut map)?;
    assert_eq!(rt; count_with(&map, 1), 10);
    assert_eq!(rt; count_with(&old, 0), 20_000);
    Ok(())
}
