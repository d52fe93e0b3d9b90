ghost use Rattle.std.specs.Prelude.{◌≡◌, ◌<◌, ◌≤◌, ◌∷◌, Some, map, length, slice_get, slice_index, slice_range, IfOk};
ghost use Rattle.un_terms.specs.Config.{pair_of, has_pair, is_terminal, is_pair, is_path, bad_path, paths_of, AreEnds};

use std::alloc::{AllocError, Global};

/// Whether the path has this pair.
pub(crate) fn has_pair(path: &[[u8; 2]], a: u8, b: u8) -> bool
    ensures { result ≡ has_pair (map pair_of path.now) a b }
{
    path.iter()
        .map(|pair| (pair[0], pair[1]))
        .any(|pair| pair.0 == a && pair.1 == b)
}

fn is_terminal(terminals: u8, t: u8) -> bool
    ensures { result ≡ is_terminal terminals t }
{
    1 <= t && t <= terminals
}

fn is_pair(directional: bool, terminals: u8, a: u8, b: u8) -> bool
    ensures { result ≡ is_pair directional terminals (a, b) }
{
    is_terminal(terminals, a) && is_terminal(terminals, b) && a != b && (directional || a < b)
}

fn between(pairs: &[[u8; 2]], from: usize, end: usize) -> &[[u8; 2]]
    requires rising { from ≤ end }
    requires within { end ≤ length pairs.now }
    ensures { result.now ≡ slice_range pairs.now from end }
{
    &pairs[from..end]
}

// It stops at the first pair that is none, or that stands before: so at the 57th at the latest, as 8 terminals have 56 pairs.
fn is_path(directional: bool, terminals: u8, path: &[[u8; 2]]) -> bool
    ensures { result ≡ is_path directional terminals (map pair_of path.now) }
{
    for i in 0..path.len() {
        let a = path[i][0];
        let b = path[i][1];
        if !is_pair(directional, terminals, a, b) || has_pair(&path[..i], a, b) {
            return false;
        }
    }
    true
}

/// The first path that has a bad pair.
pub(crate) fn first_bad(
    directional: bool,
    terminals: u8,
    pairs: &[[u8; 2]],
    ends: &[usize],
) -> Option<usize>
    requires { AreEnds 0 (length pairs.now) ends.now }
    ensures { result ≡ bad_path directional terminals (paths_of 0 pairs.now ends.now) }
{
    let mut from = 0;
    for i in 0..ends.len() {
        let end = ends[i];
        if !is_path(directional, terminals, between(pairs, from, end)) {
            return Some(i);
        }
        from = end;
    }
    None
}

fn start(ends: &[usize], path: usize) -> usize
    requires { path < length ends.now }
    ensures { result ≡ slice_index (0 ∷ ends.now) path }
{
    if path == 0 { 0 } else { ends[path - 1] }
}

/// The pairs of the path with this number.
pub(crate) fn part<'a>(pairs: &'a [[u8; 2]], ends: &[usize], path: usize) -> &'a [[u8; 2]]
    requires ends { AreEnds 0 (length pairs.now) ends.now }
    requires path { path < length ends.now }
    ensures { slice_get (paths_of 0 pairs.now ends.now) path ≡ Some (map pair_of result.now) }
{
    let from = start(ends, path);
    let end = ends[path];
    between(pairs, from, end)
}

/// The same pairs in memory of their own.
pub(crate) fn own_pairs(alloc: Global, pairs: &[[u8; 2]]) -> Result<Vec<[u8; 2]>, AllocError>
    ensures { IfOk result (λ own. own.items ≡ pairs.now) }
{
    let mut own = Vec::with_capacity(alloc, pairs.len())?;
    for pair in pairs {
        own.push(*pair)?;
    }
    Ok(own)
}

/// The same places in memory of their own.
pub(crate) fn own_ends(alloc: Global, ends: &[usize]) -> Result<Vec<usize>, AllocError>
    ensures { IfOk result (λ own. own.items ≡ ends.now) }
{
    ends.to_vec(alloc)
}
