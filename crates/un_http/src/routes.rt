//! Finding the route of a path.
//!
//! The router says which kind of route a path may have; a feature's id and a subnetwork's names are then checked here.
ghost use Rattle.std.specs.Prelude.{◌≡◌, true, ℕ, List, MatchOption, IfOk, false, ◌∷◌, ◌++◌, ◌+◌, ◌<◌, ◌≤◌, ◌==◌, length, take, drop};
ghost use Rattle.std.specs.List.{list_all, position_or_len};
ghost use Rattle.un_http.specs.Head.{number};
ghost use Rattle.un_http.specs.Routes.{route_patterns, IsRoute, Finds, is_name_byte, is_name, is_id, by_get};
ghost use Rattle.un_http.specs.Table.{table};
ghost use Rattle.un_http.specs.Kinds.{kind_at};

use crate::kind::Kind;
use crate::number::{is_number, small_number};
use crate::route::Route;
use matchit::{InsertError, Router};
use std::alloc::{AllocError, Global};
use std::marker::Model;

/// The greatest id of a feature.
const MOST_ID: u64 = 9_007_199_254_740_991;

/// The most bytes of a name.
const MOST_NAME: usize = 32;

/// Where the first name begins in a subnetwork's path.
const FIRST_NAME: usize = b"/subnetworks/".len();

/// The routes of the server, which are the same for all links. Contracts see the patterns of their paths.
#[derive(Drop)]
pub struct Routes {
    router: Router<Kind>,
}

impl Model for Routes {
    ghost use Rattle.std.specs.Prelude.{◌≡◌, ℕ, List};
    ghost use Rattle.un_http.specs.Table.{table, patterns};

    ghost Value = { List (List ℕ) };

    ghost view = { λ r. patterns r.router };

    ghost invariant = { λ r. r.router ≡ table };
}

// The router of all routes.
fn router(alloc: Global) -> Result<Router<Kind>, InsertError>
    ensures { IfOk result (λ router. router ≡ table) }
{
    let mut router = Router::new(alloc);
    router.insert("/commands", Kind::Commands)?;
    router.insert("/queries", Kind::Queries)?;
    router.insert("/version", Kind::Version)?;
    router.insert("/features/{id}", Kind::Feature)?;
    router.insert("/subnetworks/{tier}/{subnet}", Kind::Subnetwork)?;
    Ok(router)
}

impl Routes {
    /// The five routes.
    pub fn new(alloc: Global) -> Result<Routes, AllocError>
        ensures { IfOk result (λ routes. routes ≡ route_patterns) }
    {
        match router(alloc) {
            Ok(router) => Ok(Routes { router }),
            // No two patterns conflict, so only running out of memory can refuse one.
            Err(_) => Err(AllocError),
        }
    }

    /// What a request with this method and this path asks for. A path without a route is `NotFound` for every method.
    pub fn find(&self, method: &[u8], path: &[u8]) -> Route
        ensures { Finds method.now path.now result }
    {
        match self.route_of(path) {
            None => Route::NotFound,
            Some(route) => {
                let allow_get = by_get(route);
                let allowed = if allow_get {
                    b"GET".as_slice()
                } else {
                    b"POST".as_slice()
                };
                if method == allowed {
                    route
                } else {
                    Route::WrongMethod { allow_get }
                }
            }
        }
    }

    // The route of a path.
    fn route_of(&self, path: &[u8]) -> Option<Route>
        ensures { MatchOption result ((route : Route) → ¬ (IsRoute path.now route)) (IsRoute path.now) }
    {
        match self.kind_at(path) {
            None => None,
            Some(Kind::Commands) => Some(Route::Commands),
            Some(Kind::Queries) => Some(Route::Queries),
            Some(Kind::Version) => Some(Route::Version),
            Some(Kind::Feature) => feature(path),
            Some(Kind::Subnetwork) => subnetwork(path),
        }
    }

    // The kind of the route that the router finds for a path.
    fn kind_at(&self, path: &[u8]) -> Option<Kind>
        ensures { result ≡ kind_at path.now }
    {
        let Ok(text) = str::from_utf8(path) else {
            return None;
        };
        match self.router.at(text) {
            Ok(found) => Some(*found.value),
            Err(_) => None,
        }
    }
}

// The id in a text: decimal digits without leading zeros.
fn read_id(text: &[u8]) -> Option<u64>
    ensures { MatchOption result (is_id text.now ≡ false) (λ id. (is_id text.now ≡ true)
        × (id ≡ number text.now)) }
{
    if !is_number(text) || text.starts_with(b"0") {
        return None;
    }
    small_number(text, MOST_ID)
}

// The route of a feature's path.
fn feature(path: &[u8]) -> Option<Route>
    ensures { MatchOption result ((id : ℕ) → ¬ (IsRoute path.now (Route.Feature id))) (IsRoute path.now) }
{
    let text = path.strip_prefix(b"/features/".as_slice())?;
    let id = read_id(text)?;
    Some(Route::Feature { id })
}

// Whether a name may contain the byte.
fn is_name_byte(byte: u8) -> bool
    ensures { result ≡ is_name_byte byte }
{
    matches!(byte, b'A'..=b'Z' | b'a'..=b'z' | b'0'..=b'9' | b'_' | b'.' | b'-')
}

fn are_name_bytes(text: &[u8]) -> bool
    ensures { result ≡ list_all is_name_byte text.now }
{
    text.iter().all(|byte| is_name_byte(*byte))
}

// Whether a text is the name of a tier or of a subnetwork.
fn is_name(text: &[u8]) -> bool
    ensures { result ≡ is_name text.now }
{
    !text.is_empty() && text.len() <= MOST_NAME && are_name_bytes(text)
}

// The index of the first slash, or the length if there is none.
fn slash_at(text: &[u8]) -> usize
    ensures value { result ≡ position_or_len (λ byte. byte == 47) text.now }
    ensures within { result ≤ length text.now }
{
    text.iter().take_while(|byte| **byte != b'/').count()
}

// The index of the slash, if the text is two names with a slash between them.
fn between_names(names: &[u8]) -> Option<usize>
    ensures { MatchOption result ((a b : List ℕ) → names.now ≡ a ++ 47 ∷ b
        → is_name a ≡ true → is_name b ≡ true → ⊥)
        (λ at. (at < length names.now) × (names.now ≡ take at names.now ++ 47 ∷ drop (at + 1) names.now)
        × (is_name (take at names.now) ≡ true) × (is_name (drop (at + 1) names.now) ≡ true)) }
{
    let at = slash_at(names);
    if at == names.len() {
        return None;
    }
    if !is_name(&names[..at]) {
        return None;
    }
    if !is_name(&names[at + 1..]) {
        return None;
    }
    Some(at)
}

// The route of a subnetwork's path.
fn subnetwork(path: &[u8]) -> Option<Route>
    ensures { MatchOption result ((tier subnet : ℕ × ℕ)
        → ¬ (IsRoute path.now (Route.Subnetwork tier subnet))) (IsRoute path.now) }
{
    let names = path.strip_prefix(b"/subnetworks/".as_slice())?;
    let slash = FIRST_NAME + between_names(names)?;
    Some(Route::Subnetwork {
        tier: (FIRST_NAME, slash),
        subnet: (slash + 1, path.len()),
    })
}

// Whether the route takes GET; the others take POST.
fn by_get(route: Route) -> bool
    ensures { result ≡ by_get route }
{
    matches!(
        route,
        Route::Version | Route::Feature { .. } | Route::Subnetwork { .. }
    )
}
