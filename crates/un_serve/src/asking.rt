//! What the requests of HTTP ask of a network.
ghost use Rattle.std.specs.Prelude.{◌≡◌, ◌≢◌, true, IfOk, OnOk};
ghost use Rattle.un_http.specs.Routes.{IsRoute, is_name};
ghost use Rattle.un_http.specs.declared.route.Route.TheVariants.{Subnetwork};
ghost use Rattle.un_json.specs.Requests.{ask};
ghost use Rattle.un_exchange.specs.declared.asked.Asked.TheVariants.{Page as PageOf};
ghost use Rattle.un_exchange.specs.Pages.{http_page};
ghost use Rattle.un_serve.specs.Asking.{Asks, command_asked, fault_asked, find, now_query, past_query, query_asked, subnet_asked};

use crate::printing::reply_page;
use std::alloc::{AllocError, Global};
use un_ask::{Asked as Question, ChangesQuery, Command, Name, PastQuery, Place, Query, Request};
use un_exchange::{Asked, Page, Status};
use un_http::{Route, Routes};
use un_json::{ReadFault, read_request};

/// What is asked of a network, with the least version that may be read for it.
#[derive(Drop)]
pub enum NetQuery {
    /// A question at one state.
    At { seen: u64, query: Query },
    /// A question about the kept topologies of two states. At one state it asks for the version.
    Changes(ChangesQuery),
}

/// What a request asks of a network.
pub(crate) type NetAsked = Asked<Command, NetQuery>;

// A question, which asks for its `seen` at least.
fn now_query(query: Query) -> NetQuery
    ensures { result ≡ now_query query }
{
    NetQuery::At {
        seen: query.seen,
        query,
    }
}

// A question about a past version.
fn past_query(past: PastQuery) -> NetQuery
    ensures { result ≡ past_query past }
{
    NetQuery::At {
        seen: past.seen,
        query: Query {
            seen: 0,
            what: past.what,
        },
    }
}

// A body that is no request.
fn fault_asked(alloc: Global, fault: ReadFault) -> Result<NetAsked, AllocError>
    ensures asked { IfOk result (λ asked. asked ≡ fault_asked fault) }
    ensures fault { OnOk result (fault ≢ ReadFault.Memory) }
{
    let reply = fault.reply()?;
    let page = reply_page(alloc, &reply)?;
    Ok(Asked::Page(page))
}

// The body of `POST /commands`.
fn command_asked(alloc: Global, body: &[u8]) -> Result<NetAsked, AllocError>
    ensures { IfOk result (λ asked. asked ≡ command_asked (ask body.now)) }
{
    match read_request(alloc, body) {
        Ok(Request::Command(command)) => Ok(Asked::Command(command)),
        Ok(Request::Query(_)) => fault_asked(alloc, ReadFault::BadRequest { place: Place::Do }),
        Ok(Request::Past(_)) => fault_asked(alloc, ReadFault::BadRequest { place: Place::Do }),
        Ok(Request::Changes(_)) => fault_asked(alloc, ReadFault::BadRequest { place: Place::Do }),
        Err(fault) => fault_asked(alloc, fault),
    }
}

// The body of `POST /queries`.
fn query_asked(alloc: Global, body: &[u8]) -> Result<NetAsked, AllocError>
    ensures { IfOk result (λ asked. asked ≡ query_asked (ask body.now)) }
{
    match read_request(alloc, body) {
        Ok(Request::Command(_)) => fault_asked(alloc, ReadFault::BadRequest { place: Place::Ask }),
        Ok(Request::Query(query)) => Ok(Asked::Query(now_query(query))),
        Ok(Request::Past(past)) => Ok(Asked::Past {
            at: past.at,
            query: past_query(past),
        }),
        Ok(Request::Changes(changes)) => Ok(Asked::Between {
            since: changes.since,
            upto: changes.upto,
            query: NetQuery::Changes(changes),
        }),
        Err(fault) => fault_asked(alloc, fault),
    }
}

// A page that says its status alone.
fn http_asked(alloc: Global, status: Status) -> Result<NetAsked, AllocError>
    ensures { IfOk result (λ asked. asked ≡ PageOf (http_page status)) }
{
    let body = Vec::from_slice(alloc, status.http_body())?;
    Ok(Asked::Page(Page::new(status, body)))
}

// A query that any version may answer.
fn find(what: Question) -> NetAsked
    ensures { result ≡ find what }
{
    Asked::Query(now_query(Query { seen: 0, what }))
}

// The name in a path.
fn name_in(alloc: Global, text: &[u8]) -> Result<Name, AllocError>
    requires { is_name text.now ≡ true }
    ensures { IfOk result (λ name. name ≡ text.now) }
{
    let Ok(text) = str::from_utf8(text) else {
        unreachable!()
    };
    match Name::new(String::from_str(alloc, text)?) {
        Some(name) => Ok(name),
        None => unreachable!(),
    }
}

// The query of a subnetwork's path.
#[tactic(auto, using(crate::proofs::Names::subnetwork_names))]
fn subnet_asked(
    alloc: Global,
    path: &[u8],
    tier: (usize, usize),
    subnet: (usize, usize),
) -> Result<NetAsked, AllocError>
    requires { IsRoute path.now (Subnetwork tier subnet) }
    ensures { IfOk result (λ asked. asked ≡ subnet_asked path.now tier subnet) }
{
    let tier = name_in(alloc, &path[tier.0..tier.1])?;
    let subnet = name_in(alloc, &path[subnet.0..subnet.1])?;
    Ok(find(Question::Subnet { tier, subnet }))
}

/// What a request asks of a network.
pub(crate) fn read_asked(
    alloc: Global,
    routes: &Routes,
    method: &[u8],
    path: &[u8],
    body: &[u8],
) -> Result<NetAsked, AllocError>
    ensures { IfOk result (Asks method.now path.now body.now) }
{
    match routes.find(method, path) {
        Route::Commands => command_asked(alloc, body),
        Route::Queries => query_asked(alloc, body),
        Route::Version => Ok(find(Question::Version)),
        Route::Feature { id } => Ok(find(Question::Feature { id })),
        Route::Subnetwork { tier, subnet } => subnet_asked(alloc, path, tier, subnet),
        Route::NotFound => http_asked(alloc, Status::NotFound),
        Route::WrongMethod { allow_get } => http_asked(alloc, Status::WrongMethod { allow_get }),
    }
}
