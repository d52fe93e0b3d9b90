//! What replies are printed as.
ghost use Rattle.std.specs.Prelude.{◌≡◌, IfOk};
ghost use Rattle.un_feed.specs.Differences.{changes_shown};
ghost use Rattle.un_serve.specs.Printing.{changes_between, changes_page, past_page, refusal_status, reply_page, reply_status};
ghost use Rattle.un_serve.specs.Touching.{IsTouched};

use std::alloc::{AllocError, Global};
use un_ask::{ChangesQuery, Refusal, Reply};
use un_core::Net;
use un_exchange::{Page, Status};
use un_feed::{Changes, diff};
use un_feed_json::print_changes;
use un_geom::Rect;
use un_replies::{print_past, print_reply};
use un_turns::Span;

// The status of a refusal.
fn refusal_status(refusal: &Refusal) -> Status
    ensures { result ≡ refusal_status refusal.now }
{
    match refusal {
        Refusal::NotJson | Refusal::BadRequest { .. } => Status::BadRequest,
        Refusal::Ahead { .. } | Refusal::NotYet { .. } => Status::Conflict,
        _ => Status::Unprocessable,
    }
}

/// The status of a reply.
pub(crate) fn reply_status(reply: &Reply) -> Status
    ensures { result ≡ reply_status reply.now }
{
    match reply {
        Reply::Refused { refusal, .. } => refusal_status(refusal),
        _ => Status::Ok,
    }
}

/// A reply as a page.
pub(crate) fn reply_page(alloc: Global, reply: &Reply) -> Result<Page, AllocError>
    ensures { IfOk result (λ page. page ≡ reply_page reply.now) }
{
    let mut body = Vec::new(alloc);
    print_reply(alloc, reply, &mut body)?;
    Ok(Page::new(reply_status(reply), body))
}

/// An answer at a past version, whatever its own status, in a response at a version.
pub(crate) fn past_page(alloc: Global, version: u64, answer: &Page) -> Result<Page, AllocError>
    ensures { IfOk result (λ page. page ≡ past_page version answer.now) }
{
    let mut body = Vec::new(alloc);
    print_past(answer.body(), version, &mut body)?;
    Ok(Page::new(Status::Ok, body))
}

// The differences of what two networks keep, of which the first leads to the second by entries that made these rectangles dirty.
#[tactic(auto, using(crate::proofs::Comparing::has_differences, crate::proofs::Comparing::page_made))]
fn changes_between(
    alloc: Global,
    span: Span,
    old: &Net,
    new: &Net,
    touched: &[Rect],
    query: &ChangesQuery,
) -> Result<Changes, AllocError>
    requires { IsTouched old.now new.now touched.now }
    ensures { IfOk result (λ changes. changes_shown changes
        ≡ changes_between span old.now.kept new.now.kept query.now) }
{
    let among = new.changed_points(alloc, old, touched)?;
    let (older, newer) = (old.kept().map(), new.kept().map());
    let most = query.most as usize;
    let page = diff(alloc, older, newer, &among, query.after, most)?;
    Ok(Changes {
        page,
        after: query.after,
        since: span.since,
        upto: span.upto,
        version: span.version,
    })
}

/// A page of the differences of what two networks keep, of which the first leads to the second by entries that made these rectangles
/// dirty.
pub(crate) fn changes_page(
    alloc: Global,
    span: Span,
    old: &Net,
    new: &Net,
    touched: &[Rect],
    query: &ChangesQuery,
) -> Result<Page, AllocError>
    requires { IsTouched old.now new.now touched.now }
    ensures { IfOk result (λ page. page
        ≡ changes_page new.now.setup span old.now.kept new.now.kept query.now) }
{
    let changes = changes_between(alloc, span, old, new, touched, query)?;
    let mut body = Vec::new(alloc);
    print_changes(alloc, new.schema(), new.tiers(), &changes, &mut body)?;
    Ok(Page::new(Status::Ok, body))
}
