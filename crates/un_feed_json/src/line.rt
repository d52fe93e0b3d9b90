//! What a follower's line says.
ghost use Rattle.std.specs.Prelude.{◌≡◌, ◌≢◌, Ok, Err, IfOk, IfErr, map};
ghost use Rattle.serde_json.specs.View.{view};
ghost use Rattle.un_geom.specs.Places.{point_cmp};
ghost use Rattle.un_pages.specs.Pairs.{is_past};
ghost use Rattle.un_feed.specs.Differences.{change_shown, changes_shown};
ghost use Rattle.un_json.specs.Forms.{list_of};
ghost use Rattle.un_json.specs.Rows.{Blames, required_member};
ghost use Rattle.un_feed_json.specs.Fits.{HaveNames};
ghost use Rattle.un_feed_json.specs.Forms.{change_of};
ghost use Rattle.un_feed_json.specs.Lines.{LineHasNames, line_answer, line_shown, made, object_answer, page_answer, page_row, rises_after, sound_page, star_row, value_answer};

use crate::read::change::read_pairs;
use serde_json::Value;
use std::alloc::{AllocError, Global};
use un_feed::{Change, Changes, Page, Pairs};
use un_geom::Point;
use un_json::ReadFault;
use un_json::form::{Form, OrNull, no_others, required};
use un_json::list::PointForm;
use un_json::request::read_json;
use un_json::scalar::{Base, Truth};
use un_schema::{Place, Schema};
use un_tiers::Tiers;

/// A line that a follower reads.
#[derive(Drop)]
pub enum FollowLine {
    /// A page of changes.
    Page(Changes),
    /// A question for the star of a point.
    Star { at: Point },
}

/// The word of a question for a star.
struct StarWord;

impl Form for StarWord {
    ghost use Rattle.std.specs.Prelude.{codes};
    ghost use Rattle.un_feed_json.specs.Forms.{says};

    type Out = ();

    ghost form = { says (codes "star") };

    fn read(_alloc: Global, value: &Value) -> Result<Option<()>, AllocError> {
        match value.as_str() {
            Some(text) if text == "star" => Ok(Some(())),
            _ => Ok(None),
        }
    }
}

/// The word of a page.
struct PageWord;

impl Form for PageWord {
    ghost use Rattle.std.specs.Prelude.{codes};
    ghost use Rattle.un_feed_json.specs.Forms.{says};

    type Out = ();

    ghost form = { says (codes "changes") };

    fn read(_alloc: Global, value: &Value) -> Result<Option<()>, AllocError> {
        match value.as_str() {
            Some(text) if text == "changes" => Ok(Some(())),
            _ => Ok(None),
        }
    }
}

/// The members of a question for a star.
const STAR_MEMBERS: [Place; 2] = [Place::Ask, Place::At];

fn read_star(alloc: Global, object: &Value) -> Result<Point, ReadFault>
    ensures ok { IfOk result (λ at. made star_row (view object.now) ≡ Ok at) }
    ensures err { IfErr result (λ e. Blames e (made star_row (view object.now))) }
{
    required::<StarWord>(alloc, object, Place::Ask)?;
    let at = required::<PointForm>(alloc, object, Place::At)?;
    no_others(object, &STAR_MEMBERS)?;
    Ok(at)
}

// The member with the changes.
#[tactic(auto, unfolding(un_json::specs::Rows::required_member))]
fn required_changes(
    alloc: Global,
    schema: &Schema,
    tiers: &Tiers,
    object: &Value,
) -> Result<Pairs, ReadFault>
    ensures ok { IfOk result (λ pairs.
        required_member Place.Changes (list_of (change_of schema.now tiers.now)) (view object.now)
        ≡ Ok (map change_shown pairs)) }
    ensures names { IfOk result (λ pairs. HaveNames schema.now tiers.now pairs) }
    ensures err { IfErr result (λ e. Blames e
        (required_member Place.Changes (list_of (change_of schema.now tiers.now)) (view object.now))) }
{
    let bad = ReadFault::BadRequest {
        place: Place::Changes,
    };
    let Some(value) = object.get(Place::Changes.text()) else {
        return Err(bad);
    };
    match read_pairs(alloc, schema, tiers, value)? {
        Some(pairs) => Ok(pairs),
        None => Err(bad),
    }
}

/// The members of a page.
const PAGE_MEMBERS: [Place; 7] = [
    Place::After,
    Place::Changes,
    Place::More,
    Place::Ok,
    Place::Since,
    Place::Upto,
    Place::Version,
];

fn read_members(
    alloc: Global,
    schema: &Schema,
    tiers: &Tiers,
    object: &Value,
) -> Result<Changes, ReadFault>
    ensures ok { IfOk result
        (λ page. made (page_row schema.now tiers.now) (view object.now) ≡ Ok (changes_shown page)) }
    ensures names { IfOk result (λ page. HaveNames schema.now tiers.now page.page.pairs) }
    ensures err { IfErr result
        (λ e. Blames e (made (page_row schema.now tiers.now) (view object.now))) }
{
    let after = required::<OrNull<PointForm>>(alloc, object, Place::After)?;
    let pairs = required_changes(alloc, schema, tiers, object)?;
    let more = required::<Truth>(alloc, object, Place::More)?;
    required::<PageWord>(alloc, object, Place::Ok)?;
    let since = required::<Base>(alloc, object, Place::Since)?;
    let upto = required::<Base>(alloc, object, Place::Upto)?;
    let version = required::<Base>(alloc, object, Place::Version)?;
    no_others(object, &PAGE_MEMBERS)?;
    Ok(Changes {
        page: Page { pairs, more },
        after,
        since,
        upto,
        version,
    })
}

// Whether the point comes after the last one, if there is one.
fn comes_after(last: Option<Point>, at: Point) -> bool
    ensures { result ≡ is_past point_cmp last at }
{
    match last {
        Some(last) => last < at,
        None => true,
    }
}

// Whether the points rise, and the first comes after this one.
#[tactic(auto, using(crate::proofs::Rising::rises_on, crate::proofs::Rising::falls, crate::proofs::Rising::all_rise))]
fn rises_after(after: Option<Point>, changes: &[Change]) -> bool
    ensures { result ≡ rises_after after (map change_shown changes.now) }
{
    let mut last = after;
    for change in changes {
        if !comes_after(last, change.at) {
            return false;
        }
        last = Some(change.at);
    }
    true
}

// The page, unless it goes backwards, its points do not rise, or it has no changes but says that there are more.
fn sound_page(page: Changes) -> Result<Changes, ReadFault>
    ensures ok { IfOk result (λ page. sound_page (changes_shown page) ≡ Ok (changes_shown page)) }
    ensures same { IfOk result (λ sound. sound ≡ page) }
    ensures err { IfErr result (λ e. Blames e (sound_page (changes_shown page))) }
{
    let changes = page.page.pairs.as_slice();
    let place = if page.upto < page.since {
        Place::Upto
    } else if !rises_after(page.after, changes) {
        Place::Changes
    } else if page.page.more && changes.is_empty() {
        Place::More
    } else {
        return Ok(page);
    };
    Err(ReadFault::BadRequest { place })
}

fn read_page(
    alloc: Global,
    schema: &Schema,
    tiers: &Tiers,
    object: &Value,
) -> Result<Changes, ReadFault>
    ensures ok { IfOk result
        (λ page. page_answer schema.now tiers.now (view object.now) ≡ Ok (changes_shown page)) }
    ensures names { IfOk result (λ page. HaveNames schema.now tiers.now page.page.pairs) }
    ensures err { IfErr result (λ e. Blames e (page_answer schema.now tiers.now (view object.now))) }
{
    let page = read_members(alloc, schema, tiers, object)?;
    sound_page(page)
}

fn read_object(
    alloc: Global,
    schema: &Schema,
    tiers: &Tiers,
    object: &Value,
) -> Result<FollowLine, ReadFault>
    ensures ok { IfOk result
        (λ line. object_answer schema.now tiers.now (view object.now) ≡ Ok (line_shown line)) }
    ensures names { IfOk result (λ line. LineHasNames schema.now tiers.now line) }
    ensures err { IfErr result
        (λ e. Blames e (object_answer schema.now tiers.now (view object.now))) }
{
    if object.get(Place::Ask.text()).is_some() {
        let at = read_star(alloc, object)?;
        return Ok(FollowLine::Star { at });
    }
    let page = read_page(alloc, schema, tiers, object)?;
    Ok(FollowLine::Page(page))
}

fn read_value(
    alloc: Global,
    schema: &Schema,
    tiers: &Tiers,
    value: &Value,
) -> Result<FollowLine, ReadFault>
    ensures ok { IfOk result
        (λ line. value_answer schema.now tiers.now (view value.now) ≡ Ok (line_shown line)) }
    ensures names { IfOk result (λ line. LineHasNames schema.now tiers.now line) }
    ensures err { IfErr result (λ e. Blames e (value_answer schema.now tiers.now (view value.now))) }
{
    if !value.is_object() {
        return Err(ReadFault::BadRequest {
            place: Place::Whole,
        });
    }
    read_object(alloc, schema, tiers, value)
}

/// Reads a follower's line. The fault is `NotJson` exactly if the bytes are not a JSON value in UTF-8, and otherwise `BadRequest` with the
/// first bad place. Any call may return `Memory` instead.
pub fn read_follow(
    alloc: Global,
    schema: &Schema,
    tiers: &Tiers,
    line: &[u8],
) -> Result<FollowLine, ReadFault>
    ensures ok { IfOk result
        (λ said. line_answer schema.now tiers.now line.now ≡ Ok (line_shown said)) }
    ensures names { IfOk result (λ said. LineHasNames schema.now tiers.now said) }
    ensures err { IfErr result
        (λ e. e ≢ ReadFault.Memory → line_answer schema.now tiers.now line.now ≡ Err e) }
{
    let value = read_json(alloc, line)?;
    read_value(alloc, schema, tiers, &value)
}
