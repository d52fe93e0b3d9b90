//! A copy with the schema and the tiers of its server, and the reply to each line.
//!
//! A page that fits changes the copy, and its reply is printed into room that is spare, so that want of memory never parts the reply from
//! what was done.
ghost use Rattle.std.specs.Prelude.{◌≡◌, ◌≢◌, ℕ, ◌+◌, ◌<◌, ◌≤◌, List, [], ◌∷◌, ◌++◌, decimal, length, true, OnOk, OnErr, vec_len, vec_capacity};
ghost use Rattle.un_json.specs.Requests.{fault_reply};
ghost use Rattle.un_points.specs.PointMaps.{value_at};
ghost use Rattle.un_replies.specs.Replies.{print};
ghost use Rattle.un_feed.specs.Differences.{changes_shown};
ghost use Rattle.un_feed.specs.Follows.{nothing_copied, fits, taken, after_page};
ghost use Rattle.un_feed_json.specs.Shown.{followed_text, star_text};
ghost use Rattle.un_script.specs.Following.{followed, wrong_page, reply_to_page, said, line_reply, state_behind_line};

use crate::opening::{print_line, refuse, refused};
use itoa::Buffer;
use std::alloc::{AllocError, Global};
use un_defs::Refusal;
use un_feed::{Changes, Follower};
use un_feed_json::{FollowLine, print_star, read_follow};
use un_geom::Point;
use un_lines::REPLY_ROOM;
use un_schema::Schema;
use un_tiers::Tiers;

/// A copy of a server's topology, with the schema and the tiers by which its pages are read.
#[derive(Drop)]
pub(crate) struct Following {
    pub(crate) schema: Schema,
    pub(crate) tiers: Tiers,
    pub(crate) copy: Follower,
}

// Appends a text where there is room.
fn put(text: &[u8], out: &mut Vec<u8>)
    requires { vec_len out.old + length text.now ≤ vec_capacity out.old }
    ensures items { out.new.items ≡ out.old.items ++ text.now }
    ensures len { vec_len out.new ≡ vec_len out.old + length text.now }
    ensures capacity { vec_capacity out.old ≤ vec_capacity out.new }
{
    let _ = out.extend_from_slice(text);
}

// Appends the digits of a number where there is room.
fn put_number(number: u64, out: &mut Vec<u8>)
    requires { vec_len out.old + 20 ≤ vec_capacity out.old }
    ensures items { out.new.items ≡ out.old.items ++ decimal number }
    ensures len { vec_len out.new ≤ vec_len out.old + 20 }
    ensures capacity { vec_capacity out.old ≤ vec_capacity out.new }
{
    let mut buffer = Buffer::new();
    put(buffer.format(number).as_bytes(), out);
}

// Appends the reply to a page that was taken, with its line end. It takes no memory.
fn print_followed(points: u64, version: u64, out: &mut Vec<u8>)
    requires { vec_len out.old + REPLY_ROOM ≤ vec_capacity out.old }
    ensures text { out.new.items ≡ out.old.items ++ (followed_text points version ++ 10 ∷ []) }
    ensures capacity { vec_capacity out.old ≤ vec_capacity out.new }
{
    put(b"{\"ok\":\"follow\",\"points\":", out);
    put_number(points, out);
    put(b",\"version\":", out);
    put_number(version, out);
    put(b"}\n", out);
}

// Takes a page that fits. Want of memory changes nothing.
fn take_page(
    alloc: Global,
    copy: &mut Follower,
    page: &Changes,
    out: &mut Vec<u8>,
) -> Result<(), AllocError>
    requires fitting { fits copy.old (changes_shown page.now) ≡ true }
    requires room { vec_len out.old + REPLY_ROOM ≤ vec_capacity out.old }
    ensures reply { OnOk result (out.new.items
        ≡ out.old.items ++ (followed (taken copy.old (changes_shown page.now)) ++ 10 ∷ [])) }
    ensures state { OnOk result (copy.new ≡ taken copy.old (changes_shown page.now)) }
    ensures err { OnErr result ((copy.new ≡ copy.old) × (out.new.items ≡ out.old.items)) }
    ensures capacity { vec_capacity out.old ≤ vec_capacity out.new }
{
    copy.take(alloc, page)?;
    print_followed(copy.points(), copy.version(), out);
    Ok(())
}

// Refuses a page that doesn't fit, with the place and the version from which the copy goes on.
fn refuse_page(copy: &Follower, out: &mut Vec<u8>)
    requires { vec_len out.old + REPLY_ROOM ≤ vec_capacity out.old }
    ensures text { out.new.items ≡ out.old.items ++ (print (wrong_page copy.now) ++ 10 ∷ []) }
    ensures capacity { vec_capacity out.old ≤ vec_capacity out.new }
{
    let refusal = Refusal::WrongPage {
        after: copy.place(),
        at: copy.version(),
    };
    print_line(&refused(refusal), out);
}

// Takes a page if it fits, and refuses it otherwise. Want of memory changes nothing.
fn answer_page(
    alloc: Global,
    copy: &mut Follower,
    page: &Changes,
    out: &mut Vec<u8>,
) -> Result<(), AllocError>
    requires { vec_len out.old + REPLY_ROOM ≤ vec_capacity out.old }
    ensures reply { OnOk result (out.new.items
        ≡ out.old.items ++ (reply_to_page copy.old (changes_shown page.now) ++ 10 ∷ [])) }
    ensures state { OnOk result (copy.new ≡ after_page copy.old (changes_shown page.now)) }
    ensures err { OnErr result ((copy.new ≡ copy.old) × (out.new.items ≡ out.old.items)) }
    ensures capacity { vec_capacity out.old ≤ vec_capacity out.new }
{
    if copy.fits(page) {
        take_page(alloc, copy, page, out)
    } else {
        refuse_page(copy, out);
        Ok(())
    }
}

impl Following {
    /// A copy of the empty topology at version 0, before the first page.
    pub fn new(schema: Schema, tiers: Tiers) -> Following
        ensures { result ≡ record { schema = schema; tiers = tiers; copy = nothing_copied } }
    {
        Following {
            schema,
            tiers,
            copy: Follower::new(),
        }
    }

    // Answers a question for the star of a point. Want of memory changes nothing.
    fn answer_star(&self, alloc: Global, at: Point, out: &mut Vec<u8>) -> Result<(), AllocError>
        ensures reply { OnOk result (out.new.items ≡ out.old.items
            ++ (star_text self.now.schema self.now.tiers at (value_at at self.now.copy.kept) self.now.copy.version ++ 10 ∷ [])) }
        ensures err { OnErr result (out.new.items ≡ out.old.items) }
        ensures capacity { vec_capacity out.old ≤ vec_capacity out.new }
    {
        let star = self.copy.star(at);
        let version = self.copy.version();
        print_star(alloc, &self.schema, &self.tiers, at, star, version, out)?;
        let _ = out.push(b'\n');
        Ok(())
    }

    /// Answers a line. Want of memory changes nothing.
    pub fn answer(
        &mut self,
        alloc: Global,
        line: &[u8],
        out: &mut Vec<u8>,
    ) -> Result<(), AllocError>
        requires { vec_len out.old + REPLY_ROOM ≤ vec_capacity out.old }
        ensures reply { OnOk result (out.new.items ≡ out.old.items ++ line_reply self.old line.now) }
        ensures state { OnOk result (self.new ≡ state_behind_line self.old (said self.old line.now)) }
        ensures err { OnErr result ((self.new ≡ self.old) × (out.new.items ≡ out.old.items)) }
        ensures capacity { vec_capacity out.old ≤ vec_capacity out.new }
    {
        match read_follow(alloc, &self.schema, &self.tiers, line) {
            Ok(FollowLine::Page(page)) => answer_page(alloc, &mut self.copy, &page, out),
            Ok(FollowLine::Star { at }) => self.answer_star(alloc, at, out),
            Err(fault) => refuse(fault, out),
        }
    }
}
