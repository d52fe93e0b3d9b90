//! Changes, written as tokens of JSON.
ghost use Rattle.std.specs.Prelude.{◌≡◌, ◌++◌, OnOk, Some};
ghost use Rattle.json.specs.Tree.{json_tokens};
ghost use Rattle.serde_json.specs.Written.{outline};
ghost use Rattle.un_feed_json.specs.Shown.{change_at, removed};

use crate::parts::show_point;
use crate::show::{Show, show_list};
use json::Writer;
use std::alloc::{AllocError, Global};
use un_defs::Star;
use un_feed::Change;
use un_geom::Point;
use un_schema::Schema;
use un_tiers::Tiers;

/// Writes a star with its point.
pub(crate) fn show_star(
    alloc: Global,
    schema: &Schema,
    tiers: &Tiers,
    at: Point,
    star: &Star,
    out: &mut Writer,
) -> Result<(), AllocError>
    ensures ok { OnOk result (out.new.tokens ≡ out.old.tokens
        ++ json_tokens (outline (change_at schema.now tiers.now at (Some star.now)))) }
    ensures before { out.new.before ≡ out.old.before }
{
    out.begin_array()?;
    show_point(at, out)?;
    show_list(alloc, schema, tiers, star.spots.as_slice(), out)?;
    show_list(alloc, schema, tiers, star.errors.as_slice(), out)?;
    out.end_array()
}

// Writes a point that has no star any more.
fn show_removed(at: Point, out: &mut Writer) -> Result<(), AllocError>
    ensures ok { OnOk result (out.new.tokens ≡ out.old.tokens ++ json_tokens (outline (removed at))) }
    ensures before { out.new.before ≡ out.old.before }
{
    out.begin_array()?;
    show_point(at, out)?;
    out.null()?;
    out.null()?;
    out.end_array()
}

impl Show for Change {
    ghost use Rattle.un_feed.specs.Differences.{change_shown};
    ghost use Rattle.un_feed_json.specs.Shown.{change};

    ghost json_value = { λ S T c. change S T (change_shown c) };

    fn show(
        &self,
        alloc: Global,
        schema: &Schema,
        tiers: &Tiers,
        out: &mut Writer,
    ) -> Result<(), AllocError> {
        match &self.star {
            Some(star) => show_star(alloc, schema, tiers, self.at, star, out),
            None => show_removed(self.at, out),
        }
    }
}
