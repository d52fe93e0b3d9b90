//! Points, links and errors, which have no names of the schema, written as tokens of JSON.
ghost use Rattle.std.specs.Prelude.{◌≡◌, ◌∷◌, ◌++◌, OnOk, decimal};
ghost use Rattle.json.specs.Token.{number};
ghost use Rattle.json.specs.Tree.{json_tokens};
ghost use Rattle.serde_json.specs.Written.{outline};
ghost use Rattle.un_values.specs.Values.{whole};
ghost use Rattle.un_feed_json.specs.Shown.{point, place, link_name, link, error, error_text};

use crate::show::Show;
use json::Writer;
use std::alloc::{AllocError, Global};
use un_defs::{ErrorKind, LinkName, Node, PackedTie, TopoError};
use un_geom::Point;
use un_schema::Schema;
use un_tiers::Tiers;

/// Writes a whole number.
#[tactic(auto, using(un_values::proofs::Shows::whole_tokens))]
pub(crate) fn show_whole(number: i64, out: &mut Writer) -> Result<(), AllocError>
    ensures ok { OnOk result (out.new.tokens ≡ out.old.tokens ++ json_tokens (outline (whole number))) }
    ensures before { out.new.before ≡ out.old.before }
{
    out.i64(number)
}

/// Writes a point.
pub(crate) fn show_point(at: Point, out: &mut Writer) -> Result<(), AllocError>
    ensures ok { OnOk result (out.new.tokens ≡ out.old.tokens ++ json_tokens (outline (point at))) }
    ensures before { out.new.before ≡ out.old.before }
{
    out.begin_array()?;
    show_whole(at.x as i64, out)?;
    show_whole(at.y as i64, out)?;
    show_whole(at.z as i64, out)?;
    out.end_array()
}

/// Writes a point, or null for none.
pub(crate) fn show_place(at: Option<Point>, out: &mut Writer) -> Result<(), AllocError>
    ensures ok { OnOk result (out.new.tokens ≡ out.old.tokens ++ json_tokens (outline (place at))) }
    ensures before { out.new.before ≡ out.old.before }
{
    match at {
        Some(at) => show_point(at, out),
        None => out.null(),
    }
}

// Writes the name of a link.
fn show_link_name(name: LinkName, out: &mut Writer) -> Result<(), AllocError>
    ensures ok { OnOk result (out.new.tokens ≡ out.old.tokens ++ json_tokens (outline (link_name name))) }
    ensures before { out.new.before ≡ out.old.before }
{
    out.begin_array()?;
    match name {
        LinkName::Seg { line, index } => {
            out.string("seg")?;
            out.u64(line)?;
            out.u64(index as u64)?;
        }
        LinkName::Path { device, low, high } => {
            out.string("path")?;
            out.u64(device)?;
            out.u64(low as u64)?;
            out.u64(high as u64)?;
        }
        LinkName::Coin {
            junction,
            terminal,
            line,
            vertex,
        } => {
            out.string("coin")?;
            out.u64(junction)?;
            out.u64(terminal as u64)?;
            out.u64(line)?;
            out.u64(vertex as u64)?;
        }
        LinkName::Assoc { id } => {
            out.string("assoc")?;
            out.u64(id)?;
        }
    }
    out.end_array()
}

// Writes where a link leads to: a port and its point.
fn show_node(to: Node, out: &mut Writer) -> Result<(), AllocError>
    ensures ok { OnOk result (out.new.tokens ≡ out.old.tokens
        ++ number (decimal to.port.feature) ∷ number (decimal to.port.number)
        ∷ (json_tokens (outline (whole to.at.x)) ++ (json_tokens (outline (whole to.at.y)) ++ json_tokens (outline (whole to.at.z))))) }
    ensures before { out.new.before ≡ out.old.before }
{
    out.u64(to.port.feature)?;
    out.u64(to.port.number as u64)?;
    show_whole(to.at.x as i64, out)?;
    show_whole(to.at.y as i64, out)?;
    show_whole(to.at.z as i64, out)
}

// Writes a link.
fn show_link(tie: &PackedTie, out: &mut Writer) -> Result<(), AllocError>
    ensures ok { OnOk result (out.new.tokens ≡ out.old.tokens ++ json_tokens (outline (link tie.now))) }
    ensures before { out.new.before ≡ out.old.before }
{
    out.begin_array()?;
    show_link_name(tie.name(), out)?;
    show_node(tie.to(), out)?;
    out.boolean(tie.out())?;
    out.boolean(tie.back())?;
    out.end_array()
}

fn error_text(kind: ErrorKind) -> &'static str
    ensures { result.now ≡ error_text kind }
{
    match kind {
        ErrorKind::Stacked => "Stacked",
        ErrorKind::MissingJunction => "MissingJunction",
        ErrorKind::NoRule => "NoRule",
        ErrorKind::BadTerminal => "BadTerminal",
        ErrorKind::MidspanTerminal => "MidspanTerminal",
        ErrorKind::AssociationRule => "AssociationRule",
    }
}

// Writes an error.
fn show_error(found: &TopoError, out: &mut Writer) -> Result<(), AllocError>
    ensures ok { OnOk result (out.new.tokens ≡ out.old.tokens ++ json_tokens (outline (error found.now))) }
    ensures before { out.new.before ≡ out.old.before }
{
    out.begin_array()?;
    out.string(error_text(found.kind))?;
    out.u64(found.feature)?;
    out.u64(found.number as u64)?;
    out.u64(found.assoc)?;
    out.end_array()
}

// An id.
impl Show for u64 {
    ghost use Rattle.std.specs.Prelude.{⊤};
    ghost use Rattle.un_values.specs.Values.{count};

    ghost json_value = { λ S T n. count n };

    fn show(
        &self,
        _alloc: Global,
        _schema: &Schema,
        _tiers: &Tiers,
        out: &mut Writer,
    ) -> Result<(), AllocError> {
        out.u64(*self)
    }
}

impl Show for PackedTie {
    ghost use Rattle.std.specs.Prelude.{⊤};
    ghost use Rattle.un_feed_json.specs.Shown.{link};

    ghost json_value = { λ S T tie. link tie };

    fn show(
        &self,
        _alloc: Global,
        _schema: &Schema,
        _tiers: &Tiers,
        out: &mut Writer,
    ) -> Result<(), AllocError> {
        show_link(self, out)
    }
}

impl Show for TopoError {
    ghost use Rattle.std.specs.Prelude.{⊤};
    ghost use Rattle.un_feed_json.specs.Shown.{error};

    ghost json_value = { λ S T e. error e };

    fn show(
        &self,
        _alloc: Global,
        _schema: &Schema,
        _tiers: &Tiers,
        out: &mut Writer,
    ) -> Result<(), AllocError> {
        show_error(self, out)
    }
}
