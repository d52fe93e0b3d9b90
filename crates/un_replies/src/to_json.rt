//! Values that replies show, written as tokens of JSON.
ghost use Rattle.std.specs.Prelude.{◌≡◌, [], ◌∷◌, ◌++◌, OnOk};
ghost use Rattle.json.specs.Token.{end_array, key};
ghost use Rattle.json.specs.Tree.{json_tokens, items_tokens};
ghost use Rattle.serde_json.specs.Written.{outline, items_outline};
ghost use Rattle.un_values.specs.Values.{items_of, list};
ghost use Rattle.un_replies.specs.Replies.{error_text};

use itoa::Buffer;
use json::Writer;
use std::alloc::AllocError;
use un_ask::{Edge, Label, Piece};
use un_defs::{Controller, ErrorKind, Port, TopoError};
use un_geom::{Point, Rect};

/// A value that a reply can show.
pub(crate) trait ToJson {
    ghost use Rattle.serde_json.specs.Data.{Data};
    ghost use Rattle.serde_json.specs.Written.{outline};
    ghost use Rattle.json.specs.Tree.{json_tokens};

    ghost json_value: { Self → Data };

    /// Writes the value. If memory runs out, part of it may be missing.
    fn show(&self, out: &mut Writer) -> Result<(), AllocError>
        ensures ok { OnOk result (out.new.tokens
            ≡ out.old.tokens ++ json_tokens (outline (json_value self.now))) }
        ensures before { out.new.before ≡ out.old.before };
}

impl ToJson for u64 {
    ghost use Rattle.un_values.specs.Values.{count};

    ghost json_value = { count };

    fn show(&self, out: &mut Writer) -> Result<(), AllocError> {
        out.u64(*self)
    }
}

impl ToJson for u8 {
    ghost use Rattle.un_values.specs.Values.{count};

    ghost json_value = { count };

    fn show(&self, out: &mut Writer) -> Result<(), AllocError> {
        out.u64(*self as u64)
    }
}

impl ToJson for Port {
    ghost use Rattle.un_replies.specs.Replies.{port};

    ghost json_value = { port };

    fn show(&self, out: &mut Writer) -> Result<(), AllocError> {
        out.begin_array()?;
        out.u64(self.feature)?;
        out.u64(self.number as u64)?;
        out.end_array()
    }
}

impl ToJson for Controller {
    ghost use Rattle.un_replies.specs.Replies.{controller};

    ghost json_value = { controller };

    fn show(&self, out: &mut Writer) -> Result<(), AllocError> {
        out.begin_array()?;
        out.u64(self.port.feature)?;
        out.u64(self.port.number as u64)?;
        out.string(self.subnet.text())?;
        out.end_array()
    }
}

impl ToJson for i64 {
    ghost use Rattle.un_values.specs.Values.{whole};

    ghost json_value = { whole };

    #[tactic(auto, using(un_values::proofs::Shows::whole_tokens))]
    fn show(&self, out: &mut Writer) -> Result<(), AllocError> {
        out.i64(*self)
    }
}

impl ToJson for i32 {
    ghost use Rattle.un_values.specs.Values.{whole};

    ghost json_value = { whole };

    #[tactic(auto, using(un_values::proofs::Shows::whole_tokens))]
    fn show(&self, out: &mut Writer) -> Result<(), AllocError> {
        out.i64(*self as i64)
    }
}

impl ToJson for Point {
    ghost use Rattle.un_replies.specs.Replies.{point};

    ghost json_value = { point };

    fn show(&self, out: &mut Writer) -> Result<(), AllocError> {
        out.begin_array()?;
        self.x.show(out)?;
        self.y.show(out)?;
        self.z.show(out)?;
        out.end_array()
    }
}

// A dirty area with its number.
impl ToJson for (u64, Rect) {
    ghost use Rattle.un_replies.specs.Replies.{area};

    ghost json_value = { area };

    #[tactic(auto, using(crate::proofs::Shows::area_steps))]
    fn show(&self, out: &mut Writer) -> Result<(), AllocError> {
        let sides = self.1.sides();
        out.begin_array()?;
        out.u64(self.0)?;
        show_items(&sides, out)?;
        out.end_array()
    }
}

fn error_text(kind: ErrorKind) -> &'static str
    ensures { result.now ≡ error_text kind }
{
    match kind {
        ErrorKind::Stacked => "Stacked",
        ErrorKind::MissingJunction => "MissingJunction",
        ErrorKind::NoRule => "NoRule",
        ErrorKind::BadTerminal => "BadTerminal",
        ErrorKind::MidspanTerminal => "MidspanTerminal",
        ErrorKind::AssociationRule => "AssociationRule",
    }
}

// An error of the topology with its point.
impl ToJson for (Point, TopoError) {
    ghost use Rattle.un_replies.specs.Replies.{placed_error};

    ghost json_value = { placed_error };

    fn show(&self, out: &mut Writer) -> Result<(), AllocError> {
        out.begin_array()?;
        self.0.x.show(out)?;
        self.0.y.show(out)?;
        self.0.z.show(out)?;
        out.string(error_text(self.1.kind))?;
        out.u64(self.1.feature)?;
        out.u64(self.1.number as u64)?;
        out.u64(self.1.assoc)?;
        out.end_array()
    }
}

// What a walk costs.
impl ToJson for u128 {
    ghost use Rattle.un_values.specs.Values.{count};

    ghost json_value = { count };

    #[tactic(auto, using(crate::proofs::Shows::number_of_count))]
    fn show(&self, out: &mut Writer) -> Result<(), AllocError> {
        let mut buffer = Buffer::new();
        out.number(buffer.format(*self))
    }
}

// What the best walk costs, if there is a walk.
impl ToJson for Option<u128> {
    ghost use Rattle.un_replies.specs.Replies.{cost};

    ghost json_value = { cost };

    fn show(&self, out: &mut Writer) -> Result<(), AllocError> {
        match self {
            Some(cost) => cost.show(out),
            None => out.null(),
        }
    }
}

impl ToJson for Label {
    ghost use Rattle.un_replies.specs.Replies.{label};

    ghost json_value = { label };

    fn show(&self, out: &mut Writer) -> Result<(), AllocError> {
        out.begin_array()?;
        out.u64(self.port.feature)?;
        out.u64(self.port.number as u64)?;
        self.cost.show(out)?;
        out.end_array()
    }
}

impl ToJson for Piece {
    ghost use Rattle.un_replies.specs.Replies.{piece};

    ghost json_value = { piece };

    fn show(&self, out: &mut Writer) -> Result<(), AllocError> {
        out.begin_array()?;
        out.u64(self.name.feature)?;
        out.u64(self.name.number as u64)?;
        out.u64(self.nodes as u64)?;
        out.u64(self.features as u64)?;
        out.end_array()
    }
}

impl ToJson for Edge {
    ghost use Rattle.un_replies.specs.Replies.{edge};

    ghost json_value = { edge };

    fn show(&self, out: &mut Writer) -> Result<(), AllocError> {
        out.begin_array()?;
        out.u64(self.from.feature)?;
        out.u64(self.from.number as u64)?;
        out.u64(self.to.feature)?;
        out.u64(self.to.number as u64)?;
        out.end_array()
    }
}

// Writes the elements of a list.
#[tactic(auto, using(un_values::proofs::Shows::show_one, un_values::proofs::Shows::show_all))]
fn show_items<T: ToJson>(values: &[T], out: &mut Writer) -> Result<(), AllocError>
    ensures ok { OnOk result (out.new.tokens ++ end_array ∷ []
        ≡ out.old.tokens ++ items_tokens (items_outline (items_of T.json_value values.now))) }
    ensures before { out.new.before ≡ out.old.before }
{
    for value in values {
        value.show(out)?;
    }
    Ok(())
}

// Writes a list.
#[tactic(auto, using(un_values::proofs::Shows::list_steps))]
fn show_list<T: ToJson>(values: &[T], out: &mut Writer) -> Result<(), AllocError>
    ensures ok { OnOk result (out.new.tokens
        ≡ out.old.tokens ++ json_tokens (outline (list T.json_value values.now))) }
    ensures before { out.new.before ≡ out.old.before }
{
    out.begin_array()?;
    show_items(values, out)?;
    out.end_array()
}

/// Writes a member that is a list.
pub(crate) fn list_member<T: ToJson>(
    name: &str,
    values: &[T],
    out: &mut Writer,
) -> Result<(), AllocError>
    ensures ok { OnOk result (out.new.tokens
        ≡ out.old.tokens ++ key name.now ∷ json_tokens (outline (list T.json_value values.now))) }
    ensures before { out.new.before ≡ out.old.before }
{
    out.key(name)?;
    show_list(values, out)
}
