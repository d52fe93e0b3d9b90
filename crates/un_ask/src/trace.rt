ghost use Rattle.std.specs.Prelude.{◌≡◌, find};
ghost use Rattle.std.specs.Str.{bytes_eq};
ghost use Rattle.un_ask.specs.Words.{trace_text};

use std::alloc::{AllocError, Global};
use std::marker::Model;
use un_conds::RawCond;
use un_defs::port::Ports;
use un_schema::{Items, Name};

/// What a trace looks for.
#[derive(Clone, Copy, Debug, PartialEq, Eq, PartialOrd, Ord, Hash)]
pub enum TraceKind {
    Connected,
    Subnetwork,
    Controllers,
    Upstream,
    Downstream,
    Loops,
    Isolation,
}

impl TraceKind {
    ghost use Rattle.std.specs.Prelude.{◌≡◌};
    ghost use Rattle.un_ask.specs.Words.{trace_text, trace_named};

    const ALL: [TraceKind; 7] = [
        TraceKind::Connected,
        TraceKind::Subnetwork,
        TraceKind::Controllers,
        TraceKind::Upstream,
        TraceKind::Downstream,
        TraceKind::Loops,
        TraceKind::Isolation,
    ];

    /// The kind that is written so, if there is one.
    pub fn named(text: &str) -> Option<TraceKind>
        ensures { result ≡ trace_named text.now }
    {
        first_named(&Self::ALL, text)
    }

    /// The kind as requests and replies write it.
    pub fn text(&self) -> &'static str
        ensures { result.now ≡ trace_text self.now }
    {
        match self {
            TraceKind::Connected => "connected",
            TraceKind::Subnetwork => "subnetwork",
            TraceKind::Controllers => "controllers",
            TraceKind::Upstream => "upstream",
            TraceKind::Downstream => "downstream",
            TraceKind::Loops => "loops",
            TraceKind::Isolation => "isolation",
        }
    }
}

/// The first of the kinds that is written so.
fn first_named(kinds: &[TraceKind], text: &str) -> Option<TraceKind>
    ensures { result ≡ find (λ kind. bytes_eq (trace_text kind) text.now) kinds.now }
{
    match kinds {
        [first, rest @ ..] => {
            if first.text() == text {
                Some(*first)
            } else {
                first_named(rest, text)
            }
        }
        [] => None,
    }
}

/// What a result tells besides the features.
#[derive(Clone, Copy, Debug, Default, PartialEq, Eq, Hash)]
pub struct Include {
    pub barriers: bool,
    pub containers: bool,
    pub content: bool,
    pub structures: bool,
}

/// A function over the features of a result, with its attribute by name.
#[derive(Drop)]
pub enum NamedFunc {
    Count,
    Sum(Name),
    Least(Name),
    Greatest(Name),
}

/// A list of functions with attributes by name.
pub type NamedFuncs = Items<NamedFunc>;

/// A condition as a request gives it. Contracts see what it says, and not where its parts lie.
#[derive(Drop)]
pub struct RawCondition {
    raw: Box<RawCond>,
}

impl Model for RawCondition {
    ghost use Rattle.std.specs.Prelude.{List, ℕ, box_value};
    ghost use Rattle.un_conds.specs.Conditions.{Condition};
    ghost use Rattle.un_conds.specs.Forms.{written};
    ghost use Rattle.un_conds.specs.Code.{written_code};

    ghost Value = { Condition (List ℕ) };

    ghost coded = { written_code };

    ghost view = { λ c. written (box_value c.raw) };
}

impl RawCondition {
    ghost use Rattle.std.specs.Prelude.{◌≡◌, IfOk};
    ghost use Rattle.un_conds.specs.Forms.{written};

    /// This condition.
    pub fn new(alloc: Global, raw: RawCond) -> Result<RawCondition, AllocError>
        ensures { IfOk result (λ condition. condition ≡ written raw) }
    {
        Ok(RawCondition {
            raw: Box::new(alloc, raw)?,
        })
    }

    /// The condition.
    pub fn raw(&self) -> &RawCond
        ensures { written result.now ≡ self.now }
    {
        &self.raw
    }
}

/// A trace as a request gives it. What its kind does not take is none, or as if it were not asked for.
#[derive(Drop)]
pub struct TraceAsk {
    pub kind: TraceKind,
    /// Where the walk starts. A subnetwork trace has none: it starts at its controllers.
    pub starts: Ports,
    pub tier: Option<Name>,
    pub subnet: Option<Name>,
    pub isolators: Option<RawCondition>,
    pub barriers: Option<RawCondition>,
    pub stops: Ports,
    pub consistent: bool,
    pub include: Include,
    pub functions: NamedFuncs,
}
