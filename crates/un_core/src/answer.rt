//! What queries are answered.
ghost use Rattle.std.specs.Prelude.{◌≡◌, ◌≢◌, ◌+◌, ◌≤◌, length, None, Contains, IfOk, OnOk};
ghost use Rattle.un_ask.specs.declared.query.Asked.TheVariants.{Trace};
ghost use Rattle.un_defs.specs.declared.port.Node.{Node};
ghost use Rattle.un_defs.specs.Ports.{nodes};
ghost use Rattle.un_defs.specs.declared.refusal.Refusal.TheVariants.{Memory};
ghost use Rattle.un_trace.specs.TraceReply.{IsAnswerable};
ghost use Rattle.un_resolve.specs.Kinds.{is_isolation};
ghost use Rattle.un_loops.specs.Answer.{IsForLoops};
ghost use Rattle.un_isolate.specs.Answer.{IsForIsolation};
ghost use Rattle.un_core.specs.Cover.{IsState};
ghost use Rattle.un_core.specs.Listed.{errors_in};
ghost use Rattle.un_core.specs.Answers.{is_loops, AreClear, MayWalk, query_refusal, refused, IsNoTrace, at_version, kept_survey, kept_basis, fresh_basis, reached_from, traced, trace_on, asked_on, answer_on, answer, reached_by, most_look_ups};

use crate::kept::Kept;
use crate::net::Net;
use std::alloc::{AllocError, Global};
use un_ask::{Areas, Asked, PlacedErrors, Query, Reply, TraceAsk, TraceKind, TypedAsk};
use un_defs::Refusal;
use un_geom::Rect;
use un_isolate::isolate;
use un_loops::loops;
use un_resolve::resolve;
use un_steps::Steps;
use un_trace::trace;

/// A trace of the kind asks for loops.
fn is_loops(kind: TraceKind) -> bool
    ensures { result ≡ is_loops kind }
{
    matches!(kind, TraceKind::Loops)
}

/// A trace of the kind asks for isolation.
fn is_isolation(kind: TraceKind) -> bool
    ensures { result ≡ is_isolation kind }
{
    matches!(kind, TraceKind::Isolation)
}

/// What a walk answers, with the version of the state.
pub(crate) fn at_version(reply: Reply, version: u64) -> Reply
    ensures { result ≡ at_version version reply }
{
    match reply {
        Reply::Traced { result, version: _ } => Reply::Traced { result, version },
        Reply::Controllers {
            controllers,
            version: _,
        } => Reply::Controllers {
            controllers,
            version,
        },
        Reply::Loops {
            segments,
            version: _,
        } => Reply::Loops { segments, version },
        Reply::Isolation {
            borders,
            features,
            version: _,
        } => Reply::Isolation {
            borders,
            features,
            version,
        },
        Reply::Refused {
            refusal,
            edit,
            version: _,
        } => Reply::Refused {
            refusal,
            edit,
            version,
        },
        other => shown_at_version(other, version),
    }
}

/// What a path, a check or a diagram answers, with the version of the state.
fn shown_at_version(reply: Reply, version: u64) -> Reply
    requires { IsNoTrace reply }
    ensures { result ≡ at_version version reply }
{
    match reply {
        Reply::Path {
            cost,
            labels,
            nodes,
            version: _,
        } => Reply::Path {
            cost,
            labels,
            nodes,
            version,
        },
        Reply::Check { valid, version: _ } => Reply::Check { valid, version },
        Reply::Diagram {
            edges,
            kept,
            pieces,
            version: _,
        } => Reply::Diagram {
            edges,
            kept,
            pieces,
            version,
        },
        other => other,
    }
}

impl Net {
    /// Whether a query wants a later version.
    fn query_refusal(&self, query: &Query) -> Option<Refusal>
        ensures cause { result ≡ query_refusal self.now query.now }
        ensures state { IsState self.now }
    {
        let latest = self.version;
        if query.seen > latest {
            return Some(Refusal::Ahead {
                seen: query.seen,
                latest,
            });
        }
        None
    }

    /// The reply that tells of a refusal.
    pub(crate) fn refused(&self, refusal: Refusal) -> Reply
        ensures { result ≡ refused self.now refusal }
    {
        Reply::Refused {
            refusal,
            edit: None,
            version: self.version,
        }
    }

    /// The topology that is kept and the dirty areas, as traces go over them.
    pub(crate) fn kept_ground(&self) -> Kept<'_>
        ensures stars { result.stars.now ≡ self.now.kept }
        ensures areas { result.dirty.now.areas ≡ self.now.areas }
    {
        Kept {
            stars: &self.kept,
            dirty: &self.dirty,
        }
    }

    /// The answer of a trace over what is kept, with version 0.
    fn trace_kept<L>(
        &self,
        alloc: Global,
        ask: &TypedAsk,
        steps: &mut Steps<L>,
    ) -> Result<Reply, AllocError>
        requires kind { IsAnswerable ask.now.kind ask.now.barriers.tier }
        ensures reply { IfOk result (λ reply. reply ≡ traced (kept_survey self.now) ask.now) }
        ensures ticks { OnOk result
            (steps.new ≤ steps.old + length (reached_from (kept_survey self.now) ask.now)) }
    {
        // For the proof alone.
        let _version = self.version();
        let kept = self.kept_ground();
        trace(alloc, &kept, ask, steps)
    }

    /// The answer of a trace for loops over what is kept, with version 0.
    fn loops_kept<L>(
        &self,
        alloc: Global,
        ask: &TypedAsk,
        steps: &mut Steps<L>,
    ) -> Result<Reply, AllocError>
        requires kind { IsForLoops ask.now }
        requires starts { (n : Node) → Contains ask.now.starts n → Contains (nodes self.now.features) n }
        ensures reply { IfOk result (λ reply. reply ≡ traced (kept_survey self.now) ask.now) }
        ensures ticks { OnOk result
            (steps.new ≤ steps.old + length (reached_from (kept_survey self.now) ask.now)) }
    {
        // For the proof alone.
        let _version = self.version();
        let kept = self.kept_ground();
        loops(alloc, &kept, ask, steps)
    }

    /// The answer of a trace for isolation over what is kept, with version 0.
    fn isolation_kept<L>(
        &self,
        alloc: Global,
        ask: &TypedAsk,
        steps: &mut Steps<L>,
    ) -> Result<Reply, AllocError>
        requires kind { IsForIsolation ask.now }
        requires starts { (n : Node) → Contains ask.now.starts n → Contains (nodes self.now.features) n }
        requires clear { AreClear self.now.setup.schema self.now.features ask.now }
        ensures reply { IfOk result (λ reply. reply ≡ traced (kept_survey self.now) ask.now) }
        ensures ticks { OnOk result
            (steps.new ≤ steps.old + length (reached_from (kept_survey self.now) ask.now)) }
    {
        // For the proof alone.
        let _version = self.version();
        let kept = self.kept_ground();
        isolate(alloc, &kept, ask, steps)
    }

    /// The answer of a trace by numbers and nodes, with version 0.
    fn walked<L>(
        &self,
        alloc: Global,
        ask: &TypedAsk,
        steps: &mut Steps<L>,
    ) -> Result<Reply, AllocError>
        requires { MayWalk self.now.setup.schema self.now.features ask.now }
        ensures reply { IfOk result (λ reply. reply ≡ traced (kept_survey self.now) ask.now) }
        ensures ticks { OnOk result
            (steps.new ≤ steps.old + length (reached_from (kept_survey self.now) ask.now)) }
    {
        if is_loops(ask.kind) {
            self.loops_kept(alloc, ask, steps)
        } else if is_isolation(ask.kind) {
            self.isolation_kept(alloc, ask, steps)
        } else {
            self.trace_kept(alloc, ask, steps)
        }
    }

    /// The reply that tells of a refusal, unless it is one of want of memory.
    pub(crate) fn refused_by(&self, refusal: Refusal) -> Result<Reply, AllocError>
        ensures reply { IfOk result (λ reply. reply ≡ refused self.now refusal) }
        ensures other { OnOk result (refusal ≢ Memory) }
    {
        match refusal {
            Refusal::Memory => Err(AllocError),
            other => Ok(self.refused(other)),
        }
    }

    /// The answer of a trace.
    fn traced<L>(
        &self,
        alloc: Global,
        ask: &TraceAsk,
        steps: &mut Steps<L>,
    ) -> Result<Reply, AllocError>
        ensures reply { IfOk result (λ reply. reply ≡ trace_on self.now (kept_basis self.now) ask.now) }
        ensures ticks { OnOk result
            (steps.new ≤ steps.old + length (reached_by self.now (Trace ask.now))) }
    {
        match resolve(alloc, self.facts.setup(), &self.facts, ask) {
            Ok(typed) => {
                let reply = self.walked(alloc, &typed, steps)?;
                Ok(at_version(reply, self.version))
            }
            Err(refusal) => self.refused_by(refusal),
        }
    }

    /// The errors of the kept topology at the points that the extent covers.
    fn errors(&self, alloc: Global, extent: Rect) -> Result<PlacedErrors, AllocError>
        ensures { IfOk result (λ errors. errors ≡ errors_in (kept_survey self.now) extent) }
    {
        Ok(PlacedErrors::new(self.kept.errors(alloc, extent)?))
    }

    /// What is asked, where the query is not refused before.
    fn accepted_reply<L>(
        &self,
        alloc: Global,
        what: &Asked,
        steps: &mut Steps<L>,
    ) -> Result<Reply, AllocError>
        ensures reply { IfOk result (λ reply. reply ≡ asked_on self.now (kept_basis self.now) what.now) }
        ensures ticks { OnOk result (steps.new ≤ steps.old + length (reached_by self.now what.now)) }
    {
        let version = self.version;
        match what {
            Asked::Version => Ok(Reply::Version { version }),
            Asked::Feature { id } => self.feature(alloc, *id),
            Asked::Dirty { extent } => Ok(Reply::Dirty {
                areas: Areas::new(self.dirty.meeting(alloc, *extent)?),
                version,
            }),
            Asked::Errors { extent } => Ok(Reply::Errors {
                errors: self.errors(alloc, *extent)?,
                version,
            }),
            Asked::Trace(ask) => self.traced(alloc, ask, steps),
            Asked::Path(ask) => self.path(alloc, ask, steps),
            Asked::Check(ask) => self.check(alloc, ask, steps),
            Asked::Diagram(ask) => self.diagram(alloc, ask, steps),
            Asked::Subnet { tier, subnet } => self.subnet(alloc, tier, subnet),
        }
    }

    /// What a query is answered. It changes nothing.
    ///
    /// It is refused by `Ahead` where it wants a later version; and then the query for a feature by `NoSuchFeature`, where none with the id is
    /// live; that for a subnetwork by `NoSuchTier` or `NoSuchSubnetwork`, where none is stored; and a trace, a path, a check or a diagram as
    /// `un_resolve` refuses it, by `DirtyGround` in consistent mode where a dirty area covers a node that is reached, or by `NotIsolable` where a
    /// controller cannot be cut off. `steps` counts the stars that are looked up. It answers an error only for want of memory.
    pub fn answer<L>(
        &self,
        alloc: Global,
        query: &Query,
        steps: &mut Steps<L>,
    ) -> Result<Reply, AllocError>
        ensures reply { IfOk result (λ reply. reply ≡ answer self.now query.now) }
        // A consistent trace is answered as over all features.
        ensures fresh { IfOk result (λ reply. reply ≡ answer_on self.now (fresh_basis self.now) query.now) }
        ensures ticks { OnOk result (steps.new ≤ steps.old + most_look_ups self.now query.now) }
    {
        match self.query_refusal(query) {
            Some(refusal) => Ok(self.refused(refusal)),
            None => self.accepted_reply(alloc, &query.what, steps),
        }
    }
}
