//! What queries for paths, checks and diagrams are answered.
ghost use Rattle.std.specs.Prelude.{◌≡◌, ◌+◌, ◌≤◌, ◌∷◌, [], length, None, Contains, IsTrue, IfOk, OnOk};
ghost use Rattle.un_ask.specs.declared.query.Asked.TheVariants.{Path, Check, Diagram};
ghost use Rattle.un_defs.specs.declared.port.Node.{Node};
ghost use Rattle.un_defs.specs.Ports.{nodes};
ghost use Rattle.un_core.specs.Answers.{kept_survey, kept_basis, reached_any, path_over, check_over, diagram_over, path_on, check_on, diagram_on, reached_by};

use crate::answer::at_version;
use crate::net::Net;
use std::alloc::{AllocError, Global};
use un_ask::{CheckAsk, DiagramAsk, NamedCheck, NamedDiagram, NamedPath, PathAsk, Reply};
use un_diagram::diagram;
use un_path::{check, path};
use un_resolve::{resolve_check, resolve_diagram, resolve_path};
use un_steps::Steps;

impl Net {
    /// The best walk over what is kept, with version 0.
    fn path_kept<L>(
        &self,
        alloc: Global,
        ask: &PathAsk,
        steps: &mut Steps<L>,
    ) -> Result<Reply, AllocError>
        requires untiered { ask.now.barriers.tier ≡ None }
        requires consistent { IsTrue ask.now.barriers.consistent }
        requires from { Contains (nodes self.now.features) ask.now.from }
        ensures reply { IfOk result (λ reply. reply ≡ path_over (kept_survey self.now) ask.now) }
        ensures ticks { OnOk result (steps.new
            ≤ steps.old + length (reached_any (kept_survey self.now) ask.now.barriers (ask.now.from ∷ []))) }
    {
        // For the proof alone.
        let _version = self.version();
        let kept = self.kept_ground();
        path(alloc, &kept, ask, steps)
    }

    /// The verdict on a certificate over what is kept, with version 0.
    fn check_kept<L>(
        &self,
        alloc: Global,
        ask: &CheckAsk,
        steps: &mut Steps<L>,
    ) -> Result<Reply, AllocError>
        requires untiered { ask.now.barriers.tier ≡ None }
        requires consistent { IsTrue ask.now.barriers.consistent }
        requires from { Contains (nodes self.now.features) ask.now.from }
        ensures reply { IfOk result (λ reply. reply ≡ check_over (kept_survey self.now) ask.now) }
        ensures ticks { OnOk result (steps.new
            ≤ steps.old + length (reached_any (kept_survey self.now) ask.now.barriers (ask.now.from ∷ []))) }
    {
        // For the proof alone.
        let _version = self.version();
        let kept = self.kept_ground();
        check(alloc, &kept, ask, steps)
    }

    /// The diagram of what is kept, with version 0.
    fn diagram_kept<L>(
        &self,
        alloc: Global,
        ask: &DiagramAsk,
        steps: &mut Steps<L>,
    ) -> Result<Reply, AllocError>
        requires untiered { ask.now.barriers.tier ≡ None }
        requires consistent { IsTrue ask.now.barriers.consistent }
        requires starts { (n : Node) → Contains ask.now.starts n → Contains (nodes self.now.features) n }
        ensures reply { IfOk result (λ reply. reply ≡ diagram_over (kept_survey self.now) ask.now) }
        ensures ticks { OnOk result (steps.new
            ≤ steps.old + length (reached_any (kept_survey self.now) ask.now.barriers ask.now.starts)) }
    {
        // For the proof alone.
        let _version = self.version();
        let kept = self.kept_ground();
        diagram(alloc, &kept, ask, steps)
    }

    /// The answer of a query for a path.
    pub(crate) fn path<L>(
        &self,
        alloc: Global,
        ask: &NamedPath,
        steps: &mut Steps<L>,
    ) -> Result<Reply, AllocError>
        ensures reply { IfOk result (λ reply. reply ≡ path_on self.now (kept_basis self.now) ask.now) }
        ensures ticks { OnOk result (steps.new ≤ steps.old + length (reached_by self.now (Path ask.now))) }
    {
        match resolve_path(alloc, &self.facts.setup().schema, &self.facts, ask) {
            Ok(typed) => {
                let reply = self.path_kept(alloc, &typed, steps)?;
                Ok(at_version(reply, self.version))
            }
            Err(refusal) => self.refused_by(refusal),
        }
    }

    /// The answer of a query for a check.
    pub(crate) fn check<L>(
        &self,
        alloc: Global,
        ask: &NamedCheck,
        steps: &mut Steps<L>,
    ) -> Result<Reply, AllocError>
        ensures reply { IfOk result (λ reply. reply ≡ check_on self.now (kept_basis self.now) ask.now) }
        ensures ticks { OnOk result (steps.new ≤ steps.old + length (reached_by self.now (Check ask.now))) }
    {
        match resolve_check(alloc, &self.facts.setup().schema, &self.facts, ask) {
            Ok(typed) => {
                let reply = self.check_kept(alloc, &typed, steps)?;
                Ok(at_version(reply, self.version))
            }
            Err(refusal) => self.refused_by(refusal),
        }
    }

    /// The answer of a query for a diagram.
    pub(crate) fn diagram<L>(
        &self,
        alloc: Global,
        ask: &NamedDiagram,
        steps: &mut Steps<L>,
    ) -> Result<Reply, AllocError>
        ensures reply { IfOk result (λ reply. reply ≡ diagram_on self.now (kept_basis self.now) ask.now) }
        ensures ticks { OnOk result (steps.new ≤ steps.old + length (reached_by self.now (Diagram ask.now))) }
    {
        match resolve_diagram(alloc, &self.facts.setup().schema, &self.facts, ask) {
            Ok(typed) => {
                let reply = self.diagram_kept(alloc, &typed, steps)?;
                Ok(at_version(reply, self.version))
            }
            Err(refusal) => self.refused_by(refusal),
        }
    }
}
