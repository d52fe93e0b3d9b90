//! Rules that come into force.
ghost use Rattle.std.specs.Prelude.{◌≡◌, ◌<◌, ◌+◌, length, None, Some, IsTrue, IfOk, OnOk};
ghost use Rattle.un_schema.specs.Fits.{has_classes};
ghost use Rattle.un_defs.specs.declared.edit.Edit.TheVariants.{Rule as RuleEdit};
ghost use Rattle.un_defs.specs.Dirtied.{dirtied};
ghost use Rattle.un_dirty.specs.Areas.{added};
ghost use Rattle.un_core.specs.Step.{made_at, rule_of, ruled, dirtied_by_rule};
ghost use Rattle.un_defs.specs.Refusing.{Refuses};
ghost use Rattle.un_core.specs.Refusals.{added_refusal, rule_refusal, too_many};
ghost use Rattle.un_core.specs.Cover.{IsState};
ghost use Rattle.un_core.specs.Making.{with_parts};

use crate::edit::{Edited, check_room};
use crate::net::Net;
use std::alloc::{AllocError, Global};
use un_ask::NamedRule;
use un_defs::Refusal;
use un_dirty::Dirty;
use un_facts::{Facts, NextIds, Ruled};
use un_geom::Rect;
use un_resolve::resolve_rule;
use un_schema::Rule;

// The areas with some more, of these rectangles.
fn with_areas(dirty: &Dirty, alloc: Global, rects: &[Rect]) -> Result<Dirty, Refusal>
    requires next { dirty.now.next < 9_000_000_000_100_000 }
    ensures list { IfOk result (λ d. d ≡ added dirty.now rects.now) }
    ensures good { OnOk result (too_many dirty.now.areas rects.now ≡ None) }
    ensures bad { Refuses result (too_many dirty.now.areas rects.now) }
{
    check_room(dirty, rects)?;
    let same = dirty.share()?;
    let more = same.with(alloc, rects)?;
    Ok(more)
}

impl Net {
    // The network with what a rule changes in place of its own.
    fn with_made(&self, facts: Facts, dirty: Dirty, ids: NextIds) -> Result<Net, AllocError>
        requires { IsState (with_parts self.now facts dirty ids) }
        ensures { IfOk result (λ net. net ≡ with_parts self.now facts dirty ids) }
    {
        let kept = self.kept.share()?;
        let stored = self.stored.share()?;
        Ok(Net {
            facts,
            kept,
            dirty,
            stored,
            version: self.version,
            ids,
        })
    }

    // The network once a rule with its kinds by number is in force. The version stays.
    fn add_rule(&self, alloc: Global, rule: &Rule) -> Result<Edited, Refusal>
        requires classes { IsTrue (has_classes self.now.setup.schema rule.now) }
        requires area { self.now.next_area < 9_000_000_000_100_000 }
        ensures state { IfOk result (λ m. m.net ≡ made_at 0 self.now (RuleEdit rule.now)) }
        ensures dirtied { IfOk result (λ m. m.dirtied.items ≡ dirtied self.now.features (RuleEdit rule.now)) }
        ensures good { OnOk result (added_refusal self.now (Some rule.now) ≡ None) }
        ensures bad { Refuses result (added_refusal self.now (Some rule.now)) }
    {
        let Ruled { facts, dirtied } = self.facts.add_rule(alloc, rule)?;
        let dirty = with_areas(&self.dirty, alloc, &dirtied)?;
        let net = self.with_made(facts, dirty, self.ids)?;
        Ok(Edited { net, dirtied })
    }

    /// The network once a rule is in force.
    ///
    /// The least rectangle that covers the points which the rule may change becomes a dirty area: of a rule for lines, the points where a
    /// device or junction of the rule's kind and a vertex of a line of its kind stand; of a rule for associations, all points of both ends of
    /// those that it may be for.
    ///
    /// It is refused by `Full` where the numbers are used up; as `resolve_rule` and then `Facts::add_rule` refuse it; and by `Full` at last,
    /// where it makes an area and there would be more than 65,536.
    pub(crate) fn rule(&self, alloc: Global, rule: &NamedRule) -> Result<Edited, Refusal>
        ensures state { IfOk result (λ m. m.net ≡ ruled self.now (rule_of self.now rule.now)) }
        ensures dirtied { IfOk result (λ m. m.dirtied.items
            ≡ dirtied_by_rule self.now (rule_of self.now rule.now)) }
        ensures rules { IfOk result (λ m. length m.net.features.rules ≡ length self.now.features.rules + 1) }
        ensures good { OnOk result (rule_refusal self.now rule.now ≡ None) }
        ensures bad { Refuses result (rule_refusal self.now rule.now) }
    {
        self.check_numbers()?;
        let rule = resolve_rule(alloc, &self.facts.setup().schema, rule)?;
        let Edited { mut net, dirtied } = self.add_rule(alloc, &rule)?;
        net.version = self.version + 1;
        Ok(Edited { net, dirtied })
    }
}
