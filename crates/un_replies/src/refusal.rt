//! Refusals: their numbers and names, and what each carries.
//!
//! The members of a refusal are in the byte order of their names. So the values that it carries are in four places: before
//! `edit`, between `error` and `name`, between `name` and `version`, and after `version`.
ghost use Rattle.std.specs.Prelude.{◌≡◌, ◌+◌, ◌≤◌, [], ◌∷◌, ◌++◌, codes, vec_len, vec_capacity};
ghost use Rattle.serde_json.specs.Data.{string};
ghost use Rattle.un_schema.specs.Places.{place_text};
ghost use Rattle.serde_json.specs.Written.{compact_text};
ghost use Rattle.un_replies.specs.Commands.{HasName};
ghost use Rattle.un_replies.specs.Refusals.{refusal_value, fields_value, fields_of, limit_text, has_version, edit_member, version_member};
ghost use Rattle.un_replies.specs.Pieces.{leading, following, early, middle, late, last};

use crate::member::{follow_count, follow_name, follow_string, lead_count, lead_name, lead_place};
use crate::put::{put, put_number};
use un_defs::{Limit, Refusal};
use un_schema::Place;

/// The number of a refusal.
fn number_of(refusal: &Refusal) -> u64
    ensures { result ≡ (fields_of refusal.now).error }
{
    match refusal {
        Refusal::NotJson => 1,
        Refusal::BadRequest { .. } => 2,
        Refusal::LineTooLong => 3,
        Refusal::BadSchema { .. } => 6,
        Refusal::NoSuchFeature { .. } => 10,
        Refusal::Moved { .. } => 11,
        Refusal::BadShape { .. } => 12,
        Refusal::NoSuchKind { .. } => 13,
        Refusal::BadAttribute { .. } => 14,
        Refusal::BadTerminal { .. } => 15,
        Refusal::BadPath => 16,
        Refusal::HasAssociations { .. } => 17,
        Refusal::HasControllers => 18,
        Refusal::NoSuchAssociation => 19,
        Refusal::WrongKind => 20,
        Refusal::AlreadyContained { .. } => 21,
        Refusal::ContainsItself => 22,
        Refusal::NoSuchTier => 23,
        Refusal::NotController => 24,
        Refusal::ControllerExists => 25,
        Refusal::NoSuchController => 26,
        Refusal::NoSuchSubnetwork => 27,
        Refusal::Conflict { .. } => 28,
        Refusal::Disjoint { .. } => 29,
        Refusal::Full { .. } => 30,
        Refusal::Ahead { .. } => 31,
        Refusal::NoStart { .. } => 40,
        Refusal::StartIsValve { .. } => 41,
        Refusal::BadCondition { .. } => 42,
        Refusal::DirtyGround { .. } => 43,
        Refusal::NotIsolable { .. } => 44,
        Refusal::BadRuleTerminal { .. } => 45,
        Refusal::RuleExists { .. } => 46,
        Refusal::NotYet { .. } => 47,
        Refusal::ServeOnly => 48,
        Refusal::WrongPage { .. } => 49,
        Refusal::BadSpan { .. } => 50,
        // Running out of memory has a reply of its own.
        Refusal::Memory => 0,
    }
}

/// The name of a refusal.
fn name_of(refusal: &Refusal) -> &'static str
    ensures { result.now ≡ (fields_of refusal.now).name }
{
    match refusal {
        Refusal::NotJson => "NotJson",
        Refusal::BadRequest { .. } => "BadRequest",
        Refusal::LineTooLong => "LineTooLong",
        Refusal::BadSchema { .. } => "BadSchema",
        Refusal::NoSuchFeature { .. } => "NoSuchFeature",
        Refusal::Moved { .. } => "Moved",
        Refusal::BadShape { .. } => "BadShape",
        Refusal::NoSuchKind { .. } => "NoSuchKind",
        Refusal::BadAttribute { .. } => "BadAttribute",
        Refusal::BadTerminal { .. } => "BadTerminal",
        Refusal::BadPath => "BadPath",
        Refusal::HasAssociations { .. } => "HasAssociations",
        Refusal::HasControllers => "HasControllers",
        Refusal::NoSuchAssociation => "NoSuchAssociation",
        Refusal::WrongKind => "WrongKind",
        Refusal::AlreadyContained { .. } => "AlreadyContained",
        Refusal::ContainsItself => "ContainsItself",
        Refusal::NoSuchTier => "NoSuchTier",
        Refusal::NotController => "NotController",
        Refusal::ControllerExists => "ControllerExists",
        Refusal::NoSuchController => "NoSuchController",
        Refusal::NoSuchSubnetwork => "NoSuchSubnetwork",
        Refusal::Conflict { .. } => "Conflict",
        Refusal::Disjoint { .. } => "Disjoint",
        Refusal::Full { .. } => "Full",
        Refusal::Ahead { .. } => "Ahead",
        Refusal::NoStart { .. } => "NoStart",
        Refusal::StartIsValve { .. } => "StartIsValve",
        Refusal::BadCondition { .. } => "BadCondition",
        Refusal::DirtyGround { .. } => "DirtyGround",
        Refusal::NotIsolable { .. } => "NotIsolable",
        Refusal::BadRuleTerminal { .. } => "BadRuleTerminal",
        Refusal::RuleExists { .. } => "RuleExists",
        Refusal::NotYet { .. } => "NotYet",
        Refusal::ServeOnly => "ServeOnly",
        Refusal::WrongPage { .. } => "WrongPage",
        Refusal::BadSpan { .. } => "BadSpan",
        Refusal::Memory => "",
    }
}

fn limit_text(limit: Limit) -> &'static str
    ensures { result.now ≡ limit_text limit }
{
    match limit {
        Limit::Numbers => "numbers",
        Limit::Features => "features",
        Limit::Areas => "areas",
        Limit::Associations => "associations",
        Limit::Contents => "contents",
        Limit::Controllers => "controllers",
        Limit::Subnetworks => "subnetworks",
        Limit::Rules => "rules",
    }
}

// Puts what is carried before `edit`.
#[tactic(auto, using(crate::proofs::Groups::early_none, crate::proofs::Groups::lead_two), unfolding(serde_json::proofs::OnLiterals::serde_json_on_literals))]
fn put_early(out: &mut Vec<u8>, refusal: &Refusal)
    requires named { HasName refusal.now }
    requires room { vec_len out.old + 80 ≤ vec_capacity out.old }
    ensures items { out.new.items ≡ out.old.items ++ leading (early refusal.now) }
    ensures len { vec_len out.new ≤ vec_len out.old + 80 }
    ensures capacity { vec_capacity out.old ≤ vec_capacity out.new }
{
    match refusal {
        Refusal::Moved { at } | Refusal::NotYet { at, .. } => lead_count(out, "at", *at),
        Refusal::AlreadyContained { by } => lead_count(out, "by", *by),
        Refusal::DirtyGround { area, .. } => lead_count(out, "area", *area),
        Refusal::BadAttribute { attribute } => lead_name(out, "attribute", attribute),
        Refusal::WrongPage { after, at } => {
            lead_place(out, "after", *after);
            lead_count(out, "at", *at);
        }
        _ => {}
    }
}

// Puts what is carried between `error` and `name`.
#[tactic(auto, using(crate::proofs::Groups::middle_none), unfolding(serde_json::proofs::OnLiterals::serde_json_on_literals))]
fn put_middle(out: &mut Vec<u8>, refusal: &Refusal)
    requires named { HasName refusal.now }
    requires room { vec_len out.old + 64 ≤ vec_capacity out.old }
    ensures items { out.new.items ≡ out.old.items ++ following (middle refusal.now) }
    ensures len { vec_len out.new ≤ vec_len out.old + 64 }
    ensures capacity { vec_capacity out.old ≤ vec_capacity out.new }
{
    match refusal {
        Refusal::NoSuchFeature { id } => follow_count(out, "id", *id),
        Refusal::NoSuchKind { kind } => follow_name(out, "kind", kind),
        Refusal::HasAssociations { least } => follow_count(out, "least", *least),
        Refusal::Ahead { latest, .. } | Refusal::NotYet { latest, .. } => {
            follow_count(out, "latest", *latest)
        }
        Refusal::BadTerminal { feature }
        | Refusal::Conflict { feature, .. }
        | Refusal::Disjoint { feature, .. }
        | Refusal::NoStart { feature, .. }
        | Refusal::StartIsValve { feature, .. }
        | Refusal::DirtyGround { feature, .. }
        | Refusal::NotIsolable { feature, .. } => follow_count(out, "feature", *feature),
        _ => {}
    }
}

// Puts a place.
#[tactic(auto, using(crate::proofs::Plain::place_text_plain, crate::proofs::Plain::place_text_short), unfolding(serde_json::proofs::OnLiterals::serde_json_on_literals))]
fn follow_place(out: &mut Vec<u8>, place: Place)
    requires { vec_len out.old + 32 ≤ vec_capacity out.old }
    ensures items { out.new.items
        ≡ out.old.items ++ following ((codes "place", string (place_text place)) ∷ []) }
    ensures len { vec_len out.new ≤ vec_len out.old + 32 }
    ensures capacity { vec_capacity out.old ≤ vec_capacity out.new }
{
    follow_string(out, "place", place.text());
}

// Puts what is carried between `name` and `version`.
#[tactic(auto, using(crate::proofs::Groups::late_none, crate::proofs::Groups::follow_two), unfolding(serde_json::proofs::OnLiterals::serde_json_on_literals))]
fn put_late(out: &mut Vec<u8>, refusal: &Refusal)
    requires named { HasName refusal.now }
    requires room { vec_len out.old + 80 ≤ vec_capacity out.old }
    ensures items { out.new.items ≡ out.old.items ++ following (late refusal.now) }
    ensures len { vec_len out.new ≤ vec_len out.old + 80 }
    ensures capacity { vec_capacity out.old ≤ vec_capacity out.new }
{
    match refusal {
        Refusal::BadRequest { place }
        | Refusal::BadSchema { place }
        | Refusal::BadCondition { place } => follow_place(out, *place),
        Refusal::BadShape { place }
        | Refusal::BadRuleTerminal { place }
        | Refusal::RuleExists { place } => follow_count(out, "place", *place as u64),
        Refusal::Conflict { subnet, port, .. } => {
            follow_count(out, "port", *port as u64);
            follow_name(out, "subnet", subnet);
        }
        Refusal::Disjoint { port, .. }
        | Refusal::NoStart { port, .. }
        | Refusal::DirtyGround { port, .. } => follow_count(out, "port", *port as u64),
        Refusal::Ahead { seen, .. } => follow_count(out, "seen", *seen),
        Refusal::BadSpan { since, upto } => {
            follow_count(out, "since", *since);
            follow_count(out, "upto", *upto);
        }
        Refusal::StartIsValve { terminal, .. } | Refusal::NotIsolable { terminal, .. } => {
            follow_count(out, "terminal", *terminal as u64)
        }
        _ => {}
    }
}

// Puts what is carried after `version`.
#[tactic(auto, using(crate::proofs::Groups::last_none, crate::proofs::Plain::limit_text_plain, crate::proofs::Plain::limit_text_short), unfolding(serde_json::proofs::OnLiterals::serde_json_on_literals))]
fn put_last(out: &mut Vec<u8>, refusal: &Refusal)
    requires { vec_len out.old + 32 ≤ vec_capacity out.old }
    ensures items { out.new.items ≡ out.old.items ++ following (last refusal.now) }
    ensures len { vec_len out.new ≤ vec_len out.old + 32 }
    ensures capacity { vec_capacity out.old ≤ vec_capacity out.new }
{
    match refusal {
        Refusal::Full { what } => follow_string(out, "what", limit_text(*what)),
        _ => {}
    }
}

// Puts the place of the refused edit in a batch.
#[tactic(auto, unfolding(serde_json::proofs::OnLiterals::serde_json_on_literals))]
fn put_edit(out: &mut Vec<u8>, edit: Option<u64>)
    requires { vec_len out.old + 28 ≤ vec_capacity out.old }
    ensures items { out.new.items ≡ out.old.items ++ leading (edit_member edit) }
    ensures len { vec_len out.new ≤ vec_len out.old + 28 }
    ensures capacity { vec_capacity out.old ≤ vec_capacity out.new }
{
    if let Some(edit) = edit {
        lead_count(out, "edit", edit);
    }
}

/// Whether the refusal with this number carries the version.
fn has_version(number: u64) -> bool
    ensures { result ≡ has_version number }
{
    !matches!(number, 1 | 2 | 3 | 6 | 31 | 47 | 48 | 49)
}

// Puts the version, if the refusal carries it.
#[tactic(auto, unfolding(serde_json::proofs::OnLiterals::serde_json_on_literals))]
fn put_version(out: &mut Vec<u8>, number: u64, version: u64)
    requires { vec_len out.old + 31 ≤ vec_capacity out.old }
    ensures items { out.new.items ≡ out.old.items ++ following (version_member (has_version number) version) }
    ensures len { vec_len out.new ≤ vec_len out.old + 31 }
    ensures capacity { vec_capacity out.old ≤ vec_capacity out.new }
{
    if has_version(number) {
        follow_count(out, "version", version);
    }
}

// Puts a refusal that has a number.
#[tactic(auto, using(crate::proofs::RefusalTexts::fields_steps, crate::proofs::RefusalTexts::name_plain, crate::proofs::RefusalTexts::name_short), unfolding(serde_json::proofs::OnLiterals::serde_json_on_literals))]
fn put_numbered(out: &mut Vec<u8>, refusal: &Refusal, edit: Option<u64>, version: u64)
    requires named { HasName refusal.now }
    requires room { vec_len out.old + 400 ≤ vec_capacity out.old }
    ensures items { out.new.items
        ≡ out.old.items ++ compact_text (fields_value (fields_of refusal.now) edit version) }
    ensures len { vec_len out.new ≤ vec_len out.old + 400 }
    ensures capacity { vec_capacity out.old ≤ vec_capacity out.new }
{
    let number = number_of(refusal);
    put(out, b"{");
    put_early(out, refusal);
    put_edit(out, edit);
    put(out, b"\"error\":");
    put_number(out, number);
    put_middle(out, refusal);
    follow_string(out, "name", name_of(refusal));
    put_late(out, refusal);
    put_version(out, number, version);
    put_last(out, refusal);
    put(out, b"}");
}

/// Puts a refusal, with its place in a batch and the version if it carries them.
#[tactic(auto, using(crate::proofs::RefusalTexts::fields_other), unfolding(serde_json::proofs::OnLiterals::serde_json_on_literals))]
pub(crate) fn put_refusal(out: &mut Vec<u8>, refusal: &Refusal, edit: Option<u64>, version: u64)
    requires named { HasName refusal.now }
    requires room { vec_len out.old + 400 ≤ vec_capacity out.old }
    ensures items { out.new.items ≡ out.old.items ++ compact_text (refusal_value refusal.now edit version) }
    ensures len { vec_len out.new ≤ vec_len out.old + 400 }
    ensures capacity { vec_capacity out.old ≤ vec_capacity out.new }
{
    match refusal {
        Refusal::Memory => put(out, b"{\"memory\":true}"),
        _ => put_numbered(out, refusal, edit, version),
    }
}
