//! Copies of refusals.
ghost use Rattle.std.specs.Prelude.{◌≡◌, IfOk};
ghost use Rattle.un_ask.specs.Groups.{HasName, HasNumbers};

use std::alloc::{AllocError, Global};
use un_defs::Refusal;

/// A refusal that holds several numbers.
fn copy_numbers(refusal: &Refusal) -> Refusal
    requires { HasNumbers refusal.now }
    ensures { result ≡ refusal.now }
{
    match refusal {
        Refusal::Disjoint { feature, port } => Refusal::Disjoint {
            feature: *feature,
            port: *port,
        },
        Refusal::Ahead { seen, latest } => Refusal::Ahead {
            seen: *seen,
            latest: *latest,
        },
        Refusal::NoStart { feature, port } => Refusal::NoStart {
            feature: *feature,
            port: *port,
        },
        Refusal::StartIsValve { feature, terminal } => Refusal::StartIsValve {
            feature: *feature,
            terminal: *terminal,
        },
        Refusal::DirtyGround {
            area,
            feature,
            port,
        } => Refusal::DirtyGround {
            area: *area,
            feature: *feature,
            port: *port,
        },
        Refusal::NotIsolable { feature, terminal } => Refusal::NotIsolable {
            feature: *feature,
            terminal: *terminal,
        },
        Refusal::NotYet { at, latest } => Refusal::NotYet {
            at: *at,
            latest: *latest,
        },
        Refusal::WrongPage { after, at } => Refusal::WrongPage {
            after: *after,
            at: *at,
        },
        Refusal::BadSpan { since, upto } => Refusal::BadSpan {
            since: *since,
            upto: *upto,
        },
        _ => unreachable!(),
    }
}

/// A refusal that holds a name.
fn copy_named(alloc: Global, refusal: &Refusal) -> Result<Refusal, AllocError>
    requires { HasName refusal.now }
    ensures { IfOk result (λ copy. copy ≡ refusal.now) }
{
    match refusal {
        Refusal::NoSuchKind { kind } => Ok(Refusal::NoSuchKind {
            kind: kind.copy(alloc)?,
        }),
        Refusal::BadAttribute { attribute } => Ok(Refusal::BadAttribute {
            attribute: attribute.copy(alloc)?,
        }),
        Refusal::Conflict {
            subnet,
            feature,
            port,
        } => Ok(Refusal::Conflict {
            subnet: subnet.copy(alloc)?,
            feature: *feature,
            port: *port,
        }),
        _ => unreachable!(),
    }
}

/// An equal refusal of its own.
pub(super) fn copy_refusal(alloc: Global, refusal: &Refusal) -> Result<Refusal, AllocError>
    ensures { IfOk result (λ copy. copy ≡ refusal.now) }
{
    match refusal {
        Refusal::NotJson => Ok(Refusal::NotJson),
        Refusal::BadRequest { place } => Ok(Refusal::BadRequest { place: *place }),
        Refusal::LineTooLong => Ok(Refusal::LineTooLong),
        Refusal::BadSchema { place } => Ok(Refusal::BadSchema { place: *place }),
        Refusal::NoSuchFeature { id } => Ok(Refusal::NoSuchFeature { id: *id }),
        Refusal::Moved { at } => Ok(Refusal::Moved { at: *at }),
        Refusal::BadShape { place } => Ok(Refusal::BadShape { place: *place }),
        Refusal::BadTerminal { feature } => Ok(Refusal::BadTerminal { feature: *feature }),
        Refusal::BadPath => Ok(Refusal::BadPath),
        Refusal::HasAssociations { least } => Ok(Refusal::HasAssociations { least: *least }),
        Refusal::HasControllers => Ok(Refusal::HasControllers),
        Refusal::NoSuchAssociation => Ok(Refusal::NoSuchAssociation),
        Refusal::WrongKind => Ok(Refusal::WrongKind),
        Refusal::AlreadyContained { by } => Ok(Refusal::AlreadyContained { by: *by }),
        Refusal::ContainsItself => Ok(Refusal::ContainsItself),
        Refusal::NoSuchTier => Ok(Refusal::NoSuchTier),
        Refusal::NotController => Ok(Refusal::NotController),
        Refusal::ControllerExists => Ok(Refusal::ControllerExists),
        Refusal::NoSuchController => Ok(Refusal::NoSuchController),
        Refusal::NoSuchSubnetwork => Ok(Refusal::NoSuchSubnetwork),
        Refusal::Full { what } => Ok(Refusal::Full { what: *what }),
        Refusal::BadCondition { place } => Ok(Refusal::BadCondition { place: *place }),
        Refusal::BadRuleTerminal { place } => Ok(Refusal::BadRuleTerminal { place: *place }),
        Refusal::RuleExists { place } => Ok(Refusal::RuleExists { place: *place }),
        Refusal::ServeOnly => Ok(Refusal::ServeOnly),
        Refusal::Memory => Ok(Refusal::Memory),
        Refusal::NoSuchKind { .. } | Refusal::BadAttribute { .. } | Refusal::Conflict { .. } => {
            copy_named(alloc, refusal)
        }
        _ => Ok(copy_numbers(refusal)),
    }
}
