//! Queries, by their word.
ghost use Rattle.std.specs.Prelude.{◌≡◌, [], ◌∷◌, Ok, None, true, IfOk, IfErr};
ghost use Rattle.serde_json.specs.View.{view};
ghost use Rattle.un_schema.specs.declared.place.Place.TheVariants as place;
ghost use Rattle.serde_json.specs.Find.{as_bool};
ghost use Rattle.un_json.specs.Rows.{Blames, required_member, required_member_when, optional_member_when, answers};
ghost use Rattle.un_json.specs.Table.{query_answer, trace_row, required_members, optional_members, takes_starts, takes_tier, takes_subnet, takes_isolators, takes_consistent, takes_include};
ghost use Rattle.un_json.specs.Forms.{kind_of, starts_of, some_name_of, some_condition_of, include_of, functions_of, nothing};
ghost use Rattle.un_json.specs.declared.words.QueryWord.TheVariants as asks;

use crate::condition::{Barrier, SomeCondition};
use crate::diagram::read_diagram;
use crate::fault::ReadFault;
use crate::form::{no_others, optional, optional_when, required, required_when};
use crate::include::{Functions, Inclusions, nothing};
use crate::list::{Extent, Starts, Stops, no_ports};
use crate::path::{read_check, read_path};
use crate::scalar::{Base, Id, Kinds, Named, SomeName, Truth};
use crate::words::QueryWord;
use serde_json::Value;
use std::alloc::Global;
use un_ask::{Asked, Include, Name, NamedFuncs, Place, Query, RawCondition, TraceAsk, TraceKind};
use un_defs::port::Ports;

fn read_version(alloc: Global, object: &Value) -> Result<Query, ReadFault>
    ensures ok { IfOk result (λ query. query_answer asks.Version (view object.now) ≡ Ok query) }
    ensures err { IfErr result (λ e. Blames e (query_answer asks.Version (view object.now))) }
{
    let seen = optional::<Base>(alloc, object, Place::Seen, 0)?;
    no_others(object, &[Place::Ask, Place::Seen])?;
    Ok(Query {
        seen,
        what: Asked::Version,
    })
}

fn read_feature(alloc: Global, object: &Value) -> Result<Query, ReadFault>
    ensures ok { IfOk result (λ query. query_answer asks.Feature (view object.now) ≡ Ok query) }
    ensures err { IfErr result (λ e. Blames e (query_answer asks.Feature (view object.now))) }
{
    let id = required::<Id>(alloc, object, Place::Id)?;
    let seen = optional::<Base>(alloc, object, Place::Seen, 0)?;
    no_others(object, &[Place::Ask, Place::Id, Place::Seen])?;
    Ok(Query {
        seen,
        what: Asked::Feature { id },
    })
}

fn read_dirty(alloc: Global, object: &Value) -> Result<Query, ReadFault>
    ensures ok { IfOk result (λ query. query_answer asks.Dirty (view object.now) ≡ Ok query) }
    ensures err { IfErr result (λ e. Blames e (query_answer asks.Dirty (view object.now))) }
{
    let extent = required::<Extent>(alloc, object, Place::Extent)?;
    let seen = optional::<Base>(alloc, object, Place::Seen, 0)?;
    no_others(object, &[Place::Ask, Place::Extent, Place::Seen])?;
    Ok(Query {
        seen,
        what: Asked::Dirty { extent },
    })
}

fn read_errors(alloc: Global, object: &Value) -> Result<Query, ReadFault>
    ensures ok { IfOk result (λ query. query_answer asks.Errors (view object.now) ≡ Ok query) }
    ensures err { IfErr result (λ e. Blames e (query_answer asks.Errors (view object.now))) }
{
    let extent = required::<Extent>(alloc, object, Place::Extent)?;
    let seen = optional::<Base>(alloc, object, Place::Seen, 0)?;
    no_others(object, &[Place::Ask, Place::Extent, Place::Seen])?;
    Ok(Query {
        seen,
        what: Asked::Errors { extent },
    })
}

fn read_subnet(alloc: Global, object: &Value) -> Result<Query, ReadFault>
    ensures ok { IfOk result (λ query. query_answer asks.Subnet (view object.now) ≡ Ok query) }
    ensures err { IfErr result (λ e. Blames e (query_answer asks.Subnet (view object.now))) }
{
    let tier = required::<Named>(alloc, object, Place::Tier)?;
    let subnet = required::<Named>(alloc, object, Place::Subnet)?;
    let seen = optional::<Base>(alloc, object, Place::Seen, 0)?;
    no_others(
        object,
        &[Place::Ask, Place::Tier, Place::Subnet, Place::Seen],
    )?;
    Ok(Query {
        seen,
        what: Asked::Subnet { tier, subnet },
    })
}

fn read_trace(alloc: Global, object: &Value) -> Result<Query, ReadFault>
    ensures ok { IfOk result (λ query. query_answer asks.Trace (view object.now) ≡ Ok query) }
    ensures err { IfErr result (λ e. Blames e (query_answer asks.Trace (view object.now))) }
{
    let kind = required::<Kinds>(alloc, object, Place::Type)?;
    read_trace_of(alloc, kind, object)
}

/// The members of a trace of the kind that its member `type` gives.
fn read_trace_of(alloc: Global, kind: TraceKind, object: &Value) -> Result<Query, ReadFault>
    requires { required_member place.Type kind_of (view object.now) ≡ Ok kind }
    ensures ok { IfOk result (λ query. answers place.Ask (trace_row kind) (view object.now) ≡ Ok query) }
    ensures err { IfErr result (λ e. Blames e (answers place.Ask (trace_row kind) (view object.now))) }
{
    let given = read_required_members(alloc, kind, object)?;
    let options = read_optional_members(alloc, kind, object)?;
    let seen = optional::<Base>(alloc, object, Place::Seen, 0)?;
    no_others(object, members_of(kind))?;
    let trace = TraceAsk {
        kind,
        starts: given.starts,
        tier: given.tier,
        subnet: given.subnet,
        isolators: given.isolators,
        barriers: options.barriers,
        stops: options.stops,
        consistent: options.consistent,
        include: options.include,
        functions: options.functions,
    };
    Ok(Query {
        seen,
        what: Asked::Trace(trace),
    })
}

/// The members that the kind of a trace requires. What the kind does not take is none.
#[derive(Drop)]
pub(crate) struct RequiredMembers {
    starts: Ports,
    tier: Option<Name>,
    subnet: Option<Name>,
    isolators: Option<RawCondition>,
}

#[tactic(auto, unfolding(crate::specs::Table::required_members))]
fn read_required_members(
    alloc: Global,
    kind: TraceKind,
    object: &Value,
) -> Result<RequiredMembers, ReadFault>
    ensures ok { IfOk result (λ members. (required_members kind).value (view object.now) ≡ Ok members) }
    ensures err { IfErr result (λ e. Blames e ((required_members kind).value (view object.now))) }
{
    let starts = read_starts(alloc, kind, object)?;
    let tier = read_tier(alloc, kind, object)?;
    let subnet = read_subnet_of(alloc, kind, object)?;
    let isolators = read_isolators(alloc, kind, object)?;
    Ok(RequiredMembers {
        starts,
        tier,
        subnet,
        isolators,
    })
}

/// The members of a trace that may be absent, except for `seen`.
#[derive(Drop)]
pub(crate) struct OptionalMembers {
    barriers: Option<RawCondition>,
    stops: Ports,
    consistent: bool,
    include: Include,
    functions: NamedFuncs,
}

#[tactic(auto, unfolding(crate::specs::Table::optional_members))]
fn read_optional_members(
    alloc: Global,
    kind: TraceKind,
    object: &Value,
) -> Result<OptionalMembers, ReadFault>
    ensures ok { IfOk result (λ members. (optional_members kind).value (view object.now) ≡ Ok members) }
    ensures err { IfErr result (λ e. Blames e ((optional_members kind).value (view object.now))) }
{
    let barriers = optional::<Barrier>(alloc, object, Place::Barriers, None)?;
    let stops = optional::<Stops>(alloc, object, Place::Stops, no_ports(alloc))?;
    let consistent = read_consistent(alloc, kind, object)?;
    let include = read_include(alloc, kind, object)?;
    let functions = read_functions(alloc, kind, object)?;
    Ok(OptionalMembers {
        barriers,
        stops,
        consistent,
        include,
        functions,
    })
}

/// The ports from which the trace starts.
fn read_starts(alloc: Global, kind: TraceKind, object: &Value) -> Result<Ports, ReadFault>
    ensures ok { IfOk result
        (λ ports. required_member_when (takes_starts kind) place.Starts starts_of [] (view object.now) ≡ Ok ports) }
    ensures err { IfErr result
        (λ e. Blames e (required_member_when (takes_starts kind) place.Starts starts_of [] (view object.now))) }
{
    let taken = !matches!(kind, TraceKind::Subnetwork);
    required_when::<Starts>(taken, alloc, object, Place::Starts, no_ports(alloc))
}

/// The tier whose barriers apply.
fn read_tier(alloc: Global, kind: TraceKind, object: &Value) -> Result<Option<Name>, ReadFault>
    ensures ok { IfOk result
        (λ tier. required_member_when (takes_tier kind) place.Tier some_name_of None (view object.now) ≡ Ok tier) }
    ensures err { IfErr result
        (λ e. Blames e (required_member_when (takes_tier kind) place.Tier some_name_of None (view object.now))) }
{
    let taken = !matches!(kind, TraceKind::Connected | TraceKind::Loops);
    required_when::<SomeName>(taken, alloc, object, Place::Tier, None)
}

/// The subnetwork from whose controllers the trace starts.
fn read_subnet_of(alloc: Global, kind: TraceKind, object: &Value) -> Result<Option<Name>, ReadFault>
    ensures ok { IfOk result
        (λ subnet. required_member_when (takes_subnet kind) place.Subnet some_name_of None (view object.now) ≡ Ok subnet) }
    ensures err { IfErr result
        (λ e. Blames e (required_member_when (takes_subnet kind) place.Subnet some_name_of None (view object.now))) }
{
    let taken = matches!(kind, TraceKind::Subnetwork);
    required_when::<SomeName>(taken, alloc, object, Place::Subnet, None)
}

/// The condition that isolating features meet.
fn read_isolators(
    alloc: Global,
    kind: TraceKind,
    object: &Value,
) -> Result<Option<RawCondition>, ReadFault>
    ensures ok { IfOk result
        (λ isolators. required_member_when (takes_isolators kind) place.Isolators some_condition_of None (view object.now) ≡ Ok isolators) }
    ensures err { IfErr result
        (λ e. Blames e (required_member_when (takes_isolators kind) place.Isolators some_condition_of None (view object.now))) }
{
    let taken = matches!(kind, TraceKind::Isolation);
    required_when::<SomeCondition>(taken, alloc, object, Place::Isolators, None)
}

/// Whether the trace is consistent.
fn read_consistent(alloc: Global, kind: TraceKind, object: &Value) -> Result<bool, ReadFault>
    ensures ok { IfOk result
        (λ consistent. optional_member_when (takes_consistent kind) place.Consistent as_bool true (view object.now) ≡ Ok consistent) }
    ensures err { IfErr result
        (λ e. Blames e (optional_member_when (takes_consistent kind) place.Consistent as_bool true (view object.now))) }
{
    let taken = !matches!(kind, TraceKind::Loops | TraceKind::Isolation);
    optional_when::<Truth>(taken, alloc, object, Place::Consistent, true)
}

/// What the result of the trace includes besides its features.
fn read_include(alloc: Global, kind: TraceKind, object: &Value) -> Result<Include, ReadFault>
    ensures ok { IfOk result
        (λ include. optional_member_when (takes_include kind) place.Include include_of nothing (view object.now) ≡ Ok include) }
    ensures err { IfErr result
        (λ e. Blames e (optional_member_when (takes_include kind) place.Include include_of nothing (view object.now))) }
{
    optional_when::<Inclusions>(has_result(kind), alloc, object, Place::Include, nothing())
}

/// The functions over the features of the trace.
fn read_functions(alloc: Global, kind: TraceKind, object: &Value) -> Result<NamedFuncs, ReadFault>
    ensures ok { IfOk result
        (λ functions. optional_member_when (takes_include kind) place.Functions functions_of [] (view object.now) ≡ Ok functions) }
    ensures err { IfErr result
        (λ e. Blames e (optional_member_when (takes_include kind) place.Functions functions_of [] (view object.now))) }
{
    optional_when::<Functions>(
        has_result(kind),
        alloc,
        object,
        Place::Functions,
        no_functions(alloc),
    )
}

/// Whether a trace of the kind has a result, which takes inclusions and functions.
fn has_result(kind: TraceKind) -> bool
    ensures { result ≡ takes_include kind }
{
    matches!(
        kind,
        TraceKind::Connected | TraceKind::Subnetwork | TraceKind::Upstream | TraceKind::Downstream
    )
}

const MEMBERS_OF_CONNECTED: [Place; 9] = [
    Place::Ask,
    Place::Type,
    Place::Starts,
    Place::Barriers,
    Place::Stops,
    Place::Consistent,
    Place::Include,
    Place::Functions,
    Place::Seen,
];

const MEMBERS_OF_SUBNETWORK: [Place; 10] = [
    Place::Ask,
    Place::Type,
    Place::Tier,
    Place::Subnet,
    Place::Barriers,
    Place::Stops,
    Place::Consistent,
    Place::Include,
    Place::Functions,
    Place::Seen,
];

const MEMBERS_OF_CONTROLLERS: [Place; 8] = [
    Place::Ask,
    Place::Type,
    Place::Starts,
    Place::Tier,
    Place::Barriers,
    Place::Stops,
    Place::Consistent,
    Place::Seen,
];

/// The members of an upstream or a downstream trace.
const MEMBERS_OF_STREAM: [Place; 10] = [
    Place::Ask,
    Place::Type,
    Place::Starts,
    Place::Tier,
    Place::Barriers,
    Place::Stops,
    Place::Consistent,
    Place::Include,
    Place::Functions,
    Place::Seen,
];

const MEMBERS_OF_LOOPS: [Place; 6] = [
    Place::Ask,
    Place::Type,
    Place::Starts,
    Place::Barriers,
    Place::Stops,
    Place::Seen,
];

const MEMBERS_OF_ISOLATION: [Place; 8] = [
    Place::Ask,
    Place::Type,
    Place::Starts,
    Place::Tier,
    Place::Isolators,
    Place::Barriers,
    Place::Stops,
    Place::Seen,
];

/// The names of the members of a trace of a kind.
#[tactic(auto, unfolding(crate::specs::Table::required_members, crate::specs::Table::optional_members))]
fn members_of(kind: TraceKind) -> &'static [Place]
    ensures { result.now ≡ place.Ask ∷ (trace_row kind).places }
{
    match kind {
        TraceKind::Connected => &MEMBERS_OF_CONNECTED,
        TraceKind::Subnetwork => &MEMBERS_OF_SUBNETWORK,
        TraceKind::Controllers => &MEMBERS_OF_CONTROLLERS,
        TraceKind::Upstream | TraceKind::Downstream => &MEMBERS_OF_STREAM,
        TraceKind::Loops => &MEMBERS_OF_LOOPS,
        TraceKind::Isolation => &MEMBERS_OF_ISOLATION,
    }
}

fn no_functions(alloc: Global) -> NamedFuncs
    ensures { result ≡ [] }
{
    NamedFuncs::new(Vec::new(alloc))
}

/// Reads an object as the query of this word.
pub(crate) fn read_query(alloc: Global, word: QueryWord, object: &Value) -> Result<Query, ReadFault>
    ensures ok { IfOk result (λ query. query_answer word (view object.now) ≡ Ok query) }
    ensures err { IfErr result (λ e. Blames e (query_answer word (view object.now))) }
{
    match word {
        QueryWord::Version => read_version(alloc, object),
        QueryWord::Feature => read_feature(alloc, object),
        QueryWord::Dirty => read_dirty(alloc, object),
        QueryWord::Errors => read_errors(alloc, object),
        QueryWord::Subnet => read_subnet(alloc, object),
        QueryWord::Trace => read_trace(alloc, object),
        QueryWord::Path => read_path(alloc, object),
        QueryWord::Check => read_check(alloc, object),
        QueryWord::Diagram => read_diagram(alloc, object),
    }
}
