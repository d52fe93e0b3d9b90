//! Starts on isolating devices.

ghost use Rattle.std.specs.Prelude.{◌≡◌, Some, None, OnOk, IfErr};
ghost use Rattle.un_resolve.specs.Valves.{row_isolates, isolates, valves_refusal};

use un_conds::{Cond, holds};
use un_defs::{Directory, Port, Refusal, Row};
use un_schema::{Class, Schema};

/// The row is a device that meets the condition.
fn row_isolates(schema: &Schema, isolators: &Option<Cond>, row: &Row) -> bool
    ensures { result ≡ row_isolates schema.now isolators.now row.now }
{
    match isolators {
        Some(cond) => {
            row.class == Class::Device && holds(cond, row.attrs.pairs(), schema.cats(row.kind).0)
        }
        None => false,
    }
}

/// The port is one of an isolating device, by its row as it is now.
fn isolates<D: Directory>(
    schema: &Schema,
    features: &D,
    isolators: &Option<Cond>,
    port: Port,
) -> bool
    ensures { result ≡ isolates schema.now (D.features features.now) isolators.now port }
{
    match features.row(port.feature) {
        Some(row) => row_isolates(schema, isolators, row),
        None => false,
    }
}

/// Refuses the first port of an isolating device.
pub(crate) fn check_valves<D: Directory>(
    schema: &Schema,
    features: &D,
    isolators: &Option<Cond>,
    ports: &[Port],
) -> Result<(), Refusal>
    ensures good { OnOk result
        (valves_refusal schema.now (D.features features.now) isolators.now ports.now ≡ None) }
    ensures bad { IfErr result
        (λ r. valves_refusal schema.now (D.features features.now) isolators.now ports.now ≡ Some r) }
{
    for port in ports {
        if isolates(schema, features, isolators, *port) {
            return Err(Refusal::StartIsValve {
                feature: port.feature,
                terminal: port.number,
            });
        }
    }
    Ok(())
}
