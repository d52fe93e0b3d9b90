// What a row has by its kind, and copies of rows.
ghost use Rattle.std.specs.Prelude.{◌≡◌, ◌≤◌, ◌<◌, Some, IfSome, IsSome, IsSomeAnd, slice_get, IfOk};
ghost use Rattle.std.specs.Option.{option_map_or};
ghost use Rattle.un_schema.specs.Catalog.{config_of};
ghost use Rattle.un_defs.specs.Sound.{terminals_by_class as by_class};
ghost use Rattle.un_defs.specs.Change.{first_path};

use std::alloc::{AllocError, Global};
use un_defs::Row;
use un_geom::Shape;
use un_schema::{Class, Schema};

// How many terminals a device of a kind has, and the path that it has at first.
pub(crate) fn configured(schema: &Schema, kind: u16) -> (u8, Option<usize>)
    ensures terminals { result.0 ≡ option_map_or (λ c. c.config.terminals) (config_of schema.now kind) 1 }
    ensures some { 1 ≤ result.0 }
    ensures path { result.1 ≡ first_path schema.now kind }
    ensures exists { IfSome result.1
        (λ path. IsSomeAnd (config_of schema.now kind) (λ c. IsSome (slice_get c.config.paths path))) }
{
    match schema.config(kind) {
        Some(config) => (config.terminals(), Some(0)),
        None => (1, None),
    }
}

// How many terminals a feature of a class has.
pub(crate) fn terminals_by_class(class: Class, configured: u8) -> u8
    ensures { result ≡ by_class class configured }
{
    match class {
        Class::Device => configured,
        Class::Junction => 1,
        Class::Line | Class::Assembly | Class::Structure => 0,
    }
}

// The row with another shape.
pub(crate) fn reshaped(alloc: Global, row: &Row, shape: Shape) -> Result<Row, AllocError>
    ensures { IfOk result (λ new. new ≡ record row.now { shape = shape }) }
{
    Ok(Row {
        id: row.id,
        kind: row.kind,
        class: row.class,
        terminals: row.terminals,
        shape,
        attrs: row.attrs.copy(),
        path: row.path,
        flow: row.flow,
        ends: row.ends,
        note: row.note.copy(alloc)?,
        moment: row.moment,
    })
}

// The same row.
pub(crate) fn copied(alloc: Global, row: &Row) -> Result<Row, AllocError>
    ensures { IfOk result (λ new. new ≡ row.now) }
{
    let shape = row.shape.copy(alloc)?;
    reshaped(alloc, row, shape)
}
