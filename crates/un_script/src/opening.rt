//! The first line of a run: a schema, or its refusal.

mod fixed;
mod replies;
mod status;

pub(crate) use fixed::{line_too_long, no_schema, schema_too_long};
pub(crate) use replies::{print_bad_schema, print_line, refuse, refused};
pub(crate) use status::run_status;
