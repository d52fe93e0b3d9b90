//! Requests and replies as types.
//!
//! A request that is a value of these types has the form that a request must have: its names are names, its extents
//! are not turned round, the names of its attributes are distinct and stand in byte order, and a batch has 1 to 256
//! edits. What is asked of the state beyond that is looked at by the state.
#![tactic(auto)]

pub mod areas;
mod copy;
pub mod diagram;
pub mod edits;
pub mod path;
pub mod query;
pub mod reply;
pub mod request;
pub mod results;
pub mod rule;
pub mod stored;
pub mod trace;
pub mod typed;
pub mod word;

pub use areas::{Areas, PlacedErrors, Points};
pub use diagram::NamedDiagram;
pub use edits::Edits;
pub use path::{NamedCheck, NamedPath};
pub use query::{Asked, ChangesQuery, PastQuery, Query};
pub use reply::{FeatureReply, Reply, ResultReply};
pub use request::{Command, Request};
pub use results::{
    Controllers, Edge, Edges, Label, Labels, Numbers, Part, Parts, Piece, Pieces, Segment,
    Segments, Totals,
};
pub use rule::NamedRule;
pub use stored::{Status, StoredSubnet};
pub use trace::{Include, NamedFunc, NamedFuncs, RawCondition, TraceAsk, TraceKind};
pub use typed::{CheckAsk, DiagramAsk, Func, Funcs, PathAsk, TypedAsk, Weight};
pub use un_defs::{Edit, Limit, NamedAttrs, Refusal};
pub use un_schema::{Name, Place};
pub use word::EditWord;
