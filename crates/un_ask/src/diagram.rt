use crate::trace::RawCondition;
use un_defs::port::Ports;

/// A query for a collapsed diagram, as a request gives it.
#[derive(Drop)]
pub struct NamedDiagram {
    pub starts: Ports,
    /// Nodes whose entry meets it are kept, as the starts are.
    pub keep: RawCondition,
    pub barriers: Option<RawCondition>,
    pub stops: Ports,
}
