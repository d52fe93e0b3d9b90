use crate::results::Labels;
use crate::trace::RawCondition;
use un_defs::Port;
use un_defs::port::Ports;
use un_schema::Name;

/// A query for the best walk from one port to another, as a request gives it.
#[derive(Drop)]
pub struct NamedPath {
    pub from: Port,
    pub to: Port,
    /// The attribute that a segment of a line costs, or none where each segment costs 1.
    pub weight: Option<Name>,
    pub barriers: Option<RawCondition>,
    pub stops: Ports,
    /// Whether the labels of the reached nodes are asked for too.
    pub certificate: bool,
}

/// A query whether labels and a walk are a valid certificate, as a request gives it.
#[derive(Drop)]
pub struct NamedCheck {
    pub from: Port,
    pub to: Port,
    /// The attribute that a segment of a line costs, or none where each segment costs 1.
    pub weight: Option<Name>,
    pub barriers: Option<RawCondition>,
    pub stops: Ports,
    /// The ports of the walk, none for the claim that there is no walk.
    pub nodes: Ports,
    pub labels: Labels,
}
