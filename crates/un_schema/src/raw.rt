use crate::items::Items;
use crate::kind::{Class, Policy};
use crate::named::Named;
use un_conds::Text;

/// Which forms of rules a schema may have.
#[derive(Clone, Copy, Debug, PartialEq, Eq, Hash)]
pub enum Format {
    /// All but those that join two lines.
    One,
    /// All.
    Two,
}

/// A schema as it is given: with names in place of numbers, and nothing of it looked at but the forms of its members.
///
/// A member that is none is missing or has another form.
#[derive(Drop)]
pub struct RawSchema {
    pub format: Format,
    pub attributes: Option<Items<Text>>,
    pub categories: Option<Items<Text>>,
    pub configs: Option<Items<RawConfig>>,
    pub kinds: Option<Items<RawKind>>,
    pub rules: Option<Items<RawRule>>,
}

/// A terminal configuration: its terminals by name, numbered from 1 by their order, and its paths.
#[derive(Drop)]
pub struct RawConfig {
    pub name: Text,
    pub directional: bool,
    pub terminals: Items<Text>,
    pub paths: Items<RawPath>,
}

/// A path: pairs of terminals by their numbers.
#[derive(Drop)]
pub struct RawPath {
    pub name: Text,
    pub pairs: Items<[u8; 2]>,
}

/// A kind. Its configuration is empty where it has none, and its categories are names.
#[derive(Drop)]
pub struct RawKind {
    pub name: Text,
    pub class: Class,
    pub group: u16,
    pub asset_type: u16,
    pub policy: Policy,
    pub config: Text,
    pub categories: Items<Text>,
    pub controller: bool,
}

/// A rule, with kinds by name.
#[derive(Drop)]
pub enum RawRule {
    JunctionEdge {
        junction: Text,
        terminal: u8,
        line: Text,
    },
    JunctionJunction {
        first: Text,
        first_terminal: u8,
        second: Text,
        second_terminal: u8,
    },
    Containment {
        container: Text,
        content: Text,
    },
    Attachment {
        structure: Text,
        content: Text,
    },
    EdgeJunctionEdge {
        line: Text,
        terminal: u8,
        junction: Text,
        other_line: Text,
        other_terminal: u8,
    },
}

impl Named for RawConfig {
    ghost text = { λ c. c.name };

    fn name(&self) -> &str {
        self.name.as_str()
    }
}

impl Named for RawPath {
    ghost text = { λ p. p.name };

    fn name(&self) -> &str {
        self.name.as_str()
    }
}

impl Named for RawKind {
    ghost text = { λ k. k.name };

    fn name(&self) -> &str {
        self.name.as_str()
    }
}
