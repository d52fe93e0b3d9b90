use un_schema::Name;

/// A rule as a request gives it: kinds by name, terminals by number from 0 to 8. Terminal 0 stands for each terminal.
#[derive(Drop)]
pub enum NamedRule {
    JunctionEdge {
        junction: Name,
        terminal: u8,
        line: Name,
    },
    JunctionJunction {
        first: Name,
        first_terminal: u8,
        second: Name,
        second_terminal: u8,
    },
    Containment {
        container: Name,
        content: Name,
    },
    Attachment {
        structure: Name,
        content: Name,
    },
    EdgeJunctionEdge {
        line: Name,
        terminal: u8,
        junction: Name,
        other_line: Name,
        other_terminal: u8,
    },
}
